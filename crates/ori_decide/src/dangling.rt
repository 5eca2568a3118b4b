// Links to temporary identifiers that a transaction doesn't create.
ghost use Rattle.std.specs.Prelude.{◌≡◌, map, option_map};
ghost use Rattle.ori_spec_data.specs.Refusing as refusing;
ghost use Rattle.ori_spec_data.specs.Refusing.{has_dangling_rid, has_dangling_link, is_dangling_in};
ghost use Rattle.ori_spec_data.specs.Refusing.{is_dangling_in_trees};
ghost use Rattle.ori_spec_data.specs.Refusing.{is_dangling_in_fields};
ghost use Rattle.ori_value.specs.View.{tree_of};
ghost use Rattle.ori_model.specs.Data.{change_of};
ghost use Rattle.ori_decide.specs.Leaving.{HasNew};

use crate::renamings::{Renamings, is_temporary};
use ori_bytes::{Rid, RidList, Text};
use ori_model::Change;
use ori_value::{FieldList, RidFieldList, Value, ValueList};

// A temporary identifier that none of the changes creates. Those that they create are the first ones of the pairs.
fn is_dangling(changes: &[Change], pairs: &Renamings, rid: Rid) -> bool
    requires { HasNew (map change_of changes.now) pairs.now }
    ensures { result ≡ refusing.is_dangling (map change_of changes.now) rid }
{
    is_temporary(rid) && !pairs.has(rid)
}

fn is_in_rids(changes: &[Change], pairs: &Renamings, rids: &RidList) -> bool
    requires { HasNew (map change_of changes.now) pairs.now }
    ensures { result ≡ has_dangling_rid (map change_of changes.now) rids.now }
{
    let items = rids.as_slice();
    for rid in items {
        if is_dangling(changes, pairs, *rid) {
            return true;
        }
    }
    false
}

fn is_in_links(changes: &[Change], pairs: &Renamings, links: &RidFieldList) -> bool
    requires { HasNew (map change_of changes.now) pairs.now }
    ensures { result ≡ has_dangling_link (map change_of changes.now) links.now }
{
    let items = links.as_slice();
    for (_, rid) in items {
        if is_dangling(changes, pairs, *rid) {
            return true;
        }
    }
    false
}

#[cycle(dangles)]
fn is_in_value(changes: &[Change], pairs: &Renamings, value: &Value) -> bool
    requires { HasNew (map change_of changes.now) pairs.now }
    ensures { result ≡ is_dangling_in (map change_of changes.now) (tree_of value.now) }
{
    match value {
        Value::Null => false,
        Value::Boolean(_) => false,
        Value::Integer(_) => false,
        Value::Short(_) => false,
        Value::Long(_) => false,
        Value::Datetime(_) => false,
        Value::Str(_) => false,
        Value::Binary(_) => false,
        Value::Embedded(document) => is_in_fields(changes, pairs, &document.fields),
        Value::EmbeddedList(values) => is_in_values(changes, pairs, values),
        Value::EmbeddedMap(fields) => is_in_fields(changes, pairs, fields),
        Value::Link(rid) => is_dangling(changes, pairs, *rid),
        Value::LinkList(rids) => is_in_rids(changes, pairs, rids),
        Value::LinkSet(rids) => is_in_rids(changes, pairs, rids),
        Value::LinkMap(links) => is_in_links(changes, pairs, links),
        Value::Byte(_) => false,
    }
}

#[cycle(dangles)]
fn is_in_values(changes: &[Change], pairs: &Renamings, values: &ValueList) -> bool
    requires { HasNew (map change_of changes.now) pairs.now }
    ensures { result ≡ is_dangling_in_trees (map change_of changes.now) values.now }
{
    let items = values.as_slice();
    for value in items {
        if is_in_value(changes, pairs, value) {
            return true;
        }
    }
    false
}

#[cycle(dangles)]
fn is_in_fields(changes: &[Change], pairs: &Renamings, fields: &FieldList) -> bool
    requires { HasNew (map change_of changes.now) pairs.now }
    ensures { result ≡ is_dangling_in_fields (map change_of changes.now) fields.now }
{
    let items = fields.as_slice();
    for (_, value) in items {
        if is_in_value(changes, pairs, value) {
            return true;
        }
    }
    false
}

/// The name of the first field with such a link.
pub fn dangling_field<'a>(
    changes: &[Change],
    pairs: &Renamings,
    fields: &'a FieldList,
) -> Option<&'a Text>
    requires { HasNew (map change_of changes.now) pairs.now }
    ensures { option_map (λ t. t.now) result ≡ refusing.dangling_field (map change_of changes.now) fields.now }
{
    let items = fields.as_slice();
    for (name, value) in items {
        if is_in_value(changes, pairs, value) {
            return Some(name);
        }
    }
    None
}
