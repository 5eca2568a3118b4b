// Values whose links to temporary identifiers become the fresh ones, in place and at every depth.
ghost use Rattle.std.specs.Prelude.{◌≡◌};
ghost use Rattle.ori_spec_data.specs.Apply.{relinked, relinked_trees, relinked_fields};
ghost use Rattle.ori_value.specs.View.{tree_of};

use crate::links::{relink_all, relink_links, relink_set};
use crate::renamings::Renamings;
use ori_value::{FieldList, Value, ValueList};
use std::alloc::Global;
use std::mem;

// Renames the links of a value.
#[cycle(relinks)]
fn relink_value(alloc: Global, value: &mut Value, pairs: &Renamings)
    ensures { tree_of value.new ≡ relinked pairs.now (tree_of value.old) }
{
    match value {
        Value::Null => {}
        Value::Boolean(_) => {}
        Value::Integer(_) => {}
        Value::Short(_) => {}
        Value::Long(_) => {}
        Value::Datetime(_) => {}
        Value::Str(_) => {}
        Value::Binary(_) => {}
        Value::Embedded(document) => relink(alloc, &mut document.fields, pairs),
        Value::EmbeddedList(values) => relink_values(alloc, values, pairs),
        Value::EmbeddedMap(fields) => relink(alloc, fields, pairs),
        Value::Link(rid) => *rid = pairs.real(*rid),
        Value::LinkList(rids) => relink_all(alloc, rids, pairs),
        Value::LinkSet(rids) => relink_set(alloc, rids, pairs),
        Value::LinkMap(links) => relink_links(alloc, links, pairs),
        Value::Byte(_) => {}
    }
}

// Renames the links of values.
#[cycle(relinks)]
fn relink_values(alloc: Global, values: &mut ValueList, pairs: &Renamings)
    ensures { values.new ≡ relinked_trees pairs.now values.old }
{
    let mut all = mem::replace(values, ValueList::new(alloc)).into_vec();
    for i in 0..all.len() {
        relink_value(alloc, &mut all[i], pairs);
    }
    *values = ValueList::from_vec(all);
}

/// Renames the links of fields, at every depth: links to the temporary identifiers of the pairs become what stands
/// beside them. Takes no memory.
#[cycle(relinks)]
pub fn relink(alloc: Global, fields: &mut FieldList, pairs: &Renamings)
    ensures { fields.new ≡ relinked_fields pairs.now fields.old }
{
    let mut all = mem::replace(fields, FieldList::new(alloc)).into_vec();
    for i in 0..all.len() {
        relink_value(alloc, &mut all[i].1, pairs);
    }
    *fields = FieldList::from_vec(all);
}
