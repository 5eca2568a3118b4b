// Values of every kind, written. `depth` is how deep what is written may nest.
ghost use Rattle.std.specs.Prelude.{◌≡◌, ◌+◌, ◌-◌, ◌<◌, ◌≤◌, ◌^◌, IfOk, IsTrue, length, OnOk};
ghost use Rattle.ori_spec_data.specs.Value.{embedded, embedded_list, embedded_map, link_map};
ghost use Rattle.ori_spec_data.specs.Value.{fields_nesting, nesting, trees_nesting};
ghost use Rattle.ori_spec_data.specs.Apply.{are_named, are_proper, are_proper_fields, is_proper};
ghost use Rattle.ori_value.specs.View.{fields_of, tree_of, trees_of};
ghost use Rattle.ori_record.specs.Seen.{own_left, own_of};
ghost use Rattle.ori_record.specs.Spelling.{AreItems, AreLinks, AreOwnFields, ArePairs, IsCount, IsHeaded, IsMarked};
ghost use Rattle.ori_record.specs.Spelling.{IsOwnValue, IsText, IsValue, Joins, item_number, kind_number, own_name};
ghost use Rattle.ori_record.specs.Spelling.{own_number, own_pointer, pointer};
ghost use Rattle.ori_record.specs.Writable.{HasPlaces, ItemsHavePlaces, PairsHavePlaces, first_place, merged};
ghost use Rattle.ori_record.specs.Writable.{own_header_size};
ghost use Rattle.ori_record.specs.Writing.{Adds, AreHoles, AreReady, CanHold, Fills, FillsOne, HasHole, HasHoles};
ghost use Rattle.ori_record.specs.Writing.{IsEntry, IsReady, Makes, Puts, own_nesting, own_nestings};

use crate::bags::put_bag;
use crate::entries::{POINTER_BYTES, name_size, own_pointer, put_holes, set_pointer};
use crate::fault::RecordFault;
use crate::kinds::kind_number;
use crate::leaves::{
    octet_of, put_bytes, put_count, put_i16, put_i32, put_i64, put_link, put_links,
    put_named_links, put_text,
};
use crate::own::{Field, Own};
use ori_bytes::{Blob, NoMemory, RidList, Text};
use ori_value::{Document, FieldList, RidFieldList, Value, ValueList};
use std::alloc::Global;

// Stands before a null in lists and maps, in place of a kind's number.
const NULL_MARK: u8 = 255;

// The number that stands before an item.
fn item_number(value: &Value) -> u8
    ensures { result ≡ item_number (tree_of value.now) }
{
    match value {
        Value::Null => NULL_MARK,
        _ => kind_number(value),
    }
}

// Adds links after their number.
fn put_link_list(out: &mut Blob, rids: &RidList, depth: u64) -> Result<(), RecordFault>
    ensures { Puts (Joins (IsCount (length rids.now)) (AreLinks rids.now)) 1 depth out.old out.new result }
{
    if depth == 0 {
        return Err(RecordFault::TooDeep);
    }
    let rids = rids.as_slice();
    put_count(out, rids.len())?;
    put_links(out, rids)?;
    Ok(())
}

// Adds pairs of a name and a link after their number.
fn put_link_map(out: &mut Blob, links: &RidFieldList, depth: u64) -> Result<(), RecordFault>
    ensures { Puts (IsValue (link_map links.now)) 1 depth out.old out.new result }
{
    if depth == 0 {
        return Err(RecordFault::TooDeep);
    }
    let links = links.as_slice();
    put_count(out, links.len())?;
    put_named_links(out, links)?;
    Ok(())
}

// Adds the bytes of a value that nests nothing.
fn put_flat(out: &mut Blob, value: &Value) -> Result<(), NoMemory>
    requires { nesting (tree_of value.now) ≡ 0 }
    ensures { OnOk result (Adds (IsValue (tree_of value.now)) out.old out.new) }
{
    match value {
        Value::Boolean(is_true) => out.push(u8::from(*is_true)),
        Value::Integer(number) => put_i32(out, *number),
        Value::Short(number) => put_i16(out, *number),
        Value::Long(number) => put_i64(out, *number),
        Value::Datetime(moment) => put_i64(out, *moment),
        Value::Str(text) => put_text(out, text.as_str()),
        Value::Binary(bytes) => put_bytes(out, bytes.as_slice()),
        Value::Link(rid) => put_link(out, rid),
        Value::Byte(number) => out.push(octet_of(*number)),
        _ => Ok(()),
    }
}

// Adds a value's bytes.
#[cycle(puts)]
fn put_value(alloc: Global, out: &mut Blob, value: &Value, depth: u64) -> Result<(), RecordFault>
    requires proper { IsTrue (is_proper (tree_of value.now)) }
    requires placed { HasPlaces (tree_of value.now) }
    ensures { Puts (IsValue (tree_of value.now)) (nesting (tree_of value.now)) depth out.old out.new result }
{
    match value {
        Value::Embedded(document) => put_document(alloc, out, document, depth),
        Value::EmbeddedList(values) => put_list(alloc, out, values, depth),
        Value::EmbeddedMap(fields) => put_map(alloc, out, fields, depth),
        Value::LinkList(rids) => put_link_list(out, rids, depth),
        Value::LinkSet(rids) => put_link_list(out, rids, depth),
        Value::LinkMap(links) => put_link_map(out, links, depth),
        _ => Ok(put_flat(out, value)?),
    }
}

// Adds an item of a list or the value of a map's pair: the number of its kind, and the value.
#[cycle(puts)]
fn put_item(alloc: Global, out: &mut Blob, value: &Value, depth: u64) -> Result<(), RecordFault>
    requires proper { IsTrue (is_proper (tree_of value.now)) }
    requires placed { HasPlaces (tree_of value.now) }
    ensures { Puts (IsMarked (item_number (tree_of value.now)) (λ b. IsValue (tree_of value.now) b))
        (nesting (tree_of value.now)) depth out.old out.new result }
{
    out.push(item_number(value))?;
    put_value(alloc, out, value, depth)
}

// Adds items.
#[cycle(puts)]
fn put_items(alloc: Global, out: &mut Blob, values: &[Value], depth: u64) -> Result<(), RecordFault>
    requires proper { IsTrue (are_proper (trees_of values.now)) }
    requires placed { ItemsHavePlaces (trees_of values.now) }
    ensures { Puts (λ b. AreItems (trees_of values.now) b) (trees_nesting (trees_of values.now)) depth out.old out.new
        result }
{
    for value in values {
        put_item(alloc, out, value, depth)?;
    }
    Ok(())
}

// Adds pairs of a name and a value.
#[cycle(puts)]
fn put_pairs(
    alloc: Global,
    out: &mut Blob,
    pairs: &[(Text, Value)],
    depth: u64,
) -> Result<(), RecordFault>
    requires proper { IsTrue (are_proper_fields (fields_of pairs.now)) }
    requires placed { PairsHavePlaces (fields_of pairs.now) }
    ensures { Puts (λ b. ArePairs (fields_of pairs.now) b) (fields_nesting (fields_of pairs.now)) depth out.old
        out.new result }
{
    for (name, value) in pairs {
        put_text(out, name.as_str())?;
        put_item(alloc, out, value, depth)?;
    }
    Ok(())
}

// Adds a list of values after their number.
#[cycle(puts)]
fn put_list(
    alloc: Global,
    out: &mut Blob,
    values: &ValueList,
    depth: u64,
) -> Result<(), RecordFault>
    requires proper { IsTrue (are_proper values.now) }
    requires placed { ItemsHavePlaces values.now }
    ensures { Puts (IsValue (embedded_list values.now)) (nesting (embedded_list values.now)) depth out.old out.new
        result }
{
    if depth == 0 {
        return Err(RecordFault::TooDeep);
    }
    let values = values.as_slice();
    put_count(out, values.len())?;
    put_items(alloc, out, values, depth - 1)
}

// Adds pairs of a name and a value after their number.
#[cycle(puts)]
fn put_map(alloc: Global, out: &mut Blob, fields: &FieldList, depth: u64) -> Result<(), RecordFault>
    requires proper { IsTrue (are_proper_fields fields.now) }
    requires placed { PairsHavePlaces fields.now }
    ensures { Puts (IsValue (embedded_map fields.now)) (nesting (embedded_map fields.now)) depth out.old out.new
        result }
{
    if depth == 0 {
        return Err(RecordFault::TooDeep);
    }
    let pairs = fields.as_slice();
    put_count(out, pairs.len())?;
    put_pairs(alloc, out, pairs, depth - 1)
}

// Adds the value of a field.
#[cycle(puts)]
fn put_held(alloc: Global, out: &mut Blob, field: &Field<'_>, depth: u64) -> Result<(), RecordFault>
    requires { CanHold (own_of field.now) }
    ensures { Puts (IsOwnValue (own_of field.now)) (own_nesting (own_of field.now)) depth out.old out.new result }
{
    match field {
        Field::Plain(_, value) => put_value(alloc, out, value, depth),
        Field::Bagged(field) => Ok(put_bag(out, &field.bag)?),
    }
}

// Adds the value of the field whose entry stands at this place, and sets the entry's pointer, which counts from `base`.
// Returns where the next entry stands.
#[cycle(puts)]
fn fill(
    alloc: Global,
    out: &mut Blob,
    base: usize,
    at: usize,
    field: &Field<'_>,
    depth: u64,
) -> Result<usize, RecordFault>
    requires below { base ≤ length out.old }
    requires ready { IsReady (own_of field.now) (length out.old - base) }
    requires hole { HasHole (own_of field.now) at out.old }
    ensures { Makes (λ next. (h : HasHole (own_of field.now) at out.old)
        → FillsOne (own_of field.now) (length out.old - base) h.front h.back out.new next)
        (own_nesting (own_of field.now)) depth result }
{
    let to = own_pointer(field, out.len() - base);
    let pointer_at = at + name_size(field);
    set_pointer(alloc, out, pointer_at, to);
    put_held(alloc, out, field, depth)?;
    Ok(pointer_at + POINTER_BYTES + 1)
}

// Adds the values of the fields whose entries begin at this place, and sets the entries' pointers, which count from
// `base`.
#[cycle(puts)]
fn put_values(
    alloc: Global,
    out: &mut Blob,
    base: usize,
    at: usize,
    own: Own<'_>,
    depth: u64,
) -> Result<(), RecordFault>
    requires below { base ≤ length out.old }
    requires ready { AreReady (length out.old - base) (own_left own) }
    requires holes { HasHoles (own_left own) at out.old }
    ensures { Makes (λ _. (h : HasHoles (own_left own.entry) at out.old)
        → Fills (own_left own.entry) (length out.old - base) h.front h.back out.new)
        (own_nestings (own_left own.entry)) depth result }
{
    let mut left = own;
    let mut place = at;
    while let Some(field) = left.next() {
        place = fill(alloc, out, base, place, &field, depth)?;
    }
    Ok(())
}

// Adds a class, a header and the values. Pointers count from `base`.
#[cycle(puts)]
pub(crate) fn put_header(
    alloc: Global,
    out: &mut Blob,
    base: usize,
    class: &str,
    own: Own<'_>,
    depth: u64,
) -> Result<(), RecordFault>
    requires below { base ≤ length out.old }
    requires ready { AreReady (first_place (length out.old - base) class.now (own_header_size (own_left own)))
        (own_left own) }
    ensures { Puts (λ b. IsHeaded (length out.old - base) class.now
        (λ at e v. AreOwnFields at (own_left own.entry) e v) b) (own_nestings (own_left own.entry)) depth out.old
        out.new result }
{
    put_text(out, class)?;
    let at = out.len();
    put_holes(out, own)?;
    out.push(0)?;
    put_values(alloc, out, base, at, own, depth)
}

// Adds a document: its class, and its fields.
#[cycle(puts)]
fn put_document(
    alloc: Global,
    out: &mut Blob,
    document: &Document,
    depth: u64,
) -> Result<(), RecordFault>
    requires proper { IsTrue (is_proper (embedded document.now.class document.now.fields)) }
    requires placed { HasPlaces (embedded document.now.class document.now.fields) }
    ensures { Puts (IsValue (embedded document.now.class document.now.fields))
        (nesting (embedded document.now.class document.now.fields)) depth out.old out.new result }
{
    if depth == 0 {
        return Err(RecordFault::TooDeep);
    }
    let base = out.len();
    put_header(
        alloc,
        out,
        base,
        document.class.as_str(),
        Own::new(document.fields.as_slice(), &[]),
        depth - 1,
    )
}
