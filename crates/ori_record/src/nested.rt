// Values of every kind, read by their kind. `depth` is how deep what is read may nest.
ghost use Rattle.std.specs.Prelude.{◌≡◌, length, map};
ghost use Rattle.ori_value.specs.Kinds.{kind_of};
ghost use Rattle.ori_spec_data.specs.Value.{embedded, embedded_map};
ghost use Rattle.ori_value.specs.View.{fields_of, tree_of, trees_of};
ghost use Rattle.ori_record.specs.Reading.{Gives, document_at, fields_at, held_at, item_at, items_at, map_at, pair_at};
ghost use Rattle.ori_record.specs.Reading.{is_nested, is_rising, nested_at, pairs_at, value_at, values_at};
ghost use Rattle.ori_record.specs.Seen.{head_data};

use crate::fault::RecordFault;
use crate::flat::flat;
use crate::heads::{Head, heads};
use crate::kinds::kind_from;
use crate::links::{link_list, link_map, link_set};
use crate::reader::Reader;
use ori_bytes::Text;
use ori_value::{Document, FieldList, Kind, Value, ValueList, names_rise};
use std::alloc::Global;

// Stands before a null in lists and maps, in place of a kind's number.
const NULL_MARK: u8 = 255;

// Whether values of the kind nest.
fn is_nested(kind: Kind) -> bool
    ensures { result ≡ is_nested (kind_of kind) }
{
    matches!(
        kind,
        Kind::Embedded
            | Kind::EmbeddedList
            | Kind::EmbeddedMap
            | Kind::LinkList
            | Kind::LinkSet
            | Kind::LinkMap
    )
}

// Whether names rise.
fn do_names_rise(pairs: &[(Text, Value)]) -> bool
    ensures { result ≡ is_rising (fields_of pairs.now) }
{
    names_rise(pairs)
}

// A value of this kind.
#[cycle(values)]
#[tactic(auto, unfolding(crate::specs::Reading::value_at))]
fn value(
    alloc: Global,
    reader: &mut Reader<'_>,
    kind: Kind,
    depth: u64,
) -> Result<Value, RecordFault>
    ensures { Gives (λ v. (tree_of v, reader.new)) result (value_at depth (kind_of kind) reader.old) }
{
    if depth == 0 {
        return flat(alloc, reader, kind);
    }
    if is_nested(kind) {
        return nested(alloc, reader, kind, depth - 1);
    }
    flat(alloc, reader, kind)
}

// A value of a kind that nests. NotRecord at another kind.
#[cycle(values)]
#[tactic(auto, unfolding(crate::specs::Reading::nested_at, crate::specs::Reading::list_at))]
fn nested(
    alloc: Global,
    reader: &mut Reader<'_>,
    kind: Kind,
    depth: u64,
) -> Result<Value, RecordFault>
    ensures { Gives (λ v. (tree_of v, reader.new)) result (nested_at (value_at depth) (kind_of kind) reader.old) }
{
    Ok(match kind {
        Kind::Embedded => Value::Embedded(document(alloc, reader, depth)?),
        Kind::EmbeddedList => {
            let count = reader.count()?;
            Value::EmbeddedList(ValueList::from_vec(items(alloc, reader, count, depth)?))
        }
        Kind::EmbeddedMap => Value::EmbeddedMap(map(alloc, reader, depth)?),
        Kind::LinkList => Value::LinkList(link_list(alloc, reader)?),
        Kind::LinkSet => Value::LinkSet(link_set(alloc, reader)?),
        Kind::LinkMap => Value::LinkMap(link_map(alloc, reader)?),
        _ => return Err(RecordFault::NotRecord),
    })
}

// An item of a list or the value of a map's pair: the number of its kind, and the value.
#[cycle(values)]
#[tactic(auto, unfolding(crate::specs::Reading::item_at))]
fn item(alloc: Global, reader: &mut Reader<'_>, depth: u64) -> Result<Value, RecordFault>
    ensures { Gives (λ v. (tree_of v, reader.new)) result (item_at (value_at depth) reader.old) }
{
    let mark = reader.octet()?;
    if mark == NULL_MARK {
        return Ok(Value::Null);
    }
    let Some(kind) = kind_from(mark) else {
        return Err(RecordFault::NotRecord);
    };
    value(alloc, reader, kind, depth)
}

// So many items.
#[cycle(values)]
fn items(
    alloc: Global,
    reader: &mut Reader<'_>,
    count: u64,
    depth: u64,
) -> Result<Vec<Value>, RecordFault>
    ensures { Gives (λ v. (trees_of v.items, reader.new)) result (items_at (value_at depth) count reader.old) }
{
    let mut items = Vec::new(alloc);
    for _ in 0..count {
        items.push(item(alloc, reader, depth)?)?;
    }
    Ok(items)
}

// A name and a value.
#[cycle(values)]
#[tactic(auto, unfolding(crate::specs::Reading::pair_at))]
fn pair(alloc: Global, reader: &mut Reader<'_>, depth: u64) -> Result<(Text, Value), RecordFault>
    ensures { Gives (λ x. ((x.0, tree_of x.1), reader.new)) result (pair_at (value_at depth) reader.old) }
{
    let name = reader.text()?;
    let value = item(alloc, reader, depth)?;
    Ok((Text::from_str(alloc, name)?, value))
}

// So many pairs.
#[cycle(values)]
fn pairs(
    alloc: Global,
    reader: &mut Reader<'_>,
    count: u64,
    depth: u64,
) -> Result<Vec<(Text, Value)>, RecordFault>
    ensures { Gives (λ v. (fields_of v.items, reader.new)) result (pairs_at (value_at depth) count reader.old) }
{
    let mut pairs = Vec::new(alloc);
    for _ in 0..count {
        pairs.push(pair(alloc, reader, depth)?)?;
    }
    Ok(pairs)
}

// The value of an entry, where so many bytes were left at the place from which pointers count.
#[cycle(values)]
#[tactic(auto, unfolding(crate::specs::Reading::held_at))]
pub(crate) fn held(
    alloc: Global,
    reader: &mut Reader<'_>,
    from: usize,
    head: &Head,
    depth: u64,
) -> Result<Value, RecordFault>
    ensures { Gives (λ v. (tree_of v, reader.new)) result
        (held_at (value_at depth) from (head_data head.now) reader.old) }
{
    if head.to == 0 && head.kind == 0 {
        return Ok(Value::Null);
    }
    if head.to as usize != from.saturating_sub(reader.rest().len()) {
        return Err(RecordFault::NotRecord);
    }
    let Some(kind) = kind_from(head.kind) else {
        return Err(RecordFault::NotRecord);
    };
    value(alloc, reader, kind, depth)
}

// The values of entries.
#[cycle(values)]
fn values(
    alloc: Global,
    reader: &mut Reader<'_>,
    from: usize,
    heads: Vec<Head>,
    depth: u64,
) -> Result<Vec<(Text, Value)>, RecordFault>
    ensures { Gives (λ v. (fields_of v.items, reader.new)) result
        (values_at (value_at depth) from (map head_data heads.items) reader.old) }
{
    let mut pairs = Vec::with_capacity(alloc, heads.len())?;
    for head in heads {
        let value = held(alloc, reader, from, &head, depth)?;
        pairs.push((head.name, value))?;
    }
    Ok(pairs)
}

// The header and the values of fields, where so many bytes were left at the place from which pointers count.
#[cycle(values)]
#[tactic(auto, unfolding(crate::specs::Reading::fields_at), using(crate::proofs::Rising::rising_of))]
fn fields(
    alloc: Global,
    reader: &mut Reader<'_>,
    from: usize,
    depth: u64,
) -> Result<FieldList, RecordFault>
    ensures { Gives (λ l. (l, reader.new)) result (fields_at (value_at depth) from reader.old) }
{
    let heads = heads(alloc, reader)?;
    let pairs = values(alloc, reader, from, heads, depth)?;
    if !do_names_rise(&pairs) {
        return Err(RecordFault::NotRecord);
    }
    Ok(FieldList::from_vec(pairs))
}

// A document: its class, and its fields.
#[cycle(values)]
#[tactic(auto, unfolding(crate::specs::Reading::document_at))]
fn document(alloc: Global, reader: &mut Reader<'_>, depth: u64) -> Result<Document, RecordFault>
    ensures { Gives (λ d. (embedded d.class d.fields, reader.new)) result (document_at (value_at depth) reader.old) }
{
    let from = reader.rest().len();
    let class = reader.text()?;
    let fields = fields(alloc, reader, from, depth)?;
    let class = Text::from_str(alloc, class)?;
    Ok(Document { class, fields })
}

// Pairs of a name and a value after their number. Names rise.
#[cycle(values)]
#[tactic(auto, unfolding(crate::specs::Reading::map_at), using(crate::proofs::Rising::rising_of))]
fn map(alloc: Global, reader: &mut Reader<'_>, depth: u64) -> Result<FieldList, RecordFault>
    ensures { Gives (λ l. (embedded_map l, reader.new)) result (map_at (value_at depth) reader.old) }
{
    let count = reader.count()?;
    let pairs = pairs(alloc, reader, count, depth)?;
    if !do_names_rise(&pairs) {
        return Err(RecordFault::NotRecord);
    }
    Ok(FieldList::from_vec(pairs))
}
