// How many bytes records and entries count.
ghost use Rattle.std.specs.Prelude.{◌≡◌, ◌+◌, ◌≤◌, length, map, IfOk};
ghost use Rattle.ori_spec_data.specs.Sizes.{varint_size, count_size, text_size, link_size, rids_size, links_count};
ghost use Rattle.ori_spec_data.specs.Sizes.{links_size, trees_count, fields_count, value_size, items_size};
ghost use Rattle.ori_spec_data.specs.Sizes.{entries_size, fields_size, record_size};
ghost use Rattle.ori_spec_data.specs.Weighing.{changes_bytes};
ghost use Rattle.ori_spec_data.specs.Weighing as weighing;
ghost use Rattle.ori_value.specs.View.{tree_of};
ghost use Rattle.ori_model.specs.Data.{change_of, entry_of};

use crate::{Change, ChangeList, Entry};
use ori_bytes::limits::{CHANGE_FEED_BYTES, DEFINITION_FEED_BYTES};
use ori_bytes::{NoMemory, Rid, RidList, Text, varint_len};
use ori_value::{FieldList, RidFieldList, Value, ValueList};

// There is no memory for so many bytes that a `u64` can't count them.
fn sum(one: u64, other: u64) -> Result<u64, NoMemory>
    ensures { IfOk result (λ n. n ≡ one + other) }
{
    one.checked_add(other).ok_or(NoMemory)
}

fn sum_of_three(one: u64, two: u64, three: u64) -> Result<u64, NoMemory>
    ensures { IfOk result (λ n. n ≡ one + two + three) }
{
    sum(sum(one, two)?, three)
}

// A count of bytes or items.
fn count_bytes(count: usize) -> Result<u64, NoMemory>
    ensures { IfOk result (λ n. n ≡ count_size count) }
{
    let Ok(number) = i64::try_from(count) else {
        return Err(NoMemory);
    };
    Ok(varint_len(number) as u64)
}

// Bytes behind their number.
fn run_bytes(len: usize) -> Result<u64, NoMemory>
    ensures { IfOk result (λ n. n ≡ count_size len + len) }
{
    sum(count_bytes(len)?, len as u64)
}

fn text_bytes(text: &Text) -> Result<u64, NoMemory>
    ensures { IfOk result (λ n. n ≡ text_size text.now) }
{
    run_bytes(text.len())
}

fn number_bytes(number: i64) -> u64
    ensures size { result ≡ varint_size number }
    ensures most { result ≤ 10 }
{
    varint_len(number) as u64
}

fn rid_bytes(rid: Rid) -> u64
    ensures { result ≡ link_size rid }
{
    number_bytes(i64::from(rid.cluster)) + number_bytes(rid.position)
}

fn rids_bytes(rids: &RidList) -> Result<u64, NoMemory>
    ensures { IfOk result (λ n. n ≡ count_size (length rids.now) + rids_size rids.now) }
{
    let items = rids.as_slice();
    let mut total = count_bytes(items.len())?;
    for rid in items {
        total = sum(total, rid_bytes(*rid))?;
    }
    Ok(total)
}

fn links_bytes(links: &RidFieldList) -> Result<u64, NoMemory>
    ensures { IfOk result (λ n. n ≡ count_size (links_count links.now) + links_size links.now) }
{
    let pairs = links.as_slice();
    let mut total = count_bytes(pairs.len())?;
    for (name, rid) in pairs {
        total = sum_of_three(total, text_bytes(name)?, rid_bytes(*rid))?;
    }
    Ok(total)
}

// A name, and so many bytes beside it.
fn named_bytes(name: &Text, beside: u64) -> Result<u64, NoMemory>
    ensures { IfOk result (λ n. n ≡ text_size name.now + beside) }
{
    sum(text_bytes(name)?, beside)
}

// A value, without its kind's number.
#[cycle(measures)]
fn value_bytes(value: &Value) -> Result<u64, NoMemory>
    ensures { IfOk result (λ n. n ≡ value_size (tree_of value.now)) }
{
    match value {
        Value::Null => Ok(0),
        Value::Boolean(_) => Ok(1),
        Value::Integer(number) => Ok(number_bytes(i64::from(*number))),
        Value::Short(number) => Ok(number_bytes(i64::from(*number))),
        Value::Long(number) => Ok(number_bytes(*number)),
        Value::Datetime(moment) => Ok(number_bytes(*moment)),
        Value::Str(text) => text_bytes(text),
        Value::Binary(bytes) => run_bytes(bytes.len()),
        Value::Embedded(document) => {
            let fields = fields_bytes(&document.fields)?;
            sum_of_three(text_bytes(&document.class)?, fields, 1)
        }
        Value::EmbeddedList(values) => items_bytes(values),
        Value::EmbeddedMap(fields) => entries_bytes(fields),
        Value::Link(rid) => Ok(rid_bytes(*rid)),
        Value::LinkList(rids) => rids_bytes(rids),
        Value::LinkSet(rids) => rids_bytes(rids),
        Value::LinkMap(links) => links_bytes(links),
        Value::Byte(_) => Ok(1),
    }
}

// The items of a list, behind their number.
#[cycle(measures)]
fn items_bytes(values: &ValueList) -> Result<u64, NoMemory>
    ensures { IfOk result (λ n. n ≡ count_size (trees_count values.now) + items_size values.now) }
{
    let items = values.as_slice();
    let mut total = count_bytes(items.len())?;
    for value in items {
        total = sum_of_three(total, 1, value_bytes(value)?)?;
    }
    Ok(total)
}

// The entries of a map, behind their number.
#[cycle(measures)]
fn entries_bytes(fields: &FieldList) -> Result<u64, NoMemory>
    ensures { IfOk result (λ n. n ≡ count_size (fields_count fields.now) + entries_size fields.now) }
{
    let pairs = fields.as_slice();
    let mut total = count_bytes(pairs.len())?;
    for (name, value) in pairs {
        total = sum_of_three(total, named_bytes(name, 1)?, value_bytes(value)?)?;
    }
    Ok(total)
}

// Fields of a record or a document: their header, without its end, and their values.
#[cycle(measures)]
fn fields_bytes(fields: &FieldList) -> Result<u64, NoMemory>
    ensures { IfOk result (λ n. n ≡ fields_size fields.now) }
{
    let pairs = fields.as_slice();
    let mut total = 0;
    for (name, value) in pairs {
        total = sum_of_three(total, named_bytes(name, 5)?, value_bytes(value)?)?;
    }
    Ok(total)
}

// A record whose class's name has so many bytes.
fn sized_bytes(class_len: usize, fields: &FieldList) -> Result<u64, NoMemory>
    ensures { IfOk result (λ n. n ≡ 6 + (count_size class_len + class_len) + fields_size fields.now) }
{
    sum_of_three(6, run_bytes(class_len)?, fields_bytes(fields)?)
}

/// How many bytes a record of this class with these fields takes. There is no memory for one of more bytes than a `u64`
/// counts.
pub fn record_bytes(class: &Text, fields: &FieldList) -> Result<u64, NoMemory>
    ensures { IfOk result (λ n. n ≡ record_size class.now fields.now) }
{
    sized_bytes(class.len(), fields)
}

/// How many bytes a change counts in the feed. There is no memory for more than a `u64` counts.
pub fn change_bytes(change: &Change) -> Result<u64, NoMemory>
    ensures { IfOk result (λ n. n ≡ weighing.change_bytes (change_of change.now)) }
{
    match change {
        Change::Create { class, fields, .. } => sum(
            CHANGE_FEED_BYTES,
            record_bytes(class, fields)?,
        ),
        Change::Update { fields, .. } => sum(CHANGE_FEED_BYTES, sized_bytes(0, fields)?),
        Change::Delete { .. } => Ok(CHANGE_FEED_BYTES),
        Change::Touch { .. } => Ok(CHANGE_FEED_BYTES),
    }
}

fn all_bytes(changes: &ChangeList) -> Result<u64, NoMemory>
    ensures { IfOk result (λ n. n ≡ changes_bytes (map change_of changes.now)) }
{
    let mut total = 0;
    for change in changes.as_slice() {
        let more = change_bytes(change)?;
        total = sum(total, more)?;
    }
    Ok(total)
}

/// How many bytes an entry counts in the feed. There is no memory for more than a `u64` counts.
pub fn entry_bytes(entry: &Entry) -> Result<u64, NoMemory>
    ensures { IfOk result (λ n. n ≡ weighing.entry_bytes (entry_of entry.now)) }
{
    match entry {
        Entry::Commit { tx, .. } => all_bytes(&tx.changes),
        Entry::Define { .. } => Ok(DEFINITION_FEED_BYTES),
    }
}
