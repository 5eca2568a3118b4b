// Values in short.
use super::shared::{rids, text};
use ori_bytes::{Blob, NoMemory, Rid};
use ori_value::{Document, FieldList, RidFieldList, Value, ValueList, link_names_rise};
use std::alloc::Global;

// A value that is no list, map or document.
#[derive(Clone, Copy)]
pub enum Item {
    Null,
    Boolean(bool),
    Integer(i32),
    Short(i16),
    Long(i64),
    Datetime(i64),
    Byte(i8),
    Str(&'static str),
    Binary(&'static [u8]),
    Link(i16, i64),
}

// A value, of which a map has at most one entry.
#[derive(Clone, Copy)]
pub enum Sample {
    One(Item),
    List(&'static [Item]),
    Links(&'static [Rid]),
    Set(&'static [Rid]),
    Map(Option<(&'static str, Item)>),
    LinkMap(Option<(&'static str, Rid)>),
    Document(&'static str, Option<(&'static str, Item)>),
}

pub fn single(alloc: Global, item: Item) -> Result<Value, NoMemory> {
    Ok(match item {
        Item::Null => Value::Null,
        Item::Boolean(is_true) => Value::Boolean(is_true),
        Item::Integer(number) => Value::Integer(number),
        Item::Short(number) => Value::Short(number),
        Item::Long(number) => Value::Long(number),
        Item::Datetime(number) => Value::Datetime(number),
        Item::Byte(number) => Value::Byte(number),
        Item::Str(said) => Value::Str(text(alloc, said)?),
        Item::Binary(bytes) => Value::Binary(Blob::from_slice(alloc, bytes)?),
        Item::Link(cluster, position) => Value::Link(Rid { cluster, position }),
    })
}

fn list(alloc: Global, items: &[Item]) -> Result<ValueList, NoMemory> {
    let mut values = ValueList::new(alloc);
    for one in items {
        values.push(single(alloc, *one)?)?;
    }
    Ok(values)
}

fn fields(alloc: Global, entry: Option<(&'static str, Item)>) -> Result<FieldList, NoMemory> {
    let mut fields = FieldList::new(alloc);
    if let Some((name, one)) = entry {
        fields.set(text(alloc, name)?, single(alloc, one)?)?;
    }
    Ok(fields)
}

fn links(alloc: Global, entry: Option<(&'static str, Rid)>) -> Result<RidFieldList, NoMemory> {
    let mut pairs = Vec::new(alloc);
    if let Some((name, rid)) = entry {
        pairs.push((text(alloc, name)?, rid))?;
    }
    if !link_names_rise(&pairs) {
        return Ok(RidFieldList::new(alloc));
    }
    Ok(RidFieldList::from_vec(pairs))
}

pub fn made(alloc: Global, sample: Sample) -> Result<Value, NoMemory> {
    Ok(match sample {
        Sample::One(one) => single(alloc, one)?,
        Sample::List(items) => Value::EmbeddedList(list(alloc, items)?),
        Sample::Links(items) => Value::LinkList(rids(alloc, items)?),
        Sample::Set(items) => Value::LinkSet(rids(alloc, items)?),
        Sample::Map(entry) => Value::EmbeddedMap(fields(alloc, entry)?),
        Sample::LinkMap(entry) => Value::LinkMap(links(alloc, entry)?),
        Sample::Document(class, entry) => Value::Embedded(Document {
            class: text(alloc, class)?,
            fields: fields(alloc, entry)?,
        }),
    })
}
