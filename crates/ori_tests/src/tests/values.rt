// Each kind of value copied, and printed.
use super::samples::{Item, Sample, made};
use super::shared::{FIRST, TEMP, text};
use ori_bytes::{NoMemory, Text};
use ori_model::Row;
use ori_text::row_json;
use ori_value::{Document, FieldList, RidFieldList, Value, ValueList, link_names_rise};
use std::alloc::Global;

// A row with the copy of this value alone, as it is printed.
fn printed(alloc: Global, value: &Value) -> Result<Text, NoMemory> {
    let mut columns = FieldList::new(alloc);
    columns.set(text(alloc, "v")?, value.copy()?)?;
    row_json(alloc, &Row { columns })
}

// Whether a value is printed so.
fn shows(alloc: Global, value: &Value, want: &str) -> Result<bool, NoMemory> {
    let row = printed(alloc, value)?;
    Ok(row.as_str().strip_prefix("{\"v\":") == Some(want))
}

// The first of these values that is printed otherwise.
fn misprint(alloc: Global, cases: &[(Sample, &'static str)]) -> Result<Option<usize>, NoMemory> {
    for (i, (sample, want)) in cases.iter().enumerate() {
        if !shows(alloc, &made(alloc, *sample)?, want)? {
            return Ok(Some(i));
        }
    }
    Ok(None)
}

const PRINTED: &[(Sample, &str)] = &[
    (Sample::One(Item::Null), "null}"),
    (Sample::One(Item::Boolean(true)), "true}"),
    (Sample::One(Item::Integer(-2147483648)), "-2147483648}"),
    (Sample::One(Item::Short(-32768)), "-32768}"),
    (
        Sample::One(Item::Long(-9223372036854775808)),
        "-9223372036854775808}",
    ),
    (Sample::One(Item::Datetime(1577836800000)), "1577836800000}"),
    (Sample::One(Item::Byte(-128)), "-128}"),
    (Sample::One(Item::Link(1, 0)), "\"#1:0\"}"),
    (
        Sample::One(Item::Str("ä \"\\\n\u{1f}")),
        "\"ä \\\"\\\\\\n\\u001f\"}",
    ),
    (Sample::One(Item::Binary(&[0, 171, 255])), "\"00abff\"}"),
    (Sample::Links(&[FIRST, TEMP]), "[\"#1:0\",\"#-1:-2\"]}"),
    (Sample::Set(&[]), "[]}"),
];

#[test]
fn values_are_printed(rt: HostRuntime) {
    assert!(rt; misprint(rt.alloc(), PRINTED) == Ok(None));
}

fn named_links(alloc: Global) -> Result<Value, NoMemory> {
    let mut pairs = Vec::new(alloc);
    for (name, rid) in [("x", FIRST), ("y", TEMP)] {
        pairs.push((text(alloc, name)?, rid))?;
    }
    if !link_names_rise(&pairs) {
        return Ok(Value::Null);
    }
    Ok(Value::LinkMap(RidFieldList::from_vec(pairs)))
}

// A document with a class and the fields z and !.
fn document(alloc: Global) -> Result<Value, NoMemory> {
    let mut fields = FieldList::new(alloc);
    fields.set(text(alloc, "z")?, Value::Integer(1))?;
    fields.set(text(alloc, "!")?, Value::Null)?;
    Ok(Value::Embedded(Document {
        class: text(alloc, "Doc")?,
        fields,
    }))
}

// An empty map and a document.
fn list(alloc: Global) -> Result<Value, NoMemory> {
    let mut values = ValueList::new(alloc);
    values.push(Value::EmbeddedMap(FieldList::new(alloc)))?;
    values.push(document(alloc)?)?;
    Ok(Value::EmbeddedList(values))
}

fn nested(alloc: Global) -> Result<Value, NoMemory> {
    let mut map = FieldList::new(alloc);
    map.set(text(alloc, "p")?, list(alloc)?)?;
    Ok(Value::EmbeddedMap(map))
}

// Whether a value that was made is printed so.
fn is_shown(alloc: Global, value: Result<Value, NoMemory>, want: &str) -> bool {
    match value {
        Ok(value) => shows(alloc, &value, want) == Ok(true),
        Err(_) => false,
    }
}

#[test]
fn nested_values_are_printed(rt: HostRuntime) {
    let links = "{\"x\":\"#1:0\",\"y\":\"#-1:-2\"}}";
    assert!(rt; is_shown(rt.alloc(), named_links(rt.alloc()), links));
    let values = "{\"p\":[{},{\"!\":null,\"@class\":\"Doc\",\"z\":1}]}}";
    assert!(rt; is_shown(rt.alloc(), nested(rt.alloc()), values));
}

// A row with these columns, of which one is taken away, as it is printed.
fn left(alloc: Global, names: &[&str], gone: &str) -> Result<Text, NoMemory> {
    let mut columns = FieldList::new(alloc);
    for name in names {
        columns.set(text(alloc, name)?, Value::Null)?;
    }
    columns.unset(gone);
    row_json(alloc, &Row { columns })
}

// Whether a row of five columns without the second, and with one of them twice, is printed in their order.
fn is_left(alloc: Global) -> bool {
    match left(alloc, &["name", "age", "näme", "name", ""], "age") {
        Ok(row) => row.as_str() == "{\"\":null,\"name\":null,\"näme\":null}",
        Err(_) => false,
    }
}

#[test]
fn fields_by_name(rt: HostRuntime) {
    assert!(rt; is_left(rt.alloc()));
}
