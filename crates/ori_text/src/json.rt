// Identifiers as text, and values and rows as JSON.
ghost use Rattle.std.specs.Prelude.{◌≡◌, ◌<◌, ◌/◌, ◌%◌, ◌++◌, ◌∷◌, [], IfOk, OnOk, string_bytes};
ghost use Rattle.std.specs.Char.{digit_char};
ghost use Rattle.serde_json.specs.Data.{array, object, string, put};
ghost use Rattle.serde_json.specs.View.{view, members_view};
ghost use Rattle.ori_spec_texts.specs.Json.{
  row_json,
  rid_text,
  hex,
  rids_items,
  links_members,
  with_class,
  json_of,
  trees_items,
  fields_members,
};
ghost use Rattle.ori_value.specs.View.{tree_of};
ghost use Rattle.ori_model.specs.Replies.{row_of};

use ori_bytes::{Blob, NoMemory, Rid, Text};
use ori_model::Row;
use ori_value::{FieldList, RidFieldList, Value, ValueList};
use serde_json::{Map, Value as Json};
use std::alloc::{AllocError, Global};

// A record identifier as text.
pub(crate) fn rid_string(alloc: Global, rid: Rid) -> Result<String, AllocError>
    ensures { IfOk result (λ s. string_bytes s ≡ rid_text rid) }
{
    let Rid { cluster, position } = rid;
    format!(in alloc; "#{cluster}:{position}")
}

// The digit of a number below 16.
fn hex_digit(value: u8) -> char
    requires { value < 16 }
    ensures digit { result ≡ digit_char value }
    ensures ascii { result < 128 }
{
    if value < 10 {
        return (b'0' + value) as char;
    }
    (b'a' - 10 + value) as char
}

// Adds the two digits of a byte.
fn put_hex(text: &mut String, byte: u8) -> Result<(), AllocError>
    ensures { OnOk result (string_bytes text.new
        ≡ string_bytes text.old ++ digit_char (byte / 16) ∷ digit_char (byte % 16) ∷ []) }
{
    text.push(hex_digit(byte / 16))?;
    text.push(hex_digit(byte % 16))
}

// Bytes in hexadecimal.
fn hex_string(alloc: Global, bytes: &[u8]) -> Result<String, AllocError>
    ensures { IfOk result (λ s. string_bytes s ≡ hex bytes.now) }
{
    let mut text = String::new(alloc);
    for byte in bytes {
        put_hex(&mut text, *byte)?;
    }
    Ok(text)
}

// A text as JSON.
fn text_json(alloc: Global, text: &Text) -> Result<Json, AllocError>
    ensures { IfOk result (λ j. view j ≡ string text.now) }
{
    Ok(Json::from(String::from_str(alloc, text.as_str())?))
}

// Bytes as JSON.
fn binary_json(alloc: Global, bytes: &Blob) -> Result<Json, AllocError>
    ensures { IfOk result (λ j. view j ≡ string (hex bytes.now)) }
{
    Ok(Json::from(hex_string(alloc, bytes.as_slice())?))
}

// An identifier as JSON.
fn rid_json(alloc: Global, rid: Rid) -> Result<Json, AllocError>
    ensures { IfOk result (λ j. view j ≡ string (rid_text rid)) }
{
    Ok(Json::from(rid_string(alloc, rid)?))
}

// Identifiers as an array.
fn rids_json(alloc: Global, rids: &[Rid]) -> Result<Json, AllocError>
    ensures { IfOk result (λ j. view j ≡ array (rids_items rids.now)) }
{
    let mut items = Vec::with_capacity(alloc, rids.len())?;
    for rid in rids {
        items.push(rid_json(alloc, *rid)?)?;
    }
    Ok(Json::from(items))
}

// Puts a member into an object.
fn put_member(
    alloc: Global,
    members: &mut Map<String, Json>,
    name: &str,
    value: Json,
) -> Result<(), AllocError>
    ensures { OnOk result (members_view members.new.entries
        ≡ put name.now (view value) (members_view members.old.entries)) }
{
    let name = String::from_str(alloc, name)?;
    members.insert(name, value)?;
    Ok(())
}

// Names and identifiers as an object.
fn links_json(alloc: Global, links: &RidFieldList) -> Result<Json, AllocError>
    ensures { IfOk result (λ j. view j ≡ object (links_members links.now)) }
{
    let pairs = links.as_slice();
    let mut members = Map::new(alloc);
    for i in (0..pairs.len()).rev() {
        let pair = &pairs[i];
        let rid = rid_json(alloc, pair.1)?;
        put_member(alloc, &mut members, pair.0.as_str(), rid)?;
    }
    Ok(Json::from(members))
}

// Puts a document's class among its members, unless it has none.
fn put_class(alloc: Global, members: &mut Map<String, Json>, class: &str) -> Result<(), AllocError>
    ensures { OnOk result (members_view members.new.entries
        ≡ with_class class.now (members_view members.old.entries)) }
{
    if class.is_empty() {
        return Ok(());
    }
    let class = Json::from(String::from_str(alloc, class)?);
    put_member(alloc, members, "@class", class)
}

// A value as JSON.
#[cycle(jsons)]
fn json_value(alloc: Global, value: &Value) -> Result<Json, AllocError>
    ensures { IfOk result (λ j. view j ≡ json_of (tree_of value.now)) }
{
    match value {
        Value::Null => Ok(Json::from(())),
        Value::Boolean(is_true) => Ok(Json::from(*is_true)),
        Value::Integer(number) => Ok(Json::from(*number)),
        Value::Short(number) => Ok(Json::from(*number)),
        Value::Long(number) => Ok(Json::from(*number)),
        Value::Datetime(moment) => Ok(Json::from(*moment)),
        Value::Str(text) => text_json(alloc, text),
        Value::Binary(bytes) => binary_json(alloc, bytes),
        Value::Embedded(document) => {
            object_json(alloc, document.class.as_str(), &document.fields)
        }
        Value::EmbeddedList(values) => array_json(alloc, values),
        Value::EmbeddedMap(fields) => object_json(alloc, "", fields),
        Value::Link(rid) => rid_json(alloc, *rid),
        Value::LinkList(rids) => rids_json(alloc, rids.as_slice()),
        Value::LinkSet(rids) => rids_json(alloc, rids.as_slice()),
        Value::LinkMap(links) => links_json(alloc, links),
        Value::Byte(number) => Ok(Json::from(*number)),
    }
}

// Values as an array.
#[cycle(jsons)]
fn array_json(alloc: Global, values: &ValueList) -> Result<Json, AllocError>
    ensures { IfOk result (λ j. view j ≡ array (trees_items values.now)) }
{
    let all = values.as_slice();
    let mut items = Vec::with_capacity(alloc, all.len())?;
    for value in all {
        items.push(json_value(alloc, value)?)?;
    }
    Ok(Json::from(items))
}

// A class, which may be empty, and fields as an object.
#[cycle(jsons)]
fn object_json(alloc: Global, class: &str, fields: &FieldList) -> Result<Json, AllocError>
    ensures { IfOk result (λ j. view j ≡ object (with_class class.now (fields_members fields.now))) }
{
    let mut members = field_members(alloc, fields)?;
    put_class(alloc, &mut members, class)?;
    Ok(Json::from(members))
}

// Fields as the members of an object.
#[cycle(jsons)]
fn field_members(alloc: Global, fields: &FieldList) -> Result<Map<String, Json>, AllocError>
    ensures { IfOk result (λ m. members_view m.entries ≡ fields_members fields.now) }
{
    let pairs = fields.as_slice();
    let mut members = Map::new(alloc);
    for i in (0..pairs.len()).rev() {
        let pair = &pairs[i];
        let value = json_value(alloc, &pair.1)?;
        put_member(alloc, &mut members, pair.0.as_str(), value)?;
    }
    Ok(members)
}

/// A row as JSON: no space, the shortest escapes, and the names in byte order.
pub fn row_json(alloc: Global, row: &Row) -> Result<Text, NoMemory>
    ensures { IfOk result (λ t. t ≡ row_json (row_of row.now)) }
{
    let json = object_json(alloc, "", &row.columns)?;
    Ok(Text::from_string(json.to_string(alloc)?))
}
