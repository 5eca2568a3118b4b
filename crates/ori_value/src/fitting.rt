// Values fitted to the kinds that properties declare.
ghost use Rattle.std.specs.Prelude.{◌≡◌, false, IfOk, IsOk};
ghost use Rattle.ori_spec_data.specs.Base.{of_binary, of_byte, of_datetime, of_embedded_list, of_embedded_map};
ghost use Rattle.ori_spec_data.specs.Base.{of_integer, of_link_list, of_link_map, of_link_set, of_long, of_short};
ghost use Rattle.ori_spec_data.specs.Fit.{fields_of_links, fit, fit_takes_memory, values_of_links, whole_number};
ghost use Rattle.ori_value.specs.Kinds.{kind_of};
ghost use Rattle.ori_value.specs.View.{tree_of};

use crate::fields::FieldList;
use crate::hexadecimal::from_hex;
use crate::kind::Kind;
use crate::rid_fields::RidFieldList;
use crate::rid_sets::rising_set;
use crate::value::Value;
use crate::values::ValueList;
use ori_bytes::{NoMemory, Rid, RidList};
use std::alloc::Global;

/// The value as one of a kind: a whole number of any kind, a DATETIME among them, where it is in the kind's range; a
/// text of an even number of digits 0-9a-f as BINARY; a LINKLIST as LINKSET, rising and each link once, or as
/// EMBEDDEDLIST, and an empty list as LINKLIST or LINKSET; a LINKMAP as EMBEDDEDMAP, and an empty map as LINKMAP. Any
/// other value comes back as it was. Only a text as BINARY, and links as EMBEDDEDLIST or EMBEDDEDMAP, take memory; the
/// value is gone where there is none.
pub fn fit(alloc: Global, value: Value, kind: Kind) -> Result<Value, NoMemory>
    ensures fitted { IfOk result (λ v. tree_of v ≡ fit (tree_of value) (kind_of kind)) }
    ensures free { fit_takes_memory (tree_of value) (kind_of kind) ≡ false → IsOk result }
{
    match kind {
        Kind::Integer => Ok(to_integer(value)),
        Kind::Short => Ok(to_short(value)),
        Kind::Long => Ok(to_long(value)),
        Kind::Datetime => Ok(to_datetime(value)),
        Kind::Byte => Ok(to_byte(value)),
        Kind::Binary => to_binary(alloc, value),
        Kind::LinkList => Ok(to_link_list(alloc, value)),
        Kind::LinkSet => Ok(to_link_set(alloc, value)),
        Kind::LinkMap => Ok(to_link_map(alloc, value)),
        Kind::EmbeddedList => to_list(alloc, value),
        Kind::EmbeddedMap => to_map(alloc, value),
        Kind::Boolean | Kind::Str | Kind::Embedded | Kind::Link => Ok(value),
    }
}

// A whole number of any kind.
fn whole_number(value: &Value) -> Option<i64>
    ensures { result ≡ whole_number (tree_of value.now) }
{
    match value {
        Value::Integer(number) => Some(i64::from(*number)),
        Value::Short(number) => Some(i64::from(*number)),
        Value::Long(number) => Some(*number),
        Value::Datetime(number) => Some(*number),
        Value::Byte(number) => Some(i64::from(*number)),
        _ => None,
    }
}

fn to_integer(value: Value) -> Value
    ensures { tree_of result ≡ fit (tree_of value) of_integer }
{
    let Some(number) = whole_number(&value) else {
        return value;
    };
    match i32::try_from(number) {
        Ok(fitted) => Value::Integer(fitted),
        Err(_) => value,
    }
}

fn to_short(value: Value) -> Value
    ensures { tree_of result ≡ fit (tree_of value) of_short }
{
    let Some(number) = whole_number(&value) else {
        return value;
    };
    match i16::try_from(number) {
        Ok(fitted) => Value::Short(fitted),
        Err(_) => value,
    }
}

fn to_long(value: Value) -> Value
    ensures { tree_of result ≡ fit (tree_of value) of_long }
{
    match whole_number(&value) {
        Some(number) => Value::Long(number),
        None => value,
    }
}

fn to_datetime(value: Value) -> Value
    ensures { tree_of result ≡ fit (tree_of value) of_datetime }
{
    match whole_number(&value) {
        Some(number) => Value::Datetime(number),
        None => value,
    }
}

fn to_byte(value: Value) -> Value
    ensures { tree_of result ≡ fit (tree_of value) of_byte }
{
    let Some(number) = whole_number(&value) else {
        return value;
    };
    match i8::try_from(number) {
        Ok(fitted) => Value::Byte(fitted),
        Err(_) => value,
    }
}

fn to_binary(alloc: Global, value: Value) -> Result<Value, NoMemory>
    ensures fitted { IfOk result (λ v. tree_of v ≡ fit (tree_of value) of_binary) }
    ensures free { fit_takes_memory (tree_of value) of_binary ≡ false → IsOk result }
{
    match value {
        Value::Str(text) => match from_hex(alloc, text.as_str().as_bytes())? {
            Some(bytes) => Ok(Value::Binary(bytes)),
            None => Ok(Value::Str(text)),
        },
        other => Ok(other),
    }
}

fn to_link_list(alloc: Global, value: Value) -> Value
    ensures { tree_of result ≡ fit (tree_of value) of_link_list }
{
    match value {
        Value::EmbeddedList(values) => {
            if values.as_slice().is_empty() {
                return Value::LinkList(RidList::new(alloc));
            }
            Value::EmbeddedList(values)
        }
        other => other,
    }
}

fn to_link_set(alloc: Global, value: Value) -> Value
    ensures { tree_of result ≡ fit (tree_of value) of_link_set }
{
    match value {
        Value::LinkList(rids) => Value::LinkSet(rising_set(rids)),
        Value::EmbeddedList(values) => {
            if values.as_slice().is_empty() {
                return Value::LinkSet(RidList::new(alloc));
            }
            Value::EmbeddedList(values)
        }
        other => other,
    }
}

fn to_link_map(alloc: Global, value: Value) -> Value
    ensures { tree_of result ≡ fit (tree_of value) of_link_map }
{
    match value {
        Value::EmbeddedMap(fields) => {
            if fields.as_slice().is_empty() {
                return Value::LinkMap(RidFieldList::new(alloc));
            }
            Value::EmbeddedMap(fields)
        }
        other => other,
    }
}

fn to_list(alloc: Global, value: Value) -> Result<Value, NoMemory>
    ensures fitted { IfOk result (λ v. tree_of v ≡ fit (tree_of value) of_embedded_list) }
    ensures free { fit_takes_memory (tree_of value) of_embedded_list ≡ false → IsOk result }
{
    match value {
        Value::LinkList(rids) => Ok(Value::EmbeddedList(values_of_links(alloc, rids.as_slice())?)),
        other => Ok(other),
    }
}

fn to_map(alloc: Global, value: Value) -> Result<Value, NoMemory>
    ensures fitted { IfOk result (λ v. tree_of v ≡ fit (tree_of value) of_embedded_map) }
    ensures free { fit_takes_memory (tree_of value) of_embedded_map ≡ false → IsOk result }
{
    match value {
        Value::LinkMap(links) => Ok(Value::EmbeddedMap(fields_of_links(alloc, &links)?)),
        other => Ok(other),
    }
}

// The links of a list as its values.
fn values_of_links(alloc: Global, rids: &[Rid]) -> Result<ValueList, NoMemory>
    ensures { IfOk result (λ l. l ≡ values_of_links rids.now) }
{
    let mut values = Vec::with_capacity(alloc, rids.len())?;
    for rid in rids {
        values.push(Value::Link(*rid))?;
    }
    Ok(ValueList::from_vec(values))
}

// The links of a map as its values.
#[tactic(auto, using(crate::proofs::LinkSteps::pairs_step))]
fn fields_of_links(alloc: Global, links: &RidFieldList) -> Result<FieldList, NoMemory>
    ensures { IfOk result (λ l. l ≡ fields_of_links links.now) }
{
    let links = links.as_slice();
    let mut fields = Vec::with_capacity(alloc, links.len())?;
    for (name, rid) in links {
        fields.push((name.copy()?, Value::Link(*rid)))?;
    }
    Ok(FieldList::from_vec(fields))
}
