// The bytes of index keys.
ghost use Rattle.std.specs.Prelude.{◌≡◌, ◌≢◌, ◌++◌, true, IfOk, OnOk};
ghost use Rattle.ori_spec_data.specs.Keys.{are_indexable, escaped, is_indexable, key_bytes, key_of, long_key, rid_key};
ghost use Rattle.ori_spec_data.specs.Value.{no_trees};
ghost use Rattle.ori_value.specs.View.{tree_of};

use crate::value::Value;
use crate::values::ValueList;
use ori_bytes::{Blob, NoMemory, Rid};
use std::alloc::Global;

/// The key of an index entry: bytes whose order is the order of the values. Each value is a BOOLEAN, a whole number, a
/// DATETIME, a STRING, a BINARY or a LINK.
pub fn key_bytes(alloc: Global, values: &ValueList) -> Result<Blob, NoMemory>
    requires some { values.now ≢ no_trees }
    requires indexable { are_indexable values.now ≡ true }
    ensures { IfOk result (λ b. b ≡ key_bytes values.now) }
{
    let mut key = Blob::new(alloc);
    for value in values.as_slice() {
        put_key(&mut key, value)?;
    }
    Ok(key)
}

/// Adds the 10 bytes of a record identifier to a key: after the bytes of values they tell apart entries of one key.
pub fn put_rid_key(key: &mut Blob, rid: Rid) -> Result<(), NoMemory>
    ensures { OnOk result (key.new ≡ key.old ++ rid_key rid) }
{
    let cluster = (i32::from(rid.cluster) - i32::from(i16::MIN)) as u16;
    key.extend_from_slice(&cluster.to_be_bytes())?;
    put_number(key, rid.position)
}

fn put_key(key: &mut Blob, value: &Value) -> Result<(), NoMemory>
    requires { is_indexable (tree_of value.now) ≡ true }
    ensures { OnOk result (key.new ≡ key.old ++ key_of (tree_of value.now)) }
{
    match value {
        Value::Boolean(is_true) => key.push(u8::from(*is_true)),
        Value::Integer(number) => put_number(key, i64::from(*number)),
        Value::Short(number) => put_number(key, i64::from(*number)),
        Value::Long(number) | Value::Datetime(number) => put_number(key, *number),
        Value::Byte(number) => put_number(key, i64::from(*number)),
        Value::Str(text) => put_escaped(key, text.as_str().as_bytes()),
        Value::Binary(bytes) => put_escaped(key, bytes.as_slice()),
        Value::Link(rid) => put_rid_key(key, *rid),
        Value::Null
        | Value::Embedded(_)
        | Value::EmbeddedList(_)
        | Value::EmbeddedMap(_)
        | Value::LinkList(_)
        | Value::LinkSet(_)
        | Value::LinkMap(_) => Ok(()),
    }
}

// The number and 2^63, which rises with the number and isn't negative, as 8 bytes.
fn put_number(key: &mut Blob, number: i64) -> Result<(), NoMemory>
    ensures { OnOk result (key.new ≡ key.old ++ long_key number) }
{
    let raised = (i128::from(number) - i128::from(i64::MIN)) as u64;
    key.extend_from_slice(&raised.to_be_bytes())
}

// Each 00 as 00ff, and 0000 at the end, so that no text's key begins another's.
fn put_escaped(key: &mut Blob, bytes: &[u8]) -> Result<(), NoMemory>
    ensures { OnOk result (key.new ≡ key.old ++ escaped bytes.now) }
{
    for byte in bytes {
        if *byte == 0 {
            key.extend_from_slice(&[0, 255])?;
        } else {
            key.push(*byte)?;
        }
    }
    key.extend_from_slice(&[0, 0])
}
