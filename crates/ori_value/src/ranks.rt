// What the order of values asks of one value: its class and its kind by number, and what counts within a class.
ghost use Rattle.std.specs.Prelude.{◌≡◌};
ghost use Rattle.ori_spec_data.specs.Order.{class_in, class_number, kind_number, number_in, octets_in, ranked, rid_in};
ghost use Rattle.ori_spec_data.specs.Order.{text_in, truth_in};
ghost use Rattle.ori_value.specs.View.{tree_of};

use crate::value::Value;
use ori_bytes::Rid;

/// The number of the class of links.
pub const LINK_CLASS: u8 = 5;

/// The place of a value's class among the classes: null, booleans, whole numbers, strings, binaries, links, lists, and
/// maps with documents.
pub fn class_number(value: &Value) -> u8
    ensures { result ≡ class_number (ranked (tree_of value.now)) }
{
    match value {
        Value::Null => 0,
        Value::Boolean(_) => 1,
        Value::Integer(_)
        | Value::Short(_)
        | Value::Long(_)
        | Value::Datetime(_)
        | Value::Byte(_) => 2,
        Value::Str(_) => 3,
        Value::Binary(_) => 4,
        Value::Link(_) => LINK_CLASS,
        Value::EmbeddedList(_) | Value::LinkList(_) | Value::LinkSet(_) => 6,
        Value::Embedded(_) | Value::EmbeddedMap(_) | Value::LinkMap(_) => 7,
    }
}

/// OrientDB's number of a value's kind, and 0 for null.
pub fn kind_number(value: &Value) -> u8
    ensures { result ≡ kind_number (ranked (tree_of value.now)) }
{
    match value {
        Value::Null | Value::Boolean(_) => 0,
        Value::Integer(_) => 1,
        Value::Short(_) => 2,
        Value::Long(_) => 3,
        Value::Datetime(_) => 6,
        Value::Str(_) => 7,
        Value::Binary(_) => 8,
        Value::Embedded(_) => 9,
        Value::EmbeddedList(_) => 10,
        Value::EmbeddedMap(_) => 12,
        Value::Link(_) => 13,
        Value::LinkList(_) => 14,
        Value::LinkSet(_) => 15,
        Value::LinkMap(_) => 16,
        Value::Byte(_) => 17,
    }
}

/// Whether a value is true; false for other kinds.
pub fn truth_in(value: &Value) -> bool
    ensures { result ≡ truth_in (ranked (tree_of value.now)) }
{
    match value {
        Value::Boolean(is_true) => *is_true,
        _ => false,
    }
}

/// A whole number of any kind; 0 for other kinds.
pub fn number_in(value: &Value) -> i64
    ensures { result ≡ number_in (ranked (tree_of value.now)) }
{
    match value {
        Value::Integer(number) => i64::from(*number),
        Value::Short(number) => i64::from(*number),
        Value::Long(number) | Value::Datetime(number) => *number,
        Value::Byte(number) => i64::from(*number),
        _ => 0,
    }
}

/// A string; the empty one for other kinds.
pub fn text_in(value: &Value) -> &str
    ensures { result.now ≡ text_in (ranked (tree_of value.now)) }
{
    match value {
        Value::Str(text) => text.as_str(),
        _ => "",
    }
}

/// The bytes of a binary; none for other kinds.
pub fn octets_in(value: &Value) -> &[u8]
    ensures { result.now ≡ octets_in (ranked (tree_of value.now)) }
{
    match value {
        Value::Binary(bytes) => bytes.as_slice(),
        _ => &[],
    }
}

/// A link; `#0:0` for other kinds.
pub fn rid_in(value: &Value) -> Rid
    ensures { result ≡ rid_in (ranked (tree_of value.now)) }
{
    match value {
        Value::Link(rid) => *rid,
        _ => Rid {
            cluster: 0,
            position: 0,
        },
    }
}

/// The class of a document; the empty name for other kinds.
pub fn class_in(value: &Value) -> &str
    ensures { result.now ≡ class_in (ranked (tree_of value.now)) }
{
    match value {
        Value::Embedded(document) => document.class.as_str(),
        _ => "",
    }
}
