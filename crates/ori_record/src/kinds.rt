// The numbers of kinds.
ghost use Rattle.std.specs.Prelude.{◌≡◌, ◌<◌, ◌^◌, option_map};
ghost use Rattle.ori_value.specs.Kinds.{kind_of};
ghost use Rattle.ori_value.specs.View.{tree_of};
ghost use Rattle.ori_record.specs.Reading.{kind_from};
ghost use Rattle.ori_record.specs.Spelling.{kind_number, pointer};

use ori_value::{Kind, Value};

// The number of the kind of bags.
pub(crate) const LINKBAG: u8 = 22;

// The kind with this number.
#[tactic(auto, unfolding(crate::specs::Reading::kind_from))]
pub(crate) fn kind_from(number: u8) -> Option<Kind>
    ensures { option_map kind_of result ≡ kind_from number }
{
    Some(match number {
        0 => Kind::Boolean,
        1 => Kind::Integer,
        2 => Kind::Short,
        3 => Kind::Long,
        6 => Kind::Datetime,
        7 => Kind::Str,
        8 => Kind::Binary,
        9 => Kind::Embedded,
        10 => Kind::EmbeddedList,
        12 => Kind::EmbeddedMap,
        13 => Kind::Link,
        14 => Kind::LinkList,
        15 => Kind::LinkSet,
        16 => Kind::LinkMap,
        17 => Kind::Byte,
        _ => return None,
    })
}

// The number of a value's kind; 0 for null.
pub(crate) fn kind_number(value: &Value) -> u8
    ensures { result ≡ kind_number (tree_of value.now) }
{
    match value {
        Value::Null | Value::Boolean(_) => 0,
        Value::Integer(_) => 1,
        Value::Short(_) => 2,
        Value::Long(_) => 3,
        Value::Datetime(_) => 6,
        Value::Str(_) => 7,
        Value::Binary(_) => 8,
        Value::Embedded(_) => 9,
        Value::EmbeddedList(_) => 10,
        Value::EmbeddedMap(_) => 12,
        Value::Link(_) => 13,
        Value::LinkList(_) => 14,
        Value::LinkSet(_) => 15,
        Value::LinkMap(_) => 16,
        Value::Byte(_) => 17,
    }
}

// Where a value stands, or 0 for null.
pub(crate) fn pointer(value: &Value, at: usize) -> u32
    requires { pointer (tree_of value.now) at < 2 ^ 32 }
    ensures { result ≡ pointer (tree_of value.now) at }
{
    match value {
        Value::Null => 0,
        _ => at as u32,
    }
}
