// Values that hold no others, read by their kind.
ghost use Rattle.std.specs.Prelude.{◌≡◌};
ghost use Rattle.ori_value.specs.Kinds.{kind_of};
ghost use Rattle.ori_value.specs.View.{tree_of};
ghost use Rattle.ori_record.specs.Reading.{Gives, bool_at, flat_at, signed_of};

use crate::fault::RecordFault;
use crate::reader::Reader;
use ori_bytes::{Blob, Text};
use ori_value::{Kind, Value};
use std::alloc::Global;

// A boolean: a byte 0 or 1.
#[tactic(auto, unfolding(crate::specs::Reading::bool_at))]
fn boolean(reader: &mut Reader<'_>) -> Result<Value, RecordFault>
    ensures { Gives (λ v. (tree_of v, reader.new)) result (bool_at reader.old) }
{
    match reader.octet()? {
        0 => Ok(Value::Boolean(false)),
        1 => Ok(Value::Boolean(true)),
        _ => Err(RecordFault::NotRecord),
    }
}

// A byte as two's complement.
fn signed(octet: u8) -> i8
    ensures { result ≡ signed_of octet }
{
    if octet < 128 {
        return octet as i8;
    }
    -1 - (255 - octet) as i8
}

// A value of this kind. NotRecord at a kind whose values nest.
#[tactic(auto, unfolding(crate::specs::Reading::flat_at))]
pub(crate) fn flat(alloc: Global, reader: &mut Reader<'_>, kind: Kind) -> Result<Value, RecordFault>
    ensures { Gives (λ v. (tree_of v, reader.new)) result (flat_at (kind_of kind) reader.old) }
{
    Ok(match kind {
        Kind::Boolean => return boolean(reader),
        Kind::Integer => Value::Integer(reader.i32()?),
        Kind::Short => Value::Short(reader.i16()?),
        Kind::Long => Value::Long(reader.number()?),
        Kind::Datetime => Value::Datetime(reader.number()?),
        Kind::Str => Value::Str(Text::from_str(alloc, reader.text()?)?),
        Kind::Binary => Value::Binary(Blob::from_slice(alloc, reader.bytes()?)?),
        Kind::Link => Value::Link(reader.link()?),
        Kind::Byte => Value::Byte(signed(reader.octet()?)),
        _ => return Err(RecordFault::NotRecord),
    })
}
