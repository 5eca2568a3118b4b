// Records whose values nest as deep as they may, and deeper.
ghost use Rattle.std.specs.Prelude.{IfOk, IsTrue};
ghost use Rattle.ori_spec_data.specs.Apply.{are_proper};
ghost use Rattle.ori_record.specs.Writable.{ItemsHavePlaces};

use super::records::{RID, come_back};
use ori_bytes::{Blob, NoMemory, Text};
use ori_model::Stored;
use ori_record::{BagFieldList, RecordFault, write};
use ori_value::{FieldList, Value, ValueList};
use std::alloc::Global;

// A record of class Doc whose field `a` is a list in a list, and so on, so many deep.
fn deep(alloc: Global, levels: u32) -> Result<Blob, NoMemory> {
    let mut bytes = Blob::from_slice(alloc, b"\0\0\0\x01\0\x06Doc\x02a\0\0\0\x0d\x0a\0")?;
    for _ in 1..levels {
        bytes.extend_from_slice(b"\x02\x0a")?;
    }
    bytes.push(0)?;
    Ok(bytes)
}

// Whether it is read and written again; none where memory ran out before.
fn is_read(alloc: Global, levels: u32) -> Option<bool> {
    match deep(alloc, levels) {
        Ok(bytes) => Some(come_back(alloc, bytes.as_slice())),
        Err(_) => None,
    }
}

#[test]
fn depths_are_read(rt: HostRuntime) {
    for (levels, want) in [(1, true), (64, true), (65, false), (300, false)] {
        assert!(rt; is_read(rt.alloc(), levels) == Some(want));
    }
}

// What a list in a list, and so on, so many deep, holds: the inmost one is empty.
fn nested(alloc: Global, levels: u32) -> Result<ValueList, NoMemory>
    ensures { IfOk result (λ items. IsTrue (are_proper items) × ItemsHavePlaces items) }
{
    let mut items = ValueList::new(alloc);
    for _ in 1..levels {
        let mut outer = ValueList::new(alloc);
        outer.push(Value::EmbeddedList(items))?;
        items = outer;
    }
    Ok(items)
}

// What writing the record comes to that `deep` spells.
fn written(alloc: Global, levels: u32) -> Result<Blob, RecordFault> {
    let mut fields = FieldList::new(alloc);
    let value = Value::EmbeddedList(nested(alloc, levels)?);
    fields.set(Text::from_str(alloc, "a")?, value)?;
    let stored = Stored {
        rid: RID,
        version: 1,
        class: Text::from_str(alloc, "Doc")?,
        fields,
    };
    write(alloc, &stored, &BagFieldList::new(alloc))
}

// Whether these are the bytes that `deep` makes.
fn are_deep(alloc: Global, bytes: &Blob, levels: u32) -> bool {
    match deep(alloc, levels) {
        Ok(want) => bytes.as_slice() == want.as_slice(),
        Err(_) => false,
    }
}

fn is_written(alloc: Global, levels: u32) -> bool {
    match written(alloc, levels) {
        Ok(bytes) => are_deep(alloc, &bytes, levels),
        Err(_) => false,
    }
}

fn is_too_deep(alloc: Global, levels: u32) -> bool {
    matches!(written(alloc, levels), Err(RecordFault::TooDeep))
}

#[test]
fn depths_are_written(rt: HostRuntime) {
    for levels in [1, 2, 64] {
        assert!(rt; is_written(rt.alloc(), levels));
    }
    for levels in [65, 300] {
        assert!(rt; is_too_deep(rt.alloc(), levels));
    }
}
