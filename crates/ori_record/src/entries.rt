// The entries of a header, written.
ghost use Rattle.std.specs.Prelude.{◌≡◌, ◌+◌, ◌<◌, ◌≤◌, ◌^◌, ◌++◌, drop, length, OnOk, take};
ghost use Rattle.std.specs.Int.{w32, to_be_bytes};
ghost use Rattle.ori_spec_data.specs.Sizes.{text_size};
ghost use Rattle.ori_record.specs.Seen.{own_left, own_of};
ghost use Rattle.ori_record.specs.Spelling.{IsText, bag_name, own_name, own_number, own_pointer};
ghost use Rattle.ori_record.specs.Writing.{Adds, AreHoles, AreNamed, IsEntry};

use crate::bag_field::BagField;
use crate::bag_fields::dir_front;
use crate::kinds::{LINKBAG, kind_number, pointer};
use crate::leaves::{put_count, put_text, text_size};
use crate::own::{Field, Own};
use ori_bytes::{Blob, NoMemory, varint_len};
use std::alloc::Global;
use std::mem;

/// Bytes of a pointer.
pub(crate) const POINTER_BYTES: usize = 4;

// Adds the name of a bag's field, after its length.
fn put_bag_name(out: &mut Blob, field: &BagField) -> Result<(), NoMemory>
    ensures { OnOk result (Adds (IsText (bag_name field.now.dir field.now.class)) out.old out.new) }
{
    let front = dir_front(field.dir);
    let class = field.class.as_str();
    let size = front.len() + class.len();
    // So many bytes never fit.
    if size > i64::MAX as usize {
        return Err(NoMemory);
    }
    put_count(out, size)?;
    out.extend_from_slice(front.as_bytes())?;
    out.extend_from_slice(class.as_bytes())
}

// Adds the name of a field, after its length.
fn put_name(out: &mut Blob, field: &Field<'_>) -> Result<(), NoMemory>
    ensures { OnOk result (Adds (IsText (own_name (own_of field.now))) out.old out.new) }
{
    match field {
        Field::Plain(name, _) => put_text(out, name),
        Field::Bagged(field) => put_bag_name(out, field),
    }
}

// How many bytes the name of a bag's field takes after its length.
fn bag_name_size(field: &BagField) -> usize
    requires { length (bag_name field.now.dir field.now.class) < 2 ^ 63 }
    ensures { result ≡ text_size (bag_name field.now.dir field.now.class) }
{
    let size = dir_front(field.dir).len() + field.class.len();
    varint_len(size as i64) + size
}

// How many bytes the name takes after its length.
pub(crate) fn name_size(field: &Field<'_>) -> usize
    requires { length (own_name (own_of field.now)) < 2 ^ 63 }
    ensures { result ≡ text_size (own_name (own_of field.now)) }
{
    match field {
        Field::Plain(name, _) => text_size(name),
        Field::Bagged(field) => bag_name_size(field),
    }
}

// The number of the kind of a field.
fn number(field: &Field<'_>) -> u8
    ensures { result ≡ own_number (own_of field.now) }
{
    match field {
        Field::Plain(_, value) => kind_number(value),
        Field::Bagged(_) => LINKBAG,
    }
}

// Where a field's value stands, or 0 for null.
pub(crate) fn own_pointer(field: &Field<'_>, at: usize) -> u32
    requires { own_pointer (own_of field.now) at < 2 ^ 32 }
    ensures { result ≡ own_pointer (own_of field.now) at }
{
    match field {
        Field::Plain(_, value) => pointer(value, at),
        Field::Bagged(_) => at as u32,
    }
}

// Adds a field's entry, whose pointer is 0 until the place of its value is known.
fn put_hole(out: &mut Blob, field: &Field<'_>) -> Result<(), NoMemory>
    requires { 0 < length (own_name (own_of field.now)) }
    ensures { OnOk result (Adds (IsEntry (own_name (own_of field.now)) 0 (own_number (own_of field.now))) out.old
        out.new) }
{
    put_name(out, field)?;
    out.extend_from_slice(&[0; POINTER_BYTES])?;
    out.push(number(field))
}

// Adds the entries of fields.
pub(crate) fn put_holes(out: &mut Blob, own: Own<'_>) -> Result<(), NoMemory>
    requires { AreNamed (own_left own) }
    ensures { OnOk result (Adds (AreHoles (own_left own.entry)) out.old out.new) }
{
    let mut left = own;
    while let Some(field) = left.next() {
        put_hole(out, &field)?;
    }
    Ok(())
}

// Sets the four bytes of a pointer.
pub(crate) fn set_pointer(alloc: Global, out: &mut Blob, at: usize, to: u32)
    requires { at + 4 ≤ length out.old }
    ensures { out.new ≡ take at out.old ++ to_be_bytes w32 to ++ drop (at + 4) out.old }
{
    let mut bytes = mem::replace(out, Blob::new(alloc)).into_vec();
    bytes[at..at + POINTER_BYTES].copy_from_slice(&to.to_be_bytes());
    *out = Blob::from_vec(bytes);
}
