// Numbers, texts and links, written.
ghost use Rattle.std.specs.Prelude.{◌≡◌, ◌<◌, ◌+◌, ◌^◌, length, OnOk};
ghost use Rattle.ori_spec_data.specs.Sizes.{text_size};
ghost use Rattle.ori_value.specs.Links.{links_of};
ghost use Rattle.ori_record.specs.Spelling.{AreLinks, AreNamedLinks, IsCount, IsCounted, IsLink, IsNumber, IsText};
ghost use Rattle.ori_record.specs.Spelling.{octet_of};
ghost use Rattle.ori_record.specs.Writing.{Adds};

use ori_bytes::{Blob, NoMemory, Rid, Text, put_varint, varint_len};

// Adds a number of 64 bits.
pub(crate) fn put_i64(out: &mut Blob, number: i64) -> Result<(), NoMemory>
    ensures { OnOk result (Adds (IsNumber 64 number) out.old out.new) }
{
    put_varint(out, number)
}

// Adds a number of 32 bits.
pub(crate) fn put_i32(out: &mut Blob, number: i32) -> Result<(), NoMemory>
    ensures { OnOk result (Adds (IsNumber 32 number) out.old out.new) }
{
    put_varint(out, i64::from(number))
}

// Adds a number of 16 bits.
pub(crate) fn put_i16(out: &mut Blob, number: i16) -> Result<(), NoMemory>
    ensures { OnOk result (Adds (IsNumber 16 number) out.old out.new) }
{
    put_varint(out, i64::from(number))
}

// A byte as two's complement.
pub(crate) fn octet_of(number: i8) -> u8
    ensures { result ≡ octet_of number }
{
    if number >= 0 {
        return number as u8;
    }
    255 - (-1 - number) as u8
}

// Adds a count or a length.
pub(crate) fn put_count(out: &mut Blob, count: usize) -> Result<(), NoMemory>
    requires { count < 2 ^ 63 }
    ensures { OnOk result (Adds (IsCount count) out.old out.new) }
{
    put_varint(out, count as i64)
}

// Adds bytes after their number.
pub(crate) fn put_bytes(out: &mut Blob, bytes: &[u8]) -> Result<(), NoMemory>
    ensures { OnOk result (Adds (IsCounted bytes.now) out.old out.new) }
{
    put_count(out, bytes.len())?;
    out.extend_from_slice(bytes)
}

// Adds a text after its length.
pub(crate) fn put_text(out: &mut Blob, text: &str) -> Result<(), NoMemory>
    ensures { OnOk result (Adds (IsText text.now) out.old out.new) }
{
    put_bytes(out, text.as_bytes())
}

// How many bytes a text takes after its length.
pub(crate) fn text_size(text: &str) -> usize
    ensures all { result ≡ text_size text.now }
    ensures most { result < 2 ^ 63 + 10 }
{
    varint_len(text.len() as i64) + text.len()
}

// Adds an identifier.
pub(crate) fn put_link(out: &mut Blob, rid: &Rid) -> Result<(), NoMemory>
    ensures { OnOk result (Adds (IsLink rid.now) out.old out.new) }
{
    put_i16(out, rid.cluster)?;
    put_i64(out, rid.position)
}

// Adds identifiers.
pub(crate) fn put_links(out: &mut Blob, rids: &[Rid]) -> Result<(), NoMemory>
    ensures { OnOk result (Adds (AreLinks rids.now) out.old out.new) }
{
    for rid in rids {
        put_link(out, rid)?;
    }
    Ok(())
}

// Adds pairs of a name and an identifier.
pub(crate) fn put_named_links(out: &mut Blob, links: &[(Text, Rid)]) -> Result<(), NoMemory>
    ensures { OnOk result (Adds (AreNamedLinks (links_of links.now)) out.old out.new) }
{
    for (name, rid) in links {
        put_text(out, name.as_str())?;
        put_link(out, rid)?;
    }
    Ok(())
}
