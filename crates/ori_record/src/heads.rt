// The entries of a header.
ghost use Rattle.std.specs.Prelude.{◌≡◌, length, map};
ghost use Rattle.ori_record.specs.Reading.{Gives, head_at, heads_at};
ghost use Rattle.ori_record.specs.Seen.{head_data};

use crate::fault::RecordFault;
use crate::reader::Reader;
use ori_bytes::Text;
use std::alloc::Global;

// A field's entry: its name, where its value stands, and the number of its kind.
#[derive(Drop)]
pub(crate) struct Head {
    pub(crate) name: Text,
    pub(crate) to: u32,
    pub(crate) kind: u8,
}

// An entry whose name has so many bytes.
#[tactic(auto, unfolding(crate::specs::Reading::head_at))]
fn head_of(alloc: Global, reader: &mut Reader<'_>, count: u64) -> Result<Head, RecordFault>
    ensures { Gives (λ h. (head_data h, reader.new)) result (head_at count reader.old) }
{
    let name = reader.utf8(count)?;
    let to = reader.u32()?;
    let kind = reader.octet()?;
    let name = Text::from_str(alloc, name)?;
    Ok(Head { name, to, kind })
}

// The entries up to the header's end, fewer than so many.
fn heads_within(
    alloc: Global,
    reader: &mut Reader<'_>,
    limit: usize,
) -> Result<Vec<Head>, RecordFault>
    ensures { Gives (λ hs. (map head_data hs.items, reader.new)) result (heads_at limit reader.old) }
{
    let mut heads = Vec::new(alloc);
    for _ in 0..limit {
        let count = reader.count()?;
        if count == 0 {
            return Ok(heads);
        }
        heads.push(head_of(alloc, reader, count)?)?;
    }
    Err(RecordFault::NotRecord)
}

// The entries up to the header's end.
pub(crate) fn heads(alloc: Global, reader: &mut Reader<'_>) -> Result<Vec<Head>, RecordFault>
    ensures { Gives (λ hs. (map head_data hs.items, reader.new)) result (heads_at (length reader.old) reader.old) }
{
    // An entry takes bytes.
    let limit = reader.rest().len();
    heads_within(alloc, reader, limit)
}
