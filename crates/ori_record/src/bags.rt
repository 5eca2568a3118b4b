// Bags, read and written.
ghost use Rattle.std.specs.Prelude.{◌≡◌, ◌<◌, ◌^◌, IsTrue, OnOk};
ghost use Rattle.ori_bytes.specs.declared.bag.Bag.TheVariants.{Embedded, Tree};
ghost use Rattle.ori_record.specs.Spelling.{IsBag, climbs};
ghost use Rattle.ori_record.specs.Reading.{Gives, bag_at, climbing_at, tree_bag_at};
ghost use Rattle.ori_record.specs.Writable.{IsFit};
ghost use Rattle.ori_record.specs.Writing.{Adds};

use crate::fault::RecordFault;
use crate::leaves::{put_count, put_links};
use crate::links::{comes_before, link_list};
use crate::reader::Reader;
use ori_bytes::{Bag, Blob, NoMemory, Rid, RidList};
use std::alloc::Global;

// Stands before the identifiers of an embedded bag, and before a tree's root.
const EMBEDDED_FORM: u8 = 0;

const TREE_FORM: u8 = 1;

// Whether no identifier comes before the one in front of it.
fn climbs(rids: &[Rid]) -> bool
    ensures { result ≡ climbs rids.now }
{
    rids.is_sorted_by(|one, next| !comes_before(next, one))
}

// Identifiers after their number, of which none comes before the one in front of it.
#[tactic(auto, unfolding(crate::specs::Reading::climbing_at))]
fn climbing(alloc: Global, reader: &mut Reader<'_>) -> Result<RidList, RecordFault>
    ensures { Gives (λ l. (l, reader.new)) result (climbing_at reader.old) }
{
    let rids = link_list(alloc, reader)?;
    if !climbs(rids.as_slice()) {
        return Err(RecordFault::NotRecord);
    }
    Ok(rids)
}

// A tree's root, and how many identifiers it holds.
#[tactic(auto, unfolding(crate::specs::Reading::tree_bag_at))]
fn tree_bag(reader: &mut Reader<'_>) -> Result<Bag, RecordFault>
    ensures { Gives (λ b. (b, reader.new)) result (tree_bag_at reader.old) }
{
    let root = reader.u32()?;
    let size = reader.count()?;
    Ok(Bag::Tree { root, size })
}

// A bag.
#[tactic(auto, unfolding(crate::specs::Reading::bag_at))]
pub(crate) fn bag(alloc: Global, reader: &mut Reader<'_>) -> Result<Bag, RecordFault>
    ensures { Gives (λ b. (b, reader.new)) result (bag_at reader.old) }
{
    match reader.octet()? {
        EMBEDDED_FORM => Ok(Bag::Embedded(climbing(alloc, reader)?)),
        TREE_FORM => tree_bag(reader),
        _ => Err(RecordFault::NotRecord),
    }
}

// Adds the identifiers of an embedded bag.
fn put_embedded(out: &mut Blob, rids: &[Rid]) -> Result<(), NoMemory>
    requires { IsTrue (climbs rids.now) }
    ensures { OnOk result (Adds (IsBag (Embedded rids.now)) out.old out.new) }
{
    out.push(EMBEDDED_FORM)?;
    put_count(out, rids.len())?;
    put_links(out, rids)
}

// Adds a bag's tree.
fn put_tree(out: &mut Blob, root: u32, size: u64) -> Result<(), NoMemory>
    requires { size < 2 ^ 63 }
    ensures { OnOk result (Adds (IsBag (Tree root size)) out.old out.new) }
{
    out.push(TREE_FORM)?;
    out.extend_from_slice(&root.to_be_bytes())?;
    put_count(out, size as usize)
}

// Adds a bag's bytes.
pub(crate) fn put_bag(out: &mut Blob, bag: &Bag) -> Result<(), NoMemory>
    requires { IsFit bag.now }
    ensures { OnOk result (Adds (IsBag bag.now) out.old out.new) }
{
    match bag {
        Bag::Embedded(rids) => put_embedded(out, rids.as_slice()),
        Bag::Tree { root, size } => put_tree(out, *root, *size),
    }
}
