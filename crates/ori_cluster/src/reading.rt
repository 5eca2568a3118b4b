// How records are read.
ghost use Rattle.std.specs.Prelude.{◌≡◌, ◌+◌, ◌-◌, ◌/◌, ◌≤◌, ◌++◌, ℕ, List, Some, length, IfOk, IfErr, OnOk};
ghost use Rattle.ori_posmap.specs.Reading.{KeepsSpace};
ghost use Rattle.ori_cluster.specs.Slots.{Spot, Links, WhyBroken};
ghost use Rattle.ori_cluster.specs.Clusters.{Cluster, IsCluster, record_of, most_chunks, most_reads, reads_of};
ghost use Rattle.ori_cluster.specs.Clusters.{WhyCluster};

use crate::MAX_BYTES;
use crate::chunk::{Link, add_chunk};
use ori_bytes::Blob;
use ori_bytes::limits::BYTES_PER_WEIGHT;
use ori_page::{PageFault, PageSpace};
use ori_posmap::look;
use std::alloc::Global;

// Adds the bytes of a chain of so many chunks at most.
fn gather<P: PageSpace>(
    space: &mut P,
    owner: u32,
    link: Link,
    most: u32,
    bytes: &mut Blob,
) -> Result<(), PageFault>
    ensures pages { OnOk result ((pages : List (List ℕ)) → P.gives space.old pages → P.gives space.new pages
        × ((chain : List Spot) (later : List ℕ) → Links pages owner chain link.page link.slot later
        → length chain ≤ most → bytes.new ≡ bytes.old ++ later)) }
    ensures few { (pages : List (List ℕ)) → P.gives space.old pages → (chain : List Spot) (later : List ℕ)
        → Links pages owner chain link.page link.slot later → P.reads space.new ≤ P.reads space.old + length chain }
    ensures why { IfErr result (λ fault. (pages : List (List ℕ)) → P.gives space.old pages
        → WhyBroken pages owner link most fault) }
    ensures space { KeepsSpace P.keeps P.count P.causes P.reads most result space.old space.new }
{
    if link.page == 0 {
        return Ok(());
    }
    if most == 0 {
        return Err(PageFault::Damaged { page: link.page });
    }
    let next = add_chunk(space, owner, link.page, link.slot, bytes)?;
    gather(space, owner, next, most - 1, bytes)
}

// How many chunks a record of so many bytes may have.
pub(crate) fn most_chunks(bytes: u32) -> u32
    requires { bytes ≤ MAX_BYTES }
    ensures { result ≡ most_chunks bytes }
{
    (bytes + BYTES_PER_WEIGHT as u32 - 1) / BYTES_PER_WEIGHT as u32
}

/// The bytes of the record at a position; `None` where none is there. `Damaged` only where the pages don't stand for a
/// cluster. It reads the directory page, the map page, and a page for each chunk of the record.
#[tactic(auto, using(crate::proofs::Records::why_found))]
pub fn read<P: PageSpace>(
    alloc: Global,
    space: &mut P,
    dir: u32,
    position: i64,
) -> Result<Option<Blob>, PageFault>
    ensures pages { IfOk result (λ bytes. (pages : List (List ℕ)) → P.gives space.old pages → P.gives space.new pages
        × ((c : Cluster) → IsCluster pages dir c → bytes ≡ record_of c position)) }
    ensures few { (pages : List (List ℕ)) → P.gives space.old pages → (c : Cluster) → IsCluster pages dir c
        → P.reads space.new ≤ P.reads space.old + reads_of c position }
    ensures why { IfErr result (λ fault. (pages : List (List ℕ)) → P.gives space.old pages
        → WhyCluster pages dir fault) }
    ensures space { KeepsSpace P.keeps P.count P.causes P.reads most_reads result space.old space.new }
{
    let seen = look(space, dir, position)?;
    let Some(place) = seen.place else {
        return Ok(None);
    };
    if place.bytes > MAX_BYTES {
        return Err(PageFault::Damaged { page: place.page });
    }
    let first = Link {
        page: place.page,
        slot: place.slot,
    };
    let mut bytes = Blob::new(alloc);
    gather(
        space,
        seen.owner,
        first,
        most_chunks(place.bytes),
        &mut bytes,
    )?;
    if bytes.len() != place.bytes as usize {
        return Err(PageFault::Damaged { page: place.page });
    }
    Ok(Some(bytes))
}
