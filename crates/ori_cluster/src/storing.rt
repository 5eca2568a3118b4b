// How records are stored.
ghost use Rattle.std.specs.Prelude.{◌≡◌, ◌≢◌, ◌+◌, ◌<◌, ◌≤◌, ℕ, List, pos, Some, length, IfOk, IfErr, IsErrOf};
ghost use Rattle.ori_bytes.specs.declared.limits.TheConstants.{MAX_POSITIONS};
ghost use Rattle.ori_posmap.specs.declared.fault.PosFault.{PosFault};
ghost use Rattle.ori_posmap.specs.Reading.{KeepsSpace};
ghost use Rattle.ori_posmap.specs.Maps.{TellsFull, page_result};
ghost use Rattle.ori_cluster.specs.Clusters.{Cluster, IsCluster, Stores, most_chunks, bound, WhyCreated};
ghost use Rattle.ori_cluster.specs.Growing.{HasTail, IsStored, WhyUnless, Stands};

use crate::MAX_BYTES;
use crate::chunk::Link;
use crate::placing::{put_alone, put_current};
use crate::slots::MOST_BYTES;
use ori_bytes::limits::MAX_POSITIONS;
use ori_page::{PageFault, PageSpace};
use ori_posmap::{Place, PosFault, push, tell};
use std::alloc::Global;

// Where the chunks of a record but the first begin: on their pages, and in its bytes.
#[derive(Clone, Copy)]
struct Tail {
    link: Link,
    end: usize,
}

// Stores the chunks of a record but the first, from its end: each fills a page.
fn put_tail<P: PageSpace>(
    alloc: Global,
    space: &mut P,
    owner: u32,
    bytes: &[u8],
) -> Result<Tail, PageFault>
    requires owner { owner ≢ 0 }
    requires some { 0 < length bytes.now }
    ensures range { IfOk result (λ tail. (0 < tail.end) × (tail.end ≤ MOST_BYTES) × (tail.end ≤ length bytes.now)) }
    ensures pages { IfOk result (λ tail. (pages : List (List ℕ)) → P.gives space.old pages
        → (after : List (List ℕ)) × P.gives space.new after
        × HasTail owner bytes.now tail.link tail.end pages after) }
    ensures why { IfErr result (λ fault. (pages : List (List ℕ)) → P.gives space.old pages
        → WhyUnless (Unit {0}) pages (most_chunks (length bytes.now)) fault) }
    ensures space { KeepsSpace P.keeps P.count P.causes P.reads 0 result space.old space.new }
{
    let mut link = Link { page: 0, slot: 0 };
    let mut end = bytes.len();
    'chunks: while end > MOST_BYTES {
        let start = end - MOST_BYTES;
        let page = put_alone(alloc, space, owner, link, &bytes[start..end])?;
        link = Link { page, slot: 0 };
        end = start;
    }
    Ok(Tail { link, end })
}

// Stores a record, and gives where its first chunk stands. The first chunk comes onto the current data page, where it
// has room there; the others fill a page each.
pub(crate) fn store<P: PageSpace>(
    alloc: Global,
    space: &mut P,
    dir: u32,
    owner: u32,
    current: u32,
    bytes: &[u8],
) -> Result<Place, PageFault>
    requires owner { owner ≢ 0 }
    requires some { 0 < length bytes.now }
    requires few { length bytes.now ≤ MAX_BYTES }
    ensures pages { IfOk result (λ place. (pages : List (List ℕ)) → P.gives space.old pages
        → (after : List (List ℕ)) × P.gives space.new after × ((c : Cluster) → IsCluster pages dir c
        → owner ≡ c.map.owner → current ≡ c.map.current → IsStored dir c place bytes.now pages after)) }
    ensures long { IfOk result (λ place. length bytes.now ≡ place.bytes) }
    ensures why { IfErr result (λ fault. (pages : List (List ℕ)) → P.gives space.old pages
        → WhyUnless (Stands pages dir owner current) pages (most_chunks (length bytes.now)) fault) }
    ensures space { KeepsSpace P.keeps P.count P.causes P.reads 2 result space.old space.new }
{
    let tail = put_tail(alloc, space, owner, bytes)?;
    let first = put_current(
        alloc,
        space,
        dir,
        owner,
        current,
        tail.link,
        &bytes[..tail.end],
    )?;
    Ok(Place {
        page: first.page,
        slot: first.slot,
        bytes: bytes.len() as u32,
    })
}

/// Stores a record of 1 to [`MAX_BYTES`] bytes at the next position. `ClusterFull` exactly where [`MAX_POSITIONS`] were
/// given, but for a cause outside: want of memory, the device, or a turn; after it the pages are as they were.
/// `Damaged` only where the pages don't stand for a cluster or the list of free pages isn't whole. It takes at most 8
/// pages, and one per begun 3,000 bytes, and `PagesFull` comes only where those and the pages in use are more than
/// there may be. What the pages hold after another fault isn't said.
pub fn create<P: PageSpace>(
    alloc: Global,
    space: &mut P,
    dir: u32,
    bytes: &[u8],
) -> Result<i64, PosFault>
    requires some { 0 < length bytes.now }
    requires few { length bytes.now ≤ MAX_BYTES }
    ensures pages { IfOk result (λ at. (pages : List (List ℕ)) → P.gives space.old pages
        → (after : List (List ℕ)) × P.gives space.new after × ((c : Cluster) → IsCluster pages dir c
        → (at ≡ pos (length c.map.entries)) × Stores dir c (length c.map.entries) (length c.map.entries + 1)
        (Some bytes.now) (bound 0 (length bytes.now)) pages after)) }
    ensures full { (pages : List (List ℕ)) → P.gives space.old pages → (c : Cluster) → IsCluster pages dir c
        → length c.map.entries ≡ MAX_POSITIONS → TellsFull result }
    ensures unchanged { IsErrOf result PosFault.ClusterFull → (pages : List (List ℕ)) → P.gives space.old pages
        → (c : Cluster) → IsCluster pages dir c → P.gives space.new pages }
    ensures why { IfErr result (λ fault. (pages : List (List ℕ)) → P.gives space.old pages
        → WhyCreated pages dir (bound 0 (length bytes.now)) fault) }
    ensures space { KeepsSpace P.keeps P.count P.causes P.reads 5 (page_result result) space.old space.new }
{
    let told = tell(space, dir)?;
    if told.next >= MAX_POSITIONS as i64 {
        return Err(PosFault::ClusterFull);
    }
    let place = store(alloc, space, dir, told.owner, told.current, bytes)?;
    push(space, dir, place)
}
