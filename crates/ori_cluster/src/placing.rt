// Where chunks are put.
ghost use Rattle.std.specs.Prelude.{◌≡◌, ◌≢◌, ◌<◌, ◌≤◌, ◌++◌, ℕ, List, true, length, slice_set, IfOk, IfErr, OnOk};
ghost use Rattle.ori_bytes.specs.declared.limits.TheConstants.{SLOTS_KIND};
ghost use Rattle.ori_page.specs.Pages.{owner_of};
ghost use Rattle.ori_page.specs.Spaces.{page_at, IsTaken};
ghost use Rattle.ori_page.specs.Faults.{IsOutside};
ghost use Rattle.ori_posmap.specs.Reading.{KeepsSpace, WhyNotRead};
ghost use Rattle.ori_posmap.specs.Maps.{PositionMap, IsPositionMap, WhyTaken};
ghost use Rattle.ori_cluster.specs.Slots.{Spot, has_chunk, IsPutAlone};
ghost use Rattle.ori_cluster.specs.Clusters.{Cluster, IsData};
ghost use Rattle.ori_cluster.specs.Staging.{IsStaged};
ghost use Rattle.ori_cluster.specs.Drops.{has_slots};
ghost use Rattle.ori_cluster.specs.Growing.{TriesPut, IsPutFirst, WhyUnless, StandsStaged};

use crate::chunk::{Link, slots_page};
use crate::slots::{MOST_BYTES, has_any, has_room, lone_page, put_chunk};
use ori_bytes::limits::SLOTS_KIND;
use ori_page::{Page, PageFault, PageSpace};
use ori_posmap::set_current;
use std::alloc::Global;

// Takes a page for chunks.
fn take_page<P: PageSpace>(space: &mut P, owner: u32) -> Result<u32, PageFault>
    requires { owner ≢ 0 }
    ensures pages { IfOk result (λ page. (pages : List (List ℕ)) → P.gives space.old pages
        → (after : List (List ℕ)) × P.gives space.new after × IsTaken owner SLOTS_KIND page pages after) }
    ensures range { IfOk result (λ page. page < P.count space.new) }
    ensures why { IfErr result (λ fault. (pages : List (List ℕ)) → P.gives space.old pages
        → WhyTaken 1 pages fault) }
    ensures space { KeepsSpace P.keeps P.count P.causes P.reads 0 result space.old space.new }
{
    space.fresh(owner, SLOTS_KIND)
}

// Writes a slots page.
pub(crate) fn write_page<P: PageSpace>(
    space: &mut P,
    number: u32,
    page: Page,
) -> Result<(), PageFault>
    requires range { number < P.count space.old }
    requires owner { owner_of page ≢ 0 }
    ensures pages { OnOk result ((pages : List (List ℕ)) → P.gives space.old pages
        → P.gives space.new (slice_set pages number page)) }
    ensures fault { IfErr result IsOutside }
    ensures space { KeepsSpace P.keeps P.count P.causes P.reads 0 result space.old space.new }
{
    space.write(number, page)
}

// Puts a chunk onto a page of its own, in slot 0, and gives the page.
pub(crate) fn put_alone<P: PageSpace>(
    alloc: Global,
    space: &mut P,
    owner: u32,
    next: Link,
    bytes: &[u8],
) -> Result<u32, PageFault>
    requires owner { owner ≢ 0 }
    requires few { length bytes.now ≤ MOST_BYTES }
    ensures pages { IfOk result (λ page. (pages : List (List ℕ)) → P.gives space.old pages
        → (after : List (List ℕ)) × P.gives space.new after × IsPutAlone owner page next bytes.now pages after) }
    ensures why { IfErr result (λ fault. (pages : List (List ℕ)) → P.gives space.old pages
        → WhyTaken 1 pages fault) }
    ensures space { KeepsSpace P.keeps P.count P.causes P.reads 0 result space.old space.new }
{
    let page = lone_page(alloc, owner, next, bytes)?;
    let number = take_page(space, owner)?;
    write_page(space, number, page)?;
    Ok(number)
}

// Puts a chunk onto a slots page that has room for it, or no other chunk, and gives its slot; `None` where there is no
// page, or no room.
fn put_here<P: PageSpace>(
    alloc: Global,
    space: &mut P,
    owner: u32,
    number: u32,
    next: Link,
    bytes: &[u8],
) -> Result<Option<u16>, PageFault>
    requires owner { owner ≢ 0 }
    requires few { length bytes.now ≤ MOST_BYTES }
    ensures pages { IfOk result (λ slot. (pages : List (List ℕ)) → P.gives space.old pages
        → (after : List (List ℕ)) × P.gives space.new after × TriesPut owner number next bytes.now slot pages after) }
    ensures why { IfErr result (λ fault. (pages : List (List ℕ)) → P.gives space.old pages
        → WhyNotRead (has_slots pages owner number) number fault) }
    ensures named { IfErr result (λ fault. number ≢ 0) }
    ensures space { KeepsSpace P.keeps P.count P.causes P.reads 1 result space.old space.new }
{
    if number == 0 {
        return Ok(None);
    }
    let mut page = slots_page(space, owner, number)?;
    if has_room(&page, bytes.len()) {
        let slot = put_chunk(&mut page, next, bytes);
        write_page(space, number, page)?;
        return Ok(Some(slot));
    }
    if has_any(&page) {
        return Ok(None);
    }
    let lone = lone_page(alloc, owner, next, bytes)?;
    write_page(space, number, lone)?;
    Ok(Some(0))
}

// Puts a chunk onto a new slots page, which is the current one then.
fn put_next<P: PageSpace>(
    alloc: Global,
    space: &mut P,
    dir: u32,
    owner: u32,
    next: Link,
    bytes: &[u8],
) -> Result<Link, PageFault>
    requires owner { owner ≢ 0 }
    requires few { length bytes.now ≤ MOST_BYTES }
    ensures pages { IfOk result (λ link. (pages : List (List ℕ)) → P.gives space.old pages
        → (after : List (List ℕ)) × P.gives space.new after
        × ((c : Cluster) (loose : List Spot) (later : List ℕ) → IsStaged pages dir c loose next later
        → owner ≡ c.map.owner
        → (IsData c c.map.current → (s : ℕ) × (has_chunk s (page_at pages c.map.current) ≡ true))
        → IsPutFirst dir c loose link (bytes.now ++ later) pages after)) }
    ensures why { IfErr result (λ fault. (pages : List (List ℕ)) → P.gives space.old pages
        → WhyUnless ((m : PositionMap) × IsPositionMap pages dir m) pages 1 fault) }
    ensures space { KeepsSpace P.keeps P.count P.causes P.reads 1 result space.old space.new }
{
    let page = put_alone(alloc, space, owner, next, bytes)?;
    set_current(space, dir, page)?;
    Ok(Link { page, slot: 0 })
}

// Puts a chunk onto the current data page, or onto a new one, which is the current one then.
pub(crate) fn put_current<P: PageSpace>(
    alloc: Global,
    space: &mut P,
    dir: u32,
    owner: u32,
    current: u32,
    next: Link,
    bytes: &[u8],
) -> Result<Link, PageFault>
    requires owner { owner ≢ 0 }
    requires few { length bytes.now ≤ MOST_BYTES }
    ensures pages { IfOk result (λ link. (pages : List (List ℕ)) → P.gives space.old pages
        → (after : List (List ℕ)) × P.gives space.new after
        × ((c : Cluster) (loose : List Spot) (later : List ℕ) → IsStaged pages dir c loose next later
        → owner ≡ c.map.owner → current ≡ c.map.current
        → IsPutFirst dir c loose link (bytes.now ++ later) pages after)) }
    ensures why { IfErr result (λ fault. (pages : List (List ℕ)) → P.gives space.old pages
        → WhyUnless (StandsStaged pages dir owner current) pages 1 fault) }
    ensures space { KeepsSpace P.keeps P.count P.causes P.reads 2 result space.old space.new }
{
    match put_here(alloc, space, owner, current, next, bytes)? {
        Some(slot) => Ok(Link {
            page: current,
            slot,
        }),
        None => put_next(alloc, space, dir, owner, next, bytes),
    }
}
