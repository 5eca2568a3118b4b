// How records are dropped.
ghost use Rattle.std.specs.Prelude.{◌≡◌, ◌≢◌, ◌+◌, ◌*◌, ◌<◌, ◌≤◌, ℕ, List, None, IfOk, IfErr, OnOk};
ghost use Rattle.ori_bytes.specs.declared.limits.TheConstants.{PAGE_BYTES, FREE_KIND};
ghost use Rattle.ori_page.specs.Pages.{owner_of, kind_of};
ghost use Rattle.ori_page.specs.Spaces.{page_at};
ghost use Rattle.ori_posmap.specs.Reading.{KeepsSpace};
ghost use Rattle.ori_cluster.specs.Slots.{Spot, slot_count, used_end, IsSlotsPage};
ghost use Rattle.ori_cluster.specs.Clusters.{Cluster, IsCluster, Changed, most_chunks};
ghost use Rattle.ori_cluster.specs.Staging.{IsStaged};
ghost use Rattle.ori_cluster.specs.Drops.{Names, IsLeft, IsDropped, IsUnstaged, WhyNotLeft, WhyNotDropped};
ghost use Rattle.ori_cluster.specs.Drops.{WhyNotUnstaged, WhyRemoved};

use crate::MAX_BYTES;
use crate::chunk::{Link, chunk_place, slots_page};
use crate::placing::write_page;
use crate::reading::most_chunks;
use crate::slots::{drop_chunk, has_any};
use ori_page::{Page, PageFault, PageSpace};
use ori_posmap::{look, set, tell};

// Writes a slots page that has lost a chunk, or releases it where it is left without one and isn't the current one.
#[tactic(auto, using(crate::proofs::DropPages::outside_left))]
fn leave<P: PageSpace>(
    space: &mut P,
    current: u32,
    number: u32,
    page: Page,
) -> Result<(), PageFault>
    requires above { 0 < number }
    requires below { number < P.count space.old }
    requires owner { owner_of page ≢ 0 }
    requires room { used_end page + 2 * slot_count page ≤ PAGE_BYTES }
    ensures pages { OnOk result ((pages : List (List ℕ)) → P.gives space.old pages
        → kind_of (page_at pages number) ≢ FREE_KIND
        → (after : List (List ℕ)) × P.gives space.new after × IsLeft current number page pages after) }
    ensures why { IfErr result (λ fault. (pages : List (List ℕ)) → P.gives space.old pages
        → WhyNotLeft pages fault) }
    ensures space { KeepsSpace P.keeps P.count P.causes P.reads 0 result space.old space.new }
{
    if number == current {
        return write_page(space, number, page);
    }
    if has_any(&page) {
        return write_page(space, number, page);
    }
    space.release(number)
}

// Drops the first chunk of a chain, releases its page if that is left without one and isn't the current one, and gives
// where the next chunk stands.
fn drop_first<P: PageSpace>(
    space: &mut P,
    owner: u32,
    current: u32,
    link: Link,
) -> Result<Link, PageFault>
    requires { owner ≢ 0 }
    ensures pages { IfOk result (λ next. (pages : List (List ℕ)) → P.gives space.old pages
        → (after : List (List ℕ)) × P.gives space.new after × Names (page_at pages link.page) link.slot next
        × (IsSlotsPage owner (page_at pages link.page)
        → IsDropped owner current link.page link.slot pages after)) }
    ensures why { IfErr result (λ fault. (pages : List (List ℕ)) → P.gives space.old pages
        → WhyNotDropped pages owner link fault) }
    ensures space { KeepsSpace P.keeps P.count P.causes P.reads 1 result space.old space.new }
{
    let mut page = slots_page(space, owner, link.page)?;
    let Some(at) = chunk_place(&page, link.slot) else {
        return Err(PageFault::Damaged { page: link.page });
    };
    let next = Link {
        page: page.u32_at(at),
        slot: page.u16_at(at + 4),
    };
    drop_chunk(&mut page, link.slot);
    leave(space, current, link.page, page)?;
    Ok(next)
}

// Drops a chain of so many chunks at most.
pub(crate) fn drop_chain<P: PageSpace>(
    space: &mut P,
    owner: u32,
    current: u32,
    link: Link,
    most: u32,
) -> Result<(), PageFault>
    requires { owner ≢ 0 }
    ensures pages { OnOk result ((pages : List (List ℕ)) → P.gives space.old pages
        → (after : List (List ℕ)) × P.gives space.new after
        × ((dir : ℕ) (c : Cluster) (loose : List Spot) (bytes : List ℕ) → owner ≡ c.map.owner
        → current ≡ c.map.current → IsStaged pages dir c loose link bytes → IsUnstaged dir c pages after)) }
    ensures why { IfErr result (λ fault. (pages : List (List ℕ)) → P.gives space.old pages
        → WhyNotUnstaged pages owner current link most fault) }
    ensures space { KeepsSpace P.keeps P.count P.causes P.reads most result space.old space.new }
{
    if link.page == 0 {
        return Ok(());
    }
    if most == 0 {
        return Err(PageFault::Damaged { page: link.page });
    }
    let next = drop_first(space, owner, current, link)?;
    drop_chain(space, owner, current, next, most - 1)
}

/// Drops the record at a position, which is never given again. `false` where no record is there, and then nothing has
/// changed. `Damaged` only where the pages don't stand for a cluster, or the list of free pages isn't whole; what the
/// pages hold after a fault isn't said.
pub fn remove<P: PageSpace>(space: &mut P, dir: u32, position: i64) -> Result<bool, PageFault>
    ensures pages { IfOk result (λ was. (pages : List (List ℕ)) → P.gives space.old pages
        → (after : List (List ℕ)) × P.gives space.new after × ((c : Cluster) → IsCluster pages dir c
        → Changed dir c position None was pages after)) }
    ensures why { IfErr result (λ fault. (pages : List (List ℕ)) → P.gives space.old pages
        → WhyRemoved pages dir fault) }
    ensures space { KeepsSpace P.keeps P.count P.causes P.reads (5 + most_chunks MAX_BYTES) result space.old
        space.new }
{
    let seen = look(space, dir, position)?;
    let Some(old) = seen.place else {
        return Ok(false);
    };
    let told = tell(space, dir)?;
    set(space, dir, position, None)?;
    let first = Link {
        page: old.page,
        slot: old.slot,
    };
    drop_chain(
        space,
        told.owner,
        told.current,
        first,
        most_chunks(old.bytes.min(MAX_BYTES)),
    )?;
    Ok(true)
}
