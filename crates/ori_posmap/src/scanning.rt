// The live positions in their order.
ghost use Rattle.std.specs.Prelude.{◌≡◌, ◌+◌, ◌*◌, ◌/◌, ◌<◌, ◌≤◌, ℕ, List, Some, true, false, length, IfOk};
ghost use Rattle.std.specs.Prelude.{IfErr, IfSome};
ghost use Rattle.std.specs.Prelude.{IfNone};
ghost use Rattle.ori_bytes.specs.declared.limits.TheConstants.{MAP_ENTRIES, MAX_MAP_PAGES};
ghost use Rattle.ori_page.specs.Spaces.{page_at};
ghost use Rattle.ori_posmap.specs.Bytes.{is_directory, is_live};
ghost use Rattle.ori_posmap.specs.Reading.{KeepsSpace};
ghost use Rattle.ori_posmap.specs.Maps.{PositionMap, IsPositionMap, IsLiveFrom, IsLiveIn, passed, WhyLiveIn};
ghost use Rattle.ori_posmap.specs.Maps.{WhyMap};

use crate::directory::{map_count, map_number, next_on};
use crate::finding::{directory, map_page};
use crate::place::LIVE;
use ori_bytes::limits::MAP_ENTRIES;
use ori_page::{Page, PageFault, PageSpace};

// Where the states of a map page's entries stand.
const STATES_AT: usize = 8;

const STATE_STEP: usize = 16;

// The first entry of a map page that is live, of these.
#[tactic(auto, using(crate::proofs::Mapping::not_live_more))]
fn live_on(page: &Page, from: usize, end: usize) -> Option<usize>
    requires { end ≤ MAP_ENTRIES }
    ensures some { IfSome result (λ i. (from ≤ i) × (i < end) × (is_live i page.now ≡ true)
        × ((j : ℕ) → from ≤ j → j < i → is_live j page.now ≡ false)) }
    ensures none { IfNone result ((j : ℕ) → from ≤ j → j < end → is_live j page.now ≡ false) }
{
    for i in from..end {
        if page.bytes()[STATES_AT + STATE_STEP * i] == LIVE {
            return Some(i);
        }
    }
    None
}

// The first live position from one on, of those of the k-th map page.
fn live_in<P: PageSpace>(
    space: &mut P,
    page: &Page,
    k: usize,
    from: usize,
) -> Result<Option<u64>, PageFault>
    requires directory { is_directory page.now ≡ true }
    requires k { k < MAX_MAP_PAGES }
    ensures pages { IfOk result (λ at. (pages : List (List ℕ)) → P.gives space.old pages → P.gives space.new pages
        × ((dir : ℕ) (m : PositionMap) → page.now ≡ page_at pages dir → IsPositionMap pages dir m
        → k < length m.maps → IsLiveIn m k from at)) }
    ensures place { IfOk result (λ at. IfSome at (λ at. at / MAP_ENTRIES ≡ k)) }
    ensures why { IfErr result (λ fault. (pages : List (List ℕ)) → P.gives space.old pages
        → (dir : ℕ) → page.now ≡ page_at pages dir → WhyLiveIn pages dir k fault) }
    ensures space { KeepsSpace P.keeps P.count P.causes P.reads 1 result space.old space.new }
{
    let _count = space.count();
    let start = MAP_ENTRIES * k;
    let next = next_on(page) as usize;
    let low = from.max(start) - start;
    let high = next.min(start + MAP_ENTRIES);
    if high <= start + low {
        return Ok(None);
    }
    let number = map_number(page, k);
    let map = map_page(space, page.owner(), number)?;
    let Some(i) = live_on(&map, low, high - start) else {
        return Ok(None);
    };
    Ok(Some((start + i) as u64))
}

// The first live position from one on, of the map of this directory page.
fn scan<P: PageSpace>(space: &mut P, page: &Page, from: usize) -> Result<Option<u64>, PageFault>
    requires { is_directory page.now ≡ true }
    ensures pages { IfOk result (λ at. (pages : List (List ℕ)) → P.gives space.old pages → P.gives space.new pages
        × ((dir : ℕ) (m : PositionMap) → page.now ≡ page_at pages dir → IsPositionMap pages dir m
        → IsLiveFrom m from at)) }
    ensures few { IfOk result (λ at. P.reads space.new ≤ P.reads space.old + 1 + passed from at) }
    ensures why { IfErr result (λ fault. (pages : List (List ℕ)) → P.gives space.old pages
        → (dir : ℕ) → page.now ≡ page_at pages dir → WhyMap pages dir fault) }
    ensures space { KeepsSpace P.keeps P.count P.causes P.reads MAX_MAP_PAGES result space.old space.new }
{
    for k in from / MAP_ENTRIES..map_count(page) as usize {
        if let Some(at) = live_in(space, page, k, from)? {
            return Ok(Some(at));
        }
    }
    Ok(None)
}

/// The first live position from one on; `None` where none of those that were given is live. `Damaged` only where the
/// pages don't stand for a map. It reads the directory page, and a page for each map page that it passes.
#[tactic(auto, using(crate::proofs::Mapping::why_dir))]
pub fn live_from<P: PageSpace>(space: &mut P, dir: u32, from: u64) -> Result<Option<u64>, PageFault>
    ensures pages { IfOk result (λ at. (pages : List (List ℕ)) → P.gives space.old pages → P.gives space.new pages
        × ((m : PositionMap) → IsPositionMap pages dir m → IsLiveFrom m from at)) }
    ensures few { IfOk result (λ at. P.reads space.new ≤ P.reads space.old + 2 + passed from at) }
    ensures why { IfErr result (λ fault. (pages : List (List ℕ)) → P.gives space.old pages
        → WhyMap pages dir fault) }
    ensures space { KeepsSpace P.keeps P.count P.causes P.reads (MAX_MAP_PAGES + 1) result space.old space.new }
{
    let page = directory(space, dir)?;
    scan(space, &page, from as usize)
}
