// How a position map changes.
ghost use Rattle.std.specs.Prelude.{◌≡◌, ◌≢◌, ◌+◌, ◌*◌, ◌<◌, ◌≤◌, ℕ, List, pos, length, slice_set, IfOk, IfErr};
ghost use Rattle.std.specs.Prelude.{IfSome, OnOk};
ghost use Rattle.std.specs.Prelude.{IsErrOf, true};
ghost use Rattle.ori_bytes.specs.declared.limits.TheConstants.{MAP_ENTRIES, MAX_MAP_PAGES, MAX_POSITIONS};
ghost use Rattle.ori_page.specs.Pages.{owner_of};
ghost use Rattle.ori_page.specs.Spaces.{page_at};
ghost use Rattle.ori_posmap.specs.Bytes.{next_on, map_count_on, is_directory, patched, entry_place, entry_bytes};
ghost use Rattle.ori_posmap.specs.Reading.{WhyNotRead, KeepsSpace};
ghost use Rattle.ori_posmap.specs.Maps.{PositionMap, IsPositionMap, IsFounded, IsSet, IsCurrent, IsGrown};
ghost use Rattle.ori_posmap.specs.Maps.{IsAppended, IsPushed, HasRoom, has_map, WhyMap, WhyAppended, WhyTaken};
ghost use Rattle.ori_posmap.specs.Maps.{WhyGrown, WhyPushed, WhySet, TellsNoRoom, TellsFull};
ghost use Rattle.ori_posmap.specs.declared.fault.PosFault.{PosFault};
ghost use Rattle.ori_posmap.specs.Maps.{page_result, HasNext};

use crate::directory::{map_count, map_number, next_on, put_current, put_entry, put_map, put_next};
use crate::finding::{Found, Sought, directory, find, map_page};
use crate::place::Entry;
use crate::{Place, PosFault};
use ori_bytes::limits::{DIRECTORY_KIND, MAP_ENTRIES, MAP_KIND, MAX_MAP_PAGES, MAX_POSITIONS};
use ori_page::{Page, PageFault, PageSpace};

/// A new map without positions, of an owner that isn't 0: its directory page. It takes one page.
pub fn found<P: PageSpace>(space: &mut P, owner: u32) -> Result<u32, PageFault>
    requires { owner ≢ 0 }
    ensures pages { IfOk result (λ dir. (pages : List (List ℕ)) → P.gives space.old pages
        → (after : List (List ℕ)) × P.gives space.new after × IsFounded owner dir pages after) }
    ensures why { IfErr result (λ fault. (pages : List (List ℕ)) → P.gives space.old pages
        → WhyTaken 1 pages fault) }
    ensures space { KeepsSpace P.keeps P.count P.causes P.reads 0 result space.old space.new }
{
    space.fresh(owner, DIRECTORY_KIND)
}

/// The place of a live position is this now, or the position is gone. `Damaged` only where the pages don't stand for a
/// map, or the position isn't live.
#[tactic(auto, using(crate::proofs::Calls::why_set))]
pub fn set<P: PageSpace>(
    space: &mut P,
    dir: u32,
    position: i64,
    place: Option<Place>,
) -> Result<(), PageFault>
    ensures pages { OnOk result ((pages : List (List ℕ)) → P.gives space.old pages
        → (after : List (List ℕ)) × P.gives space.new after × ((m : PositionMap) → IsPositionMap pages dir m
        → (q : ℕ) → position ≡ pos q → IsSet dir m q place pages after)) }
    ensures why { IfErr result (λ fault. (pages : List (List ℕ)) → P.gives space.old pages
        → WhySet pages dir position fault) }
    ensures space { KeepsSpace P.keeps P.count P.causes P.reads 2 result space.old space.new }
{
    let found = match find(space, dir, position)? {
        Sought::Given(found) => found,
        Sought::Never(_) => return Err(PageFault::Damaged { page: dir }),
    };
    let Found {
        number,
        mut map,
        index,
        ..
    } = found;
    put_entry(&mut map, index, Entry::of(place));
    space.write(number, map)
}

/// The current data page is this now. `Damaged` only where the pages don't stand for a map.
#[tactic(auto, using(crate::proofs::Mapping::why_dir))]
pub fn set_current<P: PageSpace>(space: &mut P, dir: u32, current: u32) -> Result<(), PageFault>
    ensures pages { OnOk result ((pages : List (List ℕ)) → P.gives space.old pages
        → (after : List (List ℕ)) × P.gives space.new after × ((m : PositionMap) → IsPositionMap pages dir m
        → IsCurrent dir m current pages after)) }
    ensures why { IfErr result (λ fault. (pages : List (List ℕ)) → P.gives space.old pages
        → WhyMap pages dir fault) }
    ensures space { KeepsSpace P.keeps P.count P.causes P.reads 1 result space.old space.new }
{
    let mut page = directory(space, dir)?;
    put_current(&mut page, current);
    space.write(dir, page)
}

// Takes one map page more, and gives the directory page that names it.
fn grow<P: PageSpace>(space: &mut P, dir: u32, mut page: Page) -> Result<Page, PageFault>
    requires dir { dir < P.count space.old }
    requires owner { owner_of page ≢ 0 }
    requires few { map_count_on page < MAX_MAP_PAGES }
    requires good { is_directory page ≡ true }
    requires full { MAP_ENTRIES * map_count_on page ≤ next_on page }
    ensures pages { IfOk result (λ content. (pages : List (List ℕ)) → P.gives space.old pages
        → page ≡ page_at pages dir
        → (after : List (List ℕ)) × P.gives space.new after × (content ≡ page_at after dir)
        × ((m : PositionMap) → IsPositionMap pages dir m → IsGrown dir m pages after)
        × HasNext pages content after) }
    ensures why { IfErr result (λ fault. (pages : List (List ℕ)) → P.gives space.old pages
        → WhyTaken 1 pages fault) }
    ensures owner { IfOk result (λ content. owner_of content ≢ 0) }
    ensures space { KeepsSpace P.keeps P.count P.causes P.reads 0 result space.old space.new }
{
    let maps = map_count(&page);
    let number = space.fresh(page.owner(), MAP_KIND)?;
    put_map(&mut page, maps, number);
    space.write(dir, page.copy()?)?;
    Ok(page)
}

// The directory page with room for one position more; `None` where as many were given as there may be.
#[tactic(auto, using(crate::proofs::Calls::why_dir_grown, crate::proofs::Calls::why_grown))]
fn with_room<P: PageSpace>(space: &mut P, dir: u32) -> Result<Option<Page>, PageFault>
    ensures pages { IfOk result (λ page. (pages : List (List ℕ)) → P.gives space.old pages
        → (after : List (List ℕ)) × P.gives space.new after × HasRoom pages dir page after) }
    ensures range { OnOk result (dir < P.count space.new) }
    ensures owner { IfOk result (λ page. IfSome page (λ content. owner_of content ≢ 0)) }
    ensures full { (pages : List (List ℕ)) → P.gives space.old pages → (m : PositionMap) → IsPositionMap pages dir m
        → length m.entries ≡ MAX_POSITIONS → TellsNoRoom result }
    ensures why { IfErr result (λ fault. (pages : List (List ℕ)) → P.gives space.old pages
        → WhyGrown pages dir fault) }
    ensures space { KeepsSpace P.keeps P.count P.causes P.reads 1 result space.old space.new }
{
    let page = directory(space, dir)?;
    let maps = map_count(&page);
    if next_on(&page) < MAP_ENTRIES as u64 * maps as u64 {
        return Ok(Some(page));
    }
    if maps as usize == MAX_MAP_PAGES {
        return Ok(None);
    }
    Ok(Some(grow(space, dir, page)?))
}

// Writes an entry of a map page.
fn write_entry<P: PageSpace>(
    space: &mut P,
    owner: u32,
    number: u32,
    index: usize,
    entry: Entry,
) -> Result<(), PageFault>
    requires owner { owner ≢ 0 }
    requires index { index < MAP_ENTRIES }
    ensures pages { OnOk result ((pages : List (List ℕ)) → P.gives space.old pages → P.gives space.new
        (slice_set pages number (patched (entry_place index) (entry_bytes entry) (page_at pages number)))) }
    ensures why { IfErr result (λ fault. (pages : List (List ℕ)) → P.gives space.old pages
        → WhyNotRead (has_map pages owner number) number fault) }
    ensures space { KeepsSpace P.keeps P.count P.causes P.reads 1 result space.old space.new }
{
    let mut map = map_page(space, owner, number)?;
    put_entry(&mut map, index, entry);
    space.write(number, map)
}

// Writes the entry of the next position, and that one more is given.
fn append<P: PageSpace>(
    space: &mut P,
    dir: u32,
    mut page: Page,
    place: Place,
) -> Result<u64, PageFault>
    requires dir { dir < P.count space.old }
    requires owner { owner_of page ≢ 0 }
    ensures pages { IfOk result (λ at. (pages : List (List ℕ)) → P.gives space.old pages → page ≡ page_at pages dir
        → (after : List (List ℕ)) × P.gives space.new after × ((m : PositionMap) → IsPositionMap pages dir m
        → length m.entries < MAP_ENTRIES * length m.maps
        → (at ≡ length m.entries) × IsAppended dir m place pages after)) }
    ensures few { IfOk result (λ at. at < MAX_POSITIONS) }
    ensures why { IfErr result (λ fault. (pages : List (List ℕ)) → P.gives space.old pages → page ≡ page_at pages dir
        → WhyAppended pages dir fault) }
    ensures space { KeepsSpace P.keeps P.count P.causes P.reads 1 result space.old space.new }
{
    // There are no more pages than a number counts.
    let _count = space.count();
    let next = next_on(&page);
    if next >= MAX_POSITIONS {
        return Err(PageFault::Damaged { page: dir });
    }
    let number = map_number(&page, next as usize / MAP_ENTRIES);
    let entry = Entry::of(Some(place));
    write_entry(
        space,
        page.owner(),
        number,
        next as usize % MAP_ENTRIES,
        entry,
    )?;
    put_next(&mut page, next + 1);
    space.write(dir, page)?;
    Ok(next)
}

/// One position more, live with this place: a position that was never given, and never comes again. `ClusterFull`
/// exactly where [`MAX_POSITIONS`] were given, but for a cause outside: want of memory, the device, or a turn. After it
/// the pages are as they were. It takes at most one page.
pub fn push<P: PageSpace>(space: &mut P, dir: u32, place: Place) -> Result<i64, PosFault>
    ensures pages { IfOk result (λ at. (pages : List (List ℕ)) → P.gives space.old pages
        → (after : List (List ℕ)) × P.gives space.new after × ((m : PositionMap) → IsPositionMap pages dir m
        → (at ≡ pos (length m.entries)) × IsPushed dir m place pages after)) }
    ensures full { (pages : List (List ℕ)) → P.gives space.old pages → (m : PositionMap) → IsPositionMap pages dir m
        → length m.entries ≡ MAX_POSITIONS → TellsFull result }
    ensures unchanged { IsErrOf result PosFault.ClusterFull → (pages : List (List ℕ)) → P.gives space.old pages
        → P.gives space.new pages }
    ensures why { IfErr result (λ fault. (pages : List (List ℕ)) → P.gives space.old pages
        → WhyPushed pages dir fault) }
    ensures space { KeepsSpace P.keeps P.count P.causes P.reads 2 (page_result result) space.old space.new }
{
    let Some(page) = with_room(space, dir)? else {
        return Err(PosFault::ClusterFull);
    };
    Ok(append(space, dir, page, place)? as i64)
}
