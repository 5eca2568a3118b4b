// How the pages of a position map are read.
ghost use Rattle.std.specs.Prelude.{◌≡◌, ◌≢◌, ◌^◌, ◌<◌, ◌≤◌, ℕ, ℤ, pos, true, List, length, IfOk, IfErr, OnOk};
ghost use Rattle.ori_bytes.specs.declared.limits.TheConstants.{MAP_ENTRIES, MAX_MAP_PAGES};
ghost use Rattle.ori_page.specs.Pages.{owner_of};
ghost use Rattle.ori_page.specs.Spaces.{page_at};
ghost use Rattle.ori_posmap.specs.Bytes.{is_directory, is_map};
ghost use Rattle.ori_posmap.specs.Reading.{WhyNotRead, KeepsSpace};
ghost use Rattle.ori_posmap.specs.Maps.{has_directory, has_map, Finds, FoundFits, WhyMap};

use crate::directory::{given, is_directory, is_map, map_number};
use crate::reading::named_page;
use ori_bytes::limits::MAP_ENTRIES;
use ori_page::{Page, PageFault, PageSpace};

// The map page of a position, and which of its entries is the position's.
#[derive(Drop)]
pub(crate) struct Found {
    pub owner: u32,
    pub number: u32,
    pub map: Page,
    pub index: usize,
}

// A position that was given, or one that never was, with the owner of the map.
#[derive(Drop)]
pub(crate) enum Sought {
    Given(Found),
    Never(u32),
}

// The directory page.
pub(crate) fn directory<P: PageSpace>(space: &mut P, dir: u32) -> Result<Page, PageFault>
    ensures pages { IfOk result (λ content. (pages : List (List ℕ)) → P.gives space.old pages
        → P.gives space.new pages × (content ≡ page_at pages dir)) }
    ensures range { OnOk result ((0 < dir) × (dir < P.count space.new) × (P.count space.new < 2 ^ 32)) }
    ensures good { IfOk result (λ content. is_directory content ≡ true) }
    ensures why { IfErr result (λ fault. (pages : List (List ℕ)) → P.gives space.old pages
        → WhyNotRead (has_directory pages dir) dir fault) }
    ensures space { KeepsSpace P.keeps P.count P.causes P.reads 1 result space.old space.new }
{
    let page = named_page(space, dir)?;
    if !is_directory(&page) {
        return Err(PageFault::Damaged { page: dir });
    }
    Ok(page)
}

// A map page of this owner.
pub(crate) fn map_page<P: PageSpace>(
    space: &mut P,
    owner: u32,
    number: u32,
) -> Result<Page, PageFault>
    ensures pages { IfOk result (λ content. (pages : List (List ℕ)) → P.gives space.old pages
        → P.gives space.new pages × (content ≡ page_at pages number)) }
    ensures range { OnOk result ((0 < number) × (number < P.count space.new) × (P.count space.new < 2 ^ 32)) }
    ensures good { IfOk result (λ content. owner_of content ≡ owner) }
    ensures why { IfErr result (λ fault. (pages : List (List ℕ)) → P.gives space.old pages
        → WhyNotRead (has_map pages owner number) number fault) }
    ensures space { KeepsSpace P.keeps P.count P.causes P.reads 1 result space.old space.new }
{
    let page = named_page(space, number)?;
    if !is_map(&page, owner) {
        return Err(PageFault::Damaged { page: number });
    }
    Ok(page)
}

// The map page of a position.
#[tactic(auto, using(crate::proofs::Mapping::why_dir, crate::proofs::Mapping::why_map))]
pub(crate) fn find<P: PageSpace>(
    space: &mut P,
    dir: u32,
    position: i64,
) -> Result<Sought, PageFault>
    ensures pages { IfOk result (λ sought. (pages : List (List ℕ)) → P.gives space.old pages
        → P.gives space.new pages × Finds pages dir position sought) }
    ensures fits { IfOk result (FoundFits (P.count space.new)) }
    ensures why { IfErr result (λ fault. (pages : List (List ℕ)) → P.gives space.old pages
        → WhyMap pages dir fault) }
    ensures space { KeepsSpace P.keeps P.count P.causes P.reads 2 result space.old space.new }
{
    let page = directory(space, dir)?;
    let owner = page.owner();
    let Some(at) = given(&page, position) else {
        return Ok(Sought::Never(owner));
    };
    let number = map_number(&page, at as usize / MAP_ENTRIES);
    let map = map_page(space, owner, number)?;
    Ok(Sought::Given(Found {
        owner,
        number,
        map,
        index: at as usize % MAP_ENTRIES,
    }))
}
