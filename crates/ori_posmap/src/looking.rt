// What a position map says.
ghost use Rattle.std.specs.Prelude.{◌≡◌, ◌≢◌, ◌≤◌, ℕ, List, pos, length, IfOk, IfErr};
ghost use Rattle.ori_posmap.specs.Reading.{KeepsSpace};
ghost use Rattle.ori_posmap.specs.Maps.{PositionMap, place_of, IsPositionMap, WhyMap};

use crate::Place;
use crate::directory::{current_on, entry, next_on};
use crate::finding::{Sought, directory, find};
use ori_page::{PageFault, PageSpace};

/// What a position map says of itself.
#[derive(Clone, Copy)]
pub struct Told {
    /// The owner of its pages.
    pub owner: u32,
    /// The next position.
    pub next: i64,
    /// The current data page.
    pub current: u32,
}

/// What a position map says of a position.
#[derive(Clone, Copy)]
pub struct Seen {
    /// The owner of its pages.
    pub owner: u32,
    /// The place, where the position is live.
    pub place: Option<Place>,
}

/// The owner, the next position and the current data page. `Damaged` only where the pages don't stand for a map.
#[tactic(auto, using(crate::proofs::Mapping::why_dir))]
pub fn tell<P: PageSpace>(space: &mut P, dir: u32) -> Result<Told, PageFault>
    ensures pages { IfOk result (λ told. (pages : List (List ℕ)) → P.gives space.old pages → P.gives space.new pages
        × ((m : PositionMap) → IsPositionMap pages dir m
        → (told.owner ≡ m.owner) × (told.next ≡ pos (length m.entries)) × (told.current ≡ m.current))) }
    ensures owner { IfOk result (λ told. told.owner ≢ 0) }
    ensures why { IfErr result (λ fault. (pages : List (List ℕ)) → P.gives space.old pages
        → WhyMap pages dir fault) }
    ensures space { KeepsSpace P.keeps P.count P.causes P.reads 1 result space.old space.new }
{
    let page = directory(space, dir)?;
    Ok(Told {
        owner: page.owner(),
        next: next_on(&page) as i64,
        current: current_on(&page),
    })
}

/// The next position: one that was never given. `Damaged` only where the pages don't stand for a map.
pub fn next<P: PageSpace>(space: &mut P, dir: u32) -> Result<i64, PageFault>
    ensures pages { IfOk result (λ next. (pages : List (List ℕ)) → P.gives space.old pages → P.gives space.new pages
        × ((m : PositionMap) → IsPositionMap pages dir m → next ≡ pos (length m.entries))) }
    ensures why { IfErr result (λ fault. (pages : List (List ℕ)) → P.gives space.old pages
        → WhyMap pages dir fault) }
    ensures space { KeepsSpace P.keeps P.count P.causes P.reads 1 result space.old space.new }
{
    Ok(tell(space, dir)?.next)
}

/// The place of a live position, and the owner of the map. `Damaged` only where the pages don't stand for a map.
pub fn look<P: PageSpace>(space: &mut P, dir: u32, position: i64) -> Result<Seen, PageFault>
    ensures pages { IfOk result (λ seen. (pages : List (List ℕ)) → P.gives space.old pages → P.gives space.new pages
        × ((m : PositionMap) → IsPositionMap pages dir m
        → (seen.owner ≡ m.owner) × (seen.place ≡ place_of m position))) }
    ensures why { IfErr result (λ fault. (pages : List (List ℕ)) → P.gives space.old pages
        → WhyMap pages dir fault) }
    ensures space { KeepsSpace P.keeps P.count P.causes P.reads 2 result space.old space.new }
{
    let found = match find(space, dir, position)? {
        Sought::Given(found) => found,
        Sought::Never(owner) => return Ok(Seen { owner, place: None }),
    };
    let Some(entry) = entry(&found.map, found.index) else {
        return Err(PageFault::Damaged { page: found.number });
    };
    Ok(Seen {
        owner: found.owner,
        place: entry.place(),
    })
}

/// The place of a live position; `None` where it was never given, or is gone. `Damaged` only where the pages don't
/// stand for a map.
pub fn get<P: PageSpace>(space: &mut P, dir: u32, position: i64) -> Result<Option<Place>, PageFault>
    ensures pages { IfOk result (λ place. (pages : List (List ℕ)) → P.gives space.old pages → P.gives space.new pages
        × ((m : PositionMap) → IsPositionMap pages dir m → place ≡ place_of m position)) }
    ensures why { IfErr result (λ fault. (pages : List (List ℕ)) → P.gives space.old pages
        → WhyMap pages dir fault) }
    ensures space { KeepsSpace P.keeps P.count P.causes P.reads 2 result space.old space.new }
{
    Ok(look(space, dir, position)?.place)
}
