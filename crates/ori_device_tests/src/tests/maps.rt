// Position maps and clusters over pages in memory: by values worked out by hand, and against a list in memory.
ghost use Rattle.std.specs.Prelude.{◌<◌, ◌≤◌, length, IfOk};
ghost use Rattle.ori_cluster.specs.declared.TheConstants.{MAX_BYTES};

use ori_bytes::limits::{FREE_KIND, MAX_MAP_PAGES, MAX_POSITIONS};
use ori_bytes::{Blob, NoMemory};
use ori_cluster::{MAX_BYTES, create, next_after, read, remove, replace};
use ori_page::{MemPages, PageSpace};
use ori_posmap::{Place, PosFault, get, live_from, next, push, set};
use std::alloc::Global;

// A space with a cluster without a record, and its directory page, which is that of a position map too.
fn started(alloc: Global) -> Option<(MemPages, u32)> {
    let Ok(mut space) = MemPages::empty(alloc) else {
        return None;
    };
    match ori_cluster::found(&mut space, 65_537) {
        Ok(dir) => Some((space, dir)),
        Err(_) => None,
    }
}

// ---- position maps

// Gives the next position to a place that no chunk stands at: position maps don't look.
fn pushed(space: &mut MemPages, dir: u32) -> Result<i64, PosFault> {
    let place = Place {
        page: 9,
        slot: 1,
        bytes: 300,
    };
    push(space, dir, place)
}

fn gives(space: &mut MemPages, dir: u32, position: i64) -> bool {
    match pushed(space, dir) {
        Ok(given) => given == position,
        Err(_) => false,
    }
}

fn is_full(space: &mut MemPages, dir: u32) -> bool {
    matches!(pushed(space, dir), Err(PosFault::ClusterFull))
}

// Whether a position is gone that was given.
fn goes(space: &mut MemPages, dir: u32, position: i64) -> bool {
    set(space, dir, position, None).is_ok() && matches!(get(space, dir, position), Ok(None))
}

#[test]
fn a_position_is_given_once(rt: HostRuntime) {
    let Some((mut space, dir)) = started(rt.alloc()) else {
        panic!(rt; "out of memory")
    };
    assert!(rt; gives(&mut space, dir, 0) && gives(&mut space, dir, 1));
    assert!(rt; goes(&mut space, dir, 0));
    assert!(rt; live_from(&mut space, dir, 0) == Ok(Some(1)));
    assert!(rt; live_from(&mut space, dir, 2) == Ok(None));
    assert!(rt; gives(&mut space, dir, 2));
}

// Writes on the directory page that as many positions were given as there may be, on as many map pages.
fn fill(space: &mut MemPages, dir: u32) -> bool {
    if dir >= space.count() {
        return false;
    }
    let Ok(mut page) = space.read(dir) else {
        return false;
    };
    page.put(8, &MAX_POSITIONS.to_be_bytes());
    page.put(20, &(MAX_MAP_PAGES as u32).to_be_bytes());
    if page.owner() == 0 {
        return false;
    }
    space.write(dir, page).is_ok()
}

#[test]
fn a_full_map_gives_no_position(rt: HostRuntime) {
    let Some((mut space, dir)) = started(rt.alloc()) else {
        panic!(rt; "out of memory")
    };
    assert!(rt; !is_full(&mut space, dir));
    assert!(rt; fill(&mut space, dir));
    assert!(rt; is_full(&mut space, dir));
    assert!(rt; next(&mut space, dir) == Ok(250_000));
}

// ---- clusters

// How many bytes of which value a record is. Where there is no record it is none of value 0.
type Shape = (usize, u8);

const GONE: Shape = (0, 0);

fn is_used(space: &mut MemPages, page: u32) -> bool {
    if page >= space.count() {
        return false;
    }
    match space.read(page) {
        Ok(content) => content.kind() != FREE_KIND,
        Err(_) => false,
    }
}

// How many pages aren't free.
fn in_use(space: &mut MemPages) -> u32 {
    let mut used = 0u32;
    for page in 0..space.count() {
        if is_used(space, page) {
            used = used.saturating_add(1);
        }
    }
    used
}

// A record of this shape.
fn filled(alloc: Global, shape: Shape) -> Result<Blob, NoMemory>
    ensures { IfOk result (λ bytes. (0 < length bytes) × (length bytes ≤ MAX_BYTES)) }
{
    let len = shape.0.clamp(1, MAX_BYTES as usize);
    Ok(Blob::from_vec(Vec::from_elem(alloc, shape.1, len)?))
}

// Stores a record at the next position, and answers that.
fn made(alloc: Global, space: &mut MemPages, dir: u32, shape: Shape) -> Option<i64> {
    let Ok(bytes) = filled(alloc, shape) else {
        return None;
    };
    match create(alloc, space, dir, bytes.as_slice()) {
        Ok(position) => Some(position),
        Err(_) => None,
    }
}

// Stores a record at a position, where there is one.
fn changed(
    alloc: Global,
    space: &mut MemPages,
    dir: u32,
    position: i64,
    shape: Shape,
) -> Option<bool> {
    let Ok(bytes) = filled(alloc, shape) else {
        return None;
    };
    match replace(alloc, space, dir, position, bytes.as_slice()) {
        Ok(was) => Some(was),
        Err(_) => None,
    }
}

// The shape of bytes of one value.
fn shape_of(bytes: &[u8]) -> Option<Shape> {
    let first = *bytes.first()?;
    for byte in bytes {
        if *byte != first {
            return None;
        }
    }
    Some((bytes.len(), first))
}

// The shape of the record at a position; none where it can't be read or has none.
fn stored(alloc: Global, space: &mut MemPages, dir: u32, position: i64) -> Option<Shape> {
    match read(alloc, space, dir, position) {
        Ok(Some(bytes)) => shape_of(bytes.as_slice()),
        Ok(None) => Some(GONE),
        Err(_) => None,
    }
}

// Of 9,000 bytes 4,070 stand on each of two pages and 860 on the current one; the head, the directory page and one map
// page are the other three in use.
#[test]
fn a_long_record_gives_way_to_a_short_one(rt: HostRuntime) {
    let Some((mut space, dir)) = started(rt.alloc()) else {
        panic!(rt; "out of memory")
    };
    assert!(rt; made(rt.alloc(), &mut space, dir, (9_000, 7)) == Some(0));
    assert!(rt; stored(rt.alloc(), &mut space, dir, 0) == Some((9_000, 7)));
    assert!(rt; in_use(&mut space) == 6);
    assert!(rt; changed(rt.alloc(), &mut space, dir, 0, (10, 1)) == Some(true));
    assert!(rt; stored(rt.alloc(), &mut space, dir, 0) == Some((10, 1)));
    assert!(rt; in_use(&mut space) == 4);
}

// Three records of one byte, of which the second is removed.
fn one_gone(alloc: Global, space: &mut MemPages, dir: u32) -> bool {
    for byte in 0..3 {
        if made(alloc, space, dir, (1, byte)).is_none() {
            return false;
        }
    }
    remove(space, dir, 1) == Ok(true)
}

#[test]
fn a_removed_position_is_skipped(rt: HostRuntime) {
    let Some((mut space, dir)) = started(rt.alloc()) else {
        panic!(rt; "out of memory")
    };
    assert!(rt; one_gone(rt.alloc(), &mut space, dir));
    assert!(rt; remove(&mut space, dir, 1) == Ok(false));
    assert!(rt; stored(rt.alloc(), &mut space, dir, 1) == Some(GONE));
    assert!(rt; next_after(&mut space, dir, Some(0)) == Ok(Some(2)));
    assert!(rt; next_after(&mut space, dir, Some(2)) == Ok(None));
    assert!(rt; made(rt.alloc(), &mut space, dir, (1, 9)) == Some(3));
}

// ---- random calls

// A position, of which there are never as many as these calls could ask for.
fn position_of(at: usize) -> i64 {
    if at >= MAX_POSITIONS as usize {
        return -1;
    }
    at as i64
}

// A cluster, and a list of what its records are to be.
#[derive(Drop)]
struct Trial {
    space: MemPages,
    dir: u32,
    records: Vec<Shape>,
    seed: u64,
}

// A number between 0 and 2^31, and the state behind it.
fn drawn(seed: u64) -> (u64, usize) {
    let next = seed
        .wrapping_mul(6_364_136_223_846_793_005)
        .wrapping_add(1_442_695_040_888_963_407);
    (next, (next >> 33) as usize)
}

// Short records, and one in seven of up to 20,000 bytes.
fn drawn_shape(drawn: usize) -> Shape {
    let most = if drawn % 7 == 0 { 20_000 } else { 300 };
    (1 + drawn % most, (drawn % 251) as u8)
}

impl Trial {
    // What is to be at a position.
    fn wanted(&self, at: usize) -> Shape {
        match self.records.get(at) {
            Some(shape) => *shape,
            None => GONE,
        }
    }

    fn want(&mut self, at: usize, shape: Shape) {
        if let Some(wanted) = self.records.get_mut(at) {
            *wanted = shape;
        }
    }

    // Each call tells whether it has answered as the list says.
    fn create(&mut self, alloc: Global, shape: Shape) -> bool {
        let at = position_of(self.records.len());
        self.records.push(shape).is_ok()
            && made(alloc, &mut self.space, self.dir, shape) == Some(at)
    }

    fn replace(&mut self, alloc: Global, at: usize, shape: Shape) -> bool {
        let is_there = self.wanted(at) != GONE;
        if is_there {
            self.want(at, shape);
        }
        changed(alloc, &mut self.space, self.dir, position_of(at), shape) == Some(is_there)
    }

    fn remove(&mut self, at: usize) -> bool {
        let is_there = self.wanted(at) != GONE;
        self.want(at, GONE);
        remove(&mut self.space, self.dir, position_of(at)) == Ok(is_there)
    }

    fn read(&mut self, alloc: Global, at: usize) -> bool {
        stored(alloc, &mut self.space, self.dir, position_of(at)) == Some(self.wanted(at))
    }

    // One random call.
    fn step(&mut self, alloc: Global) -> bool {
        let (seed, drawn) = drawn(self.seed);
        self.seed = seed;
        let given = self.records.len();
        if given == 0 || drawn / 512 % 4 == 0 {
            return self.create(alloc, drawn_shape(drawn));
        }
        let at = drawn / 4_096 % given;
        match drawn / 512 % 4 {
            1 => self.replace(alloc, at, drawn_shape(drawn)),
            2 => self.remove(at),
            _ => self.read(alloc, at),
        }
    }

    // How many of so many random calls have answered otherwise.
    fn wrong_of(&mut self, alloc: Global, calls: u32) -> u32 {
        let mut wrong = 0u32;
        for _ in 0..calls {
            if !self.step(alloc) {
                wrong = wrong.saturating_add(1);
            }
        }
        wrong
    }

    // How many positions don't read as the list says.
    fn differing(&mut self, alloc: Global) -> u32 {
        let mut wrong = 0u32;
        for at in 0..self.records.len() {
            if !self.read(alloc, at) {
                wrong = wrong.saturating_add(1);
            }
        }
        wrong
    }

    // The pages that are in use once each record is removed, but for one map page for 250 positions.
    fn left(&mut self) -> u32 {
        for at in 0..self.records.len() {
            self.remove(at);
        }
        let given = self.records.len().min(MAX_POSITIONS as usize);
        in_use(&mut self.space).saturating_sub(given.div_ceil(250) as u32)
    }
}

// Beside the map pages the head, the directory page and the current data page are left.
#[test]
fn random_calls_answer_as_a_list(rt: HostRuntime) {
    let Some((space, dir)) = started(rt.alloc()) else {
        panic!(rt; "out of memory")
    };
    let mut trial = Trial {
        space,
        dir,
        records: Vec::new(rt.alloc()),
        seed: 12_345,
    };
    assert!(rt; trial.wrong_of(rt.alloc(), 10_000) == 0);
    assert!(rt; trial.differing(rt.alloc()) == 0);
    assert!(rt; trial.left() == 3);
}
