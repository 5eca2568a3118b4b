// The fields of a directory page and of a map page.
ghost use Rattle.std.specs.Prelude.{◌≡◌, ◌+◌, ◌*◌, ◌<◌, ◌≤◌, ◌==◌, ℕ, ℤ, pos, true, false, length, drop, IfSome};
ghost use Rattle.std.specs.Prelude.{IfNone};
ghost use Rattle.std.specs.Int.{w64, to_be_bytes, w32, from_be_bytes};
ghost use Rattle.ori_bytes.specs.declared.limits.TheConstants.{PAGE_BYTES, MAP_ENTRIES, MAX_MAP_PAGES};
ghost use Rattle.ori_page.specs.Pages.{owner_of, number_at};
ghost use Rattle.ori_posmap.specs.Bytes.{patched, next_on, current_on, map_count_on, number_place, entry_place};
ghost use Rattle.ori_posmap.specs.Bytes.{is_directory, is_map, is_given, entry_on, entry_bytes};

use crate::place::{Entry, GONE, LIVE, Place};
use ori_bytes::limits::{DIRECTORY_KIND, MAP_ENTRIES, MAP_KIND, MAX_MAP_PAGES};
use ori_page::Page;

// Where the fields of a directory page stand.
const NEXT_AT: usize = 8;

const CURRENT_AT: usize = 16;

const MAPS_AT: usize = 20;

const NUMBERS_AT: usize = 24;

const NUMBER_BYTES: usize = 4;

// Where the entries of a map page stand.
const ENTRIES_AT: usize = 8;

const ENTRY_BYTES: usize = 16;

fn u64_at(page: &Page, at: usize) -> u64
    requires { at + 8 ≤ PAGE_BYTES }
    ensures { result ≡ from_be_bytes w64 (drop at page.now) }
{
    let bytes = page.bytes();
    u64::from_be_bytes([
        bytes[at],
        bytes[at + 1],
        bytes[at + 2],
        bytes[at + 3],
        bytes[at + 4],
        bytes[at + 5],
        bytes[at + 6],
        bytes[at + 7],
    ])
}

// The next position.
pub(crate) fn next_on(page: &Page) -> u64
    ensures { result ≡ next_on page.now }
{
    u64_at(page, NEXT_AT)
}

// How many map pages there are.
pub(crate) fn map_count(page: &Page) -> u32
    ensures { result ≡ map_count_on page.now }
{
    page.u32_at(MAPS_AT)
}

// The current data page.
pub(crate) fn current_on(page: &Page) -> u32
    ensures { result ≡ current_on page.now }
{
    page.u32_at(CURRENT_AT)
}

// The number of the k-th map page.
pub(crate) fn map_number(page: &Page, k: usize) -> u32
    requires { k < MAX_MAP_PAGES }
    ensures { result ≡ number_at (number_place k) page.now }
{
    page.u32_at(NUMBERS_AT + NUMBER_BYTES * k)
}

// Whether the page is a directory page of some owner, with no more positions than its map pages have.
pub(crate) fn is_directory(page: &Page) -> bool
    ensures { result ≡ is_directory page.now }
{
    let maps = map_count(page);
    page.owner() != 0
        && page.kind() == DIRECTORY_KIND
        && maps as usize <= MAX_MAP_PAGES
        && next_on(page) <= MAP_ENTRIES as u64 * maps as u64
}

// Whether the page is a map page of this owner.
pub(crate) fn is_map(page: &Page, owner: u32) -> bool
    ensures { result ≡ is_map owner page.now }
{
    page.owner() == owner && page.kind() == MAP_KIND
}

// The position as a number, where it was given.
pub(crate) fn given(page: &Page, position: i64) -> Option<u64>
    ensures some { IfSome result (λ q. (position ≡ pos q) × (q < next_on page.now)) }
    ensures none { IfNone result ((q : ℕ) → position ≡ pos q → next_on page.now ≤ q) }
{
    let Ok(at) = u64::try_from(position) else {
        return None;
    };
    if at >= next_on(page) {
        return None;
    }
    Some(at)
}

// The i-th entry of a map page, where its position was given.
pub(crate) fn entry(page: &Page, i: usize) -> Option<Entry>
    requires { i < MAP_ENTRIES }
    ensures some { IfSome result (λ entry. (entry ≡ entry_on i page.now) × (is_given i page.now ≡ true)) }
    ensures none { IfNone result (is_given i page.now ≡ false) }
{
    let at = ENTRIES_AT + ENTRY_BYTES * i;
    let state = page.bytes()[at];
    if state != LIVE && state != GONE {
        return None;
    }
    Some(Entry {
        live: state == LIVE,
        place: Place {
            page: page.u32_at(at + 4),
            slot: page.u16_at(at + 2),
            bytes: page.u32_at(at + 8),
        },
    })
}

// Writes bytes behind the owner of a page.
#[tactic(auto, using(crate::proofs::Owners::patched_owner))]
fn patch(page: &mut Page, at: usize, bytes: &[u8])
    requires front { 4 ≤ at }
    requires room { at + length bytes.now ≤ PAGE_BYTES }
    ensures long { length page.old ≡ PAGE_BYTES }
    ensures value { page.new ≡ patched at bytes.now page.old }
    ensures owner { owner_of page.new ≡ owner_of page.old }
{
    let _whole = page.bytes();
    page.put(at, bytes);
}

// Writes the i-th entry of a map page.
pub(crate) fn put_entry(page: &mut Page, i: usize, entry: Entry)
    requires { i < MAP_ENTRIES }
    ensures value { page.new ≡ patched (entry_place i) (entry_bytes entry) page.old }
    ensures owner { owner_of page.new ≡ owner_of page.old }
{
    patch(page, ENTRIES_AT + ENTRY_BYTES * i, &entry.spelled());
}

// Writes the next position.
pub(crate) fn put_next(page: &mut Page, next: u64)
    ensures value { page.new ≡ patched 8 (to_be_bytes w64 next) page.old }
    ensures owner { owner_of page.new ≡ owner_of page.old }
{
    patch(page, NEXT_AT, &next.to_be_bytes());
}

// Writes the current data page.
pub(crate) fn put_current(page: &mut Page, current: u32)
    ensures value { page.new ≡ patched 16 (to_be_bytes w32 current) page.old }
    ensures owner { owner_of page.new ≡ owner_of page.old }
{
    patch(page, CURRENT_AT, &current.to_be_bytes());
}

// Names one map page more, behind the others.
pub(crate) fn put_map(page: &mut Page, maps: u32, number: u32)
    requires { maps < MAX_MAP_PAGES }
    ensures long { length page.old ≡ PAGE_BYTES }
    ensures value { page.new ≡ patched (number_place maps) (to_be_bytes w32 number)
        (patched 20 (to_be_bytes w32 (maps + 1)) page.old) }
    ensures owner { owner_of page.new ≡ owner_of page.old }
{
    patch(page, MAPS_AT, &(maps + 1).to_be_bytes());
    patch(
        page,
        NUMBERS_AT + NUMBER_BYTES * maps as usize,
        &number.to_be_bytes(),
    );
}
