// How chunks come onto slots pages and go.
ghost use Rattle.std.specs.Prelude.{◌≡◌, ◌≢◌, ◌+◌, ◌*◌, ◌^◌, ◌<◌, ◌≤◌, ◌++◌, ℕ, true, false, length, IfOk};
ghost use Rattle.std.specs.Int.{w16, to_be_bytes};
ghost use Rattle.ori_bytes.specs.declared.limits.TheConstants.{PAGE_BYTES};
ghost use Rattle.ori_page.specs.Pages.{owner_of};
ghost use Rattle.ori_posmap.specs.Bytes.{patched};
ghost use Rattle.ori_cluster.specs.Slots.{slot_count, used_end, slot_place, chunk_place, has_chunk, chunk_bytes};
ghost use Rattle.ori_cluster.specs.Slots.{IsSlotsPage, HasMore, HasLess, IsBare, IsLone, bare_front};

use crate::chunk::{CHUNK_HEAD, CHUNKS_AT, COUNT_AT, END_AT, Link};
use ori_bytes::limits::{PAGE_BYTES, SLOTS_KIND};
use ori_bytes::{Blob, NoMemory};
use ori_page::Page;
use std::alloc::Global;

// The most bytes that a chunk alone on its page may have.
pub(crate) const MOST_BYTES: usize = PAGE_BYTES - CHUNKS_AT - CHUNK_HEAD - 2;

// Whether a chunk of so many bytes has room, with a slot of its own.
pub(crate) fn has_room(page: &Page, bytes: usize) -> bool
    requires { bytes ≤ PAGE_BYTES }
    ensures yes { result ≡ true → used_end page.now + 8 + bytes + 2 * (slot_count page.now + 1) ≤ PAGE_BYTES }
    ensures no { result ≡ false → PAGE_BYTES < used_end page.now + 8 + bytes + 2 * (slot_count page.now + 1) }
{
    let end = page.u16_at(END_AT) as usize;
    let count = page.u16_at(COUNT_AT) as usize;
    end + CHUNK_HEAD + bytes + 2 * (count + 1) <= PAGE_BYTES
}

// Whether some slot of the page names a chunk.
#[tactic(auto, using(crate::proofs::Pages::each_more))]
pub(crate) fn has_any(page: &Page) -> bool
    requires { used_end page.now + 2 * slot_count page.now ≤ PAGE_BYTES }
    ensures yes { result ≡ true → (s : ℕ) × (s < slot_count page.now) × (chunk_place s page.now ≢ 0) }
    ensures no { result ≡ false → (s : ℕ) → s < slot_count page.now → chunk_place s page.now ≡ 0 }
{
    for s in 0..page.u16_at(COUNT_AT) as usize {
        if page.u16_at(PAGE_BYTES - 2 * (s + 1)) != 0 {
            return true;
        }
    }
    false
}

// Writes a chunk there.
#[tactic(auto, using(crate::proofs::Windows::chunk_written))]
fn write_chunk(page: &mut Page, at: usize, next: Link, bytes: &[u8])
    requires { at + 8 + length bytes.now ≤ PAGE_BYTES }
    ensures value { page.new ≡ patched at (chunk_bytes next bytes.now) page.old }
    ensures page { next.page < 2 ^ 32 }
    ensures slot { next.slot < 2 ^ 16 }
{
    let _whole = page.bytes();
    let Link { page: number, slot } = next;
    page.put(at, &number.to_be_bytes());
    page.put(at + 4, &slot.to_be_bytes());
    page.put(at + 6, &(bytes.len() as u16).to_be_bytes());
    page.put(at + CHUNK_HEAD, bytes);
}

// Writes where the chunk of a slot stands, or 0.
fn write_slot(page: &mut Page, slot: u16, place: u16)
    requires { 2 * (slot + 1) ≤ PAGE_BYTES }
    ensures { page.new ≡ patched (slot_place slot) (to_be_bytes w16 place) page.old }
{
    page.put(PAGE_BYTES - 2 * (slot as usize + 1), &place.to_be_bytes());
}

// Writes how many slots there are, and where the chunks end.
fn write_counts(page: &mut Page, count: u16, end: u16)
    ensures { page.new ≡ patched 8 (to_be_bytes w16 count ++ to_be_bytes w16 end) page.old }
{
    let _whole = page.bytes();
    page.put(COUNT_AT, &count.to_be_bytes());
    page.put(END_AT, &end.to_be_bytes());
}

// What a slots page without a slot begins with.
fn bare_front(alloc: Global, owner: u32) -> Result<Blob, NoMemory>
    ensures { IfOk result (λ front. front ≡ bare_front owner) }
{
    let mut front = Blob::from_slice(alloc, &owner.to_be_bytes())?;
    front.extend_from_slice(&[SLOTS_KIND, 0, 0, 0, 0, 0, 0, CHUNKS_AT as u8])?;
    Ok(front)
}

// A slots page of this owner without a slot.
fn bare_page(alloc: Global, owner: u32) -> Result<Page, NoMemory>
    ensures { IfOk result (λ page. IsBare owner page) }
{
    let front = bare_front(alloc, owner)?;
    Page::filled(alloc, front.as_slice())
}

// A slots page of this owner with this chunk alone, in slot 0.
pub(crate) fn lone_page(
    alloc: Global,
    owner: u32,
    next: Link,
    bytes: &[u8],
) -> Result<Page, NoMemory>
    requires { length bytes.now ≤ MOST_BYTES }
    ensures { IfOk result (λ page. IsLone owner next bytes.now page) }
{
    let mut page = bare_page(alloc, owner)?;
    put_chunk(&mut page, next, bytes);
    Ok(page)
}

// Puts a chunk behind the others, and gives its slot.
pub(crate) fn put_chunk(page: &mut Page, next: Link, bytes: &[u8]) -> u16
    requires front { 16 ≤ used_end page.old }
    requires room { used_end page.old + 8 + length bytes.now + 2 * (slot_count page.old + 1) ≤ PAGE_BYTES }
    ensures slot { result ≡ slot_count page.old }
    ensures owner { owner_of page.new ≡ owner_of page.old }
    ensures page { (owner : ℕ) → IsSlotsPage owner page.old → HasMore owner next bytes.now page.old page.new }
{
    let _whole = page.bytes();
    let count = page.u16_at(COUNT_AT);
    let end = page.u16_at(END_AT);
    write_chunk(page, end as usize, next, bytes);
    write_slot(page, count, end);
    write_counts(
        page,
        count + 1,
        end + CHUNK_HEAD as u16 + bytes.len() as u16,
    );
    count
}

// The slot names no chunk.
pub(crate) fn drop_chunk(page: &mut Page, slot: u16)
    requires { 16 + 2 * (slot + 1) ≤ PAGE_BYTES }
    ensures owner { owner_of page.new ≡ owner_of page.old }
    ensures count { slot_count page.new ≡ slot_count page.old }
    ensures used { used_end page.new ≡ used_end page.old }
    ensures page { (owner : ℕ) → IsSlotsPage owner page.old → has_chunk slot page.old ≡ true
        → HasLess owner slot page.old page.new }
{
    let _whole = page.bytes();
    write_slot(page, slot, 0);
}
