// Chunks of records on slots pages.
ghost use Rattle.std.specs.Prelude.{◌≡◌, ◌+◌, ◌*◌, ◌^◌, ◌<◌, ◌≤◌, ◌++◌, ℕ, List, true, false, length, take, drop, IfOk};
ghost use Rattle.std.specs.Prelude.{IfErr, OnOk};
ghost use Rattle.std.specs.Prelude.{IfSome, IfNone};
ghost use Rattle.ori_bytes.specs.declared.limits.TheConstants.{PAGE_BYTES};
ghost use Rattle.ori_page.specs.Spaces.{page_at};
ghost use Rattle.ori_posmap.specs.Reading.{WhyNotRead, KeepsSpace};
ghost use Rattle.ori_cluster.specs.Slots.{is_slots, has_chunk, slot_count, used_end, chunk_place};
ghost use Rattle.ori_cluster.specs.Slots.{short_at, chunk_on, has_spot, Adds};
ghost use Rattle.ori_cluster.specs.Drops.{has_slots};

use ori_bytes::limits::{PAGE_BYTES, SLOTS_KIND};
use ori_bytes::{Blob, NoMemory};
use ori_page::{Page, PageFault, PageSpace};
use ori_posmap::named_page;

pub(crate) const COUNT_AT: usize = 8;

pub(crate) const END_AT: usize = 10;

pub(crate) const CHUNKS_AT: usize = 16;

pub(crate) const CHUNK_HEAD: usize = 8;

// Where the next chunk of a record stands.
#[derive(Clone, Copy)]
pub(crate) struct Link {
    pub page: u32,
    pub slot: u16,
}

// Whether the page is a slots page of this owner.
fn is_slots(page: &Page, owner: u32) -> bool
    ensures { result ≡ is_slots owner page.now }
{
    let end = page.u16_at(END_AT) as usize;
    page.owner() == owner
        && page.kind() == SLOTS_KIND
        && CHUNKS_AT <= end
        && end + 2 * page.u16_at(COUNT_AT) as usize <= PAGE_BYTES
}

// Where the chunk of a slot stands, if it has one.
pub(crate) fn chunk_place(page: &Page, slot: u16) -> Option<usize>
    requires { used_end page.now + 2 * slot_count page.now ≤ PAGE_BYTES }
    ensures some { IfSome result (λ at. (at ≡ chunk_place slot page.now) × (has_chunk slot page.now ≡ true)
        × (slot < slot_count page.now) × (at + 8 + short_at (at + 6) page.now ≤ used_end page.now)) }
    ensures none { IfNone result (has_chunk slot page.now ≡ false) }
{
    let slot = slot as usize;
    if slot >= page.u16_at(COUNT_AT) as usize {
        return None;
    }
    let at = page.u16_at(PAGE_BYTES - 2 * (slot + 1)) as usize;
    if at < CHUNKS_AT || at + CHUNK_HEAD > PAGE_BYTES {
        return None;
    }
    if at + CHUNK_HEAD + page.u16_at(at + 6) as usize > page.u16_at(END_AT) as usize {
        return None;
    }
    Some(at)
}

// Adds the bytes of the chunk that stands there, and gives where the next one stands.
fn copy_chunk(page: &Page, at: usize, bytes: &mut Blob) -> Result<Link, NoMemory>
    requires { at + 8 + short_at (at + 6) page.now ≤ PAGE_BYTES }
    ensures { IfOk result (λ link. (link.page ≡ (chunk_on at page.now).page) × (link.slot ≡ (chunk_on at page.now).slot)
        × (bytes.new ≡ bytes.old ++ (chunk_on at page.now).bytes)) }
{
    let from = at + CHUNK_HEAD;
    let end = from + page.u16_at(at + 6) as usize;
    bytes.extend_from_slice(&page.bytes()[from..end])?;
    Ok(Link {
        page: page.u32_at(at),
        slot: page.u16_at(at + 4),
    })
}

// A slots page of this owner.
pub(crate) fn slots_page<P: PageSpace>(
    space: &mut P,
    owner: u32,
    number: u32,
) -> Result<Page, PageFault>
    ensures pages { IfOk result (λ content. (pages : List (List ℕ)) → P.gives space.old pages
        → P.gives space.new pages × (content ≡ page_at pages number)) }
    ensures range { OnOk result ((0 < number) × (number < P.count space.new) × (P.count space.new < 2 ^ 32)) }
    ensures good { IfOk result (λ content. is_slots owner content ≡ true) }
    ensures why { IfErr result (λ fault. (pages : List (List ℕ)) → P.gives space.old pages
        → WhyNotRead (has_slots pages owner number) number fault) }
    ensures space { KeepsSpace P.keeps P.count P.causes P.reads 1 result space.old space.new }
{
    let page = named_page(space, number)?;
    if !is_slots(&page, owner) {
        return Err(PageFault::Damaged { page: number });
    }
    Ok(page)
}

// Adds the bytes of a chunk of this owner, and gives where the next one stands.
#[tactic(auto, using(crate::proofs::Chains::no_slots, crate::proofs::Chains::no_spot))]
pub(crate) fn add_chunk<P: PageSpace>(
    space: &mut P,
    owner: u32,
    number: u32,
    slot: u16,
    bytes: &mut Blob,
) -> Result<Link, PageFault>
    ensures pages { IfOk result (λ link. (pages : List (List ℕ)) → P.gives space.old pages → P.gives space.new pages
        × Adds (page_at pages number) slot link bytes.old bytes.new) }
    ensures why { IfErr result (λ fault. (pages : List (List ℕ)) → P.gives space.old pages
        → WhyNotRead (has_spot pages owner number slot) number fault) }
    ensures space { KeepsSpace P.keeps P.count P.causes P.reads 1 result space.old space.new }
{
    let page = slots_page(space, owner, number)?;
    let Some(at) = chunk_place(&page, slot) else {
        return Err(PageFault::Damaged { page: number });
    };
    Ok(copy_chunk(&page, at, bytes)?)
}
