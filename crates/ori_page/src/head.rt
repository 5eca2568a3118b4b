// Page 0.
ghost use Rattle.std.specs.Prelude.{◌≡◌, ◌≤◌, length, IfOk, OnOk, OnErr};
ghost use Rattle.ori_bytes.specs.declared.limits.TheConstants.{PAGE_BYTES};
ghost use Rattle.ori_page.specs.Pages.{filled};
ghost use Rattle.ori_page.specs.Heads.{head_of, head_bytes, with_head, Fits32};

use crate::Page;
use crate::free::page_front;
use ori_bytes::limits::{HEAD_KIND, HEAD_OWNER};
use ori_bytes::{Blob, NoMemory};
use std::alloc::Global;

// Where the fields stand.
const FORMAT_AT: usize = 8;

const COUNT_AT: usize = 12;

const FIRST_FREE_AT: usize = 16;

const FREE_COUNT_AT: usize = 20;

const FIRST_RETIRED_AT: usize = 24;

const NEXT_INDEX_AT: usize = 28;

/// What page 0 names.
#[derive(Clone, Copy)]
pub struct Head {
    /// The form of the pages.
    pub format: u32,
    /// How many pages there are.
    pub count: u32,
    /// The first of the free pages, or 0.
    pub first_free: u32,
    /// How many pages are free.
    pub free_count: u32,
    /// The root of the first retired tree, or 0.
    pub first_retired: u32,
    /// The number of the next index.
    pub next_index: u32,
}

impl Head {
    /// The fields on a page.
    pub fn read(page: &Page) -> Head
        ensures value { result ≡ head_of page.now }
        ensures fits { Fits32 result }
    {
        Head {
            format: page.u32_at(FORMAT_AT),
            count: page.u32_at(COUNT_AT),
            first_free: page.u32_at(FIRST_FREE_AT),
            free_count: page.u32_at(FREE_COUNT_AT),
            first_retired: page.u32_at(FIRST_RETIRED_AT),
            next_index: page.u32_at(NEXT_INDEX_AT),
        }
    }

    // Each field fits its four bytes.
    pub(crate) fn fits(&self)
        ensures { Fits32 self.now }
    {
        let Head {
            format: _format,
            count: _count,
            first_free: _first_free,
            free_count: _free_count,
            first_retired: _first_retired,
            next_index: _next_index,
        } = *self;
    }

    // What a head begins with.
    fn spelled(&self, alloc: Global) -> Result<Blob, NoMemory>
        ensures { IfOk result (λ bytes. bytes ≡ head_bytes self.now) }
    {
        let mut front = page_front(alloc, HEAD_OWNER, HEAD_KIND)?;
        front.extend_from_slice(&self.format.to_be_bytes())?;
        front.extend_from_slice(&self.count.to_be_bytes())?;
        front.extend_from_slice(&self.first_free.to_be_bytes())?;
        front.extend_from_slice(&self.free_count.to_be_bytes())?;
        front.extend_from_slice(&self.first_retired.to_be_bytes())?;
        front.extend_from_slice(&self.next_index.to_be_bytes())?;
        Ok(front)
    }

    /// A page with these fields, and zeros behind them.
    pub fn page(&self, alloc: Global) -> Result<Page, NoMemory>
        ensures { IfOk result (λ page. page ≡ filled (head_bytes self.now)) }
    {
        let front = self.spelled(alloc)?;
        Page::filled(alloc, front.as_slice())
    }

    /// Writes owner, kind and the fields onto a page, and leaves what follows them. Unchanged if out of memory.
    pub fn write(&self, alloc: Global, page: &mut Page) -> Result<(), NoMemory>
        ensures ok { OnOk result (page.new ≡ with_head self.now page.old) }
        ensures err { OnErr result (page.new ≡ page.old) }
    {
        let front = self.spelled(alloc)?;
        page.put(0, front.as_slice());
        Ok(())
    }
}
