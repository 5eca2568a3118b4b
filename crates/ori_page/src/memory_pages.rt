// Pages in memory.
ghost use Rattle.std.specs.Prelude.{◌≡◌, ◌≢◌, ◌+◌, ◌-◌, ◌<◌, ◌≤◌, ◌==◌, ◌&&◌, ◌++◌, [], ◌∷◌, ℕ, List, length};
ghost use Rattle.std.specs.Prelude.{slice_set, true, false, nat_lt, IfOk, IfErr, OnOk, IsErr};
ghost use Rattle.ori_bytes.specs.declared.limits.TheConstants.{MAX_PAGES, PAGE_FORMAT, HEAD_OWNER, HEAD_KIND};
ghost use Rattle.ori_bytes.specs.declared.limits.TheConstants.{FREE_OWNER, FREE_KIND};
ghost use Rattle.ori_page.specs.Pages.{filled, owner_of, kind_of, next_of, fresh_page, free_page};
ghost use Rattle.ori_page.specs.Heads.{head_of, head_bytes, with_head, Fits32};
ghost use Rattle.ori_page.specs.Spaces.{page_at, head_in, is_head, is_head_page, is_listed, is_free_page};
ghost use Rattle.ori_page.specs.Spaces.{AreFull, IsTaken, IsReleased};
ghost use Rattle.ori_page.specs.Memory.{WhyNotGrown, WhyNotReused, WhyNotTaken, WhyNotFreed, damaged_counted};
ghost use Rattle.std.proofs.Common.{ap, sym};

use crate::free::page_front;
use crate::{Head, Page, PageFault, PageSpace};
use ori_bytes::limits::{FREE_KIND, FREE_OWNER, HEAD_KIND, HEAD_OWNER, MAX_PAGES, PAGE_FORMAT};
use ori_bytes::{Causes, NoMemory};
use std::alloc::Global;

// Where a free page has the number of the next one.
const NEXT_AT: usize = 8;

// Pages in a list, with a head among them.
#[derive(Drop)]
struct PageList {
    pages: Vec<Page>,
    ghost some: { 0 < length pages.items },
    ghost few: { length pages.items ≤ MAX_PAGES },
}

// Whether page 0 of so many pages names them, and its fields of free pages are in range.
fn is_head_of(page: &Page, count: usize) -> bool
    ensures { result ≡ is_head_page page.now count }
{
    let head = Head::read(page);
    page.owner() == HEAD_OWNER
        && page.kind() == HEAD_KIND
        && head.count as usize == count
        && (head.first_free as usize) < count
        && (head.free_count as usize) < count
}

// Whether a page of so many pages is free and the next one's number is in range.
fn is_free(page: &Page, count: usize) -> bool
    ensures { result ≡ is_free_page page.now count }
{
    page.owner() == FREE_OWNER
        && page.kind() == FREE_KIND
        && (page.u32_at(NEXT_AT) as usize) < count
}

impl PageList {
    // The fields of page 0, where it is a head.
    fn head(&self) -> Result<Head, PageFault>
        ensures ok { IfOk result (λ head. (head ≡ head_in self.now.pages.items)
            × (is_head self.now.pages.items ≡ true) × Fits32 head) }
        ensures err { IfErr result (λ fault. (fault ≡ PageFault.Damaged 0) × (is_head self.now.pages.items ≡ false)) }
    {
        let page = &self.pages[0];
        if !is_head_of(page, self.pages.len()) {
            return Err(PageFault::Damaged { page: 0 });
        }
        Ok(Head::read(page))
    }

    // Puts a page in the place of another, which isn't the head, and new fields into the head.
    fn change(&mut self, head: Head, at: u32, page: Page) -> Result<(), PageFault>
        requires above { 0 < at }
        requires below { at < length self.old.pages.items }
        ensures ok { OnOk result (self.new.pages.items
            ≡ slice_set (slice_set self.old.pages.items 0 (with_head head (page_at self.old.pages.items 0))) at page) }
        ensures fits { Fits32 head }
        ensures err { IfErr result (λ fault. fault ≡ PageFault.NoMemory) }
    {
        let alloc = *self.pages.allocator();
        head.fits();
        head.write(alloc, &mut self.pages[0])?;
        self.pages[at as usize] = page;
        Ok(())
    }

    // Puts a page behind the last.
    fn grow(&mut self, head: Head, page: Page) -> Result<u32, PageFault>
        ensures ok { IfOk result (λ at. (at ≡ length self.old.pages.items) × (at < MAX_PAGES) × (self.new.pages.items
            ≡ slice_set (self.old.pages.items ++ page ∷ []) 0
            (with_head (record head { count = at + 1 }) (page_at self.old.pages.items 0)))
            × Fits32 (record head { count = at + 1 })) }
        ensures err { IfErr result (λ fault. WhyNotGrown (length self.old.pages.items) fault) }
    {
        let alloc = *self.pages.allocator();
        let at = self.pages.len() as u32;
        if at == MAX_PAGES {
            return Err(PageFault::PagesFull);
        }
        let Ok(()) = self.pages.push(page) else {
            return Err(PageFault::NoMemory);
        };
        let grown = Head {
            count: at + 1,
            ..head
        };
        grown.fits();
        grown.write(alloc, &mut self.pages[0])?;
        Ok(at)
    }

    // Takes the first free page, where there is one.
    fn reuse(&mut self, head: Head, page: Page) -> Result<u32, PageFault>
        requires above { 0 < head.first_free }
        requires below { head.first_free < length self.old.pages.items }
        ensures ok { IfOk result (λ at. (at ≡ head.first_free) × (is_listed self.old.pages.items at ≡ true)
            × (self.new.pages.items ≡ slice_set (slice_set self.old.pages.items 0 (with_head (record head {
              first_free = next_of (page_at self.old.pages.items at);
              free_count = head.free_count - 1;
            })
            (page_at self.old.pages.items 0))) at page) × Fits32 (record head {
              first_free = next_of (page_at self.old.pages.items at);
              free_count = head.free_count - 1;
            })) }
        ensures err { IfErr result (WhyNotReused self.old.pages.items head.first_free) }
    {
        let at = head.first_free;
        let free = &self.pages[at as usize];
        if !is_free(free, self.pages.len()) {
            return Err(PageFault::Damaged { page: at });
        }
        let rest = Head {
            first_free: free.u32_at(NEXT_AT),
            free_count: head.free_count.saturating_sub(1),
            ..head
        };
        self.change(rest, at, page)?;
        Ok(at)
    }

    // Takes a page off the list of free ones, or makes a new one.
    fn take(&mut self, owner: u32, kind: u8) -> Result<u32, PageFault>
        ensures ok { IfOk result (λ at. IsTaken owner kind at self.old.pages.items self.new.pages.items) }
        ensures err { IfErr result (WhyNotTaken self.old.pages.items) }
        ensures full { AreFull self.old.pages.items → IsErr result }
    {
        let alloc = *self.pages.allocator();
        let head = self.head()?;
        let page = Page::empty(alloc, owner, kind)?;
        if head.first_free == 0 {
            return self.grow(head, page);
        }
        self.reuse(head, page)
    }

    // Puts a page on the list of free ones.
    fn free(&mut self, page: u32) -> Result<(), PageFault>
        requires above { 0 < page }
        requires below { page < length self.old.pages.items }
        ensures ok { OnOk result (kind_of (page_at self.old.pages.items page) ≢ FREE_KIND
            → IsReleased page self.old.pages.items self.new.pages.items) }
        ensures count { OnOk result (length self.new.pages.items ≡ length self.old.pages.items) }
        ensures err { IfErr result (WhyNotFreed self.old.pages.items) }
    {
        let alloc = *self.pages.allocator();
        let head = self.head()?;
        let free = Page::free(alloc, head.first_free)?;
        let more = Head {
            first_free: page,
            free_count: head.free_count + 1,
            ..head
        };
        self.change(more, page, free)
    }
}

/// A list of pages in memory, which tells them. It answers neither `Device` nor `Busy`.
#[derive(Drop)]
pub struct MemPages {
    list: PageList,
    damaged: u64,
    reads: u64,
}

impl MemPages {
    /// A head of the form in force as its only page.
    pub fn empty(alloc: Global) -> Result<MemPages, NoMemory>
        ensures { IfOk result (λ space. space.list.pages.items ≡ filled (head_bytes (record {
          format = PAGE_FORMAT;
          count = 1;
          first_free = 0;
          free_count = 0;
          first_retired = 0;
          next_index = 0;
        })) ∷ []) }
    {
        let head = Head {
            format: PAGE_FORMAT,
            count: 1,
            first_free: 0,
            free_count: 0,
            first_retired: 0,
            next_index: 0,
        };
        let page = head.page(alloc)?;
        let mut pages = Vec::new(alloc);
        pages.push(page)?;
        Ok(MemPages {
            list: PageList { pages },
            damaged: 0,
            reads: 0,
        })
    }

    // Counts an answer of `Damaged`.
    fn note<T>(&mut self, answer: &Result<T, PageFault>)
        ensures { self.new ≡ record self.old { damaged = damaged_counted answer.now self.old.damaged } }
    {
        if let Err(PageFault::Damaged { .. }) = answer {
            self.damaged = self.damaged.saturating_add(1);
        }
    }
}

impl PageSpace for MemPages {
    ghost use Rattle.std.specs.Prelude.{⊤};
    ghost use Rattle.ori_bytes.specs.declared.causes.Causes.{Causes};

    ghost gives = { λ space pages. space.list.pages.items ≡ pages };

    ghost keeps = { λ _ _. ⊤ };

    ghost count = { λ space. length space.list.pages.items };

    ghost causes = { λ space. record { device = 0; fault = 0; busy = 0; damaged = space.damaged } };

    ghost reads = { λ space. space.reads };

    ghost counts = { λ space pages is. ap length (sym is) };

    ghost has_head = { λ space. space.list.some };

    ghost keeps_itself = { λ _. tt };

    ghost keeps_on = { λ _ _ _ _ _. tt };

    fn count(&self) -> u32 {
        self.list.pages.len() as u32
    }

    fn read(&mut self, page: u32) -> Result<Page, PageFault> {
        self.reads = self.reads.saturating_add(1);
        Ok(self.list.pages[page as usize].copy()?)
    }

    fn write(&mut self, page: u32, content: Page) -> Result<(), PageFault> {
        self.list.pages[page as usize] = content;
        Ok(())
    }

    fn fresh(&mut self, owner: u32, kind: u8) -> Result<u32, PageFault> {
        let taken = self.list.take(owner, kind);
        self.note(&taken);
        taken
    }

    fn release(&mut self, page: u32) -> Result<(), PageFault> {
        let freed = self.list.free(page);
        self.note(&freed);
        freed
    }

    fn causes(&self) -> Causes {
        Causes {
            device: 0,
            fault: 0,
            busy: 0,
            damaged: self.damaged,
        }
    }

    fn reads(&self) -> u64 {
        self.reads
    }
}
