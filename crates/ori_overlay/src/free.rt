// The free pages of an operation.
ghost use Rattle.std.specs.Prelude.{◌≡◌, ◌≢◌, ◌+◌, ◌-◌, ◌<◌, ◌≤◌, ℕ, List, true, slice_set, IfOk, IfErr, OnOk, IsErr};
ghost use Rattle.std.specs.Prelude.{IsErrOf};
ghost use Rattle.ori_bytes.specs.declared.limits.TheConstants.{MAX_PAGES, FREE_KIND};
ghost use Rattle.ori_page.specs.Pages.{kind_of};
ghost use Rattle.ori_page.specs.Heads.{head_of, with_head, Fits32};
ghost use Rattle.ori_page.specs.Spaces.{page_at, is_head, is_head_page, is_free_page, AreFull, IsTaken, IsReleased};
ghost use Rattle.ori_page.specs.Faults.{IsOutside, MayNotTake, MayNotRelease, WhyRefused};
ghost use Rattle.ori_page.specs.declared.fault.PageFault.{PageFault};
ghost use Rattle.ori_overlay.specs.Changed.{Shows};
ghost use Rattle.ori_overlay.specs.Steps.{OnlyReads, WhyNotGrown};

use crate::{Overlay, PageSource};
use ori_bytes::limits::{FREE_KIND, FREE_OWNER, HEAD_KIND, HEAD_OWNER, MAX_PAGES};
use ori_page::{Head, Page, PageFault};

// Where a free page has the number of the next one.
const NEXT_AT: usize = 8;

// Whether page 0 of so many pages names them, and its fields of free pages are in range.
fn is_head_of(page: &Page, count: u32) -> bool
    ensures { result ≡ is_head_page page.now count }
{
    let head = Head::read(page);
    page.owner() == HEAD_OWNER
        && page.kind() == HEAD_KIND
        && head.count == count
        && head.first_free < count
        && head.free_count < count
}

// Whether a page of so many pages is free and the next one's number is in range.
fn is_free(page: &Page, count: u32) -> bool
    ensures { result ≡ is_free_page page.now count }
{
    page.owner() == FREE_OWNER && page.kind() == FREE_KIND && page.u32_at(NEXT_AT) < count
}

// Each field fits its four bytes.
fn fits(head: &Head)
    ensures { Fits32 head.now }
{
    let Head {
        format: _format,
        count: _count,
        first_free: _first_free,
        free_count: _free_count,
        first_retired: _first_retired,
        next_index: _next_index,
    } = *head;
}

impl<S: PageSource> Overlay<S> {
    // Page 0, where it is a head.
    fn head_page(&mut self) -> Result<Page, PageFault>
        ensures head { IfOk result (λ top. is_head_page top self.old.changes.count ≡ true) }
        ensures content { IfOk result (λ top. (base pages : List (List ℕ)) → S.gives self.old.source base
            → Shows self.old.changes base pages → top ≡ page_at pages 0) }
        ensures fault { IfErr result MayNotRelease }
        ensures why { IfErr result (λ fault. (base pages : List (List ℕ)) → S.gives self.old.source base
            → Shows self.old.changes base pages → WhyRefused pages fault) }
        ensures changes { self.new.changes ≡ self.old.changes }
        ensures reads { OnlyReads S.gives S.keeps S.count S.causes result self.old.source self.new.source }
        ensures counts { (self.new.damaged ≡ self.old.damaged) × (self.new.reads ≡ self.old.reads) }
    {
        let top = self.get(0)?;
        if !is_head_of(&top, self.changes.count()) {
            return Err(PageFault::Damaged { page: 0 });
        }
        Ok(top)
    }

    // Writes these fields into the head.
    fn put_head(&mut self, head: Head, mut top: Page) -> Result<(), PageFault>
        ensures pages { OnOk result ((base pages : List (List ℕ)) → S.gives self.old.source base
            → Shows self.old.changes base pages
            → Shows self.new.changes base (slice_set pages 0 (with_head head top))) }
        ensures fits { Fits32 head }
        ensures count { self.new.changes.count ≡ self.old.changes.count }
        ensures head { self.new.changes.head ≡ self.old.changes.head }
        ensures fault { IfErr result IsOutside }
        ensures reads { OnlyReads S.gives S.keeps S.count S.causes result self.old.source self.new.source }
        ensures counts { (self.new.damaged ≡ self.old.damaged) × (self.new.reads ≡ self.old.reads) }
    {
        fits(&head);
        head.write(self.alloc, &mut top)?;
        self.put(0, top)
    }

    // Puts a page behind the last, below this head.
    fn grow(&mut self, top: Page, owner: u32, kind: u8) -> Result<u32, PageFault>
        ensures pages { IfOk result (λ page. (base pages : List (List ℕ)) → S.gives self.old.source base
            → Shows self.old.changes base pages → top ≡ page_at pages 0
            → (after : List (List ℕ)) × Shows self.new.changes base after × IsTaken owner kind page pages after) }
        ensures count { IfOk result (λ page. (page < self.new.changes.count)
            × (self.old.changes.count ≤ self.new.changes.count)) }
        ensures err { IfErr result (WhyNotGrown self.old.changes.count) }
        ensures full { self.old.changes.count ≡ MAX_PAGES → IsErr result }
        ensures head { self.new.changes.head ≡ self.old.changes.head }
        ensures reads { OnlyReads S.gives S.keeps S.count S.causes result self.old.source self.new.source }
        ensures counts { (self.new.damaged ≡ self.old.damaged) × (self.new.reads ≡ self.old.reads) }
    {
        let page = Page::empty(self.alloc, owner, kind)?;
        let at = self.changes.count();
        if at == MAX_PAGES {
            return Err(PageFault::PagesFull);
        }
        self.push(page)?;
        let grown = Head {
            count: at + 1,
            ..Head::read(&top)
        };
        self.put_head(grown, top)?;
        Ok(at)
    }

    // Takes the first free page of this head, where there is one.
    fn reuse(&mut self, top: Page, owner: u32, kind: u8) -> Result<u32, PageFault>
        requires above { 0 < (head_of top).first_free }
        requires below { (head_of top).first_free < self.old.changes.count }
        ensures pages { IfOk result (λ page. (base pages : List (List ℕ)) → S.gives self.old.source base
            → Shows self.old.changes base pages → top ≡ page_at pages 0
            → (after : List (List ℕ)) × Shows self.new.changes base after × IsTaken owner kind page pages after) }
        ensures count { IfOk result (λ page. (page < self.new.changes.count)
            × (self.old.changes.count ≤ self.new.changes.count)) }
        ensures fault { IfErr result MayNotRelease }
        ensures why { IfErr result (λ fault. (base pages : List (List ℕ)) → S.gives self.old.source base
            → Shows self.old.changes base pages → top ≡ page_at pages 0 → WhyRefused pages fault) }
        ensures head { self.new.changes.head ≡ self.old.changes.head }
        ensures reads { OnlyReads S.gives S.keeps S.count S.causes result self.old.source self.new.source }
        ensures counts { (self.new.damaged ≡ self.old.damaged) × (self.new.reads ≡ self.old.reads) }
    {
        let page = Page::empty(self.alloc, owner, kind)?;
        let head = Head::read(&top);
        let at = head.first_free;
        let free = self.get(at)?;
        if !is_free(&free, self.changes.count()) {
            return Err(PageFault::Damaged { page: at });
        }
        let rest = Head {
            first_free: free.u32_at(NEXT_AT),
            free_count: head.free_count.saturating_sub(1),
            ..head
        };
        self.put_head(rest, top)?;
        self.put(at, page)?;
        Ok(at)
    }

    // Takes a page off the list of free ones, or puts a new one behind the last.
    pub(crate) fn allot(&mut self, owner: u32, kind: u8) -> Result<u32, PageFault>
        ensures pages { IfOk result (λ page. (base pages : List (List ℕ)) → S.gives self.old.source base
            → Shows self.old.changes base pages
            → (after : List (List ℕ)) × Shows self.new.changes base after × IsTaken owner kind page pages after) }
        ensures count { IfOk result (λ page. (page < self.new.changes.count)
            × (self.old.changes.count ≤ self.new.changes.count)) }
        ensures fault { IfErr result MayNotTake }
        ensures why { IfErr result (λ fault. (base pages : List (List ℕ)) → S.gives self.old.source base
            → Shows self.old.changes base pages → WhyRefused pages fault) }
        ensures full { (base pages : List (List ℕ)) → S.gives self.old.source base → Shows self.old.changes base pages
            → AreFull pages → IsErr result }
        ensures head { self.new.changes.head ≡ self.old.changes.head }
        ensures reads { OnlyReads S.gives S.keeps S.count S.causes result self.old.source self.new.source }
        ensures counts { (self.new.damaged ≡ self.old.damaged) × (self.new.reads ≡ self.old.reads) }
    {
        let top = self.head_page()?;
        if Head::read(&top).first_free == 0 {
            return self.grow(top, owner, kind);
        }
        self.reuse(top, owner, kind)
    }

    // Puts a page on the list of free ones.
    pub(crate) fn free(&mut self, page: u32) -> Result<(), PageFault>
        requires above { 0 < page }
        requires below { page < self.old.changes.count }
        ensures pages { OnOk result ((base pages : List (List ℕ)) → S.gives self.old.source base
            → Shows self.old.changes base pages → kind_of (page_at pages page) ≢ FREE_KIND
            → (after : List (List ℕ)) × Shows self.new.changes base after × IsReleased page pages after) }
        ensures count { OnOk result (self.new.changes.count ≡ self.old.changes.count) }
        ensures fault { IfErr result MayNotRelease }
        ensures why { IfErr result (λ fault. (base pages : List (List ℕ)) → S.gives self.old.source base
            → Shows self.old.changes base pages → WhyRefused pages fault) }
        ensures head { self.new.changes.head ≡ self.old.changes.head }
        ensures reads { OnlyReads S.gives S.keeps S.count S.causes result self.old.source self.new.source }
        ensures counts { (self.new.damaged ≡ self.old.damaged) × (self.new.reads ≡ self.old.reads) }
    {
        let top = self.head_page()?;
        let head = Head::read(&top);
        let free = Page::free(self.alloc, head.first_free)?;
        let more = Head {
            first_free: page,
            free_count: head.free_count + 1,
            ..head
        };
        self.put_head(more, top)?;
        self.put(page, free)
    }
}
