// What an operation has changed, over a source.
ghost use Rattle.std.specs.Prelude.{◌≡◌, ◌+◌, ◌<◌, ◌≤◌, ◌↔◌, ◌++◌, ◌∷◌, ℕ, List, [], None, max, length, slice_set};
ghost use Rattle.std.specs.Prelude.{IfOk, IfErr, OnOk};
ghost use Rattle.std.specs.Prelude.{IsTrue, IsSome};
ghost use Rattle.std.specs.Ordering.{nat_cmp};
ghost use Rattle.std.specs.BTreeMap.{get, IsOrdered};
ghost use Rattle.ori_bytes.specs.declared.limits.TheConstants.{MAX_PAGES};
ghost use Rattle.ori_page.specs.Spaces.{page_at};
ghost use Rattle.ori_page.specs.Faults.{IsOutside};
ghost use Rattle.ori_log.specs.Log.{ImageData};
ghost use Rattle.ori_log.specs.Images.{AreRising};
ghost use Rattle.ori_cover.specs.Given.{ArePut};
ghost use Rattle.ori_overlay.specs.Over.{founded, images_of, AreOver, AreChanged};
ghost use Rattle.ori_overlay.specs.Changed.{Shows, number_of, IsBegun};
ghost use Rattle.ori_overlay.specs.Steps.{OnlyReads};

use crate::{Changes, PageSource};
use ori_bytes::NoMemory;
use ori_log::{ImageList, PageImage};
use ori_page::{Page, PageFault};
use std::alloc::Global;
use std::collections::BTreeMap;

/// What an operation has changed, over the pages of a source. Where the source has no page, the operation has the head
/// as its only one, and that is changed.
#[derive(Drop)]
pub struct Overlay<S: PageSource> {
    /// The pages as the operation found them.
    pub source: S,
    pub(crate) alloc: Global,
    pub(crate) changes: Changes,
    pub(crate) damaged: u64,
    pub(crate) reads: u64,
}

// Whether two pages have the same bytes.
fn is_same(one: &Page, other: &Page) -> bool
    ensures { IsTrue result ↔ (one.now ≡ other.now) }
{
    one.bytes() == other.bytes()
}

// The changed pages as images.
fn listed(alloc: Global, pages: BTreeMap<u32, Page>) -> Result<ImageList, NoMemory>
    ensures images { IfOk result (λ images. images ≡ images_of pages.entries) }
    ensures ordered { OnOk result (IsOrdered nat_cmp pages) }
{
    let mut images = ImageList::new(alloc);
    for (page, content) in pages {
        images.push(PageImage { page, content })?;
    }
    Ok(images)
}

impl<S: PageSource> Overlay<S> {
    /// An operation that has changed nothing, with this head where the source has no page.
    pub fn over(alloc: Global, source: S, head: Page) -> Self
        ensures source { result.source ≡ source }
        ensures head { result.changes.head ≡ head }
        ensures begun { IsBegun (S.count source) result.changes }
        ensures pages { (base : List (List ℕ)) → S.gives source base → Shows result.changes base (founded head base) }
    {
        let count = source.count();
        Overlay {
            alloc,
            changes: Changes::over(alloc, count, head),
            source,
            damaged: 0,
            reads: 0,
        }
    }

    /// Lets all changes go. Takes no memory.
    pub fn begin(&mut self)
        ensures source { self.new.source ≡ self.old.source }
        ensures head { self.new.changes.head ≡ self.old.changes.head }
        ensures begun { IsBegun (S.count self.old.source) self.new.changes }
        ensures pages { (base : List (List ℕ)) → S.gives self.old.source base
            → Shows self.new.changes base (founded self.old.changes.head base) }
    {
        let _changed = self.changes.begin(self.alloc, self.source.count());
    }

    /// How many pages are new or aren't as they were. The head of a source without pages is new.
    pub fn changed(&self) -> u32
        ensures number { result ≡ number_of self.now.changes (S.count self.now.source) }
        ensures changed { (base pages : List (List ℕ)) → S.gives self.now.source base
            → Shows self.now.changes base pages → AreChanged base pages result }
        ensures none { result ≡ 0 → (base pages : List (List ℕ)) → S.gives self.now.source base
            → Shows self.now.changes base pages → pages ≡ base }
    {
        self.changes.number(self.source.count())
    }

    /// The changed pages, pages rising, of which an operation begins anew, also if out of memory.
    pub fn images(&mut self) -> Result<ImageList, NoMemory>
        ensures put { IfOk result (λ images. (base pages : List (List ℕ)) → S.gives self.old.source base
            → Shows self.old.changes base pages → ArePut images base pages) }
        ensures rising { IfOk result (λ images. AreRising 0 images) }
        ensures number { IfOk result (λ images. length images ≡ number_of self.old.changes (S.count self.old.source)) }
        ensures source { self.new.source ≡ self.old.source }
        ensures head { self.new.changes.head ≡ self.old.changes.head }
        ensures begun { IsBegun (S.count self.old.source) self.new.changes }
    {
        let pages = self.take()?;
        listed(self.alloc, pages)
    }

    // Takes the changed pages, with the head of a source without pages where nobody wrote it.
    fn take(&mut self) -> Result<BTreeMap<u32, Page>, NoMemory>
        ensures over { IfOk result (λ taken. (base pages : List (List ℕ)) → S.gives self.old.source base
            → Shows self.old.changes base pages → AreOver taken.entries self.old.changes.count base pages) }
        ensures within { IfOk result (λ taken. (page : ℕ) → IsSome (get nat_cmp taken page)
            → page < self.old.changes.count) }
        ensures number { IfOk result (λ taken. length taken.entries
            ≡ number_of self.old.changes (S.count self.old.source)) }
        ensures source { self.new.source ≡ self.old.source }
        ensures head { self.new.changes.head ≡ self.old.changes.head }
        ensures begun { IsBegun (S.count self.old.source) self.new.changes }
    {
        let base = self.source.count();
        let mut pages = self.changes.begin(self.alloc, base);
        if base != 0 || pages.contains_key(&0) {
            return Ok(pages);
        }
        pages.insert(0, self.changes.head().copy()?)?;
        Ok(pages)
    }

    /// Puts a page behind the last.
    pub fn push(&mut self, content: Page) -> Result<u32, NoMemory>
        requires { self.old.changes.count < MAX_PAGES }
        ensures pages { OnOk result ((base pages : List (List ℕ)) → S.gives self.old.source base
            → Shows self.old.changes base pages → Shows self.new.changes base (pages ++ content ∷ [])) }
        ensures page { IfOk result (λ page. (page ≡ self.old.changes.count)
            × (self.new.changes.count ≡ self.old.changes.count + 1)) }
        ensures source { self.new.source ≡ self.old.source }
        ensures head { self.new.changes.head ≡ self.old.changes.head }
        ensures counts { (self.new.damaged ≡ self.old.damaged) × (self.new.reads ≡ self.old.reads) }
    {
        let page = self.changes.count();
        self.changes.push(content)?;
        Ok(page)
    }

    // A page as it is.
    pub(crate) fn get(&mut self, page: u32) -> Result<Page, PageFault>
        requires { page < self.old.changes.count }
        ensures content { IfOk result (λ content. (base pages : List (List ℕ)) → S.gives self.old.source base
            → Shows self.old.changes base pages → content ≡ page_at pages page) }
        ensures changes { self.new.changes ≡ self.old.changes }
        ensures fault { IfErr result IsOutside }
        ensures reads { OnlyReads S.gives S.keeps S.count S.causes result self.old.source self.new.source }
        ensures counts { (self.new.damaged ≡ self.old.damaged) × (self.new.reads ≡ self.old.reads) }
    {
        if let Some(content) = self.changes.at(page) {
            return Ok(content.copy()?);
        }
        if page < self.source.count() {
            return self.source.read(page);
        }
        Ok(self.changes.head().copy()?)
    }

    // Whether a page was there as the operation began, with this content.
    fn was(&mut self, page: u32, content: &Page) -> Result<bool, PageFault>
        ensures same { IfOk result (λ same. (base : List (List ℕ)) → S.gives self.old.source base
            → IsTrue same ↔ ((page < length (founded self.old.changes.head base))
            × (content.now ≡ page_at (founded self.old.changes.head base) page))) }
        ensures there { IfOk result (λ same. IsTrue same → page < max 1 (S.count self.old.source)) }
        ensures changes { self.new.changes ≡ self.old.changes }
        ensures fault { IfErr result IsOutside }
        ensures reads { OnlyReads S.gives S.keeps S.count S.causes result self.old.source self.new.source }
        ensures counts { (self.new.damaged ≡ self.old.damaged) × (self.new.reads ≡ self.old.reads) }
    {
        if page < self.source.count() {
            let before = self.source.read(page)?;
            return Ok(is_same(&before, content));
        }
        Ok(page == 0 && self.source.count() == 0 && is_same(self.changes.head(), content))
    }

    // Makes this the content of a page. One that is as it was isn't changed.
    pub(crate) fn put(&mut self, page: u32, content: Page) -> Result<(), PageFault>
        requires { page < self.old.changes.count }
        ensures pages { OnOk result ((base pages : List (List ℕ)) → S.gives self.old.source base
            → Shows self.old.changes base pages → Shows self.new.changes base (slice_set pages page content)) }
        ensures count { self.new.changes.count ≡ self.old.changes.count }
        ensures head { self.new.changes.head ≡ self.old.changes.head }
        ensures fault { IfErr result IsOutside }
        ensures reads { OnlyReads S.gives S.keeps S.count S.causes result self.old.source self.new.source }
        ensures counts { (self.new.damaged ≡ self.old.damaged) × (self.new.reads ≡ self.old.reads) }
    {
        if self.was(page, &content)? {
            self.changes.forget(page);
            return Ok(());
        }
        Ok(self.changes.set(page, content)?)
    }
}
