// The pages that an operation has changed.
ghost use Rattle.std.specs.Prelude.{◌≡◌, ◌+◌, ◌<◌, ◌≤◌, ℕ, List, [], ◌∷◌, max, Some, None, Option, IsSome};
ghost use Rattle.std.specs.Prelude.{OnOk, OnErr, option_copied, is_some};
ghost use Rattle.std.specs.Ordering.{nat_cmp};
ghost use Rattle.std.specs.BTreeMap.{get, Updates, IsUnchanged, IsOrdered};
ghost use Rattle.ori_bytes.specs.declared.limits.TheConstants.{MAX_PAGES};

use ori_bytes::NoMemory;
use ori_page::Page;
use std::alloc::Global;
use std::collections::BTreeMap;

/// The pages that an operation has changed, each below the number of its pages, and the head that an operation over no
/// pages begins with.
#[derive(Drop)]
pub struct Changes {
    pages: BTreeMap<u32, Page>,
    count: u32,
    head: Page,
    ghost some: { 0 < count },
    ghost few: { count ≤ MAX_PAGES },
    ghost within: { (page : ℕ) → IsSome (get nat_cmp pages page) → page < count },
}

impl Changes {
    ghost use Rattle.ori_overlay.specs.Changed.{number_of};

    // No change of so many pages.
    pub(crate) fn over(alloc: Global, count: u32, head: Page) -> Changes
        requires { count ≤ MAX_PAGES }
        ensures none { result.pages.entries ≡ [] }
        ensures count { result.count ≡ max 1 count }
        ensures head { result.head ≡ head }
    {
        Changes {
            pages: BTreeMap::new(alloc),
            count: count.max(1),
            head,
        }
    }

    // Lets all changes go, and returns them.
    pub(crate) fn begin(&mut self, alloc: Global, count: u32) -> BTreeMap<u32, Page>
        requires { count ≤ MAX_PAGES }
        ensures taken { result.entries ≡ self.old.pages.entries }
        ensures none { self.new.pages.entries ≡ [] }
        ensures count { self.new.count ≡ max 1 count }
        ensures head { self.new.head ≡ self.old.head }
    {
        let changed = std::mem::replace(&mut self.pages, BTreeMap::new(alloc));
        self.count = count.max(1);
        changed
    }

    // How many pages there are.
    pub(crate) fn count(&self) -> u32
        ensures { result ≡ self.now.count }
    {
        self.count
    }

    // The page that an operation over no pages begins with.
    pub(crate) fn head(&self) -> &Page
        ensures { result.now ≡ self.now.head }
    {
        &self.head
    }

    // What a page was changed to.
    pub(crate) fn at(&self, page: u32) -> Option<&Page>
        ensures { option_copied result ≡ get nat_cmp self.now.pages page }
    {
        self.pages.get(&page)
    }

    // Changes a page.
    pub(crate) fn set(&mut self, page: u32, content: Page) -> Result<(), NoMemory>
        requires { page < self.old.count }
        ensures ok { OnOk result (Updates nat_cmp self.old.pages self.new.pages page (Some content)) }
        ensures err { OnErr result (IsUnchanged self.old.pages self.new.pages) }
        ensures same { (self.new.count ≡ self.old.count) × (self.new.head ≡ self.old.head) }
    {
        self.pages.insert(page, content)?;
        Ok(())
    }

    // A page is as it was.
    pub(crate) fn forget(&mut self, page: u32)
        ensures forgotten { Updates nat_cmp self.old.pages self.new.pages page None }
        ensures same { (self.new.count ≡ self.old.count) × (self.new.head ≡ self.old.head) }
    {
        self.pages.remove(&page);
    }

    // How many pages are new or changed, over a source of so many pages.
    pub(crate) fn number(&self, base: u32) -> u32
        ensures number { result ≡ number_of self.now base }
        ensures ordered { IsOrdered nat_cmp self.now.pages }
    {
        let changed = self.pages.len() as u32;
        if base == 0 && !self.pages.contains_key(&0) {
            return changed + 1;
        }
        changed
    }

    // Puts a page behind the last.
    pub(crate) fn push(&mut self, content: Page) -> Result<(), NoMemory>
        requires { self.old.count < MAX_PAGES }
        ensures ok { OnOk result (Updates nat_cmp self.old.pages self.new.pages self.old.count (Some content)
            × (self.new.count ≡ self.old.count + 1)) }
        ensures err { OnErr result (IsUnchanged self.old.pages self.new.pages × (self.new.count ≡ self.old.count)) }
        ensures head { self.new.head ≡ self.old.head }
    {
        self.pages.insert(self.count, content)?;
        self.count += 1;
        Ok(())
    }
}
