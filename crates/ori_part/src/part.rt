// A partition.
ghost use Rattle.std.specs.Prelude.{◌≡◌, ◌≤◌, ◌<◌, ℕ, Some, None, IsSome, IsTrue, IfOk, IfSome, IfNone, OnOk};
ghost use Rattle.std.specs.Prelude.{OnErr, option_copied, is_some, length, slice_get, nat_eq, List};
ghost use Rattle.std.specs.Borrow.{sem};
ghost use Rattle.indexmap.specs.IndexMap.{set_value_at};
ghost use Rattle.ori_bytes.specs.declared.limits.TheConstants.{CLEAN_PAGES};
ghost use Rattle.ori_part.specs.Parts.{no_pages, place_at, has_place, dirty_at, clean_at, content_at, looked};
ghost use Rattle.ori_part.specs.Parts.{kept, reserved, installed, marked, unwritten_page, trimmed, is_dirty, unwritten};
ghost use Rattle.ori_part.specs.Parts.{first_unwritten, settled_in, written_in, BecomesClean, IsSettled, dirty_in};
ghost use Rattle.ori_part.specs.Parts.{HoldsNoMore, HoldsInstead};
ghost use Rattle.ori_part.specs.Lending.{LendsPage};

use crate::Place;
use indexmap::IndexMap;
use lru::LruCache;
use ori_bytes::NoMemory;
use ori_bytes::limits::CLEAN_PAGES;
use ori_page::Page;
use std::alloc::Global;
use std::marker::Model;
use std::num::NonZeroUsize;

/// A partition of the cache: dirty pages, which are never let go before they are settled, and up to [`CLEAN_PAGES`]
/// clean ones.
#[derive(Drop)]
pub struct Part {
    places: IndexMap<u32, Place>,
    clean: LruCache<u32, Page>,
    // No place before this one is unwritten.
    first: usize,
}

impl Model for Part {
    ghost use Rattle.std.specs.Prelude.{◌≡◌, ◌≤◌};
    ghost use Rattle.ori_bytes.specs.declared.limits.TheConstants.{CLEAN_PAGES};
    ghost use Rattle.ori_part.specs.Parts.{PartData, first_unwritten};

    ghost Value = { PartData };

    ghost view = { λ p. record { places = p.places.entries; clean = p.clean.entries } };

    ghost invariant = { λ p. (p.clean.cap ≡ CLEAN_PAGES) × (p.first ≤ first_unwritten p.places.entries) };
}

impl Part {
    /// A partition without a page.
    pub fn empty(alloc: Global) -> Result<Part, NoMemory>
        ensures { IfOk result (λ part. part ≡ no_pages) }
    {
        let Some(cap) = NonZeroUsize::new(CLEAN_PAGES) else {
            return Err(NoMemory);
        };
        Ok(Part {
            places: IndexMap::new(alloc),
            clean: LruCache::new(alloc, cap)?,
            first: 0,
        })
    }

    /// Whether a page has a place among the dirty ones.
    pub fn has_place(&self, page: u32) -> bool
        ensures { result ≡ has_place self.now page }
    {
        self.places.contains_key(&page)
    }

    /// The content of a dirty page.
    pub fn dirty(&self, page: u32) -> Option<&Page>
        ensures { option_copied result ≡ dirty_at self.now page }
    {
        self.places.get(&page)?.content.as_ref()
    }

    // The content of a page, dirty or clean.
    fn held(&self, page: u32) -> Option<&Page>
        ensures { option_copied result ≡ content_at self.now page }
    {
        match self.dirty(page) {
            Some(content) => Some(content),
            None => self.clean.peek(&page),
        }
    }

    // Makes a page that is clean, and not dirty, the last used.
    fn look(&mut self, page: u32)
        ensures { self.new ≡ looked self.old page }
    {
        if self.dirty(page).is_none() {
            self.clean.promote(&page);
        }
    }

    /// The content of a page that the partition holds, dirty or clean. A clean page is the last used after it.
    pub fn get(&mut self, page: u32) -> Option<&Page>
        ensures* looked { sem 𝓛 (LendsPage self.entry page) }
        ensures value { option_copied result ≡ content_at self.old page }
    {
        self.look(page);
        self.held(page)
    }

    /// Makes a page that the partition doesn't hold the first clean one; one more than [`CLEAN_PAGES`] goes. If out of
    /// memory the page comes back, and nothing has changed.
    pub fn keep(&mut self, page: u32, content: Page) -> Option<Page>
        requires { content_at self.old page ≡ None }
        ensures kept { IfNone result (self.new ≡ kept self.old page content) }
        ensures full { IfSome result (λ back. (back ≡ content) × (self.new ≡ self.old)) }
    {
        match self.clean.put(page, content) {
            Ok(_) => None,
            Err(failed) => Some(failed.value.1),
        }
    }

    /// Makes a place for a page among the dirty ones, where it has none. Unchanged if out of memory.
    pub fn reserve(&mut self, page: u32) -> Result<(), NoMemory>
        ensures ok { OnOk result (self.new ≡ reserved self.old page) }
        ensures err { OnErr result (self.new ≡ self.old) }
    {
        if self.places.contains_key(&page) {
            return Ok(());
        }
        self.places.insert(
            page,
            Place {
                content: None,
                written: false,
            },
        )?;
        Ok(())
    }

    /// Makes a page with a place dirty and unwritten. Takes no memory.
    pub fn install(&mut self, page: u32, content: Page)
        requires { IsTrue (has_place self.old page) }
        ensures installed { self.new ≡ installed self.old page content }
        ensures held { HoldsInstead page content self.old self.new }
    {
        // No page is clean twice.
        let _count = self.clean.len();
        self.clean.pop(&page);
        let Some(at) = self.places.get_index_of(&page) else {
            return;
        };
        let Some(place) = self.places.get_mut(&page) else {
            return;
        };
        *place = Place {
            content: Some(content),
            written: false,
        };
        self.first = self.first.min(at);
    }

    /// The first dirty page that is unwritten, in the order in which the places were made.
    pub fn next_unwritten(&self) -> Option<u32>
        ensures first { result ≡ unwritten_page self.now.places }
        ensures dirty { IfSome result (λ page. (content : List ℕ)
            × (place_at self.now page ≡ Some (unwritten content))) }
    {
        let at = first_from(&self.places, self.first);
        let (page, _) = self.places.get_index(at)?;
        Some(*page)
    }

    /// Notes that a dirty page is written.
    pub fn mark_written(&mut self, page: u32)
        requires { IsSome (dirty_at self.old page) }
        ensures { IfSome (dirty_at self.old page) (λ content. self.new ≡ marked self.old page content) }
    {
        let Some(place) = self.places.get_mut(&page) else {
            return;
        };
        place.written = true;
        self.first = first_from(&self.places, self.first);
    }

    /// Makes each written page a clean one, in the order of the places, or lets it go if out of memory. It is no longer
    /// dirty, and its place stays. Takes as long as there are places.
    pub fn settled(&mut self)
        ensures settled { IsSettled self.old self.new }
        ensures held { HoldsNoMore self.old self.new }
    {
        for at in 0..self.places.len() {
            settle_place(&mut self.places, &mut self.clean, at);
        }
    }

    /// Drops each place without a dirty page. The others keep their order, and each dirty page its place.
    pub fn trim(&mut self)
        ensures places { self.new ≡ trimmed self.old }
        ensures dirty { (page : ℕ) → place_at self.new page ≡ dirty_in (place_at self.old page) }
    {
        // No page has two places.
        let _count = self.places.len();
        self.first = 0;
        self.places.retain(
            |_page: &u32, place: &mut Place| -> bool
                ensures { (result ≡ is_dirty place.old) × (place.new ≡ place.old) }
            { place.content.is_some() },
        );
        self.first = first_from(&self.places, 0);
    }
}

// The first unwritten place, where none before this one is.
fn first_from(places: &IndexMap<u32, Place>, from: usize) -> usize
    requires { from ≤ first_unwritten places.now.entries }
    ensures { result ≡ first_unwritten places.now.entries }
{
    for at in from..places.len() {
        if let Some((_, place)) = places.get_index(at) {
            if place.is_unwritten() {
                return at;
            }
        }
    }
    places.len()
}

// Makes the page of a place clean, or lets it go if out of memory, where it is written.
fn settle_place(places: &mut IndexMap<u32, Place>, clean: &mut LruCache<u32, Page>, at: usize)
    requires within { at < length places.old.entries }
    requires cap { clean.old.cap ≡ CLEAN_PAGES }
    ensures places { IfSome (slice_get places.old.entries at)
        (λ e. places.new.entries ≡ set_value_at places.old.entries at (settled_in e.1)) }
    ensures clean { IfSome (slice_get places.old.entries at)
        (λ e. BecomesClean e.0 (written_in e.1) clean.old.entries clean.new.entries) }
    ensures cap { clean.new.cap ≡ CLEAN_PAGES }
{
    let (page, place) = places.pair_mut(at);
    let page = *page;
    if let Some(content) = place.settle() {
        let _ = clean.put(page, content);
    }
}
