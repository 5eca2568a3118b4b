// The partitions that a call has taken.
ghost use Rattle.std.specs.Prelude.{◌≡◌, ◌≢◌, ◌==◌, ◌%◌, ◌<◌, ℕ, length, if◌then◌else◌, true};
ghost use Rattle.std.specs.Prelude.{None, Some, is_some, slice_index_or, replicate, IfOk, OnOk, IsSome};
ghost use Rattle.ori_bytes.specs.declared.limits.TheConstants.{PARTITIONS, MAX_PAGES};
ghost use Rattle.ori_cover.specs.Dirty.{Dirty, unwritten};
ghost use Rattle.ori_pool.specs.Held.{held_at, in_place, dirty_with, IsSettledHeld, AreSettledHeld, AreOwn};
ghost use Rattle.ori_pool.specs.Held.{IsTrimmedHeld, AreTrimmed, SamePlaces, HaveNoMore, HaveFrom, one_image};

use ori_bytes::NoMemory;
use ori_bytes::limits::PARTITIONS;
use ori_page::Page;
use ori_part::Part;
use std::alloc::Global;

/// The partitions that a call has taken, each at its number's place: page p is in partition p mod [`PARTITIONS`].
#[derive(Drop)]
pub struct Hand {
    pub parts: Vec<Option<Part>>,
    ghost all: { length parts.items ≡ PARTITIONS },
}

// The number of a page's partition.
fn number(page: u32) -> usize
    ensures value { result ≡ page % PARTITIONS }
    ensures within { result < PARTITIONS }
{
    (page % PARTITIONS as u32) as usize
}

impl Hand {
    /// One that holds no partition.
    pub fn empty(alloc: Global) -> Result<Hand, NoMemory>
        ensures { IfOk result (λ hand. hand.parts.items ≡ replicate PARTITIONS None) }
    {
        let mut parts = Vec::new(alloc);
        for _ in 0..PARTITIONS {
            parts.push(None)?;
        }
        Ok(Hand { parts })
    }

    /// Makes a place for a page among the dirty ones of its partition, which the hand holds. If out of memory there is
    /// none where there was none.
    pub fn reserve(&mut self, page: u32) -> Result<(), NoMemory>
        requires { IsSome (held_at self.old.parts.items page) }
        ensures own { page < MAX_PAGES → AreOwn self.old.parts.items → AreOwn self.new.parts.items }
        ensures place { OnOk result (in_place self.new.parts.items page ≡ true) }
        ensures places { (q : ℕ) → in_place self.old.parts.items q ≡ true → in_place self.new.parts.items q ≡ true }
        ensures held { (q : ℕ) → is_some (held_at self.new.parts.items q) ≡ is_some (held_at self.old.parts.items q) }
        ensures dirty { (others : Dirty) (q : ℕ)
            → dirty_with others self.new.parts.items q ≡ dirty_with others self.old.parts.items q }
        ensures contents { HaveNoMore self.old.parts.items self.new.parts.items }
    {
        let at = number(page);
        let Some(mut part) = self.parts[at].take() else {
            return Ok(());
        };
        let done = part.reserve(page);
        self.parts[at] = Some(part);
        done
    }

    /// Makes a page, which has a place, dirty and unwritten. Takes no memory.
    pub fn install(&mut self, page: u32, content: Page)
        requires { in_place self.old.parts.items page ≡ true }
        ensures places { (q : ℕ) → in_place self.new.parts.items q ≡ in_place self.old.parts.items q }
        ensures slots { SamePlaces self.old.parts.items self.new.parts.items }
        ensures dirty { (others : Dirty) (q : ℕ) → dirty_with others self.new.parts.items q
            ≡ (if q == page then Some (unwritten content) else dirty_with others self.old.parts.items q) }
        ensures contents { HaveFrom (one_image page content) self.old.parts.items self.new.parts.items }
    {
        let at = number(page);
        if let Some(mut part) = self.parts[at].take() {
            part.install(page, content);
            self.parts[at] = Some(part);
        }
    }

    // Makes the written pages of a partition clean, where the hand holds it.
    fn settle_at(&mut self, at: usize)
        requires { at < PARTITIONS }
        ensures here { IsSettledHeld (slice_index_or self.old.parts.items at None)
            (slice_index_or self.new.parts.items at None) }
        ensures others { (k : ℕ) → k ≢ at
            → slice_index_or self.new.parts.items k None ≡ slice_index_or self.old.parts.items k None }
    {
        if let Some(mut part) = self.parts[at].take() {
            part.settled();
            self.parts[at] = Some(part);
        }
    }

    /// Makes each written page of its partitions a clean one, or lets it go if out of memory.
    pub fn settle(&mut self)
        ensures { AreSettledHeld self.old.parts.items self.new.parts.items }
    {
        for at in 0..self.parts.len() {
            self.settle_at(at);
        }
    }

    // Drops each place without a dirty page of a partition, where the hand holds it.
    fn trim_at(&mut self, at: usize)
        requires { at < PARTITIONS }
        ensures here { IsTrimmedHeld (slice_index_or self.old.parts.items at None)
            (slice_index_or self.new.parts.items at None) }
        ensures others { (k : ℕ) → k ≢ at
            → slice_index_or self.new.parts.items k None ≡ slice_index_or self.old.parts.items k None }
    {
        if let Some(mut part) = self.parts[at].take() {
            part.trim();
            self.parts[at] = Some(part);
        }
    }

    /// Drops each place without a dirty page of its partitions.
    pub fn trim(&mut self)
        ensures { AreTrimmed self.old.parts.items self.new.parts.items }
    {
        for at in 0..self.parts.len() {
            self.trim_at(at);
        }
    }
}
