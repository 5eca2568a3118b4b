// Pages as structures see them.
ghost use Rattle.std.specs.Prelude.{◌≡◌, ◌≢◌, ◌<◌, ◌≤◌, ℕ, List, length, slice_set, IfOk, IfErr, OnOk, IsErr};
ghost use Rattle.std.specs.Prelude.{IsErrOf};
ghost use Rattle.ori_bytes.specs.declared.causes.Causes.{Causes};
ghost use Rattle.ori_bytes.specs.declared.limits.TheConstants.{FREE_KIND, MAX_PAGES};
ghost use Rattle.ori_page.specs.Pages.{owner_of, kind_of};
ghost use Rattle.ori_page.specs.Spaces.{page_at, in_use, HasFreeList, AreFull, KeepsFreeList};
ghost use Rattle.ori_page.specs.Spaces.{IsTaken, IsReleased};
ghost use Rattle.ori_page.specs.declared.fault.PageFault.{PageFault};
ghost use Rattle.ori_page.specs.Faults.{one_more, page_counted, IsOutside, MayNotTake, MayNotRelease};
ghost use Rattle.ori_page.specs.Faults.{WhyRefused};

use crate::{Page, PageFault};
use ori_bytes::Causes;

/// Pages by their numbers, of which page 0 is the head. A space may tell what its pages hold: each call then says what
/// it gives after it by what it gave before. After a refused call what the pages hold isn't said.
pub trait PageSpace {
    /// The space gives these pages. One that doesn't tell gives none.
    ghost gives: { Self → List (List ℕ) → Type 0 };

    /// What every call keeps, refused or not, from a space as it was to what it is.
    ghost keeps: { Self → Self → Type 0 };

    /// How many pages there are.
    ghost count: { Self → ℕ };

    /// How often it has answered each fault.
    ghost causes: { Self → Causes };

    /// How many calls of `read` there were, up to the end of a `u64`.
    ghost reads: { Self → ℕ };

    /// How many pages there are.
    fn count(&self) -> u32
        ensures { result ≡ count self.now };

    /// A copy of a page. It answers neither `Damaged` nor `PagesFull`.
    fn read(&mut self, page: u32) -> Result<Page, PageFault>
        requires { page < count self.old }
        ensures pages { IfOk result (λ content. (pages : List (List ℕ)) → gives self.old pages
            → gives self.new pages × (content ≡ page_at pages page)) }
        ensures count { OnOk result (count self.new ≡ count self.old) }
        ensures fault { IfErr result IsOutside }
        ensures keeps { keeps self.old self.new }
        ensures causes { causes self.new ≡ page_counted result (causes self.old) }
        ensures reads { reads self.new ≡ one_more (reads self.old) };

    /// Writes a page and leaves the others. It answers neither `Damaged` nor `PagesFull`.
    fn write(&mut self, page: u32, content: Page) -> Result<(), PageFault>
        requires page { page < count self.old }
        requires owner { owner_of content ≢ 0 }
        ensures pages { OnOk result ((pages : List (List ℕ)) → gives self.old pages
            → gives self.new (slice_set pages page content)) }
        ensures listed { (pages : List (List ℕ)) → gives self.old pages
            → KeepsFreeList page content pages (slice_set pages page content) }
        ensures count { OnOk result (count self.new ≡ count self.old) }
        ensures fault { IfErr result IsOutside }
        ensures keeps { keeps self.old self.new }
        ensures causes { causes self.new ≡ page_counted result (causes self.old) }
        ensures reads { reads self.new ≡ reads self.old };

    /// Takes a free page, or makes a new one behind the last: it begins with this owner and kind, and the rest of it is
    /// zeros. `PagesFull` comes exactly where there are 2^20 pages and none is free, `Damaged` only where the head or
    /// the free page isn't one.
    fn fresh(&mut self, owner: u32, kind: u8) -> Result<u32, PageFault>
        requires { owner ≢ 0 }
        ensures pages { IfOk result (λ page. (pages : List (List ℕ)) → gives self.old pages
            → (after : List (List ℕ)) × gives self.new after × IsTaken owner kind page pages after) }
        ensures count { IfOk result (λ page. (page < count self.new) × (count self.old ≤ count self.new)) }
        ensures fault { IfErr result MayNotTake }
        ensures why { IfErr result (λ fault. (pages : List (List ℕ)) → gives self.old pages → WhyRefused pages fault) }
        ensures full { (pages : List (List ℕ)) → gives self.old pages → AreFull pages → IsErr result }
        ensures used_up { IsErrOf result PageFault.PagesFull → (pages : List (List ℕ)) → gives self.old pages
            → HasFreeList pages → in_use pages ≡ MAX_PAGES }
        ensures keeps { keeps self.old self.new }
        ensures causes { causes self.new ≡ page_counted result (causes self.old) }
        ensures reads { reads self.new ≡ reads self.old };

    /// Makes a page in use free. It isn't the head. What is given after it isn't said where the page was free. It
    /// answers `Damaged` only where the head isn't one, and never `PagesFull`.
    fn release(&mut self, page: u32) -> Result<(), PageFault>
        requires head { page ≢ 0 }
        requires page { page < count self.old }
        ensures pages { OnOk result ((pages : List (List ℕ)) → gives self.old pages
            → kind_of (page_at pages page) ≢ FREE_KIND
            → (after : List (List ℕ)) × gives self.new after × IsReleased page pages after) }
        ensures count { OnOk result (count self.new ≡ count self.old) }
        ensures fault { IfErr result MayNotRelease }
        ensures why { IfErr result (λ fault. (pages : List (List ℕ)) → gives self.old pages → WhyRefused pages fault) }
        ensures keeps { keeps self.old self.new }
        ensures causes { causes self.new ≡ page_counted result (causes self.old) }
        ensures reads { reads self.new ≡ reads self.old };

    /// How often it has answered each fault. No count falls.
    fn causes(&self) -> Causes
        ensures { result ≡ causes self.now };

    /// How many calls of `read` there were, up to the end of a `u64`.
    fn reads(&self) -> u64
        ensures { result ≡ reads self.now };

    /// The pages are as many as it counts.
    ghost counts: { (space : Self) (pages : List (List ℕ)) → gives space pages → length pages ≡ count space };

    /// There is a head.
    ghost has_head: { (space : Self) → 0 < count space };

    /// What no call has touched is kept.
    ghost keeps_itself: { (space : Self) → keeps space space };

    /// What two runs of calls keep both do.
    ghost keeps_on: { (a b c : Self) → keeps a b → keeps b c → keeps a c };
}
