// Pages that are read one by one.
ghost use Rattle.std.specs.Prelude.{◌≡◌, ◌<◌, ◌≤◌, ℕ, List, length, IfOk, IfErr};
ghost use Rattle.ori_bytes.specs.declared.causes.Causes.{Causes};
ghost use Rattle.ori_bytes.specs.declared.limits.TheConstants.{MAX_PAGES};
ghost use Rattle.ori_page.specs.Spaces.{page_at};
ghost use Rattle.ori_page.specs.Faults.{page_counted, IsOutside};

use ori_bytes::Causes;
use ori_page::{Page, PageFault};

/// Pages that are read one by one, and stay as they are. A source may tell what its pages hold.
pub trait PageSource: Drop {
    /// The source gives these pages. One that doesn't tell gives none.
    ghost gives: { Self → List (List ℕ) → Type 0 };

    /// What every read keeps, refused or not.
    ghost keeps: { Self → Self → Type 0 };

    /// How many pages there are.
    ghost count: { Self → ℕ };

    /// How often it has answered each fault.
    ghost causes: { Self → Causes };

    /// How many pages there are; at most 2^20.
    fn count(&self) -> u32
        ensures { result ≡ count self.now };

    /// A copy of a page. It answers neither `Damaged` nor `PagesFull`. The pages stay, refused or not.
    fn read(&mut self, page: u32) -> Result<Page, PageFault>
        requires { page < count self.old }
        ensures content { IfOk result (λ content. (pages : List (List ℕ)) → gives self.old pages
            → content ≡ page_at pages page) }
        ensures stay { (pages : List (List ℕ)) → gives self.old pages → gives self.new pages }
        ensures count { count self.new ≡ count self.old }
        ensures fault { IfErr result IsOutside }
        ensures keeps { keeps self.old self.new }
        ensures causes { causes self.new ≡ page_counted result (causes self.old) };

    /// How often it has answered each fault. No count falls.
    fn causes(&self) -> Causes
        ensures { result ≡ causes self.now };

    /// The pages are as many as it counts.
    ghost counts: { (source : Self) (pages : List (List ℕ)) → gives source pages → length pages ≡ count source };

    /// There are no more pages than there may be.
    ghost few: { (source : Self) → count source ≤ MAX_PAGES };

    /// What no read has touched is kept.
    ghost keeps_itself: { (source : Self) → keeps source source };

    /// What two runs of reads keep both do.
    ghost keeps_on: { (a b c : Self) → keeps a b → keeps b c → keeps a c };
}
