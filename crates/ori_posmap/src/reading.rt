// How a structure reads the pages that it names.
ghost use Rattle.std.specs.Prelude.{◌≡◌, ◌^◌, ◌<◌, ℕ, List, IfOk, IfErr, OnOk};
ghost use Rattle.ori_page.specs.Spaces.{page_at};
ghost use Rattle.ori_posmap.specs.Reading.{in_range, WhyNotRead, KeepsSpace};

use ori_page::{Page, PageFault, PageSpace};

/// A page that a structure names. `Damaged` with it where it's the head or isn't there.
pub fn named_page<P: PageSpace>(space: &mut P, page: u32) -> Result<Page, PageFault>
    ensures pages { IfOk result (λ content. (pages : List (List ℕ)) → P.gives space.old pages
        → P.gives space.new pages × (content ≡ page_at pages page)) }
    ensures range { OnOk result ((0 < page) × (page < P.count space.new) × (P.count space.new < 2 ^ 32)) }
    ensures why { IfErr result (λ fault. (pages : List (List ℕ)) → P.gives space.old pages
        → WhyNotRead (in_range pages page) page fault) }
    ensures space { KeepsSpace P.keeps P.count P.causes P.reads 1 result space.old space.new }
{
    if page == 0 || page >= space.count() {
        return Err(PageFault::Damaged { page });
    }
    space.read(page)
}
