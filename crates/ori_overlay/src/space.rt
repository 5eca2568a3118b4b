// An operation's pages as a space.
ghost use Rattle.std.specs.Prelude.{◌≡◌, ◌≢◌, ◌<◌, ℕ, List, slice_set, IfErr, OnOk};
ghost use Rattle.ori_page.specs.Pages.{owner_of};
ghost use Rattle.ori_page.specs.Spaces.{KeepsFreeList};
ghost use Rattle.ori_page.specs.Faults.{page_counted, IsOutside};
ghost use Rattle.ori_page.specs.Memory.{damaged_counted};
ghost use Rattle.ori_overlay.specs.Changed.{Shows};

use crate::{Overlay, PageSource};
use ori_bytes::Causes;
use ori_page::{Page, PageFault, PageSpace};

impl<S: PageSource> Overlay<S> {
    // Counts an answer of `Damaged`.
    fn note<T>(&mut self, answer: &Result<T, PageFault>)
        ensures damaged { self.new.damaged ≡ damaged_counted answer.now self.old.damaged }
        ensures source { self.new.source ≡ self.old.source }
        ensures changes { self.new.changes ≡ self.old.changes }
        ensures reads { self.new.reads ≡ self.old.reads }
    {
        if let Err(PageFault::Damaged { .. }) = answer {
            self.damaged = self.damaged.saturating_add(1);
        }
    }
}

/// The pages as the operation has them. `Device` and `Busy` are those of the source.
impl<S: PageSource> PageSpace for Overlay<S> {
    ghost use Rattle.std.specs.Prelude.{◌≡◌, ℕ, List, refl};
    ghost use Rattle.std.proofs.Common.{◌∙◌};
    ghost use Rattle.ori_bytes.specs.declared.causes.Causes.{Causes};
    ghost use Rattle.ori_overlay.specs.Changed.{Shows};

    ghost gives = { λ space pages. (base : List (List ℕ)) × S.gives space.source base
        × Shows space.changes base pages };

    ghost keeps = { λ old new. S.keeps old.source new.source × (new.changes.head ≡ old.changes.head) };

    ghost count = { λ space. space.changes.count };

    ghost causes = { λ space. record (S.causes space.source) { damaged = space.damaged } };

    ghost reads = { λ space. space.reads };

    ghost counts = { λ space pages given. given.2.count };

    ghost has_head = { λ space. space.changes.some };

    ghost keeps_itself = { λ space. (S.keeps_itself space.source, refl) };

    ghost keeps_on = { λ a b c first then. (S.keeps_on a.source b.source c.source first.0 then.0, then.1 ∙ first.1) };

    fn count(&self) -> u32 {
        self.changes.count()
    }

    fn read(&mut self, page: u32) -> Result<Page, PageFault> {
        self.reads = self.reads.saturating_add(1);
        self.get(page)
    }

    // The pages stand over the same ones of the source.
    fn write(&mut self, page: u32, content: Page) -> Result<(), PageFault>
        requires page { page < self.old.changes.count }
        requires owner { owner_of content ≢ 0 }
        ensures shows { OnOk result ((base pages : List (List ℕ)) → S.gives self.old.source base
            → Shows self.old.changes base pages → Shows self.new.changes base (slice_set pages page content)) }
        ensures pages { OnOk result ((pages : List (List ℕ)) → ⟦<Overlay<S> as PageSpace>⟧.gives self.old pages
            → ⟦<Overlay<S> as PageSpace>⟧.gives self.new (slice_set pages page content)) }
        ensures listed { (pages : List (List ℕ)) → ⟦<Overlay<S> as PageSpace>⟧.gives self.old pages
            → KeepsFreeList page content pages (slice_set pages page content) }
        ensures count { OnOk result (self.new.changes.count ≡ self.old.changes.count) }
        ensures fault { IfErr result IsOutside }
        ensures keeps { ⟦<Overlay<S> as PageSpace>⟧.keeps self.old self.new }
        ensures causes { ⟦<Overlay<S> as PageSpace>⟧.causes self.new
            ≡ page_counted result (⟦<Overlay<S> as PageSpace>⟧.causes self.old) }
        ensures reads { self.new.reads ≡ self.old.reads }
    {
        self.put(page, content)
    }

    fn fresh(&mut self, owner: u32, kind: u8) -> Result<u32, PageFault> {
        let taken = self.allot(owner, kind);
        self.note(&taken);
        taken
    }

    fn release(&mut self, page: u32) -> Result<(), PageFault> {
        let freed = self.free(page);
        self.note(&freed);
        freed
    }

    fn causes(&self) -> Causes {
        Causes {
            damaged: self.damaged,
            ..self.source.causes()
        }
    }

    fn reads(&self) -> u64 {
        self.reads
    }
}
