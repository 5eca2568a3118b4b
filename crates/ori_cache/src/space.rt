// An operation's pages.
ghost use Rattle.std.specs.Prelude.{◌≡◌, ◌≢◌, ◌<◌, ℕ, List, slice_set, IfErr, OnOk};
ghost use Rattle.ori_page.specs.Pages.{owner_of};
ghost use Rattle.ori_page.specs.Spaces.{KeepsFreeList};
ghost use Rattle.ori_page.specs.Faults.{page_counted, IsOutside};
ghost use Rattle.ori_cache.specs.Pools.{StillShows};

use crate::{AtomicOp, Cached};
use ori_bytes::Causes;
use ori_overlay::Overlay;
use ori_page::{Page, PageFault, PageSpace};
use ori_turns::Frames;
use ori_volume::Volume;

/// The pages as the operation has them. Between two calls it holds no turn.
impl<'a, V: Volume, F: Frames<V> + Drop> PageSpace for AtomicOp<'a, V, F> {
    ghost use Rattle.std.specs.Prelude.{◌≡◌, refl};
    ghost use Rattle.std.proofs.Common.{◌∙◌};
    ghost use Rattle.ori_cache.specs.ReadLaws.{cached_same, cached_then};

    ghost gives = { λ op pages. ⟦<Overlay<Cached<V, F>> as PageSpace>⟧.gives op.pool.now.overlay pages };

    ghost keeps = { λ old new. ⟦<Overlay<Cached<V, F>> as PageSpace>⟧.keeps old.pool.now.overlay new.pool.now.overlay
        × (new.pool.ghost_name ≡ old.pool.ghost_name) × (new.pool.now.known ≡ old.pool.now.known)
        × (new.pool.now.opening ≡ old.pool.now.opening) };

    ghost count = { λ op. ⟦<Overlay<Cached<V, F>> as PageSpace>⟧.count op.pool.now.overlay };

    ghost causes = { λ op. ⟦<Overlay<Cached<V, F>> as PageSpace>⟧.causes op.pool.now.overlay };

    ghost reads = { λ op. ⟦<Overlay<Cached<V, F>> as PageSpace>⟧.reads op.pool.now.overlay };

    ghost counts = { λ op pages given. given.2.count };

    ghost has_head = { λ op. op.pool.now.overlay.changes.some };

    ghost keeps_itself = { λ op. let source = op.pool.now.overlay.source in (
      (
        cached_same V.files V.story V.moment
            V.faults V.log_faults F.seat F.gives F.shares F.waits source.frames source.count source.causes
            (F.shares_itself source.frames) source.ready,
        refl,
      ),
      refl,
      refl,
      refl,
    ) };

    ghost keeps_on = { λ a b c first second. let one = a.pool.now.overlay.source in let two = b.pool.now.overlay.source
        in let three = c.pool.now.overlay.source in (
          (
            cached_then V.files V.story V.moment V.faults V.log_faults F.seat
                F.gives F.shares F.waits F.shares_on one.frames two.frames three.frames one.count two.count three.count
                one.causes two.causes three.causes first.0.0 second.0.0,
            second.0.1 ∙ first.0.1,
          ),
          second.1 ∙ first.1,
          second.2 ∙ first.2,
          second.3 ∙ first.3,
        ) };

    fn count(&self) -> u32 {
        self.pool.overlay.count()
    }

    fn read(&mut self, page: u32) -> Result<Page, PageFault> {
        let pool = &mut *self.pool;
        pool.overlay.read(page)
    }

    // The pages stand over the same ones of the cache.
    fn write(&mut self, page: u32, content: Page) -> Result<(), PageFault>
        requires page { page < self.old.pool.now.overlay.changes.count }
        requires owner { owner_of content ≢ 0 }
        ensures shows { OnOk result (StillShows F.gives self.old.pool.now.overlay.source.frames
            self.old.pool.now.overlay.source.count self.old.pool.now.overlay.changes
            self.new.pool.now.overlay.changes (λ pages. slice_set pages page content)) }
        ensures pages { OnOk result ((pages : List (List ℕ)) → ⟦<AtomicOp<'a, V, F> as PageSpace>⟧.gives self.old pages
            → ⟦<AtomicOp<'a, V, F> as PageSpace>⟧.gives self.new (slice_set pages page content)) }
        ensures listed { (pages : List (List ℕ)) → ⟦<AtomicOp<'a, V, F> as PageSpace>⟧.gives self.old pages
            → KeepsFreeList page content pages (slice_set pages page content) }
        ensures count { OnOk result (self.new.pool.now.overlay.changes.count
            ≡ self.old.pool.now.overlay.changes.count) }
        ensures fault { IfErr result IsOutside }
        ensures keeps { ⟦<AtomicOp<'a, V, F> as PageSpace>⟧.keeps self.old self.new }
        ensures causes { ⟦<AtomicOp<'a, V, F> as PageSpace>⟧.causes self.new
            ≡ page_counted result (⟦<AtomicOp<'a, V, F> as PageSpace>⟧.causes self.old) }
        ensures reads { self.new.pool.now.overlay.reads ≡ self.old.pool.now.overlay.reads }
    {
        let pool = &mut *self.pool;
        pool.overlay.write(page, content)
    }

    fn fresh(&mut self, owner: u32, kind: u8) -> Result<u32, PageFault> {
        let pool = &mut *self.pool;
        pool.overlay.fresh(owner, kind)
    }

    fn release(&mut self, page: u32) -> Result<(), PageFault> {
        let pool = &mut *self.pool;
        pool.overlay.release(page)
    }

    fn causes(&self) -> Causes {
        self.pool.overlay.causes()
    }

    fn reads(&self) -> u64 {
        self.pool.overlay.reads()
    }
}
