// An operation over the cache.
ghost use Rattle.std.specs.Prelude.{◌≡◌, ◌≢◌, ◌≤◌, ◌<◌, ◌+◌, ℕ, List, [], ◌∷◌, ◌++◌, length, None, Some, Ok, Err};
ghost use Rattle.std.specs.Prelude.{IfOk, IfErr, OnOk, OnErr, IsErrOf, Option, ⊤};
ghost use Rattle.ori_bytes.specs.declared.limits.TheConstants.{MAX_WEIGHT, MAX_PAGES};
ghost use Rattle.ori_volume.specs.Disk.{Files};
ghost use Rattle.ori_volume.specs.Story.{Tells};
ghost use Rattle.ori_log.specs.Images.{AreRising};
ghost use Rattle.ori_cover.specs.Given.{ArePut};
ghost use Rattle.ori_page.specs.Pages.{owner_of};
ghost use Rattle.ori_page.specs.declared.fault.PageFault.{PageFault};
ghost use Rattle.ori_pool.specs.declared.device.Device.{Device};
ghost use Rattle.ori_pool.specs.declared.fault.OpFault.{OpFault};
ghost use Rattle.ori_turns.specs.Seats.{IsTold, NothingChanged, TurnHeld, last_of};
ghost use Rattle.ori_turns.specs.Caches.{Cache};
ghost use Rattle.ori_turns.specs.Committed.{CommitsCache, IfDone, IsWhole, StaysAs, WasCommitted};
ghost use Rattle.ori_overlay.specs.Over.{founded};
ghost use Rattle.ori_overlay.specs.Changed.{IsBegun, Shows, number_of};
ghost use Rattle.ori_cache.specs.Pools.{CommitsPool, IsOkOrBusy, StillShows};
ghost use Rattle.ori_cache.specs.Reads.{IsSame, ReadsFrames};

use crate::Pool;
use crate::reading::read_moment;
use ori_log::ImageList;
use ori_page::{Page, PageFault, PageSpace};
use ori_pool::OpFault;
use ori_turns::{Frames, commit};
use ori_volume::Volume;

impl<V: Volume, F: Frames<V> + Drop> Pool<V, F> {
    // Answers an operation that has changed nothing: it is refused where the device is halted, and else the volume's
    // moment is read.
    fn stand(&mut self) -> Result<u64, OpFault>
        ensures same { (self.new.overlay.changes ≡ self.old.overlay.changes) × (self.new.opening ≡ self.old.opening)
            × (self.new.overlay.source.count ≡ self.old.overlay.source.count) × (self.new.known ≡ self.old.known) }
        ensures reads { ReadsFrames F.seat F.gives F.shares F.waits IsSame self.old.overlay.source.frames
            self.new.overlay.source.frames }
        ensures ended { IfOk result (λ at. (self.old.known.halted ≡ None)
            × IsTold (λ told. at ≡ V.moment told.device.volume) (F.seat self.new.overlay.source.frames)) }
        ensures halted { (at_fault : ℕ) → self.old.known.halted ≡ Some at_fault
            → result ≡ Err (OpFault.Halted at_fault) }
        ensures busy { (turn : ℕ) → IsErrOf result (OpFault.Busy turn) → TurnHeld turn
            (F.waits self.old.overlay.source.frames) (F.waits self.new.overlay.source.frames) }
        ensures fine { self.old.known.halted ≡ None → IsOkOrBusy result }
        ensures fault { (doubt : Option ℕ) → IsErrOf result (OpFault.Fault doubt) → ⊥ }
        ensures memory { IsErrOf result OpFault.NoMemory → ⊥ }
    {
        if let Some(at_fault) = self.known.halted {
            return Err(OpFault::Halted { at_fault });
        }
        let Some(at) = read_moment(&mut self.overlay.source.frames) else {
            return Err(OpFault::Busy { turn: 8 });
        };
        Ok(at)
    }

    // Commits these images, after which there are so many pages.
    fn put(&mut self, images: ImageList, count: u32) -> Result<u64, OpFault>
        requires some { 0 < length images }
        requires few { length images ≤ MAX_WEIGHT }
        requires rising { AreRising 0 images }
        requires pages { count ≤ MAX_PAGES }
        ensures same { (self.new.overlay.changes ≡ self.old.overlay.changes) × (self.new.opening ≡ self.old.opening) }
        ensures count { OnOk result (self.new.overlay.source.count ≡ count) }
        ensures refused { OnErr result (self.new.overlay.source.count ≡ self.old.overlay.source.count) }
        ensures shares { F.shares self.old.overlay.source.frames self.new.overlay.source.frames }
        ensures waits { F.waits self.old.overlay.source.frames ≤ F.waits self.new.overlay.source.frames }
        ensures busy { (turn : ℕ) → IsErrOf result (OpFault.Busy turn)
            → TurnHeld turn (F.waits self.old.overlay.source.frames) (F.waits self.new.overlay.source.frames)
            × NothingChanged (F.seat self.old.overlay.source.frames) (F.seat self.new.overlay.source.frames) }
        ensures ended { IfOk result (λ at. IsTold (λ told. at ≡ V.moment told.device.volume)
            (F.seat self.new.overlay.source.frames)) }
        ensures crash { let old = self.old.overlay.source.frames in let new = self.new.overlay.source.frames in
            IfDone result (λ done. (taken given : Device V)
            × IsTold (λ told. taken ≡ told.device) (F.seat old)
            × IsTold (λ told. given ≡ told.device) (F.seat new)
            × ((F.seat new).last ≡ last_of V.faults V.log_faults given)
            × WasCommitted done (F.seat old).last (F.seat new).last
            × StaysAs done taken given
            × Tells (λ (old new : Files). ⊤) (V.files taken.volume) (V.files given.volume)
            × ((cache : Cache) (put : List (List ℕ)) → F.gives old cache → ArePut images cache.pages put
            → Tells (IsWhole cache.pages put done) (V.story taken.volume) (V.story given.volume))) }
        ensures gives { (cache : Cache) (put : List (List ℕ)) → F.gives self.old.overlay.source.frames cache
            → ArePut images cache.pages put
            → (now : Cache) × CommitsCache images self.old.known.due put result cache now
            × F.gives self.new.overlay.source.frames now
            × IfDone result (λ done. self.new.known.halted ≡ None → length now.records ≡ self.new.known.tail) }
    {
        let done = commit(
            &mut self.overlay.source.frames,
            &mut self.hand,
            &mut self.known,
            images,
        );
        if done.is_ok() {
            self.overlay.source.count = count;
        }
        done
    }

    // Commits what the operation that is open has changed, and begins the next one.
    fn commit(&mut self) -> Result<u64, OpFault>
        requires { number_of self.old.overlay.changes self.old.overlay.source.count ≤ MAX_WEIGHT }
        ensures committed { CommitsPool V.files V.story V.moment V.faults V.log_faults F.seat F.gives F.shares F.waits
            self.old.overlay.source.frames self.new.overlay.source.frames self.old.overlay.source.count
            self.new.overlay.source.count self.old.overlay.changes self.old.known self.new.known result }
        ensures begun { IsBegun self.new.overlay.source.count self.new.overlay.changes }
        ensures head { self.new.overlay.changes.head ≡ self.old.overlay.changes.head }
        ensures opening { self.new.opening ≡ self.old.opening }
    {
        if self.overlay.changed() == 0 {
            let done = self.stand();
            self.overlay.begin();
            return done;
        }
        let count = self.overlay.count();
        let Ok(images) = self.overlay.images() else {
            return Err(OpFault::NoMemory);
        };
        let done = self.put(images, count);
        self.overlay.begin();
        done
    }

    /// An operation over the pages as they are, and where there are none over the head as its only page, which counts
    /// as changed. What an operation before it has changed and not committed is let go. Takes no memory.
    pub fn operation(&mut self) -> AtomicOp<'_, V, F>
        ensures same_reference { result.pool.ghost_name ≡ self.entry.ghost_name }
        ensures source { result.pool.now.overlay.source ≡ self.old.overlay.source }
        ensures head { result.pool.now.overlay.changes.head ≡ self.old.overlay.changes.head }
        ensures begun { IsBegun self.old.overlay.source.count result.pool.now.overlay.changes }
        ensures known { (result.pool.now.known ≡ self.old.known) × (result.pool.now.opening ≡ self.old.opening) }
        ensures pages { (cache : Cache) → F.gives self.old.overlay.source.frames cache
            → length cache.pages ≡ self.old.overlay.source.count
            → Shows result.pool.now.overlay.changes cache.pages (founded self.old.overlay.changes.head cache.pages) }
    {
        self.overlay.begin();
        AtomicOp { pool: self }
    }
}

/// An operation over an opened cache: what it writes stands over the pages as they are, for itself alone until its
/// commit. Dropped, it changes nothing.
#[derive(Drop)]
pub struct AtomicOp<'a, V: Volume, F: Frames<V> + Drop> {
    pub(crate) pool: &'a mut Pool<V, F>,
}

impl<'a, V: Volume, F: Frames<V> + Drop> AtomicOp<'a, V, F> {
    /// How many pages are new or aren't as they were.
    pub fn changed(&self) -> u32
        ensures { result ≡ number_of self.now.pool.now.overlay.changes self.now.pool.now.overlay.source.count }
    {
        self.pool.overlay.changed()
    }

    /// Puts a page behind the last.
    pub fn push(&mut self, content: Page) -> Result<u32, PageFault>
        requires room { ⟦<AtomicOp<'a, V, F> as PageSpace>⟧.count self.old < MAX_PAGES }
        requires owner { owner_of content ≢ 0 }
        ensures shows { OnOk result (StillShows F.gives self.old.pool.now.overlay.source.frames
            self.old.pool.now.overlay.source.count self.old.pool.now.overlay.changes
            self.new.pool.now.overlay.changes (λ pages. pages ++ content ∷ [])) }
        ensures pages { OnOk result ((pages : List (List ℕ)) → ⟦<AtomicOp<'a, V, F> as PageSpace>⟧.gives self.old pages
            → ⟦<AtomicOp<'a, V, F> as PageSpace>⟧.gives self.new (pages ++ content ∷ [])) }
        ensures page { IfOk result (λ page. (page ≡ ⟦<AtomicOp<'a, V, F> as PageSpace>⟧.count self.old)
            × (⟦<AtomicOp<'a, V, F> as PageSpace>⟧.count self.new
            ≡ ⟦<AtomicOp<'a, V, F> as PageSpace>⟧.count self.old + 1)) }
        ensures fault { IfErr result (λ fault. fault ≡ PageFault.NoMemory) }
        ensures keeps { ⟦<AtomicOp<'a, V, F> as PageSpace>⟧.keeps self.old self.new }
        ensures causes { ⟦<AtomicOp<'a, V, F> as PageSpace>⟧.causes self.new
            ≡ ⟦<AtomicOp<'a, V, F> as PageSpace>⟧.causes self.old }
    {
        let pool = &mut *self.pool;
        Ok(pool.overlay.push(content)?)
    }

    /// Commits the changed pages, all at once. Where nothing was changed no call of the device is made, and the answer
    /// is the volume's moment as it stands, or `Halted` where the device is halted. Else it takes the turns of the
    /// pages, or all where a checkpoint is due, puts the pages into the log as one record, and makes them dirty; the
    /// answer is the volume's moment when the append ended.
    ///
    /// `Busy` comes only where another handle held a turn. After a refusal the pages are those from before, and after
    /// `NoMemory` and `Halted` the device is as it was. A fault halts the device where log work failed: with `doubt`,
    /// the number of records that there may be now, it was the append.
    pub fn commit(self) -> Result<u64, OpFault>
        requires { number_of self.pool.now.overlay.changes self.pool.now.overlay.source.count ≤ MAX_WEIGHT }
        ensures committed { let old = self.entry.pool.now in let new = self.exit.0.now in
            CommitsPool V.files V.story V.moment V.faults V.log_faults F.seat F.gives F.shares F.waits
            old.overlay.source.frames new.overlay.source.frames old.overlay.source.count new.overlay.source.count
            old.overlay.changes old.known new.known result }
        ensures begun { let new = self.exit.0.now in IsBegun new.overlay.source.count new.overlay.changes }
        ensures head { self.exit.0.now.overlay.changes.head ≡ self.entry.pool.now.overlay.changes.head }
        ensures opening { self.exit.0.now.opening ≡ self.entry.pool.now.opening }
    {
        self.pool.commit()
    }
}
