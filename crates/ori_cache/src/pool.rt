// The cache of an opened volume.
ghost use Rattle.std.specs.Prelude.{◌≡◌, ◌⊎◌, ◌≤◌, ◌<◌, ℕ, List, true, false, None, Some, Ok, Err, is_some};
ghost use Rattle.std.specs.Prelude.{IfOk, IfErr, OnOk, OnErr, IsErrOf};
ghost use Rattle.std.proofs.Props.{props};
ghost use Rattle.ori_bytes.specs.declared.limits.TheConstants.{PARTITIONS, MAX_WEIGHT};
ghost use Rattle.ori_volume.specs.Causes.{Rose};
ghost use Rattle.ori_volume.specs.Story.{Tells};
ghost use Rattle.ori_part.specs.Parts.{unwritten_page};
ghost use Rattle.ori_cover.specs.Dirty.{AreClean, AreOfTail, unwritten};
ghost use Rattle.ori_cover.specs.Steps.{SyncsHomes, WritesHome};
ghost use Rattle.ori_cover.specs.Views.{on_disk};
ghost use Rattle.ori_pool.specs.declared.device.Device.{Device};
ghost use Rattle.ori_pool.specs.declared.fault.TendFault.{TendFault};
ghost use Rattle.ori_pool.specs.Held.{dirty_of};
ghost use Rattle.ori_turns.specs.declared.opening.StartFault.{StartFault};
ghost use Rattle.ori_turns.specs.Knowing.{Knows};
ghost use Rattle.ori_turns.specs.Seats.{HoldsNothing, IsTended, IsTold, NothingChanged, PartsStay, TurnHeld, last_of};
ghost use Rattle.ori_turns.specs.Seats.{told_at};
ghost use Rattle.ori_turns.specs.Caches.{Cache, SamePages};
ghost use Rattle.ori_turns.specs.Checkpointed.{Checkpointed, WasCheckpointed, IfMade};
ghost use Rattle.ori_turns.specs.Flushes.{IfFlushed, IfSynced, MarksFirst};
ghost use Rattle.ori_turns.specs.Hands.{NoneWritten, PartsSettle};
ghost use Rattle.ori_turns.specs.Openings.{AreOpened, AreRead, IfTried, WasOpened, WasStarted};
ghost use Rattle.ori_overlay.specs.Changed.{IsBegun};
ghost use Rattle.ori_cache.specs.Pools.{IsEmpty, answered, turns_after};

use crate::Cached;
use crate::looking::has_unwritten;
use ori_overlay::Overlay;
use ori_page::Page;
use ori_pool::{Hand, TendFault};
use ori_turns::{Frames, Known, Opening, StartFault, checkpoint, flush_one, open, settle};
use ori_volume::{Gate, Volume};
use std::alloc::Global;

/// The cache of an opened volume, over turns none of which is held between calls.
#[derive(Drop)]
pub struct Pool<V: Volume, F: Frames<V> + Drop> {
    // The pages as they are, and what an operation has changed.
    pub(crate) overlay: Overlay<Cached<V, F>>,
    // Room for the partitions that a call takes. It holds none between calls.
    pub(crate) hand: Hand,
    // What is known of the log.
    pub(crate) known: Known,
    // What the opening found.
    opening: Opening,
    ghost empty: { IsEmpty hand.parts.items } by { Prim.hlevel props },
    ghost knows: { Knows (F.seat overlay.source.frames).last known } by { Prim.hlevel props },
}

impl<V: Volume, F: Frames<V> + Drop> Pool<V, F> {
    /// Opens a volume: takes all turns, attaches the log, makes the last images of its tail dirty pages, and gives all
    /// turns back. The files of an empty volume are made, and an operation over it begins with this head as its only
    /// page. It is the engine's alone, whose device has no log yet.
    ///
    /// A refusal gives the turns back, and the device then has no log. `Busy` comes only where another handle held one,
    /// and nothing has changed then. `NotADatabase` names the first file that breaks the form, and nothing but syncs
    /// has touched the files. After `NoMemory` nothing has changed, or it is as the other refusals leave it.
    pub fn start(alloc: Global, frames: F, head: Page) -> Result<Pool<V, F>, (F, StartFault)>
        requires engine { (F.seat frames).engine ≡ true }
        requires closed { (F.seat frames).last.log ≡ None }
        requires free { HoldsNothing (F.seat frames) }
        ensures gives { IfOk result (λ pool. (cache : Cache) → F.gives frames cache
            → (now : Cache) × WasStarted pool.opening cache now × F.gives pool.overlay.source.frames now) }
        ensures count { IfOk result (λ pool. pool.overlay.source.count ≡ pool.opening.count) }
        ensures known { IfOk result (λ pool. pool.known ≡ pool.opening.known) }
        ensures begun { IfOk result (λ pool. IsBegun pool.overlay.source.count pool.overlay.changes) }
        ensures head { IfOk result (λ pool. pool.overlay.changes.head ≡ head) }
        ensures unhalted { IfOk result (λ pool. pool.known.halted ≡ None) }
        ensures uncounted { IfOk result (λ pool. pool.overlay.source.causes
            ≡ record { device = 0; fault = 0; busy = 0; damaged = 0 }) }
        ensures counts { IfOk result (λ pool. (pool.opening.faults ≡ (F.seat pool.overlay.source.frames).last.faults)
            × (pool.opening.log_faults ≡ (F.seat pool.overlay.source.frames).last.log_faults)) }
        ensures ended { IfOk result (λ pool. IsTold (λ told. pool.opening.moment ≡ V.moment told.device.volume)
            (F.seat pool.overlay.source.frames)) }
        ensures crash { let done = answered result (λ pool. pool.opening) in
            let after = turns_after result (λ pool. pool.overlay.source.frames) in
            ((done ≡ Err StartFault.NoMemory) × (after ≡ frames))
            ⊎ IfTried done (λ tried. (taken given : Device V)
            × IsTold (λ told. taken ≡ told.device) (F.seat frames)
            × IsTold (λ told. given ≡ told.device) (F.seat after)
            × ((F.seat after).last ≡ last_of V.faults V.log_faults given)
            × WasOpened tried (F.seat frames).last (F.seat after).last
            × AreRead tried (V.files taken.volume) (V.files given.volume)
            × AreOpened tried given.log (V.story taken.volume) (V.story given.volume)) }
        ensures shares { F.shares frames (turns_after result (λ pool. pool.overlay.source.frames)) }
        ensures waits { F.waits frames ≤ F.waits (turns_after result (λ pool. pool.overlay.source.frames)) }
        ensures back { IfErr result (λ back. HoldsNothing (F.seat back.0) × ((F.seat back.0).engine ≡ true)) }
        ensures busy { IfErr result (λ back. (turn : ℕ) → back.1 ≡ StartFault.Busy turn
            → TurnHeld turn (F.waits frames) (F.waits back.0) × NothingChanged (F.seat frames) (F.seat back.0)
            × ((cache : Cache) → F.gives frames cache → (now : Cache) × SamePages cache now × F.gives back.0 now)) }
    {
        let mut frames = frames;
        let Ok(mut hand) = Hand::empty(alloc) else {
            return Err((frames, StartFault::NoMemory));
        };
        match open(alloc, &mut frames, &mut hand) {
            Ok(opening) => {
                let source = Cached::of(alloc, frames, opening.count);
                Ok(Pool {
                    overlay: Overlay::over(alloc, source, head),
                    hand,
                    known: opening.known,
                    opening,
                })
            }
            Err(fault) => Err((frames, fault)),
        }
    }

    /// Makes a checkpoint: takes all turns, writes each unwritten page home, makes the homes firm, leaves no page
    /// dirty, and empties the log. It answers the volume's moment when that ended.
    ///
    /// `Busy` comes only where another handle held a turn. `Halted` comes exactly where the device is halted. A fault
    /// halts it where log work failed, and not where a home's write or sync did.
    pub fn checkpoint(&mut self) -> Result<u64, TendFault>
        ensures same { (self.new.overlay.changes ≡ self.old.overlay.changes) × (self.new.opening ≡ self.old.opening)
            × (self.new.overlay.source.count ≡ self.old.overlay.source.count) }
        ensures shares { F.shares self.old.overlay.source.frames self.new.overlay.source.frames }
        ensures waits { F.waits self.old.overlay.source.frames ≤ F.waits self.new.overlay.source.frames }
        ensures busy { (turn : ℕ) → IsErrOf result (TendFault.Busy turn)
            → TurnHeld turn (F.waits self.old.overlay.source.frames) (F.waits self.new.overlay.source.frames)
            × NothingChanged (F.seat self.old.overlay.source.frames) (F.seat self.new.overlay.source.frames) }
        ensures ended { IfOk result (λ at. IsTold (λ told. at ≡ V.moment told.device.volume)
            (F.seat self.new.overlay.source.frames)) }
        ensures crash { let old = self.old.overlay.source.frames in let new = self.new.overlay.source.frames in
            IfMade result (λ done. (taken given : Device V)
            × IsTold (λ told. taken ≡ told.device) (F.seat old)
            × IsTold (λ told. given ≡ told.device) (F.seat new)
            × ((F.seat new).last ≡ last_of V.faults V.log_faults given)
            × Checkpointed done (F.seat old).last (F.seat new).last
            × ((cache : Cache) → F.gives old cache
            → Tells (on_disk.holds cache.pages) (V.story taken.volume) (V.story given.volume))) }
        ensures clean { OnOk result (IsTold (λ told. (k : ℕ) → k < PARTITIONS
            → AreClean (dirty_of (told_at told k))) (F.seat self.new.overlay.source.frames)) }
        ensures gives { (cache : Cache) → F.gives self.old.overlay.source.frames cache
            → (now : Cache) × (now.pages ≡ cache.pages) × F.gives self.new.overlay.source.frames now
            × OnOk result (WasCheckpointed now) × OnErr result (SamePages cache now) }
    {
        checkpoint(
            &mut self.overlay.source.frames,
            &mut self.hand,
            &mut self.known,
        )
    }

    /// Makes the homes firm, after which no page that was written is dirty.
    ///
    /// `Busy` comes only where another handle held a turn. After a fault the pages are as they were, and nothing is
    /// halted; `Halted` never comes.
    pub fn settle(&mut self) -> Result<(), TendFault>
        ensures same { (self.new.overlay.changes ≡ self.old.overlay.changes) × (self.new.opening ≡ self.old.opening)
            × (self.new.overlay.source.count ≡ self.old.overlay.source.count) × (self.new.known ≡ self.old.known) }
        ensures shares { F.shares self.old.overlay.source.frames self.new.overlay.source.frames }
        ensures kept { IsTended (F.seat self.old.overlay.source.frames) (F.seat self.new.overlay.source.frames) }
        ensures waits { F.waits self.old.overlay.source.frames ≤ F.waits self.new.overlay.source.frames }
        ensures busy { (turn : ℕ) → IsErrOf result (TendFault.Busy turn)
            → TurnHeld turn (F.waits self.old.overlay.source.frames) (F.waits self.new.overlay.source.frames)
            × NothingChanged (F.seat self.old.overlay.source.frames) (F.seat self.new.overlay.source.frames) }
        ensures halted { (at_fault : ℕ) → IsErrOf result (TendFault.Halted at_fault) → ⊥ }
        ensures fault { IsErrOf result TendFault.Fault
            → Rose (F.seat self.old.overlay.source.frames).last.faults
            (F.seat self.new.overlay.source.frames).last.faults
            × Tells PartsStay (F.seat self.old.overlay.source.frames).told
            (F.seat self.new.overlay.source.frames).told }
        ensures crash { let old = self.old.overlay.source.frames in let new = self.new.overlay.source.frames in
            IfSynced result (λ done. (taken given : Device V)
            × IsTold (λ told. taken ≡ told.device) (F.seat old)
            × IsTold (λ told. given ≡ told.device) (F.seat new)
            × Tells (SyncsHomes done) (V.story taken.volume) (V.story given.volume)) }
        ensures settled { OnOk result (Tells PartsSettle (F.seat self.old.overlay.source.frames).told
            (F.seat self.new.overlay.source.frames).told) }
        ensures gives { (cache : Cache) → F.gives self.old.overlay.source.frames cache
            → (now : Cache) × SamePages cache now × F.gives self.new.overlay.source.frames now
            × OnOk result (NoneWritten now.dirty) }
    {
        settle(&mut self.overlay.source.frames, &mut self.hand)
    }

    /// Writes the first unwritten page of a partition home, and marks it: false exactly where there is none.
    ///
    /// `Busy` comes only where another handle held a turn, and nothing has changed then. After a fault the page is
    /// dirty and unwritten as it was, and nothing is halted; `Halted` never comes.
    pub fn flush_one<G: Gate>(&mut self, part: u8, gate: &G) -> Result<bool, TendFault>
        requires { part < PARTITIONS }
        ensures same { (self.new.overlay.changes ≡ self.old.overlay.changes) × (self.new.opening ≡ self.old.opening)
            × (self.new.overlay.source.count ≡ self.old.overlay.source.count) × (self.new.known ≡ self.old.known) }
        ensures shares { F.shares self.old.overlay.source.frames self.new.overlay.source.frames }
        ensures kept { IsTended (F.seat self.old.overlay.source.frames) (F.seat self.new.overlay.source.frames) }
        ensures waits { F.waits self.old.overlay.source.frames ≤ F.waits self.new.overlay.source.frames }
        ensures busy { (turn : ℕ) → IsErrOf result (TendFault.Busy turn)
            → TurnHeld turn (F.waits self.old.overlay.source.frames) (F.waits self.new.overlay.source.frames)
            × NothingChanged (F.seat self.old.overlay.source.frames) (F.seat self.new.overlay.source.frames) }
        ensures halted { (at_fault : ℕ) → IsErrOf result (TendFault.Halted at_fault) → ⊥ }
        ensures fault { IsErrOf result TendFault.Fault
            → Rose (F.seat self.old.overlay.source.frames).last.faults
            (F.seat self.new.overlay.source.frames).last.faults
            × Tells PartsStay (F.seat self.old.overlay.source.frames).told
            (F.seat self.new.overlay.source.frames).told }
        ensures none { IfOk result (λ wrote. IsTold
            (λ told. wrote ≡ is_some (unwritten_page (told_at told part).places))
            (F.seat self.old.overlay.source.frames)) }
        ensures idle { result ≡ Ok false → IsTold (λ was. (F.seat self.new.overlay.source.frames).told
            ≡ (F.seat self.old.overlay.source.frames).told) (F.seat self.old.overlay.source.frames) }
        ensures marked { result ≡ Ok true → IsTold (λ was. IsTold (λ now. MarksFirst (told_at was part)
            (told_at now part)) (F.seat self.new.overlay.source.frames)) (F.seat self.old.overlay.source.frames) }
        ensures crash { let old = self.old.overlay.source.frames in let new = self.new.overlay.source.frames in
            IfFlushed result (λ done. (taken given : Device V) × (page : ℕ) × (content : List ℕ)
            × IsTold (λ told. (taken ≡ told.device) × (unwritten_page (told_at told part).places ≡ Some page)
            × (dirty_of (told_at told part) page ≡ Some (unwritten content))) (F.seat old)
            × IsTold (λ told. given ≡ told.device) (F.seat new)
            × Tells (WritesHome page content done) (V.story taken.volume) (V.story given.volume)) }
        ensures gives { (cache : Cache) → F.gives self.old.overlay.source.frames cache
            → (now : Cache) × SamePages cache now × F.gives self.new.overlay.source.frames now }
    {
        let Some(some) = has_unwritten(&mut self.overlay.source.frames, part) else {
            return Err(TendFault::Busy { turn: part });
        };
        if !some {
            return Ok(false);
        }
        flush_one(&mut self.overlay.source.frames, part, gate)
    }

    /// The turns, none of which is held.
    pub fn end(self) -> F
        ensures turns { result ≡ self.overlay.source.frames }
        ensures free { HoldsNothing (F.seat result) }
        ensures engine { (F.seat result).engine ≡ true }
    {
        self.overlay.source.frames
    }

    /// The number of records in the log.
    pub fn tail(&self) -> u64
        ensures { result ≡ self.now.known.tail }
    {
        self.known.tail
    }

    /// The volume's moment when the opening ended.
    pub fn opened(&self) -> u64
        ensures { result ≡ self.now.opening.moment }
    {
        self.opening.moment
    }

    /// What the opening found.
    pub fn opening(&self) -> Opening
        ensures { result ≡ self.now.opening }
    {
        self.opening
    }

    /// How many calls of the volume had failed as log work failed, where it has failed since the opening.
    pub fn halted(&self) -> Option<u64>
        ensures known { result ≡ self.now.known.halted }
        ensures halted { result ≡ (F.seat self.now.overlay.source.frames).last.halted }
    {
        self.known.halted
    }
}
