// Work on the homes and the log between commits.
ghost use Rattle.std.specs.Prelude.{◌≡◌, ◌⊎◌, ◌<◌, ℕ, Ok, Err, Some, true, IfOk, OnOk, IsErrOf, is_some};
ghost use Rattle.ori_bytes.specs.declared.limits.TheConstants.{PARTITIONS};
ghost use Rattle.ori_volume.specs.Story.{Tells};
ghost use Rattle.ori_part.specs.Parts.{unwritten_page};
ghost use Rattle.ori_cover.specs.Dirty.{AreClean};
ghost use Rattle.ori_pool.specs.declared.fault.TendFault.{TendFault};
ghost use Rattle.ori_pool.specs.Held.{dirty_of};
ghost use Rattle.ori_turns.specs.Flushes.{MarksFirst};
ghost use Rattle.ori_turns.specs.Hands.{PartsSettle};
ghost use Rattle.ori_turns.specs.Seats.{IsTold, PartsStay, told_at};
ghost use Rattle.ori_engine.specs.Tending.{Tends, TendsOver, alone, tend_counted};

use crate::Engine;
use crate::engine::raised;
use ori_bytes::Causes;
use ori_model::Reader;
use ori_pool::TendFault;
use ori_turns::Frames;
use ori_volume::{NoGate, Volume};

// The counts of causes behind what work answered.
fn noted<T>(causes: Causes, done: &Result<T, TendFault>) -> Causes
    ensures { result ≡ tend_counted done.now causes }
{
    match done {
        Err(TendFault::Fault) => Causes {
            fault: raised(causes.fault),
            ..causes
        },
        Err(TendFault::Busy { .. }) => Causes {
            busy: raised(causes.busy),
            ..causes
        },
        Err(TendFault::Halted { .. }) => causes,
        Ok(_) => causes,
    }
}

// What was answered, without the moment.
fn alone(done: Result<u64, TendFault>) -> Result<(), TendFault>
    ensures { result ≡ alone done }
{
    match done {
        Ok(_) => Ok(()),
        Err(fault) => Err(fault),
    }
}

impl<V: Volume, F: Frames<V> + Drop> Engine<V, F> {
    /// Writes the first unwritten page of a partition home, and marks it: false exactly where there is none. Nothing is
    /// committed, and whenever a crash comes the files open to what they did.
    ///
    /// `Busy` comes only where another handle held a turn. After a fault the page is dirty and unwritten as it was, and
    /// commits go on; `Halted` never comes.
    pub fn flush_one(&mut self, part: u8) -> Result<bool, TendFault>
        requires { part < PARTITIONS }
        ensures tended { Tends ⟦<Engine<V, F> as Reader>⟧.state ⟦<Engine<V, F> as Reader>⟧.sound
            ⟦<Engine<V, F> as Reader>⟧.causes result self.old self.new }
        ensures kept { (⟦<Engine<V, F> as Reader>⟧.state self.new).halted
            ≡ (⟦<Engine<V, F> as Reader>⟧.state self.old).halted }
        ensures halted { (at_fault : ℕ) → IsErrOf result (TendFault.Halted at_fault) → ⊥ }
        ensures works { TendsOver F.seat F.shares F.waits self.old.pool.overlay.source.frames
            self.new.pool.overlay.source.frames self.old.pool.known.halted self.new.pool.known.halted result }
        ensures unmarked { IsErrOf result TendFault.Fault
            → Tells PartsStay (F.seat self.old.pool.overlay.source.frames).told
            (F.seat self.new.pool.overlay.source.frames).told }
        ensures none { IfOk result (λ wrote. IsTold
            (λ told. wrote ≡ is_some (unwritten_page (told_at told part).places))
            (F.seat self.old.pool.overlay.source.frames)) }
        ensures marked { result ≡ Ok true → IsTold (λ was. IsTold (λ now. MarksFirst (told_at was part)
            (told_at now part)) (F.seat self.new.pool.overlay.source.frames))
            (F.seat self.old.pool.overlay.source.frames) }
    {
        self.kept.table.keeps();
        let done = self.pool.flush_one(part, &NoGate);
        self.causes = noted(self.causes, &done);
        done
    }

    /// Makes the homes firm, after which no page that was written is dirty. Nothing is committed, and whenever a crash
    /// comes the files open to what they did.
    ///
    /// `Busy` comes only where another handle held a turn. After a fault the pages are as they were, and commits go on;
    /// `Halted` never comes.
    pub fn settle(&mut self) -> Result<(), TendFault>
        ensures tended { Tends ⟦<Engine<V, F> as Reader>⟧.state ⟦<Engine<V, F> as Reader>⟧.sound
            ⟦<Engine<V, F> as Reader>⟧.causes result self.old self.new }
        ensures kept { (⟦<Engine<V, F> as Reader>⟧.state self.new).halted
            ≡ (⟦<Engine<V, F> as Reader>⟧.state self.old).halted }
        ensures halted { (at_fault : ℕ) → IsErrOf result (TendFault.Halted at_fault) → ⊥ }
        ensures works { TendsOver F.seat F.shares F.waits self.old.pool.overlay.source.frames
            self.new.pool.overlay.source.frames self.old.pool.known.halted self.new.pool.known.halted result }
        ensures unsettled { IsErrOf result TendFault.Fault
            → Tells PartsStay (F.seat self.old.pool.overlay.source.frames).told
            (F.seat self.new.pool.overlay.source.frames).told }
        ensures settled { OnOk result (Tells PartsSettle (F.seat self.old.pool.overlay.source.frames).told
            (F.seat self.new.pool.overlay.source.frames).told) }
    {
        self.kept.table.keeps();
        let done = self.pool.settle();
        self.causes = noted(self.causes, &done);
        done
    }

    /// Writes each unwritten page home, makes the homes firm, and empties the log. Nothing is committed, and whenever a
    /// crash comes the files open to what they did.
    ///
    /// Where commits have ended it is refused with the number of calls that had failed then. `Busy` comes only where
    /// another handle held a turn. A fault ends commits where log work failed, and not where a home's write or sync
    /// did.
    pub fn checkpoint(&mut self) -> Result<(), TendFault>
        ensures tended { Tends ⟦<Engine<V, F> as Reader>⟧.state ⟦<Engine<V, F> as Reader>⟧.sound
            ⟦<Engine<V, F> as Reader>⟧.causes result self.old self.new }
        ensures halted { (at_fault : ℕ) → IsErrOf result (TendFault.Halted at_fault)
            → (⟦<Engine<V, F> as Reader>⟧.state self.old).halted ≡ Some at_fault }
        ensures refused { (at_fault : ℕ) → (⟦<Engine<V, F> as Reader>⟧.state self.old).halted ≡ Some at_fault
            → (result ≡ Err (TendFault.Halted at_fault))
            ⊎ ((turn : ℕ) × (result ≡ Err (TendFault.Busy turn))) }
        ensures works { TendsOver F.seat F.shares F.waits self.old.pool.overlay.source.frames
            self.new.pool.overlay.source.frames self.old.pool.known.halted self.new.pool.known.halted result }
        ensures clean { OnOk result (IsTold (λ told. (k : ℕ) → k < PARTITIONS
            → AreClean (dirty_of (told_at told k))) (F.seat self.new.pool.overlay.source.frames)) }
        ensures empty { OnOk result (self.new.pool.known.tail ≡ 0) }
    {
        self.kept.table.keeps();
        let done = alone(self.pool.checkpoint());
        self.causes = noted(self.causes, &done);
        done
    }
}
