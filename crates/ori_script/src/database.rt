// An open database, as a run uses it.
ghost use Rattle.std.specs.Prelude.{◌≡◌, ◌<◌, ℕ, Some, Err, IsErrOf};
ghost use Rattle.ori_bytes.specs.declared.limits.TheConstants.{PARTITIONS};
ghost use Rattle.ori_pool.specs.declared.fault.TendFault.{TendFault};
ghost use Rattle.ori_model.specs.Data.{entries_of};
ghost use Rattle.ori_engine.specs.Openings.{IsKeptState};
ghost use Rattle.ori_engine.specs.Tending.{Tends};

use crate::Sole;
use ori_engine::Engine;
use ori_model::{Entry, Keeper};
use ori_pool::TendFault;
use ori_volume::Volume;

/// A keeper that tells its whole state, gives the entries since its opening, and works on its homes and its log. No
/// other handle holds a turn of it.
pub trait Database: Keeper {
    /// What holds of its state.
    fn is_told(&self)
        ensures told { IsKeptState (Self.state self.now) (Self.causes self.now) }
        ensures alone { (Self.causes self.now).busy ≡ 0 };

    /// The entries since the opening.
    fn entries(&self) -> &[Entry]
        ensures { (Self.state self.now).feed ≡ Some (entries_of result.now) };

    /// Writes the first unwritten page of a partition home: false where there is none.
    fn flush(&mut self, part: u8) -> Result<bool, TendFault>
        requires { part < PARTITIONS }
        ensures tended { Tends Self.state Self.sound Self.causes result self.old self.new }
        ensures kept { (Self.state self.new).halted ≡ (Self.state self.old).halted }
        ensures halted { (at : ℕ) → IsErrOf result (TendFault.Halted at) → ⊥ }
        ensures alone { (turn : ℕ) → IsErrOf result (TendFault.Busy turn) → ⊥ };

    /// Makes the homes firm.
    fn settle(&mut self) -> Result<(), TendFault>
        ensures tended { Tends Self.state Self.sound Self.causes result self.old self.new }
        ensures kept { (Self.state self.new).halted ≡ (Self.state self.old).halted }
        ensures halted { (at : ℕ) → IsErrOf result (TendFault.Halted at) → ⊥ }
        ensures alone { (turn : ℕ) → IsErrOf result (TendFault.Busy turn) → ⊥ };

    /// Writes each unwritten page home, makes the homes firm, and empties the log; refused where commits have ended.
    fn checkpoint(&mut self) -> Result<(), TendFault>
        ensures tended { Tends Self.state Self.sound Self.causes result self.old self.new }
        ensures halted { (at : ℕ) → IsErrOf result (TendFault.Halted at) → (Self.state self.old).halted ≡ Some at }
        ensures refused { (at : ℕ) → (Self.state self.old).halted ≡ Some at → result ≡ Err (TendFault.Halted at) }
        ensures alone { (turn : ℕ) → IsErrOf result (TendFault.Busy turn) → ⊥ };
}

impl<V: Volume, F: Sole<V> + Drop> Database for Engine<V, F> {
    fn is_told(&self) {
        self.keeps_counts();
        self.keeps();
    }

    fn entries(&self) -> &[Entry] {
        self.feed()
    }

    fn flush(&mut self, part: u8) -> Result<bool, TendFault> {
        self.flush_one(part)
    }

    fn settle(&mut self) -> Result<(), TendFault> {
        Engine::settle(self)
    }

    fn checkpoint(&mut self) -> Result<(), TendFault> {
        Engine::checkpoint(self)
    }
}
