// What statements commit to.
ghost use Rattle.std.specs.Prelude.{◌≡◌, ℕ, List, Option, Some, IsSome, option_map, length};
ghost use Rattle.ori_volume.specs.Causes.{Rose};
ghost use Rattle.ori_spec_data.specs.Base.{EntryData, asks_commit};
ghost use Rattle.ori_spec_data.specs.Apply.{IsFormed};
ghost use Rattle.ori_spec_data.specs.Views.{view_of};
ghost use Rattle.ori_spec_data.specs.Keeping.{Decides, counted, TellsAll};
ghost use Rattle.ori_model.specs.Data.{tx_of};
ghost use Rattle.ori_model.specs.Decisions.{decision_of};
ghost use Rattle.ori_model.specs.Standing.{Endures};

use crate::{CommitFault, Done, Reader, Tx};

/// A database that can be committed to. Its state has the base, where it tells that, and its view is the base's.
pub trait Keeper: Reader {
    /// How many entries have joined since the opening.
    fn front(&self) -> u64
        ensures { result ≡ (Self.state self.now).front };

    /// The count of faults at which commits ended, where they have.
    fn halted(&self) -> Option<u64>
        ensures { result ≡ (Self.state self.now).halted };

    /// Commits a session's formed transaction, or says why not. It is decided on the base as it is, each refusal where
    /// the earlier ones of `CommitFault` don't stand. At Ok its entry joins the feed, and the base is what that makes
    /// of it. After a refusal nothing has changed but the count of its cause; after `Fault` no more than that, or that
    /// commits have ended and this entry is in doubt: a reopening tells whether it joined.
    fn commit(&mut self, session: u8, tx: &Tx) -> Result<Done, CommitFault>
        requires { IsFormed (tx_of tx.now) }
        ensures decided { Decides (Self.state self.old) session (asks_commit (tx_of tx.now)) (decision_of result)
            (Self.state self.new) }
        ensures endures { Endures Self.sound Self.lent Self.below self.old self.new }
        ensures fetched { Self.fetched self.new ≡ Self.fetched self.old }
        ensures causes { Self.causes self.new ≡ counted (decision_of result) (Self.causes self.old) };

    /// It shows the base, where it tells one, and else nothing.
    ghost shows_base: { (keeper : Self) → Self.view keeper ≡ option_map view_of (Self.state keeper).base };

    /// One that tells the base tells all that commits are decided on, and one that tells the opening's base has its own
    /// by the feed.
    ghost tells_all: { (keeper : Self) → TellsAll (Self.state keeper) };

    /// Its front is the number of the entries.
    ghost counts_feed: { (keeper : Self) (feed : List EntryData) → (Self.state keeper).feed ≡ Some feed
        → (Self.state keeper).front ≡ length feed };

    /// Commits end only at a fault that came after the opening.
    ghost halts_late: { (keeper : Self) (at : ℕ) → (Self.state keeper).halted ≡ Some at
        → Rose (Self.state keeper).opening.faults at };

    /// An entry is in doubt only where commits have ended.
    ghost doubts_late: { (keeper : Self) (entry : EntryData) → (Self.state keeper).doubt ≡ Some entry
        → IsSome (Self.state keeper).halted };
}
