// A statement as a whole.
ghost use Rattle.std.specs.Prelude.{◌≡◌, ◌≤◌};
ghost use Rattle.ori_spec_data.specs.Keeping.{raised_count};
ghost use Rattle.ori_model.specs.Standing.{Endures};
ghost use Rattle.ori_session.specs.Sessions.{data_of};
ghost use Rattle.ori_session.specs.Runs.{Executes};

use crate::{Session, Stage};
use ori_model::{Keeper, Reply};
use std::alloc::Global;

impl Session {
    /// Does a statement: its read step, and its commit step where the first leaves something to commit. The keeper
    /// isn't asked by anybody else in between.
    pub fn exec<K: Keeper>(&mut self, alloc: Global, keeper: &mut K, text: &str) -> Reply
        ensures executes { Executes self.old.number (K.state keeper.old) (K.state keeper.new) (K.causes keeper.old)
            (K.causes keeper.new) (K.view keeper.old) text.now (data_of self.old) result (data_of self.new) }
        ensures number { self.new.number ≡ self.old.number }
        ensures endures { Endures K.sound K.lent K.below keeper.old keeper.new }
        ensures one_record { K.fetched keeper.new ≤ raised_count (K.fetched keeper.old) }
    {
        let front = keeper.front();
        match self.read_step(alloc, front, keeper, text) {
            Stage::Answered(reply) => reply,
            Stage::Commits(pending) => self.commit_step(alloc, keeper, pending),
        }
    }
}
