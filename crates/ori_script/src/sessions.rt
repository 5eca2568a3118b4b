// The sessions of a run.
ghost use Rattle.ori_script.specs.Numbers.{AreNumbered};

use ori_bytes::NoMemory;
use ori_bytes::limits::MAX_SESSIONS;
use ori_model::{Keeper, Reply};
use ori_session::Session;
use std::alloc::Global;

/// The sessions of a run, from 1 to 64, each with what it has open.
#[derive(Drop)]
pub struct Sessions {
    list: Vec<Session>,
    ghost numbered: { AreNumbered list.items },
}

impl Sessions {
    ghost use Rattle.std.specs.Prelude.{◌≡◌, ◌≤◌, IfOk, replicate};
    ghost use Rattle.ori_bytes.specs.declared.limits.TheConstants.{MAX_SESSIONS};
    ghost use Rattle.ori_spec_runs.specs.Answer.{closed};
    ghost use Rattle.ori_model.specs.Standing.{Endures};
    ghost use Rattle.ori_script.specs.Keeping.{sessions_of, IsDone};

    /// Sessions with nothing open.
    pub fn new(alloc: Global) -> Result<Sessions, NoMemory>
        ensures { IfOk result (λ s. sessions_of s ≡ replicate MAX_SESSIONS closed) }
    {
        let mut list = Vec::with_capacity(alloc, usize::from(MAX_SESSIONS))?;
        for place in 0..MAX_SESSIONS {
            list.push(Session::new(place + 1))?;
        }
        Ok(Sessions { list })
    }

    // Does a session's statement over a keeper.
    pub(crate) fn exec<K: Keeper>(
        &mut self,
        alloc: Global,
        keeper: &mut K,
        session: u8,
        text: &str,
    ) -> Reply
        requires first { 1 ≤ session }
        requires last { session ≤ MAX_SESSIONS }
        ensures done { IsDone session (K.state keeper.old) (K.state keeper.new) (K.causes keeper.old)
            (K.causes keeper.new) (K.view keeper.old) text.now (sessions_of self.old) result (sessions_of self.new) }
        ensures endures { Endures K.sound K.lent K.below keeper.old keeper.new }
    {
        let place = usize::from(session) - 1;
        self.list[place].exec(alloc, keeper, text)
    }
}
