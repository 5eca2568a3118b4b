// Sessions.
ghost use Rattle.std.specs.Prelude.{◌≡◌, None, is_some};
ghost use Rattle.ori_spec_runs.specs.Answer.{closed, with_open};
ghost use Rattle.ori_session.specs.Sessions.{data_of};

use ori_txn::TxBuffer;

/// A session: its number, and the transaction that it has open, if any. A contract sees what is kept of it as
/// `data_of`.
#[derive(Drop)]
pub struct Session {
    pub(crate) number: u8,
    pub(crate) current: Option<TxBuffer>,
}

impl Session {
    /// A session with nothing open; takes no memory.
    pub fn new(number: u8) -> Self
        ensures number { result.number ≡ number }
        ensures nothing { data_of result ≡ closed }
    {
        Session {
            number,
            current: None,
        }
    }

    /// Whether a transaction is open.
    pub fn in_transaction(&self) -> bool
        ensures { result ≡ is_some (data_of self.now).transaction }
    {
        self.current.is_some()
    }

    /// Lets an open transaction go; takes no memory.
    pub fn rollback(&mut self)
        ensures number { self.new.number ≡ self.old.number }
        ensures nothing { data_of self.new ≡ with_open (data_of self.old) None }
    {
        self.current = None;
    }
}
