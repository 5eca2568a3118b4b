// What an engine keeps of its opening.
ghost use Rattle.std.specs.Prelude.{◌≡◌, ◌+◌, ◌≤◌, ◌<◌, ◌++◌, [], ◌∷◌, None, IfOk, IfErr, OnOk, length};
ghost use Rattle.std.specs.Prelude.{Option, Some, ℕ};
ghost use Rattle.ori_spec_data.specs.Weighing.{feed_bytes};
ghost use Rattle.ori_model.specs.Data.{entries_of};

use crate::Doubt;
use crate::prepared::Prepared;
use crate::sizes::bytes_behind;
use ori_bytes::NoMemory;
use ori_bytes::limits::{MAX_FEED_BYTES, MAX_FEED_ENTRIES};
use ori_model::{CommitFault, Entry, Tx};
use ori_table::{Outcome, Staged, Table};
use std::alloc::Global;

/// The rows, the entries since the opening with their bytes and the moments at which they were acknowledged, and the
/// entry in doubt.
#[derive(Drop)]
pub(crate) struct Kept {
    pub table: Table,
    pub feed: Vec<Entry>,
    pub bytes: u64,
    pub marks: Vec<u64>,
    pub doubt: Option<Doubt>,
    ghost one_each: { length marks.items ≡ length feed.items },
    ghost counted: { bytes ≡ feed_bytes (entries_of feed.items) },
}

impl Kept {
    ghost use Rattle.ori_bytes.specs.declared.limits.TheConstants.{MAX_PAGES};
    ghost use Rattle.ori_spec_data.specs.Base.{asks_commit};
    ghost use Rattle.ori_spec_data.specs.Apply.{IsFormed};
    ghost use Rattle.ori_spec_data.specs.Keeping.{bytes_with};
    ghost use Rattle.ori_spec_data.specs.Weighing.{entry_bytes};
    ghost use Rattle.ori_model.specs.Data.{tx_of, entry_of};
    ghost use Rattle.ori_table.specs.Kept.{rows_of};
    ghost use Rattle.ori_table.specs.Data.{outcomes_data, CanLay};
    ghost use Rattle.ori_rows.specs.Outcomes.{put_rows};
    ghost use Rattle.ori_table.specs.Staged.{IsStaged};
    ghost use Rattle.ori_engine.specs.States.{kept_of, IsNewlyKept, IsAskedOf, IsPrepared, HasRoom, Refuses};

    /// What is kept of a volume whose rows were read: nothing has been committed.
    pub(crate) fn begin(alloc: Global, table: Table) -> Kept
        ensures rows { result.table.0 ≡ table.0 }
        ensures few { length (rows_of result.table.0) < MAX_PAGES }
        ensures fresh { IsNewlyKept result }
    {
        table.keeps();
        Kept {
            table,
            feed: Vec::new(alloc),
            bytes: 0,
            marks: Vec::new(alloc),
            doubt: None,
        }
    }

    // The feed has room for the transaction's entry; what its bytes are with it.
    fn check_feed(&self, session: u8, tx: &Tx) -> Result<u64, CommitFault>
        ensures refused { IfErr result (Refuses self.now None session (asks_commit (tx_of tx.now))) }
        ensures asked { IfOk result (λ n. (n ≡ bytes_with (entries_of self.now.feed.items)
            (asks_commit (tx_of tx.now))) × IsAskedOf self.now (asks_commit (tx_of tx.now))) }
    {
        let entries = self.feed.len() as u64;
        let bytes = bytes_behind(self.bytes, tx.changes.as_slice())?;
        if entries >= MAX_FEED_ENTRIES {
            return Err(CommitFault::FeedFull { entries, bytes });
        }
        if bytes > MAX_FEED_BYTES {
            return Err(CommitFault::FeedFull { entries, bytes });
        }
        Ok(bytes)
    }

    // Stages a transaction where nothing stands against it yet, or says why the base refuses it.
    fn stage(&self, alloc: Global, session: u8, tx: &Tx) -> Result<Staged, CommitFault>
        requires formed { IsFormed (tx_of tx.now) }
        requires asked { IsAskedOf self.now (asks_commit (tx_of tx.now)) }
        ensures refused { IfErr result (Refuses self.now None session (asks_commit (tx_of tx.now))) }
        ensures staged { IfOk result (IsStaged (rows_of self.now.table.0) (tx_of tx.now)) }
    {
        self.table.stage(alloc, tx)
    }

    // What a commit needs before it writes, or why it is refused, while commits go on.
    fn prepare_going(&self, alloc: Global, session: u8, tx: &Tx) -> Result<Prepared, CommitFault>
        requires { IsFormed (tx_of tx.now) }
        ensures refused { IfErr result (Refuses self.now None session (asks_commit (tx_of tx.now))) }
        ensures prepared { IfOk result (IsPrepared self.now session (tx_of tx.now)) }
    {
        let bytes = self.check_feed(session, tx)?;
        let staged = self.stage(alloc, session, tx)?;
        let fresh = staged.fresh.copy()?;
        let entry = Entry::Commit {
            session,
            tx: tx.copy()?,
            fresh: staged.fresh.copy()?,
        };
        Ok(Prepared {
            staged,
            entry,
            fresh,
            bytes,
        })
    }

    /// What a commit needs before it writes, or why it is refused: commits have ended, when so many calls had failed;
    /// the feed is full; or as the base refuses it.
    pub(crate) fn prepare(
        &self,
        alloc: Global,
        halted: Option<u64>,
        session: u8,
        tx: &Tx,
    ) -> Result<Prepared, CommitFault>
        requires { IsFormed (tx_of tx.now) }
        ensures refused { IfErr result (Refuses self.now halted session (asks_commit (tx_of tx.now))) }
        ensures going { OnOk result (halted ≡ None) }
        ensures prepared { IfOk result (IsPrepared self.now session (tx_of tx.now)) }
    {
        match halted {
            Some(at_fault) => Err(CommitFault::Halted { at_fault }),
            None => self.prepare_going(alloc, session, tx),
        }
    }

    /// Reserves places for an entry, its mark, and so many positions.
    pub(crate) fn make_room(&mut self, more: usize) -> Result<(), NoMemory>
        ensures rows { self.new.table.0 ≡ self.old.table.0 }
        ensures feed { self.new.feed.items ≡ self.old.feed.items }
        ensures marks { self.new.marks.items ≡ self.old.marks.items }
        ensures doubt { self.new.doubt ≡ self.old.doubt }
        ensures bytes { self.new.bytes ≡ self.old.bytes }
        ensures room { OnOk result (HasRoom more self.new) }
    {
        self.feed.reserve(1)?;
        self.marks.reserve(1)?;
        self.table.reserve(more)
    }

    /// The entry joins the feed, and its outcomes the rows. There are places for them, and the log has its record.
    pub(crate) fn join(&mut self, outcomes: Vec<Outcome>, entry: Entry, bytes: u64, moment: u64)
        requires room { HasRoom (length outcomes.items) self.old }
        requires kept { CanLay (rows_of self.old.table.0) (outcomes_data outcomes.items) }
        requires bytes { bytes ≡ feed_bytes (entries_of self.old.feed.items) + entry_bytes (entry_of entry) }
        ensures rows { rows_of self.new.table.0 ≡ put_rows (rows_of self.old.table.0) (outcomes_data outcomes.items) }
        ensures feed { entries_of self.new.feed.items ≡ entries_of self.old.feed.items ++ entry_of entry ∷ [] }
        ensures front { length self.new.feed.items ≡ length self.old.feed.items + 1 }
        ensures marks { self.new.marks.items ≡ self.old.marks.items ++ moment ∷ [] }
        ensures doubt { self.new.doubt ≡ self.old.doubt }
    {
        self.table.lay(outcomes);
        let _ = self.marks.push(moment);
        let _ = self.feed.push(entry);
        self.bytes = bytes;
    }

    /// The entry's append failed: with its record the log would have so many.
    pub(crate) fn doubt(&mut self, tail: u64, entry: Entry)
        ensures rows { self.new.table.0 ≡ self.old.table.0 }
        ensures feed { self.new.feed.items ≡ self.old.feed.items }
        ensures marks { self.new.marks.items ≡ self.old.marks.items }
        ensures doubt { self.new.doubt ≡ Some (record { tail = tail; entry = entry }) }
    {
        self.doubt = Some(Doubt { tail, entry });
    }
}
