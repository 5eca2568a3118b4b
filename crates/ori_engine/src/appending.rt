// What is kept of an opening is committed to.
ghost use Rattle.std.specs.Prelude.{◌≡◌, length, None, Option, IsSome, OnErr};
ghost use Rattle.ori_spec_data.specs.Base.{asks_commit};
ghost use Rattle.ori_spec_data.specs.Apply.{IsFormed};
ghost use Rattle.ori_spec_data.specs.Keeping.{Decides, OpeningData};
ghost use Rattle.ori_model.specs.Data.{tx_of};
ghost use Rattle.ori_model.specs.Decisions.{decision_of};
ghost use Rattle.ori_turns.specs.Seats.{IsTold};
ghost use Rattle.ori_rows.specs.Stage.{head_page};
ghost use Rattle.ori_engine.specs.CacheRows.{GoesOnTelling, counted_in};
ghost use Rattle.ori_engine.specs.Reopening.{past_of};
ghost use Rattle.ori_engine.specs.States.{kept_of, state_of, IsPrepared, HasRoom, IsMarked, IsWhole};
ghost use Rattle.ori_engine.specs.Works.{WorksOver, StaysKept, doubt_after};
ghost use Rattle.ori_engine.specs.Writing.{doubted_by};

use crate::committing::{WriteFault, commit_fault, tail_in_doubt, write_images};
use crate::kept::Kept;
use crate::prepared::Prepared;
use ori_cache::Pool;
use ori_model::{CommitFault, Done, Entry, Tx};
use ori_table::Staged;
use ori_turns::Frames;
use ori_volume::Volume;

impl Kept {
    // The entry is in doubt, where its append failed.
    fn doubt_by(&mut self, why: WriteFault, entry: Entry)
        ensures rows { self.new.table.0 ≡ self.old.table.0 }
        ensures feed { self.new.feed.items ≡ self.old.feed.items }
        ensures marks { self.new.marks.items ≡ self.old.marks.items }
        ensures doubt { self.new.doubt ≡ doubt_after (doubted_by why) entry self.old.doubt }
    {
        if let Some(tail) = tail_in_doubt(why) {
            self.doubt(tail, entry);
        }
    }

    // Writes what was prepared in one operation, and joins it. Behind the operation's commit nothing else can fail.
    fn append<V: Volume, F: Frames<V> + Drop>(
        &mut self,
        pool: &mut Pool<V, F>,
        session: u8,
        tx: &Tx,
        prepared: Prepared,
    ) -> Result<Done, CommitFault>
        requires formed { IsFormed (tx_of tx.now) }
        requires prepared { IsPrepared self.old session (tx_of tx.now) prepared }
        requires room { HasRoom (length prepared.staged.outcomes.items) self.old }
        requires going { pool.old.known.halted ≡ None }
        requires sure { IsSome self.old.doubt → IsSome pool.old.known.halted }
        requires head { pool.old.overlay.changes.head ≡ head_page 1 }
        ensures decided { (opening : OpeningData) → Decides (state_of self.old pool.old.known.halted opening) session
            (asks_commit (tx_of tx.now)) (decision_of result) (state_of self.new pool.new.known.halted opening) }
        ensures sound { GoesOnTelling F.seat F.shares → StaysKept (kept_of self.old pool.old.known.halted)
            (counted_in F.gives pool.old.overlay.source.frames pool.old.known) pool.old.overlay.source.count
            (past_of V.files V.story (F.seat pool.old.overlay.source.frames)) (kept_of self.new pool.new.known.halted)
            (counted_in F.gives pool.new.overlay.source.frames pool.new.known) pool.new.overlay.source.count
            (past_of V.files V.story (F.seat pool.new.overlay.source.frames)) }
        ensures marked { IsTold (λ told. IsMarked self.old.marks.items self.new.marks.items
            (V.moment told.device.volume) result) (F.seat pool.new.overlay.source.frames) }
        ensures unmarked { OnErr result (self.new.marks.items ≡ self.old.marks.items) }
        ensures works { WorksOver F.seat F.shares F.waits pool.old.overlay.source.frames
            pool.new.overlay.source.frames pool.old.known.halted pool.new.known.halted (decision_of result) }
        ensures whole { IsWhole (decision_of result) }
        ensures doubts { IsSome self.new.doubt → IsSome pool.new.known.halted }
        ensures head { pool.new.overlay.changes.head ≡ head_page 1 }
    {
        let Prepared {
            staged,
            entry,
            fresh,
            bytes,
        } = prepared;
        let Staged {
            outcomes,
            images,
            ..
        } = staged;
        self.table.keeps();
        let place = self.feed.len() as u64;
        match write_images(pool, images) {
            Ok(moment) => {
                self.join(outcomes, entry, bytes, moment);
                Ok(Done { place, fresh })
            }
            Err(why) => {
                self.doubt_by(why, entry);
                Err(commit_fault(why))
            }
        }
    }

    /// Commits a session's transaction by one operation over the pages, or says why not. It is refused, in this order:
    /// Halted where commits have ended; FeedFull exactly where the feed is full; as the base refuses it; as the pages
    /// can't be read or written. Fault comes only where a call of the volume failed in this call: where it was the
    /// append, commits have ended and the entry is in doubt. After every other refusal nothing has changed. An accepted
    /// entry's mark is the moment of the return.
    pub(crate) fn commit<V: Volume, F: Frames<V> + Drop>(
        &mut self,
        pool: &mut Pool<V, F>,
        session: u8,
        tx: &Tx,
    ) -> Result<Done, CommitFault>
        requires formed { IsFormed (tx_of tx.now) }
        requires sure { IsSome self.old.doubt → IsSome pool.old.known.halted }
        requires head { pool.old.overlay.changes.head ≡ head_page 1 }
        ensures decided { (opening : OpeningData) → Decides (state_of self.old pool.old.known.halted opening) session
            (asks_commit (tx_of tx.now)) (decision_of result) (state_of self.new pool.new.known.halted opening) }
        ensures sound { GoesOnTelling F.seat F.shares → StaysKept (kept_of self.old pool.old.known.halted)
            (counted_in F.gives pool.old.overlay.source.frames pool.old.known) pool.old.overlay.source.count
            (past_of V.files V.story (F.seat pool.old.overlay.source.frames)) (kept_of self.new pool.new.known.halted)
            (counted_in F.gives pool.new.overlay.source.frames pool.new.known) pool.new.overlay.source.count
            (past_of V.files V.story (F.seat pool.new.overlay.source.frames)) }
        ensures marked { IsTold (λ told. IsMarked self.old.marks.items self.new.marks.items
            (V.moment told.device.volume) result) (F.seat pool.new.overlay.source.frames) }
        ensures unmarked { OnErr result (self.new.marks.items ≡ self.old.marks.items) }
        ensures works { WorksOver F.seat F.shares F.waits pool.old.overlay.source.frames
            pool.new.overlay.source.frames pool.old.known.halted pool.new.known.halted (decision_of result) }
        ensures whole { IsWhole (decision_of result) }
        ensures doubts { IsSome self.new.doubt → IsSome pool.new.known.halted }
        ensures head { pool.new.overlay.changes.head ≡ head_page 1 }
    {
        let alloc = *self.marks.allocator();
        let prepared = match self.prepare(alloc, pool.halted(), session, tx) {
            Ok(prepared) => prepared,
            Err(fault) => return Err(fault),
        };
        let more = prepared.staged.outcomes.len();
        if self.make_room(more).is_err() {
            return Err(CommitFault::NoMemory);
        }
        self.append(pool, session, tx, prepared)
    }
}
