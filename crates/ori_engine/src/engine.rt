// The engine, as statements read it and commit to it.
ghost use Rattle.std.specs.Prelude.{◌≡◌, ◌⊎◌, ◌+◌, ◌-◌, ◌^◌, ◌<◌, ◌≤◌, ◌↔◌, ℕ, [], length, min, true, None};
ghost use Rattle.std.specs.Prelude.{Some, IsTrue, IsSome, IfOk, IfErr, OnOk, OnErr, IfSome};
ghost use Rattle.std.specs.Option.{ForSome};
ghost use Rattle.ori_volume.specs.Causes.{Rose};
ghost use Rattle.ori_volume.specs.Story.{Tells};
ghost use Rattle.ori_volume.specs.declared.file.FileNo.{FileNo};
ghost use Rattle.ori_model.specs.Standing.{PastData};
ghost use Rattle.ori_spec_data.specs.Base.{BaseData, initial_base};
ghost use Rattle.ori_spec_data.specs.Limits.{FoundData};
ghost use Rattle.ori_rows.specs.Stage.{IsDatabase, head_page};
ghost use Rattle.ori_spec_data.specs.Keeping.{counted, raised_count};
ghost use Rattle.ori_log.specs.Files.{files_data};
ghost use Rattle.ori_log.specs.Forms.{BreaksFirst};
ghost use Rattle.ori_rows.specs.Rows.{base_with};
ghost use Rattle.ori_table.specs.Kept.{rows_of};
ghost use Rattle.ori_decide.specs.Told.{told};
ghost use Rattle.ori_turns.specs.declared.opening.StartFault.{StartFault};
ghost use Rattle.ori_turns.specs.Seats.{HoldsNothing, IsTold, TurnHeld};
ghost use Rattle.ori_engine.specs.CacheRows.{GoesOnTelling, OpenedTo, TellsAsGiven, counted_in};
ghost use Rattle.ori_engine.specs.Openings.{HasRisenBy, troubles_of};
ghost use Rattle.ori_engine.specs.Reopening.{past_of};

use crate::Doubt;
use crate::kept::Kept;
use crate::opened::Opened;
use crate::starting::open_rows;
use ori_bytes::{Causes, NumberList, Rid};
use ori_cache::Pool;
use ori_model::{
    CommitFault, Done, Entry, EntryList, Keeper, ReadFault, Reader, Schema, Stored, Tx,
};
use ori_turns::{Frames, StartFault};
use ori_volume::Volume;
use std::alloc::Global;

/// The cache of a volume that was opened, what is kept of the opening, and the counts of what was read and answered.
/// Callers see it by what it means as a `Reader` and a `Keeper`: its state, and `sound`. No turn is held between calls.
#[derive(Drop)]
pub struct Engine<V: Volume, F: Frames<V> + Drop> {
    pub(crate) pool: Pool<V, F>,
    pub(crate) kept: Kept,
    fetched: u64,
    pub(crate) causes: Causes,
    opened: Opened,
    ghost doubts: { IsSome kept.doubt → IsSome pool.known.halted },
    ghost later: { opened.faults ≤ (F.seat pool.overlay.source.frames).last.faults },
    ghost log_later: { opened.log_faults ≤ (F.seat pool.overlay.source.frames).last.log_faults },
    ghost halts: { ForSome pool.known.halted (λ at. Rose opened.faults at
        × (at ≤ (F.seat pool.overlay.source.frames).last.faults)
        × Rose opened.log_faults (F.seat pool.overlay.source.frames).last.log_faults) },
    ghost goes_on: { pool.known.halted ≡ None
        → (F.seat pool.overlay.source.frames).last.log_faults ≡ opened.log_faults },
    ghost troubled: { HasRisenBy (troubles_of causes) opened.faults
        (F.seat pool.overlay.source.frames).last.faults },
    ghost waited: { 0 < causes.busy → 0 < F.waits pool.overlay.source.frames },
    ghost head: { pool.overlay.changes.head ≡ head_page 1 },
    ghost undamaged: { causes.damaged ≡ 0 },
}

/// Turns of a volume that wasn't opened, none of which is held, and why.
#[derive(Drop)]
pub struct Unopened<F: Drop> {
    pub fault: StartFault,
    pub frames: F,
}

/// What is left of an engine at its end: the turns, none of which is held, the entries since the opening with the
/// moments at which they were acknowledged, and the entry in doubt.
#[derive(Drop)]
pub struct Ended<F: Drop> {
    pub frames: F,
    pub feed: EntryList,
    pub marks: NumberList,
    pub doubt: Option<Doubt>,
}

impl<V: Volume, F: Frames<V> + Drop> Engine<V, F> {
    ghost use Rattle.std.specs.Prelude.{Option, option_map};
    ghost use Rattle.ori_model.specs.Data.{entries_of};
    ghost use Rattle.ori_engine.specs.Doubts.{doubt_of, entry_in_doubt};
    ghost use Rattle.ori_engine.specs.Reopening.{HasTailOf, ReopensSince, LeavesAll, OpensWhole};
    ghost use Rattle.ori_engine.specs.Openings.{Finds, GivesAll, IsStarted, IsFresh, LeavesBase, Survives};
    ghost use Rattle.ori_engine.specs.Openings.{IsOpenedSince, IsOpenedAt, no_causes, IsKeptState, IsCounted};

    /// Opens a volume: attaches its log, whose last images and the homes behind them are the pages, and reads the rows
    /// from these. The files of an empty volume are made. The handle is the engine's, holds no turn, and its device
    /// isn't open. Whatever the answer, and whenever a crash comes, the files open to what they opened to before.
    ///
    /// `NotADatabase` comes exactly where the files aren't of the form, names the first that breaks it, and leaves them
    /// as they were: `Pages` also where its pages stand for no base. `Busy` comes only where another handle held a
    /// turn. A refusal gives the turns back, and none of them is held. Where the log was attached before it, the device
    /// has that: to open again, take the volume out.
    pub fn start(alloc: Global, frames: F) -> Result<Engine<V, F>, Unopened<F>>
        requires engine { (F.seat frames).engine ≡ true }
        requires closed { (F.seat frames).last.log ≡ None }
        requires free { HoldsNothing (F.seat frames) }
        ensures found { IfOk result (λ e. (found : FoundData) → Finds (F.gives frames)
            (past_of V.files V.story (F.seat frames)) found
            → IsStarted found (⟦<Engine<V, F> as Reader>⟧.state e)) }
        ensures tail { IfOk result (λ e. GoesOnTelling F.seat F.shares
            → GivesAll (F.gives frames) (past_of V.files V.story (F.seat frames))
            → IfSome (past_of V.files V.story (F.seat frames)).files (λ fs. HasTailOf fs e.pool.known.tail)) }
        ensures fresh { IfOk result (λ e. IsFresh (⟦<Engine<V, F> as Reader>⟧.state e)) }
        ensures unmarked { IfOk result (λ e. e.kept.marks.items ≡ []) }
        ensures database { OnOk result (GivesAll (F.gives frames) (past_of V.files V.story (F.seat frames))
            → IfSome (past_of V.files V.story (F.seat frames)).files (λ fs. IsDatabase (files_data fs))) }
        ensures not_a_database { IfErr result (λ u. (file : FileNo) → u.fault ≡ StartFault.NotADatabase file
            → GivesAll (F.gives frames) (past_of V.files V.story (F.seat frames))
            → IfSome (past_of V.files V.story (F.seat frames)).files (λ fs. IsDatabase (files_data fs) → ⊥)) }
        ensures names { IfErr result (λ u. (file : FileNo) → u.fault ≡ StartFault.NotADatabase file
            → IfSome (past_of V.files V.story (F.seat frames)).files (λ fs. BreaksFirst fs file
            ⊎ ((file ≡ FileNo.Pages) × ((other : FileNo) → BreaksFirst fs other → ⊥)))) }
        ensures refused { IfErr result (λ u. (file : FileNo) → u.fault ≡ StartFault.NotADatabase file
            → GoesOnTelling F.seat F.shares → GivesAll (F.gives frames) (past_of V.files V.story (F.seat frames))
            → (past_of V.files V.story (F.seat u.frames)).files ≡ (past_of V.files V.story (F.seat frames)).files) }
        ensures sound { IfOk result (λ e. GivesAll (F.gives frames) (past_of V.files V.story (F.seat frames))
            → ⟦<Engine<V, F> as Reader>⟧.sound e (past_of V.files V.story (F.seat frames))) }
        ensures since_end { IfOk result (λ e. GivesAll (F.gives frames) (past_of V.files V.story (F.seat frames))
            → ⟦<Engine<V, F> as Reader>⟧.sound e
            (past_of V.files V.story (F.seat e.pool.overlay.source.frames))) }
        ensures whole { IfOk result (λ e. GoesOnTelling F.seat F.shares
            → GivesAll (F.gives frames) (past_of V.files V.story (F.seat frames))
            → Tells OpensWhole (past_of V.files V.story (F.seat frames)).story
            (past_of V.files V.story (F.seat e.pool.overlay.source.frames)).story) }
        ensures left { IfErr result (λ u. GoesOnTelling F.seat F.shares
            → Tells LeavesBase (past_of V.files V.story (F.seat frames)).story
            (past_of V.files V.story (F.seat u.frames)).story) }
        ensures since { IfOk result (λ e. IsOpenedSince (F.seat frames).last.faults (F.seat frames).last.log_faults
            (⟦<Engine<V, F> as Reader>⟧.state e).opening) }
        ensures at_end { IfOk result (λ e. IsOpenedAt e.pool.opening.faults
            (F.seat e.pool.overlay.source.frames).last.log_faults
            (⟦<Engine<V, F> as Reader>⟧.state e).opening) }
        ensures moment { IfOk result (λ e. IsTold (λ told. (⟦<Engine<V, F> as Reader>⟧.state e).opening.moment
            ≡ V.moment told.device.volume) (F.seat e.pool.overlay.source.frames)) }
        ensures in_use { IfOk result (λ e. (⟦<Engine<V, F> as Reader>⟧.state e).opening.in_use
            ≡ (⟦<Engine<V, F> as Reader>⟧.state e).in_use) }
        ensures shares { IfOk result (λ e. F.shares frames e.pool.overlay.source.frames) }
        ensures back { IfErr result (λ u. F.shares frames u.frames × HoldsNothing (F.seat u.frames)
            × ((F.seat u.frames).engine ≡ true)) }
        ensures later { IfErr result (λ u. (F.seat frames).last.faults ≤ (F.seat u.frames).last.faults) }
        ensures log_later { IfErr result
            (λ u. (F.seat frames).last.log_faults ≤ (F.seat u.frames).last.log_faults) }
        ensures fault { IfErr result (λ u. u.fault ≡ StartFault.Fault
            → Rose (F.seat frames).last.faults (F.seat u.frames).last.faults) }
        ensures busy { IfErr result (λ u. (turn : ℕ) → u.fault ≡ StartFault.Busy turn
            → TurnHeld turn (F.waits frames) (F.waits u.frames)) }
        ensures fetched { IfOk result (λ e. ⟦<Engine<V, F> as Reader>⟧.fetched e ≡ 0) }
        ensures causes { IfOk result (λ e. ⟦<Engine<V, F> as Reader>⟧.causes e ≡ no_causes) }
    {
        let (pool, table) = match open_rows(alloc, frames) {
            Ok(opened) => opened,
            Err((frames, fault)) => return Err(Unopened { fault, frames }),
        };
        let opening = pool.opening();
        let opened = Opened {
            in_use: table.len() + 1,
            faults: opening.faults,
            log_faults: opening.log_faults,
            moment: opening.moment,
        };
        Ok(Engine {
            pool,
            kept: Kept::begin(alloc, table),
            fetched: 0,
            causes: Causes {
                device: 0,
                fault: 0,
                busy: 0,
                damaged: 0,
            },
            opened,
        })
    }

    /// What holds of every engine's state: it is told, an entry is in doubt only where commits have ended, and no page
    /// of it was damaged.
    pub fn keeps(&self)
        ensures { IsKeptState (⟦<Engine<V, F> as Reader>⟧.state self.now)
            (⟦<Engine<V, F> as Reader>⟧.causes self.now) }
    {
        self.kept.table.keeps();
    }

    /// What holds of the counts of the device that was last given: none is below that of the opening's end, commits
    /// have ended exactly where a write, cut or sync of the log has failed since, and calls have failed at least so
    /// often as Device or Fault was answered. Busy was answered only where a take has found its turn held.
    pub fn keeps_counts(&self)
        ensures waited { 0 < (⟦<Engine<V, F> as Reader>⟧.causes self.now).busy
            → 0 < F.waits self.now.pool.overlay.source.frames }
        ensures counted { IsCounted (⟦<Engine<V, F> as Reader>⟧.state self.now)
            (⟦<Engine<V, F> as Reader>⟧.causes self.now)
            (F.seat self.now.pool.overlay.source.frames).last.faults
            (F.seat self.now.pool.overlay.source.frames).last.log_faults }
    {}

    /// Whether the database is the initial one.
    pub fn is_initial(&self) -> bool
        ensures { IsTrue result
            ↔ ((⟦<Engine<V, F> as Reader>⟧.state self.now).base ≡ Some initial_base) }
    {
        self.kept.table.len() == 0
    }

    /// The entries since the opening.
    pub fn feed(&self) -> &[Entry]
        ensures { (⟦<Engine<V, F> as Reader>⟧.state self.now).feed ≡ Some (entries_of result.now) }
    {
        self.kept.feed.as_slice()
    }

    /// The moments at which they were acknowledged.
    pub fn marks(&self) -> &[u64]
        ensures { result.now ≡ self.now.kept.marks.items }
    {
        self.kept.marks.as_slice()
    }

    /// The number of records in the log's tail; behind a failed write it says nothing.
    pub fn tail(&self) -> u64
        ensures { result ≡ self.now.pool.known.tail }
    {
        self.pool.tail()
    }

    /// The volume's moment when the opening ended.
    pub fn opened(&self) -> u64
        ensures { result ≡ (⟦<Engine<V, F> as Reader>⟧.state self.now).opening.moment }
    {
        self.opened.moment
    }

    /// How often Device or Fault was answered, up to the end of a `u64`: calls of the volume have failed at least so
    /// often since the opening.
    pub fn troubles(&self) -> u64
        ensures { result ≡ min (troubles_of (⟦<Engine<V, F> as Reader>⟧.causes self.now)) (2 ^ 64 - 1) }
    {
        self.causes.device.saturating_add(self.causes.fault)
    }

    /// The entry whose append failed.
    pub fn doubt(&self) -> Option<&Doubt>
        ensures { (⟦<Engine<V, F> as Reader>⟧.state self.now).doubt
            ≡ entry_in_doubt (option_map (λ d. doubt_of d.now) result) }
    {
        self.kept.doubt.as_ref()
    }

    /// Gives the turns back, none of which is held, and what was kept; it makes no device call. Commits have ended
    /// exactly where a write, cut or sync of the log has failed since the opening. Since any moment for which the
    /// engine is sound a crash leaves a prefix of the feed with each entry that has its mark by then, or all of it and
    /// the entry in doubt; now it leaves all of it, or that. The files as they read open to the state's base, or to
    /// that with the entry in doubt: the number of records in their tail tells which.
    pub fn end(self) -> Ended<F>
        ensures frames { result.frames ≡ self.pool.overlay.source.frames }
        ensures free { HoldsNothing (F.seat result.frames) }
        ensures engine { (F.seat result.frames).engine ≡ true }
        ensures marks { result.marks ≡ self.kept.marks.items }
        ensures one_each { length result.marks ≡ length result.feed }
        ensures feed { (⟦<Engine<V, F> as Reader>⟧.state self).feed ≡ Some (entries_of result.feed) }
        ensures doubt { (⟦<Engine<V, F> as Reader>⟧.state self).doubt
            ≡ entry_in_doubt (option_map doubt_of result.doubt) }
        ensures counts { IsCounted (⟦<Engine<V, F> as Reader>⟧.state self)
            (⟦<Engine<V, F> as Reader>⟧.causes self) (F.seat result.frames).last.faults
            (F.seat result.frames).last.log_faults }
        ensures crash { TellsAsGiven F.seat F.shares F.gives → (first : PastData) (base : BaseData)
            → ⟦<Engine<V, F> as Reader>⟧.sound self first → OpenedTo base first
            → Tells (Survives (entries_of result.feed) (entry_in_doubt (option_map doubt_of result.doubt))
            result.marks) first.story (past_of V.files V.story (F.seat result.frames)).story }
        ensures now { TellsAsGiven F.seat F.shares F.gives → (first : PastData) (base : BaseData)
            → ⟦<Engine<V, F> as Reader>⟧.sound self first → OpenedTo base first
            → Tells (LeavesAll (⟦<Engine<V, F> as Reader>⟧.state self) (entries_of result.feed)) first.story
            (past_of V.files V.story (F.seat result.frames)).story }
        ensures reads { TellsAsGiven F.seat F.shares F.gives → (first : PastData)
            → ⟦<Engine<V, F> as Reader>⟧.sound self first
            → ReopensSince (⟦<Engine<V, F> as Reader>⟧.state self) (option_map doubt_of result.doubt) first
            (past_of V.files V.story (F.seat result.frames)).files }
    {
        let Engine { pool, kept, .. } = self;
        kept.table.keeps();
        let Kept {
            feed,
            marks,
            doubt,
            ..
        } = kept;
        Ended {
            frames: pool.end(),
            feed: EntryList::from_vec(feed),
            marks: NumberList::from_vec(marks),
            doubt,
        }
    }
}

/// A count of answers with one more, up to the end of a `u64`.
pub(crate) fn raised(count: u64) -> u64
    ensures { result ≡ raised_count count }
{
    count.saturating_add(1)
}

// The counts of causes behind a refusal.
fn counts(causes: Causes, fault: &CommitFault) -> Causes
    ensures { result ≡ counted (told fault.now) causes }
{
    match fault {
        CommitFault::Fault => Causes {
            fault: raised(causes.fault),
            ..causes
        },
        CommitFault::Device => Causes {
            device: raised(causes.device),
            ..causes
        },
        CommitFault::Busy { .. } => Causes {
            busy: raised(causes.busy),
            ..causes
        },
        CommitFault::Damaged { .. } => Causes {
            damaged: raised(causes.damaged),
            ..causes
        },
        CommitFault::Halted { .. } => causes,
        CommitFault::FeedFull { .. } => causes,
        CommitFault::Conflict { .. } => causes,
        CommitFault::Schema { .. } => causes,
        CommitFault::RecordTooLarge { .. } => causes,
        CommitFault::KeyTooLong { .. } => causes,
        CommitFault::Duplicate { .. } => causes,
        CommitFault::ClusterFull { .. } => causes,
        CommitFault::TxTooLarge { .. } => causes,
        CommitFault::PagesFull { .. } => causes,
        CommitFault::LogFull { .. } => causes,
        CommitFault::NoMemory => causes,
    }
}

impl<V: Volume, F: Frames<V> + Drop> Reader for Engine<V, F> {
    ghost use Rattle.std.specs.Prelude.{Some};
    ghost use Rattle.ori_spec_data.specs.Views.{view_of, nothing_below};
    ghost use Rattle.ori_engine.specs.States.{kept_of, state_of};
    ghost use Rattle.ori_engine.specs.Openings.{opening_of};
    ghost use Rattle.ori_engine.specs.CacheRows.{IsKeptSince};

    ghost view = { λ e. Some (view_of (base_with (rows_of e.kept.table.0))) };

    ghost state = { λ e. state_of e.kept e.pool.known.halted (opening_of e.opened) };

    ghost lent = { λ e. 0 };

    ghost below = { λ e. nothing_below };

    ghost sound = { λ e first. TellsAsGiven F.seat F.shares F.gives → IsKeptSince (kept_of e.kept e.pool.known.halted)
        (counted_in F.gives e.pool.overlay.source.frames e.pool.known) e.pool.overlay.source.count first
        (past_of V.files V.story (F.seat e.pool.overlay.source.frames)) };

    ghost fetched = { λ e. e.fetched };

    ghost causes = { λ e. e.causes };

    fn schema(&self) -> &Schema {
        self.kept.table.schema()
    }

    fn fetch(&mut self, rid: Rid) -> Result<Option<Stored>, ReadFault> {
        match self.kept.table.fetch(rid)? {
            None => Ok(None),
            Some(stored) => {
                self.fetched = self.fetched.saturating_add(1);
                Ok(Some(stored))
            }
        }
    }

    fn fetched(&self) -> u64 {
        self.fetched
    }

    fn causes(&self) -> Causes {
        self.causes
    }
}

impl<V: Volume, F: Frames<V> + Drop> Keeper for Engine<V, F> {
    ghost use Rattle.std.specs.Prelude.{refl};
    ghost use Rattle.ori_spec_data.specs.Base.{asks_commit};
    ghost use Rattle.ori_spec_data.specs.Apply.{IsFormed};
    ghost use Rattle.ori_spec_data.specs.Keeping.{Decides};
    ghost use Rattle.ori_model.specs.Data.{tx_of};
    ghost use Rattle.ori_model.specs.Decisions.{decision_of};
    ghost use Rattle.ori_model.specs.Standing.{Endures};
    ghost use Rattle.ori_engine.specs.States.{IsMarked};
    ghost use Rattle.ori_engine.specs.Works.{WorksOver};
    ghost use Rattle.ori_engine.specs.KeeperLaws.{front_is, doubt_is};

    ghost shows_base = { λ e. refl };

    ghost tells_all = { λ e. record { feed = λ told. refl; replays = tt } };

    ghost counts_feed = { λ e feed is. front_is e.kept.feed.items feed is };

    ghost doubts_late = { λ e entry is. e.doubts (doubt_is e.kept.doubt entry is) };

    ghost halts_late = { λ e at is. (e.halts at is).0 };

    fn front(&self) -> u64 {
        self.kept.feed.len() as u64
    }

    fn halted(&self) -> Option<u64> {
        self.pool.halted()
    }

    fn commit(&mut self, session: u8, tx: &Tx) -> Result<Done, CommitFault>
        requires { IsFormed (tx_of tx.now) }
        ensures decided { Decides (⟦<Engine<V, F> as Reader>⟧.state self.old) session (asks_commit (tx_of tx.now))
            (decision_of result) (⟦<Engine<V, F> as Reader>⟧.state self.new) }
        ensures endures { Endures ⟦<Engine<V, F> as Reader>⟧.sound ⟦<Engine<V, F> as Reader>⟧.lent
            ⟦<Engine<V, F> as Reader>⟧.below self.old self.new }
        ensures fetched { ⟦<Engine<V, F> as Reader>⟧.fetched self.new
            ≡ ⟦<Engine<V, F> as Reader>⟧.fetched self.old }
        ensures causes { ⟦<Engine<V, F> as Reader>⟧.causes self.new
            ≡ counted (decision_of result) (⟦<Engine<V, F> as Reader>⟧.causes self.old) }
        ensures marked { IsTold (λ told. IsMarked self.old.kept.marks.items self.new.kept.marks.items
            (V.moment told.device.volume) result) (F.seat self.new.pool.overlay.source.frames) }
        ensures unmarked { OnErr result (self.new.kept.marks.items ≡ self.old.kept.marks.items) }
        ensures works { WorksOver F.seat F.shares F.waits self.old.pool.overlay.source.frames
            self.new.pool.overlay.source.frames self.old.pool.known.halted self.new.pool.known.halted
            (decision_of result) }
    {
        match self.kept.commit(&mut self.pool, session, tx) {
            Ok(done) => Ok(done),
            Err(fault) => {
                self.causes = counts(self.causes, &fault);
                Err(fault)
            }
        }
    }
}
