// An engine is started.
ghost use Rattle.std.specs.Prelude.{◌≡◌, ◌+◌, ◌≤◌, ◌<◌, max, ℕ, List, length, true, Ok, Err, None, Some};
ghost use Rattle.std.specs.Prelude.{IfOk, IfErr, IfSome, OnOk, IsErrOf};
ghost use Rattle.ori_bytes.specs.declared.limits.TheConstants.{PARTITIONS};
ghost use Rattle.ori_volume.specs.declared.file.FileNo.{FileNo};
ghost use Rattle.ori_volume.specs.Causes.{Rose};
ghost use Rattle.ori_volume.specs.Story.{Tells};
ghost use Rattle.ori_spec_data.specs.Base.{BaseData};
ghost use Rattle.ori_log.specs.Files.{files_data};
ghost use Rattle.ori_rows.specs.Stage.{head_page, IsDatabase};
ghost use Rattle.ori_table.specs.Kept.{rows_of, AreKept};
ghost use Rattle.ori_pool.specs.declared.device.Device.{Device};
ghost use Rattle.ori_turns.specs.declared.opening.StartFault.{StartFault};
ghost use Rattle.ori_turns.specs.Seats.{HoldsNothing, IsTold, TurnHeld};
ghost use Rattle.ori_turns.specs.Caches.{Cache};
ghost use Rattle.ori_cache.specs.Reads.{ReadsDevice, ReadsFrames};
ghost use Rattle.ori_paged.specs.PageRows.{ArePagesOf, begun};
ghost use Rattle.ori_engine.specs.declared.fault.TableFault.{TableFault};
ghost use Rattle.ori_engine.specs.CacheRows.{GoesOnTelling, OpenedTo, counted_in};
ghost use Rattle.ori_engine.specs.Openings.{GivesAll, LeavesBase, no_causes};
ghost use Rattle.ori_engine.specs.Reading.{IsNoTable};
ghost use Rattle.ori_engine.specs.Reopening.{HasTailOf, past_of};
ghost use Rattle.ori_engine.specs.Starting.{FindsRows, IsOpenSince, BreaksForm};

use crate::fault::TableFault;
use crate::rows::read_table;
use ori_cache::Pool;
use ori_table::{Table, head_page};
use ori_turns::{Frames, StartFault};
use ori_volume::{FileNo, Volume};
use std::alloc::Global;

// Why an engine isn't started, by its table: pages that stand for no base break the form of Pages.
fn start_fault(fault: TableFault) -> StartFault
    ensures none { (file : FileNo) → result ≡ StartFault.NotADatabase file
        → (fault ≡ TableFault.NotATable) × (file ≡ FileNo.Pages) }
    ensures fault { result ≡ StartFault.Fault → fault ≡ TableFault.Device }
    ensures busy { (turn : ℕ) → result ≡ StartFault.Busy turn → fault ≡ TableFault.Busy turn }
{
    match fault {
        TableFault::Device => StartFault::Fault,
        TableFault::Busy { turn } => StartFault::Busy { turn },
        TableFault::NotATable => StartFault::NotADatabase {
            file: FileNo::Pages,
        },
        TableFault::NoMemory => StartFault::NoMemory,
    }
}

// Reads the rows of an opened cache in one operation, which is let go.
fn read_rows<V: Volume, F: Frames<V> + Drop>(
    alloc: Global,
    pool: &mut Pool<V, F>,
) -> Result<Table, TableFault>
    requires head { pool.old.overlay.changes.head ≡ head_page 1 }
    requires uncounted { pool.old.overlay.source.causes ≡ no_causes }
    ensures rows { IfOk result (λ table. (cache : Cache) → F.gives pool.old.overlay.source.frames cache
        → length cache.pages ≡ pool.old.overlay.source.count → ArePagesOf (rows_of table.0) cache.pages) }
    ensures none { IsErrOf result TableFault.NotATable → (cache : Cache) → F.gives pool.old.overlay.source.frames cache
        → length cache.pages ≡ pool.old.overlay.source.count → IsNoTable (begun cache.pages) }
    ensures reads { ReadsFrames F.seat F.gives F.shares F.waits
        (ReadsDevice V.files V.story V.moment V.faults V.log_faults) pool.old.overlay.source.frames
        pool.new.overlay.source.frames }
    ensures same { (pool.new.overlay.source.count ≡ pool.old.overlay.source.count)
        × (pool.new.known ≡ pool.old.known) × (pool.new.opening ≡ pool.old.opening)
        × (pool.new.overlay.changes.head ≡ pool.old.overlay.changes.head) }
    ensures cause { IsErrOf result TableFault.Device → Rose (F.seat pool.old.overlay.source.frames).last.faults
        (F.seat pool.new.overlay.source.frames).last.faults }
    ensures busy { (turn : ℕ) → IsErrOf result (TableFault.Busy turn) → TurnHeld turn
        (F.waits pool.old.overlay.source.frames) (F.waits pool.new.overlay.source.frames) }
{
    let mut op = pool.operation();
    read_table(alloc, &mut op)
}

/// The cache of a volume that is opened, and the rows of its pages. A refusal gives the turns back, none of which is
/// held. Whatever the answer, and whenever a crash comes, the files open to what they opened to before.
pub(crate) fn open_rows<V: Volume, F: Frames<V> + Drop>(
    alloc: Global,
    frames: F,
) -> Result<(Pool<V, F>, Table), (F, StartFault)>
    requires engine { (F.seat frames).engine ≡ true }
    requires closed { (F.seat frames).last.log ≡ None }
    requires free { HoldsNothing (F.seat frames) }
    ensures finds { IfOk result (λ both. GivesAll (F.gives frames) (past_of V.files V.story (F.seat frames))
        → (base : BaseData) → OpenedTo base (past_of V.files V.story (F.seat frames))
        → FindsRows (rows_of both.1.0) base) }
    ensures tail { IfOk result (λ both. GoesOnTelling F.seat F.shares
        → GivesAll (F.gives frames) (past_of V.files V.story (F.seat frames))
        → IfSome (past_of V.files V.story (F.seat frames)).files (λ files. HasTailOf files both.0.known.tail)) }
    ensures since { IfOk result (λ both. GoesOnTelling F.seat F.shares
        → GivesAll (F.gives frames) (past_of V.files V.story (F.seat frames))
        → IsOpenSince (rows_of both.1.0) (counted_in F.gives both.0.overlay.source.frames both.0.known)
        both.0.overlay.source.count
        (past_of V.files V.story (F.seat frames)) (past_of V.files V.story (F.seat both.0.overlay.source.frames))) }
    ensures since_end { IfOk result (λ both. GoesOnTelling F.seat F.shares
        → GivesAll (F.gives frames) (past_of V.files V.story (F.seat frames))
        → IsOpenSince (rows_of both.1.0) (counted_in F.gives both.0.overlay.source.frames both.0.known)
        both.0.overlay.source.count
        (past_of V.files V.story (F.seat both.0.overlay.source.frames))
        (past_of V.files V.story (F.seat both.0.overlay.source.frames))) }
    ensures database { OnOk result (GivesAll (F.gives frames) (past_of V.files V.story (F.seat frames))
        → IfSome (past_of V.files V.story (F.seat frames)).files (λ files. IsDatabase (files_data files))) }
    ensures unhalted { IfOk result (λ both. both.0.known.halted ≡ None) }
    ensures head { IfOk result (λ both. both.0.overlay.changes.head ≡ head_page 1) }
    ensures counts { IfOk result (λ both. ((F.seat frames).last.faults ≤ both.0.opening.faults)
        × (both.0.opening.faults ≤ (F.seat both.0.overlay.source.frames).last.faults)
        × (both.0.opening.log_faults ≡ (F.seat frames).last.log_faults)
        × ((F.seat both.0.overlay.source.frames).last.log_faults ≡ both.0.opening.log_faults)) }
    ensures moment { IfOk result (λ both. IsTold (λ told. both.0.opening.moment ≡ V.moment told.device.volume)
        (F.seat both.0.overlay.source.frames)) }
    ensures shares { IfOk result (λ both. F.shares frames both.0.overlay.source.frames) }
    ensures waits { IfOk result (λ both. F.waits frames ≤ F.waits both.0.overlay.source.frames) }
    ensures not_a_database { IfErr result (λ back. (file : FileNo) → back.1 ≡ StartFault.NotADatabase file
        → GivesAll (F.gives frames) (past_of V.files V.story (F.seat frames))
        → IfSome (past_of V.files V.story (F.seat frames)).files (λ files. IsDatabase (files_data files) → ⊥)) }
    ensures names { IfErr result (λ back. (file : FileNo) → back.1 ≡ StartFault.NotADatabase file
        → IfSome (past_of V.files V.story (F.seat frames)).files (λ files. BreaksForm files file)) }
    ensures refused { IfErr result (λ back. (file : FileNo) → back.1 ≡ StartFault.NotADatabase file
        → GoesOnTelling F.seat F.shares → GivesAll (F.gives frames) (past_of V.files V.story (F.seat frames))
        → (past_of V.files V.story (F.seat back.0)).files ≡ (past_of V.files V.story (F.seat frames)).files) }
    ensures left { IfErr result (λ back. GoesOnTelling F.seat F.shares
        → Tells LeavesBase (past_of V.files V.story (F.seat frames)).story
        (past_of V.files V.story (F.seat back.0)).story) }
    ensures back { IfErr result (λ back. F.shares frames back.0 × HoldsNothing (F.seat back.0)
        × ((F.seat back.0).engine ≡ true) × (F.waits frames ≤ F.waits back.0)) }
    ensures later { IfErr result (λ back. ((F.seat frames).last.faults ≤ (F.seat back.0).last.faults)
        × ((F.seat frames).last.log_faults ≤ (F.seat back.0).last.log_faults)) }
    ensures fault { IfErr result (λ back. back.1 ≡ StartFault.Fault
        → Rose (F.seat frames).last.faults (F.seat back.0).last.faults) }
    ensures busy { IfErr result (λ back. (turn : ℕ) → back.1 ≡ StartFault.Busy turn
        → TurnHeld turn (F.waits frames) (F.waits back.0)) }
{
    let Ok(head) = head_page(alloc, 1) else {
        return Err((frames, StartFault::NoMemory));
    };
    let mut pool = match Pool::start(alloc, frames, head) {
        Ok(pool) => pool,
        Err(back) => return Err(back),
    };
    match read_rows(alloc, &mut pool) {
        Ok(table) => {
            table.keeps();
            Ok((pool, table))
        }
        Err(fault) => Err((pool.end(), start_fault(fault))),
    }
}
