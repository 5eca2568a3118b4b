// The engine over the only handle of a volume's turns, from its opening to its end.
ghost use Rattle.std.specs.Prelude.{◌≡◌, ◌≤◌, ℕ, length, Some, option_map, IfOk, IfErr, IfSome, OnOk};
ghost use Rattle.ori_volume.specs.Causes.{Rose};
ghost use Rattle.ori_volume.specs.Story.{Tells};
ghost use Rattle.ori_volume.specs.declared.file.FileNo.{FileNo};
ghost use Rattle.ori_spec_data.specs.Base.{BaseData};
ghost use Rattle.ori_spec_data.specs.Limits.{FoundData};
ghost use Rattle.ori_log.specs.Files.{files_data};
ghost use Rattle.ori_rows.specs.Stage.{IsDatabase};
ghost use Rattle.ori_turns.specs.declared.opening.StartFault.{StartFault};
ghost use Rattle.ori_model.specs.Data.{entries_of};
ghost use Rattle.ori_model.specs.Standing.{PastData};
ghost use Rattle.ori_engine.specs.Doubts.{doubt_of, entry_in_doubt};
ghost use Rattle.ori_engine.specs.Reopening.{HasTailOf, ReopensSince, LeavesAll, OpensWhole, told_now};
ghost use Rattle.ori_engine.specs.Openings.{IsStarted, IsFresh, LeavesBase, Survives, IsOpenedSince, no_causes};
ghost use Rattle.ori_engine.specs.Openings.{IsCounted};
ghost use Rattle.ori_engine.specs.CacheRows.{OpenedTo};
ghost use Rattle.ori_script.specs.Founds.{Finds};

use crate::Sole;
use ori_bytes::NumberList;
use ori_engine::{Doubt, Ended, Engine, Unopened};
use ori_model::{EntryList, Reader};
use ori_turns::StartFault;
use ori_volume::Volume;
use std::alloc::Global;

/// A volume that wasn't opened, and why.
#[derive(Drop)]
pub(crate) struct NotOpened<V: Volume> {
    pub fault: StartFault,
    pub volume: V,
}

/// What is left of an opening: the volume, the entries since then with the moments at which they were acknowledged,
/// and the entry in doubt.
#[derive(Drop)]
pub(crate) struct EndedVolume<V: Volume> {
    pub volume: V,
    pub feed: EntryList,
    pub marks: NumberList,
    pub doubt: Option<Doubt>,
}

/// Opens a volume, whose turns are this engine's alone.
pub(crate) fn open_volume<V: Volume, F: Sole<V> + Drop>(
    alloc: Global,
    volume: V,
) -> Result<Engine<V, F>, NotOpened<V>>
    ensures found { IfOk result (λ e. (found : FoundData) → Finds (V.files volume) found
        → IsStarted found (⟦<Engine<V, F> as Reader>⟧.state e)) }
    ensures tail { IfOk result (λ e. IfSome (V.files volume) (λ fs. HasTailOf fs e.pool.known.tail)) }
    ensures fresh { IfOk result (λ e. IsFresh (⟦<Engine<V, F> as Reader>⟧.state e)) }
    ensures database { OnOk result (IfSome (V.files volume) (λ fs. IsDatabase (files_data fs))) }
    ensures not_a_database { IfErr result (λ u. (file : FileNo) → u.fault ≡ StartFault.NotADatabase file
        → IfSome (V.files volume) (λ fs. IsDatabase (files_data fs) → ⊥)) }
    ensures refused { IfErr result (λ u. (file : FileNo) → u.fault ≡ StartFault.NotADatabase file
        → V.files u.volume ≡ V.files volume) }
    ensures sound { IfOk result (λ e. ⟦<Engine<V, F> as Reader>⟧.sound e
        (told_now (V.files volume) (V.story volume))) }
    ensures since_end { IfOk result (λ e. ⟦<Engine<V, F> as Reader>⟧.sound e
        (told_now (V.files (F.held e.pool.overlay.source.frames))
        (V.story (F.held e.pool.overlay.source.frames)))) }
    ensures whole { IfOk result (λ e. Tells OpensWhole (V.story volume)
        (V.story (F.held e.pool.overlay.source.frames))) }
    ensures left { IfErr result (λ u. Tells LeavesBase (V.story volume) (V.story u.volume)) }
    ensures since { IfOk result (λ e. IsOpenedSince (V.faults volume) (V.log_faults volume)
        (⟦<Engine<V, F> as Reader>⟧.state e).opening) }
    ensures moment { IfOk result (λ e. (⟦<Engine<V, F> as Reader>⟧.state e).opening.moment
        ≡ V.moment (F.held e.pool.overlay.source.frames)) }
    ensures later { IfErr result (λ u. V.faults volume ≤ V.faults u.volume) }
    ensures log_later { IfErr result (λ u. V.log_faults volume ≤ V.log_faults u.volume) }
    ensures fault { IfErr result (λ u. u.fault ≡ StartFault.Fault → Rose (V.faults volume) (V.faults u.volume)) }
    ensures alone { IfErr result (λ u. (turn : ℕ) → u.fault ≡ StartFault.Busy turn → ⊥) }
    ensures causes { IfOk result (λ e. ⟦<Engine<V, F> as Reader>⟧.causes e ≡ no_causes) }
{
    let turns: F = match F::of(alloc, volume) {
        Ok(turns) => turns,
        Err((volume, _)) => {
            return Err(NotOpened {
                fault: StartFault::NoMemory,
                volume,
            });
        }
    };
    match Engine::start(alloc, turns) {
        Ok(engine) => Ok(engine),
        Err(Unopened { fault, frames }) => Err(NotOpened {
            fault,
            volume: frames.volume(),
        }),
    }
}

/// Gives the volume back, and what was kept. Since any moment for which the engine is sound a crash leaves a prefix of
/// the feed with each entry that has its mark by then, or all of it and the entry in doubt; now it leaves all of it, or
/// that, and so do the files as they read.
pub(crate) fn end_volume<V: Volume, F: Sole<V> + Drop>(engine: Engine<V, F>) -> EndedVolume<V>
    ensures one_each { length result.marks ≡ length result.feed }
    ensures feed { (⟦<Engine<V, F> as Reader>⟧.state engine).feed ≡ Some (entries_of result.feed) }
    ensures doubt { (⟦<Engine<V, F> as Reader>⟧.state engine).doubt
        ≡ entry_in_doubt (option_map doubt_of result.doubt) }
    ensures counts { IsCounted (⟦<Engine<V, F> as Reader>⟧.state engine)
        (⟦<Engine<V, F> as Reader>⟧.causes engine) (V.faults result.volume) (V.log_faults result.volume) }
    ensures crash { (first : PastData) (base : BaseData) → ⟦<Engine<V, F> as Reader>⟧.sound engine first
        → OpenedTo base first → Tells (Survives (entries_of result.feed)
        (entry_in_doubt (option_map doubt_of result.doubt)) result.marks) first.story (V.story result.volume) }
    ensures now { (first : PastData) (base : BaseData) → ⟦<Engine<V, F> as Reader>⟧.sound engine first
        → OpenedTo base first → Tells (LeavesAll (⟦<Engine<V, F> as Reader>⟧.state engine)
        (entries_of result.feed)) first.story (V.story result.volume) }
    ensures reads { (first : PastData) → ⟦<Engine<V, F> as Reader>⟧.sound engine first
        → ReopensSince (⟦<Engine<V, F> as Reader>⟧.state engine) (option_map doubt_of result.doubt) first
        (V.files result.volume) }
{
    let Ended {
        frames,
        feed,
        marks,
        doubt,
    } = engine.end();
    EndedVolume {
        volume: frames.volume(),
        feed,
        marks,
        doubt,
    }
}
