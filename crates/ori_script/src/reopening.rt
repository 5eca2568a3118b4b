// The end of an opening, and the next one.
ghost use Rattle.std.specs.Prelude.{◌≡◌, ◌⊎◌, ℕ, Option, IsSome, option_map, replicate, IfOk, IfErr, OnOk};
ghost use Rattle.ori_bytes.specs.declared.limits.TheConstants.{MAX_SESSIONS};
ghost use Rattle.ori_spec_runs.specs.Answer.{closed};
ghost use Rattle.ori_volume.specs.declared.file.FileNo.{FileNo};
ghost use Rattle.ori_turns.specs.declared.opening.StartFault.{StartFault};
ghost use Rattle.ori_model.specs.Data.{entry_of};
ghost use Rattle.ori_engine.specs.Doubts.{DoubtData, doubt_of, entry_in_doubt};
ghost use Rattle.ori_script.specs.Pasts.{earlier_of, IsReady, HasRoom, HasPlace, doubt_count};
ghost use Rattle.ori_script.specs.Keeping.{sessions_of};
ghost use Rattle.ori_script.specs.Openings.{volume_data, engine_data, HasClosed, FailsToReopen, ComesToNext};
ghost use Rattle.ori_script.specs.Openings.{decided_by};

use crate::opening::{EndedVolume, NotOpened, end_volume, open_volume};
use crate::{Past, Sessions, Sole, status};
use ori_bytes::NoMemory;
use ori_engine::{Doubt, Engine};
use ori_model::{Entry, Reader};
use ori_turns::StartFault;
use ori_volume::Volume;
use std::alloc::Global;

/// A run that has come to its end: its status, the volume, and the entry in doubt.
#[derive(Drop)]
pub(crate) struct Closed<V: Volume> {
    pub status: u8,
    pub volume: V,
    pub doubt: Option<Entry>,
}

/// What an opening leaves.
#[derive(Drop)]
pub(crate) struct Left<V: Volume> {
    pub volume: V,
    pub doubt: Option<Doubt>,
}

/// The status of a volume that wasn't opened.
pub(crate) fn start_status(fault: StartFault) -> u8
    requires alone { (turn : ℕ) → fault ≡ StartFault.Busy turn → ⊥ }
    ensures volume { result ≡ 5 → fault ≡ StartFault.Fault }
    ensures form { result ≡ 6 → (file : FileNo) × (fault ≡ StartFault.NotADatabase file) }
    ensures why { (result ≡ 2) ⊎ (result ≡ 5) ⊎ (result ≡ 6) }
{
    match fault {
        StartFault::Fault => status::VOLUME_FAILED,
        StartFault::NotADatabase { .. } => status::NOT_A_DATABASE,
        StartFault::NoMemory => status::NO_MEMORY,
        StartFault::Busy { .. } => unreachable!(),
    }
}

/// A copy of the entry in doubt, where one is.
pub(crate) fn copy_doubt<V: Volume, F: Sole<V> + Drop>(
    engine: &Engine<V, F>,
) -> Result<Option<Entry>, NoMemory>
    ensures { IfOk result (λ copy. option_map entry_of copy ≡ (⟦<Engine<V, F> as Reader>⟧.state engine.now).doubt) }
{
    match engine.doubt() {
        None => Ok(None),
        Some(doubt) => Ok(Some(doubt.entry.copy()?)),
    }
}

/// Ends an opening: its entries and their marks join those of the earlier ones, for which there is room. Takes no
/// memory.
pub(crate) fn close<V: Volume, F: Sole<V> + Drop>(engine: Engine<V, F>, past: &mut Past) -> Left<V>
    requires { IsReady past.old (⟦<Engine<V, F> as Reader>⟧.state engine) }
    ensures closed { let seen = volume_data V.files V.story V.faults V.log_faults in
        HasClosed (engine_data ⟦<Engine<V, F> as Reader>⟧.state ⟦<Engine<V, F> as Reader>⟧.causes
        ⟦<Engine<V, F> as Reader>⟧.sound engine) (earlier_of past.old) (earlier_of past.new)
        (option_map doubt_of result.doubt) (seen result.volume) }
    ensures room { HasRoom past.new (doubt_count (⟦<Engine<V, F> as Reader>⟧.state engine).doubt) }
    ensures place { IsSome (⟦<Engine<V, F> as Reader>⟧.state engine).doubt → HasPlace past.new }
{
    engine.keeps();
    let EndedVolume {
        volume,
        feed,
        marks,
        doubt,
    } = end_volume(engine);
    past.take(feed, marks);
    Left { volume, doubt }
}

// The entry alone.
fn entry_alone(doubt: Option<Doubt>) -> Option<Entry>
    ensures { option_map entry_of result ≡ entry_in_doubt (option_map doubt_of doubt) }
{
    match doubt {
        None => None,
        Some(Doubt { entry, .. }) => Some(entry),
    }
}

/// Ends a run with an opening.
pub(crate) fn close_run<V: Volume, F: Sole<V> + Drop>(
    status: u8,
    engine: Engine<V, F>,
    past: &mut Past,
) -> Closed<V>
    requires { IsReady past.old (⟦<Engine<V, F> as Reader>⟧.state engine) }
    ensures status { result.status ≡ status }
    ensures closed { let seen = volume_data V.files V.story V.faults V.log_faults in
        (doubt : Option DoubtData) × (option_map entry_of result.doubt ≡ entry_in_doubt doubt)
        × HasClosed (engine_data ⟦<Engine<V, F> as Reader>⟧.state ⟦<Engine<V, F> as Reader>⟧.causes
        ⟦<Engine<V, F> as Reader>⟧.sound engine) (earlier_of past.old) (earlier_of past.new) doubt
        (seen result.volume) }
{
    let Left { volume, doubt } = close(engine, past);
    Closed {
        status,
        volume,
        doubt: entry_alone(doubt),
    }
}

// The entry in doubt is decided, where there is one: it was found where the tail has as many records as with it. There
// is room for it, and a copy.
fn decide(past: &mut Past, doubt: Option<Doubt>, copy: Option<Entry>, tail: u64, opened: u64)
    requires room { HasRoom past.old (doubt_count (option_map entry_of copy)) }
    requires place { IsSome copy → HasPlace past.old }
    requires same { option_map entry_of copy ≡ entry_in_doubt (option_map doubt_of doubt) }
    ensures decided { earlier_of past.new ≡ decided_by (earlier_of past.old) (option_map doubt_of doubt) tail opened }
    ensures left { HasRoom past.new 0 }
{
    if let Some(
        Doubt {
            tail: with_it,
            entry,
        },
    ) = doubt
    {
        if let Some(copy) = copy {
            past.decide(entry, copy, tail == with_it, opened);
        }
    }
}

/// Ends an opening and comes to the next one, whose sessions have nothing open; or to the end of the run, where that
/// fails. Memory is taken before the opening ends, but for what the next one takes.
pub(crate) fn reopen<V: Volume, F: Sole<V> + Drop>(
    alloc: Global,
    engine: Engine<V, F>,
    past: &mut Past,
    sessions: &mut Sessions,
) -> Result<Engine<V, F>, Closed<V>>
    requires { IsReady past.old (⟦<Engine<V, F> as Reader>⟧.state engine) }
    ensures goes { let seen = volume_data V.files V.story V.faults V.log_faults in
        let knows = engine_data ⟦<Engine<V, F> as Reader>⟧.state ⟦<Engine<V, F> as Reader>⟧.causes
        ⟦<Engine<V, F> as Reader>⟧.sound in
        IfOk result (λ next. ComesToNext (knows engine) (earlier_of past.old) (earlier_of past.new) (knows next)
        (seen (F.held next.pool.overlay.source.frames))) }
    ensures ready { IfOk result (λ next. IsReady past.new (⟦<Engine<V, F> as Reader>⟧.state next)) }
    ensures closed { OnOk result (sessions_of sessions.new ≡ replicate MAX_SESSIONS closed) }
    ensures fails { let seen = volume_data V.files V.story V.faults V.log_faults in
        let knows = engine_data ⟦<Engine<V, F> as Reader>⟧.state ⟦<Engine<V, F> as Reader>⟧.causes
        ⟦<Engine<V, F> as Reader>⟧.sound in
        IfErr result (λ end. FailsToReopen (knows engine) (earlier_of past.old) (earlier_of past.new) end.status
        (option_map entry_of end.doubt) (seen end.volume)) }
{
    let Ok(copy) = copy_doubt(&engine) else {
        return Err(close_run(status::NO_MEMORY, engine, past));
    };
    let Ok(fresh) = Sessions::new(alloc) else {
        return Err(close_run(status::NO_MEMORY, engine, past));
    };
    let Left { volume, doubt } = close(engine, past);
    let engine = match open_volume(alloc, volume) {
        Ok(engine) => engine,
        Err(NotOpened { fault, volume }) => {
            return Err(Closed {
                status: start_status(fault),
                volume,
                doubt: entry_alone(doubt),
            });
        }
    };
    decide(past, doubt, copy, engine.tail(), engine.opened());
    *sessions = fresh;
    Ok(engine)
}
