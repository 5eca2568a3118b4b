// A script over a volume, from its opening to its end.
ghost use Rattle.std.specs.Prelude.{◌≡◌, ◌≤◌, Option, Some, option_map};
ghost use Rattle.ori_volume.specs.Causes.{Rose};
ghost use Rattle.ori_volume.specs.Story.{Story};
ghost use Rattle.ori_model.specs.Data.{entry_of};
ghost use Rattle.ori_script.specs.Pasts.{nothing_earlier, earlier_of, IsReady};
ghost use Rattle.ori_script.specs.Reports.{report_of};
ghost use Rattle.ori_script.specs.Turns.{SaysDone};
ghost use Rattle.ori_script.specs.Openings.{VolumeData, volume_data, engine_data, TellsOne, Begins, HasRunOver};
ghost use Rattle.ori_script.specs.Top.{empty_report, outside, Crashes, Promises};

use crate::opening::{NotOpened, open_volume};
use crate::reopening::{Closed, close_run, reopen, start_status};
use crate::run::{Stop, run_lines};
use crate::{Past, Sessions, Sole, status};
use ori_bytes::NumberList;
use ori_engine::Engine;
use ori_model::{EntryList, Outcome, PlacedList, Reader, Report};
use ori_text::{LineReader, print, step_done_text};
use ori_turns::Owned;
use ori_volume::{Failed, Sink, Source, Volume};
use std::alloc::Global;

/// The report of no run; takes no memory.
pub fn no_report(alloc: Global) -> Report
    ensures nothing { report_of result ≡ empty_report }
    ensures still { (story : Option Story) → Crashes (report_of result) story story }
{
    Report {
        was_empty: false,
        history: EntryList::new(alloc),
        doubt: None,
        failed: PlacedList::new(alloc),
        marks: NumberList::new(alloc),
    }
}

// Prints that a step was done; the status of the run, where that ends it.
fn say_done<K: Sink>(alloc: Global, sink: &mut K) -> Option<u8>
    ensures said { SaysDone (K.taken sink.old) (K.taken sink.new) result }
    ensures later { K.faults sink.old ≤ K.faults sink.new }
    ensures cause { result ≡ Some 4 → Rose (K.faults sink.old) (K.faults sink.new) }
{
    let Ok(text) = step_done_text(alloc) else {
        return Some(status::NO_MEMORY);
    };
    match print(sink, text.as_str()) {
        Ok(()) => None,
        Err(Failed) => Some(status::SINK_FAILED),
    }
}

// The lines over one opening after the other, up to the end of the run.
fn run_openings<V: Volume, F: Sole<V> + Drop, S: Source, K: Sink>(
    alloc: Global,
    engine: Engine<V, F>,
    past: &mut Past,
    source: &mut S,
    sink: &mut K,
) -> Closed<V>
    requires first { earlier_of past.old ≡ nothing_earlier }
    requires ready { IsReady past.old (⟦<Engine<V, F> as Reader>⟧.state engine) }
    ensures over { let seen = volume_data V.files V.story V.faults V.log_faults in
        let knows = engine_data ⟦<Engine<V, F> as Reader>⟧.state ⟦<Engine<V, F> as Reader>⟧.causes
        ⟦<Engine<V, F> as Reader>⟧.sound in
        (entry : VolumeData) → TellsOne entry.told
        → Begins entry (knows engine) (seen (F.held engine.pool.overlay.source.frames))
        → HasRunOver entry (S.left source.old) (S.left source.new) (K.taken sink.old) (K.taken sink.new) result.status
        (earlier_of past.new) (option_map entry_of result.doubt) (seen result.volume) }
    ensures no_words { result.status ≡ 1 → ⊥ }
    ensures source_later { S.faults source.old ≤ S.faults source.new }
    ensures sink_later { K.faults sink.old ≤ K.faults sink.new }
    ensures source_cause { result.status ≡ 3 → Rose (S.faults source.old) (S.faults source.new) }
    ensures sink_cause { result.status ≡ 4 → Rose (K.faults sink.old) (K.faults sink.new) }
{
    let Ok(mut sessions) = Sessions::new(alloc) else {
        return close_run(status::NO_MEMORY, engine, past);
    };
    let Ok(mut reader) = LineReader::new(alloc) else {
        return close_run(status::NO_MEMORY, engine, past);
    };
    let mut engine = engine;
    'openings: loop {
        match run_lines(
            alloc,
            past,
            &mut sessions,
            &mut engine,
            &mut reader,
            source,
            sink,
        ) {
            Stop::Ended(status) => return close_run(status, engine, past),
            Stop::Reopens => {}
        }
        engine = match reopen(alloc, engine, past, &mut sessions) {
            Ok(engine) => engine,
            Err(closed) => return closed,
        };
        if let Some(status) = say_done(alloc, sink) {
            return close_run(status, engine, past);
        }
    }
}

/// Runs a script over a volume. The volume is opened: the files of an empty one are made, and of another the log is
/// read. Then lines are read and answered one after the other, each before the next is read. A line may ask for a
/// reopening: the sessions let go what they have open, the volume is opened again, and the tail of its log decides an
/// entry in doubt. The status is 0 at the end of the input; 2 where it is out of memory outside a statement; 3 where
/// the source failed, 4 the sink, 5 the volume while it was opened; 6 where its files aren't those of a database; 8 at
/// a line that is none of the forms; 9 at the line in which the first byte past 2^30 lies.
pub fn run_script<V: Volume, S: Source, K: Sink>(
    alloc: Global,
    volume: V,
    source: &mut S,
    sink: &mut K,
) -> Outcome<V>
    ensures promises { let seen = outside V.files V.story V.faults V.log_faults S.left S.faults K.taken K.faults in
        Promises (seen volume source.old sink.old) (seen result.volume source.new sink.new) result.status
        (report_of result.report) }
    ensures no_words { result.status ≡ 1 → ⊥ }
{
    let engine: Engine<V, Owned<V>> = match open_volume(alloc, volume) {
        Ok(engine) => engine,
        Err(NotOpened { fault, volume }) => {
            return Outcome {
                status: start_status(fault),
                volume,
                report: no_report(alloc),
            };
        }
    };
    let was_empty = engine.is_initial();
    let mut past = Past::new(alloc);
    let Closed {
        status,
        volume,
        doubt,
    } = run_openings(alloc, engine, &mut past, source, sink);
    Outcome {
        status,
        volume,
        report: past.report(was_empty, doubt),
    }
}
