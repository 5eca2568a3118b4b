// The lines of a script: each is read, answered and printed before the next.
ghost use Rattle.std.specs.Prelude.{◌≡◌, ◌≤◌, ◌<◌, Option, List, ℕ};
ghost use Rattle.ori_bytes.specs.declared.limits.TheConstants.{MAX_INPUT_BYTES};
ghost use Rattle.ori_volume.specs.Causes.{Rose};
ghost use Rattle.ori_volume.specs.Disk.{Files};
ghost use Rattle.ori_text.specs.LineReading.{line_of};
ghost use Rattle.ori_engine.specs.Openings.{StaysOpen};
ghost use Rattle.ori_script.specs.Pasts.{earlier_of, IsReady};
ghost use Rattle.ori_script.specs.Keeping.{IsOfSession, kept};
ghost use Rattle.ori_script.specs.Script.{PassedData, GoesOn};
ghost use Rattle.ori_script.specs.Turns.{TurnsBy, IsTurned, IsStopped, fault_status};

use crate::{Database, Past, Sessions, answer, status};
use ori_bytes::NoMemory;
use ori_text::{Line, LineFault, LineReader, print};
use ori_volume::{Failed, Sink, Source};
use std::alloc::Global;

// What a line of input led to.
#[derive(Clone, Copy, Debug, PartialEq, Eq)]
pub(crate) enum Turn {
    // It has its answer, which was printed.
    Answered,
    // It asks for a reopening.
    Reopens,
    // The run ends with this status.
    Ended(u8),
}

// Where the lines of an opening end.
#[derive(Clone, Copy, Debug, PartialEq, Eq)]
pub(crate) enum Stop {
    // At a line that asks for a reopening.
    Reopens,
    // At the end of the run, with this status.
    Ended(u8),
}

// The status of a run that a fault of a line ends.
fn status_of(fault: LineFault) -> u8
    ensures { result ≡ fault_status fault }
{
    match fault {
        LineFault::NoMemory => status::NO_MEMORY,
        LineFault::Source => status::SOURCE_FAILED,
        LineFault::Bad => status::BAD_LINE,
        LineFault::TooLarge => status::INPUT_TOO_LARGE,
    }
}

// Answers a line that was read, and prints the answer.
fn answer_line<D: Database, K: Sink>(
    alloc: Global,
    past: &mut Past,
    sessions: &mut Sessions,
    database: &mut D,
    line: &Line,
    sink: &mut K,
) -> Turn
    requires { IsOfSession (line_of line.now) }
    ensures answered { let keeps = kept D.state D.causes in
        TurnsBy (keeps past.old database.old sessions.old) (line_of line.now) (K.taken sink.old) (K.taken sink.new)
        result (keeps past.new database.new sessions.new) }
    ensures same { earlier_of past.new ≡ earlier_of past.old }
    ensures ready { IsReady past.old (D.state database.old) → IsReady past.new (D.state database.new) }
    ensures stays { StaysOpen D.state D.sound database.old database.new }
    ensures no_other { result ≡ Turn.Ended 3 → ⊥ }
    ensures no_opening { (result ≡ Turn.Ended 5 → ⊥) × (result ≡ Turn.Ended 6 → ⊥) × (result ≡ Turn.Ended 1 → ⊥) }
    ensures later { K.faults sink.old ≤ K.faults sink.new }
    ensures cause { result ≡ Turn.Ended 4 → Rose (K.faults sink.old) (K.faults sink.new) }
{
    let text = match answer(alloc, past, sessions, database, line) {
        Ok(Some(text)) => text,
        Ok(None) => return Turn::Reopens,
        Err(NoMemory) => return Turn::Ended(status::NO_MEMORY),
    };
    match print(sink, text.as_str()) {
        Ok(()) => Turn::Answered,
        Err(Failed) => Turn::Ended(status::SINK_FAILED),
    }
}

// Reads a line and answers it.
fn take_turn<D: Database, S: Source, K: Sink>(
    alloc: Global,
    past: &mut Past,
    sessions: &mut Sessions,
    database: &mut D,
    reader: &mut LineReader,
    source: &mut S,
    sink: &mut K,
) -> Turn
    requires { reader.old.given ≤ MAX_INPUT_BYTES }
    ensures turned { let keeps = kept D.state D.causes in
        (files : Option Files) (passed : PassedData) (left taken : Option (List ℕ))
        → GoesOn files passed left (S.left source.old) taken (K.taken sink.old) reader.old
        (keeps past.old database.old sessions.old)
        → IsTurned files passed left (S.left source.new) taken (K.taken sink.new) reader.new
        (keeps past.new database.new sessions.new) result }
    ensures same { earlier_of past.new ≡ earlier_of past.old }
    ensures ready { IsReady past.old (D.state database.old) → IsReady past.new (D.state database.new) }
    ensures stays { StaysOpen D.state D.sound database.old database.new }
    ensures further { result ≡ Turn.Answered
        → (reader.old.given < reader.new.given) × (reader.new.given ≤ MAX_INPUT_BYTES) }
    ensures further_too { result ≡ Turn.Reopens
        → (reader.old.given < reader.new.given) × (reader.new.given ≤ MAX_INPUT_BYTES) }
    ensures no_opening { (result ≡ Turn.Ended 5 → ⊥) × (result ≡ Turn.Ended 6 → ⊥) × (result ≡ Turn.Ended 1 → ⊥) }
    ensures source_later { S.faults source.old ≤ S.faults source.new }
    ensures sink_later { K.faults sink.old ≤ K.faults sink.new }
    ensures source_cause { result ≡ Turn.Ended 3 → Rose (S.faults source.old) (S.faults source.new) }
    ensures sink_cause { result ≡ Turn.Ended 4 → Rose (K.faults sink.old) (K.faults sink.new) }
{
    match reader.next(alloc, source) {
        Ok(Some(line)) => answer_line(alloc, past, sessions, database, &line, sink),
        Ok(None) => Turn::Ended(status::INPUT_ENDED),
        Err(fault) => Turn::Ended(status_of(fault)),
    }
}

/// Reads lines and answers each before the next is read, up to the end of the input, to what ends the run before, or to
/// a line that asks for a reopening.
pub(crate) fn run_lines<D: Database, S: Source, K: Sink>(
    alloc: Global,
    past: &mut Past,
    sessions: &mut Sessions,
    database: &mut D,
    reader: &mut LineReader,
    source: &mut S,
    sink: &mut K,
) -> Stop
    requires { reader.old.given ≤ MAX_INPUT_BYTES }
    ensures run { let keeps = kept D.state D.causes in
        (files : Option Files) (passed : PassedData) (left taken : Option (List ℕ))
        → GoesOn files passed left (S.left source.old) taken (K.taken sink.old) reader.old
        (keeps past.old database.old sessions.old)
        → IsStopped files passed left (S.left source.new) taken (K.taken sink.new) reader.new
        (keeps past.new database.new sessions.new) result }
    ensures same { earlier_of past.new ≡ earlier_of past.old }
    ensures ready { IsReady past.old (D.state database.old) → IsReady past.new (D.state database.new) }
    ensures stays { StaysOpen D.state D.sound database.old database.new }
    ensures further { result ≡ Stop.Reopens
        → (reader.old.given < reader.new.given) × (reader.new.given ≤ MAX_INPUT_BYTES) }
    ensures no_opening { (result ≡ Stop.Ended 5 → ⊥) × (result ≡ Stop.Ended 6 → ⊥) × (result ≡ Stop.Ended 1 → ⊥) }
    ensures source_later { S.faults source.old ≤ S.faults source.new }
    ensures sink_later { K.faults sink.old ≤ K.faults sink.new }
    ensures source_cause { result ≡ Stop.Ended 3 → Rose (S.faults source.old) (S.faults source.new) }
    ensures sink_cause { result ≡ Stop.Ended 4 → Rose (K.faults sink.old) (K.faults sink.new) }
{
    'lines: loop {
        match take_turn(alloc, past, sessions, database, reader, source, sink) {
            Turn::Answered => {}
            Turn::Reopens => return Stop::Reopens,
            Turn::Ended(status) => return Stop::Ended(status),
        }
    }
}
