// The top call.
ghost use Rattle.std.specs.Prelude.{◌≡◌, ◌↔◌, map, false, string_bytes};
ghost use Rattle.ori_script.specs.Reports.{report_of};
ghost use Rattle.ori_script.specs.Top.{outside, Promises};
ghost use Rattle.orient_run.specs.Words.{is_script};

use ori_model::Outcome;
use ori_script::{no_report, run_script, status};
use ori_volume::{Gate, Sink, Source, Volume};
use std::alloc::Global;

/// Whether the words are the one word `script`.
pub fn is_script_words(words: &[String]) -> bool
    ensures { result ≡ is_script (map (λ w. string_bytes w) words.now) }
{
    match words {
        [word] => word.as_str() == "script",
        _ => false,
    }
}

/// Runs the command that the words say, on one thread. It returns, whatever the volume, the source and the sink hold or
/// do.
///
/// The one command so far is `script`. The volume is opened: the files of an empty one are made, and of another the log
/// is read. Then lines are read and answered one after the other, each before the next is read. The status is 0 at the
/// end of the input; 1 for other words, before any call; 2 where it is out of memory outside a statement; 3 where the
/// source failed, 4 the sink, 5 the volume while it was opened; 6 where its files aren't those of a database; 8 at a
/// line that is none of the forms; 9 at the line in which the first byte past 2^30 lies.
pub fn orient_alone<V: Volume, S: Source, K: Sink>(
    alloc: Global,
    words: &[String],
    volume: V,
    source: &mut S,
    sink: &mut K,
) -> Outcome<V>
    // Status 1 comes exactly for other words than a command's, and then no call was made.
    ensures usage { (result.status ≡ 1) ↔ (is_script (map (λ w. string_bytes w) words.now) ≡ false) }
    ensures unused { result.status ≡ 1
        → (result.volume ≡ volume) × (source.new ≡ source.old) × (sink.new ≡ sink.old) }
    // What was read, answered and printed, the history, what a crash leaves, why the run ended, and the faults.
    ensures promises { let seen = outside V.files V.story V.faults V.log_faults S.left S.faults K.taken K.faults in
        Promises (seen volume source.old sink.old) (seen result.volume source.new sink.new) result.status
        (report_of result.report) }
{
    if !is_script_words(words) {
        return Outcome {
            status: status::WRONG_WORDS,
            volume,
            report: no_report(alloc),
        };
    }
    run_script(alloc, volume, source, sink)
}

/// Runs the command that the words say. As `orient_alone`, whose clauses it has: no command runs on threads so far, and
/// no gate is passed.
pub fn orient<V: Volume + Send, S: Source, K: Sink, G: Gate + Sync>(
    alloc: Global,
    words: &[String],
    volume: V,
    source: &mut S,
    sink: &mut K,
    _gate: &G,
) -> Outcome<V>
    ensures usage { (result.status ≡ 1) ↔ (is_script (map (λ w. string_bytes w) words.now) ≡ false) }
    ensures unused { result.status ≡ 1
        → (result.volume ≡ volume) × (source.new ≡ source.old) × (sink.new ≡ sink.old) }
    ensures promises { let seen = outside V.files V.story V.faults V.log_faults S.left S.faults K.taken K.faults in
        Promises (seen volume source.old sink.old) (seen result.volume source.new sink.new) result.status
        (report_of result.report) }
{
    orient_alone(alloc, words, volume, source, sink)
}
