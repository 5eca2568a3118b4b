// What the sessions and the database of a run answer to a line.
ghost use Rattle.std.specs.Prelude.{◌≤◌, ◌<◌, ◌≡◌, ◌+◌, ℕ, [], ◌∷◌, IfOk, OnOk, IsErrOf};
ghost use Rattle.ori_bytes.specs.declared.limits.TheConstants.{MAX_SESSIONS, PARTITIONS};
ghost use Rattle.ori_pool.specs.declared.fault.TendFault.{TendFault};
ghost use Rattle.ori_spec_texts.specs.Line.{statement, flush, settle, checkpoint};
ghost use Rattle.ori_spec_data.specs.Replies.{refused, unbuilt};
ghost use Rattle.ori_spec_texts.specs.Reply.{to_session, answer_text};
ghost use Rattle.ori_model.specs.Replies.{reply_of, refusal_of};
ghost use Rattle.ori_text.specs.LineReading.{step_of, line_of};
ghost use Rattle.ori_engine.specs.Openings.{StaysOpen};
ghost use Rattle.ori_script.specs.declared.past.Past.{Past};
ghost use Rattle.ori_script.specs.Pasts.{earlier_of, HasRoom, HasPlace, IsReady};
ghost use Rattle.ori_script.specs.Keeping.{kept, store_behind, IsOfPart, IsOfSession, IsStepped, IsStepOf, StepAnswers};
ghost use Rattle.ori_script.specs.Keeping.{IsAnswered, Answers, tended, printed};

use crate::{Database, Past, Sessions};
use ori_bytes::{NoMemory, Text};
use ori_model::{Refusal, Reply, RidPairList, RowList};
use ori_pool::TendFault;
use ori_text::{Line, StepLine, history_text, reply_text, step_done_text, step_refusal_text};
use std::alloc::Global;

// The reply that a statement is refused.
fn refusal_reply(alloc: Global, why: Refusal) -> Reply
    ensures { reply_of result ≡ refused (refusal_of why) }
{
    Reply {
        rows: RowList::new(alloc),
        temps: RidPairList::new(alloc),
        told: Err(why),
        read_front: 0,
        commit_front: None,
    }
}

// Makes room for the entries since the opening and one more, so that they can join those of earlier openings.
fn make_room<D: Database>(past: &mut Past, database: &D) -> Result<(), NoMemory>
    ensures same { earlier_of past.new ≡ earlier_of past.old }
    ensures room { OnOk result (HasRoom past.new ((D.state database.now).front + 1)) }
    ensures place { OnOk result (HasPlace past.new) }
    ensures ready { IsReady past.old (D.state database.now) → IsReady past.new (D.state database.now) }
{
    database.is_told();
    past.make_room(database.entries().len() + 1)
}

// Does a session's statement over the database, where there is room for the entry that it may make.
fn tell<D: Database>(
    alloc: Global,
    past: &mut Past,
    sessions: &mut Sessions,
    database: &mut D,
    session: u8,
    text: &str,
) -> Reply
    requires first { 1 ≤ session }
    requires last { session ≤ MAX_SESSIONS }
    ensures stepped { let keeps = kept D.state D.causes in
        IsStepped (keeps past.old database.old sessions.old) (statement session text.now)
        (to_session session (reply_of result ∷ [])) (keeps past.new database.new sessions.new) }
    ensures same { earlier_of past.new ≡ earlier_of past.old }
    ensures ready { IsReady past.old (D.state database.old) → IsReady past.new (D.state database.new) }
    ensures stays { StaysOpen D.state D.sound database.old database.new }
{
    if make_room(past, database).is_err() {
        return refusal_reply(alloc, Refusal::NoMemory);
    }
    database.is_told();
    let reply = sessions.exec(alloc, database, session, text);
    database.is_told();
    reply
}

// The answer to a session's statement.
fn statement_text<D: Database>(
    alloc: Global,
    past: &mut Past,
    sessions: &mut Sessions,
    database: &mut D,
    session: u8,
    text: &str,
) -> Result<Text, NoMemory>
    requires first { 1 ≤ session }
    requires last { session ≤ MAX_SESSIONS }
    ensures answered { let keeps = kept D.state D.causes in
        IsAnswered (keeps past.old database.old sessions.old) (statement session text.now) result
        (keeps past.new database.new sessions.new) }
    ensures same { earlier_of past.new ≡ earlier_of past.old }
    ensures ready { IsReady past.old (D.state database.old) → IsReady past.new (D.state database.new) }
    ensures stays { StaysOpen D.state D.sound database.old database.new }
{
    let reply = tell(alloc, past, sessions, database, session, text);
    reply_text(alloc, session, &reply, false)
}

// The answer to a statement that is to be tried several times, which can't be done yet.
fn tries_text(alloc: Global, session: u8) -> Result<Text, NoMemory>
    ensures { IfOk result (λ t. t ≡ answer_text (to_session session (refused unbuilt ∷ []))) }
{
    let reply = refusal_reply(alloc, Refusal::Unbuilt);
    reply_text(alloc, session, &reply, false)
}

// It is to be printed.
fn to_print(text: Result<Text, NoMemory>) -> Result<Option<Text>, NoMemory>
    ensures { result ≡ printed text }
{
    match text {
        Ok(text) => Ok(Some(text)),
        Err(fault) => Err(fault),
    }
}

// The text of what work on the homes and the log was answered.
fn tended_text(alloc: Global, done: Result<(), TendFault>) -> Result<Text, NoMemory>
    requires alone { (turn : ℕ) → IsErrOf done (TendFault.Busy turn) → ⊥ }
    ensures { IfOk result (λ t. t ≡ answer_text (tended done)) }
{
    match done {
        Ok(()) => step_done_text(alloc),
        Err(TendFault::Fault) => step_refusal_text(alloc, &Refusal::Fault),
        Err(TendFault::Halted { at_fault }) => step_refusal_text(
            alloc,
            &Refusal::Halted { at_fault },
        ),
        Err(TendFault::Busy { .. }) => unreachable!(),
    }
}

// It was done, whether a page was written or not.
fn flushed(done: Result<bool, TendFault>) -> Result<(), TendFault>
    ensures told { tended result ≡ tended done }
    ensures why { (fault : TendFault) → IsErrOf result fault → IsErrOf done fault }
{
    match done {
        Ok(_) => Ok(()),
        Err(fault) => Err(fault),
    }
}

// Writes a page of a partition home, where one is unwritten.
fn flush_text<D: Database>(alloc: Global, database: &mut D, part: u8) -> Result<Text, NoMemory>
    requires { part < PARTITIONS }
    ensures answered { IsStepOf (D.state database.old) (D.causes database.old) (flush part) result
        (D.state database.new) (D.causes database.new) }
    ensures ready { (past : Past) → IsReady past (D.state database.old) → IsReady past (D.state database.new) }
    ensures stays { StaysOpen D.state D.sound database.old database.new }
{
    let done = database.flush(part);
    tended_text(alloc, flushed(done))
}

// Makes the homes firm.
fn settle_text<D: Database>(alloc: Global, database: &mut D) -> Result<Text, NoMemory>
    ensures answered { IsStepOf (D.state database.old) (D.causes database.old) settle result
        (D.state database.new) (D.causes database.new) }
    ensures ready { (past : Past) → IsReady past (D.state database.old) → IsReady past (D.state database.new) }
    ensures stays { StaysOpen D.state D.sound database.old database.new }
{
    let done = database.settle();
    tended_text(alloc, done)
}

// Empties the log behind the homes.
fn checkpoint_text<D: Database>(alloc: Global, database: &mut D) -> Result<Text, NoMemory>
    ensures answered { IsStepOf (D.state database.old) (D.causes database.old) checkpoint result
        (D.state database.new) (D.causes database.new) }
    ensures ready { (past : Past) → IsReady past (D.state database.old) → IsReady past (D.state database.new) }
    ensures stays { StaysOpen D.state D.sound database.old database.new }
{
    let done = database.checkpoint();
    tended_text(alloc, done)
}

// The answer to a step of the store. `None` for a reopening, before which the opening ends.
fn step_text<D: Database>(
    alloc: Global,
    past: &Past,
    database: &mut D,
    step: &StepLine,
) -> Result<Option<Text>, NoMemory>
    requires { IsOfPart (step_of step.now) }
    ensures answered { StepAnswers (store_behind (earlier_of past.now) (D.state database.old) (D.causes database.old))
        (step_of step.now) result
        (store_behind (earlier_of past.now) (D.state database.new) (D.causes database.new)) }
    ensures ready { IsReady past.now (D.state database.old) → IsReady past.now (D.state database.new) }
    ensures stays { StaysOpen D.state D.sound database.old database.new }
{
    match step {
        StepLine::History => to_print(history_text(alloc, past.entries(), database.entries())),
        StepLine::Reopen => Ok(None),
        StepLine::Flush { part } => to_print(flush_text(alloc, database, *part)),
        StepLine::Settle => to_print(settle_text(alloc, database)),
        StepLine::Checkpoint => to_print(checkpoint_text(alloc, database)),
        StepLine::Bag { .. } => to_print(step_refusal_text(alloc, &Refusal::Unbuilt)),
        StepLine::Check => to_print(step_refusal_text(alloc, &Refusal::Unbuilt)),
    }
}

/// Answers a line: what is printed for it. A statement is its session's, over the database as it is. `None` for a line
/// that asks for a reopening, and nothing is done then. `NoMemory` where there was no memory for the text of the
/// answer; the line has been run then all the same.
pub fn answer<D: Database>(
    alloc: Global,
    past: &mut Past,
    sessions: &mut Sessions,
    database: &mut D,
    line: &Line,
) -> Result<Option<Text>, NoMemory>
    requires { IsOfSession (line_of line.now) }
    ensures answered { let keeps = kept D.state D.causes in
        Answers (keeps past.old database.old sessions.old) (line_of line.now) result
        (keeps past.new database.new sessions.new) }
    ensures same { earlier_of past.new ≡ earlier_of past.old }
    ensures ready { IsReady past.old (D.state database.old) → IsReady past.new (D.state database.new) }
    ensures stays { StaysOpen D.state D.sound database.old database.new }
{
    match line {
        Line::Statement { session, text } => to_print(statement_text(
            alloc,
            past,
            sessions,
            database,
            *session,
            text.as_str(),
        )),
        Line::Tries { session, .. } => to_print(tries_text(alloc, *session)),
        Line::Step(step) => step_text(alloc, past, database, step),
    }
}
