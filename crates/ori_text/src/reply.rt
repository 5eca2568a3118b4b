// Replies as they are printed.
ghost use Rattle.std.specs.Prelude.{◌≡◌, ◌++◌, ◌∷◌, [], IfOk, IsTrue, false, string_bytes, map, flat_map, codes};
ghost use Rattle.std.specs.Prelude.{decimal};
ghost use Rattle.ori_spec_texts.specs.Reply.{reply_text, answer_text, to_step, to_done, told_text};
ghost use Rattle.ori_spec_texts.specs.Reply as spec;
ghost use Rattle.ori_model.specs.Replies.{row_of, reply_of, refusal_of, told_of};
ghost use Rattle.ori_text.specs.Fronts.{fronts_text, fronted_text};

use crate::json::{rid_string, row_json};
use crate::refusal::refusal_string;
use ori_bytes::{NoMemory, Rid, Text};
use ori_model::{Refusal, Reply, Row, Told};
use std::alloc::{AllocError, Global};

// The line of a row.
fn row_line(alloc: Global, session: u8, row: &Row) -> Result<String, NoMemory>
    ensures { IfOk result (λ s. string_bytes s ≡ spec.row_line session (row_of row.now)) }
{
    let json = row_json(alloc, row)?;
    Ok(json_line(alloc, session, json.as_str())?)
}

// The line of a row that is this as JSON.
fn json_line(alloc: Global, session: u8, json: &str) -> Result<String, AllocError>
    ensures { IfOk result (λ s. string_bytes s ≡ decimal session ++ codes " ROW " ++ json.now ++ 10 ∷ []) }
{
    format!(in alloc; "{session} ROW {json}\n")
}

// The lines of rows.
fn row_lines(alloc: Global, session: u8, rows: &[Row]) -> Result<String, NoMemory>
    ensures { IfOk result (λ s. string_bytes s ≡ flat_map (spec.row_line session) (map row_of rows.now)) }
{
    let mut text = String::new(alloc);
    for row in rows {
        text.push_str(row_line(alloc, session, row)?.as_str())?;
    }
    Ok(text)
}

// The line of a temporary identifier and the one that it became.
fn temp_line(alloc: Global, session: u8, pair: (Rid, Rid)) -> Result<String, AllocError>
    ensures { IfOk result (λ s. string_bytes s ≡ spec.temp_line session pair) }
{
    let temp = rid_string(alloc, pair.0)?;
    let real = rid_string(alloc, pair.1)?;
    format!(in alloc; "{session} TEMP {temp} {real}\n")
}

// The lines of such pairs.
fn temp_lines(alloc: Global, session: u8, temps: &[(Rid, Rid)]) -> Result<String, AllocError>
    ensures { IfOk result (λ s. string_bytes s ≡ flat_map (spec.temp_line session) temps.now) }
{
    let mut text = String::new(alloc);
    for pair in temps {
        text.push_str(temp_line(alloc, session, *pair)?.as_str())?;
    }
    Ok(text)
}

// What a reply says at its end.
fn told_string(alloc: Global, told: &Told) -> Result<String, AllocError>
    ensures { IfOk result (λ s. string_bytes s ≡ told_text (told_of told.now)) }
{
    match told {
        Ok(count) => format!(in alloc; "OK {count}"),
        Err(refusal) => {
            let why = refusal_string(alloc, refusal)?;
            format!(in alloc; "ERR {why}")
        }
    }
}

// The fronts of a read and of a commit.
fn fronts_string(alloc: Global, read: u64, commit: Option<u64>) -> Result<String, AllocError>
    ensures { IfOk result (λ s. string_bytes s ≡ fronts_text read commit) }
{
    match commit {
        Some(commit) => Ok(format!(in alloc; " @{read} @{commit}")?),
        None => format!(in alloc; " @{read}"),
    }
}

// The lines of a reply to a session, with these fronts at the end of the last.
fn ended_text(alloc: Global, session: u8, reply: &Reply, fronts: &str) -> Result<Text, NoMemory>
    ensures { IfOk result (λ t. t ≡ flat_map (spec.row_line session) (reply_of reply.now).rows
        ++ flat_map (spec.temp_line session) (reply_of reply.now).temps
        ++ decimal session ++ 32 ∷ told_text (reply_of reply.now).told ++ fronts.now ++ 10 ∷ []) }
{
    let rows = row_lines(alloc, session, reply.rows.as_slice())?;
    let temps = temp_lines(alloc, session, reply.temps.as_slice())?;
    let told = told_string(alloc, &reply.told)?;
    let text = format!(in alloc; "{rows}{temps}{session} {told}{fronts}\n")?;
    Ok(Text::from_string(text))
}

/// The lines of a reply to a session: its rows as JSON, the temporary identifiers of a commit beside those that they
/// became, and what it says at its end; with the fronts after that where they are asked for.
pub fn reply_text(alloc: Global, session: u8, reply: &Reply, fronts: bool) -> Result<Text, NoMemory>
    ensures plain { fronts ≡ false → IfOk result (λ t. t ≡ reply_text session (reply_of reply.now)) }
    ensures fronted { IsTrue fronts → IfOk result (λ t.
        t ≡ fronted_text session (reply_of reply.now) reply.now.read_front reply.now.commit_front) }
{
    if !fronts {
        return ended_text(alloc, session, reply, "");
    }
    let fronts = fronts_string(alloc, reply.read_front, reply.commit_front)?;
    ended_text(alloc, session, reply, fronts.as_str())
}

/// The line of a step that was refused.
pub fn step_refusal_text(alloc: Global, refusal: &Refusal) -> Result<Text, NoMemory>
    ensures { IfOk result (λ t. t ≡ answer_text (to_step (refusal_of refusal.now))) }
{
    let why = refusal_string(alloc, refusal)?;
    Ok(Text::from_string(format!(in alloc; "! ERR {why}\n")?))
}

/// The line of a step that was done.
pub fn step_done_text(alloc: Global) -> Result<Text, NoMemory>
    ensures { IfOk result (λ t. t ≡ answer_text to_done) }
{
    Text::from_str(alloc, "! OK\n")
}
