// Histories as they are printed.
ghost use Rattle.std.specs.Prelude.{◌≡◌, ◌+◌, ◌<◌, ◌^◌, ◌++◌, ◌∷◌, [], codes, decimal, length, IfOk, OnOk};
ghost use Rattle.std.specs.Prelude.{string_bytes, map};
ghost use Rattle.ori_spec_texts.specs.Json.{rid_text};
ghost use Rattle.ori_spec_texts.specs.Reply.{change_text, rids_behind, changes_text, entry_text, entries_text};
ghost use Rattle.ori_spec_texts.specs.Reply.{history_text};
ghost use Rattle.ori_model.specs.Data.{change_of, entry_of, entries_of};

use crate::json::rid_string;
use ori_bytes::{NoMemory, Rid, Text};
use ori_model::{Change, Entry};
use std::alloc::{AllocError, Global};

// A record that was updated or touched, with the version that it got.
fn newer_string(alloc: Global, rid: Rid, version: u32) -> Result<String, AllocError>
    ensures { IfOk result (λ s. string_bytes s ≡ codes " ~" ++ rid_text rid ++ 64 ∷ decimal (version + 1)) }
{
    let rid = rid_string(alloc, rid)?;
    let version = u64::from(version) + 1;
    format!(in alloc; " ~{rid}@{version}")
}

// A change, where the new records from this one on got these identifiers.
fn change_string(alloc: Global, change: &Change, fresh: &[Rid]) -> Result<String, AllocError>
    ensures { IfOk result (λ s. string_bytes s ≡ change_text (change_of change.now) fresh.now) }
{
    match change {
        Change::Create { .. } => match fresh.split_first() {
            Some((rid, _)) => {
                let rid = rid_string(alloc, *rid)?;
                Ok(format!(in alloc; " +{rid}@1")?)
            }
            None => Ok(String::new(alloc)),
        },
        Change::Update { rid, version, .. } => newer_string(alloc, *rid, *version),
        Change::Delete { rid, .. } => {
            let Rid { cluster, position } = *rid;
            format!(in alloc; " -#{cluster}:{position}")
        }
        Change::Touch { rid, version } => newer_string(alloc, *rid, *version),
    }
}

// The identifiers that are left for the new records behind a change.
fn rids_behind<'a>(change: &Change, fresh: &'a [Rid]) -> &'a [Rid]
    ensures { result.now ≡ rids_behind (change_of change.now) fresh.now }
{
    match change {
        Change::Create { .. } => match fresh.split_first() {
            Some((_, rest)) => rest,
            None => fresh,
        },
        Change::Update { .. } => fresh,
        Change::Delete { .. } => fresh,
        Change::Touch { .. } => fresh,
    }
}

// The changes of a commit, whose new records got these identifiers.
fn changes_string(alloc: Global, changes: &[Change], fresh: &[Rid]) -> Result<String, AllocError>
    ensures { IfOk result (λ s. string_bytes s ≡ changes_text (map change_of changes.now) fresh.now) }
{
    let mut text = String::new(alloc);
    let mut left = fresh;
    for change in changes {
        text.push_str(change_string(alloc, change, left)?.as_str())?;
        left = rids_behind(change, left);
    }
    Ok(text)
}

// An entry.
fn entry_string(alloc: Global, entry: &Entry) -> Result<String, AllocError>
    ensures { IfOk result (λ s. string_bytes s ≡ entry_text (entry_of entry.now)) }
{
    match entry {
        Entry::Commit { session, tx, fresh } => {
            let changes = changes_string(alloc, tx.changes.as_slice(), fresh.as_slice())?;
            Ok(format!(in alloc; "{session} COMMIT{changes}")?)
        }
        Entry::Define { session, .. } => format!(in alloc; "{session} DEFINE"),
    }
}

// The line of an entry at its place.
fn entry_line(alloc: Global, place: usize, entry: &Entry) -> Result<String, AllocError>
    ensures { IfOk result (λ s.
        string_bytes s ≡ codes "! HISTORY " ++ decimal place ++ 32 ∷ entry_text (entry_of entry.now) ++ 10 ∷ []) }
{
    let entry = entry_string(alloc, entry)?;
    format!(in alloc; "! HISTORY {place} {entry}\n")
}

// Adds the lines of entries, the first of which has this place.
fn put_entries(
    alloc: Global,
    text: &mut String,
    first: usize,
    entries: &[Entry],
) -> Result<(), AllocError>
    requires { first + length entries.now < 2 ^ 64 }
    ensures { OnOk result (string_bytes text.new ≡ string_bytes text.old
        ++ entries_text first (entries_of entries.now)) }
{
    let mut place = first;
    for entry in entries {
        text.push_str(entry_line(alloc, place, entry)?.as_str())?;
        place += 1;
    }
    Ok(())
}

/// The lines of a history, which stands in two lists: one for each entry, with its place from 0 on, and the count. The
/// time that it takes is that of what it prints.
#[tactic(auto, using(crate::proofs::Histories::both_printed))]
pub fn history_text(alloc: Global, earlier: &[Entry], feed: &[Entry]) -> Result<Text, NoMemory>
    ensures { IfOk result (λ t. t ≡ history_text (entries_of earlier.now ++ entries_of feed.now)) }
{
    let count = earlier.len() + feed.len();
    let mut text = String::new(alloc);
    put_entries(alloc, &mut text, 0, earlier)?;
    put_entries(alloc, &mut text, earlier.len(), feed)?;
    text.push_str(format!(in alloc; "! OK {count}\n")?.as_str())?;
    Ok(Text::from_string(text))
}
