// A base as a transaction shows it.
ghost use Rattle.std.specs.Prelude.{◌≡◌, ◌++◌, map, flat_map, option_map, IfOk, OnOk, Some};
ghost use Rattle.ori_spec_data.specs.Views.{shown_of, created_of, overlaid};
ghost use Rattle.ori_spec_data.specs.Views as views;
ghost use Rattle.ori_model.specs.Data.{record_of, change_of, tx_of, base_of};
ghost use Rattle.ori_decide.specs.Steps.{shown_one, listed};

use crate::settle::settling;
use ori_bytes::NoMemory;
use ori_model::{Base, Change, Stored, StoredList, Tx};
use std::alloc::Global;

// A record as the change of it shows it.
fn shown(stored: &Stored, change: Option<&Change>) -> Result<Option<Stored>, NoMemory>
    ensures { IfOk result (λ o. listed (option_map record_of o) ≡ shown_one
        (option_map (λ c. change_of c.now) change.entry) (record_of stored.now)) }
{
    match change {
        None => Ok(Some(stored.copy()?)),
        Some(change) => shown_by(stored, change),
    }
}

fn shown_by(stored: &Stored, change: &Change) -> Result<Option<Stored>, NoMemory>
    ensures { IfOk result (λ o. listed (option_map record_of o) ≡ shown_one (Some (change_of change.now))
        (record_of stored.now)) }
{
    match change {
        Change::Create { .. } => Ok(Some(stored.copy()?)),
        Change::Update {
            version,
            fields,
            ..
        } => Ok(Some(Stored {
            rid: stored.rid,
            version: *version,
            class: stored.class.copy()?,
            fields: fields.copy()?,
        })),
        Change::Delete { .. } => Ok(None),
        Change::Touch { .. } => Ok(Some(stored.copy()?)),
    }
}

// A record more, where there is one.
fn add(records: &mut StoredList, found: Option<Stored>) -> Result<(), NoMemory>
    ensures { OnOk result (map record_of records.new ≡ map record_of records.old
        ++ listed (option_map record_of found)) }
{
    match found {
        None => Ok(()),
        Some(stored) => records.push(stored),
    }
}

// The records of a base as they are shown.
fn add_shown(
    records: &mut StoredList,
    changes: &[Change],
    stored: &[Stored],
) -> Result<(), NoMemory>
    ensures { OnOk result (map record_of records.new ≡ map record_of records.old
        ++ flat_map (shown_of (map change_of changes.now)) (map record_of stored.now)) }
{
    for record in stored {
        let found = shown(record, settling(changes, record.rid))?;
        add(records, found)?;
    }
    Ok(())
}

// The new records.
fn add_created(records: &mut StoredList, changes: &[Change]) -> Result<(), NoMemory>
    ensures { OnOk result (map record_of records.new ≡ map record_of records.old
        ++ created_of (map change_of changes.now)) }
{
    for change in changes {
        let found = change.created()?;
        add(records, found)?;
    }
    Ok(())
}

/// The base with a transaction's changes laid over it: updated records with their new fields, no deleted ones, and the
/// new ones behind the others.
pub fn overlay(alloc: Global, base: &Base, tx: &Tx) -> Result<Base, NoMemory>
    ensures { IfOk result (λ b. base_of b ≡ views.overlay (base_of base.now) (tx_of tx.now)) }
{
    let mut stored = StoredList::new(alloc);
    add_shown(&mut stored, tx.changes.as_slice(), base.stored.as_slice())?;
    add_created(&mut stored, tx.changes.as_slice())?;
    Ok(Base {
        schema: base.schema.copy()?,
        stored,
        next: base.next.copy()?,
        grown: base.grown.copy()?,
    })
}
