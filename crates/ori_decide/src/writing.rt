// The records that changes leave, and what they weigh.
ghost use Rattle.std.specs.Prelude.{◌≡◌, ◌+◌, ◌≤◌, ◌^◌, map, option_map, IfOk, OnOk};
ghost use Rattle.std.specs.List.{AllByRecursion};
ghost use Rattle.ori_bytes.specs.declared.limits.TheConstants.{CHANGE_WEIGHT};
ghost use Rattle.ori_spec_data.specs.Apply as spec;
ghost use Rattle.ori_spec_data.specs.Refusing.{too_large_of, first_refused};
ghost use Rattle.ori_spec_data.specs.Weighing as weighing;
ghost use Rattle.ori_spec_data.specs.Weighing.{change_weight};
ghost use Rattle.ori_model.specs.Data.{record_of, change_of};
ghost use Rattle.ori_decide.specs.Deciding.{written_data, writes, IsWork, AddsOne};
ghost use Rattle.ori_decide.specs.Leaving as leaving;
ghost use Rattle.ori_decide.specs.Leaving.{left, CanRise, CanWrite, CanLeave};
ghost use Rattle.ori_decide.specs.Told.{Answers};

use crate::Records;
use crate::relinking::relink;
use crate::renamings::Renamings;
use ori_bytes::limits::{BASE_WEIGHT, BYTES_PER_WEIGHT, CHANGE_WEIGHT, MAX_RECORD_BYTES};
use ori_bytes::{NoMemory, Rid, Text};
use ori_model::{Change, CommitFault, Stored, record_bytes};
use ori_value::FieldList;
use std::alloc::Global;

/// The identifier of the record that a change is of, and the record that it leaves there, or none.
#[derive(Drop)]
pub struct Written {
    pub rid: Rid,
    pub left: Option<Stored>,
}

/// What changes leave, and what they weigh with their transaction.
#[derive(Drop)]
pub struct Work {
    pub written: Vec<Written>,
    pub weight: u64,
}

// A copy of fields with their links renamed.
fn relinked(alloc: Global, fields: &FieldList, pairs: &Renamings) -> Result<FieldList, NoMemory>
    ensures { IfOk result (λ l. l ≡ spec.relinked_fields pairs.now fields.now) }
{
    let mut copy = fields.copy()?;
    relink(alloc, &mut copy, pairs);
    Ok(copy)
}

// A record of the next version, with these fields.
fn raised(stored: &Stored, fields: FieldList) -> Result<Stored, NoMemory>
    requires { CanRise (record_of stored.now) }
    ensures { IfOk result (λ s. record_of s ≡ leaving.raised (record_of stored.now) fields) }
{
    Ok(Stored {
        rid: stored.rid,
        version: stored.version + 1,
        class: stored.class.copy()?,
        fields,
    })
}

/// What a change leaves of a record.
pub fn left_by(
    alloc: Global,
    stored: &Stored,
    change: &Change,
    pairs: &Renamings,
) -> Result<Option<Stored>, NoMemory>
    requires { CanLeave (change_of change.now) (record_of stored.now) }
    ensures { IfOk result
        (λ o. option_map record_of o ≡ leaving.left_by pairs.now (change_of change.now) (record_of stored.now)) }
{
    match change {
        Change::Create { .. } => Ok(Some(stored.copy()?)),
        Change::Update { fields, .. } => Ok(Some(raised(stored, relinked(alloc, fields, pairs)?)?)),
        Change::Delete { .. } => Ok(None),
        Change::Touch { .. } => Ok(Some(raised(stored, stored.fields.copy()?)?)),
    }
}

/// A new record.
pub fn made(
    alloc: Global,
    rid: Rid,
    class: &Text,
    fields: &FieldList,
    pairs: &Renamings,
) -> Result<Stored, NoMemory>
    ensures { IfOk result (λ s. record_of s ≡ leaving.made pairs.now rid class.now fields.now) }
{
    Ok(Stored {
        rid,
        version: 1,
        class: class.copy()?,
        fields: relinked(alloc, fields, pairs)?,
    })
}

// The record that a change finds.
fn found<'a, R: Records>(records: &'a R, change: &Change) -> Option<&'a Stored>
    ensures { option_map (λ s. record_of s.now) result ≡ weighing.found_by (R.stored records.now)
        (change_of change.now) }
{
    match change {
        Change::Create { .. } => None,
        Change::Update { rid, .. } => records.find(*rid),
        Change::Delete { rid, .. } => records.find(*rid),
        Change::Touch { rid, .. } => records.find(*rid),
    }
}

// What a change leaves of the record that it finds.
fn left_of(
    alloc: Global,
    found: Option<&Stored>,
    change: &Change,
    pairs: &Renamings,
) -> Result<Option<Stored>, NoMemory>
    requires { leaving.CanLeaveFound (change_of change.now) (option_map (λ s. record_of s.now) found) }
    ensures { IfOk result
        (λ o. option_map record_of o
        ≡ leaving.left_of_found pairs.now (change_of change.now) (option_map (λ s. record_of s.now) found.entry)) }
{
    match found {
        None => Ok(None),
        Some(stored) => left_by(alloc, stored, change, pairs),
    }
}

// The record that a change leaves, where it finds this one.
fn left(
    alloc: Global,
    found: Option<&Stored>,
    change: &Change,
    pairs: &Renamings,
) -> Result<Option<Stored>, NoMemory>
    requires { leaving.CanLeaveFound (change_of change.now) (option_map (λ s. record_of s.now) found) }
    ensures { IfOk result
        (λ o. option_map record_of o
        ≡ leaving.left_at pairs.now (change_of change.now) (option_map (λ s. record_of s.now) found.entry)) }
{
    match change {
        Change::Create {
            temp,
            class,
            fields,
        } => Ok(Some(made(alloc, pairs.real(*temp), class, fields, pairs)?)),
        Change::Update { .. } => left_of(alloc, found, change, pairs),
        Change::Delete { .. } => left_of(alloc, found, change, pairs),
        Change::Touch { .. } => left_of(alloc, found, change, pairs),
    }
}

// The bytes of a record, and of none.
fn size_of(stored: Option<&Stored>) -> Result<u64, NoMemory>
    ensures { IfOk result (λ n. n ≡ weighing.old_size (option_map (λ s. record_of s.now) stored.entry)) }
{
    match stored {
        None => Ok(0),
        Some(found) => record_bytes(&found.class, &found.fields),
    }
}

// Each begun piece of the bytes counts 1.
fn begun(bytes: u64) -> u64
    ensures value { result ≡ weighing.begun bytes }
    ensures few { result ≤ 2 ^ 62 }
{
    bytes.div_ceil(BYTES_PER_WEIGHT)
}

// What a change weighs that leaves a record of so many bytes in place of one of so many.
fn weigh(old: u64, new: u64) -> u64
    ensures { result ≡ CHANGE_WEIGHT + weighing.begun old + weighing.begun new }
{
    CHANGE_WEIGHT + begun(old) + begun(new)
}

impl Work {
    // Adds what a change leaves. There is no memory for a weight past the end of a u64.
    fn add(&mut self, one: Written, weight: u64) -> Result<(), NoMemory>
        ensures { OnOk result (AddsOne self.old self.new (written_data one) weight) }
    {
        let Some(total) = self.weight.checked_add(weight) else {
            return Err(NoMemory);
        };
        self.written.push(one)?;
        self.weight = total;
        Ok(())
    }
}

// What a change leaves, and what it weighs. RecordTooLarge where the record would be.
fn write_one<R: Records>(
    alloc: Global,
    records: &R,
    pairs: &Renamings,
    change: &Change,
) -> Result<(Written, u64), CommitFault>
    requires { CanWrite (R.stored records.now) (change_of change.now) }
    ensures answers { Answers (too_large_of (R.stored records.now) pairs.now (change_of change.now)) result }
    ensures written { IfOk result (λ p. written_data p.0 ≡ writes pairs.now (R.stored records.now)
        (change_of change.now)) }
    ensures weighs { IfOk result (λ p. p.1 ≡ change_weight (R.stored records.now) pairs.now (change_of change.now)) }
{
    let old = found(records, change);
    let left = left(alloc, old, change, pairs)?;
    let size = size_of(left.as_ref())?;
    if size > MAX_RECORD_BYTES {
        return Err(CommitFault::RecordTooLarge {
            rid: change.target(),
            bytes: size,
        });
    }
    let rid = pairs.real(change.target());
    let weight = weigh(size_of(old)?, size);
    Ok((Written { rid, left }, weight))
}

/// What the changes leave in their order, and what their transaction weighs. RecordTooLarge where one record would be.
pub fn write_all<R: Records>(
    alloc: Global,
    records: &R,
    pairs: &Renamings,
    changes: &[Change],
) -> Result<Work, CommitFault>
    requires { AllByRecursion (CanWrite (R.stored records.now)) (map change_of changes.now) }
    ensures answers { Answers (first_refused (too_large_of (R.stored records.now) pairs.now)
        (map change_of changes.now)) result }
    ensures work { IfOk result (IsWork pairs.now (R.stored records.now) (map change_of changes.now)) }
{
    let mut work = Work {
        written: Vec::new(alloc),
        weight: BASE_WEIGHT,
    };
    for change in changes {
        let (one, weight) = write_one(alloc, records, pairs, change)?;
        work.add(one, weight)?;
    }
    Ok(work)
}
