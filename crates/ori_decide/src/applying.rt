// What a commit makes of a base.
ghost use Rattle.std.specs.Prelude.{◌≡◌, ◌+◌, ◌^◌, ◌<◌, ◌≤◌, ◌++◌, ◌∷◌, [], Some, None, map, flat_map, option_map};
ghost use Rattle.std.specs.Prelude.{length, IfOk, OnOk};
ghost use Rattle.std.specs.List.{AllByRecursion, position_or_len};
ghost use Rattle.ori_bytes.specs.declared.limits.TheConstants.{MAX_POSITIONS};
ghost use Rattle.ori_spec_data.specs.Apply.{IsFormed, comes_before, put_record, left_of, with_created, fresh_of};
ghost use Rattle.ori_spec_data.specs.Apply.{next_after};
ghost use Rattle.ori_spec_data.specs.Apply as spec;
ghost use Rattle.ori_spec_data.specs.Refusing.{refusal};
ghost use Rattle.ori_spec_data.specs.Soundness.{IsSoundBase};
ghost use Rattle.ori_model.specs.Data.{record_of, change_of, class_of, tx_of, base_of};
ghost use Rattle.ori_decide.specs.Steps.{listed, settling, left_one, made_one, with_one, CanSettle, CanAllRise};

use crate::given::give_names;
use crate::giving::give_one;
use crate::links::is_before;
use crate::renamings::Renamings;
use crate::settle;
use crate::writing::{left_by, made};
use ori_bytes::{NoMemory, NumberList, Rid};
use ori_model::{Base, Change, Class, Stored, StoredList, Tx};
use std::alloc::Global;

// What becomes of a record, where this change says that.
fn left(
    alloc: Global,
    stored: &Stored,
    change: Option<&Change>,
    pairs: &Renamings,
) -> Result<Option<Stored>, NoMemory>
    requires { CanSettle (option_map (λ c. change_of c.now) change) (record_of stored.now) }
    ensures { IfOk result
        (λ o. listed (option_map record_of o)
        ≡ left_one pairs.now (option_map (λ c. change_of c.now) change.entry) (record_of stored.now)) }
{
    match change {
        None => Ok(Some(stored.copy()?)),
        Some(change) => left_by(alloc, stored, change, pairs),
    }
}

// A record more at the end, where there is one.
fn add(records: &mut Vec<Stored>, found: Option<Stored>) -> Result<(), NoMemory>
    ensures { OnOk result (map record_of records.new.items ≡ map record_of records.old.items
        ++ listed (option_map record_of found)) }
{
    match found {
        None => Ok(()),
        Some(stored) => Ok(records.push(stored)?),
    }
}

// What the changes leave of the records.
fn add_left(
    alloc: Global,
    records: &mut Vec<Stored>,
    changes: &[Change],
    stored: &[Stored],
    pairs: &Renamings,
) -> Result<(), NoMemory>
    requires { CanAllRise (map change_of changes.now) (map record_of stored.now) }
    ensures { OnOk result (map record_of records.new.items ≡ map record_of records.old.items
        ++ flat_map (left_of pairs.now (map change_of changes.now)) (map record_of stored.now)) }
{
    for record in stored {
        let change = settle::settling(changes, record.rid);
        let found = left(alloc, record, change, pairs)?;
        add(records, found)?;
    }
    Ok(())
}

// Where a record of this identifier goes among others.
fn place_among(records: &[Stored], rid: Rid) -> usize
    ensures { result ≡ position_or_len (λ s. comes_before rid s.rid) (map record_of records.now) }
{
    for (at, other) in records.iter().enumerate() {
        if is_before(rid, other.rid) {
            return at;
        }
    }
    records.len()
}

// The records with one more, in row order.
fn put(records: &mut Vec<Stored>, stored: Stored) -> Result<(), NoMemory>
    ensures { OnOk result (map record_of records.new.items ≡ put_record (record_of stored)
        (map record_of records.old.items)) }
{
    let at = place_among(records.as_slice(), stored.rid);
    records.insert(at, stored)?;
    Ok(())
}

fn put_made(records: &mut Vec<Stored>, made: Option<Stored>) -> Result<(), NoMemory>
    ensures { OnOk result (map record_of records.new.items ≡ with_one (option_map record_of made)
        (map record_of records.old.items)) }
{
    match made {
        None => Ok(()),
        Some(stored) => put(records, stored),
    }
}

// The new record of a change that has this identifier, where it makes one.
fn made_by(
    alloc: Global,
    change: &Change,
    given: Option<Rid>,
    pairs: &Renamings,
) -> Result<Option<Stored>, NoMemory>
    ensures { IfOk result (λ o. option_map record_of o ≡ made_one pairs.now (change_of change.now) given) }
{
    let Some(rid) = given else {
        return Ok(None);
    };
    match change {
        Change::Create { class, fields, .. } => Ok(Some(made(alloc, rid, class, fields, pairs)?)),
        Change::Update { .. } => Ok(None),
        Change::Delete { .. } => Ok(None),
        Change::Touch { .. } => Ok(None),
    }
}

// The records with the new ones, each at its fresh identifier, and the next positions after them.
fn put_created(
    alloc: Global,
    records: &mut Vec<Stored>,
    next: &mut Vec<u64>,
    classes: &[Class],
    changes: &[Change],
    pairs: &Renamings,
) -> Result<(), NoMemory>
    requires { AllByRecursion (λ n. n ≤ MAX_POSITIONS) next.old.items }
    ensures records { OnOk result (map record_of records.new.items ≡ with_created pairs.now (map change_of changes.now)
        (fresh_of (map class_of classes.now) next.old.items (map change_of changes.now))
        (map record_of records.old.items)) }
    ensures next { OnOk result (next.new.items ≡ next_after (map class_of classes.now) next.old.items
        (map change_of changes.now)) }
{
    for change in changes {
        let rid = give_one(next, classes, change);
        let record = made_by(alloc, change, rid, pairs)?;
        put_made(records, record)?;
    }
    Ok(())
}

/// What a commit of a formed transaction that the base doesn't refuse makes of it.
pub fn apply_tx(alloc: Global, base: &Base, tx: &Tx) -> Result<Base, NoMemory>
    requires sound { IsSoundBase (base_of base.now) }
    requires formed { IsFormed (tx_of tx.now) }
    requires allowed { refusal (base_of base.now) (tx_of tx.now) ≡ None }
    ensures { IfOk result (λ b. base_of b ≡ spec.apply_tx (base_of base.now) (tx_of tx.now)) }
{
    let changes = tx.changes.as_slice();
    let classes = base.schema.classes.as_slice();
    let temps = Renamings::of(alloc, tx)?;
    let given = give_names(alloc, classes, &base.next, changes, temps)?;
    let mut stored = Vec::new(alloc);
    add_left(
        alloc,
        &mut stored,
        changes,
        base.stored.as_slice(),
        &given.pairs,
    )?;
    let mut next = base.next.copy()?.into_vec();
    put_created(
        alloc,
        &mut stored,
        &mut next,
        classes,
        changes,
        &given.pairs,
    )?;
    Ok(Base {
        schema: base.schema.copy()?,
        stored: StoredList::from_vec(stored),
        next: NumberList::from_vec(next),
        grown: base.grown.copy()?,
    })
}
