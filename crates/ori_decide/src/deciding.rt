// What a base decides on a transaction: why it refuses it, or what it makes of it.
ghost use Rattle.std.specs.Prelude.{◌≡◌, ◌≤◌, ◌^◌, ℕ, pos, map, length, option_map, IfOk};
ghost use Rattle.std.specs.List.{AllByRecursion};
ghost use Rattle.ori_spec_data.specs.Apply.{IsFormed, full_cluster};
ghost use Rattle.ori_spec_data.specs.Refusing.{full_of, too_heavy, refusal};
ghost use Rattle.ori_spec_data.specs.Soundness.{AreClasses};
ghost use Rattle.ori_model.specs.Data.{class_of, tx_of};
ghost use Rattle.ori_decide.specs.Deciding.{base_over, IsDecided};
ghost use Rattle.ori_decide.specs.Told.{Answers};

use crate::Records;
use crate::conflicts::check_conflicts;
use crate::given::give_names;
use crate::renamings::Renamings;
use crate::rules::check_rules;
use crate::writing::{Written, write_all};
use ori_bytes::limits::{MAX_POSITIONS, MAX_WEIGHT};
use ori_bytes::{NumberList, RidList};
use ori_model::{Class, CommitFault, Tx};
use std::alloc::Global;

/// What a base makes of a transaction that it accepts: the identifiers of its new records in order of creation, what
/// each of its changes leaves in their order, and what it weighs.
#[derive(Drop)]
pub struct Decided {
    pub fresh: RidList,
    pub written: Vec<Written>,
    pub weight: u64,
}

// The first cluster that has given more positions than there are.
fn full_in(classes: &[Class], next: &[u64]) -> Option<i16>
    requires classes { AreClasses 1 (map class_of classes.now) }
    requires counted { length next.now ≡ length classes.now }
    ensures { result ≡ option_map (λ (n : ℕ). pos n) (full_cluster 1 next.now) }
{
    for (at, class) in classes.iter().enumerate() {
        if next[at] > MAX_POSITIONS {
            return Some(class.cluster);
        }
    }
    None
}

// No cluster has given more positions than there are.
fn check_room(classes: &[Class], next: &[u64]) -> Result<(), CommitFault>
    requires classes { AreClasses 1 (map class_of classes.now) }
    requires counted { length next.now ≡ length classes.now }
    ensures { Answers (full_of (full_cluster 1 next.now)) result }
{
    match full_in(classes, next) {
        Some(cluster) => Err(CommitFault::ClusterFull { cluster }),
        None => Ok(()),
    }
}

// The transaction isn't too heavy.
fn check_weight(weight: u64) -> Result<(), CommitFault>
    ensures { Answers (too_heavy weight) result }
{
    if weight > MAX_WEIGHT {
        return Err(CommitFault::TxTooLarge { weight });
    }
    Ok(())
}

/// Decides a formed transaction on a base of these classes, next positions and records: the first cause that holds why
/// it is refused, in the order Conflict, Schema, RecordTooLarge, ClusterFull, TxTooLarge, or what the base makes of it.
pub fn decide<R: Records>(
    alloc: Global,
    classes: &[Class],
    next: &NumberList,
    records: &R,
    tx: &Tx,
) -> Result<Decided, CommitFault>
    requires formed { IsFormed (tx_of tx.now) }
    requires classes { AreClasses 1 (map class_of classes.now) }
    requires counted { length next.now ≡ length classes.now }
    requires next { AllByRecursion (λ n. n ≤ 2 ^ 32) next.now }
    ensures answers { Answers (refusal (base_over (map class_of classes.now) next.now (R.stored records.now))
        (tx_of tx.now)) result }
    ensures decided { IfOk result (IsDecided (base_over (map class_of classes.now) next.now (R.stored records.now))
        (tx_of tx.now)) }
{
    let changes = tx.changes.as_slice();
    check_conflicts(records, changes)?;
    let pairs = Renamings::of(alloc, tx)?;
    check_rules(alloc, classes, changes, &pairs)?;
    let given = give_names(alloc, classes, next, changes, pairs)?;
    let work = write_all(alloc, records, &given.pairs, changes)?;
    check_room(classes, given.after.as_slice())?;
    check_weight(work.weight)?;
    Ok(Decided {
        fresh: given.fresh,
        written: work.written,
        weight: work.weight,
    })
}
