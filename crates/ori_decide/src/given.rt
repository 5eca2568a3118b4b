// What a base gives to a transaction's new records.
ghost use Rattle.std.specs.Prelude.{◌≡◌, ◌≤◌, ◌^◌, map, IfOk};
ghost use Rattle.std.specs.List.{AllByRecursion};
ghost use Rattle.ori_spec_data.specs.Apply as spec;
ghost use Rattle.ori_model.specs.Data.{class_of, change_of, tx_of, base_of};
ghost use Rattle.ori_decide.specs.Renaming.{unnamed};
ghost use Rattle.ori_decide.specs.Deciding.{IsGiven};

use crate::giving::give_all;
use crate::renamings::Renamings;
use ori_bytes::{NoMemory, NumberList, RidList};
use ori_model::{Base, Change, Class, Tx};
use std::alloc::Global;

/// The fresh identifiers beside the temporary ones and in order of creation, and the next positions after them.
#[derive(Drop)]
pub struct Given {
    pub pairs: Renamings,
    pub fresh: RidList,
    pub after: Vec<u64>,
}

/// Gives identifiers to the new records of changes, whose temporary ones these are.
pub fn give_names(
    alloc: Global,
    classes: &[Class],
    next: &NumberList,
    changes: &[Change],
    pairs: Renamings,
) -> Result<Given, NoMemory>
    requires next { AllByRecursion (λ n. n ≤ 2 ^ 32) next.now }
    requires pairs { pairs ≡ unnamed (map change_of changes.now) }
    ensures { IfOk result (IsGiven (map class_of classes.now) next.now (map change_of changes.now)) }
{
    let mut pairs = pairs;
    let mut after = next.copy()?.into_vec();
    let mut fresh = RidList::new(alloc);
    give_all(&mut after, classes, changes, &mut fresh)?;
    pairs.give(fresh.as_slice());
    Ok(Given {
        pairs,
        fresh,
        after,
    })
}

/// The identifiers that a base gives to a transaction's new records, in order of creation.
pub fn fresh(alloc: Global, base: &Base, tx: &Tx) -> Result<RidList, NoMemory>
    requires { AllByRecursion (λ n. n ≤ 2 ^ 32) base.now.next }
    ensures { IfOk result (λ rids. rids ≡ spec.fresh (base_of base.now) (tx_of tx.now)) }
{
    let mut next = base.next.copy()?.into_vec();
    let mut rids = RidList::new(alloc);
    let classes = base.schema.classes.as_slice();
    give_all(&mut next, classes, tx.changes.as_slice(), &mut rids)?;
    Ok(rids)
}
