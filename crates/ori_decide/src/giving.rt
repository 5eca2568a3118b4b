// The identifiers of new records.
ghost use Rattle.std.specs.Prelude.{◌≡◌, ◌+◌, ◌-◌, ◌^◌, ◌≤◌, ◌++◌, ◌∷◌, [], map, length, option_map, OnOk};
ghost use Rattle.std.specs.List.{AllByRecursion};
ghost use Rattle.ori_spec_data.specs.Apply.{cluster_of, next_of, raised, next_after, fresh_of};
ghost use Rattle.ori_spec_data.specs.Apply as spec;
ghost use Rattle.ori_model.specs.Data.{natural, class_of, change_of};
ghost use Rattle.ori_decide.specs.Steps.{listed};

use ori_bytes::{NoMemory, Rid, RidList};
use ori_model::{Change, Class};

// The cluster of the class with a name, where there is such a class.
fn cluster_named(classes: &[Class], name: &str) -> Option<i16>
    ensures { option_map natural result ≡ cluster_of (map class_of classes.now) name.now }
{
    for class in classes {
        if class.name.as_str() == name {
            return Some(class.cluster);
        }
    }
    None
}

// Where the next position of a cluster stands.
fn place_of(cluster: i16) -> usize
    ensures { result ≡ natural cluster - 1 }
{
    if cluster < 1 {
        return 0;
    }
    (cluster - 1) as usize
}

// The next position of a cluster, which is given.
fn give(next: &mut Vec<u64>, cluster: i16) -> Rid
    requires { AllByRecursion (λ n. n ≤ 2 ^ 62) next.old.items }
    ensures rid { result ≡ spec.rid_at (natural cluster) (next_of next.old.items (natural cluster)) }
    ensures next { next.new.items ≡ raised next.old.items (natural cluster) }
{
    let at = place_of(cluster);
    let given = next.get(at).copied().unwrap_or(0);
    if at < next.len() {
        next[at] = given + 1;
    }
    Rid {
        cluster: cluster.max(0),
        position: given as i64,
    }
}

/// The identifier of a change's new record, where it makes one.
pub fn give_one(next: &mut Vec<u64>, classes: &[Class], change: &Change) -> Option<Rid>
    requires { AllByRecursion (λ n. n ≤ 2 ^ 62) next.old.items }
    ensures rid { listed result ≡ fresh_of (map class_of classes.now) next.old.items (change_of change.now ∷ []) }
    ensures next { next.new.items ≡ next_after (map class_of classes.now) next.old.items (change_of change.now ∷ []) }
{
    match change {
        Change::Create { temp, class, .. } => match cluster_named(classes, class.as_str()) {
            None => Some(*temp),
            Some(cluster) => Some(give(next, cluster)),
        },
        Change::Update { .. } => None,
        Change::Delete { .. } => None,
        Change::Touch { .. } => None,
    }
}

// An identifier more, where there is one.
fn add(rids: &mut RidList, rid: Option<Rid>) -> Result<(), NoMemory>
    ensures { OnOk result (rids.new ≡ rids.old ++ listed rid) }
{
    match rid {
        None => Ok(()),
        Some(rid) => rids.push(rid),
    }
}

/// The identifiers of the new records of these changes, and the next positions after them.
pub fn give_all(
    next: &mut Vec<u64>,
    classes: &[Class],
    changes: &[Change],
    rids: &mut RidList,
) -> Result<(), NoMemory>
    requires { AllByRecursion (λ n. n ≤ 2 ^ 32) next.old.items }
    ensures rids { OnOk result
        (rids.new ≡ rids.old ++ fresh_of (map class_of classes.now) next.old.items (map change_of changes.now)) }
    ensures next { OnOk result (next.new.items ≡ next_after (map class_of classes.now) next.old.items
        (map change_of changes.now)) }
{
    for change in changes {
        let rid = give_one(next, classes, change);
        add(rids, rid)?;
    }
    Ok(())
}
