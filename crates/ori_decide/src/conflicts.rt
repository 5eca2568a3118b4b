// Conflicts: records that are no longer as a transaction has seen them.
ghost use Rattle.std.specs.Prelude.{◌≡◌, map};
ghost use Rattle.ori_spec_data.specs.Refusing.{version_at, is_version, conflict_at, conflict_of, first_refused};
ghost use Rattle.ori_model.specs.Data.{change_of};
ghost use Rattle.ori_decide.specs.Told.{Answers};

use crate::Records;
use ori_bytes::Rid;
use ori_model::{Change, CommitFault};

fn version_at<R: Records>(records: &R, rid: Rid) -> Option<u32>
    ensures { result ≡ version_at (R.stored records.now) rid }
{
    match records.find(rid) {
        Some(stored) => Some(stored.version),
        None => None,
    }
}

// Whether this version was found.
fn is_version(version: u32, found: Option<u32>) -> bool
    ensures { result ≡ is_version version found }
{
    match found {
        Some(found) => found == version,
        None => false,
    }
}

// A record that is to be changed is there with the version that the transaction has seen.
fn check_version<R: Records>(records: &R, rid: Rid, version: u32) -> Result<(), CommitFault>
    ensures { Answers (conflict_at (R.stored records.now) rid version) result }
{
    let found = version_at(records, rid);
    if is_version(version, found) {
        return Ok(());
    }
    Err(CommitFault::Conflict {
        rid,
        expected: version,
        found,
    })
}

fn check_conflict<R: Records>(records: &R, change: &Change) -> Result<(), CommitFault>
    ensures { Answers (conflict_of (R.stored records.now) (change_of change.now)) result }
{
    match change {
        Change::Create { .. } => Ok(()),
        Change::Update { rid, version, .. } => check_version(records, *rid, *version),
        Change::Delete { rid, version } => check_version(records, *rid, *version),
        Change::Touch { rid, version } => check_version(records, *rid, *version),
    }
}

/// Each record that is to be changed is there with the version that the transaction has seen.
pub fn check_conflicts<R: Records>(records: &R, changes: &[Change]) -> Result<(), CommitFault>
    ensures { Answers (first_refused (conflict_of (R.stored records.now)) (map change_of changes.now)) result }
{
    for change in changes {
        check_conflict(records, change)?;
    }
    Ok(())
}
