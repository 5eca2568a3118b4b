// The change that says what becomes of a record.
ghost use Rattle.std.specs.Prelude.{◌≡◌, map, option_map};
ghost use Rattle.ori_model.specs.Data.{change_of};
ghost use Rattle.ori_decide.specs.Steps as steps;

use ori_bytes::Rid;
use ori_model::Change;

// Whether a change says what becomes of the record with an identifier.
fn settles(change: &Change, rid: Rid) -> bool
    ensures { result ≡ steps.settles (change_of change.now) rid }
{
    match change {
        Change::Create { .. } => false,
        Change::Update { rid: named, .. } => *named == rid,
        Change::Delete { rid: named, .. } => *named == rid,
        Change::Touch { rid: named, .. } => *named == rid,
    }
}

/// The first change that says what becomes of the record with an identifier.
pub fn settling(changes: &[Change], rid: Rid) -> Option<&Change>
    ensures { option_map (λ c. change_of c.now) result ≡ steps.settling (map change_of changes.now) rid }
{
    for change in changes {
        if settles(change, rid) {
            return Some(change);
        }
    }
    None
}
