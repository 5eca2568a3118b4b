// What changes count in the feed.
ghost use Rattle.std.specs.Prelude.{◌≡◌, ◌+◌, [], map, IfOk};
ghost use Rattle.ori_spec_data.specs.Weighing as weighing;
ghost use Rattle.ori_model.specs.Data.{change_of};

use ori_bytes::NoMemory;
use ori_model::{Change, change_bytes};

// A sum. There is no memory for as many bytes as don't fit a u64.
fn sum(a: u64, b: u64) -> Result<u64, NoMemory>
    ensures { IfOk result (λ n. n ≡ a + b) }
{
    match a.checked_add(b) {
        Some(total) => Ok(total),
        None => Err(NoMemory),
    }
}

/// The bytes of changes in the feed behind so many.
pub fn bytes_behind(before: u64, changes: &[Change]) -> Result<u64, NoMemory>
    ensures { IfOk result (λ n. n ≡ before + weighing.changes_bytes (map change_of changes.now)) }
{
    let mut total = before;
    for change in changes {
        let more = change_bytes(change)?;
        let next = sum(total, more)?;
        total = next;
    }
    Ok(total)
}
