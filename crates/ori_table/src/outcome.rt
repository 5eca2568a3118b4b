// What changes make of the positions that they are of.
ghost use Rattle.std.specs.Prelude.{◌≡◌, map, IfOk};
ghost use Rattle.ori_rows.specs.Outcomes as outcomes;
ghost use Rattle.ori_decide.specs.Deciding.{written_data};
ghost use Rattle.ori_table.specs.Data.{outcomes_data, placed};

use ori_bytes::{NoMemory, Rid};
use ori_decide::Written;
use ori_model::Stored;
use std::alloc::Global;

/// A position, and the record that a change leaves there, or none.
#[derive(Drop)]
pub struct Outcome {
    pub place: u64,
    pub row: Option<Stored>,
}

// The position of an identifier.
fn place_in(rid: Rid) -> u64
    ensures { result ≡ outcomes.place_in rid }
{
    if rid.position < 0 {
        return 0;
    }
    rid.position as u64
}

/// What changes leave, by its positions.
pub fn outcomes_of(alloc: Global, written: Vec<Written>) -> Result<Vec<Outcome>, NoMemory>
    ensures { IfOk result (λ o. outcomes_data o.items ≡ map placed (map written_data written.items)) }
{
    let mut outcomes = Vec::new(alloc);
    for one in written {
        outcomes.push(Outcome {
            place: place_in(one.rid),
            row: one.left,
        })?;
    }
    Ok(outcomes)
}
