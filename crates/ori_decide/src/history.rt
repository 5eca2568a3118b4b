// What entries make of a base, and what a history leads to.
ghost use Rattle.std.specs.Prelude.{◌≡◌, IfOk};
ghost use Rattle.ori_spec_data.specs.Apply as spec;
ghost use Rattle.ori_spec_data.specs.Histories.{IsLegalHistory};
ghost use Rattle.ori_spec_data.specs.Soundness.{IsSoundBase};
ghost use Rattle.ori_model.specs.Data.{base_of, entry_of, entries_of};
ghost use Rattle.ori_decide.specs.Steps.{IsAccepted};

use crate::applying::apply_tx;
use ori_bytes::NoMemory;
use ori_model::{Base, Entry, EntryList};
use std::alloc::Global;

/// What an entry makes of a sound base that accepts it.
pub fn apply(alloc: Global, base: &Base, entry: &Entry) -> Result<Base, NoMemory>
    requires sound { IsSoundBase (base_of base.now) }
    requires accepted { IsAccepted (base_of base.now) (entry_of entry.now) }
    ensures { IfOk result (λ b. base_of b ≡ spec.apply (base_of base.now) (entry_of entry.now)) }
{
    match entry {
        Entry::Commit { tx, .. } => apply_tx(alloc, base, tx),
        Entry::Define { .. } => base.copy(),
    }
}

/// What a legal history makes of a sound base.
pub fn replay(alloc: Global, base: &Base, history: &EntryList) -> Result<Base, NoMemory>
    requires sound { IsSoundBase (base_of base.now) }
    requires legal { IsLegalHistory (base_of base.now) (entries_of history.now) }
    ensures { IfOk result (λ b. base_of b ≡ spec.replay (base_of base.now) (entries_of history.now)) }
{
    let mut reached = base.copy()?;
    for entry in history.as_slice() {
        let next = apply(alloc, &reached, entry)?;
        reached = next;
    }
    Ok(reached)
}
