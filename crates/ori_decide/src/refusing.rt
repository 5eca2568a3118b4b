// Why a base in memory refuses an entry.
ghost use Rattle.std.specs.Prelude.{◌≡◌, option_map, Some, IfOk};
ghost use Rattle.ori_spec_data.specs.Refusing as refusing;
ghost use Rattle.ori_spec_data.specs.Soundness.{IsSoundBase};
ghost use Rattle.ori_spec_data.specs.Apply.{IsFormed};
ghost use Rattle.ori_model.specs.Data.{tx_of, base_of, entry_of};
ghost use Rattle.ori_model.specs.Refusals.{refusal_for};
ghost use Rattle.ori_decide.specs.Steps.{IsFormedCommit, refusal_by, refusal_told};

use crate::deciding::decide;
use ori_bytes::NoMemory;
use ori_model::{Base, CommitFault, Entry, Refusal, Tx};
use std::alloc::Global;

// The refusal of a statement whose commit is refused so by a base.
fn told(fault: CommitFault) -> Result<Refusal, NoMemory>
    ensures { IfOk result (λ r. refusal_told fault ≡ Some r) }
{
    match fault {
        CommitFault::Conflict {
            rid,
            expected,
            found,
        } => Ok(Refusal::Conflict {
            rid,
            expected,
            found,
        }),
        CommitFault::Schema {
            rid,
            property,
            rule,
        } => Ok(Refusal::Schema {
            rid,
            property,
            rule,
        }),
        CommitFault::RecordTooLarge { rid, bytes } => Ok(Refusal::RecordTooLarge { rid, bytes }),
        CommitFault::ClusterFull { cluster } => Ok(Refusal::ClusterFull { cluster }),
        CommitFault::TxTooLarge { weight } => Ok(Refusal::TxTooLarge { weight }),
        _ => Err(NoMemory),
    }
}

fn tx_refusal(alloc: Global, base: &Base, tx: &Tx) -> Result<Option<Refusal>, NoMemory>
    requires sound { IsSoundBase (base_of base.now) }
    requires formed { IsFormed (tx_of tx.now) }
    ensures { IfOk result
        (λ o. o ≡ option_map refusal_for (refusing.refusal (base_of base.now) (tx_of tx.now))) }
{
    match decide(alloc, base.schema.classes.as_slice(), &base.next, base, tx) {
        Ok(_) => Ok(None),
        Err(fault) => Ok(Some(told(fault)?)),
    }
}

/// Why a sound base refuses an entry, a commit of a formed transaction: the first cause that holds, in the order
/// Conflict, Schema, RecordTooLarge, ClusterFull, TxTooLarge; or none.
pub fn refusal(alloc: Global, base: &Base, entry: &Entry) -> Result<Option<Refusal>, NoMemory>
    requires sound { IsSoundBase (base_of base.now) }
    requires formed { IsFormedCommit (entry_of entry.now) }
    ensures { IfOk result (λ o. o ≡ option_map refusal_for (refusal_by (base_of base.now) (entry_of entry.now))) }
{
    match entry {
        Entry::Commit { tx, .. } => tx_refusal(alloc, base, tx),
        Entry::Define { .. } => Ok(None),
    }
}
