// The changes of an open transaction.
ghost use Rattle.std.specs.Prelude.{◌≡◌, ◌+◌, ◌≤◌, map, length, option_map, vec_len, vec_capacity, IfOk, OnOk, OnErr};
ghost use Rattle.indexmap.specs.IndexSet.{spare, IsUnchanged};
ghost use Rattle.ori_spec_data.specs.Apply.{temporary, IsFormed};
ghost use Rattle.ori_spec_data.specs.Staging.{given_by, staged, change_at, no_tx, CanStage};
ghost use Rattle.ori_model.specs.Data.{change_of, tx_of};
ghost use Rattle.ori_txn.specs.Places.{given_by_all};

use crate::merge::put_all;
use crate::overlay::{Overlay, placed_of};
use indexmap::IndexSet;
use ori_bytes::{NoMemory, Rid};
use ori_model::{Change, ChangeList, Tx};
use std::alloc::Global;
use std::marker::Model;
use std::mem;

/// The changes that a session's statements have staged, which a contract sees as the transaction. It is formed. The
/// place of each identifier among the changes is kept beside them, so that a look-up takes no longer where there are
/// many.
#[derive(Drop)]
pub struct TxBuffer {
    tx: Tx,
    places: IndexSet<Rid>,
}

impl Model for TxBuffer {
    ghost use Rattle.ori_model.specs.declared.change.Tx.{Tx};
    ghost use Rattle.ori_model.specs.contracts.change.Tx as transaction;
    ghost use Rattle.ori_spec_data.specs.Apply.{IsFormed};
    ghost use Rattle.ori_model.specs.Data.{tx_of};
    ghost use Rattle.ori_txn.specs.Places.{AreBeside};

    ghost Value = { Tx };

    ghost coded = { transaction.the_row.coded };

    ghost view = { λ b. b.tx };

    ghost invariant = { λ b. IsFormed (tx_of b.tx) × AreBeside b.tx.changes b.places.keys };
}

// How many temporary identifiers a change takes.
fn given(change: &Change) -> u32
    ensures { result ≡ given_by (change_of change.now) }
{
    match change {
        Change::Create { .. } => 1,
        Change::Update { .. } => 0,
        Change::Delete { .. } => 0,
        Change::Touch { .. } => 0,
    }
}

// How many temporary identifiers are given out after these changes. There is no memory for more than 4294967295.
fn made_after(made: u32, changes: &[Change]) -> Result<u32, NoMemory>
    ensures { IfOk result (λ after. after ≡ made + given_by_all (map change_of changes.now)) }
{
    let mut after = made;
    for change in changes {
        let Some(next) = after.checked_add(given(change)) else {
            return Err(NoMemory);
        };
        after = next;
    }
    Ok(after)
}

// Room for more changes and identifiers, which are as before.
fn make_room(
    changes: &mut Vec<Change>,
    places: &mut IndexSet<Rid>,
    more: usize,
) -> Result<(), NoMemory>
    ensures changes { changes.new.items ≡ changes.old.items }
    ensures places { places.new.keys ≡ places.old.keys }
    ensures room { OnOk result (vec_len changes.new + more ≤ vec_capacity changes.new) }
    ensures spare { OnOk result (more ≤ spare places.new) }
{
    changes.reserve(more)?;
    places.reserve(more)?;
    Ok(())
}

impl TxBuffer {
    /// No change; takes no memory.
    pub fn new(alloc: Global) -> Self
        ensures { tx_of result ≡ no_tx }
    {
        TxBuffer {
            tx: Tx {
                changes: ChangeList::new(alloc),
                made: 0,
            },
            places: IndexSet::new(alloc),
        }
    }

    /// The temporary identifier that the next new record is to have.
    pub fn next_temp(&self) -> Rid
        ensures { result ≡ temporary self.now.made }
    {
        Rid {
            cluster: -1,
            position: -2 - i64::from(self.tx.made),
        }
    }

    /// The transaction.
    pub fn tx(&self) -> &Tx
        ensures value { result.now ≡ self.now }
        ensures formed { IsFormed (tx_of self.now) }
    {
        &self.tx
    }

    /// The change of an identifier.
    pub fn change_of(&self, rid: Rid) -> Option<&Change>
        ensures value { option_map (λ c. change_of c.now) result ≡ change_at (map change_of self.now.changes) rid }
        ensures formed { IsFormed (tx_of self.now) }
    {
        placed_of(self.tx.changes.as_slice(), &self.places, rid)
    }

    /// The changes, to be laid over what a reader shows.
    pub(crate) fn overlay(&self) -> Overlay<'_>
        ensures { result.tx.now ≡ self.now }
    {
        Overlay::placed(&self.tx, &self.places)
    }

    /// Lets all changes go; takes no memory.
    pub fn clear(&mut self)
        ensures { tx_of self.new ≡ no_tx }
    {
        let alloc = *self.places.allocator();
        self.tx = Tx {
            changes: ChangeList::new(alloc),
            made: 0,
        };
        self.places.clear();
    }

    /// Stages changes, all or none. Each new record has the next temporary identifier, and no other change names a
    /// record that is deleted here, or a temporary identifier that isn't made here. It is out of memory, too, for
    /// more than 4294967295 temporary identifiers.
    pub fn stage(&mut self, changes: &ChangeList) -> Result<(), NoMemory>
        requires { CanStage (tx_of self.old) (map change_of changes.now) }
        ensures ok { OnOk result (tx_of self.new ≡ staged (tx_of self.old) (map change_of changes.now)) }
        ensures err { OnErr result (self.new ≡ self.old) }
    {
        let made = made_after(self.tx.made, changes.as_slice())?;
        let more = changes.copy()?.into_vec();
        let alloc = *self.places.allocator();
        let mut kept = mem::replace(&mut self.tx.changes, ChangeList::new(alloc)).into_vec();
        if let Err(fault) = make_room(&mut kept, &mut self.places, more.len()) {
            self.tx.changes = ChangeList::from_vec(kept);
            return Err(fault);
        }
        put_all(&mut kept, &mut self.places, more);
        self.tx = Tx {
            changes: ChangeList::from_vec(kept),
            made,
        };
        Ok(())
    }
}
