// The changes that a reader lays over what another shows, and how the change of an identifier is found among them.
ghost use Rattle.std.specs.Prelude.{◌≡◌, ◌∷◌, [], map, option_map};
ghost use Rattle.ori_spec_data.specs.Apply.{IsFormed};
ghost use Rattle.ori_spec_data.specs.Staging.{change_at};
ghost use Rattle.ori_model.specs.Data.{change_of, tx_of};
ghost use Rattle.ori_txn.specs.Places.{keys_of, named_each, lists-prop, AreBeside};

use crate::merge::place_of;
use indexmap::IndexSet;
use ori_bytes::Rid;
use ori_model::{Change, Tx};
use std::slice;

/// A formed transaction, and where they are kept the places of its identifiers among the changes. These are a slice of
/// one or none, since a caller of a reader knows the reader below it again only where no enum stands beside that.
#[derive(Clone, Copy)]
pub struct Overlay<'a> {
    pub tx: &'a Tx,
    places: &'a [IndexSet<Rid>],
    pub ghost formed: { ∥ IsFormed (tx_of tx.now) ∥₁ },
    ghost beside: { keys_of places.now ≡ named_each tx.now.changes places.now } by { lists-prop _ _ },
}

impl<'a> Overlay<'a> {
    /// A transaction by itself.
    pub fn new(tx: &'a Tx) -> Self
        requires { IsFormed (tx_of tx.now) }
        ensures { result.tx.now ≡ tx.now }
    {
        Overlay { tx, places: &[] }
    }

    /// A transaction beside the identifiers that its changes name, in their order.
    pub fn placed(tx: &'a Tx, places: &'a IndexSet<Rid>) -> Self
        requires formed { IsFormed (tx_of tx.now) }
        requires beside { AreBeside tx.now.changes places.now.keys }
        ensures { result.tx.now ≡ tx.now }
    {
        Overlay {
            tx,
            places: slice::from_ref(places),
        }
    }

    /// The change of an identifier.
    pub fn change_at(&self, rid: Rid) -> Option<&Change>
        ensures { option_map (λ c. change_of c.now) result ≡ change_at (map change_of self.now.tx.now.changes) rid }
    {
        let changes = self.tx.changes.as_slice();
        match self.places {
            [] => first_of(changes, rid),
            [places, ..] => placed_of(changes, places, rid),
        }
    }
}

// The change of an identifier, by going through the changes.
fn first_of(changes: &[Change], rid: Rid) -> Option<&Change>
    ensures { option_map (λ c. change_of c.now) result ≡ change_at (map change_of changes.now) rid }
{
    for change in changes {
        if rid == change.target() {
            return Some(change);
        }
    }
    None
}

/// The change of an identifier, by its place.
pub fn placed_of<'a>(changes: &'a [Change], places: &IndexSet<Rid>, rid: Rid) -> Option<&'a Change>
    requires { AreBeside changes.now places.now.keys }
    ensures { option_map (λ c. change_of c.now) result ≡ change_at (map change_of changes.now) rid }
{
    match place_of(places, rid) {
        Some(at) => Some(&changes[at]),
        None => None,
    }
}
