// Temporary identifiers of new records, and what they become.
ghost use Rattle.std.specs.Prelude.{◌≡◌, ◌++◌, ◌∷◌, [], map, length, IfOk, OnOk};
ghost use Rattle.ori_spec_data.specs.Apply as spec;
ghost use Rattle.ori_spec_data.specs.Apply.{IsFormed};
ghost use Rattle.ori_model.specs.Data.{change_of, tx_of};
ghost use Rattle.ori_decide.specs.Renaming as renaming;
ghost use Rattle.ori_decide.specs.Leaving.{names, HasNew};
ghost use Rattle.ori_decide.specs.Renaming.{order_of, beside, IsOrdered, IsHalved};

use ori_bytes::{NoMemory, Rid};
use ori_model::{Change, Tx};
use std::alloc::Global;
use std::marker::Model;

/// The temporary identifier of a new record, and the one that it becomes.
pub type Renaming = (Rid, Rid);

/// The temporary identifiers of a transaction's new records in the order of their creation, each beside the identifier
/// that it becomes. A contract sees the list of these pairs.
#[derive(Drop)]
pub struct Renamings {
    pairs: Vec<Renaming>,
}

impl Model for Renamings {
    ghost use Rattle.std.specs.Prelude.{List};
    ghost use Rattle.ori_bytes.specs.declared.rid.Rid.{Rid};
    ghost use Rattle.ori_decide.specs.Renaming.{IsOrdered};

    ghost Value = { List (Rid × Rid) };

    ghost view = { λ r. r.pairs.items };

    ghost invariant = { λ r. IsOrdered 0 r.pairs.items };
}

/// Whether an identifier is one that a transaction gives to a new record until its commit.
pub fn is_temporary(rid: Rid) -> bool
    ensures { result ≡ spec.is_temporary rid }
{
    rid.cluster == -1 && rid.position < -1
}

// The place of a temporary identifier in the order of creation.
fn order_of(rid: Rid) -> u64
    ensures { result ≡ order_of rid }
{
    if rid.position >= -1 {
        return 0;
    }
    (-2 - rid.position) as u64
}

// One pair more, where a change makes a record.
fn add_unnamed(pairs: &mut Vec<Renaming>, change: &Change) -> Result<(), NoMemory>
    ensures { OnOk result (pairs.new.items ≡ pairs.old.items ++ renaming.unnamed (change_of change.now ∷ [])) }
{
    match change {
        Change::Create { temp, .. } => Ok(pairs.push((*temp, *temp))?),
        Change::Update { .. } => Ok(()),
        Change::Delete { .. } => Ok(()),
        Change::Touch { .. } => Ok(()),
    }
}

// The temporary identifiers of the new records of changes, each beside itself.
fn unnamed(alloc: Global, changes: &[Change]) -> Result<Vec<Renaming>, NoMemory>
    ensures { IfOk result (λ ps. ps.items ≡ renaming.unnamed (map change_of changes.now)) }
{
    let mut pairs = Vec::new(alloc);
    for change in changes {
        add_unnamed(&mut pairs, change)?;
    }
    Ok(pairs)
}

// Writes identifiers beside the first ones.
fn name_all(pairs: &mut Vec<Renaming>, fresh: &[Rid])
    requires { length pairs.old.items ≡ length fresh.now }
    ensures { pairs.new.items ≡ beside fresh.now pairs.old.items }
{
    for i in 0..fresh.len() {
        pairs[i].1 = fresh[i];
    }
}

// Where the pairs of places from that one on begin, found by halving.
fn place_of(pairs: &[Renaming], order: u64) -> usize
    requires { IsOrdered 0 pairs.now }
    ensures { IsHalved pairs.now order result }
{
    pairs.partition_point(|pair| order_of(pair.0) < order)
}

// What stands for an identifier beside the pairs.
#[tactic(auto, using(crate::proofs::Ordered::halved_past))]
fn real_in(pairs: &[Renaming], rid: Rid) -> Rid
    requires { IsOrdered 0 pairs.now }
    ensures { result ≡ spec.renamed pairs.now rid }
{
    let at = place_of(pairs, order_of(rid));
    if at >= pairs.len() {
        return rid;
    }
    if pairs[at].0 != rid {
        return rid;
    }
    pairs[at].1
}

// Whether an identifier is the first one of a pair.
#[tactic(auto, using(crate::proofs::Ordered::unnamed_past))]
fn has_in(pairs: &[Renaming], rid: Rid) -> bool
    requires { IsOrdered 0 pairs.now }
    ensures { result ≡ names pairs.now rid }
{
    let at = place_of(pairs, order_of(rid));
    if at >= pairs.len() {
        return false;
    }
    pairs[at].0 == rid
}

impl Renamings {
    /// The temporary identifiers of a formed transaction's new records, each beside itself until `give`.
    pub fn of(alloc: Global, tx: &Tx) -> Result<Renamings, NoMemory>
        requires { IsFormed (tx_of tx.now) }
        ensures unnamed { IfOk result (λ ps. ps ≡ renaming.unnamed (tx_of tx.now).changes) }
        ensures new { IfOk result (HasNew (tx_of tx.now).changes) }
    {
        let pairs = unnamed(alloc, tx.changes.as_slice())?;
        Ok(Renamings { pairs })
    }

    /// Writes the identifiers that a commit gave beside the temporary ones; takes no memory.
    pub fn give(&mut self, fresh: &[Rid])
        requires { length self.old ≡ length fresh.now }
        ensures { self.new ≡ beside fresh.now self.old }
    {
        name_all(&mut self.pairs, fresh);
    }

    /// What stands for an identifier: what it becomes if it is one of these, else itself. Found by halving.
    pub fn real(&self, rid: Rid) -> Rid
        ensures { result ≡ spec.renamed self.now rid }
    {
        real_in(&self.pairs, rid)
    }

    /// Whether an identifier is the first one of a pair. Found by halving.
    pub fn has(&self, rid: Rid) -> bool
        ensures { result ≡ names self.now rid }
    {
        has_in(&self.pairs, rid)
    }

    /// The pairs.
    pub fn as_slice(&self) -> &[Renaming]
        ensures { result.now ≡ self.now }
    {
        self.pairs.as_slice()
    }

    /// Gives the pairs; takes no memory.
    pub fn into_vec(self) -> Vec<Renaming>
        ensures { result.items ≡ self }
    {
        self.pairs
    }
}
