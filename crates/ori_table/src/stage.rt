// A transaction is staged: why a table's base refuses it, or what it makes of the rows.
ghost use Rattle.std.specs.Prelude.{◌≡◌, ◌∷◌, [], None, IfOk, OnOk};
ghost use Rattle.ori_spec_data.specs.Apply.{IsFormed};
ghost use Rattle.ori_spec_data.specs.Refusing.{refusal};
ghost use Rattle.ori_model.specs.Data.{tx_of};
ghost use Rattle.ori_rows.specs.Rows.{base_with};
ghost use Rattle.ori_rows.specs.Outcomes.{put_all_in};
ghost use Rattle.ori_decide.specs.Told.{Answers};
ghost use Rattle.ori_table.specs.Data.{outcomes_data};
ghost use Rattle.ori_table.specs.Kept.{rows_of};

use crate::images::images_of;
use crate::outcome::outcomes_of;
use crate::{Outcome, Table};
use ori_bytes::{NoMemory, NumberList, RidList};
use ori_decide::{Decided, decide};
use ori_log::ImageList;
use ori_model::{CommitFault, Tx};
use std::alloc::Global;

/// A transaction that the base accepts: its outcomes in the order of their positions, the images of their pages, and
/// the identifiers of its new records.
#[derive(Drop)]
pub struct Staged {
    pub outcomes: Vec<Outcome>,
    pub images: ImageList,
    pub fresh: RidList,
}

// Puts outcomes in the order of their positions.
fn sort_by_place(outcomes: &mut Vec<Outcome>) -> Result<(), NoMemory>
    ensures { OnOk result (outcomes_data outcomes.new.items ≡ put_all_in [] (outcomes_data outcomes.old.items)) }
{
    outcomes.sort_by_key(|outcome| outcome.place)?;
    Ok(())
}

// The next positions of both clusters, where cluster 1 has given so many.
fn next_list(alloc: Global, given: u64) -> Result<NumberList, NoMemory>
    ensures { IfOk result (λ next. next ≡ given ∷ 0 ∷ []) }
{
    let mut next = NumberList::new(alloc);
    next.push(given)?;
    next.push(0)?;
    Ok(next)
}

impl Table {
    ghost use Rattle.ori_decide.specs.Deciding.{IsDecided};
    ghost use Rattle.ori_table.specs.Staged.{IsStaged};

    // What the base of the rows decides on a transaction.
    fn decide(&self, alloc: Global, tx: &Tx) -> Result<Decided, CommitFault>
        requires { IsFormed (tx_of tx.now) }
        ensures answers { Answers (refusal (base_with (rows_of self.now.0)) (tx_of tx.now)) result }
        ensures decided { IfOk result (IsDecided (base_with (rows_of self.now.0)) (tx_of tx.now)) }
    {
        let next = next_list(alloc, self.len())?;
        decide(alloc, self.schema().classes.as_slice(), &next, self, tx)
    }

    // The outcomes of a transaction that was decided, and their images. Memory is wanting for values of the kinds that
    // no statement writes yet.
    fn laid_out(&self, alloc: Global, tx: &Tx, decided: Decided) -> Result<Staged, NoMemory>
        requires formed { IsFormed (tx_of tx.now) }
        requires allowed { refusal (base_with (rows_of self.now.0)) (tx_of tx.now) ≡ None }
        requires decided { IsDecided (base_with (rows_of self.now.0)) (tx_of tx.now) decided }
        ensures { IfOk result (IsStaged (rows_of self.now.0) (tx_of tx.now)) }
    {
        self.keeps();
        let _ = &tx.made;
        let len = self.len();
        let next = len + decided.fresh.as_slice().len() as u64;
        let mut outcomes = outcomes_of(alloc, decided.written)?;
        sort_by_place(&mut outcomes)?;
        let images = images_of(alloc, len < next, next as u32 + 1, &outcomes)?;
        Ok(Staged {
            outcomes,
            images,
            fresh: decided.fresh,
        })
    }

    /// Stages a transaction, or says why the base refuses it. Memory is also wanting for one with values of the kinds
    /// that no statement writes yet. One without changes has no outcome and no image.
    pub fn stage(&self, alloc: Global, tx: &Tx) -> Result<Staged, CommitFault>
        requires { IsFormed (tx_of tx.now) }
        ensures answers { Answers (refusal (base_with (rows_of self.now.0)) (tx_of tx.now)) result }
        ensures staged { IfOk result (IsStaged (rows_of self.now.0) (tx_of tx.now)) }
    {
        let decided = self.decide(alloc, tx)?;
        Ok(self.laid_out(alloc, tx, decided)?)
    }
}
