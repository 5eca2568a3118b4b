// What a statement changes, and what becomes of its changes: they join the open transaction, or are left to be
// committed.
ghost use Rattle.std.specs.Prelude.{◌≡◌, ◌++◌, ◌∷◌, [], Some, None, map, IfOk, OnOk, OnErr, codes};
ghost use Rattle.ori_spec_data.specs.Value.{pair, no_pairs};
ghost use Rattle.ori_spec_data.specs.Base.{create, update};
ghost use Rattle.ori_spec_data.specs.Apply.{temporary};
ghost use Rattle.ori_spec_data.specs.Fields.{put};
ghost use Rattle.ori_spec_data.specs.Staging.{CanStage};
ghost use Rattle.ori_spec_data.specs.Views.{ViewData, created_of};
ghost use Rattle.ori_spec_texts.specs.Statement.{begins, commits, rolls_back};
ghost use Rattle.ori_spec_runs.specs.Answer.{rids_of, planned, plan_of, made_in, SessionData, with_open};
ghost use Rattle.ori_spec_runs.specs.Answer.{alone, joined, changed, meaning};
ghost use Rattle.ori_model.specs.Data.{change_of, tx_of};
ghost use Rattle.ori_session.specs.declared.stage.Stage.TheVariants.{Answered};
ghost use Rattle.ori_session.specs.Statements.{literal_of};
ghost use Rattle.ori_session.specs.Sessions.{current_of, data_of, joined_by, plan_data, IsPlanned};
ghost use Rattle.ori_session.specs.Reads.{IsStage, HasFront, CanGoOn};

use crate::hand::Literal;
use crate::replies::{granted, refused};
use crate::rows::{put_named, rows_as, written};
use crate::{Pending, Session, Stage};
use ori_bytes::{NoMemory, Rid, RidList, Text};
use ori_model::{Change, ChangeList, Plan, Refusal, Reply, RowList, Stored};
use ori_txn::TxBuffer;
use ori_value::FieldList;
use std::alloc::Global;

// One change.
pub fn single(alloc: Global, change: Change) -> Result<ChangeList, NoMemory>
    ensures { IfOk result (λ cs. cs ≡ change ∷ []) }
{
    let mut changes = ChangeList::new(alloc);
    changes.push(change)?;
    Ok(changes)
}

// A new vertex with one field.
pub fn creation(
    alloc: Global,
    temp: Rid,
    name: &str,
    value: Literal<'_>,
) -> Result<Change, NoMemory>
    ensures { IfOk result (λ c. change_of c
        ≡ create temp (codes "V") (pair name.now (literal_of value.entry) no_pairs)) }
{
    let mut fields = FieldList::new(alloc);
    put_named(alloc, &mut fields, name, written(alloc, value)?)?;
    Ok(Change::Create {
        temp,
        class: Text::from_str(alloc, "V")?,
        fields,
    })
}

// A record with one field set.
pub fn with_field(
    alloc: Global,
    stored: Stored,
    name: &str,
    value: Literal<'_>,
) -> Result<Change, NoMemory>
    ensures { IfOk result (λ c. change_of c
        ≡ update stored.rid stored.version (put name.now (literal_of value.entry) stored.fields)) }
{
    let mut fields = stored.fields;
    put_named(alloc, &mut fields, name, written(alloc, value)?)?;
    Ok(Change::Update {
        rid: stored.rid,
        version: stored.version,
        fields,
    })
}

// The temporary identifiers of the records that changes make.
fn temps_of(alloc: Global, changes: &[Change]) -> Result<RidList, NoMemory>
    ensures { IfOk result (λ rids. rids ≡ rids_of (created_of (map change_of changes.now))) }
{
    let mut rids = RidList::new(alloc);
    for change in changes {
        add_temp(&mut rids, change)?;
    }
    Ok(rids)
}

// One more, where a change makes a record.
fn add_temp(rids: &mut RidList, change: &Change) -> Result<(), NoMemory>
    ensures { OnOk result (rids.new ≡ rids.old ++ rids_of (created_of (change_of change.now ∷ []))) }
{
    match change {
        Change::Create { temp, .. } => rids.push(*temp),
        Change::Update { .. } => Ok(()),
        Change::Delete { .. } => Ok(()),
        Change::Touch { .. } => Ok(()),
    }
}

// What a statement's changes come to.
fn planned(alloc: Global, changes: ChangeList) -> Result<Plan, NoMemory>
    ensures { IfOk result (λ plan. plan_data plan ≡ plan_of (map change_of changes)) }
{
    let rows = temps_of(alloc, changes.as_slice())?;
    let count = changes.as_slice().len() as u64;
    Ok(Plan {
        changes,
        rows,
        count,
    })
}

// A plan outside a transaction is left to be committed; one of no change is answered at once.
fn leave(alloc: Global, front: u64, plan: Plan) -> Stage
    requires { IsPlanned (plan_data plan) }
    ensures stage { (kept : SessionData) → IsStage (alone (plan_data plan)) kept result kept }
    ensures left { (kept : SessionData) → kept.transaction ≡ None → CanGoOn kept result kept }
    ensures front { HasFront front result }
{
    if plan.changes.as_slice().len() == 0 {
        return Stage::Answered(granted(alloc, RowList::new(alloc), plan.count, front));
    }
    Stage::Commits(Pending::Tx { plan, front })
}

// The changes of a plan inside a transaction join it.
fn join(alloc: Global, front: u64, buffer: &mut TxBuffer, plan: &Plan) -> Result<Reply, NoMemory>
    requires { CanStage (tx_of buffer.old) (plan_data plan.now).changes }
    ensures ok { IfOk result (λ reply. (kept : SessionData) → IsStage
        (joined kept (tx_of buffer.old) (plan_data plan.now)) kept (Answered reply)
        (with_open kept (Some (tx_of buffer.new)))) }
    ensures err { OnErr result (buffer.new ≡ buffer.old) }
    ensures front { IfOk result (λ reply. HasFront front (Answered reply)) }
{
    let rows = rows_as(alloc, 0, plan.changes.as_slice())?;
    buffer.stage(&plan.changes)?;
    Ok(granted(alloc, rows, plan.count, front))
}

impl Session {
    // The temporary identifier that the session's next new record is to have.
    pub(crate) fn next_temp(&self) -> Rid
        ensures { result ≡ temporary (made_in (current_of self.now)) }
    {
        match &self.current {
            None => Rid {
                cluster: -1,
                position: -2,
            },
            Some(buffer) => buffer.next_temp(),
        }
    }

    // What becomes of a statement's changes.
    pub(crate) fn change(
        &mut self,
        alloc: Global,
        front: u64,
        changes: ChangeList,
    ) -> Result<Stage, NoMemory>
        requires { CanStage (joined_by (current_of self.old)) (map change_of changes) }
        ensures stage { IfOk result (λ stage. IsStage
            (changed (data_of self.old) (current_of self.old) (planned (plan_of (map change_of changes))))
            (data_of self.old) stage (data_of self.new)) }
        ensures left { IfOk result (λ stage. CanGoOn (data_of self.old) stage (data_of self.new)) }
        ensures front { IfOk result (HasFront front) }
        ensures err { OnErr result (self.new ≡ self.old) }
        ensures number { self.new.number ≡ self.old.number }
    {
        let plan = planned(alloc, changes)?;
        match &mut self.current {
            None => Ok(leave(alloc, front, plan)),
            Some(buffer) => Ok(Stage::Answered(join(alloc, front, buffer, &plan)?)),
        }
    }

    // BEGIN.
    pub(crate) fn begun(&mut self, alloc: Global, front: u64) -> Reply
        ensures stage { (view : ViewData) → IsStage (meaning view (data_of self.old) begins) (data_of self.old)
            (Answered result) (data_of self.new) }
        ensures front { HasFront front (Answered result) }
        ensures number { self.new.number ≡ self.old.number }
    {
        match &self.current {
            Some(_) => refused(alloc, Refusal::InTransaction, front),
            None => {
                self.current = Some(TxBuffer::new(alloc));
                granted(alloc, RowList::new(alloc), 0, front)
            }
        }
    }

    // COMMIT. A transaction without changes ends at once.
    pub(crate) fn ended(&mut self, alloc: Global, front: u64) -> Stage
        ensures stage { (view : ViewData) → IsStage (meaning view (data_of self.old) commits) (data_of self.old)
            result (data_of self.new) }
        ensures left { CanGoOn (data_of self.old) result (data_of self.new) }
        ensures front { HasFront front result }
        ensures number { self.new.number ≡ self.old.number }
    {
        match &self.current {
            None => Stage::Answered(refused(alloc, Refusal::NoTransaction, front)),
            Some(buffer) => {
                if buffer.tx().changes.as_slice().len() > 0 {
                    return Stage::Commits(Pending::Whole { front });
                }
                self.rollback();
                Stage::Answered(granted(alloc, RowList::new(alloc), 0, front))
            }
        }
    }

    // ROLLBACK.
    pub(crate) fn rolled_back(&mut self, alloc: Global, front: u64) -> Reply
        ensures stage { (view : ViewData) → IsStage (meaning view (data_of self.old) rolls_back) (data_of self.old)
            (Answered result) (data_of self.new) }
        ensures front { HasFront front (Answered result) }
        ensures number { self.new.number ≡ self.old.number }
    {
        match &self.current {
            None => refused(alloc, Refusal::NoTransaction, front),
            Some(_) => {
                self.rollback();
                granted(alloc, RowList::new(alloc), 0, front)
            }
        }
    }
}
