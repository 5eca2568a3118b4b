// The commit step: what a read step left is committed, and answered by what the keeper decides.
ghost use Rattle.std.specs.Prelude.{◌≡◌, [], Some, None, Ok, Err, IsSome, map, length, IfOk, if◌then◌else◌};
ghost use Rattle.ori_spec_data.specs.Apply.{relinked_fields};
ghost use Rattle.ori_spec_data.specs.Staging.{staged, no_tx};
ghost use Rattle.ori_spec_data.specs.Replies as spec;
ghost use Rattle.ori_spec_runs.specs.Answer.{one, whole, SessionData, with_open};
ghost use Rattle.ori_model.specs.Data.{change_of, tx_of};
ghost use Rattle.ori_model.specs.Decisions.{decision_of};
ghost use Rattle.ori_model.specs.Replies.{commit_refusal, refusal_of, reply_of, row_of};
ghost use Rattle.ori_model.specs.Standing.{Endures};
ghost use Rattle.ori_decide.specs.Renaming.{beside, unnamed};
ghost use Rattle.ori_session.specs.Sessions.{current_of, data_of, joined_by, plan_data, pending_of, front_of};
ghost use Rattle.ori_session.specs.Sessions.{IsPlanned, CanCommit};
ghost use Rattle.ori_session.specs.Rows.{rows_as};
ghost use Rattle.ori_session.specs.Fronts.{fronts_in, read_alone, decided_at, instead_of};
ghost use Rattle.ori_session.specs.Commits.{stays, IsDecided};

use crate::replies::refused;
use crate::rows::rows_as;
use crate::{Pending, Session};
use ori_bytes::{NoMemory, RidList};
use ori_decide::{Renamings, relink};
use ori_model::{CommitFault, Keeper, Plan, Refusal, Reply, RidPairList, Row, RowList};
use ori_txn::TxBuffer;
use std::alloc::Global;

// Why a statement is refused whose commit is.
fn commit_refusal(fault: CommitFault) -> Refusal
    ensures { refusal_of result ≡ commit_refusal fault }
{
    match fault {
        CommitFault::Halted { at_fault } => Refusal::Halted { at_fault },
        CommitFault::FeedFull { entries, bytes } => Refusal::FeedFull { entries, bytes },
        CommitFault::Conflict {
            rid,
            expected,
            found,
        } => Refusal::Conflict {
            rid,
            expected,
            found,
        },
        CommitFault::Schema {
            rid,
            property,
            rule,
        } => Refusal::Schema {
            rid,
            property,
            rule,
        },
        CommitFault::RecordTooLarge { rid, bytes } => Refusal::RecordTooLarge { rid, bytes },
        CommitFault::KeyTooLong { index, rid, bytes } => Refusal::KeyTooLong { index, rid, bytes },
        CommitFault::Duplicate {
            index,
            first,
            second,
        } => Refusal::Duplicate {
            index,
            first,
            second,
        },
        CommitFault::ClusterFull { cluster } => Refusal::ClusterFull { cluster },
        CommitFault::TxTooLarge { weight } => Refusal::TxTooLarge { weight },
        CommitFault::PagesFull { in_use, weight } => Refusal::PagesFull { in_use, weight },
        CommitFault::LogFull { need, room } => Refusal::LogFull { need, room },
        CommitFault::Fault => Refusal::Fault,
        CommitFault::Device => Refusal::Device,
        CommitFault::Busy { turn } => Refusal::Busy { turn },
        CommitFault::Damaged { page } => Refusal::Damaged { page },
        CommitFault::NoMemory => Refusal::NoMemory,
    }
}

// Whether a transaction stays open after its commit was refused so, since nothing was wrong with it.
fn stays_open(fault: &CommitFault) -> bool
    ensures { result ≡ stays (decision_of (Err fault.now)) }
{
    matches!(
        fault,
        CommitFault::Device | CommitFault::Busy { .. } | CommitFault::NoMemory
    )
}

// The front at which a commit was refused so, which had met this one; none where there was no memory for a decision.
fn refused_at(fault: &CommitFault, met: u64) -> Option<u64>
    ensures { result ≡ decided_at met (decision_of (Err fault.now)) }
{
    match fault {
        CommitFault::NoMemory => None,
        _ => Some(met),
    }
}

// Renames the links of rows; takes no memory.
fn relink_rows(alloc: Global, rows: &mut Vec<Row>, pairs: &Renamings)
    ensures { map row_of rows.new.items ≡ map (relinked_fields pairs.now) (map row_of rows.old.items) }
{
    for i in 0..rows.len() {
        relink(alloc, &mut rows[i].columns, pairs);
    }
}

// What a statement's commit takes of memory: its changes as a transaction, and the rows of its new records.
#[derive(Drop)]
struct Prepared {
    buffer: TxBuffer,
    rows: Vec<Row>,
    pairs: Renamings,
}

fn prepare(alloc: Global, plan: &Plan) -> Result<Prepared, NoMemory>
    requires { IsPlanned (plan_data plan.now) }
    ensures tx { IfOk result (λ p. tx_of p.buffer ≡ staged no_tx (plan_data plan.now).changes) }
    ensures rows { IfOk result (λ p. map row_of p.rows.items ≡ rows_as 1 (tx_of p.buffer).changes) }
    ensures pairs { IfOk result (λ p. p.pairs ≡ unnamed (tx_of p.buffer).changes) }
{
    let mut buffer = TxBuffer::new(alloc);
    buffer.stage(&plan.changes)?;
    let rows = rows_as(alloc, 1, buffer.tx().changes.as_slice())?.into_vec();
    let pairs = Renamings::of(alloc, buffer.tx())?;
    Ok(Prepared {
        buffer,
        rows,
        pairs,
    })
}

// The reply to a statement's commit that was accepted; takes no memory.
fn accepted(
    alloc: Global,
    prepared: Prepared,
    fresh: &RidList,
    count: u64,
    front: u64,
    commit_front: u64,
) -> Reply
    requires { length prepared.pairs ≡ length fresh.now }
    ensures reply { reply_of result ≡ spec.granted
        (map (relinked_fields (beside fresh.now prepared.pairs)) (map row_of prepared.rows.items)) count }
    ensures fronts { fronts_in result ≡ record { read = front; commit = Some commit_front } }
{
    let Prepared {
        mut rows,
        mut pairs,
        ..
    } = prepared;
    pairs.give(fresh.as_slice());
    relink_rows(alloc, &mut rows, &pairs);
    Reply {
        rows: RowList::from_vec(rows),
        temps: RidPairList::new(alloc),
        told: Ok(count),
        read_front: front,
        commit_front: Some(commit_front),
    }
}

// The reply to a statement's commit that was refused; takes no memory.
fn refused_plan(alloc: Global, fault: CommitFault, front: u64, met: u64) -> Reply
    ensures reply { reply_of result ≡ spec.refused (commit_refusal fault) }
    ensures fronts { fronts_in result ≡ record { read = front; commit = decided_at met (decision_of (Err fault)) } }
{
    let commit_front = refused_at(&fault, met);
    let mut reply = refused(alloc, commit_refusal(fault), front);
    reply.commit_front = commit_front;
    reply
}

// Commits a statement's changes. All memory is taken before the keeper is called.
fn commit_plan<K: Keeper>(
    alloc: Global,
    session: u8,
    keeper: &mut K,
    plan: &Plan,
    front: u64,
) -> Reply
    requires { IsPlanned (plan_data plan.now) }
    ensures decided { (kept : SessionData) → IsDecided (K.state keeper.old) session (one (plan_data plan.now)) front
        (K.causes keeper.old) (K.causes keeper.new) kept result kept (K.state keeper.new) }
    ensures endures { Endures K.sound K.lent K.below keeper.old keeper.new }
    ensures fetched { K.fetched keeper.new ≡ K.fetched keeper.old }
{
    let prepared = match prepare(alloc, plan) {
        Ok(prepared) => prepared,
        Err(_) => return refused(alloc, Refusal::NoMemory, front),
    };
    let met = keeper.front();
    match keeper.commit(session, prepared.buffer.tx()) {
        Ok(done) => accepted(
            alloc,
            prepared,
            &done.fresh,
            plan.count,
            front,
            done.place + 1,
        ),
        Err(fault) => refused_plan(alloc, fault, front, met),
    }
}

// The reply to a transaction's commit that was accepted; takes no memory.
fn accepted_whole(alloc: Global, pairs: Renamings, fresh: &RidList, count: u64, front: u64) -> Reply
    requires { length pairs ≡ length fresh.now }
    ensures reply { reply_of result ≡ record { rows = []; temps = beside fresh.now pairs; told = Ok count } }
    ensures fronts { fronts_in result ≡ read_alone front }
{
    let mut pairs = pairs;
    pairs.give(fresh.as_slice());
    Reply {
        rows: RowList::new(alloc),
        temps: RidPairList::from_vec(pairs.into_vec()),
        told: Ok(count),
        read_front: front,
        commit_front: None,
    }
}

// The reply to a transaction's commit that was refused; takes no memory.
fn refused_whole(alloc: Global, fault: CommitFault, front: u64, met: u64) -> Reply
    ensures reply { reply_of result ≡ spec.refused (commit_refusal fault) }
    ensures fronts { fronts_in result ≡ read_alone (instead_of front (decided_at met (decision_of (Err fault)))) }
{
    let decided = match refused_at(&fault, met) {
        None => front,
        Some(at) => at,
    };
    refused(alloc, commit_refusal(fault), decided)
}

// Commits a session's transaction. All memory is taken before the keeper is called.
fn commit_tx<K: Keeper>(
    alloc: Global,
    session: u8,
    keeper: &mut K,
    buffer: &TxBuffer,
    front: u64,
) -> (Reply, bool)
    ensures decided { (kept : SessionData) → IsDecided (K.state keeper.old) session (whole (tx_of buffer.now)) front
        (K.causes keeper.old) (K.causes keeper.new) kept result.0
        (if result.1 then kept else with_open kept None) (K.state keeper.new) }
    ensures endures { Endures K.sound K.lent K.below keeper.old keeper.new }
    ensures fetched { K.fetched keeper.new ≡ K.fetched keeper.old }
{
    let pairs = match Renamings::of(alloc, buffer.tx()) {
        Ok(pairs) => pairs,
        Err(_) => return (refused(alloc, Refusal::NoMemory, front), true),
    };
    let met = keeper.front();
    match keeper.commit(session, buffer.tx()) {
        Ok(done) => {
            let count = buffer.tx().changes.as_slice().len() as u64;
            (
                accepted_whole(alloc, pairs, &done.fresh, count, done.place + 1),
                false,
            )
        }
        Err(fault) => {
            let stays = stays_open(&fault);
            (refused_whole(alloc, fault, front, met), stays)
        }
    }
}

impl Session {
    // Commits the open transaction.
    fn commit_whole<K: Keeper>(&mut self, alloc: Global, keeper: &mut K, front: u64) -> Reply
        requires { IsSome (current_of self.old) }
        ensures decided { IsDecided (K.state keeper.old) self.old.number (whole (joined_by (current_of self.old))) front
            (K.causes keeper.old) (K.causes keeper.new) (data_of self.old) result (data_of self.new)
            (K.state keeper.new) }
        ensures number { self.new.number ≡ self.old.number }
        ensures endures { Endures K.sound K.lent K.below keeper.old keeper.new }
        ensures fetched { K.fetched keeper.new ≡ K.fetched keeper.old }
    {
        match &self.current {
            None => unreachable!(),
            Some(buffer) => {
                let (reply, stays) = commit_tx(alloc, self.number, keeper, buffer, front);
                if stays {
                    return reply;
                }
                self.rollback();
                reply
            }
        }
    }

    /// Commits what the session's last step, a read step, left. It takes its memory before it calls the keeper, so
    /// that out of memory leaves all as it was, and reads nothing after an accepted commit. After it the session has
    /// nothing open, but where a COMMIT was refused as out of memory, by the device or as busy: the transaction
    /// stays then and may be committed again.
    pub fn commit_step<K: Keeper>(
        &mut self,
        alloc: Global,
        keeper: &mut K,
        pending: Pending,
    ) -> Reply
        requires { CanCommit (data_of self.old) pending }
        ensures decided { IsDecided (K.state keeper.old) self.old.number (pending_of (data_of self.old) pending)
            (front_of pending) (K.causes keeper.old) (K.causes keeper.new) (data_of self.old) result (data_of self.new)
            (K.state keeper.new) }
        ensures number { self.new.number ≡ self.old.number }
        ensures endures { Endures K.sound K.lent K.below keeper.old keeper.new }
        ensures fetched { K.fetched keeper.new ≡ K.fetched keeper.old }
    {
        match pending {
            Pending::Tx { plan, front } => commit_plan(alloc, self.number, keeper, &plan, front),
            Pending::Whole { front } => self.commit_whole(alloc, keeper, front),
            Pending::Schema { .. } => unreachable!(),
        }
    }
}
