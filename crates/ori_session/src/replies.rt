// Replies without a commit.
ghost use Rattle.std.specs.Prelude.{◌≡◌, map};
ghost use Rattle.ori_spec_data.specs.Replies as spec;
ghost use Rattle.ori_model.specs.Replies.{refusal_of, read_refusal, reply_of, row_of};
ghost use Rattle.ori_session.specs.Fronts.{fronts_in, read_alone};

use ori_model::{ReadFault, Refusal, Reply, RidPairList, RowList};
use std::alloc::Global;

// Rows and their count; takes no memory.
pub fn granted(alloc: Global, rows: RowList, count: u64, front: u64) -> Reply
    ensures reply { reply_of result ≡ spec.granted (map row_of rows) count }
    ensures fronts { fronts_in result ≡ read_alone front }
{
    Reply {
        rows,
        temps: RidPairList::new(alloc),
        told: Ok(count),
        read_front: front,
        commit_front: None,
    }
}

// A refusal; takes no memory.
pub fn refused(alloc: Global, why: Refusal, front: u64) -> Reply
    ensures reply { reply_of result ≡ spec.refused (refusal_of why) }
    ensures fronts { fronts_in result ≡ read_alone front }
{
    Reply {
        rows: RowList::new(alloc),
        temps: RidPairList::new(alloc),
        told: Err(why),
        read_front: front,
        commit_front: None,
    }
}

// Why a statement is refused whose read failed.
pub fn read_refusal(fault: ReadFault) -> Refusal
    ensures { refusal_of result ≡ read_refusal fault }
{
    match fault {
        ReadFault::Device => Refusal::Device,
        ReadFault::Busy { turn } => Refusal::Busy { turn },
        ReadFault::Damaged { page } => Refusal::Damaged { page },
        ReadFault::NoMemory => Refusal::NoMemory,
    }
}
