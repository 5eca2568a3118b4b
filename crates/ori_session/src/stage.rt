// What a read step leaves.
use ori_model::{Definition, Plan, Reply};

/// What is left for a commit step, with the front that the read step saw.
#[derive(Drop)]
pub enum Pending {
    /// The changes of one statement.
    Tx { plan: Plan, front: u64 },
    /// The session's open transaction.
    Whole { front: u64 },
    /// A schema change. No statement makes one yet.
    Schema { definition: Definition, front: u64 },
}

/// What a read step made of a statement: its reply, or what is to be committed first.
#[derive(Drop)]
pub enum Stage {
    Answered(Reply),
    Commits(Pending),
}
