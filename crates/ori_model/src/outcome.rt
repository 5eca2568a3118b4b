// What statements plan, and what a run leaves.
use crate::{ChangeList, Entry, EntryList, PlacedList};
use ori_bytes::{NumberList, RidList};

/// What a statement wants to commit.
#[derive(Drop)]
pub struct Plan {
    pub changes: ChangeList,
    /// The records that its rows show.
    pub rows: RidList,
    /// The count that its reply tells.
    pub count: u64,
}

/// What a run made of the database.
#[derive(Drop)]
pub struct Report {
    /// Whether the volume was opened and held the initial database at entry.
    pub was_empty: bool,
    /// The entries of this run, in order.
    pub history: EntryList,
    /// The entry whose writing failed and that no reopening has decided.
    pub doubt: Option<Entry>,
    /// The entries whose writing failed and that a reopening has decided, each with the history's length at its
    /// failure.
    pub failed: PlacedList,
    /// For each entry of the history the volume's moment when it was acknowledged, or when a reopening found it.
    pub marks: NumberList,
}

/// The status of a run, the volume, and the report.
#[derive(Drop)]
pub struct Outcome<V> {
    pub status: u8,
    pub volume: V,
    pub report: Report,
}
