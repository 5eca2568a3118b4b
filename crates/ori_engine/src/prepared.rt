// What a commit has ready before it writes.
use ori_bytes::RidList;
use ori_model::Entry;
use ori_table::Staged;

/// A transaction that was staged, its entry, the identifiers of its new records, and the feed's bytes with the entry.
#[derive(Drop)]
pub(crate) struct Prepared {
    pub staged: Staged,
    pub entry: Entry,
    pub fresh: RidList,
    pub bytes: u64,
}
