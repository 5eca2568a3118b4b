// An entry of which it isn't known whether it stands.
use ori_model::Entry;

/// The entry whose append failed, and the number of records that the log would have with it: who opens the files again
/// sees by that number whether it stands.
#[derive(Drop)]
pub struct Doubt {
    pub tail: u64,
    pub entry: Entry,
}
