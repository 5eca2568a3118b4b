// A note of one change of a disk in memory.
use crate::change::Undo;
use ori_volume::FileNo;

/// A change of one file, and how many calls just before it left no note for want of memory.
#[derive(Drop)]
pub struct Note {
    pub file: FileNo,
    pub undo: Undo,
    pub unnoted: u64,
}
