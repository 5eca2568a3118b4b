// A whole database as data.
ghost use Rattle.std.specs.Prelude.{◌≡◌, IfOk};

use crate::{BagNameList, Schema, StoredList};
use ori_bytes::{NoMemory, NumberList};

/// A whole database as data.
#[derive(Drop)]
pub struct Base {
    pub schema: Schema,
    /// The records in row order: by cluster, then by position.
    pub stored: StoredList,
    /// For each class in order of creation the position that its cluster gives to its next new record, from 0 to
    /// `MAX_POSITIONS`. Positions are given once: those of deleted records stay given.
    pub next: NumberList,
    /// The bags that are kept in trees.
    pub grown: BagNameList,
}

impl Base {
    /// A copy, or out of memory.
    pub fn copy(&self) -> Result<Self, NoMemory>
        ensures { IfOk result (λ b. b ≡ self.now) }
    {
        Ok(Base {
            schema: self.schema.copy()?,
            stored: self.stored.copy()?,
            next: self.next.copy()?,
            grown: self.grown.copy()?,
        })
    }
}
