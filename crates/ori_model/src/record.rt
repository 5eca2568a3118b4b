// Records.
ghost use Rattle.std.specs.Prelude.{◌≡◌, IfOk};

use ori_bytes::{Copied, ListOf, NoMemory, Rid, Text};
use ori_value::FieldList;

/// A record, after OrientDB's manual ("Records").
#[derive(Drop)]
pub struct Stored {
    pub rid: Rid,
    /// How often it was committed: 1 after its creation. A new record that isn't committed yet is shown with 0.
    pub version: u32,
    /// The name of its class.
    pub class: Text,
    pub fields: FieldList,
}

impl Stored {
    /// A copy, or out of memory.
    pub fn copy(&self) -> Result<Self, NoMemory>
        ensures { IfOk result (λ s. s ≡ self.now) }
    {
        Ok(Stored {
            rid: self.rid,
            version: self.version,
            class: self.class.copy()?,
            fields: self.fields.copy()?,
        })
    }
}

impl Copied for Stored {
    fn copied(&self) -> Result<Self, NoMemory> {
        self.copy()
    }
}

/// A list of records.
pub type StoredList = ListOf<Stored>;
