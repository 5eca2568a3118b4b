// What transactions do to records.
ghost use Rattle.std.specs.Prelude.{◌≡◌, IfOk, Some, None, option_map};
ghost use Rattle.ori_spec_data.specs.Apply.{target};
ghost use Rattle.ori_spec_data.specs.Staging.{laid_over};
ghost use Rattle.ori_model.specs.Data.{change_of, record_of};

use crate::Stored;
use ori_bytes::{Copied, ListOf, NoMemory, Rid, Text};
use ori_value::FieldList;

/// What a transaction does to one record. All but `Create` name the version that the transaction has seen, which the
/// commit compares with the record's, as OrientDB's manual has it ("Concurrency").
#[derive(Drop)]
pub enum Change {
    /// Makes a record, which has this temporary identifier until the commit: cluster -1, and a position from -2
    /// downwards. After OrientDB's manual ("Transactions").
    Create {
        temp: Rid,
        class: Text,
        fields: FieldList,
    },
    /// Gives a record these fields.
    Update {
        rid: Rid,
        version: u32,
        fields: FieldList,
    },
    /// Takes a record away.
    Delete {
        rid: Rid,
        version: u32,
    },
    /// Gives a record a new version alone, since an edge of it was made or deleted.
    Touch {
        rid: Rid,
        version: u32,
    },
}

impl Change {
    /// A copy, or out of memory.
    pub fn copy(&self) -> Result<Self, NoMemory>
        ensures { IfOk result (λ c. c ≡ self.now) }
    {
        Ok(match self {
            Change::Create {
                temp,
                class,
                fields,
            } => Change::Create {
                temp: *temp,
                class: class.copy()?,
                fields: fields.copy()?,
            },
            Change::Update {
                rid,
                version,
                fields,
            } => Change::Update {
                rid: *rid,
                version: *version,
                fields: fields.copy()?,
            },
            Change::Delete { rid, version } => Change::Delete {
                rid: *rid,
                version: *version,
            },
            Change::Touch { rid, version } => Change::Touch {
                rid: *rid,
                version: *version,
            },
        })
    }

    /// The identifier of the record that it is of; of a new one the temporary.
    pub fn target(&self) -> Rid
        ensures { result ≡ target (change_of self.now) }
    {
        match self {
            Change::Create { temp, .. } => *temp,
            Change::Update { rid, .. } => *rid,
            Change::Delete { rid, .. } => *rid,
            Change::Touch { rid, .. } => *rid,
        }
    }

    /// The new record as its transaction shows it, with the temporary identifier and version 0, where it makes one.
    pub fn created(&self) -> Result<Option<Stored>, NoMemory>
        ensures { IfOk result (λ o. option_map record_of o ≡ laid_over (Some (change_of self.now)) None) }
    {
        match self {
            Change::Create {
                temp,
                class,
                fields,
            } => Ok(Some(Stored {
                rid: *temp,
                version: 0,
                class: class.copy()?,
                fields: fields.copy()?,
            })),
            Change::Update { .. } => Ok(None),
            Change::Delete { .. } => Ok(None),
            Change::Touch { .. } => Ok(None),
        }
    }
}

impl Copied for Change {
    fn copied(&self) -> Result<Self, NoMemory> {
        self.copy()
    }
}

/// A list of changes.
pub type ChangeList = ListOf<Change>;

/// A transaction. Only a formed one is committed: one change for each identifier; the new records have some of the
/// first `made` temporary identifiers, in order of creation, and no other change names a temporary one; fields have
/// names that aren't empty and aren't those of bags, and values nest at most `MAX_NESTING` deep.
#[derive(Drop)]
pub struct Tx {
    pub changes: ChangeList,
    /// How many temporary identifiers it has given out, those of records that it has deleted again among them.
    pub made: u32,
}

impl Tx {
    /// A copy, or out of memory.
    pub fn copy(&self) -> Result<Self, NoMemory>
        ensures { IfOk result (λ t. t ≡ self.now) }
    {
        Ok(Tx {
            changes: self.changes.copy()?,
            made: self.made,
        })
    }
}
