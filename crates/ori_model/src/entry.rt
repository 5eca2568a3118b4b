// The history: commits and schema changes.
ghost use Rattle.std.specs.Prelude.{◌≡◌, IfOk};

use crate::{IndexDef, Property, Tx};
use ori_bytes::{Copied, ListOf, NoMemory, RidList, Text};

/// A schema change, after OrientDB's manual ("CREATE CLASS", "CREATE PROPERTY", "CREATE INDEX").
#[derive(Drop)]
pub enum Definition {
    /// A class, with the class that it extends.
    NewClass { name: Text, parent: Option<Text> },
    /// A property of a class.
    NewProperty { class: Text, property: Property },
    /// An index.
    NewIndex { index: IndexDef },
}

impl Definition {
    /// A copy, or out of memory.
    pub fn copy(&self) -> Result<Self, NoMemory>
        ensures { IfOk result (λ d. d ≡ self.now) }
    {
        match self {
            Definition::NewClass { name, parent } => match parent {
                None => Ok(Definition::NewClass {
                    name: name.copy()?,
                    parent: None,
                }),
                Some(parent) => Ok(Definition::NewClass {
                    name: name.copy()?,
                    parent: Some(parent.copy()?),
                }),
            },
            Definition::NewProperty { class, property } => Ok(Definition::NewProperty {
                class: class.copy()?,
                property: property.copy()?,
            }),
            Definition::NewIndex { index } => Ok(Definition::NewIndex {
                index: index.copy()?,
            }),
        }
    }
}

/// An entry of the history. Sessions count from 1 to `MAX_SESSIONS`.
#[derive(Drop)]
pub enum Entry {
    /// A session's commit, with the identifiers that its new records have got, in order of creation.
    Commit { session: u8, tx: Tx, fresh: RidList },
    /// A session's schema change.
    Define { session: u8, definition: Definition },
}

impl Entry {
    /// A copy, or out of memory.
    pub fn copy(&self) -> Result<Self, NoMemory>
        ensures { IfOk result (λ e. e ≡ self.now) }
    {
        match self {
            Entry::Commit { session, tx, fresh } => Ok(Entry::Commit {
                session: *session,
                tx: tx.copy()?,
                fresh: fresh.copy()?,
            }),
            Entry::Define {
                session,
                definition,
            } => Ok(Entry::Define {
                session: *session,
                definition: definition.copy()?,
            }),
        }
    }
}

impl Copied for Entry {
    fn copied(&self) -> Result<Self, NoMemory> {
        self.copy()
    }
}

/// A list of entries.
pub type EntryList = ListOf<Entry>;

/// A list of entries, each with a place in the history.
pub type PlacedList = ListOf<(u64, Entry)>;

/// A commit that was accepted.
#[derive(Drop)]
pub struct Done {
    /// Its entry's place among those since the opening, from 0.
    pub place: u64,
    /// The identifiers of its new records, in order of creation.
    pub fresh: RidList,
}
