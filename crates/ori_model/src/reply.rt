// Replies to statements.
ghost use Rattle.std.specs.Prelude.{◌≡◌, IfOk};

use crate::Rule;
use ori_bytes::{Copied, ListOf, NoMemory, Rid, Text};
use ori_value::FieldList;

/// A row by its columns.
#[derive(Drop)]
pub struct Row {
    pub columns: FieldList,
}

impl Row {
    /// A copy, or out of memory.
    pub fn copy(&self) -> Result<Self, NoMemory>
        ensures { IfOk result (λ r. r ≡ self.now) }
    {
        Ok(Row {
            columns: self.columns.copy()?,
        })
    }
}

impl Copied for Row {
    fn copied(&self) -> Result<Self, NoMemory> {
        self.copy()
    }
}

/// A list of rows.
pub type RowList = ListOf<Row>;

/// A list of pairs of identifiers: a temporary one, and the one that it became.
pub type RidPairList = ListOf<(Rid, Rid)>;

/// Why a statement was refused: one variant for each text that a refused statement prints, whose first word is its
/// name.
#[derive(Drop)]
pub enum Refusal {
    /// A character that begins no token, or a wrong escape. `at` is a byte of the statement's text, from 0, as in each
    /// of these.
    BadChar {
        at: usize,
    },
    /// A string that begins there has no end.
    OpenString {
        at: usize,
    },
    /// A number there is out of range.
    LongNumber {
        at: usize,
    },
    /// The token there continues no sentence of the grammar.
    Syntax {
        at: usize,
    },
    /// The token there opens a nesting deeper than `MAX_NESTING`.
    TooDeep {
        at: usize,
    },
    /// BEGIN inside a transaction.
    InTransaction,
    /// COMMIT or ROLLBACK outside a transaction.
    NoTransaction,
    /// A schema change inside a transaction.
    NotInTransaction,
    /// A class isn't there.
    NoClass {
        name: Text,
    },
    /// An edge's end or a bag's vertex isn't there.
    NoRecord {
        rid: Rid,
    },
    /// A written name is one that only edges and bags have.
    Reserved {
        name: Text,
    },
    /// INSERT on a class of edges.
    UseCreateEdge,
    /// DELETE on a class of vertices.
    UseDeleteVertex,
    /// DELETE on a class of edges.
    UseDeleteEdge,
    /// A class or record isn't a vertex or an edge as needed.
    WrongKind {
        name: Text,
    },
    /// A sum, difference or product is out of range.
    Overflow,
    /// The class, property or index is there.
    Exists {
        name: Text,
    },
    /// A property of an index isn't there.
    NoProperty {
        name: Text,
    },
    /// A property of an index is of a kind without keys.
    NotIndexable {
        name: Text,
    },
    /// A property has bounds, and its kind no numbers.
    NotNumber {
        name: Text,
    },
    /// There are as many `classes`, `properties` or `indexes` as there may be.
    SchemaFull {
        what: Text,
    },
    /// The first changed record that is missing or has another version than the transaction has seen.
    Conflict {
        rid: Rid,
        expected: u32,
        found: Option<u32>,
    },
    /// The first rule that a change breaks, with its property, or `-`.
    Schema {
        rid: Rid,
        property: Text,
        rule: Rule,
    },
    /// A record of more than `MAX_RECORD_BYTES` bytes.
    RecordTooLarge {
        rid: Rid,
        bytes: u64,
    },
    /// A key of more bytes than one may have.
    KeyTooLong {
        index: Text,
        rid: Rid,
        bytes: u64,
    },
    /// Two records would have one key of a unique index.
    Duplicate {
        index: Text,
        first: Rid,
        second: Rid,
    },
    /// A cluster has too few positions left.
    ClusterFull {
        cluster: i16,
    },
    /// It weighs more than `MAX_WEIGHT` pages.
    TxTooLarge {
        weight: u64,
    },
    /// The pages in use and its weight pass `MAX_PAGES`.
    PagesFull {
        in_use: u32,
        weight: u64,
    },
    /// The entries since the opening are too many, or with this one their bytes are.
    FeedFull {
        entries: u64,
        bytes: u64,
    },
    /// Commits ended earlier, when the volume had counted so many faults.
    Halted {
        at_fault: u64,
    },
    /// A write or sync failed.
    Fault,
    /// A read failed.
    Device,
    /// A page isn't of the kind and owner that is needed.
    Damaged {
        page: u32,
    },
    /// There is no memory for it.
    NoMemory,
    /// Another handle held a turn; never printed, since the statement is tried again.
    Busy {
        turn: u8,
    },
    /// The statement or the step can't be written yet.
    Unbuilt,
    /// The log needs more bytes than it has room for.
    LogFull {
        need: u64,
        room: u64,
    },
}

/// A count, or why a statement was refused.
pub type Told = Result<u64, Refusal>;

/// The reply to a statement.
#[derive(Drop)]
pub struct Reply {
    pub rows: RowList,
    /// For a commit the temporary identifiers beside those that they became, in order of creation.
    pub temps: RidPairList,
    /// What it says at its end.
    pub told: Told,
    /// How many entries of the history its read saw.
    pub read_front: u64,
    /// How many its commit met, and where it was accepted its own entry with them.
    pub commit_front: Option<u64>,
}
