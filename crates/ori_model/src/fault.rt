// Why calls over a database are refused.
ghost use Rattle.std.specs.Prelude.{◌≡◌};
ghost use Rattle.ori_model.specs.declared.fault.ReadFault.TheVariants.{NoMemory as NoMemoryToRead};
ghost use Rattle.ori_model.specs.declared.fault.CommitFault.TheVariants.{NoMemory as NoMemoryToCommit};
ghost use Rattle.ori_model.specs.declared.fault.DefineFault.TheVariants.{NoMemory as NoMemoryToDefine};

use ori_bytes::{NoMemory, Rid, Text};

/// The rules that a change may break, in the order in which they are looked for. After OrientDB's manual ("CREATE
/// PROPERTY").
#[derive(Clone, Copy)]
pub enum Rule {
    /// The class of a new record isn't there.
    NoClass,
    /// An edge lacks an end, or an end isn't changed with its edge.
    Ends,
    /// A link names a temporary identifier that the transaction doesn't create.
    Temporary,
    /// The version can't rise any more.
    VersionEnd,
    /// A value is of another kind than its property.
    OfKind,
    /// A property is wanting.
    Mandatory,
    /// A property is null.
    NotNull,
    /// An update changes a property that it may not.
    Readonly,
    /// A number is below its property's least.
    Min,
    /// A number is above its property's greatest.
    Max,
}

/// Why a read failed. Nothing has changed but the count of causes.
#[derive(Clone, Copy)]
pub enum ReadFault {
    /// A read of the device failed.
    Device,
    /// Turn 0 to 7, of a partition, or 8, of the device, was held by another handle.
    Busy { turn: u8 },
    /// The page isn't of the kind and owner that is needed, or its fields leave their range.
    Damaged { page: u32 },
    /// There is no memory for the record's copy.
    NoMemory,
}

/// Why a commit was refused: up to `PagesFull` in the order in which they are looked for. Nothing has changed but the
/// count of causes, except after `Fault`.
#[derive(Drop)]
pub enum CommitFault {
    /// A write of the log failed earlier in this opening, when the volume had counted so many faults.
    Halted {
        at_fault: u64,
    },
    /// There are `MAX_FEED_ENTRIES` entries since the opening, or with this entry they have more than `MAX_FEED_BYTES`
    /// bytes: `entries` of them without it, and `bytes` with it.
    FeedFull {
        entries: u64,
        bytes: u64,
    },
    /// The first changed record that is missing, or whose version isn't the one that the transaction has seen. After
    /// OrientDB's manual ("Concurrency").
    Conflict {
        rid: Rid,
        expected: u32,
        found: Option<u32>,
    },
    /// The first rule that a change breaks, with its property, or `-` where it has none.
    Schema {
        rid: Rid,
        property: Text,
        rule: Rule,
    },
    /// The first written record of more than `MAX_RECORD_BYTES` bytes.
    RecordTooLarge {
        rid: Rid,
        bytes: u64,
    },
    /// The first key, by index in order of creation, then by change, of more bytes than a key may have.
    KeyTooLong {
        index: Text,
        rid: Rid,
        bytes: u64,
    },
    /// Two records would have one key of a unique index: the least such key of the first such index, and the first two
    /// records in row order.
    Duplicate {
        index: Text,
        first: Rid,
        second: Rid,
    },
    /// The least cluster that has fewer than the wanted positions left, of its `MAX_POSITIONS`.
    ClusterFull {
        cluster: i16,
    },
    /// It weighs more than `MAX_WEIGHT` pages.
    TxTooLarge {
        weight: u64,
    },
    /// The pages in use and the transaction's weight pass `MAX_PAGES`.
    PagesFull {
        in_use: u32,
        weight: u64,
    },
    /// The record needs more bytes of the log than it has room for.
    LogFull {
        need: u64,
        room: u64,
    },
    /// A write or sync failed: commits may have ended, and the entry may be in doubt.
    Fault,
    /// A read of the device failed.
    Device,
    /// Turn 0 to 7, of a partition, or 8, of the device, was held by another handle.
    Busy {
        turn: u8,
    },
    /// The page isn't of the kind and owner that is needed, or its fields leave their range.
    Damaged {
        page: u32,
    },
    /// There is no memory for what the commit makes.
    NoMemory,
}

/// Why a schema change was refused: up to `PagesFull` in the order in which they are looked for. Nothing has changed
/// but the count of causes, except after `Fault`.
#[derive(Drop)]
pub enum DefineFault {
    /// A write of the log failed earlier in this opening, when the volume had counted so many faults.
    Halted {
        at_fault: u64,
    },
    /// There are `MAX_FEED_ENTRIES` entries since the opening, or with this entry they have more than `MAX_FEED_BYTES`
    /// bytes.
    FeedFull {
        entries: u64,
        bytes: u64,
    },
    /// The named class or the class to extend isn't there.
    NoClass {
        name: Text,
    },
    /// The class or the index is there, or the property is one of the class, of an ancestor or of a descendant.
    Exists {
        name: Text,
    },
    /// The property's name is one that only edges and bags have: `out`, `in`, or one that begins with `out_` or `in_`.
    Reserved {
        name: Text,
    },
    /// A property of the index is none of the class or an ancestor.
    NoProperty {
        name: Text,
    },
    /// The kind of a property of the index isn't a boolean, a whole number, a time, a string, bytes or a link.
    NotIndexable {
        name: Text,
    },
    /// The property has a least or a greatest number, and its kind isn't a whole number or a time.
    NotNumber {
        name: Text,
    },
    /// There are as many `classes`, `properties` or `indexes` as there may be.
    SchemaFull {
        what: Text,
    },
    /// The first record in row order that breaks the new property.
    Schema {
        rid: Rid,
        property: Text,
        rule: Rule,
    },
    /// The first record in row order whose key has more bytes than a key may have.
    KeyTooLong {
        index: Text,
        rid: Rid,
        bytes: u64,
    },
    /// Two records would have one key of the new unique index: the least such key, and the first two records in row
    /// order.
    Duplicate {
        index: Text,
        first: Rid,
        second: Rid,
    },
    /// It weighs more than `MAX_WEIGHT` pages.
    TxTooLarge {
        weight: u64,
    },
    /// The pages in use and the schema change's weight pass `MAX_PAGES`.
    PagesFull {
        in_use: u32,
        weight: u64,
    },
    /// A write or sync failed: commits may have ended, and the entry may be in doubt.
    Fault,
    /// A read of the device failed.
    Device,
    /// Turn 0 to 7, of a partition, or 8, of the device, was held by another handle.
    Busy {
        turn: u8,
    },
    /// The page isn't of the kind and owner that is needed, or its fields leave their range.
    Damaged {
        page: u32,
    },
    /// There is no memory for what the schema change makes.
    NoMemory,
}

impl From<NoMemory> for ReadFault {
    ghost from_gives = { λ _ fault. fault ≡ NoMemoryToRead };

    fn from(_: NoMemory) -> Self {
        ReadFault::NoMemory
    }
}

impl From<NoMemory> for CommitFault {
    ghost from_gives = { λ _ fault. fault ≡ NoMemoryToCommit };

    fn from(_: NoMemory) -> Self {
        CommitFault::NoMemory
    }
}

impl From<NoMemory> for DefineFault {
    ghost from_gives = { λ _ fault. fault ≡ NoMemoryToDefine };

    fn from(_: NoMemory) -> Self {
        DefineFault::NoMemory
    }
}
