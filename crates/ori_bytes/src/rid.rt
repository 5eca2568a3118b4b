// Record identifiers.

/// The identifier of a record, `#<cluster>:<position>`, after OrientDB's manual ("Record ID"): a cluster of 16 and a
/// position of 64 signed bits. A record made in a transaction has cluster -1 and a position below -1 until its commit.
#[derive(Clone, Copy, Debug, PartialEq, Eq, PartialOrd, Ord, Hash)]
pub struct Rid {
    pub cluster: i16,
    pub position: i64,
}
