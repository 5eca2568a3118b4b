// What can be wrong with bytes that are read.
use thiserror::Error;

/// A fault of bytes that are read. `at` is the place, counted from the first byte of all, at which the read began.
#[derive(Clone, Copy, Debug, PartialEq, Eq, Error)]
pub enum ByteFault {
    /// The bytes end too early.
    #[error("the bytes end too early at {at}")]
    Short { at: usize },
    /// A varint isn't in its shortest form: of several groups the last is 0.
    #[error("a varint isn't in its shortest form at {at}")]
    LongForm { at: usize },
    /// A varint has more than 64 bits.
    #[error("a varint has more than 64 bits at {at}")]
    Range { at: usize },
}
