// A change of one file in memory, and how it is taken back.
use crate::span::Span;

/// A change of one file.
#[derive(Clone, Copy)]
pub enum Change<'a> {
    /// The piece comes to stand at `at`, and `count` positions from there on become loose, with the gap before them.
    /// The piece is shorter than `count` where a write fails.
    Write {
        at: u64,
        piece: &'a [u8],
        count: u64,
    },
    /// The positions from `to` on become loose, and the file ends at `keep`.
    Cut {
        to: u64,
        keep: u64,
    },
    /// Nothing is loose.
    Sync,
    /// All stays as it is, as where a sync fails.
    Keep,
}

/// What a change has taken away, from which the file before it can be told.
#[derive(Drop)]
pub struct Undo {
    /// Where the saved bytes stood.
    pub place: usize,
    /// The bytes that were overwritten or cut off.
    pub saved: Vec<u8>,
    /// The length before the change.
    pub length: usize,
    pub least: u64,
    pub greatest: u64,
    /// The spans that a sync took away.
    pub spans: Vec<Span>,
    /// How many of the spans that there are now stood before.
    pub kept: usize,
}
