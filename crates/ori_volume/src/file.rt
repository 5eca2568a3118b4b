// The files of a disk.

/// One of the four files of a disk.
#[derive(Clone, Copy, Debug, PartialEq, Eq)]
pub enum FileNo {
    /// Says which of the two logs is in use.
    Master,
    LogA,
    LogB,
    /// The homes of the pages.
    Pages,
}
