// How often an object's calls gave the answers that only its outside can cause.

/// Counts of answers by their cause: each number is how often the calls on one object answered so. None falls.
#[derive(Clone, Copy, Debug, PartialEq, Eq)]
pub struct Causes {
    /// A read failed and the volume's faults rose.
    pub device: u64,
    /// A write, cut or sync failed and the volume's faults rose.
    pub fault: u64,
    /// A turn was held by another handle.
    pub busy: u64,
    /// A page wasn't of the kind and owner that the structure over it needs, or its fields left their range.
    pub damaged: u64,
}
