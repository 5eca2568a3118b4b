// The numbers of an opening.

/// The pages in use that an opening found, and the volume's counts of faults and its moment at the opening's end.
#[derive(Clone, Copy)]
pub(crate) struct Opened {
    pub in_use: u64,
    pub faults: u64,
    pub log_faults: u64,
    pub moment: u64,
}
