// The one answer of the outside that isn't Ok.

/// A call on the outside failed. Its count of faults rose in this call, or stands at the end of a `u64`.
#[derive(Clone, Copy, Debug, PartialEq, Eq)]
pub struct Failed;
