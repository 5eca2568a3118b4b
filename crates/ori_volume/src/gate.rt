// Where a worker may be held by a test.

/// A place that a worker passes.
#[derive(Clone, Copy, Debug, PartialEq, Eq)]
pub enum GateStep {
    /// Before a read step of this session.
    Read { session: u8 },
    /// Before a commit step of this session.
    Commit { session: u8 },
    /// After an answer to this session.
    Answered { session: u8 },
    /// Of a flusher, between choosing a page of this partition and the device's write.
    Flush { part: u8 },
}

/// Is passed by each worker before its steps, and never while it holds the storage lock. Each pass returns.
pub trait Gate {
    fn pass(&self, step: GateStep);
}

/// Holds nobody.
#[derive(Clone, Copy, Debug, PartialEq, Eq)]
pub struct NoGate;

impl Gate for NoGate {
    fn pass(&self, _step: GateStep) {}
}
