// Why bytes can't be read as a record, or a record can't be written.
ghost use Rattle.std.specs.Prelude.{◌≡◌};

use ori_bytes::NoMemory;
use std::alloc::{AllocError, AllocFailed};

/// Why bytes can't be read as a record, or a record can't be written.
#[derive(Clone, Copy, Drop)]
pub enum RecordFault {
    /// The bytes spell no record. Told by `read` alone.
    NotRecord,
    /// Values nest deeper than `MAX_NESTING`. Told by `write` alone.
    TooDeep,
    /// Out of memory.
    NoMemory,
}

impl From<NoMemory> for RecordFault {
    ghost use Rattle.ori_record.specs.declared.fault.RecordFault.{RecordFault};

    ghost from_gives = { λ _ e. e ≡ RecordFault.NoMemory };

    fn from(_: NoMemory) -> Self {
        RecordFault::NoMemory
    }
}

impl From<AllocError> for RecordFault {
    ghost use Rattle.ori_record.specs.declared.fault.RecordFault.{RecordFault};

    ghost from_gives = { λ _ e. e ≡ RecordFault.NoMemory };

    fn from(_: AllocError) -> Self {
        RecordFault::NoMemory
    }
}

impl<T: Drop> From<AllocFailed<T>> for RecordFault {
    ghost use Rattle.ori_record.specs.declared.fault.RecordFault.{RecordFault};

    ghost from_gives = { λ _ e. e ≡ RecordFault.NoMemory };

    fn from(_: AllocFailed<T>) -> Self {
        RecordFault::NoMemory
    }
}
