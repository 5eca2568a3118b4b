// Why log work is refused.
ghost use Rattle.ori_pool.specs.declared.fault.OpFault.{OpFault};

use ori_bytes::NoMemory;
use thiserror::Error;

/// Why log work is refused.
#[derive(Clone, Copy, Debug, PartialEq, Eq, Error)]
pub enum DeviceFault {
    /// The device failed, and is halted from then on.
    #[error("the device failed")]
    Fault,
    /// Log work has failed since the opening, when so many calls of the volume had failed. Nothing has changed.
    #[error("the log has failed at fault {at_fault}")]
    Halted { at_fault: u64 },
}

/// Why an operation is refused.
#[derive(Clone, Copy, Debug, PartialEq, Eq, Error)]
pub enum OpFault {
    /// The device failed, and is halted from then on. Where the append failed, `doubt` is the number of records that
    /// the log would have with this one.
    #[error("the device failed")]
    Fault { doubt: Option<u64> },
    /// Log work has failed since the opening, when so many calls of the volume had failed. Nothing has changed.
    #[error("the log has failed at fault {at_fault}")]
    Halted { at_fault: u64 },
    /// Another handle held turn 0 to 7, of a cache partition, or 8, of the device.
    #[error("turn {turn} is held")]
    Busy { turn: u8 },
    /// Out of memory, before any call of the device.
    #[error("out of memory")]
    NoMemory,
}

impl From<NoMemory> for OpFault {
    ghost use Rattle.std.specs.Prelude.{◌≡◌};

    ghost from_gives = { λ _ fault. fault ≡ OpFault.NoMemory };

    fn from(_: NoMemory) -> Self {
        OpFault::NoMemory
    }
}

/// Why work on the pages' homes is refused.
#[derive(Clone, Copy, Debug, PartialEq, Eq, Error)]
pub enum TendFault {
    /// The device failed. It is halted from then on where log work failed, and not where a home's write or sync did.
    #[error("the device failed")]
    Fault,
    /// Log work has failed since the opening, when so many calls of the volume had failed. Nothing has changed.
    #[error("the log has failed at fault {at_fault}")]
    Halted { at_fault: u64 },
    /// Another handle held turn 0 to 7, of a cache partition, or 8, of the device.
    #[error("turn {turn} is held")]
    Busy { turn: u8 },
}
