// Why the log refuses.
ghost use Rattle.std.specs.Prelude.{◌≡◌};
ghost use Rattle.ori_log.specs.declared.fault.LogFault.TheVariants.{Failed, NoMemory};

use ori_volume::FileNo;
use std::alloc::AllocFailed;
use thiserror::Error;

/// Why a call on the log failed.
#[derive(Clone, Copy, Debug, PartialEq, Eq, Error)]
pub enum LogFault {
    /// The device failed. The log is to be attached anew before any other call.
    #[error("the device failed")]
    Failed,
    /// The record needs more bytes than the log file has room for. Nothing has changed.
    #[error("the log needs {need} bytes and has room for {room}")]
    LogFull { need: u64, room: u64 },
    /// This file breaks the form of a log's files.
    #[error("{file:?} is not of the form of a log's files")]
    NotALog { file: FileNo },
    /// No memory was to be had.
    #[error("out of memory")]
    NoMemory,
}

impl From<ori_volume::Failed> for LogFault {
    ghost from_gives = { λ _ fault. fault ≡ Failed };

    fn from(_: ori_volume::Failed) -> Self {
        LogFault::Failed
    }
}

impl From<ori_bytes::NoMemory> for LogFault {
    ghost from_gives = { λ _ fault. fault ≡ NoMemory };

    fn from(_: ori_bytes::NoMemory) -> Self {
        LogFault::NoMemory
    }
}

impl<T: Drop> From<AllocFailed<T>> for LogFault {
    ghost from_gives = { λ _ fault. fault ≡ NoMemory };

    fn from(_: AllocFailed<T>) -> Self {
        LogFault::NoMemory
    }
}
