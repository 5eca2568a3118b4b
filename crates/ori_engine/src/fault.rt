// Why pages aren't read as a table.
ghost use Rattle.std.specs.Prelude.{◌≡◌, ◌≤◌, ℕ};
ghost use Rattle.ori_bytes.specs.declared.limits.TheConstants.{PARTITIONS};
ghost use Rattle.ori_page.specs.Faults.{IsOutside};
ghost use Rattle.ori_engine.specs.declared.fault.TableFault.{TableFault};
ghost use Rattle.ori_engine.specs.Reading.{table_fault};

use ori_bytes::NoMemory;
use ori_page::PageFault;
use std::alloc::AllocFailed;

/// Why pages aren't read as a table.
#[derive(Clone, Copy)]
pub(crate) enum TableFault {
    /// A read of the device failed.
    Device,
    /// Another handle held turn 0 to 7, of a cache partition, or 8, of the device.
    Busy { turn: u8 },
    /// The pages stand for no base.
    NotATable,
    /// Out of memory.
    NoMemory,
}

impl From<NoMemory> for TableFault {
    ghost use Rattle.ori_engine.specs.declared.fault.TableFault.{TableFault};

    ghost from_gives = { λ _ e. e ≡ TableFault.NoMemory };

    fn from(_: NoMemory) -> Self {
        TableFault::NoMemory
    }
}

impl<T: Drop> From<AllocFailed<T>> for TableFault {
    ghost use Rattle.ori_engine.specs.declared.fault.TableFault.{TableFault};

    ghost from_gives = { λ _ e. e ≡ TableFault.NoMemory };

    fn from(_: AllocFailed<T>) -> Self {
        TableFault::NoMemory
    }
}

/// Why a page isn't read. A read answers neither `Damaged` nor `PagesFull`.
pub(crate) fn unread(fault: PageFault) -> TableFault
    requires { IsOutside fault }
    ensures fault { result ≡ table_fault fault }
    ensures turn { (turn : ℕ) → result ≡ TableFault.Busy turn → turn ≤ PARTITIONS }
{
    match fault {
        PageFault::Device => TableFault::Device,
        PageFault::Busy { turn } => TableFault::Busy { turn },
        PageFault::NoMemory | PageFault::Damaged { .. } | PageFault::PagesFull =>
            TableFault::NoMemory,
    }
}
