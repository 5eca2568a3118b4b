// Why a call over pages is refused.
use ori_bytes::NoMemory;
use thiserror::Error;

/// Why a call over pages is refused. What the pages hold after it isn't said, and their owner drops them.
#[derive(Clone, Copy, Debug, PartialEq, Eq, Error)]
pub enum PageFault {
    /// Out of memory.
    #[error("out of memory")]
    NoMemory,
    /// A read failed, and the volume's faults rose.
    #[error("a read of the device failed")]
    Device,
    /// Another handle held turn 0 to 7, of a cache partition, or 8, of the device.
    #[error("turn {turn} is held")]
    Busy { turn: u8 },
    /// A page isn't of the kind and owner that is needed, or its fields leave their range.
    #[error("page {page} is damaged")]
    Damaged { page: u32 },
    /// There are as many pages as there may be, and none is free.
    #[error("the pages are full")]
    PagesFull,
}

impl From<NoMemory> for PageFault {
    ghost use Rattle.std.specs.Prelude.{◌≡◌};
    ghost use Rattle.ori_page.specs.declared.fault.PageFault.{PageFault};

    ghost from_gives = { λ _ fault. fault ≡ PageFault.NoMemory };

    fn from(_: NoMemory) -> Self {
        PageFault::NoMemory
    }
}
