// Why a position isn't given.
use ori_page::PageFault;
use thiserror::Error;

/// Why a position isn't given. What the pages hold after it isn't said, but after `ClusterFull` nothing has changed.
#[derive(Clone, Copy, Debug, Error)]
pub enum PosFault {
    /// A call over pages was refused.
    #[error("{0}")]
    Page(PageFault),
    /// As many positions were given as there may be.
    #[error("the cluster has no position left")]
    ClusterFull,
}

impl From<PageFault> for PosFault {
    ghost use Rattle.std.specs.Prelude.{◌≡◌};
    ghost use Rattle.ori_posmap.specs.declared.fault.PosFault.{PosFault};

    ghost from_gives = { λ cause fault. fault ≡ PosFault.Page cause };

    fn from(cause: PageFault) -> Self {
        PosFault::Page(cause)
    }
}
