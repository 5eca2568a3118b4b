// The bag of a vertex's edges of one class and direction.
ghost use Rattle.std.specs.Prelude.{◌≡◌, IfOk};

use crate::{NoMemory, RidList};

/// The identifiers of a vertex's edges of one class and direction, rising, after OrientDB's manual ("RidBag"): in the
/// record itself, or in a tree of its own with so many of them under this root page.
#[derive(Drop)]
pub enum Bag {
    Embedded(RidList),
    Tree { root: u32, size: u64 },
}

impl Bag {
    /// A copy, or out of memory. A tree is named and not copied.
    pub fn copy(&self) -> Result<Self, NoMemory>
        ensures { IfOk result (λ b. b ≡ self.now) }
    {
        Ok(match self {
            Bag::Embedded(rids) => Bag::Embedded(rids.copy()?),
            Bag::Tree { root, size } => Bag::Tree {
                root: *root,
                size: *size,
            },
        })
    }
}
