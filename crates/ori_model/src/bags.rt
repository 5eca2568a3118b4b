// The bags of a vertex's edges.
ghost use Rattle.std.specs.Prelude.{◌≡◌, IfOk};

use ori_bytes::{Copied, ListOf, NoMemory, Rid, RidList, Text};

/// Edges out of a vertex, or into it.
#[derive(Clone, Copy)]
pub enum Dir {
    /// Out of it: its field's name begins with `out_`.
    Out,
    /// Into it: its field's name begins with `in_`.
    Into,
}

/// Names the bag of a vertex's edges of one class and direction. The class is that of the edges alone, without its
/// subclasses.
#[derive(Drop)]
pub struct BagName {
    pub vertex: Rid,
    pub dir: Dir,
    pub class: Text,
}

impl BagName {
    /// A copy, or out of memory.
    pub fn copy(&self) -> Result<Self, NoMemory>
        ensures { IfOk result (λ b. b ≡ self.now) }
    {
        Ok(BagName {
            vertex: self.vertex,
            dir: self.dir,
            class: self.class.copy()?,
        })
    }
}

impl Copied for BagName {
    fn copied(&self) -> Result<Self, NoMemory> {
        self.copy()
    }
}

/// A list of bags by their names.
pub type BagNameList = ListOf<BagName>;

/// What a bag holds, in row order, and whether it is grown: kept in a tree and not in its vertex, as OrientDB's manual
/// has it ("RidBag").
#[derive(Drop)]
pub struct BagView {
    pub grown: bool,
    pub rids: RidList,
}
