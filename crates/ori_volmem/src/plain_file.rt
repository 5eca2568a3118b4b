// One file in memory, without a record of its past.
ghost use Rattle.std.specs.Prelude.{◌≡◌, ◌≤◌, ◌+◌, length, take, OnOk, OnErr};
ghost use Rattle.ori_volume.specs.Disk.{AreBytes};
ghost use Rattle.ori_volume.specs.Effects.{put};

use crate::memory_file::overwrite;
use ori_bytes::NoMemory;
use ori_bytes::limits::MAX_FILE_BYTES;
use std::alloc::Global;

/// The bytes of a file.
#[derive(Drop)]
pub struct PlainFile {
    pub bytes: Vec<u8>,
    ghost are_bytes: { AreBytes bytes.items },
}

impl PlainFile {
    ghost use Rattle.std.specs.Prelude.{[]};

    /// No bytes; takes no memory.
    pub fn empty(alloc: Global) -> Self
        ensures { result.bytes.items ≡ [] }
    {
        PlainFile {
            bytes: Vec::new(alloc),
        }
    }

    /// Puts bytes at a place, with zeros in the gap before them. Unchanged where memory is wanting.
    pub fn write(&mut self, at: u64, piece: &[u8]) -> Result<(), NoMemory>
        requires { at + length piece.now ≤ MAX_FILE_BYTES }
        ensures ok { OnOk result (self.new.bytes.items ≡ put self.old.bytes.items at piece.now) }
        ensures err { OnErr result (self.new.bytes.items ≡ self.old.bytes.items) }
    {
        overwrite(&mut self.bytes, at as usize, piece)
    }

    /// Leaves at most so many bytes.
    pub fn cut(&mut self, to: u64)
        ensures { self.new.bytes.items ≡ take to self.old.bytes.items }
    {
        let end = (to as usize).min(self.bytes.len());
        self.bytes.truncate(end);
    }
}
