// A disk of four files.
ghost use Rattle.std.specs.Prelude.{◌≡◌, ◌≤◌, ◌+◌, ℕ, List, length, Option, Some, IfOk, IfSome, OnOk, Result};
ghost use Rattle.ori_volume.specs.Causes.{HasCause};
ghost use Rattle.ori_volume.specs.declared.file.FileNo.{FileNo};
ghost use Rattle.ori_volume.specs.Disk.{Files, of_file, files_of, AreBytes, IsImage};
ghost use Rattle.ori_volume.specs.Effects.{read_bytes};
ghost use Rattle.ori_volume.specs.OnlyRead.{IsOnlyRead};
ghost use Rattle.ori_volume.specs.Story.{Story, moment_of, Tells, Writes, Cuts, Syncs, FilesWrite, FilesCut};
ghost use Rattle.ori_volume.specs.Story.{TimePasses, CountsLog, IsTold};

use crate::{Failed, FileNo};
use ori_bytes::limits::MAX_FILE_BYTES;

/// A disk of four files. It may tell what a crash can leave of it, at this moment and at each earlier one; or its bytes
/// alone; or nothing. What it tells once it tells from then on, and what it doesn't tell it never does.
///
/// A moment is the time between two calls that may change the disk. A stop inside a call leaves what a crash just
/// before or just after it may leave.
pub trait Volume: Drop {
    /// The bytes of the files, as reads give them.
    ghost files: { Self → Option Files };

    /// The disk now and at each earlier moment.
    ghost story: { Self → Option Story };

    /// The number of the moment: how many writes, cuts and syncs there were, up to the end of a `u64`.
    ghost moment: { Self → ℕ };

    /// How often a call has failed, up to the end of a `u64`.
    ghost faults: { Self → ℕ };

    /// How often a write, cut or sync of `Master`, `LogA` or `LogB` has failed, up to the end of a `u64`.
    ghost log_faults: { Self → ℕ };

    /// The length of a file in bytes. `Failed` changes nothing but `faults`.
    fn len(&mut self, file: FileNo) -> Result<u64, Failed>
        ensures value { IfOk result (λ n. IfSome (files self.old) (λ fs. n ≡ length (of_file fs file))) }
        ensures same { IsOnlyRead files story moment log_faults self.old self.new }
        ensures cause { HasCause (faults self.old) (faults self.new) result };

    /// Fills a slice with the bytes of a file from `at` on, with zeros past its end. `Failed` changes nothing but
    /// `faults`, and what it leaves in the slice isn't said.
    fn read_at(&mut self, file: FileNo, at: u64, into: &mut [u8]) -> Result<(), Failed>
        ensures value { OnOk result (IfSome (files self.old)
            (λ fs. into.new ≡ read_bytes (of_file fs file) at (length into.old))) }
        ensures same { IsOnlyRead files story moment log_faults self.old self.new }
        ensures cause { HasCause (faults self.old) (faults self.new) result };

    /// Writes bytes at a place of a file, and zeros into the gap where the file ended before it. Range and gap are
    /// loose until a sync. After `Failed` they hold any bytes, and the length is between the old and the new one.
    fn write_at(&mut self, file: FileNo, at: u64, from: &[u8]) -> Result<(), Failed>
        requires { at + length from.now ≤ MAX_FILE_BYTES }
        ensures files { Tells (FilesWrite file at from.now result) (files self.old) (files self.new) }
        ensures story { Tells (Writes file at from.now result) (story self.old) (story self.new) }
        ensures time { TimePasses (moment self.old) (moment self.new) result }
        ensures log_faults { CountsLog file (log_faults self.old) (log_faults self.new) result }
        ensures cause { HasCause (faults self.old) (faults self.new) result };

    /// Makes a file `to` bytes long where it is longer. The positions from there on are loose until a sync. After
    /// `Failed` its length is the old or the new one.
    fn cut(&mut self, file: FileNo, to: u64) -> Result<(), Failed>
        ensures files { Tells (FilesCut file to result) (files self.old) (files self.new) }
        ensures story { Tells (Cuts file to result) (story self.old) (story self.new) }
        ensures time { TimePasses (moment self.old) (moment self.new) result }
        ensures log_faults { CountsLog file (log_faults self.old) (log_faults self.new) result }
        ensures cause { HasCause (faults self.old) (faults self.new) result };

    /// Makes a file firm: from then on a crash leaves it as it reads. `Failed` changes nothing of it.
    fn sync(&mut self, file: FileNo) -> Result<(), Failed>
        ensures files { files self.new ≡ files self.old }
        ensures story { Tells (Syncs file result) (story self.old) (story self.new) }
        ensures time { TimePasses (moment self.old) (moment self.new) result }
        ensures log_faults { CountsLog file (log_faults self.old) (log_faults self.new) result }
        ensures cause { HasCause (faults self.old) (faults self.new) result };

    /// The number of the moment.
    fn moment(&self) -> u64
        ensures { result ≡ moment self.now };

    /// How often a write, cut or sync of `Master`, `LogA` or `LogB` has failed.
    fn log_faults(&self) -> u64
        ensures { result ≡ log_faults self.now };

    /// How often a call has failed.
    fn faults(&self) -> u64
        ensures { result ≡ faults self.now };

    /// What it reads are bytes.
    ghost reads_bytes: { (volume : Self) (told : Files) → files volume ≡ Some told → (file : FileNo)
        → AreBytes (of_file told file) };

    /// Its story speaks of the files and the counts that it tells.
    ghost tells_one: { (volume : Self) (told : Story) → story volume ≡ Some told
        → IsTold (files volume) (faults volume) (log_faults volume) told };

    /// The moment is the number of the past disks.
    ghost counts_past: { (volume : Self) (told : Story) → story volume ≡ Some told → moment volume ≡ moment_of told };

    /// The disk as it reads is one of the images that a crash may leave.
    ghost reads_as_image: { (volume : Self) (told : Story) → story volume ≡ Some told
        → IsImage told.now.disk (files_of told.now.disk) };
}
