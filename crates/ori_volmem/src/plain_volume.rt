// A disk in memory that tells its bytes alone.
ghost use Rattle.std.specs.Prelude.{◌≡◌, ◌≤◌, ◌<◌, ◌+◌, [], ℕ, Option, Some, None, length, take, IfOk, IfSome, OnOk};
ghost use Rattle.std.specs.Prelude.{OnErr, IsOk};
ghost use Rattle.ori_volume.specs.declared.file.FileNo.{FileNo};
ghost use Rattle.ori_volume.specs.Disk.{of_file, with_file};
ghost use Rattle.ori_volume.specs.Effects.{put, read_bytes};
ghost use Rattle.ori_volmem.specs.Memory.{one_more, is_of_log};
ghost use Rattle.ori_volmem.specs.PlainStates.{plain_data};

use crate::memory_volume::read_into;
use crate::plain_file::PlainFile;
use ori_bytes::NoMemory;
use ori_bytes::limits::MAX_FILE_BYTES;
use ori_volume::{Failed, FileNo, Volume};
use std::alloc::Global;

/// A disk in memory, which tells its bytes, and nothing of what a crash may leave. It keeps no record of its calls.
///
/// A write, cut or sync fails at the last moment, and a write also for want of memory; both leave the files as they
/// are. No other call fails.
#[derive(Drop)]
pub struct PlainVolume {
    master: PlainFile,
    log_a: PlainFile,
    log_b: PlainFile,
    pages: PlainFile,
    moment: u64,
    faults: u64,
    log_faults: u64,
    wants: u64,
}

impl PlainVolume {
    ghost use Rattle.ori_volmem.specs.Plain.{fresh_plain, with_files, next_moment, CountsFailure, CutsPlain};
    ghost use Rattle.ori_volmem.specs.Plain.{WritesPlain};

    /// Four empty files; takes no memory.
    pub fn empty(alloc: Global) -> Self
        ensures { plain_data result ≡ fresh_plain }
    {
        PlainVolume {
            master: PlainFile::empty(alloc),
            log_a: PlainFile::empty(alloc),
            log_b: PlainFile::empty(alloc),
            pages: PlainFile::empty(alloc),
            moment: 0,
            faults: 0,
            log_faults: 0,
            wants: 0,
        }
    }

    /// How often a write has failed for want of memory, up to the end of a `u64`.
    pub fn wants(&self) -> u64
        ensures { result ≡ (plain_data self.now).wants }
    {
        self.wants
    }

    // One of the files.
    fn file(&self, file: FileNo) -> &PlainFile
        ensures { result.now.bytes.items ≡ of_file (plain_data self.now).files file }
    {
        match file {
            FileNo::Master => &self.master,
            FileNo::LogA => &self.log_a,
            FileNo::LogB => &self.log_b,
            FileNo::Pages => &self.pages,
        }
    }

    // Ends a moment, unless it is the last.
    fn pass(&mut self, file: FileNo) -> Result<(), Failed>
        ensures { CutsPlain file (λ xs. xs) result (plain_data self.old) (plain_data self.new) }
    {
        if self.moment == u64::MAX {
            return Err(self.count_fault(file));
        }
        self.moment += 1;
        Ok(())
    }

    // Counts a write, cut or sync that failed.
    fn count_fault(&mut self, file: FileNo) -> Failed
        ensures { CountsFailure file (plain_data self.old) (plain_data self.new) }
    {
        self.faults = self.faults.saturating_add(1);
        match file {
            FileNo::Pages => Failed,
            FileNo::Master | FileNo::LogA | FileNo::LogB => {
                self.log_faults = self.log_faults.saturating_add(1);
                Failed
            }
        }
    }

    // Puts bytes into a file. Unchanged where memory is wanting.
    fn put(&mut self, file: FileNo, at: u64, piece: &[u8]) -> Result<(), NoMemory>
        requires { at + length piece.now ≤ MAX_FILE_BYTES }
        ensures ok { OnOk result (plain_data self.new ≡ with_files (plain_data self.old)
            (with_file (plain_data self.old).files file (put (of_file
            (plain_data self.old).files file) at piece.now))) }
        ensures err { OnErr result (plain_data self.new ≡ plain_data self.old) }
    {
        match file {
            FileNo::Master => self.master.write(at, piece),
            FileNo::LogA => self.log_a.write(at, piece),
            FileNo::LogB => self.log_b.write(at, piece),
            FileNo::Pages => self.pages.write(at, piece),
        }
    }

    // Leaves at most so many bytes of a file.
    fn shorten(&mut self, file: FileNo, to: u64)
        ensures { plain_data self.new ≡ with_files (plain_data self.old)
            (with_file (plain_data self.old).files file (take to (of_file (plain_data self.old).files file))) }
    {
        match file {
            FileNo::Master => self.master.cut(to),
            FileNo::LogA => self.log_a.cut(to),
            FileNo::LogB => self.log_b.cut(to),
            FileNo::Pages => self.pages.cut(to),
        }
    }

    fn try_write(&mut self, file: FileNo, at: u64, piece: &[u8]) -> Result<(), Failed>
        requires { at + length piece.now ≤ MAX_FILE_BYTES }
        ensures { WritesPlain file (λ xs. put xs at piece.now) result (plain_data self.old) (plain_data self.new) }
    {
        self.pass(file)?;
        if self.put(file, at, piece).is_err() {
            self.wants = self.wants.saturating_add(1);
            return Err(self.count_fault(file));
        }
        Ok(())
    }

    fn try_cut(&mut self, file: FileNo, to: u64) -> Result<(), Failed>
        ensures { CutsPlain file (λ xs. take to xs) result (plain_data self.old) (plain_data self.new) }
    {
        self.pass(file)?;
        self.shorten(file, to);
        Ok(())
    }
}

impl Volume for PlainVolume {
    ghost use Rattle.ori_volume.specs.Causes.{HasCause};
    ghost use Rattle.ori_volume.specs.Disk.{Files};
    ghost use Rattle.ori_volume.specs.OnlyRead.{IsOnlyRead};
    ghost use Rattle.ori_volume.specs.Story.{Story, Tells, Writes, Cuts, Syncs, FilesWrite, FilesCut};
    ghost use Rattle.ori_volmem.specs.PlainStates.{files_in};
    ghost use Rattle.ori_volume.specs.Story.{TimePasses, CountsLog};
    ghost use Rattle.ori_volmem.specs.Plain.{CutsPlain, WritesPlain};
    ghost use Rattle.ori_volmem.specs.PlainLaws.{plain_are_bytes, plain_tells_one, plain_counts_past};
    ghost use Rattle.ori_volmem.specs.PlainLaws.{plain_reads_as_image};

    ghost files = { files_in };

    ghost story = { λ v. None };

    ghost moment = { λ v. v.moment };

    ghost faults = { λ v. v.faults };

    ghost log_faults = { λ v. v.log_faults };

    /// Never fails.
    fn len(&mut self, file: FileNo) -> Result<u64, Failed>
        ensures value { IfOk result (λ n. IfSome (Some (plain_data self.old).files) (λ fs. n
            ≡ length (of_file fs file))) }
        ensures same { IsOnlyRead files_in (λ _. None) (λ v. v.moment) (λ v. v.log_faults) self.old self.new }
        ensures cause { HasCause self.old.faults self.new.faults result }
        ensures never { IsOk result × (plain_data self.new ≡ plain_data self.old) }
    {
        Ok(self.file(file).bytes.len() as u64)
    }

    /// Never fails.
    fn read_at(&mut self, file: FileNo, at: u64, into: &mut [u8]) -> Result<(), Failed>
        ensures value { OnOk result (IfSome (Some (plain_data self.old).files)
            (λ fs. into.new ≡ read_bytes (of_file fs file) at (length into.old))) }
        ensures same { IsOnlyRead files_in (λ _. None) (λ v. v.moment) (λ v. v.log_faults) self.old self.new }
        ensures cause { HasCause self.old.faults self.new.faults result }
        ensures never { IsOk result × (plain_data self.new ≡ plain_data self.old) }
    {
        read_into(self.file(file).bytes.as_slice(), at, into);
        Ok(())
    }

    fn write_at(&mut self, file: FileNo, at: u64, from: &[u8]) -> Result<(), Failed>
        requires { at + length from.now ≤ MAX_FILE_BYTES }
        ensures files { Tells (FilesWrite file at from.now result) (Some (plain_data self.old).files)
            (Some (plain_data self.new).files) }
        ensures story { Tells (Writes file at from.now result) None None }
        ensures time { TimePasses self.old.moment self.new.moment result }
        ensures log_faults { CountsLog file self.old.log_faults self.new.log_faults result }
        ensures cause { HasCause self.old.faults self.new.faults result }
        ensures answers { WritesPlain file (λ xs. put xs at from.now) result (plain_data self.old)
            (plain_data self.new) }
    {
        self.try_write(file, at, from)
    }

    fn cut(&mut self, file: FileNo, to: u64) -> Result<(), Failed>
        ensures files { Tells (FilesCut file to result) (Some (plain_data self.old).files)
            (Some (plain_data self.new).files) }
        ensures story { Tells (Cuts file to result) None None }
        ensures time { TimePasses self.old.moment self.new.moment result }
        ensures log_faults { CountsLog file self.old.log_faults self.new.log_faults result }
        ensures cause { HasCause self.old.faults self.new.faults result }
        ensures answers { CutsPlain file (λ xs. take to xs) result (plain_data self.old) (plain_data self.new) }
    {
        self.try_cut(file, to)
    }

    fn sync(&mut self, file: FileNo) -> Result<(), Failed>
        ensures files { Some (plain_data self.new).files ≡ Some (plain_data self.old).files }
        ensures story { Tells (Syncs file result) None None }
        ensures time { TimePasses self.old.moment self.new.moment result }
        ensures log_faults { CountsLog file self.old.log_faults self.new.log_faults result }
        ensures cause { HasCause self.old.faults self.new.faults result }
        ensures answers { CutsPlain file (λ xs. xs) result (plain_data self.old) (plain_data self.new) }
    {
        self.pass(file)
    }

    fn moment(&self) -> u64 {
        self.moment
    }

    fn log_faults(&self) -> u64 {
        self.log_faults
    }

    fn faults(&self) -> u64 {
        self.faults
    }

    ghost reads_bytes = { plain_are_bytes };

    ghost tells_one = { plain_tells_one };

    ghost counts_past = { plain_counts_past };

    ghost reads_as_image = { plain_reads_as_image };
}
