// A disk in memory that tells everything, and fails at the calls that it is told to.
ghost use Rattle.std.specs.Prelude.{◌≡◌, ◌≤◌, ◌<◌, ◌+◌, ◌%◌, ◌||◌, ◌⊎◌, [], ℕ, Option, Some, length, IfOk, IfSome};
ghost use Rattle.std.specs.Prelude.{OnOk, OnErr, is_err, IsTrue, slice_set, if◌then◌else◌};
ghost use Rattle.ori_volume.specs.declared.file.FileNo.{FileNo};
ghost use Rattle.ori_volume.specs.Effects.{read_bytes};
ghost use Rattle.ori_volmem.specs.Memory.{one_more, is_listed, is_from, is_of_log};

use crate::Image;
use crate::change::Change;
use crate::draws::{draw, next_seed};
use crate::memory_disk::MemDisk;
use crate::memory_file::MemFile;
use ori_bytes::limits::MAX_FILE_BYTES;
use ori_bytes::{Blob, NoMemory, NumberList};
use ori_volume::{Failed, FileNo, Volume};
use std::alloc::Global;

/// A disk in memory, which tells everything. It keeps notes of its changes, from which its past is told.
///
/// A device call is one of `len`, `read_at`, `write_at`, `cut` and `sync`. One fails where [`fail`](MemVolume::fail) or
/// [`stop_after`](MemVolume::stop_after) asks for it, at the last moment, and, where it changes something, for want of
/// memory: then it leaves the files as they are.
#[derive(Drop)]
pub struct MemVolume {
    disk: MemDisk,
    fail: NumberList,
    stop: Option<u64>,
    calls: u64,
    faults: u64,
    log_faults: u64,
    wants: u64,
}

impl MemVolume {
    ghost use Rattle.ori_volmem.specs.Record.{IsInRange, changed_by};
    ghost use Rattle.ori_volume.specs.Story.{Story, moment_of, TimePasses};
    ghost use Rattle.ori_volmem.specs.Memory.{VolumeData, fresh, image_files, is_planned, Answers};
    ghost use Rattle.ori_volume.specs.Disk.{of_file, IsImage};
    ghost use Rattle.ori_volmem.specs.Crashes.{seed_for, crash_length, IsCrash, IsCrashWith};
    ghost use Rattle.ori_volmem.specs.VolumeStates.{volume_data};

    /// Four empty files.
    pub fn empty(alloc: Global) -> Self
        ensures { volume_data result ≡ fresh (record { master = []; log_a = []; log_b = []; pages = [] }) }
    {
        MemVolume::of_image(Image {
            master: Blob::new(alloc),
            log_a: Blob::new(alloc),
            log_b: Blob::new(alloc),
            pages: Blob::new(alloc),
        })
    }

    /// The files that a crash has left, nothing loose. Takes no memory.
    pub fn of_image(image: Image) -> Self
        ensures { volume_data result ≡ fresh (image_files image) }
    {
        let master = image.master.into_vec();
        let alloc = *master.allocator();
        MemVolume {
            disk: MemDisk::new(
                alloc,
                MemFile::firm(alloc, master),
                MemFile::firm(alloc, image.log_a.into_vec()),
                MemFile::firm(alloc, image.log_b.into_vec()),
                MemFile::firm(alloc, image.pages.into_vec()),
            ),
            fail: NumberList::new(alloc),
            stop: None,
            calls: 0,
            faults: 0,
            log_faults: 0,
            wants: 0,
        }
    }

    /// The device calls with these numbers, counted from 0, will fail, and no others but for
    /// [`stop_after`](Self::stop_after).
    pub fn fail(&mut self, calls: NumberList)
        ensures { volume_data self.new ≡ record (volume_data self.old) { failing = calls } }
    {
        self.fail = calls;
    }

    /// After so many device calls, counted from the first, each one fails.
    pub fn stop_after(&mut self, calls: u64)
        ensures { volume_data self.new ≡ record (volume_data self.old) { stop = Some calls } }
    {
        self.stop = Some(calls);
    }

    /// How many device calls there were, up to the end of a `u64`.
    pub fn calls(&self) -> u64
        ensures { result ≡ (volume_data self.now).calls }
    {
        self.calls
    }

    /// How often a write, cut or sync has failed for want of memory, up to the end of a `u64`.
    pub fn wants(&self) -> u64
        ensures { result ≡ (volume_data self.now).wants }
    {
        self.wants
    }

    /// Whether a crash may leave any byte at a position, also past the end of the file.
    pub fn is_loose(&self, file: FileNo, at: u64) -> bool
        ensures { result ≡ (of_file (volume_data self.now).story.now.disk file).loose at }
    {
        self.disk.file(file).is_loose(at)
    }

    /// An image that a crash at this moment may leave. 0 picks the bytes as reads give them with the greatest lengths,
    /// 1 zeros at the loose positions and the least lengths, and another number draws both.
    pub fn crash(&self, pick: u64) -> Result<Image, NoMemory>
        ensures picked { IfOk result (λ image. IsCrash pick (volume_data self.now).story.now.disk (image_files image)) }
        ensures allowed { IfOk result (λ image. IsImage (volume_data self.now).story.now.disk (image_files image)) }
    {
        let alloc = *self.disk.notes.allocator();
        let master = next_seed(pick);
        let log_a = next_seed(master);
        let log_b = next_seed(log_a);
        let pages = next_seed(log_b);
        Ok(Image {
            master: self.disk.master.image(alloc, pick, master)?,
            log_a: self.disk.log_a.image(alloc, pick, log_a)?,
            log_b: self.disk.log_b.image(alloc, pick, log_b)?,
            pages: self.disk.pages.image(alloc, pick, pages)?,
        })
    }

    /// As [`crash`](Self::crash), with this byte at a loose position that lies in the picked image.
    pub fn crash_with(&self, pick: u64, file: FileNo, at: u64, byte: u8) -> Result<Image, NoMemory>
        requires loose { IsTrue ((of_file (volume_data self.now).story.now.disk file).loose at) }
        requires inside { let f = of_file (volume_data self.now).story.now.disk file in
            at < crash_length pick (seed_for pick file) f.least f.greatest }
        ensures picked { IfOk result (λ image. IsCrashWith pick file at byte (volume_data self.now).story.now.disk
            (image_files image)) }
        ensures allowed { IfOk result (λ image. IsImage (volume_data self.now).story.now.disk (image_files image)) }
    {
        let Image {
            master,
            log_a,
            log_b,
            pages,
        } = self.crash(pick)?;
        match file {
            FileNo::Master => Ok(Image {
                master: with_byte(master, at, byte),
                log_a,
                log_b,
                pages,
            }),
            FileNo::LogA => Ok(Image {
                master,
                log_a: with_byte(log_a, at, byte),
                log_b,
                pages,
            }),
            FileNo::LogB => Ok(Image {
                master,
                log_a,
                log_b: with_byte(log_b, at, byte),
                pages,
            }),
            FileNo::Pages => Ok(Image {
                master,
                log_a,
                log_b,
                pages: with_byte(pages, at, byte),
            }),
        }
    }

    // Makes a change, which answers `Failed` where that is planned.
    fn change(&mut self, file: FileNo, change: Change, planned: bool) -> Result<(), Failed>
        requires { IsInRange change }
        ensures answers { Answers file planned (λ f g. g ≡ changed_by change.entry f)
            (λ f g. g ≡ changed_by change.entry f) result (volume_data self.old) (volume_data self.new) }
        ensures time { TimePasses (moment_of (volume_data self.old).story)
            (moment_of (volume_data self.new).story) result }
        ensures calls { self.new.calls ≡ self.old.calls }
        ensures failing { self.new.fail ≡ self.old.fail }
        ensures stop { self.new.stop ≡ self.old.stop }
    {
        if self.disk.moment == u64::MAX {
            return Err(self.count_fault(file));
        }
        match self.disk.step(file, change) {
            Ok(()) if planned => Err(self.count_fault(file)),
            Ok(()) => Ok(()),
            Err(_) => {
                self.wants = self.wants.saturating_add(1);
                Err(self.count_fault(file))
            }
        }
    }

    // Counts a write, cut or sync that failed.
    fn count_fault(&mut self, file: FileNo) -> Failed
        ensures faults { self.new.faults ≡ one_more self.old.faults }
        ensures log_faults { self.new.log_faults
            ≡ (if is_of_log file then one_more self.old.log_faults else self.old.log_faults) }
        ensures disk { self.new.disk ≡ self.old.disk }
        ensures fail { self.new.fail ≡ self.old.fail }
        ensures stop { self.new.stop ≡ self.old.stop }
        ensures calls { self.new.calls ≡ self.old.calls }
        ensures wants { self.new.wants ≡ self.old.wants }
    {
        self.faults = self.faults.saturating_add(1);
        match file {
            FileNo::Pages => Failed,
            FileNo::Master | FileNo::LogA | FileNo::LogB => {
                self.log_faults = self.log_faults.saturating_add(1);
                Failed
            }
        }
    }
}

impl Volume for MemVolume {
    ghost use Rattle.ori_volume.specs.Causes.{HasCause};
    ghost use Rattle.ori_volume.specs.Disk.{of_file, files_of};
    ghost use Rattle.ori_volume.specs.Effects.{read_bytes, written, cut_to, synced};
    ghost use Rattle.ori_volume.specs.OnlyRead.{IsOnlyRead};
    ghost use Rattle.ori_volume.specs.Story.{moment_of, Tells, Writes, Cuts, Syncs, FilesWrite, FilesCut};
    ghost use Rattle.ori_volume.specs.Story.{TimePasses, CountsLog};
    ghost use Rattle.ori_volmem.specs.Memory.{VolumeData, is_planned, Calls, Looks, Answers};
    ghost use Rattle.ori_volume.specs.Effects.{Tears, MaybeCuts};
    ghost use Rattle.ori_volmem.specs.VolumeStates.{volume_data, files_in, story_in, moment_in, log_faults_in};
    ghost use Rattle.ori_volmem.specs.VolumeLaws.{told_are_bytes, told_is_one, told_counts_past, told_reads_as_image};

    ghost files = { files_in };

    ghost story = { story_in };

    ghost moment = { moment_in };

    ghost faults = { λ v. v.faults };

    ghost log_faults = { log_faults_in };

    fn len(&mut self, file: FileNo) -> Result<u64, Failed>
        ensures value { IfOk result (λ n. IfSome (Some (files_of (volume_data self.old).story.now.disk))
            (λ fs. n ≡ length (of_file fs file))) }
        ensures same { IsOnlyRead files_in story_in moment_in log_faults_in self.old self.new }
        ensures cause { HasCause self.old.faults self.new.faults result }
        ensures fails { is_err result ≡ is_planned (volume_data self.old) }
        ensures looks { Looks (volume_data self.old) (volume_data self.new) result }
        ensures calls { Calls (volume_data self.old) (volume_data self.new) }
    {
        let number = self.calls;
        self.calls = number.saturating_add(1);
        if is_to_fail(&self.fail, self.stop, number) {
            self.faults = self.faults.saturating_add(1);
            return Err(Failed);
        }
        Ok(self.disk.file(file).bytes.len() as u64)
    }

    fn read_at(&mut self, file: FileNo, at: u64, into: &mut [u8]) -> Result<(), Failed>
        ensures value { OnOk result (IfSome (Some (files_of (volume_data self.old).story.now.disk))
            (λ fs. into.new ≡ read_bytes (of_file fs file) at (length into.old))) }
        ensures same { IsOnlyRead files_in story_in moment_in log_faults_in self.old self.new }
        ensures cause { HasCause self.old.faults self.new.faults result }
        ensures fails { is_err result ≡ is_planned (volume_data self.old) }
        ensures looks { Looks (volume_data self.old) (volume_data self.new) result }
        ensures calls { Calls (volume_data self.old) (volume_data self.new) }
    {
        let number = self.calls;
        self.calls = number.saturating_add(1);
        if is_to_fail(&self.fail, self.stop, number) {
            self.faults = self.faults.saturating_add(1);
            return Err(Failed);
        }
        read_into(self.disk.file(file).bytes.as_slice(), at, into);
        Ok(())
    }

    /// Where it fails as planned, a front of the bytes is written, and the whole range and the gap are loose.
    fn write_at(&mut self, file: FileNo, at: u64, from: &[u8]) -> Result<(), Failed>
        requires { at + length from.now ≤ MAX_FILE_BYTES }
        ensures files { Tells (FilesWrite file at from.now result)
            (Some (files_of (volume_data self.old).story.now.disk))
            (Some (files_of (volume_data self.new).story.now.disk)) }
        ensures story { Tells (Writes file at from.now result) (Some (volume_data self.old).story)
            (Some (volume_data self.new).story) }
        ensures time { TimePasses (moment_of (volume_data self.old).story)
            (moment_of (volume_data self.new).story) result }
        ensures log_faults { CountsLog file self.old.log_faults self.new.log_faults result }
        ensures cause { HasCause self.old.faults self.new.faults result }
        ensures answers { Answers file (is_planned (volume_data self.old)) (λ f g. g ≡ written f at from.now)
            (Tears at (length from.now)) result (volume_data self.old) (volume_data self.new) }
        ensures calls { Calls (volume_data self.old) (volume_data self.new) }
    {
        let number = self.calls;
        self.calls = number.saturating_add(1);
        let count = from.len() as u64;
        if !is_to_fail(&self.fail, self.stop, number) {
            let change = Change::Write {
                at,
                piece: from,
                count,
            };
            return self.change(file, change, false);
        }
        let kept = draw(number, count + 1) as usize;
        let change = Change::Write {
            at,
            piece: &from[..kept],
            count,
        };
        self.change(file, change, true)
    }

    /// Where it fails as planned, the positions from `to` on are loose.
    fn cut(&mut self, file: FileNo, to: u64) -> Result<(), Failed>
        ensures files { Tells (FilesCut file to result) (Some (files_of (volume_data self.old).story.now.disk))
            (Some (files_of (volume_data self.new).story.now.disk)) }
        ensures story { Tells (Cuts file to result) (Some (volume_data self.old).story)
            (Some (volume_data self.new).story) }
        ensures time { TimePasses (moment_of (volume_data self.old).story)
            (moment_of (volume_data self.new).story) result }
        ensures log_faults { CountsLog file self.old.log_faults self.new.log_faults result }
        ensures cause { HasCause self.old.faults self.new.faults result }
        ensures answers { Answers file (is_planned (volume_data self.old)) (λ f g. g ≡ cut_to f to)
            (MaybeCuts to) result (volume_data self.old) (volume_data self.new) }
        ensures calls { Calls (volume_data self.old) (volume_data self.new) }
    {
        let number = self.calls;
        self.calls = number.saturating_add(1);
        if !is_to_fail(&self.fail, self.stop, number) {
            return self.change(file, Change::Cut { to, keep: to }, false);
        }
        let length = self.disk.file(file).bytes.len() as u64;
        let keep = kept_length(number, to, length);
        self.change(file, Change::Cut { to, keep }, true)
    }

    fn sync(&mut self, file: FileNo) -> Result<(), Failed>
        ensures files { Some (files_of (volume_data self.new).story.now.disk)
            ≡ Some (files_of (volume_data self.old).story.now.disk) }
        ensures story { Tells (Syncs file result) (Some (volume_data self.old).story)
            (Some (volume_data self.new).story) }
        ensures time { TimePasses (moment_of (volume_data self.old).story)
            (moment_of (volume_data self.new).story) result }
        ensures log_faults { CountsLog file self.old.log_faults self.new.log_faults result }
        ensures cause { HasCause self.old.faults self.new.faults result }
        ensures answers { Answers file (is_planned (volume_data self.old)) (λ f g. g ≡ synced f) (λ f g. g ≡ f) result
            (volume_data self.old) (volume_data self.new) }
        ensures calls { Calls (volume_data self.old) (volume_data self.new) }
    {
        let number = self.calls;
        self.calls = number.saturating_add(1);
        if !is_to_fail(&self.fail, self.stop, number) {
            return self.change(file, Change::Sync, false);
        }
        self.change(file, Change::Keep, true)
    }

    fn moment(&self) -> u64 {
        self.disk.moment
    }

    fn log_faults(&self) -> u64 {
        self.log_faults
    }

    fn faults(&self) -> u64 {
        self.faults
    }

    ghost reads_bytes = { told_are_bytes };

    ghost tells_one = { told_is_one };

    ghost counts_past = { told_counts_past };

    ghost reads_as_image = { told_reads_as_image };
}

// A byte of a file changes.
fn with_byte(bytes: Blob, at: u64, byte: u8) -> Blob
    requires { at < length bytes }
    ensures { result ≡ slice_set bytes at byte }
{
    let mut bytes = bytes.into_vec();
    bytes[at as usize] = byte;
    Blob::from_vec(bytes)
}

// Whether the call with this number is to fail.
fn is_to_fail(fail: &NumberList, stop: Option<u64>, number: u64) -> bool
    ensures { result ≡ is_listed fail.now number || is_from stop number }
{
    if fail.as_slice().contains(&number) {
        return true;
    }
    match stop {
        Some(start) => start <= number,
        None => false,
    }
}

/// Fills a slice with bytes from a place on, and zeros past their end.
pub fn read_into(bytes: &[u8], at: u64, into: &mut [u8])
    ensures { into.new ≡ read_bytes bytes.now at (length into.old) }
{
    let rest = &bytes[(at as usize).min(bytes.len())..];
    let count = rest.len().min(into.len());
    into.fill(0);
    into[..count].copy_from_slice(&rest[..count]);
}

// The length that a cut leaves where it fails: the one asked for, or the one that was.
fn kept_length(seed: u64, to: u64, length: u64) -> u64
    ensures { (result ≡ to) ⊎ (result ≡ length) }
{
    if draw(seed, 2) == 0 { to } else { length }
}
