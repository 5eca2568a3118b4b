// A disk of real files. It tells nothing of their contents, which no contract can know, and keeps its counts.
ghost use Rattle.std.specs.Prelude.{◌≡◌, ◌+◌, ◌^◌, ◌-◌, ◌<◌, min, None, Some, IsTrue, OnOk, OnErr, IfOk};
ghost use Rattle.ori_volume.specs.Causes.{HasCause};
ghost use Rattle.ori_volume.specs.Story.{TimePasses, CountsLog};
ghost use Rattle.ori_volume.specs.declared.file.FileNo.{FileNo};

use crate::folder::Folder;
use ori_volume::{Failed, FileNo, Volume};
use std::io;

/// The files `master`, `log_a`, `log_b` and `pages` of a folder, which no other program uses meanwhile.
#[derive(Drop)]
pub struct FileVolume {
    folder: Folder,
    moment: u64,
    faults: u64,
    log_faults: u64,
}

impl FileVolume {
    /// Opens the files of a folder that are there; those that are missing read as empty ones, and are made before the
    /// first write. `WouldBlock` where another program uses the folder. An `Err` leaves the folder as it was.
    pub fn open(rt: &HostRuntime, folder: &str) -> io::Result<Self> {
        Ok(FileVolume {
            folder: Folder::open(rt, folder)?,
            moment: 0,
            faults: 0,
            log_faults: 0,
        })
    }
}

// Ends a moment, where it isn't the last one.
fn pass(moment: &mut u64) -> bool
    ensures next { moment.new ≡ min (moment.old + 1) (2 ^ 64 - 1) }
    ensures in_time { IsTrue result → moment.old < 2 ^ 64 - 1 }
{
    let next = moment.checked_add(1);
    match next {
        Some(n) => {
            *moment = n;
            true
        }
        None => false,
    }
}

// The answer to a call that may have failed, which counts.
fn counted<T>(answer: Option<T>, faults: &mut u64) -> Result<T, Failed>
    ensures cause { HasCause faults.old faults.new result }
{
    match answer {
        Some(value) => Ok(value),
        None => {
            *faults = faults.saturating_add(1);
            Err(Failed)
        }
    }
}

// The answer to a call that ends a moment, which counts twice where it is one of the log's.
fn settled(done: bool, file: FileNo, faults: &mut u64, log_faults: &mut u64) -> Result<(), Failed>
    ensures cause { HasCause faults.old faults.new result }
    ensures log { CountsLog file log_faults.old log_faults.new result }
    ensures done { OnOk result (IsTrue done) }
{
    if done {
        return Ok(());
    }
    match file {
        FileNo::Pages => {}
        FileNo::Master | FileNo::LogA | FileNo::LogB => *log_faults = log_faults.saturating_add(1),
    }
    *faults = faults.saturating_add(1);
    Err(Failed)
}

impl Volume for FileVolume {
    ghost files = { λ _. None };

    ghost story = { λ _. None };

    ghost moment = { λ v. v.moment };

    ghost faults = { λ v. v.faults };

    ghost log_faults = { λ v. v.log_faults };

    fn len(&mut self, file: FileNo) -> Result<u64, Failed> {
        let length = self.folder.len(file);
        counted(length.ok(), &mut self.faults)
    }

    fn read_at(&mut self, file: FileNo, at: u64, into: &mut [u8]) -> Result<(), Failed> {
        let done = self.folder.read_at(file, at, into);
        counted(done.ok(), &mut self.faults)
    }

    fn write_at(&mut self, file: FileNo, at: u64, from: &[u8]) -> Result<(), Failed> {
        let in_time = pass(&mut self.moment);
        let done = in_time && self.folder.write_at(file, at, from).is_ok();
        settled(done, file, &mut self.faults, &mut self.log_faults)
    }

    fn cut(&mut self, file: FileNo, to: u64) -> Result<(), Failed> {
        let in_time = pass(&mut self.moment);
        let done = in_time && self.folder.cut(file, to).is_ok();
        settled(done, file, &mut self.faults, &mut self.log_faults)
    }

    fn sync(&mut self, file: FileNo) -> Result<(), Failed> {
        let in_time = pass(&mut self.moment);
        let done = in_time && self.folder.sync(file).is_ok();
        settled(done, file, &mut self.faults, &mut self.log_faults)
    }

    fn moment(&self) -> u64 {
        self.moment
    }

    fn log_faults(&self) -> u64 {
        self.log_faults
    }

    fn faults(&self) -> u64 {
        self.faults
    }

    ghost reads_bytes = { λ volume told h. absurd (Prim.cc) };

    ghost tells_one = { λ volume told h. absurd (Prim.cc) };

    ghost counts_past = { λ volume told h. absurd (Prim.cc) };

    ghost reads_as_image = { λ volume told h. absurd (Prim.cc) };
}
