// A disk in memory with the notes from which its past is told.
ghost use Rattle.std.specs.Prelude.{◌≡◌, ◌≤◌, ◌<◌, ◌+◌, ◌++◌, [], ◌∷◌, length, IfOk, OnOk, OnErr, vec_len};
ghost use Rattle.std.specs.Prelude.{vec_capacity};
ghost use Rattle.ori_volmem.specs.Record.{moments_of};

use crate::change::{Change, Undo};
use crate::memory_file::{MemFile, push_reserved};
use crate::note::Note;
use ori_bytes::NoMemory;
use ori_volume::FileNo;
use std::alloc::Global;
use std::mem;

/// Four files, with a note of each change.
#[derive(Drop)]
pub struct MemDisk {
    pub master: MemFile,
    pub log_a: MemFile,
    pub log_b: MemFile,
    pub pages: MemFile,
    /// The oldest first.
    pub notes: Vec<Note>,
    /// The steps since the newest note that left none.
    pub unnoted: u64,
    /// How many steps there were.
    pub moment: u64,
    ghost counted: { moment ≡ unnoted + moments_of notes.items },
}

impl MemDisk {
    ghost use Rattle.ori_volume.specs.Disk.{of_file, with_file};
    ghost use Rattle.ori_volume.specs.Story.{end_of_time};
    ghost use Rattle.ori_volmem.specs.Record.{after_change, undone, IsInRange, disk_of, past_of};
    ghost use Rattle.ori_volmem.specs.States.{state_of};
    ghost use Rattle.ori_volmem.specs.DiskStates.{states_of, past_in};

    /// A disk with these files and no past.
    pub fn new(
        alloc: Global,
        master: MemFile,
        log_a: MemFile,
        log_b: MemFile,
        pages: MemFile,
    ) -> Self
        ensures states { states_of result ≡ record {
          master = state_of master;
          log_a = state_of log_a;
          log_b = state_of log_b;
          pages = state_of pages;
        } }
        ensures past { past_in result ≡ [] }
        ensures moment { result.moment ≡ 0 }
    {
        MemDisk {
            master,
            log_a,
            log_b,
            pages,
            notes: Vec::new(alloc),
            unnoted: 0,
            moment: 0,
        }
    }

    /// Changes a file, and ends a moment. Where memory is wanting the files stay as they are, and the moment ends too.
    pub fn step(&mut self, file: FileNo, change: Change) -> Result<(), NoMemory>
        requires in_time { self.old.moment < end_of_time }
        requires in_range { IsInRange change }
        ensures ok { OnOk result (states_of self.new
            ≡ with_file (states_of self.old) file (after_change change.entry (of_file (states_of self.old) file))) }
        ensures err { OnErr result (states_of self.new ≡ states_of self.old) }
        ensures past { past_in self.new ≡ disk_of (states_of self.old) ∷ past_in self.old }
        ensures moment { self.new.moment ≡ self.old.moment + 1 }
    {
        match self.try_step(file, change) {
            Ok(()) => Ok(()),
            Err(_) => {
                self.pass();
                Err(NoMemory)
            }
        }
    }

    /// Ends a moment without a note.
    pub fn pass(&mut self)
        requires { self.old.moment < end_of_time }
        ensures states { states_of self.new ≡ states_of self.old }
        ensures past { past_in self.new ≡ disk_of (states_of self.old) ∷ past_in self.old }
        ensures moment { self.new.moment ≡ self.old.moment + 1 }
    {
        self.unnoted += 1;
        self.moment += 1;
    }

    /// One of the files.
    pub fn file(&self, file: FileNo) -> &MemFile
        ensures { state_of result.now ≡ of_file (states_of self.now) file }
    {
        match file {
            FileNo::Master => &self.master,
            FileNo::LogA => &self.log_a,
            FileNo::LogB => &self.log_b,
            FileNo::Pages => &self.pages,
        }
    }

    // Unchanged where memory is wanting.
    fn try_step(&mut self, file: FileNo, change: Change) -> Result<(), NoMemory>
        requires in_time { self.old.moment < end_of_time }
        requires in_range { IsInRange change }
        ensures ok { OnOk result (states_of self.new
            ≡ with_file (states_of self.old) file (after_change change.entry (of_file (states_of self.old) file))) }
        ensures err { OnErr result (states_of self.new ≡ states_of self.old) }
        ensures past { OnOk result (past_in self.new ≡ disk_of (states_of self.old) ∷ past_in self.old) }
        ensures past_err { OnErr result (past_in self.new ≡ past_in self.old) }
        ensures moment { OnOk result (self.new.moment ≡ self.old.moment + 1) }
        ensures moment_err { OnErr result (self.new.moment ≡ self.old.moment) }
    {
        self.notes.reserve(1)?;
        let alloc = *self.notes.allocator();
        match file {
            FileNo::Master => {
                let undo = self.master.change(alloc, change)?;
                self.note(file, undo);
                Ok(())
            }
            FileNo::LogA => {
                let undo = self.log_a.change(alloc, change)?;
                self.note(file, undo);
                Ok(())
            }
            FileNo::LogB => {
                let undo = self.log_b.change(alloc, change)?;
                self.note(file, undo);
                Ok(())
            }
            FileNo::Pages => {
                let undo = self.pages.change(alloc, change)?;
                self.note(file, undo);
                Ok(())
            }
        }
    }

    // Notes a change that was made.
    fn note(&mut self, file: FileNo, undo: Undo)
        requires room { vec_len self.old.notes < vec_capacity self.old.notes }
        requires in_time { self.old.moment < end_of_time }
        ensures states { states_of self.new ≡ states_of self.old }
        ensures past { past_in self.new
            ≡ disk_of (with_file (states_of self.old) file (undone undo (of_file (states_of self.old) file)))
            ∷ past_of (with_file (states_of self.old) file (undone undo (of_file (states_of self.old) file)))
            self.old.unnoted self.old.notes.items }
        ensures moment { self.new.moment ≡ self.old.moment + 1 }
    {
        let unnoted = mem::replace(&mut self.unnoted, 0);
        push_reserved(
            &mut self.notes,
            Note {
                file,
                undo,
                unnoted,
            },
        );
        self.moment += 1;
    }
}
