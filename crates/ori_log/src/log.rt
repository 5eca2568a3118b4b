// The log itself: what is attached, and how a record joins it.
ghost use Rattle.std.specs.Prelude.{◌≡◌, ◌+◌, ◌-◌, ◌*◌, ◌<◌, ◌≤◌, ℕ, List, length, IsTrue, OnOk, OnErr, Ok, Err};
ghost use Rattle.ori_bytes.specs.declared.limits.TheConstants.{MAX_LOG_BYTES};
ghost use Rattle.ori_log.specs.Files.{is_log_file, other_log, file_named, zeros_behind};
ghost use Rattle.ori_log.specs.declared.stage.TheConstants.{STAGE_BYTES};

use crate::form::named_by;
use crate::stage::{IMAGE_BYTES, STAGE_BYTES, Stage};
use crate::switch::{clear, other_log, set_master};
use crate::{ImageList, LogFault};
use ori_bytes::limits::{LOG_STEP_BYTES, MAX_LOG_BYTES, MAX_WEIGHT, OPEN_GATE};
use ori_volume::{Failed, FileNo, Volume};

/// The log of an attached volume: whole records in one of two files, and a closed gate behind them.
#[derive(Drop)]
pub struct Log {
    // The master's byte, and the file that it names.
    master: u8,
    file: FileNo,
    // The number of records.
    tail: u64,
    // Where the closed gate stands.
    place: u64,
    // The bytes of the file.
    length: u64,
    stage: Stage,
    ghost in_log: { IsTrue (is_log_file file) },
    ghost within: { place < MAX_LOG_BYTES },
    ghost counted: { tail ≤ place },
}

impl Log {
    ghost use Rattle.ori_volume.specs.Causes.{HasCause};
    ghost use Rattle.ori_volume.specs.Story.{Tells};
    ghost use Rattle.ori_log.specs.Images.{AreRising};
    ghost use Rattle.ori_log.specs.Log.{IsLogRecord};
    ghost use Rattle.ori_log.specs.Appending.{need_of, room_of, Appends, WritesBody, OpensGate, FailsAs};
    ghost use Rattle.ori_log.specs.Appending.{AppendsFiles, WritesBodyFiles, GateFiles};
    ghost use Rattle.ori_log.specs.Switching.{Switches, SwitchesFiles};

    // The log that the master's byte names, of so many records up to the closed gate at this place of a file of this
    // length.
    pub(crate) fn at(master: u8, tail: u64, place: u64, length: u64, stage: Stage) -> Self
        requires within { place < MAX_LOG_BYTES }
        requires counted { tail ≤ place }
        ensures master { result.master ≡ master }
        ensures file { result.file ≡ file_named master }
        ensures place { result.place ≡ place }
        ensures tail { result.tail ≡ tail }
        ensures length { result.length ≡ length }
    {
        Log {
            master,
            file: named_by(master),
            tail,
            place,
            length,
            stage,
        }
    }

    /// The number of records that stand in it.
    pub fn tail(&self) -> u64
        ensures { result ≡ self.now.tail }
    {
        self.tail
    }

    /// The bytes that a further record has room for, with its gate, its length and the gate behind it.
    pub fn room(&self) -> u64
        ensures { result ≡ room_of self.now }
    {
        MAX_LOG_BYTES - self.place
    }

    #[tactic(auto, using(crate::proofs::Joins::log_record))]
    /// Adds a record of these images; takes no memory. At `Ok` every crash from then on leaves a log that has it. Where
    /// the file ends before the record does, it grows with zeros to the next multiple of `LOG_STEP_BYTES`, and not past
    /// 2^30 bytes: a sync of a file whose length stays is cheaper. Else its length stays.
    ///
    /// `LogFull` comes exactly where the record needs more than there is room for, and nothing has changed then. At
    /// `Failed` a crash leaves the records from before, or those and this one, and the log is to be attached anew.
    pub fn append<V: Volume>(&mut self, volume: &mut V, images: &ImageList) -> Result<(), LogFault>
        requires some { 0 < length images.now }
        requires few { length images.now ≤ MAX_WEIGHT }
        requires rising { AreRising 0 images.now }
        ensures full { room_of self.old < need_of images.now
            → (result ≡ Err (LogFault.LogFull (need_of images.now) (room_of self.old)))
            × (self.new ≡ self.old) × (volume.new ≡ volume.old) }
        ensures whole { IsLogRecord images.now }
        ensures fits { need_of images.now ≤ room_of self.old → OnErr result (result ≡ Err LogFault.Failed) }
        ensures counts { OnOk result ((self.new.tail ≡ self.old.tail + 1)
            × (self.new.place ≡ self.old.place + (need_of images.now - 1)) × (self.new.file ≡ self.old.file)) }
        ensures files { Tells (AppendsFiles self.old self.new images.now result) (V.files volume.old)
            (V.files volume.new) }
        ensures crash { Tells (Appends self.old self.new images.now result) (V.story volume.old) (V.story volume.new) }
        ensures faults { FailsAs LogFault.Failed (V.faults volume.old) (V.faults volume.new) result }
        ensures log_faults { FailsAs LogFault.Failed (V.log_faults volume.old) (V.log_faults volume.new) result }
        ensures log_fine { OnOk result (V.log_faults volume.new ≡ V.log_faults volume.old) }
    {
        let need = 10 + IMAGE_BYTES * images.len() as u64;
        let room = self.room();
        if need > room {
            return Err(LogFault::LogFull { need, room });
        }
        let end = self.place + need;
        let zeros = zeros_behind(self.length, end);
        self.write_body(volume, images, zeros as usize)?;
        self.open_gate(volume)?;
        self.place += need - 1;
        self.tail += 1;
        self.length = self.length.max(end + zeros);
        Ok(())
    }

    /// Makes the other file the log, without records; takes no memory. It needs that each page's home is stably its
    /// last image: then every crash at every moment leaves the same pages, by the records from before or by none. The
    /// other file is cut to nothing and gets a closed gate, and once that is firm the master gets its next byte, which
    /// names it. After `Failed` the log is to be attached anew.
    pub fn switch<V: Volume>(&mut self, volume: &mut V) -> Result<(), LogFault>
        ensures fault { OnErr result (result ≡ Err LogFault.Failed) }
        ensures counts { OnOk result ((self.new.tail ≡ 0) × (self.new.place ≡ 0)
            × (self.new.file ≡ other_log self.old.file) × (self.new.length ≡ 1)) }
        ensures files { Tells (SwitchesFiles self.old self.new result) (V.files volume.old) (V.files volume.new) }
        ensures crash { Tells (Switches self.old self.new result) (V.story volume.old) (V.story volume.new) }
        ensures faults { FailsAs LogFault.Failed (V.faults volume.old) (V.faults volume.new) result }
        ensures log_faults { FailsAs LogFault.Failed (V.log_faults volume.old) (V.log_faults volume.new) result }
        ensures log_fine { OnOk result (V.log_faults volume.new ≡ V.log_faults volume.old) }
    {
        let other = other_log(self.file);
        clear(volume, other)?;
        let master = self.master.wrapping_add(1);
        set_master(volume, master)?;
        self.master = master;
        self.file = other;
        self.tail = 0;
        self.place = 0;
        self.length = 1;
        Ok(())
    }

    // Writes a record behind the closed gate, with a closed gate and so many zeros behind it, and makes that firm.
    fn write_body<V: Volume>(
        &mut self,
        volume: &mut V,
        images: &ImageList,
        zeros: usize,
    ) -> Result<(), Failed>
        requires few { length images.now ≤ MAX_WEIGHT }
        requires piece { zeros ≤ STAGE_BYTES }
        requires fits { self.old.place + 10 + IMAGE_BYTES * length images.now + zeros ≤ MAX_LOG_BYTES }
        ensures same { (self.new.file ≡ self.old.file) × (self.new.place ≡ self.old.place)
            × (self.new.tail ≡ self.old.tail) × (self.new.length ≡ self.old.length)
            × (self.new.master ≡ self.old.master) }
        ensures files { Tells (WritesBodyFiles self.old.file self.old.place images.now zeros result)
            (V.files volume.old) (V.files volume.new) }
        ensures crash { Tells (WritesBody self.old.file self.old.place images.now zeros result) (V.story volume.old)
            (V.story volume.new) }
        ensures faults { HasCause (V.faults volume.old) (V.faults volume.new) result }
        ensures log_faults { HasCause (V.log_faults volume.old) (V.log_faults volume.new) result }
        ensures log_fine { OnOk result (V.log_faults volume.new ≡ V.log_faults volume.old) }
    {
        let file = self.file;
        self.stage.begin(self.place + 1);
        self.stage.put_record(volume, file, images, zeros)?;
        volume.sync(file)
    }

    // Opens the gate before a firm record, and makes that firm.
    fn open_gate<V: Volume>(&mut self, volume: &mut V) -> Result<(), Failed>
        ensures same { self.new ≡ self.old }
        ensures files { Tells (GateFiles self.old.file self.old.place result) (V.files volume.old)
            (V.files volume.new) }
        ensures crash { Tells (OpensGate self.old.file self.old.place result) (V.story volume.old)
            (V.story volume.new) }
        ensures faults { HasCause (V.faults volume.old) (V.faults volume.new) result }
        ensures log_faults { HasCause (V.log_faults volume.old) (V.log_faults volume.new) result }
        ensures log_fine { OnOk result (V.log_faults volume.new ≡ V.log_faults volume.old) }
    {
        volume.write_at(self.file, self.place, &[OPEN_GATE])?;
        volume.sync(self.file)
    }
}

// How many zeros come behind a record that ends there in a file of this length.
fn zeros_behind(length: u64, end: u64) -> u64
    requires { end ≤ MAX_LOG_BYTES }
    ensures value { result ≡ zeros_behind length end }
    ensures few { result ≤ STAGE_BYTES }
    ensures room { end + result ≤ MAX_LOG_BYTES }
{
    if end <= length {
        return 0;
    }
    end.next_multiple_of(LOG_STEP_BYTES).min(MAX_LOG_BYTES) - end
}
