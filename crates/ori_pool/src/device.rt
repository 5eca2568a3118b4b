// The device: a volume and its log.
ghost use Rattle.std.specs.Prelude.{◌≡◌, ◌+◌, ◌*◌, ◌<◌, ◌≤◌, ℕ, length, None, Ok, Err, IsSome, IfSome, IfOk, OnOk};
ghost use Rattle.std.specs.Prelude.{◌⊎◌, List, max, false, OnErr, IfErr, IsErrOf};
ghost use Rattle.ori_bytes.specs.declared.limits.TheConstants.{MAX_LOG_BYTES, MAX_PAGES, MAX_WEIGHT, PAGE_BYTES};

use crate::DeviceFault;
use crate::home::{read_home, sync_homes, write_home};
use crate::record::{put_record, switch_log};
use ori_bytes::limits::{CHECKPOINT_BYTES, MAX_LOG_BYTES, PAGE_BYTES};
use ori_log::{ImageList, Log, LogFault};
use ori_page::{Page, PageFault};
use ori_volume::{Failed, FileNo, Volume};
use std::alloc::Global;

/// A volume and, once it is open, its log. A failed call of the log or the master halts it.
#[derive(Drop)]
pub struct Device<V: Drop> {
    volume: V,
    log: Option<Log>,
    // How many calls of the volume had failed as log work failed.
    halted: Option<u64>,
}

impl<V: Volume> Device<V> {
    ghost use Rattle.ori_volume.specs.declared.file.FileNo.{FileNo};
    ghost use Rattle.ori_volume.specs.declared.file.FileNo.TheVariants.{Pages};
    ghost use Rattle.ori_volume.specs.Causes.{HasCause};
    ghost use Rattle.ori_volume.specs.Story.{Tells, FilesWrite};
    ghost use Rattle.ori_log.specs.Images.{AreRising};
    ghost use Rattle.ori_log.specs.Forms.{BreaksFirst};
    ghost use Rattle.ori_log.specs.Log.{pages_at_home, pages_named};
    ghost use Rattle.ori_log.specs.Appending.{need_of, room_of, FailsAs};
    ghost use Rattle.ori_log.specs.Attaching.{IsKeptOrMade};
    ghost use Rattle.ori_log.specs.declared.fault.LogFault.{LogFault};
    ghost use Rattle.ori_volume.specs.OnlyRead.{IsOnlyRead};
    ghost use Rattle.ori_page.specs.declared.fault.PageFault.{PageFault};
    ghost use Rattle.ori_cover.specs.Given.{HoldsPages};
    ghost use Rattle.ori_cover.specs.Homes.{IsHome};
    ghost use Rattle.ori_cover.specs.Reading.{WritesHomeRead, SyncsHomesRead, PutsRecordRead, SwitchesLogRead};
    ghost use Rattle.ori_cover.specs.Steps.{WritesHome, SyncsHomes, PutsRecord, SwitchesLog};
    ghost use Rattle.ori_pool.specs.declared.fault.DeviceFault.{DeviceFault};
    ghost use Rattle.ori_pool.specs.Operating.{Worked};
    ghost use Rattle.ori_pool.specs.Devices.{Opens, OpensRead, OnLog, Puts, Switches, Halts, is_due};

    /// A volume whose log isn't attached yet.
    pub fn of(volume: V) -> Self
        ensures volume { result.volume ≡ volume }
        ensures log { result.log ≡ None }
        ensures halted { result.halted ≡ None }
    {
        Device {
            volume,
            log: None,
            halted: None,
        }
    }

    /// The volume.
    pub fn into_volume(self) -> V
        ensures { result ≡ self.volume }
    {
        self.volume
    }

    /// Attaches the log, and lists the last image of each page in its tail, pages rising: these are the dirty pages
    /// then, and a hand is to install them into partitions without a page. A device that has a log, halted or not, gets
    /// it anew, and isn't halted after it. Each page of the files has an image or a byte at home. Refused as
    /// [`Log::attach`] is: the device then has the log that it had, and is halted where it was.
    pub fn open(&mut self, alloc: Global) -> Result<ImageList, LogFault>
        ensures crash { Tells (Opens result self.new.log) (V.story self.old.volume) (V.story self.new.volume) }
        ensures read { OnOk result (Tells (OpensRead result self.new.log) (V.files self.old.volume)
            (V.files self.new.volume)) }
        ensures open { OnOk result (IsSome self.new.log) }
        ensures rising { IfOk result (λ images. AreRising 0 images) }
        ensures holds { IfOk result (λ images. IfSome (V.files self.old.volume) (λ fs. (pages : List (List ℕ))
            × HoldsPages pages fs × (length pages ≡ max (pages_named images) (pages_at_home fs.pages)))) }
        ensures files { OnOk result (Tells IsKeptOrMade (V.files self.old.volume) (V.files self.new.volume)) }
        ensures refused { (file : FileNo) → IsErrOf result (LogFault.NotALog file)
            → V.files self.new.volume ≡ V.files self.old.volume }
        ensures halted { OnOk result (self.new.halted ≡ None) }
        ensures log { OnErr result ((self.new.log ≡ self.old.log) × (self.new.halted ≡ self.old.halted)) }
        ensures not_a_log { (file : FileNo) → IsErrOf result (LogFault.NotALog file)
            → IfSome (V.files self.old.volume) (λ fs. BreaksFirst fs file) }
        ensures never_full { (need room : ℕ) → IsErrOf result (LogFault.LogFull need room) → ⊥ }
        ensures faults { FailsAs LogFault.Failed (V.faults self.old.volume) (V.faults self.new.volume) result }
        ensures log_faults { V.log_faults self.old.volume ≤ V.log_faults self.new.volume }
        ensures log_fine { OnOk result (V.log_faults self.new.volume ≡ V.log_faults self.old.volume) }
    {
        let (log, images) = Log::attach(alloc, &mut self.volume)?;
        self.log = Some(log);
        self.halted = None;
        Ok(images)
    }

    /// The number of the volume's moment.
    pub fn moment(&self) -> u64
        ensures { result ≡ V.moment self.now.volume }
    {
        self.volume.moment()
    }

    /// How many calls of the volume failed.
    pub fn faults(&self) -> u64
        ensures { result ≡ V.faults self.now.volume }
    {
        self.volume.faults()
    }

    /// How many writes, cuts and syncs of the log files and of the master failed.
    pub fn log_faults(&self) -> u64
        ensures { result ≡ V.log_faults self.now.volume }
    {
        self.volume.log_faults()
    }

    /// How many pages have a byte at home. `Failed` halts nothing.
    pub fn pages_at_home(&mut self) -> Result<u64, Failed>
        ensures value { IfOk result (λ count. IfSome (V.files self.old.volume)
            (λ fs. count ≡ pages_at_home fs.pages)) }
        ensures read { IsOnlyRead V.files V.story V.moment V.log_faults self.old.volume self.new.volume }
        ensures same { (self.new.log ≡ self.old.log) × (self.new.halted ≡ self.old.halted) }
        ensures faults { HasCause (V.faults self.old.volume) (V.faults self.new.volume) result }
    {
        let length = self.volume.len(FileNo::Pages)?;
        Ok(length.div_ceil(PAGE_BYTES as u64))
    }

    /// How many homes lie whole in the file of pages. `Failed` halts nothing.
    pub fn whole_homes(&mut self) -> Result<u64, Failed>
        ensures value { IfOk result (λ count. IfSome (V.files self.old.volume)
            (λ fs. (PAGE_BYTES * count ≤ length fs.pages) × (length fs.pages < PAGE_BYTES * (count + 1)))) }
        ensures read { IsOnlyRead V.files V.story V.moment V.log_faults self.old.volume self.new.volume }
        ensures same { (self.new.log ≡ self.old.log) × (self.new.halted ≡ self.old.halted) }
        ensures faults { HasCause (V.faults self.old.volume) (V.faults self.new.volume) result }
    {
        let length = self.volume.len(FileNo::Pages)?;
        Ok(length / PAGE_BYTES as u64)
    }

    /// The number of records in the log, or 0 where there is none.
    pub fn tail(&self) -> u64
        ensures value { IfSome self.now.log (λ log. result ≡ log.tail) }
        ensures none { self.now.log ≡ None → result ≡ 0 }
        ensures few { result < MAX_LOG_BYTES }
    {
        match &self.log {
            Some(log) => log.tail(),
            None => 0,
        }
    }

    /// Whether the log holds [`CHECKPOINT_BYTES`] or more, so that a commit makes a checkpoint first. Where it holds
    /// fewer, the record of any operation has room. Not where there is no log.
    pub fn is_due(&self) -> bool
        ensures value { IfSome self.now.log (λ log. result ≡ is_due log) }
        ensures none { self.now.log ≡ None → result ≡ false }
    {
        match &self.log {
            Some(log) => log.room() <= MAX_LOG_BYTES - CHECKPOINT_BYTES,
            None => false,
        }
    }

    /// How many calls of the volume had failed as log work failed, where it has failed since the opening.
    pub fn halted(&self) -> Option<u64>
        ensures { result ≡ self.now.halted }
    {
        self.halted
    }

    // What log work answers: the moment at which it ended, or a fault, which halts the device.
    fn answer(&mut self, done: Result<(), LogFault>) -> Result<u64, DeviceFault>
        requires { self.old.halted ≡ None }
        ensures ok { OnOk done ((result ≡ Ok (V.moment self.old.volume)) × (self.new ≡ self.old)) }
        ensures err { OnErr done (result ≡ Err DeviceFault.Fault) }
        ensures same { (self.new.volume ≡ self.old.volume) × (self.new.log ≡ self.old.log) }
        ensures halts { Halts (V.faults self.old.volume) self.old.halted self.new.halted result }
    {
        if done.is_err() {
            self.halted = Some(self.volume.faults());
            return Err(DeviceFault::Fault);
        }
        Ok(self.volume.moment())
    }

    /// Puts a record of these images, which there is room for, into the log, and answers the moment at which that
    /// ended. Takes no memory. A device that is halted is as it was; a fault halts it, and leaves the pages from
    /// before, or those that the record makes.
    pub fn append(&mut self, images: &ImageList) -> Result<u64, DeviceFault>
        requires open { IsSome self.old.log }
        requires some { 0 < length images.now }
        requires few { length images.now ≤ MAX_WEIGHT }
        requires rising { AreRising 0 images.now }
        requires fits { IfSome self.old.log (λ log. need_of images.now ≤ room_of log) }
        ensures answers { Worked V.moment V.faults V.log_faults self.old self.new result }
        ensures crash { self.old.halted ≡ None → Tells (Puts PutsRecord self.old.log self.new.log images.now result)
            (V.story self.old.volume) (V.story self.new.volume) }
        ensures read { self.old.halted ≡ None → Tells (Puts PutsRecordRead self.old.log self.new.log images.now result)
            (V.files self.old.volume) (V.files self.new.volume) }
        ensures counts { OnOk result (OnLog (λ log now. now.tail ≡ log.tail + 1) self.old.log self.new.log) }
    {
        if let Some(at_fault) = self.halted {
            return Err(DeviceFault::Halted { at_fault });
        }
        let Some(log) = &mut self.log else {
            return Err(DeviceFault::Fault);
        };
        let done = put_record(&mut self.volume, log, images);
        self.answer(done)
    }

    /// Makes the other file the log, without records, and answers the moment at which that ended. Takes no memory. It
    /// keeps the pages where none is dirty and all homes are firm. A device that is halted is as it was; a fault halts
    /// it.
    pub fn switch(&mut self) -> Result<u64, DeviceFault>
        requires open { IsSome self.old.log }
        ensures answers { Worked V.moment V.faults V.log_faults self.old self.new result }
        ensures empty { OnOk result (IfSome self.new.log (λ log. (log.tail ≡ 0) × (log.place ≡ 0))) }
        ensures crash { self.old.halted ≡ None → Tells (Switches SwitchesLog self.old.log self.new.log result)
            (V.story self.old.volume) (V.story self.new.volume) }
        ensures read { self.old.halted ≡ None → Tells (Switches SwitchesLogRead self.old.log self.new.log result)
            (V.files self.old.volume) (V.files self.new.volume) }
    {
        if let Some(at_fault) = self.halted {
            return Err(DeviceFault::Halted { at_fault });
        }
        let Some(log) = &mut self.log else {
            return Err(DeviceFault::Fault);
        };
        let done = switch_log(&mut self.volume, log);
        self.answer(done)
    }

    /// Reads a page's home. One that lies whole in the file of pages reads as its content, as it does of a page that is
    /// clean. It answers `Device` or `NoMemory`, and halts nothing.
    pub fn read_home(&mut self, alloc: Global, page: u32) -> Result<Page, PageFault>
        requires { page < MAX_PAGES }
        ensures value { IfOk result (λ home. IfSome (V.files self.old.volume)
            (λ fs. (content : List ℕ) → IsHome page content fs.pages → home ≡ content)) }
        ensures fault { IfErr result (λ fault. (fault ≡ PageFault.Device) ⊎ (fault ≡ PageFault.NoMemory)) }
        ensures read { IsOnlyRead V.files V.story V.moment V.log_faults self.old.volume self.new.volume }
        ensures same { (self.new.log ≡ self.old.log) × (self.new.halted ≡ self.old.halted) }
        ensures faults { FailsAs PageFault.Device (V.faults self.old.volume) (V.faults self.new.volume) result }
    {
        read_home(alloc, &mut self.volume, page)
    }

    /// Writes a page's content to its home. `Failed` halts nothing: the home then holds any bytes.
    pub fn write_home(&mut self, page: u32, content: &Page) -> Result<(), Failed>
        requires { page < MAX_PAGES }
        ensures files { Tells (FilesWrite Pages (PAGE_BYTES * page) content.now result) (V.files self.old.volume)
            (V.files self.new.volume) }
        ensures crash { Tells (WritesHome page content.now result) (V.story self.old.volume)
            (V.story self.new.volume) }
        ensures read { Tells (WritesHomeRead page content.now result) (V.files self.old.volume)
            (V.files self.new.volume) }
        ensures home { OnOk result (IfSome (V.files self.new.volume) (λ files. IsHome page content.now files.pages)) }
        ensures same { (self.new.log ≡ self.old.log) × (self.new.halted ≡ self.old.halted) }
        ensures faults { HasCause (V.faults self.old.volume) (V.faults self.new.volume) result }
        ensures log_faults { V.log_faults self.new.volume ≡ V.log_faults self.old.volume }
    {
        write_home(&mut self.volume, page, content)
    }

    /// Makes all homes firm. `Failed` halts nothing, and no home has changed.
    pub fn sync_homes(&mut self) -> Result<(), Failed>
        ensures files { V.files self.new.volume ≡ V.files self.old.volume }
        ensures crash { Tells (SyncsHomes result) (V.story self.old.volume) (V.story self.new.volume) }
        ensures read { Tells (SyncsHomesRead result) (V.files self.old.volume) (V.files self.new.volume) }
        ensures same { (self.new.log ≡ self.old.log) × (self.new.halted ≡ self.old.halted) }
        ensures faults { HasCause (V.faults self.old.volume) (V.faults self.new.volume) result }
        ensures log_faults { V.log_faults self.new.volume ≡ V.log_faults self.old.volume }
    {
        sync_homes(&mut self.volume)
    }
}
