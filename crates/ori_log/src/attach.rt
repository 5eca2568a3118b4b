// How a log is attached to a volume that a crash may have left.
ghost use Rattle.std.specs.Prelude.{◌≡◌, ◌<◌, ◌≤◌, ℕ, List, Some, OnOk, IfOk, IfSome, IsErrOf};
ghost use Rattle.ori_volume.specs.declared.file.FileNo.{FileNo};
ghost use Rattle.ori_volume.specs.Disk.{Files};
ghost use Rattle.ori_volume.specs.OnlyRead.{IsOnlyRead};
ghost use Rattle.ori_volume.specs.Story.{Tells};
ghost use Rattle.ori_log.specs.Log.{ImageData};
ghost use Rattle.ori_log.specs.Appending.{FailsAs, StandsIn};
ghost use Rattle.ori_log.specs.Attaching.{AttachesTo, AttachesMade, Attaches, AttachesFirm, IsKeptOrMade};
ghost use Rattle.ori_log.specs.Forms.{BreaksFirst};
ghost use Rattle.ori_log.specs.Images.{AreRising};
ghost use Rattle.ori_log.specs.Measures.{Measures};

use crate::form::{named_by, read_made, read_master};
use crate::opening::{FIRST_MASTER, make, settle};
use crate::sizes::Sizes;
use crate::stage::Stage;
use crate::{ImageList, Log, LogFault};
use ori_volume::{FileNo, Volume};
use std::alloc::Global;

// Makes the files of a volume without a master, where the others are of the form.
fn attach_new<V: Volume>(
    alloc: Global,
    volume: &mut V,
    stage: Stage,
    sizes: &Sizes,
) -> Result<(Log, ImageList), LogFault>
    requires measured { IfSome (V.files volume.old) (λ fs. Measures sizes.now fs) }
    requires none { sizes.now.master ≡ 0 }
    ensures value { IfOk result (λ pair. IfSome (V.files volume.old)
        (λ fs. (records : List (List ImageData)) × AttachesTo fs records pair.0 pair.1)) }
    ensures stands { IfOk result (λ pair. IfSome (V.files volume.new) (λ fs. StandsIn pair.0 fs)) }
    ensures not_a_log { (file : FileNo) → IsErrOf result (LogFault.NotALog file)
        → IfSome (V.files volume.old) (λ fs. BreaksFirst fs file) }
    ensures rising { IfOk result (λ pair. AreRising 0 pair.1) }
    ensures never_full { (need room : ℕ) → IsErrOf result (LogFault.LogFull need room) → ⊥ }
    ensures refused { (file : FileNo) → IsErrOf result (LogFault.NotALog file)
        → V.files volume.new ≡ V.files volume.old }
    ensures files { OnOk result (Tells IsKeptOrMade (V.files volume.old) (V.files volume.new)) }
    ensures crash { Tells (AttachesFirm result) (V.story volume.old) (V.story volume.new) }
    ensures faults { FailsAs LogFault.Failed (V.faults volume.old) (V.faults volume.new) result }
    ensures log_faults { V.log_faults volume.old ≤ V.log_faults volume.new }
    ensures log_fine { OnOk result (V.log_faults volume.new ≡ V.log_faults volume.old) }
{
    if let Some(file) = sizes.long_for_new() {
        return Err(LogFault::NotALog { file });
    }
    make(volume)?;
    Ok((Log::at(FIRST_MASTER, 0, 0, 1, stage), ImageList::new(alloc)))
}

// Reads the log of a volume that has a master.
fn attach_made<V: Volume>(
    alloc: Global,
    volume: &mut V,
    stage: Stage,
    sizes: &Sizes,
) -> Result<(Log, ImageList), LogFault>
    requires measured { IfSome (V.files volume.old) (λ fs. Measures sizes.now fs) }
    requires some { 0 < sizes.now.master }
    ensures value { IfOk result (λ pair. IfSome (V.files volume.old)
        (λ fs. (records : List (List ImageData)) × AttachesMade fs records pair.0 pair.1)) }
    ensures not_a_log { (file : FileNo) → IsErrOf result (LogFault.NotALog file)
        → IfSome (V.files volume.old) (λ fs. BreaksFirst fs file) }
    ensures rising { IfOk result (λ pair. AreRising 0 pair.1) }
    ensures never_full { (need room : ℕ) → IsErrOf result (LogFault.LogFull need room) → ⊥ }
    ensures same { IsOnlyRead V.files V.story V.moment V.log_faults volume.old volume.new }
    ensures faults { FailsAs LogFault.Failed (V.faults volume.old) (V.faults volume.new) result }
{
    if sizes.master > 1 {
        return Err(LogFault::NotALog {
            file: FileNo::Master,
        });
    }
    let master = read_master(volume)?;
    let file = named_by(master);
    let tail = read_made(alloc, volume, sizes, file)?;
    let log = Log::at(master, tail.records, tail.place, sizes.of(file), stage);
    Ok((log, tail.into_images(alloc)?))
}

// Attaches the log of a volume of which all is firm.
fn attach_firm<V: Volume>(
    alloc: Global,
    volume: &mut V,
    stage: Stage,
) -> Result<(Log, ImageList), LogFault>
    ensures value { IfOk result (λ pair. IfSome (V.files volume.old)
        (λ fs. (records : List (List ImageData)) × AttachesTo fs records pair.0 pair.1)) }
    ensures stands { IfOk result (λ pair. IfSome (V.files volume.new) (λ fs. StandsIn pair.0 fs)) }
    ensures not_a_log { (file : FileNo) → IsErrOf result (LogFault.NotALog file)
        → IfSome (V.files volume.old) (λ fs. BreaksFirst fs file) }
    ensures rising { IfOk result (λ pair. AreRising 0 pair.1) }
    ensures never_full { (need room : ℕ) → IsErrOf result (LogFault.LogFull need room) → ⊥ }
    ensures refused { (file : FileNo) → IsErrOf result (LogFault.NotALog file)
        → V.files volume.new ≡ V.files volume.old }
    ensures files { OnOk result (Tells IsKeptOrMade (V.files volume.old) (V.files volume.new)) }
    ensures crash { Tells (AttachesFirm result) (V.story volume.old) (V.story volume.new) }
    ensures faults { FailsAs LogFault.Failed (V.faults volume.old) (V.faults volume.new) result }
    ensures log_faults { V.log_faults volume.old ≤ V.log_faults volume.new }
    ensures log_fine { OnOk result (V.log_faults volume.new ≡ V.log_faults volume.old) }
{
    let sizes = Sizes::read(volume)?;
    if sizes.master == 0 {
        return attach_new(alloc, volume, stage, &sizes);
    }
    attach_made(alloc, volume, stage, &sizes)
}

impl Log {
    /// Attaches the log of a volume. All files are made firm first. An empty volume's files are made; of another the
    /// records of the active log are read, and the list has the last image of each page that they name, pages rising.
    ///
    /// `NotALog` names the first of Master, LogA, LogB and Pages that breaks the form, and nothing but the syncs has
    /// touched the files.
    pub fn attach<V: Volume>(alloc: Global, volume: &mut V) -> Result<(Log, ImageList), LogFault>
        ensures value { IfOk result (λ pair. IfSome (V.files volume.old)
            (λ fs. (records : List (List ImageData)) × AttachesTo fs records pair.0 pair.1)) }
        ensures stands { IfOk result (λ pair. IfSome (V.files volume.new) (λ fs. StandsIn pair.0 fs)) }
        ensures not_a_log { (file : FileNo) → IsErrOf result (LogFault.NotALog file)
            → IfSome (V.files volume.old) (λ fs. BreaksFirst fs file) }
        ensures rising { IfOk result (λ pair. AreRising 0 pair.1) }
        ensures never_full { (need room : ℕ) → IsErrOf result (LogFault.LogFull need room) → ⊥ }
        ensures refused { (file : FileNo) → IsErrOf result (LogFault.NotALog file)
            → V.files volume.new ≡ V.files volume.old }
        ensures files { OnOk result (Tells IsKeptOrMade (V.files volume.old) (V.files volume.new)) }
        ensures crash { Tells (Attaches result) (V.story volume.old) (V.story volume.new) }
        ensures faults { FailsAs LogFault.Failed (V.faults volume.old) (V.faults volume.new) result }
        ensures log_faults { V.log_faults volume.old ≤ V.log_faults volume.new }
        ensures log_fine { OnOk result (V.log_faults volume.new ≡ V.log_faults volume.old) }
    {
        let stage = Stage::new(alloc)?;
        settle(volume)?;
        attach_firm(alloc, volume, stage)
    }
}
