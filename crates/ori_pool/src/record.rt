// Log work, and what it makes of the pages.
ghost use Rattle.std.specs.Prelude.{◌≡◌, ◌+◌, ◌<◌, ◌≤◌, length, Err, OnOk, OnErr};
ghost use Rattle.ori_bytes.specs.declared.limits.TheConstants.{MAX_WEIGHT};
ghost use Rattle.ori_volume.specs.Story.{Tells};
ghost use Rattle.ori_log.specs.Images.{AreRising};
ghost use Rattle.ori_log.specs.Appending.{need_of, room_of, FailsAs};
ghost use Rattle.ori_log.specs.declared.fault.LogFault.{LogFault};
ghost use Rattle.ori_cover.specs.Reading.{PutsRecordRead, SwitchesLogRead};
ghost use Rattle.ori_cover.specs.Steps.{PutsRecord, SwitchesLog};

use ori_log::{ImageList, Log, LogFault};
use ori_volume::Volume;

// Adds a record that there is room for.
pub(crate) fn put_record<V: Volume>(
    volume: &mut V,
    log: &mut Log,
    images: &ImageList,
) -> Result<(), LogFault>
    requires some { 0 < length images.now }
    requires few { length images.now ≤ MAX_WEIGHT }
    requires rising { AreRising 0 images.now }
    requires fits { need_of images.now ≤ room_of log.old }
    ensures fault { OnErr result (result ≡ Err LogFault.Failed) }
    ensures crash { Tells (PutsRecord log.old log.new images.now result) (V.story volume.old) (V.story volume.new) }
    ensures read { Tells (PutsRecordRead log.old log.new images.now result) (V.files volume.old)
        (V.files volume.new) }
    ensures counts { OnOk result (log.new.tail ≡ log.old.tail + 1) }
    ensures faults { FailsAs LogFault.Failed (V.faults volume.old) (V.faults volume.new) result }
    ensures log_faults { FailsAs LogFault.Failed (V.log_faults volume.old) (V.log_faults volume.new) result }
    ensures log_fine { OnOk result (V.log_faults volume.new ≡ V.log_faults volume.old) }
{
    log.append(volume, images)
}

// Makes the other file the log.
pub(crate) fn switch_log<V: Volume>(volume: &mut V, log: &mut Log) -> Result<(), LogFault>
    ensures fault { OnErr result (result ≡ Err LogFault.Failed) }
    ensures empty { OnOk result ((log.new.tail ≡ 0) × (log.new.place ≡ 0)) }
    ensures crash { Tells (SwitchesLog log.old log.new result) (V.story volume.old) (V.story volume.new) }
    ensures read { Tells (SwitchesLogRead log.old log.new result) (V.files volume.old) (V.files volume.new) }
    ensures faults { FailsAs LogFault.Failed (V.faults volume.old) (V.faults volume.new) result }
    ensures log_faults { FailsAs LogFault.Failed (V.log_faults volume.old) (V.log_faults volume.new) result }
    ensures log_fine { OnOk result (V.log_faults volume.new ≡ V.log_faults volume.old) }
{
    log.switch(volume)
}
