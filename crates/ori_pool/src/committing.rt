// An operation's pages, all at once.
ghost use Rattle.std.specs.Prelude.{◌≡◌, ◌+◌, ◌<◌, ◌≤◌, ◌-◌, ℕ, true, false, length, Option, None, Some, Err};
ghost use Rattle.std.specs.Prelude.{IsSome, IfSome, IfOk, OnOk, OnErr, IsErrOf, is_some, slice_index_or};
ghost use Rattle.ori_bytes.specs.declared.limits.TheConstants.{MAX_WEIGHT, MAX_LOG_BYTES, CHECKPOINT_BYTES};
ghost use Rattle.ori_volume.specs.Story.{Tells};
ghost use Rattle.ori_log.specs.Images.{AreRising};
ghost use Rattle.ori_log.specs.Appending.{need_of, room_of, FailsAs};
ghost use Rattle.ori_pool.specs.declared.fault.DeviceFault.{DeviceFault};
ghost use Rattle.ori_pool.specs.declared.fault.OpFault.{OpFault};
ghost use Rattle.ori_pool.specs.Devices.{OnLog, Puts, Halts, HaltsOp, HaltsTend, is_due, kept_tail, op_of};
ghost use Rattle.ori_pool.specs.declared.fault.TendFault.{TendFault};
ghost use Rattle.ori_pool.specs.Commits.{Commits, MakesRoom, LeavesRoom};
ghost use Rattle.ori_pool.specs.Operating.{Needs, Worked, Operated};
ghost use Rattle.ori_cover.specs.Dirty.{Dirty, AreInstalled};
ghost use Rattle.ori_cover.specs.Reading.{PutsRecordRead};
ghost use Rattle.ori_cover.specs.Steps.{PutsRecord};
ghost use Rattle.ori_cover.specs.Views.{on_disk, as_read};
ghost use Rattle.ori_pool.specs.Held.{dirty_with, HaveParts, HavePlaces, HoldsAll, AreOwn, SamePlaces, HaveNoBare};
ghost use Rattle.ori_pool.specs.Held.{AreTended, HaveNoMore, HaveFrom};

use crate::finishing::checkpoint;
use crate::images::{install_all, reserve_all};
use crate::{Device, DeviceFault, Hand, OpFault, TendFault};
use ori_log::ImageList;
use ori_volume::Volume;

// Puts the record of these images, whose pages have places, and installs them.
fn put<V: Volume>(
    device: &mut Device<V>,
    hand: &mut Hand,
    images: ImageList,
) -> Result<u64, DeviceFault>
    requires needs { Needs HavePlaces device.old.log hand.old.parts.items images }
    requires fits { IfSome device.old.log (λ log. need_of images ≤ room_of log) }
    ensures answers { Worked V.moment V.faults V.log_faults device.old device.new result }
    ensures crash { device.old.halted ≡ None → Tells (Puts PutsRecord device.old.log device.new.log images result)
        (V.story device.old.volume) (V.story device.new.volume) }
    ensures read { device.old.halted ≡ None → Tells (Puts PutsRecordRead device.old.log device.new.log images result)
        (V.files device.old.volume) (V.files device.new.volume) }
    ensures counts { OnOk result (OnLog (λ log now. now.tail ≡ log.tail + 1) device.old.log device.new.log) }
    ensures installed { OnOk result ((others : Dirty) → AreInstalled images (dirty_with others hand.old.parts.items)
        (dirty_with others hand.new.parts.items)) }
    ensures slots { SamePlaces hand.old.parts.items hand.new.parts.items }
    ensures contents { OnOk result (HaveFrom images hand.old.parts.items hand.new.parts.items) }
    ensures err { OnErr result (hand.new ≡ hand.old) }
{
    let moment = device.append(&images)?;
    install_all(hand, images);
    Ok(moment)
}

// Why an operation is refused by the device, where the log would have so many records with it.
fn refused(fault: DeviceFault, doubt: u64) -> OpFault
    ensures fault { fault ≡ DeviceFault.Fault → result ≡ OpFault.Fault (Some doubt) }
    ensures halted { (at_fault : ℕ) → fault ≡ DeviceFault.Halted at_fault → result ≡ OpFault.Halted at_fault }
{
    match fault {
        DeviceFault::Fault => OpFault::Fault { doubt: Some(doubt) },
        DeviceFault::Halted { at_fault } => OpFault::Halted { at_fault },
    }
}

// Why it is refused by a checkpoint before it.
fn unmade(fault: TendFault) -> OpFault
    ensures { result ≡ op_of fault }
{
    match fault {
        TendFault::Fault => OpFault::Fault { doubt: None },
        TendFault::Halted { at_fault } => OpFault::Halted { at_fault },
        TendFault::Busy { turn } => OpFault::Busy { turn },
    }
}

// The contents are whole pages, so that their record has room in a log for which no checkpoint is due.
fn measure(images: &ImageList)
    requires { length images.now ≤ MAX_WEIGHT }
    ensures { need_of images.now ≤ MAX_LOG_BYTES - CHECKPOINT_BYTES }
{
    let _count = images.len();
}

// Makes a checkpoint, where one is due.
fn make_room<V: Volume>(device: &mut Device<V>, hand: &mut Hand) -> Result<(), TendFault>
    requires open { IsSome device.old.log }
    requires fine { device.old.halted ≡ None }
    requires all { IfSome device.old.log (λ log. is_due log ≡ true → HoldsAll hand.old.parts.items) }
    requires own { AreOwn hand.old.parts.items }
    ensures kept { IsSome device.new.log }
    ensures crash { Tells (MakesRoom on_disk device.old.log device.new.log hand.old.parts.items hand.new.parts.items
        device.new.halted result) (V.story device.old.volume) (V.story device.new.volume) }
    ensures read { Tells (MakesRoom as_read device.old.log device.new.log hand.old.parts.items hand.new.parts.items
        device.new.halted result) (V.files device.old.volume) (V.files device.new.volume) }
    ensures room { OnOk result (LeavesRoom device.old.log device.new.log) }
    ensures halts { HaltsTend (V.faults device.new.volume) (V.log_faults device.old.volume)
        (V.log_faults device.new.volume) device.new.halted result }
    ensures tended { AreTended hand.old.parts.items hand.new.parts.items }
    ensures still { IfSome device.old.log (λ log. is_due log ≡ false → hand.new ≡ hand.old) }
    ensures faults { FailsAs TendFault.Fault (V.faults device.old.volume) (V.faults device.new.volume) result }
    ensures log_faults { V.log_faults device.old.volume ≤ V.log_faults device.new.volume }
    ensures log_fine { OnOk result (V.log_faults device.new.volume ≡ V.log_faults device.old.volume) }
{
    if !device.is_due() {
        return Ok(());
    }
    match checkpoint(device, hand) {
        Ok(_) => Ok(()),
        Err(fault) => Err(fault),
    }
}

// Commits images whose pages have places.
fn commit_placed<V: Volume>(
    device: &mut Device<V>,
    hand: &mut Hand,
    images: ImageList,
) -> Result<u64, OpFault>
    requires fine { device.old.halted ≡ None }
    requires needs { Needs HavePlaces device.old.log hand.old.parts.items images }
    ensures operated { Operated V.moment V.faults V.log_faults device.old device.new result }
    ensures operation { Tells (Commits on_disk device.old.log device.new.log hand.old.parts.items hand.new.parts.items
        images device.new.halted result) (V.story device.old.volume) (V.story device.new.volume) }
    ensures read { Tells (Commits as_read device.old.log device.new.log hand.old.parts.items hand.new.parts.items
        images device.new.halted result) (V.files device.old.volume) (V.files device.new.volume) }
    ensures never { IsErrOf result OpFault.NoMemory → ⊥ }
    ensures slots { SamePlaces hand.old.parts.items hand.new.parts.items }
    ensures contents { OnOk result (HaveFrom images hand.old.parts.items hand.new.parts.items) }
    ensures no_more { OnErr result (HaveNoMore hand.old.parts.items hand.new.parts.items) }
    ensures still { OnErr result (IfSome device.old.log (λ log. is_due log ≡ false → hand.new ≡ hand.old)) }
{
    measure(&images);
    if let Err(fault) = make_room(device, hand) {
        return Err(unmade(fault));
    }
    let doubt = device.tail() + 1;
    match put(device, hand, images) {
        Ok(moment) => Ok(moment),
        Err(fault) => Err(refused(fault, doubt)),
    }
}

// Commits images, after it has made places for their pages.
fn commit_all<V: Volume>(
    device: &mut Device<V>,
    hand: &mut Hand,
    images: ImageList,
) -> Result<u64, OpFault>
    requires fine { device.old.halted ≡ None }
    requires needs { Needs HaveParts device.old.log hand.old.parts.items images }
    ensures operated { Operated V.moment V.faults V.log_faults device.old device.new result }
    ensures operation { Tells (Commits on_disk device.old.log device.new.log hand.old.parts.items hand.new.parts.items
        images device.new.halted result) (V.story device.old.volume) (V.story device.new.volume) }
    ensures read { Tells (Commits as_read device.old.log device.new.log hand.old.parts.items hand.new.parts.items
        images device.new.halted result) (V.files device.old.volume) (V.files device.new.volume) }
    ensures own { AreOwn hand.new.parts.items }
    ensures contents { OnOk result (HaveFrom images hand.old.parts.items hand.new.parts.items) }
    ensures no_more { OnErr result (HaveNoMore hand.old.parts.items hand.new.parts.items) }
    ensures dirty { OnErr result (IfSome device.old.log (λ log. is_due log ≡ false → (others : Dirty) (q : ℕ)
        → dirty_with others hand.new.parts.items q ≡ dirty_with others hand.old.parts.items q)) }
{
    let Ok(()) = reserve_all(hand, images.as_slice()) else {
        return Err(OpFault::NoMemory);
    };
    commit_placed(device, hand, images)
}

/// Commits the pages of an operation, all at once: it puts them into the log as one record and makes them dirty. It
/// answers the moment at which the append ended. Where the log holds [`CHECKPOINT_BYTES`] or more, as it does where the
/// record hasn't room, it makes a checkpoint first, for which the hand is to hold all partitions. Before the first call
/// of the device it makes the pages' places; from there on it takes no memory but what clean pages may use.
///
/// A crash at any moment leaves the pages from before, or those with the operation's. `Halted` comes exactly where the
/// device is halted, and nothing has changed then, and after `NoMemory` the device is as it was. Where the append fails
/// the device is halted, and the record that it would have made is in doubt. Where the checkpoint fails nothing is in
/// doubt, and the device is halted where log work failed. After a refusal but `Halted` no place is without a dirty
/// page.
///
/// [`CHECKPOINT_BYTES`]: ori_bytes::limits::CHECKPOINT_BYTES
pub fn commit<V: Volume>(
    device: &mut Device<V>,
    hand: &mut Hand,
    images: ImageList,
) -> Result<u64, OpFault>
    requires { Needs HaveParts device.old.log hand.old.parts.items images }
    ensures operated { Operated V.moment V.faults V.log_faults device.old device.new result }
    ensures operation { device.old.halted ≡ None → Tells (Commits on_disk device.old.log device.new.log
        hand.old.parts.items hand.new.parts.items images device.new.halted result) (V.story device.old.volume)
        (V.story device.new.volume) }
    ensures read { device.old.halted ≡ None → Tells (Commits as_read device.old.log device.new.log
        hand.old.parts.items hand.new.parts.items images device.new.halted result) (V.files device.old.volume)
        (V.files device.new.volume) }
    ensures halted { (at_fault : ℕ) → device.old.halted ≡ Some at_fault
        → (result ≡ Err (OpFault.Halted at_fault)) × (device.new ≡ device.old) × (hand.new ≡ hand.old) }
    ensures own { AreOwn hand.new.parts.items }
    ensures contents { OnOk result (HaveFrom images hand.old.parts.items hand.new.parts.items) }
    ensures no_more { OnErr result (HaveNoMore hand.old.parts.items hand.new.parts.items) }
    ensures dirty { OnErr result (IfSome device.old.log (λ log. is_due log ≡ false → (others : Dirty) (q : ℕ)
        → dirty_with others hand.new.parts.items q ≡ dirty_with others hand.old.parts.items q)) }
    ensures held { (number : ℕ) → is_some (slice_index_or hand.new.parts.items number None)
        ≡ is_some (slice_index_or hand.old.parts.items number None) }
    ensures trimmed { device.old.halted ≡ None → OnErr result (HaveNoBare hand.new.parts.items) }
{
    if let Some(at_fault) = device.halted() {
        return Err(OpFault::Halted { at_fault });
    }
    match commit_all(device, hand, images) {
        Ok(moment) => Ok(moment),
        Err(fault) => {
            hand.trim();
            Err(fault)
        }
    }
}
