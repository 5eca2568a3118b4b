// A checkpoint.
ghost use Rattle.std.specs.Prelude.{◌≡◌, ◌≤◌, ℕ, None, Some, Err, IsSome, IfSome, IfOk, OnOk};
ghost use Rattle.ori_volume.specs.Story.{Tells};
ghost use Rattle.ori_log.specs.Appending.{FailsAs};
ghost use Rattle.ori_pool.specs.declared.fault.DeviceFault.{DeviceFault};
ghost use Rattle.ori_pool.specs.declared.fault.TendFault.{TendFault};
ghost use Rattle.ori_pool.specs.Finishes.{AreWritten, Finishes, Checkpoints};
ghost use Rattle.ori_pool.specs.Held.{dirty_with, HoldsAll, AreOwn, AreTended};
ghost use Rattle.ori_pool.specs.Operating.{Tended};
ghost use Rattle.ori_cover.specs.Dirty.{Dirty, AreClean};
ghost use Rattle.ori_cover.specs.Views.{on_disk, as_read};

use crate::sending::send_home;
use crate::settling::settle;
use crate::{Device, DeviceFault, Hand, TendFault};
use ori_volume::Volume;

// Why it is refused.
fn refused(fault: DeviceFault) -> TendFault
    ensures fault { fault ≡ DeviceFault.Fault → result ≡ TendFault.Fault }
    ensures halted { (at_fault : ℕ) → fault ≡ DeviceFault.Halted at_fault → result ≡ TendFault.Halted at_fault }
{
    match fault {
        DeviceFault::Fault => TendFault::Fault,
        DeviceFault::Halted { at_fault } => TendFault::Halted { at_fault },
    }
}

/// Ends a checkpoint, whose hand holds all partitions and whose dirty pages are all written: makes the homes firm,
/// leaves no page dirty, and makes the other file the log, without records. It answers the moment at which that ended.
/// Takes no memory but what clean pages may use.
pub fn finish<V: Volume>(device: &mut Device<V>, hand: &mut Hand) -> Result<u64, TendFault>
    requires open { IsSome device.old.log }
    requires all { HoldsAll hand.old.parts.items }
    ensures answers { Tended V.moment V.faults V.log_faults device.old device.new result }
    ensures crash { device.old.halted ≡ None → Tells (Finishes on_disk device.old.log device.new.log
        hand.old.parts.items hand.new.parts.items device.new.halted result) (V.story device.old.volume)
        (V.story device.new.volume) }
    ensures read { device.old.halted ≡ None → Tells (Finishes as_read device.old.log device.new.log
        hand.old.parts.items hand.new.parts.items device.new.halted result) (V.files device.old.volume)
        (V.files device.new.volume) }
    ensures clean { OnOk result ((others : Dirty) → AreWritten (dirty_with others hand.old.parts.items)
        → AreClean (dirty_with others hand.new.parts.items)) }
    ensures tended { AreTended hand.old.parts.items hand.new.parts.items }
    ensures halted { (at_fault : ℕ) → device.old.halted ≡ Some at_fault
        → (result ≡ Err (TendFault.Halted at_fault)) × (device.new ≡ device.old) × (hand.new ≡ hand.old) }
{
    if let Some(at_fault) = device.halted() {
        return Err(TendFault::Halted { at_fault });
    }
    let Ok(()) = settle(device, hand) else {
        return Err(TendFault::Fault);
    };
    match device.switch() {
        Ok(moment) => Ok(moment),
        Err(fault) => Err(refused(fault)),
    }
}

/// Makes a checkpoint, whose hand holds all partitions: writes each unwritten page home, makes the homes firm, leaves
/// no page dirty, and makes the other file the log, without records. It answers the moment at which that ended. Takes
/// no memory but what clean pages may use.
///
/// A crash at any moment leaves the pages as they are. `Halted` comes exactly where the device is halted, and nothing
/// has changed then. A home's write or sync that fails halts nothing: the pages that were written before it are marked,
/// and the log stands as it did. A failed switch halts the device, and no page is dirty then.
pub fn checkpoint<V: Volume>(device: &mut Device<V>, hand: &mut Hand) -> Result<u64, TendFault>
    requires open { IsSome device.old.log }
    requires all { HoldsAll hand.old.parts.items }
    requires own { AreOwn hand.old.parts.items }
    ensures answers { Tended V.moment V.faults V.log_faults device.old device.new result }
    ensures crash { device.old.halted ≡ None → Tells (Checkpoints on_disk device.old.log device.new.log
        hand.old.parts.items hand.new.parts.items device.new.halted result) (V.story device.old.volume)
        (V.story device.new.volume) }
    ensures read { device.old.halted ≡ None → Tells (Checkpoints as_read device.old.log device.new.log
        hand.old.parts.items hand.new.parts.items device.new.halted result) (V.files device.old.volume)
        (V.files device.new.volume) }
    ensures clean { OnOk result ((others : Dirty) → AreClean (dirty_with others hand.new.parts.items)) }
    ensures halted { (at_fault : ℕ) → device.old.halted ≡ Some at_fault
        → (result ≡ Err (TendFault.Halted at_fault)) × (device.new ≡ device.old) × (hand.new ≡ hand.old) }
    ensures tended { AreTended hand.old.parts.items hand.new.parts.items }
{
    if let Some(at_fault) = device.halted() {
        return Err(TendFault::Halted { at_fault });
    }
    let Ok(()) = send_home(device, hand) else {
        return Err(TendFault::Fault);
    };
    finish(device, hand)
}
