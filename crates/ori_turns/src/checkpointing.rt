// A checkpoint.
ghost use Rattle.std.specs.Prelude.{◌≡◌, ◌≤◌, ◌<◌, ℕ, [], true, None, Some, IsSome, IfSome, IfNone, IfOk, OnOk, OnErr};
ghost use Rattle.std.specs.Prelude.{Err, IsErrOf};
ghost use Rattle.ori_bytes.specs.declared.limits.TheConstants.{PARTITIONS};
ghost use Rattle.ori_volume.specs.Causes.{Rose};
ghost use Rattle.ori_volume.specs.Story.{Tells};
ghost use Rattle.ori_cover.specs.Dirty.{Dirty, AreClean};
ghost use Rattle.ori_cover.specs.Views.{on_disk};
ghost use Rattle.ori_pool.specs.declared.device.Device.{Device};
ghost use Rattle.ori_pool.specs.declared.fault.TendFault.{TendFault};
ghost use Rattle.ori_pool.specs.Devices.{HaltsTend};
ghost use Rattle.ori_pool.specs.Held.{dirty_of, dirty_with, HoldsAll};
ghost use Rattle.ori_turns.specs.Knowing.{Knows};
ghost use Rattle.ori_turns.specs.Seats.{HoldsNothing, IsTold, told_at, took_device, gave_device, last_of};
ghost use Rattle.ori_turns.specs.Seats.{NothingChanged, TurnHeld};
ghost use Rattle.ori_turns.specs.Caches.{Cache, AreOwn, SamePages};
ghost use Rattle.ori_turns.specs.Hands.{empty_hand, EachHeld, AreTaken, HandIs, IsHandOf};
ghost use Rattle.ori_turns.specs.Checkpointed.{Checkpointed, WasCheckpointed, IfMade};

use crate::taking::{give_parts, take_parts};
use crate::{Frames, Known};
use ori_pool::{Hand, TendFault, checkpoint as checkpoint_hand};
use ori_volume::Volume;

// Takes the device, makes a checkpoint with all partitions, and gives the device back. Without a result another handle
// held the device.
fn checkpoint_taken<V: Volume, F: Frames<V>>(
    frames: &mut F,
    hand: &mut Hand,
    known: &mut Known,
) -> Option<Result<u64, TendFault>>
    requires engine { (F.seat frames.old).engine ≡ true }
    requires open { IsSome (F.seat frames.old).last.log }
    requires free { (F.seat frames.old).device ≡ None }
    requires taken { AreTaken (F.seat frames.old) (F.may_give frames.old) hand.old.parts.items }
    requires all { HoldsAll hand.old.parts.items }
    requires knows { Knows (F.seat frames.old).last known.old }
    ensures shares { F.shares frames.old frames.new }
    ensures held { IsHandOf (F.seat frames.new) hand.new.parts.items }
    ensures range { EachHeld AreOwn hand.new.parts.items }
    ensures rule { EachHeld (F.may_give frames.new) hand.new.parts.items }
    ensures knows { Knows (F.seat frames.new).last known.new }
    ensures same { IfNone result ((hand.new ≡ hand.old) × (F.seat frames.new ≡ F.seat frames.old)) }
    ensures crash { IfSome result (λ done. (taken given : Device V)
        × IsTold (λ told. taken ≡ told.device) (F.seat frames.old)
        × (F.seat frames.new ≡ gave_device given (last_of V.faults V.log_faults given)
        (took_device taken (F.seat frames.old)))
        × Checkpointed done (F.seat frames.old).last (last_of V.faults V.log_faults given)
        × IfOk done (λ at. at ≡ V.moment given.volume)
        × ((at_fault : ℕ) → IsErrOf done (TendFault.Halted at_fault) → (given ≡ taken) × (hand.new ≡ hand.old))
        × ((turn : ℕ) → IsErrOf done (TendFault.Busy turn) → ⊥)
        × ((cache : Cache) → F.gives frames.old cache → HandIs cache hand.old.parts.items
        → Tells (on_disk.holds cache.pages) (V.story taken.volume) (V.story given.volume))) }
    ensures clean { IfSome result (λ done. OnOk done ((others : Dirty)
        → AreClean (dirty_with others hand.new.parts.items))) }
    ensures gives { (cache : Cache) → F.gives frames.old cache → HandIs cache hand.old.parts.items
        → (now : Cache) × (now.pages ≡ cache.pages) × F.gives frames.new now × HandIs now hand.new.parts.items
        × IfSome result (λ done. OnOk done (WasCheckpointed now) × OnErr done (SamePages cache now))
        × IfNone result (SamePages cache now) }
    ensures later { F.waits frames.old ≤ F.waits frames.new }
    ensures busy { IfNone result (Rose (F.waits frames.old) (F.waits frames.new)) }
{
    let mut device = frames.take_device()?;
    let done = checkpoint_hand(&mut device, hand);
    *known = Known::of(&device);
    frames.give_device(device);
    Some(done)
}

// Takes all partitions, and makes a checkpoint. They are then the hand's, whatever the answer.
fn try_checkpoint<V: Volume, F: Frames<V>>(
    frames: &mut F,
    hand: &mut Hand,
    known: &mut Known,
) -> Result<u64, TendFault>
    requires engine { (F.seat frames.old).engine ≡ true }
    requires open { IsSome (F.seat frames.old).last.log }
    requires free { HoldsNothing (F.seat frames.old) }
    requires empty { hand.old.parts.items ≡ empty_hand }
    requires knows { Knows (F.seat frames.old).last known.old }
    ensures shares { F.shares frames.old frames.new }
    ensures held { IsHandOf (F.seat frames.new) hand.new.parts.items }
    ensures range { EachHeld AreOwn hand.new.parts.items }
    ensures rule { EachHeld (F.may_give frames.new) hand.new.parts.items }
    ensures engine { (F.seat frames.new).engine ≡ true }
    ensures free { (F.seat frames.new).device ≡ None }
    ensures later { F.waits frames.old ≤ F.waits frames.new }
    ensures knows { Knows (F.seat frames.new).last known.new }
    ensures busy { (turn : ℕ) → IsErrOf result (TendFault.Busy turn)
        → TurnHeld turn (F.waits frames.old) (F.waits frames.new) }
    ensures same { (turn : ℕ) → IsErrOf result (TendFault.Busy turn)
        → NothingChanged (F.seat frames.old) (F.seat frames.new) }
    ensures halted { (at_fault : ℕ) → IsErrOf result (TendFault.Halted at_fault)
        → (F.seat frames.new).told ≡ (F.seat frames.old).told }
    ensures untouched { (why : TendFault) → result ≡ Err why → (why ≡ TendFault.Fault → ⊥) → IsTold (λ told. EachHeld
        (λ k part. part ≡ told_at told k) hand.new.parts.items) (F.seat frames.new) }
    ensures ended { IfOk result (λ at. IsTold (λ told. at ≡ V.moment told.device.volume) (F.seat frames.new)) }
    ensures crash { IfMade result (λ done. (taken given : Device V)
        × IsTold (λ told. taken ≡ told.device) (F.seat frames.old)
        × IsTold (λ told. given ≡ told.device) (F.seat frames.new)
        × ((F.seat frames.new).last ≡ last_of V.faults V.log_faults given)
        × Checkpointed done (F.seat frames.old).last (F.seat frames.new).last
        × ((cache : Cache) → F.gives frames.old cache
        → Tells (on_disk.holds cache.pages) (V.story taken.volume) (V.story given.volume))) }
    ensures all { OnOk result (HoldsAll hand.new.parts.items) }
    ensures clean { OnOk result ((others : Dirty) → AreClean (dirty_with others hand.new.parts.items)) }
    ensures gives { (cache : Cache) → F.gives frames.old cache
        → (now : Cache) × (now.pages ≡ cache.pages) × F.gives frames.new now × HandIs now hand.new.parts.items
        × OnOk result (WasCheckpointed now) × OnErr result (SamePages cache now) }
{
    if let Some(turn) = take_parts(frames, hand) {
        return Err(TendFault::Busy { turn });
    }
    let Some(done) = checkpoint_taken(frames, hand, known) else {
        return Err(TendFault::Busy { turn: 8 });
    };
    done
}

/// Makes a checkpoint: takes all partitions and then the device, writes each unwritten page home, makes the homes firm,
/// leaves no page dirty, empties the log, and gives all back. It is the engine's alone. The hand is empty, before and
/// after: by it no memory is taken but what clean pages may use.
///
/// A crash at any moment leaves the pages as they are. It answers the volume's moment at its end. `Busy` comes only
/// where another handle held a turn, and `Halted` exactly where the device is halted: nothing has changed then. A fault
/// halts the device where log work failed, and not where a home's write or sync did.
pub fn checkpoint<V: Volume, F: Frames<V>>(
    frames: &mut F,
    hand: &mut Hand,
    known: &mut Known,
) -> Result<u64, TendFault>
    requires engine { (F.seat frames.old).engine ≡ true }
    requires open { IsSome (F.seat frames.old).last.log }
    requires free { HoldsNothing (F.seat frames.old) }
    requires empty { hand.old.parts.items ≡ empty_hand }
    requires knows { Knows (F.seat frames.old).last known.old }
    ensures shares { F.shares frames.old frames.new }
    ensures engine { (F.seat frames.new).engine ≡ true }
    ensures free { HoldsNothing (F.seat frames.new) }
    ensures empty { hand.new.parts.items ≡ empty_hand }
    ensures waits { F.waits frames.old ≤ F.waits frames.new }
    ensures knows { Knows (F.seat frames.new).last known.new }
    ensures busy { (turn : ℕ) → IsErrOf result (TendFault.Busy turn)
        → TurnHeld turn (F.waits frames.old) (F.waits frames.new) }
    ensures same { (turn : ℕ) → IsErrOf result (TendFault.Busy turn)
        → NothingChanged (F.seat frames.old) (F.seat frames.new) }
    ensures halted { (at_fault : ℕ) → IsErrOf result (TendFault.Halted at_fault)
        → (F.seat frames.new).told ≡ (F.seat frames.old).told }
    ensures ended { IfOk result (λ at. IsTold (λ told. at ≡ V.moment told.device.volume) (F.seat frames.new)) }
    ensures crash { IfMade result (λ done. (taken given : Device V)
        × IsTold (λ told. taken ≡ told.device) (F.seat frames.old)
        × IsTold (λ told. given ≡ told.device) (F.seat frames.new)
        × ((F.seat frames.new).last ≡ last_of V.faults V.log_faults given)
        × Checkpointed done (F.seat frames.old).last (F.seat frames.new).last
        × ((cache : Cache) → F.gives frames.old cache
        → Tells (on_disk.holds cache.pages) (V.story taken.volume) (V.story given.volume))) }
    ensures clean { OnOk result (IsTold (λ told. (k : ℕ) → k < PARTITIONS
        → AreClean (dirty_of (told_at told k))) (F.seat frames.new)) }
    ensures gives { (cache : Cache) → F.gives frames.old cache
        → (now : Cache) × (now.pages ≡ cache.pages) × F.gives frames.new now
        × OnOk result (WasCheckpointed now) × OnErr result (SamePages cache now) }
{
    let done = try_checkpoint(frames, hand, known);
    give_parts(frames, hand);
    done
}
