// Written pages become clean.
ghost use Rattle.std.specs.Prelude.{◌≡◌, ◌≤◌, ◌<◌, ℕ, true, None, Some, IfSome, IfNone, OnOk, OnErr, IsErrOf};
ghost use Rattle.ori_bytes.specs.declared.limits.TheConstants.{PARTITIONS};
ghost use Rattle.ori_volume.specs.Causes.{Rose, HasCause};
ghost use Rattle.ori_volume.specs.Story.{Tells};
ghost use Rattle.ori_cover.specs.Dirty.{Dirty, AreSettled};
ghost use Rattle.ori_cover.specs.Steps.{SyncsHomes};
ghost use Rattle.ori_pool.specs.declared.device.Device.{Device};
ghost use Rattle.ori_pool.specs.declared.fault.TendFault.{TendFault};
ghost use Rattle.ori_pool.specs.Held.{dirty_of, dirty_with, HoldsAll};
ghost use Rattle.ori_turns.specs.Seats.{HoldsNothing, IsTended, IsTold, told_at, took_device, gave_device, last_of};
ghost use Rattle.ori_turns.specs.Seats.{NothingChanged, PartsStay, TurnHeld};
ghost use Rattle.ori_turns.specs.Caches.{Cache, AreOwn, SamePages};
ghost use Rattle.ori_turns.specs.Hands.{empty_hand, EachHeld, AreTaken, HandIs, IsHandOf, NoneWritten, PartsSettle};
ghost use Rattle.ori_turns.specs.Flushes.{IfSynced};

use crate::Frames;
use crate::taking::{give_parts, take_parts};
use ori_pool::{Hand, TendFault, settle as settle_hand};
use ori_volume::{Failed, Volume};

// Takes the device, makes the homes firm and the written pages of all partitions clean, and gives the device back.
// Without a result another handle held the device.
fn settle_taken<V: Volume, F: Frames<V>>(
    frames: &mut F,
    hand: &mut Hand,
) -> Option<Result<(), Failed>>
    requires free { (F.seat frames.old).device ≡ None }
    requires taken { AreTaken (F.seat frames.old) (F.may_give frames.old) hand.old.parts.items }
    requires all { HoldsAll hand.old.parts.items }
    ensures shares { F.shares frames.old frames.new }
    ensures held { IsHandOf (F.seat frames.new) hand.new.parts.items }
    ensures range { EachHeld AreOwn hand.new.parts.items }
    ensures rule { EachHeld (F.may_give frames.new) hand.new.parts.items }
    ensures same { IfNone result ((hand.new ≡ hand.old) × (F.seat frames.new ≡ F.seat frames.old)) }
    ensures crash { IfSome result (λ done. (taken given : Device V)
        × IsTold (λ told. taken ≡ told.device) (F.seat frames.old)
        × (F.seat frames.new ≡ gave_device given (last_of V.faults V.log_faults given)
        (took_device taken (F.seat frames.old)))
        × ((F.seat frames.old).last.faults ≤ V.faults taken.volume)
        × ((F.seat frames.old).engine ≡ true → (taken.log ≡ (F.seat frames.old).last.log)
        × (taken.halted ≡ (F.seat frames.old).last.halted)
        × (V.log_faults taken.volume ≡ (F.seat frames.old).last.log_faults))
        × (given.log ≡ taken.log) × (given.halted ≡ taken.halted)
        × HasCause (V.faults taken.volume) (V.faults given.volume) done
        × (V.log_faults given.volume ≡ V.log_faults taken.volume)
        × Tells (SyncsHomes done) (V.story taken.volume) (V.story given.volume)) }
    ensures settled { IfSome result (λ done. OnOk done ((others : Dirty)
        → AreSettled (dirty_with others hand.old.parts.items) (dirty_with others hand.new.parts.items))) }
    ensures err { IfSome result (λ done. OnErr done (hand.new ≡ hand.old)) }
    ensures gives { (cache : Cache) → F.gives frames.old cache → HandIs cache hand.old.parts.items
        → (now : Cache) × SamePages cache now × F.gives frames.new now × HandIs now hand.new.parts.items
        × IfSome result (λ done. OnOk done (NoneWritten now.dirty)) }
    ensures later { F.waits frames.old ≤ F.waits frames.new }
    ensures busy { IfNone result (Rose (F.waits frames.old) (F.waits frames.new)) }
{
    let mut device = frames.take_device()?;
    let done = settle_hand(&mut device, hand);
    frames.give_device(device);
    Some(done)
}

// Takes all partitions, and settles them. They are then the hand's, whatever the answer.
fn try_settle<V: Volume, F: Frames<V>>(frames: &mut F, hand: &mut Hand) -> Result<(), TendFault>
    requires free { HoldsNothing (F.seat frames.old) }
    requires empty { hand.old.parts.items ≡ empty_hand }
    ensures shares { F.shares frames.old frames.new }
    ensures held { IsHandOf (F.seat frames.new) hand.new.parts.items }
    ensures range { EachHeld AreOwn hand.new.parts.items }
    ensures rule { EachHeld (F.may_give frames.new) hand.new.parts.items }
    ensures kept { IsTended (F.seat frames.old) (F.seat frames.new) }
    ensures later { F.waits frames.old ≤ F.waits frames.new }
    ensures busy { (turn : ℕ) → IsErrOf result (TendFault.Busy turn)
        → TurnHeld turn (F.waits frames.old) (F.waits frames.new) }
    ensures same { (turn : ℕ) → IsErrOf result (TendFault.Busy turn)
        → NothingChanged (F.seat frames.old) (F.seat frames.new) }
    ensures parts { Tells PartsStay (F.seat frames.old).told (F.seat frames.new).told }
    ensures untouched { OnErr result (IsTold (λ told. EachHeld (λ k part. part ≡ told_at told k) hand.new.parts.items)
        (F.seat frames.new)) }
    ensures halted { (at_fault : ℕ) → IsErrOf result (TendFault.Halted at_fault) → ⊥ }
    ensures fault { IsErrOf result TendFault.Fault
        → Rose (F.seat frames.old).last.faults (F.seat frames.new).last.faults }
    ensures crash { IfSynced result (λ done. (taken given : Device V)
        × IsTold (λ told. taken ≡ told.device) (F.seat frames.old)
        × IsTold (λ told. given ≡ told.device) (F.seat frames.new)
        × Tells (SyncsHomes done) (V.story taken.volume) (V.story given.volume)) }
    ensures all { OnOk result (HoldsAll hand.new.parts.items) }
    ensures settled { OnOk result ((others : Dirty) → NoneWritten (dirty_with others hand.new.parts.items)) }
    ensures unwritten { OnOk result (IsTold (λ told. EachHeld (λ k part. AreSettled (dirty_of (told_at told k))
        (dirty_of part)) hand.new.parts.items) (F.seat frames.old)) }
    ensures gives { (cache : Cache) → F.gives frames.old cache
        → (now : Cache) × SamePages cache now × F.gives frames.new now × HandIs now hand.new.parts.items
        × OnOk result (NoneWritten now.dirty) }
{
    if let Some(turn) = take_parts(frames, hand) {
        return Err(TendFault::Busy { turn });
    }
    let Some(done) = settle_taken(frames, hand) else {
        return Err(TendFault::Busy { turn: 8 });
    };
    match done {
        Ok(()) => Ok(()),
        Err(Failed) => Err(TendFault::Fault),
    }
}

/// Makes the homes firm, after which no page that was written is dirty: takes all partitions and then the device, and
/// gives them back. The hand is empty, before and after: by it no memory is taken but what clean pages may use.
///
/// Each written page becomes clean, and each other is as it was. `Busy` comes only where another handle held a turn,
/// and nothing has changed then. After a fault each page is as it was, and nothing is halted; `Halted` never comes.
pub fn settle<V: Volume, F: Frames<V>>(frames: &mut F, hand: &mut Hand) -> Result<(), TendFault>
    requires free { HoldsNothing (F.seat frames.old) }
    requires empty { hand.old.parts.items ≡ empty_hand }
    ensures shares { F.shares frames.old frames.new }
    ensures free { HoldsNothing (F.seat frames.new) }
    ensures empty { hand.new.parts.items ≡ empty_hand }
    ensures kept { IsTended (F.seat frames.old) (F.seat frames.new) }
    ensures waits { F.waits frames.old ≤ F.waits frames.new }
    ensures busy { (turn : ℕ) → IsErrOf result (TendFault.Busy turn)
        → TurnHeld turn (F.waits frames.old) (F.waits frames.new) }
    ensures same { (turn : ℕ) → IsErrOf result (TendFault.Busy turn)
        → NothingChanged (F.seat frames.old) (F.seat frames.new) }
    ensures halted { (at_fault : ℕ) → IsErrOf result (TendFault.Halted at_fault) → ⊥ }
    ensures fault { IsErrOf result TendFault.Fault
        → Rose (F.seat frames.old).last.faults (F.seat frames.new).last.faults }
    ensures unsettled { IsErrOf result TendFault.Fault
        → Tells PartsStay (F.seat frames.old).told (F.seat frames.new).told }
    ensures crash { IfSynced result (λ done. (taken given : Device V)
        × IsTold (λ told. taken ≡ told.device) (F.seat frames.old)
        × IsTold (λ told. given ≡ told.device) (F.seat frames.new)
        × Tells (SyncsHomes done) (V.story taken.volume) (V.story given.volume)) }
    ensures settled { OnOk result (IsTold (λ told. (k : ℕ) → k < PARTITIONS
        → NoneWritten (dirty_of (told_at told k))) (F.seat frames.new)) }
    ensures unwritten { OnOk result (Tells PartsSettle (F.seat frames.old).told (F.seat frames.new).told) }
    ensures gives { (cache : Cache) → F.gives frames.old cache
        → (now : Cache) × SamePages cache now × F.gives frames.new now × OnOk result (NoneWritten now.dirty) }
{
    let done = try_settle(frames, hand);
    give_parts(frames, hand);
    done
}
