// The turns of a volume that is opened.
ghost use Rattle.std.specs.Prelude.{◌≡◌, ◌≤◌, ℕ, true, None, IfSome, IfNone, IfOk, OnOk, IsErrOf};
ghost use Rattle.ori_bytes.specs.declared.limits.TheConstants.{MAX_PAGES};
ghost use Rattle.ori_volume.specs.Causes.{Rose};
ghost use Rattle.ori_pool.specs.declared.device.Device.{Device};
ghost use Rattle.ori_pool.specs.Held.{HoldsAll};
ghost use Rattle.ori_turns.specs.declared.opening.StartFault.{StartFault};
ghost use Rattle.ori_turns.specs.Knowing.{Knows};
ghost use Rattle.ori_turns.specs.Seats.{HoldsNothing, IsTold, told_at, took_device, gave_device, last_of};
ghost use Rattle.ori_turns.specs.Seats.{NothingChanged, TurnHeld};
ghost use Rattle.ori_turns.specs.Caches.{Cache, AreOwn, SamePages};
ghost use Rattle.ori_turns.specs.Hands.{empty_hand, EachHeld, AreTaken, HandIs, IsHandOf};
ghost use Rattle.ori_turns.specs.Openings.{WasOpened, AreOpened, AreRead, IsAsEnded, IfTried, WasStarted};

use crate::opening::open_device;
use crate::taking::{give_parts, take_parts};
use crate::{Frames, Opening, StartFault};
use ori_pool::Hand;
use ori_volume::Volume;
use std::alloc::Global;

// Takes the device, opens it with all partitions, and gives it back. Without a result another handle held it.
fn open_taken<V: Volume, F: Frames<V>>(
    alloc: Global,
    frames: &mut F,
    hand: &mut Hand,
) -> Option<Result<Opening, StartFault>>
    requires engine { (F.seat frames.old).engine ≡ true }
    requires closed { (F.seat frames.old).last.log ≡ None }
    requires free { (F.seat frames.old).device ≡ None }
    requires taken { AreTaken (F.seat frames.old) (F.may_give frames.old) hand.old.parts.items }
    requires all { HoldsAll hand.old.parts.items }
    ensures shares { F.shares frames.old frames.new }
    ensures held { IsHandOf (F.seat frames.new) hand.new.parts.items }
    ensures range { EachHeld AreOwn hand.new.parts.items }
    ensures rule { EachHeld (F.may_give frames.new) hand.new.parts.items }
    ensures same { IfNone result ((hand.new ≡ hand.old) × (F.seat frames.new ≡ F.seat frames.old)) }
    ensures few { IfSome result (λ done. IfOk done (λ opening. opening.count ≤ MAX_PAGES)) }
    ensures crash { IfSome result (λ done. (taken given : Device V)
        × IsTold (λ told. taken ≡ told.device) (F.seat frames.old)
        × (F.seat frames.new ≡ gave_device given (last_of V.faults V.log_faults given)
        (took_device taken (F.seat frames.old)))
        × WasOpened done (F.seat frames.old).last (last_of V.faults V.log_faults given)
        × AreRead done (V.files taken.volume) (V.files given.volume)
        × AreOpened done given.log (V.story taken.volume) (V.story given.volume)
        × IfOk done (λ opening. IsAsEnded V.moment V.faults V.log_faults opening given)
        × ((turn : ℕ) → IsErrOf done (StartFault.Busy turn) → ⊥)) }
    ensures gives { IfSome result (λ done. IfOk done (λ opening. (cache : Cache) → F.gives frames.old cache
        → HandIs cache hand.old.parts.items → (now : Cache) × WasStarted opening cache now
        × F.gives frames.new now × HandIs now hand.new.parts.items)) }
    ensures goes_on { IfNone result ((cache : Cache) → F.gives frames.old cache → F.gives frames.new cache) }
    ensures later { F.waits frames.old ≤ F.waits frames.new }
    ensures busy { IfNone result (Rose (F.waits frames.old) (F.waits frames.new)) }
{
    let device = frames.take_device()?;
    let (now, done) = open_device(alloc, device, hand);
    frames.give_device(now);
    Some(done)
}

// Takes all partitions, and opens the volume. They are then the hand's, whatever the answer.
fn try_open<V: Volume, F: Frames<V>>(
    alloc: Global,
    frames: &mut F,
    hand: &mut Hand,
) -> Result<Opening, StartFault>
    requires engine { (F.seat frames.old).engine ≡ true }
    requires closed { (F.seat frames.old).last.log ≡ None }
    requires free { HoldsNothing (F.seat frames.old) }
    requires empty { hand.old.parts.items ≡ empty_hand }
    ensures shares { F.shares frames.old frames.new }
    ensures held { IsHandOf (F.seat frames.new) hand.new.parts.items }
    ensures range { EachHeld AreOwn hand.new.parts.items }
    ensures rule { EachHeld (F.may_give frames.new) hand.new.parts.items }
    ensures engine { (F.seat frames.new).engine ≡ true }
    ensures free { (F.seat frames.new).device ≡ None }
    ensures later { F.waits frames.old ≤ F.waits frames.new }
    ensures busy { (turn : ℕ) → IsErrOf result (StartFault.Busy turn)
        → TurnHeld turn (F.waits frames.old) (F.waits frames.new) }
    ensures same { (turn : ℕ) → IsErrOf result (StartFault.Busy turn)
        → NothingChanged (F.seat frames.old) (F.seat frames.new) }
    ensures untouched { (turn : ℕ) → IsErrOf result (StartFault.Busy turn) → IsTold (λ told. EachHeld
        (λ k part. part ≡ told_at told k) hand.new.parts.items) (F.seat frames.new) }
    ensures few { IfOk result (λ opening. opening.count ≤ MAX_PAGES) }
    ensures crash { IfTried result (λ done. (taken given : Device V)
        × IsTold (λ told. taken ≡ told.device) (F.seat frames.old)
        × IsTold (λ told. given ≡ told.device) (F.seat frames.new)
        × ((F.seat frames.new).last ≡ last_of V.faults V.log_faults given)
        × WasOpened done (F.seat frames.old).last (F.seat frames.new).last
        × AreRead done (V.files taken.volume) (V.files given.volume)
        × AreOpened done given.log (V.story taken.volume) (V.story given.volume)
        × IfOk done (λ opening. IsAsEnded V.moment V.faults V.log_faults opening given)) }
    ensures gives { IfOk result (λ opening. (cache : Cache) → F.gives frames.old cache → (now : Cache)
        × WasStarted opening cache now × F.gives frames.new now × HandIs now hand.new.parts.items) }
    ensures still { (turn : ℕ) → IsErrOf result (StartFault.Busy turn) → (cache : Cache) → F.gives frames.old cache
        → (now : Cache) × SamePages cache now × F.gives frames.new now × HandIs now hand.new.parts.items }
{
    if let Some(turn) = take_parts(frames, hand) {
        return Err(StartFault::Busy { turn });
    }
    let Some(done) = open_taken(alloc, frames, hand) else {
        return Err(StartFault::Busy { turn: 8 });
    };
    done
}

/// Opens a volume: takes all partitions and then the device, attaches the log, makes the last images of its tail dirty
/// pages, and gives all back. The files of an empty volume are made. It is the engine's alone, whose device has no log
/// yet; after a refusal it has none. The hand is empty, before and after. It answers how many pages there are, and what
/// is known of the log from then on.
///
/// `Busy` comes only where another handle held a turn, and nothing has changed then. `NotADatabase` names the first
/// file that breaks the form, and no file has changed then; after Ok none breaks it. After any refusal each image that
/// a crash may leave holds the pages, where each did before.
pub fn open<V: Volume, F: Frames<V>>(
    alloc: Global,
    frames: &mut F,
    hand: &mut Hand,
) -> Result<Opening, StartFault>
    requires engine { (F.seat frames.old).engine ≡ true }
    requires closed { (F.seat frames.old).last.log ≡ None }
    requires free { HoldsNothing (F.seat frames.old) }
    requires empty { hand.old.parts.items ≡ empty_hand }
    ensures shares { F.shares frames.old frames.new }
    ensures engine { (F.seat frames.new).engine ≡ true }
    ensures free { HoldsNothing (F.seat frames.new) }
    ensures empty { hand.new.parts.items ≡ empty_hand }
    ensures knows { IfOk result (λ opening. Knows (F.seat frames.new).last opening.known) }
    ensures waits { F.waits frames.old ≤ F.waits frames.new }
    ensures busy { (turn : ℕ) → IsErrOf result (StartFault.Busy turn)
        → TurnHeld turn (F.waits frames.old) (F.waits frames.new) }
    ensures same { (turn : ℕ) → IsErrOf result (StartFault.Busy turn)
        → NothingChanged (F.seat frames.old) (F.seat frames.new) }
    ensures few { IfOk result (λ opening. opening.count ≤ MAX_PAGES) }
    ensures counts { IfOk result (λ opening. (opening.faults ≡ (F.seat frames.new).last.faults)
        × (opening.log_faults ≡ (F.seat frames.new).last.log_faults)) }
    ensures ended { IfOk result (λ opening. IsTold (λ told. opening.moment ≡ V.moment told.device.volume)
        (F.seat frames.new)) }
    ensures crash { IfTried result (λ done. (taken given : Device V)
        × IsTold (λ told. taken ≡ told.device) (F.seat frames.old)
        × IsTold (λ told. given ≡ told.device) (F.seat frames.new)
        × ((F.seat frames.new).last ≡ last_of V.faults V.log_faults given)
        × WasOpened done (F.seat frames.old).last (F.seat frames.new).last
        × AreRead done (V.files taken.volume) (V.files given.volume)
        × AreOpened done given.log (V.story taken.volume) (V.story given.volume)) }
    ensures gives { IfOk result (λ opening. (cache : Cache) → F.gives frames.old cache
        → (now : Cache) × WasStarted opening cache now × F.gives frames.new now) }
    ensures still { (turn : ℕ) → IsErrOf result (StartFault.Busy turn) → (cache : Cache) → F.gives frames.old cache
        → (now : Cache) × SamePages cache now × F.gives frames.new now }
{
    let done = try_open(alloc, frames, hand);
    give_parts(frames, hand);
    done
}
