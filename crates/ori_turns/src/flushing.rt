// A page goes home.
ghost use Rattle.std.specs.Prelude.{◌≡◌, ◌%◌, ◌<◌, ◌≤◌, ℕ, List, None, Some, Ok, IfSome, IfNone, IfOk, OnOk, OnErr};
ghost use Rattle.std.specs.Prelude.{IsErrOf, is_some, true};
ghost use Rattle.ori_bytes.specs.declared.limits.TheConstants.{PARTITIONS, MAX_PAGES};
ghost use Rattle.ori_volume.specs.Causes.{Rose, HasCause};
ghost use Rattle.ori_volume.specs.Story.{Tells};
ghost use Rattle.ori_part.specs.Parts.{marked, unwritten_page};
ghost use Rattle.ori_cover.specs.Dirty.{unwritten};
ghost use Rattle.ori_cover.specs.Steps.{WritesHome};
ghost use Rattle.ori_pool.specs.declared.device.Device.{Device};
ghost use Rattle.ori_pool.specs.Held.{dirty_of};
ghost use Rattle.ori_turns.specs.Seats.{held_part, took_device, gave_device, last_of, told_at, IsTold, HoldsNothing};
ghost use Rattle.ori_turns.specs.Seats.{IsTended, NothingChanged, PartsStay, TurnHeld};
ghost use Rattle.ori_turns.specs.Caches.{Cache, AreOwn, IsPart, SamePages};
ghost use Rattle.ori_turns.specs.Flushes.{IfFlushed, MarksFirst};
ghost use Rattle.ori_pool.specs.declared.fault.TendFault.{TendFault};

use crate::Frames;
use ori_part::Part;
use ori_pool::{TendFault, flush};
use ori_volume::{Failed, Gate, GateStep, Volume};

// Takes the device, passes the gate, writes a dirty page of a held partition, which is unwritten, to its home, marks
// it, and gives the device back. Without a result another handle held the device.
fn flush_page<V: Volume, F: Frames<V>, G: Gate>(
    frames: &mut F,
    part: u8,
    held: &mut Part,
    page: u32,
    gate: &G,
) -> Option<Result<(), Failed>>
    requires taken { held_part (F.seat frames.old) part ≡ Some held.old }
    requires free { (F.seat frames.old).device ≡ None }
    requires rule { F.may_give frames.old part held.old }
    requires own { AreOwn part held.old }
    requires own_page { page % PARTITIONS ≡ part }
    requires below { page < MAX_PAGES }
    requires unwritten { (content : List ℕ) × (dirty_of held.old page ≡ Some (unwritten content)) }
    ensures shares { F.shares frames.old frames.new }
    ensures rule { F.may_give frames.new part held.new }
    ensures busy { IfNone result (Rose (F.waits frames.old) (F.waits frames.new)) }
    ensures own { AreOwn part held.new }
    ensures later { F.waits frames.old ≤ F.waits frames.new }
    ensures waits { IfSome result (λ done. F.waits frames.new ≡ F.waits frames.old) }
    ensures same { IfNone result ((held.new ≡ held.old) × (F.seat frames.new ≡ F.seat frames.old)) }
    ensures crash { IfSome result (λ done. (taken given : Device V)
        × IsTold (λ told. taken ≡ told.device) (F.seat frames.old)
        × (F.seat frames.new ≡ gave_device given (last_of V.faults V.log_faults given)
        (took_device taken (F.seat frames.old)))
        × ((F.seat frames.old).last.faults ≤ V.faults taken.volume)
        × ((F.seat frames.old).engine ≡ true → (taken.log ≡ (F.seat frames.old).last.log)
        × (taken.halted ≡ (F.seat frames.old).last.halted)
        × (V.log_faults taken.volume ≡ (F.seat frames.old).last.log_faults))
        × (given.log ≡ taken.log) × (given.halted ≡ taken.halted)
        × HasCause (V.faults taken.volume) (V.faults given.volume) done
        × (V.log_faults given.volume ≡ V.log_faults taken.volume)
        × ((content : List ℕ) → dirty_of held.old page ≡ Some (unwritten content)
        → Tells (WritesHome page content done) (V.story taken.volume) (V.story given.volume))) }
    ensures marked { IfSome result (λ done. OnOk done ((content : List ℕ)
        → dirty_of held.old page ≡ Some (unwritten content) → held.new ≡ marked held.old page content)) }
    ensures err { IfSome result (λ done. OnErr done (held.new ≡ held.old)) }
    ensures gives { (cache : Cache) → F.gives frames.old cache → IsPart cache part held.old
        → (now : Cache) × SamePages cache now × F.gives frames.new now × IsPart now part held.new }
{
    let mut device = frames.take_device()?;
    gate.pass(GateStep::Flush { part });
    let done = flush(&mut device, held, page);
    frames.give_device(device);
    Some(done)
}

/// Writes the first unwritten dirty page of a partition to its home, and marks it: the answer is false exactly where
/// there is none. Between the choice and the write the gate is passed, which no clause says, since a gate tells
/// nothing. It takes no memory.
///
/// `Busy` comes only where another handle held a turn, and nothing has changed then. After a fault the page is dirty
/// and unwritten as it was, and nothing is halted; `Halted` never comes.
pub fn flush_one<V: Volume, F: Frames<V>, G: Gate>(
    frames: &mut F,
    part: u8,
    gate: &G,
) -> Result<bool, TendFault>
    requires part { part < PARTITIONS }
    requires free { HoldsNothing (F.seat frames.old) }
    ensures shares { F.shares frames.old frames.new }
    ensures free { HoldsNothing (F.seat frames.new) }
    ensures none { IfOk result (λ wrote. IsTold
        (λ told. wrote ≡ is_some (unwritten_page (told_at told part).places)) (F.seat frames.old)) }
    ensures marked { result ≡ Ok true → IsTold (λ was. IsTold (λ now. MarksFirst (told_at was part)
        (told_at now part)) (F.seat frames.new)) (F.seat frames.old) }
    ensures kept { IsTended (F.seat frames.old) (F.seat frames.new) }
    ensures waits { F.waits frames.old ≤ F.waits frames.new }
    ensures busy { (turn : ℕ) → IsErrOf result (TendFault.Busy turn)
        → TurnHeld turn (F.waits frames.old) (F.waits frames.new) }
    ensures same { (turn : ℕ) → IsErrOf result (TendFault.Busy turn)
        → NothingChanged (F.seat frames.old) (F.seat frames.new) }
    ensures halted { (at_fault : ℕ) → IsErrOf result (TendFault.Halted at_fault) → ⊥ }
    ensures fault { IsErrOf result TendFault.Fault
        → Rose (F.seat frames.old).last.faults (F.seat frames.new).last.faults }
    ensures unmarked { IsErrOf result TendFault.Fault
        → Tells PartsStay (F.seat frames.old).told (F.seat frames.new).told }
    ensures crash { IfFlushed result (λ done. (taken given : Device V) × (page : ℕ) × (content : List ℕ)
        × IsTold (λ told. (taken ≡ told.device) × (unwritten_page (told_at told part).places ≡ Some page)
        × (dirty_of (told_at told part) page ≡ Some (unwritten content))) (F.seat frames.old)
        × IsTold (λ told. given ≡ told.device) (F.seat frames.new)
        × Tells (WritesHome page content done) (V.story taken.volume) (V.story given.volume)) }
    ensures gives { (cache : Cache) → F.gives frames.old cache
        → (now : Cache) × SamePages cache now × F.gives frames.new now }
{
    let Some(mut held) = frames.take_part(part) else {
        return Err(TendFault::Busy { turn: part });
    };
    let Some(page) = held.next_unwritten() else {
        frames.give_part(part, held);
        return Ok(false);
    };
    let done = flush_page(frames, part, &mut held, page, gate);
    frames.give_part(part, held);
    let Some(wrote) = done else {
        return Err(TendFault::Busy { turn: 8 });
    };
    match wrote {
        Ok(()) => Ok(true),
        Err(Failed) => Err(TendFault::Fault),
    }
}
