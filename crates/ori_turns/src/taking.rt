// All partitions at once.
ghost use Rattle.std.specs.Prelude.{◌≡◌, ◌≢◌, ◌≤◌, ◌<◌, ◌+◌, ℕ, List, true, false, None, Some, Option, IfSome};
ghost use Rattle.std.specs.Prelude.{IfNone, IsSome, is_some, slice_index_or, slice_set};
ghost use Rattle.ori_bytes.specs.declared.limits.TheConstants.{PARTITIONS};
ghost use Rattle.ori_volume.specs.Causes.{Rose};
ghost use Rattle.ori_volume.specs.Story.{Tells};
ghost use Rattle.ori_turns.specs.Seats.{HoldsNothing, TurnHeld, with_parts, held_part};
ghost use Rattle.ori_turns.specs.Caches.{Cache, AreOwn, SamePages};
ghost use Rattle.ori_turns.specs.Hands.{empty_hand, EachHeld, AreTaken, HandIs, IsHandOf, IsFullTo, GaveParts};

use crate::Frames;
use ori_bytes::limits::PARTITIONS;
use ori_pool::Hand;
use ori_volume::Volume;

// Takes one partition more into a hand, which has those whose turns are held.
pub(crate) fn take_one<V: Volume, F: Frames<V>>(
    frames: &mut F,
    hand: &mut Hand,
    part: u8,
) -> Option<()>
    requires part { part < PARTITIONS }
    requires free { slice_index_or hand.old.parts.items part None ≡ None }
    requires taken { AreTaken (F.seat frames.old) (F.may_give frames.old) hand.old.parts.items }
    ensures shares { F.shares frames.old frames.new }
    ensures taken { AreTaken (F.seat frames.new) (F.may_give frames.new) hand.new.parts.items }
    ensures seat { F.seat frames.new ≡ with_parts hand.new.parts.items (F.seat frames.old) }
    ensures here { IfSome result (λ done. IsSome (slice_index_or hand.new.parts.items part None)) }
    ensures others { (k : ℕ) → k ≢ part
        → slice_index_or hand.new.parts.items k None ≡ slice_index_or hand.old.parts.items k None }
    ensures none { IfNone result (slice_index_or hand.new.parts.items part None ≡ None) }
    ensures gives { (cache : Cache) → F.gives frames.old cache → HandIs cache hand.old.parts.items
        → (now : Cache) × SamePages cache now × F.gives frames.new now × HandIs now hand.new.parts.items }
    ensures later { F.waits frames.old ≤ F.waits frames.new }
    ensures busy { IfNone result (Rose (F.waits frames.old) (F.waits frames.new)) }
{
    let held = frames.take_part(part)?;
    hand.parts[part as usize] = Some(held);
    Some(())
}

// Takes all partitions. It answers the number of one that another handle holds; the hand then has those below it.
pub(crate) fn take_parts<V: Volume, F: Frames<V>>(frames: &mut F, hand: &mut Hand) -> Option<u8>
    requires free { (F.seat frames.old).parts ≡ empty_hand }
    requires empty { hand.old.parts.items ≡ empty_hand }
    ensures shares { F.shares frames.old frames.new }
    ensures taken { AreTaken (F.seat frames.new) (F.may_give frames.new) hand.new.parts.items }
    ensures seat { F.seat frames.new ≡ with_parts hand.new.parts.items (F.seat frames.old) }
    ensures all { IfNone result (IsFullTo PARTITIONS hand.new.parts.items) }
    ensures gives { (cache : Cache) → F.gives frames.old cache
        → (now : Cache) × SamePages cache now × F.gives frames.new now × HandIs now hand.new.parts.items }
    ensures later { F.waits frames.old ≤ F.waits frames.new }
    ensures busy { IfSome result (λ part. TurnHeld part (F.waits frames.old) (F.waits frames.new)) }
{
    for part in 0..PARTITIONS as u8 {
        if take_one(frames, hand, part).is_none() {
            return Some(part);
        }
    }
    None
}

// Gives back a partition of a hand, where it has that one.
fn give_one<V: Volume, F: Frames<V>>(frames: &mut F, hand: &mut Hand, part: u8)
    requires part { part < PARTITIONS }
    requires held { IsHandOf (F.seat frames.old) hand.old.parts.items }
    requires range { EachHeld AreOwn hand.old.parts.items }
    requires rule { EachHeld (F.may_give frames.old) hand.old.parts.items }
    ensures shares { F.shares frames.old frames.new }
    ensures held { IsHandOf (F.seat frames.new) hand.new.parts.items }
    ensures range { EachHeld AreOwn hand.new.parts.items }
    ensures rule { EachHeld (F.may_give frames.new) hand.new.parts.items }
    ensures hand { hand.new.parts.items ≡ slice_set hand.old.parts.items part None }
    ensures gave { GaveParts (λ k. k ≡ part) hand.old.parts.items (F.seat frames.old) (F.seat frames.new) }
    ensures gives { (cache : Cache) → F.gives frames.old cache → HandIs cache hand.old.parts.items
        → F.gives frames.new cache × HandIs cache hand.new.parts.items }
    ensures waits { F.waits frames.new ≡ F.waits frames.old }
{
    if let Some(held) = hand.parts[part as usize].take() {
        frames.give_part(part, held);
    }
}

// Gives back all partitions that a hand has, the last first.
pub(crate) fn give_parts<V: Volume, F: Frames<V>>(frames: &mut F, hand: &mut Hand)
    requires held { IsHandOf (F.seat frames.old) hand.old.parts.items }
    requires range { EachHeld AreOwn hand.old.parts.items }
    requires rule { EachHeld (F.may_give frames.old) hand.old.parts.items }
    ensures shares { F.shares frames.old frames.new }
    ensures empty { hand.new.parts.items ≡ empty_hand }
    ensures free { (F.seat frames.new).parts ≡ empty_hand }
    ensures gave { GaveParts (λ k. k < PARTITIONS) hand.old.parts.items (F.seat frames.old) (F.seat frames.new) }
    ensures gives { (cache : Cache) → F.gives frames.old cache → HandIs cache hand.old.parts.items
        → F.gives frames.new cache }
    ensures waits { F.waits frames.new ≡ F.waits frames.old }
{
    for step in 0..PARTITIONS as u8 {
        give_one(frames, hand, PARTITIONS as u8 - 1 - step);
    }
}
