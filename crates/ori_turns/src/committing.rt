// An operation's pages, all at once.
ghost use Rattle.std.specs.Prelude.{◌≡◌, ◌≢◌, ◌≤◌, ◌<◌, ℕ, List, length, map, true, None, Some, IsSome, IfSome, IfNone};
ghost use Rattle.std.specs.Prelude.{◌%◌, IfOk, OnErr, IsErrOf, is_some, nat_eq, slice_index_or, ⊤};
ghost use Rattle.std.specs.List.{list_any};
ghost use Rattle.ori_bytes.specs.declared.limits.TheConstants.{PARTITIONS, MAX_WEIGHT};
ghost use Rattle.ori_volume.specs.Causes.{Rose};
ghost use Rattle.ori_volume.specs.Disk.{Files};
ghost use Rattle.ori_volume.specs.Story.{Tells};
ghost use Rattle.ori_log.specs.Images.{image_data, AreRising};
ghost use Rattle.ori_log.specs.declared.image.PageImage.{PageImage};
ghost use Rattle.ori_cover.specs.Given.{ArePut};
ghost use Rattle.ori_pool.specs.declared.device.Device.{Device};
ghost use Rattle.ori_pool.specs.declared.fault.OpFault.{OpFault};
ghost use Rattle.ori_pool.specs.Held.{HaveParts};
ghost use Rattle.ori_pool.specs.Operating.{Needs};
ghost use Rattle.ori_turns.specs.Knowing.{Knows};
ghost use Rattle.ori_turns.specs.Seats.{HoldsNothing, IsTold, NothingChanged, TurnHeld, with_parts, last_of};
ghost use Rattle.ori_turns.specs.Seats.{took_device, gave_device, PartsStay};
ghost use Rattle.ori_turns.specs.Caches.{Cache, AreOwn, SamePages};
ghost use Rattle.ori_turns.specs.Hands.{empty_hand, EachHeld, AreTaken, HandIs, IsHandOf};
ghost use Rattle.ori_turns.specs.Committed.{is_wanted, HasWanted, WasCommitted, StaysAs, LeavesHand, PartsTrimmed};
ghost use Rattle.ori_turns.specs.Committed.{CommitsCache, IsWhole, IfDone};

use crate::taking::{give_parts, take_one};
use crate::{Frames, Known};
use ori_bytes::limits::PARTITIONS;
use ori_log::{ImageList, PageImage};
use ori_pool::{Hand, OpFault, commit as commit_hand};
use ori_volume::Volume;

// Whether one of these images is of a page of a partition.
fn is_named(images: &[PageImage], part: u8) -> bool
    ensures { result ≡ list_any (λ (image : PageImage). nat_eq (image.page % PARTITIONS) part) images.now }
{
    images
        .iter()
        .any(|image| image.page % PARTITIONS as u32 == part as u32)
}

// Whether a commit of these images takes a partition.
fn is_wanted(due: bool, images: &[PageImage], part: u8) -> bool
    ensures { result ≡ is_wanted due (map image_data images.now) part }
{
    if due {
        return true;
    }
    is_named(images, part)
}

// Takes one partition more into a hand, where it is wanted.
fn take_wanted<V: Volume, F: Frames<V>>(
    frames: &mut F,
    hand: &mut Hand,
    due: bool,
    images: &[PageImage],
    part: u8,
) -> Option<()>
    requires part { part < PARTITIONS }
    requires free { slice_index_or hand.old.parts.items part None ≡ None }
    requires taken { AreTaken (F.seat frames.old) (F.may_give frames.old) hand.old.parts.items }
    ensures shares { F.shares frames.old frames.new }
    ensures taken { AreTaken (F.seat frames.new) (F.may_give frames.new) hand.new.parts.items }
    ensures seat { F.seat frames.new ≡ with_parts hand.new.parts.items (F.seat frames.old) }
    ensures here { IfSome result (λ done. is_some (slice_index_or hand.new.parts.items part None)
        ≡ is_wanted due (map image_data images.now) part) }
    ensures others { (k : ℕ) → k ≢ part
        → slice_index_or hand.new.parts.items k None ≡ slice_index_or hand.old.parts.items k None }
    ensures gives { (cache : Cache) → F.gives frames.old cache → HandIs cache hand.old.parts.items
        → (now : Cache) × SamePages cache now × F.gives frames.new now × HandIs now hand.new.parts.items }
    ensures later { F.waits frames.old ≤ F.waits frames.new }
    ensures busy { IfNone result (Rose (F.waits frames.old) (F.waits frames.new)) }
{
    if !is_wanted(due, images, part) {
        return Some(());
    }
    take_one(frames, hand, part)
}

// Takes the partitions that a commit of these images wants, which rise. It answers the number of one that another
// handle holds; the hand then has the wanted ones below it.
fn take_all_wanted<V: Volume, F: Frames<V>>(
    frames: &mut F,
    hand: &mut Hand,
    due: bool,
    images: &[PageImage],
) -> Option<u8>
    requires free { (F.seat frames.old).parts ≡ empty_hand }
    requires empty { hand.old.parts.items ≡ empty_hand }
    ensures shares { F.shares frames.old frames.new }
    ensures taken { AreTaken (F.seat frames.new) (F.may_give frames.new) hand.new.parts.items }
    ensures seat { F.seat frames.new ≡ with_parts hand.new.parts.items (F.seat frames.old) }
    ensures wanted { IfNone result (HasWanted due (map image_data images.now) PARTITIONS hand.new.parts.items) }
    ensures gives { (cache : Cache) → F.gives frames.old cache
        → (now : Cache) × SamePages cache now × F.gives frames.new now × HandIs now hand.new.parts.items }
    ensures later { F.waits frames.old ≤ F.waits frames.new }
    ensures busy { IfSome result (λ part. TurnHeld part (F.waits frames.old) (F.waits frames.new)) }
{
    for part in 0..PARTITIONS as u8 {
        if take_wanted(frames, hand, due, images, part).is_none() {
            return Some(part);
        }
    }
    None
}

// Takes the device, commits with the partitions of a hand, and gives the device back. Without a result another handle
// held the device.
fn commit_taken<V: Volume, F: Frames<V>>(
    frames: &mut F,
    hand: &mut Hand,
    known: &mut Known,
    images: ImageList,
) -> Option<Result<u64, OpFault>>
    requires engine { (F.seat frames.old).engine ≡ true }
    requires free { (F.seat frames.old).device ≡ None }
    requires taken { AreTaken (F.seat frames.old) (F.may_give frames.old) hand.old.parts.items }
    requires knows { Knows (F.seat frames.old).last known.old }
    requires needs { Needs HaveParts (F.seat frames.old).last.log hand.old.parts.items images }
    ensures shares { F.shares frames.old frames.new }
    ensures held { IsHandOf (F.seat frames.new) hand.new.parts.items }
    ensures range { EachHeld AreOwn hand.new.parts.items }
    ensures rule { EachHeld (F.may_give frames.new) hand.new.parts.items }
    ensures knows { Knows (F.seat frames.new).last known.new }
    ensures same { IfNone result ((hand.new ≡ hand.old) × (F.seat frames.new ≡ F.seat frames.old)) }
    ensures crash { IfSome result (λ done. (taken given : Device V)
        × IsTold (λ told. taken ≡ told.device) (F.seat frames.old)
        × (F.seat frames.new ≡ gave_device given (last_of V.faults V.log_faults given)
        (took_device taken (F.seat frames.old)))
        × WasCommitted done (F.seat frames.old).last (last_of V.faults V.log_faults given)
        × StaysAs done taken given
        × IfOk done (λ at. at ≡ V.moment given.volume)
        × ((turn : ℕ) → IsErrOf done (OpFault.Busy turn) → ⊥)
        × Tells (λ (old new : Files). ⊤) (V.files taken.volume) (V.files given.volume)
        × ((cache : Cache) (put : List (List ℕ)) → F.gives frames.old cache → HandIs cache hand.old.parts.items
        → ArePut images cache.pages put
        → Tells (IsWhole cache.pages put done) (V.story taken.volume) (V.story given.volume))) }
    ensures gives { IfSome result (λ done. (cache : Cache) (put : List (List ℕ)) → F.gives frames.old cache
        → HandIs cache hand.old.parts.items → ArePut images cache.pages put
        → (now : Cache) × CommitsCache images known.old.due put done cache now × F.gives frames.new now
        × HandIs now hand.new.parts.items
        × (known.new.halted ≡ None → length now.records ≡ known.new.tail)) }
    ensures leaves { IfSome result (λ done. LeavesHand done (F.seat frames.new) hand.new.parts.items) }
    ensures still { IfNone result ((cache : Cache) → F.gives frames.old cache → F.gives frames.new cache) }
    ensures later { F.waits frames.old ≤ F.waits frames.new }
    ensures busy { IfNone result (Rose (F.waits frames.old) (F.waits frames.new)) }
{
    let mut device = frames.take_device()?;
    let done = commit_hand(&mut device, hand, images);
    *known = Known::of(&device);
    frames.give_device(device);
    Some(done)
}

// Takes the partitions that these images want, and commits them. They are then the hand's, whatever the answer.
fn try_commit<V: Volume, F: Frames<V>>(
    frames: &mut F,
    hand: &mut Hand,
    known: &mut Known,
    images: ImageList,
) -> Result<u64, OpFault>
    requires engine { (F.seat frames.old).engine ≡ true }
    requires open { IsSome (F.seat frames.old).last.log }
    requires free { HoldsNothing (F.seat frames.old) }
    requires empty { hand.old.parts.items ≡ empty_hand }
    requires knows { Knows (F.seat frames.old).last known.old }
    requires some { 0 < length images }
    requires few { length images ≤ MAX_WEIGHT }
    requires rising { AreRising 0 images }
    ensures shares { F.shares frames.old frames.new }
    ensures held { IsHandOf (F.seat frames.new) hand.new.parts.items }
    ensures range { EachHeld AreOwn hand.new.parts.items }
    ensures rule { EachHeld (F.may_give frames.new) hand.new.parts.items }
    ensures engine { (F.seat frames.new).engine ≡ true }
    ensures free { (F.seat frames.new).device ≡ None }
    ensures knows { Knows (F.seat frames.new).last known.new }
    ensures later { F.waits frames.old ≤ F.waits frames.new }
    ensures busy { (turn : ℕ) → IsErrOf result (OpFault.Busy turn)
        → TurnHeld turn (F.waits frames.old) (F.waits frames.new) }
    ensures same { (turn : ℕ) → IsErrOf result (OpFault.Busy turn)
        → NothingChanged (F.seat frames.old) (F.seat frames.new) }
    ensures halted { (at_fault : ℕ) → IsErrOf result (OpFault.Halted at_fault)
        → (F.seat frames.new).told ≡ (F.seat frames.old).told }
    ensures stay { Tells PartsStay (F.seat frames.old).told (F.seat frames.new).told }
    ensures leaves { LeavesHand result (F.seat frames.new) hand.new.parts.items }
    ensures crash { IfDone result (λ done. (taken given : Device V)
        × IsTold (λ told. taken ≡ told.device) (F.seat frames.old)
        × IsTold (λ told. given ≡ told.device) (F.seat frames.new)
        × ((F.seat frames.new).last ≡ last_of V.faults V.log_faults given)
        × WasCommitted done (F.seat frames.old).last (F.seat frames.new).last
        × StaysAs done taken given
        × IfOk done (λ at. at ≡ V.moment given.volume)
        × Tells (λ (old new : Files). ⊤) (V.files taken.volume) (V.files given.volume)
        × ((cache : Cache) (put : List (List ℕ)) → F.gives frames.old cache → ArePut images cache.pages put
        → Tells (IsWhole cache.pages put done) (V.story taken.volume) (V.story given.volume))) }
    ensures gives { (cache : Cache) (put : List (List ℕ)) → F.gives frames.old cache → ArePut images cache.pages put
        → (now : Cache) × CommitsCache images known.old.due put result cache now × F.gives frames.new now
        × HandIs now hand.new.parts.items
        × IfDone result (λ done. known.new.halted ≡ None → length now.records ≡ known.new.tail) }
{
    if let Some(turn) = take_all_wanted(frames, hand, known.due, images.as_slice()) {
        return Err(OpFault::Busy { turn });
    }
    let Some(done) = commit_taken(frames, hand, known, images) else {
        return Err(OpFault::Busy { turn: 8 });
    };
    done
}

/// Commits the pages of an operation, all at once: takes the partitions of these pages, or all where a checkpoint is
/// due, and then the device, makes that checkpoint, puts the pages into the log as one record, makes them dirty, and
/// gives all back. It answers the volume's moment when the append ended. It is the engine's alone. The hand is empty,
/// before and after.
///
/// A crash at any moment leaves the pages from before, or those with the operation's: after Ok these alone, and after a
/// refusal by which nothing is in doubt those alone. `Busy` comes only where another handle held a turn, and nothing has
/// changed then. `Halted` comes exactly where the device is halted, and after it and `NoMemory` no image has changed.
/// A fault halts the device where log work failed: with `doubt`, the number of records that there may be now, it was the
/// append, and else the checkpoint, by which nothing is in doubt. After any refusal a partition is as it was, or has no
/// place without a dirty page.
pub fn commit<V: Volume, F: Frames<V>>(
    frames: &mut F,
    hand: &mut Hand,
    known: &mut Known,
    images: ImageList,
) -> Result<u64, OpFault>
    requires engine { (F.seat frames.old).engine ≡ true }
    requires open { IsSome (F.seat frames.old).last.log }
    requires free { HoldsNothing (F.seat frames.old) }
    requires empty { hand.old.parts.items ≡ empty_hand }
    requires knows { Knows (F.seat frames.old).last known.old }
    requires some { 0 < length images }
    requires few { length images ≤ MAX_WEIGHT }
    requires rising { AreRising 0 images }
    ensures shares { F.shares frames.old frames.new }
    ensures engine { (F.seat frames.new).engine ≡ true }
    ensures free { HoldsNothing (F.seat frames.new) }
    ensures empty { hand.new.parts.items ≡ empty_hand }
    ensures knows { Knows (F.seat frames.new).last known.new }
    ensures waits { F.waits frames.old ≤ F.waits frames.new }
    ensures busy { (turn : ℕ) → IsErrOf result (OpFault.Busy turn)
        → TurnHeld turn (F.waits frames.old) (F.waits frames.new) }
    ensures same { (turn : ℕ) → IsErrOf result (OpFault.Busy turn)
        → NothingChanged (F.seat frames.old) (F.seat frames.new) }
    ensures halted { (at_fault : ℕ) → IsErrOf result (OpFault.Halted at_fault)
        → (F.seat frames.new).told ≡ (F.seat frames.old).told }
    ensures trimmed { OnErr result (Tells PartsTrimmed (F.seat frames.old).told (F.seat frames.new).told) }
    ensures ended { IfOk result (λ at. IsTold (λ told. at ≡ V.moment told.device.volume) (F.seat frames.new)) }
    ensures crash { IfDone result (λ done. (taken given : Device V)
        × IsTold (λ told. taken ≡ told.device) (F.seat frames.old)
        × IsTold (λ told. given ≡ told.device) (F.seat frames.new)
        × ((F.seat frames.new).last ≡ last_of V.faults V.log_faults given)
        × WasCommitted done (F.seat frames.old).last (F.seat frames.new).last
        × StaysAs done taken given
        × Tells (λ (old new : Files). ⊤) (V.files taken.volume) (V.files given.volume)
        × ((cache : Cache) (put : List (List ℕ)) → F.gives frames.old cache → ArePut images cache.pages put
        → Tells (IsWhole cache.pages put done) (V.story taken.volume) (V.story given.volume))) }
    ensures gives { (cache : Cache) (put : List (List ℕ)) → F.gives frames.old cache → ArePut images cache.pages put
        → (now : Cache) × CommitsCache images known.old.due put result cache now × F.gives frames.new now
        × IfDone result (λ done. known.new.halted ≡ None → length now.records ≡ known.new.tail) }
{
    let done = try_commit(frames, hand, known, images);
    give_parts(frames, hand);
    done
}
