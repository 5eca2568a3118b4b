// A partition is looked at.
ghost use Rattle.std.specs.Prelude.{◌≡◌, ◌≤◌, ◌<◌, IfSome, IfNone, is_some};
ghost use Rattle.ori_bytes.specs.declared.limits.TheConstants.{PARTITIONS};
ghost use Rattle.ori_volume.specs.Causes.{Rose};
ghost use Rattle.ori_part.specs.Parts.{unwritten_page};
ghost use Rattle.ori_turns.specs.Caches.{Cache, SamePages};
ghost use Rattle.ori_turns.specs.Seats.{HoldsNothing, IsTold, told_at};

use ori_turns::Frames;
use ori_volume::Volume;

/// Whether a partition has an unwritten page: takes it, and gives it back as it was. Without an answer another handle
/// held it.
pub(crate) fn has_unwritten<V: Volume, F: Frames<V>>(frames: &mut F, part: u8) -> Option<bool>
    requires part { part < PARTITIONS }
    requires free { HoldsNothing (F.seat frames.old) }
    ensures shares { F.shares frames.old frames.new }
    ensures same { F.seat frames.new ≡ F.seat frames.old }
    ensures waits { F.waits frames.old ≤ F.waits frames.new }
    ensures busy { IfNone result (Rose (F.waits frames.old) (F.waits frames.new)) }
    ensures unwritten { IfSome result (λ some. IsTold
        (λ told. some ≡ is_some (unwritten_page (told_at told part).places)) (F.seat frames.old)) }
    ensures gives { (cache : Cache) → F.gives frames.old cache
        → (now : Cache) × SamePages cache now × F.gives frames.new now }
{
    let held = frames.take_part(part)?;
    let unwritten = held.next_unwritten().is_some();
    frames.give_part(part, held);
    Some(unwritten)
}
