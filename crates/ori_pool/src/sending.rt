// Unwritten pages go home before a checkpoint ends.
ghost use Rattle.std.specs.Prelude.{◌≡◌, ◌≢◌, ◌<◌, ℕ, Ok, None, true, false, slice_index_or, OnOk};
ghost use Rattle.ori_bytes.specs.declared.limits.TheConstants.{PARTITIONS};
ghost use Rattle.ori_volume.specs.Causes.{HasCause};
ghost use Rattle.ori_volume.specs.Story.{Tells};
ghost use Rattle.ori_pool.specs.Held.{AreOwn, AreTended, IsSent, AreSent, unsent_in};
ghost use Rattle.ori_cover.specs.Views.{on_disk, as_read};
ghost use Rattle.ori_pool.specs.Sends.{Sends};

use crate::flushing::flush_first;
use crate::{Device, Hand};
use ori_volume::{Failed, Volume};

// Sends the first unwritten page of a partition home, where the hand holds it: false exactly where there is none.
fn send_next<V: Volume>(device: &mut Device<V>, hand: &mut Hand, at: usize) -> Result<bool, Failed>
    requires within { at < PARTITIONS }
    requires own { AreOwn hand.old.parts.items }
    ensures crash { Tells (Sends on_disk hand.old.parts.items hand.new.parts.items) (V.story device.old.volume)
        (V.story device.new.volume) }
    ensures read { Tells (Sends as_read hand.old.parts.items hand.new.parts.items) (V.files device.old.volume)
        (V.files device.new.volume) }
    ensures none { result ≡ Ok false → IsSent (slice_index_or hand.new.parts.items at None) }
    ensures fewer { result ≡ Ok true → unsent_in (slice_index_or hand.new.parts.items at None)
        < unsent_in (slice_index_or hand.old.parts.items at None) }
    ensures others { (k : ℕ) → k ≢ at
        → slice_index_or hand.new.parts.items k None ≡ slice_index_or hand.old.parts.items k None }
    ensures tended { AreTended hand.old.parts.items hand.new.parts.items }
    ensures same { (device.new.log ≡ device.old.log) × (device.new.halted ≡ device.old.halted) }
    ensures faults { HasCause (V.faults device.old.volume) (V.faults device.new.volume) result }
    ensures log_faults { V.log_faults device.new.volume ≡ V.log_faults device.old.volume }
{
    let Some(mut part) = hand.parts[at].take() else {
        return Ok(false);
    };
    let done = flush_first(device, &mut part);
    hand.parts[at] = Some(part);
    done
}

// Sends each unwritten page of a partition home.
fn send_part<V: Volume>(device: &mut Device<V>, hand: &mut Hand, at: usize) -> Result<(), Failed>
    requires within { at < PARTITIONS }
    requires own { AreOwn hand.old.parts.items }
    ensures crash { Tells (Sends on_disk hand.old.parts.items hand.new.parts.items) (V.story device.old.volume)
        (V.story device.new.volume) }
    ensures read { Tells (Sends as_read hand.old.parts.items hand.new.parts.items) (V.files device.old.volume)
        (V.files device.new.volume) }
    ensures sent { OnOk result (IsSent (slice_index_or hand.new.parts.items at None)) }
    ensures others { (k : ℕ) → k ≢ at
        → slice_index_or hand.new.parts.items k None ≡ slice_index_or hand.old.parts.items k None }
    ensures tended { AreTended hand.old.parts.items hand.new.parts.items }
    ensures same { (device.new.log ≡ device.old.log) × (device.new.halted ≡ device.old.halted) }
    ensures faults { HasCause (V.faults device.old.volume) (V.faults device.new.volume) result }
    ensures log_faults { V.log_faults device.new.volume ≡ V.log_faults device.old.volume }
{
    'pages: while send_next(device, hand, at)? {}
    Ok(())
}

/// Sends each unwritten page of a hand's partitions home and marks it. Takes no memory, and no longer than the writes
/// and one pass over the places. After `Failed` the pages whose writes were tried before it are marked, and the others
/// stay unwritten: nothing is halted, and the log stands over the pages as before.
pub fn send_home<V: Volume>(device: &mut Device<V>, hand: &mut Hand) -> Result<(), Failed>
    requires own { AreOwn hand.old.parts.items }
    ensures crash { Tells (Sends on_disk hand.old.parts.items hand.new.parts.items) (V.story device.old.volume)
        (V.story device.new.volume) }
    ensures read { Tells (Sends as_read hand.old.parts.items hand.new.parts.items) (V.files device.old.volume)
        (V.files device.new.volume) }
    ensures sent { OnOk result (AreSent PARTITIONS hand.new.parts.items) }
    ensures tended { AreTended hand.old.parts.items hand.new.parts.items }
    ensures same { (device.new.log ≡ device.old.log) × (device.new.halted ≡ device.old.halted) }
    ensures faults { HasCause (V.faults device.old.volume) (V.faults device.new.volume) result }
    ensures log_faults { V.log_faults device.new.volume ≡ V.log_faults device.old.volume }
{
    for at in 0..hand.parts.len() {
        send_part(device, hand, at)?;
    }
    Ok(())
}
