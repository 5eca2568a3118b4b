// Dirty pages go home.
ghost use Rattle.std.specs.Prelude.{◌≡◌, ◌<◌, ℕ, List, Some, None, Ok, IfSome, OnOk, OnErr, true, false};
ghost use Rattle.ori_bytes.specs.declared.limits.TheConstants.{MAX_PAGES};
ghost use Rattle.ori_volume.specs.Causes.{HasCause};
ghost use Rattle.ori_volume.specs.Story.{Tells};
ghost use Rattle.ori_part.specs.Parts.{marked, has_place, unwritten_page, HoldsNoMore};
ghost use Rattle.ori_cover.specs.Dirty.{unwritten, IsMarked};
ghost use Rattle.ori_cover.specs.Homes.{IsHome};
ghost use Rattle.ori_cover.specs.Reading.{WritesHomeRead};
ghost use Rattle.ori_cover.specs.Steps.{WritesHome};
ghost use Rattle.ori_pool.specs.Held.{dirty_of, unsent_in};
ghost use Rattle.ori_pool.specs.Sends.{FlushesFirst};

use crate::Device;
use ori_part::Part;
use ori_volume::{Failed, Volume};

/// Writes a dirty page of a partition, which is unwritten, to its home, and marks it. After `Failed` it is unwritten,
/// and nothing is halted.
pub fn flush<V: Volume>(device: &mut Device<V>, part: &mut Part, page: u32) -> Result<(), Failed>
    requires below { page < MAX_PAGES }
    requires unwritten { (content : List ℕ) × (dirty_of part.old page ≡ Some (unwritten content)) }
    ensures crash { (content : List ℕ) → dirty_of part.old page ≡ Some (unwritten content)
        → Tells (WritesHome page content result) (V.story device.old.volume) (V.story device.new.volume) }
    ensures read { (content : List ℕ) → dirty_of part.old page ≡ Some (unwritten content)
        → Tells (WritesHomeRead page content result) (V.files device.old.volume) (V.files device.new.volume) }
    ensures home { OnOk result ((content : List ℕ) → dirty_of part.old page ≡ Some (unwritten content)
        → IfSome (V.files device.new.volume) (λ files. IsHome page content files.pages)) }
    ensures marked { OnOk result ((content : List ℕ) → dirty_of part.old page ≡ Some (unwritten content)
        → (part.new ≡ marked part.old page content) × IsMarked page content (dirty_of part.old) (dirty_of part.new)) }
    ensures err { OnErr result (part.new ≡ part.old) }
    ensures same { (device.new.log ≡ device.old.log) × (device.new.halted ≡ device.old.halted) }
    ensures faults { HasCause (V.faults device.old.volume) (V.faults device.new.volume) result }
    ensures log_faults { V.log_faults device.new.volume ≡ V.log_faults device.old.volume }
{
    let Some(content) = part.dirty(page) else {
        return Ok(());
    };
    device.write_home(page, content)?;
    part.mark_written(page);
    Ok(())
}

// Writes the first unwritten page of a partition home and marks it: false exactly where there is none. After `Failed`
// the partition is as it was, and nothing is halted.
pub(crate) fn flush_first<V: Volume>(
    device: &mut Device<V>,
    part: &mut Part,
) -> Result<bool, Failed>
    requires below { (page : ℕ) → has_place part.old page ≡ true → page < MAX_PAGES }
    ensures crash { Tells (FlushesFirst WritesHome part.old part.new result) (V.story device.old.volume)
        (V.story device.new.volume) }
    ensures read { Tells (FlushesFirst WritesHomeRead part.old part.new result) (V.files device.old.volume)
        (V.files device.new.volume) }
    ensures none { result ≡ Ok false → (unwritten_page part.old.places ≡ None) × (part.new ≡ part.old)
        × (device.new ≡ device.old) }
    ensures fewer { result ≡ Ok true → unsent_in (Some part.new) < unsent_in (Some part.old) }
    ensures places { (page : ℕ) → has_place part.new page ≡ has_place part.old page }
    ensures contents { HoldsNoMore part.old part.new }
    ensures err { OnErr result (part.new ≡ part.old) }
    ensures same { (device.new.log ≡ device.old.log) × (device.new.halted ≡ device.old.halted) }
    ensures faults { HasCause (V.faults device.old.volume) (V.faults device.new.volume) result }
    ensures log_faults { V.log_faults device.new.volume ≡ V.log_faults device.old.volume }
{
    let Some(page) = part.next_unwritten() else {
        return Ok(false);
    };
    flush(device, part, page)?;
    Ok(true)
}
