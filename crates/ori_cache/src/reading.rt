// Reading through the cache.
ghost use Rattle.std.specs.Prelude.{◌≡◌, ◌⊎◌, ◌%◌, ◌<◌, ◌≤◌, ℕ, true, length, None, IsSome, IfSome, IfNone, IfOk};
ghost use Rattle.std.specs.Prelude.{IfErr};
ghost use Rattle.std.specs.Prelude.{IsErrOf};
ghost use Rattle.ori_bytes.specs.declared.limits.TheConstants.{MAX_PAGES, PARTITIONS};
ghost use Rattle.ori_volume.specs.Causes.{Rose};
ghost use Rattle.ori_page.specs.declared.fault.PageFault.{PageFault};
ghost use Rattle.ori_page.specs.Faults.{IsOutside};
ghost use Rattle.ori_part.specs.Parts.{content_at, looked, kept, IsLooked};
ghost use Rattle.ori_turns.specs.Seats.{HoldsNothing, IsTold, held_part, told_at};
ghost use Rattle.ori_turns.specs.Caches.{Cache, IsPart, SamePages};
ghost use Rattle.ori_cache.specs.Reads.{IsSame, ReadsDevice, ReadsFrames, ReadsSeat, IsPageOf};

use crate::home::{Home, read_home};
use ori_bytes::NoMemory;
use ori_bytes::limits::PARTITIONS;
use ori_page::{Page, PageFault};
use ori_part::Part;
use ori_turns::Frames;
use ori_volume::Volume;
use std::alloc::Global;

// A copy of a page that a partition holds. A clean one is the last used after it.
fn copy_held(held: &mut Part, page: u32) -> Result<Option<Page>, NoMemory>
    ensures looked { IsLooked page held.old held.new }
    ensures value { IfOk result (λ copy. copy ≡ content_at held.old page) }
{
    match held.get(page) {
        Some(content) => Ok(Some(content.copy()?)),
        None => Ok(None),
    }
}

// Makes a copy of what was read a clean page, where it is one and there is memory for it.
fn keep_copy(held: &mut Part, page: u32, home: &Home)
    requires { content_at held.old page ≡ None }
    ensures { (held.new ≡ held.old) ⊎ ((home.now.whole ≡ true) × (held.new ≡ kept held.old page home.now.content)) }
{
    if !home.whole {
        return;
    }
    let Ok(copy) = home.content.copy() else {
        return;
    };
    let _ = held.keep(page, copy);
}

// Reads a page's home: takes the device, and gives it back. Without a result another handle held it.
fn read_taken<V: Volume, F: Frames<V>>(
    alloc: Global,
    frames: &mut F,
    part: u8,
    held: &Part,
    page: u32,
) -> Option<Result<Home, PageFault>>
    requires page { page < MAX_PAGES }
    requires own { page % PARTITIONS ≡ part }
    requires engine { (F.seat frames.old).engine ≡ true }
    requires open { IsSome (F.seat frames.old).last.log }
    requires free { (F.seat frames.old).device ≡ None }
    requires taken { IsSome (held_part (F.seat frames.old) part) }
    requires rule { F.may_give frames.old part held.now }
    requires absent { content_at held.now page ≡ None }
    ensures shares { F.shares frames.old frames.new }
    ensures reads { ReadsSeat (ReadsDevice V.files V.story V.moment V.faults V.log_faults) (F.seat frames.old)
        (F.seat frames.new) }
    ensures rule { F.may_give frames.new part held.now }
    ensures keeps { IfSome result (λ done. IfOk done (λ home. home.whole ≡ true
        → F.may_give frames.new part (kept held.now page home.content))) }
    ensures gives { (cache : Cache) → F.gives frames.old cache → IsPart cache part held.now
        → (now : Cache) × SamePages cache now × F.gives frames.new now × IsPart now part held.now
        × IfSome result (λ done. IfOk done (λ home. IsPageOf now page home.content
        × (home.whole ≡ true → page < length now.pages))) }
    ensures fault { IfSome result (λ done. IfErr done
        (λ fault. (fault ≡ PageFault.Device) ⊎ (fault ≡ PageFault.NoMemory))) }
    ensures cause { IfSome result (λ done. IsErrOf done PageFault.Device
        → Rose (F.seat frames.old).last.faults (F.seat frames.new).last.faults) }
    ensures waits { F.waits frames.old ≤ F.waits frames.new }
    ensures busy { IfNone result (Rose (F.waits frames.old) (F.waits frames.new)) }
{
    let mut device = frames.take_device()?;
    let done = read_home(alloc, &mut device, page);
    frames.give_device(device);
    Some(done)
}

// Reads a page that a held partition doesn't hold, and keeps it there where there is memory for it.
fn read_absent<V: Volume, F: Frames<V>>(
    alloc: Global,
    frames: &mut F,
    part: u8,
    held: &mut Part,
    page: u32,
) -> Result<Page, PageFault>
    requires page { page < MAX_PAGES }
    requires own { page % PARTITIONS ≡ part }
    requires engine { (F.seat frames.old).engine ≡ true }
    requires open { IsSome (F.seat frames.old).last.log }
    requires free { (F.seat frames.old).device ≡ None }
    requires taken { IsSome (held_part (F.seat frames.old) part) }
    requires rule { F.may_give frames.old part held.old }
    requires absent { content_at held.old page ≡ None }
    ensures shares { F.shares frames.old frames.new }
    ensures reads { ReadsSeat (ReadsDevice V.files V.story V.moment V.faults V.log_faults) (F.seat frames.old)
        (F.seat frames.new) }
    ensures rule { F.may_give frames.new part held.new }
    ensures places { held.new.places ≡ held.old.places }
    ensures gives { (cache : Cache) → F.gives frames.old cache → IsPart cache part held.old
        → (now : Cache) × SamePages cache now × F.gives frames.new now × IsPart now part held.new
        × IfOk result (IsPageOf now page) }
    ensures fault { IfErr result IsOutside }
    ensures cause { IsErrOf result PageFault.Device
        → Rose (F.seat frames.old).last.faults (F.seat frames.new).last.faults }
    ensures waits { F.waits frames.old ≤ F.waits frames.new }
    ensures busy { (turn : ℕ) → IsErrOf result (PageFault.Busy turn) → Rose (F.waits frames.old) (F.waits frames.new) }
{
    let Some(done) = read_taken(alloc, frames, part, held, page) else {
        return Err(PageFault::Busy { turn: 8 });
    };
    match done {
        Ok(home) => {
            keep_copy(held, page, &home);
            Ok(home.content)
        }
        Err(fault) => Err(fault),
    }
}

// A copy of a page of a held partition, from there or from its home.
fn read_part<V: Volume, F: Frames<V>>(
    alloc: Global,
    frames: &mut F,
    part: u8,
    held: &mut Part,
    page: u32,
) -> Result<Page, PageFault>
    requires page { page < MAX_PAGES }
    requires own { page % PARTITIONS ≡ part }
    requires engine { (F.seat frames.old).engine ≡ true }
    requires open { IsSome (F.seat frames.old).last.log }
    requires free { (F.seat frames.old).device ≡ None }
    requires taken { IsSome (held_part (F.seat frames.old) part) }
    requires rule { F.may_give frames.old part (looked held.old page) }
    ensures shares { F.shares frames.old frames.new }
    ensures reads { ReadsSeat (ReadsDevice V.files V.story V.moment V.faults V.log_faults) (F.seat frames.old)
        (F.seat frames.new) }
    ensures rule { F.may_give frames.new part held.new }
    ensures places { held.new.places ≡ held.old.places }
    ensures gives { (cache : Cache) → F.gives frames.old cache → IsPart cache part held.old
        → (now : Cache) × SamePages cache now × F.gives frames.new now × IsPart now part held.new
        × IfOk result (IsPageOf now page) }
    ensures fault { IfErr result IsOutside }
    ensures cause { IsErrOf result PageFault.Device
        → Rose (F.seat frames.old).last.faults (F.seat frames.new).last.faults }
    ensures waits { F.waits frames.old ≤ F.waits frames.new }
    ensures busy { (turn : ℕ) → IsErrOf result (PageFault.Busy turn) → Rose (F.waits frames.old) (F.waits frames.new) }
    ensures held { IsSome (content_at held.old page) → (IsErrOf result PageFault.Device → ⊥)
        × ((turn : ℕ) → IsErrOf result (PageFault.Busy turn) → ⊥) }
{
    let Ok(found) = copy_held(held, page) else {
        return Err(PageFault::NoMemory);
    };
    match found {
        Some(content) => Ok(content),
        None => read_absent(alloc, frames, part, held, page),
    }
}

/// A copy of a page as it is, from the cache. It takes the turn of the page's partition, and where that doesn't hold
/// the page also the device's, and gives both back. What is read at its home is kept clean where there is memory for
/// it. It is the engine's, and its device has a log.
///
/// `Busy` comes only where another handle held a turn, and `Device` only where the volume's faults rose. A page that
/// its partition holds needs no device: it answers neither `Device` nor `Busy` with turn 8.
pub fn read_page<V: Volume, F: Frames<V>>(
    alloc: Global,
    frames: &mut F,
    page: u32,
) -> Result<Page, PageFault>
    requires page { page < MAX_PAGES }
    requires engine { (F.seat frames.old).engine ≡ true }
    requires open { IsSome (F.seat frames.old).last.log }
    requires free { HoldsNothing (F.seat frames.old) }
    ensures free { HoldsNothing (F.seat frames.new) }
    ensures reads { ReadsFrames F.seat F.gives F.shares F.waits
        (ReadsDevice V.files V.story V.moment V.faults V.log_faults) frames.old frames.new }
    ensures value { IfOk result (λ content. (cache : Cache) → F.gives frames.old cache → IsPageOf cache page content) }
    ensures fault { IfErr result IsOutside }
    ensures cause { IsErrOf result PageFault.Device
        → Rose (F.seat frames.old).last.faults (F.seat frames.new).last.faults }
    ensures busy { (turn : ℕ) → IsErrOf result (PageFault.Busy turn) → Rose (F.waits frames.old) (F.waits frames.new) }
    ensures held { IsTold (λ told. IsSome (content_at (told_at told (page % PARTITIONS)) page)
        → (IsErrOf result PageFault.Device → ⊥) × (IsErrOf result (PageFault.Busy 8) → ⊥)) (F.seat frames.old) }
{
    let part = (page % PARTITIONS as u32) as u8;
    let Some(mut held) = frames.take_part(part) else {
        return Err(PageFault::Busy { turn: part });
    };
    let answer = read_part(alloc, frames, part, &mut held, page);
    frames.give_part(part, held);
    answer
}

// The volume's moment: takes the device, and gives it back. Without a result another handle held it.
pub(crate) fn read_moment<V: Volume, F: Frames<V>>(frames: &mut F) -> Option<u64>
    requires free { HoldsNothing (F.seat frames.old) }
    ensures free { HoldsNothing (F.seat frames.new) }
    ensures reads { ReadsFrames F.seat F.gives F.shares F.waits IsSame frames.old frames.new }
    ensures moment { IfSome result (λ at. IsTold (λ told. at ≡ V.moment told.device.volume) (F.seat frames.new)) }
    ensures busy { IfNone result (Rose (F.waits frames.old) (F.waits frames.new)) }
{
    let device = frames.take_device()?;
    let at = device.moment();
    frames.give_device(device);
    Some(at)
}
