// Turns of one handle.
ghost use Rattle.std.specs.Prelude.{◌≡◌, ℕ, List, length, None, replicate, IfOk, IfErr};
ghost use Rattle.std.proofs.Props.{props};
ghost use Rattle.ori_part.specs.Parts.{no_pages};
ghost use Rattle.ori_turns.specs.declared.slot.Slot.TheVariants.{Home};
ghost use Rattle.ori_bytes.specs.declared.limits.TheConstants.{PARTITIONS};
ghost use Rattle.ori_pool.specs.declared.device.Device.{Device};
ghost use Rattle.ori_turns.specs.Seats.{HoldsNothing, last_of};
ghost use Rattle.ori_turns.specs.Slots.{shown};
ghost use Rattle.ori_turns.specs.Caches.{Cache, GivesCache, HoldNow, OnlyHeld, unread};
ghost use Rattle.ori_turns.specs.Owning.{seat_of, AreParts, AreFit};

use crate::{Frames, Slot};
use ori_bytes::NoMemory;
use ori_bytes::limits::PARTITIONS;
use ori_part::Part;
use ori_pool::Device;
use ori_volume::Volume;
use std::alloc::Global;

/// The only handle of its turns, so that none is ever held by another. It is the engine's.
#[derive(Drop)]
pub struct Owned<V: Volume> {
    parts: Vec<Slot<Part>>,
    device: Slot<Device<V>>,
    ghost count: { length parts.items ≡ PARTITIONS },
    ghost range: { AreFit parts.items } by { Prim.hlevel props },
}

// Eight partitions without a page.
fn empty_parts(alloc: Global) -> Result<Vec<Slot<Part>>, NoMemory>
    ensures { IfOk result (λ parts. parts.items ≡ replicate PARTITIONS (Home no_pages)) }
{
    let mut parts = Vec::new(alloc);
    for _ in 0..PARTITIONS {
        parts.push(Slot::Home(Part::empty(alloc)?))?;
    }
    Ok(parts)
}

impl<V: Volume> Owned<V> {
    /// The turns of a volume that isn't open, with empty partitions: the pages are those that the files hold. If out of
    /// memory the volume comes back.
    #[tactic(auto, using(crate::proofs::Making::fit_new, crate::proofs::Making::parts_new))]
    pub fn new(alloc: Global, volume: V) -> Result<Owned<V>, (V, NoMemory)>
        ensures device { IfOk result (λ owned. owned.device
            ≡ Home (record { volume = volume; log = None; halted = None })) }
        ensures parts { IfOk result (λ owned. owned.parts.items ≡ replicate PARTITIONS (Home no_pages)) }
        ensures free { IfOk result (λ owned. HoldsNothing (seat_of owned.parts.items owned.device
            (last_of V.faults V.log_faults (shown owned.device)))) }
        ensures gives { IfOk result (λ owned. (pages : List (List ℕ)) → HoldNow pages (V.story volume) (V.files volume)
            → AreParts owned.parts.items (unread pages)
            × GivesCache None None (V.story volume) (V.files volume) (unread pages)) }
        ensures err { IfErr result (λ back. back.0 ≡ volume) }
    {
        match empty_parts(alloc) {
            Ok(parts) => Ok(Owned {
                parts,
                device: Slot::Home(Device::of(volume)),
            }),
            Err(fault) => Err((volume, fault)),
        }
    }

    /// The volume, where no turn is held.
    pub fn into_volume(self) -> V
        requires { HoldsNothing (seat_of self.parts.items self.device
            (last_of V.faults V.log_faults (shown self.device))) }
        ensures { result ≡ (shown self.device).volume }
    {
        let Owned {
            parts: _parts,
            device,
        } = self;
        match device {
            Slot::Home(device) => device.into_volume(),
            Slot::Out(_) => unreachable!(),
        }
    }
}

impl<V: Volume> Frames<V> for Owned<V> {
    ghost use Rattle.std.specs.Prelude.{◌≡◌, ⊤};
    ghost use Rattle.std.proofs.Common.{◌∙◌};
    ghost use Rattle.std.proofs.lemmas.List.{length-map};
    ghost use Rattle.ori_turns.specs.Slots.{shown};
    ghost use Rattle.ori_turns.specs.Caches.{GivesCache};
    ghost use Rattle.ori_turns.specs.Seats.{last_of};
    ghost use Rattle.ori_turns.specs.Owning.{seat_of, AreParts, AreFit};

    ghost seat = { λ o. seat_of o.parts.items o.device (last_of V.faults V.log_faults (shown o.device)) };

    ghost gives = { λ o cache. AreParts o.parts.items cache × GivesCache (shown o.device).log (shown o.device).halted
        (V.story (shown o.device).volume) (V.files (shown o.device).volume) cache };

    ghost shares = { λ _ _. ⊤ };

    ghost waits = { λ _. 0 };

    ghost may_give = { λ _ _ _. ⊤ };

    ghost may_return = { λ _ _. ⊤ };

    ghost eight = { λ o. (length-map o.parts.items _ ∙ o.count, length-map o.parts.items _ ∙ o.count) };

    ghost told_gives = { λ _ _ is. is.1 };

    ghost shares_itself = { λ _. tt };

    ghost shares_on = { λ _ _ _ _ _. tt };

    fn take_part(&mut self, part: u8) -> Option<Part> {
        self.parts[part as usize].take()
    }

    fn give_part(&mut self, part: u8, held: Part) {
        self.parts[part as usize].give(held);
    }

    fn take_device(&mut self) -> Option<Device<V>> {
        self.device.take()
    }

    fn give_device(&mut self, device: Device<V>)
        ensures device { self.new.device ≡ Home device }
        ensures parts { self.new.parts ≡ self.old.parts }
        ensures gives { (cache now : Cache) → AreParts self.old.parts.items cache
            × GivesCache (shown self.old.device).log (shown self.old.device).halted
            (V.story (shown self.old.device).volume) (V.files (shown self.old.device).volume) cache
            → OnlyHeld (seat_of self.old.parts.items self.old.device
            (last_of V.faults V.log_faults (shown self.old.device))) cache now
            → GivesCache device.log device.halted (V.story device.volume) (V.files device.volume) now
            → AreParts self.new.parts.items now
            × GivesCache (shown self.new.device).log (shown self.new.device).halted
            (V.story (shown self.new.device).volume) (V.files (shown self.new.device).volume) now }
    {
        self.device.give(device);
    }

    fn waits(&self) -> u64 {
        0
    }
}
