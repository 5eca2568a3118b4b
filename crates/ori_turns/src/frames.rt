// Turns that are taken and given back.
ghost use Rattle.std.specs.Prelude.{◌≡◌, ◌≢◌, ◌%◌, ◌<◌, ◌≤◌, ℕ, List, length, true, Option, None, Some, Result};
ghost use Rattle.std.specs.Prelude.{IsSome, IfSome, IfNone};
ghost use Rattle.ori_bytes.specs.declared.limits.TheConstants.{PARTITIONS};
ghost use Rattle.ori_volume.specs.Causes.{Rose};
ghost use Rattle.ori_volume.specs.Story.{Tells};
ghost use Rattle.ori_volume.specs.OnlyRead.{IsOnlyRead};
ghost use Rattle.ori_volume.specs.declared.failed.Failed.{Failed};
ghost use Rattle.ori_part.specs.Parts.{PartData, marked, looked, kept, content_at};
ghost use Rattle.ori_cover.specs.Dirty.{unwritten};
ghost use Rattle.ori_cover.specs.Homes.{IsHome};
ghost use Rattle.ori_cover.specs.Steps.{WritesHome};
ghost use Rattle.ori_cover.specs.Reading.{WritesHomeRead};
ghost use Rattle.ori_pool.specs.Held.{dirty_of};
ghost use Rattle.ori_pool.specs.declared.device.Device.{Device};
ghost use Rattle.ori_turns.specs.Caches.{Cache, GivesCache, AreOwn, IsPart, OnlyPart, SameHeld, OnlyHeld};
ghost use Rattle.ori_turns.specs.Hands.{EachHeld};
ghost use Rattle.ori_turns.specs.Works.{Settles, LogWork, seen};
ghost use Rattle.ori_turns.specs.Seats.{Seat, held_part, took_part, gave_part, took_device, gave_device, last_of};
ghost use Rattle.ori_turns.specs.Seats.{IsTold, told_at};

use ori_part::Part;
use ori_pool::Device;
use ori_volume::Volume;

/// A handle of nine turns: 0 to 7 of the partitions of the cache, 8 of the device. A turn is taken and given back; no
/// call holds one when it returns that it didn't hold before.
pub trait Frames<V: Volume> {
    /// What the handle holds, and what it knows of turns that it doesn't hold.
    ghost seat: { Self → Seat (Device V) };

    /// The partitions and the device may be so to each other. A volume that tells nothing gives no pages.
    ghost gives: { Self → Cache → Type 0 };

    /// Two handles are of one sharing and one seat.
    ghost shares: { Self → Self → Type 0 };

    /// How many takes found their turn held, up to the end of a `u64`.
    ghost waits: { Self → ℕ };

    /// The handle may give this back in the place of a partition that it holds, by what it has done with the device.
    ghost may_give: { Self → ℕ → PartData → Type 0 };

    /// The handle may give this back in the place of the device that it holds.
    ghost may_return: { Self → Device V → Type 0 };

    /// Takes a partition whose turn the handle doesn't hold. `None` comes only where another handle held it.
    fn take_part(&mut self, part: u8) -> Option<Part>
        requires part { part < PARTITIONS }
        requires free { held_part (seat self.old) part ≡ None }
        ensures shares { shares self.old self.new }
        ensures seat { IfSome result (λ taken. seat self.new ≡ took_part part taken (seat self.old)) }
        ensures told { IfSome result (λ taken. IsTold (λ told. taken ≡ told_at told part) (seat self.old)) }
        ensures range { IfSome result (AreOwn part) }
        ensures gives { IfSome result (λ taken. (cache : Cache) → gives self.old cache
            → (now : Cache) × OnlyPart part cache now × gives self.new now × IsPart now part taken) }
        ensures rule { IfSome result (may_give self.new part) }
        ensures looks { IfSome result (λ taken. (page : ℕ) → may_give self.new part (looked taken page)) }
        ensures rules { (k : ℕ) (held : PartData) → k ≢ part → may_give self.old k held → may_give self.new k held }
        ensures later { waits self.old ≤ waits self.new }
        ensures waits { IfSome result (λ taken. waits self.new ≡ waits self.old) }
        ensures busy { IfNone result (Rose (waits self.old) (waits self.new)) }
        ensures same { IfNone result (seat self.new ≡ seat self.old) }
        ensures goes_on { IfNone result ((cache : Cache) → gives self.old cache → gives self.new cache) };

    /// Gives back a partition whose turn the handle holds.
    fn give_part(&mut self, part: u8, held: Part)
        requires part { part < PARTITIONS }
        requires held { IsSome (held_part (seat self.old) part) }
        requires range { AreOwn part held }
        requires rule { may_give self.old part held }
        ensures shares { shares self.old self.new }
        ensures seat { seat self.new ≡ gave_part part held (seat self.old) }
        ensures gives { (cache : Cache) → gives self.old cache → IsPart cache part held → gives self.new cache }
        ensures rules { (k : ℕ) (other : PartData) → k ≢ part → may_give self.old k other → may_give self.new k other }
        ensures waits { waits self.new ≡ waits self.old };

    /// Takes the device, whose turn the handle doesn't hold. `None` comes only where another handle held it.
    fn take_device(&mut self) -> Option<Device<V>>
        requires free { (seat self.old).device ≡ None }
        ensures shares { shares self.old self.new }
        ensures seat { IfSome result (λ taken. seat self.new ≡ took_device taken (seat self.old)) }
        ensures told { IfSome result (λ taken. IsTold (λ told. taken ≡ told.device) (seat self.old)) }
        ensures faults { IfSome result (λ taken. (seat self.old).last.faults ≤ V.faults taken.volume) }
        ensures last { IfSome result (λ taken. (seat self.old).engine ≡ true → (taken.log ≡ (seat self.old).last.log)
            × (taken.halted ≡ (seat self.old).last.halted)
            × (V.log_faults taken.volume ≡ (seat self.old).last.log_faults)) }
        ensures gives { IfSome result (λ taken. (cache : Cache) → gives self.old cache
            → (now : Cache) × SameHeld (seat self.old) cache now × gives self.new now
            × GivesCache taken.log taken.halted (V.story taken.volume) (V.files taken.volume) now) }
        ensures rule { IfSome result (may_return self.new) }
        ensures homes { IfSome result (λ taken. (k page : ℕ) (content : List ℕ) (held : PartData) (device : Device V)
            (done : Result Unit Failed) → held_part (seat self.old) k ≡ Some held → page % PARTITIONS ≡ k
            → dirty_of held page ≡ Some (unwritten content) → (device.log ≡ taken.log)
            × (device.halted ≡ taken.halted) → V.faults taken.volume ≤ V.faults device.volume
            → V.log_faults device.volume ≡ V.log_faults taken.volume
            → Tells (WritesHome page content done) (V.story taken.volume) (V.story device.volume)
            → Tells (WritesHomeRead page content done) (V.files taken.volume) (V.files device.volume)
            → may_return self.new device) }
        ensures reads { IfSome result (λ taken. (device : Device V) → (device.log ≡ taken.log)
            × (device.halted ≡ taken.halted) → V.faults taken.volume ≤ V.faults device.volume
            → IsOnlyRead V.files V.story V.moment V.log_faults taken.volume device.volume
            → may_return self.new device) }
        ensures settles { IfSome result (λ taken. (device : Device V) (hand : List (Option PartData))
            (done : Result Unit Failed) → Settles done (seat self.old).parts hand
            (seen V.story V.files V.faults V.log_faults taken) (seen V.story V.files V.faults V.log_faults device)
            → may_return self.new device) }
        ensures logs { IfSome result (λ taken. (seat self.old).engine ≡ true → (device : Device V)
            (hand : List (Option PartData)) → LogWork (seat self.old).parts hand
            (seen V.story V.files V.faults V.log_faults taken) (seen V.story V.files V.faults V.log_faults device)
            → may_return self.new device) }
        ensures rules { (k : ℕ) (held : PartData) → may_give self.old k held → may_give self.new k held }
        ensures later { waits self.old ≤ waits self.new }
        ensures waits { IfSome result (λ taken. waits self.new ≡ waits self.old) }
        ensures busy { IfNone result (Rose (waits self.old) (waits self.new)) }
        ensures same { IfNone result (seat self.new ≡ seat self.old) }
        ensures goes_on { IfNone result ((cache : Cache) → gives self.old cache → gives self.new cache) };

    /// Gives back the device, whose turn the handle holds. Log work is the engine's alone.
    fn give_device(&mut self, device: Device<V>)
        requires taken { IsSome (seat self.old).device }
        requires rule { may_return self.old device }
        ensures shares { shares self.old self.new }
        ensures seat { seat self.new
            ≡ gave_device device (last_of V.faults V.log_faults device) (seat self.old) }
        ensures gives { (cache now : Cache) → gives self.old cache → OnlyHeld (seat self.old) cache now
            → GivesCache device.log device.halted (V.story device.volume) (V.files device.volume) now
            → gives self.new now }
        ensures rules { (k : ℕ) (held : PartData) → may_give self.old k held → may_give self.new k held }
        ensures marks { (k page : ℕ) (content : List ℕ) (held : PartData) → may_give self.old k held
            → dirty_of held page ≡ Some (unwritten content)
            → IfSome (V.files device.volume) (λ files. IsHome page content files.pages)
            → may_give self.new k (marked held page content) }
        ensures keeps { (k page : ℕ) (content : List ℕ) (held : PartData) → may_give self.old k held
            → page % PARTITIONS ≡ k → content_at held page ≡ None
            → IfSome (V.files device.volume) (λ files. IsHome page content files.pages)
            → may_give self.new k (kept held page content) }
        ensures settles { (taken : Device V) (hand : List (Option PartData)) (done : Result Unit Failed)
            → (seat self.old).device ≡ Some taken → Settles done (seat self.old).parts hand
            (seen V.story V.files V.faults V.log_faults taken) (seen V.story V.files V.faults V.log_faults device)
            → EachHeld (may_give self.old) (seat self.old).parts → EachHeld (may_give self.new) hand }
        ensures logs { (taken : Device V) (hand : List (Option PartData)) → (seat self.old).engine ≡ true
            → (seat self.old).device ≡ Some taken → LogWork (seat self.old).parts hand
            (seen V.story V.files V.faults V.log_faults taken) (seen V.story V.files V.faults V.log_faults device)
            → EachHeld (may_give self.old) (seat self.old).parts → EachHeld (may_give self.new) hand }
        ensures waits { waits self.new ≡ waits self.old };

    /// How many takes found their turn held. It never falls.
    fn waits(&self) -> u64
        ensures { result ≡ waits self.now };

    /// A handle is of its own sharing.
    ghost shares_itself: { (frames : Self) → shares frames frames };

    /// There are eight partitions.
    ghost eight: { (frames : Self) → (length (seat frames).parts ≡ PARTITIONS)
        × IsTold (λ told. length told.parts ≡ PARTITIONS) (seat frames) };

    /// The device that it tells gives the pages.
    ghost told_gives: { (frames : Self) (cache : Cache) → gives frames cache → IsTold (λ told. GivesCache
        told.device.log told.device.halted (V.story told.device.volume) (V.files told.device.volume) cache)
        (seat frames) };

    /// And of one with those that it shares with.
    ghost shares_on: { (a b c : Self) → shares a b → shares b c → shares a c };
}
