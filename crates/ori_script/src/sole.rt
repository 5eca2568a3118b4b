// The only handle of a volume's turns, as a run needs it.
ghost use Rattle.std.specs.Prelude.{◌≡◌, true, None, IfOk, IfErr, IsSomeAnd};
ghost use Rattle.ori_turns.specs.Seats.{HoldsNothing};
ghost use Rattle.ori_engine.specs.CacheRows.{TellsAsGiven};
ghost use Rattle.ori_engine.specs.Openings.{GivesAll};
ghost use Rattle.ori_engine.specs.Reopening.{told_now};

use ori_bytes::NoMemory;
use ori_turns::{Frames, Owned};
use ori_volume::Volume;
use std::alloc::Global;

/// The only handle of its turns: none of them is ever waited for, and it has the volume.
pub trait Sole<V: Volume>: Frames<V> {
    /// The volume, as it is or as it was taken.
    ghost held: { Self → V };

    /// The turns of a volume that isn't open, whose pages are those that the files hold. If out of memory the volume
    /// comes back.
    fn of(alloc: Global, volume: V) -> Result<Self, (V, NoMemory)>
        ensures held { IfOk result (λ turns. held turns ≡ volume) }
        ensures free { IfOk result (λ turns. HoldsNothing (Self.seat turns)) }
        ensures engine { IfOk result (λ turns. (Self.seat turns).engine ≡ true) }
        ensures closed { IfOk result (λ turns. (Self.seat turns).last.log ≡ None) }
        ensures gives { IfOk result (λ turns. GivesAll (Self.gives turns)
            (told_now (V.files volume) (V.story volume))) }
        ensures back { IfErr result (λ back. back.0 ≡ volume) };

    /// The volume, where no turn is held.
    fn volume(self) -> V
        requires { HoldsNothing (Self.seat self) }
        ensures { result ≡ held self };

    /// It tells of that volume.
    ghost tells: { (turns : Self) → IsSomeAnd (Self.seat turns).told (λ told. told.device.volume ≡ held turns) };

    /// It knows that volume's counts.
    ghost counts: { (turns : Self) → ((Self.seat turns).last.faults ≡ V.faults (held turns))
        × ((Self.seat turns).last.log_faults ≡ V.log_faults (held turns)) };

    /// What it tells is as it was given.
    ghost as_given: { TellsAsGiven Self.seat Self.shares Self.gives };

    /// No turn is waited for.
    ghost alone: { (turns : Self) → Self.waits turns ≡ 0 };
}

impl<V: Volume> Sole<V> for Owned<V> {
    ghost use Rattle.std.specs.Prelude.{refl};
    ghost use Rattle.ori_turns.specs.Slots.{shown};
    ghost use Rattle.ori_script.specs.Owning.{owned_as_given};

    ghost held = { λ turns. (shown turns.device).volume };

    ghost tells = { λ turns. refl };

    ghost counts = { λ turns. (refl, refl) };

    ghost as_given = { owned_as_given V.files V.story V.faults V.log_faults (λ turns. turns.parts.items)
        (λ turns. turns.device) };

    ghost alone = { λ turns. refl };

    fn of(alloc: Global, volume: V) -> Result<Owned<V>, (V, NoMemory)> {
        Owned::new(alloc, volume)
    }

    fn volume(self) -> V {
        self.into_volume()
    }
}
