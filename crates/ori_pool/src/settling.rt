// Written pages become clean.
ghost use Rattle.std.specs.Prelude.{◌≡◌, OnOk, OnErr};
ghost use Rattle.ori_volume.specs.Causes.{HasCause};
ghost use Rattle.ori_volume.specs.Story.{Tells};
ghost use Rattle.ori_cover.specs.Dirty.{Dirty, AreSettled};
ghost use Rattle.ori_cover.specs.Reading.{SyncsHomesRead};
ghost use Rattle.ori_cover.specs.Steps.{SyncsHomes};
ghost use Rattle.ori_pool.specs.Held.{dirty_with, HoldsAll, AreTended};

use crate::{Device, Hand};
use ori_volume::{Failed, Volume};

/// Makes the homes firm, after which no page that was written is dirty. Takes no memory but what clean pages may use.
/// After `Failed` each page is as it was, and nothing is halted.
pub fn settle<V: Volume>(device: &mut Device<V>, hand: &mut Hand) -> Result<(), Failed>
    requires { HoldsAll hand.old.parts.items }
    ensures files { V.files device.new.volume ≡ V.files device.old.volume }
    ensures crash { Tells (SyncsHomes result) (V.story device.old.volume) (V.story device.new.volume) }
    ensures read { Tells (SyncsHomesRead result) (V.files device.old.volume) (V.files device.new.volume) }
    ensures settled { OnOk result ((others : Dirty) → AreSettled (dirty_with others hand.old.parts.items)
        (dirty_with others hand.new.parts.items)) }
    ensures tended { AreTended hand.old.parts.items hand.new.parts.items }
    ensures err { OnErr result (hand.new ≡ hand.old) }
    ensures same { (device.new.log ≡ device.old.log) × (device.new.halted ≡ device.old.halted) }
    ensures faults { HasCause (V.faults device.old.volume) (V.faults device.new.volume) result }
    ensures log_faults { V.log_faults device.new.volume ≡ V.log_faults device.old.volume }
{
    device.sync_homes()?;
    hand.settle();
    Ok(())
}
