// What is known of the device's log while its turn isn't held.
ghost use Rattle.ori_turns.specs.Seats.{last_of};
ghost use Rattle.ori_turns.specs.Knowing.{Knows};

use ori_pool::Device;
use ori_volume::Volume;

/// What the engine knows of its device's log while another may hold the device.
#[derive(Clone, Copy)]
pub struct Known {
    /// The number of records in the log, or 0 where there is none.
    pub tail: u64,
    /// Whether a commit makes a checkpoint first.
    pub due: bool,
    /// How many calls of the volume had failed as log work failed, where it has failed since the opening.
    pub halted: Option<u64>,
}

impl Known {
    /// As it is of a device whose turn is held.
    pub fn of<V: Volume>(device: &Device<V>) -> Known
        ensures { Knows (last_of V.faults V.log_faults device.now) result }
    {
        Known {
            tail: device.tail(),
            due: device.is_due(),
            halted: device.halted(),
        }
    }
}
