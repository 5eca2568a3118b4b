// The place of a turn's value.
ghost use Rattle.std.specs.Prelude.{◌≡◌, Some};
ghost use Rattle.ori_turns.specs.Slots.{home_of, held_of, shown};
ghost use Rattle.ori_turns.specs.declared.slot.Slot.TheVariants.{Home};

use std::mem;
use std::snapshot::Snapshot;

/// The place of a value that is taken and given back.
#[derive(Drop)]
pub enum Slot<T: Drop> {
    /// The value is here.
    Home(T),
    /// The value is taken. Contracts still see it as it was then.
    Out(Snapshot<T>),
}

impl<T: Drop> Slot<T> {
    /// Takes the value, where it is here.
    pub fn take(&mut self) -> Option<T>
        ensures value { result ≡ home_of self.old }
        ensures out { held_of self.new ≡ Some (shown self.old) }
        ensures shown { shown self.new ≡ shown self.old }
    {
        let Slot::Home(value) = self else {
            return None;
        };
        let out = Slot::Out(Snapshot::of(value));
        match mem::replace(self, out) {
            Slot::Home(value) => Some(value),
            Slot::Out(_) => None,
        }
    }

    /// Puts a value here.
    pub fn give(&mut self, value: T)
        ensures { self.new ≡ Home value }
    {
        *self = Slot::Home(value);
    }
}
