//! Turns over the cache: eight partitions and the device, each of which is taken, used and given back.
//!
//! A handle meets [`Frames`]: it says what a taken partition and a taken device are to each other, so that a call over
//! frames needs to know of no other handle. [`Owned`] is the only handle of its turns, and finds each of them free.
#![tactic(auto)]

mod checkpointing;
mod committing;
mod flushing;
mod frames;
mod known;
mod opening;
mod owned;
mod settling;
mod slot;
mod starting;
mod taking;

pub use checkpointing::checkpoint;
pub use committing::commit;
pub use flushing::flush_one;
pub use frames::Frames;
pub use known::Known;
pub use opening::{Opening, StartFault};
pub use owned::Owned;
pub use settling::settle;
pub use slot::Slot;
pub use starting::open;
