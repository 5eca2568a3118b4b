//! The outside of the store, as traits with what each call does to what they hold: a disk of four files, byte streams,
//! and the places where a worker may be held.
//!
//! A [`Volume`] that tells keeps a story: the disk now and at each earlier moment, from which follows what a crash may
//! leave. It may tell its bytes alone, or nothing. A call answers [`Failed`] only where the count of faults rose in it.
//! Nothing else is known of a failure's reason.
#![tactic(auto)]

mod failed;
mod file;
mod gate;
mod streams;
mod volume;

pub use failed::Failed;
pub use file::FileNo;
pub use gate::{Gate, GateStep, NoGate};
pub use streams::{Sink, Source};
pub use volume::Volume;
