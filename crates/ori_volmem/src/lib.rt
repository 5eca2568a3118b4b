//! The outside in memory: a disk that tells its whole story and byte streams, each of which fails at the calls that it
//! is told to, and a disk that tells its bytes alone.
#![tactic(auto)]

mod change;
mod draws;
mod image;
mod memory_disk;
mod memory_file;
mod memory_streams;
mod memory_volume;
mod note;
mod plain_file;
mod plain_volume;
mod span;

pub use image::Image;
pub use memory_streams::{MemSink, MemSource};
pub use memory_volume::MemVolume;
pub use plain_volume::PlainVolume;
