//! Clusters: the records of one class, each at a position, in chunks on slots pages.
//!
//! A contract sees a cluster as a map from positions to bytes. A position is given once. The pages stand for a cluster
//! by one definition, which the crates above cite.
#![tactic(auto)]

mod chunk;
mod dropping;
mod placing;
mod reading;
mod replacing;
mod slots;
mod storing;
mod walking;

pub use dropping::remove;
pub use reading::read;
pub use replacing::replace;
pub use storing::create;
pub use walking::{found, next_after};

/// The greatest length of a record, in bytes.
pub const MAX_BYTES: u32 = 1 << 20;
