//! The store's engine over one volume: the rows of a database in memory, and the cache of the pages that hold them.
#![tactic(auto)]

mod appending;
mod committing;
mod doubt;
mod engine;
mod fault;
mod kept;
mod laws;
mod opened;
mod prepared;
mod rows;
mod sizes;
mod starting;
mod tending;

pub use doubt::Doubt;
pub use engine::{Ended, Engine, Unopened};
pub use laws::one_base_law;
