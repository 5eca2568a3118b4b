//! Position maps: a directory page and its map pages, which have a place for each live position of a cluster.
//!
//! A contract sees a map as its entries, one for each position that was given, in the order of the positions. A
//! position is given once: [`push`] gives the next one, and [`set`] changes the place of a live one or says that it is
//! gone. The pages stand for a map by one definition, which the crates above cite.
#![tactic(auto)]

mod directory;
mod fault;
mod finding;
mod looking;
mod place;
mod reading;
mod scanning;
mod writing;

pub use fault::PosFault;
pub use looking::{Seen, Told, get, look, next, tell};
pub use place::Place;
pub use reading::named_page;
pub use scanning::live_from;
pub use writing::{found, push, set, set_current};
