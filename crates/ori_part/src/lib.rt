//! A partition of the cache. It holds dirty pages until they are written and settled, and some clean ones.
//!
//! A contract sees a [`Part`] as its places, in the order in which they were made, and its clean pages, the last used
//! first. A place holds a dirty page or none, and is made before the page is, so that what can fail is done first.
#![tactic(auto)]

mod part;
mod place;

pub use part::Part;
pub use place::Place;
