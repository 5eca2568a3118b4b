//! The records of a database in memory, by their positions, and what a transaction makes of them.
#![tactic(auto)]

mod images;
mod outcome;
mod stage;
mod table;

pub use images::{head_page, record_page};
pub use outcome::Outcome;
pub use stage::Staged;
pub use table::Table;
