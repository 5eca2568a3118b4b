//! What a transaction does to a base, and what refuses it: one set of functions for an engine, whose `Records` may be
//! rows in memory or what a store has read, for a session, which renames the links of its answers, and for bases held
//! in memory.
#![tactic(auto)]

mod applying;
mod conflicts;
mod dangling;
mod deciding;
mod given;
mod giving;
mod history;
mod laying;
mod links;
mod records;
mod refusing;
mod relinking;
mod renamings;
mod rules;
mod settle;
mod writing;

pub use deciding::{Decided, decide};
pub use given::fresh;
pub use history::{apply, replay};
pub use laying::overlay;
pub use records::Records;
pub use refusing::refusal;
pub use relinking::relink;
pub use renamings::{Renaming, Renamings, is_temporary};
pub use writing::Written;
