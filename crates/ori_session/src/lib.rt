//! What a session does with the text of a statement: it answers it over the records that the session sees, or commits
//! what it changes.
#![tactic(auto)]

mod changing;
mod committing;
mod exec;
mod hand;
mod reading;
mod replies;
mod rows;
mod session;
mod stage;

pub use session::Session;
pub use stage::{Pending, Stage};
