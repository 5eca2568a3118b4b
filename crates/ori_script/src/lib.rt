//! The run of a script: lines in, sessions over one database, answers out.
//!
//! [`run_script`] opens a volume, answers the lines of a source one after the other to a sink, and gives the volume
//! back with a report. A contract sees the report as plain data (specs/Reports), and specs/Script says what a run is.
#![tactic(auto)]

mod answering;
mod database;
mod opening;
mod past;
mod reopening;
mod run;
mod script;
mod sessions;
mod sole;
pub mod status;

pub use answering::answer;
pub use database::Database;
pub use past::Past;
pub use script::{no_report, run_script};
pub use sessions::Sessions;
pub use sole::Sole;
