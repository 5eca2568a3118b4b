//! The model of a database as the code holds it: bases, records, changes, transactions, entries and replies; and the
//! traits through which statements read a database and commit to it.
//!
//! Contracts see each as plain data (specs/Data), and a list as the list of what it holds.
#![tactic(auto)]

mod bags;
mod base;
mod change;
mod entry;
mod fault;
mod keeper;
mod outcome;
mod reader;
mod record;
mod reply;
mod schema;
mod sizes;

pub use bags::{BagName, BagNameList, BagView, Dir};
pub use base::Base;
pub use change::{Change, ChangeList, Tx};
pub use entry::{Definition, Done, Entry, EntryList, PlacedList};
pub use fault::{CommitFault, DefineFault, ReadFault, Rule};
pub use keeper::Keeper;
pub use outcome::{Outcome, Plan, Report};
pub use reader::Reader;
pub use record::{Stored, StoredList};
pub use reply::{Refusal, Reply, RidPairList, Row, RowList, Told};
pub use schema::{Class, ClassList, IndexDef, IndexDefList, Property, PropertyList, Schema};
pub use sizes::{change_bytes, entry_bytes, record_bytes};
