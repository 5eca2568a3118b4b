//! Records as bytes, written and read: the version, a byte 0, the class, an entry for each field, a byte 0, and the
//! values.
//!
//! Contracts say by `Spells` which bytes spell a record.
#![tactic(auto)]

mod bag_field;
mod bag_fields;
mod bags;
mod entries;
mod fault;
mod flat;
mod heads;
mod kinds;
mod laws;
mod leaves;
mod links;
mod nested;
mod own;
mod own_values;
mod put;
mod reader;
mod record;

pub use bag_field::BagField;
pub use bag_fields::{BagFieldList, bag_names_rise};
pub use fault::RecordFault;
pub use laws::{one_spelling, spelled_record, spelled_writable, writable_record};
pub use record::{read, write};
