//! The definitions of data, which the contracts of the other crates cite: values, records, bases, transactions and what
//! they make, refusals, views, the state of a keeper. They speak of plain lists and numbers: no page, cache, tree or
//! plan stands in them. The crate has no code beside the laws of its definitions.
#![tactic(auto)]

mod laws;

pub use laws::{fresh_law, overlay_law, put_law, sound_law, version_law, without_law};
