//! The pages of rows: what a list of pages is to a table of rows, and what images that hold such pages open to.
//! Definitions and lemmas alone.
#![tactic(auto)]

/// Nothing: the crate has no code.
pub fn nothing() {}
