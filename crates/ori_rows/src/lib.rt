//! Rows: the records of cluster 1 by their positions, and what a transaction makes of them and of their pages.
//! Definitions and lemmas alone.
#![tactic(auto)]

/// Nothing: the crate has no code.
pub fn nothing() {}
