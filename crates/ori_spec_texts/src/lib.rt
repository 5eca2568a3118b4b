//! The definitions of texts, which the contracts of other crates cite: the lines of the input, the statements that can
//! be written so far, rows as JSON, and the lines of replies and histories. The crate has no code.
#![tactic(auto)]
