//! The definitions of runs, which the contracts of other crates cite: what a statement means to its session, and which
//! answers the lines of a script may have, one after the other. The crate has no code.
#![tactic(auto)]
