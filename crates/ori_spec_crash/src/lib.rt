//! The definitions of crashes, which the contracts of other crates cite: what a crash at any moment of a run leaves,
//! where it is known which base the files open to. The crate has no code.
#![tactic(auto)]
