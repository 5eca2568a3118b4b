//! Tests of the crates below, and nothing else: faults at a call, what crashes leave, calls that no script reaches, and
//! vectors from outside. Whole runs are the scripts of examples/; the device, the structures over pages and the cache
//! have tests of their own in `ori_device_tests`.
#![tactic(auto)]

#[cfg(test)]
mod tests;
