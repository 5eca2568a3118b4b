//! Tests of the device's crates, of the structures over pages and of the cache, and nothing else: bytes and pages by values
//! worked out by hand, faults at a call, and what crashes leave. They need no data and no engine.
#![tactic(auto)]

#[cfg(test)]
mod tests;
