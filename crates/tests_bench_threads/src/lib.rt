#![tactic(auto)]
//! The tests of `bench_threads`: what the rows time is what they say. They are a crate of their own, since a crate with tests is proved
//! once more beside them.
//!
//! Floor: outside.

#[cfg(test)]
mod checks;
#[cfg(test)]
mod sync_tests;
#[cfg(test)]
mod tests;
