#![tactic(auto)]
//! The tests of `bench_timing`, `bench_calls` and `bench_files`: what the rows compute, since a row that skips its work would be fast. They are
//! a crate of their own, since a crate with tests is proved once more beside them.
//!
//! Floor: outside.

#[cfg(test)]
mod call_tests;
#[cfg(test)]
mod checks;
#[cfg(test)]
mod file_tests;
