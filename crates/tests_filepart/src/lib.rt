#![tactic(auto)]
//! The tests of `filepart`. They are a crate of their own, since a crate with tests is proved once more beside them.
//!
//! Floor: outside.

#[cfg(test)]
mod checks;
#[cfg(test)]
mod disk_tests;
#[cfg(test)]
mod owner;
#[cfg(test)]
mod tests;
