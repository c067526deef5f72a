#![tactic(auto)]
//! The tests of `filesvc`. They are a crate of their own, since a crate with tests is proved once more beside them.
//!
//! Floor: outside.

#[cfg(test)]
mod checks;
#[cfg(test)]
mod file_tests;
#[cfg(test)]
mod stranger_tests;
#[cfg(test)]
mod tests;
