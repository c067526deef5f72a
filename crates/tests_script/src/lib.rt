#![tactic(auto)]
//! The tests of `script`. They are a crate of their own, since a crate with tests is proved once more beside them.
//!
//! Floor: outside.

#[cfg(test)]
mod checks;
#[cfg(test)]
mod row_tests;
#[cfg(test)]
mod tests;
