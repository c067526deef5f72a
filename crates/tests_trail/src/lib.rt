#![tactic(auto)]
//! The tests of `trail`. They are a crate of their own, since a crate with tests is proved once more beside them.
//!
//! Floor: outside.

#[cfg(test)]
mod checks;
#[cfg(test)]
mod cut_tests;
#[cfg(test)]
mod room_tests;
#[cfg(test)]
mod tests;
