#![tactic(auto)]
//! The tests of `errseq` and `errboard`. They are a crate of their own, since a crate with tests is proved once more beside them.
//!
//! Floor: outside.

#[cfg(test)]
mod board_tests;
#[cfg(test)]
mod checks;
#[cfg(test)]
mod word_tests;
