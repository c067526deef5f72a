#![tactic(auto)]
//! The tests of `held`. They are a crate of their own, since a crate with tests is proved once more beside them.
//!
//! Floor: outside.

#[cfg(test)]
mod checks;
#[cfg(test)]
mod seat_tests;
#[cfg(test)]
mod tests;
#[cfg(test)]
mod trail_tests;
