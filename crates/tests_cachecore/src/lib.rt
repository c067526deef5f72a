#![tactic(auto)]
//! The tests of `cachecore`. They are a crate of their own, since a crate with tests is proved once more beside them.
//!
//! Floor: outside.

#[cfg(test)]
mod checks;
#[cfg(test)]
mod page_life_tests;
#[cfg(test)]
mod sync_tests;
#[cfg(test)]
mod tests;
