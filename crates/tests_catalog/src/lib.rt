#![tactic(auto)]
//! The tests of `catalog`. They are a crate of their own, since a crate with tests is proved once more beside them.
//!
//! `rows` has what the others say of a catalog.
//!
//! Floor: outside.

#[cfg(test)]
mod checks;
#[cfg(test)]
mod extents;
#[cfg(test)]
mod files;
#[cfg(test)]
mod refusals;
#[cfg(test)]
mod rows;
