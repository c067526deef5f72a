#![tactic(auto)]
//! Histories that were tampered with: of a storm's own, with one change each, the replay tells exactly those that are not plain files'.
//!
//! `rows` has a history as rows that can be changed, `change` draws a change, and `judge` says by bytes in vectors whether rows are a
//! history of plain files.
//!
//! Floor: outside.

#[cfg(test)]
mod change;
#[cfg(test)]
mod checks;
#[cfg(test)]
mod judge;
#[cfg(test)]
mod rows;
#[cfg(test)]
mod tests;
