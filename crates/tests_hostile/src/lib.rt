#![tactic(auto)]
//! Hostile use, as the gate runs it: each device call of a run fails in turn, and each table of a cache is filled.
//!
//! Floor: outside.

#[cfg(test)]
mod checks;
#[cfg(test)]
mod fault_tests;
#[cfg(test)]
mod table_tests;
