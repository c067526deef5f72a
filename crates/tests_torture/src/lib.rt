#![tactic(auto)]
//! The tests of `torture`: what it prints and its status, that rounds agree, and that a difference is found and cut down to the fewest calls.
//!
//! Floor: outside.

#[cfg(test)]
mod checks;
#[cfg(test)]
mod tests;
