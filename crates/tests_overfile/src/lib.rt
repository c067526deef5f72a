#![tactic(auto)]
//! The tests of `overfile`: what is answered, what the file has then, and what is refused.
//!
//! Floor: outside.

#[cfg(test)]
mod checks;
#[cfg(test)]
mod tests;
