#![tactic(auto)]
//! A box as its pointer, to be kept where a box can't be: in a struct that C holds.
//!
//! Floor: ground.

pub mod loose;

pub use loose::Loose;
