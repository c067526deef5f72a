#![tactic(auto)]
//! Where the cursor of an open file may be put.
//!
//! Floor: driven.

mod seek;

pub use seek::Seek;
