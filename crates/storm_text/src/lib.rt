#![tactic(auto)]
//! The words of a storm: `options` says what it is asked for, `findings` what is found of it, and `told` what it prints.
//!
//! Floor: programs.

pub mod findings;
pub mod options;
pub mod told;

pub use findings::{Findings, Keeping, Refused};
pub use options::{Options, ShardOptions};
pub use told::{Fault, say_usage, tell};
