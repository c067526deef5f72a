#![tactic(auto)]
//! A file of the system as a device, with a file on it that a service adopts, changes and gives back.
//!
//! `options` says what is asked for, `fault` why there is no service, `begin` how one begins, `desk` makes the calls of a line, and `run` goes over
//! the lines, and syncs at their end.
//!
//! Floor: programs.

mod begin;
mod desk;
mod fault;
mod options;
mod run;

pub use desk::Desk;
pub use fault::Fault;
pub use options::Options;
pub use run::{play, run_over};
