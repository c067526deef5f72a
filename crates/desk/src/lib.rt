#![tactic(auto)]
//! A service with its open handles in one, each by a number, for a caller that can keep no handle, as one in C. A read or a write may be
//! of any length.
//!
//! `desk` has the calls on files and handles, `long` the reads and writes of more than 16 pages.
//!
//! Floor: services.

mod desk;
mod long;

pub use desk::{Desk, HandleNo};
