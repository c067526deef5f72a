#![tactic(auto)]
//! A cache, its device and the requests between them, driven one step at a time.
//!
//! Each `step` of a `World` is a step of a run (crate `runs`), and so the theorems on runs hold of it: reads are right, a
//! clean sync means that the device has the file, and nothing is ever stuck.
//!
//! `world` has the cache with its device, `step` what may be asked of it, `answers` what it answers, `jobs` the jobs in
//! flight, and `begun` what comes of the cache's calls that begin or end a request.
//!
//! Floor: driven.

pub mod answers;
mod begun;
mod jobs;
pub mod step;
pub mod world;

pub use step::Step;
pub use world::World;
