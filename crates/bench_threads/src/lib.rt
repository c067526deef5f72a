#![tactic(auto)]
//! The calls on what several threads share, as rows that are timed.
//!
//! `trails` has the rows of the trail, `holds` those of the locked state, `jobs` those of the ring, `reads` those of cached reads, `blocks`
//! those of a device over a file, and `syncs` those of syncs. `cached` has what the reads of a shared cache are compared with, `readers`
//! the threads that read, `numbers` a cheap generator, and `rounds` the rounds of a row.
//!
//! Floor: outside.

pub mod blocks;
mod cached;
pub mod holds;
pub mod jobs;
pub mod numbers;
mod readers;
pub mod reads;
mod rounds;
pub mod syncs;
pub mod trails;

pub use rounds::{ROUNDS, time_disk_row, time_trail_row};
