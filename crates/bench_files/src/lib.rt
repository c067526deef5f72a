#![tactic(auto)]
//! The calls on files, as rows that are timed.
//!
//! `files` has the rows of a file whose pages are all cached, and `paths` those where pages come and go: over that file, over one that
//! is `larger` than its cache, and over a `bare` cache without a service. `open_file` has what a file is read and written through, and
//! `rounds` the rounds of a row.
//!
//! Floor: outside.

pub mod bare;
pub mod files;
pub mod larger;
mod open_file;
pub mod paths;
mod rounds;

pub use open_file::OpenFile;
pub use rounds::{time_file_row, time_path};
