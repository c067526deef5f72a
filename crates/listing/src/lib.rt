#![tactic(auto)]
//! A catalog of files that a device has already, from two lists as a program keeps them: the files' sizes, and the extents of all files.
//!
//! Floor: tables.

mod list;

pub use list::{FileExtent, Unfit, catalog_of};
