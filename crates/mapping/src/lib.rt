#![tactic(auto)]
//! One file's cached pages, by page number, with their tags: the address space of Linux's page cache.
//!
//! Each call is its case on a finite map of tagged pages (`specs/Pages.antt`), and how many pages have a tag is a count of
//! that map, read in one step.
//!
//! `mapping` has the map over a marked array, `entry` a page as the array's entry, `page` what a call tells of a page, `totals`
//! the counters.
//!
//! Floor: tables.

mod entry;
mod mapping;
mod page;
mod totals;

pub use mapping::{MAX_PAGES, Mapping};
pub use page::{FoundPage, MappedPage};
pub use totals::Totals;
