#![tactic(auto)]
//! A marked array: values by ranges of indexes, each with three marks, over radix nodes (the XArray of Linux's core-api).
//!
//! Each call is its case on a finite map of ranges (`specs/MarkedArray.antt`). A range of order k is 2^k indexes, aligned.
//!
//! `array` has the array as its caller sees it, `entries` a walk over it, and `entry` what they speak of. `ranged` is the
//! same over the nodes, where an entry is a leaf and its siblings: `ranged/walks` has the searches, `ranged/changes` what puts
//! and marks, and `ranged/split` makes one into parts.
//! `proofs/Singles.antt` is for callers whose entries have one index each.
//!
//! Floor: tables.

mod array;
mod entries;
mod entry;
mod ranged;

pub use array::{MAX_VALUE, XArray};
pub use entries::Entries;
pub use entry::{Found, Mark, Marked, Marks};
