#![tactic(auto)]
//! The tree under the XArray: entries with three marks at slots of levels, in nodes of 64 slots that one slab keeps.
//!
//! Slots are a map by level and place; a mark's bit above is set exactly where an entry below has the mark; `next_set`
//! and `next_entry` give the lowest; no node is empty; after `reserve_path` the next put there meets no want of memory.
//!
//! `nodes` is the tree as its caller sees it, and `entry` what it speaks of. `tree` walks, `growth` makes nodes and
//! entries, `parts` makes several entries of one, `removal` takes them away, `marks` and `next` keep the bits and search
//! by them, and `twig` goes from entry to entry. `node`, `slot` and `bitmap` are the layout. The words of the contracts are
//! in `specs/Entries.antt`, `specs/Parts.antt` and `specs/Twigs.antt`; `specs/Tree.antt` is for the proofs alone.
//!
//! Floor: tables.

mod bitmap;
mod entry;
mod growth;
mod marks;
mod next;
mod node;
mod nodes;
mod parts;
mod removal;
mod slot;
mod tree;
mod twig;

pub use entry::{Ahead, Cursor, Entry, Near, Onward, Position, Twig, Walk};
pub use nodes::Nodes;
pub use tree::{first_at, place_at};
