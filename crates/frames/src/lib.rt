#![tactic(auto)]
//! The bytes of cached pages in frames, and the two page lists by which the first to go is found.
//!
//! Each call is an operation on two lists of frames without doubles, on the set of referenced frames, and on an owner and
//! a page of bytes for each frame (`specs/Table.antt`). All memory is taken when the frames are made. Every other call
//! takes none, and all but `age` and `scan` take constant time: but after three times as many comings to the head of a
//! list as there are frames, the one that comes waits for a pass over four turns a frame.
//!
//! `frames` has the table, `lists` the two lists over `ring`'s rows of `link`s, `order` the oldest frame of each that waits, `bit_set` the
//! least number of a set over `bits`, and `rows` the bytes.
//!
//! Floor: tables.

mod bit_set;
mod bits;
mod frames;
mod link;
mod lists;
mod order;
mod ring;
mod rows;

pub use frames::Frames;
