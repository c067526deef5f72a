#![tactic(auto)]
//! Which page has which block of a device, and which blocks requests in flight hold.
//!
//! A block that a page has, or that is held, is never given out. A page that is cut off gives its block back at once, but a
//! held block only at its release: a write that is still on its way must not meet another page's bytes. Each call is its
//! change of two finite maps, and what is free follows from them.
//!
//! `block_map` is the map as its caller sees it. `spots` keeps the pages' blocks in a marked array, under the keys of `keys`,
//! which are as narrow as the pages with a block allow; `held` keeps the held ones in a table of 64 that `table` looks up; the
//! numbers of the blocks in use are an `IdAlloc`'s.
//!
//! Floor: tables.

mod block_map;
mod held;
mod keys;
mod spots;
mod table;

pub use block_map::BlockMap;
pub use spots::Placed;
