#![tactic(auto)]
//! Numbers that are given out and taken back: the lowest unused of a range, or the next in turn (the IDA and the IDR of
//! Linux).
//!
//! The numbers in use are a finite set, and each call is its change of that set. The lowest unused number is found by the
//! height of a tree of nodes, however many are used: a marked array has a bitmap for 32 numbers at each index, and a mark
//! where the bitmap has room. Behind a full bitmap there always stands another, so the lowest marked one after it is the
//! first with an unused number. Giving a number back takes no memory, and where no number is used no node is kept.
//!
//! `id_alloc` is the allocator as its caller sees it. `search` finds numbers, `floor` keeps where the used numbers at the
//! bottom end, `changes` uses numbers and gives them back, `bitmaps` keeps the bitmaps in an array, and `bits` has single
//! bits.
//!
//! Floor: tables.

mod bitmaps;
mod bits;
mod changes;
mod floor;
mod id_alloc;
mod search;

pub use id_alloc::IdAlloc;
