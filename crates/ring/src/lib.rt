#![tactic(auto)]
//! The ring of jobs: 64 places, through which jobs go from those who begin requests to workers who carry them out. Each is in a parcel,
//! with the deed of its block.
//!
//! Some one order of the parcels that all passes pushed is one order of those that they popped, followed by what the ring
//! holds: a push adds at the back and a pop takes the front, each in one step (`Kept` of `specs/Order.antt`). Each job in
//! it is one of its cache, with what the device call needs, and its deed is of the cache's deeds, so that no worker tests it
//! (`IsParcelFor` of `specs/Order.antt`).
//!
//! `log` has what a pass knows and what each step tells, `ring` the calls.
//!
//! Floor: driven.

mod log;
pub mod ring;

pub use ring::{Ring, RingPass};
