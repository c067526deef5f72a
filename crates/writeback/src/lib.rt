#![tactic(auto)]
//! What a page cache has under way: the requests in flight, the syncs in progress, and which page is written next.
//!
//! `Requests` is a finite map from serials to the machine's requests, and `Syncs` one from numbers to its syncs, in two
//! tables of a fixed size that take no memory (`specs/Flights.antt`, `specs/Slots.antt`). Each call is one equation on its
//! map. The picks read and tag a `Mapping` (`specs/Picks.antt`).
//!
//! `requests` has the table of requests, `syncs` that of the syncs, `picks` what is written next.
//!
//! Floor: tables.

mod picks;
mod requests;
mod syncs;

pub use picks::{
    SyncStep, begin_write, end_write, flush_pick, sync_begin, sync_pick, sync_step, write_through,
};
pub use requests::{Request, Requests};
pub use syncs::{Progress, Syncs};
