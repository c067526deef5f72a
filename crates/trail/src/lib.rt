#![tactic(auto)]
//! The history of a cache: which seat made which event, and what the cache answered.
//!
//! `entry` has one entry, `trail` the trait of what a history is written into, `full` a trail that keeps every entry
//! with its bytes, `none` one that counts them, `replay` the check of a history against files (`plain`, each in `sparse` memory), `reserve` what is kept free
//! in a trail, and `promises`
//! what holds of every honest history. specs/History.antt says which histories are legal, specs/Room.antt how much room
//! an event needs, and specs/Honest.antt what is asked of the device.
//!
//! Floor: driven.

pub mod entry;
pub mod full;
pub mod none;
mod plain;
mod promises;
pub mod replay;
pub mod reserve;
mod sparse;
pub mod trail;

pub use entry::Entry;
pub use full::FullTrail;
pub use none::NoTrail;
pub use promises::every_trail;
pub use replay::{Checked, first_odd, first_odd_over, replay_plain, replay_plain_over};
pub use reserve::Reserve;
pub use trail::Trail;
