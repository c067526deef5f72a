#![tactic(auto)]
//! A history, played again on a cache and a device: whether it is honest.
//!
//! `play` plays a full trail, `entry` one entry of it, `end` the end of a request, `replies` compares what is answered, and
//! `blocks` copies a device and compares devices, and `verdict` tells by both whether a device was honest. specs/Playing.antt says what an honest history over a device is.
//!
//! Floor: driven.

mod blocks;
mod end;
mod entry;
mod play;
mod replies;
mod verdict;

pub use blocks::{copy_of, first_unlike};
pub use play::{Playback, play_again};
pub use verdict::{Copies, Verdict, copies_of, judge};
