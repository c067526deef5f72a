#![tactic(auto)]
//! Devices some of whose calls fail, for storms, tortures and tests. Which calls fail is tested, not proved: what is proved of them is
//! what is proved of every device.
//!
//! `device` has one that fails by turns, `failing` one that fails at one call or by chance and tells which call did (`log`). `choice`
//! has which calls these are.
//!
//! Floor: outside.

mod choice;
mod device;
mod failing;
mod log;

pub use device::FaultyDevice;
pub use failing::FailingDevice;
pub use log::{Failures, Log};
