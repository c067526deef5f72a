#![tactic(auto)]
//! A window of a device: some of its blocks, in a row, as a device of their own.
//!
//! Block b of the window is block first + b of the device behind. All other blocks of that device stay as they are (`Outside` of
//! `specs/Windows.antt`), and its calls, flushes and faults are those of the window. A window borrows its device, so windows of one
//! device come one after another; those that share no block leave each other's blocks as they are (`apart`).
//!
//! Floor: ground.

mod apart;
mod window;

pub use apart::windows_are_apart;
pub use window::Window;
