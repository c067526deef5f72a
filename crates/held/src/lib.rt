#![tactic(auto)]
//! The state of a shared cache as it lies under its lock: the core, its trail, the recorder of failed writes, and the seats of its
//! callers. No call here takes a lock or waits.
//!
//! `naming` says which cache it is, `log` has the history and the seats (`views` and `steps` what these know), `denied` how a call is
//! refused, and `state` the state. Its events stand in `files`, `bytes`, `requests` and `syncs`; `started` has what the begins of requests
//! answer, `first` begins a write of the first file that has a page to write, `end` says how ends are entered, and `numbers` what holds of
//! the numbers of syncs.
//!
//! Floor: driven.

mod bytes;
pub mod denied;
mod end;
mod files;
mod first;
pub mod log;
pub mod naming;
pub mod numbers;
mod requests;
pub mod started;
pub mod state;
mod steps;
mod syncs;
pub mod views;
