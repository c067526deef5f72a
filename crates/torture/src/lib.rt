#![tactic(auto)]
//! Hostile use of files, played out: rounds of random calls on a service over a device that fails by chance, beside plain files.
//!
//! `plan` draws what a round is played with, `step` its calls, both by `chance`. `plain` has files as bytes, in two parts that a `window`
//! keeps each. `book` knows what each call is to answer, by `due`, and `desk` has the service. `game` plays a round, call by call, and
//! `run` plays rounds, and looks for the fewest calls that show a difference (`halves`). `told` says what was found.
//!
//! Floor: programs.

mod book;
mod chance;
mod desk;
mod due;
mod game;
mod halves;
mod plain;
mod plan;
mod run;
mod step;
mod told;
mod window;

pub use game::{Calls, Made};
pub use halves::{Trial, fewest};
pub use plan::{Failing, Plan};
pub use run::{Played, Room, play, run_torture, torture};
pub use step::{Call, Piece};
pub use told::{Difference, Fault, Findings, Options, Wrong, tell};
