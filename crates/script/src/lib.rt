#![tactic(auto)]
//! Scripts of cache calls: each line is a command, and is answered on a line of its own.
//!
//! `run` runs a script line by line, which the crate `textline` fetches and takes apart. `keyword` has the names of the commands,
//! `command` says what a line asks for, `session` has the cache with the board of its failed writes (`passes`: one a handle), and
//! `answer` prints what came of a command.
//!
//! Floor: programs.

mod answer;
mod command;
mod keyword;
mod passes;
pub mod run;
mod session;

pub use answer::{print_polled, print_reply};
pub use command::Command;
pub use run::{Ended, run_script, say};
