#![tactic(auto)]
//! What the benches have in common: `best` has the best time of several rounds, `fault` why a bench ends before its last row, and
//! `line` the line of a row.
//!
//! Floor: outside.

mod best;
mod fault;
mod line;

pub use best::Best;
pub use fault::Fault;
pub use line::{hundredths_each, write_row};
