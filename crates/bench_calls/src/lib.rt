#![tactic(auto)]
//! The calls of the marked array, of the identifiers and of the error word, as rows that are timed.
//!
//! `form` has the two forms in which a call is timed, and what a call and a row are. `row` has the rows of the array, `calls` its
//! calls, `ids` and `words` the rows and calls of their own, `loops` what the clock runs over, `order` the random order, and `rounds` the
//! rounds of a row.
//!
//! Floor: outside.

mod calls;
pub mod form;
pub mod ids;
mod loops;
pub mod order;
mod rounds;
pub mod row;
pub mod words;

pub use rounds::time_row;
