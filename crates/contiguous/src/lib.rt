#![tactic(auto)]
//! The only file of a device, as one extent from block 0 on: page p of the file is block p. So another program finds each page of the
//! file in its place.
//!
//! It is given by definitions over those of `machine` and `runs`. `specs/Contiguous.antt` says what such a file is, and `specs/Promises.antt`
//! and `specs/Bytes.antt` the theorems, which are the clauses of `every_contiguous_step`: what is written behind the last block lands on the
//! next one, and a page that is written back has its bytes there.
//!
//! Floor: beside.

pub mod promises;

pub use promises::every_contiguous_step;
