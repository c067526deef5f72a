#![tactic(auto)]
//! Runs a trace of operations on a marked array, identifiers and an error word, and prints what each answers, so that the same
//! trace can be run through Linux's own XArray and compared.
//!
//! `run` runs a trace line by line, which the crate `textline` fetches and takes apart. `keyword` has the names of the operations,
//! `operation` says what a line asks for, `array_call`, `id_call` and `word_call` make the call, `entries` goes over an array, and
//! `answer` prints what came of it.
//!
//! An error word has a counter of 51 bits and Linux's one of 19, so the two are one number until the counter rises past 2^19 - 1.
//! Words below 2^32 print 8 digits, as Linux's do: a trace is compared with Linux line by line as long as it has no wider one. A
//! wider word prints 16 digits, and Linux has no such line.
//!
//! Floor: programs.

mod answer;
mod array_call;
mod entries;
mod id_call;
mod keyword;
mod operation;
mod run;
mod word_call;

use run::run_trace;
use std::io::{BufReader, BufWriter, Write};
use std::process::ExitCode;
use textline::Stop;

fn main(rt: HostRuntime) -> ExitCode {
    ExitCode::from(run_streams(&rt))
}

/// Runs the trace on standard input, and gives the status.
fn run_streams(rt: &HostRuntime) -> u8 {
    let alloc = rt.alloc();
    match (
        BufReader::new(alloc, rt.stdin()),
        BufWriter::new(alloc, rt.stdout()),
    ) {
        (Ok(reader), Ok(out)) => run_trace(alloc, reader, out, rt.stderr()),
        _ => {
            let _ = writeln!(rt.stderr(), "xarray_trace: {}", Stop::Memory);
            Stop::Memory.status()
        }
    }
}
