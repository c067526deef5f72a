#![tactic(auto)]
//! Times the calls of the marked array, of the identifiers, of the error word and of the files: `bench time` prints a row a call, as
//! `12.34 ns  load, random`.
//!
//! The rows are those of `bench_calls` and `bench_files`, and `report` prints them.
//!
//! Floor: outside.

mod report;

use report::print_rows;
use std::env;
use std::io::Write;
use std::process::ExitCode;

fn main(rt: HostRuntime) -> ExitCode {
    ExitCode::from(run_program(&rt))
}

/// Does what the arguments ask for, and gives the status.
fn run_program(rt: &HostRuntime) -> u8 {
    let is_time = match env::args(rt) {
        Ok(arguments) => arguments
            .skip(1)
            .map(|word| word.as_str() == "time")
            .eq([true]),
        Err(_) => false,
    };
    if !is_time {
        let _ = writeln!(rt.stderr(), "bench: usage: bench time");
        return 2;
    }
    match print_rows(rt) {
        Ok(()) => 0,
        Err(fault) => {
            let _ = writeln!(rt.stderr(), "bench: {fault}");
            fault.status()
        }
    }
}
