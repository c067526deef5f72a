#![tactic(auto)]
//! Times what several threads share: `bench_shared time [PATH]` prints a row a call, as `12.34 ns  append of a read of 64 bytes`.
//! The rows of a device and those of syncs stand over files that are made at PATH and beside it, and are left out without one.
//!
//! The rows are those of `bench_threads`, and `report` prints them.
//!
//! Floor: outside.

mod report;

use report::print_rows;
use std::env;
use std::io::Write;
use std::process::ExitCode;
use std::sync::Wait;
use std::thread::Threads;
use std::time::Clock;

fn main(rt: HostRuntime) -> ExitCode {
    ExitCode::from(run_program(&rt, &rt))
}

/// Does what the arguments ask for, and gives the status.
fn run_program<W: Wait + Threads + Clock + Sync>(rt: &HostRuntime, threads: &W) -> u8 {
    let Some(path) = path_asked(rt) else {
        let _ = writeln!(rt.stderr(), "bench_shared: usage: bench_shared time [PATH]");
        return 2;
    };
    let done = match &path {
        Some(path) => print_rows(rt, threads, Some(path.as_str())),
        None => print_rows(rt, threads, None),
    };
    match done {
        Ok(()) => 0,
        Err(fault) => {
            let _ = writeln!(rt.stderr(), "bench_shared: {fault}");
            fault.status()
        }
    }
}

/// The path, or none, where the rows are asked for.
fn path_asked(rt: &HostRuntime) -> Option<Option<String>> {
    let mut words = env::args(rt).ok()?;
    let _ = words.next();
    let first = words.next()?;
    let path = words.next();
    if first.as_str() == "time" && words.next().is_none() {
        return Some(path);
    }
    None
}
