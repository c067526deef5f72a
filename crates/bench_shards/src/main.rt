#![tactic(auto)]
//! Times cached reads of a cache of shards beside those of one shared cache. `bench_shards time` prints a row a line, as
//! `12.34 ns, 12.50 in the middle round, 3.91 times  LABEL`: what a read takes each thread in the fastest round and in the middle one, and
//! how many reads all threads make where one thread makes one. A number behind `time` says how many rounds each row has, 15 if there is
//! none; a round of all rows takes some ten seconds. `bench_shards` prints the sums of what the reads of a sample answer.
//!
//! Each thread reads a file of its own. `rows` has who reads what, `round` a round of a row, `one` a shared cache, `shards` a cache of
//! shards, `plain` bytes that are copied, and `report` runs the rows by turns and prints them.
//!
//! Floor: outside.

mod one;
mod plain;
mod report;
mod round;
mod rows;
mod shards;

use report::{ROUNDS, print_sums, print_times};
use std::env;
use std::io::Write;
use std::process::ExitCode;
use std::sync::Wait;
use std::thread::Threads;
use std::time::Clock;

fn main(rt: HostRuntime) -> ExitCode {
    ExitCode::from(run_program(&rt, &rt))
}

/// What the arguments ask for.
#[derive(Clone, Copy)]
enum Asked {
    Sums,
    /// With so many rounds.
    Times(u64),
}

/// Does what the arguments ask for, and gives the status.
fn run_program<W: Wait + Threads + Clock + Sync>(rt: &HostRuntime, threads: &W) -> u8 {
    let done = match read_words(rt) {
        Some(Asked::Times(rounds)) => print_times(rt, threads, rounds),
        Some(Asked::Sums) => print_sums(rt, threads),
        None => {
            let _ = writeln!(
                rt.stderr(),
                "bench_shards: usage: bench_shards [time [ROUNDS]]"
            );
            return 2;
        }
    };
    match done {
        Ok(()) => 0,
        Err(fault) => {
            let _ = writeln!(rt.stderr(), "bench_shards: {fault}");
            fault.status()
        }
    }
}

fn read_words(rt: &HostRuntime) -> Option<Asked> {
    let mut words = env::args(rt).ok()?;
    let _ = words.next();
    let Some(first) = words.next() else {
        return Some(Asked::Sums);
    };
    if first.as_str() != "time" {
        return None;
    }
    let rounds = match words.next() {
        Some(word) => word.as_str().parse().ok()?,
        None => ROUNDS,
    };
    (rounds > 0 && words.next().is_none()).then_some(Asked::Times(rounds))
}
