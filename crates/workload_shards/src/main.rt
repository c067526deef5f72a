#![tactic(auto)]
//! Runs what many threads ask of a cache of shards, and prints one line: how many calls they made, and a digest of all answers. The calls are
//! those of `workload_threads`, so the line is the same. `workload_shards threads SEED` takes seconds, and `workload_shards small SEED` a
//! fiftieth of it.
//!
//! Each caller writes a file of its own, in a shard of its own, and all read a common one, which stands in the first shard. No worker
//! helps: a call writes back and evicts what is in its way. `threads` runs the callers: `caller` is one that makes calls, `member` a seat.
//! `files` makes the files, `desk` has the calls, and `sources` what a cache is made of.
//!
//! Floor: outside.

mod caller;
mod desk;
mod files;
mod member;
mod sources;
mod threads;

use std::env;
use std::io::Write;
use std::process::ExitCode;
use std::sync::Wait;
use std::thread::Threads;
use threads::run_threads;
use workload_steps::{Plan, Tally};

fn main(rt: HostRuntime) -> ExitCode {
    ExitCode::from(run_program(&rt, &rt))
}

/// Does what the arguments ask for, and gives the status.
fn run_program<W: Wait + Threads + Sync>(rt: &HostRuntime, threads: &W) -> u8 {
    let Some(plan) = plan_asked(rt) else {
        let _ = writeln!(
            rt.stderr(),
            "workload_shards: usage: workload_shards threads SEED | workload_shards small SEED"
        );
        return 2;
    };
    match run_threads(threads, rt.alloc(), plan) {
        Ok(tally) => print_tally(rt, tally),
        Err(refusal) => {
            let _ = writeln!(rt.stderr(), "workload_shards: {refusal}");
            1
        }
    }
}

/// What the arguments ask for, where they are a scale and a seed.
fn plan_asked(rt: &HostRuntime) -> Option<Plan> {
    let mut words = env::args(rt).ok()?;
    let _ = words.next();
    let plan = Plan::read(words.next()?.as_str(), words.next()?.as_str())?;
    words.next().is_none().then_some(plan)
}

/// Prints the line, and gives the status.
fn print_tally(rt: &HostRuntime, tally: Tally) -> u8 {
    match writeln!(rt.stdout(), "{tally}") {
        Ok(()) => 0,
        Err(_) => 1,
    }
}
