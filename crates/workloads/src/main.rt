#![tactic(auto)]
//! The jobs that a user of this software waits for, on inputs of real shape and size: what a benchmark times.
//!
//! `workloads NAME SEED` runs one of them: `pool`, `streams`, `server`, `scratch` or `array`. It prints a digest of all that its calls
//! answered, and no times. Each seed gives another input of the same kind and size. `workloads small SEED` runs a fiftieth of each,
//! over a device that fails as much oftener.
//!
//! `desk` has the calls of files, `tools` the bytes that are written and read, `numbers` the generator, `places` numbers that come
//! once each, and `digest` what is printed.
//!
//! Floor: outside.

mod array;
mod desk;
mod digest;
mod numbers;
mod places;
mod pool;
mod scratch;
mod server;
mod streams;
mod tools;

ghost use Rattle.std.specs.Prelude.{◌<◌};

use crate::digest::Digest;
use crate::tools::Tools;
use bench_timing::Fault;
use std::alloc::Global;
use std::env;
use std::io::Write;
use std::process::ExitCode;

fn main(rt: HostRuntime) -> ExitCode {
    ExitCode::from(run_program(&rt))
}

/// A job.
#[derive(Clone, Copy, PartialEq, Eq)]
enum Job {
    Pool,
    Streams,
    Server,
    Scratch,
    Array,
}

impl Job {
    const ALL: [Job; 5] = [
        Job::Pool,
        Job::Streams,
        Job::Server,
        Job::Scratch,
        Job::Array,
    ];

    fn name(self) -> &'static str {
        match self {
            Job::Pool => "pool",
            Job::Streams => "streams",
            Job::Server => "server",
            Job::Scratch => "scratch",
            Job::Array => "array",
        }
    }

    /// Runs a share of the job.
    fn run(self, alloc: Global, seed: u64, share: u64) -> Result<Digest, Fault>
        requires { 0 < share }
    {
        let mut tools = Tools::new(alloc, seed)?;
        match self {
            Job::Pool => pool::run(alloc, &mut tools, share),
            Job::Streams => streams::run(alloc, &mut tools, share),
            Job::Server => server::run(alloc, &mut tools, share),
            Job::Scratch => scratch::run(alloc, &mut tools, share),
            Job::Array => array::run(alloc, &mut tools.numbers, share),
        }
    }
}

/// How small a part of a job a small run is.
const SMALL: u64 = 50;

/// What is asked for: one job, or a part of each.
#[derive(Drop)]
struct Asked {
    job: Option<Job>,
    seed: u64,
}

/// Does what the arguments ask for, and gives the status.
fn run_program(rt: &HostRuntime) -> u8 {
    let Some(asked) = read_words(rt) else {
        let _ = writeln!(
            rt.stderr(),
            "workloads: usage: workloads pool|streams|server|scratch|array|small SEED"
        );
        return 2;
    };
    let done = match asked.job {
        Some(job) => print_job(rt, job, asked.seed, 1),
        None => print_each(rt, asked.seed),
    };
    match done {
        Ok(()) => 0,
        Err(fault) => {
            let _ = writeln!(rt.stderr(), "workloads: {fault}");
            fault.status()
        }
    }
}

/// What the words ask for.
fn read_words(rt: &HostRuntime) -> Option<Asked> {
    let mut words = env::args(rt).ok()?;
    let _ = words.next();
    let name = words.next()?;
    let seed = u64::from(words.next()?.as_str().parse::<u32>().ok()?);
    if words.next().is_some() {
        return None;
    }
    let job = Job::ALL
        .iter()
        .find(|job| job.name() == name.as_str())
        .copied();
    if job.is_none() && name.as_str() != "small" {
        return None;
    }
    Some(Asked { job, seed })
}

fn print_each(rt: &HostRuntime, seed: u64) -> Result<(), Fault> {
    for job in Job::ALL {
        print_job(rt, job, seed, SMALL)?;
    }
    Ok(())
}

fn print_job(rt: &HostRuntime, job: Job, seed: u64, share: u64) -> Result<(), Fault>
    requires { 0 < share }
{
    let digest = job.run(rt.alloc(), seed, share)?;
    writeln!(
        rt.stdout(),
        "{} {:016x} calls {} refused {}",
        job.name(),
        digest.sum(),
        digest.calls(),
        digest.refused()
    )?;
    Ok(())
}
