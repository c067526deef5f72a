//! What is printed: a row a line.

ghost use Rattle.std.specs.Prelude.{◌<◌};

use bench_threads::blocks::{BLOCKS, Disk, DiskRow};
use bench_threads::holds::READS;
use bench_threads::jobs::TURNS;
use bench_threads::trails::{Recorded, TrailRow};
use bench_threads::{ROUNDS, holds, jobs, reads, syncs, time_disk_row, time_trail_row};
use bench_timing::{Best, Fault, write_row};
use std::io::Write;
use std::sync::Wait;
use std::thread::Threads;
use std::time::Clock;

/// Prints all rows. Those of a device and of syncs stand over files that are made at the path and beside it, and are left out if there
/// is none.
pub fn print_rows<W: Wait + Threads + Clock + Sync>(
    rt: &HostRuntime,
    threads: &W,
    path: Option<&str>,
) -> Result<(), Fault> {
    let mut sum = print_trails(rt)?.wrapping_add(print_holds(rt)?);
    sum = sum.wrapping_add(print_jobs(rt, threads)?);
    sum = sum.wrapping_add(print_reads(rt, threads)?);
    if let Some(path) = path {
        sum = sum.wrapping_add(print_blocks(rt, path)?);
        sum = sum.wrapping_add(print_syncs(rt, path)?);
    }
    // The sum of all answers: what was timed has to be computed.
    writeln!(rt.stderr(), "bench_shared: sum of the answers {sum}")?;
    Ok(())
}

/// Prints each row of the trail, and gives the sum of their answers.
fn print_trails(rt: &HostRuntime) -> Result<u64, Fault> {
    let mut recorded = Recorded::new(rt.alloc())?;
    let sum = print_trail_rows(rt, &mut recorded);
    // by a call, since the check is slow where a trail goes out of scope
    drop(recorded);
    sum
}

fn print_trail_rows(rt: &HostRuntime, recorded: &mut Recorded) -> Result<u64, Fault> {
    let mut sum = 0u64;
    for row in TrailRow::ALL {
        let best = time_trail_row(rt, rt.alloc(), recorded, row)?;
        print_row(rt, best, row.count(), row.label())?;
        sum = sum.wrapping_add(best.sum);
    }
    Ok(sum)
}

fn print_jobs<W: Wait + Threads + Clock + Sync>(
    rt: &HostRuntime,
    threads: &W,
) -> Result<u64, Fault> {
    let (mut alone, mut handed) = (Best::NONE, Best::NONE);
    for _ in 0..ROUNDS {
        jobs::time_alone(threads, rt.alloc(), &mut alone)?;
        jobs::time_between_two(threads, rt.alloc(), &mut handed)?;
    }
    print_row(rt, alone, TURNS, "push and pop of a job, one thread")?;
    // Each of the two threads hands on so many.
    print_row(rt, handed, 2 * TURNS, "a job handed to another thread")?;
    Ok(alone.sum.wrapping_add(handed.sum))
}

fn print_blocks(rt: &HostRuntime, path: &str) -> Result<u64, Fault> {
    let mut disk = Disk::new(rt, rt.alloc(), path)?;
    let sum = print_disk_rows(rt, &mut disk);
    drop(disk);
    sum
}

fn print_disk_rows(rt: &HostRuntime, disk: &mut Disk) -> Result<u64, Fault> {
    let mut sum = 0u64;
    for row in DiskRow::ALL {
        let best = time_disk_row(rt, disk, row)?;
        print_row(rt, best, u64::from(BLOCKS), row.label())?;
        sum = sum.wrapping_add(best.sum);
    }
    Ok(sum)
}

/// Prints each row of cached reads.
fn print_reads<W: Wait + Threads + Clock + Sync>(
    rt: &HostRuntime,
    threads: &W,
) -> Result<u64, Fault> {
    let mut sum = 0u64;
    for entry in &reads::time_reads(threads, rt.alloc(), reads::READS, reads::ROUNDS)? {
        print_row(rt, entry.best, entry.row.count(), entry.row.label())?;
        sum = sum.wrapping_add(entry.best.sum);
    }
    Ok(sum)
}

/// Prints an fsync, and the same pages written to a plain file and synced.
fn print_syncs(rt: &HostRuntime, path: &str) -> Result<u64, Fault> {
    let times = syncs::time_syncs(rt, rt.alloc(), path)?;
    print_row(
        rt,
        times.synced,
        syncs::PAGES,
        "fsync of 1,000 dirty pages, FileDevice, per page",
    )?;
    print_row(
        rt,
        times.plain,
        syncs::PAGES,
        "1,000 writes of 4,096 bytes and one sync_data, per page",
    )?;
    Ok(times.synced.sum.wrapping_add(times.plain.sum))
}

/// Prints a read by the core alone, and as a hold.
fn print_holds(rt: &HostRuntime) -> Result<u64, Fault> {
    let core = holds::time_core(rt, rt.alloc())?;
    print_row(
        rt,
        core,
        READS,
        "read of 64 bytes, cached, by the core alone",
    )?;
    let held = holds::time_held(rt, rt.alloc())?;
    print_row(rt, held, READS, "the same read as a hold, without a trail")?;
    Ok(core.sum.wrapping_add(held.sum))
}

/// Prints `12.34 ns  LABEL`.
fn print_row(rt: &HostRuntime, best: Best, count: u64, label: &str) -> Result<(), Fault>
    requires { 0 < count }
{
    write_row(&mut rt.stdout(), best, count, label, "")
}
