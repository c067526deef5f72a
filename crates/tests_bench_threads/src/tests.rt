//! The rows of the trail, of a device, of the ring and of cached reads.

use crate::checks::{check, same};
use bench_threads::blocks::{Disk, DiskRow};
use bench_threads::jobs;
use bench_threads::jobs::TURNS;
use bench_threads::reads::{ReadRow, TimedRow, time_reads};
use bench_threads::trails::{ENTRIES, Recorded, TrailRow};
use bench_timing::{Best, Fault};
use pc_types::Refusal;
use std::alloc::Global;
use std::fs::{File, Files};
use std::test::Fail;
use std::{env, fs, process};

fn answer(alloc: Global, row: TrailRow) -> Result<u64, Refusal> {
    let mut recorded = Recorded::new(alloc)?;
    row.prepare(alloc, &mut recorded);
    let answer = row.run(alloc, &mut recorded);
    // by a call, since the check is slow where a trail goes out of scope
    drop(recorded);
    answer
}

// The trail is filled to its last entry, and the one that is replayed agrees.
#[test]
fn rows_do_what_they_say(rt: HostRuntime) {
    let alloc = rt.alloc();
    same(&rt, answer(alloc, TrailRow::AppendRead), Ok(ENTRIES));
    same(&rt, answer(alloc, TrailRow::Copy), Ok(4_194_304));
    same(&rt, answer(alloc, TrailRow::Replay), Ok(1));
}

fn run_disk<R: Files<File = File>>(
    rt: &R,
    alloc: Global,
    path: &str,
    row: DiskRow,
) -> Result<u64, Fault> {
    let mut disk = Disk::new(rt, alloc, path)?;
    let answer = row.run(&mut disk);
    drop(disk);
    answer
}

// Each row of the device ends with the byte that every block has.
#[test]
fn blocks_are_written_and_read(rt: HostRuntime) -> Result<(), Fail> {
    let mut path = env::temp_dir(&rt)?;
    path.push(format!(in rt.alloc(); "bench_threads-{}", process::id(rt.process()))?.as_str())?;
    let name = path.to_string_lossy();
    for row in DiskRow::ALL {
        same(&rt, run_disk(&rt, rt.alloc(), name, row), Ok(7));
    }
    fs::remove_file(&rt, path.as_path())?;
    Ok(())
}

// All jobs came back.
#[test]
fn jobs_go_round(rt: HostRuntime) {
    let (mut alone, mut handed) = (Best::NONE, Best::NONE);
    same(&rt, jobs::time_alone(&rt, rt.alloc(), &mut alone), Ok(()));
    same(
        &rt,
        jobs::time_between_two(&rt, rt.alloc(), &mut handed),
        Ok(()),
    );
    same(&rt, alone.sum, 1);
    same(&rt, handed.sum, 2 * TURNS);
}

/// The sum of the answers of a row's last round.
fn sum_of(rows: &[TimedRow], row: ReadRow) -> Option<u64> {
    let entry = rows.iter().find(|entry| entry.row == row)?;
    Some(entry.best.sum)
}

// No row is timed but over reads that answer what stands there, and all rows of a thread answer the same.
#[test]
fn reads_answer_what_stands_there(rt: HostRuntime) -> Result<(), Fail> {
    let rows = time_reads(&rt, rt.alloc(), 100, 1)?;
    let rows = rows.as_slice();
    same(&rt, rows.len(), ReadRow::ALL.len());
    let small = sum_of(rows, ReadRow::SoloSmall);
    check(&rt, small > Some(6_400));
    same(&rt, sum_of(rows, ReadRow::OneSmall), small);
    let pages = sum_of(rows, ReadRow::SoloPage);
    check(&rt, pages > Some(409_600));
    same(&rt, sum_of(rows, ReadRow::CopyPage), pages);
    same(&rt, sum_of(rows, ReadRow::OnePage), pages);
    Ok(())
}
