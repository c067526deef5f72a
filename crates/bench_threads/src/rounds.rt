//! The rounds of a row.

use crate::blocks::{Disk, DiskRow};
use crate::trails::{Recorded, TrailRow};
use bench_timing::{Best, Fault};
use std::alloc::Global;
use std::time::{Clock, Instant};

/// How many rounds a row has.
pub const ROUNDS: usize = 9;

/// Times the calls of a row of the trail.
pub fn time_trail_row(
    clock: &impl Clock,
    alloc: Global,
    recorded: &mut Recorded,
    row: TrailRow,
) -> Result<Best, Fault> {
    let mut best = Best::NONE;
    for _ in 0..ROUNDS {
        row.prepare(alloc, recorded);
        let start = Instant::now(clock)?;
        let sum = row.run(alloc, recorded)?;
        best.add(start.elapsed(clock)?, sum);
    }
    Ok(best)
}

/// Times the calls of a row of the device over a file.
pub fn time_disk_row(clock: &impl Clock, disk: &mut Disk, row: DiskRow) -> Result<Best, Fault> {
    let mut best = Best::NONE;
    for _ in 0..ROUNDS {
        let start = Instant::now(clock)?;
        let sum = row.run(disk)?;
        best.add(start.elapsed(clock)?, sum);
    }
    Ok(best)
}
