//! The rounds of a row.

use crate::files::{Cached, FileRow};
use crate::paths::Path;
use bench_timing::{Best, Fault};
use std::time::{Clock, Instant};

/// How many rounds a row of the files has: what it reads is past the caches that a processor has for itself, and there the
/// machine's other programs are felt.
const FILE_ROUNDS: usize = 40;

/// How many rounds a row of the paths has. Before each it is prepared, which takes longer than the round.
const PATH_ROUNDS: usize = 10;

/// Times the calls of a row of the files.
pub fn time_file_row(
    clock: &impl Clock,
    cached: &mut Cached,
    row: FileRow,
    offsets: &[u64],
) -> Result<Best, Fault> {
    let mut best = Best::NONE;
    for _ in 0..FILE_ROUNDS {
        row.prepare(cached)?;
        let start = Instant::now(clock)?;
        let sum = row.run(cached, offsets)?;
        best.add(start.elapsed(clock)?, sum);
    }
    Ok(best)
}

/// Times a row of the paths.
pub fn time_path<P: Path>(clock: &impl Clock, on: &mut P::On, path: P) -> Result<Best, Fault> {
    let mut best = Best::NONE;
    for _ in 0..PATH_ROUNDS {
        path.prepare(on)?;
        let start = Instant::now(clock)?;
        let sum = path.run(on)?;
        best.add(start.elapsed(clock)?, sum);
    }
    Ok(best)
}
