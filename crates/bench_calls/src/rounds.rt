//! The rounds of a row.

use crate::form::{Form, Timed};
use bench_timing::{Best, Fault};
use std::alloc::Global;
use std::time::{Clock, Instant};

/// How many rounds a row has.
const ROUNDS: usize = 9;

/// Times a row's calls in a form, each round on what was made anew.
pub fn time_row<F: Form, R: Timed>(
    clock: &impl Clock,
    alloc: Global,
    row: R,
    order: &[u64],
) -> Result<Best, Fault> {
    let mut best = Best::NONE;
    for _ in 0..ROUNDS {
        let mut on = row.start(alloc, order).ok_or(Fault::Memory)?;
        let start = Instant::now(clock)?;
        let sum = row.run::<F>(&mut on, order).ok_or(Fault::Memory)?;
        best.add(start.elapsed(clock)?, sum);
    }
    Ok(best)
}
