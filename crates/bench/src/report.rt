//! What is printed: a row a line, first of the calls that may be inlined, then of those that may not, then of the files, and last of the
//! paths.

use bench_calls::form::{Form, Inlined, Outlined, Timed};
use bench_calls::ids::IdRow;
use bench_calls::order::random_order;
use bench_calls::row::Row;
use bench_calls::time_row;
use bench_calls::words::WordRow;
use bench_files::bare::Bare;
use bench_files::files::{Cached, FileRow};
use bench_files::larger::Larger;
use bench_files::paths::{BarePath, CachedPath, LargerPath, Path};
use bench_files::{time_file_row, time_path};
use bench_timing::{Fault, write_row};
use std::io::Write;

/// What a label ends with where each call goes through a function that is not inlined.
const OUTLINED: &str = ", not inlined";

pub fn print_rows(rt: &HostRuntime) -> Result<(), Fault> {
    let order = random_order(rt.alloc())?;
    let order = order.as_slice();
    let mut sum = print_form::<Inlined>(rt, order, "")?;
    sum = sum.wrapping_add(print_form::<Outlined>(rt, order, OUTLINED)?);
    sum = sum.wrapping_add(print_files(rt, order)?);
    sum = sum.wrapping_add(print_larger(rt, order)?);
    sum = sum.wrapping_add(print_bare(rt)?);
    // The sum of all answers: what was timed has to be computed.
    writeln!(rt.stderr(), "bench: sum of the answers {sum}")?;
    Ok(())
}

/// Prints each row in one of the two forms, and gives the sum of their answers.
fn print_form<F: Form>(rt: &HostRuntime, order: &[u64], ending: &str) -> Result<u64, Fault> {
    let mut sum = print_each::<F, Row>(rt, &Row::ALL, order, ending)?;
    sum = sum.wrapping_add(print_each::<F, IdRow>(rt, &IdRow::ALL, order, ending)?);
    sum = sum.wrapping_add(print_each::<F, WordRow>(rt, &WordRow::ALL, order, ending)?);
    Ok(sum)
}

/// Prints rows of one kind, and gives the sum of their answers.
fn print_each<F: Form, R: Timed>(
    rt: &HostRuntime,
    rows: &[R],
    order: &[u64],
    ending: &str,
) -> Result<u64, Fault> {
    let mut sum = 0u64;
    for row in rows {
        let row = *row;
        let best = time_row::<F, R>(rt, rt.alloc(), row, order)?;
        write_row(&mut rt.stdout(), best, row.count(), row.label(), ending)?;
        sum = sum.wrapping_add(best.sum);
    }
    Ok(sum)
}

/// Prints each row over the file whose pages are all cached, and gives the sum of their answers.
fn print_files(rt: &HostRuntime, order: &[u64]) -> Result<u64, Fault> {
    let mut cached = Cached::new(rt.alloc())?;
    let sum = print_file_rows(rt, &mut cached, order);
    // by a call, since the check is slow where a service goes out of scope
    drop(cached);
    sum
}

fn print_file_rows(rt: &HostRuntime, cached: &mut Cached, order: &[u64]) -> Result<u64, Fault> {
    cached.fill()?;
    let mut sum = 0u64;
    for row in FileRow::ALL {
        let offsets = row.offsets(rt.alloc(), order)?;
        let best = time_file_row(rt, cached, row, offsets.as_slice())?;
        write_row(&mut rt.stdout(), best, row.count(), row.label(), "")?;
        sum = sum.wrapping_add(best.sum);
    }
    Ok(sum.wrapping_add(print_paths(rt, cached, &CachedPath::ALL)?))
}

/// Prints each row over the file that is larger than its cache, and gives the sum of their answers.
fn print_larger(rt: &HostRuntime, order: &[u64]) -> Result<u64, Fault> {
    let mut larger = Larger::new(rt.alloc(), order)?;
    let sum = print_larger_rows(rt, &mut larger);
    drop(larger);
    sum
}

fn print_larger_rows(rt: &HostRuntime, larger: &mut Larger) -> Result<u64, Fault> {
    larger.fill()?;
    print_paths(rt, larger, &LargerPath::ALL)
}

/// Prints each row over the cache without a service, and gives the sum of their answers.
fn print_bare(rt: &HostRuntime) -> Result<u64, Fault> {
    let mut bare = Bare::new(rt.alloc())?;
    let sum = print_paths(rt, &mut bare, &BarePath::ALL);
    drop(bare);
    sum
}

/// Prints rows over one thing, and gives the sum of their answers.
fn print_paths<P: Path>(rt: &HostRuntime, on: &mut P::On, paths: &[P]) -> Result<u64, Fault> {
    let mut sum = 0u64;
    for path in paths {
        let path = *path;
        let best = time_path(rt, on, path)?;
        write_row(&mut rt.stdout(), best, path.count(), path.label(), "")?;
        sum = sum.wrapping_add(best.sum);
    }
    Ok(sum)
}
