//! The rows of the files and of the paths. What is large is dropped by a call, since the check is slow where it goes out of scope.

use crate::checks::same;
use bench_calls::order::random_order;
use bench_files::bare::Bare;
use bench_files::files::{
    CALLS, Cached, FILL, FileRow, PAGE, PAGES, SMALL, SYNCED, SYNCED_OF_RANGE,
};
use bench_files::larger::{HALF, Larger, TIMES_THE_CACHE};
use bench_files::paths::{BEHIND, BarePath, CachedPath, EVICTED, FEW, FLUSHED, LargerPath, Path};
use pc_types::Refusal;
use std::alloc::Global;
use std::process::Abort;
use std::test::Fail;

/// What the calls of a row of the files answer: each read its count and the first byte, each write its count, and a sync its pages.
fn expected_of(row: FileRow) -> u64 {
    match row {
        FileRow::ReadSmall | FileRow::CopySmall => CALLS * (SMALL + u64::from(FILL)),
        FileRow::ReadPage | FileRow::CopyPage => CALLS * (PAGE + u64::from(FILL)),
        FileRow::WriteSmall | FileRow::CopyInSmall => CALLS * SMALL,
        FileRow::WritePage | FileRow::CopyInPage => CALLS * PAGE,
        FileRow::Sync => SYNCED,
        FileRow::SyncRange => SYNCED_OF_RANGE,
    }
}

/// The sum of a row's answers.
fn run_row(
    alloc: Global,
    cached: &mut Cached,
    row: FileRow,
    order: &[u64],
) -> Result<u64, Refusal> {
    let offsets = row.offsets(alloc, order)?;
    row.prepare(cached)?;
    row.run(cached, offsets.as_slice())
}

/// A row that was prepared.
fn run_path<P: Path>(on: &mut P::On, path: P) -> Result<u64, Refusal> {
    path.prepare(on)?;
    path.run(on)
}

fn check_path<P: Path>(rt: &impl Abort, on: &mut P::On, path: P, expected: u64) {
    same(rt, path.label(), run_path(on, path), Ok(expected));
}

/// All rows are over one file.
#[test]
fn file_rows_do_their_work(rt: HostRuntime) -> Result<(), Fail> {
    let order = random_order(rt.alloc())?;
    let mut cached = Cached::new(rt.alloc())?;
    same(&rt, "fill", cached.fill(), Ok(()));
    for row in FileRow::ALL {
        let answer = run_row(rt.alloc(), &mut cached, row, order.as_slice());
        same(&rt, row.label(), answer, Ok(expected_of(row)));
    }
    drop(cached);
    Ok(())
}

/// What a row of the paths over a cached file answers: a write its count.
fn expected_of_path(path: CachedPath) -> u64 {
    match path {
        CachedPath::CopyOut => PAGES * (PAGE + u64::from(FILL)),
        CachedPath::CopyIn | CachedPath::MakePage => PAGES * PAGE,
        CachedPath::Truncate => PAGES,
        CachedPath::SyncFew => FEW,
    }
}

/// A file that was cut off has no byte: none of its pages is left, and those that are written next are new.
#[test]
fn paths_over_a_cached_file_do_their_work(rt: HostRuntime) -> Result<(), Fail> {
    let mut cached = Cached::new(rt.alloc())?;
    for path in CachedPath::ALL {
        check_path(&rt, &mut cached, path, expected_of_path(path));
    }
    same(
        &rt,
        "cut",
        CachedPath::MakePage.prepare(&mut cached),
        Ok(()),
    );
    same(&rt, "cut before", cached.read(0, &mut [0; 1]), Ok(0));
    check_path(&rt, &mut cached, CachedPath::Truncate, PAGES);
    same(&rt, "truncated", cached.read(0, &mut [0; 1]), Ok(0));
    drop(cached);
    Ok(())
}

/// Each read takes two attempts, one to find its page absent and one after the page was filled.
#[test]
fn paths_over_a_larger_file_do_their_work(rt: HostRuntime) -> Result<(), Fail> {
    let order = random_order(rt.alloc())?;
    let mut larger = Larger::new(rt.alloc(), order.as_slice())?;
    same(&rt, "fill", larger.fill(), Ok(()));
    let each = PAGE + u64::from(FILL) + 2;
    check_path(&rt, &mut larger, LargerPath::FillPage, HALF * each);
    check_path(
        &rt,
        &mut larger,
        LargerPath::ReadInOrder,
        TIMES_THE_CACHE * each,
    );
    check_path(&rt, &mut larger, LargerPath::FillPage, HALF * each);
    drop(larger);
    Ok(())
}

/// Each flush writes a block. The pages behind the dirty ones are evicted in the order in which they came.
#[test]
fn paths_over_a_bare_cache_do_their_work(rt: HostRuntime) -> Result<(), Fail> {
    let mut bare = Bare::new(rt.alloc())?;
    check_path(&rt, &mut bare, BarePath::Flush, FLUSHED);
    same(&rt, "none is dirty", bare.flush(1).is_ok(), false);
    let numbers = (BEHIND..BEHIND + EVICTED).fold(0u64, |sum, page| sum.wrapping_add(page));
    check_path(&rt, &mut bare, BarePath::Evict, numbers);
    check_path(&rt, &mut bare, BarePath::Flush, FLUSHED);
    drop(bare);
    Ok(())
}
