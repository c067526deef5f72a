//! Worked sequences of calls with their answers, in a cache of 16-byte pages, 48 frames, a dirty limit of 16 and 64 blocks.
//! Every row is run by `over_a_cache`.

use crate::checks::{check, same};
use crate::page_life_tests::{evicts, flushes, truncates, truncates_under_a_write};
use crate::sync_tests::{finishes, syncs, syncs_one_page};
use blockdev::Buffer;
use cachecore::{CacheCore, FillBegun, PageTags, ReadAnswer, Refused, WriteAnswer};
use pc_types::{FileId, Geometry, HandleId, PageIndex, Refusal, Tag, Tags};
use std::alloc::Global;
use std::process::Abort;
use std::test::Fail;

const FILE: FileId = FileId(0);

const HANDLE: HandleId = HandleId(0);

/// Begins to fill a page with a new buffer.
fn fill(
    alloc: Global,
    core: &mut CacheCore,
    page: PageIndex,
) -> Result<Result<FillBegun, Refused>, Refusal> {
    let buffer = Buffer::new(alloc, &core.geometry())?;
    Ok(core.fill_begin(HANDLE, page, buffer))
}

fn wrote(count: u64, end: u64) -> Result<WriteAnswer, Refusal> {
    Ok(WriteAnswer::Wrote { count, end })
}

fn appends(rt: &impl Abort, core: &mut CacheCore) {
    let mut out = [9; 10];
    same(rt, core.read(HANDLE, 0, &mut out), Ok(ReadAnswer::Bytes(0)));
    same(rt, out, [9; 10]);
    same(rt, core.size(HANDLE), Ok(0));
    same(rt, core.append(HANDLE, b"\xaa"), wrote(1, 1));
    same(rt, core.size(HANDLE), Ok(1));
    same(rt, core.append(HANDLE, b"\xbb"), wrote(1, 2));
    same(rt, core.read(HANDLE, 0, &mut out), Ok(ReadAnswer::Bytes(2)));
    same(rt, out, [0xaa, 0xbb, 9, 9, 9, 9, 9, 9, 9, 9]);
}

fn leaves_a_gap(rt: &impl Abort, alloc: Global, core: &mut CacheCore) -> Result<(), Refusal> {
    let mut out = [9; 21];
    same(rt, core.write(HANDLE, 20, b"\xff"), wrote(1, 21));
    same(
        rt,
        core.read(HANDLE, 0, &mut out),
        Ok(ReadAnswer::Miss(PageIndex(0))),
    );
    same(rt, out, [9; 21]);
    let filled = fill(alloc, core, PageIndex(0))?;
    check(rt, matches!(filled, Ok(FillBegun::Filled(_))));
    let present = fill(alloc, core, PageIndex(0))?;
    check(rt, matches!(present, Ok(FillBegun::Present(_))));
    let gone = fill(alloc, core, PageIndex(2))?;
    check(rt, matches!(gone, Ok(FillBegun::Gone(_))));
    same(
        rt,
        core.read(HANDLE, 0, &mut out),
        Ok(ReadAnswer::Bytes(21)),
    );
    same(rt, out, *b"\0\0\0\0\0\0\0\0\0\0\0\0\0\0\0\0\0\0\0\0\xff");
    same(rt, core.size(HANDLE), Ok(21));
    same(
        rt,
        core.tags(FILE, PageIndex(0)),
        Ok(PageTags::Cached(Tags::none())),
    );
    same(rt, core.tags(FILE, PageIndex(2)), Ok(PageTags::Absent));
    Ok(())
}

fn writes_many_pages(rt: &impl Abort, core: &mut CacheCore) {
    same(rt, core.write(HANDLE, 0, &[0xab; 256]), wrote(256, 256));
    same(
        rt,
        core.write(HANDLE, 1, &[0xab; 256]),
        Err(Refusal::TooLong),
    );
    same(
        rt,
        core.write(HANDLE, u64::MAX, &[0xab; 256]),
        Err(Refusal::TooLong),
    );
    same(
        rt,
        core.write(HANDLE, u64::MAX, &[0xab; 1]),
        Err(Refusal::TooLarge),
    );
}

// 256 bytes from the start of a page touch 16 pages, and from the next byte on 17.
fn dirties_pages(rt: &impl Abort, core: &mut CacheCore) {
    same(rt, core.write(HANDLE, 0, &[0xab; 256]), wrote(256, 256));
    same(
        rt,
        core.write(HANDLE, 256, b"\xff"),
        Err(Refusal::DirtyLimit),
    );
    same(rt, core.size(HANDLE), Ok(256));
    // pages that are dirty already may be written again
    same(rt, core.write(HANDLE, 100, b"\xff"), wrote(1, 101));
}

fn writes_the_last_byte(rt: &impl Abort, core: &mut CacheCore) {
    same(
        rt,
        core.write(HANDLE, 1_099_511_627_775, b"\xff"),
        wrote(1, 1_099_511_627_776),
    );
    same(
        rt,
        core.write(HANDLE, 1_099_511_627_776, b"\xff"),
        Err(Refusal::TooLarge),
    );
    same(rt, core.size(HANDLE), Ok(1_099_511_627_776));
    let dirty = Tags::none().with(Tag::Dirty);
    same(
        rt,
        core.tags(FILE, PageIndex(68_719_476_735)),
        Ok(PageTags::Cached(dirty)),
    );
}

fn closes_and_opens(rt: &impl Abort, core: &mut CacheCore) {
    same(rt, core.open(FILE), Ok(HandleId(1)));
    same(rt, core.close(HANDLE), Ok(()));
    same(rt, core.size(HANDLE), Err(Refusal::BadHandle));
    same(rt, core.close(HANDLE), Err(Refusal::BadHandle));
    same(rt, core.open(FILE), Ok(HANDLE));
    same(rt, core.open(FileId(1)), Err(Refusal::NoSuchFile));
    same(rt, core.create(), Ok(FileId(1)));
    same(rt, core.open(FileId(1)), Ok(HandleId(2)));
    same(
        rt,
        core.tags(FileId(2), PageIndex(0)),
        Err(Refusal::NoSuchFile),
    );
}

#[derive(Clone, Copy)]
enum Row {
    Appends,
    LeavesAGap,
    WritesManyPages,
    DirtiesPages,
    WritesTheLastByte,
    ClosesAndOpens,
    Flushes,
    Evicts,
    Truncates,
    TruncatesUnderAWrite,
    Syncs,
    SyncsOnePage,
    Finishes,
}

/// Makes a file, opens it and runs a row.
fn run(rt: &impl Abort, alloc: Global, core: &mut CacheCore, row: Row) -> Result<(), Refusal> {
    core.create()?;
    core.open(FILE)?;
    match row {
        Row::Appends => appends(rt, core),
        Row::LeavesAGap => leaves_a_gap(rt, alloc, core)?,
        Row::WritesManyPages => writes_many_pages(rt, core),
        Row::DirtiesPages => dirties_pages(rt, core),
        Row::WritesTheLastByte => writes_the_last_byte(rt, core),
        Row::ClosesAndOpens => closes_and_opens(rt, core),
        Row::Flushes => flushes(rt, alloc, core)?,
        Row::Evicts => evicts(rt, alloc, core)?,
        Row::Truncates => truncates(rt, core)?,
        Row::TruncatesUnderAWrite => truncates_under_a_write(rt, alloc, core)?,
        Row::Syncs => syncs(rt, alloc, core)?,
        Row::SyncsOnePage => syncs_one_page(rt, alloc, core)?,
        Row::Finishes => finishes(rt, alloc, core)?,
    }
    Ok(())
}

/// Runs a row over a new cache.
fn over_a_cache(rt: &impl Abort, alloc: Global, row: Row) -> Result<(), Refusal> {
    // in a box, since the check is slow where a cache itself goes out of scope
    let mut core = Box::new(
        alloc,
        CacheCore::new(alloc, &Geometry::new(16, 48, 16, 64)?, 7)?,
    )?;
    run(rt, alloc, &mut core, row)
}

#[test]
fn an_empty_file_reads_no_bytes_and_an_append_makes_it_longer(rt: HostRuntime) -> Result<(), Fail> {
    over_a_cache(&rt, rt.alloc(), Row::Appends)?;
    Ok(())
}

#[test]
fn a_gap_reads_as_zeros_once_its_page_is_filled(rt: HostRuntime) -> Result<(), Fail> {
    over_a_cache(&rt, rt.alloc(), Row::LeavesAGap)?;
    Ok(())
}

#[test]
fn a_write_touches_sixteen_pages_at_most(rt: HostRuntime) -> Result<(), Fail> {
    over_a_cache(&rt, rt.alloc(), Row::WritesManyPages)?;
    Ok(())
}

#[test]
fn a_seventeenth_dirty_page_is_refused(rt: HostRuntime) -> Result<(), Fail> {
    over_a_cache(&rt, rt.alloc(), Row::DirtiesPages)?;
    Ok(())
}

#[test]
fn a_file_ends_at_2_to_the_40_at_most(rt: HostRuntime) -> Result<(), Fail> {
    over_a_cache(&rt, rt.alloc(), Row::WritesTheLastByte)?;
    Ok(())
}

#[test]
fn a_closed_number_is_given_out_again(rt: HostRuntime) -> Result<(), Fail> {
    over_a_cache(&rt, rt.alloc(), Row::ClosesAndOpens)?;
    Ok(())
}

#[test]
fn a_flush_gives_a_job_with_the_bytes_of_the_lowest_dirty_page(
    rt: HostRuntime,
) -> Result<(), Fail> {
    over_a_cache(&rt, rt.alloc(), Row::Flushes)?;
    Ok(())
}

#[test]
fn an_idle_page_is_evicted_and_a_dirty_one_stays(rt: HostRuntime) -> Result<(), Fail> {
    over_a_cache(&rt, rt.alloc(), Row::Evicts)?;
    Ok(())
}

#[test]
fn a_truncation_cuts_pages_off_and_zeroes_the_tail_of_the_last(
    rt: HostRuntime,
) -> Result<(), Fail> {
    over_a_cache(&rt, rt.alloc(), Row::Truncates)?;
    Ok(())
}

#[test]
fn a_page_under_a_write_may_be_cut(rt: HostRuntime) -> Result<(), Fail> {
    over_a_cache(&rt, rt.alloc(), Row::TruncatesUnderAWrite)?;
    Ok(())
}

#[test]
fn a_sync_writes_the_dirty_pages_and_waits_for_the_first(rt: HostRuntime) -> Result<(), Fail> {
    over_a_cache(&rt, rt.alloc(), Row::Syncs)?;
    Ok(())
}

#[test]
fn a_sync_of_one_page_leaves_the_other(rt: HostRuntime) -> Result<(), Fail> {
    over_a_cache(&rt, rt.alloc(), Row::SyncsOnePage)?;
    Ok(())
}

#[test]
fn a_sync_of_no_dirty_page_is_clean_at_once(rt: HostRuntime) -> Result<(), Fail> {
    over_a_cache(&rt, rt.alloc(), Row::Finishes)?;
    Ok(())
}
