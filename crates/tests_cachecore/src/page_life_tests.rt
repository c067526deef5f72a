//! Worked flushes, evictions and truncations, in a cache of 16-byte pages, 48 frames, a dirty limit of 16 and 64 blocks. The ends
//! of requests are run by the tests of the world, which makes device calls.

use crate::checks::{check, same};
use blockdev::Buffer;
use cachecore::{
    CacheCore, FlushBegun, PageTags, ReadAnswer, Refused, TruncateAnswer, WriteAnswer,
};
use pc_types::{FileId, HandleId, Kind, PageIndex, Refusal, Serial, Tag, Tags};
use std::alloc::Global;
use std::process::Abort;

const FILE: FileId = FileId(0);

const HANDLE: HandleId = HandleId(0);

/// Begins a flush with a new buffer.
fn flush(
    alloc: Global,
    core: &mut CacheCore,
    file: FileId,
) -> Result<Result<FlushBegun, Refused>, Refusal> {
    let buffer = Buffer::new(alloc, &core.geometry())?;
    Ok(core.flush_begin(file, buffer))
}

pub fn flushes(rt: &impl Abort, alloc: Global, core: &mut CacheCore) -> Result<(), Refusal> {
    core.write(HANDLE, 0, b"\xaa")?;
    let begun = flush(alloc, core, FILE)?;
    let Ok(FlushBegun::Job(job)) = begun else {
        check(rt, false);
        return Ok(());
    };
    same(rt, job.cache(), 7);
    same(rt, job.serial(), Serial(0));
    check(rt, matches!(job.kind(), Kind::Flush));
    same(
        rt,
        job.bytes(),
        b"\xaa\0\0\0\0\0\0\0\0\0\0\0\0\0\0\0".as_slice(),
    );
    let writing = Tags::none().with(Tag::Writeback);
    same(
        rt,
        core.tags(FILE, PageIndex(0)),
        Ok(PageTags::Cached(writing)),
    );
    let again = flush(alloc, core, FILE)?;
    check(rt, matches!(again, Ok(FlushBegun::Nothing(_))));
    let other = flush(alloc, core, FileId(1))?;
    check(
        rt,
        matches!(
            other,
            Err(Refused {
                refusal: Refusal::NoSuchFile,
                ..
            })
        ),
    );
    Ok(())
}

pub fn evicts(rt: &impl Abort, alloc: Global, core: &mut CacheCore) -> Result<(), Refusal> {
    core.write(HANDLE, 20, b"\xff")?;
    same(rt, core.evict(), None);
    let buffer = Buffer::new(alloc, &core.geometry())?;
    let _ = core.fill_begin(HANDLE, PageIndex(0), buffer);
    same(rt, core.age(), 0);
    same(rt, core.evict(), Some((FILE, PageIndex(0))));
    same(rt, core.tags(FILE, PageIndex(0)), Ok(PageTags::Absent));
    same(rt, core.evict(), None);
    let dirty = Tags::none().with(Tag::Dirty);
    same(
        rt,
        core.tags(FILE, PageIndex(1)),
        Ok(PageTags::Cached(dirty)),
    );
    Ok(())
}

pub fn truncates(rt: &impl Abort, core: &mut CacheCore) -> Result<(), Refusal> {
    core.write(HANDLE, 0, &[0xab; 40])?;
    same(rt, core.truncate(HANDLE, 20), Ok(TruncateAnswer::Done));
    same(rt, core.size(HANDLE), Ok(20));
    same(rt, core.tags(FILE, PageIndex(2)), Ok(PageTags::Absent));
    same(rt, core.truncate(HANDLE, 32), Ok(TruncateAnswer::Done));
    let mut out = [9; 16];
    same(
        rt,
        core.read(HANDLE, 16, &mut out),
        Ok(ReadAnswer::Bytes(16)),
    );
    same(rt, out, *b"\xab\xab\xab\xab\0\0\0\0\0\0\0\0\0\0\0\0");
    same(
        rt,
        core.truncate(HANDLE, 1_099_511_627_777),
        Err(Refusal::TooLarge),
    );
    same(rt, core.truncate(HandleId(1), 0), Err(Refusal::BadHandle));
    Ok(())
}

/// A truncation that cuts into a page of which a write is in flight, and one that cuts the page off.
pub fn truncates_under_a_write(
    rt: &impl Abort,
    alloc: Global,
    core: &mut CacheCore,
) -> Result<(), Refusal> {
    core.write(HANDLE, 0, &[0x11; 16])?;
    let begun = flush(alloc, core, FILE)?;
    check(rt, matches!(begun, Ok(FlushBegun::Job(_))));
    same(rt, core.truncate(HANDLE, 4), Ok(TruncateAnswer::Done));
    let both = Tags::none().with(Tag::Dirty).with(Tag::Writeback);
    same(
        rt,
        core.tags(FILE, PageIndex(0)),
        Ok(PageTags::Cached(both)),
    );
    same(rt, core.truncate(HANDLE, 0), Ok(TruncateAnswer::Done));
    same(rt, core.tags(FILE, PageIndex(0)), Ok(PageTags::Absent));
    same(
        rt,
        core.write(HANDLE, 0, b"\xbb"),
        Ok(WriteAnswer::Wrote { count: 1, end: 1 }),
    );
    Ok(())
}
