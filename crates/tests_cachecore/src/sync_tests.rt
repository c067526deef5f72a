//! Worked syncs, in a cache of 16-byte pages, 48 frames, a dirty limit of 16 and 64 blocks. The ends of requests are run by the
//! tests of the world, which makes device calls.

use crate::checks::{check, same};
use blockdev::Buffer;
use cachecore::{CacheCore, PageTags, Refused, SyncStepped};
use pc_types::{FileId, HandleId, PageIndex, Refusal, Serial, SyncId, Tag, Tags};
use std::alloc::Global;
use std::process::Abort;

const FILE: FileId = FileId(0);

const HANDLE: HandleId = HandleId(0);

const SYNC: SyncId = SyncId(0);

/// Makes a step of the sync with a new buffer.
fn step(alloc: Global, core: &mut CacheCore) -> Result<Result<SyncStepped, Refused>, Refusal> {
    let buffer = Buffer::new(alloc, &core.geometry())?;
    Ok(core.sync_step(SYNC, buffer))
}

fn starts(
    rt: &impl Abort,
    alloc: Global,
    core: &mut CacheCore,
    serial: u64,
) -> Result<(), Refusal> {
    let stepped = step(alloc, core)?;
    let Ok(SyncStepped::Job(job)) = stepped else {
        check(rt, false);
        return Ok(());
    };
    same(rt, job.serial(), Serial(serial));
    Ok(())
}

pub fn syncs(rt: &impl Abort, alloc: Global, core: &mut CacheCore) -> Result<(), Refusal> {
    core.write(HANDLE, 0, &[0xab; 20])?;
    same(rt, core.sync_begin(HandleId(1)), Err(Refusal::BadHandle));
    let nothing = core.sync_begin_range(HANDLE, PageIndex(1), PageIndex(0));
    same(rt, nothing, Err(Refusal::BadRange));
    same(rt, core.sync_begin(HANDLE), Ok(SYNC));
    let both = Tags::none().with(Tag::Dirty).with(Tag::Towrite);
    same(
        rt,
        core.tags(FILE, PageIndex(1)),
        Ok(PageTags::Cached(both)),
    );
    starts(rt, alloc, core, 0)?;
    starts(rt, alloc, core, 1)?;
    let waits = step(alloc, core)?;
    check(rt, matches!(waits, Ok(SyncStepped::Wait(PageIndex(0), _))));
    same(rt, core.close(HANDLE), Err(Refusal::Busy));
    same(rt, core.sync_drop(SYNC), Ok(()));
    same(rt, core.sync_drop(SYNC), Err(Refusal::Stranger));
    same(rt, core.close(HANDLE), Ok(()));
    Ok(())
}

pub fn syncs_one_page(rt: &impl Abort, alloc: Global, core: &mut CacheCore) -> Result<(), Refusal> {
    core.write(HANDLE, 0, &[0xab; 20])?;
    let begun = core.sync_begin_range(HANDLE, PageIndex(1), PageIndex(1));
    same(rt, begun, Ok(SYNC));
    let dirty = Tags::none().with(Tag::Dirty);
    same(
        rt,
        core.tags(FILE, PageIndex(0)),
        Ok(PageTags::Cached(dirty)),
    );
    starts(rt, alloc, core, 0)?;
    let waits = step(alloc, core)?;
    check(rt, matches!(waits, Ok(SyncStepped::Wait(PageIndex(1), _))));
    same(
        rt,
        core.tags(FILE, PageIndex(0)),
        Ok(PageTags::Cached(dirty)),
    );
    Ok(())
}

pub fn finishes(rt: &impl Abort, alloc: Global, core: &mut CacheCore) -> Result<(), Refusal> {
    same(rt, core.sync_begin(HANDLE), Ok(SYNC));
    let clean = step(alloc, core)?;
    check(rt, matches!(clean, Ok(SyncStepped::Clean(_))));
    let gone = step(alloc, core)?;
    check(
        rt,
        matches!(
            gone,
            Err(Refused {
                refusal: Refusal::Stranger,
                ..
            })
        ),
    );
    Ok(())
}
