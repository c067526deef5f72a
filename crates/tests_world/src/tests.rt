//! A world over a device in memory, as a caller uses it.

use crate::checks::{check, same};
use blockdev::{FaultEffect, MemDevice, ScriptDevice};
use cachecore::{PageTags, Reply};
use pc_types::{
    Bytes, ErrCode, FileId, Geometry, HandleId, PageIndex, Refusal, Serial, SyncId, Tag, Tags,
};
use std::alloc::{AllocError, Global};
use std::process::Abort;
use world::answers::EndAnswer;
use world::{Step, World};

fn bytes(alloc: Global, items: &[u8]) -> Result<Bytes, AllocError> {
    Ok(Bytes::from_vec(items.to_vec(alloc)?))
}

// A byte past the end leaves a gap: its page has to be filled, and then reads as zeros.
fn play_a_gap(rt: &impl Abort, alloc: Global, world: &mut World<MemDevice>) -> Result<(), Refusal> {
    let handle = HandleId(0);
    let mut steps = Vec::with_capacity(alloc, 6)?;
    steps.push_reserved(Step::Create);
    steps.push_reserved(Step::Open(FileId(0)));
    steps.push_reserved(Step::Write(handle, 20, bytes(alloc, &[255])?));
    steps.push_reserved(Step::Read(handle, 0, 21));
    steps.push_reserved(Step::FillBegin(handle, PageIndex(0)));
    steps.push_reserved(Step::Read(handle, 19, 8));
    let replies = world.play(&steps)?;
    check(rt, matches!(replies.get(2), Some(Reply::Wrote(1, 21))));
    check(
        rt,
        matches!(replies.get(3), Some(Reply::Miss(PageIndex(0)))),
    );
    check(rt, matches!(replies.get(4), Some(Reply::Filled)));
    check(
        rt,
        matches!(replies.get(5), Some(Reply::Bytes(read)) if read.as_slice() == [0, 255].as_slice()),
    );
    let tags = world.tags(FileId(0), PageIndex(1))?;
    check(
        rt,
        matches!(tags, PageTags::Cached(tags) if tags.has(Tag::Dirty)),
    );
    Ok(())
}

// A world in a box, since the check is slow where a world itself goes out of scope.
fn boxed(
    alloc: Global,
    blocks: u64,
    device: ScriptDevice,
) -> Result<Box<World<ScriptDevice>>, Refusal> {
    let geometry = Geometry::new(16, 48, 16, blocks)?;
    let Ok(world) = World::new(alloc, &geometry, 0, device) else {
        return Err(Refusal::BadConfig);
    };
    Ok(Box::new(alloc, world)?)
}

#[test]
fn bytes_give_their_vector_back(rt: HostRuntime) -> Result<(), AllocError> {
    let vec = bytes(rt.alloc(), &[170, 85])?.into_vec();
    same(&rt, vec.as_slice(), [170, 85].as_slice());
    Ok(())
}

#[test]
fn plays_a_gap(rt: HostRuntime) -> Result<(), Refusal> {
    let alloc = rt.alloc();
    let geometry = Geometry::new(16, 48, 16, 64)?;
    let device = MemDevice::new(alloc, 16, 64)?;
    let Ok(world) = World::new(alloc, &geometry, 0, device) else {
        return Err(Refusal::BadConfig);
    };
    let mut world = Box::new(alloc, world)?;
    play_a_gap(&rt, alloc, &mut world)
}

#[test]
fn refuses_another_device(rt: HostRuntime) -> Result<(), Refusal> {
    let alloc = rt.alloc();
    let refused = boxed(alloc, 64, ScriptDevice::new(alloc, 16, 63)?);
    same(&rt, refused.err(), Some(Refusal::BadConfig));
    Ok(())
}

// A world over zeros, with one file that is open.
fn opened(alloc: Global, blocks: u64) -> Result<Box<World<ScriptDevice>>, Refusal> {
    let mut world = boxed(alloc, blocks, ScriptDevice::new(alloc, 16, blocks)?)?;
    world.step(&Step::Create);
    world.step(&Step::Open(FileId(0)));
    Ok(world)
}

fn write(
    world: &mut World<ScriptDevice>,
    alloc: Global,
    offset: u64,
    items: &[u8],
) -> Result<Reply, AllocError> {
    Ok(world.step(&Step::Write(HandleId(0), offset, bytes(alloc, items)?)))
}

fn reads(world: &mut World<ScriptDevice>, count: u64, items: &[u8]) -> bool {
    match world.step(&Step::Read(HandleId(0), 0, count)) {
        Reply::Bytes(read) => read.as_slice() == items,
        _ => false,
    }
}

fn is_dirty(world: &World<ScriptDevice>) -> bool {
    matches!(world.tags(FileId(0), PageIndex(0)), Ok(PageTags::Cached(tags)) if tags.has(Tag::Dirty))
}

fn flush_begins(world: &mut World<ScriptDevice>, serial: Serial) -> bool {
    matches!(world.step(&Step::FlushBegin(FileId(0))), Reply::Job(job) if job == serial)
}

fn sync_begins(world: &mut World<ScriptDevice>) -> bool {
    matches!(
        world.step(&Step::SyncBegin(HandleId(0))),
        Reply::Sync(SyncId(0))
    )
}

fn range_begins(world: &mut World<ScriptDevice>, first: u64, last: u64) -> bool {
    let begin = Step::SyncBeginRange(HandleId(0), PageIndex(first), PageIndex(last));
    matches!(world.step(&begin), Reply::Sync(SyncId(0)))
}

fn sync_starts(world: &mut World<ScriptDevice>, serial: Serial) -> bool {
    matches!(world.step(&Step::SyncStep(SyncId(0))), Reply::Job(job) if job == serial)
}

fn sync_waits(world: &mut World<ScriptDevice>, page: u64) -> bool {
    matches!(world.step(&Step::SyncStep(SyncId(0))), Reply::Wait(PageIndex(found)) if found == page)
}

fn sync_is_clean(world: &mut World<ScriptDevice>) -> bool {
    matches!(world.step(&Step::SyncStep(SyncId(0))), Reply::Clean)
}

fn has_tags(world: &World<ScriptDevice>, page: u64, tags: Tags) -> bool {
    world.tags(FileId(0), PageIndex(page)) == Ok(PageTags::Cached(tags))
}

fn fill_begins(world: &mut World<ScriptDevice>, serial: Serial) -> bool {
    let step = Step::FillBegin(HandleId(0), PageIndex(0));
    matches!(world.step(&step), Reply::Job(job) if job == serial)
}

fn evicts(world: &mut World<ScriptDevice>, page: u64) -> bool {
    matches!(world.step(&Step::Evict), Reply::Evicted(FileId(0), PageIndex(found)) if found == page)
}

// The request ends by a device call that failed with EIO.
fn ends_as(world: &mut World<ScriptDevice>, serial: Serial, answer: EndAnswer) -> bool {
    world.end(serial) == Ok(answer)
}

// The bytes are written, up to this end.
fn writes(
    rt: &impl Abort,
    alloc: Global,
    world: &mut World<ScriptDevice>,
    offset: u64,
    items: &[u8],
    end: u64,
) -> Result<(), AllocError> {
    let reply = write(world, alloc, offset, items)?;
    let all = items.len() as u64;
    check(
        rt,
        matches!(&reply, Reply::Wrote(count, found) if *count == all && *found == end),
    );
    Ok(())
}

fn refuses(rt: &impl Abort, world: &mut World<ScriptDevice>, step: &Step, refusal: Refusal) {
    let reply = world.step(step);
    check(
        rt,
        matches!(&reply, Reply::Refused(found) if *found == refusal),
    );
}

fn cuts(rt: &impl Abort, world: &mut World<ScriptDevice>, size: u64) {
    let reply = world.step(&Step::Truncate(HandleId(0), size));
    check(rt, matches!(reply, Reply::Done));
}

fn calls(rt: &impl Abort, world: &mut World<ScriptDevice>, serial: Serial) {
    check(rt, matches!(world.step(&Step::Call(serial)), Reply::Done));
}

fn ends_written(rt: &impl Abort, world: &mut World<ScriptDevice>, serial: Serial) {
    check(rt, matches!(world.step(&Step::End(serial)), Reply::Written));
}

fn ends_dropped(rt: &impl Abort, world: &mut World<ScriptDevice>, serial: Serial) {
    check(rt, matches!(world.step(&Step::End(serial)), Reply::Dropped));
}

fn ends_filled(rt: &impl Abort, world: &mut World<ScriptDevice>, serial: Serial) {
    check(rt, matches!(world.step(&Step::End(serial)), Reply::Filled));
}

// The device call of a flush is made, and its request ends.
fn written(rt: &impl Abort, world: &mut World<ScriptDevice>, serial: Serial) {
    calls(rt, world, serial);
    ends_written(rt, world, serial);
}

// A page is written back, and its request ends.
fn written_back(rt: &impl Abort, world: &mut World<ScriptDevice>, serial: Serial) {
    check(rt, flush_begins(world, serial));
    written(rt, world, serial);
}

// Writes stop at the dirty limit, and go on after a page is written back.
fn flush_then_write(
    rt: &impl Abort,
    alloc: Global,
    world: &mut World<ScriptDevice>,
) -> Result<(), Refusal> {
    writes(rt, alloc, world, 0, &[171; 256], 256)?;
    check(
        rt,
        matches!(
            write(world, alloc, 256, &[255])?,
            Reply::Refused(Refusal::DirtyLimit)
        ),
    );
    check(
        rt,
        matches!(world.step(&Step::Size(HandleId(0))), Reply::Size(256)),
    );
    written_back(rt, world, Serial(0));
    writes(rt, alloc, world, 256, &[255], 257)?;
    Ok(())
}

// A page that is written again while its flush is in flight stays dirty, and isn't evicted.
fn write_under_a_flush(
    rt: &impl Abort,
    alloc: Global,
    world: &mut World<ScriptDevice>,
) -> Result<(), Refusal> {
    writes(rt, alloc, world, 0, &[170], 1)?;
    check(rt, flush_begins(world, Serial(0)));
    writes(rt, alloc, world, 0, &[187], 1)?;
    calls(rt, world, Serial(0));
    ends_written(rt, world, Serial(0));
    check(rt, is_dirty(world));
    check(rt, reads(world, 1, &[187]));
    check(rt, matches!(world.step(&Step::Evict), Reply::NoneIdle));
    Ok(())
}

// A flush whose call fails leaves its page dirty. Each call and each end comes once, and in this order.
fn fail_a_flush(
    rt: &impl Abort,
    alloc: Global,
    world: &mut World<ScriptDevice>,
) -> Result<(), Refusal> {
    let serial = Serial(0);
    same(
        rt,
        world.fail(serial, ErrCode::IO, FaultEffect::Old),
        Err(Refusal::Stranger),
    );
    writes(rt, alloc, world, 0, &[170], 1)?;
    check(rt, flush_begins(world, Serial(0)));
    refuses(rt, world, &Step::End(serial), Refusal::Stranger);
    same(
        rt,
        world.fail(serial, ErrCode::IO, FaultEffect::Old),
        Ok(()),
    );
    refuses(rt, world, &Step::Call(serial), Refusal::Stranger);
    let failed = EndAnswer::FlushFailed(FileId(0), ErrCode::IO);
    check(rt, ends_as(world, serial, failed));
    check(rt, is_dirty(world));
    check(rt, reads(world, 1, &[170]));
    Ok(())
}

// A page that was evicted is filled before it is cut, and what is past the cut is zeros from then on.
fn cut_an_evicted_page(
    rt: &impl Abort,
    alloc: Global,
    world: &mut World<ScriptDevice>,
) -> Result<(), Refusal> {
    let handle = HandleId(0);
    writes(rt, alloc, world, 0, &[17; 16], 16)?;
    written_back(rt, world, Serial(0));
    check(
        rt,
        matches!(
            world.step(&Step::Evict),
            Reply::Evicted(FileId(0), PageIndex(0))
        ),
    );
    check(
        rt,
        matches!(
            world.step(&Step::Truncate(handle, 4)),
            Reply::Miss(PageIndex(0))
        ),
    );
    check(
        rt,
        matches!(
            world.step(&Step::FillBegin(handle, PageIndex(0))),
            Reply::Job(Serial(1))
        ),
    );
    calls(rt, world, Serial(1));
    ends_filled(rt, world, Serial(1));
    cuts(rt, world, 4);
    check(rt, is_dirty(world));
    cuts(rt, world, 16);
    check(
        rt,
        reads(
            world,
            16,
            &[17, 17, 17, 17, 0, 0, 0, 0, 0, 0, 0, 0, 0, 0, 0, 0],
        ),
    );
    Ok(())
}

// The block of a page that was cut off is not given out before its request ends.
fn cut_under_a_flush(
    rt: &impl Abort,
    alloc: Global,
    world: &mut World<ScriptDevice>,
) -> Result<(), Refusal> {
    writes(rt, alloc, world, 0, &[170], 1)?;
    check(rt, flush_begins(world, Serial(0)));
    cuts(rt, world, 0);
    check(
        rt,
        matches!(
            write(world, alloc, 0, &[187])?,
            Reply::Refused(Refusal::NoSpace)
        ),
    );
    calls(rt, world, Serial(0));
    ends_dropped(rt, world, Serial(0));
    refuses(rt, world, &Step::End(Serial(0)), Refusal::Stranger);
    writes(rt, alloc, world, 0, &[187], 1)?;
    check(rt, reads(world, 9, &[187]));
    Ok(())
}

// A fill that was dropped installs nothing.
fn cut_under_a_fill(
    rt: &impl Abort,
    alloc: Global,
    world: &mut World<ScriptDevice>,
) -> Result<(), Refusal> {
    let handle = HandleId(0);
    writes(rt, alloc, world, 0, &[17; 16], 16)?;
    written_back(rt, world, Serial(0));
    check(
        rt,
        matches!(
            world.step(&Step::Evict),
            Reply::Evicted(FileId(0), PageIndex(0))
        ),
    );
    check(
        rt,
        matches!(
            world.step(&Step::FillBegin(handle, PageIndex(0))),
            Reply::Job(Serial(1))
        ),
    );
    check(
        rt,
        matches!(
            world.step(&Step::Read(handle, 0, 1)),
            Reply::Wait(PageIndex(0))
        ),
    );
    cuts(rt, world, 0);
    writes(rt, alloc, world, 0, &[34], 1)?;
    calls(rt, world, Serial(1));
    ends_dropped(rt, world, Serial(1));
    check(rt, reads(world, 16, &[34]));
    check(rt, matches!(world.step(&Step::Age), Reply::Aged(_)));
    Ok(())
}

// An append goes to the end of the file, and a handle that is closed is none.
fn append_and_close(
    rt: &impl Abort,
    alloc: Global,
    world: &mut World<ScriptDevice>,
) -> Result<(), Refusal> {
    let handle = HandleId(0);
    check(rt, reads(world, 10, &[]));
    let append = Step::Append(handle, bytes(alloc, &[170])?);
    check(rt, matches!(world.step(&append), Reply::Wrote(1, 1)));
    check(rt, matches!(world.step(&append), Reply::Wrote(1, 2)));
    check(rt, reads(world, 10, &[170, 170]));
    check(
        rt,
        matches!(world.step(&Step::Close(handle)), Reply::Closed),
    );
    refuses(rt, world, &Step::Size(handle), Refusal::BadHandle);
    check(
        rt,
        matches!(
            world.step(&Step::Open(FileId(0))),
            Reply::Handle(HandleId(0))
        ),
    );
    check(
        rt,
        matches!(world.step(&Step::Size(handle)), Reply::Size(2)),
    );
    Ok(())
}

// The page that is read most is evicted last, and not before the others were used as little. A fill that fails leaves its
// page absent.
fn evict_by_use(
    rt: &impl Abort,
    alloc: Global,
    world: &mut World<ScriptDevice>,
) -> Result<(), Refusal> {
    writes(rt, alloc, world, 0, &[1; 48], 48)?;
    written_back(rt, world, Serial(0));
    written_back(rt, world, Serial(1));
    written_back(rt, world, Serial(2));
    check(
        rt,
        matches!(world.step(&Step::FlushBegin(FileId(0))), Reply::Nothing),
    );
    check(rt, reads(world, 1, &[1]));
    check(rt, reads(world, 1, &[1]));
    check(rt, matches!(world.step(&Step::Age), Reply::Aged(0)));
    check(rt, evicts(world, 1));
    check(rt, evicts(world, 2));
    check(rt, matches!(world.step(&Step::Age), Reply::Aged(1)));
    check(rt, evicts(world, 0));
    check(rt, matches!(world.step(&Step::Evict), Reply::NoneIdle));
    let serial = Serial(3);
    check(rt, fill_begins(world, serial));
    same(
        rt,
        world.fail(serial, ErrCode::IO, FaultEffect::Old),
        Ok(()),
    );
    check(
        rt,
        ends_as(world, serial, EndAnswer::FillFailed(ErrCode::IO)),
    );
    check(
        rt,
        matches!(world.tags(FileId(0), PageIndex(0)), Ok(PageTags::Absent)),
    );
    Ok(())
}

// A late call of a flush whose page was cut off writes to no other page's block.
fn flush_after_a_cut(
    rt: &impl Abort,
    alloc: Global,
    world: &mut World<ScriptDevice>,
) -> Result<(), Refusal> {
    writes(rt, alloc, world, 0, &[170], 1)?;
    check(rt, flush_begins(world, Serial(0)));
    cuts(rt, world, 0);
    writes(rt, alloc, world, 0, &[187], 1)?;
    check(rt, flush_begins(world, Serial(1)));
    calls(rt, world, Serial(1));
    calls(rt, world, Serial(0));
    ends_dropped(rt, world, Serial(0));
    ends_written(rt, world, Serial(1));
    check(rt, evicts(world, 0));
    check(rt, fill_begins(world, Serial(2)));
    calls(rt, world, Serial(2));
    ends_filled(rt, world, Serial(2));
    check(rt, reads(world, 1, &[187]));
    Ok(())
}

// A flush that failed but left its bytes on the block leaves what was written since.
fn fail_over_a_newer_write(
    rt: &impl Abort,
    alloc: Global,
    world: &mut World<ScriptDevice>,
) -> Result<(), Refusal> {
    let serial = Serial(0);
    writes(rt, alloc, world, 0, &[170], 1)?;
    check(rt, flush_begins(world, serial));
    writes(rt, alloc, world, 0, &[187], 1)?;
    same(
        rt,
        world.fail(serial, ErrCode::IO, FaultEffect::New),
        Ok(()),
    );
    let failed = EndAnswer::FlushFailed(FileId(0), ErrCode::IO);
    check(rt, ends_as(world, serial, failed));
    check(rt, is_dirty(world));
    check(rt, reads(world, 1, &[187]));
    let other = world.fail(Serial(9), ErrCode::IO, FaultEffect::Old);
    same(rt, other, Err(Refusal::Stranger));
    Ok(())
}

// A sync writes the pages that were dirty as it began, and no page that became dirty since.
fn write_under_a_sync(
    rt: &impl Abort,
    alloc: Global,
    world: &mut World<ScriptDevice>,
) -> Result<(), Refusal> {
    writes(rt, alloc, world, 0, &[170], 1)?;
    writes(rt, alloc, world, 32, &[187], 33)?;
    check(rt, sync_begins(world));
    writes(rt, alloc, world, 16, &[204], 17)?;
    check(rt, sync_starts(world, Serial(0)));
    check(rt, sync_starts(world, Serial(1)));
    check(rt, sync_waits(world, 0));
    written(rt, world, Serial(0));
    check(rt, sync_waits(world, 2));
    written(rt, world, Serial(1));
    check(rt, sync_is_clean(world));
    check(rt, has_tags(world, 1, Tags::none().with(Tag::Dirty)));
    Ok(())
}

// A page that was written again under a flush is written by the sync too, after that flush has ended.
fn sync_under_a_flush(
    rt: &impl Abort,
    alloc: Global,
    world: &mut World<ScriptDevice>,
) -> Result<(), Refusal> {
    let to_write = Tags::none().with(Tag::Dirty).with(Tag::Towrite);
    writes(rt, alloc, world, 0, &[170], 1)?;
    check(rt, flush_begins(world, Serial(0)));
    writes(rt, alloc, world, 0, &[187], 1)?;
    check(rt, sync_begins(world));
    check(rt, has_tags(world, 0, to_write.with(Tag::Writeback)));
    check(rt, sync_waits(world, 0));
    written(rt, world, Serial(0));
    check(rt, has_tags(world, 0, to_write));
    check(rt, sync_starts(world, Serial(1)));
    check(rt, has_tags(world, 0, Tags::none().with(Tag::Writeback)));
    check(rt, sync_waits(world, 0));
    written(rt, world, Serial(1));
    check(rt, sync_is_clean(world));
    Ok(())
}

// A sync awaits a flush that another has begun.
fn flush_under_a_sync(
    rt: &impl Abort,
    alloc: Global,
    world: &mut World<ScriptDevice>,
) -> Result<(), Refusal> {
    writes(rt, alloc, world, 0, &[170], 1)?;
    check(rt, sync_begins(world));
    check(rt, flush_begins(world, Serial(0)));
    check(rt, sync_waits(world, 0));
    written(rt, world, Serial(0));
    check(rt, sync_is_clean(world));
    Ok(())
}

// A sync of a range tags, starts and awaits pages of the range alone.
fn sync_of_a_range(
    rt: &impl Abort,
    alloc: Global,
    world: &mut World<ScriptDevice>,
) -> Result<(), Refusal> {
    let dirty = Tags::none().with(Tag::Dirty);
    writes(rt, alloc, world, 0, &[170], 1)?;
    check(rt, flush_begins(world, Serial(0)));
    writes(rt, alloc, world, 0, &[171], 1)?;
    writes(rt, alloc, world, 32, &[187], 33)?;
    check(rt, range_begins(world, 2, 5));
    check(rt, has_tags(world, 0, dirty.with(Tag::Writeback)));
    check(rt, has_tags(world, 2, dirty.with(Tag::Towrite)));
    check(rt, sync_starts(world, Serial(1)));
    check(rt, sync_waits(world, 2));
    written(rt, world, Serial(1));
    check(rt, sync_is_clean(world));
    check(rt, has_tags(world, 0, dirty.with(Tag::Writeback)));
    let turned = world.sync_begin_range(HandleId(0), PageIndex(5), PageIndex(4));
    same(rt, turned, Err(Refusal::BadRange));
    Ok(())
}

// A flush that fails does so once, and is no call.
fn flush_the_device(rt: &impl Abort, alloc: Global) -> Result<(), Refusal> {
    let mut device = ScriptDevice::new(alloc, 16, 64)?;
    device.fail_next_flush(ErrCode::IO);
    let mut world = boxed(alloc, 64, device)?;
    same(rt, world.flush_written(), Err(ErrCode::IO));
    same(rt, world.flush(), Ok(()));
    same(rt, world.flush_written(), Ok(()));
    Ok(())
}

// A handle is not closed while a sync of it goes on.
fn close_under_a_sync(rt: &impl Abort, world: &mut World<ScriptDevice>) {
    let handle = HandleId(0);
    check(rt, sync_begins(world));
    refuses(rt, world, &Step::Close(handle), Refusal::Busy);
    check(
        rt,
        matches!(world.step(&Step::SyncDrop(SyncId(0))), Reply::Dropped),
    );
    check(
        rt,
        matches!(world.step(&Step::Close(handle)), Reply::Closed),
    );
    refuses(rt, world, &Step::Size(handle), Refusal::BadHandle);
    let other = world.step(&Step::Open(FileId(1)));
    check(rt, matches!(other, Reply::Refused(Refusal::NoSuchFile)));
}

#[derive(Clone, Copy)]
enum Row {
    FlushThenWrite,
    WriteUnderAFlush,
    FailAFlush,
    CutAnEvictedPage,
    CutUnderAFlush,
    CutUnderAFill,
    AppendAndClose,
    EvictByUse,
    FlushAfterACut,
    FailOverANewerWrite,
    WriteUnderASync,
    SyncUnderAFlush,
    FlushUnderASync,
    SyncOfARange,
    CloseUnderASync,
}

fn run(
    rt: &impl Abort,
    alloc: Global,
    world: &mut World<ScriptDevice>,
    row: Row,
) -> Result<(), Refusal> {
    match row {
        Row::FlushThenWrite => flush_then_write(rt, alloc, world),
        Row::WriteUnderAFlush => write_under_a_flush(rt, alloc, world),
        Row::FailAFlush => fail_a_flush(rt, alloc, world),
        Row::CutAnEvictedPage => cut_an_evicted_page(rt, alloc, world),
        Row::CutUnderAFlush => cut_under_a_flush(rt, alloc, world),
        Row::CutUnderAFill => cut_under_a_fill(rt, alloc, world),
        Row::AppendAndClose => append_and_close(rt, alloc, world),
        Row::EvictByUse => evict_by_use(rt, alloc, world),
        Row::FlushAfterACut => flush_after_a_cut(rt, alloc, world),
        Row::FailOverANewerWrite => fail_over_a_newer_write(rt, alloc, world),
        Row::WriteUnderASync => write_under_a_sync(rt, alloc, world),
        Row::SyncUnderAFlush => sync_under_a_flush(rt, alloc, world),
        Row::FlushUnderASync => flush_under_a_sync(rt, alloc, world),
        Row::SyncOfARange => sync_of_a_range(rt, alloc, world),
        Row::CloseUnderASync => {
            close_under_a_sync(rt, world);
            Ok(())
        }
    }
}

// Runs a row over a new world with so many blocks.
fn over_a_world(rt: &impl Abort, alloc: Global, blocks: u64, row: Row) -> Result<(), Refusal> {
    let mut world = opened(alloc, blocks)?;
    run(rt, alloc, &mut world, row)
}

#[test]
fn a_flush_makes_room_to_write(rt: HostRuntime) -> Result<(), Refusal> {
    over_a_world(&rt, rt.alloc(), 64, Row::FlushThenWrite)
}

#[test]
fn a_newer_write_stays_dirty(rt: HostRuntime) -> Result<(), Refusal> {
    over_a_world(&rt, rt.alloc(), 64, Row::WriteUnderAFlush)
}

#[test]
fn a_failed_flush_dirties_again(rt: HostRuntime) -> Result<(), Refusal> {
    over_a_world(&rt, rt.alloc(), 64, Row::FailAFlush)
}

#[test]
fn a_cut_zeroes_the_tail(rt: HostRuntime) -> Result<(), Refusal> {
    over_a_world(&rt, rt.alloc(), 64, Row::CutAnEvictedPage)
}

#[test]
fn a_cut_block_is_held(rt: HostRuntime) -> Result<(), Refusal> {
    over_a_world(&rt, rt.alloc(), 1, Row::CutUnderAFlush)
}

#[test]
fn a_dropped_fill_changes_nothing(rt: HostRuntime) -> Result<(), Refusal> {
    over_a_world(&rt, rt.alloc(), 64, Row::CutUnderAFill)
}

#[test]
fn appends_then_closes(rt: HostRuntime) -> Result<(), Refusal> {
    over_a_world(&rt, rt.alloc(), 64, Row::AppendAndClose)
}

#[test]
fn the_busiest_page_goes_last(rt: HostRuntime) -> Result<(), Refusal> {
    over_a_world(&rt, rt.alloc(), 64, Row::EvictByUse)
}

#[test]
fn a_late_flush_harms_no_page(rt: HostRuntime) -> Result<(), Refusal> {
    over_a_world(&rt, rt.alloc(), 2, Row::FlushAfterACut)
}

#[test]
fn a_failed_flush_keeps_newer_bytes(rt: HostRuntime) -> Result<(), Refusal> {
    over_a_world(&rt, rt.alloc(), 64, Row::FailOverANewerWrite)
}

#[test]
fn a_sync_writes_what_was_dirty(rt: HostRuntime) -> Result<(), Refusal> {
    over_a_world(&rt, rt.alloc(), 64, Row::WriteUnderASync)
}

#[test]
fn a_sync_writes_newer_bytes(rt: HostRuntime) -> Result<(), Refusal> {
    over_a_world(&rt, rt.alloc(), 64, Row::SyncUnderAFlush)
}

#[test]
fn a_sync_awaits_another_flush(rt: HostRuntime) -> Result<(), Refusal> {
    over_a_world(&rt, rt.alloc(), 64, Row::FlushUnderASync)
}

#[test]
fn a_sync_of_a_range_stays_in_it(rt: HostRuntime) -> Result<(), Refusal> {
    over_a_world(&rt, rt.alloc(), 64, Row::SyncOfARange)
}

#[test]
fn a_device_is_flushed(rt: HostRuntime) -> Result<(), Refusal> {
    flush_the_device(&rt, rt.alloc())
}

#[test]
fn a_sync_keeps_its_handle(rt: HostRuntime) -> Result<(), Refusal> {
    over_a_world(&rt, rt.alloc(), 64, Row::CloseUnderASync)
}
