//! Histories that are written by hand, and what comes of them when they are played again.

use blockdev::{BlockDevice, FaultEffect, MemDevice, ScriptDevice};
use faulty::FaultyDevice;
use machine::{End, Event, Outcome, Reply};
use pc_types::{
    BlockNo, Bytes, ErrCode, FileId, Geometry, HandleId, Kind, PageIndex, Refusal, Serial, SyncId,
};
use playback::{Playback, Verdict, copies_of, copy_of, first_unlike, judge, play_again};
use std::alloc::Global;
use std::process::Abort;
use std::test::Fail;
use trail::{Entry, FullTrail, Reserve, Trail};

const NAME: u64 = 3;

const HANDLE: HandleId = HandleId(0);

const SYNC: SyncId = SyncId(0);

const PAGE: u64 = 16;

const WRITTEN: [u8; 16] = [7; 16];

const NONE: Reserve = Reserve {
    fills: 0,
    others: 0,
};

fn none(alloc: Global) -> Bytes {
    Bytes::from_vec(Vec::new(alloc))
}

fn put(trail: &mut FullTrail, event: Event, reply: Reply, bytes: &[u8]) {
    let entry = Entry {
        seat: 0,
        event,
        reply,
    };
    if trail.has_room(PAGE, &NONE, 1, bytes.len() as u64) {
        trail.append(entry, bytes);
    }
}

/// The end of a request of the first block.
fn end(kind: Kind, serial: u64, outcome: Outcome) -> Event {
    end_of(kind, serial, BlockNo(0), outcome)
}

fn end_of(kind: Kind, serial: u64, block: BlockNo, outcome: Outcome) -> Event {
    let end = End {
        cache: NAME,
        kind,
        serial: Serial(serial),
        block,
        outcome,
    };
    Event::End(kind, end)
}

/// What is changed in the history.
#[derive(Clone, Copy, PartialEq, Eq)]
enum Change {
    Nothing,
    Serial,
    Block,
    Outcome,
    FilledByte,
    ReadByte,
    Stranger,
}

/// A page is written and synced; the first write of it fails where `fault` says so.
fn synced(alloc: Global, trail: &mut FullTrail, change: Change) {
    put(trail, Event::Create, Reply::File(FileId(0)), &[]);
    put(trail, Event::Create, Reply::Refused(Refusal::Memory), &[]);
    put(trail, Event::Open(FileId(0)), Reply::Handle(HANDLE), &[]);
    let write = Event::Write(HANDLE, 0, none(alloc));
    put(trail, write, Reply::Wrote(16, 16), &WRITTEN);
    let begin = Event::SyncBegin(HANDLE, PageIndex(0), PageIndex(9));
    put(trail, begin, Reply::Sync(SYNC), &[]);
    let serial = if change == Change::Serial { 1 } else { 0 };
    put(
        trail,
        Event::SyncStep(SYNC),
        Reply::Job(Serial(serial)),
        &[],
    );
    let outcome = if change == Change::Outcome {
        Outcome::Read(none(alloc))
    } else {
        Outcome::Written
    };
    let block = BlockNo(u32::from(change == Change::Block));
    let written = end_of(Kind::Flush, 0, block, outcome);
    put(trail, written, Reply::Written, &[]);
    put(trail, Event::SyncStep(SYNC), Reply::Clean, &[]);
}

/// It is evicted, filled, and read.
fn filled(alloc: Global, trail: &mut FullTrail, change: Change) {
    put(trail, Event::Age, Reply::Aged(0), &[]);
    let evicted = Reply::Evicted(FileId(0), PageIndex(0));
    put(trail, Event::Evict, evicted, &[]);
    let stranger = if change == Change::Stranger { 1 } else { 9 };
    let begin = Event::FillBegin(HANDLE, PageIndex(0));
    put(trail, begin, Reply::Job(Serial(1)), &[]);
    let refused = Reply::Refused(Refusal::Stranger);
    put(
        trail,
        end(Kind::Fill, stranger, Outcome::Read(none(alloc))),
        refused,
        &[],
    );
    let mut bytes = WRITTEN;
    if change == Change::FilledByte {
        bytes[3] = 8;
    }
    let outcome = Outcome::Read(none(alloc));
    put(trail, end(Kind::Fill, 1, outcome), Reply::Filled, &bytes);
    let read = Event::Read(HANDLE, 1, 2);
    let byte = if change == Change::ReadByte { 8 } else { 7 };
    put(trail, read, Reply::Bytes(none(alloc)), &[7, byte]);
}

/// A flush that fails, and what is told of it.
fn failed(alloc: Global, trail: &mut FullTrail, code: ErrCode) {
    put(trail, Event::Create, Reply::File(FileId(0)), &[]);
    put(trail, Event::Open(FileId(0)), Reply::Handle(HANDLE), &[]);
    let write = Event::Write(HANDLE, 0, none(alloc));
    put(trail, write, Reply::Wrote(16, 16), &WRITTEN);
    put(
        trail,
        Event::FlushBegin(FileId(0)),
        Reply::Job(Serial(0)),
        &[],
    );
    let end = end(Kind::Flush, 0, Outcome::Fault(code));
    put(trail, end, Reply::Failed(code), &[]);
    put(trail, Event::Size(HANDLE), Reply::Size(16), &[]);
}

fn play(alloc: Global, trail: &FullTrail, effect: FaultEffect) -> Result<Playback, Refusal> {
    let geometry = Geometry::new(PAGE, 48, 16, 4)?;
    let device = ScriptDevice::new(alloc, PAGE, 4)?;
    play_again(alloc, &geometry, NAME, trail, device, effect)
}

/// The place of the first entry that does not agree.
fn odd_in(alloc: Global, trail: &FullTrail) -> Result<Option<u64>, Refusal> {
    match play(alloc, trail, FaultEffect::Old)? {
        Playback::Agrees(device) => {
            drop(device);
            Ok(None)
        }
        Playback::Odd(place) => Ok(Some(place)),
    }
}

fn odd_by(alloc: Global, change: Change) -> Result<Option<u64>, Refusal> {
    let mut trail = FullTrail::new(alloc, 32, 100)?;
    trail.begin(NAME);
    synced(alloc, &mut trail, change);
    filled(alloc, &mut trail, change);
    odd_in(alloc, &trail)
}

#[test]
fn an_entry_that_is_not_the_worlds_is_told(rt: HostRuntime) -> Result<(), Fail> {
    let alloc = rt.alloc();
    assert_eq!(&rt; odd_by(alloc, Change::Nothing)?, None);
    assert_eq!(&rt; odd_by(alloc, Change::Serial)?, Some(5));
    assert_eq!(&rt; odd_by(alloc, Change::Block)?, Some(6));
    assert_eq!(&rt; odd_by(alloc, Change::Outcome)?, Some(6));
    assert_eq!(&rt; odd_by(alloc, Change::Stranger)?, Some(11));
    assert_eq!(&rt; odd_by(alloc, Change::FilledByte)?, Some(12));
    assert_eq!(&rt; odd_by(alloc, Change::ReadByte)?, Some(13));
    Ok(())
}

/// The first block of a device that is unlike what the history leaves, by both effects. In the device a write was made.
fn unlike(alloc: Global, trail: &FullTrail, written: u32) -> Result<Option<u64>, Refusal> {
    let mut device = MemDevice::new(alloc, PAGE, 4)?;
    if written < 4 {
        let _ = device.write(BlockNo(written), &WRITTEN);
    }
    let old = play(alloc, trail, FaultEffect::Old)?;
    let new = play(alloc, trail, FaultEffect::New)?;
    match (old, new) {
        (Playback::Agrees(old), Playback::Agrees(new)) => {
            first_unlike(alloc, &mut device, &old, &new)
        }
        _ => Ok(Some(9)),
    }
}

#[test]
fn a_device_with_another_block_is_told(rt: HostRuntime) -> Result<(), Fail> {
    let alloc = rt.alloc();
    let mut trail = FullTrail::new(alloc, 32, 100)?;
    trail.begin(NAME);
    synced(alloc, &mut trail, Change::Nothing);
    filled(alloc, &mut trail, Change::Nothing);
    assert_eq!(&rt; unlike(alloc, &trail, 0)?, None);
    assert_eq!(&rt; unlike(alloc, &trail, 1)?, Some(0));
    Ok(())
}

/// What the history says of a device that is zeros first, and has one block written then.
fn judged(alloc: Global, trail: &FullTrail, written: u32) -> Result<Option<Verdict>, Refusal> {
    let geometry = Geometry::new(PAGE, 48, 16, 4)?;
    let mut device = MemDevice::new(alloc, PAGE, 4)?;
    let Ok(copies) = copies_of(alloc, &mut device)? else {
        return Ok(None);
    };
    if u64::from(written) < device.blocks() {
        let _ = device.write(BlockNo(written), &WRITTEN);
    }
    let verdict = judge(alloc, &geometry, NAME, trail, copies, &mut device)?;
    Ok(Some(verdict))
}

#[test]
fn a_device_is_judged(rt: HostRuntime) -> Result<(), Fail> {
    let alloc = rt.alloc();
    let mut trail = FullTrail::new(alloc, 32, 100)?;
    trail.begin(NAME);
    synced(alloc, &mut trail, Change::Nothing);
    filled(alloc, &mut trail, Change::Nothing);
    assert_eq!(&rt; judged(alloc, &trail, 0)?, Some(Verdict::AllAlike));
    assert_eq!(&rt; judged(alloc, &trail, 3)?, Some(Verdict::Unlike(0)));
    let mut odd = FullTrail::new(alloc, 32, 100)?;
    odd.begin(NAME);
    synced(alloc, &mut odd, Change::Nothing);
    filled(alloc, &mut odd, Change::FilledByte);
    assert_eq!(&rt; judged(alloc, &odd, 0)?, Some(Verdict::OddEntry(12)));
    Ok(())
}

/// A write that failed may have left its block with its bytes, and so the block is passed over.
#[test]
fn a_fault_is_played(rt: HostRuntime) -> Result<(), Fail> {
    let alloc = rt.alloc();
    let mut trail = FullTrail::new(alloc, 32, 100)?;
    trail.begin(NAME);
    failed(alloc, &mut trail, ErrCode::IO);
    assert_eq!(&rt; odd_in(alloc, &trail)?, None);
    assert_eq!(&rt; unlike(alloc, &trail, 0)?, None);
    assert_eq!(&rt; unlike(alloc, &trail, 1)?, Some(1));
    Ok(())
}

/// A copy has the blocks of a device, and none is made of one that can't be read.
#[test]
fn a_device_is_copied(rt: HostRuntime) -> Result<(), Fail> {
    let alloc = rt.alloc();
    let mut device = MemDevice::new(alloc, PAGE, 2)?;
    let _ = device.write(BlockNo(1), &WRITTEN);
    match copy_of(alloc, &mut device)? {
        Ok(copy) => {
            assert_eq!(&rt; copy.bytes(BlockNo(0)), [0; 16].as_slice());
            assert_eq!(&rt; copy.bytes(BlockNo(1)), WRITTEN.as_slice());
        }
        Err(_) => assert!(&rt; false),
    }
    let mut device = FaultyDevice::new(device, 2);
    assert!(&rt; copy_of(alloc, &mut device)?.is_err());
    Ok(())
}
