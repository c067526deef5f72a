//! Trails that are written by hand, and whether they replay.

use crate::checks::{check, same};
use machine::{End, Event, Outcome, Reply};
use pc_types::{BlockNo, Bytes, FileId, HandleId, Kind, PageIndex, Refusal, Serial};
use std::alloc::Global;
use std::process::Abort;
use std::test::Fail;
use trail::{Entry, FullTrail, Reserve, Trail, first_odd, replay_plain};

const HANDLE: HandleId = HandleId(0);

const LARGEST: u64 = 1 << 40;

pub const NONE: Reserve = Reserve {
    fills: 0,
    others: 0,
};

pub fn none(alloc: Global) -> Bytes {
    Bytes::from_vec(Vec::new(alloc))
}

/// Adds an entry, where there is room for it beside nothing.
pub fn put<T: Trail>(trail: &mut T, event: Event, reply: Reply, bytes: &[u8]) -> bool {
    let entry = Entry {
        seat: 0,
        event,
        reply,
    };
    if trail.has_room(16, &NONE, 1, bytes.len() as u64) {
        trail.append(entry, bytes);
        true
    } else {
        false
    }
}

/// What is changed in the trail.
#[derive(Clone, Copy, PartialEq, Eq)]
enum Change {
    Nothing,
    ReadByte,
    WrittenByte,
    Count,
    Number,
    Size,
    Miss,
    Fill,
}

fn written(alloc: Global, trail: &mut FullTrail, change: Change) {
    let file = if change == Change::Number { 1 } else { 0 };
    put(trail, Event::Create, Reply::File(FileId(file)), &[]);
    put(trail, Event::Open(FileId(0)), Reply::Handle(HANDLE), &[]);
    let byte = if change == Change::WrittenByte {
        0xab
    } else {
        0xaa
    };
    let count = if change == Change::Count { 2 } else { 1 };
    let write = Event::Write(HANDLE, 0, none(alloc));
    put(trail, write, Reply::Wrote(count, 1), &[byte]);
    let byte = if change == Change::ReadByte {
        0xab
    } else {
        0xaa
    };
    let read = Event::Read(HANDLE, 0, 1);
    if change == Change::Miss {
        put(trail, read, Reply::Miss(PageIndex(0)), &[]);
    } else {
        put(trail, read, Reply::Bytes(none(alloc)), &[byte]);
    }
    if change == Change::Size {
        put(trail, Event::Size(HANDLE), Reply::Size(2), &[]);
    }
    if change == Change::Fill {
        let end = End {
            cache: 9,
            kind: Kind::Fill,
            serial: Serial(3),
            block: BlockNo(0),
            outcome: Outcome::Read(none(alloc)),
        };
        put(
            trail,
            Event::End(Kind::Fill, end),
            Reply::Filled,
            &[1, 2, 3],
        );
    }
}

/// The changed trail disagrees at this place first.
fn replays(
    rt: &impl Abort,
    alloc: Global,
    change: Change,
    odd: Option<u64>,
) -> Result<(), Refusal> {
    let mut trail = FullTrail::new(alloc, 8, 8)?;
    trail.begin(7);
    written(alloc, &mut trail, change);
    same(rt, first_odd(alloc, &trail)?, odd);
    let checked = replay_plain(alloc, &trail)?;
    same(rt, checked.is_some(), odd.is_none());
    same(rt, trail.cache(), Some(7));
    Ok(())
}

// An entry of no successful call may have any answer.
#[test]
fn agreeing_trails_replay(rt: HostRuntime) -> Result<(), Fail> {
    let alloc = rt.alloc();
    check(&rt, replays(&rt, alloc, Change::Nothing, None).is_ok());
    check(&rt, replays(&rt, alloc, Change::Miss, None).is_ok());
    check(&rt, replays(&rt, alloc, Change::Fill, None).is_ok());
    Ok(())
}

// One byte that is changed, or one number, and the trail does not replay.
#[test]
fn other_trails_do_not(rt: HostRuntime) -> Result<(), Fail> {
    let alloc = rt.alloc();
    check(&rt, replays(&rt, alloc, Change::ReadByte, Some(3)).is_ok());
    check(
        &rt,
        replays(&rt, alloc, Change::WrittenByte, Some(3)).is_ok(),
    );
    check(&rt, replays(&rt, alloc, Change::Count, Some(2)).is_ok());
    check(&rt, replays(&rt, alloc, Change::Number, Some(0)).is_ok());
    check(&rt, replays(&rt, alloc, Change::Size, Some(4)).is_ok());
    Ok(())
}

pub fn wrote(alloc: Global, trail: &mut FullTrail, offset: u64, bytes: &[u8]) {
    let len = bytes.len() as u64;
    let reply = Reply::Wrote(len, offset.saturating_add(len));
    put(
        trail,
        Event::Write(HANDLE, offset, none(alloc)),
        reply,
        bytes,
    );
}

pub fn read(alloc: Global, trail: &mut FullTrail, offset: u64, count: u64, bytes: &[u8]) {
    let reply = Reply::Bytes(none(alloc));
    put(trail, Event::Read(HANDLE, offset, count), reply, bytes);
}

pub fn truncated(trail: &mut FullTrail, size: u64) {
    put(trail, Event::Truncate(HANDLE, size), Reply::Done, &[]);
}

pub fn opened(trail: &mut FullTrail) {
    trail.begin(7);
    put(trail, Event::Create, Reply::File(FileId(0)), &[]);
    put(trail, Event::Open(FileId(0)), Reply::Handle(HANDLE), &[]);
}

// A file of 2^40 bytes takes no more memory than what is written to it.
#[test]
fn a_truncation_to_2_40_replays(rt: HostRuntime) -> Result<(), Fail> {
    let alloc = rt.alloc();
    let Ok(mut trail) = FullTrail::new(alloc, 16, 64) else {
        return Ok(());
    };
    opened(&mut trail);
    wrote(alloc, &mut trail, 0, &[0xaa]);
    truncated(&mut trail, LARGEST);
    read(alloc, &mut trail, 0, 3, &[0xaa, 0, 0]);
    read(alloc, &mut trail, LARGEST - 1, 4, &[0]);
    read(alloc, &mut trail, LARGEST, 4, &[]);
    wrote(alloc, &mut trail, LARGEST - 1, &[0xbb]);
    read(alloc, &mut trail, LARGEST - 2, 9, &[0, 0xbb]);
    put(&mut trail, Event::Size(HANDLE), Reply::Size(LARGEST), &[]);
    same(&rt, trail.count(), 10);
    let checked = replay_plain(alloc, &trail);
    check(&rt, matches!(&checked, Ok(Some(_))));
    Ok(())
}

fn cut_and_grown(alloc: Global, old: u8) -> Result<bool, Refusal> {
    let mut trail = FullTrail::new(alloc, 16, 64)?;
    opened(&mut trail);
    wrote(alloc, &mut trail, 4094, &[1, 2, 3, 4]);
    read(alloc, &mut trail, 4093, 9, &[0, 1, 2, 3, 4]);
    truncated(&mut trail, 4095);
    truncated(&mut trail, LARGEST);
    read(alloc, &mut trail, 4094, 4, &[1, old, 0, 0]);
    truncated(&mut trail, 0);
    truncated(&mut trail, LARGEST);
    read(alloc, &mut trail, 4094, 2, &[0, 0]);
    Ok(replay_plain(alloc, &trail)?.is_some())
}

// Bytes that were cut off do not come back as the file grows.
#[test]
fn cut_bytes_stay_gone(rt: HostRuntime) -> Result<(), Fail> {
    check(&rt, matches!(cut_and_grown(rt.alloc(), 0), Ok(true)));
    check(&rt, matches!(cut_and_grown(rt.alloc(), 2), Ok(false)));
    Ok(())
}

fn appended(alloc: Global, end: u64) -> Result<bool, Refusal> {
    let mut trail = FullTrail::new(alloc, 16, 64)?;
    opened(&mut trail);
    wrote(alloc, &mut trail, 2, &[7]);
    put(
        &mut trail,
        Event::Append(HANDLE, none(alloc)),
        Reply::Wrote(2, end),
        &[8, 9],
    );
    read(alloc, &mut trail, 0, 9, &[0, 0, 7, 8, 9]);
    put(&mut trail, Event::Close(HANDLE), Reply::Closed, &[]);
    put(
        &mut trail,
        Event::Open(FileId(0)),
        Reply::Handle(HANDLE),
        &[],
    );
    Ok(replay_plain(alloc, &trail)?.is_some())
}

// An append writes at the end of its file, and a handle that was closed is the lowest that is free.
#[test]
fn appends_end_where_they_ended(rt: HostRuntime) -> Result<(), Fail> {
    check(&rt, matches!(appended(rt.alloc(), 5), Ok(true)));
    check(&rt, matches!(appended(rt.alloc(), 6), Ok(false)));
    Ok(())
}
