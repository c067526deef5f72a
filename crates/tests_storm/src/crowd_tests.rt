//! A storm over few blocks. The refusals of its callers for want of a block are looked at in its history.

use blockdev::MemDevice;
use machine::{Event, Reply};
use pc_types::{Bytes, Refusal};
use std::alloc::{AllocError, Global};
use std::fs::{File, Files};
use std::mem::drop;
use std::sync::Wait;
use std::test::Fail;
use std::thread::Threads;
use storm::{Aftermath, Weather, storm};
use storm_text::{Keeping, Options};
use trail::Entry;
use world::{Step, World};

/// The place of the refusal for want of a block, whose number is 9.
const NO_SPACE: usize = 8;

/// How many calls were refused for want of a block, and how many of these while a dropped request had one.
#[derive(Clone, Copy)]
struct Crowd {
    refused: u64,
    cut: u64,
}

/// Plays the history of a storm again, over memory, with each device call at its request's end. Nothing is answered where a refusal
/// or a serial is not the history's. The world is dropped by a call, since the check is slow where one goes out of scope.
fn crowd_of(alloc: Global, after: &Aftermath) -> Option<Crowd> {
    let geometry = &after.geometry;
    let name = after.trail.cache()?;
    let device = MemDevice::new(alloc, geometry.page(), geometry.blocks()).ok()?;
    match World::new(alloc, geometry, name, device) {
        Ok(mut world) => {
            let crowd = crowd_in(alloc, &mut world, after);
            drop(world);
            crowd
        }
        Err(refused) => {
            drop(refused);
            None
        }
    }
}

fn crowd_in(alloc: Global, world: &mut World<MemDevice>, after: &Aftermath) -> Option<Crowd> {
    let mut crowd = Crowd { refused: 0, cut: 0 };
    for place in 0..after.trail.len() {
        let (entry, bytes) = after.trail.entry(place)?;
        if !agrees(&play(alloc, world, entry, bytes)?, &entry.reply) {
            return None;
        }
        if after.crowded.iter().any(|slip| slip.place == place) {
            crowd.refused = crowd.refused.saturating_add(1);
            crowd.cut = crowd.cut.saturating_add(u64::from(world.holds_cut()));
        }
    }
    Some(crowd)
}

/// Makes the entry's event, and before the end of a request its device call.
fn play(alloc: Global, world: &mut World<MemDevice>, entry: &Entry, bytes: &[u8]) -> Option<Reply> {
    if let Event::End(_, end) = &entry.event {
        let _ = world.call(end.serial);
    }
    let step = step_of(alloc, &entry.event, bytes).ok()?;
    Some(world.step(&step))
}

fn step_of(alloc: Global, event: &Event, bytes: &[u8]) -> Result<Step, AllocError> {
    Ok(match event {
        Event::Create => Step::Create,
        Event::Open(file) => Step::Open(*file),
        Event::Close(handle) => Step::Close(*handle),
        Event::Size(handle) => Step::Size(*handle),
        Event::Read(handle, offset, count) => Step::Read(*handle, *offset, *count),
        Event::Write(handle, offset, _) => Step::Write(*handle, *offset, copy(alloc, bytes)?),
        Event::Append(handle, _) => Step::Append(*handle, copy(alloc, bytes)?),
        Event::Truncate(handle, size) => Step::Truncate(*handle, *size),
        Event::FillBegin(handle, page) => Step::FillBegin(*handle, *page),
        Event::FlushBegin(file) => Step::FlushBegin(*file),
        Event::End(_, end) => Step::End(end.serial),
        Event::Evict => Step::Evict,
        Event::Age => Step::Age,
        Event::SyncBegin(handle, first, last) => Step::SyncBeginRange(*handle, *first, *last),
        Event::SyncStep(sync) => Step::SyncStep(*sync),
        Event::SyncDrop(sync) => Step::SyncDrop(*sync),
    })
}

fn copy(alloc: Global, bytes: &[u8]) -> Result<Bytes, AllocError> {
    let mut copied = Vec::new(alloc);
    copied.extend_from_slice(bytes)?;
    Ok(Bytes::from_vec(copied))
}

/// Whether both are refused, and by the same, or neither; and whether both have begun a request, and of the same serial, or neither.
fn agrees(one: &Reply, other: &Reply) -> bool {
    match (one, other) {
        (Reply::Refused(a), Reply::Refused(b)) => a == b,
        (Reply::Job(a), Reply::Job(b)) => a == b,
        (Reply::Refused(_) | Reply::Job(_), _) | (_, Reply::Refused(_) | Reply::Job(_)) => false,
        _ => true,
    }
}

/// The crowd of a storm of 1,000 calls by eight callers over 40 blocks. Nothing is answered where as many were not counted as refused
/// for want of a block, or the device did not keep one.
fn crowd_of_a_storm<R: Threads + Wait + Files<File = File> + Sync>(
    rt: &R,
    alloc: Global,
) -> Option<Crowd> {
    let options = Options {
        threads: 8,
        steps: 125,
        path: None,
    };
    let weather = Weather {
        seed: 1,
        faults: 0,
        blocks: 40,
    };
    match storm(rt, alloc, options, weather) {
        Ok(after) => {
            let counted = after.refused.times[NO_SPACE];
            let device = after.device;
            let crowd = crowd_of(alloc, &after);
            drop(after);
            match crowd {
                Some(crowd) if crowd.refused == counted && device == Keeping::Kept => Some(crowd),
                _ => None,
            }
        }
        Err(_) => None,
    }
}

/// A call is refused for want of a block only by an entry at which no request in flight has one that will be free.
#[test]
fn no_call_is_refused_for_a_block_that_will_be_free(rt: HostRuntime) -> Result<(), Fail> {
    let crowd = crowd_of_a_storm(&rt, rt.alloc());
    let is_so = matches!(
        crowd,
        Some(Crowd {
            refused: 1..,
            cut: 0
        })
    );
    assert!(&rt; is_so);
    Ok(())
}
