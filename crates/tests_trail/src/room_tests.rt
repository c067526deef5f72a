//! The room of a trail.

use crate::checks::{check, same};
use crate::tests::{NONE, none, put};
use machine::{Event, Reply};
use pc_types::{HandleId, Refusal};
use std::alloc::Global;
use std::process::Abort;
use std::test::Fail;
use trail::{FullTrail, NoTrail, Reserve, Trail};

const HANDLE: HandleId = HandleId(0);

const PAGE: u64 = 16;

/// A fill, a flush and a sync are in flight: three entries, and a page of bytes.
const IN_FLIGHT: Reserve = Reserve {
    fills: 1,
    others: 2,
};

fn fits(trail: &FullTrail, reserved: &Reserve, need: (u64, u64)) -> bool {
    trail.has_room(PAGE, reserved, need.0, need.1)
}

// A trail with just the room that an event needs has it, and with one entry or one byte less it has not; and so beside
// what is in flight.
fn is_full_at(
    rt: &impl Abort,
    alloc: Global,
    need: (u64, u64),
    one_less: (u64, u64),
) -> Result<(), Refusal> {
    let trail = FullTrail::new(alloc, need.0, need.1)?;
    check(rt, fits(&trail, &NONE, need));
    check(rt, !fits(&trail, &IN_FLIGHT, need));
    let trail = FullTrail::new(alloc, one_less.0, need.1)?;
    check(rt, !fits(&trail, &NONE, need));
    let trail = FullTrail::new(alloc, need.0, one_less.1)?;
    same(rt, fits(&trail, &NONE, need), need.1 == 0);
    Ok(())
}

fn has_room_beside(rt: &impl Abort, alloc: Global) -> Result<(), Refusal> {
    let trail = FullTrail::new(alloc, 5, 20)?;
    check(rt, fits(&trail, &IN_FLIGHT, (2, 4)));
    check(rt, !fits(&trail, &IN_FLIGHT, (3, 4)));
    check(rt, !fits(&trail, &IN_FLIGHT, (2, 5)));
    check(rt, !fits(&trail, &IN_FLIGHT, (u64::MAX, 0)));
    check(rt, !fits(&trail, &IN_FLIGHT, (0, u64::MAX)));
    Ok(())
}

// A read of 3 bytes; a write or an append of 2; the begin of a fill; that of a flush, a step of a sync or its begin;
// any other.
#[test]
fn a_trail_is_full_at_each_event(rt: HostRuntime) -> Result<(), Fail> {
    let alloc = rt.alloc();
    check(&rt, is_full_at(&rt, alloc, (1, 3), (0, 2)).is_ok());
    check(&rt, is_full_at(&rt, alloc, (1, 2), (0, 1)).is_ok());
    check(
        &rt,
        is_full_at(&rt, alloc, (2, PAGE), (1, PAGE - 1)).is_ok(),
    );
    check(&rt, is_full_at(&rt, alloc, (2, 0), (1, 0)).is_ok());
    check(&rt, is_full_at(&rt, alloc, (1, 0), (0, 0)).is_ok());
    check(&rt, has_room_beside(&rt, alloc).is_ok());
    Ok(())
}

fn append(alloc: Global, trail: &mut FullTrail) -> bool {
    put(
        trail,
        Event::Append(HANDLE, none(alloc)),
        Reply::Wrote(1, 1),
        &[5],
    )
}

fn fills_up(rt: &impl Abort, alloc: Global) -> Result<(), Refusal> {
    let mut trail = FullTrail::new(alloc, 2, 1)?;
    same(rt, trail.cache(), None);
    trail.begin(3);
    check(rt, append(alloc, &mut trail));
    check(rt, !append(alloc, &mut trail));
    check(rt, put(&mut trail, Event::Age, Reply::Aged(0), &[]));
    check(rt, !put(&mut trail, Event::Age, Reply::Aged(0), &[]));
    same(rt, trail.len(), 2);
    trail.begin(4);
    same(rt, trail.cache(), Some(4));
    same(rt, trail.len(), 0);
    check(rt, fits(&trail, &NONE, (2, 1)));
    Ok(())
}

#[test]
fn entries_take_room(rt: HostRuntime) -> Result<(), Fail> {
    check(&rt, fills_up(&rt, rt.alloc()).is_ok());
    Ok(())
}

#[test]
fn no_trail_counts(rt: HostRuntime) -> Result<(), Fail> {
    let mut trail = NoTrail::new();
    trail.begin(3);
    check(&rt, put(&mut trail, Event::Age, Reply::Aged(0), &[1, 2, 3]));
    let refused = Reply::Refused(Refusal::BadHandle);
    check(&rt, put(&mut trail, Event::Size(HANDLE), refused, &[]));
    same(&rt, trail.count(), 2);
    check(&rt, trail.has_room(PAGE, &NONE, u64::MAX - 2, u64::MAX));
    check(&rt, !trail.has_room(PAGE, &NONE, u64::MAX - 1, 0));
    check(&rt, !trail.has_room(PAGE, &IN_FLIGHT, u64::MAX - 4, 0));
    Ok(())
}
