//! Runs of which each device call fails in turn, with the old bytes left and with the new ones: each answer is that of plain files, an
//! fsync tells of the failure exactly once, and the last one succeeds.

use crate::checks::{check, same};
use blockdev::{Fault, FaultEffect};
use pc_types::{ErrCode, Geometry, Refusal};
use std::alloc::Global;
use std::process::Abort;
use std::test::Fail;
use storm_text::Refused;
use torture::{Call, Calls, Failing, Made, Piece, Plan, Played, Room, play};

/// A run that is played again and again.
#[derive(Drop)]
struct Bench {
    alloc: Global,
    room: Room,
    plan: Plan,
}

impl Bench {
    /// Runs of one file, over pages of 16 bytes, 48 frames, 16 pages that may be dirty and 64 blocks.
    fn new(alloc: Global) -> Option<Bench> {
        let plan = Plan {
            seed: 0,
            round: 0,
            geometry: Geometry::new(16, 48, 16, 64).ok()?,
            files: 1,
            pages: 64,
            failing: Failing::OneOf(0),
            calls: 0,
            forgets: None,
        };
        Bench::of(alloc, plan)
    }

    /// A round that is drawn.
    fn drawn(alloc: Global, seed: u64) -> Option<Bench> {
        Bench::of(alloc, Plan::new(seed, 0).ok()?)
    }

    fn of(alloc: Global, plan: Plan) -> Option<Bench> {
        Some(Bench {
            alloc,
            room: Room::new(alloc).ok()?,
            plan,
        })
    }

    /// Plays the calls, of whose device calls this one fails.
    fn play(&mut self, calls: Calls<'_>, number: u64, effect: FaultEffect) -> Option<Played> {
        let fault = Fault {
            code: ErrCode::new(28).ok()?,
            effect,
        };
        self.plan.failing = Failing::At(number, fault);
        play(self.alloc, &mut self.room, &self.plan, calls).ok()
    }
}

/// Whether all answers were those of plain files, and the last fsync succeeded.
fn is_well(played: &Played) -> bool {
    played.wrong.is_none() && played.synced
}

/// By which numbers calls are refused, each once.
fn refused(numbers: &[Refusal]) -> Refused {
    let mut refused = Refused::none();
    for number in numbers.iter() {
        refused.count(*number);
    }
    refused
}

/// How many device calls the run makes where none fails.
fn count_calls(rt: &impl Abort, bench: &mut Bench, calls: Calls<'_>) -> u64 {
    match bench.play(calls, u64::MAX, FaultEffect::Old) {
        Some(played) => {
            check(rt, is_well(&played));
            same(rt, played.faults, 0);
            same(rt, played.refused, Refused::none());
            played.device_calls
        }
        None => 0,
    }
}

/// Each device call of the run fails in turn, and is told of once.
fn fails_in_turn(rt: &impl Abort, bench: &mut Bench, calls: &[Made]) -> u64 {
    let count = count_calls(rt, bench, Calls::Given(calls));
    for number in 0..count {
        for effect in [FaultEffect::Old, FaultEffect::New] {
            if let Some(played) = bench.play(Calls::Given(calls), number, effect) {
                check(rt, is_well(&played));
                same(rt, played.faults, 1);
                same(rt, played.refused.times[13], 1);
            }
        }
    }
    count
}

/// A call by the first handle.
fn made(call: Call) -> Made {
    Made { at: 1, call }
}

fn pwrite(offset: u64, count: usize) -> Made {
    made(Call::Pwrite(offset, Piece { from: 7, count }))
}

fn pread(offset: u64, count: usize) -> Made {
    made(Call::Pread(offset, count))
}

/// A write that an fsync writes back: by device call 0, and flushes, by call 1.
#[test]
fn one_page_is_synced(rt: HostRuntime) -> Result<(), Fail> {
    let fsync = made(Call::Fsync);
    let calls = [pwrite(0, 1), fsync, fsync, fsync, fsync, fsync];
    let Some(mut bench) = Bench::new(rt.alloc()) else {
        return Ok(());
    };
    let count = fails_in_turn(&rt, &mut bench, &calls);
    // the third reads the page back
    same(&rt, count, 3);
    drop(bench);
    Ok(())
}

/// As many pages as may be dirty, and one more. Where the page that makes room for it is not written, the write is refused; of the other
/// calls none is.
#[test]
fn a_page_makes_room(rt: HostRuntime) -> Result<(), Fail> {
    let fsync = made(Call::Fsync);
    let calls = [pwrite(0, 256), pwrite(256, 1), fsync, fsync];
    let Some(mut bench) = Bench::new(rt.alloc()) else {
        return Ok(());
    };
    // 17 writes, a flush, and the reads of 17 pages
    same(&rt, fails_in_turn(&rt, &mut bench, &calls), 35);
    let both = refused(&[Refusal::DirtyLimit, Refusal::Io(ErrCode::IO)]);
    let first = bench.play(Calls::Given(&calls), 0, FaultEffect::Old);
    check(&rt, first.is_some_and(|played| played.refused == both));
    let second = bench.play(Calls::Given(&calls), 1, FaultEffect::Old);
    let one = refused(&[Refusal::Io(ErrCode::IO)]);
    check(&rt, second.is_some_and(|played| played.refused == one));
    drop(bench);
    Ok(())
}

/// Three pages, an fsync and two reads.
#[test]
fn three_pages_are_synced_and_read(rt: HostRuntime) -> Result<(), Fail> {
    let fsync = made(Call::Fsync);
    let read = pread(0, 1);
    let calls = [pwrite(0, 48), fsync, read, read, fsync, fsync];
    let Some(mut bench) = Bench::new(rt.alloc()) else {
        return Ok(());
    };
    // 3 writes, a flush, and 3 reads
    same(&rt, fails_in_turn(&rt, &mut bench, &calls), 7);
    drop(bench);
    Ok(())
}

/// More pages than frames: pages are written to make room, and filled again.
#[test]
fn pages_come_and_go(rt: HostRuntime) -> Result<(), Fail> {
    let alloc = rt.alloc();
    let Some(mut bench) = Bench::new(alloc) else {
        return Ok(());
    };
    let mut calls = Vec::new(alloc);
    for part in 0..8u64 {
        calls.push(pwrite(part * 128, 128))?;
    }
    for part in 0..8u64 {
        calls.push(pread(part * 128, 128))?;
    }
    calls.push(made(Call::Fsync))?;
    calls.push(made(Call::Fsync))?;
    // 64 pages are written and read at least
    check(&rt, fails_in_turn(&rt, &mut bench, &calls) >= 128);
    drop(bench);
    Ok(())
}

/// Each of the first device calls of a round that is drawn fails in turn. Answers the number of them.
fn fails_in_a_round(rt: &impl Abort, bench: &mut Bench) -> u64 {
    let drawn = bench.plan.calls;
    let Some(ample) = bench.play(Calls::Drawn(drawn), u64::MAX, FaultEffect::Old) else {
        return 0;
    };
    check(rt, ample.wrong.is_none());
    let count = ample.device_calls.min(16);
    for number in 0..count {
        for effect in [FaultEffect::Old, FaultEffect::New] {
            if let Some(played) = bench.play(Calls::Drawn(drawn), number, effect) {
                check(rt, played.wrong.is_none());
                same(rt, played.faults, 1);
            }
        }
    }
    count
}

#[test]
fn rounds_agree_where_a_call_fails(rt: HostRuntime) -> Result<(), Fail> {
    for seed in 0..3 {
        let Some(mut bench) = Bench::drawn(rt.alloc(), seed) else {
            return Ok(());
        };
        check(&rt, fails_in_a_round(&rt, &mut bench) > 0);
        drop(bench);
    }
    Ok(())
}
