//! Rows over a cache of three shards of names 7, 8 and 9. Each is run by one function, since the check is slow where a cache is dropped.
//! After a row the cache is closed, and each shard's history has to be one of plain files.

ghost use Rattle.std.specs.Prelude.{◌≡◌, ◌<◌, ℕ, All, length};
ghost use Rattle.shared.specs.ShardNames.{names_at};
ghost use Rattle.shared.specs.ShardSeats.{AreSeated};

use crate::byte_rows::{goes_well_in_each, has_numbers, is_seen};
use crate::caller::{Caller, Tested};
use crate::close_rows::{Own, ends_well};
use crate::fault_rows::{tells_at_a_sync, tells_of_a_turn};
use crate::gated_trail::GatedTrail;
use crate::sources::{FIRST, Plan, SHARDS, geometry, sources};
use crate::stand_rows::stands;
use crate::thread_rows::{overlaps, share_a_file, work_apart};
use crate::turnstile::Turnstile;
use crate::worker_rows::{SEATS, keep_up};
use blockdev::ScriptDevice;
use pc_types::Refusal;
use shared::shards::naming::ShardNaming;
use shared::shards::parts::ShardParts;
use shared::shards::seat::ShardSeat;
use std::alloc::Global;
use std::marker::Brand;
use std::mem::drop;
use std::sync::Wait;
use std::test::Fail;
use std::thread::Threads;

#[derive(Clone, Copy)]
enum Row {
    GoesWell,
    HasNumbers,
    IsSeen,
    KeepUp,
    Overlaps,
    ShareAFile,
    Stands,
    TellsAtASync,
    TellsOfATurn,
    WorkApart,
}

impl Row {
    fn plan(self) -> Plan {
        match self {
            Row::KeepUp => Plan::LONG,
            Row::TellsAtASync | Row::TellsOfATurn => Plan::FAILING,
            _ => Plan::SHORT,
        }
    }

    /// How often each shard's device is flushed, where the row says so: by each fsync that succeeds, once.
    fn flushes(self) -> &'static [u64] {
        match self {
            Row::TellsAtASync => &[1, 1, 0],
            _ => &[],
        }
    }

    fn callers(self) -> u64
        ensures { result < 64 }
    {
        match self {
            Row::KeepUp => SEATS,
            Row::TellsOfATurn => 3,
            _ => 2,
        }
    }
}

/// Makes a cache of the parts, runs the row over it, and closes it.
fn runs<'a, B: ShardNaming + Send + Sync, R: Threads + Wait + Sync>(
    rt: &R,
    alloc: Global,
    parts: ShardParts<ScriptDevice, GatedTrail<'a>>,
    mut seats: Vec<ShardSeat>,
    turnstile: &Turnstile,
    row: Row,
) -> bool
    requires shards { B.shards ≡ length parts }
    requires named { (k : ℕ) → k < length parts → B.names k ≡ names_at parts k }
    requires seats { All (AreSeated B.names) seats.items }
{
    let Ok((cache, worker)) = Tested::<'a, B>::of(alloc, parts) else {
        return false;
    };
    let mut own = Own::of(worker);
    if matches!(row, Row::Stands) {
        return stands(rt, alloc, cache, own, seats);
    }
    let is_so = plays(rt, &cache, turnstile, &mut own, &mut seats, row);
    ends_well(rt, alloc, cache, own, seats, row.flushes()) && is_so
}

/// Runs the row. The seats come back.
fn plays<B: ShardNaming + Send + Sync, R: Threads + Wait + Sync>(
    rt: &R,
    cache: &Tested<'_, B>,
    turnstile: &Turnstile,
    own: &mut Own<B>,
    seats: &mut Vec<ShardSeat>,
    row: Row,
) -> bool
    requires { All (AreSeated B.names) seats.old.items }
    ensures { All (AreSeated B.names) seats.new.items }
{
    match row {
        Row::KeepUp => keep_up(rt, cache, own, seats),
        Row::TellsOfATurn => tells_of_a_turn(rt, cache, own, seats),
        _ => by_two(rt, cache, turnstile, seats, row),
    }
}

/// Runs the row by two callers, whose seats come back.
fn by_two<B: ShardNaming + Send + Sync, R: Threads + Wait + Sync>(
    rt: &R,
    cache: &Tested<'_, B>,
    turnstile: &Turnstile,
    seats: &mut Vec<ShardSeat>,
    row: Row,
) -> bool
    requires { All (AreSeated B.names) seats.old.items }
    ensures { All (AreSeated B.names) seats.new.items }
{
    let (Some(mut first), Some(mut second)) = (Caller::last_of(seats), Caller::last_of(seats))
    else {
        return false;
    };
    let is_so = match row {
        Row::HasNumbers => has_numbers(rt, cache, &mut first),
        Row::IsSeen => is_seen(rt, cache, &mut first, &mut second),
        Row::Overlaps => overlaps(rt, cache, turnstile, &mut first, &mut second),
        Row::ShareAFile => share_a_file(rt, cache, &mut first, &mut second),
        Row::TellsAtASync => tells_at_a_sync(rt, cache, &mut first),
        Row::WorkApart => work_apart(rt, cache, &mut first, &mut second),
        _ => goes_well_in_each(rt, cache, &mut first),
    };
    let is_back = first.comes_back(seats);
    let is_other_back = second.comes_back(seats);
    is_back && is_other_back && is_so
}

/// Runs a row over a new cache.
fn over_a_cache<R: Threads + Wait + Sync>(
    rt: &R,
    alloc: Global,
    row: Row,
) -> Result<bool, Refusal> {
    let geometry = geometry()?;
    let turnstile = Turnstile::new();
    let turnstile = &turnstile;
    let sources = sources(alloc, &geometry, SHARDS, FIRST, row.plan(), Some(turnstile))?;
    match ShardParts::make(rt, alloc, &geometry, sources, row.callers()) {
        Ok((parts, seats)) => Ok(runs::<Brand, R>(rt, alloc, parts, seats, turnstile, row)),
        Err(unmade) => {
            let refusal = unmade.refusal;
            drop(unmade);
            Err(refusal)
        }
    }
}

#[test]
fn files_have_numbers(rt: HostRuntime) -> Result<(), Fail> {
    assert!(&rt; over_a_cache(&rt, rt.alloc(), Row::HasNumbers)?);
    Ok(())
}

#[test]
fn each_shard_reads_back(rt: HostRuntime) -> Result<(), Fail> {
    assert!(&rt; over_a_cache(&rt, rt.alloc(), Row::GoesWell)?);
    Ok(())
}

#[test]
fn each_shard_tells_where_its_files_stand(rt: HostRuntime) -> Result<(), Fail> {
    assert!(&rt; over_a_cache(&rt, rt.alloc(), Row::Stands)?);
    Ok(())
}

#[test]
fn a_read_stands_after_the_write_that_its_seat_saw(rt: HostRuntime) -> Result<(), Fail> {
    assert!(&rt; over_a_cache(&rt, rt.alloc(), Row::IsSeen)?);
    Ok(())
}

/// A read in shard 1 is answered while another thread holds the lock of shard 0.
#[test]
fn shard_overlap(rt: HostRuntime) -> Result<(), Fail> {
    assert!(&rt; over_a_cache(&rt, rt.alloc(), Row::Overlaps)?);
    Ok(())
}

#[test]
fn two_threads_work_in_two_shards(rt: HostRuntime) -> Result<(), Fail> {
    assert!(&rt; over_a_cache(&rt, rt.alloc(), Row::WorkApart)?);
    Ok(())
}

#[test]
fn two_threads_work_in_one_shard(rt: HostRuntime) -> Result<(), Fail> {
    assert!(&rt; over_a_cache(&rt, rt.alloc(), Row::ShareAFile)?);
    Ok(())
}

#[test]
fn workers_keep_up_in_two_shards(rt: HostRuntime) -> Result<(), Fail> {
    assert!(&rt; over_a_cache(&rt, rt.alloc(), Row::KeepUp)?);
    Ok(())
}

#[test]
fn a_failed_write_is_told_in_its_shard_alone(rt: HostRuntime) -> Result<(), Fail> {
    assert!(&rt; over_a_cache(&rt, rt.alloc(), Row::TellsAtASync)?);
    assert!(&rt; over_a_cache(&rt, rt.alloc(), Row::TellsOfATurn)?);
    Ok(())
}
