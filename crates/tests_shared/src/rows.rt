//! Worked calls on a shared cache of name 7, with 16-byte pages and 64 blocks: with 48 frames and a dirty limit of 16, or with 128
//! frames and a limit of 96 if the row fills the ring or the device. Every row is run by one function, since the check is slow where a cache is
//! dropped. The rows with several threads are those of `thread_rows`, those of workers are those of
//! `worker_rows`, those over a file longer than the cache are those of `long_rows`, and those whose history is looked at are those of
//! `history_rows`.

ghost use Rattle.std.specs.Prelude.{◌≡◌, [], All, IfSome};
ghost use Rattle.std.specs.FinMap as map;
ghost use Rattle.held.specs.Shown.{AreFresh};
ghost use Rattle.held.specs.Keeps.{IsLocked};
ghost use Rattle.machine.specs.Catalogs.{IsCatalog, adopted};
ghost use Rattle.shared.specs.Keeps.{AreBlocksOf, IsDisk};
ghost use Rattle.shared.specs.Workers.{IsWorkerOf};

use crate::history_rows::{Story, leaves_a_history};
use crate::long_rows::{BADLY, SOME, WELL, passes_over_a_long_file};
use crate::space_rows::{Meanwhile, fills_the_device};
use crate::thread_rows::{
    Entrance, FIRST_FILL, Turnstile, is_seen_by_all, reads_beside_a_fill, reads_page,
    shares_a_file, tries_again, writes_page,
};
use crate::worker_rows::{
    Waking, closes_with_a_full_ring, reads_beside_a_write, stops_with_a_full_ring, wakes,
};
use blockdev::{BlockDevice, FaultEffect, GatedDevice, ScriptDevice};
use cursor::Seek;
use faulty::FaultyDevice;
use held::log::Seat;
use held::naming::Naming;
use pc_types::{ErrCode, Geometry, Refusal};
use shared::cache::{Parts, SharedCache};
use shared::handle::Handle;
use shared::worker::Worker;
use shared::writes::Wrote;
use std::alloc::Global;
use std::marker::Brand;
use std::mem::drop;
use std::sync::Wait;
use std::test::Fail;
use std::thread::Threads;
use trail::FullTrail;

/// A device behind the turnstile.
type Gated<'a> = GatedDevice<FaultyDevice<ScriptDevice>, Entrance<'a>>;

pub(crate) type Tested<B, D> = SharedCache<B, D, FullTrail>;

#[derive(Clone, Copy)]
enum Row {
    Closes,
    ClosesWithAFullRing,
    FillsTheDevice(Meanwhile),
    IsSeenByAll,
    Leaves(Story),
    PassesOverALongFile,
    PassesOverFaults,
    ReadsBack,
    ReadsBesideAFill,
    ReadsBesideAWrite,
    SharesAFile,
    StopsWithAFullRing,
    Syncs,
    TellsOfAFault,
    TellsOfALostFlush,
    TriesAgain,
    Wakes(Waking),
}

/// Makes a cache of the parts and runs the row over it.
#[tactic(auto, using(shared::proofs::Seating::fresh_seated))]
fn runs_over<B: Naming + Send + Sync, D: BlockDevice + Send, R: Threads + Wait + Sync>(
    rt: &R,
    alloc: Global,
    parts: Parts<D, FullTrail>,
    mut seats: Vec<Seat>,
    turnstile: &Turnstile,
    row: Row,
) -> bool
    requires named { parts.name ≡ B.name }
    requires sized { parts.geometry ≡ B.sizes }
    requires board { parts.board ≡ B.board }
    requires state { IsLocked B.name B.table B.board B.sizes B.seats B.whole parts.held }
    requires idle { map.len parts.held.core.state.requests ≡ 0 }
    requires fresh { (parts.held.log.history ≡ []) × (parts.held.core.state ≡ adopted B.sizes B.name B.files) }
    requires files { IsCatalog B.sizes B.files }
    requires own { IsWorkerOf parts.ring B.name B.table B.deeds B.sizes parts.own }
    requires device { IsDisk B.sizes (D.told parts.device) }
    requires deeds { (parts.deeds.table ≡ B.deeds) × (parts.deeds.told ≡ B.told) × (parts.deeds.blocks ≡ B.blocks) }
    requires blocks { AreBlocksOf B.told B.blocks (D.told parts.device) }
    requires calls { (D.told parts.device).calls ≡ B.calls }
    requires seats { AreFresh B.table B.name seats.items }
{
    let (cache, own) = SharedCache::<B, D, FullTrail>::of(alloc, parts);
    match row {
        Row::Closes => return closes(rt, cache, own, seats),
        Row::ClosesWithAFullRing => return closes_with_a_full_ring(rt, cache, own, seats),
        Row::FillsTheDevice(meanwhile) => {
            return fills_the_device(rt, &cache, turnstile, own, seats, meanwhile);
        }
        Row::Leaves(story) => return leaves_a_history(rt, alloc, cache, own, seats, story),
        Row::ReadsBesideAWrite => return reads_beside_a_write(rt, &cache, turnstile, own, seats),
        Row::StopsWithAFullRing => return stops_with_a_full_ring(rt, &cache, own, seats),
        Row::Wakes(waking) => return wakes(rt, &cache, turnstile, own, seats, waking),
        _ => {}
    }
    match two_of::<B>(&mut seats) {
        Some((first, second)) => runs(rt, &cache, turnstile, first, second, row),
        None => false,
    }
}

/// Takes the last two of the seats.
pub(crate) fn two_of<B: Naming>(seats: &mut Vec<Seat>) -> Option<(Seat, Seat)>
    requires { All (λ s. s.table ≡ B.table) seats.old.items }
    ensures left { All (λ s. s.table ≡ B.table) seats.new.items }
    ensures two { IfSome result (λ r. (r.0.table ≡ B.table) × (r.1.table ≡ B.table)) }
{
    let second = seats.pop()?;
    let first = seats.pop()?;
    Some((first, second))
}

/// Puts two seats to the others, if there is room.
pub(crate) fn with_two<B: Naming>(
    mut seats: Vec<Seat>,
    first: Seat,
    second: Seat,
) -> Option<Vec<Seat>>
    requires those { All (λ s. s.table ≡ B.table) seats.items }
    requires first { first.table ≡ B.table }
    requires second { second.table ≡ B.table }
    ensures { IfSome result (λ all. All (λ s. s.table ≡ B.table) all.items) }
{
    seats.push(first).ok()?;
    seats.push(second).ok()?;
    Some(seats)
}

/// Makes a file, opens it and runs the row.
fn runs<B: Naming + Send + Sync, D: BlockDevice + Send, R: Threads + Wait + Sync>(
    rt: &R,
    cache: &Tested<B, D>,
    turnstile: &Turnstile,
    mut first: Seat,
    second: Seat,
    row: Row,
) -> bool
    requires first { first.table ≡ B.table }
    requires second { second.table ≡ B.table }
{
    let Some(mut handle) = opens(rt, cache, &mut first) else {
        return false;
    };
    match row {
        Row::IsSeenByAll => is_seen_by_all(rt, cache, first, second, handle),
        Row::PassesOverALongFile => {
            passes_over_a_long_file(rt, cache, turnstile, &mut first, &handle, WELL)
        }
        Row::PassesOverFaults => {
            passes_over_a_long_file(rt, cache, turnstile, &mut first, &handle, BADLY)
        }
        Row::ReadsBack => reads_back(rt, cache, &mut first, handle),
        Row::ReadsBesideAFill => {
            reads_beside_a_fill(rt, cache, turnstile, first, second, &handle)
        }
        Row::SharesAFile => shares_a_file(rt, cache, first, second, &handle),
        Row::Syncs => syncs(rt, cache, &mut first, &mut handle),
        Row::TellsOfAFault => tells_of_a_fault(rt, cache, &mut first, &mut handle),
        Row::TellsOfALostFlush => tells_of_a_lost_flush(rt, cache, &mut first, &mut handle),
        Row::TriesAgain => tries_again(rt, cache, turnstile, first, second, &handle),
        _ => false,
    }
}

/// A handle of a new file.
pub(crate) fn opens<B: Naming, D: BlockDevice, R: Wait>(
    rt: &R,
    cache: &Tested<B, D>,
    seat: &mut Seat,
) -> Option<Handle>
    requires { seat.old.table ≡ B.table }
    ensures seat { seat.new.table ≡ seat.old.table }
    ensures board { IfSome result (λ h. h.pass.board ≡ B.board) }
{
    let (file, _) = cache.create(rt, seat).ok()?;
    let (handle, _) = cache.open(rt, seat, file, false).ok()?;
    Some(handle)
}

/// What was written is read back, and the handle's cursor goes on behind it.
fn reads_back<B: Naming, D: BlockDevice, R: Wait>(
    rt: &R,
    cache: &Tested<B, D>,
    seat: &mut Seat,
    mut handle: Handle,
) -> bool
    requires seat { seat.old.table ≡ B.table }
    requires handle { handle.pass.board ≡ B.board }
{
    let mut out = [9; 4];
    let wrote = cache.pwrite(rt, seat, &handle, 0, b"\xaa");
    let read = cache.pread(rt, seat, &handle, 0, &mut out);
    let is_read = wrote.is_ok() && matches!(read, Ok((1, _))) && out == [0xaa, 9, 9, 9];
    let is_cut = cache.truncate(rt, seat, &handle, 2).is_ok();
    let is_synced = cache.fsync(rt, seat, &mut handle).is_ok();
    let goes_on = goes_on_at_the_cursor(rt, cache, seat, &mut handle);
    let is_closed = cache.close_handle(rt, seat, handle).is_ok();
    is_read && is_cut && is_synced && goes_on && is_closed
}

/// Reads the file's two bytes, writes one behind them, and finds the end behind that.
fn goes_on_at_the_cursor<B: Naming, D: BlockDevice, R: Wait>(
    rt: &R,
    cache: &Tested<B, D>,
    seat: &mut Seat,
    handle: &mut Handle,
) -> bool
    requires seat { seat.old.table ≡ B.table }
    ensures seat { seat.new.table ≡ seat.old.table }
    ensures handle { handle.new.pass ≡ handle.old.pass }
{
    let mut out = [9; 4];
    let read = cache.read(rt, seat, handle, &mut out);
    let wrote = cache.write(rt, seat, handle, b"\xbb");
    let end = cache.seek(rt, seat, handle, Seek::End(0));
    let is_written = matches!(wrote, Ok((Wrote { count: 1, .. }, _)));
    matches!(read, Ok((2, _)))
        && out == [0xaa, 0, 9, 9]
        && is_written
        && matches!(end, Ok((3, Some(_))))
}

fn syncs<B: Naming, D: BlockDevice, R: Wait>(
    rt: &R,
    cache: &Tested<B, D>,
    seat: &mut Seat,
    handle: &mut Handle,
) -> bool
    requires seat { seat.old.table ≡ B.table }
    requires handle { handle.old.pass.board ≡ B.board }
{
    let wrote = cache.pwrite(rt, seat, handle, 0, b"\xaa");
    let synced = cache.fsync(rt, seat, handle);
    wrote.is_ok() && synced.is_ok()
}

/// The device fails the first call.
fn tells_of_a_fault<B: Naming, D: BlockDevice, R: Wait>(
    rt: &R,
    cache: &Tested<B, D>,
    seat: &mut Seat,
    handle: &mut Handle,
) -> bool
    requires seat { seat.old.table ≡ B.table }
    requires handle { handle.old.pass.board ≡ B.board }
{
    let wrote = cache.pwrite(rt, seat, handle, 0, b"\xaa");
    let failed = cache.fsync(rt, seat, handle);
    let synced = cache.fsync(rt, seat, handle);
    let is_told = match failed.err() {
        Some(denied) => denied.refusal == Refusal::Io(ErrCode::IO) && denied.slip.is_some(),
        None => false,
    };
    wrote.is_ok() && is_told && synced.is_ok()
}

/// The device fails the first flush.
fn tells_of_a_lost_flush<B: Naming, D: BlockDevice, R: Wait>(
    rt: &R,
    cache: &Tested<B, D>,
    seat: &mut Seat,
    handle: &mut Handle,
) -> bool
    requires seat { seat.old.table ≡ B.table }
    requires handle { handle.old.pass.board ≡ B.board }
{
    let failed = cache.fsync(rt, seat, handle);
    let synced = cache.fsync(rt, seat, handle);
    let is_told = match failed.err() {
        Some(denied) => denied.refusal == Refusal::Io(ErrCode::IO) && denied.slip.is_none(),
        None => false,
    };
    is_told && synced.is_ok()
}

/// A cache is not closed while a seat is missing. It is with all of them, and gives the device: of three syncs after one write the
/// first alone flushed it.
fn closes<B: Naming, D: BlockDevice, R: Wait>(
    rt: &R,
    cache: Tested<B, D>,
    own: Worker,
    mut seats: Vec<Seat>,
) -> bool
    requires own { IsWorkerOf cache.ring B.name B.table B.deeds B.sizes own }
    requires seats { All (λ s. s.table ≡ B.table) seats.items }
{
    let Some(mut missing) = seats.pop() else {
        drop(cache);
        drop(own);
        return false;
    };
    let is_synced = syncs_thrice(rt, &cache, &mut missing);
    match cache.close(rt, own, seats) {
        Ok((trail, core, device)) => {
            drop(trail);
            drop(core);
            drop(device);
            false
        }
        Err((refusal, cache, own, mut seats)) => {
            if seats.push(missing).is_err() {
                drop(cache);
                drop(own);
                return false;
            }
            let is_closed = closes_well(rt, cache, own, seats);
            is_synced && refusal == Refusal::Stranger && is_closed
        }
    }
}

/// Closes the cache with these seats. Answers whether that went well, and the device was flushed once.
fn closes_well<B: Naming, D: BlockDevice, R: Wait>(
    rt: &R,
    cache: Tested<B, D>,
    own: Worker,
    seats: Vec<Seat>,
) -> bool
    requires own { IsWorkerOf cache.ring B.name B.table B.deeds B.sizes own }
    requires seats { All (λ s. s.table ≡ B.table) seats.items }
{
    match cache.close(rt, own, seats) {
        Ok((trail, core, device)) => {
            let flushes = device.flushes();
            drop(trail);
            drop(core);
            drop(device);
            flushes == 1
        }
        Err((_, cache, own, seats)) => {
            drop(cache);
            drop(own);
            drop(seats);
            false
        }
    }
}

/// Writes a page, and syncs it three times.
fn syncs_thrice<B: Naming, D: BlockDevice, R: Wait>(
    rt: &R,
    cache: &Tested<B, D>,
    seat: &mut Seat,
) -> bool
    requires { seat.old.table ≡ B.table }
    ensures { seat.new.table ≡ seat.old.table }
{
    let Some(mut handle) = opens(rt, cache, seat) else {
        return false;
    };
    let is_written = writes_page(rt, cache, seat, &handle, 1);
    let first = cache.fsync(rt, seat, &mut handle).is_ok();
    let second = cache.fsync(rt, seat, &mut handle).is_ok();
    let third = cache.fsync(rt, seat, &mut handle).is_ok();
    is_written && first && second && third && reads_page(rt, cache, seat, &handle, 1)
}

/// A trail with room for all events of a row.
fn trail_for(alloc: Global, row: Row) -> Result<FullTrail, Refusal> {
    let trail = match row {
        Row::Leaves(story) => story.trail(alloc)?,
        Row::PassesOverALongFile | Row::PassesOverFaults => {
            FullTrail::new(alloc, 100_000, 8_000_000)?
        }
        Row::Wakes(_) => FullTrail::new(alloc, 20_000, 1_000_000)?,
        _ => FullTrail::new(alloc, 1000, 20000)?,
    };
    Ok(trail)
}

/// Runs a row over a new cache.
fn over_a_cache<R: Threads + Wait + Sync>(
    rt: &R,
    alloc: Global,
    row: Row,
) -> Result<bool, Refusal> {
    let (frames, limit) = match row {
        Row::ClosesWithAFullRing | Row::FillsTheDevice(_) | Row::StopsWithAFullRing => (128, 96),
        _ => (48, 16),
    };
    let geometry = Geometry::new(16, frames, limit, 64)?;
    let mut script = ScriptDevice::new(alloc, 16, 64)?;
    let trail = trail_for(alloc, row)?;
    match row {
        Row::TellsOfAFault | Row::Wakes(Waking::AfterAFault) => {
            script.fail_next(ErrCode::IO, FaultEffect::Old)
        }
        Row::TellsOfALostFlush => script.fail_next_flush(ErrCode::IO),
        _ => {}
    }
    let turnstile = Turnstile::new();
    let turnstile = &turnstile;
    let every = match row {
        Row::PassesOverFaults => SOME,
        Row::TriesAgain => FIRST_FILL,
        _ => 0,
    };
    let device = GatedDevice::new(FaultyDevice::new(script, every), Entrance { turnstile });
    match Parts::make(rt, alloc, &geometry, 7, device, trail, 2) {
        Ok((parts, seats)) => {
            Ok(runs_over::<Brand, Gated<'_>, R>(rt, alloc, parts, seats, turnstile, row))
        }
        Err(unmade) => Err(unmade.refusal),
    }
}

#[test]
fn a_trail_of_two_entries_refuses_a_read(rt: HostRuntime) -> Result<(), Fail> {
    assert!(&rt; over_a_cache(&rt, rt.alloc(), Row::Leaves(Story::OfTwo))?);
    Ok(())
}

#[test]
fn a_trail_of_four_entries_is_filled(rt: HostRuntime) -> Result<(), Fail> {
    assert!(&rt; over_a_cache(&rt, rt.alloc(), Row::Leaves(Story::OfFour))?);
    Ok(())
}

#[test]
fn a_read_stands_after_the_write_that_its_seat_saw(rt: HostRuntime) -> Result<(), Fail> {
    assert!(&rt; over_a_cache(&rt, rt.alloc(), Row::Leaves(Story::OfTwoSeats))?);
    Ok(())
}

/// A cached page is read while a worker's write of it is held, and then while another caller's fill of another page is.
#[test]
fn gate_overlap(rt: HostRuntime) -> Result<(), Fail> {
    assert!(&rt; over_a_cache(&rt, rt.alloc(), Row::ReadsBesideAWrite)?);
    assert!(&rt; over_a_cache(&rt, rt.alloc(), Row::ReadsBesideAFill)?);
    Ok(())
}

#[test]
fn a_file_longer_than_the_cache_is_read_and_changed(rt: HostRuntime) -> Result<(), Fail> {
    assert!(&rt; over_a_cache(&rt, rt.alloc(), Row::PassesOverALongFile)?);
    Ok(())
}

#[test]
fn a_file_longer_than_the_cache_is_kept_by_a_device_that_fails(
    rt: HostRuntime,
) -> Result<(), Fail> {
    assert!(&rt; over_a_cache(&rt, rt.alloc(), Row::PassesOverFaults)?);
    Ok(())
}

#[test]
fn shared_read_back(rt: HostRuntime) -> Result<(), Fail> {
    assert!(&rt; over_a_cache(&rt, rt.alloc(), Row::ReadsBack)?);
    Ok(())
}

#[test]
fn two_threads_share_a_file(rt: HostRuntime) -> Result<(), Fail> {
    assert!(&rt; over_a_cache(&rt, rt.alloc(), Row::SharesAFile)?);
    Ok(())
}

#[test]
fn a_sync_succeeds(rt: HostRuntime) -> Result<(), Fail> {
    assert!(&rt; over_a_cache(&rt, rt.alloc(), Row::Syncs)?);
    Ok(())
}

#[test]
fn a_failed_write_is_told_once(rt: HostRuntime) -> Result<(), Fail> {
    assert!(&rt; over_a_cache(&rt, rt.alloc(), Row::TellsOfAFault)?);
    Ok(())
}

#[test]
fn a_failed_flush_of_the_device_is_told_without_a_slip(rt: HostRuntime) -> Result<(), Fail> {
    assert!(&rt; over_a_cache(&rt, rt.alloc(), Row::TellsOfALostFlush)?);
    Ok(())
}

#[test]
fn what_one_handle_wrote_another_reads(rt: HostRuntime) -> Result<(), Fail> {
    assert!(&rt; over_a_cache(&rt, rt.alloc(), Row::IsSeenByAll)?);
    Ok(())
}

#[test]
fn a_cache_closes_with_all_its_seats(rt: HostRuntime) -> Result<(), Fail> {
    assert!(&rt; over_a_cache(&rt, rt.alloc(), Row::Closes)?);
    Ok(())
}

#[test]
fn a_call_that_waited_for_a_fill_that_failed_tries_again(rt: HostRuntime) -> Result<(), Fail> {
    assert!(&rt; over_a_cache(&rt, rt.alloc(), Row::TriesAgain)?);
    Ok(())
}

#[test]
fn workers_who_sleep_are_woken_each_time(rt: HostRuntime) -> Result<(), Fail> {
    assert!(&rt; over_a_cache(&rt, rt.alloc(), Row::Wakes(Waking::EachTime))?);
    Ok(())
}

#[test]
fn a_flusher_who_sleeps_is_woken_by_a_write_that_fails(rt: HostRuntime) -> Result<(), Fail> {
    assert!(&rt; over_a_cache(&rt, rt.alloc(), Row::Wakes(Waking::AfterAFault))?);
    Ok(())
}

#[test]
fn a_worker_that_is_told_to_stop_ends_what_the_ring_has(rt: HostRuntime) -> Result<(), Fail> {
    assert!(&rt; over_a_cache(&rt, rt.alloc(), Row::StopsWithAFullRing)?);
    Ok(())
}

#[test]
fn a_cache_ends_what_the_ring_has_as_it_closes(rt: HostRuntime) -> Result<(), Fail> {
    assert!(&rt; over_a_cache(&rt, rt.alloc(), Row::ClosesWithAFullRing)?);
    Ok(())
}

#[test]
fn a_write_waits_for_the_block_of_a_write_that_was_cut_off(rt: HostRuntime) -> Result<(), Fail> {
    assert!(&rt; over_a_cache(&rt, rt.alloc(), Row::FillsTheDevice(Meanwhile::CutsTheFile))?);
    Ok(())
}

#[test]
fn a_write_past_the_last_block_is_refused_at_once(rt: HostRuntime) -> Result<(), Fail> {
    assert!(&rt; over_a_cache(&rt, rt.alloc(), Row::FillsTheDevice(Meanwhile::WritesMore))?);
    Ok(())
}
