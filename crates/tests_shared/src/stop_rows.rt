//! Rows whose trail stands at the turnstile too, so that the order is the same each time: a stop that comes while a flusher begins a write,
//! and a call that waits for the end of another caller's write-back.

ghost use Rattle.std.specs.FinMap as map;
ghost use Rattle.std.specs.Prelude.{◌≡◌, [], IfSome};
ghost use Rattle.held.specs.Shown.{AreFresh};
ghost use Rattle.held.specs.Keeps.{IsLocked};
ghost use Rattle.machine.specs.Catalogs.{IsCatalog, adopted};
ghost use Rattle.shared.specs.Keeps.{AreBlocksOf, IsDisk};
ghost use Rattle.shared.specs.Workers.{IsWorkerOf};

use crate::rows::two_of;
use crate::thread_rows::{Entrance, Turnstile};
use blockdev::{BlockDevice, GatedDevice, OpenGate, ScriptDevice};
use held::log::Seat;
use held::naming::Naming;
use machine::{Event, Reply};
use pc_types::{Geometry, Refusal};
use shared::cache::{Parts, SharedCache};
use shared::handle::Handle;
use shared::worker::Worker;
use std::alloc::Global;
use std::marker::Brand;
use std::sync::Wait;
use std::test::Fail;
use std::thread;
use std::thread::Threads;
use trail::{Entry, NoTrail, Reserve, Trail};

/// How often workers are told to stop.
const STOPS: u32 = 200;

#[derive(Clone, Copy)]
enum Row {
    /// The workers are stopped while the flusher begins a write.
    Stops,
    /// Two callers sync one page, and one of them writes it.
    Waits,
}

/// A device behind the turnstile.
type Gated<'a> = GatedDevice<ScriptDevice, Entrance<'a>>;

/// A trail at which the begin of a flusher's write waits before the turnstile, and a call that has to wait for the end of a request opens
/// it. Both are under the state's lock: the call keeps that till it sleeps, and the end of the request has to take it.
#[derive(Drop)]
struct HeldTrail<'a, T: Trail> {
    trail: T,
    turnstile: &'a Turnstile,
}

impl<'a, T: Trail> Trail for HeldTrail<'a, T> {
    ghost records = { λ t h. T.records t.trail h };

    ghost whole = { λ t. T.whole t.trail };

    ghost room = { λ t. T.room t.trail };

    ghost cache = { λ t. T.cache t.trail };

    fn begin(&mut self, name: u64) {
        self.trail.begin(name);
    }

    fn has_room(&self, page: u64, reserved: &Reserve, events: u64, bytes: u64) -> bool {
        self.trail.has_room(page, reserved, events, bytes)
    }

    fn count(&self) -> u64 {
        self.trail.count()
    }

    fn append(&mut self, entry: Entry, bytes: &[u8]) {
        if matches!(entry.event, Event::FlushBegin(_)) {
            self.turnstile.pass();
        }
        if matches!(entry.reply, Reply::Wait(_)) {
            self.turnstile.open();
        }
        self.trail.append(entry, bytes);
    }
}

/// Makes a cache of the parts and runs the row over it.
#[tactic(auto, using(shared::proofs::Seating::fresh_seated))]
fn runs_over<
    B: Naming + Send + Sync,
    D: BlockDevice + Send,
    T: Trail + Drop + Send,
    R: Threads + Wait + Sync,
>(
    rt: &R,
    alloc: Global,
    parts: Parts<D, T>,
    mut seats: Vec<Seat>,
    turnstile: &Turnstile,
    row: Row,
) -> bool
    requires named { parts.name ≡ B.name }
    requires sized { parts.geometry ≡ B.sizes }
    requires board { parts.board ≡ B.board }
    requires state { IsLocked B.name B.table B.board B.sizes B.seats B.whole parts.held }
    requires idle { map.len parts.held.core.state.requests ≡ 0 }
    requires fresh { (parts.held.log.history ≡ []) × (parts.held.core.state ≡ adopted B.sizes B.name B.files) }
    requires files { IsCatalog B.sizes B.files }
    requires own { IsWorkerOf parts.ring B.name B.table B.deeds B.sizes parts.own }
    requires device { IsDisk B.sizes (D.told parts.device) }
    requires deeds { (parts.deeds.table ≡ B.deeds) × (parts.deeds.told ≡ B.told) × (parts.deeds.blocks ≡ B.blocks) }
    requires blocks { AreBlocksOf B.told B.blocks (D.told parts.device) }
    requires calls { (D.told parts.device).calls ≡ B.calls }
    requires seats { AreFresh B.table B.name seats.items }
{
    let (cache, own) = SharedCache::<B, D, T>::of(alloc, parts);
    match two_of::<B>(&mut seats) {
        Some((first, second)) => runs(rt, &cache, turnstile, own, first, second, row),
        None => false,
    }
}

/// Runs the row by two seats.
fn runs<B: Naming + Send + Sync, D: BlockDevice + Send, T: Trail + Send, R: Threads + Wait + Sync>(
    rt: &R,
    cache: &SharedCache<B, D, T>,
    turnstile: &Turnstile,
    mut own: Worker,
    first: Seat,
    second: Seat,
    row: Row,
) -> bool
    requires own { IsWorkerOf cache.now.ring B.name B.table B.deeds B.sizes own }
    requires first { first.table ≡ B.table }
    requires second { second.table ≡ B.table }
{
    match row {
        Row::Stops => match cache.worker(&mut own, second) {
            Ok(flusher) => stops(rt, cache, turnstile, first, own, flusher),
            Err(_) => false,
        },
        Row::Waits => waits(rt, cache, turnstile, first, second),
    }
}

/// Makes a page dirty, and has an I/O worker, a flusher and a caller at work, who stops the others.
fn stops<B: Naming + Send + Sync, D: BlockDevice + Send, T: Trail + Send, R: Threads + Wait + Sync>(
    rt: &R,
    cache: &SharedCache<B, D, T>,
    turnstile: &Turnstile,
    mut caller: Seat,
    own: Worker,
    flusher: Worker,
) -> bool
    requires caller { caller.table ≡ B.table }
    requires own { IsWorkerOf cache.now.ring B.name B.table B.deeds B.sizes own }
    requires flusher { IsWorkerOf cache.now.ring B.name B.table B.deeds B.sizes flusher }
{
    let Some(handle) = dirties_a_page(rt, cache, &mut caller) else {
        return false;
    };
    turnstile.shut();
    let (is_done, is_synced) = thread::join(
        rt,
        move ||
            requires { IsWorkerOf cache.now.ring B.name B.table B.deeds B.sizes own × IsWorkerOf cache.now.ring B.name B.table B.deeds B.sizes flusher }
        { works(rt, cache, own, flusher) },
        move ||
            requires { (caller.table ≡ B.table) × (handle.pass.board ≡ B.board) }
        { stops_and_syncs(rt, cache, turnstile, caller, handle) },
    );
    is_done && is_synced
}

/// A handle of a new file with one dirty page.
fn dirties_a_page<B: Naming, D: BlockDevice, T: Trail, R: Wait>(
    rt: &R,
    cache: &SharedCache<B, D, T>,
    seat: &mut Seat,
) -> Option<Handle>
    requires { seat.old.table ≡ B.table }
    ensures seat { seat.new.table ≡ seat.old.table }
    ensures board { IfSome result (λ h. h.pass.board ≡ B.board) }
{
    let (file, _) = cache.create(rt, seat).ok()?;
    let (handle, _) = cache.open(rt, seat, file, false).ok()?;
    cache.pwrite(rt, seat, &handle, 0, &[7; 16]).ok()?;
    Some(handle)
}

/// An I/O worker and a flusher, till they are told to stop.
fn works<B: Naming + Send + Sync, D: BlockDevice + Send, T: Trail + Send, R: Threads + Wait + Sync>(
    rt: &R,
    cache: &SharedCache<B, D, T>,
    mut own: Worker,
    mut flusher: Worker,
) -> bool
    requires own { IsWorkerOf cache.now.ring B.name B.table B.deeds B.sizes own }
    requires flusher { IsWorkerOf cache.now.ring B.name B.table B.deeds B.sizes flusher }
{
    thread::join(
        rt,
        move ||
            requires { IsWorkerOf cache.now.ring B.name B.table B.deeds B.sizes own }
        { cache.io_worker(rt, &OpenGate, &mut own) },
        move ||
            requires { IsWorkerOf cache.now.ring B.name B.table B.deeds B.sizes flusher }
        { cache.flusher(rt, &OpenGate, &mut flusher) },
    );
    true
}

/// Stops the workers while the flusher begins a write, and gives the I/O worker the time to leave. The write is the only one of the
/// page, so an fsync waits for its end.
fn stops_and_syncs<B: Naming, D: BlockDevice, T: Trail, R: Wait>(
    rt: &R,
    cache: &SharedCache<B, D, T>,
    turnstile: &Turnstile,
    mut seat: Seat,
    mut handle: Handle,
) -> bool
    requires seat { seat.table ≡ B.table }
    requires handle { handle.pass.board ≡ B.board }
{
    let is_held = turnstile.wait_for_a_call();
    cache.stop(rt);
    let is_open = turnstile.open_late();
    let is_synced = cache.fsync(rt, &mut seat, &mut handle).is_ok();
    is_held && is_open && is_synced
}

/// Makes a page dirty, and has two callers sync it. No worker is at work, and the first makes no entry by which another is woken but the
/// end of its write: if that wakes nobody, the second sleeps as long as a test may.
fn waits<B: Naming + Send + Sync, D: BlockDevice + Send, T: Trail + Send, R: Threads + Wait + Sync>(
    rt: &R,
    cache: &SharedCache<B, D, T>,
    turnstile: &Turnstile,
    mut first: Seat,
    second: Seat,
) -> bool
    requires first { first.table ≡ B.table }
    requires second { second.table ≡ B.table }
{
    let Some(mine) = dirties_a_page(rt, cache, &mut first) else {
        return false;
    };
    let Ok((other, _)) = cache.open(rt, &mut first, mine.file(), false) else {
        return false;
    };
    turnstile.shut();
    let (is_written, is_woken) = thread::join(
        rt,
        move ||
            requires { (first.table ≡ B.table) × (mine.pass.board ≡ B.board) }
        { syncs(rt, cache, first, mine) },
        move ||
            requires { (second.table ≡ B.table) × (other.pass.board ≡ B.board) }
        { waits_and_syncs(rt, cache, turnstile, second, other) },
    );
    is_written && is_woken
}

/// Syncs by a seat and a handle that are given up.
fn syncs<B: Naming, D: BlockDevice, T: Trail, R: Wait>(
    rt: &R,
    cache: &SharedCache<B, D, T>,
    mut seat: Seat,
    mut handle: Handle,
) -> bool
    requires seat { seat.table ≡ B.table }
    requires handle { handle.pass.board ≡ B.board }
{
    cache.fsync(rt, &mut seat, &mut handle).is_ok()
}

/// Syncs while the device call that writes the page is held, which goes on once this sync has to wait for it. Answers whether that was so.
fn waits_and_syncs<B: Naming, D: BlockDevice, T: Trail, R: Wait>(
    rt: &R,
    cache: &SharedCache<B, D, T>,
    turnstile: &Turnstile,
    seat: Seat,
    handle: Handle,
) -> bool
    requires seat { seat.table ≡ B.table }
    requires handle { handle.pass.board ≡ B.board }
{
    let is_held = turnstile.wait_for_a_call();
    let is_synced = syncs(rt, cache, seat, handle);
    is_held && is_synced && turnstile.is_open()
}

/// Runs a row over a new cache.
fn over_a_cache<R: Threads + Wait + Sync>(
    rt: &R,
    alloc: Global,
    row: Row,
) -> Result<bool, Refusal> {
    let geometry = Geometry::new(16, 48, 16, 64)?;
    let script = ScriptDevice::new(alloc, 16, 64)?;
    let turnstile = Turnstile::new();
    let turnstile = &turnstile;
    let device = GatedDevice::new(script, Entrance { turnstile });
    let trail = HeldTrail {
        trail: NoTrail::new(),
        turnstile,
    };
    match Parts::make(rt, alloc, &geometry, 7, device, trail, 2) {
        Ok((parts, seats)) => Ok(runs_over::<Brand, Gated<'_>, HeldTrail<'_, NoTrail>, R>(
            rt, alloc, parts, seats, turnstile, row,
        )),
        Err(unmade) => Err(unmade.refusal),
    }
}

#[test]
fn a_write_that_begins_as_the_workers_are_stopped_is_ended(rt: HostRuntime) -> Result<(), Fail> {
    for _ in 0..STOPS {
        assert!(&rt; over_a_cache(&rt, rt.alloc(), Row::Stops)?);
    }
    Ok(())
}

#[test]
fn a_call_that_waits_for_anothers_write_back_is_woken(rt: HostRuntime) -> Result<(), Fail> {
    assert!(&rt; over_a_cache(&rt, rt.alloc(), Row::Waits)?);
    Ok(())
}
