//! Rows with a worker: one whose device call is held, one that begins so many writes that the ring is full, and two that sleep and are
//! woken again and again.

ghost use Rattle.std.specs.Prelude.{◌≡◌, All};
ghost use Rattle.shared.specs.Workers.{IsWorkerOf};

use crate::rows::{Tested, opens, two_of, with_two};
use crate::thread_rows::{Turnstile, reads_meanwhile, writes_page};
use blockdev::{BlockDevice, OpenGate};
use held::log::Seat;
use held::naming::Naming;
use shared::handle::Handle;
use shared::turns::Flushed;
use shared::worker::Worker;
use std::hint::spin_loop;
use std::sync::Wait;
use std::thread;
use std::thread::Threads;

/// As many pages as the ring has places.
const PLACES: u8 = 64;

/// How often workers who sleep are woken.
const WAKES: u16 = 200;

/// The pauses in which a worker may fall asleep. They are no yields: beside busy threads a yield takes as long as the scheduler likes.
const PAUSES: u32 = 2_000;

/// A page is read while the device call that writes it is held.
pub(crate) fn reads_beside_a_write<
    B: Naming + Send + Sync,
    D: BlockDevice + Send,
    R: Threads + Wait + Sync,
>(
    rt: &R,
    cache: &Tested<B, D>,
    turnstile: &Turnstile,
    mut own: Worker,
    mut seats: Vec<Seat>,
) -> bool
    requires own { IsWorkerOf cache.now.ring B.name B.table B.deeds B.sizes own }
    requires seats { All (λ s. s.table ≡ B.table) seats.items }
{
    let Some((mut caller, seat)) = two_of::<B>(&mut seats) else {
        return false;
    };
    let Ok(mut worker) = cache.worker(&mut own, seat) else {
        return false;
    };
    let Some(handle) = opens(rt, cache, &mut caller) else {
        return false;
    };
    let is_dirty = writes_page(rt, cache, &mut caller, &handle, 0);
    if !is_dirty || !begins_a_write(rt, cache, &mut worker) {
        return false;
    }
    turnstile.shut();
    let (is_written, is_read) = thread::join(
        rt,
        move ||
            requires { IsWorkerOf cache.now.ring B.name B.table B.deeds B.sizes worker }
        { ends_a_write(rt, cache, worker) },
        move ||
            requires { caller.table ≡ B.table }
        { reads_meanwhile(rt, cache, turnstile, caller, handle, 0) },
    );
    is_written && is_read
}

/// Whether a turn of the worker, which is given up, ended a write well.
pub(crate) fn ends_a_write<B: Naming, D: BlockDevice, R: Wait>(
    rt: &R,
    cache: &Tested<B, D>,
    mut worker: Worker,
) -> bool
    requires { IsWorkerOf cache.now.ring B.name B.table B.deeds B.sizes worker }
{
    match cache.io_turn(rt, &OpenGate, &mut worker) {
        Some(done) => done.failed.is_none(),
        None => false,
    }
}

/// What is to wake workers.
#[derive(Clone, Copy)]
pub(crate) enum Waking {
    /// Each page that becomes dirty.
    EachTime,
    /// A write that fails: its page is to be written again.
    AfterAFault,
}

/// A flusher and an I/O worker sleep till there is work for them, and each time they are woken: the page is written. Where one is not
/// woken, nor by the stop, this lasts as long as a test may.
pub(crate) fn wakes<B: Naming + Send + Sync, D: BlockDevice + Send, R: Threads + Wait + Sync>(
    rt: &R,
    cache: &Tested<B, D>,
    turnstile: &Turnstile,
    mut own: Worker,
    mut seats: Vec<Seat>,
    waking: Waking,
) -> bool
    requires own { IsWorkerOf cache.now.ring B.name B.table B.deeds B.sizes own }
    requires seats { All (λ s. s.table ≡ B.table) seats.items }
{
    let Some((mut caller, seat)) = two_of::<B>(&mut seats) else {
        return false;
    };
    let Ok(worker) = cache.worker(&mut own, seat) else {
        return false;
    };
    let Some(handle) = opens(rt, cache, &mut caller) else {
        return false;
    };
    let (is_done, is_written) = thread::join(
        rt,
        move ||
            requires { IsWorkerOf cache.now.ring B.name B.table B.deeds B.sizes own × IsWorkerOf cache.now.ring B.name B.table B.deeds B.sizes worker }
        { work(rt, cache, own, worker) },
        move ||
            requires { caller.table ≡ B.table }
        { writes_and_stops(rt, cache, turnstile, caller, handle, waking) },
    );
    is_written && is_done
}

/// An I/O worker and a flusher, till they are told to stop. Answers whether the first ended well.
fn work<B: Naming + Send + Sync, D: BlockDevice + Send, R: Threads + Wait + Sync>(
    rt: &R,
    cache: &Tested<B, D>,
    own: Worker,
    flusher: Worker,
) -> bool
    requires own { IsWorkerOf cache.now.ring B.name B.table B.deeds B.sizes own }
    requires flusher { IsWorkerOf cache.now.ring B.name B.table B.deeds B.sizes flusher }
{
    let (is_done, _) = thread::join(
        rt,
        move ||
            requires { IsWorkerOf cache.now.ring B.name B.table B.deeds B.sizes own }
        { carries_out(rt, cache, own) },
        move ||
            requires { IsWorkerOf cache.now.ring B.name B.table B.deeds B.sizes flusher }
        { flushes(rt, cache, flusher) },
    );
    is_done
}

/// Carries out what the ring has, by a worker that is given up.
fn carries_out<B: Naming, D: BlockDevice, R: Wait>(
    rt: &R,
    cache: &Tested<B, D>,
    mut worker: Worker,
) -> bool
    requires { IsWorkerOf cache.now.ring B.name B.table B.deeds B.sizes worker }
{
    cache.io_worker(rt, &OpenGate, &mut worker);
    true
}

/// Begins writes, by a worker that is given up.
fn flushes<B: Naming, D: BlockDevice, R: Wait>(
    rt: &R,
    cache: &Tested<B, D>,
    mut worker: Worker,
) -> bool
    requires { IsWorkerOf cache.now.ring B.name B.table B.deeds B.sizes worker }
{
    cache.flusher(rt, &OpenGate, &mut worker);
    true
}

/// Gives the workers what is to wake them, and tells them to stop.
fn writes_and_stops<B: Naming, D: BlockDevice, R: Wait>(
    rt: &R,
    cache: &Tested<B, D>,
    turnstile: &Turnstile,
    mut caller: Seat,
    handle: Handle,
    waking: Waking,
) -> bool
    requires { caller.table ≡ B.table }
{
    let is_written = match waking {
        Waking::EachTime => writes_each_time(rt, cache, turnstile, &mut caller, &handle),
        Waking::AfterAFault => is_written_again(rt, cache, turnstile, &mut caller, &handle),
    };
    cache.stop(rt);
    is_written
}

/// Writes a page. The device call of its write is held till the flusher sleeps, and fails: the flusher writes the page again, though no
/// call comes.
fn is_written_again<B: Naming, D: BlockDevice, R: Wait>(
    rt: &R,
    cache: &Tested<B, D>,
    turnstile: &Turnstile,
    caller: &mut Seat,
    handle: &Handle,
) -> bool
    requires { caller.old.table ≡ B.table }
{
    turnstile.shut();
    let is_dirty = writes_page(rt, cache, caller, handle, 1);
    let is_held = turnstile.wait_for_a_call();
    let calls = turnstile.calls();
    let is_failed = turnstile.open_late();
    is_dirty && is_held && is_failed && turnstile.wait_past(calls)
}

/// Writes pages, each once the workers wrote the one before and had a moment to fall asleep.
fn writes_each_time<B: Naming, D: BlockDevice, R: Wait>(
    rt: &R,
    cache: &Tested<B, D>,
    turnstile: &Turnstile,
    caller: &mut Seat,
    handle: &Handle,
) -> bool
    requires { caller.old.table ≡ B.table }
{
    for round in 0..WAKES {
        let calls = turnstile.calls();
        let page = (round % 8) as u8;
        if !writes_page(rt, cache, caller, handle, page) || !turnstile.wait_past(calls) {
            return false;
        }
        pause();
    }
    true
}

/// About as long as a worker takes to fall asleep.
fn pause() {
    for _ in 0..PAUSES {
        spin_loop();
    }
}

/// A worker that is told to stop ends what the ring has: no page is to be written then.
pub(crate) fn stops_with_a_full_ring<B: Naming, D: BlockDevice, R: Wait>(
    rt: &R,
    cache: &Tested<B, D>,
    mut own: Worker,
    mut seats: Vec<Seat>,
) -> bool
    requires own { IsWorkerOf cache.now.ring B.name B.table B.deeds B.sizes own }
    requires seats { All (λ s. s.table ≡ B.table) seats.items }
{
    let Some((mut caller, seat)) = two_of::<B>(&mut seats) else {
        return false;
    };
    let Ok(mut worker) = cache.worker(&mut own, seat) else {
        return false;
    };
    let is_full = fills_the_ring(rt, cache, &mut caller, &mut worker);
    cache.stop(rt);
    cache.io_worker(rt, &OpenGate, &mut worker);
    let is_written = matches!(
        cache.flusher_turn(rt, &OpenGate, &mut worker),
        Ok(Flushed::Nothing)
    );
    is_full && is_written
}

/// A cache that closes ends what the ring has: the device was called for each of its jobs.
pub(crate) fn closes_with_a_full_ring<B: Naming, D: BlockDevice, R: Wait>(
    rt: &R,
    cache: Tested<B, D>,
    mut own: Worker,
    mut seats: Vec<Seat>,
) -> bool
    requires own { IsWorkerOf cache.ring B.name B.table B.deeds B.sizes own }
    requires seats { All (λ s. s.table ≡ B.table) seats.items }
{
    let Some((mut caller, seat)) = two_of::<B>(&mut seats) else {
        return false;
    };
    let Ok(mut worker) = cache.worker(&mut own, seat) else {
        return false;
    };
    let is_full = fills_the_ring(rt, &cache, &mut caller, &mut worker);
    let Some(seats) = with_two::<B>(seats, caller, worker.into_seat()) else {
        return false;
    };
    match cache.close(rt, own, seats) {
        Ok((_, _, device)) => is_full && device.calls() == u64::from(PLACES),
        Err(_) => false,
    }
}

/// Makes so many pages dirty, and begins to write each.
fn fills_the_ring<B: Naming, D: BlockDevice, R: Wait>(
    rt: &R,
    cache: &Tested<B, D>,
    caller: &mut Seat,
    worker: &mut Worker,
) -> bool
    requires caller { caller.old.table ≡ B.table }
    requires worker { IsWorkerOf cache.now.ring B.name B.table B.deeds B.sizes worker.old }
    ensures caller { caller.new.table ≡ caller.old.table }
    ensures worker { IsWorkerOf cache.now.ring B.name B.table B.deeds B.sizes worker.new }
{
    let Some(handle) = opens(rt, cache, caller) else {
        return false;
    };
    for page in 0..PLACES {
        let is_written = writes_page(rt, cache, caller, &handle, page);
        if !is_written || !begins_a_write(rt, cache, worker) {
            return false;
        }
    }
    true
}

/// Whether a turn of the flusher put a job into the ring.
pub(crate) fn begins_a_write<B: Naming, D: BlockDevice, R: Wait>(
    rt: &R,
    cache: &Tested<B, D>,
    worker: &mut Worker,
) -> bool
    requires { IsWorkerOf cache.now.ring B.name B.table B.deeds B.sizes worker.old }
    ensures { IsWorkerOf cache.now.ring B.name B.table B.deeds B.sizes worker.new }
{
    matches!(
        cache.flusher_turn(rt, &OpenGate, worker),
        Ok(Flushed::Pushed(_, _))
    )
}
