//! Rows over a device each of whose blocks is taken, while the write of one page is held.

ghost use Rattle.std.specs.Prelude.{◌≡◌, ◌≤◌, All};
ghost use Rattle.shared.specs.Workers.{IsWorkerOf};

use crate::rows::{Tested, opens, two_of};
use crate::thread_rows::Turnstile;
use crate::worker_rows::{begins_a_write, ends_a_write};
use blockdev::BlockDevice;
use held::denied::Denied;
use held::log::Seat;
use held::naming::Naming;
use pc_types::Refusal;
use shared::handle::Handle;
use shared::worker::Worker;
use std::sync::Wait;
use std::thread;
use std::thread::Threads;

/// How many calls take each of the 64 blocks: one touches 16 pages at most.
const CALLS: u64 = 4;

/// What is done while the write is held.
#[derive(Clone, Copy, PartialEq, Eq)]
pub(crate) enum Meanwhile {
    /// The file is cut to nothing and written anew. The last block is free when the write ends, which is dropped.
    CutsTheFile,
    /// A page more is written. No block will be free.
    WritesMore,
}

/// Takes each block, begins the write of a page, and does something while that is held.
pub(crate) fn fills_the_device<
    B: Naming + Send + Sync,
    D: BlockDevice + Send,
    R: Threads + Wait + Sync,
>(
    rt: &R,
    cache: &Tested<B, D>,
    turnstile: &Turnstile,
    mut own: Worker,
    mut seats: Vec<Seat>,
    meanwhile: Meanwhile,
) -> bool
    requires own { IsWorkerOf cache.now.ring B.name B.table B.deeds B.sizes own }
    requires seats { All (λ s. s.table ≡ B.table) seats.items }
{
    let Some((mut caller, seat)) = two_of::<B>(&mut seats) else {
        return false;
    };
    let Ok(mut worker) = cache.worker(&mut own, seat) else {
        return false;
    };
    let Some(handle) = opens(rt, cache, &mut caller) else {
        return false;
    };
    let is_full = takes_blocks(rt, cache, &mut caller, &handle, CALLS);
    if !is_full || !begins_a_write(rt, cache, &mut worker) {
        return false;
    }
    turnstile.shut();
    let (is_ended, is_done) = thread::join(
        rt,
        move ||
            requires { IsWorkerOf cache.now.ring B.name B.table B.deeds B.sizes worker }
        { ends_a_write(rt, cache, worker) },
        move ||
            requires { caller.table ≡ B.table }
        {
            match meanwhile {
                Meanwhile::CutsTheFile => cuts_and_fills(rt, cache, turnstile, caller, handle),
                Meanwhile::WritesMore => is_refused(rt, cache, turnstile, caller, handle),
            }
        },
    );
    is_ended && is_done
}

/// Cuts the file and takes each block again. The last call that takes some waits for the write's end, since the write has one of them.
fn cuts_and_fills<B: Naming + Send + Sync, D: BlockDevice + Send, R: Threads + Wait + Sync>(
    rt: &R,
    cache: &Tested<B, D>,
    turnstile: &Turnstile,
    mut caller: Seat,
    handle: Handle,
) -> bool
    requires { caller.table ≡ B.table }
{
    let is_held = turnstile.wait_for_a_call();
    let is_cut = cache.truncate(rt, &mut caller, &handle, 0).is_ok();
    let is_written = takes_blocks(rt, cache, &mut caller, &handle, CALLS - 1);
    let (is_full, is_open) = thread::join(
        rt,
        move ||
            requires { caller.table ≡ B.table }
        { takes_the_rest(rt, cache, caller, handle) },
        || turnstile.open_late(),
    );
    is_held && is_cut && is_written && is_full && is_open
}

/// Takes as many blocks as a call may, by a seat and a handle that are given up.
fn takes_the_rest<B: Naming, D: BlockDevice, R: Wait>(
    rt: &R,
    cache: &Tested<B, D>,
    mut seat: Seat,
    handle: Handle,
) -> bool
    requires { seat.table ≡ B.table }
{
    cache
        .pwrite(rt, &mut seat, &handle, 256 * (CALLS - 1), &[7; 256])
        .is_ok()
}

/// Takes blocks by so many calls, each as many as it may.
fn takes_blocks<B: Naming, D: BlockDevice, R: Wait>(
    rt: &R,
    cache: &Tested<B, D>,
    seat: &mut Seat,
    handle: &Handle,
    calls: u64,
) -> bool
    requires seat { seat.old.table ≡ B.table }
    requires few { calls ≤ 4 }
    ensures { seat.new.table ≡ seat.old.table }
{
    for call in 0..calls {
        if cache
            .pwrite(rt, seat, handle, 256 * call, &[7; 256])
            .is_err()
        {
            return false;
        }
    }
    true
}

/// Whether a page more is refused by `NoSpace` while the write is still held.
fn is_refused<B: Naming, D: BlockDevice, R: Wait>(
    rt: &R,
    cache: &Tested<B, D>,
    turnstile: &Turnstile,
    mut seat: Seat,
    handle: Handle,
) -> bool
    requires { seat.table ≡ B.table }
{
    let is_held = turnstile.wait_for_a_call();
    let wrote = cache.pwrite(rt, &mut seat, &handle, 1_024, &[7; 16]);
    let is_refused = matches!(
        wrote,
        Err(Denied {
            refusal: Refusal::NoSpace,
            slip: Some(_)
        })
    );
    is_held && is_refused && turnstile.open()
}
