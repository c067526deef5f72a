//! Rows with several threads, over a device that one of them can hold.

ghost use Rattle.std.specs.Prelude.{◌≡◌};

use crate::rows::Tested;
use blockdev::{BlockDevice, Gate};
use held::denied::Denied;
use held::log::Seat;
use held::naming::Naming;
use pc_types::{ErrCode, FileId, Refusal};
use shared::handle::Handle;
use std::sync::Wait;
use std::sync::atomic::{AtomicU64, Ordering};
use std::thread;
use std::thread::Threads;

const ROUNDS: u64 = 100;

/// More pages than there are frames.
const PAGES: u8 = 52;

/// The device call that fills the first page, once all of them were written: the writes before it made room.
pub(crate) const FIRST_FILL: u64 = 37;

/// How often a thread lets others go on before it goes on itself.
const YIELDS: u64 = 1_000;

/// How often a thread that waits for a call looks, and a call that waits to be let through, at most.
const TURNS: u64 = 1_000_000;

/// It lets every call through.
const OPEN: u64 = 0;

/// It holds the next call.
const SHUT: u64 = 1;

/// A call stands before it.
const HOLDS: u64 = 2;

/// A call stood before it for too long, and went on.
const GIVEN_UP: u64 = 3;

/// Where a device call waits till a thread lets it go on.
#[derive(Drop)]
pub(crate) struct Turnstile {
    stage: AtomicU64,
    calls: AtomicU64,
}

impl Turnstile {
    pub(crate) fn new() -> Turnstile {
        Turnstile {
            stage: AtomicU64::new(OPEN),
            calls: AtomicU64::new(0),
        }
    }

    /// How many calls came.
    pub(crate) fn calls(&self) -> u64 {
        self.calls.load(Ordering::SeqCst)
    }

    /// Waits till another call than these has come. Answers whether one came.
    pub(crate) fn wait_past(&self, calls: u64) -> bool {
        for _ in 0..TURNS {
            if self.calls() != calls {
                return true;
            }
            thread::yield_now();
        }
        false
    }

    /// Holds the next call.
    pub(crate) fn shut(&self) {
        self.stage.store(SHUT, Ordering::SeqCst);
    }

    /// Waits for a call that stands before it. Answers whether one came.
    pub(crate) fn wait_for_a_call(&self) -> bool {
        self.wait_till(HOLDS)
    }

    /// Lets the call that stands before it go on. Answers whether it still stood there.
    pub(crate) fn open(&self) -> bool {
        self.stage
            .compare_exchange(HOLDS, OPEN, Ordering::SeqCst, Ordering::SeqCst)
            .is_ok()
    }

    /// Whether it lets every call through, and none gave up.
    pub(crate) fn is_open(&self) -> bool {
        self.stage.load(Ordering::SeqCst) == OPEN
    }

    /// Opens once the other threads had the time to come to where they wait.
    pub(crate) fn open_late(&self) -> bool {
        for _ in 0..YIELDS {
            thread::yield_now();
        }
        self.open()
    }

    /// A call comes: if it is to be held it waits till it may go on, or gives up.
    pub(crate) fn pass(&self) {
        self.calls.fetch_add(1, Ordering::SeqCst);
        if self.stage.load(Ordering::SeqCst) == SHUT {
            self.stage.store(HOLDS, Ordering::SeqCst);
            if !self.wait_till(OPEN) {
                self.stage.store(GIVEN_UP, Ordering::SeqCst);
            }
        }
    }

    /// Waits till it is at this stage. Answers whether it came to that.
    fn wait_till(&self, stage: u64) -> bool {
        for _ in 0..TURNS {
            if self.stage.load(Ordering::SeqCst) == stage {
                return true;
            }
            thread::yield_now();
        }
        false
    }
}

/// The turnstile before a device.
#[derive(Drop)]
pub(crate) struct Entrance<'a> {
    pub(crate) turnstile: &'a Turnstile,
}

impl<'a> Gate for Entrance<'a> {
    ghost use Rattle.std.specs.Prelude.{⊤};

    ghost passed = { λ _ _. ⊤ };

    fn enter(&self, _number: u64) {
        self.turnstile.pass();
    }
}

/// Writes the page's number all over it.
pub(crate) fn writes_page<B: Naming, D: BlockDevice, R: Wait>(
    rt: &R,
    cache: &Tested<B, D>,
    seat: &mut Seat,
    handle: &Handle,
    page: u8,
) -> bool
    requires { seat.old.table ≡ B.table }
    ensures { seat.new.table ≡ seat.old.table }
{
    let offset = 16 * u64::from(page);
    cache.pwrite(rt, seat, handle, offset, &[page; 16]).is_ok()
}

/// Whether the page's number stands all over it.
pub(crate) fn reads_page<B: Naming, D: BlockDevice, R: Wait>(
    rt: &R,
    cache: &Tested<B, D>,
    seat: &mut Seat,
    handle: &Handle,
    page: u8,
) -> bool
    requires { seat.old.table ≡ B.table }
    ensures { seat.new.table ≡ seat.old.table }
{
    let mut out = [u8::MAX; 16];
    let offset = 16 * u64::from(page);
    let read = cache.pread(rt, seat, handle, offset, &mut out);
    matches!(read, Ok((16, _))) && out == [page; 16]
}

/// A page that the cache has is read while the device call of another thread's fill is held.
pub(crate) fn reads_beside_a_fill<
    B: Naming + Send + Sync,
    D: BlockDevice + Send,
    R: Threads + Wait + Sync,
>(
    rt: &R,
    cache: &Tested<B, D>,
    turnstile: &Turnstile,
    mut first: Seat,
    second: Seat,
    handle: &Handle,
) -> bool
    requires first { first.table ≡ B.table }
    requires second { second.table ≡ B.table }
{
    if !overfills(rt, cache, &mut first, handle) {
        return false;
    }
    let Some((mine, other)) = two_handles(rt, cache, &mut first, handle.file()) else {
        return false;
    };
    turnstile.shut();
    let (is_filled, is_read) = thread::join(
        rt,
        move ||
            requires { first.table ≡ B.table }
        { reads_once(rt, cache, first, mine, 0) },
        move ||
            requires { second.table ≡ B.table }
        { reads_meanwhile(rt, cache, turnstile, second, other, PAGES - 1) },
    );
    is_filled && is_read
}

/// A thread fills a page, and another waits for the end of that. The fill fails: the first is told, and the other tries again.
pub(crate) fn tries_again<B: Naming + Send + Sync, D: BlockDevice + Send, R: Threads + Wait + Sync>(
    rt: &R,
    cache: &Tested<B, D>,
    turnstile: &Turnstile,
    mut first: Seat,
    second: Seat,
    handle: &Handle,
) -> bool
    requires first { first.table ≡ B.table }
    requires second { second.table ≡ B.table }
{
    if !overfills(rt, cache, &mut first, handle) {
        return false;
    }
    let Some((mine, other)) = two_handles(rt, cache, &mut first, handle.file()) else {
        return false;
    };
    turnstile.shut();
    let (is_told, is_read) = thread::join(
        rt,
        move ||
            requires { first.table ≡ B.table }
        { fails_to_read(rt, cache, first, mine) },
        move ||
            requires { second.table ≡ B.table }
        { waits_and_reads(rt, cache, turnstile, second, other) },
    );
    is_told && is_read
}

/// Whether a read of the first page is refused by the device's fault.
fn fails_to_read<B: Naming, D: BlockDevice, R: Wait>(
    rt: &R,
    cache: &Tested<B, D>,
    mut seat: Seat,
    handle: Handle,
) -> bool
    requires { seat.table ≡ B.table }
{
    let read = cache.pread(rt, &mut seat, &handle, 0, &mut [0; 16]);
    matches!(
        read,
        Err(Denied {
            refusal: Refusal::Io(ErrCode::IO),
            slip: Some(_)
        })
    )
}

/// Reads the first page while a call stands before the turnstile, which lets that call go on in the meantime.
fn waits_and_reads<B: Naming + Send + Sync, D: BlockDevice + Send, R: Threads + Wait + Sync>(
    rt: &R,
    cache: &Tested<B, D>,
    turnstile: &Turnstile,
    seat: Seat,
    handle: Handle,
) -> bool
    requires { seat.table ≡ B.table }
{
    let is_held = turnstile.wait_for_a_call();
    let (is_read, is_open) = thread::join(
        rt,
        move ||
            requires { seat.table ≡ B.table }
        { reads_once(rt, cache, seat, handle, 0) },
        || turnstile.open_late(),
    );
    is_held && is_read && is_open
}

/// Writes so many pages that the first is in the cache no more.
fn overfills<B: Naming, D: BlockDevice, R: Wait>(
    rt: &R,
    cache: &Tested<B, D>,
    seat: &mut Seat,
    handle: &Handle,
) -> bool
    requires { seat.old.table ≡ B.table }
    ensures { seat.new.table ≡ seat.old.table }
{
    for page in 0..PAGES {
        if !writes_page(rt, cache, seat, handle, page) {
            return false;
        }
    }
    true
}

/// Reads the page between a call's coming to the turnstile and its going on.
pub(crate) fn reads_meanwhile<B: Naming, D: BlockDevice, R: Wait>(
    rt: &R,
    cache: &Tested<B, D>,
    turnstile: &Turnstile,
    seat: Seat,
    handle: Handle,
    page: u8,
) -> bool
    requires { seat.table ≡ B.table }
{
    let is_held = turnstile.wait_for_a_call();
    let is_read = reads_once(rt, cache, seat, handle, page);
    is_held && is_read && turnstile.open()
}

/// Reads the page, by a seat and a handle that are given up.
fn reads_once<B: Naming, D: BlockDevice, R: Wait>(
    rt: &R,
    cache: &Tested<B, D>,
    mut seat: Seat,
    handle: Handle,
    page: u8,
) -> bool
    requires { seat.table ≡ B.table }
{
    reads_page(rt, cache, &mut seat, &handle, page)
}

/// A handle of the file for each of two threads: no two of them share one.
fn two_handles<B: Naming, D: BlockDevice, R: Wait>(
    rt: &R,
    cache: &Tested<B, D>,
    seat: &mut Seat,
    file: FileId,
) -> Option<(Handle, Handle)>
    requires { seat.old.table ≡ B.table }
    ensures { seat.new.table ≡ seat.old.table }
{
    let (one, _) = cache.open(rt, seat, file, false).ok()?;
    let (two, _) = cache.open(rt, seat, file, false).ok()?;
    Some((one, two))
}

/// What one handle wrote another reads: at once, after an fsync, once the first is closed, and in another thread.
pub(crate) fn is_seen_by_all<
    B: Naming + Send + Sync,
    D: BlockDevice + Send,
    R: Threads + Wait + Sync,
>(rt: &R, cache: &Tested<B, D>, mut first: Seat, second: Seat, mut writer: Handle) -> bool
    requires first { first.table ≡ B.table }
    requires second { second.table ≡ B.table }
    requires writer { writer.pass.board ≡ B.board }
{
    let Ok((reader, _)) = cache.open(rt, &mut first, writer.file(), false) else {
        return false;
    };
    let is_written = writes_page(rt, cache, &mut first, &writer, 3);
    let at_once = reads_page(rt, cache, &mut first, &reader, 3);
    let is_synced = cache.fsync(rt, &mut first, &mut writer).is_ok();
    let once_synced = reads_page(rt, cache, &mut first, &reader, 3);
    let is_closed = cache.close_handle(rt, &mut first, writer).is_ok();
    let Some((mine, other)) = two_handles(rt, cache, &mut first, reader.file()) else {
        return false;
    };
    let (here, there) = thread::join(
        rt,
        move ||
            requires { first.table ≡ B.table }
        { reads_once(rt, cache, first, mine, 3) },
        move ||
            requires { second.table ≡ B.table }
        { reads_once(rt, cache, second, other, 3) },
    );
    is_written && at_once && is_synced && once_synced && is_closed && here && there
}

/// Two threads write one page and read it, over and over.
pub(crate) fn shares_a_file<
    B: Naming + Send + Sync,
    D: BlockDevice + Send,
    R: Threads + Wait + Sync,
>(rt: &R, cache: &Tested<B, D>, mut first: Seat, second: Seat, handle: &Handle) -> bool
    requires first { first.table ≡ B.table }
    requires second { second.table ≡ B.table }
{
    let Some((mine, other)) = two_handles(rt, cache, &mut first, handle.file()) else {
        return false;
    };
    let (one, two) = thread::join(
        rt,
        move ||
            requires { first.table ≡ B.table }
        { writes_and_reads(rt, cache, first, mine, 0xaa) },
        move ||
            requires { second.table ≡ B.table }
        { writes_and_reads(rt, cache, second, other, 0xbb) },
    );
    one && two
}

/// Writes the byte all over the page and reads the page, over and over: what is read is one of the two writes, whole.
fn writes_and_reads<B: Naming, D: BlockDevice, R: Wait>(
    rt: &R,
    cache: &Tested<B, D>,
    mut seat: Seat,
    handle: Handle,
    byte: u8,
) -> bool
    requires { seat.table ≡ B.table }
{
    for _ in 0..ROUNDS {
        let mut out = [9; 16];
        let wrote = cache.pwrite(rt, &mut seat, &handle, 0, &[byte; 16]);
        let read = cache.pread(rt, &mut seat, &handle, 0, &mut out);
        if wrote.is_err() || read.is_err() || !(out == [0xaa; 16] || out == [0xbb; 16]) {
            return false;
        }
    }
    true
}
