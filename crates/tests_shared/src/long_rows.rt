//! Rows over a file that is longer than the cache, with no worker beside them: the calls alone make room, many times.

ghost use Rattle.std.specs.Prelude.{◌≡◌};

use crate::rows::Tested;
use crate::thread_rows::Turnstile;
use blockdev::BlockDevice;
use held::denied::Denied;
use held::log::{Seat, Slip};
use held::naming::Naming;
use shared::handle::Handle;
use std::sync::Wait;

/// Bytes of the file: 64 pages, as many as the device has blocks.
const LONG: usize = 1024;

/// Bytes of the 16 pages that a call reads or writes.
const STEP: usize = 256;

/// Half of them: the second reading begins so far on, in the middle of what a call of the first one read.
const HALF: usize = 128;

/// How often the file is read and changed.
const ROUNDS: u8 = 40;

/// How often a call is made that a fault of the device refuses.
const TRIES: u8 = 3;

/// The place of the last entry in the history, how many calls were refused, and how many calls the device got.
type Passed = (u64, u64, u64);

/// Where the device fails no call. The counts are those of the code before it was made faster.
pub(crate) const WELL: Passed = (34_176, 0, 7_448);

/// Where it fails each 97th call: so too.
pub(crate) const BADLY: Passed = (34_407, 57, 7_525);

/// Of so many calls of a device that fails one does.
pub(crate) const SOME: u64 = 97;

/// Writes the file by calls of 16 pages, and then, over and over, reads it so twice and changes a byte of each page. Most calls find their
/// pages gone, and each change has one written back. Answers whether all of it was read as it was written, and with these numbers.
pub(crate) fn passes_over_a_long_file<B: Naming, D: BlockDevice, R: Wait>(
    rt: &R,
    cache: &Tested<B, D>,
    turnstile: &Turnstile,
    seat: &mut Seat,
    handle: &Handle,
    passed: Passed,
) -> bool
    requires { seat.old.table ≡ B.table }
{
    let mut plain = [0; LONG];
    for (place, byte) in plain.iter_mut().enumerate() {
        *byte = (place % 251) as u8;
    }
    let mut so_far = (0, 0);
    let mut is_well = writes_long(rt, cache, seat, handle, &plain, &mut so_far);
    for round in 0..ROUNDS {
        let is_read = reads_long(rt, cache, seat, handle, &plain, &mut so_far);
        let is_changed = changes_long(rt, cache, seat, handle, &mut plain, round, &mut so_far);
        is_well = is_well && is_read && is_changed;
    }
    let (place, refused) = so_far;
    is_well && (place, refused, turnstile.calls()) == passed
}

/// Notes what a call answered. Answers whether it was not refused.
fn notes<T>(answer: &Result<(T, Slip), Denied>, so_far: &mut (u64, u64)) -> bool {
    match answer {
        Ok((_, slip)) => {
            so_far.0 = slip.place;
            true
        }
        Err(_) => {
            so_far.1 = so_far.1.wrapping_add(1);
            false
        }
    }
}

/// Writes all bytes of the file.
fn writes_long<B: Naming, D: BlockDevice, R: Wait>(
    rt: &R,
    cache: &Tested<B, D>,
    seat: &mut Seat,
    handle: &Handle,
    plain: &[u8],
    so_far: &mut (u64, u64),
) -> bool
    requires { seat.old.table ≡ B.table }
    ensures { seat.new.table ≡ seat.old.table }
{
    let mut offset = 0u64;
    let mut is_written = true;
    for part in plain.chunks(STEP) {
        is_written = is_written && writes(rt, cache, seat, handle, offset, part, so_far);
        offset = offset.wrapping_add(STEP as u64);
    }
    is_written
}

/// Whether the file has these bytes, read twice: the second time from the middle of the first call's bytes on.
fn reads_long<B: Naming, D: BlockDevice, R: Wait>(
    rt: &R,
    cache: &Tested<B, D>,
    seat: &mut Seat,
    handle: &Handle,
    plain: &[u8],
    so_far: &mut (u64, u64),
) -> bool
    requires { seat.old.table ≡ B.table }
    ensures { seat.new.table ≡ seat.old.table }
{
    let is_read = reads_from(rt, cache, seat, handle, 0, plain, so_far);
    let Some(rest) = plain.get(HALF..) else {
        return false;
    };
    is_read && reads_from(rt, cache, seat, handle, HALF as u64, rest, so_far)
}

/// Whether the file has these bytes from this offset on.
fn reads_from<B: Naming, D: BlockDevice, R: Wait>(
    rt: &R,
    cache: &Tested<B, D>,
    seat: &mut Seat,
    handle: &Handle,
    mut offset: u64,
    plain: &[u8],
    so_far: &mut (u64, u64),
) -> bool
    requires { seat.old.table ≡ B.table }
    ensures { seat.new.table ≡ seat.old.table }
{
    let mut is_read = true;
    for part in plain.chunks(STEP) {
        is_read = is_read && reads(rt, cache, seat, handle, offset, part, so_far);
        offset = offset.wrapping_add(STEP as u64);
    }
    is_read
}

/// Writes one byte into the middle of each page, another in each round.
fn changes_long<B: Naming, D: BlockDevice, R: Wait>(
    rt: &R,
    cache: &Tested<B, D>,
    seat: &mut Seat,
    handle: &Handle,
    plain: &mut [u8],
    round: u8,
    so_far: &mut (u64, u64),
) -> bool
    requires { seat.old.table ≡ B.table }
    ensures { seat.new.table ≡ seat.old.table }
{
    let mut offset = 5u64;
    let mut is_changed = true;
    for page in plain.chunks_mut(16) {
        let byte = round
            .wrapping_mul(64)
            .wrapping_add((offset / 16 % 64) as u8);
        if let Some(place) = page.get_mut(5) {
            *place = byte;
        }
        is_changed = is_changed && writes(rt, cache, seat, handle, offset, &[byte], so_far);
        offset = offset.wrapping_add(16);
    }
    is_changed
}

/// Writes the bytes, in some tries.
fn writes<B: Naming, D: BlockDevice, R: Wait>(
    rt: &R,
    cache: &Tested<B, D>,
    seat: &mut Seat,
    handle: &Handle,
    offset: u64,
    bytes: &[u8],
    so_far: &mut (u64, u64),
) -> bool
    requires { seat.old.table ≡ B.table }
    ensures { seat.new.table ≡ seat.old.table }
{
    'tries: for _ in 0..TRIES {
        let answer = cache.pwrite(rt, seat, handle, offset, bytes);
        if notes(&answer, so_far) {
            return true;
        }
    }
    false
}

/// Whether these bytes are read, in some tries.
fn reads<B: Naming, D: BlockDevice, R: Wait>(
    rt: &R,
    cache: &Tested<B, D>,
    seat: &mut Seat,
    handle: &Handle,
    offset: u64,
    plain: &[u8],
    so_far: &mut (u64, u64),
) -> bool
    requires { seat.old.table ≡ B.table }
    ensures { seat.new.table ≡ seat.old.table }
{
    let mut out = [0; STEP];
    'tries: for _ in 0..TRIES {
        let answer = cache.pread(rt, seat, handle, offset, &mut out);
        if notes(&answer, so_far) {
            return out.get(..plain.len()) == Some(plain);
        }
    }
    false
}
