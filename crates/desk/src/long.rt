//! Reads and writes of more than 16 pages, in parts that touch 16 at most.

ghost use Rattle.std.specs.Prelude.{◌≡◌, ◌-◌, ◌<◌, ◌≤◌, IfOk, OnErr, length, take, min};
ghost use Rattle.pc_types.specs.Files as plain;
ghost use Rattle.machine.specs.State.{file_at};
ghost use Rattle.runs.specs.Plain.{plain_file};
ghost use Rattle.filesvc.specs.Service.{IsOpen, Keeps, Serves, Tells, files};
ghost use Rattle.desk.specs.Seen.{with_file};

use blockdev::BlockDevice;
use filesvc::{Handle, Solo};
use pc_types::Refusal;
use pc_types::limits::MAX_TOUCHED;

/// Whether so many bytes are some, and touch 16 pages at most wherever they begin. So most calls are one of the service, and divide nothing.
#[inline(always)]
fn is_short(page: u64, count: usize) -> bool {
    0 < count && count as u64 <= page.saturating_mul(MAX_TOUCHED - 1)
}

/// How many bytes from an offset on one call may be of: to the end of the sixteenth page that they touch.
fn span(page: u64, offset: u64) -> u64
    ensures { 0 < result }
{
    let all = page.saturating_mul(MAX_TOUCHED);
    let before = offset.checked_rem(page).unwrap_or(0);
    all.saturating_sub(before).max(1)
}

/// Reads as `Solo::pread` does, but any number of bytes.
#[inline(always)]
pub(crate) fn read_any<D: BlockDevice>(
    solo: &mut Solo<D>,
    handle: &Handle,
    page: u64,
    offset: u64,
    out: &mut [u8],
) -> Result<u64, Refusal>
    requires open { IsOpen solo.old handle.now }
    ensures serves { Serves solo.old solo.new }
    ensures bytes { Tells solo.old → IfOk result (λ n. take n out.new ≡ plain.pread (plain_file (files solo.old) handle.now.file) offset (length out.old)) }
    ensures all { IfOk result (λ n. n ≡ min (length out.old) ((file_at solo.old.world.core handle.now.file).size - offset)) }
{
    if is_short(page, out.len()) {
        return solo.pread(handle, offset, out);
    }
    read_long(solo, handle, page, offset, out)
}

/// The same, in parts.
#[inline(never)]
fn read_long<D: BlockDevice>(
    solo: &mut Solo<D>,
    handle: &Handle,
    page: u64,
    offset: u64,
    out: &mut [u8],
) -> Result<u64, Refusal>
    requires open { IsOpen solo.old handle.now }
    ensures serves { Serves solo.old solo.new }
    ensures bytes { Tells solo.old → IfOk result (λ n. take n out.new ≡ plain.pread (plain_file (files solo.old) handle.now.file) offset (length out.old)) }
    ensures all { IfOk result (λ n. n ≡ min (length out.old) ((file_at solo.old.world.core handle.now.file).size - offset)) }
{
    let mut done = 0;
    'parts: while done < out.len() {
        // no file has bytes past the last offset, so none is wanted there
        let Some(at) = offset.checked_add(done as u64) else {
            return Err(Refusal::TooLarge);
        };
        let end = out.len().min(done.saturating_add(span(page, at) as usize));
        let part = &mut out[done..end];
        let count = solo.pread(handle, at, part)? as usize;
        done += count;
        if done < end {
            return Ok(done as u64);
        }
    }
    Ok(done as u64)
}

/// Writes as `Solo::pwrite` does, but any number of bytes. What was written before a part is refused is counted.
#[inline(always)]
pub(crate) fn write_any<D: BlockDevice>(
    solo: &mut Solo<D>,
    handle: &Handle,
    page: u64,
    offset: u64,
    bytes: &[u8],
) -> Result<u64, Refusal>
    requires open { IsOpen solo.old handle.now }
    ensures keeps { Keeps solo.old solo.new }
    ensures count { IfOk result (λ n. n ≤ length bytes.now) }
    ensures file { Tells solo.old → IfOk result (λ n. files solo.new ≡ with_file (files solo.old) handle.now.file (plain.pwrite (plain_file (files solo.old) handle.now.file) offset (take n bytes.now))) }
    ensures refused { Tells solo.old → OnErr result (files solo.new ≡ files solo.old) }
{
    if is_short(page, bytes.len()) {
        return solo.pwrite(handle, offset, bytes);
    }
    write_long(solo, handle, page, offset, bytes)
}

/// The same, in parts.
#[inline(never)]
fn write_long<D: BlockDevice>(
    solo: &mut Solo<D>,
    handle: &Handle,
    page: u64,
    offset: u64,
    bytes: &[u8],
) -> Result<u64, Refusal>
    requires open { IsOpen solo.old handle.now }
    ensures keeps { Keeps solo.old solo.new }
    ensures count { IfOk result (λ n. n ≤ length bytes.now) }
    ensures file { Tells solo.old → IfOk result (λ n. files solo.new ≡ with_file (files solo.old) handle.now.file (plain.pwrite (plain_file (files solo.old) handle.now.file) offset (take n bytes.now))) }
    ensures refused { Tells solo.old → OnErr result (files solo.new ≡ files solo.old) }
{
    let mut done = 0;
    'parts: while done < bytes.len() {
        let Some(at) = offset.checked_add(done as u64) else {
            return Ok(done as u64);
        };
        let end = bytes
            .len()
            .min(done.saturating_add(span(page, at) as usize));
        match solo.pwrite(handle, at, &bytes[done..end]) {
            Ok(_) => done = end,
            Err(refusal) => {
                if done == 0 {
                    return Err(refusal);
                }
                return Ok(done as u64);
            }
        }
    }
    Ok(done as u64)
}
