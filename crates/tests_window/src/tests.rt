//! Rows over devices in memory: windows one after the other, the last block, faults, flushes, and a window of a window.

ghost use Rattle.std.specs.Prelude.{◌≡◌, ◌<◌, ◌≤◌, length};

use crate::checks::{check, same};
use crate::owner::{put, put_two, settle, take};
use blockdev::{BlockDevice, FaultEffect, MemDevice, ScriptDevice};
use pc_types::{BlockNo, ErrCode};
use std::process::Abort;
use window::Window;

/// What a read of the block answers, and what it leaves of four nines.
fn read<D: BlockDevice>(device: &mut D, block: u32) -> (Result<(), ErrCode>, [u8; 4])
    requires size { (D.told device.old).size ≡ 4 }
    requires count { block < (D.told device.old).count }
    ensures size { (D.told device.new).size ≡ (D.told device.old).size }
    ensures count { (D.told device.new).count ≡ (D.told device.old).count }
{
    let mut out = [9; 4];
    let answer = device.read(BlockNo(block), &mut out);
    (answer, out)
}

fn write<D: BlockDevice>(device: &mut D, block: u32, bytes: &[u8; 4]) -> Result<(), ErrCode>
    requires size { (D.told device.old).size ≡ 4 }
    requires count { block < (D.told device.old).count }
    ensures size { (D.told device.new).size ≡ (D.told device.old).size }
    ensures count { (D.told device.new).count ≡ (D.told device.old).count }
{
    device.write(BlockNo(block), bytes)
}

/// A new device of three blocks of four bytes, through the trait: its last block is written and read back.
fn reads_back<D: BlockDevice>(rt: &impl Abort, device: &mut D)
    requires size { (D.told device.old).size ≡ 4 }
    requires count { 2 < (D.told device.old).count }
{
    same(rt, read(device, 2), (Ok(()), [0; 4]));
    same(rt, write(device, 2, b"last"), Ok(()));
    same(rt, read(device, 1), (Ok(()), [0; 4]));
    same(rt, read(device, 2), (Ok(()), *b"last"));
    same(rt, (device.block_size(), device.blocks()), (4, 3));
    same(rt, (device.calls(), device.faults()), (4, 0));
}

fn has(device: &ScriptDevice, block: u32, bytes: &[u8]) -> bool {
    u64::from(block) < device.blocks() && device.bytes(BlockNo(block)) == bytes
}

#[test]
fn the_last_block_of_a_window_is_a_block_of_the_device(rt: HostRuntime) {
    let mut device = ScriptDevice::new(rt.alloc(), 4, 6).expect(&rt, "memory");
    let mut window = Window::new(&mut device, 2, 3);
    reads_back(&rt, &mut window);
    check(&rt, has(&device, 4, b"last"));
    check(&rt, has(&device, 2, &[0; 4]));
    check(&rt, has(&device, 5, &[0; 4]));
    same(&rt, device.calls(), 4);
}

// The last block of the window is the last of the device.
#[test]
fn a_window_may_end_with_the_device(rt: HostRuntime) {
    let mut device = MemDevice::new(rt.alloc(), 4, 6).expect(&rt, "memory");
    same(&rt, put(&mut device, 3, 3, 2, b"last"), Ok(()));
    same(&rt, read(&mut device, 5), (Ok(()), *b"last"));
    same(&rt, read(&mut device, 4), (Ok(()), [0; 4]));
}

#[test]
fn two_windows_do_not_touch_each_other(rt: HostRuntime) {
    let mut device = MemDevice::new(rt.alloc(), 4, 4).expect(&rt, "memory");
    same(&rt, put_two(&mut device, 0, b"low."), Ok(()));
    same(&rt, put_two(&mut device, 2, b"high"), Ok(()));
    let mut out = [9; 4];
    same(&rt, take(&mut device, 0, 2, 1, &mut out), Ok(()));
    same(&rt, out, *b"low.");
    same(&rt, take(&mut device, 2, 2, 0, &mut out), Ok(()));
    same(&rt, out, *b"high");
    same(&rt, read(&mut device, 0), (Ok(()), *b"low."));
    same(&rt, read(&mut device, 3), (Ok(()), *b"high"));
    same(&rt, device.calls(), 8);
}

/// A write of block 0 of a window from block 1 on, which fails.
fn fails(rt: &impl Abort, device: &mut ScriptDevice, effect: FaultEffect, left: &[u8])
    requires size { device.old.size ≡ 4 }
    requires count { device.old.count ≡ 4 }
{
    same(rt, put(device, 1, 2, 0, b"old."), Ok(()));
    device.fail_next(ErrCode::IO, effect);
    same(rt, put(device, 1, 2, 0, b"new."), Err(ErrCode::IO));
    check(rt, has(device, 1, left));
    check(rt, has(device, 0, &[0; 4]));
    same(rt, (device.calls(), device.faults()), (2, 1));
}

#[test]
fn a_fault_of_the_device_is_one_of_the_window(rt: HostRuntime) {
    let mut device = ScriptDevice::new(rt.alloc(), 4, 4).expect(&rt, "memory");
    fails(&rt, &mut device, FaultEffect::Old, b"old.");
    let mut device = ScriptDevice::new(rt.alloc(), 4, 4).expect(&rt, "memory");
    fails(&rt, &mut device, FaultEffect::New, b"new.");
}

#[test]
fn a_failed_read_changes_nothing(rt: HostRuntime) {
    let mut device = ScriptDevice::new(rt.alloc(), 4, 4).expect(&rt, "memory");
    device.fail_next(ErrCode::IO, FaultEffect::New);
    let mut out = [9; 4];
    same(&rt, take(&mut device, 1, 2, 1, &mut out), Err(ErrCode::IO));
    same(&rt, out, [9; 4]);
}

#[test]
fn a_flush_is_one_of_the_device(rt: HostRuntime) {
    let mut device = ScriptDevice::new(rt.alloc(), 4, 4).expect(&rt, "memory");
    same(&rt, settle(&mut device, 0, 2), Ok(()));
    device.fail_next_flush(ErrCode::IO);
    same(&rt, settle(&mut device, 2, 2), Err(ErrCode::IO));
    same(&rt, settle(&mut device, 2, 2), Ok(()));
    same(&rt, (device.flushes(), device.faults()), (3, 1));
}

#[test]
fn a_window_may_have_no_block(rt: HostRuntime) {
    let mut device = MemDevice::new(rt.alloc(), 4, 2).expect(&rt, "memory");
    let mut window = Window::new(&mut device, 2, 0);
    same(&rt, (window.block_size(), window.blocks()), (4, 0));
    same(&rt, window.flush(), Ok(()));
    same(&rt, window.flushes(), 1);
}

// Block 1 of a window from block 1 on, of a window from block 2 on, is block 4.
#[test]
fn a_window_may_have_a_window(rt: HostRuntime) {
    let mut device = ScriptDevice::new(rt.alloc(), 4, 6).expect(&rt, "memory");
    let mut outer = Window::new(&mut device, 2, 4);
    same(&rt, put(&mut outer, 1, 2, 1, b"deep"), Ok(()));
    check(&rt, has(&device, 4, b"deep"));
    check(&rt, has(&device, 3, &[0; 4]));
}
