//! Each device through the trait's bound, planned faults in their four forms, a page on its way, and jobs of both kinds
//! with both outcomes.

ghost use Rattle.std.specs.Prelude.{◌≡◌, ◌<◌, length};

use crate::checks::{check, same};
use blockdev::{
    BlockDevice, Buffer, FaultEffect, FinishedParts, Gate, GatedDevice, Job, MemDevice, OpenGate,
    ScriptDevice, Watched, perform,
};
use pc_types::{BlockNo, ErrCode, Geometry, Kind, Refusal, Serial};
use std::alloc::Global;
use std::cell::Cell;
use std::process::Abort;

/// What a read of the block answers, and what it leaves of four nines.
fn read<D: BlockDevice>(device: &mut D, block: u32) -> (Result<(), ErrCode>, [u8; 4])
    requires size { (D.told device.old).size ≡ 4 }
    requires count { block < (D.told device.old).count }
    ensures size { (D.told device.new).size ≡ (D.told device.old).size }
    ensures count { (D.told device.new).count ≡ (D.told device.old).count }
{
    let mut out = [9; 4];
    let answer = device.read(BlockNo(block), &mut out);
    (answer, out)
}

fn write<D: BlockDevice>(device: &mut D, block: u32, bytes: &[u8; 4]) -> Result<(), ErrCode>
    requires size { (D.told device.old).size ≡ 4 }
    requires count { block < (D.told device.old).count }
    ensures size { (D.told device.new).size ≡ (D.told device.old).size }
    ensures count { (D.told device.new).count ≡ (D.told device.old).count }
{
    device.write(BlockNo(block), bytes)
}

fn has(device: &ScriptDevice, block: u32, bytes: &[u8]) -> bool
    requires { block < device.now.count }
{
    device.bytes(BlockNo(block)) == bytes
}

/// A new device of two blocks of four bytes reads as zeros, and a write changes one block and no other.
fn reads_back<D: BlockDevice>(rt: &impl Abort, device: &mut D)
    requires size { (D.told device.old).size ≡ 4 }
    requires count { 1 < (D.told device.old).count }
{
    same(rt, read(device, 1), (Ok(()), [0; 4]));
    same(rt, write(device, 1, b"abcd"), Ok(()));
    same(rt, read(device, 0), (Ok(()), [0; 4]));
    same(rt, read(device, 1), (Ok(()), *b"abcd"));
    same(rt, (device.block_size(), device.blocks()), (4, 2));
    same(rt, (device.calls(), device.faults()), (4, 0));
}

#[test]
fn devices_in_memory_read_back(rt: HostRuntime) {
    let mut memory = MemDevice::new(rt.alloc(), 4, 2).expect(&rt, "memory");
    reads_back(&rt, &mut memory);
    let mut script = ScriptDevice::new(rt.alloc(), 4, 2).expect(&rt, "memory");
    reads_back(&rt, &mut script);
}

// More bytes than can be addressed are want of memory, and no overflow.
#[test]
fn a_device_without_room_is_refused(rt: HostRuntime) {
    let memory = MemDevice::new(rt.alloc(), u64::MAX, 2);
    check(&rt, matches!(memory, Err(Refusal::Memory)));
    let script = ScriptDevice::new(rt.alloc(), 4_096, u64::MAX);
    check(&rt, matches!(script, Err(Refusal::Memory)));
}

/// The code 28.
fn full(rt: &impl Abort) -> ErrCode {
    ErrCode::new(28).expect(rt, "a code")
}

fn fails_a_write(
    rt: &impl Abort,
    device: &mut ScriptDevice,
    code: ErrCode,
    effect: FaultEffect,
    left: &[u8],
)
    requires { (device.old.size ≡ 4) × (1 < device.old.count) }
{
    same(rt, write(device, 1, b"old."), Ok(()));
    device.fail_next(code, effect);
    same(rt, write(device, 1, b"new."), Err(code));
    check(rt, has(device, 1, left));
    check(rt, has(device, 0, &[0; 4]));
    same(rt, (device.calls(), device.faults()), (2, 1));
    // one call fails, and no more
    same(rt, write(device, 1, b"next"), Ok(()));
    check(rt, has(device, 1, b"next"));
}

fn leaves(rt: &impl Abort, alloc: Global, effect: FaultEffect, left: &[u8]) {
    let mut device = ScriptDevice::new(alloc, 4, 2).expect(rt, "memory");
    fails_a_write(rt, &mut device, full(rt), effect, left);
}

#[test]
fn a_planned_write_fault_leaves_old_or_new_bytes(rt: HostRuntime) {
    leaves(&rt, rt.alloc(), FaultEffect::Old, b"old.");
    leaves(&rt, rt.alloc(), FaultEffect::New, b"new.");
}

fn fails_a_read(rt: &impl Abort, device: &mut ScriptDevice, effect: FaultEffect)
    requires { (device.old.size ≡ 4) × (1 < device.old.count) }
{
    same(rt, write(device, 1, b"kept"), Ok(()));
    device.fail_next(ErrCode::IO, effect);
    same(rt, read(device, 1), (Err(ErrCode::IO), [9; 4]));
    check(rt, has(device, 1, b"kept"));
    same(rt, (device.calls(), device.faults()), (2, 1));
    same(rt, read(device, 1), (Ok(()), *b"kept"));
}

fn changes_nothing(rt: &impl Abort, alloc: Global, effect: FaultEffect) {
    let mut device = ScriptDevice::new(alloc, 4, 2).expect(rt, "memory");
    fails_a_read(rt, &mut device, effect);
}

#[test]
fn a_planned_read_fault_changes_nothing(rt: HostRuntime) {
    changes_nothing(&rt, rt.alloc(), FaultEffect::Old);
    changes_nothing(&rt, rt.alloc(), FaultEffect::New);
}

/// A buffer of 16 bytes.
fn buffer(rt: &impl Abort, alloc: Global) -> Buffer
    ensures { length result ≡ 16 }
{
    let geometry = Geometry::new(16, 48, 16, 64).expect(rt, "sizes");
    Buffer::new(alloc, &geometry).expect(rt, "memory")
}

fn carries_a_buffer<D: BlockDevice>(rt: &impl Abort, device: &mut D, buffer: &mut Buffer)
    requires size { (D.told device.old).size ≡ 16 }
    requires count { 63 < (D.told device.old).count }
    requires page { length buffer.old ≡ 16 }
{
    same(rt, buffer.as_slice(), [0; 16].as_slice());
    buffer.as_mut_slice().copy_from_slice(b"sixteen bytes...");
    same(rt, device.write(BlockNo(63), buffer.as_slice()), Ok(()));
    buffer.as_mut_slice().fill(0);
    same(rt, device.read(BlockNo(63), buffer.as_mut_slice()), Ok(()));
    same(rt, buffer.as_slice(), b"sixteen bytes...".as_slice());
}

#[test]
fn a_buffer_carries_a_page(rt: HostRuntime) {
    let mut buffer = buffer(&rt, rt.alloc());
    let mut device = MemDevice::new(rt.alloc(), 16, 64).expect(&rt, "memory");
    carries_a_buffer(&rt, &mut device, &mut buffer);
}

/// A page of the byte.
fn page(rt: &impl Abort, alloc: Global, byte: u8) -> Buffer
    ensures { length result ≡ 16 }
{
    let mut buffer = buffer(rt, alloc);
    buffer.as_mut_slice().fill(byte);
    buffer
}

/// Makes the call of request 7 of cache 3 for block 1, and sees that what comes back names it.
fn made<D: BlockDevice>(
    rt: &impl Abort,
    device: &mut D,
    kind: Kind,
    buffer: Buffer,
) -> FinishedParts
    requires size { (D.told device.old).size ≡ 16 }
    requires count { 1 < (D.told device.old).count }
    requires page { length buffer ≡ 16 }
    ensures size { (D.told device.new).size ≡ 16 }
    ensures count { 1 < (D.told device.new).count }
{
    let named = (3, Serial(7), kind);
    let job = Job::new(3, Serial(7), kind, BlockNo(1), buffer);
    same(rt, (job.cache(), job.serial(), job.kind()), named);
    same(rt, (job.block(), job.bytes().len()), (BlockNo(1), 16));
    let finished = perform(device, job);
    same(
        rt,
        (finished.cache(), finished.serial(), finished.kind()),
        named,
    );
    let outcome = finished.outcome();
    let parts = finished.into_parts();
    same(rt, (parts.cache, parts.serial, parts.kind), named);
    same(rt, (parts.block, parts.outcome), (BlockNo(1), outcome));
    parts
}

/// A flush puts its page into the block of a new device, and a fill brings it back.
fn carries_a_page<D: BlockDevice>(rt: &impl Abort, alloc: Global, device: &mut D)
    requires size { (D.told device.old).size ≡ 16 }
    requires count { 1 < (D.told device.old).count }
{
    let flushed = made(rt, device, Kind::Flush, page(rt, alloc, 7));
    same(rt, flushed.outcome, Ok(()));
    same(rt, flushed.buffer.as_slice(), [7; 16].as_slice());
    let filled = made(rt, device, Kind::Fill, page(rt, alloc, 9));
    same(rt, filled.outcome, Ok(()));
    same(rt, filled.buffer.as_slice(), [7; 16].as_slice());
    same(rt, (device.calls(), device.faults()), (2, 0));
}

#[test]
fn jobs_carry_a_page(rt: HostRuntime) {
    let mut memory = MemDevice::new(rt.alloc(), 16, 2).expect(&rt, "memory");
    carries_a_page(&rt, rt.alloc(), &mut memory);
    let mut script = ScriptDevice::new(rt.alloc(), 16, 2).expect(&rt, "memory");
    carries_a_page(&rt, rt.alloc(), &mut script);
}

fn fails_a_flush(
    rt: &impl Abort,
    device: &mut ScriptDevice,
    effect: FaultEffect,
    left: u8,
    buffer: Buffer,
)
    requires device { (device.old.size ≡ 16) × (1 < device.old.count) }
    requires page { length buffer ≡ 16 }
    ensures { (device.new.size ≡ 16) × (1 < device.new.count) }
{
    device.fail_next(full(rt), effect);
    let flushed = made(rt, device, Kind::Flush, buffer);
    same(rt, flushed.outcome, Err(full(rt)));
    same(rt, flushed.buffer.as_slice(), [7; 16].as_slice());
    check(rt, has(device, 0, &[0; 16]));
    check(rt, has(device, 1, &[left; 16]));
}

fn fails_a_fill(rt: &impl Abort, device: &mut ScriptDevice, effect: FaultEffect, buffer: Buffer)
    requires device { (device.old.size ≡ 16) × (1 < device.old.count) }
    requires page { length buffer ≡ 16 }
{
    device.fail_next(ErrCode::IO, effect);
    let filled = made(rt, device, Kind::Fill, buffer);
    same(rt, filled.outcome, Err(ErrCode::IO));
    same(rt, filled.buffer.as_slice(), [9; 16].as_slice());
    same(rt, (device.calls(), device.faults()), (2, 2));
}

fn tells_the_code(rt: &impl Abort, alloc: Global, effect: FaultEffect, left: u8) {
    let mut device = ScriptDevice::new(alloc, 16, 2).expect(rt, "memory");
    fails_a_flush(rt, &mut device, effect, left, page(rt, alloc, 7));
    fails_a_fill(rt, &mut device, effect, page(rt, alloc, 9));
}

#[test]
fn a_job_that_fails_tells_the_code(rt: HostRuntime) {
    tells_the_code(&rt, rt.alloc(), FaultEffect::Old, 0);
    tells_the_code(&rt, rt.alloc(), FaultEffect::New, 7);
}

fn memory_is_flushed(rt: &impl Abort, memory: &mut MemDevice)
    requires { (memory.old.size ≡ 4) × (1 < memory.old.count) }
{
    same(rt, write(memory, 1, b"kept"), Ok(()));
    same(rt, memory.flush(), Ok(()));
    same(
        rt,
        (memory.calls(), memory.flushes(), memory.faults()),
        (1, 1, 0),
    );
}

fn script_is_flushed(rt: &impl Abort, script: &mut ScriptDevice, code: ErrCode)
    requires { (script.old.size ≡ 4) × (1 < script.old.count) }
{
    script.fail_next_flush(code);
    same(rt, write(script, 1, b"kept"), Ok(()));
    same(rt, script.flush(), Err(code));
    same(rt, script.flush(), Ok(()));
    check(rt, has(script, 1, b"kept"));
    same(
        rt,
        (script.calls(), script.flushes(), script.faults()),
        (1, 2, 1),
    );
}

#[test]
fn a_flush_is_counted_apart(rt: HostRuntime) {
    let mut memory = MemDevice::new(rt.alloc(), 4, 2).expect(&rt, "memory");
    memory_is_flushed(&rt, &mut memory);
    let mut script = ScriptDevice::new(rt.alloc(), 4, 2).expect(&rt, "memory");
    script_is_flushed(&rt, &mut script, full(&rt));
}

fn notes_a_write(
    rt: &impl Abort,
    watched: &mut Watched<ScriptDevice>,
    code: ErrCode,
    buffer: Buffer,
)
    requires device { (watched.old.device.size ≡ 16) × (1 < watched.old.device.count) }
    requires page { length buffer ≡ 16 }
{
    same(rt, watched.flush_written(), Err(code));
    same(rt, watched.flush_written(), Ok(()));
    watched.fail_next(code, FaultEffect::New);
    let done = watched.perform(Job::new(3, Serial(7), Kind::Flush, BlockNo(1), buffer));
    same(rt, done.outcome(), Err(code));
    same(rt, watched.flush(), Ok(()));
}

// What was on a device before counts as written, and so does a write that failed.
#[test]
fn a_write_is_noted_until_a_good_flush(rt: HostRuntime) {
    let full = full(&rt);
    let mut script = ScriptDevice::new(rt.alloc(), 16, 2).expect(&rt, "memory");
    script.fail_next_flush(full);
    let mut watched = Watched::over(script);
    notes_a_write(&rt, &mut watched, full, page(&rt, rt.alloc(), 7));
}

/// A gate that keeps the last number.
#[derive(Drop)]
struct Counter {
    last: Cell<u64>,
}

impl Gate for Counter {
    ghost use Rattle.std.specs.Prelude.{⊤};

    ghost passed = { λ g n. ⊤ };

    fn enter(&self, number: u64) {
        self.last.set(number);
    }
}

// The gate is told how many calls came before.
fn passes_the_gate(rt: &impl Abort, device: &mut GatedDevice<ScriptDevice, Counter>)
    requires { (device.old.device.size ≡ 4) × (1 < device.old.device.count) }
{
    reads_back(rt, device);
    check(rt, device.gate().last.get() == 3);
    same(rt, device.flush(), Ok(()));
    check(rt, device.gate().last.get() == 3 && device.flushes() == 1);
}

#[test]
fn each_call_passes_the_gate(rt: HostRuntime) {
    let gate = Counter { last: Cell::new(9) };
    let script = ScriptDevice::new(rt.alloc(), 4, 2).expect(&rt, "memory");
    let mut device = GatedDevice::new(script, gate);
    passes_the_gate(&rt, &mut device);
}

#[test]
fn an_open_gate_changes_nothing(rt: HostRuntime) {
    let script = ScriptDevice::new(rt.alloc(), 4, 2).expect(&rt, "memory");
    let mut device = GatedDevice::new(script, OpenGate);
    reads_back(&rt, &mut device);
}
