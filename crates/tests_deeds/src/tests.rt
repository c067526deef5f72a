//! Worked requests over a device of two blocks of 16 bytes, each by its block's deed.

ghost use Rattle.pc_types.specs.declared.kind.Kind.TheVariants.{Flush};
ghost use Rattle.std.specs.Prelude.{OnOk, ◌≡◌, ◌∷◌, [], ◌+◌, ◌<◌, true, length, replicate, slice_get, slice_set, map, Some};
ghost use Rattle.blockdev.specs.Blocks.{zero_blocks};
ghost use Rattle.deeds.specs.Shown.{AreTold, Settles, calls_of, uncalled};
ghost use Rattle.deeds.specs.Views.{home_in};
ghost use Rattle.deeds.specs.declared.views.Place.TheVariants.{Home, Out};
ghost use Rattle.tests_deeds.specs.Rows.{Fits};

use crate::checks::check;
use blockdev::{Buffer, FaultEffect, Finished, Job, ScriptDevice, Watched};
use deeds::naming::NamesDeeds;
use deeds::sides::{Desk, DeviceSide, Errand, Opened, Report};
use pc_types::{BlockNo, ErrCode, Geometry, Kind, Serial};
use std::alloc::Global;
use std::marker::Brand;
use std::mem::drop;
use std::process::Abort;

/// A job of a block, with a buffer full of one byte.
fn job(rt: &impl Abort, alloc: Global, kind: Kind, block: u32, byte: u8) -> Job
    ensures block { (result.block ≡ block) × (length result.bytes ≡ 16) }
    ensures kind { result.kind ≡ kind }
{
    let geometry = Geometry::new(16, 48, 16, 64).expect(rt, "sizes");
    let mut buffer = Buffer::new(alloc, &geometry).expect(rt, "a buffer");
    buffer.as_mut_slice().copy_from_slice(&[byte; 16]);
    Job::new(7, Serial(u64::from(block)), kind, BlockNo(block), buffer)
}

/// Makes the device call of an errand.
fn made<B: NamesDeeds>(
    side: &mut DeviceSide<B>,
    device: &mut Watched<ScriptDevice>,
    errand: Errand<B>,
) -> Report<B>
    requires fits { Fits B.told device.old side.old }
    requires errand { (errand.block < 2) × (length errand.bytes ≡ 16) }
    ensures fits { Fits B.told device.new side.new }
    ensures block { result.block ≡ errand.block }
    ensures calls { calls_of side.new ≡ calls_of side.old + 1 }
{
    side.carry_out(device, errand)
}

/// Two deeds are out together. The later one is carried out first, and the first one comes home first.
fn crossed<B: NamesDeeds>(
    rt: &impl Abort,
    alloc: Global,
    desk: &mut Desk<B>,
    side: &mut DeviceSide<B>,
    device: &mut Watched<ScriptDevice>,
)
    requires fits { Fits B.told device.old side.old }
    requires home { desk.old ≡ Home (uncalled (replicate 16 0)) ∷ Home (uncalled (replicate 16 0)) ∷ [] }
    ensures { Fits B.told device.new side.new }
{
    let flush = desk.give(job(rt, alloc, Kind::Flush, 0, 0xaa));
    let fill = desk.give(job(rt, alloc, Kind::Fill, 1, 9)).unnamed();
    let filled = made(side, device, fill.named::<B>());
    let flushed = made(side, device, flush);
    let (flushed, flushed_deed) = flushed.parts();
    let (filled, filled_deed) = filled.parts();
    desk.take_back(flushed_deed);
    desk.take_back(filled_deed);
    check(rt, flushed.outcome().is_ok());
    check(rt, filled.outcome().is_ok());
    check(
        rt,
        filled.into_parts().buffer.as_slice() == [0; 16].as_slice(),
    );
}

/// What goes from thread to thread.
fn may_be_sent<T: Send>(_value: &T) {}

/// A flush to its end. Where it went well the desk has the bytes that it wrote, whoever else had deeds meanwhile.
fn flushes<B: NamesDeeds + Send>(
    desk: &mut Desk<B>,
    side: &mut DeviceSide<B>,
    device: &mut Watched<ScriptDevice>,
    job: Job,
) -> Finished
    requires told { B.told ≡ true }
    requires fits { Fits B.told device.old side.old }
    requires job { (job.kind ≡ Flush) × (job.block < 2) × (length job.bytes ≡ 16) }
    requires home { slice_get desk.old job.block ≡ Some (Home (home_in desk.old job.block)) }
    ensures fits { Fits B.told device.new side.new }
    ensures well { OnOk result.outcome (slice_get desk.new job.block ≡ Some (Home record { bytes = job.bytes; calls = (home_in desk.old job.block).calls + 1 })) }
{
    may_be_sent(desk);
    may_be_sent(side);
    let errand = desk.give(job);
    may_be_sent(&errand);
    let report = made(side, device, errand);
    may_be_sent(&report);
    let (finished, stub) = report.parts();
    may_be_sent(&stub);
    desk.take_back(stub);
    finished
}

/// A flush fails, and its block has the new bytes all the same.
fn fails<B: NamesDeeds + Send>(
    rt: &impl Abort,
    alloc: Global,
    desk: &mut Desk<B>,
    side: &mut DeviceSide<B>,
    device: &mut Watched<ScriptDevice>,
)
    requires told { B.told ≡ true }
    requires fits { Fits B.told device.old side.old }
    requires home { desk.old ≡ Home (uncalled (replicate 16 0)) ∷ Home (uncalled (replicate 16 0)) ∷ [] }
    ensures { Fits B.told device.new side.new }
{
    device.fail_next(ErrCode::IO, FaultEffect::New);
    let first = flushes(desk, side, device, job(rt, alloc, Kind::Flush, 1, 0xbb));
    check(rt, first.outcome() == Err(ErrCode::IO));
}

/// What is played.
#[derive(Clone, Copy)]
enum Row {
    Crosses,
    Fails,
}

/// Opens over a device, and plays the row.
fn plays<B: NamesDeeds + Send>(
    rt: &impl Abort,
    alloc: Global,
    opened: Opened,
    device: &mut Watched<ScriptDevice>,
    row: Row,
)
    requires told { opened.told ≡ true }
    requires named { (opened.table ≡ B.deeds) × (opened.told ≡ B.told) }
    requires fits { Fits B.told device.old (map uncalled opened.blocks) }
    requires blocks { opened.blocks ≡ zero_blocks 16 2 }
    ensures { (device.new.device.count ≡ 2) × (device.new.device.size ≡ 16) }
{
    let (mut desk, mut side) = opened.named::<B>();
    match row {
        Row::Crosses => crossed(rt, alloc, &mut desk, &mut side, device),
        Row::Fails => fails(rt, alloc, &mut desk, &mut side, device),
    }
    desk.close(side);
}

/// What the two blocks have after the row, each by its first byte.
fn played(rt: &impl Abort, alloc: Global, row: Row) -> (u8, u8) {
    let device = ScriptDevice::new(alloc, 16, 2).expect(rt, "a device");
    let found = Opened::over(alloc, &device).expect(rt, "memory");
    // A deed that is lent before there is a name comes back, and all is as it was.
    let (lent, parcel) = found.lend(job(rt, alloc, Kind::Flush, 1, 0xcc));
    check(rt, parcel.job().block() == BlockNo(1));
    let opened = lent.restore(parcel);
    let mut device = Watched::over(device);
    plays::<Brand>(rt, alloc, opened, &mut device, row);
    let mut first = [9; 16];
    let mut second = [9; 16];
    check(rt, device.read(BlockNo(0), &mut first).is_ok());
    check(rt, device.read(BlockNo(1), &mut second).is_ok());
    (first[0], second[0])
}

#[test]
fn deeds_cross(rt: HostRuntime) {
    check(&rt, played(&rt, rt.alloc(), Row::Crosses) == (0xaa, 0));
}

#[test]
fn a_failed_flush_is_seen(rt: HostRuntime) {
    check(&rt, played(&rt, rt.alloc(), Row::Fails) == (0, 0xbb));
}
