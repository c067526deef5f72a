//! The rows of the locked state: a read by the core alone, and the same read as a hold, over a trail that keeps nothing.

ghost use Rattle.std.specs.Prelude.{◌≡◌, [], IfOk, false, length, replicate, true};
ghost use Rattle.held.specs.Keeps.{IsLocked};
ghost use Rattle.machine.specs.Catalogs.{IsCatalog, adopted};
ghost use Rattle.trail.specs.Honest.{MayBegin};

use crate::rounds::ROUNDS;
use crate::trails::SMALL;
use bench_timing::{Best, Fault};
use cachecore::{CacheCore, ReadAnswer};
use deeds::sides;
use held::log::Seat;
use held::naming::Naming;
use held::state::{Held, Opened};
use pc_types::{FileId, Geometry, HandleId, Refusal};
use std::alloc::{AllocError, Global};
use std::marker::Brand;
use std::time::{Clock, Instant};
use trail::NoTrail;

/// How many reads a round makes.
pub const READS: u64 = 65_536;

const PAGE: u64 = 4_096;

/// The pages of the file, all of them cached.
const PAGES: u64 = 64;

const FILE: FileId = FileId(0);

const HANDLE: HandleId = HandleId(0);

/// Where a read begins: in the next page each time, and 64 bytes further on.
fn offset_of(index: u64) -> u64 {
    index % READS * (PAGE + SMALL) % (PAGE * PAGES - SMALL)
}

fn geometry() -> Result<Geometry, Refusal>
    ensures { IfOk result (λ g. g.blocks ≡ 1024) }
{
    Geometry::new(PAGE, 256, 128, 1_024)
}

/// The sides of the deeds. No device call is made, so they are of a device that tells nothing.
fn deeds_of(alloc: Global) -> Result<sides::Opened, AllocError>
    ensures { IfOk result (λ o. (o.told ≡ false) × (o.blocks ≡ replicate 1024 [])) }
{
    sides::Opened::new(alloc)
}

/// How many bytes a read answered.
#[inline(always)]
fn count_of(answer: Result<ReadAnswer, Refusal>) -> u64 {
    match answer {
        Ok(ReadAnswer::Bytes(count)) => count,
        _ => 0,
    }
}

/// Times reads by the core alone.
pub fn time_core(clock: &impl Clock, alloc: Global) -> Result<Best, Fault> {
    let mut core = CacheCore::new(alloc, &geometry()?, 1)?;
    let timed = time_core_reads(clock, &mut core);
    // by a call, since the check is slow where a cache goes out of scope
    drop(core);
    timed
}

fn time_core_reads(clock: &impl Clock, core: &mut CacheCore) -> Result<Best, Fault> {
    core.create()?;
    core.open(FILE)?;
    let bytes = [7; PAGE as usize];
    for page in 0..PAGES {
        core.write(HANDLE, page * PAGE, &bytes)?;
    }
    let mut best = Best::NONE;
    for _ in 0..ROUNDS {
        let start = Instant::now(clock)?;
        let sum = read_core(core);
        best.add(start.elapsed(clock)?, sum);
    }
    Ok(best)
}

/// The sum of the counts.
#[inline(never)]
fn read_core(core: &mut CacheCore) -> u64 {
    let mut out = [0; SMALL as usize];
    let mut sum = 0u64;
    for index in 0..READS {
        sum = sum.wrapping_add(count_of(core.read(HANDLE, offset_of(index), &mut out)));
    }
    sum
}

/// Times the same reads as holds.
pub fn time_held(clock: &impl Clock, alloc: Global) -> Result<Best, Fault> {
    let geometry = geometry()?;
    let deeds = deeds_of(alloc)?;
    match Opened::new(alloc, &geometry, 1, NoTrail::new(), 1) {
        Ok((opened, board, seats, own)) => {
            drop(board);
            drop(seats);
            time_named::<Brand>(clock, opened, deeds, own)
        }
        Err(_) => Err(Fault::Memory),
    }
}

/// Times reads of the cache that B names.
fn time_named<B: Naming>(
    clock: &impl Clock,
    opened: Opened<NoTrail>,
    deeds: sides::Opened,
    mut own: Seat,
) -> Result<Best, Fault>
    requires state { IsLocked B.name B.table B.board B.sizes B.seats B.whole opened }
    requires fresh { (opened.log.history ≡ []) × (opened.core.state ≡ adopted B.sizes B.name B.files) }
    requires files { IsCatalog B.sizes B.files }
    requires deeds { (deeds.table ≡ B.deeds) × (deeds.told ≡ B.told) × (deeds.blocks ≡ B.blocks) }
    requires count { length B.blocks ≡ B.sizes.blocks }
    requires first { B.told ≡ true → MayBegin B.files B.sizes B.name B.blocks }
    requires own { own.table ≡ B.table }
{
    let (desk, side) = deeds.named::<B>();
    drop(side);
    let mut held = Held::<B, NoTrail>::of(opened, desk);
    let timed = time_holds(clock, &mut held, &mut own);
    drop(held);
    drop(own);
    timed
}

fn time_holds<B: Naming>(
    clock: &impl Clock,
    held: &mut Held<B, NoTrail>,
    seat: &mut Seat,
) -> Result<Best, Fault>
    requires { seat.old.table ≡ B.table }
{
    if write_held(held, seat).is_none() {
        return Err(Fault::Memory);
    }
    let mut best = Best::NONE;
    for _round in 0..ROUNDS {
        let start = Instant::now(clock)?;
        let sum = read_held(held, seat);
        best.add(start.elapsed(clock)?, sum);
    }
    Ok(best)
}

fn write_held<B: Naming>(held: &mut Held<B, NoTrail>, seat: &mut Seat) -> Option<()>
    requires { seat.old.table ≡ B.table }
    ensures { seat.new.table ≡ seat.old.table }
{
    held.create(seat).ok()?;
    held.open(seat, FILE).ok()?;
    let bytes = [7; PAGE as usize];
    for page in 0..PAGES {
        held.write(seat, HANDLE, page * PAGE, &bytes).ok()?;
    }
    Some(())
}

/// The sum of the counts.
#[inline(never)]
fn read_held<B: Naming>(held: &mut Held<B, NoTrail>, seat: &mut Seat) -> u64
    requires { seat.old.table ≡ B.table }
    ensures { seat.new.table ≡ seat.old.table }
{
    let mut out = [0; SMALL as usize];
    let mut sum = 0u64;
    for index in 0..READS {
        if let Ok((answer, _)) = held.read(seat, HANDLE, offset_of(index), &mut out) {
            sum = sum.wrapping_add(count_of(Ok(answer)));
        }
    }
    sum
}
