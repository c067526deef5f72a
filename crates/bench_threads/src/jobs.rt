//! The rows of the ring: a push and a pop by one thread, and parcels that go round between two. No device call is made of them.
//!
//! What is large is dropped by a call, since the check is slow where a ring goes out of scope.

ghost use Rattle.std.specs.Prelude.{◌≡◌, ◌<◌, [], replicate, IfOk, OnOk};
ghost use Rattle.std.specs.Thread.{IsSync};
ghost use Rattle.blockdev.specs.Jobs.{IsJobFor};
ghost use Rattle.deeds.specs.Shown.{uncalled};
ghost use Rattle.deeds.specs.declared.views.Place.TheVariants.{Home};
ghost use Rattle.ring.specs.Order.{IsParcelFor};
ghost use Rattle.ring.specs.Serving.{Carries, Serves};

use bench_timing::{Best, Fault};
use blockdev::{Buffer, Job};
use deeds::naming::NamesDeeds;
use deeds::sides::{Desk, Opened, Parcel};
use pc_types::{BlockNo, Geometry, Kind, Refusal, Serial};
use ring::{Ring, RingPass};
use std::alloc::Global;
use std::marker::Brand;
use std::sync::Wait;
use std::thread;
use std::thread::Threads;
use std::time::{Clock, Instant};

/// How often a round pushes and pops.
pub const TURNS: u64 = 65_536;

/// How many parcels go round between two threads, each of a block of its own.
const GOING_ROUND: u32 = 32;

/// A job of cache 7 for this block, of a device of 64 blocks.
fn job(alloc: Global, geometry: &Geometry, block: u32) -> Result<Job, Refusal>
    requires { block < 64 }
    ensures { IfOk result (λ j. IsJobFor 7 64 geometry.now.page j × (j.block ≡ block)) }
{
    let buffer = Buffer::new(alloc, geometry)?;
    Ok(Job::new(7, Serial(1), Kind::Flush, BlockNo(block), buffer))
}

/// A ring for the parcels of such jobs, and the sides of their deeds. These are of a device that tells nothing.
fn ring_of<R: Wait>(
    rt: &R,
    alloc: Global,
    geometry: &Geometry,
) -> Result<(Ring, RingPass, Opened), Refusal>
    requires { geometry.now.blocks ≡ 64 }
    ensures pass { IfOk result (λ r. Serves r.0 r.1 × Carries 7 64 geometry.now.page r.2.table r.1) }
    ensures sides { IfOk result (λ r. r.2.blocks ≡ replicate 64 []) }
{
    let opened = Opened::new(alloc)?;
    Ring::over(rt, alloc, 7, geometry, opened)
}

/// Times a push and a pop by one thread.
pub fn time_alone<R: Wait + Clock>(rt: &R, alloc: Global, best: &mut Best) -> Result<(), Fault> {
    let geometry = Geometry::new(4_096, 64, 32, 64)?;
    let job = job(alloc, &geometry, 3)?;
    let (ring, mut pass, opened) = ring_of(rt, alloc, &geometry)?;
    let (lent, first) = opened.lend(job);
    let done = time_turns::<Brand, R>(rt, &ring, &mut pass, first, geometry.page(), best);
    drop(lent);
    drop(ring);
    drop(pass);
    done
}

fn time_turns<B: NamesDeeds, R: Wait + Clock>(
    rt: &R,
    ring: &Ring,
    pass: &mut RingPass,
    first: Parcel,
    page: u64,
    best: &mut Best,
) -> Result<(), Fault>
    requires pass { Serves ring.now pass.old × Carries 7 64 page B.deeds pass.old }
    requires parcel { IsParcelFor 7 64 page B.deeds first }
{
    let start = Instant::now(rt)?;
    let is_whole = turn::<B, R>(rt, ring, pass, first, page).is_some();
    best.add(start.elapsed(rt)?, u64::from(is_whole));
    Ok(())
}

/// Pushes a parcel and pops it, again and again. The parcel is lost where the ring doesn't give it back.
#[inline(never)]
fn turn<B: NamesDeeds, W: Wait>(
    waits: &W,
    ring: &Ring,
    pass: &mut RingPass,
    first: Parcel,
    page: u64,
) -> Option<Parcel>
    requires pass { Serves ring.now pass.old × Carries 7 64 page B.deeds pass.old }
    requires parcel { IsParcelFor 7 64 page B.deeds first }
{
    let mut parcel = first;
    for _ in 0..TURNS {
        ring.push(waits, pass, parcel).ok()?;
        parcel = ring.pop(waits, pass)?;
    }
    Some(parcel)
}

/// Times parcels that go round between two threads, by a ring each way.
pub fn time_between_two<R: Wait + Threads + Clock + Sync>(
    rt: &R,
    alloc: Global,
    best: &mut Best,
) -> Result<(), Fault> {
    let geometry = Geometry::new(4_096, 64, 32, 64)?;
    let (there, mine, opened) = ring_of(rt, alloc, &geometry)?;
    let done = time_there(rt, alloc, &geometry, opened, &there, mine, best);
    drop(there);
    done
}

/// Makes the ring that leads back, fills the one that leads there, and times what goes round by both.
fn time_there<R: Wait + Threads + Clock + Sync>(
    rt: &R,
    alloc: Global,
    geometry: &Geometry,
    opened: Opened,
    there: &Ring,
    mut mine: RingPass,
    best: &mut Best,
) -> Result<(), Fault>
    requires sized { geometry.now.blocks ≡ 64 }
    requires blocks { opened.blocks ≡ replicate 64 [] }
    requires pass { Serves there.now mine × Carries 7 64 geometry.now.page opened.table mine }
{
    let (back, taking, opened) = Ring::over(rt, alloc, 7, geometry, opened)?;
    let done = match fill::<Brand, R>(rt, alloc, geometry, opened, there, &mut mine) {
        Ok(()) => time_both::<Brand, R>(rt, there, mine, &back, taking, geometry.page(), best),
        Err(fault) => Err(fault),
    };
    drop(back);
    done
}

/// Pushes the parcels that go round, with the deeds of these sides.
fn fill<B: NamesDeeds, W: Wait>(
    waits: &W,
    alloc: Global,
    geometry: &Geometry,
    opened: Opened,
    ring: &Ring,
    pass: &mut RingPass,
) -> Result<(), Fault>
    requires named { (opened.table ≡ B.deeds) × (opened.told ≡ B.told) }
    requires blocks { opened.blocks ≡ replicate 64 [] }
    requires pass { Serves ring.now pass.old × Carries 7 64 geometry.now.page B.deeds pass.old }
    ensures { OnOk result (Serves ring.now pass.new × Carries 7 64 geometry.now.page B.deeds pass.new) }
{
    let (mut desk, side) = opened.named::<B>();
    let filled = push_each(waits, alloc, geometry, &mut desk, ring, pass);
    drop(desk);
    drop(side);
    filled
}

/// Pushes the parcels that go round, with the deeds of this desk.
fn push_each<B: NamesDeeds, W: Wait>(
    waits: &W,
    alloc: Global,
    geometry: &Geometry,
    desk: &mut Desk<B>,
    ring: &Ring,
    pass: &mut RingPass,
) -> Result<(), Fault>
    requires home { desk.old ≡ replicate 64 (Home (uncalled [])) }
    requires pass { Serves ring.now pass.old × Carries 7 64 geometry.now.page B.deeds pass.old }
    ensures { OnOk result (Serves ring.now pass.new × Carries 7 64 geometry.now.page B.deeds pass.new) }
{
    for block in 0..GOING_ROUND {
        let errand = desk.give(job(alloc, geometry, block)?);
        if ring.push(waits, pass, errand.unnamed()).is_err() {
            return Err(Fault::System);
        }
    }
    Ok(())
}

/// Has two threads hand on what the rings have.
fn time_both<B: NamesDeeds + Send + Sync, R: Wait + Threads + Clock + Sync>(
    rt: &R,
    there: &Ring,
    mut mine: RingPass,
    back: &Ring,
    mut taking: RingPass,
    page: u64,
    best: &mut Best,
) -> Result<(), Fault>
    requires there { Serves there.now mine × Carries 7 64 page B.deeds mine }
    requires back { Serves back.now taking × Carries 7 64 page B.deeds taking }
{
    let start = Instant::now(rt)?;
    let theirs = there.pass(&mut mine);
    let giving = back.pass(&mut taking);
    let (a, b) = thread::join(
        rt,
        move ||
            requires { IsSync R.row × Serves there.now theirs × Carries 7 64 page B.deeds theirs × Serves back.now giving × Carries 7 64 page B.deeds giving }
        { hand_on::<B, R>(rt, there, theirs, back, giving, page) },
        move ||
            requires { IsSync R.row × Serves there.now mine × Carries 7 64 page B.deeds mine × Serves back.now taking × Carries 7 64 page B.deeds taking }
        { hand_on::<B, R>(rt, back, taking, there, mine, page) },
    );
    best.add(start.elapsed(rt)?, a.wrapping_add(b));
    Ok(())
}

/// Pops from one ring and pushes into the other, `TURNS` times, and gives how often it did.
#[inline(never)]
fn hand_on<B: NamesDeeds, W: Wait>(
    waits: &W,
    from: &Ring,
    mut taking: RingPass,
    to: &Ring,
    mut giving: RingPass,
    page: u64,
) -> u64
    requires from { Serves from.now taking × Carries 7 64 page B.deeds taking }
    requires to { Serves to.now giving × Carries 7 64 page B.deeds giving }
{
    let mut handed = 0;
    for _ in waits.forever() {
        if handed == TURNS {
            break;
        }
        if let Some(parcel) = from.pop(waits, &mut taking) {
            if to.push(waits, &mut giving, parcel).is_err() {
                break;
            }
            handed += 1;
        }
    }
    handed
}
