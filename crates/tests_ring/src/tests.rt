//! A ring that is full and one that is empty, and two threads that push and pop at once.

ghost use Rattle.std.specs.Prelude.{◌≡◌, ◌≤◌, ◌<◌, false, true, [], replicate, IfOk};
ghost use Rattle.crossbeam_queue.specs.Passes.{view};
ghost use Rattle.blockdev.specs.Jobs.{IsJobFor};
ghost use Rattle.deeds.specs.Shown.{uncalled};
ghost use Rattle.deeds.specs.declared.views.Place.TheVariants.{Home};
ghost use Rattle.ring.specs.Serving.{Serves, Carries};

use crate::checks::check;
use blockdev::{Buffer, Job};
use deeds::naming::NamesDeeds;
use deeds::sides::{Desk, Opened};
use pc_types::{BlockNo, Geometry, Kind, Refusal, Serial};
use ring::{Ring, RingPass};
use std::alloc::Global;
use std::marker::Brand;
use std::sync::Wait;
use std::test::*;
use std::thread;

const EACH: u64 = 100_000;

// A job of cache 7 for the block of its number, of a device of 128 blocks.
fn job(alloc: Global, geometry: &Geometry, serial: u32) -> Result<Job, Refusal>
    requires { serial < 128 }
    ensures { IfOk result (λ j. IsJobFor 7 128 geometry.now.page j × (j.block ≡ serial)) }
{
    let buffer = Buffer::new(alloc, geometry)?;
    Ok(Job::new(
        7,
        Serial(u64::from(serial)),
        Kind::Flush,
        BlockNo(serial),
        buffer,
    ))
}

// A ring for them, and the sides of their deeds.
fn ring_of<R: Wait>(
    rt: &R,
    alloc: Global,
    geometry: &Geometry,
) -> Result<(Ring, RingPass, Opened), Refusal>
    requires { geometry.now.blocks ≡ 128 }
    ensures pass { IfOk result (λ r. Serves r.0 r.1 × Carries 7 128 geometry.now.page r.2.table r.1) }
    ensures sides { IfOk result (λ r. r.2.blocks ≡ replicate 128 []) }
{
    let opened = Opened::new(alloc)?;
    Ring::over(rt, alloc, 7, geometry, opened)
}

// Pushes so many parcels, each with the deed of its own block, until one comes back, and gives how many went in.
fn fills<B: NamesDeeds, R: Wait>(
    rt: &R,
    alloc: Global,
    ring: &Ring,
    pass: &mut RingPass,
    geometry: &Geometry,
    desk: &mut Desk<B>,
    count: u32,
) -> Result<u32, Refusal>
    requires pass { Serves ring.now pass.old × Carries 7 128 geometry.now.page B.deeds pass.old }
    requires home { desk.old ≡ replicate 128 (Home (uncalled [])) }
    requires count { count ≤ 128 }
    ensures { Serves ring.now pass.new }
{
    for serial in 0..count {
        let errand = desk.give(job(alloc, geometry, serial)?);
        if let Err(back) = ring.push(rt, pass, errand.unnamed()) {
            return Ok(back.named::<B>().job().block().0);
        }
    }
    Ok(count)
}

// The same, with the deeds of these sides.
fn filled<B: NamesDeeds, R: Wait>(
    rt: &R,
    alloc: Global,
    opened: Opened,
    ring: &Ring,
    pass: &mut RingPass,
    geometry: &Geometry,
    count: u32,
) -> Result<u32, Refusal>
    requires named { (opened.table ≡ B.deeds) × (opened.told ≡ B.told) }
    requires blocks { opened.blocks ≡ replicate 128 [] }
    requires pass { Serves ring.now pass.old × Carries 7 128 geometry.now.page B.deeds pass.old }
    requires count { count ≤ 128 }
    ensures { Serves ring.now pass.new }
{
    let (mut desk, _side) = opened.named::<B>();
    fills(rt, alloc, ring, pass, geometry, &mut desk, count)
}

// Pops until there is nothing, and gives how many came, if they came in order.
fn drains<R: Wait>(rt: &R, ring: &Ring, pass: &mut RingPass) -> Option<u64>
    requires { Serves ring.now pass.old }
    ensures { Serves ring.now pass.new }
{
    for serial in 0..100 {
        match ring.pop(rt, pass) {
            Some(next) if next.job().serial().0 == serial => (),
            Some(_) => return None,
            None => return Some(serial),
        }
    }
    None
}

#[test]
fn full_and_empty(rt: HostRuntime) -> Result<(), Fail> {
    let geometry = Geometry::new(512, 48, 16, 128)?;
    let (ring, mut pass, opened) = ring_of(&rt, rt.alloc(), &geometry)?;
    check(&rt, ring.pop(&rt, &mut pass).is_none());
    // The 65th parcel comes back, and the 64 before it come out in their order.
    let pushed = filled::<Brand, HostRuntime>(
        &rt,
        rt.alloc(),
        opened,
        &ring,
        &mut pass,
        &geometry,
        100,
    );
    check(&rt, pushed == Ok(64));
    check(&rt, drains(&rt, &ring, &mut pass) == Some(64));
    check(&rt, ring.pop(&rt, &mut pass).is_none());
    Ok(())
}

// Pops, and pushes what it popped.
fn work<R: Wait>(rt: &R, ring: &Ring, mut pass: RingPass)
    requires { Serves ring.now pass }
{
    let mut moved = 0;
    for _ in rt.forever() {
        if moved == EACH {
            break;
        }
        match ring.pop(rt, &mut pass) {
            Some(next) => {
                if ring.push(rt, &mut pass, next).is_ok() {
                    moved += 1;
                }
            }
            None => thread::yield_now(),
        }
    }
}

// Pops until there is nothing, and gives how many came and the sum of their numbers.
fn sums<R: Wait>(rt: &R, ring: &Ring, pass: &mut RingPass) -> Option<(u64, u64)>
    requires { Serves ring.now pass.old }
    ensures { Serves ring.now pass.new }
{
    let mut sum = 0u64;
    for count in 0..100 {
        let Some(next) = ring.pop(rt, pass) else {
            return Some((count, sum));
        };
        sum = sum.wrapping_add(next.job().serial().0);
    }
    None
}

#[test]
fn between_two_threads(rt: HostRuntime) -> Result<(), Fail> {
    let geometry = Geometry::new(512, 48, 16, 128)?;
    let (ring, mut pass, opened) = ring_of(&rt, rt.alloc(), &geometry)?;
    let pushed = filled::<Brand, HostRuntime>(
        &rt,
        rt.alloc(),
        opened,
        &ring,
        &mut pass,
        &geometry,
        40,
    );
    check(&rt, pushed == Ok(40));
    let one = ring.pass(&mut pass);
    let other = ring.pass(&mut pass);
    let (line, host) = (&ring, &rt);
    thread::join(
        &rt,
        move ||
            requires { Serves line.now one }
        { work(host, line, one) },
        move ||
            requires { Serves line.now other }
        { work(host, line, other) },
    );
    // Each of the numbers below 40 is there still.
    check(&rt, sums(&rt, &ring, &mut pass) == Some((40, 780)));
    Ok(())
}
