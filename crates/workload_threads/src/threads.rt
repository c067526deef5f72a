//! The threads of one cache, from its making to its close.

ghost use Rattle.std.specs.FinMap as map;
ghost use Rattle.std.specs.Prelude.{◌≡◌, [], All, IfOk};
ghost use Rattle.held.specs.Shown.{AreFresh};
ghost use Rattle.held.specs.Keeps.{IsLocked};
ghost use Rattle.machine.specs.Catalogs.{IsCatalog, adopted};
ghost use Rattle.shared.specs.Keeps.{AreBlocksOf, IsDisk};
ghost use Rattle.shared.specs.Workers.{IsWorkerOf};
ghost use Rattle.workload_threads.specs.Crews.{IsCrewOf};

use crate::caller::Caller;
use crate::crew::{Back, Crew, WORKERS};
use crate::files::make_files;
use crate::member::{Member, Shared, members_of, seats_of};
use blockdev::MemDevice;
use held::log::Seat;
use held::naming::Naming;
use pc_types::Refusal;
use shared::cache::{Parts, SharedCache};
use shared::worker::Worker;
use std::alloc::{AllocError, Global};
use std::marker::Brand;
use std::sync::Wait;
use std::thread::{Threads, join, map_vec};
use trail::NoTrail;
use workload_steps::{CALLERS, Plan, Steps, Tally};

/// The cache's name.
const NAME: u64 = 1;

/// What a caller gives back.
type Called<B> = Result<(Member<B>, Tally), Refusal>;

/// Runs the threads, and gives what their calls answered.
pub fn run_threads<R: Threads + Wait + Sync>(
    rt: &R,
    alloc: Global,
    plan: Plan,
) -> Result<Tally, Refusal> {
    let geometry = plan.scale.geometry()?;
    let device = MemDevice::new(alloc, geometry.page(), geometry.blocks())?;
    let seats = CALLERS + WORKERS;
    match Parts::make(rt, alloc, &geometry, NAME, device, NoTrail::new(), seats) {
        Ok((parts, seats)) => run_over::<Brand, R>(rt, alloc, parts, seats, plan),
        Err(unmade) => {
            let refusal = unmade.refusal;
            // by a call, since the check is slow where a device goes out of scope
            drop(unmade);
            Err(refusal)
        }
    }
}

/// Makes the cache of the parts, runs the threads, and closes it.
#[tactic(auto, using(shared::proofs::Seating::fresh_seated))]
fn run_over<B: Naming + Send + Sync, R: Threads + Wait + Sync>(
    rt: &R,
    alloc: Global,
    parts: Parts<MemDevice, NoTrail>,
    seats: Vec<Seat>,
    plan: Plan,
) -> Result<Tally, Refusal>
    requires named { parts.name ≡ B.name }
    requires sized { parts.geometry ≡ B.sizes }
    requires board { parts.board ≡ B.board }
    requires state { IsLocked B.name B.table B.board B.sizes B.seats B.whole parts.held }
    requires idle { map.len parts.held.core.state.requests ≡ 0 }
    requires fresh { (parts.held.log.history ≡ []) × (parts.held.core.state ≡ adopted B.sizes B.name B.files) }
    requires files { IsCatalog B.sizes B.files }
    requires own { IsWorkerOf parts.ring B.name B.table B.deeds B.sizes parts.own }
    requires device { IsDisk B.sizes parts.device }
    requires deeds { (parts.deeds.table ≡ B.deeds) × (parts.deeds.told ≡ B.told) × (parts.deeds.blocks ≡ B.blocks) }
    requires blocks { AreBlocksOf B.told B.blocks parts.device }
    requires calls { parts.device.calls ≡ B.calls }
    requires seats { AreFresh B.table B.name seats.items }
{
    let (cache, mut own) = SharedCache::<B, MemDevice, NoTrail>::of(alloc, parts);
    let members = members_of(alloc, seats);
    match take_part(rt, alloc, &cache, &mut own, members, plan) {
        Ok((seats, tally)) => {
            close(rt, cache, own, seats)?;
            Ok(tally)
        }
        Err(refusal) => {
            drop(cache);
            drop(own);
            Err(refusal)
        }
    }
}

/// Closes the cache, to which all seats came back.
fn close<B: Naming, R: Wait>(
    rt: &R,
    cache: Shared<B>,
    own: Worker,
    seats: Vec<Seat>,
) -> Result<(), Refusal>
    requires own { IsWorkerOf cache.ring B.name B.table B.deeds B.sizes own }
    requires seats { All (λ s. s.table ≡ B.table) seats.items }
{
    match cache.close(rt, own, seats) {
        Ok((trail, core, device)) => {
            drop(trail);
            drop(core);
            drop(device);
            Ok(())
        }
        Err(open) => {
            drop(open);
            Err(Refusal::Stranger)
        }
    }
}

/// Makes the files and runs all threads. Gives the seats back, and what the calls answered.
fn take_part<B: Naming + Send + Sync, R: Threads + Wait + Sync>(
    rt: &R,
    alloc: Global,
    cache: &Shared<B>,
    own: &mut Worker,
    members: Result<Vec<Member<B>>, AllocError>,
    plan: Plan,
) -> Result<(Vec<Seat>, Tally), Refusal>
    requires { IsWorkerOf cache.now.ring B.name B.table B.deeds B.sizes own.old }
    ensures own { IsWorkerOf cache.now.ring B.name B.table B.deeds B.sizes own.new }
    ensures seats { IfOk result (λ r. All (λ s. s.table ≡ B.table) r.0.items) }
{
    let mut members = members?;
    let crew = match Crew::of(cache, own, &mut members) {
        Ok(crew) => crew,
        Err(refusal) => {
            drop(members);
            return Err(refusal);
        }
    };
    match prepare(rt, alloc, cache, &mut members, plan) {
        Ok(tally) => call_all(rt, alloc, cache, crew, members, plan, tally),
        Err(refusal) => {
            drop(members);
            drop(crew);
            Err(refusal)
        }
    }
}

/// Makes the files, by the seat of the last of these members.
fn prepare<B: Naming, R: Wait>(
    rt: &R,
    alloc: Global,
    cache: &Shared<B>,
    members: &mut Vec<Member<B>>,
    plan: Plan,
) -> Result<Tally, Refusal> {
    let mut steps = Steps::new(alloc, plan, CALLERS)?;
    let Some(member) = members.pop() else {
        return Err(Refusal::Stranger);
    };
    let (member, tally) = make_files(rt, cache, member, &mut steps, plan.scale)?;
    members.push(member)?;
    Ok(tally)
}

/// Runs a caller at each of these seats beside the workers. Gives all seats, and what was answered after `tally`.
fn call_all<B: Naming + Send + Sync, R: Threads + Wait + Sync>(
    rt: &R,
    alloc: Global,
    cache: &Shared<B>,
    crew: Crew,
    members: Vec<Member<B>>,
    plan: Plan,
    tally: Tally,
) -> Result<(Vec<Seat>, Tally), Refusal>
    requires { IsCrewOf cache.now.ring B.name B.table B.deeds B.sizes crew }
    ensures { IfOk result (λ r. All (λ s. s.table ≡ B.table) r.0.items) }
{
    match callers_of(alloc, members, plan) {
        Ok(callers) => {
            let (back, called) = run_all(rt, cache, crew, callers);
            gather(alloc, back, called, tally)
        }
        Err(_) => {
            drop(crew);
            Err(Refusal::Memory)
        }
    }
}

/// A caller for each of these members.
fn callers_of<B: Naming>(
    alloc: Global,
    members: Vec<Member<B>>,
    plan: Plan,
) -> Result<Vec<Caller<B>>, AllocError> {
    let mut callers = Vec::new(alloc);
    for (number, member) in members.into_iter().enumerate() {
        callers.push(Caller::new(alloc, member, plan, number as u64)?)?;
    }
    Ok(callers)
}

/// Runs the callers beside the workers, who are told to stop when the callers are done. Where no thread can be had the callers run
/// first, and then the workers.
fn run_all<B: Naming + Send + Sync, R: Threads + Wait + Sync>(
    rt: &R,
    cache: &Shared<B>,
    crew: Crew,
    callers: Vec<Caller<B>>,
) -> (Back<B>, Result<Vec<Called<B>>, AllocError>)
    requires { IsCrewOf cache.now.ring B.name B.table B.deeds B.sizes crew }
{
    join(
        rt,
        move ||
            requires { IsCrewOf cache.now.ring B.name B.table B.deeds B.sizes crew }
        { crew.run(rt, cache) },
        move || run_callers(rt, cache, callers),
    )
}

/// Runs the callers, each in a thread of its own, and then tells the workers to stop.
fn run_callers<B: Naming + Send + Sync, R: Threads + Wait + Sync>(
    rt: &R,
    cache: &Shared<B>,
    callers: Vec<Caller<B>>,
) -> Result<Vec<Called<B>>, AllocError> {
    let called = map_vec(rt, callers, &|caller: Caller<B>| caller.run(rt, cache));
    cache.stop(rt);
    called
}

/// The seats of the workers and the callers, and what was answered after `tally`, in the callers' order.
fn gather<B: Naming>(
    alloc: Global,
    back: Back<B>,
    called: Result<Vec<Called<B>>, AllocError>,
    mut tally: Tally,
) -> Result<(Vec<Seat>, Tally), Refusal>
    ensures { IfOk result (λ r. All (λ s. s.table ≡ B.table) r.0.items) }
{
    let mut members = workers_of(alloc, back)?;
    add_callers(called, &mut members, &mut tally)?;
    let seats = seats_of(alloc, members)?;
    Ok((seats, tally))
}

fn workers_of<B: Naming>(alloc: Global, back: Back<B>) -> Result<Vec<Member<B>>, AllocError> {
    let (io, (flusher, evictor)) = back;
    let mut members = Vec::new(alloc);
    members.push(io)?;
    members.push(flusher)?;
    members.push(evictor)?;
    Ok(members)
}

/// Puts the callers' members to the others, and adds what was answered to the tally.
fn add_callers<B: Naming>(
    called: Result<Vec<Called<B>>, AllocError>,
    members: &mut Vec<Member<B>>,
    tally: &mut Tally,
) -> Result<(), Refusal> {
    for answer in called? {
        let (member, own) = answer?;
        tally.add_all(own);
        members.push(member)?;
    }
    Ok(())
}
