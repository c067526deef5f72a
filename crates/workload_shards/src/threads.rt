//! The threads of one cache, from its making to its close.

ghost use Rattle.std.specs.Prelude.{◌≡◌, ◌<◌, ℕ, All, IfOk, length};
ghost use Rattle.shared.specs.ShardNames.{names_at};
ghost use Rattle.shared.specs.ShardSeats.{AreSeated};
ghost use Rattle.shared.specs.ShardWorkers.{AreWorkers};

use crate::caller::Caller;
use crate::files::make_files;
use crate::member::{Member, Sharded, members_of, seats_of};
use crate::sources::sources_of;
use blockdev::MemDevice;
use pc_types::Refusal;
use shared::shards::naming::ShardNaming;
use shared::shards::parts::ShardParts;
use shared::shards::seat::ShardSeat;
use shared::shards::worker::ShardWorker;
use std::alloc::{AllocError, Global};
use std::marker::Brand;
use std::sync::Wait;
use std::thread::{Threads, map_vec};
use trail::NoTrail;
use workload_steps::{CALLERS, Plan, Steps, Tally};

/// What a caller gives back.
type Called<B> = Result<(Member<B>, Tally), Refusal>;

/// Runs the threads, and gives what their calls answered.
pub fn run_threads<R: Threads + Wait + Sync>(
    rt: &R,
    alloc: Global,
    plan: Plan,
) -> Result<Tally, Refusal> {
    let geometry = plan.scale.shard_geometry()?;
    let sources = sources_of(alloc, &geometry)?;
    match ShardParts::make(rt, alloc, &geometry, sources, CALLERS) {
        Ok((parts, seats)) => run_over::<Brand, R>(rt, alloc, parts, seats, plan),
        Err(unmade) => {
            let refusal = unmade.refusal;
            // by a call, since the check is slow where a device goes out of scope
            drop(unmade);
            Err(refusal)
        }
    }
}

/// Makes the cache of the parts, runs the threads, and closes it.
fn run_over<B: ShardNaming + Send + Sync, R: Threads + Wait + Sync>(
    rt: &R,
    alloc: Global,
    parts: ShardParts<MemDevice, NoTrail>,
    seats: Vec<ShardSeat>,
    plan: Plan,
) -> Result<Tally, Refusal>
    requires shards { B.shards ≡ length parts }
    requires named { (k : ℕ) → k < length parts → B.names k ≡ names_at parts k }
    requires seats { All (AreSeated B.names) seats.items }
{
    // each by a call, since the check is slow where these go out of scope
    match Sharded::<B>::of(alloc, parts) {
        Ok((cache, own)) => run_cache(rt, alloc, cache, own, seats, plan),
        Err(parts) => {
            drop(parts);
            drop(seats);
            Err(Refusal::Memory)
        }
    }
}

/// Runs the threads, and closes the cache.
fn run_cache<B: ShardNaming + Send + Sync, R: Threads + Wait + Sync>(
    rt: &R,
    alloc: Global,
    cache: Sharded<B>,
    own: ShardWorker,
    seats: Vec<ShardSeat>,
    plan: Plan,
) -> Result<Tally, Refusal>
    requires own { (length own ≡ B.shards) × AreWorkers B.names own }
    requires seats { All (AreSeated B.names) seats.items }
{
    match take_part(rt, alloc, &cache, seats, plan) {
        Ok((seats, tally)) => {
            close(rt, cache, own, seats)?;
            Ok(tally)
        }
        Err(refusal) => {
            drop(cache);
            drop(own);
            Err(refusal)
        }
    }
}

/// Closes the cache, to which all seats came back.
fn close<B: ShardNaming, R: Wait>(
    rt: &R,
    cache: Sharded<B>,
    own: ShardWorker,
    seats: Vec<ShardSeat>,
) -> Result<(), Refusal>
    requires own { (length own ≡ B.shards) × AreWorkers B.names own }
    requires seats { All (AreSeated B.names) seats.items }
{
    match cache.close(rt, own, seats) {
        Ok(closed) => {
            drop(closed);
            Ok(())
        }
        Err(open) => {
            drop(open);
            Err(Refusal::Stranger)
        }
    }
}

/// Makes the files and runs all threads. Gives the seats back, and what the calls answered.
fn take_part<B: ShardNaming + Send + Sync, R: Threads + Wait + Sync>(
    rt: &R,
    alloc: Global,
    cache: &Sharded<B>,
    seats: Vec<ShardSeat>,
    plan: Plan,
) -> Result<(Vec<ShardSeat>, Tally), Refusal>
    requires { All (AreSeated B.names) seats.items }
    ensures { IfOk result (λ r. All (AreSeated B.names) r.0.items) }
{
    let mut members = members_of(alloc, seats)?;
    match prepare(rt, alloc, cache, &mut members, plan) {
        Ok(tally) => call_all(rt, alloc, cache, members, plan, tally),
        Err(refusal) => {
            drop(members);
            Err(refusal)
        }
    }
}

/// Makes the files, by the seats of the last of these members.
fn prepare<B: ShardNaming, R: Wait>(
    rt: &R,
    alloc: Global,
    cache: &Sharded<B>,
    members: &mut Vec<Member<B>>,
    plan: Plan,
) -> Result<Tally, Refusal> {
    let mut steps = Steps::new(alloc, plan, CALLERS)?;
    let Some(member) = members.pop() else {
        return Err(Refusal::Stranger);
    };
    let (member, tally) = make_files(rt, cache, member, &mut steps, plan.scale)?;
    members.push(member)?;
    Ok(tally)
}

/// Runs a caller at each of these seats. Gives the seats, and what was answered after `tally`.
fn call_all<B: ShardNaming + Send + Sync, R: Threads + Wait + Sync>(
    rt: &R,
    alloc: Global,
    cache: &Sharded<B>,
    members: Vec<Member<B>>,
    plan: Plan,
    tally: Tally,
) -> Result<(Vec<ShardSeat>, Tally), Refusal>
    ensures { IfOk result (λ r. All (AreSeated B.names) r.0.items) }
{
    let callers = callers_of(alloc, members, plan)?;
    let called = map_vec(rt, callers, &|caller: Caller<B>| caller.run(rt, cache))?;
    gather(alloc, called, tally)
}

/// A caller for each of these members.
fn callers_of<B: ShardNaming>(
    alloc: Global,
    members: Vec<Member<B>>,
    plan: Plan,
) -> Result<Vec<Caller<B>>, AllocError> {
    let mut callers = Vec::new(alloc);
    for (number, member) in members.into_iter().enumerate() {
        callers.push(Caller::new(alloc, member, plan, number as u64)?)?;
    }
    Ok(callers)
}

/// The seats of the callers, and what was answered after `tally`, in the callers' order.
fn gather<B: ShardNaming>(
    alloc: Global,
    called: Vec<Called<B>>,
    mut tally: Tally,
) -> Result<(Vec<ShardSeat>, Tally), Refusal>
    ensures { IfOk result (λ r. All (AreSeated B.names) r.0.items) }
{
    let mut members = Vec::new(alloc);
    for answer in called {
        let (member, own) = answer?;
        tally.add_all(own);
        members.push(member)?;
    }
    let seats = seats_of(alloc, members)?;
    Ok((seats, tally))
}
