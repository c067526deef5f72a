//! A storm over a cache of shards, and whether the history of each shard is that of plain files.

ghost use Rattle.std.specs.Prelude.{◌≡◌, ◌<◌, ◌≤◌, ℕ, All, IfOk, IfSome, length, vec_len};
ghost use Rattle.shared.specs.ShardNames.{names_at};
ghost use Rattle.shared.specs.ShardSeats.{AreSeated};
ghost use Rattle.shared.specs.ShardWorkers.{AreWorkers};
ghost use Rattle.storm.specs.Sharded.{AreFor};
ghost use Rattle.storm_text.specs.Told.{ShardsTell};

use crate::run::{DIRTY_LIMIT, FRAMES, NAME, PAGE, Weather, count_workers, fault_of};
use crate::shards::caller::{Caller, Done};
use crate::shards::crew::{Crew, Rested, WORKERS, crews_of, hand_back};
use crate::shards::member::{Member, members_of, seats_of};
use crate::shards::past::ShardPast;
use crate::shards::plan::Plan;
use crate::shards::sources::{Needs, sources_of};
use crate::steps::FILES;
use blockdev::{BlockDevice, MemDevice};
use faulty::FaultyDevice;
use pc_types::Geometry;
use playback::Copies;
use shared::shards::cache::ShardedCache;
use shared::shards::close::Closed;
use shared::shards::denied::CreateDenied;
use shared::shards::naming::ShardNaming;
use shared::shards::parts::ShardParts;
use shared::shards::seat::ShardSeat;
use shared::shards::worker::ShardWorker;
use std::alloc::Global;
use std::io::Write;
use std::marker::Brand;
use std::sync::Wait;
use std::thread::{Threads, join, map_vec};
use storm_text::{Fault, Findings, Keeping, Refused, ShardOptions, say_usage, tell};
use textline::Printer;
use trail::FullTrail;

/// What a storm over shards leaves.
#[derive(Drop)]
pub struct ShardAftermath {
    /// What the shards left, in order.
    pub shards: Vec<ShardPast>,
    /// By what calls were refused, and events of the workers, over all shards.
    pub refused: Refused,
}

/// What the caches of the shards left, and by what calls were refused.
#[derive(Drop)]
struct Left<D: BlockDevice> {
    closed: Vec<Closed<D, FullTrail>>,
    refused: Refused,
}

/// Runs a storm over a cache of shards, prints how many calls were made, whether the history of each shard replays, by what calls were
/// refused and whether each shard's device kept what was written to it, and gives the status that the program ends with. What went wrong,
/// and in which shard, is said on `err`.
pub fn run_shards<R: Threads + Wait + Sync, W: Write, E: Write>(
    rt: &R,
    alloc: Global,
    arguments: &[&str],
    weather: Weather,
    out: &mut Printer<W>,
    err: &mut E,
) -> u8
    ensures told { ShardsTell arguments.now result (W.contents out.old.writer) (W.contents out.new.writer) }
{
    let Some(options) = ShardOptions::parse(arguments) else {
        let _ = say_usage(err);
        return 2;
    };
    let findings = match shard_storm(rt, alloc, options, weather) {
        Ok(after) => findings_of(alloc, after, err),
        Err(fault) => Err(fault),
    };
    let calls = options.threads * options.steps;
    tell(out, err, calls, weather.seed, findings)
}

/// What is found of a storm over shards. What is wrong with a shard is said on `err`.
fn findings_of<E: Write>(
    alloc: Global,
    after: ShardAftermath,
    err: &mut E,
) -> Result<Findings, Fault> {
    let ShardAftermath { shards, refused } = after;
    let mut findings = Findings {
        replays: true,
        refused,
        device: Keeping::Kept,
    };
    for (number, shard) in shards.into_iter().enumerate() {
        shard.find(alloc, number, &mut findings, err)?;
    }
    Ok(findings)
}

/// Runs a storm over shards, each over memory of its own.
pub fn shard_storm<R: Threads + Wait + Sync>(
    rt: &R,
    alloc: Global,
    options: ShardOptions,
    weather: Weather,
) -> Result<ShardAftermath, Fault>
    requires shards { (0 < options.shards) × (options.shards ≤ 16) }
    requires few { options.threads ≤ 16 }
{
    let devices = devices_of(alloc, options.shards, weather.blocks)?;
    shards_over(rt, alloc, devices, options, weather)
}

/// So many devices in memory, of blocks of 64 bytes.
fn devices_of(alloc: Global, count: u64, blocks: u64) -> Result<Vec<MemDevice>, Fault>
    ensures count { IfOk result (λ v. vec_len v ≡ count) }
    ensures sizes { IfOk result (λ v. All (λ d. (d.size ≡ 64) × (d.count ≡ blocks)) v.items) }
{
    let mut devices = Vec::new(alloc);
    for _ in 0..count {
        let device = MemDevice::new(alloc, PAGE, blocks).map_err(fault_of)?;
        let Ok(()) = devices.push(device) else {
            return Err(Fault::Memory);
        };
    }
    Ok(devices)
}

/// Runs a storm over a shard for each of these devices of blocks of 64 bytes. The histories are played again over copies of the devices.
pub fn shards_over<R: Threads + Wait + Sync, D: BlockDevice + Send>(
    rt: &R,
    alloc: Global,
    devices: Vec<D>,
    options: ShardOptions,
    weather: Weather,
) -> Result<ShardAftermath, Fault>
    requires shards { (vec_len devices ≡ options.shards) × (0 < options.shards) × (options.shards ≤ 16) }
    requires few { options.threads ≤ 16 }
    requires devices { All (λ d. ((D.told d).size ≡ 64) × ((D.told d).count ≡ weather.blocks)) devices.items }
{
    let geometry = Geometry::new(PAGE, FRAMES, DIRTY_LIMIT, weather.blocks).map_err(fault_of)?;
    let needs = Needs::of(options.shards, weather.faults);
    let (sources, copies) = sources_of(alloc, &geometry, devices, needs)?;
    let plan = Plan {
        shards: options.shards,
        threads: options.threads,
        steps: options.steps,
        seed: weather.seed,
    };
    let callers = plan.threads + WORKERS * plan.shards;
    match ShardParts::make(rt, alloc, &geometry, sources, callers) {
        Ok((parts, seats)) => {
            match storm_of::<Brand, FaultyDevice<D>, R>(rt, alloc, parts, seats, plan) {
                Some(left) => played(alloc, &geometry, left, copies),
                None => Err(Fault::Memory),
            }
        }
        Err(unmade) => {
            drop(unmade);
            Err(Fault::Memory)
        }
    }
}

/// What a storm over shards leaves, its histories played again over copies of the devices as these were before.
fn played<D: BlockDevice>(
    alloc: Global,
    geometry: &Geometry,
    left: Left<FaultyDevice<D>>,
    copies: Vec<Copies>,
) -> Result<ShardAftermath, Fault>
    requires { All (AreFor geometry.now) copies.items }
{
    let Left { closed, refused } = left;
    let mut closed = closed.into_iter();
    let mut shards = Vec::new(alloc);
    for copies in copies {
        let Some(one) = closed.next() else {
            break;
        };
        let name = NAME + shards.len() as u64;
        let past = ShardPast::of(alloc, geometry, name, one, copies)?;
        if shards.push(past).is_err() {
            return Err(Fault::Memory);
        }
    }
    Ok(ShardAftermath { shards, refused })
}

/// Makes a cache of the parts, has its callers make their calls beside the workers, and closes it. Nothing is answered where memory is
/// wanted.
fn storm_of<B: ShardNaming + Send + Sync, D: BlockDevice + Send, R: Threads + Wait + Sync>(
    rt: &R,
    alloc: Global,
    parts: ShardParts<D, FullTrail>,
    seats: Vec<ShardSeat>,
    plan: Plan,
) -> Option<Left<D>>
    requires shards { B.shards ≡ length parts }
    requires named { (k : ℕ) → k < length parts → B.names k ≡ names_at parts k }
    requires seats { All (AreSeated B.names) seats.items }
{
    match ShardedCache::<B, D, FullTrail>::of(alloc, parts) {
        Ok((cache, own)) => {
            let members = members_of(alloc, seats);
            history(rt, alloc, cache, own, members, plan)
        }
        Err(parts) => {
            // each by a call, since the check is slow where these go out of scope
            drop(parts);
            drop(seats);
            None
        }
    }
}

/// What the caches of the shards leave, once the callers have made their calls.
fn history<B: ShardNaming + Send + Sync, D: BlockDevice + Send, R: Threads + Wait + Sync>(
    rt: &R,
    alloc: Global,
    cache: ShardedCache<B, D, FullTrail>,
    mut own: ShardWorker,
    members: Option<Vec<Member<B>>>,
    plan: Plan,
) -> Option<Left<D>>
    requires own { (length own ≡ B.shards) × AreWorkers B.names own }
{
    let Some((seats, mut refused)) = take_part(rt, alloc, &cache, &mut own, members, plan) else {
        // each by a call, since the check is slow where a cache goes out of scope
        drop(cache);
        drop(own);
        return None;
    };
    match cache.close(rt, own, seats) {
        Ok(closed) => {
            count_all_workers(&closed, plan, &mut refused);
            Some(Left { closed, refused })
        }
        Err(open) => {
            drop(open);
            None
        }
    }
}

/// Counts the refusals of the workers of all shards. Their seats have numbers past those of the callers, since crews have the last seats.
fn count_all_workers<D: BlockDevice>(
    closed: &[Closed<D, FullTrail>],
    plan: Plan,
    refused: &mut Refused,
) {
    for shard in closed {
        count_workers(&shard.trail, plan.threads, refused);
    }
}

/// Has the callers make their calls beside the workers, and gives the seats back with the refusals, or nothing where memory is wanted.
fn take_part<B: ShardNaming + Send + Sync, D: BlockDevice + Send, R: Threads + Wait + Sync>(
    rt: &R,
    alloc: Global,
    cache: &ShardedCache<B, D, FullTrail>,
    own: &mut ShardWorker,
    members: Option<Vec<Member<B>>>,
    plan: Plan,
) -> Option<(Vec<ShardSeat>, Refused)>
    requires { (length own.old ≡ B.shards) × AreWorkers B.names own.old }
    ensures own { (length own.new ≡ B.shards) × AreWorkers B.names own.new }
    ensures seats { IfSome result (λ r. All (AreSeated B.names) r.0.items) }
{
    let mut members = members?;
    let Some(crews) = crews_of(alloc, cache, own, &mut members) else {
        drop(members);
        return None;
    };
    let mut refused = Refused::none();
    if let Some(first) = members.first_mut() {
        create_files(rt, cache, first, plan, &mut refused);
    }
    match callers_of(alloc, members, plan) {
        Some(callers) => all_seats(alloc, rage(rt, cache, crews, callers), refused),
        None => {
            drop(crews);
            None
        }
    }
}

/// The seats of the workers and of the callers, and the refusals of all, with those that were counted before.
fn all_seats<B: ShardNaming>(
    alloc: Global,
    back: (Option<Vec<Rested<B>>>, Option<Vec<Done<B>>>),
    mut refused: Refused,
) -> Option<(Vec<ShardSeat>, Refused)>
    ensures { IfSome result (λ r. All (AreSeated B.names) r.0.items) }
{
    let (rested, done) = back;
    let rested = rested?;
    let mut members = Vec::new(alloc);
    for Done {
        member,
        refused: more,
    } in done? {
        refused.add(&more);
        members.push(member).ok()?;
    }
    hand_back(rested, &mut members)?;
    Some((seats_of(alloc, members)?, refused))
}

/// Makes the files of each shard, by the seats of this member.
fn create_files<R: Wait, B: ShardNaming, D: BlockDevice>(
    rt: &R,
    cache: &ShardedCache<B, D, FullTrail>,
    member: &mut Member<B>,
    plan: Plan,
    refused: &mut Refused,
) {
    for file in 0..FILES * plan.shards {
        match cache.create_in(rt, &mut member.seat, file % plan.shards) {
            Err(CreateDenied::ByShard(denied)) => refused.count(denied.refusal),
            Ok(_) | Err(CreateDenied::NoShard) => {}
        }
    }
}

/// Runs the callers beside the workers, who are told to stop when the callers are done. Where no thread can be had the callers run
/// first, and then the workers.
fn rage<R: Threads + Wait + Sync, B: ShardNaming + Send + Sync, D: BlockDevice + Send>(
    rt: &R,
    cache: &ShardedCache<B, D, FullTrail>,
    crews: Vec<Crew<B>>,
    callers: Vec<Caller<B>>,
) -> (Option<Vec<Rested<B>>>, Option<Vec<Done<B>>>) {
    join(
        rt,
        move || work_all(rt, cache, crews),
        move || call_all(rt, cache, callers),
    )
}

/// Runs the workers of all shards, each in a thread of its own, until they are told to stop. Nothing is answered where memory is wanted.
fn work_all<R: Threads + Wait + Sync, B: ShardNaming + Send + Sync, D: BlockDevice + Send>(
    rt: &R,
    cache: &ShardedCache<B, D, FullTrail>,
    crews: Vec<Crew<B>>,
) -> Option<Vec<Rested<B>>> {
    map_vec(rt, crews, &|crew: Crew<B>| crew.run(rt, cache)).ok()
}

/// Runs the callers, each in a thread of its own, and then tells the workers to stop. Nothing is answered where memory is wanted.
fn call_all<R: Threads + Wait + Sync, B: ShardNaming + Send + Sync, D: BlockDevice + Send>(
    rt: &R,
    cache: &ShardedCache<B, D, FullTrail>,
    callers: Vec<Caller<B>>,
) -> Option<Vec<Done<B>>> {
    let done = map_vec(rt, callers, &|caller: Caller<B>| caller.run(rt, cache));
    cache.stop(rt);
    done.ok()
}

/// A caller of each of these members.
fn callers_of<B: ShardNaming>(
    alloc: Global,
    members: Vec<Member<B>>,
    plan: Plan,
) -> Option<Vec<Caller<B>>> {
    let mut callers = Vec::new(alloc);
    for (number, member) in members.into_iter().enumerate() {
        callers
            .push(Caller::new(alloc, member, plan, number as u64).ok()?)
            .ok()?;
    }
    Some(callers)
}
