//! The workers of a storm.

ghost use Rattle.std.specs.Prelude.{◌≡◌, IfSome};
ghost use Rattle.shared.specs.Workers.{IsWorkerOf};
ghost use Rattle.storm.specs.Crews.{IsCrewOf};

use crate::member::Member;
use blockdev::{BlockDevice, OpenGate};
use held::naming::Naming;
use shared::cache::SharedCache;
use shared::worker::Worker;
use std::sync::Wait;
use std::thread::{Threads, join};
use trail::FullTrail;

/// The flusher, two I/O workers and the evictor.
pub const WORKERS: u64 = 4;

/// The seats of two workers that are done.
pub type Pair<B> = (Member<B>, Member<B>);

/// The workers of a cache.
#[derive(Drop)]
pub struct Crew {
    flusher: Worker,
    first: Worker,
    second: Worker,
    evictor: Worker,
}

impl Crew {
    /// Workers with the seats of the last of these members.
    pub fn of<B: Naming, D: BlockDevice>(
        cache: &SharedCache<B, D, FullTrail>,
        own: &mut Worker,
        members: &mut Vec<Member<B>>,
    ) -> Option<Crew>
        requires { IsWorkerOf cache.now.ring B.name B.table B.deeds B.sizes own.old }
        ensures crew { IfSome result (IsCrewOf cache.now.ring B.name B.table B.deeds B.sizes) }
        ensures own { IsWorkerOf cache.now.ring B.name B.table B.deeds B.sizes own.new }
    {
        let (flusher, evictor) = two_workers(cache, own, members)?;
        match two_workers(cache, own, members) {
            Some((first, second)) => Some(Crew {
                flusher,
                first,
                second,
                evictor,
            }),
            None => {
                // by a call, since the check is slow where a worker goes out of scope
                drop(flusher);
                drop(evictor);
                None
            }
        }
    }

    /// Runs the workers, each in a thread of its own, until they are told to stop. Gives their seats back.
    pub fn run<R: Threads + Wait + Sync, B: Naming + Send + Sync, D: BlockDevice + Send>(
        self,
        rt: &R,
        cache: &SharedCache<B, D, FullTrail>,
    ) -> (Pair<B>, Pair<B>)
        requires { IsCrewOf cache.now.ring B.name B.table B.deeds B.sizes self }
    {
        let Crew {
            flusher,
            first,
            second,
            evictor,
        } = self;
        // Where no thread can be had the second runs first: a flusher without I/O workers would fill the ring, and callers wait for good.
        join(
            rt,
            move ||
                requires { IsWorkerOf cache.now.ring B.name B.table B.deeds B.sizes flusher × IsWorkerOf cache.now.ring B.name B.table B.deeds B.sizes evictor }
            { make_room(rt, cache, flusher, evictor) },
            move ||
                requires { IsWorkerOf cache.now.ring B.name B.table B.deeds B.sizes first × IsWorkerOf cache.now.ring B.name B.table B.deeds B.sizes second }
            { carry_out(rt, cache, first, second) },
        )
    }
}

/// Runs two I/O workers, each in a thread of its own.
fn carry_out<R: Threads + Wait + Sync, B: Naming + Send + Sync, D: BlockDevice + Send>(
    rt: &R,
    cache: &SharedCache<B, D, FullTrail>,
    first: Worker,
    second: Worker,
) -> Pair<B>
    requires first { IsWorkerOf cache.now.ring B.name B.table B.deeds B.sizes first }
    requires second { IsWorkerOf cache.now.ring B.name B.table B.deeds B.sizes second }
{
    join(
        rt,
        move ||
            requires { IsWorkerOf cache.now.ring B.name B.table B.deeds B.sizes first }
        { carry_out_jobs(rt, cache, first) },
        move ||
            requires { IsWorkerOf cache.now.ring B.name B.table B.deeds B.sizes second }
        { carry_out_jobs(rt, cache, second) },
    )
}

/// Runs the flusher and the evictor, each in a thread of its own.
fn make_room<R: Threads + Wait + Sync, B: Naming + Send + Sync, D: BlockDevice + Send>(
    rt: &R,
    cache: &SharedCache<B, D, FullTrail>,
    flusher: Worker,
    evictor: Worker,
) -> Pair<B>
    requires flusher { IsWorkerOf cache.now.ring B.name B.table B.deeds B.sizes flusher }
    requires evictor { IsWorkerOf cache.now.ring B.name B.table B.deeds B.sizes evictor }
{
    join(
        rt,
        move ||
            requires { IsWorkerOf cache.now.ring B.name B.table B.deeds B.sizes flusher }
        { write_back(rt, cache, flusher) },
        move ||
            requires { IsWorkerOf cache.now.ring B.name B.table B.deeds B.sizes evictor }
        { evict(rt, cache, evictor) },
    )
}

fn carry_out_jobs<R: Wait, B: Naming, D: BlockDevice>(
    rt: &R,
    cache: &SharedCache<B, D, FullTrail>,
    mut worker: Worker,
) -> Member<B>
    requires { IsWorkerOf cache.now.ring B.name B.table B.deeds B.sizes worker }
{
    cache.io_worker(rt, &OpenGate, &mut worker);
    Member::of(worker.into_seat())
}

fn write_back<R: Wait, B: Naming, D: BlockDevice>(
    rt: &R,
    cache: &SharedCache<B, D, FullTrail>,
    mut worker: Worker,
) -> Member<B>
    requires { IsWorkerOf cache.now.ring B.name B.table B.deeds B.sizes worker }
{
    cache.flusher(rt, &OpenGate, &mut worker);
    Member::of(worker.into_seat())
}

fn evict<R: Wait, B: Naming, D: BlockDevice>(
    rt: &R,
    cache: &SharedCache<B, D, FullTrail>,
    mut worker: Worker,
) -> Member<B>
    requires { IsWorkerOf cache.now.ring B.name B.table B.deeds B.sizes worker }
{
    cache.evictor(rt, &OpenGate, &mut worker);
    Member::of(worker.into_seat())
}

/// Puts the members of these pairs to the others. Nothing is answered where memory is wanted.
pub fn hand_back<B: Naming>(pairs: (Pair<B>, Pair<B>), members: &mut Vec<Member<B>>) -> Option<()> {
    let (front, back) = pairs;
    let first = push_both(front, members);
    let second = push_both(back, members);
    first?;
    second
}

fn push_both<B: Naming>(pair: Pair<B>, members: &mut Vec<Member<B>>) -> Option<()> {
    let (one, other) = pair;
    let first = members.push(one).ok();
    let second = members.push(other).ok();
    first?;
    second
}

/// Workers with the seats of the last two of these members.
fn two_workers<B: Naming, D: BlockDevice>(
    cache: &SharedCache<B, D, FullTrail>,
    own: &mut Worker,
    members: &mut Vec<Member<B>>,
) -> Option<(Worker, Worker)>
    requires { IsWorkerOf cache.now.ring B.name B.table B.deeds B.sizes own.old }
    ensures workers { IfSome result (λ r. IsWorkerOf cache.now.ring B.name B.table B.deeds B.sizes r.0 × IsWorkerOf cache.now.ring B.name B.table B.deeds B.sizes r.1) }
    ensures own { IsWorkerOf cache.now.ring B.name B.table B.deeds B.sizes own.new }
{
    let one = worker_of(cache, own, members)?;
    match worker_of(cache, own, members) {
        Some(other) => Some((one, other)),
        None => {
            drop(one);
            None
        }
    }
}

/// A worker with the seat of the last of these members.
fn worker_of<B: Naming, D: BlockDevice>(
    cache: &SharedCache<B, D, FullTrail>,
    own: &mut Worker,
    members: &mut Vec<Member<B>>,
) -> Option<Worker>
    requires { IsWorkerOf cache.now.ring B.name B.table B.deeds B.sizes own.old }
    ensures worker { IfSome result (IsWorkerOf cache.now.ring B.name B.table B.deeds B.sizes) }
    ensures own { IsWorkerOf cache.now.ring B.name B.table B.deeds B.sizes own.new }
{
    cache.worker(own, members.pop()?.seat).ok()
}
