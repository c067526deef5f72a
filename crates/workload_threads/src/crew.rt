//! The workers of the cache.

ghost use Rattle.std.specs.Prelude.{IfOk};
ghost use Rattle.shared.specs.Workers.{IsWorkerOf};
ghost use Rattle.workload_threads.specs.Crews.{IsCrewOf};

use crate::member::{Member, Shared};
use blockdev::OpenGate;
use held::naming::Naming;
use pc_types::Refusal;
use shared::worker::Worker;
use std::sync::Wait;
use std::thread::{Threads, join};

/// The flusher, an I/O worker and the evictor.
pub const WORKERS: u64 = 3;

/// The seats of the workers.
pub type Back<B> = (Member<B>, (Member<B>, Member<B>));

/// The workers of a cache.
#[derive(Drop)]
pub struct Crew {
    flusher: Worker,
    io: Worker,
    evictor: Worker,
}

impl Crew {
    /// Workers with the seats of the last of these members.
    pub fn of<B: Naming>(
        cache: &Shared<B>,
        own: &mut Worker,
        members: &mut Vec<Member<B>>,
    ) -> Result<Crew, Refusal>
        requires { IsWorkerOf cache.now.ring B.name B.table B.deeds B.sizes own.old }
        ensures crew { IfOk result (IsCrewOf cache.now.ring B.name B.table B.deeds B.sizes) }
        ensures own { IsWorkerOf cache.now.ring B.name B.table B.deeds B.sizes own.new }
    {
        let (flusher, evictor) = two_workers(cache, own, members)?;
        match worker_of(cache, own, members) {
            Ok(io) => Ok(Crew {
                flusher,
                io,
                evictor,
            }),
            Err(refusal) => {
                // by a call, since the check is slow where a worker goes out of scope
                drop(flusher);
                drop(evictor);
                Err(refusal)
            }
        }
    }

    /// Runs the workers, each in a thread of its own, until they are told to stop. Gives their seats back.
    pub fn run<R: Threads + Wait + Sync, B: Naming + Send + Sync>(
        self,
        rt: &R,
        cache: &Shared<B>,
    ) -> Back<B>
        requires { IsCrewOf cache.now.ring B.name B.table B.deeds B.sizes self }
    {
        let Crew {
            flusher,
            io,
            evictor,
        } = self;
        join(
            rt,
            move ||
                requires { IsWorkerOf cache.now.ring B.name B.table B.deeds B.sizes io }
            { carry_out_jobs(rt, cache, io) },
            move ||
                requires { IsWorkerOf cache.now.ring B.name B.table B.deeds B.sizes flusher × IsWorkerOf cache.now.ring B.name B.table B.deeds B.sizes evictor }
            { make_room(rt, cache, flusher, evictor) },
        )
    }
}

/// Runs the flusher and the evictor, each in a thread of its own.
fn make_room<R: Threads + Wait + Sync, B: Naming + Send + Sync>(
    rt: &R,
    cache: &Shared<B>,
    flusher: Worker,
    evictor: Worker,
) -> (Member<B>, Member<B>)
    requires flusher { IsWorkerOf cache.now.ring B.name B.table B.deeds B.sizes flusher }
    requires evictor { IsWorkerOf cache.now.ring B.name B.table B.deeds B.sizes evictor }
{
    join(
        rt,
        move ||
            requires { IsWorkerOf cache.now.ring B.name B.table B.deeds B.sizes flusher }
        { write_back(rt, cache, flusher) },
        move ||
            requires { IsWorkerOf cache.now.ring B.name B.table B.deeds B.sizes evictor }
        { evict(rt, cache, evictor) },
    )
}

fn carry_out_jobs<R: Wait, B: Naming>(rt: &R, cache: &Shared<B>, mut worker: Worker) -> Member<B>
    requires { IsWorkerOf cache.now.ring B.name B.table B.deeds B.sizes worker }
{
    cache.io_worker(rt, &OpenGate, &mut worker);
    Member::of(worker.into_seat())
}

fn write_back<R: Wait, B: Naming>(rt: &R, cache: &Shared<B>, mut worker: Worker) -> Member<B>
    requires { IsWorkerOf cache.now.ring B.name B.table B.deeds B.sizes worker }
{
    cache.flusher(rt, &OpenGate, &mut worker);
    Member::of(worker.into_seat())
}

fn evict<R: Wait, B: Naming>(rt: &R, cache: &Shared<B>, mut worker: Worker) -> Member<B>
    requires { IsWorkerOf cache.now.ring B.name B.table B.deeds B.sizes worker }
{
    cache.evictor(rt, &OpenGate, &mut worker);
    Member::of(worker.into_seat())
}

/// Workers with the seats of the last two of these members.
fn two_workers<B: Naming>(
    cache: &Shared<B>,
    own: &mut Worker,
    members: &mut Vec<Member<B>>,
) -> Result<(Worker, Worker), Refusal>
    requires { IsWorkerOf cache.now.ring B.name B.table B.deeds B.sizes own.old }
    ensures workers { IfOk result (λ r. IsWorkerOf cache.now.ring B.name B.table B.deeds B.sizes r.0 × IsWorkerOf cache.now.ring B.name B.table B.deeds B.sizes r.1) }
    ensures own { IsWorkerOf cache.now.ring B.name B.table B.deeds B.sizes own.new }
{
    let one = worker_of(cache, own, members)?;
    match worker_of(cache, own, members) {
        Ok(other) => Ok((one, other)),
        Err(refusal) => {
            drop(one);
            Err(refusal)
        }
    }
}

/// A worker with the seat of the last of these members.
fn worker_of<B: Naming>(
    cache: &Shared<B>,
    own: &mut Worker,
    members: &mut Vec<Member<B>>,
) -> Result<Worker, Refusal>
    requires { IsWorkerOf cache.now.ring B.name B.table B.deeds B.sizes own.old }
    ensures worker { IfOk result (IsWorkerOf cache.now.ring B.name B.table B.deeds B.sizes) }
    ensures own { IsWorkerOf cache.now.ring B.name B.table B.deeds B.sizes own.new }
{
    let Some(member) = members.pop() else {
        return Err(Refusal::Stranger);
    };
    match cache.worker(own, member.into_seat()) {
        Ok(worker) => Ok(worker),
        Err((refusal, seat)) => {
            drop(seat);
            Err(refusal)
        }
    }
}
