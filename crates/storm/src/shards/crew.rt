//! The workers of a storm over shards.

ghost use Rattle.std.specs.Prelude.{◌≡◌, ◌<◌, length, map};
ghost use Rattle.shared.specs.ShardSeats.{AreSeated};
ghost use Rattle.shared.specs.ShardWorkers.{AreWorkers};
ghost use Rattle.shared.specs.Workers.{seat_of};

use crate::shards::member::Member;
use blockdev::{BlockDevice, OpenGate};
use shared::shards::cache::ShardedCache;
use shared::shards::naming::ShardNaming;
use shared::shards::worker::ShardWorker;
use std::alloc::Global;
use std::marker::{Model, PhantomData};
use std::sync::Wait;
use std::thread::{Threads, join};
use trail::FullTrail;

/// The flusher, the I/O worker and the evictor of a shard.
pub const WORKERS: u64 = 3;

/// One who works at the shards that B names.
#[derive(Drop)]
struct Hand<B: ShardNaming> {
    worker: ShardWorker,
    of: PhantomData<B>,
}

impl<B: ShardNaming> Model for Hand<B> {
    ghost use Rattle.std.specs.Prelude.{◌≡◌, List, length, map};
    ghost use Rattle.shared.specs.ShardSeats.{AreSeated};
    ghost use Rattle.shared.specs.ShardWorkers.{AreWorkers};
    ghost use Rattle.shared.specs.Workers.{seat_of};
    ghost use Rattle.shared.specs.declared.worker.Worker.{Worker};

    ghost Value = { List Worker };

    ghost view = { λ h. h.worker };

    ghost invariant = { λ h. (length h.worker ≡ B.shards) × AreWorkers B.names h.worker × AreSeated B.names (map seat_of h.worker) };
}

/// The seats of a shard's workers that are done.
pub type Rested<B> = (Member<B>, (Member<B>, Member<B>));

/// The workers of a shard.
#[derive(Drop)]
pub struct Crew<B: ShardNaming> {
    shard: u64,
    flusher: Hand<B>,
    evictor: Hand<B>,
    io_worker: Hand<B>,
    ghost there: { shard < B.shards },
}

impl<B: ShardNaming + Send + Sync> Crew<B> {
    /// Runs the workers, each in a thread of its own, until they are told to stop. Gives their seats back.
    pub fn run<R: Threads + Wait + Sync, D: BlockDevice + Send>(
        self,
        rt: &R,
        cache: &ShardedCache<B, D, FullTrail>,
    ) -> Rested<B> {
        let Crew {
            shard,
            flusher,
            evictor,
            io_worker,
        } = self;
        // Where no thread can be had the last runs first: a flusher without an I/O worker would fill the ring, and callers wait for good.
        join(
            rt,
            move ||
                requires { shard < B.shards }
            { flusher.write_back(rt, cache, shard) },
            move ||
                requires { shard < B.shards }
            { evict_and_carry_out(rt, cache, shard, evictor, io_worker) },
        )
    }
}

/// Runs the evictor and the I/O worker of a shard, each in a thread of its own.
fn evict_and_carry_out<
    R: Threads + Wait + Sync,
    B: ShardNaming + Send + Sync,
    D: BlockDevice + Send,
>(
    rt: &R,
    cache: &ShardedCache<B, D, FullTrail>,
    shard: u64,
    evictor: Hand<B>,
    io_worker: Hand<B>,
) -> (Member<B>, Member<B>)
    requires { shard < B.shards }
{
    join(
        rt,
        move ||
            requires { shard < B.shards }
        { evictor.evict(rt, cache, shard) },
        move ||
            requires { shard < B.shards }
        { io_worker.carry_out(rt, cache, shard) },
    )
}

impl<B: ShardNaming> Hand<B> {
    fn write_back<R: Wait, D: BlockDevice>(
        self,
        rt: &R,
        cache: &ShardedCache<B, D, FullTrail>,
        shard: u64,
    ) -> Member<B>
        requires { shard < B.shards }
    {
        let Hand { mut worker, .. } = self;
        cache.flusher(rt, &OpenGate, shard, &mut worker);
        Member::of(worker.into_seat())
    }

    fn evict<R: Wait, D: BlockDevice>(
        self,
        rt: &R,
        cache: &ShardedCache<B, D, FullTrail>,
        shard: u64,
    ) -> Member<B>
        requires { shard < B.shards }
    {
        let Hand { mut worker, .. } = self;
        cache.evictor(rt, &OpenGate, shard, &mut worker);
        Member::of(worker.into_seat())
    }

    fn carry_out<R: Wait, D: BlockDevice>(
        self,
        rt: &R,
        cache: &ShardedCache<B, D, FullTrail>,
        shard: u64,
    ) -> Member<B>
        requires { shard < B.shards }
    {
        let Hand { mut worker, .. } = self;
        cache.io_worker(rt, &OpenGate, shard, &mut worker);
        Member::of(worker.into_seat())
    }
}

/// A crew of each shard, with the seats of the last of these members, who leave them. None are answered where memory or a member is wanted.
pub fn crews_of<B: ShardNaming, D: BlockDevice>(
    alloc: Global,
    cache: &ShardedCache<B, D, FullTrail>,
    own: &mut ShardWorker,
    members: &mut Vec<Member<B>>,
) -> Option<Vec<Crew<B>>>
    requires { (length own.old ≡ B.shards) × AreWorkers B.names own.old }
    ensures own { (length own.new ≡ B.shards) × AreWorkers B.names own.new }
{
    let mut crews = Vec::new(alloc);
    for shard in 0..cache.shards() {
        let crew = crew_of(cache, own, shard, members)?;
        crews.push(crew).ok()?;
    }
    Some(crews)
}

/// The crew of a shard.
fn crew_of<B: ShardNaming, D: BlockDevice>(
    cache: &ShardedCache<B, D, FullTrail>,
    own: &mut ShardWorker,
    shard: u64,
    members: &mut Vec<Member<B>>,
) -> Option<Crew<B>>
    requires shard { shard < B.shards }
    requires own { (length own.old ≡ B.shards) × AreWorkers B.names own.old }
    ensures own { (length own.new ≡ B.shards) × AreWorkers B.names own.new }
{
    let flusher = hand_of(cache, own, members)?;
    let evictor = hand_of(cache, own, members)?;
    let io_worker = hand_of(cache, own, members)?;
    Some(Crew {
        shard,
        flusher,
        evictor,
        io_worker,
    })
}

/// One who works with the seats of the last of these members.
fn hand_of<B: ShardNaming, D: BlockDevice>(
    cache: &ShardedCache<B, D, FullTrail>,
    own: &mut ShardWorker,
    members: &mut Vec<Member<B>>,
) -> Option<Hand<B>>
    requires { (length own.old ≡ B.shards) × AreWorkers B.names own.old }
    ensures own { (length own.new ≡ B.shards) × AreWorkers B.names own.new }
{
    match cache.worker(own, members.pop()?.seat) {
        Ok(worker) => Some(Hand {
            worker,
            of: PhantomData,
        }),
        Err(refused) => {
            drop(refused);
            None
        }
    }
}

/// Puts the members of these crews to the others. Nothing is answered where memory is wanted.
pub fn hand_back<B: ShardNaming>(
    rested: Vec<Rested<B>>,
    members: &mut Vec<Member<B>>,
) -> Option<()> {
    for (flusher, (evictor, io_worker)) in rested {
        members.push(flusher).ok()?;
        members.push(evictor).ok()?;
        members.push(io_worker).ok()?;
    }
    Some(())
}
