//! Workers' turns and loops, in a shard.

ghost use Rattle.std.specs.Prelude.{◌≡◌, ◌<◌, length, map};
ghost use Rattle.shared.specs.ShardSeats.{AreSeated};
ghost use Rattle.shared.specs.ShardWorkers.{AreWorkers, WorksAt};
ghost use Rattle.shared.specs.ShardWorks.{EndsAll, EndsOne, LetsPages, LetsSome, WritesBack, WritesOne};
ghost use Rattle.shared.specs.Workers.{seat_of};

use crate::cache::SharedCache;
use crate::ends::Done;
use crate::shards::cache::ShardedCache;
use crate::shards::call::WorkerCall;
use crate::shards::naming::ShardNaming;
use crate::shards::place::{Four, Place, Sixteen};
use crate::shards::worker::ShardWorker;
use crate::turns::Flushed;
use crate::worker::Worker;
use blockdev::{BlockDevice, Gate};
use held::denied::Denied;
use held::naming::Naming;
use std::sync::Wait;
use trail::Trail;

#[derive(Drop)]
struct IoTurn<'g, G> {
    gate: &'g G,
}

impl<'g, G: Gate, D: BlockDevice, T: Trail> WorkerCall<D, T> for IoTurn<'g, G> {
    type Answer = Option<Done>;

    ghost does = { λ n a r s t. EndsOne n (G.passed a.gate.now) r s t };

    fn on<B: Naming, R: Wait>(
        &self,
        rt: &R,
        worker: &mut Worker,
        cache: &SharedCache<B, D, T>,
    ) -> Option<Done> {
        cache.io_turn(rt, self.gate, worker)
    }
}

#[derive(Drop)]
struct FlusherTurn<'g, G> {
    gate: &'g G,
}

impl<'g, G: Gate, D: BlockDevice, T: Trail> WorkerCall<D, T> for FlusherTurn<'g, G> {
    type Answer = Result<Flushed, Denied>;

    ghost does = { λ n a r s t. WritesOne n (G.passed a.gate.now) r s t };

    fn on<B: Naming, R: Wait>(
        &self,
        rt: &R,
        worker: &mut Worker,
        cache: &SharedCache<B, D, T>,
    ) -> Result<Flushed, Denied> {
        cache.flusher_turn(rt, self.gate, worker)
    }
}

#[derive(Drop)]
struct EvictorTurn<'g, G> {
    gate: &'g G,
}

impl<'g, G: Gate, D: BlockDevice, T: Trail> WorkerCall<D, T> for EvictorTurn<'g, G> {
    type Answer = Result<u64, Denied>;

    ghost does = { λ n a r s t. LetsSome n (G.passed a.gate.now) r s t };

    fn on<B: Naming, R: Wait>(
        &self,
        rt: &R,
        worker: &mut Worker,
        cache: &SharedCache<B, D, T>,
    ) -> Result<u64, Denied> {
        cache.evictor_turn(rt, self.gate, worker)
    }
}

#[derive(Drop)]
struct IoWorker<'g, G> {
    gate: &'g G,
}

impl<'g, G: Gate, D: BlockDevice, T: Trail> WorkerCall<D, T> for IoWorker<'g, G> {
    type Answer = ();

    ghost does = { λ n _ _ s t. EndsAll n s t };

    fn on<B: Naming, R: Wait>(&self, rt: &R, worker: &mut Worker, cache: &SharedCache<B, D, T>) {
        cache.io_worker(rt, self.gate, worker)
    }
}

#[derive(Drop)]
struct Flusher<'g, G> {
    gate: &'g G,
}

impl<'g, G: Gate, D: BlockDevice, T: Trail> WorkerCall<D, T> for Flusher<'g, G> {
    type Answer = ();

    ghost does = { λ n _ _ s t. WritesBack n s t };

    fn on<B: Naming, R: Wait>(&self, rt: &R, worker: &mut Worker, cache: &SharedCache<B, D, T>) {
        cache.flusher(rt, self.gate, worker)
    }
}

#[derive(Drop)]
struct Evictor<'g, G> {
    gate: &'g G,
}

impl<'g, G: Gate, D: BlockDevice, T: Trail> WorkerCall<D, T> for Evictor<'g, G> {
    type Answer = ();

    ghost does = { λ n _ _ s t. LetsPages n s t };

    fn on<B: Naming, R: Wait>(&self, rt: &R, worker: &mut Worker, cache: &SharedCache<B, D, T>) {
        cache.evictor(rt, self.gate, worker)
    }
}

impl<B: ShardNaming, D: BlockDevice, T: Trail, const K: u64> Place<B, D, T, K> {
    /// Tells the workers of all these shards to stop.
    fn stop<R: Wait>(&self, rt: &R) {
        if let Some(cache) = self.caches.first() {
            cache.stop(rt);
        }
    }
}

impl<
    B: ShardNaming,
    D: BlockDevice,
    T: Trail,
    const I: u64,
    const J: u64,
    const K: u64,
    const L: u64,
> Four<B, D, T, I, J, K, L> {
    /// Tells the workers of all these shards to stop.
    fn stop<R: Wait>(&self, rt: &R) {
        self.part_0.stop(rt);
        self.part_1.stop(rt);
        self.part_2.stop(rt);
        self.part_3.stop(rt);
    }
}

impl<B: ShardNaming, D: BlockDevice, T: Trail> Sixteen<B, D, T> {
    /// Tells the workers of all these shards to stop.
    fn stop<R: Wait>(&self, rt: &R) {
        self.part_0.stop(rt);
        self.part_1.stop(rt);
        self.part_2.stop(rt);
        self.part_3.stop(rt);
    }
}

impl<B: ShardNaming, D: BlockDevice, T: Trail> ShardedCache<B, D, T> {
    /// One turn of an I/O worker of a shard: it takes a job from the shard's ring, makes its device call, and ends its request. Answers
    /// nothing only where the ring was empty at one moment of the turn. The gate is entered with the job's serial, before the device call.
    pub fn io_turn<R: Wait, G: Gate>(
        &self,
        rt: &R,
        gate: &G,
        shard: u64,
        worker: &mut ShardWorker,
    ) -> Option<Done>
        requires there { (shard < B.shards) × (length worker.old ≡ B.shards) }
        requires workers { AreWorkers B.names worker.old }
        ensures turn { WorksAt shard (EndsOne (B.names shard) (G.passed gate.now) result) worker.old worker.new }
        ensures workers { AreWorkers B.names worker.new }
        ensures seated { AreSeated B.names (map seat_of worker.old) → AreSeated B.names (map seat_of worker.new) }
        ensures count { length worker.new ≡ B.shards }
    {
        let Some(own) = worker.workers.get_mut(shard as usize) else {
            unreachable!()
        };
        self.caches.work(rt, shard, own, &IoTurn { gate })
    }

    /// One turn of a flusher of a shard: it begins to write the lowest page of the first file that has one to write, and puts the job into
    /// the shard's ring. Where the ring is full it makes the device call itself, for which the gate is entered with the job's serial.
    /// Refused only where no write was begun.
    pub fn flusher_turn<R: Wait, G: Gate>(
        &self,
        rt: &R,
        gate: &G,
        shard: u64,
        worker: &mut ShardWorker,
    ) -> Result<Flushed, Denied>
        requires there { (shard < B.shards) × (length worker.old ≡ B.shards) }
        requires workers { AreWorkers B.names worker.old }
        ensures turn { WorksAt shard (WritesOne (B.names shard) (G.passed gate.now) result) worker.old worker.new }
        ensures workers { AreWorkers B.names worker.new }
        ensures seated { AreSeated B.names (map seat_of worker.old) → AreSeated B.names (map seat_of worker.new) }
        ensures count { length worker.new ≡ B.shards }
    {
        let Some(own) = worker.workers.get_mut(shard as usize) else {
            unreachable!()
        };
        self.caches.work(rt, shard, own, &FlusherTurn { gate })
    }

    /// One turn of an evictor of a shard: while few frames are free, pages of the active list age and the first idle page goes. It ends
    /// where enough are free, or no page is idle, and answers how many pages went. Refused by a full trail alone. The gate is entered with
    /// 0 before each.
    pub fn evictor_turn<R: Wait, G: Gate>(
        &self,
        rt: &R,
        gate: &G,
        shard: u64,
        worker: &mut ShardWorker,
    ) -> Result<u64, Denied>
        requires there { (shard < B.shards) × (length worker.old ≡ B.shards) }
        requires workers { AreWorkers B.names worker.old }
        ensures turn { WorksAt shard (LetsSome (B.names shard) (G.passed gate.now) result) worker.old worker.new }
        ensures workers { AreWorkers B.names worker.new }
        ensures seated { AreSeated B.names (map seat_of worker.old) → AreSeated B.names (map seat_of worker.new) }
        ensures count { length worker.new ≡ B.shards }
    {
        let Some(own) = worker.workers.get_mut(shard as usize) else {
            unreachable!()
        };
        self.caches.work(rt, shard, own, &EvictorTurn { gate })
    }

    /// Carries out the jobs of a shard's ring, and sleeps where there are none. Told to stop, it goes on till no flusher of the shard is in
    /// its loop and the ring is empty.
    pub fn io_worker<R: Wait, G: Gate>(
        &self,
        rt: &R,
        gate: &G,
        shard: u64,
        worker: &mut ShardWorker,
    )
        requires there { (shard < B.shards) × (length worker.old ≡ B.shards) }
        requires workers { AreWorkers B.names worker.old }
        ensures turn { WorksAt shard (EndsAll (B.names shard)) worker.old worker.new }
        ensures workers { AreWorkers B.names worker.new }
        ensures seated { AreSeated B.names (map seat_of worker.old) → AreSeated B.names (map seat_of worker.new) }
        ensures count { length worker.new ≡ B.shards }
    {
        let Some(own) = worker.workers.get_mut(shard as usize) else {
            unreachable!()
        };
        self.caches.work(rt, shard, own, &IoWorker { gate })
    }

    /// Writes pages of a shard back while there are any to write, and sleeps where there are none, until it is told to stop.
    pub fn flusher<R: Wait, G: Gate>(&self, rt: &R, gate: &G, shard: u64, worker: &mut ShardWorker)
        requires there { (shard < B.shards) × (length worker.old ≡ B.shards) }
        requires workers { AreWorkers B.names worker.old }
        ensures turn { WorksAt shard (WritesBack (B.names shard)) worker.old worker.new }
        ensures workers { AreWorkers B.names worker.new }
        ensures seated { AreSeated B.names (map seat_of worker.old) → AreSeated B.names (map seat_of worker.new) }
        ensures count { length worker.new ≡ B.shards }
    {
        let Some(own) = worker.workers.get_mut(shard as usize) else {
            unreachable!()
        };
        self.caches.work(rt, shard, own, &Flusher { gate })
    }

    /// Lets pages of a shard go while few frames are free, and sleeps where enough are, until it is told to stop.
    pub fn evictor<R: Wait, G: Gate>(&self, rt: &R, gate: &G, shard: u64, worker: &mut ShardWorker)
        requires there { (shard < B.shards) × (length worker.old ≡ B.shards) }
        requires workers { AreWorkers B.names worker.old }
        ensures turn { WorksAt shard (LetsPages (B.names shard)) worker.old worker.new }
        ensures workers { AreWorkers B.names worker.new }
        ensures seated { AreSeated B.names (map seat_of worker.old) → AreSeated B.names (map seat_of worker.new) }
        ensures count { length worker.new ≡ B.shards }
    {
        let Some(own) = worker.workers.get_mut(shard as usize) else {
            unreachable!()
        };
        self.caches.work(rt, shard, own, &Evictor { gate })
    }

    /// Tells the workers of all shards to stop. It waits for none of them.
    pub fn stop<R: Wait>(&self, rt: &R) {
        self.caches.stop(rt);
    }
}
