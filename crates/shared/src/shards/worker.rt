//! Who works for a cache of shards beside its callers.

ghost use Rattle.std.specs.Prelude.{◌≡◌, ◌<◌, ◌≤◌, ◌+◌, ◌-◌, ◌⊎◌, ◌++◌, [], ℕ, IfErr, IfOk, List, OnOk, Some, length, map, min, vec_capacity, vec_len};
ghost use Rattle.pc_types.specs.declared.refusal.Refusal.TheVariants.{Memory, Stranger};
ghost use Rattle.shared.specs.ShardParts.{AllBoth};
ghost use Rattle.shared.specs.ShardSeats.{AreSeated, IsSeated, part};
ghost use Rattle.shared.specs.ShardWorkers.{AllFrom, AreWorkers, HasMadeOne, HaveMadeFrom, IsMadeBy, IsWorkerAt};
ghost use Rattle.shared.specs.Workers.{seat_of};
ghost use Rattle.shared.specs.declared.worker.Worker.{Worker};

use crate::cache::SharedCache;
use crate::shards::cache::ShardedCache;
use crate::shards::naming::{Shard, ShardNaming};
use crate::shards::place::{Four, Place, Sixteen};
use crate::shards::seat::ShardSeat;
use crate::worker::Worker;
use blockdev::BlockDevice;
use held::log::Seat;
use pc_types::Refusal;
use std::marker::Model;
use trail::Trail;

/// One who works for a cache of shards beside its callers: a worker at each shard. A thread may serve one shard, or more by turns.
#[derive(Drop)]
pub struct ShardWorker {
    pub(crate) workers: Vec<Worker>,
    // without seats, but with room for those of the workers: an end asks for no memory
    pub(crate) desk: Vec<Seat>,
    ghost empty: { desk.items ≡ [] },
    ghost spare: { vec_len workers ≤ vec_capacity desk },
}

impl Model for ShardWorker {
    ghost use Rattle.std.specs.Prelude.{List};
    ghost use Rattle.shared.specs.declared.worker.Worker.{Worker};

    ghost Value = { List Worker };

    ghost view = { λ w. w.workers.items };
}

impl<B: ShardNaming, D: BlockDevice, T: Trail, const K: u64> SharedCache<Shard<B, K>, D, T> {
    /// A worker, by a seat of the shard's own cache.
    fn worker_in(&self, own: &mut Worker, seat: Seat) -> Worker
        requires ring { (B.names K).ring ≡ Some self.now.ring }
        requires own { IsWorkerAt (B.names K) own.old }
        requires seat { (seat.name ≡ (B.names K).name) × (seat.table ≡ (B.names K).table) }
        ensures worker { IsWorkerAt (B.names K) result }
        ensures seat { seat_of result ≡ seat }
        ensures new { IsMadeBy own.old result }
        ensures own { IsWorkerAt (B.names K) own.new }
        ensures made { HasMadeOne own.old own.new }
    {
        let Ok(worker) = self.worker(own, seat) else {
            unreachable!()
        };
        worker
    }
}

impl<B: ShardNaming, D: BlockDevice, T: Trail, const K: u64> Place<B, D, T, K> {
    /// Makes a worker of each of these shards, where there are so many, of the caller's last seats. They go before those of the shards that
    /// follow.
    fn add_workers(&self, own: &mut ShardWorker, seats: &mut Vec<Seat>, workers: &mut Vec<Worker>)
        requires own { (length own.old ≡ B.shards) × AreWorkers B.names own.old }
        requires left { vec_len seats.old ≡ min B.shards (K + 1) }
        requires seated { (k : ℕ) → k < vec_len seats.old → ((part seats.old.items k).name ≡ (B.names k).name) × ((part seats.old.items k).table ≡ (B.names k).table) }
        requires count { vec_len workers.old ≡ B.shards - (K + 1) }
        requires spare { B.shards ≤ vec_capacity workers.old }
        requires workers { AllFrom (λ k w. IsWorkerAt (B.names k) w) (K + 1) workers.old.items }
        ensures own { (length own.new ≡ B.shards) × AreWorkers B.names own.new }
        ensures left { vec_len seats.new ≡ min B.shards K }
        ensures seated { (k : ℕ) → k < vec_len seats.new → ((part seats.new.items k).name ≡ (B.names k).name) × ((part seats.new.items k).table ≡ (B.names k).table) }
        ensures count { vec_len workers.new ≡ B.shards - K }
        ensures spare { B.shards ≤ vec_capacity workers.new }
        ensures workers { AllFrom (λ k w. IsWorkerAt (B.names k) w) K workers.new.items }
        ensures same { seats.new.items ++ map seat_of workers.new.items ≡ seats.old.items ++ map seat_of workers.old.items }
        ensures room { vec_capacity seats.new ≡ vec_capacity seats.old }
        ensures made { (first : List Worker) → HaveMadeFrom (K + 1) first own.old workers.old.items → HaveMadeFrom K first own.new workers.new.items }
    {
        let Some(cache) = self.caches.first() else {
            return;
        };
        let Some(seat) = seats.pop() else {
            unreachable!()
        };
        let Some(own) = own.workers.get_mut(K as usize) else {
            unreachable!()
        };
        let worker = cache.worker_in(own, seat);
        let Ok(()) = workers.insert(0, worker) else {
            unreachable!()
        };
    }
}

impl<
    B: ShardNaming,
    D: BlockDevice,
    T: Trail,
    const I: u64,
    const J: u64,
    const K: u64,
    const L: u64,
> Four<B, D, T, I, J, K, L> {
    /// Makes a worker of each of these shards, where there are so many, of the caller's last seats. They go before those of the shards that
    /// follow.
    // the last first
    fn add_workers(&self, own: &mut ShardWorker, seats: &mut Vec<Seat>, workers: &mut Vec<Worker>)
        requires whole { (J ≡ I + 1) × (K ≡ J + 1) × (L ≡ K + 1) }
        requires own { (length own.old ≡ B.shards) × AreWorkers B.names own.old }
        requires left { vec_len seats.old ≡ min B.shards (L + 1) }
        requires seated { (k : ℕ) → k < vec_len seats.old → ((part seats.old.items k).name ≡ (B.names k).name) × ((part seats.old.items k).table ≡ (B.names k).table) }
        requires count { vec_len workers.old ≡ B.shards - (L + 1) }
        requires spare { B.shards ≤ vec_capacity workers.old }
        requires workers { AllFrom (λ k w. IsWorkerAt (B.names k) w) (L + 1) workers.old.items }
        ensures own { (length own.new ≡ B.shards) × AreWorkers B.names own.new }
        ensures left { vec_len seats.new ≡ min B.shards I }
        ensures seated { (k : ℕ) → k < vec_len seats.new → ((part seats.new.items k).name ≡ (B.names k).name) × ((part seats.new.items k).table ≡ (B.names k).table) }
        ensures count { vec_len workers.new ≡ B.shards - I }
        ensures spare { B.shards ≤ vec_capacity workers.new }
        ensures workers { AllFrom (λ k w. IsWorkerAt (B.names k) w) I workers.new.items }
        ensures same { seats.new.items ++ map seat_of workers.new.items ≡ seats.old.items ++ map seat_of workers.old.items }
        ensures room { vec_capacity seats.new ≡ vec_capacity seats.old }
        ensures made { (first : List Worker) → HaveMadeFrom (L + 1) first own.old workers.old.items → HaveMadeFrom I first own.new workers.new.items }
    {
        self.part_3.add_workers(own, seats, workers);
        self.part_2.add_workers(own, seats, workers);
        self.part_1.add_workers(own, seats, workers);
        self.part_0.add_workers(own, seats, workers);
    }
}

impl<B: ShardNaming, D: BlockDevice, T: Trail> Sixteen<B, D, T> {
    /// Makes a worker of each of these shards, where there are so many, of the caller's last seats. They go before those of the shards that
    /// follow.
    // the last first
    fn add_workers(&self, own: &mut ShardWorker, seats: &mut Vec<Seat>, workers: &mut Vec<Worker>)
        requires own { (length own.old ≡ B.shards) × AreWorkers B.names own.old }
        requires left { vec_len seats.old ≡ min B.shards 16 }
        requires seated { (k : ℕ) → k < vec_len seats.old → ((part seats.old.items k).name ≡ (B.names k).name) × ((part seats.old.items k).table ≡ (B.names k).table) }
        requires count { vec_len workers.old ≡ B.shards - 16 }
        requires spare { B.shards ≤ vec_capacity workers.old }
        requires workers { AllFrom (λ k w. IsWorkerAt (B.names k) w) 16 workers.old.items }
        ensures own { (length own.new ≡ B.shards) × AreWorkers B.names own.new }
        ensures left { vec_len seats.new ≡ min B.shards 0 }
        ensures seated { (k : ℕ) → k < vec_len seats.new → ((part seats.new.items k).name ≡ (B.names k).name) × ((part seats.new.items k).table ≡ (B.names k).table) }
        ensures count { vec_len workers.new ≡ B.shards - 0 }
        ensures spare { B.shards ≤ vec_capacity workers.new }
        ensures workers { AllFrom (λ k w. IsWorkerAt (B.names k) w) 0 workers.new.items }
        ensures same { seats.new.items ++ map seat_of workers.new.items ≡ seats.old.items ++ map seat_of workers.old.items }
        ensures room { vec_capacity seats.new ≡ vec_capacity seats.old }
        ensures made { (first : List Worker) → HaveMadeFrom 16 first own.old workers.old.items → HaveMadeFrom 0 first own.new workers.new.items }
    {
        self.part_3.add_workers(own, seats, workers);
        self.part_2.add_workers(own, seats, workers);
        self.part_1.add_workers(own, seats, workers);
        self.part_0.add_workers(own, seats, workers);
    }
}

impl<B: ShardNaming, D: BlockDevice, T: Trail> ShardedCache<B, D, T> {
    /// One who works for all shards, whose events are entered by these seats. `Stranger` where they are of another cache; `Memory`.
    pub fn worker(
        &self,
        own: &mut ShardWorker,
        seat: ShardSeat,
    ) -> Result<ShardWorker, (Refusal, ShardSeat)>
        requires own { (length own.old ≡ B.shards) × AreWorkers B.names own.old }
        requires seat { AreSeated B.names seat }
        ensures err { IfErr result (λ e. ((e.0 ≡ Stranger) ⊎ (e.0 ≡ Memory)) × (e.1 ≡ seat) × (own.new ≡ own.old)) }
        ensures foreign { IfErr result (λ e. e.0 ≡ Stranger → IsSeated B.shards B.names seat → ⊥) }
        ensures stranger { (IsSeated B.shards B.names seat → ⊥) → IfErr result (λ e. e.0 ≡ Stranger) }
        ensures worker { IfOk result (λ w. (length w ≡ B.shards) × AreWorkers B.names w) }
        ensures seat { IfOk result (λ w. map seat_of w ≡ seat) }
        ensures new { IfOk result (λ w. AllBoth IsMadeBy own.old w) }
        ensures own { (length own.new ≡ B.shards) × AreWorkers B.names own.new }
        ensures made { OnOk result (AllBoth HasMadeOne own.old own.new) }
    {
        if !self.seats(&seat) {
            return Err((Refusal::Stranger, seat));
        }
        let Ok(mut workers) = Vec::with_capacity(self.alloc, self.shards as usize) else {
            return Err((Refusal::Memory, seat));
        };
        let ShardSeat { mut seats } = seat;
        self.caches.add_workers(own, &mut seats, &mut workers);
        Ok(ShardWorker {
            workers,
            desk: seats,
        })
    }
}

impl ShardWorker {
    /// Its seats, to be given to `close`.
    pub fn into_seat(self) -> ShardSeat
        ensures { result ≡ map seat_of self }
    {
        let ShardWorker { workers, desk } = self;
        let mut seats = desk;
        for worker in workers {
            seats.push_reserved(worker.into_seat());
        }
        ShardSeat { seats }
    }
}
