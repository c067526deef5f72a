//! Calls that are carried out in the cache of one shard.
//!
//! A call is a value: what it was given, and what it does at a cache of any name. So one way leads from the cache of shards down to the
//! cache of one, whatever is asked there. A caller's calls are inlined on it, since a read of a cached page takes less time than to hand
//! its arguments on four times.

ghost use Rattle.std.specs.Prelude.{◌≡◌, ◌+◌, ◌≢◌, ◌<◌, ◌≤◌, Some};
ghost use Rattle.held.specs.Called.{Goes};
ghost use Rattle.shared.specs.ShardWorkers.{IsWorkerAt};

use crate::cache::SharedCache;
use crate::shards::naming::ShardNaming;
use crate::shards::place::{Four, Place, Sixteen, at_quarter};
use crate::worker::Worker;
use blockdev::BlockDevice;
use held::log::Seat;
use held::naming::Naming;
use std::sync::Wait;
use trail::Trail;

/// What a caller asks of the cache of a shard.
pub(crate) trait SeatCall<D: BlockDevice, T: Trail> {
    ghost use Rattle.std.specs.Prelude.{◌≡◌, ◌≢◌, Some};
    ghost use Rattle.held.specs.Called.{Goes};
    ghost use Rattle.held.specs.Shown.{SeatSeen};
    ghost use Rattle.shared.specs.ShardNames.{CacheNames};

    type Answer;

    /// What it owes there.
    ghost owes: { CacheNames → Self → Type 0 };

    /// What it says to a seat of another cache.
    ghost refuses: { Self → Self → Self.Answer → Type 0 };

    /// What it says whosever the seat is.
    ghost keeps: { CacheNames → Self → Self → Self.Answer → Type 0 };

    /// What it does with a seat of that cache.
    ghost does: { CacheNames → Self → Self → Self.Answer → SeatSeen → SeatSeen → Type 0 };

    fn on<B: Naming, R: Wait>(
        &mut self,
        rt: &R,
        own: &mut Seat,
        cache: &SharedCache<B, D, T>,
    ) -> Self::Answer
        requires seat { own.old.name ≡ B.name → own.old.table ≡ B.table }
        requires owes { owes (record { name = B.name; table = B.table; board = B.board; sizes = B.sizes; files = B.files; seats = B.seats; whole = B.whole; blocks = B.blocks; calls = B.calls; deeds = B.deeds; told = B.told; ring = Some cache.now.ring }) self.old }
        ensures goes { Goes own.old own.new }
        ensures foreign { own.old.name ≢ B.name → refuses self.old self.new result × (own.new ≡ own.old) }
        ensures keeps { keeps (record { name = B.name; table = B.table; board = B.board; sizes = B.sizes; files = B.files; seats = B.seats; whole = B.whole; blocks = B.blocks; calls = B.calls; deeds = B.deeds; told = B.told; ring = Some cache.now.ring }) self.old self.new result }
        ensures call { own.old.name ≡ B.name → does (record { name = B.name; table = B.table; board = B.board; sizes = B.sizes; files = B.files; seats = B.seats; whole = B.whole; blocks = B.blocks; calls = B.calls; deeds = B.deeds; told = B.told; ring = Some cache.now.ring }) self.old self.new result own.old own.new };
}

/// What is asked of a worker at a shard.
pub(crate) trait WorkerCall<D: BlockDevice, T: Trail> {
    ghost use Rattle.std.specs.Prelude.{◌≡◌, Some};
    ghost use Rattle.shared.specs.ShardNames.{CacheNames};
    ghost use Rattle.shared.specs.ShardWorkers.{IsWorkerAt};
    ghost use Rattle.shared.specs.declared.worker.Worker.{Worker as WorkerNow};

    type Answer;

    /// What the worker does there.
    ghost does: { CacheNames → Self → Self.Answer → WorkerNow → WorkerNow → Type 0 };

    fn on<B: Naming, R: Wait>(
        &self,
        rt: &R,
        worker: &mut Worker,
        cache: &SharedCache<B, D, T>,
    ) -> Self::Answer
        requires worker { IsWorkerAt (record { name = B.name; table = B.table; board = B.board; sizes = B.sizes; files = B.files; seats = B.seats; whole = B.whole; blocks = B.blocks; calls = B.calls; deeds = B.deeds; told = B.told; ring = Some cache.now.ring }) worker.old }
        ensures turn { does (record { name = B.name; table = B.table; board = B.board; sizes = B.sizes; files = B.files; seats = B.seats; whole = B.whole; blocks = B.blocks; calls = B.calls; deeds = B.deeds; told = B.told; ring = Some cache.now.ring }) self.now result worker.old worker.new };
}

impl<B: ShardNaming, D: BlockDevice, T: Trail, const K: u64> Place<B, D, T, K> {
    #[inline(always)]
    fn ask<C: SeatCall<D, T>, R: Wait>(
        &self,
        rt: &R,
        shard: u64,
        own: &mut Seat,
        call: &mut C,
    ) -> C::Answer
        requires at { (K ≤ shard) × (shard < K + 1) × (shard < B.shards) }
        requires seat { own.old.name ≡ (B.names shard).name → own.old.table ≡ (B.names shard).table }
        requires owes { C.owes (B.names shard) call.old }
        ensures goes { Goes own.old own.new }
        ensures foreign { own.old.name ≢ (B.names shard).name → C.refuses call.old call.new result × (own.new ≡ own.old) }
        ensures keeps { C.keeps (B.names shard) call.old call.new result }
        ensures call { own.old.name ≡ (B.names shard).name → C.does (B.names shard) call.old call.new result own.old own.new }
    {
        call.on(rt, own, self.cache())
    }

    fn work<C: WorkerCall<D, T>, R: Wait>(
        &self,
        rt: &R,
        shard: u64,
        worker: &mut Worker,
        call: &C,
    ) -> C::Answer
        requires at { (K ≤ shard) × (shard < K + 1) × (shard < B.shards) }
        requires worker { IsWorkerAt (B.names shard) worker.old }
        ensures turn { C.does (B.names shard) call.now result worker.old worker.new }
    {
        call.on(rt, worker, self.cache())
    }
}

impl<
    B: ShardNaming,
    D: BlockDevice,
    T: Trail,
    const I: u64,
    const J: u64,
    const K: u64,
    const L: u64,
> Four<B, D, T, I, J, K, L> {
    #[inline(always)]
    fn ask<C: SeatCall<D, T>, R: Wait>(
        &self,
        rt: &R,
        shard: u64,
        own: &mut Seat,
        call: &mut C,
    ) -> C::Answer
        requires whole { (J ≡ I + 1) × (K ≡ J + 1) × (L ≡ K + 1) }
        requires at { (I ≤ shard) × (shard < L + 1) × (shard < B.shards) }
        requires seat { own.old.name ≡ (B.names shard).name → own.old.table ≡ (B.names shard).table }
        requires owes { C.owes (B.names shard) call.old }
        ensures goes { Goes own.old own.new }
        ensures foreign { own.old.name ≢ (B.names shard).name → C.refuses call.old call.new result × (own.new ≡ own.old) }
        ensures keeps { C.keeps (B.names shard) call.old call.new result }
        ensures call { own.old.name ≡ (B.names shard).name → C.does (B.names shard) call.old call.new result own.old own.new }
    {
        at_quarter!(self, shard, [J, K, L], ask(rt, shard, own, call))
    }

    fn work<C: WorkerCall<D, T>, R: Wait>(
        &self,
        rt: &R,
        shard: u64,
        worker: &mut Worker,
        call: &C,
    ) -> C::Answer
        requires whole { (J ≡ I + 1) × (K ≡ J + 1) × (L ≡ K + 1) }
        requires at { (I ≤ shard) × (shard < L + 1) × (shard < B.shards) }
        requires worker { IsWorkerAt (B.names shard) worker.old }
        ensures turn { C.does (B.names shard) call.now result worker.old worker.new }
    {
        at_quarter!(self, shard, [J, K, L], work(rt, shard, worker, call))
    }
}

impl<B: ShardNaming, D: BlockDevice, T: Trail> Sixteen<B, D, T> {
    #[inline(always)]
    pub(crate) fn ask<C: SeatCall<D, T>, R: Wait>(
        &self,
        rt: &R,
        shard: u64,
        own: &mut Seat,
        call: &mut C,
    ) -> C::Answer
        requires at { (shard < 16) × (shard < B.shards) }
        requires seat { own.old.name ≡ (B.names shard).name → own.old.table ≡ (B.names shard).table }
        requires owes { C.owes (B.names shard) call.old }
        ensures goes { Goes own.old own.new }
        ensures foreign { own.old.name ≢ (B.names shard).name → C.refuses call.old call.new result × (own.new ≡ own.old) }
        ensures keeps { C.keeps (B.names shard) call.old call.new result }
        ensures call { own.old.name ≡ (B.names shard).name → C.does (B.names shard) call.old call.new result own.old own.new }
    {
        at_quarter!(self, shard, [4, 8, 12], ask(rt, shard, own, call))
    }

    pub(crate) fn work<C: WorkerCall<D, T>, R: Wait>(
        &self,
        rt: &R,
        shard: u64,
        worker: &mut Worker,
        call: &C,
    ) -> C::Answer
        requires at { (shard < 16) × (shard < B.shards) }
        requires worker { IsWorkerAt (B.names shard) worker.old }
        ensures turn { C.does (B.names shard) call.now result worker.old worker.new }
    {
        at_quarter!(self, shard, [4, 8, 12], work(rt, shard, worker, call))
    }
}
