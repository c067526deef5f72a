//! The end of a cache of shards.

ghost use Rattle.std.specs.Bool.{OnFalse, OnTrue};
ghost use Rattle.std.specs.Prelude.{◌≡◌, ◌<◌, ◌≤◌, ◌+◌, ◌-◌, ◌⊎◌, [], ℕ, All, IfErr, IfOk, List, Some, length, map, min, slice_get, take, vec_capacity, vec_len};
ghost use Rattle.held.specs.Shown.{SeatSeen};
ghost use Rattle.pc_types.specs.declared.refusal.Refusal.TheVariants.{Memory, Stranger};
ghost use Rattle.shared.specs.ShardEnds.{HasAll, HasEndedFrom, IsClosed, IsRoomFor};
ghost use Rattle.shared.specs.ShardSeats.{AreSeated, IsSeated, part};
ghost use Rattle.shared.specs.ShardWorkers.{AllFrom, AreWorkers};
ghost use Rattle.shared.specs.declared.worker.Worker.{Worker};

use crate::shards::cache::ShardedCache;
use crate::shards::naming::ShardNaming;
use crate::shards::place::{Four, Place, Sixteen};
use crate::shards::rows::take_last;
use crate::shards::seat::ShardSeat;
use crate::shards::worker::ShardWorker;
use crate::worker::Worker;
use blockdev::BlockDevice;
use cachecore::CacheCore;
use held::log::Seat;
use pc_types::Refusal;
use std::alloc::{AllocError, Global};
use std::sync::Wait;
use trail::Trail;

/// What a shard's cache leaves: its trail, its core and its device.
#[derive(Drop)]
pub struct Closed<D, T> {
    pub trail: T,
    pub core: CacheCore,
    pub device: D,
}

impl<B: ShardNaming, D: BlockDevice, T: Trail + Drop> ShardedCache<B, D, T> {
    /// The trail, the core and the device of each shard, in order, where all callers' seats come back. What is left in the shards' rings is
    /// carried out and ended first, by the cache's own workers. Refused by `Stranger` where a seat is missing or of another cache, and by
    /// `Memory`; cache, workers and seats come back then as they were.
    pub fn close<R: Wait>(
        self,
        rt: &R,
        own: ShardWorker,
        seats: Vec<ShardSeat>,
    ) -> Result<Vec<Closed<D, T>>, (Refusal, ShardedCache<B, D, T>, ShardWorker, Vec<ShardSeat>)>
        requires own { (length own ≡ B.shards) × AreWorkers B.names own }
        requires seats { All (AreSeated B.names) seats.items }
        ensures refused { IfErr result (λ e. ((e.0 ≡ Stranger) ⊎ (e.0 ≡ Memory)) × (e.2 ≡ own) × (e.3 ≡ seats)) }
        ensures foreign { IfErr result (λ e. e.0 ≡ Stranger → ((k : ℕ) → k < B.shards → (B.names k).seats ≡ vec_len seats + 1) → All (IsSeated B.shards B.names) seats.items → ⊥) }
        ensures stranger { (((k : ℕ) → k < B.shards → (B.names k).seats ≡ vec_len seats + 1) → All (IsSeated B.shards B.names) seats.items → ⊥) → IfErr result (λ e. e.0 ≡ Stranger) }
        ensures came { IfOk result (λ _. ((k : ℕ) → k < B.shards → (B.names k).seats ≡ vec_len seats + 1) × All (IsSeated B.shards B.names) seats.items) }
        ensures count { IfOk result (λ r. vec_len r ≡ B.shards) }
        ensures closed { IfOk result (λ r. AllFrom (λ k c. (w : Worker) × (slice_get own k ≡ Some w) × IsClosed (B.names k) w (map (λ s. part s k) seats.items) (T.records c.trail) (T.cache c.trail) c.core.state (D.told c.device)) 0 r.items) }
    {
        if !self.has_all(&seats) {
            return Err((Refusal::Stranger, self, own, seats));
        }
        let Ok(ends) = Ends::new(self.alloc, self.shards, self.callers) else {
            return Err((Refusal::Memory, self, own, seats));
        };
        Ok(self.end_all(rt, own, seats, ends))
    }

    /// Ends all shards, which have all their seats back.
    fn end_all<R: Wait>(
        self,
        rt: &R,
        own: ShardWorker,
        mut seats: Vec<ShardSeat>,
        mut ends: Ends<D, T>,
    ) -> Vec<Closed<D, T>>
        requires own { (length own ≡ B.shards) × AreWorkers B.names own }
        requires seats { All (AreSeated B.names) seats.items }
        requires callers { (k : ℕ) → k < B.shards → (B.names k).seats ≡ vec_len seats + 1 }
        requires came { All (IsSeated B.shards B.names) seats.items }
        requires room { IsRoomFor B.shards (vec_len seats) ends }
        ensures count { vec_len result ≡ B.shards }
        ensures closed { AllFrom (λ k c. (w : Worker) × (slice_get own k ≡ Some w) × IsClosed (B.names k) w (map (λ s. part s k) seats.items) (T.records c.trail) (T.cache c.trail) c.core.state (D.told c.device)) 0 result.items }
    {
        let ShardedCache { caches, .. } = self;
        let ShardWorker { mut workers, .. } = own;
        caches.close(rt, &mut workers, &mut seats, &mut ends);
        ends.closed
    }
}

impl<B: ShardNaming, D: BlockDevice, T: Trail> ShardedCache<B, D, T> {
    /// Whether so many callers came back as have seats, each with a seat at each shard.
    fn has_all(&self, seats: &Vec<ShardSeat>) -> bool
        ensures yes { OnTrue result (((k : ℕ) → k < B.shards → (B.names k).seats ≡ vec_len seats.now + 1) × All (IsSeated B.shards B.names) seats.now.items) }
        ensures no { OnFalse result (((k : ℕ) → k < B.shards → (B.names k).seats ≡ vec_len seats.now + 1) → All (IsSeated B.shards B.names) seats.now.items → ⊥) }
    {
        seats.len() as u64 == self.callers && seats.iter().all(|seat| self.seats(seat))
    }
}

impl<B: ShardNaming, D: BlockDevice, T: Trail + Drop, const K: u64> Place<B, D, T, K> {
    /// Ends the caches of these shards, where there are so many, with the last seats of each caller. What they leave goes before what those
    /// left that follow.
    fn close<R: Wait>(
        self,
        rt: &R,
        workers: &mut Vec<Worker>,
        seats: &mut Vec<ShardSeat>,
        ends: &mut Ends<D, T>,
    )
        requires ended { (own : List Worker) × (rows : List (List SeatSeen)) × HasAll B.shards B.names own rows × HasEndedFrom (K + 1) B.shards B.names T.records T.cache D.told own rows workers.old.items seats.old.items ends.old }
        ensures ended { (own : List Worker) (rows : List (List SeatSeen)) → HasAll B.shards B.names own rows → HasEndedFrom (K + 1) B.shards B.names T.records T.cache D.told own rows workers.old.items seats.old.items ends.old → HasEndedFrom K B.shards B.names T.records T.cache D.told own rows workers.new.items seats.new.items ends.new }
    {
        let Place { mut caches } = self;
        let Some(cache) = caches.pop() else {
            return;
        };
        let Some(own) = workers.pop() else {
            unreachable!()
        };
        let Some(desk) = ends.columns.pop() else {
            unreachable!()
        };
        let column = take_last(seats, K, desk);
        let Ok((trail, core, device)) = cache.close(rt, own, column) else {
            unreachable!()
        };
        let closed = Closed {
            trail,
            core,
            device,
        };
        let Ok(()) = ends.closed.insert(0, closed) else {
            unreachable!()
        };
    }
}

impl<
    B: ShardNaming,
    D: BlockDevice,
    T: Trail + Drop,
    const I: u64,
    const J: u64,
    const K: u64,
    const L: u64,
> Four<B, D, T, I, J, K, L> {
    /// Ends the caches of these shards, where there are so many, with the last seats of each caller. What they leave goes before what those
    /// left that follow.
    // the last first
    fn close<R: Wait>(
        self,
        rt: &R,
        workers: &mut Vec<Worker>,
        seats: &mut Vec<ShardSeat>,
        ends: &mut Ends<D, T>,
    )
        requires whole { (J ≡ I + 1) × (K ≡ J + 1) × (L ≡ K + 1) }
        requires ended { (own : List Worker) × (rows : List (List SeatSeen)) × HasAll B.shards B.names own rows × HasEndedFrom (L + 1) B.shards B.names T.records T.cache D.told own rows workers.old.items seats.old.items ends.old }
        ensures ended { (own : List Worker) (rows : List (List SeatSeen)) → HasAll B.shards B.names own rows → HasEndedFrom (L + 1) B.shards B.names T.records T.cache D.told own rows workers.old.items seats.old.items ends.old → HasEndedFrom I B.shards B.names T.records T.cache D.told own rows workers.new.items seats.new.items ends.new }
    {
        let Four {
            part_0,
            part_1,
            part_2,
            part_3,
        } = self;
        part_3.close(rt, workers, seats, ends);
        part_2.close(rt, workers, seats, ends);
        part_1.close(rt, workers, seats, ends);
        part_0.close(rt, workers, seats, ends);
    }
}

impl<B: ShardNaming, D: BlockDevice, T: Trail + Drop> Sixteen<B, D, T> {
    /// Ends the caches of these shards, where there are so many, with the last seats of each caller. What they leave goes before what those
    /// left that follow.
    // the last first
    fn close<R: Wait>(
        self,
        rt: &R,
        workers: &mut Vec<Worker>,
        seats: &mut Vec<ShardSeat>,
        ends: &mut Ends<D, T>,
    )
        requires ended { (own : List Worker) × (rows : List (List SeatSeen)) × HasAll B.shards B.names own rows × HasEndedFrom 16 B.shards B.names T.records T.cache D.told own rows workers.old.items seats.old.items ends.old }
        ensures ended { (own : List Worker) (rows : List (List SeatSeen)) → HasAll B.shards B.names own rows → HasEndedFrom 16 B.shards B.names T.records T.cache D.told own rows workers.old.items seats.old.items ends.old → HasEndedFrom 0 B.shards B.names T.records T.cache D.told own rows workers.new.items seats.new.items ends.new }
    {
        let Sixteen {
            part_0,
            part_1,
            part_2,
            part_3,
        } = self;
        part_3.close(rt, workers, seats, ends);
        part_2.close(rt, workers, seats, ends);
        part_1.close(rt, workers, seats, ends);
        part_0.close(rt, workers, seats, ends);
    }
}

/// What the ends of the shards want: room for their seats, and for what they leave.
#[derive(Drop)]
pub(crate) struct Ends<D, T> {
    columns: Vec<Vec<Seat>>,
    closed: Vec<Closed<D, T>>,
}

impl<D: Drop, T: Drop> Ends<D, T> {
    /// For so many shards and callers.
    fn new(alloc: Global, shards: u64, callers: u64) -> Result<Ends<D, T>, AllocError>
        ensures { IfOk result (IsRoomFor shards callers) }
    {
        let closed = Vec::with_capacity(alloc, shards as usize)?;
        let mut columns = Vec::with_capacity(alloc, shards as usize)?;
        for _ in 0..shards {
            columns.push_reserved(Vec::with_capacity(alloc, callers as usize)?);
        }
        Ok(Ends { columns, closed })
    }
}
