//! A cache of shards.

ghost use Rattle.std.specs.Bool.{OnFalse, OnTrue};
ghost use Rattle.std.specs.Prelude.{◌≡◌, ◌<◌, ◌≤◌, ◌+◌, ◌-◌, [], ℕ, IfErr, IfOk, length, min, true, vec_capacity, vec_len};
ghost use Rattle.shared.specs.ShardNames.{names_at};
ghost use Rattle.shared.specs.ShardPlaced.{IsRoom};
ghost use Rattle.shared.specs.ShardSeats.{IsSeated, is_of};
ghost use Rattle.shared.specs.ShardWorkers.{AllFrom, AreWorkers, IsFirstOf, IsWorkerAt};

use crate::cache::SharedCache;
use crate::shards::naming::{Shard, ShardNaming};
use crate::shards::parts::{OneParts, ShardParts};
use crate::shards::place::{Consecutive, Four, Place, Sixteen, at_quarter};
use crate::shards::seat::ShardSeat;
use crate::shards::worker::ShardWorker;
use crate::worker::Worker;
use blockdev::BlockDevice;
use held::log::Seat;
use held::naming::Naming;
use std::alloc::{AllocError, Global};
use trail::Trail;

/// How many shards a cache may have.
pub const MAX_SHARDS: u64 = 16;

/// A cache of shards.
#[derive(Drop)]
pub struct ShardedCache<B: ShardNaming, D: BlockDevice, T: Trail>
where
    Shard<B, 0>: Naming,
    Shard<B, 1>: Naming,
    Shard<B, 2>: Naming,
    Shard<B, 3>: Naming,
    Shard<B, 4>: Naming,
    Shard<B, 5>: Naming,
    Shard<B, 6>: Naming,
    Shard<B, 7>: Naming,
    Shard<B, 8>: Naming,
    Shard<B, 9>: Naming,
    Shard<B, 10>: Naming,
    Shard<B, 11>: Naming,
    Shard<B, 12>: Naming,
    Shard<B, 13>: Naming,
    Shard<B, 14>: Naming,
    Shard<B, 15>: Naming,
{
    pub(crate) shards: u64,
    // how many callers have seats
    pub(crate) callers: u64,
    pub(crate) alloc: Global,
    pub(crate) caches: Sixteen<B, D, T>,
    ghost counted: { shards ≡ B.shards },
    ghost some: { 0 < shards },
    ghost few: { shards ≤ 16 },
    ghost seated: { (k : ℕ) → k < shards → (B.names k).seats ≡ callers + 1 },
}

impl<B: ShardNaming, D: BlockDevice, T: Trail + Drop> ShardedCache<B, D, T> {
    /// The cache of these parts, and its own workers, one at each shard, which make the others and close the cache. Threads share the cache,
    /// and one keeps the workers. The parts were made before, so that a caller could pick B; they come back where memory is wanting.
    pub fn of(
        alloc: Global,
        parts: ShardParts<D, T>,
    ) -> Result<(ShardedCache<B, D, T>, ShardWorker), ShardParts<D, T>>
        requires shards { B.shards ≡ length parts }
        requires named { (k : ℕ) → k < length parts → B.names k ≡ names_at parts k }
        ensures count { IfOk result (λ r. length r.1 ≡ B.shards) }
        ensures own { IfOk result (λ r. AreWorkers B.names r.1) }
        ensures first { IfOk result (λ r. AllFrom (λ k w. IsFirstOf (B.names k) w) 0 r.1) }
        ensures back { IfErr result (λ p. p ≡ parts) }
    {
        let Ok(rooms) = Rooms::<SixteenRooms<B, D, T>>::new::<Sixteen<B, D, T>, B, D, T>(
            alloc,
            parts.count(),
        ) else {
            return Err(parts);
        };
        let ShardParts { mut parts, callers } = parts;
        let shards = parts.len() as u64;
        let mut workers = rooms.workers;
        let caches = Sixteen::<B, D, T>::of(alloc, rooms.caches, &mut parts, &mut workers);
        let cache = ShardedCache {
            shards,
            callers,
            alloc,
            caches,
        };
        let own = ShardWorker {
            workers,
            desk: rooms.desk,
        };
        Ok((cache, own))
    }
}

impl<B: ShardNaming, D: BlockDevice, T: Trail> ShardedCache<B, D, T> {
    /// How many shards it has.
    pub fn shards(&self) -> u64
        ensures count { result ≡ B.shards }
        ensures few { (0 < result) × (result ≤ 16) }
    {
        self.shards
    }

    /// Whether the caller has a seat at each shard.
    pub(crate) fn seats(&self, seat: &ShardSeat) -> bool
        ensures yes { OnTrue result (IsSeated B.shards B.names seat.now) }
        ensures no { OnFalse result (IsSeated B.shards B.names seat.now → ⊥) }
    {
        self.seats_each(seat) && seat.seats.len() as u64 == self.shards
    }

    /// Whether the caller has a seat at each shard, and maybe more.
    fn seats_each(&self, seat: &ShardSeat) -> bool
        ensures yes { OnTrue result ((k : ℕ) → k < B.shards → is_of (B.names k).name seat.now k ≡ true) }
        ensures no { OnFalse result (((k : ℕ) → k < B.shards → is_of (B.names k).name seat.now k ≡ true) → ⊥) }
    {
        for shard in 0..self.shards {
            if !seat.is_of(self.name_of(shard), shard) {
                return false;
            }
        }
        true
    }

    /// The name of a shard's cache, or 0 where there is no such shard.
    pub fn name_of(&self, shard: u64) -> u64
        ensures name { shard < B.shards → result ≡ (B.names shard).name }
        ensures none { B.shards ≤ shard → result ≡ 0 }
    {
        if shard < self.shards {
            self.caches.name(shard)
        } else {
            0
        }
    }
}

/// Room for the caches of four shards.
#[derive(Drop)]
pub(crate) struct FourRooms<
    B: ShardNaming,
    D: BlockDevice,
    T: Trail,
    const I: u64,
    const J: u64,
    const K: u64,
    const L: u64,
>
where
    Shard<B, I>: Naming,
    Shard<B, J>: Naming,
    Shard<B, K>: Naming,
    Shard<B, L>: Naming,
{
    room_0: Vec<SharedCache<Shard<B, I>, D, T>>,
    room_1: Vec<SharedCache<Shard<B, J>, D, T>>,
    room_2: Vec<SharedCache<Shard<B, K>, D, T>>,
    room_3: Vec<SharedCache<Shard<B, L>, D, T>>,
}

type SixteenRooms<B, D, T> = (
    FourRooms<B, D, T, 0, 1, 2, 3>,
    FourRooms<B, D, T, 4, 5, 6, 7>,
    FourRooms<B, D, T, 8, 9, 10, 11>,
    FourRooms<B, D, T, 12, 13, 14, 15>,
);

/// Room for the caches of so many shards, and for a worker of each.
#[derive(Drop)]
struct Rooms<R> {
    caches: R,
    workers: Vec<Worker>,
    desk: Vec<Seat>,
}

impl<R> Rooms<R> {
    fn new<C: Made<B, D, T, R>, B: ShardNaming, D: BlockDevice, T: Trail>(
        alloc: Global,
        shards: u64,
    ) -> Result<Rooms<R>, AllocError>
        ensures caches { IfOk result (λ r. C.fits shards r.caches) }
        ensures workers { IfOk result (λ r. (r.workers.items ≡ []) × (shards ≤ vec_capacity r.workers)) }
        ensures desk { IfOk result (λ r. (r.desk.items ≡ []) × (shards ≤ vec_capacity r.desk)) }
    {
        let workers = Vec::with_capacity(alloc, shards as usize)?;
        let desk = Vec::with_capacity(alloc, shards as usize)?;
        let caches = C::make_room(alloc, shards)?;
        Ok(Rooms {
            caches,
            workers,
            desk,
        })
    }
}

impl<B: ShardNaming, D: BlockDevice, T: Trail, const K: u64> Place<B, D, T, K> {
    fn name(&self, shard: u64) -> u64
        requires at { (K ≤ shard) × (shard < K + 1) × (shard < B.shards) }
        ensures { result ≡ (B.names shard).name }
    {
        self.cache().name()
    }
}

impl<
    B: ShardNaming,
    D: BlockDevice,
    T: Trail,
    const I: u64,
    const J: u64,
    const K: u64,
    const L: u64,
> Four<B, D, T, I, J, K, L> {
    fn name(&self, shard: u64) -> u64
        requires whole { (J ≡ I + 1) × (K ≡ J + 1) × (L ≡ K + 1) }
        requires at { (I ≤ shard) × (shard < L + 1) × (shard < B.shards) }
        ensures { result ≡ (B.names shard).name }
    {
        at_quarter!(self, shard, [J, K, L], name(shard))
    }
}

impl<B: ShardNaming, D: BlockDevice, T: Trail> Sixteen<B, D, T> {
    fn name(&self, shard: u64) -> u64
        requires at { (shard < 16) × (shard < B.shards) }
        ensures { result ≡ (B.names shard).name }
    {
        at_quarter!(self, shard, [4, 8, 12], name(shard))
    }
}

/// Caches of these shards that are made of their parts, in the room R for them.
pub(crate) trait Made<B: ShardNaming, D: BlockDevice, T: Trail, R>: Consecutive {
    /// There is room for the caches of so many shards, and nothing in it.
    ghost fits: { ℕ → R → Type 0 };

    fn make_room(alloc: Global, shards: u64) -> Result<R, AllocError>
        ensures { IfOk result (fits shards) };

    /// The parts are the last, where there are so many shards. The caches' own workers go before those of the shards that follow.
    fn of(alloc: Global, room: R, parts: &mut Vec<OneParts<D, T>>, own: &mut Vec<Worker>) -> Self
        requires whole { Self.whole }
        requires room { fits B.shards room }
        requires left { vec_len parts.old ≡ min B.shards Self.end }
        requires named { (k : ℕ) → k < vec_len parts.old → B.names k ≡ names_at parts.old.items k }
        requires count { vec_len own.old ≡ B.shards - Self.end }
        requires spare { B.shards ≤ vec_capacity own.old }
        requires own { AllFrom (λ k w. IsWorkerAt (B.names k) w) Self.end own.old.items }
        requires first { AllFrom (λ k w. IsFirstOf (B.names k) w) Self.end own.old.items }
        ensures left { vec_len parts.new ≡ min B.shards Self.first }
        ensures named { (k : ℕ) → k < vec_len parts.new → B.names k ≡ names_at parts.new.items k }
        ensures count { vec_len own.new ≡ B.shards - Self.first }
        ensures spare { B.shards ≤ vec_capacity own.new }
        ensures own { AllFrom (λ k w. IsWorkerAt (B.names k) w) Self.first own.new.items }
        ensures first { AllFrom (λ k w. IsFirstOf (B.names k) w) Self.first own.new.items };
}

impl<B: ShardNaming, D: BlockDevice, T: Trail + Drop, const K: u64> Made<
    B,
    D,
    T,
    Vec<SharedCache<Shard<B, K>, D, T>>,
> for Place<B, D, T, K> {
    ghost fits = { λ shards room. IsRoom K shards room };

    fn make_room(
        alloc: Global,
        shards: u64,
    ) -> Result<Vec<SharedCache<Shard<B, K>, D, T>>, AllocError> {
        if K < shards {
            Vec::with_capacity(alloc, 1)
        } else {
            Ok(Vec::new(alloc))
        }
    }

    fn of(
        alloc: Global,
        mut room: Vec<SharedCache<Shard<B, K>, D, T>>,
        parts: &mut Vec<OneParts<D, T>>,
        own: &mut Vec<Worker>,
    ) -> Place<B, D, T, K> {
        if parts.len() as u64 <= K {
            return Place { caches: room };
        }
        let Some(one) = parts.pop() else {
            unreachable!()
        };
        let (cache, worker) = SharedCache::<Shard<B, K>, D, T>::of(alloc, one.into_parts());
        room.push_reserved(cache);
        let Ok(()) = own.insert(0, worker) else {
            unreachable!()
        };
        Place { caches: room }
    }
}

impl<
    B: ShardNaming,
    D: BlockDevice,
    T: Trail + Drop,
    const I: u64,
    const J: u64,
    const K: u64,
    const L: u64,
> Made<B, D, T, FourRooms<B, D, T, I, J, K, L>> for Four<B, D, T, I, J, K, L> {
    ghost fits = { λ shards room. IsRoom I shards room.room_0 × IsRoom J shards room.room_1 × IsRoom K shards room.room_2 × IsRoom L shards room.room_3 };

    fn make_room(alloc: Global, shards: u64) -> Result<FourRooms<B, D, T, I, J, K, L>, AllocError> {
        Ok(FourRooms {
            room_0: Place::<B, D, T, I>::make_room(alloc, shards)?,
            room_1: Place::<B, D, T, J>::make_room(alloc, shards)?,
            room_2: Place::<B, D, T, K>::make_room(alloc, shards)?,
            room_3: Place::<B, D, T, L>::make_room(alloc, shards)?,
        })
    }

    // the last first
    fn of(
        alloc: Global,
        room: FourRooms<B, D, T, I, J, K, L>,
        parts: &mut Vec<OneParts<D, T>>,
        own: &mut Vec<Worker>,
    ) -> Four<B, D, T, I, J, K, L> {
        let part_3 = Place::of(alloc, room.room_3, parts, own);
        let part_2 = Place::of(alloc, room.room_2, parts, own);
        let part_1 = Place::of(alloc, room.room_1, parts, own);
        let part_0 = Place::of(alloc, room.room_0, parts, own);
        Four {
            part_0,
            part_1,
            part_2,
            part_3,
        }
    }
}

impl<B: ShardNaming, D: BlockDevice, T: Trail + Drop> Made<B, D, T, SixteenRooms<B, D, T>>
    for Sixteen<B, D, T> {
    ghost fits = { λ shards room. ⟦<Four<B, D, T, 0, 1, 2, 3> as Made<B, D, T, FourRooms<B, D, T, 0, 1, 2, 3>>>⟧.fits shards room.0 × ⟦<Four<B, D, T, 4, 5, 6, 7> as Made<B, D, T, FourRooms<B, D, T, 4, 5, 6, 7>>>⟧.fits shards room.1 × ⟦<Four<B, D, T, 8, 9, 10, 11> as Made<B, D, T, FourRooms<B, D, T, 8, 9, 10, 11>>>⟧.fits shards room.2 × ⟦<Four<B, D, T, 12, 13, 14, 15> as Made<B, D, T, FourRooms<B, D, T, 12, 13, 14, 15>>>⟧.fits shards room.3 };

    fn make_room(alloc: Global, shards: u64) -> Result<SixteenRooms<B, D, T>, AllocError> {
        Ok((
            Four::<B, D, T, 0, 1, 2, 3>::make_room(alloc, shards)?,
            Four::<B, D, T, 4, 5, 6, 7>::make_room(alloc, shards)?,
            Four::<B, D, T, 8, 9, 10, 11>::make_room(alloc, shards)?,
            Four::<B, D, T, 12, 13, 14, 15>::make_room(alloc, shards)?,
        ))
    }

    // the last first
    fn of(
        alloc: Global,
        room: SixteenRooms<B, D, T>,
        parts: &mut Vec<OneParts<D, T>>,
        own: &mut Vec<Worker>,
    ) -> Sixteen<B, D, T> {
        let (room_0, room_1, room_2, room_3) = room;
        let part_3 = Four::of(alloc, room_3, parts, own);
        let part_2 = Four::of(alloc, room_2, parts, own);
        let part_1 = Four::of(alloc, room_1, parts, own);
        let part_0 = Four::of(alloc, room_0, parts, own);
        Sixteen {
            part_0,
            part_1,
            part_2,
            part_3,
        }
    }
}
