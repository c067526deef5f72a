//! Rows with workers of two shards.

ghost use Rattle.std.specs.Prelude.{◌<◌, All, IfSome};
ghost use Rattle.shared.specs.ShardSeats.{AreSeated};
ghost use Rattle.shared.specs.Workers.{IsOwnFailure};

use crate::caller::{Caller, Opened, Tested};
use crate::close_rows::Own;
use blockdev::OpenGate;
use shared::handle::FailedWrite;
use shared::shards::naming::ShardNaming;
use shared::shards::seat::ShardSeat;
use shared::shards::worker::ShardWorker;
use shared::turns::Flushed;
use std::marker::{Model, PhantomData};
use std::sync::Wait;
use std::thread;
use std::thread::Threads;

/// How many seats there are: of two callers, and of three workers in each of two shards.
pub(crate) const SEATS: u64 = 8;

/// How many pages a caller writes: four times as many as a shard has frames.
const PAGES: u8 = 192;

/// How often it does.
const ROUNDS: u8 = 3;

/// A worker at each shard of the cache that B names, by a seat of that.
#[derive(Drop)]
pub(crate) struct Hand<B: ShardNaming> {
    pub(crate) worker: ShardWorker,
    of: PhantomData<B>,
}

impl<B: ShardNaming> Model for Hand<B> {
    ghost use Rattle.std.specs.Prelude.{◌≡◌, List, length, map};
    ghost use Rattle.shared.specs.ShardSeats.{AreSeated};
    ghost use Rattle.shared.specs.ShardWorkers.{AreWorkers};
    ghost use Rattle.shared.specs.Workers.{seat_of};
    ghost use Rattle.shared.specs.declared.worker.Worker.{Worker};

    ghost Value = { List Worker };

    ghost view = { λ h. h.worker };

    ghost invariant = { λ h. (length h.worker ≡ B.shards) × AreWorkers B.names h.worker × AreSeated B.names (map seat_of h.worker) };
}

impl<B: ShardNaming> Hand<B> {
    /// A worker by the last of these seats.
    pub(crate) fn hired(
        cache: &Tested<'_, B>,
        own: &mut Own<B>,
        seats: &mut Vec<ShardSeat>,
    ) -> Option<Hand<B>>
        requires { All (AreSeated B.names) seats.old.items }
        ensures { All (AreSeated B.names) seats.new.items }
    {
        let seat = seats.pop()?;
        match cache.worker(&mut own.worker, seat) {
            Ok(worker) => Some(Hand {
                worker,
                of: PhantomData,
            }),
            Err(_) => None,
        }
    }

    /// Puts its seat to these. Answers whether there was room.
    pub(crate) fn comes_back(self, seats: &mut Vec<ShardSeat>) -> bool
        requires { All (AreSeated B.names) seats.old.items }
        ensures { All (AreSeated B.names) seats.new.items }
    {
        seats.push(self.worker.into_seat()).is_ok()
    }

    /// Begins to write a page of the shard. Answers whether the job lies in the shard's ring.
    pub(crate) fn begins<R: Wait>(&mut self, rt: &R, cache: &Tested<'_, B>, shard: u64) -> bool
        requires { shard < B.shards }
    {
        let begun = cache.flusher_turn(rt, &OpenGate, shard, &mut self.worker);
        matches!(begun, Ok(Flushed::Pushed(_, _)))
    }

    /// Ends a write of the shard. Answers its failure, where it failed.
    #[tactic(auto, using(crate::proofs::Hands::own_failed))]
    pub(crate) fn ends<R: Wait>(
        &mut self,
        rt: &R,
        cache: &Tested<'_, B>,
        shard: u64,
    ) -> Option<FailedWrite>
        requires { shard < B.shards }
        ensures { IfSome result (IsOwnFailure (B.names shard).name (B.names shard).board) }
    {
        match cache.io_turn(rt, &OpenGate, shard, &mut self.worker) {
            Some(done) => done.failed,
            None => None,
        }
    }

    /// Carries out the shard's jobs, till it is told to stop.
    fn carries_out<R: Wait>(&mut self, rt: &R, cache: &Tested<'_, B>, shard: u64)
        requires { shard < B.shards }
    {
        cache.io_worker(rt, &OpenGate, shard, &mut self.worker);
    }

    /// Writes the shard's pages back, till it is told to stop.
    fn writes_back<R: Wait>(&mut self, rt: &R, cache: &Tested<'_, B>, shard: u64)
        requires { shard < B.shards }
    {
        cache.flusher(rt, &OpenGate, shard, &mut self.worker);
    }

    /// Lets the shard's pages go, till it is told to stop.
    fn lets_go<R: Wait>(&mut self, rt: &R, cache: &Tested<'_, B>, shard: u64)
        requires { shard < B.shards }
    {
        cache.evictor(rt, &OpenGate, shard, &mut self.worker);
    }
}

/// The workers of a shard.
#[derive(Drop)]
struct Crew<B: ShardNaming> {
    shard: u64,
    io_worker: Hand<B>,
    flusher: Hand<B>,
    evictor: Hand<B>,
    ghost there: { shard < B.shards },
}

impl<B: ShardNaming> Crew<B> {
    /// Workers by the last three of the seats.
    fn hired(
        cache: &Tested<'_, B>,
        own: &mut Own<B>,
        seats: &mut Vec<ShardSeat>,
        shard: u64,
    ) -> Option<Crew<B>>
        requires { All (AreSeated B.names) seats.old.items }
        ensures { All (AreSeated B.names) seats.new.items }
    {
        if shard >= cache.shards() {
            return None;
        }
        let io_worker = Hand::hired(cache, own, seats)?;
        let flusher = Hand::hired(cache, own, seats)?;
        let evictor = Hand::hired(cache, own, seats)?;
        Some(Crew {
            shard,
            io_worker,
            flusher,
            evictor,
        })
    }

    /// Puts the seats to these. Answers whether there was room.
    fn comes_back(self, seats: &mut Vec<ShardSeat>) -> bool
        requires { All (AreSeated B.names) seats.old.items }
        ensures { All (AreSeated B.names) seats.new.items }
    {
        let Crew {
            io_worker,
            flusher,
            evictor,
            ..
        } = self;
        let first = io_worker.comes_back(seats);
        let second = flusher.comes_back(seats);
        let third = evictor.comes_back(seats);
        first && second && third
    }
}

impl<B: ShardNaming + Send + Sync> Crew<B> {
    /// All three work, each in a thread of its own, till they are told to stop.
    fn works<R: Threads + Wait + Sync>(&mut self, rt: &R, cache: &Tested<'_, B>) {
        let Crew {
            shard,
            io_worker,
            flusher,
            evictor,
        } = self;
        let shard = *shard;
        thread::join(
            rt,
            ||
                requires { shard < B.shards }
            { io_worker.carries_out(rt, cache, shard) },
            ||
                requires { shard < B.shards }
            { two_work(rt, cache, shard, flusher, evictor) },
        );
    }
}

/// A flusher and an evictor of a shard, till they are told to stop.
fn two_work<B: ShardNaming + Send + Sync, R: Threads + Wait + Sync>(
    rt: &R,
    cache: &Tested<'_, B>,
    shard: u64,
    flusher: &mut Hand<B>,
    evictor: &mut Hand<B>,
)
    requires { shard < B.shards }
{
    thread::join(
        rt,
        ||
            requires { shard < B.shards }
        { flusher.writes_back(rt, cache, shard) },
        ||
            requires { shard < B.shards }
        { evictor.lets_go(rt, cache, shard) },
    );
}

/// Workers of two shards write pages back and let them go, while a caller in each writes more than the shard holds. They stop when they
/// are told to, and their seats come back.
pub(crate) fn keep_up<B: ShardNaming + Send + Sync, R: Threads + Wait + Sync>(
    rt: &R,
    cache: &Tested<'_, B>,
    own: &mut Own<B>,
    seats: &mut Vec<ShardSeat>,
) -> bool
    requires { All (AreSeated B.names) seats.old.items }
    ensures { All (AreSeated B.names) seats.new.items }
{
    let (Some(mut first), Some(mut second)) = (Caller::last_of(seats), Caller::last_of(seats))
    else {
        return false;
    };
    let (Some(mut one), Some(mut other)) = (
        Crew::hired(cache, own, seats, 0),
        Crew::hired(cache, own, seats, 2),
    ) else {
        return false;
    };
    let (_, is_kept) = thread::join(
        rt,
        || crews_work(rt, cache, &mut one, &mut other),
        || write_and_stop(rt, cache, &mut first, &mut second),
    );
    let is_one_back = one.comes_back(seats);
    let is_other_back = other.comes_back(seats);
    let is_first_back = first.comes_back(seats);
    let is_second_back = second.comes_back(seats);
    is_kept && is_one_back && is_other_back && is_first_back && is_second_back
}

/// The workers of two shards, till they are told to stop.
fn crews_work<B: ShardNaming + Send + Sync, R: Threads + Wait + Sync>(
    rt: &R,
    cache: &Tested<'_, B>,
    one: &mut Crew<B>,
    other: &mut Crew<B>,
) {
    thread::join(rt, || one.works(rt, cache), || other.works(rt, cache));
}

/// Two callers write in two shards, each in a thread of its own, and then the workers are told to stop.
fn write_and_stop<B: ShardNaming + Send + Sync, R: Threads + Wait + Sync>(
    rt: &R,
    cache: &Tested<'_, B>,
    first: &mut Caller<B>,
    second: &mut Caller<B>,
) -> bool {
    let (one, other) = thread::join(
        rt,
        || overfills(rt, cache, first, 0),
        || overfills(rt, cache, second, 2),
    );
    cache.stop(rt);
    one && other
}

/// Writes more pages than the shard holds, over and over, and reads each round back.
fn overfills<B: ShardNaming, R: Wait>(
    rt: &R,
    cache: &Tested<'_, B>,
    caller: &mut Caller<B>,
    shard: u64,
) -> bool {
    let Some(mut file) = caller.makes(rt, cache, shard) else {
        return false;
    };
    for round in 0..ROUNDS {
        let is_written = writes_all(rt, cache, caller, &file, round);
        if !is_written || !reads_all(rt, cache, caller, &file) {
            return false;
        }
    }
    caller.syncs(rt, cache, &mut file)
}

/// Writes each page, another one first in each round.
fn writes_all<B: ShardNaming, R: Wait>(
    rt: &R,
    cache: &Tested<'_, B>,
    caller: &mut Caller<B>,
    file: &Opened<B>,
    round: u8,
) -> bool {
    for turn in 0..PAGES {
        let page = turn.wrapping_add(round) % PAGES;
        if !caller.writes_page(rt, cache, file, page) {
            return false;
        }
    }
    true
}

fn reads_all<B: ShardNaming, R: Wait>(
    rt: &R,
    cache: &Tested<'_, B>,
    caller: &mut Caller<B>,
    file: &Opened<B>,
) -> bool {
    for page in 0..PAGES {
        if !caller.reads_page(rt, cache, file, page) {
            return false;
        }
    }
    true
}
