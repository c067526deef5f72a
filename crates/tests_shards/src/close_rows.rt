//! The end of a row's cache.

ghost use Rattle.std.specs.Prelude.{◌≡◌, All, length};
ghost use Rattle.shared.specs.ShardSeats.{AreSeated};
ghost use Rattle.shared.specs.ShardWorkers.{AreWorkers};

use crate::caller::Tested;
use crate::gated_trail::GatedTrail;
use blockdev::{BlockDevice, ScriptDevice};
use shared::shards::close::Closed;
use shared::shards::naming::ShardNaming;
use shared::shards::seat::ShardSeat;
use shared::shards::worker::ShardWorker;
use std::alloc::Global;
use std::marker::{Model, PhantomData};
use std::mem::drop;
use std::sync::Wait;
use trail::first_odd;

/// What a shard of a row leaves.
pub(crate) type Left<'a> = Closed<ScriptDevice, GatedTrail<'a>>;

/// The cache's own workers.
#[derive(Drop)]
pub(crate) struct Own<B: ShardNaming> {
    pub(crate) worker: ShardWorker,
    of: PhantomData<B>,
}

impl<B: ShardNaming> Model for Own<B> {
    ghost use Rattle.std.specs.Prelude.{◌≡◌, List, length};
    ghost use Rattle.shared.specs.ShardWorkers.{AreWorkers};
    ghost use Rattle.shared.specs.declared.worker.Worker.{Worker};

    ghost Value = { List Worker };

    ghost view = { λ o. o.worker };

    ghost invariant = { λ o. (length o.worker ≡ B.shards) × AreWorkers B.names o.worker };
}

impl<B: ShardNaming> Own<B> {
    pub(crate) fn of(worker: ShardWorker) -> Own<B>
        requires count { length worker ≡ B.shards }
        requires works { AreWorkers B.names worker }
    {
        Own {
            worker,
            of: PhantomData,
        }
    }
}

/// Closes the cache by its callers' seats. Answers whether that went well, each shard's history is one of plain files, and each device was
/// flushed as often as these numbers say, where there are any.
pub(crate) fn ends_well<'a, B: ShardNaming, R: Wait>(
    rt: &R,
    alloc: Global,
    cache: Tested<'a, B>,
    own: Own<B>,
    seats: Vec<ShardSeat>,
    flushes: &[u64],
) -> bool
    requires { All (AreSeated B.names) seats.items }
{
    let Some(left) = closes(rt, cache, own, seats) else {
        return false;
    };
    let is_so = are_plain(alloc, &left) && (flushes.is_empty() || are_flushed(&left, flushes));
    drop(left);
    is_so
}

/// What the shards leave where the cache is closed by these seats.
pub(crate) fn closes<'a, B: ShardNaming, R: Wait>(
    rt: &R,
    cache: Tested<'a, B>,
    own: Own<B>,
    seats: Vec<ShardSeat>,
) -> Option<Vec<Left<'a>>>
    requires { All (AreSeated B.names) seats.items }
{
    match cache.close(rt, own.worker, seats) {
        Ok(left) => Some(left),
        Err((_, cache, worker, seats)) => {
            drop(cache);
            drop(worker);
            drop(seats);
            None
        }
    }
}

/// Whether each history is one of plain files.
pub(crate) fn are_plain(alloc: Global, left: &[Left<'_>]) -> bool {
    left.iter().all(|shard| matches!(first_odd(alloc, &shard.trail.trail), Ok(None)))
}

/// Whether each device was flushed so often.
fn are_flushed(left: &[Left<'_>], flushes: &[u64]) -> bool {
    let counts = left.iter().map(|shard| shard.device.flushes());
    left.len() == flushes.len() && counts.zip(flushes).all(|(count, wanted)| count == *wanted)
}
