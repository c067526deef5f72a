//! Where the caches of the shards lie: sixteen places, by fours.

ghost use Rattle.std.specs.Prelude.{◌≡◌, ◌<◌, ◌≤◌, ◌+◌, ℕ, ⊤, All, Some, if◌then◌else◌, nat_lt, vec_len};

use crate::cache::SharedCache;
use crate::shards::naming::{Shard, ShardNaming};
use blockdev::BlockDevice;
use held::naming::Naming;
use trail::Trail;

/// Caches of shards whose numbers follow one another.
pub(crate) trait Consecutive {
    /// The number of the first.
    ghost first: { ℕ };

    /// The number past that of the last.
    ghost end: { ℕ };

    /// They follow one another.
    ghost whole: { Type 0 };
}

/// The place of shard K: its cache, where there are so many shards.
#[derive(Drop)]
pub(crate) struct Place<B: ShardNaming, D: BlockDevice, T: Trail, const K: u64>
where
    Shard<B, K>: Naming,
{
    // one, or none. In memory of its own: a call by a reference into a larger value would owe that the value's size is small, whatever
    // D and T are. In a vector and not in a box, whose memory would be asked for after the parts are taken apart
    pub(crate) caches: Vec<SharedCache<Shard<B, K>, D, T>>,
    ghost there: { vec_len caches ≡ (if nat_lt K B.shards then 1 else 0) },
    ghost ringed: { All (λ c. (B.names K).ring ≡ Some c.ring) caches.items },
}

/// The places of four shards.
#[derive(Drop)]
pub(crate) struct Four<
    B: ShardNaming,
    D: BlockDevice,
    T: Trail,
    const I: u64,
    const J: u64,
    const K: u64,
    const L: u64,
>
where
    Shard<B, I>: Naming,
    Shard<B, J>: Naming,
    Shard<B, K>: Naming,
    Shard<B, L>: Naming,
{
    pub(crate) part_0: Place<B, D, T, I>,
    pub(crate) part_1: Place<B, D, T, J>,
    pub(crate) part_2: Place<B, D, T, K>,
    pub(crate) part_3: Place<B, D, T, L>,
}

/// The places of sixteen shards.
#[derive(Drop)]
pub(crate) struct Sixteen<B: ShardNaming, D: BlockDevice, T: Trail>
where
    Shard<B, 0>: Naming,
    Shard<B, 1>: Naming,
    Shard<B, 2>: Naming,
    Shard<B, 3>: Naming,
    Shard<B, 4>: Naming,
    Shard<B, 5>: Naming,
    Shard<B, 6>: Naming,
    Shard<B, 7>: Naming,
    Shard<B, 8>: Naming,
    Shard<B, 9>: Naming,
    Shard<B, 10>: Naming,
    Shard<B, 11>: Naming,
    Shard<B, 12>: Naming,
    Shard<B, 13>: Naming,
    Shard<B, 14>: Naming,
    Shard<B, 15>: Naming,
{
    pub(crate) part_0: Four<B, D, T, 0, 1, 2, 3>,
    pub(crate) part_1: Four<B, D, T, 4, 5, 6, 7>,
    pub(crate) part_2: Four<B, D, T, 8, 9, 10, 11>,
    pub(crate) part_3: Four<B, D, T, 12, 13, 14, 15>,
}

impl<B: ShardNaming, D: BlockDevice, T: Trail, const K: u64> Consecutive for Place<B, D, T, K> {
    ghost first = { K };

    ghost end = { K + 1 };

    ghost whole = { ⊤ };
}

impl<
    B: ShardNaming,
    D: BlockDevice,
    T: Trail,
    const I: u64,
    const J: u64,
    const K: u64,
    const L: u64,
> Consecutive for Four<B, D, T, I, J, K, L> {
    ghost first = { I };

    ghost end = { L + 1 };

    ghost whole = { (J ≡ I + 1) × (K ≡ J + 1) × (L ≡ K + 1) };
}

impl<B: ShardNaming, D: BlockDevice, T: Trail> Consecutive for Sixteen<B, D, T> {
    ghost first = { 0 };

    ghost end = { 16 };

    ghost whole = { ⊤ };
}

impl<B: ShardNaming, D: BlockDevice, T: Trail, const K: u64> Place<B, D, T, K> {
    /// Its cache.
    pub(crate) fn cache(&self) -> &SharedCache<Shard<B, K>, D, T>
        requires { K < B.shards }
        ensures ringed { (B.names K).ring ≡ Some result.now.ring }
    {
        let Some(cache) = self.caches.first() else {
            unreachable!()
        };
        cache
    }
}

/// A call in the part that the shard of this number stands in, by the numbers at which the others begin.
macro_rules! at_quarter {
    ($self:ident, $shard:ident, [$b:expr, $c:expr, $d:expr], $call:ident($($arg:expr),*)) => {
        if $shard < $b {
            $self.part_0.$call($($arg),*)
        } else if $shard < $c {
            $self.part_1.$call($($arg),*)
        } else if $shard < $d {
            $self.part_2.$call($($arg),*)
        } else {
            $self.part_3.$call($($arg),*)
        }
    };
}

pub(crate) use at_quarter;
