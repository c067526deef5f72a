//! What an fsync of a shard succeeds with.

ghost use Rattle.std.specs.Prelude.{◌≡◌, ◌<◌, ℕ};

use crate::disk::Durable;
use crate::shards::naming::ShardNaming;
use blockdev::BlockDevice;
use held::log::Slip;
use held::naming::Naming;
use std::marker::{Model, PhantomData};

/// The slip of an entry of a shard: all that its device had been told to write before was flushed since, and well. It is made of a
/// `Durable`, and so by an fsync alone.
#[derive(Drop)]
pub struct ShardDurable<B: ShardNaming, D: BlockDevice> {
    slip: Slip,
    of: PhantomData<(B, D)>,
}

impl<B: ShardNaming, D: BlockDevice> Model for ShardDurable<B, D> {
    ghost use Rattle.std.specs.Prelude.{◌≡◌, ◌<◌, ℕ};
    ghost use Rattle.held.specs.declared.log.Slip.{Slip};

    ghost Value = { Slip };

    ghost view = { λ d. d.slip };

    ghost invariant = { λ d. (k : ℕ) × (k < B.shards) × (d.slip.name ≡ (B.names k).name) };
}

impl<B: ShardNaming, D: BlockDevice> ShardDurable<B, D> {
    pub(crate) fn of<N: Naming>(durable: Durable<N, D>) -> ShardDurable<B, D>
        requires { (k : ℕ) × (k < B.shards) × (N.name ≡ (B.names k).name) }
        ensures { result ≡ durable }
    {
        ShardDurable {
            slip: durable.slip(),
            of: PhantomData,
        }
    }

    /// The slip of the entry.
    pub fn slip(&self) -> Slip
        ensures { result ≡ self.now }
    {
        self.slip
    }
}
