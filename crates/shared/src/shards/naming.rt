//! Which caches they are.

use deeds::naming::NamesDeeds;
use held::naming::Naming;
use std::marker::{Brand, PhantomData};

/// Names the caches of the shards: how many there are, and what `Naming` has to say of each. A program picks it once.
pub trait ShardNaming {
    ghost use Rattle.std.specs.Prelude.{ℕ};
    ghost use Rattle.shared.specs.ShardNames.{CacheNames};

    ghost shards: { ℕ };

    ghost names: { ℕ → CacheNames };
}

impl ShardNaming for Brand {
    ghost use Rattle.shared.specs.ShardNames.{no_names};

    ghost shards = { 0 };

    ghost names = { λ _. no_names };
}

/// Names the cache of shard K. What lies under a lock is known by its type alone, so each shard has a type of its own.
#[derive(Drop)]
pub struct Shard<B, const K: u64> {
    of: PhantomData<B>,
}

impl<B: ShardNaming, const K: u64> NamesDeeds for Shard<B, K> {
    ghost deeds = { (B.names K).deeds };

    ghost told = { (B.names K).told };
}

impl<B: ShardNaming, const K: u64> Naming for Shard<B, K> {
    ghost name = { (B.names K).name };

    ghost table = { (B.names K).table };

    ghost board = { (B.names K).board };

    ghost sizes = { (B.names K).sizes };

    ghost files = { (B.names K).files };

    ghost seats = { (B.names K).seats };

    ghost whole = { (B.names K).whole };

    ghost blocks = { (B.names K).blocks };

    ghost calls = { (B.names K).calls };
}
