//! A storm over a cache of shards: many threads make calls in all shards, beside workers of each, and the history of each is replayed.
//!
//! `run` runs one. `plan` says what its callers are to do, `member` has their seats, `caller` a thread that makes calls, `crew` the
//! workers of a shard, and `sources` what the shards are made of. `past` tells what a shard's history comes to.

mod caller;
mod crew;
mod member;
mod past;
mod plan;
mod run;
mod sources;

pub use past::ShardPast;
pub use run::{ShardAftermath, run_shards, shard_storm, shards_over};
