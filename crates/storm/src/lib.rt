#![tactic(auto)]
//! A storm: many threads make calls of one cache, beside its workers, and the history of the cache is replayed.
//!
//! `run` runs a storm, which the crate `storm_text` has in words: `caller` has a thread that makes calls, `member` its seat, `steps`
//! which calls these are, and `crew` the workers. `odd` says which entry of a history is not as plain files answer, which are those of
//! `plain`. `shards` runs a storm over a cache of shards.
//!
//! Floor: programs.

mod caller;
mod crew;
mod member;
mod odd;
mod plain;
mod run;
mod shards;
mod steps;

pub use odd::Odd;
pub use run::{Aftermath, BLOCKS, Weather, run_storm, storm, storm_over};
pub use shards::{ShardAftermath, ShardPast, run_shards, shard_storm, shards_over};
