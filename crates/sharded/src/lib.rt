#![tactic(auto)]
//! What holds of many caches over one device, of which each has a part.
//!
//! It is given by definitions over those of `runs`. `specs/Shards.antt` has the shards, the one device and a step of one shard, and
//! `specs/Promises.antt` the theorems, which are the clauses of `every_sharded_run`: the steps of each shard are a run over its part of
//! the device, so what holds of every run holds of each shard. No order between the shards is claimed.
//!
//! Floor: beside.

pub mod promises;

pub use promises::every_sharded_run;
