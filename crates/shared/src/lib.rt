#![tactic(auto)]
//! Files for many threads: one cache, whose state lies under one lock and its device under another. No call holds both.
//!
//! `cache` has the cache, `parts` makes what it is made of, and `close` takes it apart. `handle` is an open file, `files` has the calls
//! on files and handles, `reads`, `writes` and `seek` those on bytes and the cursor, `fsync` syncs. On their way `fills` reads a page that
//! they missed, `room` makes room, and `waits` has what they wait for. `ends` has each device call with the end of its request, of a
//! caller and of a worker. `brief` is the lock of the state, and `jobs` are on their way through the ring. `worker` is who works beside
//! the callers: `turns` has what one does in a turn, `workers` its loop, `evictor` the one that frees frames, and `signal` what wakes
//! one. `facts` is what the cache tells of itself, `standing` where its files stand on the device, and `disk` the device under its
//! lock. `shards` is a cache of many such caches.
//!
//! Floor: services.

mod brief;
pub mod cache;
mod close;
pub mod disk;
pub mod ends;
pub mod evictor;
mod facts;
mod files;
mod fills;
mod fsync;
pub mod handle;
mod jobs;
pub mod parts;
mod reads;
mod room;
mod seek;
pub mod shards;
mod signal;
mod standing;
pub mod turns;
mod waits;
pub mod worker;
mod workers;
pub mod writes;
