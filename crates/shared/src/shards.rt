//! A cache of many locks: 1 to 16 caches, each with its lock and its device, as one.
//!
//! File F stands in shard F mod n, as that shard's file F / n. A thread that works in one shard waits for no other shard's lock and no
//! other shard's device. `naming` has what a program names, `parts` what the cache is made of, `cache` the cache, `place` the place of a
//! shard in it, `seat` and `handle` what a caller has. `call` hands a call down to the cache of its shard. `files`, `bytes`, `sync`, `errors`
//! and `standing` have the calls of callers, `worker` and `work` the workers and theirs, and `close` the end. `config` says what a cache may
//! be made of, `rows` deals out the seats, `denied` is why a file was not made, and `durable` what an fsync succeeds with.

mod bytes;
pub mod cache;
mod call;
pub mod close;
mod config;
pub mod denied;
mod durable;
mod errors;
mod files;
pub mod handle;
pub mod naming;
pub mod parts;
mod place;
mod rows;
pub mod seat;
mod standing;
pub mod sync;
mod work;
pub mod worker;
