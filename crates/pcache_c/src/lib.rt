#![tactic(auto)]
//! The page cache for C, as a static library; `pcache.h` beside this folder has its functions for C.
//!
//! C keeps a cache in a `struct pcache`, made of zero bytes. A call answers a count or a number, or `-(number)` of its refusal
//! (`pc_types::Refusal`): `answers`. `held` is that struct, `cache` what it holds, `store` the device below. `caches` has the calls on a whole cache,
//! `files` those on files and handles, and `jobs` those by which C makes the device's calls.
//!
//! Floor: programs.

mod answers;
mod cache;
mod caches;
mod files;
mod held;
mod jobs;
mod store;
