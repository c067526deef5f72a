#![tactic(auto)]
//! The tests of `blockmap`, `frames`, `idalloc`, `mapping` and `writeback`. They are a crate of their own, since a crate with tests
//! is proved once more beside them.
//!
//! Floor: outside.

#[cfg(test)]
mod block_tests;
#[cfg(test)]
mod checks;
#[cfg(test)]
mod frame_tests;
#[cfg(test)]
mod id_tests;
#[cfg(test)]
mod page_tests;
#[cfg(test)]
mod request_tests;
#[cfg(test)]
mod sync_tests;
