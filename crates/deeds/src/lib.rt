#![tactic(auto)]
//! Deeds of blocks: tokens without bytes that tie the state of a cache to its device, which lie under two locks.
//!
//! Who begins a request of a block gets the block's deed; only who has it may make the device call; the end of the request
//! takes it back. So each block is in one hand at any time.
//!
//! `views` has what the passes know, under one rule, and `steps` what is done with them. `sides` has the two sides for the two locks
//! and what goes between them, also before a type names it, and `naming` says which deeds they are.
//!
//! Floor: driven.

pub mod naming;
pub mod sides;
mod steps;
pub mod views;
