#![tactic(auto)]
//! What every legal history leaves of a cache: its pages are in order, its files within their limits, and a cache at rest has room for
//! any one call. There is no code here.
//!
//! `specs/Orderly.antt` has the order of pages, blocks and handles. In `proofs`, `Orderly` says that every step keeps it, `FileSizes` how
//! long and how many files get, `Calls` how far reads and writes go, `Enough` that a cache at rest has room, and `Legal` all of it after a
//! legal history.
//!
//! Floor: driven.
