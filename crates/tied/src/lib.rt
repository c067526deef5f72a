#![tactic(auto)]
//! How the history of a shared cache is tied to its device: what the lock of the cache keeps, so that its history is
//! honest. There is no code here.
//!
//! `specs/Tied.antt` has what is kept. In `proofs`, `Covered`, `Tied` and `Kept` say that each step of the cache keeps it,
//! `Told` that such a history is honest, `Along` that its worlds are those of runs, `Calls` what a device call leaves as a
//! fate of its request, and `Tasks` which task a job of the cache is.
//!
//! Floor: driven.
