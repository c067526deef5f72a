#![tactic(auto)]
//! One error word for each of 64 files, which one recorder writes and any thread polls, without a lock and without waiting.
//!
//! Whatever threads run beside it, a poll answers nothing exactly where the word that it loaded is the pass's sample,
//! and a code only where something was recorded past what the pass was told. It answers one always then, as long as the
//! counter of 51 bits didn't come round since: no schedule loses an error.
//!
//! `board` has the board and its calls, `recorder` what alone records, `tokens` the pass of a handle and the receipt of
//! a recording. `views` says what each seat of the table knows, with the rule over all of them (`specs/Rules.antt`),
//! and `steps` makes the atomic steps.
//!
//! Floor: core.

pub mod board;
pub mod recorder;
mod steps;
pub mod tokens;
pub mod views;

pub use board::Board;
pub use recorder::Recorder;
pub use tokens::{Pass, Receipt};
