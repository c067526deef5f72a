#![tactic(auto)]
//! The error word of a file, after Linux's errseq_t: one word by which each of many handles learns of a failed write.
//!
//! Each call's word is exact, bit for bit, and over every list of recordings, looks and opens a look answers what the
//! record of these events answers: `answers_as_recorded`.
//!
//! `word` has the word and its calls (`specs/Word.antt`: its bits), `recording` what a proof keeps of one recording
//! (`specs/Recorded.antt`: the word that stands for a list of them), `law` the law (`specs/Events.antt`: the record of
//! events). `specs/Samples.antt` says what a handle's sample knows; a structure over many words builds on it.
//!
//! Floor: core.

pub mod law;
pub mod recording;
pub mod word;

pub use law::answers_as_recorded;
pub use recording::Recording;
pub use word::ErrWord;
