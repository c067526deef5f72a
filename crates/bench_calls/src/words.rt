//! The rows of the error word: the calls, over a ring of words and their samples.

use crate::form::{Call, Form, Timed};
use crate::loops::each_on;
use errseq::ErrWord;
use pc_types::ErrCode;
use std::alloc::Global;

/// Words of the ring.
const RING: usize = 1_000;

/// How often a round goes over the ring.
const PASSES: usize = 1_000;

/// By how many looks a time is divided.
pub const LOOKS: u64 = (RING * PASSES) as u64;

/// A word and the sample of its one handle.
#[derive(Clone, Copy)]
pub struct Watched {
    word: ErrWord,
    since: ErrWord,
}

/// A look that is told nothing.
pub struct Check;

impl Call for Check {
    type On = Watched;

    #[inline(always)]
    fn make(watched: &mut Watched, _index: u64) -> Option<u64> {
        let told = watched.word.check(watched.since);
        Some(u64::from(told.unwrap_or(1)))
    }
}

/// A recording, and the look that is told of it.
pub struct SetAndAdvance;

impl Call for SetAndAdvance {
    type On = Watched;

    #[inline(always)]
    fn make(watched: &mut Watched, _index: u64) -> Option<u64> {
        watched.word.set(ErrCode::IO);
        let told = watched.word.check_and_advance(&mut watched.since);
        Some(u64::from(told.unwrap_or(0)))
    }
}

#[derive(Clone, Copy)]
pub enum WordRow {
    CheckNothing,
    SetAndAdvance,
}

impl WordRow {
    pub const ALL: [WordRow; 2] = [WordRow::CheckNothing, WordRow::SetAndAdvance];
}

impl Timed for WordRow {
    type On = Vec<Watched>;

    fn label(self) -> &'static str {
        match self {
            WordRow::CheckNothing => "error word: check, nothing new",
            WordRow::SetAndAdvance => "error word: set, then check_and_advance",
        }
    }

    fn count(self) -> u64 {
        LOOKS
    }

    /// A ring of words on which nothing was recorded.
    fn start(self, alloc: Global, _order: &[u64]) -> Option<Vec<Watched>> {
        let fresh = Watched {
            word: ErrWord(0),
            since: ErrWord(0),
        };
        vec![in alloc; fresh; RING].ok()
    }

    fn run<F: Form>(self, ring: &mut Vec<Watched>, _order: &[u64]) -> Option<u64> {
        match self {
            WordRow::CheckNothing => each_on::<F, Check>(ring.as_mut_slice(), PASSES),
            WordRow::SetAndAdvance => each_on::<F, SetAndAdvance>(ring.as_mut_slice(), PASSES),
        }
    }
}
