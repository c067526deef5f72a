//! What a round is played with.

ghost use Rattle.std.specs.Prelude.{◌<◌, ◌≤◌};

use crate::chance::Chance;
use blockdev::Fault;
use pc_types::limits::{CLEAN_FRAMES, MIN_DIRTY_LIMIT, MIN_FRAMES, MIN_PAGE_SIZE};
use pc_types::{Geometry, Refusal};

/// The most pages at each end of a file that are written.
const MOST_PAGES: u64 = 96;

/// The most files that are written.
const MOST_FILES: u64 = 4;

/// Which device calls fail.
#[derive(Clone, Copy, Debug)]
pub enum Failing {
    /// One of so many, by chance, and none where this is 0.
    OneOf(u64),
    /// The one of this number, counted from 0.
    At(u64, Fault),
}

/// What a round is played with.
#[derive(Clone, Copy, Debug)]
pub struct Plan {
    /// The seed of all rounds, and the number of this one. What it is played with follows from the two.
    pub seed: u64,
    pub round: u64,
    pub geometry: Geometry,
    /// How many files are written, and how many pages at each end of them.
    pub files: u64,
    pub pages: u64,
    pub failing: Failing,
    /// How many calls are made.
    pub calls: u64,
    /// The call whose write or truncation the plain files leave out, if there is one: a difference that is to be found.
    pub forgets: Option<u64>,
}

impl Plan {
    /// The plan of a round. It is never refused: the sizes that are drawn are within their limits.
    pub fn new(seed: u64, round: u64) -> Result<Plan, Refusal> {
        let mut chance = Chance::new(seed, round);
        let page = MIN_PAGE_SIZE << chance.below(9);
        let frames = frames(&mut chance);
        let dirty_limit = dirty_limit(&mut chance, frames);
        let files = chance.below(MOST_FILES).saturating_add(1);
        let pages = chance.below(MOST_PAGES - 3).saturating_add(4);
        let blocks = blocks(&mut chance, files, pages);
        Ok(Plan {
            seed,
            round,
            geometry: Geometry::new(page, frames, dirty_limit, blocks)?,
            files,
            pages,
            failing: Failing::OneOf(one_of(&mut chance)),
            calls: chance.below(201).saturating_add(100),
            forgets: None,
        })
    }

    /// The numbers that the calls are drawn by.
    pub(crate) fn chance(&self) -> Chance {
        Chance::new(!self.seed, self.round)
    }
}

/// Frames: mostly few.
fn frames(chance: &mut Chance) -> u64 {
    let most = match chance.below(8) {
        0 => 1_953,
        1 | 2 => 209,
        3 => 1,
        _ => 17,
    };
    chance.below(most).saturating_add(MIN_FRAMES)
}

/// A dirty limit: the least, the most, or any between.
fn dirty_limit(chance: &mut Chance, frames: u64) -> u64 {
    let most = frames.saturating_sub(CLEAN_FRAMES).max(MIN_DIRTY_LIMIT);
    match chance.below(4) {
        0 => MIN_DIRTY_LIMIT,
        1 => most,
        _ => MIN_DIRTY_LIMIT + chance.below(most - MIN_DIRTY_LIMIT + 1),
    }
}

/// Blocks: a few now and then, and else as many as pages may be written.
fn blocks(chance: &mut Chance, files: u64, pages: u64) -> u64 {
    let all = files.saturating_mul(pages).saturating_mul(2);
    match chance.below(6) {
        0 => chance.below(24).saturating_add(1),
        1 => all / 3 + 1,
        _ => all.max(1),
    }
}

/// Of how many device calls one fails: of two, of many, or none.
fn one_of(chance: &mut Chance) -> u64 {
    match chance.below(6) {
        0 | 1 => 0,
        2 => 2,
        3 => 8,
        4 => 40,
        _ => 200,
    }
}
