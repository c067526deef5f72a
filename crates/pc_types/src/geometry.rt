//! The sizes that a cache is made with.

ghost use Rattle.std.specs.Prelude.{◌≡◌, ◌+◌, ◌≤◌, ◌↔◌, IfOk, IsOk, IsOkUnless, IsTrue};
ghost use Rattle.pc_types.specs.Limits.{is_geometry, is_page_size};

use crate::limits::{
    CLEAN_FRAMES, MAX_BLOCKS, MAX_FRAMES, MAX_PAGE_SIZE, MIN_DIRTY_LIMIT, MIN_FRAMES, MIN_PAGE_SIZE,
};
use crate::refusal::Refusal;
use std::marker::Model;

/// Page size, frames, dirty limit and blocks, within their limits. A block has the size of a page.
#[derive(Clone, Copy, PartialEq, Eq, Debug)]
pub struct Geometry {
    page: u64,
    frames: u64,
    dirty_limit: u64,
    blocks: u64,
}

impl Model for Geometry {
    ghost use Rattle.std.specs.Prelude.{IsTrue};
    ghost use Rattle.pc_types.specs.Limits.{Sizes, is_geometry};

    ghost Value = { Sizes };

    ghost view = { λ g. record { page = g.page; frames = g.frames; dirty_limit = g.dirty_limit; blocks = g.blocks } };

    ghost invariant = { λ g. IsTrue (is_geometry (record { page = g.page; frames = g.frames; dirty_limit = g.dirty_limit; blocks = g.blocks })) };

    ghost inverse = { λ g. record { page = g.page; frames = g.frames; dirty_limit = g.dirty_limit; blocks = g.blocks } };
}

fn is_page_size(page: u64) -> bool
    ensures { result ≡ is_page_size page }
{
    page.is_power_of_two() && MIN_PAGE_SIZE <= page && page <= MAX_PAGE_SIZE
}

fn is_within_limits(page: u64, frames: u64, dirty_limit: u64, blocks: u64) -> bool
    ensures { result ≡ is_geometry (record { page = page; frames = frames; dirty_limit = dirty_limit; blocks = blocks }) }
{
    is_page_size(page)
        && MIN_FRAMES <= frames
        && frames <= MAX_FRAMES
        && MIN_DIRTY_LIMIT <= dirty_limit
        && dirty_limit <= frames - CLEAN_FRAMES
        && 1 <= blocks
        && blocks <= MAX_BLOCKS
}

impl Geometry {
    /// The geometry of these sizes: bytes of a page, frames, the most dirty pages, and blocks of the device.
    pub fn new(page: u64, frames: u64, dirty_limit: u64, blocks: u64) -> Result<Geometry, Refusal>
        ensures sizes { IfOk result (λ g. g ≡ record { page = page; frames = frames; dirty_limit = dirty_limit; blocks = blocks }) }
        ensures within { IsOk result ↔ IsTrue (is_geometry (record { page = page; frames = frames; dirty_limit = dirty_limit; blocks = blocks })) }
        ensures refused { IsOkUnless result Refusal.BadConfig }
    {
        if is_within_limits(page, frames, dirty_limit, blocks) {
            Ok(Geometry {
                page,
                frames,
                dirty_limit,
                blocks,
            })
        } else {
            Err(Refusal::BadConfig)
        }
    }

    /// Bytes of a page, and of a block.
    pub fn page(&self) -> u64
        ensures value { result ≡ self.now.page }
        ensures within { IsTrue (is_geometry self.now) }
        ensures least { MIN_PAGE_SIZE ≤ result }
        ensures most { result ≤ MAX_PAGE_SIZE }
    {
        self.page
    }

    /// Frames: how many pages the cache holds at most.
    pub fn frames(&self) -> u64
        ensures value { result ≡ self.now.frames }
        ensures least { MIN_FRAMES ≤ result }
        ensures most { result ≤ MAX_FRAMES }
    {
        self.frames
    }

    /// The most pages that writes may make dirty.
    pub fn dirty_limit(&self) -> u64
        ensures value { result ≡ self.now.dirty_limit }
        ensures least { MIN_DIRTY_LIMIT ≤ result }
        ensures most { result + CLEAN_FRAMES ≤ self.now.frames }
    {
        self.dirty_limit
    }

    /// Blocks of the device.
    pub fn blocks(&self) -> u64
        ensures value { result ≡ self.now.blocks }
        ensures least { 1 ≤ result }
        ensures most { result ≤ MAX_BLOCKS }
    {
        self.blocks
    }
}
