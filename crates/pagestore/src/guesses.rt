//! Guesses of the frames that pages have.

ghost use Rattle.std.specs.Prelude.{◌≡◌, ◌≤◌, IfSome, Some};
ghost use Rattle.frames.specs.Table.{owner_of};
ghost use Rattle.pc_types.specs.declared.limits.TheConstants.{MAX_FRAMES};

use frames::Frames;
use pc_types::FrameId;
use std::alloc::{AllocError, Global};
use std::marker::Model;

/// 2^32 less 2^32 over the golden ratio, as Linux's hashes take it.
const GOLDEN_RATIO: u64 = 0x61c8_8647;

/// For each page a frame that may be its own, found without a walk. A guess may be wrong: the frame's owner tells (decision 70).
#[derive(Drop)]
pub struct Guesses {
    // a power of two of places
    frames: Vec<FrameId>,
    mask: u64,
}

impl Model for Guesses {
    ghost use Rattle.std.specs.Prelude.{◌<◌, length};

    ghost Value = { Unit };

    ghost view = { λ g. tt };

    ghost invariant = { λ g. g.mask < length g.frames.items };
}

impl Guesses {
    /// As many places as there are frames, or more. Each guess is wrong at first.
    pub fn new(alloc: Global, frames: u64) -> Result<Guesses, AllocError>
        requires { frames ≤ MAX_FRAMES }
    {
        let count = frames.next_power_of_two();
        Ok(Guesses {
            frames: vec![in alloc; FrameId(0); count as usize]?,
            mask: count - 1,
        })
    }

    #[inline(always)]
    fn of(&self, file: u64, page: u64) -> FrameId {
        self.frames[place(file, page, self.mask)]
    }

    /// The frame of a page, where the guess is right: that spares a walk of the file's tree.
    #[inline(always)]
    pub fn frame(&self, frames: &Frames, file: u64, page: u64) -> Option<FrameId>
        ensures { IfSome result (λ frame. owner_of frames.now frame.0 ≡ Some (record { 0 = file }, record { 0 = page })) }
    {
        let guess = self.of(file, page);
        let (owner, number) = frames.owner(guess)?;
        if owner.0 == file && number.0 == page {
            Some(guess)
        } else {
            None
        }
    }

    /// Notes the frame that a page has.
    pub fn note(&mut self, file: u64, page: u64, frame: FrameId) {
        let at = place(file, page, self.mask);
        self.frames[at] = frame;
    }
}

/// The place of a page's guess: pages side by side have places side by side, and equal pages of two files do not.
#[inline(always)]
fn place(file: u64, page: u64, mask: u64) -> usize
    ensures { result ≤ mask }
{
    (page.wrapping_add(file.wrapping_mul(GOLDEN_RATIO)) & mask) as usize
}
