//! What a workload's calls answered, as one number.

ghost use Rattle.std.specs.Prelude.{◌≤◌, length};

use pc_types::Refusal;
use std::simd::prelude::*;
use xarray::Found;

/// How many of the bytes that were read are taken in at once.
const BLOCK: usize = 64;

/// What stands for no value: no entry has so large a one.
const NONE: u64 = 1 << 63;

/// A fold of all answers in their order, how many calls there were, and how many of them were refused.
#[derive(Clone, Copy)]
pub struct Digest {
    sum: u64,
    calls: u64,
    refused: u64,
}

impl Digest {
    pub fn new() -> Digest {
        Digest {
            sum: 0xcbf2_9ce4_8422_2325,
            calls: 0,
            refused: 0,
        }
    }

    pub fn sum(&self) -> u64 {
        self.sum
    }

    pub fn calls(&self) -> u64 {
        self.calls
    }

    pub fn refused(&self) -> u64 {
        self.refused
    }

    /// A call that answered a number.
    #[inline(always)]
    pub fn add(&mut self, answer: u64) {
        self.calls = self.calls.wrapping_add(1);
        self.sum = folded(self.sum, answer);
    }

    /// A call that answered a number, or was refused.
    #[inline(always)]
    pub fn add_answer(&mut self, answer: Result<u64, Refusal>) {
        match answer {
            Ok(answer) => self.add(answer),
            Err(refusal) => self.refuse(refusal),
        }
    }

    /// A call that answered nothing but that it was done, or was refused.
    #[inline(always)]
    pub fn add_done(&mut self, answer: Result<(), Refusal>) {
        match answer {
            Ok(()) => self.add(1),
            Err(refusal) => self.refuse(refusal),
        }
    }

    /// A call that opened a file, and where its reads begin.
    pub fn add_opened(&mut self, file: u64, cursor: u64) {
        self.add(file);
        self.sum = folded(self.sum, cursor);
    }

    /// A call that answered the value of an entry.
    #[inline(always)]
    pub fn add_value(&mut self, value: Option<u64>) {
        self.add(value.unwrap_or(NONE));
    }

    /// A call that found an entry.
    #[inline(always)]
    pub fn add_found(&mut self, found: Option<Found>) {
        match found {
            Some(found) => {
                self.add(found.first);
                self.sum = folded(folded(self.sum, found.value), u64::from(found.order));
            }
            None => self.add(NONE),
        }
    }

    /// A call that read these bytes.
    pub fn add_read(&mut self, bytes: &[u8]) {
        self.add(bytes.len() as u64);
        self.sum = folded(self.sum, Lanes::of(bytes).sum());
    }

    /// A call that was refused.
    pub fn refuse(&mut self, refusal: Refusal) {
        self.refused = self.refused.wrapping_add(1);
        self.add(refusal.number().wrapping_neg());
        if let Refusal::Io(code) = refusal {
            self.sum = folded(self.sum, u64::from(code.code()));
        }
    }

    /// All that another digest has.
    pub fn join(&mut self, other: Digest) {
        self.sum = folded(self.sum, other.sum);
        self.calls = self.calls.wrapping_add(other.calls);
        self.refused = self.refused.wrapping_add(other.refused);
    }
}

/// A sum with one word more.
#[inline(always)]
fn folded(sum: u64, word: u64) -> u64 {
    (sum.rotate_left(23) ^ word).wrapping_mul(0x9e37_79b9_7f4a_7c15)
}

/// Eight words side by side, as many as a block has: of each the sum over all blocks, and the sum of the sums after each block. The
/// second tells the blocks' order, and takes no more than another addition for two words, where a rotation takes four steps.
#[derive(Clone, Copy)]
struct Lanes {
    sums: u64x8,
    totals: u64x8,
}

impl Lanes {
    /// All of these bytes. Behind the last of them stand zeros.
    #[inline(always)]
    fn of(bytes: &[u8]) -> Lanes {
        let mut lanes = Lanes {
            sums: u64x8::splat(0),
            totals: u64x8::splat(0),
        };
        let (blocks, rest) = bytes.as_chunks();
        for block in blocks {
            lanes.add(block);
        }
        if !rest.is_empty() {
            lanes.add(&filled(rest));
        }
        lanes
    }

    #[inline(always)]
    fn add(&mut self, block: &[u8; BLOCK]) {
        let sums = self.sums + u64x8::from_le_bytes(u8x64::from_array(*block));
        self.sums = sums;
        self.totals += sums;
    }

    /// One number of all lanes. A word counts an odd number of times, so none of its bits is lost.
    #[inline(always)]
    fn sum(self) -> u64 {
        let weighed = self.totals + self.totals + self.sums;
        let mut sum = 0;
        for lane in weighed.to_array() {
            sum = folded(sum, lane);
        }
        sum
    }
}

/// A block that begins with these bytes.
fn filled(bytes: &[u8]) -> [u8; BLOCK]
    requires { length bytes.now ≤ 64 }
{
    let mut block = [0; BLOCK];
    block[..bytes.len()].copy_from_slice(bytes);
    block
}
