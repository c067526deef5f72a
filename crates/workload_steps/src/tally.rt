//! What calls have answered.

ghost use Rattle.std.specs.Prelude.{◌≤◌, length};

use std::fmt;
use std::simd::prelude::*;

/// How many of the bytes that were read are taken in at once.
const BLOCK: usize = 64;

/// How many calls were made, and a digest of all that they answered but for what depends on the other threads: an answer's place in
/// the history.
#[derive(Clone, Copy)]
pub struct Tally {
    pub calls: u64,
    pub digest: u64,
}

impl Tally {
    /// No call yet.
    pub const NONE: Tally = Tally {
        calls: 0,
        digest: 0x2545_f491_4f6c_dd1d,
    };

    /// Adds a call that answered a number.
    #[inline(always)]
    pub fn add(&mut self, answer: u64) {
        self.calls = self.calls.wrapping_add(1);
        self.digest = folded(self.digest, answer);
    }

    /// Adds a call that answered nothing but that it was done.
    pub fn add_done(&mut self) {
        self.add(1);
    }

    /// Adds a call that answered two numbers.
    pub fn add_both(&mut self, first: u64, second: u64) {
        self.add(first);
        self.digest = folded(self.digest, second);
    }

    /// Adds a read, which answered these bytes.
    pub fn add_read(&mut self, bytes: &[u8]) {
        self.add(bytes.len() as u64);
        self.digest = folded(self.digest, Lanes::of(bytes).sum());
    }

    /// Adds all calls of another.
    pub fn add_all(&mut self, other: Tally) {
        self.calls = self.calls.wrapping_add(other.calls);
        self.digest = folded(self.digest, other.digest);
    }
}

impl fmt::Display for Tally {
    fn fmt<W: fmt::Write>(&self, f: &mut fmt::Formatter<W>) -> fmt::Result {
        let Tally { calls, digest } = *self;
        write!(f, "{calls} calls, digest {digest:016x}")
    }
}

/// A sum with one word more.
#[inline(always)]
fn folded(sum: u64, word: u64) -> u64 {
    (sum.rotate_left(23) ^ word).wrapping_mul(0x9e37_79b9_7f4a_7c15)
}

/// Eight words side by side, as many as a block has: of each the sum over all blocks, and the sum of the sums after each block. The
/// second tells the blocks' order, and takes no more than another addition for two words, where a rotation takes four steps.
#[derive(Clone, Copy)]
struct Lanes {
    sums: u64x8,
    totals: u64x8,
}

impl Lanes {
    /// All of these bytes. Behind the last of them stand zeros.
    #[inline(always)]
    fn of(bytes: &[u8]) -> Lanes {
        let mut lanes = Lanes {
            sums: u64x8::splat(0),
            totals: u64x8::splat(0),
        };
        let (blocks, rest) = bytes.as_chunks();
        for block in blocks {
            lanes.add(block);
        }
        if !rest.is_empty() {
            lanes.add(&filled(rest));
        }
        lanes
    }

    #[inline(always)]
    fn add(&mut self, block: &[u8; BLOCK]) {
        let sums = self.sums + u64x8::from_le_bytes(u8x64::from_array(*block));
        self.sums = sums;
        self.totals += sums;
    }

    /// One number of all lanes. A word counts an odd number of times, so none of its bits is lost.
    #[inline(always)]
    fn sum(self) -> u64 {
        let weighed = self.totals + self.totals + self.sums;
        let mut sum = 0;
        for lane in weighed.to_array() {
            sum = folded(sum, lane);
        }
        sum
    }
}

/// A block that begins with these bytes.
fn filled(bytes: &[u8]) -> [u8; BLOCK]
    requires { length bytes.now ≤ 64 }
{
    let mut block = [0; BLOCK];
    block[..bytes.len()].copy_from_slice(bytes);
    block
}
