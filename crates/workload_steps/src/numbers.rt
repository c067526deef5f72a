//! A cheap generator of numbers, and bytes that it made.

ghost use Rattle.std.specs.Prelude.{◌≡◌, ◌+◌, ◌<◌, ◌≤◌, length};

use std::alloc::{AllocError, Global};

/// The splitmix64 of Steele, Lea and Flood: the same numbers in each run with the same seed and stream.
#[derive(Clone, Copy)]
pub struct Numbers {
    state: u64,
}

impl Numbers {
    pub fn new(seed: u32, stream: u64) -> Numbers {
        Numbers {
            state: u64::from(seed).wrapping_add(stream << 32),
        }
    }

    /// The next number.
    #[inline(always)]
    pub fn draw(&mut self) -> u64 {
        self.state = self.state.wrapping_add(0x9e37_79b9_7f4a_7c15);
        let mut word = self.state;
        word = (word ^ (word >> 30)).wrapping_mul(0xbf58_476d_1ce4_e5b9);
        word = (word ^ (word >> 27)).wrapping_mul(0x94d0_49bb_1331_11eb);
        word ^ (word >> 31)
    }

    /// A number below the end.
    #[inline(always)]
    pub fn below(&mut self, end: u64) -> u64
        requires { 0 < end }
        ensures { result < end }
    {
        self.draw() % end
    }

    /// Draws each of the bytes.
    fn fill(&mut self, bytes: &mut [u8]) {
        for byte in bytes.iter_mut() {
            *byte = (self.draw() % 256) as u8;
        }
    }
}

/// How many bytes there are.
pub const BYTES: u64 = 262_144;

/// Bytes of which parts are written.
#[derive(Drop)]
pub struct Bytes {
    bytes: Vec<u8>,
    ghost sized: { length bytes.items ≡ 262144 },
}

impl Bytes {
    /// Bytes that are drawn.
    pub fn draw(alloc: Global, numbers: &mut Numbers) -> Result<Bytes, AllocError> {
        let mut bytes = vec![in alloc; 0; BYTES as usize]?;
        numbers.fill(bytes.as_mut_slice());
        Ok(Bytes { bytes })
    }

    /// So many of the bytes.
    #[inline(always)]
    pub fn part(&self, start: usize, count: usize) -> &[u8]
        requires { start + count ≤ BYTES }
        ensures { length result.now ≡ count }
    {
        &self.bytes[start..start + count]
    }
}
