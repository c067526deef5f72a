//! What a workload has at hand: numbers, bytes to write, and room for bytes that it reads.

ghost use Rattle.std.specs.Prelude.{◌≡◌, length};

use crate::desk::MOST;
use crate::numbers::Numbers;
use std::alloc::{AllocError, Global};

/// How many bytes to write there are: a write takes some of them, from any place on.
const BYTES: usize = 2 * MOST;

#[derive(Drop)]
pub struct Tools {
    pub numbers: Numbers,
    pub room: Vec<u8>,
    bytes: Vec<u8>,
    ghost sized: { length bytes.items ≡ 131072 },
}

impl Tools {
    pub fn new(alloc: Global, seed: u64) -> Result<Tools, AllocError> {
        let mut numbers = Numbers::new(seed);
        let mut bytes = vec![in alloc; 0; BYTES]?;
        for byte in bytes.iter_mut() {
            *byte = (numbers.draw() % 256) as u8;
        }
        Ok(Tools {
            numbers,
            room: vec![in alloc; 0; MOST]?,
            bytes,
        })
    }

    /// So many random bytes, `MOST` at most.
    #[inline(always)]
    pub fn some(&mut self, count: usize) -> &[u8] {
        let at = self.numbers.below(MOST as u64) as usize;
        &self.bytes[at..at + count.min(MOST)]
    }
}
