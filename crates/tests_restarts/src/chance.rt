//! Numbers that are drawn.

ghost use Rattle.std.specs.Prelude.{◌<◌};

use rand_core::{Rng, SeedableRng};
use rand_xoshiro::SplitMix64;

/// The numbers that follow from a seed.
#[derive(Drop)]
pub struct Chance {
    source: SplitMix64,
}

impl Chance {
    pub fn new(seed: u64) -> Chance {
        Chance {
            source: SplitMix64::seed_from_u64(seed),
        }
    }

    /// A number below the end.
    pub fn below(&mut self, end: u64) -> u64
        requires { 0 < end }
        ensures { result < end }
    {
        self.source.next_u64() % end
    }

    pub fn fill(&mut self, bytes: &mut [u8]) {
        self.source.fill_bytes(bytes);
    }
}
