//! Numbers that are drawn.

ghost use Rattle.std.specs.Prelude.{◌<◌};

use rand_core::{Rng, SeedableRng};
use rand_xoshiro::SplitMix64;

/// The numbers that follow from a seed.
#[derive(Drop)]
pub(crate) struct Chance {
    source: SplitMix64,
}

impl Chance {
    /// Those of one round of a seed.
    pub(crate) fn new(seed: u64, round: u64) -> Chance {
        let mut first = SplitMix64::seed_from_u64(round);
        let mixed = first.next_u64() ^ seed;
        Chance {
            source: SplitMix64::seed_from_u64(mixed),
        }
    }

    pub(crate) fn draw(&mut self) -> u64 {
        self.source.next_u64()
    }

    /// A number below the end.
    pub(crate) fn below(&mut self, end: u64) -> u64
        requires { 0 < end }
        ensures { result < end }
    {
        self.draw() % end
    }

    pub(crate) fn fill(&mut self, bytes: &mut [u8]) {
        self.source.fill_bytes(bytes);
    }
}
