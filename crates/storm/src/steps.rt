//! Which calls a caller makes, one after the other.

ghost use Rattle.std.specs.Prelude.{◌≡◌, ◌+◌, ◌<◌, ◌≤◌, ◌%◌};
ghost use Rattle.storm.specs.Rounds.{place_of};

use rand_core::{Rng, SeedableRng};
use rand_xoshiro::SplitMix64;

/// How many files there are.
pub const FILES: u64 = 4;

/// The most bytes of a read or a write.
pub const MAX_COUNT: usize = 192;

/// Reads, writes and truncations lie below this many bytes, so that they meet.
const REACH: u64 = 2_560;

/// The kinds of calls.
#[derive(Clone, Copy, PartialEq, Eq, Debug)]
pub enum Kind {
    Read,
    Write,
    Append,
    Truncate,
    Fsync,
}

/// One call. The offset is where a read or a write begins, and the size that a truncation gives.
#[derive(Clone, Copy, PartialEq, Eq, Debug)]
pub struct Step {
    pub kind: Kind,
    pub file: usize,
    pub offset: u64,
    pub count: usize,
}

/// The steps of one caller.
#[derive(Drop)]
pub struct Steps {
    chance: SplitMix64,
    // the place of the first step's kind
    first: u64,
    ghost fits: { first < 5 },
}

impl Steps {
    /// The steps of a caller in the storm of this seed.
    pub fn new(seed: u64, caller: u64) -> Steps {
        let mut chance = SplitMix64::seed_from_u64(seed.wrapping_add(caller << 32));
        let first = chance.next_u64() % 5;
        Steps { chance, first }
    }

    /// The step of this number, counted from 0. The first five are of the five kinds, each once.
    pub fn step(&mut self, number: u64) -> Step
        ensures kind { number < 5 → place_of result.kind ≡ (self.old.first + number) % 5 }
        ensures file { result.file < FILES }
        ensures count { result.count ≤ MAX_COUNT }
        ensures first { self.new.first ≡ self.old.first }
    {
        let word = self.chance.next_u64();
        let kind = if number < 5 {
            kind_at((self.first + number) % 5)
        } else {
            some_kind(word % 32)
        };
        Step {
            kind,
            file: (word >> 8) as usize % FILES as usize,
            offset: (word >> 16) % REACH,
            count: (word >> 32) as usize % (MAX_COUNT + 1),
        }
    }

    /// One of so many shards.
    pub fn shard(&mut self, shards: u64) -> u64
        requires { 0 < shards }
        ensures shard { result < shards }
        ensures first { self.new.first ≡ self.old.first }
    {
        self.chance.next_u64() % shards
    }

    /// Makes up the bytes of a write.
    pub fn fill(&mut self, bytes: &mut [u8]) {
        self.chance.fill_bytes(bytes);
    }
}

/// The kinds by their places in a round of five.
fn kind_at(place: u64) -> Kind
    requires { place < 5 }
    ensures { place_of result ≡ place }
{
    match place {
        0 => Kind::Read,
        1 => Kind::Write,
        2 => Kind::Append,
        3 => Kind::Truncate,
        _ => Kind::Fsync,
    }
}

/// A kind by one of 32 lots: mostly reads and writes.
fn some_kind(lot: u64) -> Kind {
    match lot {
        0..=13 => Kind::Read,
        14..=23 => Kind::Write,
        24..=27 => Kind::Append,
        28..=30 => Kind::Truncate,
        _ => Kind::Fsync,
    }
}
