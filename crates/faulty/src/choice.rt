//! Which calls fail, and how.

ghost use Rattle.std.specs.Prelude.{◌<◌, ◌≤◌, ◌%◌};

use blockdev::{Fault, FaultEffect};
use pc_types::ErrCode;
use rand_core::{Rng, SeedableRng};
use rand_xoshiro::SplitMix64;

/// Which of the calls to come fail.
#[derive(Drop)]
pub(crate) enum Choice {
    /// The one after so many, and no other.
    One(u64, Fault),
    /// One of so many, and none where that is 0. Codes and what a write leaves are drawn, too.
    ByChance(SplitMix64, u64),
}

impl Choice {
    pub(crate) fn by_chance(seed: u64, one_of: u64) -> Choice {
        Choice::ByChance(SplitMix64::seed_from_u64(seed), one_of)
    }

    /// The fault of the next call, if it is to fail.
    pub(crate) fn next(&mut self) -> Option<Fault> {
        match self {
            Choice::One(left, fault) => {
                let is_now = *left == 0;
                *left = left.wrapping_sub(1);
                is_now.then_some(*fault)
            }
            Choice::ByChance(source, one_of) => {
                if *one_of == 0 {
                    return None;
                }
                let word = source.next_u64();
                (word % *one_of == 0).then_some(fault_of(word / *one_of))
            }
        }
    }
}

/// A fault by a number: each code, and each of what a write may leave.
fn fault_of(word: u64) -> Fault {
    let code = (word >> 1) % 4_095 + 1;
    Fault {
        code: ErrCode::new(code as u16).unwrap_or(ErrCode::IO),
        effect: if word % 2 == 0 {
            FaultEffect::Old
        } else {
            FaultEffect::New
        },
    }
}
