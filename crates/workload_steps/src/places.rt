//! Where the common file is read.

use crate::numbers::Numbers;
use crate::scale::{CALLERS, Plan};

/// Offsets in the common file, in no order. No offset comes twice, to this caller or to another, while the callers draw no more than
/// the file has bytes.
#[derive(Clone, Copy)]
pub struct Places {
    // one less than the bytes of the file, which are a power of two
    mask: u64,
    // the same for all callers
    first: u64,
    turn: u64,
}

impl Places {
    pub fn new(plan: Plan, caller: u64) -> Places {
        Places {
            mask: plan.scale.common_size() - 1,
            // of a stream that no caller has
            first: Numbers::new(plan.seed, CALLERS + 1).draw(),
            turn: caller,
        }
    }

    /// The next offset. Each step of the mixing takes different numbers to different ones.
    #[inline(always)]
    pub fn draw(&mut self) -> u64 {
        let mut place = self
            .first
            .wrapping_add(self.turn.wrapping_mul(0x9e37_79b9_7f4a_7c15))
            & self.mask;
        self.turn = self.turn.wrapping_add(CALLERS);
        place ^= place >> 9;
        place = place.wrapping_mul(0x94d0_49bb_1331_11eb) & self.mask;
        place ^ (place >> 7)
    }
}
