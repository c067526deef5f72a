//! Numbers that come once each.

ghost use Rattle.std.specs.Prelude.{◌<◌, ◌≤◌};

use crate::numbers::Numbers;

/// The numbers below an end, of which there are 1 to 2^63, in no order.
#[derive(Clone, Copy)]
pub struct Places {
    end: u64,
    // one less than the least power of two that is not below the end
    mask: u64,
    // half of the bits of such a number
    half: u32,
    first: u64,
    turn: u64,
    ghost some: { 0 < end },
    ghost within: { half ≤ 32 },
}

impl Places {
    pub fn below(end: u64, numbers: &mut Numbers) -> Places {
        let end = end.clamp(1, 1 << 63);
        let mask = end.next_power_of_two() - 1;
        Places {
            end,
            mask,
            half: mask.count_ones().div_ceil(2).max(1),
            first: numbers.draw(),
            turn: 0,
        }
    }

    /// The next number. None comes twice before all have come: from each turn, mixing again and again leads to one that is below the
    /// end, and from no other turn to the same one.
    #[inline(always)]
    pub fn draw(&mut self) -> u64
        ensures { result < self.old.end }
    {
        let end = self.end;
        let mut place = self.mixed(self.turn);
        let next = self.turn.wrapping_add(1);
        self.turn = if next < end { next } else { 0 };
        for _ in 0..end {
            if place < end {
                return place;
            }
            place = self.mixed(place);
        }
        0
    }

    /// Another number up to the mask. Each step takes different numbers to different ones.
    #[inline(always)]
    fn mixed(&self, number: u64) -> u64 {
        let mut place = self
            .first
            .wrapping_add(number.wrapping_mul(0x9e37_79b9_7f4a_7c15))
            & self.mask;
        place ^= place >> self.half;
        place = place.wrapping_mul(0x94d0_49bb_1331_11eb) & self.mask;
        place ^= place >> self.half;
        place = place.wrapping_mul(0xbf58_476d_1ce4_e5b9) & self.mask;
        place ^ (place >> self.half)
    }
}
