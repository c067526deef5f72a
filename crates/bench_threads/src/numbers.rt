//! A cheap generator of numbers.

/// Marsaglia's xorshift: the same numbers in each run.
#[derive(Clone, Copy)]
pub struct Numbers {
    last: u64,
}

impl Numbers {
    pub fn new() -> Numbers {
        Numbers {
            last: 88_172_645_463_325_252,
        }
    }

    /// The next number.
    #[inline(always)]
    pub fn draw(&mut self) -> u64 {
        let mut next = self.last;
        next ^= next << 13;
        next ^= next >> 7;
        next ^= next << 17;
        self.last = next;
        next
    }

    /// Draws each of the bytes.
    pub fn fill(&mut self, bytes: &mut [u8]) {
        for byte in bytes.iter_mut() {
            *byte = (self.draw() % 256) as u8;
        }
    }
}
