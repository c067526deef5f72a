//! A cheap generator of numbers.

ghost use Rattle.std.specs.Prelude.{◌<◌, ◌≤◌, ◌+◌, ◌-◌, ◌≡◌, length};

/// Steele's, Lea's and Flood's splitmix64: the same numbers in each run of one seed.
#[derive(Clone, Copy)]
pub struct Numbers {
    state: u64,
}

impl Numbers {
    pub fn new(seed: u64) -> Numbers {
        Numbers { state: seed }
    }

    #[inline(always)]
    pub fn draw(&mut self) -> u64 {
        self.state = self.state.wrapping_add(0x9e37_79b9_7f4a_7c15);
        let mut next = self.state;
        next = (next ^ (next >> 30)).wrapping_mul(0xbf58_476d_1ce4_e5b9);
        next = (next ^ (next >> 27)).wrapping_mul(0x94d0_49bb_1331_11eb);
        next ^ (next >> 31)
    }

    /// A number below the end.
    #[inline(always)]
    pub fn below(&mut self, end: u64) -> u64
        requires { 0 < end }
        ensures { result < end }
    {
        self.draw() % end
    }

    /// A number below the end: four of five times one of the first fifth, as the pages of a table are asked for.
    #[inline(always)]
    pub fn skewed(&mut self, end: u64) -> u64
        requires { 0 < end }
        ensures { result < end }
    {
        let hot = if self.below(5) < 4 {
            end.div_ceil(5)
        } else {
            end
        };
        self.below(hot)
    }
}
