//! The best time of several rounds.

use std::time::Duration;

/// What came of the rounds of a row.
#[derive(Clone, Copy)]
pub struct Best {
    /// The nanoseconds of the fastest round.
    pub nanos: u64,
    /// The sum of what the calls of the last round answered.
    pub sum: u64,
}

impl Best {
    /// No round yet.
    pub const NONE: Best = Best {
        nanos: u64::MAX,
        sum: 0,
    };

    /// Adds a round.
    pub fn add(&mut self, time: Duration, sum: u64) {
        let nanos = u64::try_from(time.as_nanos()).unwrap_or(u64::MAX);
        self.nanos = self.nanos.min(nanos);
        self.sum = sum;
    }
}
