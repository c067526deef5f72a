//! A trail that counts entries and keeps none.

ghost use Rattle.std.specs.Prelude.{◌≡◌, None};

use crate::entry::Entry;
use crate::reserve::Reserve;
use crate::trail::Trail;

/// The number of entries alone, at most 2^64 - 1 of them, with any bytes.
#[derive(Drop, Debug)]
pub struct NoTrail {
    cache: Option<u64>,
    count: u64,
}

impl NoTrail {
    pub fn new() -> NoTrail
        ensures cache { result.cache ≡ None }
        ensures count { result.count ≡ 0 }
    {
        NoTrail {
            cache: None,
            count: 0,
        }
    }
}

impl Trail for NoTrail {
    ghost use Rattle.std.specs.Prelude.{◌≡◌, ◌-◌, ◌^◌, None, length};

    ghost records = { λ t h. t.count ≡ length h };

    ghost whole = { λ t. record { events = 2 ^ 64 - 1; bytes = None } };

    ghost room = { λ t. record { events = 2 ^ 64 - 1 - t.count; bytes = None } };

    ghost cache = { λ t. t.cache };

    fn begin(&mut self, name: u64) {
        self.cache = Some(name);
        self.count = 0;
    }

    fn has_room(&self, _page: u64, reserved: &Reserve, events: u64, _bytes: u64) -> bool {
        reserved.leaves_entries(u64::MAX - self.count, events)
    }

    fn count(&self) -> u64 {
        self.count
    }

    #[inline(always)]
    fn append(&mut self, _entry: Entry, _bytes: &[u8]) {
        self.count += 1;
    }
}
