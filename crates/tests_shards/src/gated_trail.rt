//! A trail behind a turnstile: each entry passes it, while the lock of its cache's state is held.

use crate::turnstile::Turnstile;
use trail::{Entry, FullTrail, Reserve, Trail};

#[derive(Drop)]
pub(crate) struct GatedTrail<'a> {
    pub(crate) trail: FullTrail,
    pub(crate) turnstile: Option<&'a Turnstile>,
}

impl<'a> Trail for GatedTrail<'a> {
    ghost use Rattle.std.specs.Prelude.{◌≡◌};

    ghost records = { λ t h. t.trail.entries ≡ h };

    ghost whole = { λ t. t.trail.whole };

    ghost room = { λ t. t.trail.room };

    ghost cache = { λ t. t.trail.cache };

    fn begin(&mut self, name: u64) {
        self.trail.begin(name);
    }

    fn has_room(&self, page: u64, reserved: &Reserve, events: u64, bytes: u64) -> bool {
        self.trail.has_room(page, reserved, events, bytes)
    }

    fn count(&self) -> u64 {
        self.trail.count()
    }

    fn append(&mut self, entry: Entry, bytes: &[u8]) {
        if let Some(turnstile) = self.turnstile {
            turnstile.pass();
        }
        self.trail.append(entry, bytes);
    }
}
