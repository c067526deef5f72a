//! What is reserved in a trail.

ghost use Rattle.std.specs.Prelude.{◌≡◌, ◌+◌, ◌*◌, nat_le};

/// What is reserved for the ends of what is in flight: an entry and a page of bytes for each fill, and an entry for
/// each flush and each sync.
#[derive(Clone, Copy, PartialEq, Eq, Debug)]
pub struct Reserve {
    pub fills: u64,
    pub others: u64,
}

impl Reserve {
    /// Whether so many more entries fit beside what is reserved into this room.
    pub(crate) fn leaves_entries(&self, room: u64, events: u64) -> bool
        ensures { result ≡ nat_le (self.now.fills + self.now.others + events) room }
    {
        // none of these sums is made: the room of a trail without bytes is near 2^64
        events <= room && self.fills <= room - events && self.others <= room - events - self.fills
    }

    /// Whether so many more bytes fit beside what is reserved into this room, for pages of this size.
    pub(crate) fn leaves_bytes(&self, room: u64, page: u64, bytes: u64) -> bool
        ensures { result ≡ nat_le (page * self.now.fills + bytes) room }
    {
        match page.checked_mul(self.fills) {
            Some(reserved) => bytes <= room && reserved <= room - bytes,
            None => false,
        }
    }
}
