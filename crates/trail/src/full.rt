//! A trail that keeps every entry, with its bytes.

ghost use Rattle.std.specs.Prelude.{◌≡◌, ◌+◌, ◌<◌, ◌≤◌, [], ◌∷◌, ◌++◌, length, Option, Some, None, IfNone, IfOk, IfSome, IsOkUnless, slice_get, true};
ghost use Rattle.trail.specs.Entries.{entry_with};
ghost use Rattle.trail.specs.Full.{IsEntryAt};
ghost use Rattle.trail.specs.Room.{fits};

use crate::entry::Entry;
use crate::reserve::Reserve;
use crate::trail::Trail;
use machine::{Event, Reply};
use pc_types::Refusal;
use std::alloc::Global;
use std::marker::Model;

/// An entry without its bytes, and where they stand among those of all entries.
#[derive(Drop, Debug)]
pub struct Line {
    entry: Entry,
    start: usize,
    len: usize,
}

/// The whole history of a cache. All memory is taken when the trail is made, so that an entry is added without any.
#[derive(Drop)]
pub struct FullTrail {
    cache: Option<u64>,
    lines: Vec<Line>,
    bytes: Vec<u8>,
    // the most lines and bytes
    events: usize,
    room: usize,
}

impl Model for FullTrail {
    ghost use Rattle.std.specs.Prelude.{◌≡◌, ◌≤◌, ◌-◌, ◌+◌, Some, length, All};
    ghost use Rattle.std.specs.Vec.{vec_capacity, vec_len};
    ghost use Rattle.trail.specs.Full.{TrailSeen, entries_of, IsWithin};

    ghost Value = { TrailSeen };

    ghost view = { λ t. record { cache = t.cache; entries = entries_of t.lines.items t.bytes.items; whole = record { events = t.events; bytes = Some t.room }; room = record { events = t.events - vec_len t.lines; bytes = Some (t.room - vec_len t.bytes) } } };

    ghost invariant = { λ t. (vec_len t.lines ≤ t.events) × (t.events ≤ vec_capacity t.lines) × (vec_len t.bytes ≤ t.room) × (t.room ≤ vec_capacity t.bytes) × All (IsWithin t.bytes.items) t.lines.items };
}

impl FullTrail {
    /// A trail with room for so many entries, and so many bytes of all of them together. It is refused by `Memory`
    /// alone.
    pub fn new(alloc: Global, events: u64, bytes: u64) -> Result<FullTrail, Refusal>
        ensures empty { IfOk result (λ t. t ≡ record { cache = None; entries = []; whole = record { events = events; bytes = Some bytes }; room = record { events = events; bytes = Some bytes } }) }
        ensures refused { IsOkUnless result Refusal.Memory }
    {
        let (Ok(events), Ok(room)) = (usize::try_from(events), usize::try_from(bytes)) else {
            return Err(Refusal::Memory);
        };
        let Ok(lines) = Vec::with_capacity(alloc, events) else {
            return Err(Refusal::Memory);
        };
        let Ok(bytes) = Vec::with_capacity(alloc, room) else {
            return Err(Refusal::Memory);
        };
        Ok(FullTrail {
            cache: None,
            lines,
            bytes,
            events,
            room,
        })
    }

    /// The name of the cache whose history it is, once that has begun.
    pub fn cache(&self) -> Option<u64>
        ensures { result ≡ self.now.cache }
    {
        self.cache
    }

    /// The number of entries.
    pub fn len(&self) -> u64
        ensures { result ≡ length self.now.entries }
    {
        self.lines.len() as u64
    }

    /// The entry at a place, counted from 0, and beside it its bytes, of which `Entry` keeps the number alone.
    pub fn entry(&self, place: u64) -> Option<(&Entry, &[u8])>
        ensures some { IfSome result (λ r. slice_get self.now.entries place ≡ Some (entry_with r.0.now r.1.now)) }
        ensures none { IfNone result (length self.now.entries ≤ place) }
    {
        let line = self.lines.get(place as usize)?;
        let bytes = &self.bytes.as_slice()[line.start..line.start + line.len];
        Some((&line.entry, bytes))
    }

    /// The number of entries.
    pub(crate) fn lines(&self) -> usize
        ensures { result ≡ length self.now.entries }
    {
        self.lines.len()
    }

    /// The event, the reply and the bytes of an entry.
    pub(crate) fn line(&self, place: usize) -> (&Event, &Reply, &[u8])
        requires { place < length self.now.entries }
        ensures { IsEntryAt self.now.entries place result.0.now result.1.now result.2.now }
    {
        let line = &self.lines[place];
        let bytes = &self.bytes.as_slice()[line.start..line.start + line.len];
        (&line.entry.event, &line.entry.reply, bytes)
    }
}

impl Trail for FullTrail {
    ghost use Rattle.std.specs.Prelude.{◌≡◌};

    ghost records = { λ t h. t.entries ≡ h };

    ghost whole = { λ t. t.whole };

    ghost room = { λ t. t.room };

    ghost cache = { λ t. t.cache };

    fn begin(&mut self, name: u64) {
        self.cache = Some(name);
        self.lines.clear();
        self.bytes.clear();
    }

    fn has_room(&self, page: u64, reserved: &Reserve, events: u64, bytes: u64) -> bool {
        reserved.leaves_entries((self.events - self.lines.len()) as u64, events)
            && reserved.leaves_bytes((self.room - self.bytes.len()) as u64, page, bytes)
    }

    fn count(&self) -> u64 {
        self.lines.len() as u64
    }

    #[inline(always)]
    fn append(&mut self, entry: Entry, bytes: &[u8]) {
        let start = self.bytes.len();
        if self.bytes.extend_from_slice(bytes).is_err() {
            return;
        }
        self.lines.push_reserved(Line {
            entry,
            start,
            len: bytes.len(),
        });
    }
}
