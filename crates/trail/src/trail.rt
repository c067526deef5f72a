//! What a history is written into.

ghost use Rattle.std.specs.Prelude.{◌≡◌, [], length};

use crate::entry::Entry;
use crate::reserve::Reserve;

/// Keeps a history, or something of it, and has room for so much of it.
pub trait Trail {
    ghost use Rattle.std.specs.Prelude.{◌≡◌, ◌<◌, ◌+◌, ◌^◌, ◌++◌, ◌∷◌, [], ℕ, List, Option, Some, length, true};
    ghost use Rattle.trail.specs.declared.entry.Entry.{Entry};
    ghost use Rattle.trail.specs.Entries.{entry_with};
    ghost use Rattle.trail.specs.Room.{Room, fits, fits_beside, less};

    /// What the trail keeps of a history.
    ghost records: { Self → List Entry → Type 0 };

    /// The room that it was made with.
    ghost whole: { Self → Room };

    /// The room that is left.
    ghost room: { Self → Room };

    /// The name of the cache whose history it is, once that has begun.
    ghost cache: { Self → Option ℕ };

    /// Begins the history of the cache of this name, without an entry. What was kept before is gone.
    fn begin(&mut self, name: u64)
        ensures records { records self.new [] }
        ensures room { room self.new ≡ whole self.old }
        ensures whole { whole self.new ≡ whole self.old }
        ensures cache { cache self.new ≡ Some name };

    /// Whether so many more entries, with so many bytes together, fit beside what is reserved, for pages of this size.
    fn has_room(&self, page: u64, reserved: &Reserve, events: u64, bytes: u64) -> bool
        ensures fits { result ≡ fits_beside (room self.now) page reserved.now events bytes }
        ensures small { result ≡ true → reserved.now.fills + reserved.now.others + events < 2 ^ 64 };

    /// The number of entries.
    fn count(&self) -> u64
        ensures length { (h : List Entry) → records self.now h → result ≡ length h }
        ensures small { fits (room self.now) 1 0 ≡ true → result + 1 < 2 ^ 64 };

    /// Adds an entry. The bytes stand in the place of those in its event and reply, which are left empty.
    fn append(&mut self, entry: Entry, bytes: &[u8])
        requires { fits (room self.old) 1 (length bytes.now) ≡ true }
        ensures records { (h : List Entry) → records self.old h → records self.new (h ++ entry_with entry bytes.now ∷ []) }
        ensures room { room self.new ≡ less (room self.old) (length bytes.now) }
        ensures whole { whole self.new ≡ whole self.old }
        ensures cache { cache self.new ≡ cache self.old };
}
