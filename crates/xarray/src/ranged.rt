//! Entries of every order in radix nodes: a range of order k is a leaf at level k / 6, and its siblings.
//!
//! Here is how an entry at an index is found; `walks` has the searches for the next one, `changes` what puts, marks and takes
//! entries, and `split` makes one into parts.
ghost use Rattle.std.specs.Prelude.{◌≡◌, ◌+◌, ◌*◌, ◌-◌, ◌/◌, ◌%◌, ◌^◌, ◌<◌, ◌≤◌, ◌==◌, ◌↔◌, Some, None, IfSome, MatchOption, true, false, ltb, option_map};
ghost use Rattle.std.specs.FinMap as map;
ghost use Rattle.std.specs.List.{list_any};
ghost use Rattle.radix.specs.declared.entry.Entry.{Entry as OneEntry};
ghost use Rattle.radix.specs.Entries.{IsFound, IsLeaf, IsWalked, StandsAt};
ghost use Rattle.xarray.specs.MarkedArray.{IsArray, Range, entry_at, found_of, has_mark, is_marked, lowest, marked_of, marks_of, unmarked};
ghost use Rattle.xarray.specs.Standing.{IsFirstSlot, IsSpot};
ghost use Rattle.xarray.specs.View.{ranges_of};

mod changes;
mod split;
mod walks;

use crate::entry::{Found, Mark, Marked, Marks};
pub use changes::Tagged;
use radix::{Cursor, Entry, Nodes, Walk, first_at, place_at};
pub use split::Whole;
use std::alloc::Global;
use std::marker::Model;
pub use walks::Step;
pub(crate) use walks::index_after;

/// Entries with three marks, by ranges of indexes.
#[derive(Drop)]
pub struct Ranged {
    nodes: Nodes,
}

impl Model for Ranged {
    ghost use Rattle.slab.specs.Slab.{Slab as Slots};
    ghost use Rattle.radix.specs.declared.node.Node.{Node as OneNode};

    ghost Value = { Slots OneNode };

    ghost use Rattle.xarray.specs.View.{IsRanged};

    ghost view = { λ a. a.nodes };

    ghost invariant = { λ a. IsRanged a.nodes };
}

// An entry: its first index, and where its first slot is.
#[derive(Clone, Copy)]
struct Spot {
    cursor: Cursor,
    level: u32,
    first: u64,
    value: u64,
}

impl Ranged {
    pub fn new(alloc: Global) -> Ranged
        ensures { ranges_of result ≡ map.empty }
    {
        Ranged {
            nodes: Nodes::new(alloc),
        }
    }

    /// The number of nodes.
    pub fn nodes(&self) -> usize
        ensures empty { ranges_of self.now ≡ map.empty ↔ result ≡ 0 }
        ensures shape { IsArray (ranges_of self.now) }
    {
        self.nodes.count()
    }

    // The entry that a walk to an index came to. Most often it begins there at the lowest level, and then nothing waits for the
    // walk but the value.
    #[inline(always)]
    fn spot_in(&self, cursor: Cursor, level: u32, entry: Option<Entry>, index: u64) -> Option<Spot>
        requires walked { IsWalked self.now index level entry }
        requires low { level ≤ 10 }
        requires stands { StandsAt self.now cursor level (index / 64 ^ level / 64) }
        ensures spot { MatchOption result (entry_at (ranges_of self.now) index ≡ None) (λ t. IsSpot (ranges_of self.now) (entry_at (ranges_of self.now) index) t.first t.level t.value) }
        ensures stands { IfSome result (λ t. StandsAt self.now t.cursor t.level (t.first / 64 ^ t.level / 64)) }
    {
        // The check knows the invariant of `self` only where the body names a field. This costs nothing.
        let _nodes = &self.nodes;
        let Some(entry) = entry else {
            return None;
        };
        if let Entry::Leaf(value) = entry
            && level == 0
        {
            return Some(Spot {
                cursor,
                level: 0,
                first: index,
                value,
            });
        }
        Some(self.spot_around(cursor, level, entry, index))
    }

    // The same where the entry may begin before the index. It stays a call, so that the code of an entry of one index is short.
    #[inline(never)]
    fn spot_around(&self, cursor: Cursor, level: u32, entry: Entry, index: u64) -> Spot
        requires found { IsFound self.now index level entry }
        requires low { level ≤ 10 }
        requires stands { StandsAt self.now cursor level (index / 64 ^ level / 64) }
        ensures spot { IsSpot (ranges_of self.now) (entry_at (ranges_of self.now) index) result.first result.level result.value }
        ensures stands { StandsAt self.now result.cursor result.level (result.first / 64 ^ result.level / 64) }
    {
        // As in `spot_in`.
        let _nodes = &self.nodes;
        match entry {
            Entry::Leaf(value) => Spot {
                cursor,
                level,
                first: first_at(level, place_at(index, level)),
                value,
            },
            Entry::Sibling(named) => self.spot_named(cursor, level, named, index),
        }
    }

    // The same at a further slot of an entry.
    #[inline]
    fn spot_named(&self, cursor: Cursor, level: u32, named: u64, index: u64) -> Spot
        requires found { IsFound self.now index level (OneEntry.Sibling named) }
        requires low { level ≤ 10 }
        requires stands { StandsAt self.now cursor level (index / 64 ^ level / 64) }
        ensures spot { IsSpot (ranges_of self.now) (entry_at (ranges_of self.now) index) result.first result.level result.value }
        ensures stands { StandsAt self.now result.cursor result.level (result.first / 64 ^ result.level / 64) }
    {
        let place = place_at(index, level);
        let value = leaf_value(self.nodes.beside(cursor, index, level, named as usize));
        let first = first_at(level, place / 64 * 64 + named);
        Spot {
            cursor,
            level,
            first,
            value,
        }
    }

    // The entry at an index.
    #[inline(always)]
    fn spot(&self, index: u64) -> Option<Spot>
        ensures spot { MatchOption result (entry_at (ranges_of self.now) index ≡ None) (λ t. IsSpot (ranges_of self.now) (entry_at (ranges_of self.now) index) t.first t.level t.value) }
        ensures stands { IfSome result (λ t. StandsAt self.now t.cursor t.level (t.first / 64 ^ t.level / 64)) }
    {
        match self.nodes.walk(index) {
            Some(
                Walk {
                    cursor,
                    level,
                    entry,
                },
            ) => self.spot_in(cursor, level, entry, index),
            None => None,
        }
    }

    // The same where most often the entry is in the node of the last change.
    #[inline(always)]
    fn spot_recent(&self, index: u64) -> Option<Spot>
        ensures spot { MatchOption result (entry_at (ranges_of self.now) index ≡ None) (λ t. IsSpot (ranges_of self.now) (entry_at (ranges_of self.now) index) t.first t.level t.value) }
        ensures stands { IfSome result (λ t. StandsAt self.now t.cursor t.level (t.first / 64 ^ t.level / 64)) }
    {
        match self.nodes.walk_recent(index) {
            Some(
                Walk {
                    cursor,
                    level,
                    entry,
                },
            ) => self.spot_in(cursor, level, entry, index),
            None => None,
        }
    }

    // Whether the slot 2^step after an entry's first one is its sibling.
    #[inline(always)]
    fn reaches(&self, cursor: Cursor, level: u32, first: u64, step: u32) -> bool
        requires step { step < 6 }
        requires there { IsFirstSlot (ranges_of self.now) first level }
        requires stands { StandsAt self.now cursor level (first / 64 ^ level / 64) }
        ensures { (r : Range) → map.get (ranges_of self.now) first ≡ Some r → result ≡ ltb step (r.order % 6) }
    {
        let at = place_at(first, level) % 64 + (1 << step);
        if !self.nodes.follows(cursor, first, level, (at % 64) as usize) {
            return false;
        }
        at < 64
    }

    // The order of an entry, which its siblings tell (decision 43).
    #[inline(always)]
    fn order_of(&self, cursor: Cursor, level: u32, first: u64) -> u32
        requires there { IsFirstSlot (ranges_of self.now) first level }
        requires stands { StandsAt self.now cursor level (first / 64 ^ level / 64) }
        ensures { (r : Range) → map.get (ranges_of self.now) first ≡ Some r → result ≡ r.order }
    {
        if !self.reaches(cursor, level, first, 0) {
            return 6 * level;
        }
        self.order_over(cursor, level, first)
    }

    // The same by each look that it may take.
    #[inline(never)]
    fn order_over(&self, cursor: Cursor, level: u32, first: u64) -> u32
        requires there { IsFirstSlot (ranges_of self.now) first level }
        requires stands { StandsAt self.now cursor level (first / 64 ^ level / 64) }
        ensures { (r : Range) → map.get (ranges_of self.now) first ≡ Some r → result ≡ r.order }
    {
        let mut step = 0;
        'up: while self.reaches(cursor, level, first, step) {
            step += 1;
        }
        6 * level + step
    }

    /// The value at an index. It asks for nothing else of the entry.
    #[inline(always)]
    pub fn load(&self, index: u64) -> Option<u64>
        ensures { result ≡ option_map (λ e. e.1.value) (entry_at (ranges_of self.now) index) }
    {
        let Some(walk) = self.nodes.walk(index) else {
            return None;
        };
        let Walk {
            cursor,
            level,
            entry,
        } = walk;
        let Some(entry) = entry else {
            return None;
        };
        match entry {
            Entry::Leaf(value) => Some(value),
            Entry::Sibling(named) => Some(self.value_named(cursor, level, named, index)),
        }
    }

    // The value of the entry that a walk came to at a further slot.
    #[inline(never)]
    fn value_named(&self, cursor: Cursor, level: u32, named: u64, index: u64) -> u64
        requires found { IsFound self.now index level (OneEntry.Sibling named) }
        requires low { level ≤ 10 }
        requires stands { StandsAt self.now cursor level (index / 64 ^ level / 64) }
        ensures { Some result ≡ option_map (λ e. e.1.value) (entry_at (ranges_of self.now) index) }
    {
        self.spot_named(cursor, level, named, index).value
    }

    /// The value at an index, where the entry has the mark: one walk for both.
    #[inline(always)]
    pub fn load_marked(&self, index: u64, mark: Mark) -> Option<u64>
        ensures marked { is_marked mark (entry_at (ranges_of self.now) index) ≡ true → result ≡ option_map (λ e. e.1.value) (entry_at (ranges_of self.now) index) }
        ensures unmarked { is_marked mark (entry_at (ranges_of self.now) index) ≡ false → result ≡ None }
    {
        let Some(spot) = self.spot(index) else {
            return None;
        };
        let Spot {
            cursor,
            level,
            first,
            value,
        } = spot;
        if !self.nodes.get_bit(cursor, first, level, mark.number()) {
            return None;
        }
        Some(value)
    }

    // The marks of an entry, at its first slot.
    #[inline(always)]
    fn marks_at(&self, cursor: Cursor, level: u32, first: u64) -> Marks
        requires there { IsFirstSlot (ranges_of self.now) first level }
        requires stands { StandsAt self.now cursor level (first / 64 ^ level / 64) }
        ensures { (r : Range) → map.get (ranges_of self.now) first ≡ Some r → result ≡ marks_of r }
    {
        Marks {
            m0: self.nodes.get_bit(cursor, first, level, 0),
            m1: self.nodes.get_bit(cursor, first, level, 1),
            m2: self.nodes.get_bit(cursor, first, level, 2),
        }
    }

    /// The value at an index with the entry's marks: the walk ends at the node that has both.
    #[inline(always)]
    pub fn load_with_marks(&self, index: u64) -> Option<Marked>
        ensures { result ≡ option_map marked_of (entry_at (ranges_of self.now) index) }
    {
        let Some(spot) = self.spot_recent(index) else {
            return None;
        };
        let Spot {
            cursor,
            level,
            first,
            value,
        } = spot;
        let marks = self.marks_at(cursor, level, first);
        Some(Marked { value, marks })
    }

    /// Whether the entry at an index has a mark.
    pub fn get_mark(&self, index: u64, mark: Mark) -> bool
        ensures { result ≡ is_marked mark (entry_at (ranges_of self.now) index) }
    {
        self.nodes.is_marked(index, mark.number())
    }

    /// Whether any entry has the mark.
    pub fn marked(&self, mark: Mark) -> bool
        ensures { result ≡ list_any (has_mark mark) (map.values (ranges_of self.now)) }
    {
        self.nodes.marked(mark.number())
    }

    // An entry as a search answers it.
    #[inline(always)]
    fn found(&self, spot: Spot) -> Found
        requires there { IsFirstSlot (ranges_of self.now) spot.first spot.level }
        requires stands { StandsAt self.now spot.cursor spot.level (spot.first / 64 ^ spot.level / 64) }
        ensures { (r : Range) → map.get (ranges_of self.now) spot.first ≡ Some r → r.value ≡ spot.value → result ≡ found_of (spot.first, r) }
    {
        let Spot {
            cursor,
            level,
            first,
            value,
        } = spot;
        let order = self.order_of(cursor, level, first);
        Found {
            first,
            order,
            value,
        }
    }

    // The order of an entry, where most often its slots need not be read: what begins beside it ends it.
    #[inline]
    fn order_beside(&self, cursor: Cursor, level: u32, first: u64) -> u32
        requires there { IsFirstSlot (ranges_of self.now) first level }
        requires stands { StandsAt self.now cursor level (first / 64 ^ level / 64) }
        ensures { (r : Range) → map.get (ranges_of self.now) first ≡ Some r → result ≡ r.order }
    {
        let at = place_at(first, level) % 64 + 1;
        if at < 64 && self.nodes.begins(cursor, first, level, at as usize) {
            return 6 * level;
        }
        self.order_of(cursor, level, first)
    }
}

// The last index of a range.
fn last_of(first: u64, order: u32) -> u64
    requires order { order ≤ 63 }
    requires within { first + 2 ^ order ≤ 2 ^ 64 }
    ensures { result + 1 ≡ first + 2 ^ order }
{
    first + ((1 << order) - 1)
}

// The value of a first slot.
fn leaf_value(entry: Option<Entry>) -> u64
    requires { IsLeaf entry }
    ensures { entry ≡ Some (OneEntry.Leaf result) }
{
    match entry {
        Some(Entry::Leaf(value)) => value,
        _ => unreachable!(),
    }
}
