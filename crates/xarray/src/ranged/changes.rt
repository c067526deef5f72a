//! What puts, marks and takes entries.
ghost use Rattle.std.specs.Prelude.{◌≡◌, ℕ, ◌+◌, ◌-◌, ◌/◌, ◌%◌, ◌^◌, ◌<◌, ◌≤◌, ◌==◌, Some, None, IfOk, IfSome, OnOk, OnErr, IfErr, IsOk, IsSome, MatchOption, MatchBool, true, false, option_map};
ghost use Rattle.std.specs.FinMap as map;
ghost use Rattle.pc_types.specs.declared.refusal.Refusal.{Refusal};
ghost use Rattle.radix.specs.Entries.{HasPathRoom, StandsAt};
ghost use Rattle.xarray.specs.MarkedArray.{Range, changed, entry_at, erased, given, has_mark, is_any, lowest, marked_of, marks_of, remarked, stored, unmarked, with_mark, with_marks};
ghost use Rattle.xarray.specs.Standing.{IsFirstSlot, IsOutside, TagsNext, level_of};
ghost use Rattle.xarray.specs.View.{ranges_of};
ghost use Rattle.xarray.specs.Walks.{IsAbove, IsAfter};

use super::{Ranged, Spot, last_of};
use crate::entry::{Mark, Marked, Marks};
use pc_types::Refusal;
use radix::{Ahead, Cursor, Position, Walk, first_at, place_at};

/// Where an entry that a retag came to ends: its last index, and its last slot.
#[derive(Clone, Copy)]
pub struct Tagged {
    pub last: u64,
    pub slot: Position,
    /// The node above that of the slot, if it is known.
    pub above: Option<Cursor>,
}

impl Ranged {
    /// Room for a range that begins at an index.
    pub fn reserve(&mut self, index: u64, order: u32) -> Result<(), Refusal>
        requires { order ≤ 63 }
        ensures room { OnOk result (HasPathRoom self.new (level_of order) index) }
        ensures err { IfErr result (λ refusal. refusal ≡ Refusal.Memory) }
        ensures same { ranges_of self.new ≡ ranges_of self.old }
    {
        self.nodes.reserve_path(index, order / 6)
    }

    // Puts an entry without marks where its range meets none.
    fn put(&mut self, index: u64, order: u32, value: u64) -> Result<(), Refusal>
        requires order { order ≤ 63 }
        requires aligned { index % 2 ^ order ≡ 0 }
        requires value { value < 2 ^ 63 }
        requires free { lowest is_any (ranges_of self.old) index (index + 2 ^ order - 1) ≡ None }
        ensures puts { OnOk result (ranges_of self.new ≡ map.insert (ranges_of self.old) index (unmarked order value)) }
        ensures same { OnErr result (ranges_of self.new ≡ ranges_of self.old) }
        ensures err { IfErr result (λ refusal. refusal ≡ Refusal.Memory) }
        ensures room { HasPathRoom self.old (level_of order) index → IsOk result }
    {
        let level = order / 6;
        self.nodes.reserve_path(index, level)?;
        self.nodes.put_run(index, level, 1 << (order % 6), value);
        Ok(())
    }

    // Puts an entry of one index without marks where a walk came to none, perhaps in the node that has its slot.
    #[inline]
    fn put_one(&mut self, cursor: Cursor, level: u32, index: u64, value: u64) -> Result<(), Refusal>
        requires value { value < 2 ^ 63 }
        requires free { entry_at (ranges_of self.old) index ≡ None }
        requires stands { StandsAt self.old cursor level (index / 64 ^ level / 64) }
        ensures puts { OnOk result (ranges_of self.new ≡ map.insert (ranges_of self.old) index (unmarked 0 value)) }
        ensures same { OnErr result (ranges_of self.new ≡ ranges_of self.old) }
        ensures err { IfErr result (λ refusal. refusal ≡ Refusal.Memory) }
        ensures room { HasPathRoom self.old 0 index → IsOk result }
    {
        if level > 0 {
            return self.put(index, 0, value);
        }
        self.nodes.fill(cursor, index, 0, value);
        Ok(())
    }

    /// Stores a value, and answers the one before.
    pub fn store(&mut self, index: u64, value: u64) -> Result<Option<u64>, Refusal>
        requires { value < 2 ^ 63 }
        ensures before { IfOk result (λ before. before ≡ option_map (λ e. e.1.value) (entry_at (ranges_of self.old) index)) }
        ensures stores { OnOk result (ranges_of self.new ≡ stored (ranges_of self.old) index value) }
        ensures same { OnErr result (ranges_of self.new ≡ ranges_of self.old) }
        ensures err { IfErr result (λ refusal. refusal ≡ Refusal.Memory) }
        ensures room { HasPathRoom self.old 0 index → IsOk result }
        ensures over { IsSome (entry_at (ranges_of self.old) index) → IsOk result }
    {
        let Some(walk) = self.nodes.walk_recent(index) else {
            self.put(index, 0, value)?;
            return Ok(None);
        };
        let Walk {
            cursor,
            level,
            entry,
        } = walk;
        if let Some(spot) = self.spot_in(cursor, level, entry, index) {
            self.nodes
                .replace(spot.cursor, spot.first, spot.level, value);
            return Ok(Some(spot.value));
        }
        self.put_one(cursor, level, index, value)?;
        Ok(None)
    }

    /// Puts an entry of one index where none is, and answers whether none was.
    pub fn insert(&mut self, index: u64, value: u64) -> Result<bool, Refusal>
        requires { value < 2 ^ 63 }
        ensures free { IfOk result (λ is_new. MatchBool is_new ((entry_at (ranges_of self.old) index ≡ None) × (ranges_of self.new ≡ map.insert (ranges_of self.old) index (unmarked 0 value))) (IsSome (entry_at (ranges_of self.old) index) × (self.new ≡ self.old))) }
        ensures same { OnErr result ((entry_at (ranges_of self.old) index ≡ None) × (ranges_of self.new ≡ ranges_of self.old)) }
        ensures err { IfErr result (λ refusal. refusal ≡ Refusal.Memory) }
        ensures room { HasPathRoom self.old 0 index → IsOk result }
    {
        let Some(walk) = self.nodes.walk_recent(index) else {
            self.put(index, 0, value)?;
            return Ok(true);
        };
        let Walk {
            cursor,
            level,
            entry,
        } = walk;
        if let Some(_) = self.spot_in(cursor, level, entry, index) {
            return Ok(false);
        }
        self.put_one(cursor, level, index, value)?;
        Ok(true)
    }

    /// Puts an entry of an order where its range meets none, and answers whether none was there.
    pub fn insert_order(&mut self, index: u64, order: u32, value: u64) -> Result<bool, Refusal>
        requires order { order ≤ 63 }
        requires aligned { index % 2 ^ order ≡ 0 }
        requires value { value < 2 ^ 63 }
        ensures free { IfOk result (λ is_new. MatchBool is_new ((lowest is_any (ranges_of self.old) index (index + 2 ^ order - 1) ≡ None) × (ranges_of self.new ≡ map.insert (ranges_of self.old) index (unmarked order value))) (IsSome (lowest is_any (ranges_of self.old) index (index + 2 ^ order - 1)) × (self.new ≡ self.old))) }
        ensures same { OnErr result ((lowest is_any (ranges_of self.old) index (index + 2 ^ order - 1) ≡ None) × (ranges_of self.new ≡ ranges_of self.old)) }
        ensures err { IfErr result (λ refusal. refusal ≡ Refusal.Memory) }
        ensures room { HasPathRoom self.old (level_of order) index → IsOk result }
    {
        let last = last_of(index, order);
        if let Some(_) = self.next(index, last) {
            return Ok(false);
        }
        self.put(index, order, value)?;
        Ok(true)
    }

    /// Takes the entry at an index away, and answers its value with its marks.
    pub fn take(&mut self, index: u64) -> Option<Marked>
        ensures before { result ≡ option_map marked_of (entry_at (ranges_of self.old) index) }
        ensures takes { ranges_of self.new ≡ erased (ranges_of self.old) index }
    {
        let Some(spot) = self.spot_recent(index) else {
            return None;
        };
        let Spot {
            cursor,
            level,
            first,
            value,
        } = spot;
        let marks = self.marks_at(cursor, level, first);
        let span = 1 << (self.order_of(cursor, level, first) % 6);
        self.nodes.clear_bit(cursor, first, level, 0);
        self.nodes.clear_bit(cursor, first, level, 1);
        self.nodes.clear_bit(cursor, first, level, 2);
        if span == 1 {
            self.nodes.clear(cursor, first, level);
        } else {
            self.nodes.clear_run(cursor, first, level, span);
        }
        Some(Marked { value, marks })
    }

    /// Sets a mark of the entry at an index, and answers whether there is one.
    pub fn set_mark(&mut self, index: u64, mark: Mark) -> bool
        ensures { MatchBool result (IsSome (entry_at (ranges_of self.old) index) × (ranges_of self.new ≡ remarked (ranges_of self.old) index mark true)) ((entry_at (ranges_of self.old) index ≡ None) × (self.new ≡ self.old)) }
    {
        let Some(spot) = self.spot_recent(index) else {
            return false;
        };
        self.nodes
            .set_bit(spot.cursor, spot.first, spot.level, mark.number());
        true
    }

    /// Clears a mark of the entry at an index.
    pub fn clear_mark(&mut self, index: u64, mark: Mark)
        ensures { ranges_of self.new ≡ remarked (ranges_of self.old) index mark false }
    {
        if let Some(spot) = self.spot_recent(index) {
            self.nodes
                .clear_bit(spot.cursor, spot.first, spot.level, mark.number());
        }
    }

    // Sets or clears a mark of an entry, at its first slot.
    #[inline]
    fn remark(&mut self, cursor: Cursor, level: u32, first: u64, mark: Mark, is_set: bool)
        requires there { IsFirstSlot (ranges_of self.old) first level }
        requires stands { StandsAt self.old cursor level (first / 64 ^ level / 64) }
        ensures marks { (r : Range) → map.get (ranges_of self.old) first ≡ Some r → ranges_of self.new ≡ map.insert (ranges_of self.old) first (with_mark mark is_set r) }
        ensures stands { StandsAt self.new cursor level (first / 64 ^ level / 64) }
    {
        let number = mark.number();
        if is_set {
            self.nodes.set_bit(cursor, first, level, number);
        } else {
            self.nodes.clear_bit(cursor, first, level, number);
        }
    }

    /// Sets or clears a mark of the entry at an index, and answers whether the entry had it.
    #[inline(always)]
    pub fn swap_mark(&mut self, index: u64, mark: Mark, is_set: bool) -> Option<bool>
        ensures before { result ≡ option_map (λ e. has_mark mark e.1) (entry_at (ranges_of self.old) index) }
        ensures sets { ranges_of self.new ≡ remarked (ranges_of self.old) index mark is_set }
    {
        let Some(spot) = self.spot_recent(index) else {
            return None;
        };
        let Spot {
            cursor,
            level,
            first,
            ..
        } = spot;
        let was = self.nodes.get_bit(cursor, first, level, mark.number());
        self.remark(cursor, level, first, mark, is_set);
        Some(was)
    }

    // Gives an entry these marks and no others, at its first slot.
    #[inline]
    fn give(&mut self, cursor: Cursor, level: u32, first: u64, marks: Marks)
        requires there { IsFirstSlot (ranges_of self.old) first level }
        requires stands { StandsAt self.old cursor level (first / 64 ^ level / 64) }
        ensures { (r : Range) → map.get (ranges_of self.old) first ≡ Some r → ranges_of self.new ≡ map.insert (ranges_of self.old) first (with_marks marks r) }
    {
        self.remark(cursor, level, first, Mark::M0, marks.m0);
        self.remark(cursor, level, first, Mark::M1, marks.m1);
        self.remark(cursor, level, first, Mark::M2, marks.m2);
    }

    /// Gives the entry at an index these marks and no others, and answers those that it had.
    pub fn swap_marks(&mut self, index: u64, marks: Marks) -> Option<Marks>
        ensures before { result ≡ option_map (λ e. marks_of e.1) (entry_at (ranges_of self.old) index) }
        ensures gives { ranges_of self.new ≡ given (ranges_of self.old) index marks }
    {
        let Some(spot) = self.spot_recent(index) else {
            return None;
        };
        let Spot {
            cursor,
            level,
            first,
            ..
        } = spot;
        let were = self.marks_at(cursor, level, first);
        self.give(cursor, level, first, marks);
        Some(were)
    }

    /// Takes the marks `clear` off the entry at an index and gives it the marks `set`, and answers it as it was.
    pub fn change_marks(&mut self, index: u64, clear: Marks, set: Marks) -> Option<Marked>
        ensures before { result ≡ option_map marked_of (entry_at (ranges_of self.old) index) }
        ensures changes { ranges_of self.new ≡ changed (ranges_of self.old) index clear set }
    {
        let Some(spot) = self.spot_recent(index) else {
            return None;
        };
        let Spot {
            cursor,
            level,
            first,
            value,
        } = spot;
        let marks = self.marks_at(cursor, level, first);
        self.give(cursor, level, first, marks.after(clear, set));
        Some(Marked { value, marks })
    }

    /// Sets the mark `other` of the lowest entry with the mark whose range meets the indexes from `from` to `to`, and answers
    /// where the entry ends. Most often that has one index and is near the slot before `from`, if that is known.
    #[inline(always)]
    pub fn tag_next(
        &mut self,
        slot: Option<Position>,
        above: Option<Cursor>,
        from: u64,
        to: u64,
        mark: Mark,
        other: Mark,
    ) -> Option<Tagged>
        requires le { from ≤ to }
        requires outside { IsOutside (ranges_of self.old) from }
        requires after { IfSome slot (λ p. IsAfter self.old p from) }
        requires above { IfSome slot (λ p. IsAbove self.old p above) }
        ensures tags { MatchOption result ((lowest (has_mark mark) (ranges_of self.old) from to ≡ None) × (self.new ≡ self.old)) (λ r. TagsNext (ranges_of self.old) (ranges_of self.new) from to mark other r.last) }
        ensures after { IfSome result (λ r. IsAfter self.new r.slot (r.last + 1)) }
        ensures above { IfSome result (λ r. IsAbove self.new r.slot r.above) }
    {
        let Some(last) = slot else {
            return self.tag_far(None, from, to, mark, other);
        };
        let Position {
            cursor,
            level,
            place,
        } = last;
        if level == 0
            && let Some(ahead) = self.near(cursor, above, place, from, Some(mark))
            && ahead.is_alone
        {
            let Ahead {
                cursor,
                above,
                place,
                ..
            } = ahead;
            if place > to {
                return None;
            }
            self.nodes.set_bit_kept(cursor, place, 0, other.number());
            return Some(Tagged {
                last: place,
                slot: Position {
                    cursor,
                    level: 0,
                    place,
                },
                above,
            });
        }
        let slot = Position {
            cursor,
            level,
            place,
        };
        self.tag_far(Some(slot), from, to, mark, other)
    }

    // The same by each look that it may take. It goes up from the slot before `from`, if that is known.
    #[inline(never)]
    fn tag_far(
        &mut self,
        slot: Option<Position>,
        from: u64,
        to: u64,
        mark: Mark,
        other: Mark,
    ) -> Option<Tagged>
        requires le { from ≤ to }
        requires outside { IsOutside (ranges_of self.old) from }
        requires after { IfSome slot (λ p. IsAfter self.old p from) }
        ensures tags { MatchOption result ((lowest (has_mark mark) (ranges_of self.old) from to ≡ None) × (self.new ≡ self.old)) (λ r. TagsNext (ranges_of self.old) (ranges_of self.new) from to mark other r.last) }
        ensures after { IfSome result (λ r. IsAfter self.new r.slot (r.last + 1)) }
        ensures above { IfSome result (λ r. IsAbove self.new r.slot r.above) }
    {
        let Some(next) = self.first_marked(slot, from, mark.number()) else {
            return None;
        };
        let Position {
            cursor,
            level,
            place: begin,
        } = next;
        let first = first_at(level, begin);
        if first > to {
            return None;
        }
        let last = last_of(first, self.order_beside(cursor, level, first));
        self.nodes.set_bit(cursor, first, level, other.number());
        let place = place_at(last, level);
        Some(Tagged {
            last,
            slot: Position {
                cursor,
                level,
                place,
            },
            above: self.nodes.above(cursor, level, place / 64),
        })
    }
}
