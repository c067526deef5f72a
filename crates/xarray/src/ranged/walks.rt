//! The searches for the next entry, and the steps of a walk over entries in rising order.
ghost use Rattle.std.specs.Prelude.{◌≡◌, ℕ, ◌+◌, ◌*◌, ◌-◌, ◌/◌, ◌%◌, ◌^◌, ◌<◌, ◌≤◌, ◌==◌, [], ◌∷◌, Option, Some, None, IfSome, MatchOption, true, option_map};
ghost use Rattle.radix.specs.Entries as radix;
ghost use Rattle.radix.specs.Entries.{HasNoNext, HasNoNextEntry, IsLeaf, IsNext, IsNextEntry, StandsAt};
ghost use Rattle.radix.specs.Twigs.{IsTwig, mark_of};
ghost use Rattle.xarray.specs.MarkedArray.{entry_at, found_of, given, has_mark, is_any, lowest};
ghost use Rattle.xarray.specs.Standing.{IsLeafOf, IsOutside, IsSpot, IsStart};
ghost use Rattle.xarray.specs.View.{ranges_of};
ghost use Rattle.xarray.specs.Walks.{IsAfter, IsNear, IsOn, IsPlace, kind_of, left, number_of};

use super::{Ranged, Spot, last_of, leaf_value};
use crate::entry::{Found, Mark};
use radix::{Ahead, Cursor, Onward, Position, Twig, Walk, first_at, place_at};

/// One step of a walk: the entry, where the walk goes on, if it does, the entry's last slot, and its twig, if that is of the lowest
/// level.
#[derive(Clone, Copy)]
pub struct Step<'a> {
    pub found: Found,
    pub next: Option<u64>,
    pub slot: Position,
    pub twig: Option<Twig<'a>>,
}

impl Ranged {
    // The lowest entry whose range meets the indexes from `from` to `to`. Most often it is in the node of `from`, and then one
    // walk does, in the caller's own code.
    #[inline(always)]
    pub(super) fn next(&self, from: u64, to: u64) -> Option<Spot>
        ensures spot { MatchOption result (lowest is_any (ranges_of self.now) from to ≡ None) (λ t. IsSpot (ranges_of self.now) (lowest is_any (ranges_of self.now) from to) t.first t.level t.value) }
        ensures stands { IfSome result (λ t. StandsAt self.now t.cursor t.level (t.first / 64 ^ t.level / 64)) }
    {
        if from > to {
            return None;
        }
        let Some(walk) = self.nodes.walk_recent(from) else {
            return self.next_far(None, from, to);
        };
        let Walk {
            cursor,
            level,
            entry,
        } = walk;
        if let Some(spot) = self.spot_in(cursor, level, entry, from) {
            return Some(spot);
        }
        if level > 0 {
            return self.next_far(None, from, to);
        }
        self.next_in(cursor, from, to)
    }

    // The same where the node of `from` at the lowest level is known, and no entry begins before `from` and ends past
    // it.
    #[inline]
    fn next_in(&self, cursor: Cursor, from: u64, to: u64) -> Option<Spot>
        requires le { from ≤ to }
        requires outside { IsOutside (ranges_of self.now) from }
        requires stands { StandsAt self.now cursor 0 (from / 64 ^ 0 / 64) }
        ensures spot { MatchOption result (lowest is_any (ranges_of self.now) from to ≡ None) (λ t. IsSpot (ranges_of self.now) (lowest is_any (ranges_of self.now) from to) t.first t.level t.value) }
        ensures stands { IfSome result (λ t. StandsAt self.now t.cursor t.level (t.first / 64 ^ t.level / 64)) }
    {
        let Some(near) = self.nodes.next_entry_in(cursor, from) else {
            return self.next_far(None, from, to);
        };
        if near.place > to {
            return None;
        }
        Some(Spot {
            cursor,
            level: 0,
            first: near.place,
            value: near.value,
        })
    }

    // The lowest first slot of an entry at an index or later: from the slot before the index upward, if that is known.
    #[inline(always)]
    fn first_slot(&self, slot: Option<Position>, from: u64) -> Option<Position>
        requires after { IfSome slot (λ p. IsAfter self.now p from) }
        ensures next { MatchOption result (HasNoNextEntry self.now from) (λ r. IsNextEntry self.now from r.level r.place) }
        ensures stands { IfSome result (λ r. StandsAt self.now r.cursor r.level (r.place / 64)) }
    {
        match slot {
            Some(slot) => self.nodes.next_entry_after(slot, from),
            None => self.nodes.next_entry(from),
        }
    }

    // The same of the entries with a mark.
    #[inline(always)]
    pub(super) fn first_marked(
        &self,
        slot: Option<Position>,
        from: u64,
        mark: usize,
    ) -> Option<Position>
        requires mark { mark < 3 }
        requires after { IfSome slot (λ p. IsAfter self.now p from) }
        ensures next { MatchOption result (HasNoNext self.now mark from) (λ r. IsNext self.now mark from r.level r.place) }
        ensures stands { IfSome result (λ r. StandsAt self.now r.cursor r.level (r.place / 64)) }
    {
        match slot {
            Some(slot) => self.nodes.next_set_after(slot, from, mark),
            None => self.nodes.next_set(from, mark),
        }
    }

    // The same by a search of the tree, from the slot before `from` upward if it is known.
    #[inline(never)]
    fn next_far(&self, slot: Option<Position>, from: u64, to: u64) -> Option<Spot>
        requires le { from ≤ to }
        requires outside { IsOutside (ranges_of self.now) from }
        requires after { IfSome slot (λ p. IsAfter self.now p from) }
        ensures spot { MatchOption result (lowest is_any (ranges_of self.now) from to ≡ None) (λ t. IsSpot (ranges_of self.now) (lowest is_any (ranges_of self.now) from to) t.first t.level t.value) }
        ensures stands { IfSome result (λ t. StandsAt self.now t.cursor t.level (t.first / 64 ^ t.level / 64)) }
    {
        // As in `spot_in`.
        let _nodes = &self.nodes;
        let Some(next) = self.first_slot(slot, from) else {
            return None;
        };
        let spot = self.spot_at(next);
        if spot.first > to {
            return None;
        }
        Some(spot)
    }

    /// Where a search that is to see the entry at an index begins: the nodes tell of an entry at its first slot.
    #[inline(never)]
    pub fn start(&self, index: u64) -> u64
        ensures { IsStart (ranges_of self.now) index result }
    {
        let Some(walk) = self.nodes.walk(index) else {
            return index;
        };
        let Walk {
            cursor,
            level,
            entry,
        } = walk;
        match self.spot_in(cursor, level, entry, index) {
            Some(spot) => spot.first,
            None => index,
        }
    }

    // The lowest entry with the mark whose range meets the indexes from `from` to `to`.
    fn next_marked(&self, from: u64, to: u64, mark: Mark) -> Option<Spot>
        ensures spot { MatchOption result (lowest (has_mark mark) (ranges_of self.now) from to ≡ None) (λ t. IsSpot (ranges_of self.now) (lowest (has_mark mark) (ranges_of self.now) from to) t.first t.level t.value) }
        ensures stands { IfSome result (λ t. StandsAt self.now t.cursor t.level (t.first / 64 ^ t.level / 64)) }
    {
        if from > to {
            return None;
        }
        let Some(next) = self.nodes.next_held(from, mark.number()) else {
            return None;
        };
        let spot = self.spot_at(next);
        if spot.first > to {
            return None;
        }
        Some(spot)
    }

    // The lowest entry with the mark from an index on that no entry begins before and ends past, from the slot before the index
    // upward if it is known.
    #[inline]
    fn next_marked_far(
        &self,
        slot: Option<Position>,
        from: u64,
        to: u64,
        mark: Mark,
    ) -> Option<Spot>
        requires le { from ≤ to }
        requires outside { IsOutside (ranges_of self.now) from }
        requires after { IfSome slot (λ p. IsAfter self.now p from) }
        ensures spot { MatchOption result (lowest (has_mark mark) (ranges_of self.now) from to ≡ None) (λ t. IsSpot (ranges_of self.now) (lowest (has_mark mark) (ranges_of self.now) from to) t.first t.level t.value) }
        ensures stands { IfSome result (λ t. StandsAt self.now t.cursor t.level (t.first / 64 ^ t.level / 64)) }
    {
        // As in `spot_in`.
        let _nodes = &self.nodes;
        let Some(next) = self.first_marked(slot, from, mark.number()) else {
            return None;
        };
        let spot = self.spot_at(next);
        if spot.first > to {
            return None;
        }
        Some(spot)
    }

    // The lowest entry with the mark, or of all where none is given, from an index on that no entry begins before and ends past.
    #[inline(always)]
    fn next_from(
        &self,
        slot: Option<Position>,
        from: u64,
        to: u64,
        mark: Option<Mark>,
    ) -> Option<Spot>
        requires le { from ≤ to }
        requires outside { IsOutside (ranges_of self.now) from }
        requires after { IfSome slot (λ p. IsAfter self.now p from) }
        ensures spot { MatchOption result (lowest (kind_of mark) (ranges_of self.now) from to ≡ None) (λ t. IsSpot (ranges_of self.now) (lowest (kind_of mark) (ranges_of self.now) from to) t.first t.level t.value) }
        ensures stands { IfSome result (λ t. StandsAt self.now t.cursor t.level (t.first / 64 ^ t.level / 64)) }
    {
        match mark {
            None => self.next_far(slot, from, to),
            Some(mark) => self.next_marked_far(slot, from, to, mark),
        }
    }

    // The next entry after a slot of the lowest level, where it is near, most often with the news that it has one index.
    #[inline(always)]
    pub(super) fn near(
        &self,
        cursor: Cursor,
        above: Option<Cursor>,
        place: u64,
        from: u64,
        mark: Option<Mark>,
    ) -> Option<Ahead>
        requires outside { IsOutside (ranges_of self.now) from }
        requires stands { StandsAt self.now cursor 0 (place / 64) }
        requires above { IfSome above (λ k. StandsAt self.now k 1 (place / 64 / 64)) }
        requires after { from ≡ place + 1 }
        ensures near { IfSome result (λ r. r.is_alone ≡ true → (to : ℕ) → from ≤ to → IsNear (ranges_of self.now) (kind_of mark) from to r.place r.value) }
        ensures above { IfSome result (λ r. IfSome r.above (λ k. StandsAt self.now k 1 (r.place / 64 / 64))) }
        ensures stands { IfSome result (λ r. StandsAt self.now r.cursor 0 (r.place / 64)) }
    {
        // As in `spot_in`.
        let _nodes = &self.nodes;
        match mark {
            None => self.nodes.next_entry_near(cursor, above, place, from),
            Some(mark) => self
                .nodes
                .next_set_near(cursor, above, place, from, mark.number()),
        }
    }

    /// The next entry of a walk, where it has one index and the twig leads to it. It is a part of the caller's own loop, so it
    /// looks at nothing else.
    #[inline(always)]
    pub fn next_on<'a>(&'a self, twig: Twig<'a>, from: u64) -> Option<Onward<'a>>
        requires outside { IsOutside (ranges_of self.now) from }
        requires twig { IsTwig self.now from twig }
        ensures near { IfSome result (λ r. (mark : Option Mark) → mark_of twig.entry ≡ number_of mark → (to : ℕ) → from ≤ to → IsNear (ranges_of self.now) (kind_of mark) from to r.place r.value) }
        ensures twig { IfSome result (λ r. IsTwig self.now (r.place + 1) r.twig) }
        ensures mark { IfSome result (λ r. mark_of r.twig ≡ mark_of twig.entry) }
    {
        self.nodes.next_on(twig, from)
    }

    /// The first entry that is left of a walk, and where the walk goes on, by each look that it may take. It hands its slot on in parts,
    /// so that the caller's loop can keep them in registers.
    #[inline(always)]
    pub fn step<'a>(
        &'a self,
        twig: Option<Twig<'a>>,
        slot: Option<Position>,
        from: u64,
        to: u64,
        mark: Option<Mark>,
    ) -> Option<Step<'a>>
        requires le { from ≤ to }
        requires outside { IsOutside (ranges_of self.now) from }
        requires twig { IfSome twig (λ t. IsTwig self.now from t) }
        requires slot { twig ≡ None → IfSome slot (λ p. IsAfter self.now p from) }
        ensures first { MatchOption result (left mark (ranges_of self.now) (Some from) to ≡ []) (λ r. left mark (ranges_of self.now) (Some from) to ≡ r.found ∷ left mark (ranges_of self.now) r.next to) }
        ensures place { IfSome result (λ r. IsPlace self.now mark r.next to r.twig (Some r.slot)) }
    {
        let Some(twig) = twig else {
            let Some(last) = slot else {
                return self.step_from(None, from, to, mark);
            };
            return self.step_past(last.cursor, last.level, last.place, from, to, mark);
        };
        let before = self.nodes.slot_before(twig, from);
        self.step_past(before.cursor, before.level, before.place, from, to, mark)
    }

    // The same after a slot, which is put together here, out of the caller's loop.
    #[inline(never)]
    fn step_past(
        &self,
        cursor: Cursor,
        level: u32,
        place: u64,
        from: u64,
        to: u64,
        mark: Option<Mark>,
    ) -> Option<Step<'_>>
        requires le { from ≤ to }
        requires outside { IsOutside (ranges_of self.now) from }
        requires after { IsAfter self.now (record { cursor = cursor; level = level; place = place }) from }
        ensures first { MatchOption result (left mark (ranges_of self.now) (Some from) to ≡ []) (λ r. left mark (ranges_of self.now) (Some from) to ≡ r.found ∷ left mark (ranges_of self.now) r.next to) }
        ensures place { IfSome result (λ r. IsPlace self.now mark r.next to r.twig (Some r.slot)) }
    {
        let slot = Position {
            cursor,
            level,
            place,
        };
        self.step_from(Some(slot), from, to, mark)
    }

    // The same from a slot upward, if one is known.
    #[inline(never)]
    fn step_from(
        &self,
        slot: Option<Position>,
        from: u64,
        to: u64,
        mark: Option<Mark>,
    ) -> Option<Step<'_>>
        requires le { from ≤ to }
        requires outside { IsOutside (ranges_of self.now) from }
        requires after { IfSome slot (λ p. IsAfter self.now p from) }
        ensures first { MatchOption result (left mark (ranges_of self.now) (Some from) to ≡ []) (λ r. left mark (ranges_of self.now) (Some from) to ≡ r.found ∷ left mark (ranges_of self.now) r.next to) }
        ensures place { IfSome result (λ r. IsPlace self.now mark r.next to r.twig (Some r.slot)) }
    {
        // As in `spot_in`.
        let _nodes = &self.nodes;
        let Some(spot) = self.next_from(slot, from, to, mark) else {
            return None;
        };
        let Spot {
            cursor,
            level,
            first,
            value,
        } = spot;
        let order = self.order_beside(cursor, level, first);
        let last = last_of(first, order);
        let place = place_at(last, level);
        Some(Step {
            found: Found {
                first,
                order,
                value,
            },
            next: index_after(last, to),
            slot: Position {
                cursor,
                level,
                place,
            },
            twig: self.twig_of(cursor, level, place, mark),
        })
    }

    // The twig of a slot for a walk over the entries after it, where it is one of the lowest level.
    fn twig_of(
        &self,
        cursor: Cursor,
        level: u32,
        place: u64,
        mark: Option<Mark>,
    ) -> Option<Twig<'_>>
        requires { StandsAt self.now cursor level (place / 64) }
        ensures { IfSome result (λ t. (level ≡ 0) × IsOn self.now mark (place + 1) t) }
    {
        if level > 0 {
            return None;
        }
        match mark {
            None => Some(self.nodes.entry_twig(cursor, place)),
            Some(mark) => Some(self.nodes.marked_twig(cursor, place, mark.number())),
        }
    }

    /// The lowest entry whose range meets the indexes from `from` to `to`.
    #[inline(always)]
    pub fn find(&self, from: u64, to: u64) -> Option<Found>
        ensures { result ≡ option_map found_of (lowest is_any (ranges_of self.now) from to) }
    {
        match self.next(from, to) {
            Some(spot) => Some(self.found(spot)),
            None => None,
        }
    }

    /// The lowest entry with the mark whose range meets the indexes from `from` to `to`.
    #[inline(always)]
    pub fn find_marked(&self, from: u64, to: u64, mark: Mark) -> Option<Found>
        ensures { result ≡ option_map found_of (lowest (has_mark mark) (ranges_of self.now) from to) }
    {
        match self.next_marked(from, to, mark) {
            Some(spot) => Some(self.found(spot)),
            None => None,
        }
    }

    // The entry whose first slot a search found.
    #[inline]
    fn spot_at(&self, next: Position) -> Spot
        requires leaf { IsLeaf (radix.entry_at self.now next.level next.place) }
        requires low { next.level ≤ 10 }
        requires fits { next.place * 64 ^ next.level < 2 ^ 64 }
        requires stands { StandsAt self.now next.cursor next.level (next.place / 64) }
        ensures entry { IsLeafOf (ranges_of self.now) next.level next.place result.value }
        ensures place { (result.first ≡ next.place * 64 ^ next.level) × (result.level ≡ next.level) }
        ensures stands { StandsAt self.now result.cursor result.level (result.first / 64 ^ result.level / 64) }
    {
        let Position {
            cursor,
            level,
            place,
        } = next;
        let first = first_at(level, place);
        let value = leaf_value(self.nodes.entry_in(cursor, first, level));
        Spot {
            cursor,
            level,
            first,
            value,
        }
    }
}

// The index after one, if it is not past the last.
#[inline(always)]
pub(crate) fn index_after(index: u64, last: u64) -> Option<u64>
    ensures { MatchOption result (last ≤ index) (λ next. (next ≡ index + 1) × (index < last)) }
{
    if index < last { Some(index + 1) } else { None }
}
