//! The array as its caller sees it: a finite map of ranges.
ghost use Rattle.std.specs.Prelude.{◌≡◌, ◌≢◌, ℕ, ◌+◌, ◌-◌, ◌/◌, ◌%◌, ◌<◌, ◌≤◌, ◌^◌, ◌↔◌, ◌⊎◌, min, Some, None, Err, IfOk, OnOk, OnErr, IfErr, IsOk, IsSome, MatchBool, option_map, map as map_list, true, false};
ghost use Rattle.std.specs.List.{list_any};
ghost use Rattle.pc_types.specs.declared.refusal.Refusal.{Refusal};
ghost use Rattle.std.specs.FinMap as map;
ghost use Rattle.xarray.specs.MarkedArray.{IsArray, Range, after_refusal, changed, count_of, entry_at, erased, found_of, given, has_mark, is_any, is_marked, lowest, marked_of, marks_of, entries_in, remarked, retagged, split, stored, unmarked};

use crate::entries::Entries;
use crate::entry::{Found, Mark, Marked, Marks};
use crate::ranged::Ranged;
use pc_types::Refusal;
use radix::{Cursor, Position};
use std::alloc::Global;
use std::marker::Model;

/// The greatest value of an entry: an entry's word has one bit that tells it from a node's.
pub const MAX_VALUE: u64 = 9_223_372_036_854_775_807;

/// A marked array, indexed by `u64`.
#[derive(Drop)]
pub struct XArray {
    ranged: Ranged,
    // The range for which `reserve` made room, by its first index and its order, until the next change.
    ready: Option<(u64, u32)>,
}

impl Model for XArray {
    ghost use Rattle.xarray.specs.MarkedArray.{Array, array_code};
    ghost use Rattle.xarray.specs.View.{array_of, IsReady};

    ghost Value = { Array };

    ghost coded = { array_code };

    ghost view = { λ a. array_of a.ranged a.ready };

    ghost invariant = { λ a. IsReady a.ranged a.ready };
}

impl XArray {
    pub fn new(alloc: Global) -> XArray
        ensures { result ≡ record { ranges = map.empty; ready = None } }
    {
        XArray {
            ranged: Ranged::new(alloc),
            ready: None,
        }
    }

    /// The number of nodes in use, 576 bytes each.
    pub fn nodes(&self) -> usize
        ensures empty { self.now.ranges ≡ map.empty ↔ result ≡ 0 }
        ensures shape { IsArray self.now.ranges }
    {
        self.ranged.nodes()
    }

    /// The value at an index.
    #[inline(always)]
    pub fn load(&self, index: u64) -> Option<u64>
        ensures { result ≡ option_map (λ e. e.1.value) (entry_at self.now.ranges index) }
    {
        self.ranged.load(index)
    }

    /// The value at an index, where the entry has the mark.
    #[inline(always)]
    pub fn load_marked(&self, index: u64, mark: Mark) -> Option<u64>
        ensures marked { is_marked mark (entry_at self.now.ranges index) ≡ true → result ≡ option_map (λ e. e.1.value) (entry_at self.now.ranges index) }
        ensures unmarked { is_marked mark (entry_at self.now.ranges index) ≡ false → result ≡ None }
    {
        self.ranged.load_marked(index, mark)
    }

    /// The value at an index with all three marks of its entry: one walk, of the four that `load` and `get_mark` take.
    #[inline(always)]
    pub fn load_with_marks(&self, index: u64) -> Option<Marked>
        ensures { result ≡ option_map marked_of (entry_at self.now.ranges index) }
    {
        self.ranged.load_with_marks(index)
    }

    /// Makes room for a range, so that a store or an insert there meets no want of memory if it is the next change. The index
    /// is a multiple of `2 ^ order`.
    pub fn reserve(&mut self, index: u64, order: u32) -> Result<(), Refusal>
        ensures reserves { OnOk result (self.new ≡ record self.old { ready = Some (index, order) }) }
        ensures bad { (63 < order) ⊎ (index % 2 ^ order ≢ 0) → result ≡ Err Refusal.BadOrder }
        ensures memory { order ≤ 63 → index % 2 ^ order ≡ 0 → IfErr result (λ refusal. refusal ≡ Refusal.Memory) }
        ensures refused { IfErr result (λ refusal. self.new ≡ after_refusal refusal self.old) }
        ensures kept { OnErr result (self.new.ranges ≡ self.old.ranges) }
    {
        if !is_aligned(index, order) {
            return Err(Refusal::BadOrder);
        }
        self.ready = None;
        self.ranged.reserve(index, order)?;
        self.ready = Some((index, order));
        Ok(())
    }

    /// Stores a value, at most `MAX_VALUE`, and answers the one before.
    pub fn store(&mut self, index: u64, value: u64) -> Result<Option<u64>, Refusal>
        ensures before { IfOk result (λ before. before ≡ option_map (λ e. e.1.value) (entry_at self.old.ranges index)) }
        ensures stores { OnOk result (self.new ≡ record { ranges = stored self.old.ranges index value; ready = None }) }

        // Why it is refused: the value, else want of memory, which an entry at the index or room for it rules out.
        ensures bad { 2 ^ 63 ≤ value → result ≡ Err Refusal.BadEntry }
        ensures memory { value < 2 ^ 63 → IfErr result (λ refusal. refusal ≡ Refusal.Memory) }
        ensures over { value < 2 ^ 63 → IsSome (entry_at self.old.ranges index) → IsOk result }
        ensures room { value < 2 ^ 63 → self.old.ready ≡ Some (index, 0) → IsOk result }
        ensures refused { IfErr result (λ refusal. self.new ≡ after_refusal refusal self.old) }
        ensures kept { OnErr result (self.new.ranges ≡ self.old.ranges) }
    {
        if value > MAX_VALUE {
            return Err(Refusal::BadEntry);
        }
        self.ready = None;
        self.ranged.store(index, value)
    }

    /// Puts an entry of one index without marks where none is.
    pub fn insert(&mut self, index: u64, value: u64) -> Result<(), Refusal>
        ensures inserts { OnOk result (self.new ≡ record { ranges = map.insert self.old.ranges index (unmarked 0 value); ready = None }) }

        // Why it is refused: the value, else an entry at the index, else want of memory, which room for it rules out.
        ensures bad { 2 ^ 63 ≤ value → result ≡ Err Refusal.BadEntry }
        ensures busy { value < 2 ^ 63 → IsSome (entry_at self.old.ranges index) → result ≡ Err Refusal.Busy }
        ensures memory { value < 2 ^ 63 → entry_at self.old.ranges index ≡ None → IfErr result (λ refusal. refusal ≡ Refusal.Memory) }
        ensures room { value < 2 ^ 63 → entry_at self.old.ranges index ≡ None → self.old.ready ≡ Some (index, 0) → IsOk result }
        ensures refused { IfErr result (λ refusal. self.new ≡ after_refusal refusal self.old) }
        ensures kept { OnErr result (self.new.ranges ≡ self.old.ranges) }
    {
        if value > MAX_VALUE {
            return Err(Refusal::BadEntry);
        }
        match self.ranged.insert(index, value) {
            Ok(true) => {
                self.ready = None;
                Ok(())
            }
            Ok(false) => Err(Refusal::Busy),
            Err(refusal) => {
                self.ready = None;
                Err(refusal)
            }
        }
    }

    /// Puts an entry of an order without marks where its range meets none. The index is a multiple of `2 ^ order`.
    pub fn insert_order(&mut self, index: u64, order: u32, value: u64) -> Result<(), Refusal>
        ensures inserts { OnOk result (self.new ≡ record { ranges = map.insert self.old.ranges index (unmarked order value); ready = None }) }

        // Why it is refused: the value, else the order, else an entry that the range meets, else want of memory, which room
        // for it rules out.
        ensures bad { 2 ^ 63 ≤ value → result ≡ Err Refusal.BadEntry }
        ensures order { value < 2 ^ 63 → (63 < order) ⊎ (index % 2 ^ order ≢ 0) → result ≡ Err Refusal.BadOrder }
        ensures busy { value < 2 ^ 63 → order ≤ 63 → index % 2 ^ order ≡ 0 → IsSome (lowest is_any self.old.ranges index (index + 2 ^ order - 1)) → result ≡ Err Refusal.Busy }
        ensures memory { value < 2 ^ 63 → order ≤ 63 → index % 2 ^ order ≡ 0 → lowest is_any self.old.ranges index (index + 2 ^ order - 1) ≡ None → IfErr result (λ refusal. refusal ≡ Refusal.Memory) }
        ensures room { value < 2 ^ 63 → order ≤ 63 → index % 2 ^ order ≡ 0 → lowest is_any self.old.ranges index (index + 2 ^ order - 1) ≡ None → self.old.ready ≡ Some (index, order) → IsOk result }
        ensures refused { IfErr result (λ refusal. self.new ≡ after_refusal refusal self.old) }
        ensures kept { OnErr result (self.new.ranges ≡ self.old.ranges) }
    {
        if value > MAX_VALUE {
            return Err(Refusal::BadEntry);
        }
        if !is_aligned(index, order) {
            return Err(Refusal::BadOrder);
        }
        match self.ranged.insert_order(index, order, value) {
            Ok(true) => {
                self.ready = None;
                Ok(())
            }
            Ok(false) => Err(Refusal::Busy),
            Err(refusal) => {
                self.ready = None;
                Err(refusal)
            }
        }
    }

    /// Takes the entry at an index away, and answers its value.
    pub fn erase(&mut self, index: u64) -> Option<u64>
        ensures before { result ≡ option_map (λ e. e.1.value) (entry_at self.old.ranges index) }
        ensures erases { self.new ≡ record { ranges = erased self.old.ranges index; ready = None } }
    {
        let taken = self.take(index)?;
        Some(taken.value)
    }

    /// Takes the entry at an index away as `erase` does, and answers its value with its marks.
    pub fn take(&mut self, index: u64) -> Option<Marked>
        ensures before { result ≡ option_map marked_of (entry_at self.old.ranges index) }
        ensures takes { self.new ≡ record { ranges = erased self.old.ranges index; ready = None } }
    {
        self.ready = None;
        self.ranged.take(index)
    }

    /// Splits the entry at an index into entries of this order over the same indexes, each with its value and marks. An order
    /// that is the entry's changes no entry.
    ///
    /// An order k takes no memory where k / 6 is K / 6, as of an entry whose order K is 5 or less. Else it makes 2^(K - 6 * l)
    /// nodes for each level l above k / 6, up to K / 6: 8 from order 9 to order 0, and some 2^57 from order 63 to order 0. It
    /// makes room for all of them at first, so a split that wants more than there is answers `Memory` and changes nothing.
    pub fn split(&mut self, index: u64, order: u32) -> Result<(), Refusal>
        ensures splits { OnOk result (self.new ≡ record { ranges = split self.old.ranges index order; ready = None }) }

        // Why it is refused: no entry at the index, else an order above the entry's, else want of memory, which the same
        // level rules out.
        ensures free { entry_at self.old.ranges index ≡ None → result ≡ Err Refusal.NoEntry }
        ensures order { (first : ℕ) (r : Range) → entry_at self.old.ranges index ≡ Some (first, r) → r.order < order → result ≡ Err Refusal.BadOrder }
        ensures memory { (first : ℕ) (r : Range) → entry_at self.old.ranges index ≡ Some (first, r) → order ≤ r.order → IfErr result (λ refusal. refusal ≡ Refusal.Memory) }
        ensures no_memory { (first : ℕ) (r : Range) → entry_at self.old.ranges index ≡ Some (first, r) → order ≤ r.order → order / 6 ≡ r.order / 6 → IsOk result }
        ensures refused { IfErr result (λ refusal. self.new ≡ after_refusal refusal self.old) }
        ensures kept { OnErr result (self.new.ranges ≡ self.old.ranges) }
    {
        let whole = self.ranged.whole(index, order)?;
        self.ready = None;
        self.ranged.split(whole, order)
    }

    /// Sets a mark of the entry at an index.
    pub fn set_mark(&mut self, index: u64, mark: Mark) -> Result<(), Refusal>
        ensures held { IsSome (entry_at self.old.ranges index) → IsOk result }
        ensures free { entry_at self.old.ranges index ≡ None → result ≡ Err Refusal.NoEntry }
        ensures sets { OnOk result (self.new ≡ record { ranges = remarked self.old.ranges index mark true; ready = None }) }
        ensures refused { OnErr result (self.new ≡ self.old) }
    {
        if !self.ranged.set_mark(index, mark) {
            return Err(Refusal::NoEntry);
        }
        self.ready = None;
        Ok(())
    }

    /// Clears a mark of the entry at an index.
    pub fn clear_mark(&mut self, index: u64, mark: Mark)
        ensures { self.new ≡ record { ranges = remarked self.old.ranges index mark false; ready = None } }
    {
        self.ready = None;
        self.ranged.clear_mark(index, mark);
    }

    /// Sets or clears a mark of the entry at an index, and answers whether it had the mark: one walk for both.
    pub fn swap_mark(&mut self, index: u64, mark: Mark, is_set: bool) -> Option<bool>
        ensures before { result ≡ option_map (λ e. has_mark mark e.1) (entry_at self.old.ranges index) }
        ensures sets { self.new ≡ record { ranges = remarked self.old.ranges index mark is_set; ready = None } }
    {
        self.ready = None;
        self.ranged.swap_mark(index, mark, is_set)
    }

    /// Gives the entry at an index these marks and no others, and answers those that it had: one walk for all three.
    pub fn swap_marks(&mut self, index: u64, marks: Marks) -> Option<Marks>
        ensures before { result ≡ option_map (λ e. marks_of e.1) (entry_at self.old.ranges index) }
        ensures gives { self.new ≡ record { ranges = given self.old.ranges index marks; ready = None } }
    {
        self.ready = None;
        self.ranged.swap_marks(index, marks)
    }

    /// Takes the marks `clear` off the entry at an index and gives it the marks `set`, and answers its value with the marks
    /// that it had: one walk for all.
    pub fn change_marks(&mut self, index: u64, clear: Marks, set: Marks) -> Option<Marked>
        ensures before { result ≡ option_map marked_of (entry_at self.old.ranges index) }
        ensures changes { self.new ≡ record { ranges = changed self.old.ranges index clear set; ready = None } }
    {
        self.ready = None;
        self.ranged.change_marks(index, clear, set)
    }

    /// Whether the entry at an index has a mark.
    pub fn get_mark(&self, index: u64, mark: Mark) -> bool
        ensures { result ≡ is_marked mark (entry_at self.now.ranges index) }
    {
        self.ranged.get_mark(index, mark)
    }

    /// Whether any entry has the mark.
    pub fn marked(&self, mark: Mark) -> bool
        ensures { result ≡ list_any (has_mark mark) (map.values self.now.ranges) }
    {
        self.ranged.marked(mark)
    }

    /// The lowest entry whose range meets the indexes from `from` to `to`.
    #[inline(always)]
    pub fn find(&self, from: u64, to: u64) -> Option<Found>
        ensures { result ≡ option_map found_of (lowest is_any self.now.ranges from to) }
    {
        self.ranged.find(from, to)
    }

    /// The lowest entry with the mark whose range meets the indexes from `from` to `to`.
    #[inline(always)]
    pub fn find_marked(&self, from: u64, to: u64, mark: Mark) -> Option<Found>
        ensures { result ≡ option_map found_of (lowest (has_mark mark) self.now.ranges from to) }
    {
        self.ranged.find_marked(from, to, mark)
    }

    /// The entries whose ranges meet the indexes from `from` to `to`, in rising order.
    #[inline(always)]
    pub fn entries(&self, from: u64, to: u64) -> Entries<'_>
        ensures { result ≡ map_list found_of (entries_in is_any self.now.ranges from to) }
    {
        Entries::new(&self.ranged, None, from, to)
    }

    /// The entries with the mark whose ranges meet the indexes from `from` to `to`, in rising order.
    #[inline(always)]
    pub fn entries_marked(&self, from: u64, to: u64, mark: Mark) -> Entries<'_>
        ensures { result ≡ map_list found_of (entries_in (has_mark mark) self.now.ranges from to) }
    {
        Entries::new(&self.ranged, Some(mark), from, to)
    }

    /// Sets the mark `other` of every entry with the mark whose range meets the indexes from `from` to `to`, and answers how
    /// many they are. It goes from one marked entry to the next.
    pub fn retag(&mut self, from: u64, to: u64, mark: Mark, other: Mark) -> u64
        // Only 2^64 entries of one index each are more than a `u64` can count.
        ensures count { result ≡ min (count_of self.old.ranges from to mark) (2 ^ 64 - 1) }
        ensures retags { self.new ≡ record { ranges = retagged self.old.ranges from to mark other; ready = None } }
    {
        self.ready = None;
        if from > to {
            return 0;
        }
        let mut count: u64 = 0;
        let mut next = self.ranged.start(from);
        let mut slot: Option<Position> = None;
        let mut above: Option<Cursor> = None;
        'entries: loop {
            let Some(tagged) = self.ranged.tag_next(slot, above, next, to, mark, other) else {
                return count;
            };
            count = count.saturating_add(1);
            if tagged.last >= to {
                return count;
            }
            next = tagged.last + 1;
            slot = Some(tagged.slot);
            above = tagged.above;
        }
    }
}

// Whether a range of this order may begin at an index.
fn is_aligned(index: u64, order: u32) -> bool
    ensures { MatchBool result ((order ≤ 63) × (index % 2 ^ order ≡ 0)) ((63 < order) ⊎ (index % 2 ^ order ≢ 0)) }
{
    order <= 63 && index % (1 << order) == 0
}
