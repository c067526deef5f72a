//! The split of an entry into entries of a lower order: its slots are cut in their node, and where the new order has a lower
//! level, each slot becomes a node, and each of its slots a node again, level by level.
ghost use Rattle.std.specs.Prelude.{◌≡◌, ◌≢◌, ℕ, ◌+◌, ◌*◌, ◌-◌, ◌/◌, ◌%◌, ◌^◌, ◌<◌, ◌≤◌, ◌⊎◌, Some, None, Err, IfOk, OnOk, OnErr, IfErr, IsOk};
ghost use Rattle.std.specs.FinMap as map;
ghost use Rattle.pc_types.specs.declared.refusal.Refusal.{Refusal};
ghost use Rattle.radix.specs.Entries.{StandsAt};
ghost use Rattle.radix.specs.Parts.{HasNodeRoom};
ghost use Rattle.xarray.specs.MarkedArray.{Range, entry_at, parts};
ghost use Rattle.xarray.specs.Rows.{HasRow, IsRow, IsWhole, tree_of};
ghost use Rattle.xarray.specs.View.{ranges_of};

use super::{Ranged, Spot};
use pc_types::Refusal;
use radix::Cursor;

/// An entry that is to be split: its first index, its order, and where its first slot is.
#[derive(Clone, Copy)]
pub struct Whole {
    cursor: Cursor,
    level: u32,
    first: u64,
    order: u32,
}

impl Ranged {
    /// The entry at an index, where its order is this one or above it.
    pub fn whole(&self, index: u64, order: u32) -> Result<Whole, Refusal>
        ensures free { entry_at (ranges_of self.now) index ≡ None → result ≡ Err Refusal.NoEntry }
        ensures order { (first : ℕ) (r : Range) → entry_at (ranges_of self.now) index ≡ Some (first, r) → r.order < order → result ≡ Err Refusal.BadOrder }
        ensures found { (first : ℕ) (r : Range) → entry_at (ranges_of self.now) index ≡ Some (first, r) → order ≤ r.order → IsOk result }
        ensures err { IfErr result (λ refusal. (refusal ≡ Refusal.NoEntry) ⊎ (refusal ≡ Refusal.BadOrder)) }
        ensures whole { IfOk result (λ w. IsWhole (ranges_of self.now) w.first w.order w.level) }
        ensures is { IfOk result (λ w. (r : Range) → map.get (ranges_of self.now) w.first ≡ Some r → entry_at (ranges_of self.now) index ≡ Some (w.first, r)) }
        ensures fits { IfOk result (λ w. order ≤ w.order) }
        ensures stands { IfOk result (λ w. StandsAt self.now w.cursor w.level (w.first / 64 ^ w.level / 64)) }
    {
        let Some(spot) = self.spot(index) else {
            return Err(Refusal::NoEntry);
        };
        let Spot {
            cursor,
            level,
            first,
            ..
        } = spot;
        let from = self.order_of(cursor, level, first);
        if order > from {
            return Err(Refusal::BadOrder);
        }
        Ok(Whole {
            cursor,
            level,
            first,
            order: from,
        })
    }

    /// Splits an entry into entries of an order that is not above its own. It takes no memory where they stand at its level.
    pub fn split(&mut self, whole: Whole, order: u32) -> Result<(), Refusal>
        requires whole { IsWhole (ranges_of self.old) whole.first whole.order whole.level }
        requires fits { order ≤ whole.order }
        requires stands { StandsAt self.old whole.cursor whole.level (whole.first / 64 ^ whole.level / 64) }
        ensures splits { (r : Range) → map.get (ranges_of self.old) whole.first ≡ Some r → OnOk result (ranges_of self.new ≡ parts (ranges_of self.old) whole.first order r (2 ^ (r.order - order))) }
        ensures same { OnErr result (ranges_of self.new ≡ ranges_of self.old) }
        ensures err { IfErr result (λ refusal. refusal ≡ Refusal.Memory) }
        ensures level { order / 6 ≡ whole.order / 6 → IsOk result }
    {
        let Whole {
            cursor,
            level,
            first,
            order: from,
        } = whole;
        if order / 6 == level {
            self.cut(cursor, first, from, order % 6);
            return Ok(());
        }
        self.nodes.reserve_nodes(nodes_for(from, order))?;
        self.split_down(cursor, first, from, order);
        Ok(())
    }

    // Splits an entry in its node, into entries of 2^step slots each.
    fn cut(&mut self, cursor: Cursor, first: u64, from: u32, step: u32)
        requires whole { IsWhole (ranges_of self.old) first from (from / 6) }
        requires step { step ≤ from % 6 }
        requires stands { StandsAt self.old cursor (from / 6) (first / 64 ^ (from / 6) / 64) }
        ensures parts { (r : Range) → map.get (ranges_of self.old) first ≡ Some r → ranges_of self.new ≡ parts (ranges_of self.old) first (6 * (from / 6) + step) r (2 ^ (from - (6 * (from / 6) + step))) }
        ensures room { (more : ℕ) → HasNodeRoom self.old more → HasNodeRoom self.new more }
    {
        let span = 1 << (from % 6);
        self.nodes.cut_run(cursor, first, from / 6, span, step);
    }

    // Splits an entry across levels, in room for the nodes that this makes.
    fn split_down(&mut self, cursor: Cursor, first: u64, from: u32, order: u32)
        requires whole { IsWhole (ranges_of self.old) first from (from / 6) }
        requires lower { order / 6 < from / 6 }
        requires stands { StandsAt self.old cursor (from / 6) (first / 64 ^ (from / 6) / 64) }
        requires room { HasNodeRoom self.old (2 ^ (from % 6) * tree_of (from / 6 - order / 6)) }
        ensures { (r : Range) → map.get (ranges_of self.old) first ≡ Some r → ranges_of self.new ≡ parts (ranges_of self.old) first order r (2 ^ (from - order)) }
    {
        // The check knows the invariant of `self` only where the body names a field. This costs nothing.
        let _nodes = &self.nodes;
        self.cut(cursor, first, from, 0);
        let last = order / 6 + 1;
        let mut level = from / 6;
        'levels: while level > last {
            self.expand_level(first, from, level, 0);
            level -= 1;
        }
        self.expand_level(first, from, last, order % 6);
    }

    // Makes each entry of one slot that a range of an order has at a level entries of 2^step slots of the level below.
    fn expand_level(&mut self, first: u64, from: u32, level: u32, step: u32)
        requires step { step < 6 }
        requires inner { 0 < level }
        requires fits { 6 * level ≤ from }
        requires top { from ≤ 63 }
        requires aligned { first % 2 ^ from ≡ 0 }
        requires row { HasRow (ranges_of self.old) first (6 * level) (2 ^ (from - 6 * level)) }
        requires room { HasNodeRoom self.old (2 ^ (from - 6 * level)) }
        ensures parts { (r : Range) → IsRow (ranges_of self.old) first (6 * level) (2 ^ (from - 6 * level)) r → ranges_of self.new ≡ parts (ranges_of self.old) first (6 * (level - 1) + step) r (2 ^ (from - (6 * (level - 1) + step))) }
        ensures room { (more : ℕ) → HasNodeRoom self.old (more + 2 ^ (from - 6 * level)) → HasNodeRoom self.new more }
    {
        // As in `split_down`.
        let _nodes = &self.nodes;
        // A node has 64 slots of the range, or fewer where it has them all.
        let width = (from - 6 * level).min(6);
        let nodes = 1u64 << (from - 6 * level - width);
        'nodes: for node in 0..nodes {
            let at = first + (node << (6 * level + width));
            self.expand_run(at, level, 1 << width, step);
        }
    }

    // The same for so many entries in one node.
    fn expand_run(&mut self, first: u64, level: u32, count: u64, step: u32)
        requires step { step < 6 }
        requires inner { 0 < level }
        requires low { level ≤ 10 }
        requires some { 0 < count }
        requires within { first / 64 ^ level % 64 + count ≤ 64 }
        requires row { HasRow (ranges_of self.old) first (6 * level) count }
        requires room { HasNodeRoom self.old count }
        ensures parts { (r : Range) → IsRow (ranges_of self.old) first (6 * level) count r → ranges_of self.new ≡ parts (ranges_of self.old) first (6 * (level - 1) + step) r (count * 2 ^ (6 - step)) }
        ensures room { (more : ℕ) → HasNodeRoom self.old (more + count) → HasNodeRoom self.new more }
    {
        let Some(cursor) = self.nodes.seek(first, level) else {
            unreachable!()
        };
        'slots: for slot in 0..count {
            let at = first + (slot << (6 * level));
            self.expand_one(cursor, at, level, step);
        }
    }

    // The same for one entry.
    fn expand_one(&mut self, cursor: Cursor, first: u64, level: u32, step: u32)
        requires step { step < 6 }
        requires inner { 0 < level }
        requires whole { IsWhole (ranges_of self.old) first (6 * level) level }
        requires stands { StandsAt self.old cursor level (first / 64 ^ level / 64) }
        requires room { HasNodeRoom self.old 1 }
        ensures parts { (r : Range) → map.get (ranges_of self.old) first ≡ Some r → ranges_of self.new ≡ parts (ranges_of self.old) first (6 * (level - 1) + step) r (2 ^ (6 - step)) }
        ensures stands { StandsAt self.new cursor level (first / 64 ^ level / 64) }
        ensures room { (more : ℕ) → HasNodeRoom self.old (more + 1) → HasNodeRoom self.new more }
    {
        let _ = self.nodes.expand(cursor, first, level, step);
    }
}

// How many nodes a split across levels makes: for each slot a tree of as many levels.
fn nodes_for(from: u32, order: u32) -> usize
    requires top { from ≤ 63 }
    requires lower { order / 6 ≤ from / 6 }
    ensures { result ≡ 2 ^ (from % 6) * tree_of (from / 6 - order / 6) }
{
    let levels = from / 6 - order / 6;
    let tree = ((1u64 << (6 * levels)) - 1) / 63;
    (tree << (from % 6)) as usize
}
