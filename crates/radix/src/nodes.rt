//! The tree as its caller sees it: entries at slots of levels.
ghost use Rattle.std.specs.Prelude.{◌≡◌, ◌≢◌, ℕ, ◌+◌, ◌-◌, ◌*◌, ◌/◌, ◌%◌, ◌^◌, ◌<◌, ◌≤◌, ◌==◌, ◌↔◌, true, Some, None, IsOk, OnOk, IfErr, IfSome, MatchOption, MatchBool};
ghost use Rattle.pc_types.specs.declared.refusal.Refusal.{Refusal};
ghost use Rattle.radix.specs.declared.entry.Entry.{Entry};
ghost use Rattle.radix.specs.Parts.{Parts, HasNodeRoom};
ghost use Rattle.radix.specs.Entries.{entry_at, mark_at, node_count, StandsAt, IsBare, IsLeaf, IsRun, IsClear, IsFree, HasNoMark, HasPathRoom, SameEntries, PutsEntry, PutsBit, PutsRun, ClearsRun, IsWalked, HasNoEntry, IsNext, HasNoNext, IsNextHeld, HasNoHeld, IsNextEntry, HasNoNextEntry, IsAlone, IsNextEntryLeaf, HasNoEntryBeside, IsNextAt, IsNextEntryAt, IsSingle, IsMarkedAt, HasNoMarkedAt, HasMarked, HasNoMarked, HasMarkedUnder, HasNoMarkedUnder};
ghost use Rattle.radix.specs.Twigs.{IsTwig, mark_of};

use crate::entry::{Ahead, Cursor, Entry, Near, Onward, Position, Twig, Walk};
use crate::node::{ENTRY, Node};
use crate::{growth, marks, next, parts, removal, tree, twig};
use pc_types::Refusal;
use slab::Slab;
use std::alloc::Global;
use std::marker::Model;

/// Entries with three marks, each at a slot of a level: slot `place` of `level` has the indexes from
/// `place * 64 ^ level` on. No two entries share an index if each is put where `IsClear` and `IsFree` hold.
///
/// A walk costs most of a call. So `seek` and `walk` walk once and give a cursor, at which the other calls work.
#[derive(Drop)]
pub struct Nodes {
    slab: Slab<Node>,
    head: Option<usize>,
    // The key of the node of the last change, if that is still there. Whoever goes by it looks at the node.
    recent: usize,
}

impl Model for Nodes {
    ghost use Rattle.slab.specs.Slab.{Slab as Slots};
    ghost use Rattle.radix.specs.declared.node.Node.{Node as OneNode};

    ghost Value = { Slots OneNode };

    ghost use Rattle.radix.specs.Tree.{IsWhole};

    ghost view = { λ a. a.slab };

    ghost invariant = { λ a. IsWhole a.slab a.head };
}

impl Nodes {
    pub fn new(alloc: Global) -> Nodes
        ensures bare { IsBare result }
        ensures count { node_count result ≡ 0 }
    {
        Nodes {
            slab: Slab::new(alloc),
            head: None,
            recent: 0,
        }
    }

    /// Makes room for the nodes that a put at a slot may need: at most 21, and as many as there are levels between the
    /// slot's and the head's where the head covers the index.
    pub fn reserve_path(&mut self, index: u64, level: u32) -> Result<(), Refusal>
        requires level { level ≤ 10 }
        ensures room { OnOk result (HasPathRoom self.new level index) }
        ensures succeeds { HasPathRoom self.old level index → IsOk result }
        ensures err { IfErr result (λ refusal. refusal ≡ Refusal.Memory) }
        ensures entries { SameEntries self.old self.new }
        ensures count { node_count self.new ≡ node_count self.old }
    {
        let need = tree::path_need(&self.slab, self.head, level, index);
        self.slab.reserve(need)?;
        // A child's key has 62 bits.
        if self.slab.capacity() >= 4_611_686_018_427_387_904 {
            return Err(Refusal::Memory);
        }
        Ok(())
    }

    /// The number of nodes, 576 bytes each.
    pub fn count(&self) -> usize
        ensures value { result ≡ node_count self.now }
        ensures bare { IsBare self.now ↔ result ≡ 0 }
    {
        self.slab.len()
    }

    /// The entry at a slot.
    pub fn get(&self, index: u64, level: u32) -> Option<Entry>
        ensures { result ≡ entry_at self.now level (index / 64 ^ level) }
    {
        match self.head {
            Some(head) => match tree::seek(&self.slab, head, level, index) {
                Some(key) => tree::entry_in(&self.slab, head, key, level, index),
                None => None,
            },
            None => None,
        }
    }

    /// Walks to an index, and gives the entry there, at whichever level it stands.
    #[inline(always)]
    pub fn walk(&self, index: u64) -> Option<Walk>
        ensures low { IfSome result (λ r. r.level ≤ 10) }
        ensures found { MatchOption result (HasNoEntry self.now index) (λ r. IsWalked self.now index r.level r.entry) }
        ensures stands { IfSome result (λ r. StandsAt self.now r.cursor r.level (index / 64 ^ r.level / 64)) }
    {
        match self.head {
            Some(head) => tree::walk(&self.slab, head, index),
            None => None,
        }
    }

    /// As `walk`, but it looks at the node of the last change first. That spares the walk where the index is in it too, as
    /// most often in calls that go from one index to the next.
    #[inline(always)]
    pub fn walk_recent(&self, index: u64) -> Option<Walk>
        ensures low { IfSome result (λ r. r.level ≤ 10) }
        ensures found { MatchOption result (HasNoEntry self.now index) (λ r. IsWalked self.now index r.level r.entry) }
        ensures stands { IfSome result (λ r. StandsAt self.now r.cursor r.level (index / 64 ^ r.level / 64)) }
    {
        let Some(head) = self.head else {
            return None;
        };
        match tree::walk_in(&self.slab, head, self.recent, index) {
            Some(walk) => Some(walk),
            None => tree::walk(&self.slab, head, index),
        }
    }

    /// Walks to the slot of an index at a level. Where none of its node is there, no entry is.
    pub fn seek(&self, index: u64, level: u32) -> Option<Cursor>
        ensures { MatchOption result (entry_at self.now level (index / 64 ^ level) ≡ None) (λ cursor. StandsAt self.now cursor level (index / 64 ^ level / 64)) }
    {
        match self.head {
            Some(head) => match tree::seek(&self.slab, head, level, index) {
                Some(key) => Some(Cursor::at(key)),
                None => None,
            },
            None => None,
        }
    }

    /// The entry at a slot.
    pub fn entry_in(&self, cursor: Cursor, index: u64, level: u32) -> Option<Entry>
        requires { StandsAt self.now cursor level (index / 64 ^ level / 64) }
        ensures { result ≡ entry_at self.now level (index / 64 ^ level) }
    {
        let Some(head) = self.head else {
            unreachable!()
        };
        tree::entry_in(&self.slab, head, cursor.key(), level, index)
    }

    /// The entry at the slot with this offset in the same node.
    pub fn beside(&self, cursor: Cursor, index: u64, level: u32, offset: usize) -> Option<Entry>
        requires stands { StandsAt self.now cursor level (index / 64 ^ level / 64) }
        requires within { offset < 64 }
        ensures { result ≡ entry_at self.now level (index / 64 ^ level / 64 * 64 + offset) }
    {
        let Some(head) = self.head else {
            unreachable!()
        };
        tree::beside(&self.slab, head, cursor.key(), level, index, offset)
    }

    /// Whether the slot with this offset in the same node is a further one of an entry that begins at a slot.
    #[inline]
    pub fn follows(&self, cursor: Cursor, index: u64, level: u32, offset: usize) -> bool
        requires level { level ≤ 10 }
        requires stands { StandsAt self.now cursor level (index / 64 ^ level / 64) }
        requires within { offset < 64 }
        ensures { MatchBool result (entry_at self.now level (index / 64 ^ level / 64 * 64 + offset) ≡ Some (Entry.Sibling (index / 64 ^ level % 64))) (entry_at self.now level (index / 64 ^ level / 64 * 64 + offset) ≢ Some (Entry.Sibling (index / 64 ^ level % 64))) }
    {
        let Some(head) = self.head else {
            unreachable!()
        };
        tree::follows(&self.slab, head, cursor.key(), level, index, offset)
    }

    /// Whether an entry or a node begins at the slot with this offset in the same node, so that it is no further slot of an
    /// entry. It reads the node's bits alone.
    pub fn begins(&self, cursor: Cursor, index: u64, level: u32, offset: usize) -> bool
        requires stands { StandsAt self.now cursor level (index / 64 ^ level / 64) }
        requires within { offset < 64 }
        ensures { result ≡ true → (first : ℕ) → entry_at self.now level (index / 64 ^ level / 64 * 64 + offset) ≢ Some (Entry.Sibling first) }
    {
        let Some(head) = self.head else {
            unreachable!()
        };
        marks::begins(&self.slab, head, cursor.key(), level, index, offset)
    }

    /// Puts an entry without marks at a slot whose node is there. It needs no memory.
    pub fn fill(&mut self, cursor: Cursor, index: u64, level: u32, value: u64)
        requires stands { StandsAt self.old cursor level (index / 64 ^ level / 64) }
        requires level { level ≤ 10 }
        requires value { value < 2 ^ 63 }
        requires free { IsFree self.old level (index / 64 ^ level) }
        ensures puts { PutsEntry self.old self.new level (index / 64 ^ level) (Some (Entry.Leaf value)) }
        ensures unmarked { HasNoMark self.new level (index / 64 ^ level) }
        ensures stands { StandsAt self.new cursor level (index / 64 ^ level / 64) }
    {
        let Some(head) = self.head else {
            unreachable!()
        };
        self.recent = cursor.key();
        growth::fill(&mut self.slab, head, cursor.key(), level, index, value);
    }

    /// Puts an entry without marks at a slot, in the room that `reserve_path` made.
    pub fn put(&mut self, index: u64, level: u32, value: u64)
        requires level { level ≤ 10 }
        requires value { value < 2 ^ 63 }
        requires clear { IsClear self.old level index }
        requires free { IsFree self.old level (index / 64 ^ level) }
        requires room { HasPathRoom self.old level index }
        ensures puts { PutsEntry self.old self.new level (index / 64 ^ level) (Some (Entry.Leaf value)) }
        ensures unmarked { HasNoMark self.new level (index / 64 ^ level) }
    {
        let head = growth::head_for(&mut self.slab, self.head, level, index);
        growth::put(&mut self.slab, head, level, index, value);
        self.head = Some(head);
    }

    /// Puts an entry of several slots of a node without marks, in the room that `reserve_path` made.
    pub fn put_run(&mut self, index: u64, level: u32, span: u64, value: u64)
        requires level { level ≤ 10 }
        requires some { 0 < span }
        requires value { value < 2 ^ 63 }
        requires within { index / 64 ^ level % 64 + span ≤ 64 }
        requires clear { IsClear self.old level index }
        requires free { (j : ℕ) → j < span → IsFree self.old level (index / 64 ^ level + j) }
        requires room { HasPathRoom self.old level index }
        ensures puts { PutsRun self.old self.new level (index / 64 ^ level) span value }
        ensures unmarked { HasNoMark self.new level (index / 64 ^ level) }
    {
        let head = growth::head_for(&mut self.slab, self.head, level, index);
        growth::put_run(&mut self.slab, head, level, index, span, value);
        self.head = Some(head);
    }

    /// Writes another value into an entry, whose marks stay.
    pub fn replace(&mut self, cursor: Cursor, index: u64, level: u32, value: u64)
        requires stands { StandsAt self.old cursor level (index / 64 ^ level / 64) }
        requires value { value < 2 ^ 63 }
        requires leaf { IsLeaf (entry_at self.old level (index / 64 ^ level)) }
        ensures puts { PutsEntry self.old self.new level (index / 64 ^ level) (Some (Entry.Leaf value)) }
        ensures stands { StandsAt self.new cursor level (index / 64 ^ level / 64) }
    {
        let Some(head) = self.head else {
            unreachable!()
        };
        self.recent = cursor.key();
        removal::replace(&mut self.slab, head, cursor.key(), level, index, value);
    }

    /// Takes an entry of one slot away, which has no marks. The node goes with its last entry, and so on upwards.
    pub fn clear(&mut self, cursor: Cursor, index: u64, level: u32)
        requires stands { StandsAt self.old cursor level (index / 64 ^ level / 64) }
        requires level { level ≤ 10 }
        requires leaf { IsLeaf (entry_at self.old level (index / 64 ^ level)) }
        requires unmarked { HasNoMark self.old level (index / 64 ^ level) }
        ensures { PutsEntry self.old self.new level (index / 64 ^ level) None }
    {
        let Some(head) = self.head else {
            unreachable!()
        };
        self.recent = cursor.key();
        self.head = removal::clear(&mut self.slab, head, cursor.key(), level, index);
    }

    /// Takes an entry of several slots away, which has no marks.
    pub fn clear_run(&mut self, cursor: Cursor, index: u64, level: u32, span: u64)
        requires stands { StandsAt self.old cursor level (index / 64 ^ level / 64) }
        requires level { level ≤ 10 }
        requires some { 0 < span }
        requires within { index / 64 ^ level % 64 + span ≤ 64 }
        requires run { IsRun self.old level (index / 64 ^ level) span }
        requires unmarked { HasNoMark self.old level (index / 64 ^ level) }
        ensures { ClearsRun self.old self.new level (index / 64 ^ level) span }
    {
        let Some(head) = self.head else {
            unreachable!()
        };
        self.head = removal::clear_run(&mut self.slab, head, cursor.key(), level, index, span);
    }

    /// Makes room for so many nodes, so that `expand` meets no want of memory.
    pub fn reserve_nodes(&mut self, count: usize) -> Result<(), Refusal>
        ensures room { OnOk result (HasNodeRoom self.new count) }
        ensures succeeds { HasNodeRoom self.old count → IsOk result }
        ensures err { IfErr result (λ refusal. refusal ≡ Refusal.Memory) }
        ensures entries { SameEntries self.old self.new }
        ensures stands { (cursor level prefix : ℕ) → StandsAt self.old cursor level prefix → StandsAt self.new cursor level prefix }
        ensures count { node_count self.new ≡ node_count self.old }
    {
        self.slab.reserve(count)?;
        // As in `reserve_path`.
        if self.slab.capacity() >= 4_611_686_018_427_387_904 {
            return Err(Refusal::Memory);
        }
        Ok(())
    }

    /// Cuts an entry of several slots into entries of 2^step slots each, in the same node, with its value and its marks.
    /// It needs no memory.
    pub fn cut_run(&mut self, cursor: Cursor, index: u64, level: u32, span: u64, step: u32)
        requires stands { StandsAt self.old cursor level (index / 64 ^ level / 64) }
        requires some { 0 < span }
        requires within { index / 64 ^ level % 64 + span ≤ 64 }
        requires step { step < 6 }
        requires run { IsRun self.old level (index / 64 ^ level) span }
        ensures parts { Parts self.old self.new level (index / 64 ^ level) level (index / 64 ^ level) span step }
        ensures stands { StandsAt self.new cursor level (index / 64 ^ level / 64) }
        ensures count { node_count self.new ≡ node_count self.old }
        ensures room { (more : ℕ) → HasNodeRoom self.old more → HasNodeRoom self.new more }
    {
        let Some(head) = self.head else {
            unreachable!()
        };
        parts::cut_run(&mut self.slab, head, cursor.key(), level, index, span, step);
    }

    /// Makes the entry of one slot a node below it, where each 2^step slots are an entry with its value and its marks, and
    /// answers where that node is. It takes one node of the room that `reserve_nodes` made.
    pub fn expand(&mut self, cursor: Cursor, index: u64, level: u32, step: u32) -> Cursor
        requires stands { StandsAt self.old cursor level (index / 64 ^ level / 64) }
        requires inner { 0 < level }
        requires step { step < 6 }
        requires leaf { IsLeaf (entry_at self.old level (index / 64 ^ level)) }
        requires room { HasNodeRoom self.old 1 }
        ensures parts { Parts self.old self.new level (index / 64 ^ level) (level - 1) (index / 64 ^ level * 64) 64 step }
        ensures stands { StandsAt self.new cursor level (index / 64 ^ level / 64) }
        ensures below { StandsAt self.new result (level - 1) (index / 64 ^ level) }
        ensures count { node_count self.new ≡ node_count self.old + 1 }
        ensures room { (more : ℕ) → HasNodeRoom self.old (more + 1) → HasNodeRoom self.new more }
    {
        let Some(head) = self.head else {
            unreachable!()
        };
        Cursor::at(parts::expand(&mut self.slab, head, cursor.key(), level, index, step))
    }

    /// Sets a mark of an entry, at its first slot.
    #[inline(always)]
    pub fn set_bit(&mut self, cursor: Cursor, index: u64, level: u32, mark: usize)
        requires stands { StandsAt self.old cursor level (index / 64 ^ level / 64) }
        requires mark { mark < 3 }
        requires leaf { IsLeaf (entry_at self.old level (index / 64 ^ level)) }
        ensures puts { PutsBit self.old self.new mark level (index / 64 ^ level) 1 }
        ensures stands { StandsAt self.new cursor level (index / 64 ^ level / 64) }
    {
        let Some(head) = self.head else {
            unreachable!()
        };
        let key = cursor.key();
        self.recent = key;
        marks::give_bit(&mut self.slab, head, key, level, index, mark, true);
    }

    /// As `set_bit`. Each cursor stays good.
    #[inline(always)]
    pub fn set_bit_kept(&mut self, cursor: Cursor, index: u64, level: u32, mark: usize)
        requires stands { StandsAt self.old cursor level (index / 64 ^ level / 64) }
        requires mark { mark < 3 }
        requires leaf { IsLeaf (entry_at self.old level (index / 64 ^ level)) }
        ensures puts { PutsBit self.old self.new mark level (index / 64 ^ level) 1 }
        ensures kept { (at high prefix : ℕ) → StandsAt self.old at high prefix → StandsAt self.new at high prefix }
    {
        let Some(head) = self.head else {
            unreachable!()
        };
        let key = cursor.key();
        self.recent = key;
        marks::give_bit(&mut self.slab, head, key, level, index, mark, true);
    }

    /// Clears a mark of an entry, at its first slot.
    #[inline(always)]
    pub fn clear_bit(&mut self, cursor: Cursor, index: u64, level: u32, mark: usize)
        requires stands { StandsAt self.old cursor level (index / 64 ^ level / 64) }
        requires mark { mark < 3 }
        requires leaf { IsLeaf (entry_at self.old level (index / 64 ^ level)) }
        ensures puts { PutsBit self.old self.new mark level (index / 64 ^ level) 0 }
        ensures stands { StandsAt self.new cursor level (index / 64 ^ level / 64) }
    {
        let Some(head) = self.head else {
            unreachable!()
        };
        let key = cursor.key();
        self.recent = key;
        marks::give_bit(&mut self.slab, head, key, level, index, mark, false);
    }

    /// Whether an entry has a mark, at its first slot.
    #[inline(always)]
    pub fn get_bit(&self, cursor: Cursor, index: u64, level: u32, mark: usize) -> bool
        requires stands { StandsAt self.now cursor level (index / 64 ^ level / 64) }
        requires mark { mark < 3 }
        requires leaf { IsLeaf (entry_at self.now level (index / 64 ^ level)) }
        ensures { result ≡ (mark_at mark self.now level (index / 64 ^ level) == 1) }
    {
        let Some(head) = self.head else {
            unreachable!()
        };
        marks::get_bit(&self.slab, head, cursor.key(), level, index, mark)
    }

    /// Whether an entry with the mark has an index: one walk by the mark's bits, which most often reads no slot of the last node.
    #[inline(always)]
    pub fn is_marked(&self, index: u64, mark: usize) -> bool
        requires { mark < 3 }
        ensures { MatchBool result (IsMarkedAt self.now mark index) (HasNoMarkedAt self.now mark index) }
    {
        match self.head {
            Some(head) => next::is_marked(&self.slab, head, index, mark),
            None => false,
        }
    }

    /// Whether any entry has the mark.
    pub fn marked(&self, mark: usize) -> bool
        requires { mark < 3 }
        ensures { MatchBool result (HasMarked self.now mark) (HasNoMarked self.now mark) }
    {
        match self.head {
            Some(head) => self.slab[head].marks[mark] != 0,
            None => false,
        }
    }

    /// Whether any entry at a slot or below it has the mark.
    pub fn marked_under(&self, index: u64, level: u32, mark: usize) -> bool
        requires level { level ≤ 10 }
        requires mark { mark < 3 }
        ensures { MatchBool result (HasMarkedUnder self.now mark level (index / 64 ^ level)) (HasNoMarkedUnder self.now mark level (index / 64 ^ level)) }
    {
        match self.head {
            Some(head) => marks::marked_under(&self.slab, head, level, index, mark),
            None => false,
        }
    }

    /// The lowest entry with the mark whose first slot has the index or a later one. An entry that begins before that slot
    /// is not found: see `next_held`.
    pub fn next_set(&self, index: u64, mark: usize) -> Option<Position>
        requires { mark < 3 }
        ensures next { MatchOption result (HasNoNext self.now mark index) (λ r. IsNext self.now mark index r.level r.place) }
        ensures stands { IfSome result (λ r. StandsAt self.now r.cursor r.level (r.place / 64)) }
    {
        match self.head {
            Some(head) => next::next_set(&self.slab, head, index, mark),
            None => None,
        }
    }

    /// As `next_set`, where the index is the first one after a slot whose node is known. It goes up from that node, which costs
    /// less than a walk from the head where the next entry is near.
    pub fn next_set_after(&self, slot: Position, index: u64, mark: usize) -> Option<Position>
        requires stands { StandsAt self.now slot.cursor slot.level (slot.place / 64) }
        requires after { index ≡ (slot.place + 1) * 64 ^ slot.level }
        requires mark { mark < 3 }
        ensures next { MatchOption result (HasNoNext self.now mark index) (λ r. IsNext self.now mark index r.level r.place) }
        ensures stands { IfSome result (λ r. StandsAt self.now r.cursor r.level (r.place / 64)) }
    {
        let Some(head) = self.head else {
            unreachable!()
        };
        next::next_after(&self.slab, head, slot, index, mark)
    }

    /// The lowest entry with the mark that has the index or a later one, also where it begins before the index.
    pub fn next_held(&self, index: u64, mark: usize) -> Option<Position>
        requires { mark < 3 }
        ensures next { MatchOption result (HasNoNext self.now mark index × HasNoHeld self.now mark index) (λ r. IsNextHeld self.now mark index r.level r.place) }
        ensures stands { IfSome result (λ r. StandsAt self.now r.cursor r.level (r.place / 64)) }
    {
        match self.head {
            Some(head) => next::next_held(&self.slab, head, index, mark),
            None => None,
        }
    }

    /// The lowest entry whose first slot has the index or a later one, as `next_set` finds it.
    pub fn next_entry(&self, index: u64) -> Option<Position>
        ensures next { MatchOption result (HasNoNextEntry self.now index) (λ r. IsNextEntry self.now index r.level r.place) }
        ensures stands { IfSome result (λ r. StandsAt self.now r.cursor r.level (r.place / 64)) }
    {
        match self.head {
            Some(head) => next::next_set(&self.slab, head, index, ENTRY),
            None => None,
        }
    }

    /// As `next_entry`, where the index is the first one after a slot whose node is known.
    pub fn next_entry_after(&self, slot: Position, index: u64) -> Option<Position>
        requires stands { StandsAt self.now slot.cursor slot.level (slot.place / 64) }
        requires after { index ≡ (slot.place + 1) * 64 ^ slot.level }
        ensures next { MatchOption result (HasNoNextEntry self.now index) (λ r. IsNextEntry self.now index r.level r.place) }
        ensures stands { IfSome result (λ r. StandsAt self.now r.cursor r.level (r.place / 64)) }
    {
        let Some(head) = self.head else {
            unreachable!()
        };
        next::next_after(&self.slab, head, slot, index, ENTRY)
    }

    /// The lowest entry at an index or later in the node of a cursor. Where the node has it, this costs no further walk.
    #[inline(always)]
    pub fn next_entry_in(&self, cursor: Cursor, index: u64) -> Option<Near>
        requires { StandsAt self.now cursor 0 (index / 64 ^ 0 / 64) }
        ensures next { MatchOption result (HasNoEntryBeside self.now index) (λ r. IsNextEntryLeaf self.now index r.place r.value) }
        ensures alone { IfSome result (λ r. r.is_alone ≡ true → IsAlone self.now r.place) }
    {
        let Some(head) = self.head else {
            unreachable!()
        };
        next::next_in(&self.slab, head, cursor.key(), index, ENTRY)
    }

    /// The lowest entry after a slot of the lowest level, where it is in the slot's node, or in a later one below the node `above`
    /// that. Where it answers none it may be elsewhere.
    #[inline(always)]
    pub fn next_entry_near(
        &self,
        cursor: Cursor,
        above: Option<Cursor>,
        place: u64,
        index: u64,
    ) -> Option<Ahead>
        requires stands { StandsAt self.now cursor 0 (place / 64) }
        requires above { IfSome above (λ k. StandsAt self.now k 1 (place / 64 / 64)) }
        requires after { index ≡ place + 1 }
        ensures next { IfSome result (λ r. IsNextEntryAt self.now index r.place r.value) }
        ensures above { IfSome result (λ r. IfSome r.above (λ k. StandsAt self.now k 1 (r.place / 64 / 64))) }
        ensures stands { IfSome result (λ r. StandsAt self.now r.cursor 0 (r.place / 64)) }
        ensures alone { IfSome result (λ r. r.is_alone ≡ true → IsAlone self.now r.place) }
    {
        let Some(head) = self.head else {
            unreachable!()
        };
        next::next_near(&self.slab, head, cursor.key(), above, place, index, ENTRY)
    }

    /// As `next_entry_near`, of the entries with a mark.
    #[inline(always)]
    pub fn next_set_near(
        &self,
        cursor: Cursor,
        above: Option<Cursor>,
        place: u64,
        index: u64,
        mark: usize,
    ) -> Option<Ahead>
        requires stands { StandsAt self.now cursor 0 (place / 64) }
        requires above { IfSome above (λ k. StandsAt self.now k 1 (place / 64 / 64)) }
        requires after { index ≡ place + 1 }
        requires mark { mark < 3 }
        ensures next { IfSome result (λ r. IsNextAt self.now mark index r.place r.value) }
        ensures above { IfSome result (λ r. IfSome r.above (λ k. StandsAt self.now k 1 (r.place / 64 / 64))) }
        ensures stands { IfSome result (λ r. StandsAt self.now r.cursor 0 (r.place / 64)) }
        ensures alone { IfSome result (λ r. r.is_alone ≡ true → IsAlone self.now r.place) }
    {
        let Some(head) = self.head else {
            unreachable!()
        };
        next::next_near(&self.slab, head, cursor.key(), above, place, index, mark)
    }

    /// The node above that of a cursor, if there is one.
    pub fn above(&self, cursor: Cursor, level: u32, prefix: u64) -> Option<Cursor>
        requires { StandsAt self.now cursor level prefix }
        ensures { IfSome result (λ k. StandsAt self.now k (level + 1) (prefix / 64)) }
    {
        let Some(head) = self.head else {
            unreachable!()
        };
        next::above(&self.slab, head, cursor.key(), level, prefix)
    }
    /// The twig of a slot of the lowest level, for a walk over the entries after it.
    pub fn entry_twig(&self, cursor: Cursor, place: u64) -> Twig<'_>
        requires { StandsAt self.now cursor 0 (place / 64) }
        ensures on { IsTwig self.now (place + 1) result }
        ensures mark { mark_of result ≡ 3 }
    {
        let Some(head) = self.head else {
            unreachable!()
        };
        twig::twig_at(&self.slab, head, cursor.key(), place, ENTRY)
    }

    /// As `entry_twig`, of the entries with a mark.
    pub fn marked_twig(&self, cursor: Cursor, place: u64, mark: usize) -> Twig<'_>
        requires stands { StandsAt self.now cursor 0 (place / 64) }
        requires mark { mark < 3 }
        ensures on { IsTwig self.now (place + 1) result }
        ensures mark { mark_of result ≡ mark }
    {
        let Some(head) = self.head else {
            unreachable!()
        };
        twig::twig_at(&self.slab, head, cursor.key(), place, mark)
    }

    /// The next entry of a walk, where it has one index and is in the twig's node, or in a later one below the node above that. A
    /// step within the node reads that alone. Where this answers none, the entry may be elsewhere or have more indexes.
    #[inline(always)]
    pub fn next_on<'a>(&'a self, twig: Twig<'a>, from: u64) -> Option<Onward<'a>>
        requires { IsTwig self.now from twig }
        ensures next { IfSome result (λ r. IsNextAt self.now (mark_of twig.entry) from r.place r.value) }
        ensures entry { mark_of twig.entry ≡ 3 → IfSome result (λ r. IsNextEntryAt self.now from r.place r.value) }
        ensures single { IfSome result (λ r. IsSingle self.now r.place) }
        ensures twig { IfSome result (λ r. IsTwig self.now (r.place + 1) r.twig) }
        ensures mark { IfSome result (λ r. mark_of r.twig ≡ mark_of twig.entry) }
    {
        twig::next_on(&self.slab, twig, from)
    }

    /// The slot before the index that a walk goes on at.
    pub fn slot_before(&self, twig: Twig<'_>, from: u64) -> Position
        requires { IsTwig self.now from twig }
        ensures stands { StandsAt self.now result.cursor 0 (result.place / 64) }
        ensures level { result.level ≡ 0 }
        ensures after { from ≡ result.place + 1 }
    {
        Position {
            cursor: Cursor::at(twig.key),
            level: 0,
            place: from - 1,
        }
    }
}
