//! A node of 64 slots: 568 bytes, and 576 with the slab's tag.
ghost use Rattle.std.specs.Prelude.{◌≡◌, ◌≢◌, ℕ, ◌+◌, ◌<◌, ◌^◌, true, MatchBool, MatchOption};
ghost use Rattle.std.specs.Int.{bit_at};
ghost use Rattle.radix.specs.Words.{FitsLink};

use crate::bitmap::has_bit;
use crate::slot::{Link, Slot, Word};

/// The mark that every entry has, on its first slot, after the three of the caller's (decision 30).
pub const ENTRY: usize = 3;

/// 64 slots at a level of the tree. Fields that a search reads together stand together; the order is the layout. A large slab begins
/// 16 bytes past a cache line, so a node's tag, its bits and its level lie in one line, which is all that a search by bits reads.
#[derive(Drop)]
pub struct Node {
    /// For each mark one bit a slot, and last for the mark that every entry has.
    pub marks: [u64; 4],
    /// How many levels are below this one: its shift is six times that.
    pub level: u32,
    /// How many slots are not empty, siblings and children included.
    pub count: u32,
    /// The node's index among those of its level. Its last six bits are the offset in the parent. That a node carries its
    /// own place makes every fact of the tree one of a node and its child (decision 29).
    pub prefix: u64,
    /// The node above, or none at the head.
    pub parent: Link,
    pub slots: [Word; 64],
}

impl Node {
    ghost use Rattle.radix.specs.Entries.{bits, slot};
    ghost use Rattle.radix.specs.Tree.{IsLeafSlot, blank, node_over};

    /// What the slot at an offset has.
    #[inline]
    pub(crate) fn read(&self, offset: usize) -> Slot
        requires { offset < 64 }
        ensures { result ≡ slot self.now offset }
    {
        self.slots[offset].slot()
    }

    /// The value of the entry that begins at a slot. It asks the slot for nothing else.
    #[inline]
    pub(crate) fn value(&self, offset: usize) -> u64
        requires within { offset < 64 }
        requires leaf { IsLeafSlot (slot self.now offset) }
        ensures { slot self.now offset ≡ Slot.Leaf result }
    {
        self.slots[offset].value()
    }

    /// Whether the slot at an offset is a further one of the entry that begins at `first`.
    #[inline]
    pub(crate) fn follows(&self, offset: usize, first: u64) -> bool
        requires within { offset < 64 }
        requires first { first < 64 }
        ensures { MatchBool result (slot self.now offset ≡ Slot.Sibling first) (slot self.now offset ≢ Slot.Sibling first) }
    {
        self.slots[offset].is_sibling_of(first)
    }

    /// Whether the bits tell that no further slot of an entry follows a slot: it is the last, or an entry or a node begins at
    /// the next one.
    #[inline(always)]
    pub(crate) fn ends_after(&self, offset: u32) -> bool
        requires { offset < 64 }
        ensures { result ≡ true → offset < 63 → bit_at (bits self.now 3) (offset + 1) ≡ 1 }
    {
        offset == 63 || has_bit(self.marks[ENTRY], offset + 1)
    }

    /// Whether the next slot is no further one of an entry that begins at a slot.
    #[inline(always)]
    pub(crate) fn is_single(&self, offset: u32) -> bool
        requires { offset < 64 }
        ensures { result ≡ true → offset < 63 → slot self.now (offset + 1) ≢ Slot.Sibling offset }
    {
        offset == 63 || !self.follows(offset as usize + 1, offset as u64)
    }

    /// The node below a slot. A node of the lowest level has none, and there the slot is not read: it lies in another cache
    /// line than the marks.
    #[inline]
    pub(crate) fn child(&self, offset: usize) -> Option<usize>
        requires within { offset < 64 }
        requires lowest { (key : ℕ) → self.now.level ≡ 0 → slot self.now offset ≢ Slot.Child key }
        ensures { MatchOption result ((key : ℕ) → slot self.now offset ≢ Slot.Child key) (λ key. slot self.now offset ≡ Slot.Child key) }
    {
        if self.level == 0 {
            return None;
        }
        match self.read(offset) {
            Slot::Child(key) => Some(key),
            _ => None,
        }
    }

    /// A node with no entry.
    pub(crate) fn blank_at(level: u32, prefix: u64, parent: Option<usize>) -> Node
        requires { FitsLink parent }
        ensures { result ≡ blank level prefix parent }
    {
        Node {
            level,
            count: 0,
            prefix,
            parent: Link::of(parent),
            marks: [0; 4],
            slots: [Word::empty(); 64],
        }
    }

    /// A node whose one child is the head.
    pub(crate) fn over(top: &Node, head: usize) -> Node
        requires level { top.now.level < 10 }
        requires small { head < 2 ^ 62 }
        ensures { result ≡ node_over top.now head }
    {
        let mut node = Node::blank_at(top.level + 1, 0, None);
        node.marks = [
            top.marks[0].min(1),
            top.marks[1].min(1),
            top.marks[2].min(1),
            top.marks[3].min(1),
        ];
        node.slots[0] = Word::child(head);
        node.count = 1;
        node
    }
}
