//! What the crate above speaks of: entries, where they stand, and where a walk ended.
ghost use Rattle.std.specs.Prelude.{◌≡◌, ℕ};

use crate::node::Node;
use std::marker::Model;

/// What stands at a slot.
#[derive(Clone, Copy, PartialEq, Eq, Debug)]
pub enum Entry {
    /// The first slot of an entry, with its value, at most 2^63 - 1.
    Leaf(u64),
    /// A further slot of an entry, with the offset of its first slot in the node.
    Sibling(u64),
}

/// Where a walk ended. It is good for the calls that say so, until a slot is emptied.
#[derive(Clone, Copy)]
pub struct Cursor {
    key: usize,
}

impl Model for Cursor {
    ghost use Rattle.std.specs.Prelude.{ℕ};

    ghost Value = { ℕ };

    ghost view = { λ c. c.key };

    ghost inverse = { λ k. record { key = k } };
}

impl Cursor {
    #[inline]
    pub(crate) fn at(key: usize) -> Cursor
        ensures { result ≡ key }
    {
        Cursor { key }
    }

    #[inline]
    pub(crate) fn key(self) -> usize
        ensures { result ≡ self }
    {
        self.key
    }
}

/// Slot `place` of a level, 0 to 10, and where its node is. It has the indexes from `place * 64 ^ level` on, 64 ^ level of
/// them.
#[derive(Clone, Copy)]
pub struct Position {
    pub cursor: Cursor,
    pub level: u32,
    pub place: u64,
}

/// An entry at slot `place` of the lowest level, in a node that was known.
#[derive(Clone, Copy)]
pub struct Near {
    pub place: u64,
    pub value: u64,
    /// Whether the node's bits alone tell that the entry has no further slot. Where it is false it may have one or not.
    pub is_alone: bool,
}

/// Where a walk to an index ended: the lowest node that has a slot of it, and the entry there, if one stands there.
#[derive(Clone, Copy)]
pub struct Walk {
    pub cursor: Cursor,
    pub level: u32,
    pub entry: Option<Entry>,
}

/// An entry at slot `place` of the lowest level, where its node is, and where the one above that is, if it is known.
#[derive(Clone, Copy)]
pub struct Ahead {
    pub cursor: Cursor,
    pub above: Option<Cursor>,
    pub place: u64,
    pub value: u64,
    /// As that of `Near`.
    pub is_alone: bool,
}

/// A node, and those of its slots with a mark that are left of a walk, one bit each.
#[derive(Clone, Copy)]
pub struct Rest<'a> {
    pub(crate) node: &'a Node,
    pub(crate) bits: u64,
}

/// The node of the lowest level that a walk over the entries with a mark has come to, and the one above it. It borrows both, and
/// what is left of the one above does not wait for the node below. It is good as long as the tree does not change.
#[derive(Clone, Copy)]
pub struct Twig<'a> {
    pub(crate) key: usize,
    pub(crate) leaf: Rest<'a>,
    // Nothing is left of it where the node is the head.
    pub(crate) above: Rest<'a>,
    // The node's first slot.
    pub(crate) base: u64,
    pub(crate) mark: usize,
}

/// An entry of one index, and the twig of a walk that has come to it.
#[derive(Clone, Copy)]
pub struct Onward<'a> {
    pub twig: Twig<'a>,
    pub place: u64,
    pub value: u64,
}
