//! Nodes that make a tree in a slab.
ghost use Rattle.std.specs.Prelude.{◌≡◌, ℕ, ◌+◌, ◌*◌, ◌/◌, ◌%◌, ◌^◌, ◌<◌, ◌≤◌, Some, None, IfSome, MatchOption, MatchBool, ◌≢◌, ◌⊎◌};
ghost use Rattle.slab.specs.Slab.{get, HasRoomFor, Updates, slab_len, ContainsKey};
ghost use Rattle.radix.specs.declared.entry.Entry.{Entry};
ghost use Rattle.radix.specs.Entries.{StandsAt, HasNoEntry, IsPathNeed, IsWalked, content, entry_at};
ghost use Rattle.radix.specs.Tree.{slot_at, IsTree, IsSoundOrVoid, IsHeight};

use crate::entry::{Cursor, Entry, Walk};
use crate::node::Node;
use crate::slot::Slot;
use slab::Slab;

/// The place of the slot at a level that has an index.
pub fn place_at(index: u64, level: u32) -> u64
    requires { level ≤ 10 }
    ensures { result ≡ index / 64 ^ level }
{
    index >> (6 * level)
}

/// The first index of a slot.
pub fn first_at(level: u32, place: u64) -> u64
    requires level { level ≤ 10 }
    requires fits { place * 64 ^ level < 2 ^ 64 }
    ensures { result ≡ place * 64 ^ level }
{
    place << (6 * level)
}

// The offset in its node of the slot at a level that has `index`.
pub(crate) fn offset_at(index: u64, level: u32) -> usize
    requires { level ≤ 10 }
    ensures { result ≡ index / 64 ^ level % 64 }
{
    (place_at(index, level) % 64) as usize
}

// Whether a head has the slot of `index` at a level under it.
pub(crate) fn covers(top: &Node, level: u32, index: u64) -> bool
    requires { top.now.level ≤ 10 }
    ensures { MatchBool result ((level ≤ top.now.level) × (index / 64 ^ top.now.level / 64 ≡ 0)) ((top.now.level < level) ⊎ (index / 64 ^ top.now.level / 64 ≢ 0)) }
{
    level <= top.level && place_at(index, top.level) / 64 == 0
}

// The lowest level, from `level` on, at which one head has `index`.
pub(crate) fn height_for(index: u64, level: u32) -> u32
    requires { level ≤ 10 }
    ensures high { result ≤ 10 }
    ensures height { IsHeight index level result }
{
    let mut height = level;
    'up: while place_at(index, height) / 64 != 0 {
        height += 1;
    }
    height
}

// How many nodes a path to the slot of `index` at a level may need.
pub(crate) fn path_need(nodes: &Slab<Node>, head: Option<usize>, level: u32, index: u64) -> usize
    requires level { level ≤ 10 }
    requires sound { IsSoundOrVoid nodes.now head }
    ensures need { IsPathNeed nodes.now level index result }
    ensures least { (need : ℕ) → IsPathNeed nodes.now level index need → result ≤ need }
{
    let lowest = height_for(index, level);
    match head {
        Some(head) => {
            let top = nodes[head].level;
            let height = lowest.max(top);
            (height - top + (height - level)) as usize
        }
        None => (1 + (lowest - level)) as usize,
    }
}

// The node that has the slot of `index` at a level, if it is there.
pub(crate) fn seek(nodes: &Slab<Node>, head: usize, level: u32, index: u64) -> Option<usize>
    requires { IsTree nodes.now head }
    ensures { MatchOption result (slot_at nodes.now level (index / 64 ^ level) ≡ Slot.Empty) (λ key. StandsAt nodes.now key level (index / 64 ^ level / 64)) }
{
    let top = &nodes[head];
    if top.level < level || place_at(index, top.level) / 64 != 0 {
        return None;
    }
    let mut key = head;
    let mut height = top.level;
    'down: while height != level {
        match nodes[key].read(offset_at(index, height)) {
            Slot::Child(child) => key = child,
            _ => return None,
        }
        height -= 1;
    }
    Some(key)
}

// The entry in a slot, if one stands there.
#[inline]
fn entry_of(slot: Slot) -> Option<Entry>
    ensures { result ≡ content slot }
{
    match slot {
        Slot::Leaf(value) => Some(Entry::Leaf(value)),
        Slot::Sibling(first) => Some(Entry::Sibling(first)),
        Slot::Empty | Slot::Child(_) => None,
    }
}

// Where a walk to an index ends, and the entry there. It goes into its caller, which most often needs a part of the answer.
#[inline(always)]
pub(crate) fn walk(nodes: &Slab<Node>, head: usize, index: u64) -> Option<Walk>
    requires { IsTree nodes.now head }
    ensures low { IfSome result (λ r. r.level ≤ 10) }
    ensures found { MatchOption result (HasNoEntry nodes.now index) (λ r. IsWalked nodes.now index r.level r.entry) }
    ensures stands { IfSome result (λ r. StandsAt nodes.now r.cursor r.level (index / 64 ^ r.level / 64)) }
{
    let top = &nodes[head];
    if !covers(top, 0, index) {
        return None;
    }
    let mut key = head;
    let mut node = top;
    // It is counted down, so that no step waits for a node's level, and the last node is read at its slot alone.
    let mut level = top.level;
    'down: loop {
        let slot = node.read(offset_at(index, level));
        let Slot::Child(child) = slot else {
            return Some(Walk {
                cursor: Cursor::at(key),
                level,
                entry: entry_of(slot),
            });
        };
        key = child;
        node = &nodes[key];
        level -= 1;
    }
}

// The same at the node under a key, where that is of the lowest level and has the index.
#[inline(always)]
pub(crate) fn walk_in(nodes: &Slab<Node>, head: usize, key: usize, index: u64) -> Option<Walk>
    requires { IsTree nodes.now head }
    ensures low { IfSome result (λ r. r.level ≤ 10) }
    ensures found { IfSome result (λ r. IsWalked nodes.now index r.level r.entry) }
    ensures stands { IfSome result (λ r. StandsAt nodes.now r.cursor r.level (index / 64 ^ r.level / 64)) }
{
    let Some(node) = nodes.get(key) else {
        return None;
    };
    if node.level != 0 || node.prefix != index / 64 {
        return None;
    }
    let slot = node.read((index % 64) as usize);
    Some(Walk {
        cursor: Cursor::at(key),
        level: 0,
        entry: entry_of(slot),
    })
}

// The entry at the slot of `index` in a node that has it.
pub(crate) fn entry_in(
    nodes: &Slab<Node>,
    head: usize,
    key: usize,
    level: u32,
    index: u64,
) -> Option<Entry>
    requires tree { IsTree nodes.now head }
    requires stands { StandsAt nodes.now key level (index / 64 ^ level / 64) }
    ensures { result ≡ entry_at nodes.now level (index / 64 ^ level) }
{
    entry_of(nodes[key].read(offset_at(index, level)))
}

// The entry at another slot of a node that has the slot of `index`.
pub(crate) fn beside(
    nodes: &Slab<Node>,
    head: usize,
    key: usize,
    level: u32,
    index: u64,
    offset: usize,
) -> Option<Entry>
    requires tree { IsTree nodes.now head }
    requires stands { StandsAt nodes.now key level (index / 64 ^ level / 64) }
    requires within { offset < 64 }
    ensures { result ≡ entry_at nodes.now level (index / 64 ^ level / 64 * 64 + offset) }
{
    entry_of(nodes[key].read(offset))
}

// Whether a slot of a node that has the slot of `index` is a further one of an entry that begins there.
#[inline]
pub(crate) fn follows(
    nodes: &Slab<Node>,
    head: usize,
    key: usize,
    level: u32,
    index: u64,
    offset: usize,
) -> bool
    requires level { level ≤ 10 }
    requires tree { IsTree nodes.now head }
    requires stands { StandsAt nodes.now key level (index / 64 ^ level / 64) }
    requires within { offset < 64 }
    ensures { MatchBool result (entry_at nodes.now level (index / 64 ^ level / 64 * 64 + offset) ≡ Some (Entry.Sibling (index / 64 ^ level % 64))) (entry_at nodes.now level (index / 64 ^ level / 64 * 64 + offset) ≢ Some (Entry.Sibling (index / 64 ^ level % 64))) }
{
    nodes[key].follows(offset, offset_at(index, level) as u64)
}
