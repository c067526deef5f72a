//! The next entry with a mark.
ghost use Rattle.std.specs.Prelude.{◌≡◌, ◌≢◌, ℕ, ◌+◌, ◌*◌, ◌/◌, ◌%◌, ◌^◌, ◌<◌, ◌≤◌, true, Some, None, IfSome, MatchBool, MatchOption};
ghost use Rattle.slab.specs.Slab.{get};
ghost use Rattle.radix.specs.Entries.{IsNext, IsNextAt, IsMarkedAt, HasNoMarkedAt, HasNoNext, IsNextLeaf, IsAlone, HasNoneBeside, HasNoEntry, HasNoHeld, IsHeld, IsNextHeld, StandsAt};
ghost use Rattle.radix.specs.Tree.{IsSound, IsTree, IsAhead, IsTrail, HasClimbed, better_of};

use crate::bitmap::{has_bit, lowest, lowest_above, lowest_from};
use crate::entry::{Ahead, Cursor, Near, Position};
use crate::node::Node;
use crate::slot::Slot;
use crate::tree::{offset_at, place_at};
use slab::Slab;

// The slot that was found at a node, or else the one that was known.
fn better(best: Option<(usize, u32)>, key: usize, found: Option<u32>) -> Option<(usize, u32)>
    ensures { result ≡ better_of best key found }
{
    match found {
        Some(offset) => Some((key, offset)),
        None => best,
    }
}

// The lowest entry with the mark under a slot that has it.
fn lowest_under(
    nodes: &Slab<Node>,
    head: usize,
    first: usize,
    from_offset: u32,
    mark: usize,
    index: u64,
) -> Position
    requires mark { mark < 4 }
    requires sound { IsSound nodes.now head None }
    requires ahead { IsAhead nodes.now mark index first from_offset }
    ensures next { IsNext nodes.now mark index result.level result.place }
    ensures stands { StandsAt nodes.now result.cursor result.level (result.place / 64) }
{
    let mut key = first;
    let mut offset = from_offset;
    'down: loop {
        let node = &nodes[key];
        let Some(child) = node.child(offset as usize) else {
            return Position {
                cursor: Cursor::at(key),
                level: node.level,
                place: node.prefix * 64 + offset as u64,
            };
        };
        offset = lowest(nodes[child].marks[mark]);
        key = child;
    }
}

// The end of the path of an index, as far as a mark is on it.
#[derive(Clone, Copy)]
struct Trail {
    key: usize,
    level: u32,
    // Whether the slot of the index is an entry with the mark. Else the node has no bit there.
    is_set: bool,
    // The slot that comes next after the path, of those with the mark.
    best: Option<(usize, u32)>,
}

// Goes down the path of an index as long as the mark is on it. It ends where the tree has no such index (None), at a node whose
// bit for the path is clear (is_set is false), or at the slot of an entry that has the mark (is_set is true).
#[inline(always)]
fn leave_path(nodes: &Slab<Node>, head: usize, index: u64, mark: usize) -> Option<Trail>
    requires mark { mark < 4 }
    requires sound { IsSound nodes.now head None }
    ensures { MatchOption result (HasNoNext nodes.now mark index × HasNoEntry nodes.now index) (λ r. IsTrail nodes.now mark index r.key r.level r.is_set r.best) }
{
    let top = &nodes[head];
    if place_at(index, top.level) / 64 != 0 {
        return None;
    }
    let mut key = head;
    // It is counted down, so that no step waits for a node's level.
    let mut level = top.level;
    let mut best: Option<(usize, u32)> = None;
    'down: loop {
        let node = &nodes[key];
        let offset = offset_at(index, level) as u32;
        let bits = node.marks[mark];
        best = better(best, key, lowest_above(bits, offset));
        if !has_bit(bits, offset) {
            return Some(Trail {
                key,
                level,
                is_set: false,
                best,
            });
        }
        let Some(child) = node.child(offset as usize) else {
            return Some(Trail {
                key,
                level,
                is_set: true,
                best,
            });
        };
        key = child;
        level -= 1;
    }
}

// The lowest entry with the mark at the end of a path or after it.
#[inline(always)]
fn next_on(
    nodes: &Slab<Node>,
    head: usize,
    index: u64,
    mark: usize,
    trail: Trail,
) -> Option<Position>
    requires mark { mark < 4 }
    requires sound { IsSound nodes.now head None }
    requires trail { IsTrail nodes.now mark index trail.key trail.level trail.is_set trail.best }
    ensures next { MatchOption result (HasNoNext nodes.now mark index) (λ r. IsNext nodes.now mark index r.level r.place) }
    ensures stands { IfSome result (λ r. StandsAt nodes.now r.cursor r.level (r.place / 64)) }
{
    if trail.is_set {
        return Some(Position {
            cursor: Cursor::at(trail.key),
            level: trail.level,
            place: place_at(index, trail.level),
        });
    }
    match trail.best {
        Some((later, offset)) => Some(lowest_under(nodes, head, later, offset, mark, index)),
        None => None,
    }
}

// The lowest entry with the mark at an index or later.
pub(crate) fn next_set(nodes: &Slab<Node>, head: usize, index: u64, mark: usize) -> Option<Position>
    requires mark { mark < 4 }
    requires sound { IsSound nodes.now head None }
    ensures next { MatchOption result (HasNoNext nodes.now mark index) (λ r. IsNext nodes.now mark index r.level r.place) }
    ensures stands { IfSome result (λ r. StandsAt nodes.now r.cursor r.level (r.place / 64)) }
{
    let Some(trail) = leave_path(nodes, head, index, mark) else {
        return None;
    };
    next_on(nodes, head, index, mark, trail)
}

// The lowest entry with the mark at an index or later, where the index is the first one after a slot. It looks at the rest of
// the slot's node, and then goes up. A walk over many entries leaves each node once, so a step costs two nodes at most times.
pub(crate) fn next_after(
    nodes: &Slab<Node>,
    head: usize,
    slot: Position,
    index: u64,
    mark: usize,
) -> Option<Position>
    requires mark { mark < 4 }
    requires sound { IsSound nodes.now head None }
    requires stands { StandsAt nodes.now slot.cursor slot.level (slot.place / 64) }
    requires after { index ≡ (slot.place + 1) * 64 ^ slot.level }
    ensures next { MatchOption result (HasNoNext nodes.now mark index) (λ r. IsNext nodes.now mark index r.level r.place) }
    ensures stands { IfSome result (λ r. StandsAt nodes.now r.cursor r.level (r.place / 64)) }
{
    let mut key = slot.cursor.key();
    let mut offset = (slot.place % 64) as u32;
    'up: loop {
        let node = &nodes[key];
        if let Some(later) = lowest_above(node.marks[mark], offset) {
            return Some(lowest_under(nodes, head, key, later, mark, index));
        }
        let Some(parent) = node.parent.key() else {
            return None;
        };
        offset = (node.prefix % 64) as u32;
        key = parent;
    }
}

// The entry with the mark that has an index at a further slot, where the path of the index ends. Nothing here says that a
// further slot names a first one, so it is looked at.
fn held_on(
    nodes: &Slab<Node>,
    head: usize,
    index: u64,
    mark: usize,
    trail: Trail,
) -> Option<Position>
    requires mark { mark < 4 }
    requires sound { IsSound nodes.now head None }
    requires trail { IsTrail nodes.now mark index trail.key trail.level trail.is_set trail.best }
    ensures held { MatchOption result (HasNoHeld nodes.now mark index) (λ r. IsHeld nodes.now mark index r.level r.place) }
    ensures stands { IfSome result (λ r. StandsAt nodes.now r.cursor r.level (r.place / 64)) }
{
    let node = &nodes[trail.key];
    let Slot::Sibling(first) = node.read(offset_at(index, trail.level)) else {
        return None;
    };
    if first >= 64 || !has_bit(node.marks[mark], first as u32) {
        return None;
    }
    let Slot::Leaf(_) = node.read(first as usize) else {
        return None;
    };
    Some(Position {
        cursor: Cursor::at(trail.key),
        level: trail.level,
        place: node.prefix * 64 + first,
    })
}

// The lowest entry with the mark that has an index or a later one.
pub(crate) fn next_held(
    nodes: &Slab<Node>,
    head: usize,
    index: u64,
    mark: usize,
) -> Option<Position>
    requires mark { mark < 4 }
    requires sound { IsSound nodes.now head None }
    ensures next { MatchOption result (HasNoNext nodes.now mark index × HasNoHeld nodes.now mark index) (λ r. IsNextHeld nodes.now mark index r.level r.place) }
    ensures stands { IfSome result (λ r. StandsAt nodes.now r.cursor r.level (r.place / 64)) }
{
    let Some(trail) = leave_path(nodes, head, index, mark) else {
        return None;
    };
    if let Some(held) = held_on(nodes, head, index, mark, trail) {
        return Some(held);
    }
    next_on(nodes, head, index, mark, trail)
}

// The lowest entry with the mark at an index or later in its node of the lowest level.
#[inline(always)]
pub(crate) fn next_in(
    nodes: &Slab<Node>,
    head: usize,
    key: usize,
    index: u64,
    mark: usize,
) -> Option<Near>
    requires mark { mark < 4 }
    requires sound { IsSound nodes.now head None }
    requires stands { StandsAt nodes.now key 0 (index / 64 ^ 0 / 64) }
    ensures next { MatchOption result (HasNoneBeside nodes.now mark index) (λ r. IsNextLeaf nodes.now mark index r.place r.value) }
    ensures alone { IfSome result (λ r. r.is_alone ≡ true → IsAlone nodes.now r.place) }
{
    let node = &nodes[key];
    let Some(offset) = lowest_from(node.marks[mark], (index % 64) as u32) else {
        return None;
    };
    match node.read(offset as usize) {
        Slot::Leaf(value) => Some(Near {
            place: index / 64 * 64 + offset as u64,
            value,
            is_alone: node.ends_after(offset),
        }),
        _ => unreachable!(),
    }
}

// Whether an entry with the mark has an index. Where the bit at the index tells it, the slot is not read.
#[inline(always)]
pub(crate) fn is_marked(nodes: &Slab<Node>, head: usize, index: u64, mark: usize) -> bool
    requires mark { mark < 4 }
    requires sound { IsSound nodes.now head None }
    ensures { MatchBool result (IsMarkedAt nodes.now mark index) (HasNoMarkedAt nodes.now mark index) }
{
    let Some(trail) = leave_path(nodes, head, index, mark) else {
        return false;
    };
    if trail.is_set {
        return true;
    }
    match held_on(nodes, head, index, mark, trail) {
        Some(_) => true,
        None => false,
    }
}

// The entry that a search by bits found at a slot of a node of the lowest level.
#[inline(always)]
fn ahead_at(
    nodes: &Slab<Node>,
    head: usize,
    key: usize,
    above: Option<Cursor>,
    place: u64,
    index: u64,
    mark: usize,
) -> Option<Ahead>
    requires sound { IsSound nodes.now head None }
    requires stands { StandsAt nodes.now key 0 (place / 64) }
    requires above { IfSome above (λ k. StandsAt nodes.now k 1 (place / 64 / 64)) }
    requires next { IsNext nodes.now mark index 0 place }
    ensures next { IfSome result (λ r. IsNextAt nodes.now mark index r.place r.value) }
    ensures above { IfSome result (λ r. IfSome r.above (λ k. StandsAt nodes.now k 1 (r.place / 64 / 64))) }
    ensures stands { IfSome result (λ r. StandsAt nodes.now r.cursor 0 (r.place / 64)) }
    ensures alone { IfSome result (λ r. r.is_alone ≡ true → IsAlone nodes.now r.place) }
{
    let node = &nodes[key];
    let offset = (place % 64) as u32;
    let Slot::Leaf(value) = node.read(offset as usize) else {
        return None;
    };
    Some(Ahead {
        cursor: Cursor::at(key),
        above,
        place,
        value,
        is_alone: node.ends_after(offset),
    })
}

// The lowest entry with the mark at an index or later, where a search has gone up to a slot of level 1 and the entry is in a later
// node below the same one.
#[inline(always)]
fn next_under(
    nodes: &Slab<Node>,
    head: usize,
    above: Cursor,
    place: u64,
    index: u64,
    mark: usize,
) -> Option<Ahead>
    requires mark { mark < 4 }
    requires sound { IsSound nodes.now head None }
    requires stands { StandsAt nodes.now above 1 (place / 64) }
    requires climbed { HasClimbed nodes.now mark index above (place % 64) }
    requires low { place < 2 ^ 58 }
    ensures next { IfSome result (λ r. IsNextAt nodes.now mark index r.place r.value) }
    ensures above { IfSome result (λ r. IfSome r.above (λ k. StandsAt nodes.now k 1 (r.place / 64 / 64))) }
    ensures stands { IfSome result (λ r. StandsAt nodes.now r.cursor 0 (r.place / 64)) }
    ensures alone { IfSome result (λ r. r.is_alone ≡ true → IsAlone nodes.now r.place) }
{
    let node = &nodes[above.key()];
    let Some(later) = lowest_above(node.marks[mark], (place % 64) as u32) else {
        return None;
    };
    let Slot::Child(child) = node.read(later as usize) else {
        return None;
    };
    let first = lowest(nodes[child].marks[mark]);
    let found = (place / 64 * 64 + later as u64) * 64 + first as u64;
    ahead_at(nodes, head, child, Some(above), found, index, mark)
}

// The lowest entry with the mark after a slot of the lowest level, where it is in the slot's node or in a later one below the node
// above, if that is known. Then no step of a walk waits for the link of the node that it leaves.
#[inline(always)]
pub(crate) fn next_near(
    nodes: &Slab<Node>,
    head: usize,
    key: usize,
    above: Option<Cursor>,
    place: u64,
    index: u64,
    mark: usize,
) -> Option<Ahead>
    requires mark { mark < 4 }
    requires sound { IsSound nodes.now head None }
    requires stands { StandsAt nodes.now key 0 (place / 64) }
    requires above { IfSome above (λ k. StandsAt nodes.now k 1 (place / 64 / 64)) }
    requires after { index ≡ place + 1 }
    ensures next { IfSome result (λ r. IsNextAt nodes.now mark index r.place r.value) }
    ensures above { IfSome result (λ r. IfSome r.above (λ k. StandsAt nodes.now k 1 (r.place / 64 / 64))) }
    ensures stands { IfSome result (λ r. StandsAt nodes.now r.cursor 0 (r.place / 64)) }
    ensures alone { IfSome result (λ r. r.is_alone ≡ true → IsAlone nodes.now r.place) }
{
    let node = &nodes[key];
    if let Some(offset) = lowest_above(node.marks[mark], (place % 64) as u32) {
        let found = place / 64 * 64 + offset as u64;
        return ahead_at(nodes, head, key, above, found, index, mark);
    }
    let Some(above) = above else {
        return None;
    };
    next_under(nodes, head, above, place / 64, index, mark)
}

// The node above one.
#[inline]
pub(crate) fn above(
    nodes: &Slab<Node>,
    head: usize,
    key: usize,
    level: u32,
    prefix: u64,
) -> Option<Cursor>
    requires tree { IsTree nodes.now head }
    requires stands { StandsAt nodes.now key level prefix }
    ensures { IfSome result (λ k. StandsAt nodes.now k (level + 1) (prefix / 64)) }
{
    match nodes[key].parent.key() {
        Some(parent) => Some(Cursor::at(parent)),
        None => None,
    }
}
