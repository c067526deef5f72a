//! The bits of a mark at each level.
ghost use Rattle.std.specs.Prelude.{◌≡◌, ◌≢◌, ℕ, ◌+◌, ◌*◌, ◌/◌, ◌%◌, ◌^◌, ◌<◌, ◌≤◌, ◌==◌, true, Some, None, MatchBool, if◌then◌else◌};
ghost use Rattle.slab.specs.Slab.{get, ContainsKey};
ghost use Rattle.radix.specs.declared.entry.Entry.{Entry};
ghost use Rattle.radix.specs.Entries.{StandsAt, IsLeaf, entry_at, mark_at, HasMarkedUnder, HasNoMarkedUnder};
ghost use Rattle.radix.specs.Tree.{IsTree, IsSound, WritesBit, MarkIsExactBut, Remarks, HasCome};

use crate::bitmap::{has_bit, put_bit};
use crate::node::{ENTRY, Node};
use crate::slot::Slot;
use crate::tree::{covers, offset_at, place_at};
use slab::Slab;

// Makes the bits of a mark exact above a node whose own bits have changed. It stays a call, so that a mark that is changed beside others
// in its node costs little code.
#[inline(never)]
pub(crate) fn carry(nodes: &mut Slab<Node>, head: usize, key: usize, mark: usize)
    requires mark { mark < 4 }
    requires there { ContainsKey nodes.old key }
    requires tree { IsTree nodes.old head }
    requires exact { MarkIsExactBut nodes.old mark (Some key) }
    ensures tree { IsTree nodes.new head }
    ensures exact { MarkIsExactBut nodes.new mark None }
    ensures remarks { Remarks mark nodes.old nodes.new }
{
    let mut child = key;
    'up: loop {
        let below = &nodes[child];
        let offset = (below.prefix % 64) as u32;
        let is_set = below.marks[mark] != 0;
        let Some(parent) = below.parent.key() else {
            return;
        };
        let node = &mut nodes[parent];
        let bits = node.marks[mark];
        let now = put_bit(bits, offset, is_set);
        node.marks[mark] = now;
        if (bits == 0) == (now == 0) {
            return;
        }
        child = parent;
    }
}

// Sets or clears the bit of a mark at an entry.
#[inline(always)]
pub(crate) fn change_bit(
    nodes: &mut Slab<Node>,
    head: usize,
    key: usize,
    level: u32,
    index: u64,
    mark: usize,
    is_set: bool,
)
    requires mark { mark < 4 }
    requires stands { StandsAt nodes.old key level (index / 64 ^ level / 64) }
    requires sound { IsSound nodes.old head None }
    requires leaf { IsLeaf (entry_at nodes.old level (index / 64 ^ level)) }
    ensures sound { IsSound nodes.new head None }
    ensures writes { WritesBit nodes.old nodes.new mark level (index / 64 ^ level) (if is_set then 1 else 0) }
    ensures stands { StandsAt nodes.new key level (index / 64 ^ level / 64) }
    ensures kept { (at high prefix : ℕ) → StandsAt nodes.old at high prefix → StandsAt nodes.new at high prefix }
{
    let offset = offset_at(index, level);
    let node = &mut nodes[key];
    let bits = node.marks[mark];
    let now = put_bit(bits, offset as u32, is_set);
    node.marks[mark] = now;
    if (bits == 0) != (now == 0) {
        carry(nodes, head, key, mark);
    }
}

// Whether the entry at a slot has a mark.
#[inline(always)]
pub(crate) fn get_bit(
    nodes: &Slab<Node>,
    head: usize,
    key: usize,
    level: u32,
    index: u64,
    mark: usize,
) -> bool
    requires mark { mark < 4 }
    requires tree { IsTree nodes.now head }
    requires stands { StandsAt nodes.now key level (index / 64 ^ level / 64) }
    requires leaf { IsLeaf (entry_at nodes.now level (index / 64 ^ level)) }
    ensures { result ≡ (mark_at mark nodes.now level (index / 64 ^ level) == 1) }
{
    has_bit(nodes[key].marks[mark], offset_at(index, level) as u32)
}

// The same where the bit may be so already. Then nothing is written, and nothing above is looked at.
#[inline(always)]
pub(crate) fn give_bit(
    nodes: &mut Slab<Node>,
    head: usize,
    key: usize,
    level: u32,
    index: u64,
    mark: usize,
    is_set: bool,
)
    requires mark { mark < 4 }
    requires stands { StandsAt nodes.old key level (index / 64 ^ level / 64) }
    requires sound { IsSound nodes.old head None }
    requires leaf { IsLeaf (entry_at nodes.old level (index / 64 ^ level)) }
    ensures sound { IsSound nodes.new head None }
    ensures writes { WritesBit nodes.old nodes.new mark level (index / 64 ^ level) (if is_set then 1 else 0) }
    ensures stands { StandsAt nodes.new key level (index / 64 ^ level / 64) }
    ensures kept { (at high prefix : ℕ) → StandsAt nodes.old at high prefix → StandsAt nodes.new at high prefix }
{
    if get_bit(nodes, head, key, level, index, mark) != is_set {
        change_bit(nodes, head, key, level, index, mark, is_set);
    }
}

// Whether an entry or a node begins at another slot of a node that has the slot of `index`. It reads the bits alone.
pub(crate) fn begins(
    nodes: &Slab<Node>,
    head: usize,
    key: usize,
    level: u32,
    index: u64,
    offset: usize,
) -> bool
    requires sound { IsSound nodes.now head None }
    requires stands { StandsAt nodes.now key level (index / 64 ^ level / 64) }
    requires within { offset < 64 }
    ensures { result ≡ true → (first : ℕ) → entry_at nodes.now level (index / 64 ^ level / 64 * 64 + offset) ≢ Some (Entry.Sibling first) }
{
    has_bit(nodes[key].marks[ENTRY], offset as u32)
}

// Whether an entry at a slot or below it has a mark.
pub(crate) fn marked_under(
    nodes: &Slab<Node>,
    head: usize,
    level: u32,
    index: u64,
    mark: usize,
) -> bool
    requires mark { mark < 4 }
    requires level { level ≤ 10 }
    requires sound { IsSound nodes.now head None }
    ensures { MatchBool result (HasMarkedUnder nodes.now mark level (index / 64 ^ level)) (HasNoMarkedUnder nodes.now mark level (index / 64 ^ level)) }
{
    let top = &nodes[head];
    if top.level < level {
        return top.marks[mark] != 0 && place_at(index, level) == 0;
    }
    covers(top, level, index) && marked_down(nodes, head, level, index, mark)
}

// The same where the head has the slot under it: down the path, as long as there is a bit.
fn marked_down(nodes: &Slab<Node>, head: usize, level: u32, index: u64, mark: usize) -> bool
    requires mark { mark < 4 }
    requires level { level ≤ 10 }
    requires sound { IsSound nodes.now head None }
    requires come { HasCome nodes.now head level index }
    ensures { MatchBool result (HasMarkedUnder nodes.now mark level (index / 64 ^ level)) (HasNoMarkedUnder nodes.now mark level (index / 64 ^ level)) }
{
    let mut key = head;
    'down: loop {
        let node = &nodes[key];
        let offset = offset_at(index, node.level);
        if !has_bit(node.marks[mark], offset as u32) {
            return false;
        }
        if node.level == level {
            return true;
        }
        match node.read(offset) {
            Slot::Child(child) => key = child,
            _ => return false,
        }
    }
}
