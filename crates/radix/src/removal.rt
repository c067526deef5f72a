//! Nodes that are given back.
ghost use Rattle.std.specs.Prelude.{◌≡◌, ◌≢◌, ℕ, ◌+◌, ◌*◌, ◌/◌, ◌%◌, ◌^◌, ◌<◌, ◌≤◌, Some, None};
ghost use Rattle.slab.specs.Slab.{get, ContainsKey};
ghost use Rattle.radix.specs.declared.entry.Entry.{Entry};
ghost use Rattle.radix.specs.Entries.{StandsAt, IsEntry, IsLeaf, IsRun, HasNoMark, PutsEntry, ClearsRun, entry_at};
ghost use Rattle.radix.specs.Tree.{IsSound, IsSoundOrVoid, IsWhole, TellsEntries, IsUnmarked, WritesSlot, ErasesRun, SameSlots};

use crate::marks::change_bit;
use crate::node::{ENTRY, Node};
use crate::slot::Word;
use crate::tree::{offset_at, place_at};
use slab::Slab;

// Gives back the empty nodes from this one up, and answers the head that is left.
pub(crate) fn prune(nodes: &mut Slab<Node>, head: usize, key: usize) -> Option<usize>
    requires sound { IsSound nodes.old head (Some key) }
    requires there { ContainsKey nodes.old key }
    ensures sound { IsSoundOrVoid nodes.new result }
    ensures entries { SameSlots nodes.old nodes.new }
{
    let mut child = key;
    'up: loop {
        let below = &nodes[child];
        if below.count != 0 {
            return Some(head);
        }
        let offset = (below.prefix % 64) as usize;
        let parent = below.parent.key();
        nodes.remove(child);
        let Some(above) = parent else {
            return None;
        };
        let node = &mut nodes[above];
        node.slots[offset] = Word::empty();
        node.count -= 1;
        child = above;
    }
}

// Empties a slot of a node, which may be left with none that is used.
fn erase_slot(nodes: &mut Slab<Node>, head: usize, key: usize, level: u32, place: u64)
    requires stands { StandsAt nodes.old key level (place / 64) }
    requires sound { IsSound nodes.old head (Some key) }
    requires entry { IsEntry (entry_at nodes.old level place) }
    requires unmarked { IsUnmarked nodes.old level place }
    ensures sound { IsSound nodes.new head (Some key) }
    ensures writes { WritesSlot nodes.old nodes.new level place None }
    ensures stands { StandsAt nodes.new key level (place / 64) }
{
    let node = &mut nodes[key];
    node.slots[(place % 64) as usize] = Word::empty();
    node.count -= 1;
}

// Takes an entry of one slot away, which has no marks any more.
pub(crate) fn clear(
    nodes: &mut Slab<Node>,
    head: usize,
    key: usize,
    level: u32,
    index: u64,
) -> Option<usize>
    requires level { level ≤ 10 }
    requires stands { StandsAt nodes.old key level (index / 64 ^ level / 64) }
    requires sound { IsSound nodes.old head None }
    requires tells { TellsEntries nodes.old }
    requires leaf { IsLeaf (entry_at nodes.old level (index / 64 ^ level)) }
    requires unmarked { HasNoMark nodes.old level (index / 64 ^ level) }
    ensures whole { IsWhole nodes.new result }
    ensures puts { PutsEntry nodes.old nodes.new level (index / 64 ^ level) None }
{
    change_bit(nodes, head, key, level, index, ENTRY, false);
    erase_slot(nodes, head, key, level, place_at(index, level));
    prune(nodes, head, key)
}

// Empties the slots of an entry.
fn erase_run(nodes: &mut Slab<Node>, head: usize, key: usize, level: u32, place: u64, span: u64)
    requires within { place % 64 + span ≤ 64 }
    requires stands { StandsAt nodes.old key level (place / 64) }
    requires sound { IsSound nodes.old head (Some key) }
    requires run { IsRun nodes.old level place span }
    requires unmarked { IsUnmarked nodes.old level place }
    ensures sound { IsSound nodes.new head (Some key) }
    ensures erases { ErasesRun nodes.old nodes.new level place span }
    ensures stands { StandsAt nodes.new key level (place / 64) }
{
    'slots: for j in 0..span {
        erase_slot(nodes, head, key, level, place + j);
    }
}

// Takes an entry of several slots away, which has no marks any more.
pub(crate) fn clear_run(
    nodes: &mut Slab<Node>,
    head: usize,
    key: usize,
    level: u32,
    index: u64,
    span: u64,
) -> Option<usize>
    requires level { level ≤ 10 }
    requires some { 0 < span }
    requires within { index / 64 ^ level % 64 + span ≤ 64 }
    requires stands { StandsAt nodes.old key level (index / 64 ^ level / 64) }
    requires sound { IsSound nodes.old head None }
    requires tells { TellsEntries nodes.old }
    requires run { IsRun nodes.old level (index / 64 ^ level) span }
    requires unmarked { HasNoMark nodes.old level (index / 64 ^ level) }
    ensures whole { IsWhole nodes.new result }
    ensures clears { ClearsRun nodes.old nodes.new level (index / 64 ^ level) span }
{
    change_bit(nodes, head, key, level, index, ENTRY, false);
    erase_run(nodes, head, key, level, place_at(index, level), span);
    prune(nodes, head, key)
}

// Writes another value into an entry, whose marks stay.
pub(crate) fn replace(
    nodes: &mut Slab<Node>,
    head: usize,
    key: usize,
    level: u32,
    index: u64,
    value: u64,
)
    requires stands { StandsAt nodes.old key level (index / 64 ^ level / 64) }
    requires sound { IsSound nodes.old head None }
    requires value { value < 2 ^ 63 }
    requires leaf { IsLeaf (entry_at nodes.old level (index / 64 ^ level)) }
    ensures sound { IsSound nodes.new head None }
    ensures writes { WritesSlot nodes.old nodes.new level (index / 64 ^ level) (Some (Entry.Leaf value)) }
    ensures stands { StandsAt nodes.new key level (index / 64 ^ level / 64) }
{
    let node = &mut nodes[key];
    node.slots[offset_at(index, level)] = Word::leaf(value);
}
