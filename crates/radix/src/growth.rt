//! Nodes that are made on the way to a slot.
ghost use Rattle.std.specs.Prelude.{◌≡◌, ◌≢◌, ℕ, ◌+◌, ◌*◌, ◌/◌, ◌%◌, ◌^◌, ◌-◌, ◌<◌, ◌≤◌, Some, None};
ghost use Rattle.slab.specs.Slab.{get, ContainsKey, HasRoomFor, slab_len};
ghost use Rattle.radix.specs.declared.entry.Entry.{Entry};
ghost use Rattle.radix.specs.Words.{FitsWord};
ghost use Rattle.radix.specs.Entries.{StandsAt, IsClear, IsFree, IsVoid, HasPathRoom, PutsEntry, PutsRun, content};
ghost use Rattle.radix.specs.Tree.{IsSound, IsSoundOrVoid, IsEntrySlot, TellsEntries, WritesSlot, WritesRun, SameSlots, HasCome, HasGap, level_of, with_run};

use crate::marks::change_bit;
use crate::node::{ENTRY, Node};
use crate::slot::{Link, Slot, Word};
use crate::tree::{covers, height_for, offset_at, place_at};
use slab::Slab;

// Makes a node below an empty slot.
pub(crate) fn add_child(nodes: &mut Slab<Node>, head: usize, key: usize, index: u64) -> usize
    requires sound { IsSound nodes.old head (Some key) }
    requires gap { HasGap nodes.old key index }
    requires room { HasRoomFor nodes.old 1 }
    requires small { nodes.old.capacity < 2 ^ 62 }
    ensures sound { IsSound nodes.new head (Some result) }
    ensures entries { SameSlots nodes.old nodes.new }
    ensures stands { StandsAt nodes.new result (level_of (get nodes.old key) - 1) (index / 64 ^ level_of (get nodes.old key)) }
    ensures len { slab_len nodes.new ≡ slab_len nodes.old + 1 }
    ensures capacity { nodes.new.capacity ≡ nodes.old.capacity }
{
    let level = nodes[key].level;
    let place = place_at(index, level);
    let child = nodes.insert_reserved(Node::blank_at(level - 1, place, Some(key)));
    let above = &mut nodes[key];
    above.slots[(place % 64) as usize] = Word::child(child);
    above.count += 1;
    child
}

// The node that has the slot of `index` at a level, made where it is not there.
pub(crate) fn node_for(nodes: &mut Slab<Node>, head: usize, level: u32, index: u64) -> usize
    requires sound { IsSound nodes.old head (Some head) }
    requires come { HasCome nodes.old head level index }
    requires clear { IsClear nodes.old level index }
    requires room { HasRoomFor nodes.old (level_of (get nodes.old head) - level) }
    requires small { nodes.old.capacity < 2 ^ 62 }
    ensures sound { IsSound nodes.new head (Some result) }
    ensures entries { SameSlots nodes.old nodes.new }
    ensures stands { StandsAt nodes.new result level (index / 64 ^ level / 64) }
    ensures capacity { nodes.new.capacity ≡ nodes.old.capacity }
{
    let mut key = head;
    'down: loop {
        let node = &nodes[key];
        if node.level == level {
            return key;
        }
        match node.read(offset_at(index, node.level)) {
            Slot::Child(child) => key = child,
            _ => key = add_child(nodes, head, key, index),
        }
    }
}

// Writes the slot of an entry, not yet the bit that tells of it.
pub(crate) fn write_slot(
    nodes: &mut Slab<Node>,
    head: usize,
    key: usize,
    level: u32,
    place: u64,
    slot: Slot,
)
    requires entry { IsEntrySlot slot }
    requires fits { FitsWord slot }
    requires sound { IsSound nodes.old head (Some key) }
    requires stands { StandsAt nodes.old key level (place / 64) }
    requires free { IsFree nodes.old level place }
    ensures sound { IsSound nodes.new head None }
    ensures writes { WritesSlot nodes.old nodes.new level place (content slot) }
    ensures stands { StandsAt nodes.new key level (place / 64) }
{
    let node = &mut nodes[key];
    node.slots[(place % 64) as usize] = Word::of(slot);
    node.count += 1;
}

// Puts an entry at an empty slot of a node.
pub(crate) fn fill(
    nodes: &mut Slab<Node>,
    head: usize,
    key: usize,
    level: u32,
    index: u64,
    value: u64,
)
    requires level { level ≤ 10 }
    requires value { value < 2 ^ 63 }
    requires sound { IsSound nodes.old head (Some key) }
    requires tells { TellsEntries nodes.old }
    requires stands { StandsAt nodes.old key level (index / 64 ^ level / 64) }
    requires free { IsFree nodes.old level (index / 64 ^ level) }
    ensures sound { IsSound nodes.new head None }
    ensures tells { TellsEntries nodes.new }
    ensures puts { PutsEntry nodes.old nodes.new level (index / 64 ^ level) (Some (Entry.Leaf value)) }
    ensures stands { StandsAt nodes.new key level (index / 64 ^ level / 64) }
{
    let place = place_at(index, level);
    write_slot(nodes, head, key, level, place, Slot::Leaf(value));
    change_bit(nodes, head, key, level, index, ENTRY, true);
}

// Puts an entry at a slot of a level.
pub(crate) fn put(nodes: &mut Slab<Node>, head: usize, level: u32, index: u64, value: u64)
    requires level { level ≤ 10 }
    requires value { value < 2 ^ 63 }
    requires sound { IsSound nodes.old head (Some head) }
    requires tells { TellsEntries nodes.old }
    requires come { HasCome nodes.old head level index }
    requires clear { IsClear nodes.old level index }
    requires free { IsFree nodes.old level (index / 64 ^ level) }
    requires room { HasRoomFor nodes.old (level_of (get nodes.old head) - level) }
    requires small { nodes.old.capacity < 2 ^ 62 }
    ensures sound { IsSound nodes.new head None }
    ensures tells { TellsEntries nodes.new }
    ensures puts { PutsEntry nodes.old nodes.new level (index / 64 ^ level) (Some (Entry.Leaf value)) }
{
    let key = node_for(nodes, head, level, index);
    fill(nodes, head, key, level, index, value);
}

// Writes the slots of an entry into a node. They are counted at once, so that no slot waits for the one before.
fn write_slots(node: &mut Node, first: usize, span: u64, value: u64)
    requires some { 0 < span }
    requires value { value < 2 ^ 63 }
    requires within { first + span ≤ 64 }
    requires count { node.old.count ≤ 64 }
    ensures { node.new ≡ with_run node.old first value span }
{
    node.slots[first] = Word::leaf(value);
    let sibling = Word::sibling(first as u64);
    'rest: for j in 1..span as usize {
        node.slots[first + j] = sibling;
    }
    node.count += span as u32;
}

// Writes the slots of an entry of several slots.
fn write_run(
    nodes: &mut Slab<Node>,
    head: usize,
    key: usize,
    level: u32,
    place: u64,
    span: u64,
    value: u64,
)
    requires some { 0 < span }
    requires value { value < 2 ^ 63 }
    requires within { place % 64 + span ≤ 64 }
    requires sound { IsSound nodes.old head (Some key) }
    requires stands { StandsAt nodes.old key level (place / 64) }
    requires free { (j : ℕ) → j < span → IsFree nodes.old level (place + j) }
    ensures sound { IsSound nodes.new head None }
    ensures writes { WritesRun nodes.old nodes.new level place span value }
    ensures stands { StandsAt nodes.new key level (place / 64) }
{
    write_slots(&mut nodes[key], (place % 64) as usize, span, value);
}

// Puts an entry of several slots of a node.
pub(crate) fn put_run(
    nodes: &mut Slab<Node>,
    head: usize,
    level: u32,
    index: u64,
    span: u64,
    value: u64,
)
    requires level { level ≤ 10 }
    requires some { 0 < span }
    requires value { value < 2 ^ 63 }
    requires within { index / 64 ^ level % 64 + span ≤ 64 }
    requires sound { IsSound nodes.old head (Some head) }
    requires tells { TellsEntries nodes.old }
    requires come { HasCome nodes.old head level index }
    requires clear { IsClear nodes.old level index }
    requires free { (j : ℕ) → j < span → IsFree nodes.old level (index / 64 ^ level + j) }
    requires room { HasRoomFor nodes.old (level_of (get nodes.old head) - level) }
    requires small { nodes.old.capacity < 2 ^ 62 }
    ensures sound { IsSound nodes.new head None }
    ensures tells { TellsEntries nodes.new }
    ensures puts { PutsRun nodes.old nodes.new level (index / 64 ^ level) span value }
{
    let key = node_for(nodes, head, level, index);
    let place = place_at(index, level);
    write_run(nodes, head, key, level, place, span, value);
    change_bit(nodes, head, key, level, index, ENTRY, true);
}

// Makes a head over the head.
pub(crate) fn add_head(nodes: &mut Slab<Node>, head: usize) -> usize
    requires sound { IsSound nodes.old head None }
    requires low { level_of (get nodes.old head) < 10 }
    requires room { HasRoomFor nodes.old 1 }
    requires small { nodes.old.capacity < 2 ^ 62 }
    ensures sound { IsSound nodes.new result None }
    ensures entries { SameSlots nodes.old nodes.new }
    ensures level { level_of (get nodes.new result) ≡ level_of (get nodes.old head) + 1 }
    ensures len { slab_len nodes.new ≡ slab_len nodes.old + 1 }
    ensures capacity { nodes.new.capacity ≡ nodes.old.capacity }
{
    // The check finds the type of the slots only where the body names it. This costs nothing.
    let _word = Word::empty();
    let over = Node::over(&nodes[head], head);
    let above = nodes.insert_reserved(over);
    let top = &mut nodes[head];
    top.parent = Link::of(Some(above));
    above
}

// Makes heads over the head until it has the slot of `index` at a level under it.
pub(crate) fn cover(nodes: &mut Slab<Node>, first: usize, level: u32, index: u64) -> usize
    requires level { level ≤ 10 }
    requires sound { IsSound nodes.old first None }
    requires room { HasPathRoom nodes.old level index }
    ensures sound { IsSound nodes.new result None }
    ensures entries { SameSlots nodes.old nodes.new }
    ensures come { HasCome nodes.new result level index }
    ensures room { HasRoomFor nodes.new (level_of (get nodes.new result) - level) }
    ensures capacity { nodes.new.capacity ≡ nodes.old.capacity }
{
    let mut head = first;
    'up: loop {
        if covers(&nodes[head], level, index) {
            return head;
        }
        head = add_head(nodes, head);
    }
}

// Makes the first node of a tree that is to have the slot of `index` at a level.
fn plant(nodes: &mut Slab<Node>, level: u32, index: u64) -> usize
    requires level { level ≤ 10 }
    requires void { IsVoid nodes.old }
    requires room { HasPathRoom nodes.old level index }
    ensures sound { IsSound nodes.new result (Some result) }
    ensures entries { SameSlots nodes.old nodes.new }
    ensures come { HasCome nodes.new result level index }
    ensures room { HasRoomFor nodes.new (level_of (get nodes.new result) - level) }
    ensures capacity { nodes.new.capacity ≡ nodes.old.capacity }
{
    let height = height_for(index, level);
    // As in `add_head`.
    let _word = Word::empty();
    nodes.insert_reserved(Node::blank_at(height, 0, None))
}

// The head over the slot of `index` at a level, made where it is not there.
pub(crate) fn head_for(nodes: &mut Slab<Node>, head: Option<usize>, level: u32, index: u64) -> usize
    requires level { level ≤ 10 }
    requires sound { IsSoundOrVoid nodes.old head }
    requires room { HasPathRoom nodes.old level index }
    ensures sound { IsSound nodes.new result (Some result) }
    ensures entries { SameSlots nodes.old nodes.new }
    ensures come { HasCome nodes.new result level index }
    ensures room { HasRoomFor nodes.new (level_of (get nodes.new result) - level) }
    ensures capacity { nodes.new.capacity ≡ nodes.old.capacity }
{
    match head {
        Some(first) => cover(nodes, first, level, index),
        None => plant(nodes, level, index),
    }
}
