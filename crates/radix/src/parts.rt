//! An entry that becomes several of fewer indexes each, with its value and its marks. No bit above them changes, since the
//! same marks stand below.
ghost use Rattle.std.specs.Prelude.{◌≡◌, ℕ, ◌+◌, ◌-◌, ◌*◌, ◌/◌, ◌%◌, ◌^◌, ◌<◌, ◌≤◌, ◌==◌, Some, None, if◌then◌else◌};
ghost use Rattle.std.specs.Int.{bit_at};
ghost use Rattle.std.specs.Int.Bits.{bit_or};
ghost use Rattle.slab.specs.Slab.{HasRoomFor, slab_len};
ghost use Rattle.radix.specs.Entries.{StandsAt, IsLeaf, IsRun, entry_at, slot};
ghost use Rattle.radix.specs.Tree.{IsSound, TellsEntries};
ghost use Rattle.radix.specs.Parts.{Parts, PartsSlots, AllParts, AreFirsts, IsFull, part_slot};

use crate::bitmap::has_bit;
use crate::node::Node;
use crate::slot::{Link, Word};
use crate::tree::{offset_at, place_at};
use slab::Slab;

// The lowest bit of each 2^step bits.
fn each_lowest(step: u32) -> u64
    requires { step < 6 }
    ensures { AreFirsts result 0 64 step }
{
    match step {
        0 => 0xffff_ffff_ffff_ffff,
        1 => 0x5555_5555_5555_5555,
        2 => 0x1111_1111_1111_1111,
        3 => 0x0101_0101_0101_0101,
        4 => 0x0001_0001_0001_0001,
        _ => 0x0000_0001_0000_0001,
    }
}

// The bits of the first slots where `count` slots from `at` on are entries of 2^step slots each.
fn first_bits(at: u32, count: u32, step: u32) -> u64
    requires step { step < 6 }
    requires some { 0 < count }
    requires within { at + count ≤ 64 }
    ensures { AreFirsts result at count step }
{
    (each_lowest(step) & (u64::MAX >> (64 - count))) << at
}

// What the slot `j` after the first at `at` has, where each 2^step slots are an entry with this first slot.
fn part_at(first: Word, at: usize, j: usize, step: u32) -> Word
    requires step { step < 6 }
    requires within { at + j < 64 }
    ensures { result ≡ part_slot first at step j }
{
    let after = j % (1 << step);
    if after == 0 {
        first
    } else {
        Word::sibling((at + (j - after)) as u64)
    }
}

// Makes `count` slots from `at` on entries of 2^step slots each, with the first slot that stands at `at`.
fn part_slots(slots: &mut [Word; 64], at: usize, count: usize, step: u32)
    requires step { step < 6 }
    requires some { 0 < count }
    requires within { at + count ≤ 64 }
    ensures { PartsSlots slots.old slots.new at count step }
{
    let first = slots[at];
    'slots: for j in 0..count {
        slots[at + j] = part_at(first, at, j, step);
    }
}

// The bits of a mark, with these ones too where the slot has it.
fn with_bits_if(bits: u64, offset: u32, more: u64) -> u64
    requires { offset < 64 }
    ensures { result ≡ (if bit_at bits offset == 1 then bit_or bits more else bits) }
{
    if has_bit(bits, offset) {
        bits | more
    } else {
        bits
    }
}

// Cuts an entry of several slots into entries of 2^step slots each.
pub(crate) fn cut_run(
    nodes: &mut Slab<Node>,
    head: usize,
    key: usize,
    level: u32,
    index: u64,
    span: u64,
    step: u32,
)
    requires some { 0 < span }
    requires step { step < 6 }
    requires within { index / 64 ^ level % 64 + span ≤ 64 }
    requires sound { IsSound nodes.old head None }
    requires tells { TellsEntries nodes.old }
    requires stands { StandsAt nodes.old key level (index / 64 ^ level / 64) }
    requires run { IsRun nodes.old level (index / 64 ^ level) span }
    ensures sound { IsSound nodes.new head None }
    ensures tells { TellsEntries nodes.new }
    ensures parts { Parts nodes.old nodes.new level (index / 64 ^ level) level (index / 64 ^ level) span step }
    ensures stands { StandsAt nodes.new key level (index / 64 ^ level / 64) }
    ensures len { slab_len nodes.new ≡ slab_len nodes.old }
    ensures capacity { nodes.new.capacity ≡ nodes.old.capacity }
{
    let at = offset_at(index, level);
    let offset = at as u32;
    let firsts = first_bits(offset, span as u32, step);
    let node = &mut nodes[key];
    part_slots(&mut node.slots, at, span as usize, step);
    node.marks = [
        with_bits_if(node.marks[0], offset, firsts),
        with_bits_if(node.marks[1], offset, firsts),
        with_bits_if(node.marks[2], offset, firsts),
        with_bits_if(node.marks[3], offset, firsts),
    ];
}

// The slots of a node where each 2^step of them are an entry with this first slot.
fn full_slots(first: Word, step: u32) -> [Word; 64]
    requires { step < 6 }
    ensures { AllParts first step result }
{
    // Entries of one slot each, the most common, are made at once.
    if step == 0 {
        return [first; 64];
    }
    let mut slots = [first; 64];
    part_slots(&mut slots, 0, 64, step);
    slots
}

// These bits where the slot has a mark, and else none.
fn bits_if(bits: u64, offset: u32, given: u64) -> u64
    requires { offset < 64 }
    ensures { result ≡ (if bit_at bits offset == 1 then given else 0) }
{
    if has_bit(bits, offset) { given } else { 0 }
}

// The word of a slot.
fn word_in(node: &Node, offset: usize) -> Word
    requires { offset < 64 }
    ensures { result ≡ slot node.now offset }
{
    node.slots[offset]
}

// The node of entries of 2^step slots each that comes below the slot of an entry.
fn full_at(above: &Node, key: usize, place: u64, step: u32) -> Node
    requires step { step < 6 }
    requires inner { 0 < above.now.level }
    requires small { key < 2 ^ 62 }
    ensures { IsFull above.now key place step result }
{
    let at = (place % 64) as usize;
    let offset = at as u32;
    let firsts = first_bits(0, 64, step);
    Node {
        level: above.level - 1,
        count: 64,
        prefix: place,
        parent: Link::of(Some(key)),
        marks: [
            bits_if(above.marks[0], offset, firsts),
            bits_if(above.marks[1], offset, firsts),
            bits_if(above.marks[2], offset, firsts),
            bits_if(above.marks[3], offset, firsts),
        ],
        slots: full_slots(word_in(above, at), step),
    }
}

// Puts a node of entries of 2^step slots each in the place of an entry of one slot, and answers its key.
pub(crate) fn expand(
    nodes: &mut Slab<Node>,
    head: usize,
    key: usize,
    level: u32,
    index: u64,
    step: u32,
) -> usize
    requires step { step < 6 }
    requires inner { 0 < level }
    requires sound { IsSound nodes.old head None }
    requires tells { TellsEntries nodes.old }
    requires stands { StandsAt nodes.old key level (index / 64 ^ level / 64) }
    requires leaf { IsLeaf (entry_at nodes.old level (index / 64 ^ level)) }
    requires room { HasRoomFor nodes.old 1 }
    requires small { nodes.old.capacity < 2 ^ 62 }
    ensures sound { IsSound nodes.new head None }
    ensures tells { TellsEntries nodes.new }
    ensures parts { Parts nodes.old nodes.new level (index / 64 ^ level) (level - 1) (index / 64 ^ level * 64) 64 step }
    ensures stands { StandsAt nodes.new key level (index / 64 ^ level / 64) }
    ensures below { StandsAt nodes.new result (level - 1) (index / 64 ^ level) }
    ensures len { slab_len nodes.new ≡ slab_len nodes.old + 1 }
    ensures capacity { nodes.new.capacity ≡ nodes.old.capacity }
{
    let place = place_at(index, level);
    let full = full_at(&nodes[key], key, place, step);
    let child = nodes.insert_reserved(full);
    let above = &mut nodes[key];
    above.slots[(place % 64) as usize] = Word::child(child);
    child
}
