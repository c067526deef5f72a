//! Each public call with ample memory, at indexes where a level begins or ends.
ghost use Rattle.std.specs.Prelude.{ℕ, ◌+◌, ◌/◌, ◌%◌, ◌^◌, ◌<◌, ◌≤◌};
ghost use Rattle.radix.specs.Entries.{StandsAt, IsRun};

use crate::checks::{check, same};
use radix::{Cursor, Entry, Nodes};
use std::test::Fail;

const EDGES: [u64; 7] = [
    0,
    63,
    64,
    4_095,
    4_096,
    68_719_476_736,
    18_446_744_073_709_551_615,
];

// The slot of the next entry.
fn next_entry(nodes: &Nodes, from: u64) -> Option<(u32, u64)> {
    nodes
        .next_entry(from)
        .map(|found| (found.level, found.place))
}

// The slot of the next entry with mark 1.
fn next_set(nodes: &Nodes, from: u64) -> Option<(u32, u64)> {
    nodes
        .next_set(from, 1)
        .map(|found| (found.level, found.place))
}

// The slot of the next entry with mark 0, also where it begins before.
fn next_held(nodes: &Nodes, from: u64) -> Option<(u32, u64)> {
    nodes
        .next_held(from, 0)
        .map(|found| (found.level, found.place))
}

// Puts an entry of one index where none is. Whether it did.
fn put(nodes: &mut Nodes, index: u64, value: u64) -> bool
    requires { value < 2 ^ 63 }
{
    if let Some(walk) = nodes.walk(index)
        && let Some(_) = walk.entry
    {
        return false;
    }
    let Ok(()) = nodes.reserve_path(index, 0) else {
        return false;
    };
    nodes.put(index, 0, value);
    true
}

// Sets or clears a mark of the entry at an index. Whether one is there.
fn mark(nodes: &mut Nodes, index: u64, is_set: bool) -> bool {
    let Some(found) = nodes.walk(index) else {
        return false;
    };
    let Some(Entry::Leaf(_)) = found.entry else {
        return false;
    };
    if is_set {
        nodes.set_bit(found.cursor, index, found.level, 1);
    } else {
        nodes.clear_bit(found.cursor, index, found.level, 1);
    }
    true
}

// Takes the entry of one index away. Whether one was there.
fn take(nodes: &mut Nodes, index: u64) -> bool {
    let Some(cursor) = nodes.seek(index, 0) else {
        return false;
    };
    let Some(Entry::Leaf(_)) = nodes.entry_in(cursor, index, 0) else {
        return false;
    };
    nodes.clear_bit(cursor, index, 0, 0);
    nodes.clear_bit(cursor, index, 0, 1);
    nodes.clear_bit(cursor, index, 0, 2);
    nodes.clear(cursor, index, 0);
    true
}

// Takes an entry of several slots of level 1 away.
fn take_run(nodes: &mut Nodes, cursor: Cursor, index: u64, span: u64)
    requires stands { StandsAt nodes.old cursor 1 (index / 64 ^ 1 / 64) }
    requires some { 0 < span }
    requires within { index / 64 ^ 1 % 64 + span ≤ 64 }
    requires run { IsRun nodes.old 1 (index / 64 ^ 1) span }
{
    nodes.clear_bit(cursor, index, 1, 0);
    nodes.clear_bit(cursor, index, 1, 1);
    nodes.clear_bit(cursor, index, 1, 2);
    nodes.clear_run(cursor, index, 1, span);
}

// Writes another value into the entry of one index. Whether one is there.
fn store(nodes: &mut Nodes, index: u64, value: u64) -> bool
    requires { value < 2 ^ 63 }
{
    let Some(cursor) = nodes.seek(index, 0) else {
        return false;
    };
    match nodes.entry_in(cursor, index, 0) {
        Some(Entry::Leaf(_)) => nodes.replace(cursor, index, 0, value),
        Some(Entry::Sibling(_)) => return false,
        None => nodes.fill(cursor, index, 0, value),
    }
    true
}

// Makes an entry of one slot a node of entries of 2^step slots each. Whether one is there.
fn expand(nodes: &mut Nodes, index: u64, level: u32, step: u32) -> bool
    requires inner { 0 < level }
    requires step { step < 6 }
{
    let Ok(()) = nodes.reserve_nodes(1) else {
        return false;
    };
    let Some(cursor) = nodes.seek(index, level) else {
        return false;
    };
    let Some(Entry::Leaf(_)) = nodes.entry_in(cursor, index, level) else {
        return false;
    };
    nodes.expand(cursor, index, level, step);
    true
}

// The tree grows to its whole height and goes again, in both orders. A node is made for each level of a path that is
// not there yet, and for each level that the head has to rise.
#[test]
fn grows_and_shrinks(rt: HostRuntime) -> Result<(), Fail> {
    for (is_rising, counts) in [
        (true, [1, 1, 3, 4, 7, 17, 31]),
        (false, [11, 21, 27, 29, 30, 31, 31]),
    ] {
        let mut nodes = Nodes::new(rt.alloc());
        same(&rt, nodes.count(), 0);
        for i in 0..7usize {
            let index = if is_rising { EDGES[i] } else { EDGES[6 - i] };
            check(&rt, put(&mut nodes, index, index / 2));
            check(&rt, !put(&mut nodes, index, 5));
            same(&rt, nodes.get(index, 0), Some(Entry::Leaf(index / 2)));
            assert_eq!(rt; nodes.count(), counts[i], "at {index}");
        }
        // A search finds the entries in rising order, whatever the order in which they came.
        let mut from = 0;
        for index in EDGES {
            let place = index;
            same(&rt, next_entry(&nodes, from), Some((0, place)));
            from = index.wrapping_add(1);
        }
        for i in 0..7usize {
            let index = if is_rising { EDGES[i] } else { EDGES[6 - i] };
            check(&rt, take(&mut nodes, index));
            check(&rt, !take(&mut nodes, index));
        }
        same(&rt, nodes.count(), 0);
        same(&rt, next_entry(&nodes, 0), None);
    }
    Ok(())
}

// A mark above is there as long as one below is.
#[test]
fn marks_at_every_level(rt: HostRuntime) -> Result<(), Fail> {
    let mut nodes = Nodes::new(rt.alloc());
    for index in EDGES {
        check(&rt, put(&mut nodes, index, 1));
    }
    check(&rt, store(&mut nodes, 63, 2));
    same(&rt, nodes.get(63, 0), Some(Entry::Leaf(2)));
    check(&rt, store(&mut nodes, 62, 3));
    same(&rt, nodes.get(62, 0), Some(Entry::Leaf(3)));
    check(&rt, !nodes.marked(1));
    for index in [63, 4_096, u64::MAX] {
        check(&rt, mark(&mut nodes, index, true));
    }
    check(&rt, nodes.marked(1));
    check(&rt, !nodes.marked(0));
    for (from, place) in [
        (0, 63),
        (63, 63),
        (64, 4_096),
        (4_097, u64::MAX),
        (u64::MAX, u64::MAX),
    ] {
        same(&rt, next_set(&nodes, from), Some((0, place)));
    }
    check(&rt, mark(&mut nodes, 4_096, false));
    check(&rt, nodes.marked_under(63, 1, 1));
    check(&rt, !nodes.marked_under(64, 1, 1));
    check(&rt, nodes.marked_under(4_095, 2, 1));
    check(&rt, !nodes.marked_under(4_096, 2, 1));
    same(&rt, next_set(&nodes, 64), Some((0, u64::MAX)));
    check(&rt, mark(&mut nodes, u64::MAX, false));
    same(&rt, next_set(&nodes, 64), None);
    check(&rt, mark(&mut nodes, 63, false));
    check(&rt, !nodes.marked(1));
    Ok(())
}

// A search finds an entry by its first slot: the slot of the search's first index counts, a further one of the entry does
// not.
#[test]
fn next_of_several_slots(rt: HostRuntime) -> Result<(), Fail> {
    let mut nodes = Nodes::new(rt.alloc());
    let Ok(()) = nodes.reserve_path(256, 1) else {
        check(&rt, false);
        return Ok(());
    };
    nodes.put_run(256, 1, 4, 9);
    same(&rt, next_entry(&nodes, 1), Some((1, 4)));
    same(&rt, next_entry(&nodes, 257), Some((1, 4)));
    same(&rt, next_entry(&nodes, 320), None);
    Ok(())
}

// An entry of 4 slots of level 1 has the indexes 256 to 511.
#[test]
fn several_slots(rt: HostRuntime) -> Result<(), Fail> {
    let mut nodes = Nodes::new(rt.alloc());
    let Ok(()) = nodes.reserve_path(256, 1) else {
        check(&rt, false);
        return Ok(());
    };
    nodes.put_run(256, 1, 4, 9);
    same(&rt, nodes.count(), 1);
    same(&rt, nodes.get(256, 1), Some(Entry::Leaf(9)));
    same(&rt, nodes.get(511, 1), Some(Entry::Sibling(4)));
    same(&rt, nodes.get(512, 1), None);
    let Some(cursor) = nodes.seek(256, 1) else {
        check(&rt, false);
        return Ok(());
    };
    same(
        &rt,
        nodes.beside(cursor, 256, 1, 7),
        Some(Entry::Sibling(4)),
    );
    check(&rt, nodes.follows(cursor, 256, 1, 7));
    check(&rt, !nodes.follows(cursor, 256, 1, 8));
    same(&rt, next_held(&nodes, 400), None);
    nodes.set_bit(cursor, 256, 1, 0);
    check(&rt, nodes.get_bit(cursor, 256, 1, 0));
    for from in [0u64, 256, 400, 511] {
        same(&rt, next_held(&nodes, from), Some((1, 4)));
    }
    same(&rt, next_held(&nodes, 512), None);
    take_run(&mut nodes, cursor, 256, 4);
    same(&rt, nodes.get(511, 1), None);
    same(&rt, nodes.count(), 0);
    Ok(())
}

// An entry of 4 slots becomes two of 2 slots, each with its mark.
#[test]
fn cut_in_two(rt: HostRuntime) -> Result<(), Fail> {
    let mut nodes = Nodes::new(rt.alloc());
    let Ok(()) = nodes.reserve_path(256, 1) else {
        check(&rt, false);
        return Ok(());
    };
    nodes.put_run(256, 1, 4, 9);
    let Some(cursor) = nodes.seek(256, 1) else {
        check(&rt, false);
        return Ok(());
    };
    nodes.set_bit(cursor, 256, 1, 1);
    nodes.cut_run(cursor, 256, 1, 4, 1);
    for (index, entry) in [
        (192, None),
        (256, Some(Entry::Leaf(9))),
        (320, Some(Entry::Sibling(4))),
        (384, Some(Entry::Leaf(9))),
        (448, Some(Entry::Sibling(6))),
        (512, None),
    ] {
        assert_eq!(rt; nodes.get(index, 1), entry, "at {index}");
    }
    same(&rt, nodes.count(), 1);
    same(&rt, next_set(&nodes, 0), Some((1, 4)));
    same(&rt, next_set(&nodes, 320), Some((1, 6)));
    same(&rt, next_set(&nodes, 448), None);
    Ok(())
}

// An entry of one slot becomes a node of entries, each with its mark, and so does one of these.
#[test]
fn expand_twice(rt: HostRuntime) -> Result<(), Fail> {
    let mut nodes = Nodes::new(rt.alloc());
    let Ok(()) = nodes.reserve_path(8_192, 2) else {
        check(&rt, false);
        return Ok(());
    };
    nodes.put(8_192, 2, 7);
    check(&rt, mark(&mut nodes, 8_192, true));
    check(&rt, expand(&mut nodes, 8_192, 2, 0));
    same(&rt, nodes.get(8_192, 2), None);
    same(&rt, nodes.get(12_224, 1), Some(Entry::Leaf(7)));
    check(&rt, mark(&mut nodes, 8_192, false));
    same(&rt, next_set(&nodes, 0), Some((1, 129)));
    check(&rt, expand(&mut nodes, 12_224, 1, 3));
    same(&rt, nodes.get(12_224, 1), None);
    same(&rt, nodes.get(12_280, 0), Some(Entry::Leaf(7)));
    same(&rt, nodes.get(12_287, 0), Some(Entry::Sibling(56)));
    same(&rt, next_set(&nodes, 12_224), Some((0, 12_224)));
    same(&rt, next_set(&nodes, 12_225), Some((0, 12_232)));
    same(&rt, next_set(&nodes, 12_281), None);
    same(&rt, nodes.count(), 3);
    Ok(())
}
