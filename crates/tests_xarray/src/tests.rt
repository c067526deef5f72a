//! The array's calls row by row, its ends, and each call once more beside what a table of a few entries says.

ghost use Rattle.std.specs.Prelude.{◌≡◌, ◌<◌, ◌≤◌, OnOk, true};
ghost use Rattle.std.specs.FinMap as map;
ghost use Rattle.xarray.specs.MarkedArray.{remarked, unmarked};

use crate::checks::{check, same};
use pc_types::Refusal;
use std::process::Abort;
use std::test::Fail;
use xarray::{Found, MAX_VALUE, Mark, Marked, Marks, XArray};

const ALL: u64 = u64::MAX;

fn assert_fresh(rt: &impl Abort, array: &mut XArray, index: u64, value: u64) {
    same(rt, array.store(index, value), Ok(None));
}

fn assert_marks(rt: &impl Abort, array: &mut XArray, index: u64, mark: Mark) {
    same(rt, array.set_mark(index, mark), Ok(()));
}

fn one(first: u64, value: u64) -> Option<Found> {
    Some(Found {
        first,
        order: 0,
        value,
    })
}

// Entries at 3, 70 and 4096, as the tests begin.
fn three(rt: &impl Abort, array: &mut XArray) {
    assert_fresh(rt, array, 3, 1);
    assert_fresh(rt, array, 70, 2);
    assert_fresh(rt, array, 4096, 3);
}

// Marks are found from the lowest on, and go with their entry; the rest of the row is refusals.
#[test]
fn marks_are_found_in_order(rt: HostRuntime) -> Result<(), Fail> {
    let mut array = XArray::new(rt.alloc());
    three(&rt, &mut array);
    assert_marks(&rt, &mut array, 70, Mark::M0);
    assert_marks(&rt, &mut array, 4096, Mark::M0);
    same(&rt, array.find_marked(0, ALL, Mark::M0), one(70, 2));
    same(&rt, array.load_marked(70, Mark::M0), Some(2));
    same(&rt, array.load_marked(70, Mark::M1), None);
    same(&rt, array.load_marked(71, Mark::M0), None);
    array.clear_mark(70, Mark::M0);
    same(&rt, array.find_marked(0, ALL, Mark::M0), one(4096, 3));
    same(&rt, array.erase(4096), Some(3));
    check(&rt, !array.marked(Mark::M0));
    same(&rt, array.find(4, ALL), one(70, 2));
    same(&rt, array.retag(0, 70, Mark::M0, Mark::M1), 0);
    same(&rt, array.store(70, 5), Ok(Some(2)));
    same(&rt, array.set_mark(9, Mark::M0), Err(Refusal::NoEntry));
    same(&rt, array.insert(3, 8), Err(Refusal::Busy));
    same(&rt, array.reserve(9, 0), Ok(()));
    same(&rt, array.insert(9, 8), Ok(()));
    Ok(())
}

// The greatest index has an entry as any other, and an array without entries has no node.
#[test]
fn greatest_index_comes_and_goes(rt: HostRuntime) -> Result<(), Fail> {
    let mut array = XArray::new(rt.alloc());
    same(&rt, array.store(ALL, 1), Ok(None));
    same(&rt, array.load(ALL), Some(1));
    same(&rt, array.erase(ALL), Some(1));
    same(&rt, array.nodes(), 0);
    Ok(())
}

// A value has 63 bits. The test of the value comes before that of the entry.
#[test]
fn greatest_value_is_kept(rt: HostRuntime) -> Result<(), Fail> {
    let mut array = XArray::new(rt.alloc());
    same(
        &rt,
        array.store(5, 9_223_372_036_854_775_808),
        Err(Refusal::BadEntry),
    );
    same(&rt, array.insert(5, ALL), Err(Refusal::BadEntry));
    same(&rt, array.load(5), None);
    same(&rt, array.insert(5, MAX_VALUE), Ok(()));
    same(&rt, array.load(5), Some(MAX_VALUE));
    same(&rt, array.insert(5, ALL), Err(Refusal::BadEntry));
    Ok(())
}

// A retag counts the entries with the mark, also those that have the other mark already, and leaves those past its end.
#[test]
fn retag_counts_its_entries(rt: HostRuntime) -> Result<(), Fail> {
    let mut array = XArray::new(rt.alloc());
    three(&rt, &mut array);
    assert_marks(&rt, &mut array, 3, Mark::M1);
    assert_marks(&rt, &mut array, 70, Mark::M1);
    assert_marks(&rt, &mut array, 70, Mark::M2);
    assert_marks(&rt, &mut array, 4096, Mark::M1);
    same(&rt, array.retag(3, 4095, Mark::M1, Mark::M2), 2);
    check(&rt, array.get_mark(3, Mark::M2));
    check(&rt, array.get_mark(3, Mark::M1));
    check(&rt, !array.get_mark(4096, Mark::M2));
    same(&rt, array.retag(4, 3, Mark::M1, Mark::M2), 0);
    same(&rt, array.retag(0, ALL, Mark::M1, Mark::M1), 3);
    Ok(())
}

// A search ends at its end, which it includes, and from above its end it finds nothing.
#[test]
fn search_ends_at_its_end(rt: HostRuntime) -> Result<(), Fail> {
    let mut array = XArray::new(rt.alloc());
    three(&rt, &mut array);
    assert_marks(&rt, &mut array, 70, Mark::M2);
    same(&rt, array.find(4, 69), None);
    same(&rt, array.find(4, 70), one(70, 2));
    same(&rt, array.find(70, 3), None);
    same(&rt, array.find_marked(0, 69, Mark::M2), None);
    same(&rt, array.find_marked(70, 70, Mark::M2), one(70, 2));
    Ok(())
}

// A store over an entry keeps its marks; a store where one was taken away has none.
#[test]
fn store_keeps_marks(rt: HostRuntime) -> Result<(), Fail> {
    let mut array = XArray::new(rt.alloc());
    three(&rt, &mut array);
    assert_marks(&rt, &mut array, 3, Mark::M0);
    same(&rt, array.store(3, 9), Ok(Some(1)));
    check(&rt, array.get_mark(3, Mark::M0));
    same(&rt, array.erase(3), Some(9));
    same(&rt, array.store(3, 4), Ok(None));
    check(&rt, !array.get_mark(3, Mark::M0));
    Ok(())
}

fn range(first: u64, order: u32, value: u64) -> Option<Found> {
    Some(Found {
        first,
        order,
        value,
    })
}

// Each index of a range has its entry; a search that begins inside it answers it with its first index, and once; marks are
// the whole range's; and it goes whole.
#[test]
fn range_is_one_entry(rt: HostRuntime) -> Result<(), Fail> {
    let mut array = XArray::new(rt.alloc());
    same(&rt, array.insert_order(64, 6, 7), Ok(()));
    for index in [64u64, 100, 127] {
        same(&rt, array.load(index), Some(7));
    }
    same(&rt, array.load(63), None);
    same(&rt, array.load(128), None);
    assert_marks(&rt, &mut array, 100, Mark::M0);
    same(&rt, array.find_marked(0, 200, Mark::M0), range(64, 6, 7));
    same(&rt, array.find_marked(65, 200, Mark::M0), range(64, 6, 7));
    same(&rt, array.find_marked(128, 200, Mark::M0), None);
    same(&rt, array.retag(0, 64, Mark::M0, Mark::M2), 1);
    check(&rt, array.get_mark(127, Mark::M2));
    same(&rt, array.erase(127), Some(7));
    check(&rt, !array.marked(Mark::M0));
    same(&rt, array.nodes(), 0);
    Ok(())
}

// Every order from 0 to 63 is served at its last place, and no other.
#[test]
fn each_order_is_served(rt: HostRuntime) -> Result<(), Fail> {
    let mut array = XArray::new(rt.alloc());
    for order in 0..64u32 {
        let first = u64::MAX - ((1u64 << order) - 1);
        same(&rt, array.reserve(first, order), Ok(()));
        same(&rt, array.insert_order(first, order, 9), Ok(()));
        same(&rt, array.insert_order(ALL, 0, 9), Err(Refusal::Busy));
        same(&rt, array.find(ALL, ALL), range(first, order, 9));
        same(&rt, array.store(ALL, 8), Ok(Some(9)));
        same(&rt, array.erase(first), Some(8));
        same(&rt, array.nodes(), 0);
    }
    same(&rt, array.insert_order(0, 64, 9), Err(Refusal::BadOrder));
    same(&rt, array.insert_order(1, 1, 9), Err(Refusal::BadOrder));
    same(&rt, array.insert_order(1, 64, ALL), Err(Refusal::BadEntry));
    same(&rt, array.reserve(0, 64), Err(Refusal::BadOrder));
    same(&rt, array.reserve(2, 2), Err(Refusal::BadOrder));
    Ok(())
}

// A range that meets an entry anywhere is refused, and leaves all as it was.
#[test]
fn ranges_do_not_overlap(rt: HostRuntime) -> Result<(), Fail> {
    let mut array = XArray::new(rt.alloc());
    assert_fresh(&rt, &mut array, 4095, 1);
    same(&rt, array.insert_order(0, 12, 2), Err(Refusal::Busy));
    same(&rt, array.insert_order(0, 13, 2), Err(Refusal::Busy));
    same(&rt, array.insert_order(4096, 12, 2), Ok(()));
    same(&rt, array.insert(8191, 3), Err(Refusal::Busy));
    same(&rt, array.find(0, ALL), one(4095, 1));
    same(&rt, array.find(4096, ALL), range(4096, 12, 2));
    Ok(())
}

// Each part of an entry has its value and its marks, and goes alone.
#[test]
fn parts_are_entries(rt: HostRuntime) -> Result<(), Fail> {
    let mut array = XArray::new(rt.alloc());
    same(&rt, array.insert_order(0, 2, 9), Ok(()));
    assert_marks(&rt, &mut array, 1, Mark::M1);
    same(&rt, array.split(3, 0), Ok(()));
    same(&rt, array.erase(2), Some(9));
    same(&rt, array.load(3), Some(9));
    same(&rt, array.retag(0, 3, Mark::M1, Mark::M0), 3);
    same(&rt, array.find(1, ALL), one(1, 9));
    check(&rt, !array.get_mark(3, Mark::M2));
    Ok(())
}

// Splits a marked entry at 0, looks at the first and the last index of each part, and takes the parts away.
fn check_split(rt: &impl Abort, array: &mut XArray, from: u32, order: u32, nodes: usize)
    requires high { from < 32 }
    requires low { order ≤ from }
{
    same(rt, array.insert_order(0, from, 7), Ok(()));
    assert_marks(rt, array, 1, Mark::M2);
    same(rt, array.split(5, order), Ok(()));
    same(rt, array.find(1 << from, ALL), None);
    same(rt, array.nodes(), nodes);
    for part in 0..1u64 << (from - order) {
        let first = part << order;
        let last = first | ((1 << order) - 1);
        same(
            rt,
            array.find_marked(first, first, Mark::M2),
            range(first, order, 7),
        );
        check(rt, !array.get_mark(last, Mark::M0));
        same(rt, array.find(last, last), range(first, order, 7));
        same(rt, array.erase(last), Some(7));
    }
    same(rt, array.nodes(), 0);
}

// A split crosses levels, in a node for each slot, and a node goes with its last entry.
#[test]
fn split_crosses_levels(rt: HostRuntime) -> Result<(), Fail> {
    let mut array = XArray::new(rt.alloc());
    check_split(&rt, &mut array, 9, 0, 9);
    check_split(&rt, &mut array, 12, 3, 66);
    check_split(&rt, &mut array, 7, 6, 1);
    check_split(&rt, &mut array, 13, 7, 3);
    check_split(&rt, &mut array, 18, 1, 4_162);
    Ok(())
}

// An index without an entry comes before an order that is too great, and the entry's own order is none. More nodes than
// memory has are refused, and nothing changes.
#[test]
fn split_is_refused(rt: HostRuntime) -> Result<(), Fail> {
    let mut array = XArray::new(rt.alloc());
    same(&rt, array.split(0, 64), Err(Refusal::NoEntry));
    same(&rt, array.insert_order(8, 3, 7), Ok(()));
    same(&rt, array.split(7, 0), Err(Refusal::NoEntry));
    same(&rt, array.split(15, 4), Err(Refusal::BadOrder));
    same(&rt, array.split(15, 64), Err(Refusal::BadOrder));
    same(&rt, array.split(15, 3), Ok(()));
    same(&rt, array.find(0, ALL), range(8, 3, 7));
    same(&rt, array.insert_order(1 << 63, 63, 8), Ok(()));
    same(&rt, array.split(ALL, 0), Err(Refusal::Memory));
    same(&rt, array.find(ALL, ALL), range(1 << 63, 63, 8));
    same(&rt, array.split(ALL, 60), Ok(()));
    same(&rt, array.find(ALL, ALL), range(15 << 60, 60, 8));
    Ok(())
}

// Whatever is stored is there and is taken away, at indexes that share nodes and at indexes that do not.
#[test]
fn dense_and_sparse_indexes(rt: HostRuntime) -> Result<(), Fail> {
    let mut array = XArray::new(rt.alloc());
    for step in [1u64, 64, 4097, 281_474_976_710_657] {
        for k in 0..200u64 {
            let index = k.wrapping_mul(step);
            same(&rt, array.store(index, k), Ok(None));
            same(&rt, array.load(index), Some(k));
        }
        for k in 0..200u64 {
            let index = k.wrapping_mul(step);
            same(&rt, array.find(0, ALL), one(index, k));
            same(&rt, array.erase(index), Some(k));
        }
        same(&rt, array.nodes(), 0);
    }
    Ok(())
}

// Puts an entry, and marks it as changed.
fn put_changed(array: &mut XArray, index: u64, value: u64) -> Result<(), Refusal>
    ensures { OnOk result (array.new.ranges ≡ remarked (map.insert array.old.ranges index (unmarked 0 value)) index Mark.M0 true) }
{
    array.insert(index, value)?;
    array.set_mark(index, Mark::M0)
}

// Takes the first changed entry off the pass, and answers its value.
fn take_one(array: &mut XArray) -> Option<u64> {
    let found = array.find_marked(0, u64::MAX, Mark::M1)?;
    array.clear_mark(found.first, Mark::M0);
    array.clear_mark(found.first, Mark::M1);
    Some(found.value)
}

// Goes over what had changed as the pass began, and answers the sum of the values.
fn sweep(array: &mut XArray) -> u64 {
    let mut sum = 0u64;
    for _ in 0..array.retag(0, u64::MAX, Mark::M0, Mark::M1) {
        sum = sum.wrapping_add(take_one(array).unwrap_or(0));
    }
    sum
}

// A pass sees each changed entry once, and leaves none changed.
#[test]
fn sweep_takes_each_once(rt: HostRuntime) -> Result<(), Fail> {
    let mut array = XArray::new(rt.alloc());
    same(&rt, put_changed(&mut array, 5, 40), Ok(()));
    same(&rt, put_changed(&mut array, 9000, 2), Ok(()));
    assert_fresh(&rt, &mut array, 6, 100);
    same(&rt, sweep(&mut array), 42);
    same(&rt, sweep(&mut array), 0);
    same(&rt, array.load(9000), Some(2));
    Ok(())
}

// A walk goes over each entry that meets the range once, from the lowest on, across nodes and levels. Then it is over.
#[test]
fn entries_come_in_rising_order(rt: HostRuntime) -> Result<(), Fail> {
    let mut array = XArray::new(rt.alloc());
    three(&rt, &mut array);
    assert_fresh(&rt, &mut array, 4097, 4);
    same(&rt, array.insert_order(1 << 12 << 6, 12, 5), Ok(()));
    assert_fresh(&rt, &mut array, ALL, 6);
    let firsts = [3, 70, 4096, 4097, 1 << 12 << 6, ALL];
    let mut seen = 0usize;
    for found in array.entries(0, ALL) {
        same(&rt, found.first, firsts[seen % 6]);
        same(&rt, array.load(found.first), Some(found.value));
        seen = seen.wrapping_add(1);
    }
    same(&rt, seen, 6);
    let mut inner = array.entries(71, (1 << 12 << 6) + 9);
    same(&rt, inner.next(), one(4096, 3));
    same(&rt, inner.next(), one(4097, 4));
    same(&rt, inner.next(), range(1 << 12 << 6, 12, 5));
    same(&rt, inner.next(), None);
    same(&rt, inner.next(), None);
    same(&rt, array.entries(9, 8).next(), None);
    same(
        &rt,
        array.entries((1 << 12 << 6) + 7, ALL).next(),
        range(1 << 12 << 6, 12, 5),
    );
    Ok(())
}

// A walk over a mark passes over the entries that lack it.
#[test]
fn marked_entries_come_in_rising_order(rt: HostRuntime) -> Result<(), Fail> {
    let mut array = XArray::new(rt.alloc());
    for index in 0..500 {
        assert_fresh(&rt, &mut array, index, index + 1);
    }
    for part in 0..50 {
        assert_marks(&rt, &mut array, part * 10 + 3, Mark::M1);
    }
    let mut count = 0u64;
    for found in array.entries_marked(0, ALL, Mark::M1) {
        same(
            &rt,
            found,
            Found {
                first: count % 50 * 10 + 3,
                order: 0,
                value: count % 50 * 10 + 4,
            },
        );
        count = count.wrapping_add(1);
    }
    same(&rt, count, 50);
    same(&rt, array.entries_marked(0, ALL, Mark::M0).next(), None);
    same(&rt, array.entries_marked(14, 22, Mark::M1).next(), None);
    same(
        &rt,
        array.entries_marked(14, 23, Mark::M1).next(),
        one(23, 24),
    );
    Ok(())
}

fn marks(m0: bool, m1: bool, m2: bool) -> Marks {
    Marks { m0, m1, m2 }
}

fn marked(value: u64, marks: Marks) -> Option<Marked> {
    Some(Marked { value, marks })
}

// All three marks of an entry are read, given and taken by one call.
#[test]
fn marks_go_together(rt: HostRuntime) -> Result<(), Fail> {
    let mut array = XArray::new(rt.alloc());
    three(&rt, &mut array);
    let none = marks(false, false, false);
    let outer = marks(true, false, true);
    same(&rt, array.swap_marks(70, outer), Some(none));
    same(&rt, array.load_with_marks(70), marked(2, outer));
    same(&rt, array.load_with_marks(3), marked(1, none));
    same(&rt, array.load_with_marks(71), None);
    same(&rt, array.swap_mark(70, Mark::M2, false), Some(true));
    same(&rt, array.swap_mark(70, Mark::M2, false), Some(false));
    same(&rt, array.swap_mark(71, Mark::M2, true), None);
    same(&rt, array.swap_marks(71, outer), None);
    same(&rt, array.take(70), marked(2, marks(true, false, false)));
    same(&rt, array.take(70), None);
    check(&rt, !array.marked(Mark::M0));
    Ok(())
}
