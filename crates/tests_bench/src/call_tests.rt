//! The rows of the array, of the identifiers and of the error word.

use crate::checks::same;
use bench_calls::form::{Form, Inlined, Outlined, Timed};
use bench_calls::ids::{HOLES, IdRow};
use bench_calls::order::{ENTRIES, random_order};
use bench_calls::row::Row;
use bench_calls::words::{LOOKS, WordRow};
use bench_timing::hundredths_each;
use std::alloc::Global;
use std::process::Abort;
use std::test::Fail;

/// The sum of a row's answers.
fn sum_of<F: Form, R: Timed>(alloc: Global, row: R, order: &[u64]) -> Option<u64> {
    let mut on = row.start(alloc, order)?;
    row.run::<F>(&mut on, order)
}

fn check_row<R: Timed>(rt: &impl Abort, alloc: Global, row: R, order: &[u64], expected: u64) {
    let (label, expected) = (row.label(), Some(expected));
    same(rt, label, sum_of::<Inlined, R>(alloc, row, order), expected);
    same(
        rt,
        label,
        sum_of::<Outlined, R>(alloc, row, order),
        expected,
    );
}

/// What the calls of a row of the array answer: entry i has the value i + 1, and each hundredth is marked where 1% is.
fn expected_of(row: Row) -> u64 {
    match row {
        Row::StoreNew | Row::SetMarkFirst | Row::SetMarkAgain | Row::GetMark => ENTRIES,
        Row::StoreOver
        | Row::LoadSequential
        | Row::LoadRandom
        | Row::FindNext
        | Row::Walk
        | Row::EraseRandom
        | Row::EraseSequential => ENTRIES * (ENTRIES + 1) / 2,
        Row::FindMarked | Row::WalkMarked => 4_999_510_000,
        Row::Retag => 10_000,
        Row::ClearMark => 0,
        Row::InsertOrder => 100_000,
        Row::Split => 2_000,
    }
}

#[test]
fn rows_do_their_work(rt: HostRuntime) -> Result<(), Fail> {
    let order = random_order(rt.alloc())?;
    for row in Row::ALL {
        check_row(&rt, rt.alloc(), row, order.as_slice(), expected_of(row));
    }
    Ok(())
}

/// The sum of the first holes.
fn holes(order: &[u64]) -> u64 {
    let mut sum = 0u64;
    for id in order.iter().take(HOLES as usize) {
        sum = sum.wrapping_add(*id);
    }
    sum
}

/// Each identifier below `ENTRIES` is given once, and each hole again.
#[test]
fn id_rows_do_their_work(rt: HostRuntime) -> Result<(), Fail> {
    let order = random_order(rt.alloc())?;
    let order = order.as_slice();
    for row in IdRow::ALL {
        let expected = match row {
            IdRow::Alloc | IdRow::AllocCyclic => ENTRIES * (ENTRIES - 1) / 2,
            IdRow::Free => ENTRIES,
            IdRow::AllocHoles => holes(order),
        };
        check_row(&rt, rt.alloc(), row, order, expected);
    }
    Ok(())
}

/// A look at a word that is its sample answers nothing, and one after a recording the code, 5.
#[test]
fn word_rows_do_their_work(rt: HostRuntime) {
    check_row(&rt, rt.alloc(), WordRow::CheckNothing, &[], LOOKS);
    check_row(&rt, rt.alloc(), WordRow::SetAndAdvance, &[], 5 * LOOKS);
}

/// The random order has each index once.
#[test]
fn order_is_a_permutation(rt: HostRuntime) -> Result<(), Fail> {
    let mut order = random_order(rt.alloc())?;
    let indexes: Vec<u64> = (0..ENTRIES).collect(rt.alloc())?;
    let is_shuffled = order.as_slice() != indexes.as_slice();
    same(&rt, "shuffled", is_shuffled, true);
    order.sort_unstable();
    let has_each = order.as_slice() == indexes.as_slice();
    same(&rt, "sorted", has_each, true);
    Ok(())
}

#[test]
fn times_are_rounded_down(rt: HostRuntime) {
    same(
        &rt,
        "each of a million",
        hundredths_each(16_659_999, 1_000_000),
        1_665,
    );
    same(&rt, "none", hundredths_each(0, 1), 0);
}
