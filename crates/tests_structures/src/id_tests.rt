//! Worked rows and limits.
use crate::checks::{check, same};
use idalloc::IdAlloc;
use pc_types::Refusal;

#[test]
fn numbers_come_lowest_first(rt: HostRuntime) {
    let mut ids = IdAlloc::new(rt.alloc());
    for want in 1..4u64 {
        same(&rt, ids.alloc(1, 3), Ok(want));
    }
    // No number from 1 to 3 is left.
    same(&rt, ids.alloc(1, 3), Err(Refusal::NoId));
    same(&rt, ids.free(2), Ok(()));
    same(&rt, ids.alloc(1, 3), Ok(2));
}

#[test]
fn a_cyclic_number_is_the_next_and_then_begins_again(rt: HostRuntime) {
    let mut ids = IdAlloc::new(rt.alloc());
    for want in 1..4u64 {
        same(&rt, ids.alloc_cyclic(1, 3), Ok((want, false)));
    }
    same(&rt, ids.free(1), Ok(()));
    same(&rt, ids.alloc_cyclic(1, 3), Ok((1, true)));
    same(&rt, ids.alloc_cyclic(1, 3), Err(Refusal::NoId));
}

#[test]
fn a_used_number_is_told_and_given_back_once(rt: HostRuntime) {
    let mut ids = IdAlloc::new(rt.alloc());
    same(&rt, ids.alloc(7, 9), Ok(7));
    check(&rt, ids.is_used(7));
    check(&rt, !ids.is_used(8));
    same(&rt, ids.free(8), Err(Refusal::NoEntry));
    same(&rt, ids.free(7), Ok(()));
    check(&rt, !ids.is_used(7));
    same(&rt, ids.free(7), Err(Refusal::NoEntry));
}

#[test]
fn no_number_is_below_a_minimum_that_is_above_the_maximum(rt: HostRuntime) {
    let mut ids = IdAlloc::new(rt.alloc());
    same(&rt, ids.alloc(4, 3), Err(Refusal::NoId));
    same(&rt, ids.alloc_cyclic(u64::MAX, 0), Err(Refusal::NoId));
}

#[test]
fn the_last_number_is_given_and_the_next_wraps(rt: HostRuntime) {
    let mut ids = IdAlloc::new(rt.alloc());
    // The last 32 numbers fill the last bitmap, behind which no other can stand.
    for n in 0..32u64 {
        same(
            &rt,
            ids.alloc_cyclic(u64::MAX - 31, u64::MAX),
            Ok((18_446_744_073_709_551_584 + n, false)),
        );
    }
    check(&rt, ids.is_used(u64::MAX));
    same(&rt, ids.alloc(u64::MAX - 31, u64::MAX), Err(Refusal::NoId));
    // After the last number the next is 0.
    same(&rt, ids.alloc_cyclic(0, u64::MAX), Ok((0, false)));
    same(&rt, ids.free(u64::MAX), Ok(()));
    same(&rt, ids.alloc(u64::MAX, u64::MAX), Ok(u64::MAX));
}

#[test]
fn holes_are_found_lowest_first_and_no_node_is_left(rt: HostRuntime) {
    let mut ids = IdAlloc::new(rt.alloc());
    same(&rt, ids.nodes(), 0);
    for want in 0..200u64 {
        same(&rt, ids.alloc(0, 199), Ok(want));
    }
    // Holes in the middle of full bitmaps, at the ends of bitmaps, and a whole bitmap.
    for n in [199u64, 31, 32, 100, 63, 64] {
        same(&rt, ids.free(n), Ok(()));
    }
    for want in [31u64, 32, 63, 64, 100, 199] {
        same(&rt, ids.alloc(0, 199), Ok(want));
    }
    for n in 0..200u64 {
        same(&rt, ids.free(199 - n), Ok(()));
    }
    same(&rt, ids.nodes(), 0);
    same(&rt, ids.alloc(0, 0), Ok(0));
}
