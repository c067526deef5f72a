//! What the clock runs over. Each loop gives the sum of what its calls answered, so that none of them can be left out, and none
//! where memory was refused.

use crate::form::{Call, Form};
use crate::order::ENTRIES;

/// How many ranges a row puts.
pub const RANGES: u64 = ENTRIES / 10;

/// How many of them a row splits: it makes about as many nodes as `ENTRIES` entries side by side have.
pub const PARTED: u64 = RANGES / 50;

/// The order of each of them.
pub const RANGE_ORDER: u32 = 9;

/// Every so many indexes one is marked, where a row asks for 1%.
pub const SPARSE: u64 = 100;

/// The call at each index below a count.
#[inline(never)]
pub fn each<F: Form, C: Call>(on: &mut C::On, count: u64) -> Option<u64> {
    let mut sum = 0u64;
    for index in 0..count {
        sum = sum.wrapping_add(F::call::<C>(on, index)?);
    }
    Some(sum)
}

/// The call at each index of an order.
#[inline(never)]
pub fn each_of<F: Form, C: Call>(on: &mut C::On, order: &[u64]) -> Option<u64> {
    let mut sum = 0u64;
    for index in order {
        sum = sum.wrapping_add(F::call::<C>(on, *index)?);
    }
    Some(sum)
}

/// The call at what it answered the last time, until it answers nothing. Entry i has the value i + 1, so a search that answers
/// the value of what it found goes on past it.
#[inline(never)]
pub fn each_from<F: Form, C: Call>(on: &mut C::On) -> Option<u64> {
    let mut sum = 0u64;
    let mut from = 0u64;
    for _ in 0..ENTRIES {
        let Some(next) = F::call::<C>(on, from) else {
            break;
        };
        sum = sum.wrapping_add(next);
        from = next;
    }
    Some(sum)
}

/// The call on each of several, several times.
#[inline(never)]
pub fn each_on<F: Form, C: Call>(several: &mut [C::On], passes: usize) -> Option<u64> {
    let mut sum = 0u64;
    for _ in 0..passes {
        for on in several.iter_mut() {
            sum = sum.wrapping_add(F::call::<C>(on, 0)?);
        }
    }
    Some(sum)
}
