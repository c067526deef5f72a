//! The lowest unused number.
ghost use Rattle.std.specs.Prelude.{◌≡◌, ◌≢◌, ◌+◌, ◌*◌, ◌/◌, ◌^◌, ◌<◌, ◌≤◌, Some, None, MatchOption, is_some};
ghost use Rattle.std.specs.FinMap as map;
ghost use Rattle.idalloc.specs.Bitmaps.{IsTidy, has_number, numbers};
ghost use Rattle.idalloc.specs.Ids.{AllUsed, IsCyclic, IsLowestUnused};
ghost use Rattle.idalloc.specs.Search.{IsFirstClear, NoneClear};

use crate::bitmaps::Bitmaps;
use crate::bits::{FULL, has_bit, lowest_zero, lowest_zero_from};

/// Numbers a bitmap (decision 35).
pub(crate) const NUMBERS: u64 = 32;

/// An unused number, and the bitmap that it stands in, if there is one.
#[derive(Clone, Copy)]
pub(crate) struct Unused {
    pub(crate) number: u64,
    pub(crate) bitmap: Option<u32>,
}

impl Unused {
    fn at(index: u64, place: u32, bits: u32) -> Unused
        requires index { index < 2 ^ 59 }
        requires place { place < 32 }
        ensures number { result.number ≡ 32 * index + place }
        ensures bitmap { result.bitmap ≡ Some bits }
    {
        Unused {
            number: NUMBERS * index + place as u64,
            bitmap: Some(bits),
        }
    }
}

/// Whether a number is used.
pub(crate) fn is_set(bitmaps: &Bitmaps, number: u64) -> bool
    ensures { result ≡ has_number bitmaps.now number }
{
    match bitmaps.get(number / NUMBERS) {
        Some(bits) => has_bit(bits, (number % NUMBERS) as u32),
        None => false,
    }
}

/// The lowest unused number from `min` to `max`.
pub(crate) fn lowest_unused(bitmaps: &Bitmaps, min: u64, max: u64) -> Option<Unused>
    requires { IsTidy bitmaps.now None }
    ensures { MatchOption result (AllUsed (numbers bitmaps.now) min max) (λ unused. IsLowestUnused (numbers bitmaps.now) min max unused.number × (unused.bitmap ≡ map.get bitmaps.now (unused.number / 32))) }
{
    if min > max {
        return None;
    }
    let unused = lowest_from(bitmaps, min, max / NUMBERS)?;
    if unused.number > max {
        return None;
    }
    Some(unused)
}

/// The lowest unused number from the greater of `next` and `min` up to `max`; where there is none, from `min` on, and that
/// is told.
pub(crate) fn next_unused(
    bitmaps: &Bitmaps,
    next: u64,
    min: u64,
    max: u64,
) -> Option<(Unused, bool)>
    requires { IsTidy bitmaps.now None }
    ensures { MatchOption result (AllUsed (numbers bitmaps.now) min max) (λ r. IsCyclic (numbers bitmaps.now) next min max (r.0.number, r.1) × (r.0.bitmap ≡ map.get bitmaps.now (r.0.number / 32))) }
{
    if let Some(unused) = lowest_unused(bitmaps, next.max(min), max) {
        return Some((unused, false));
    }
    let unused = lowest_unused(bitmaps, min, max)?;
    Some((unused, true))
}

/// The lowest unused number from `min` on, up to those of the bitmap at index `last`.
fn lowest_from(bitmaps: &Bitmaps, min: u64, last: u64) -> Option<Unused>
    requires tidy { IsTidy bitmaps.now None }
    requires order { min / 32 ≤ last }
    requires last { last < 2 ^ 59 }
    ensures { MatchOption result (NoneClear bitmaps.now min last) (λ unused. IsFirstClear bitmaps.now min unused.number × (unused.bitmap ≡ map.get bitmaps.now (unused.number / 32))) }
{
    let index = min / NUMBERS;
    let Some(bits) = bitmaps.get(index) else {
        return Some(Unused {
            number: min,
            bitmap: None,
        });
    };
    if let Some(place) = lowest_zero_from(bits, (min % NUMBERS) as u32) {
        return Some(Unused::at(index, place, bits));
    }
    if index == last {
        return None;
    }
    lowest_after(bitmaps, index, bits, last)
}

/// The lowest unused number after those of a bitmap, up to those of the bitmap at index `last`.
fn lowest_after(bitmaps: &Bitmaps, index: u64, bits: u32, last: u64) -> Option<Unused>
    requires tidy { IsTidy bitmaps.now None }
    requires there { map.get bitmaps.now index ≡ Some bits }
    requires order { index < last }
    requires last { last < 2 ^ 59 }
    ensures { MatchOption result (NoneClear bitmaps.now (32 * (index + 1)) last) (λ unused. IsFirstClear bitmaps.now (32 * (index + 1)) unused.number × (unused.bitmap ≡ map.get bitmaps.now (unused.number / 32))) }
{
    let next = index + 1;
    if !is_followed(bitmaps, index, bits) {
        return Some(Unused {
            number: NUMBERS * next,
            bitmap: None,
        });
    }
    let (at, bits) = bitmaps.lowest_open(next, last)?;
    Some(Unused::at(at, lowest_zero(bits), bits))
}

/// Whether a bitmap stands behind the one at an index. Behind a full one it does, so a look there is saved.
fn is_followed(bitmaps: &Bitmaps, index: u64, bits: u32) -> bool
    requires tidy { IsTidy bitmaps.now None }
    requires there { map.get bitmaps.now index ≡ Some bits }
    requires index { index + 1 < 2 ^ 59 }
    ensures { result ≡ is_some (map.get bitmaps.now (index + 1)) }
{
    bits == FULL || bitmaps.get(index + 1).is_some()
}
