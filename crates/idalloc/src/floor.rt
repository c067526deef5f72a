//! The floor: every number below it is used, so a search need not look there.
ghost use Rattle.std.specs.Prelude.{◌≡◌, ℕ, ◌/◌, None, MatchOption};
ghost use Rattle.std.specs.FinMap as map;
ghost use Rattle.std.specs.FinSet as set;
ghost use Rattle.std.specs.Ordering.{nat_cmp};
ghost use Rattle.idalloc.specs.Bitmaps.{IsTidy, numbers};
ghost use Rattle.idalloc.specs.Floor.{IsFloor};
ghost use Rattle.idalloc.specs.Ids.{AllUsed, IsLowestUnused};

use crate::bitmaps::Bitmaps;
use crate::search::{Unused, lowest_unused};

/// The lowest unused number from `min` to `max`.
pub(crate) fn lowest_above(bitmaps: &Bitmaps, floor: u64, min: u64, max: u64) -> Option<Unused>
    requires tidy { IsTidy bitmaps.now None }
    requires floor { IsFloor (numbers bitmaps.now) floor }
    ensures { MatchOption result (AllUsed (numbers bitmaps.now) min max) (λ unused. IsLowestUnused (numbers bitmaps.now) min max unused.number × (unused.bitmap ≡ map.get bitmaps.now (unused.number / 32))) }
{
    lowest_unused(bitmaps, min.max(floor), max)
}

/// The floor after the lowest unused number from `min` on is used.
pub(crate) fn raised(floor: u64, min: u64, number: u64) -> u64
    ensures { (used : set.FinSet nat_cmp) (max : ℕ) → IsFloor used floor → IsLowestUnused used min max number → IsFloor (set.insert used number) result }
{
    if min <= floor {
        number.saturating_add(1)
    } else {
        floor
    }
}

/// The floor after a number is given back.
pub(crate) fn lowered(floor: u64, number: u64) -> u64
    ensures { (used : set.FinSet nat_cmp) → IsFloor used floor → IsFloor (set.remove used number) result }
{
    floor.min(number)
}
