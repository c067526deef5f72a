//! Bits of a bitmap.
ghost use Rattle.std.specs.Prelude.{◌≡◌, ◌≢◌, ◌<◌, ◌==◌, MatchOption};
ghost use Rattle.std.specs.Int.{bit_at};
ghost use Rattle.idalloc.specs.Bitmaps.{full};
ghost use Rattle.idalloc.specs.Bits.{AllSetFrom, ChangesBit, IsLowestZero};

/// A bitmap without room.
pub(crate) const FULL: u32 = u32::MAX;

pub(crate) fn has_bit(bits: u32, place: u32) -> bool
    requires { place < 32 }
    ensures { result ≡ (bit_at bits place == 1) }
{
    (bits >> place) & 1 == 1
}

pub(crate) fn with_bit(bits: u32, place: u32) -> u32
    requires { place < 32 }
    ensures { ChangesBit bits result place 1 }
{
    bits | (1 << place)
}

pub(crate) fn without_bit(bits: u32, place: u32) -> u32
    requires { place < 32 }
    ensures { ChangesBit bits result place 0 }
{
    bits & !(1 << place)
}

/// The lowest bit that is not set at or above `from`.
pub(crate) fn lowest_zero_from(bits: u32, from: u32) -> Option<u32>
    requires { from < 32 }
    ensures { MatchOption result (AllSetFrom bits from) (IsLowestZero bits from) }
{
    let zeros = !bits & (u32::MAX << from);
    if zeros == 0 {
        None
    } else {
        Some(zeros.trailing_zeros())
    }
}

/// The lowest bit that is not set.
pub(crate) fn lowest_zero(bits: u32) -> u32
    requires { bits ≢ full }
    ensures { IsLowestZero bits 0 result }
{
    bits.trailing_ones()
}
