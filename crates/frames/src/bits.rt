//! One bit of a word.

ghost use Rattle.std.specs.Prelude.{◌≡◌, ◌==◌, ◌<◌, ◌↔◌, IsTrue, if◌then◌else◌};
ghost use Rattle.std.specs.Int.{bit_at};
ghost use Rattle.frames.specs.Bits.{ChangesBit, IsLowest};

/// Sets the bit or clears it, and answers whether the word has any bit now.
pub(crate) fn put_bit(word: &mut u64, place: usize, is_set: bool) -> bool
    requires { place < 64 }
    ensures bit { ChangesBit word.old word.new place (if is_set then 1 else 0) }
    ensures any { IsTrue result ↔ (0 < word.new) }
{
    *word = if is_set {
        with_bit(*word, place)
    } else {
        without_bit(*word, place)
    };
    *word != 0
}

/// Whether the word has the bit.
#[inline(always)]
pub(crate) fn has_bit(word: u64, place: usize) -> bool
    requires { place < 64 }
    ensures { result ≡ (bit_at word place == 1) }
{
    (word >> place) & 1 == 1
}

fn with_bit(word: u64, place: usize) -> u64
    requires { place < 64 }
    ensures { ChangesBit word result place 1 }
{
    word | (1 << place)
}

fn without_bit(word: u64, place: usize) -> u64
    requires { place < 64 }
    ensures { ChangesBit word result place 0 }
{
    word & !(1 << place)
}

/// The place of the lowest bit that is set.
pub(crate) fn lowest_bit(word: u64) -> usize
    requires { 0 < word }
    ensures { IsLowest word result }
{
    word.trailing_zeros() as usize
}
