//! A place in a file.

ghost use Rattle.std.specs.Prelude.{◌≡◌, ◌+ℤ◌, pos};
ghost use Rattle.cursor.specs.Places.{placed, target};

use pc_types::Refusal;
use pc_types::limits::MAX_FILE_SIZE;

/// A place in a file, counted from its beginning, from the cursor or from the end of the file.
#[derive(Clone, Copy, Debug)]
pub enum Seek {
    Set(u64),
    Cur(i64),
    End(i64),
}

impl Seek {
    /// The offset of the place, with this cursor in a file of this size. Refused by `TooLarge` below 0 and past the greatest size
    /// of a file.
    pub fn offset(self, cursor: u64, size: u64) -> Result<u64, Refusal>
        ensures { result ≡ placed (target self cursor size) }
    {
        match self {
            Seek::Set(at) => within(at),
            Seek::Cur(by) => moved(cursor, by),
            Seek::End(by) => moved(size, by),
        }
    }
}

/// A place that a cursor may have.
fn within(at: u64) -> Result<u64, Refusal>
    ensures { result ≡ placed (pos at) }
{
    if at > MAX_FILE_SIZE {
        return Err(Refusal::TooLarge);
    }
    Ok(at)
}

/// The place that is so far after this one, or before it.
fn moved(from: u64, by: i64) -> Result<u64, Refusal>
    ensures { result ≡ placed (pos from +ℤ by) }
{
    let far = by.unsigned_abs();
    if by >= 0 {
        return within(from.saturating_add(far));
    }
    if far > from {
        return Err(Refusal::TooLarge);
    }
    within(from - far)
}
