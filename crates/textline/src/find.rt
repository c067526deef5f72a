//! Where a byte stands.

ghost use Rattle.std.specs.Prelude.{◌≡◌, ◌==◌, ◌≢◌, MatchOption, None, position};
ghost use Rattle.std.specs.List.{after_first, before_first};

/// The index of the first such byte.
pub fn find_byte(bytes: &[u8], byte: u8) -> Option<usize>
    ensures { result ≡ position (λ b. b == byte) bytes.now }
{
    bytes.iter().position(|b| *b == byte)
}

/// What stands before the first such byte, and what stands after it.
pub fn split_at_byte(bytes: &[u8], byte: u8) -> Option<(&[u8], &[u8])>
    ensures { MatchOption result (position (λ b. b == byte) bytes.now ≡ None) (λ parts. (position (λ b. b == byte) bytes.now ≢ None) × (parts.0.now ≡ before_first (λ b. b == byte) bytes.now) × (parts.1.now ≡ after_first (λ b. b == byte) bytes.now)) }
{
    let at = find_byte(bytes, byte)?;
    Some((&bytes[..at], &bytes[at + 1..]))
}
