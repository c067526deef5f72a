//! The entries of an array in rising order.

ghost use Rattle.std.specs.Prelude.{◌≡◌, ◌+◌, if◌then◌else◌};
ghost use Rattle.xarray.specs.MarkedArray.{entry_at};
ghost use Rattle.xarray_trace.specs.Entries.{bits_of, entry_bytes, entry_count, hash_bytes, hash_of};

use xarray::{Found, Marks, XArray};

/// The offset basis of FNV-1a of 64 bits.
const FNV_OFFSET: u64 = 0xcbf2_9ce4_8422_2325;

/// The prime of FNV-1a of 64 bits.
const FNV_PRIME: u64 = 0x0100_0000_01b3;

/// An entry of an array, and its marks as bits: bit m is mark m.
#[derive(Clone, Copy, PartialEq, Eq, Debug)]
pub struct Entry {
    pub found: Found,
    pub marks: u8,
}

/// An entry that a walk found, with its marks.
pub fn marked_entry(array: &XArray, found: Found) -> Entry
    ensures { result ≡ record { found = found; marks = bits_of (entry_at array.now.ranges found.first) } }
{
    Entry {
        found,
        marks: marks_of(array, found.first),
    }
}

/// The marks of the entry at an index, as bits.
fn marks_of(array: &XArray, index: u64) -> u8
    ensures { result ≡ bits_of (entry_at array.now.ranges index) }
{
    match array.load_with_marks(index) {
        Some(entry) => bits_from(entry.marks),
        None => 0,
    }
}

fn bits_from(marks: Marks) -> u8
    ensures { result ≡ (if marks.m0 then 1 else 0) + (if marks.m1 then 2 else 0) + (if marks.m2 then 4 else 0) }
{
    u8::from(marks.m0) + 2 * u8::from(marks.m1) + 4 * u8::from(marks.m2)
}

/// How many entries an array has, where these are fewer than 2^64, and the hash of them.
#[tactic(auto, using(crate::proofs::SumLemmas::sums_none, crate::proofs::SumLemmas::sums_more, crate::proofs::SumLemmas::sums_end))]
pub fn count_and_hash(array: &XArray) -> (u64, u64)
    ensures count { result.0 ≡ entry_count array.now.ranges }
    ensures hash { result.1 ≡ hash_of array.now.ranges }
{
    // The check learns here what shape an array has. This costs nothing.
    let _nodes = array.nodes();
    let mut count = 0u64;
    let mut hash = FNV_OFFSET;
    for found in array.entries(0, u64::MAX) {
        count = count.wrapping_add(1);
        hash = hash_entry(hash, marked_entry(array, found));
    }
    (count, hash)
}

/// The hash after the bytes of an entry too.
fn hash_entry(hash: u64, entry: Entry) -> u64
    ensures { result ≡ hash_bytes hash (entry_bytes entry) }
{
    let hash = hash_slice(hash, &entry.found.first.to_le_bytes());
    let hash = hash_slice(hash, &[(entry.found.order % 256) as u8]);
    let hash = hash_slice(hash, &entry.found.value.to_le_bytes());
    hash_slice(hash, &[entry.marks])
}

fn hash_slice(hash: u64, bytes: &[u8]) -> u64
    ensures { result ≡ hash_bytes hash bytes.now }
{
    bytes.iter().fold(
        hash,
        |hash, byte| (hash ^ u64::from(*byte)).wrapping_mul(FNV_PRIME),
    )
}
