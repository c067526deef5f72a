//! Parts of a file one after the other, and what the file's owner knows once they are gone.

ghost use Rattle.std.specs.Prelude.{◌≡◌, ◌<◌, ◌≤◌, ◌+◌, ◌^◌, true, false, IfSome, length};
ghost use Rattle.blockdev.specs.Files.{bytes_at, put_at};
ghost use Rattle.filepart.specs.Parts.{Outside, part_of};

use blockdev::RawFile;
use filepart::FilePart;

/// Reads bytes of a part.
pub fn take<F: RawFile>(file: F, first: u64, len: u64, offset: u64, out: &mut [u8]) -> (bool, F)
    requires counted { first + len < 2 ^ 63 }
    requires long { IfSome (F.bytes file) (λ all. first + len ≤ length all) }
    ensures read { result.0 ≡ true → IfSome (part_of first len (F.bytes file)) (λ all. out.new ≡ bytes_at all offset (length out.old)) }
    ensures past { len < offset + length out.old → result.0 ≡ false }
    ensures same { result.1 ≡ file }
{
    let part = FilePart::new(file, first, len);
    let done = part.read_at(out, offset);
    (done, part.into_file())
}

/// Writes bytes into a part.
pub fn put<F: RawFile>(file: F, first: u64, len: u64, offset: u64, these: &[u8]) -> (bool, F)
    requires counted { first + len < 2 ^ 63 }
    requires long { IfSome (F.bytes file) (λ all. first + len ≤ length all) }
    ensures written { result.0 ≡ true → part_of first len (F.bytes result.1) ≡ put_at (part_of first len (F.bytes file)) offset these.now }
    ensures outside { Outside first len (F.bytes file) (F.synced file) (F.bytes result.1) (F.synced result.1) }
    ensures past { len < offset + length these.now → (result.0 ≡ false) × (result.1 ≡ file) }
{
    let mut part = FilePart::new(file, first, len);
    let done = part.write_at(these, offset);
    (done, part.into_file())
}

/// Two writes and a sync of one part: what is outside is as it was.
#[tactic(auto, using(filepart::proofs::TwoParts::outside_then))]
pub fn put_two<F: RawFile>(part: &mut FilePart<F>, these: &[u8], offset: u64, other: u64) -> bool
    ensures outside { Outside part.old.first part.old.len (F.bytes part.old.file) (F.synced part.old.file) (F.bytes part.new.file) (F.synced part.new.file) }
{
    part.write_at(these, offset) && part.write_at(these, other) && part.sync()
}
