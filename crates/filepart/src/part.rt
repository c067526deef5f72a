//! The part.

ghost use Rattle.std.proofs.Props.{props};
ghost use Rattle.std.specs.Prelude.{◌≡◌, ◌<◌, ◌≤◌, ◌+◌, ◌^◌, ◌⊎◌, ◌↔◌, IsTrue, true, false, IfSome, length};
ghost use Rattle.blockdev.specs.Files.{bytes_at, put_at};
ghost use Rattle.filepart.specs.Parts.{Outside, part_of};

use blockdev::{RawFile, SystemFile};

/// `len` bytes of a file, from byte `first` on. It knows what its own calls wrote: of two parts of a file of the system that are open at
/// the same time, the one does not tell what the other wrote.
#[derive(Drop)]
pub struct FilePart<F: RawFile = SystemFile> {
    file: F,
    first: u64,
    len: u64,
    ghost counted: { first + len < 2 ^ 63 },
    ghost long: { IfSome (F.bytes file) (λ all. first + len ≤ length all) } by { Prim.hlevel props },
}

impl<F: RawFile> FilePart<F> {
    /// The part of a file that is long enough.
    pub fn new(file: F, first: u64, len: u64) -> FilePart<F>
        requires counted { first + len < 2 ^ 63 }
        requires long { IfSome (F.bytes file) (λ all. first + len ≤ length all) }
        ensures file { result.file ≡ file }
        ensures place { (result.first ≡ first) × (result.len ≡ len) }
    {
        FilePart { file, first, len }
    }

    /// The file behind.
    pub fn into_file(self) -> F
        ensures { result ≡ self.file }
    {
        self.file
    }

    /// Whether the part has so many bytes from the offset on.
    fn has(&self, offset: u64, count: usize) -> bool
        ensures { IsTrue result ↔ offset + count ≤ self.now.len }
    {
        offset <= self.len && count as u64 <= self.len - offset
    }
}

impl<F: RawFile> RawFile for FilePart<F> {
    ghost bytes = { λ p. part_of p.first p.len (F.bytes p.file) };

    ghost synced = { λ p. part_of p.first p.len (F.synced p.file) };

    /// A read that reaches past the part is refused.
    fn read_at(&self, out: &mut [u8], offset: u64) -> bool
        ensures read { result ≡ true → IfSome (part_of self.now.first self.now.len (F.bytes self.now.file)) (λ all. out.new ≡ bytes_at all offset (length out.old)) }
        ensures past { self.now.len < offset + length out.old → result ≡ false }
    {
        self.has(offset, out.len()) && self.file.read_at(out, self.first + offset)
    }

    /// A write that reaches past the part is refused, and the file behind is not called.
    fn write_at(&mut self, these: &[u8], offset: u64) -> bool
        ensures written { result ≡ true → part_of self.new.first self.new.len (F.bytes self.new.file) ≡ put_at (part_of self.old.first self.old.len (F.bytes self.old.file)) offset these.now }
        ensures whole { result ≡ false → (part_of self.new.first self.new.len (F.bytes self.new.file) ≡ part_of self.old.first self.old.len (F.bytes self.old.file)) ⊎ (part_of self.new.first self.new.len (F.bytes self.new.file) ≡ put_at (part_of self.old.first self.old.len (F.bytes self.old.file)) offset these.now) }
        ensures synced { (part_of self.new.first self.new.len (F.synced self.new.file) ≡ part_of self.old.first self.old.len (F.synced self.old.file)) ⊎ (part_of self.new.first self.new.len (F.synced self.new.file) ≡ part_of self.new.first self.new.len (F.bytes self.new.file)) }
        ensures outside { Outside self.old.first self.old.len (F.bytes self.old.file) (F.synced self.old.file) (F.bytes self.new.file) (F.synced self.new.file) }
        ensures past { self.old.len < offset + length these.now → (result ≡ false) × (self.new.file ≡ self.old.file) }
        ensures place { (self.new.first ≡ self.old.first) × (self.new.len ≡ self.old.len) }
    {
        self.has(offset, these.len()) && self.file.write_at(these, self.first + offset)
    }

    /// Makes all of the file behind durable, and not its part alone.
    fn sync(&mut self) -> bool
        ensures bytes { part_of self.new.first self.new.len (F.bytes self.new.file) ≡ part_of self.old.first self.old.len (F.bytes self.old.file) }
        ensures well { result ≡ true → part_of self.new.first self.new.len (F.synced self.new.file) ≡ part_of self.old.first self.old.len (F.bytes self.old.file) }
        ensures failed { result ≡ false → (part_of self.new.first self.new.len (F.synced self.new.file) ≡ part_of self.old.first self.old.len (F.synced self.old.file)) ⊎ (part_of self.new.first self.new.len (F.synced self.new.file) ≡ part_of self.new.first self.new.len (F.bytes self.new.file)) }
        ensures outside { Outside self.old.first self.old.len (F.bytes self.old.file) (F.synced self.old.file) (F.bytes self.new.file) (F.synced self.new.file) }
        ensures place { (self.new.first ≡ self.old.first) × (self.new.len ≡ self.old.len) }
    {
        self.file.sync()
    }
}
