//! The file that a device over a file stands on.

ghost use Rattle.std.specs.Prelude.{◌≡◌, ◌≤◌, ◌+◌, ◌⊎◌, Option, List, ℕ, true, false, None, IfSome, length};
ghost use Rattle.blockdev.specs.Files.{bytes_at, put_at};

use std::fs::{File, OpenFile};
use std::io;
use std::os::unix::fs::FileExt;

/// A file of bytes, read and written from an offset on. It may tell its bytes, and those that would be left if the power went.
///
/// A call that the system cuts short is gone on with in here. Of a file that tells its bytes it is a premise that a write that
/// fails took effect whole or not at all, and that the file becomes durable whole or not at all: `BlockDevice` asks it block by
/// block.
pub trait RawFile: Drop {
    ghost bytes: { Self → Option (List ℕ) };

    ghost synced: { Self → Option (List ℕ) };

    /// Fills `out` with the bytes from the offset on, and answers whether it could. Where it could not, `out` may hold anything.
    fn read_at(&self, out: &mut [u8], offset: u64) -> bool
        ensures { result ≡ true → IfSome (bytes self.now) (λ all. out.new ≡ bytes_at all offset (length out.old)) };

    /// Puts the bytes in place of those from the offset on, and answers whether it could.
    fn write_at(&mut self, these: &[u8], offset: u64) -> bool
        requires within { IfSome (bytes self.old) (λ all. offset + length these.now ≤ length all) }
        ensures written { result ≡ true → bytes self.new ≡ put_at (bytes self.old) offset these.now }
        ensures whole { result ≡ false → (bytes self.new ≡ bytes self.old) ⊎ (bytes self.new ≡ put_at (bytes self.old) offset these.now) }
        ensures synced { (synced self.new ≡ synced self.old) ⊎ (synced self.new ≡ bytes self.new) };

    /// Makes what was written durable, and answers whether it could.
    fn sync(&mut self) -> bool
        ensures bytes { bytes self.new ≡ bytes self.old }
        ensures well { result ≡ true → synced self.new ≡ bytes self.old }
        ensures failed { result ≡ false → (synced self.new ≡ synced self.old) ⊎ (synced self.new ≡ bytes self.old) };
}

/// A file of the system. Which bytes a system call moves is told by no clause, so it tells none.
#[derive(Drop)]
pub struct SystemFile<F: FileExt + OpenFile + Drop = File> {
    file: F,
}

impl<F: FileExt + OpenFile + Drop> SystemFile<F> {
    pub fn new(file: F) -> SystemFile<F>
        ensures { result.file ≡ file }
    {
        SystemFile { file }
    }
}

impl<F: FileExt + OpenFile + Drop> RawFile for SystemFile<F> {
    ghost bytes = { λ _. None };

    ghost synced = { λ _. None };

    #[inline(always)]
    fn read_at(&self, out: &mut [u8], offset: u64) -> bool {
        read_whole(&self.file, out, offset)
    }

    fn write_at(&mut self, these: &[u8], offset: u64) -> bool {
        self.file.write_all_at(these, offset).is_ok()
    }

    fn sync(&mut self) -> bool {
        self.file.sync_data().is_ok()
    }
}

/// Fills the bytes from an offset of the file on, and answers whether it could. The system gives all of a block at once, unless
/// it was interrupted, or gives a part. A read that it refuses is not made again.
#[inline(always)]
fn read_whole<F: FileExt>(file: &F, bytes: &mut [u8], offset: u64) -> bool {
    match file.read_at(bytes, offset) {
        Ok(count) if count == bytes.len() => true,
        Err(error) if error.kind() != io::ErrorKind::Interrupted => false,
        _ => read_in_parts(file, bytes, offset),
    }
}

/// The same by as many reads as it takes.
#[inline(never)]
fn read_in_parts<F: FileExt>(file: &F, bytes: &mut [u8], offset: u64) -> bool {
    file.read_exact_at(bytes, offset).is_ok()
}
