//! A file that a service for one thread has cached, and its bytes beside it: what the reads of a shared cache are compared with.

ghost use Rattle.std.specs.Prelude.{◌≡◌, ◌<◌, ◌≤◌, length};
ghost use Rattle.bench_threads.specs.declared.cached.TheConstants.{PAGE};

use crate::numbers::Numbers;
use bench_files::OpenFile;
use blockdev::MemDevice;
use pc_types::{Geometry, Refusal};
use std::alloc::{AllocError, Global};

/// Bytes of the file.
pub const FILE_SIZE: u64 = 67_108_864;

/// Bytes of a page.
pub const PAGE: u64 = 4_096;

/// Pages of the file, all of them cached.
pub const PAGES: u64 = FILE_SIZE / PAGE;

/// A frame and two blocks for each page of the file, and each may be dirty.
pub fn geometry() -> Result<Geometry, Refusal> {
    Geometry::new(PAGE, PAGES + 64, PAGES + 32, 2 * PAGES)
}

/// How many bytes a read reads.
#[derive(Clone, Copy, PartialEq, Eq, Debug)]
pub enum Size {
    Small,
    Page,
}

impl Size {
    /// In bytes.
    pub fn bytes(self) -> usize
        ensures { result ≤ PAGE }
    {
        match self {
            Size::Small => 64,
            Size::Page => PAGE as usize,
        }
    }
}

/// Reads of one size, and where each begins.
#[derive(Clone, Copy)]
pub struct Reads<'a> {
    pub size: Size,
    pub offsets: &'a [u64],
}

impl<'a> Reads<'a> {
    /// The first half of them, and the other.
    pub fn halves(self) -> (Reads<'a>, Reads<'a>) {
        let (front, back) = self.offsets.split_at(self.offsets.len() / 2);
        let size = self.size;
        (
            Reads {
                size,
                offsets: front,
            },
            Reads {
                size,
                offsets: back,
            },
        )
    }
}

/// The bytes of the file, in memory.
#[derive(Drop)]
pub struct Plain {
    bytes: Vec<u8>,
    ghost sized: { length bytes.items ≡ 67108864 },
}

impl Plain {
    pub fn new(alloc: Global) -> Result<Plain, AllocError> {
        let mut bytes = vec![in alloc; 0; FILE_SIZE as usize]?;
        Numbers::new().fill(bytes.as_mut_slice());
        Ok(Plain { bytes })
    }

    /// So many of the bytes from `offset` on, or the last ones if there are fewer behind it.
    #[inline(always)]
    pub fn at(&self, offset: u64, count: usize) -> &[u8]
        requires { count ≤ PAGE }
        ensures { length result.now ≡ count }
    {
        // in the place of a test of the bounds
        let at = offset.min(FILE_SIZE - count as u64) as usize;
        &self.bytes[at..at + count]
    }

    /// Copies out at each of the offsets, and gives the sum of the first bytes and of the counts.
    pub fn copy_each(&self, reads: Reads<'_>) -> u64 {
        match reads.size {
            Size::Small => self.copy_each_to(reads.offsets, &mut [0; 64]),
            Size::Page => self.copy_each_to(reads.offsets, &mut [0; PAGE as usize]),
        }
    }

    #[inline(never)]
    fn copy_each_to(&self, offsets: &[u64], out: &mut [u8]) -> u64
        requires some { 0 < length out.old }
        requires small { length out.old ≤ PAGE }
    {
        let mut sum = 0u64;
        for offset in offsets {
            out.copy_from_slice(self.at(*offset, out.len()));
            sum = sum.wrapping_add(out.len() as u64 + u64::from(out[0]));
        }
        sum
    }
}

/// An open file, all of whose pages are cached.
#[derive(Drop)]
pub struct Cached {
    file: OpenFile<MemDevice>,
}

impl Cached {
    /// The file has the plain bytes.
    pub fn new(alloc: Global, plain: &Plain) -> Result<Cached, Refusal> {
        let geometry = geometry()?;
        let device = MemDevice::new(alloc, geometry.page(), geometry.blocks())?;
        let mut file = OpenFile::new(alloc, &geometry, device)?;
        match write_plain(&mut file, plain) {
            Ok(()) => Ok(Cached { file }),
            Err(refusal) => {
                // by a call, since the check is slow where a service goes out of scope
                drop(file);
                Err(refusal)
            }
        }
    }

    /// Reads at each of the offsets, and gives the sum of the first bytes and of the counts.
    pub fn read_each(&mut self, reads: Reads<'_>) -> Result<u64, Refusal> {
        match reads.size {
            Size::Small => self.read_each_to(reads.offsets, &mut [0; 64]),
            Size::Page => self.read_each_to(reads.offsets, &mut [0; PAGE as usize]),
        }
    }

    #[inline(never)]
    fn read_each_to(&mut self, offsets: &[u64], out: &mut [u8]) -> Result<u64, Refusal>
        requires { 0 < length out.old }
    {
        let mut sum = 0u64;
        for offset in offsets {
            let count = self.file.pread(*offset, out)?;
            sum = sum.wrapping_add(count.wrapping_add(u64::from(out[0])));
        }
        Ok(sum)
    }
}

/// Writes the plain bytes, page by page, and syncs them.
fn write_plain(file: &mut OpenFile<MemDevice>, plain: &Plain) -> Result<(), Refusal> {
    for page in 0..PAGES {
        file.pwrite(page * PAGE, plain.at(page * PAGE, PAGE as usize))?;
    }
    file.fsync()
}
