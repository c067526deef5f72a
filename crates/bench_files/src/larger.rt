//! A file that is larger than the cache it is read through.

use crate::files::{FILL, PAGE, PAGES};
use crate::open_file::OpenFile;
use blockdev::MemDevice;
use pc_types::limits::CLEAN_FRAMES;
use pc_types::{Geometry, Refusal};
use std::alloc::{AllocError, Global};

/// Frames of the cache.
const FRAMES: u64 = PAGES;

/// Pages of the file: four times as many.
pub const TIMES_THE_CACHE: u64 = 4 * FRAMES;

/// Pages of the first half of the file.
pub const HALF: u64 = TIMES_THE_CACHE / 2;

/// An open file, four times its cache, and where the pages of its first half begin, in a random order.
///
/// No read finds its page in the cache, and each evicts the page that was read longest ago: between two reads of a page more pages
/// are read than the cache holds.
#[derive(Drop)]
pub struct Larger {
    file: OpenFile<MemDevice>,
    offsets: Vec<u64>,
}

impl Larger {
    pub fn new(alloc: Global, order: &[u64]) -> Result<Larger, Refusal> {
        let geometry = Geometry::new(PAGE, FRAMES, FRAMES - CLEAN_FRAMES, TIMES_THE_CACHE)?;
        let offsets = offsets_below(alloc, order, HALF)?;
        let device = MemDevice::new(alloc, geometry.page(), geometry.blocks())?;
        let file = OpenFile::new(alloc, &geometry, device)?;
        Ok(Larger { file, offsets })
    }

    /// Writes each page, and has the device make them durable. The last quarter of the file is cached then.
    pub fn fill(&mut self) -> Result<(), Refusal> {
        for page in 0..TIMES_THE_CACHE {
            self.file.pwrite(page * PAGE, &[FILL; PAGE as usize])?;
        }
        self.file.fsync()
    }

    /// Reads the second half of the file, so that its last quarter is cached.
    pub fn cache_the_end(&mut self) -> Result<(), Refusal> {
        read_pages(&mut self.file, HALF)?;
        Ok(())
    }

    /// Reads the pages of the first half in their random order, and gives the sum of what `read` answers.
    pub fn read_at_random(&mut self) -> Result<u64, Refusal> {
        read_each(&mut self.file, self.offsets.as_slice())
    }

    /// Reads the file from its beginning to its end, page by page, and gives the sum of what `read` answers.
    pub fn read_in_order(&mut self) -> Result<u64, Refusal> {
        read_pages(&mut self.file, 0)
    }
}

/// Reads the pages that begin at these offsets.
#[inline(never)]
fn read_each(file: &mut OpenFile<MemDevice>, offsets: &[u64]) -> Result<u64, Refusal> {
    let mut out = [0; PAGE as usize];
    let mut sum = 0u64;
    for offset in offsets {
        sum = sum.wrapping_add(read(file, *offset, &mut out)?);
    }
    Ok(sum)
}

/// Reads the pages from this one to the last, in their order.
#[inline(never)]
fn read_pages(file: &mut OpenFile<MemDevice>, first: u64) -> Result<u64, Refusal> {
    let mut out = [0; PAGE as usize];
    let mut sum = 0u64;
    for page in first..TIMES_THE_CACHE {
        sum = sum.wrapping_add(read(file, page * PAGE, &mut out)?);
    }
    Ok(sum)
}

/// Answers how many bytes were read, the first of them, and how many attempts that took: two where the page was absent.
#[inline(always)]
fn read(
    file: &mut OpenFile<MemDevice>,
    offset: u64,
    out: &mut [u8; PAGE as usize],
) -> Result<u64, Refusal> {
    let count = file.pread(offset, out)?;
    let first = u64::from(out[0]);
    Ok(count.wrapping_add(first).wrapping_add(file.attempts()))
}

/// Where the pages of an order begin that are below a number, in this order.
fn offsets_below(alloc: Global, order: &[u64], end: u64) -> Result<Vec<u64>, AllocError> {
    let mut offsets = Vec::new(alloc);
    for page in order {
        if *page < end {
            offsets.push(page.wrapping_mul(PAGE))?;
        }
    }
    Ok(offsets)
}
