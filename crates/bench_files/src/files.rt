//! The rows of the files: reads, writes and syncs of a cached file, each read and write beside a plain copy of as many bytes.

ghost use Rattle.std.specs.Prelude.{◌<◌, ◌≤◌, length};
ghost use Rattle.bench_files.specs.declared.files.TheConstants.{FILE_SIZE, PAGE};

use crate::open_file::OpenFile;
use blockdev::MemDevice;
use pc_types::{Geometry, PageIndex, Refusal};
use std::alloc::{AllocError, Global};
use std::marker::Model;

/// Bytes of the file, and of the plain bytes beside it.
pub const FILE_SIZE: u64 = 67_108_864;

/// Bytes of a page.
pub const PAGE: u64 = 4_096;

/// Pages of the file. Each is cached, and each may be dirty.
pub const PAGES: u64 = FILE_SIZE / PAGE;

/// Bytes of a small read or write.
pub const SMALL: u64 = 64;

/// How many reads or writes are timed.
pub const CALLS: u64 = 100_000;

/// How many pages a timed sync writes.
pub const SYNCED: u64 = 1_000;

/// How many of as many dirty pages a timed sync of a range writes.
pub const SYNCED_OF_RANGE: u64 = 10;

/// The first page of that range, amid the dirty ones.
const RANGE_FIRST: u64 = SYNCED / 2;

/// What each byte of the file is.
pub const FILL: u8 = 7;

/// An open file, all of whose pages are cached, and as many plain bytes.
#[derive(Drop)]
pub struct Cached {
    file: OpenFile<MemDevice>,
    plain: Vec<u8>,
}

impl Model for Cached {
    ghost use Rattle.std.specs.Prelude.{◌≡◌, length};
    ghost use Rattle.bench_files.specs.declared.files.TheConstants.{FILE_SIZE};

    ghost Value = { Unit };

    ghost view = { λ c. tt };

    ghost invariant = { λ c. length c.plain.items ≡ FILE_SIZE };
}

impl Cached {
    pub fn new(alloc: Global) -> Result<Cached, Refusal> {
        let geometry = Geometry::new(PAGE, PAGES + 64, PAGES + 32, 2 * PAGES)?;
        let device = MemDevice::new(alloc, geometry.page(), geometry.blocks())?;
        let plain = vec![in alloc; FILL; FILE_SIZE as usize]?;
        let file = OpenFile::new(alloc, &geometry, device)?;
        Ok(Cached { file, plain })
    }

    /// Makes each page cached.
    pub fn fill(&mut self) -> Result<(), Refusal> {
        for page in 0..PAGES {
            self.write(page * PAGE, &[FILL; PAGE as usize])?;
        }
        self.sync()
    }

    /// Answers how many bytes were read, and the first of them.
    #[inline(always)]
    pub fn read(&mut self, offset: u64, out: &mut [u8]) -> Result<u64, Refusal>
        requires { 0 < length out.old }
    {
        let count = self.file.pread(offset, out)?;
        Ok(count.wrapping_add(u64::from(out[0])))
    }

    #[inline(always)]
    pub fn write(&mut self, offset: u64, bytes: &[u8]) -> Result<u64, Refusal> {
        self.file.pwrite(offset, bytes)
    }

    /// Copies out of the plain bytes, from the last place for so many where `offset` is past it, and answers as `read` does.
    #[inline(always)]
    pub fn copy_out(&self, offset: u64, out: &mut [u8]) -> u64
        requires some { 0 < length out.old }
        requires small { length out.old ≤ PAGE }
    {
        // in the place of a test of the bounds
        let at = offset.min(FILE_SIZE - out.len() as u64) as usize;
        out.copy_from_slice(&self.plain[at..at + out.len()]);
        (out.len() as u64).wrapping_add(u64::from(out[0]))
    }

    /// Copies into the plain bytes, to the last place for so many where `offset` is past it, and answers as `write` does.
    #[inline(always)]
    pub fn copy_in(&mut self, offset: u64, bytes: &[u8]) -> u64
        requires { length bytes.now ≤ PAGE }
    {
        let at = offset.min(FILE_SIZE - bytes.len() as u64) as usize;
        self.plain.as_mut_slice()[at..at + bytes.len()].copy_from_slice(bytes);
        bytes.len() as u64
    }

    /// Makes the file as long as this.
    pub fn truncate(&mut self, size: u64) -> Result<(), Refusal> {
        self.file.truncate(size)
    }

    pub fn sync(&mut self) -> Result<(), Refusal> {
        self.file.fsync()
    }

    fn sync_some(&mut self) -> Result<(), Refusal> {
        let last = RANGE_FIRST + SYNCED_OF_RANGE - 1;
        self.file
            .fsync_range(PageIndex(RANGE_FIRST), PageIndex(last))
    }
}

#[derive(Clone, Copy)]
pub enum FileRow {
    ReadSmall,
    CopySmall,
    ReadPage,
    CopyPage,
    WriteSmall,
    CopyInSmall,
    WritePage,
    CopyInPage,
    Sync,
    SyncRange,
}

impl FileRow {
    pub const ALL: [FileRow; 10] = [
        FileRow::ReadSmall,
        FileRow::CopySmall,
        FileRow::ReadPage,
        FileRow::CopyPage,
        FileRow::WriteSmall,
        FileRow::CopyInSmall,
        FileRow::WritePage,
        FileRow::CopyInPage,
        FileRow::Sync,
        FileRow::SyncRange,
    ];

    pub fn label(self) -> &'static str {
        match self {
            FileRow::ReadSmall => "pread of 64 bytes, cached, random",
            FileRow::CopySmall => "copy of 64 bytes, random",
            FileRow::ReadPage => "pread of 4,096 bytes, cached, random",
            FileRow::CopyPage => "copy of 4,096 bytes, random",
            FileRow::WriteSmall => "pwrite of 64 bytes, cached, random",
            FileRow::CopyInSmall => "copy in of 64 bytes, random",
            FileRow::WritePage => "pwrite of 4,096 bytes, cached, random",
            FileRow::CopyInPage => "copy in of 4,096 bytes, random",
            FileRow::Sync => "fsync of 1,000 dirty pages, per page",
            FileRow::SyncRange => "fsync of a range of 10 of 1,000 dirty pages, per page",
        }
    }

    /// By how many a time is divided: the calls, or the pages that are written.
    pub fn count(self) -> u64
        ensures { 0 < result }
    {
        match self {
            FileRow::Sync => SYNCED,
            FileRow::SyncRange => SYNCED_OF_RANGE,
            _ => CALLS,
        }
    }

    /// Bytes that a call reads or writes. Those of a sync are not looked at.
    fn size(self) -> u64 {
        match self {
            FileRow::ReadSmall | FileRow::CopySmall | FileRow::WriteSmall | FileRow::CopyInSmall =>
                SMALL,
            _ => PAGE,
        }
    }

    /// Where the calls read or write, in their order: at multiples of the size.
    pub fn offsets(self, alloc: Global, order: &[u64]) -> Result<Vec<u64>, AllocError> {
        let mut offsets = Vec::with_capacity(alloc, CALLS as usize)?;
        for index in order.iter().take(CALLS as usize) {
            offsets.push(index.wrapping_mul(self.size()) % FILE_SIZE)?;
        }
        Ok(offsets)
    }

    /// Makes the file what the row starts from.
    pub fn prepare(self, cached: &mut Cached) -> Result<(), Refusal> {
        if let FileRow::Sync | FileRow::SyncRange = self {
            cached.sync()?;
            for page in 0..SYNCED {
                cached.write(page * PAGE, &[FILL; SMALL as usize])?;
            }
        }
        Ok(())
    }

    /// Runs what is timed, and gives the sum of its answers.
    pub fn run(self, cached: &mut Cached, offsets: &[u64]) -> Result<u64, Refusal> {
        Ok(match self {
            FileRow::ReadSmall => read_each(cached, offsets, &mut [0; SMALL as usize])?,
            FileRow::CopySmall => copy_each_out(cached, offsets, &mut [0; SMALL as usize]),
            FileRow::ReadPage => read_each(cached, offsets, &mut [0; PAGE as usize])?,
            FileRow::CopyPage => copy_each_out(cached, offsets, &mut [0; PAGE as usize]),
            FileRow::WriteSmall => write_each(cached, offsets, &[FILL; SMALL as usize])?,
            FileRow::CopyInSmall => copy_each_in(cached, offsets, &[FILL; SMALL as usize]),
            FileRow::WritePage => write_each(cached, offsets, &[FILL; PAGE as usize])?,
            FileRow::CopyInPage => copy_each_in(cached, offsets, &[FILL; PAGE as usize]),
            FileRow::Sync => {
                cached.sync()?;
                SYNCED
            }
            FileRow::SyncRange => {
                cached.sync_some()?;
                SYNCED_OF_RANGE
            }
        })
    }
}

#[inline(never)]
fn read_each(cached: &mut Cached, offsets: &[u64], out: &mut [u8]) -> Result<u64, Refusal>
    requires { 0 < length out.old }
{
    let mut sum = 0u64;
    for offset in offsets {
        sum = sum.wrapping_add(cached.read(*offset, out)?);
    }
    Ok(sum)
}

#[inline(never)]
fn copy_each_out(cached: &Cached, offsets: &[u64], out: &mut [u8]) -> u64
    requires some { 0 < length out.old }
    requires small { length out.old ≤ PAGE }
{
    let mut sum = 0u64;
    for offset in offsets {
        sum = sum.wrapping_add(cached.copy_out(*offset, out));
    }
    sum
}

#[inline(never)]
fn write_each(cached: &mut Cached, offsets: &[u64], bytes: &[u8]) -> Result<u64, Refusal> {
    let mut sum = 0u64;
    for offset in offsets {
        sum = sum.wrapping_add(cached.write(*offset, bytes)?);
    }
    Ok(sum)
}

#[inline(never)]
fn copy_each_in(cached: &mut Cached, offsets: &[u64], bytes: &[u8]) -> u64
    requires { length bytes.now ≤ PAGE }
{
    let mut sum = 0u64;
    for offset in offsets {
        sum = sum.wrapping_add(cached.copy_in(*offset, bytes));
    }
    sum
}
