//! The rows of syncs: the fsync of a service over a device, and the same pages written to a plain file and synced.

ghost use Rattle.std.specs.Prelude.{◌≡◌, ◌<◌, ◌≤◌, length};

use crate::numbers::Numbers;
use bench_files::OpenFile;
use bench_timing::{Best, Fault};
use blockdev::{BlockDevice, FileDevice};
use pc_types::{Geometry, Refusal};
use std::alloc::Global;
use std::fs;
use std::fs::{File, Files, OpenOptions};
use std::os::unix::fs::FileExt;
use std::time::{Clock, Instant};

/// How many pages a round writes.
pub const PAGES: u64 = 1_000;

/// Bytes of a page, and of a block.
pub const PAGE: u64 = 4_096;

/// How many blocks the device has.
pub const BLOCKS: u64 = 4_096;

/// How many rounds a row has: more than others, since the disk has other work too.
const ROUNDS: usize = 100;

/// The best times of the two rows.
#[derive(Clone, Copy)]
pub struct SyncTimes {
    /// Of the fsyncs alone.
    pub synced: Best,
    /// Of the plain writes and the sync after them.
    pub plain: Best,
}

/// An open file of a service, a plain file, and the pages that are written to both.
#[derive(Drop)]
pub struct Synced<D: BlockDevice> {
    file: OpenFile<D>,
    plain: File,
    pages: Vec<u8>,
    numbers: Numbers,
    ghost sized: { length pages.items ≡ 4096000 },
}

impl<D: BlockDevice> Synced<D> {
    /// The plain file is made anew at the path, and wholly written.
    pub fn new<R: Files<File = File>>(
        rt: &R,
        alloc: Global,
        device: D,
        path: &str,
    ) -> Result<Synced<D>, Fault> {
        let geometry = Geometry::new(PAGE, 4_096, 2_048, BLOCKS)?;
        let pages = vec![in alloc; 0; (PAGES * PAGE) as usize]?;
        let plain = make_file(rt, path, PAGES)?;
        let file = OpenFile::new(alloc, &geometry, device)?;
        Ok(Synced {
            file,
            plain,
            pages,
            numbers: Numbers::new(),
        })
    }

    /// Makes other pages, no two of them equal, and writes them by the service.
    pub fn prepare(&mut self) -> Result<(), Refusal> {
        self.numbers.fill(self.pages.as_mut_slice());
        for page in 0..PAGES {
            self.file.pwrite(page * PAGE, page_of(&self.pages, page))?;
        }
        Ok(())
    }

    /// Syncs what was prepared.
    #[inline(never)]
    pub fn sync(&mut self) -> Result<(), Refusal> {
        self.file.fsync()
    }

    /// Writes what was prepared to the plain file, and syncs that.
    #[inline(never)]
    pub fn write_plain(&mut self) -> Result<(), Fault> {
        for page in 0..PAGES {
            self.plain
                .write_all_at(page_of(&self.pages, page), page * PAGE)?;
        }
        self.plain.sync_data()?;
        Ok(())
    }

    /// The pages, one after another.
    pub fn pages(&self) -> &[u8] {
        &self.pages
    }
}

/// The bytes of a page.
fn page_of(pages: &[u8], page: u64) -> &[u8]
    requires pages { length pages.now ≡ 4096000 }
    requires page { page < 1000 }
    ensures { length result.now ≡ 4096 }
{
    let at = (page * PAGE) as usize;
    &pages[at..at + PAGE as usize]
}

/// A device over a file that is made anew at the path, and wholly written.
pub fn device_at<R: Files<File = File>>(
    rt: &R,
    alloc: Global,
    path: &str,
) -> Result<FileDevice, Fault> {
    make_file(rt, path, BLOCKS)?;
    Ok(FileDevice::open(rt, alloc, path, PAGE, BLOCKS)?)
}

/// Makes a file of so many pages anew, each of them written.
fn make_file<R: Files<File = File>>(rt: &R, path: &str, pages: u64) -> Result<File, Fault>
    requires { pages ≤ 4096 }
{
    fs::write(rt, path, "")?;
    let mut file = OpenOptions::new().read(true).write(true).open(rt, path)?;
    let bytes = [7; PAGE as usize];
    for page in 0..pages {
        file.write_all_at(&bytes, page * PAGE)?;
    }
    file.sync_data()?;
    Ok(file)
}

/// Times both rows, over a file that is made at the path, and a plain one beside it.
pub fn time_syncs<R: Files<File = File> + Clock>(
    rt: &R,
    alloc: Global,
    path: &str,
) -> Result<SyncTimes, Fault> {
    let plain = format!(in alloc; "{path}.plain")?;
    let device = device_at(rt, alloc, path)?;
    let mut synced = Synced::new(rt, alloc, device, plain.as_str())?;
    let times = time_rounds(rt, &mut synced);
    // by a call, since the check is slow where a service goes out of scope
    drop(synced);
    times
}

/// Times a sync and the plain writes in turn.
fn time_rounds<D: BlockDevice>(
    clock: &impl Clock,
    synced: &mut Synced<D>,
) -> Result<SyncTimes, Fault> {
    let mut times = SyncTimes {
        synced: Best::NONE,
        plain: Best::NONE,
    };
    for _ in 0..ROUNDS {
        synced.prepare()?;
        let start = Instant::now(clock)?;
        synced.sync()?;
        times.synced.add(start.elapsed(clock)?, PAGES);
        let start = Instant::now(clock)?;
        synced.write_plain()?;
        times.plain.add(start.elapsed(clock)?, PAGES);
    }
    Ok(times)
}
