//! A round of a row.

ghost use Rattle.std.specs.Prelude.{◌<◌, ◌≤◌};

use crate::rows::{Size, Who};
use bench_timing::Fault;
use std::alloc::Global;
use std::sync::Wait;
use std::thread::{Threads, map_vec};
use std::time::{Clock, Duration, Instant};

/// Bytes of a page.
pub const PAGE: u64 = 4_096;

/// What has files.
pub trait Store: Sync {
    /// A file, as its thread has it open.
    type File: Send + Drop;

    fn write<R: Wait>(
        &self,
        rt: &R,
        file: &mut Self::File,
        offset: u64,
        bytes: &[u8],
    ) -> Result<(), Fault>;

    /// Answers how many bytes it read.
    fn read<R: Wait>(
        &self,
        rt: &R,
        file: &mut Self::File,
        offset: u64,
        out: &mut [u8],
    ) -> Result<u64, Fault>;
}

/// What is done in a round of a row.
#[derive(Clone, Copy)]
pub struct Round<'a> {
    pub alloc: Global,
    pub who: Who,
    pub size: Size,
    /// Pages of all files, a power of two.
    pub pages: u64,
    /// Random numbers, one for each read of a thread.
    pub numbers: &'a [u64],
    ghost few: { pages ≤ 16384 },
}

/// What came of a round.
#[derive(Clone, Copy)]
pub struct Timed {
    pub time: Duration,
    /// Of the counts and of the first bytes of all reads.
    pub sum: u64,
}

impl<'a> Round<'a> {
    /// Pages of the file of each thread.
    pub fn file_pages(self) -> u64
        ensures { result ≤ 16384 }
    {
        self.pages / self.who.threads()
    }

    /// Writes the files, reads in them once, and times the same reads then. A page that was written stays cached.
    pub fn time<S: Store, R: Threads + Wait + Clock + Sync>(
        self,
        rt: &R,
        store: &S,
        mut files: Vec<S::File>,
    ) -> Result<Timed, Fault> {
        for file in files.iter_mut() {
            self.write_pages(rt, store, file)?;
        }
        let (files, _) = self.read_together(rt, store, files)?;
        let start = Instant::now(rt)?;
        let (files, sum) = self.read_together(rt, store, files)?;
        let time = start.elapsed(rt)?;
        drop(files);
        Ok(Timed { time, sum })
    }

    fn write_pages<S: Store, R: Wait>(
        self,
        rt: &R,
        store: &S,
        file: &mut S::File,
    ) -> Result<(), Fault> {
        for page in 0..self.file_pages() {
            let bytes = [(page % 251) as u8; PAGE as usize];
            store.write(rt, file, page * PAGE, &bytes)?;
        }
        Ok(())
    }

    /// Reads in each file, by a thread a file. Gives the files back, and the sum of all.
    fn read_together<S: Store, R: Threads + Wait + Sync>(
        self,
        rt: &R,
        store: &S,
        files: Vec<S::File>,
    ) -> Result<(Vec<S::File>, u64), Fault> {
        let done = map_vec(
            rt,
            files,
            &|mut file: S::File| {
                let sum = self.read(rt, store, &mut file);
                (file, sum)
            },
        )?;
        let mut files = Vec::new(self.alloc);
        let mut all = 0u64;
        for (file, sum) in done {
            all = all.wrapping_add(sum?);
            if files.push(file).is_err() {
                return Err(Fault::Memory);
            }
        }
        Ok((files, all))
    }

    #[inline(never)]
    fn read<S: Store, R: Wait>(self, rt: &R, store: &S, file: &mut S::File) -> Result<u64, Fault> {
        let mut buffer = [0; PAGE as usize];
        let out = &mut buffer[..self.size.bytes() as usize];
        // under it a number is a multiple of the size, within the file
        let mask = (self.file_pages() * PAGE).saturating_sub(self.size.bytes());
        let mut sum = 0u64;
        for number in self.numbers {
            let count = store.read(rt, file, *number & mask, out)?;
            sum = sum.wrapping_add(count.wrapping_add(u64::from(out[0])));
        }
        Ok(sum)
    }
}
