//! The rows of the paths beside the hit: pages of 4,096 bytes that are made, filled, flushed, cut off and evicted, over a device in
//! memory.

ghost use Rattle.std.specs.Prelude.{◌<◌};

use crate::bare::Bare;
use crate::files::{Cached, FILE_SIZE, FILL, PAGE, PAGES, SMALL};
use crate::larger::{HALF, Larger, TIMES_THE_CACHE};
use pc_types::Refusal;

/// How many of a file's pages are dirty where few are.
pub const FEW: u64 = 10;

/// Each so many pages one of the few is dirty.
const APART: u64 = PAGES / FEW;

/// How many pages a round flushes.
pub const FLUSHED: u64 = 16_384;

/// How many dirty pages an eviction goes past.
pub const BEHIND: u64 = 50_000;

/// How many clean pages are cached then.
const CLEAN: u64 = 10_000;

/// How many of these a round evicts.
pub const EVICTED: u64 = 5_000;

/// A row that is timed over one thing, which is prepared anew for each round.
pub trait Path: Copy {
    /// What the row is timed over.
    type On;

    fn label(self) -> &'static str;

    /// By how many a time is divided.
    fn count(self) -> u64
        ensures { 0 < result };

    /// Makes it what the row starts from.
    fn prepare(self, on: &mut Self::On) -> Result<(), Refusal>;

    /// Runs what is timed, and gives the sum of its answers.
    fn run(self, on: &mut Self::On) -> Result<u64, Refusal>;
}

/// A row over a file whose pages all fit into the cache.
#[derive(Clone, Copy)]
pub enum CachedPath {
    CopyOut,
    CopyIn,
    MakePage,
    Truncate,
    SyncFew,
}

impl CachedPath {
    pub const ALL: [CachedPath; 5] = [
        CachedPath::CopyOut,
        CachedPath::CopyIn,
        CachedPath::MakePage,
        CachedPath::Truncate,
        CachedPath::SyncFew,
    ];
}

impl Path for CachedPath {
    type On = Cached;

    fn label(self) -> &'static str {
        match self {
            CachedPath::CopyOut => "copy of 4,096 bytes, in order",
            CachedPath::CopyIn => "copy in of 4,096 bytes, in order",
            CachedPath::MakePage => "pwrite of 4,096 bytes that makes a new page",
            CachedPath::Truncate => "truncate of 16,384 cached pages, per page",
            CachedPath::SyncFew => "fsync where 10 of 16,384 pages are dirty, per dirty page",
        }
    }

    fn count(self) -> u64 {
        match self {
            CachedPath::SyncFew => FEW,
            _ => PAGES,
        }
    }

    fn prepare(self, cached: &mut Cached) -> Result<(), Refusal> {
        match self {
            CachedPath::CopyOut | CachedPath::CopyIn => Ok(()),
            CachedPath::MakePage => cached.truncate(0),
            CachedPath::Truncate => cached.fill(),
            CachedPath::SyncFew => {
                cached.fill()?;
                dirty_few(cached)
            }
        }
    }

    fn run(self, cached: &mut Cached) -> Result<u64, Refusal> {
        match self {
            CachedPath::CopyOut => Ok(copy_out_in_order(cached, &mut [0; PAGE as usize])),
            CachedPath::CopyIn => Ok(copy_in_in_order(cached, &[FILL; PAGE as usize])),
            CachedPath::MakePage => write_in_order(cached, &[FILL; PAGE as usize]),
            CachedPath::Truncate => {
                cached.truncate(0)?;
                Ok(PAGES)
            }
            CachedPath::SyncFew => {
                cached.sync()?;
                Ok(FEW)
            }
        }
    }
}

/// Makes a few pages dirty, far apart.
fn dirty_few(cached: &mut Cached) -> Result<(), Refusal> {
    for page in 0..FEW {
        cached.write(page * APART * PAGE, &[FILL; SMALL as usize])?;
    }
    Ok(())
}

#[inline(never)]
fn copy_out_in_order(cached: &Cached, out: &mut [u8; PAGE as usize]) -> u64 {
    let mut sum = 0u64;
    for page in 0..PAGES {
        sum = sum.wrapping_add(cached.copy_out(page * PAGE, out));
    }
    sum
}

#[inline(never)]
fn copy_in_in_order(cached: &mut Cached, bytes: &[u8; PAGE as usize]) -> u64 {
    let mut sum = 0u64;
    for page in 0..PAGES {
        sum = sum.wrapping_add(cached.copy_in(page * PAGE, bytes));
    }
    sum
}

#[inline(never)]
fn write_in_order(cached: &mut Cached, bytes: &[u8]) -> Result<u64, Refusal> {
    let mut sum = 0u64;
    for page in 0..PAGES {
        sum = sum.wrapping_add(cached.write(page * PAGE, bytes)?);
    }
    Ok(sum)
}

/// A row over a file that is larger than its cache.
#[derive(Clone, Copy)]
pub enum LargerPath {
    FillPage,
    ReadInOrder,
}

impl LargerPath {
    pub const ALL: [LargerPath; 2] = [LargerPath::FillPage, LargerPath::ReadInOrder];
}

impl Path for LargerPath {
    type On = Larger;

    fn label(self) -> &'static str {
        match self {
            LargerPath::FillPage => {
                "pread of 4,096 bytes that fills an absent page and evicts another"
            }
            LargerPath::ReadInOrder => {
                "sequential read of a file four times the cache, per page"
            }
        }
    }

    fn count(self) -> u64 {
        match self {
            LargerPath::FillPage => HALF,
            LargerPath::ReadInOrder => TIMES_THE_CACHE,
        }
    }

    fn prepare(self, larger: &mut Larger) -> Result<(), Refusal> {
        larger.cache_the_end()
    }

    fn run(self, larger: &mut Larger) -> Result<u64, Refusal> {
        match self {
            LargerPath::FillPage => larger.read_at_random(),
            LargerPath::ReadInOrder => larger.read_in_order(),
        }
    }
}

/// A row over a cache without a service.
#[derive(Clone, Copy)]
pub enum BarePath {
    Flush,
    Evict,
}

impl BarePath {
    pub const ALL: [BarePath; 2] = [BarePath::Flush, BarePath::Evict];
}

impl Path for BarePath {
    type On = Bare;

    fn label(self) -> &'static str {
        match self {
            BarePath::Flush => "flush of a page, begin to end",
            BarePath::Evict => "evict behind 50,000 dirty pages, each",
        }
    }

    fn count(self) -> u64 {
        match self {
            BarePath::Flush => FLUSHED,
            BarePath::Evict => EVICTED,
        }
    }

    fn prepare(self, bare: &mut Bare) -> Result<(), Refusal> {
        match self {
            BarePath::Flush => bare.start(FLUSHED, 0),
            BarePath::Evict => bare.start(BEHIND, CLEAN),
        }
    }

    fn run(self, bare: &mut Bare) -> Result<u64, Refusal> {
        match self {
            BarePath::Flush => bare.flush(FLUSHED),
            BarePath::Evict => Ok(bare.evict(EVICTED)),
        }
    }
}
