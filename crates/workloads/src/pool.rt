//! A database's buffer pool: random reads and overwrites of the pages of a table that is four times its cache, most of them in a
//! hot fifth, which are rarely synced. A hot page is read again and again, as whole as before: that is what a pool is for.

ghost use Rattle.std.specs.Prelude.{◌<◌};

use crate::desk::Desk;
use crate::digest::Digest;
use crate::tools::Tools;
use bench_timing::Fault;
use blockdev::MemDevice;
use pc_types::Geometry;
use pc_types::limits::CLEAN_FRAMES;
use std::alloc::Global;

/// A table and its pool.
#[derive(Clone, Copy)]
struct Pool {
    /// Bytes of a page of the cache.
    page: u64,
    /// How many of them are a page of the database.
    parts: u64,
    /// Frames of the cache.
    frames: u64,
    /// How many calls are made.
    calls: u64,
}

/// Pages of 4,096 bytes, of 512 bytes, and of 16 KiB in four.
const POOLS: [Pool; 3] = [
    Pool {
        page: 4_096,
        parts: 1,
        frames: 8_192,
        calls: 120_000,
    },
    Pool {
        page: 512,
        parts: 1,
        frames: 24_576,
        calls: 60_000,
    },
    Pool {
        page: 4_096,
        parts: 4,
        frames: 4_096,
        calls: 60_000,
    },
];

/// The table's handle.
const TABLE: usize = 0;

pub fn run(alloc: Global, tools: &mut Tools, share: u64) -> Result<Digest, Fault>
    requires { 0 < share }
{
    let mut digest = Digest::new();
    for pool in POOLS {
        digest.join(run_pool(alloc, tools, pool, share)?);
    }
    Ok(digest)
}

fn run_pool(alloc: Global, tools: &mut Tools, pool: Pool, share: u64) -> Result<Digest, Fault>
    requires { 0 < share }
{
    let frames = (pool.frames / share).max(64);
    let blocks = frames.saturating_mul(4);
    let geometry = Geometry::new(pool.page, frames, frames - CLEAN_FRAMES, blocks)?;
    let device = MemDevice::new(alloc, geometry.page(), geometry.blocks())?;
    let mut desk = Desk::new(alloc, &geometry, device, 1, 1)?;
    let pages = (blocks / pool.parts.max(1)).max(1);
    fill(&mut desk, tools, pool, pages);
    use_table(&mut desk, tools, pool, pages, pool.calls / share);
    let digest = desk.digest();
    drop(desk);
    Ok(digest)
}

/// Writes each page of the table, and syncs it.
fn fill(desk: &mut Desk<MemDevice>, tools: &mut Tools, pool: Pool, pages: u64) {
    let size = pool.page.wrapping_mul(pool.parts);
    for page in 0..pages {
        let bytes = tools.some(size as usize);
        desk.write(TABLE, page.wrapping_mul(size), bytes);
    }
    desk.fsync(TABLE);
}

/// Reads and overwrites pages, two of each three calls a read.
fn use_table(desk: &mut Desk<MemDevice>, tools: &mut Tools, pool: Pool, pages: u64, calls: u64)
    requires { 0 < pages }
{
    let size = pool.page.wrapping_mul(pool.parts);
    for _ in 0..calls {
        let offset = tools.numbers.skewed(pages).wrapping_mul(size);
        if tools.numbers.below(3) < 2 {
            desk.read(TABLE, offset, size as usize, &mut tools.room);
        } else {
            desk.write(TABLE, offset, tools.some(size as usize));
        }
    }
    desk.fsync(TABLE);
}
