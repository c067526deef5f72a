//! A file server: cached reads of 64 bytes to 64 KiB, and a few writes, at random places of 19 files that fit into the cache, by 950
//! handles, and two scans of a file that does not, by calls of 16 pages. No call comes twice.

ghost use Rattle.std.specs.Prelude.{◌<◌};

use crate::desk::{Desk, MOST};
use crate::digest::Digest;
use crate::numbers::Numbers;
use crate::places::Places;
use crate::tools::Tools;
use bench_timing::Fault;
use blockdev::MemDevice;
use pc_types::Geometry;
use std::alloc::Global;

/// Files, handles that each is opened by, and bytes of a page.
const FILES: u64 = 20;

const EACH: u64 = 50;

const PAGE: u64 = 4_096;

/// The handles of all files but the last, and the first of the last.
const HANDLES: u64 = (FILES - 1) * EACH;

const LONG: usize = HANDLES as usize;

/// Cached reads between two parts of a scan, and how many pages such a part reads.
const READS: u64 = 300;

const STEP: u64 = 16;

/// The sizes of a server.
#[derive(Clone, Copy)]
struct Sizes {
    /// Frames of the cache.
    frames: u64,
    /// Pages of each file but the last: all of them fit into the cache.
    pages: u64,
    /// Pages of the last.
    long: u64,
    /// How many parts the scan has.
    parts: u64,
}

impl Sizes {
    fn share(share: u64) -> Sizes
        requires { 0 < share }
    {
        Sizes {
            frames: (16_384 / share).max(1_024),
            pages: (640 / share).max(32),
            long: (40_000 / share).max(2_048),
            parts: 5_000 / share,
        }
    }
}

pub fn run(alloc: Global, tools: &mut Tools, share: u64) -> Result<Digest, Fault>
    requires { 0 < share }
{
    let sizes = Sizes::share(share);
    let blocks = sizes.pages.saturating_mul(FILES).saturating_add(sizes.long);
    let geometry = Geometry::new(PAGE, sizes.frames, sizes.frames / 2, blocks)?;
    let device = MemDevice::new(alloc, geometry.page(), geometry.blocks())?;
    let mut desk = Desk::new(alloc, &geometry, device, FILES, EACH)?;
    for file in 0..FILES - 1 {
        let at = file.wrapping_mul(EACH) as usize;
        fill(&mut desk, tools, at, sizes.pages);
    }
    fill(&mut desk, tools, LONG, sizes.long);
    serve(&mut desk, tools, sizes);
    let digest = desk.digest();
    drop(desk);
    Ok(digest)
}

/// Writes the pages of a file, 16 in a call, and syncs it.
fn fill(desk: &mut Desk<MemDevice>, tools: &mut Tools, at: usize, pages: u64) {
    for part in 0..pages / STEP {
        let bytes = tools.some(MOST);
        desk.write(at, part.wrapping_mul(STEP * PAGE), bytes);
    }
    desk.fsync(at);
}

/// Scans the last file, each time from a page further on, with many calls on the others between two parts.
fn serve(desk: &mut Desk<MemDevice>, tools: &mut Tools, sizes: Sizes) {
    let mut begins = Begins::new(sizes, &mut tools.numbers);
    let scanned = (sizes.long / STEP).max(1);
    for part in 0..sizes.parts {
        call_many(desk, tools, &mut begins);
        let page = (part % scanned)
            .wrapping_mul(STEP)
            .wrapping_add(part / scanned);
        desk.read(LONG, page.wrapping_mul(PAGE), MOST, &mut tools.room);
    }
}

/// Places of the other files, by handle and offset: so many bytes apart, and none twice.
#[derive(Clone, Copy)]
struct Spots {
    places: Places,
    grain: u64,
}

impl Spots {
    /// Those of files with so many bytes.
    fn new(bytes: u64, grain: u64, numbers: &mut Numbers) -> Spots
        requires { 0 < grain }
    {
        let count = (bytes / grain).saturating_mul(HANDLES);
        Spots {
            places: Places::below(count, numbers),
            grain,
        }
    }

    /// The next handle and offset.
    #[inline(always)]
    fn draw(&mut self) -> (usize, u64) {
        let place = self.places.draw();
        let offset = (place / HANDLES).wrapping_mul(self.grain);
        ((place % HANDLES) as usize, offset)
    }
}

/// Where the calls on the other files begin: at a page, at a line of memory, and anywhere.
#[derive(Clone, Copy)]
struct Begins {
    pages: Spots,
    lines: Spots,
    bytes: Spots,
}

impl Begins {
    fn new(sizes: Sizes, numbers: &mut Numbers) -> Begins {
        let bytes = sizes.pages.wrapping_mul(PAGE).saturating_sub(MOST as u64);
        Begins {
            pages: Spots::new(bytes, PAGE, numbers),
            lines: Spots::new(bytes, 64, numbers),
            bytes: Spots::new(bytes, 1, numbers),
        }
    }
}

fn call_many(desk: &mut Desk<MemDevice>, tools: &mut Tools, begins: &mut Begins) {
    for _ in 0..READS {
        call(desk, tools, begins);
    }
}

/// Reads at a random place by a random handle, or now and then writes a few bytes there.
fn call(desk: &mut Desk<MemDevice>, tools: &mut Tools, begins: &mut Begins) {
    let lot = tools.numbers.below(32);
    let (at, offset) = match lot {
        0 | 2..=7 => begins.pages.draw(),
        1 | 8..=15 => begins.bytes.draw(),
        _ => begins.lines.draw(),
    };
    match lot {
        0 => desk.read(at, offset, MOST, &mut tools.room),
        1 => desk.read(at, offset, 16_384, &mut tools.room),
        2..=7 => desk.read(at, offset, PAGE as usize, &mut tools.room),
        8 => desk.write(at, offset, tools.some(64)),
        9..=15 => desk.read(at, offset, 512, &mut tools.room),
        _ => desk.read(at, offset, 64, &mut tools.room),
    }
}
