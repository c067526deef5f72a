//! Temporary and sparse files, the awkward input: small pages, files that are written, read and cut again, pages far apart, one dirty
//! file among many that are clean, and a device whose calls fail now and then.

ghost use Rattle.std.specs.Prelude.{◌<◌};

use crate::desk::Desk;
use crate::digest::Digest;
use crate::numbers::Numbers;
use crate::places::Places;
use crate::tools::Tools;
use bench_timing::Fault;
use blockdev::MemDevice;
use faulty::FaultyDevice;
use pc_types::Geometry;
use pc_types::limits::CLEAN_FRAMES;
use std::alloc::Global;

/// Files, and bytes of a page.
const FILES: u64 = 64;

const PAGE: u64 = 64;

/// Frames of the cache.
const FRAMES: u64 = 16_384;

/// Blocks of the device.
const BLOCKS: u64 = 1 << 20;

/// Each so many device calls one fails, and in a share of the job as much oftener, so that some do.
const FAILS: u64 = 997;

/// The last file has so many heaps of pages, each so many pages behind the one before, and so many pages a heap.
const HEAPS: u64 = 1 << 12;

const APART: u64 = 1 << 18;

const HEAP: u64 = 8;

/// At so many of the first bytes of a page a call may begin: 40 bytes from each of them on lie within the page, and 100 reach the next.
const BEGINS: u64 = 25;

/// Below this it is written and read anywhere.
const FAR: u64 = 1 << 30;

/// How many rounds there are, and how many pages a temporary file has, 8 of them in a call.
const ROUNDS: u64 = 40;

const PAGES: u64 = 9_000;

const STEP: u64 = 8;

/// How many calls a sparse file gets in a round.
const SPARSE: u64 = 4_000;

type Far = Desk<FaultyDevice<MemDevice>>;

pub fn run(alloc: Global, tools: &mut Tools, share: u64) -> Result<Digest, Fault>
    requires { 0 < share }
{
    let frames = (FRAMES / share).max(1_024);
    let geometry = Geometry::new(PAGE, frames, frames - CLEAN_FRAMES, BLOCKS / share.min(16))?;
    let device = MemDevice::new(alloc, geometry.page(), geometry.blocks())?;
    let device = FaultyDevice::new(device, (FAILS / share).max(7));
    let mut desk = Desk::new(alloc, &geometry, device, FILES, 1)?;
    let mut begins = Begins::new(&mut tools.numbers);
    for round in 0..ROUNDS / share.min(ROUNDS) {
        temporary(&mut desk, tools, round, PAGES / share);
        sparse(&mut desk, tools, &mut begins, SPARSE / share);
    }
    let digest = desk.digest();
    drop(desk);
    Ok(digest)
}

/// Writes a file, reads it in calls of 8 pages, and cuts it: each second one to nothing. Of these half are synced, and of the others.
fn temporary(desk: &mut Far, tools: &mut Tools, round: u64, pages: u64) {
    let at = (round % FILES) as usize;
    write_pages(desk, tools, at, pages);
    if round % 4 < 2 {
        desk.fsync(at);
    }
    read_pages(desk, tools, at, pages);
    let kept = if at % 2 == 0 {
        0
    } else {
        tools.numbers.below(pages.wrapping_mul(PAGE).max(1))
    };
    desk.truncate(at, kept);
}

fn write_pages(desk: &mut Far, tools: &mut Tools, at: usize, pages: u64) {
    for page in 0..pages {
        let bytes = tools.some(PAGE as usize);
        desk.write(at, page.wrapping_mul(PAGE), bytes);
    }
}

fn read_pages(desk: &mut Far, tools: &mut Tools, at: usize, pages: u64) {
    for part in 0..pages / STEP {
        desk.read(
            at,
            part.wrapping_mul(STEP * PAGE),
            (STEP * PAGE) as usize,
            &mut tools.room,
        );
    }
}

/// Where the calls on the last file begin: in pages far apart, and anywhere.
#[derive(Clone, Copy)]
struct Begins {
    apart: Places,
    any: Places,
}

impl Begins {
    fn new(numbers: &mut Numbers) -> Begins {
        Begins {
            apart: Places::below(HEAPS * HEAP * BEGINS, numbers),
            any: Places::below(FAR, numbers),
        }
    }

    /// An offset in a page of a heap.
    fn apart(&mut self) -> u64 {
        let place = self.apart.draw();
        let page = place / BEGINS % HEAP;
        (place / (HEAP * BEGINS))
            .wrapping_mul(APART)
            .wrapping_add(page)
            .wrapping_mul(PAGE)
            .wrapping_add(place % BEGINS)
    }
}

/// Writes and reads the last file: few bytes of pages far apart, and some anywhere.
fn sparse(desk: &mut Far, tools: &mut Tools, begins: &mut Begins, calls: u64) {
    let at = FILES as usize - 1;
    for call in 0..calls {
        match call % 4 {
            0 => desk.write(at, begins.apart(), tools.some(40)),
            1 => desk.read(at, begins.apart(), 100, &mut tools.room),
            2 => desk.write(at, begins.any.draw(), tools.some(100)),
            _ => desk.read(at, begins.any.draw(), 64, &mut tools.room),
        }
    }
    desk.fsync(at);
}
