//! A storage server's log and table: two streams of pages side by side in one file, together longer than the cache, records at the end
//! of another, and a copy of the one into a third. Two thirds of the cache may be dirty, or nearly all of it.

ghost use Rattle.std.specs.Prelude.{◌<◌};

use crate::desk::Desk;
use crate::digest::Digest;
use crate::tools::Tools;
use bench_timing::Fault;
use blockdev::MemDevice;
use pc_types::Geometry;
use pc_types::limits::CLEAN_FRAMES;
use std::alloc::Global;

/// The sizes of a server.
#[derive(Clone, Copy)]
struct Server {
    /// Bytes of a page.
    page: u64,
    /// Frames of the cache.
    frames: u64,
    /// Frames that may be dirty.
    limit: u64,
    /// Pages of each stream.
    stream: u64,
    /// Records of the log.
    records: u64,
}

const SERVERS: [Server; 3] = [
    Server {
        page: 4_096,
        frames: 8_192,
        limit: 8_192 - CLEAN_FRAMES,
        stream: 10_000,
        records: 30_000,
    },
    Server {
        page: 512,
        frames: 32_768,
        limit: 32_768 - CLEAN_FRAMES,
        stream: 20_000,
        records: 30_000,
    },
    Server {
        page: 1_024,
        frames: 12_288,
        limit: 8_192,
        stream: 16_384,
        records: 30_000,
    },
];

/// The files: the table with two streams, the log, and the copy.
const TABLE: usize = 0;

const LOG: usize = 1;

const COPY: usize = 2;

/// Bytes of a record, and how many come between two syncs.
const RECORD: usize = 100;

const EACH: u64 = 20;

pub fn run(alloc: Global, tools: &mut Tools, share: u64) -> Result<Digest, Fault>
    requires { 0 < share }
{
    let mut digest = Digest::new();
    for server in SERVERS {
        digest.join(run_server(alloc, tools, server, share)?);
    }
    Ok(digest)
}

fn run_server(alloc: Global, tools: &mut Tools, server: Server, share: u64) -> Result<Digest, Fault>
    requires { 0 < share }
{
    let frames = (server.frames / share).max(64);
    let limit = (server.limit / share).max(16).min(frames - CLEAN_FRAMES);
    let server = Server {
        stream: server.stream / share,
        records: server.records / share,
        ..server
    };
    let blocks = server
        .stream
        .saturating_mul(4)
        .saturating_add(server.records)
        .max(64);
    let geometry = Geometry::new(server.page, frames, limit, blocks)?;
    let device = MemDevice::new(alloc, geometry.page(), geometry.blocks())?;
    let mut desk = Desk::new(alloc, &geometry, device, 3, 1)?;
    streams(&mut desk, tools, server);
    log(&mut desk, tools, server.records);
    copy(&mut desk, tools, server);
    let digest = desk.digest();
    drop(desk);
    Ok(digest)
}

/// Writes two streams of pages by turns, the one behind the other in the file, and syncs them.
fn streams(desk: &mut Desk<MemDevice>, tools: &mut Tools, server: Server) {
    for page in 0..server.stream {
        for place in [page, page.wrapping_add(server.stream)] {
            let bytes = tools.some(server.page as usize);
            desk.write(TABLE, place.wrapping_mul(server.page), bytes);
        }
    }
    desk.fsync(TABLE);
}

/// Writes records at the end of the log, and syncs it each few of them.
fn log(desk: &mut Desk<MemDevice>, tools: &mut Tools, records: u64) {
    for record in 0..records {
        let offset = record.wrapping_mul(RECORD as u64);
        desk.write(LOG, offset, tools.some(RECORD));
        if record % EACH == 0 {
            desk.fsync(LOG);
        }
    }
}

/// Copies the table page by page, and syncs the copy.
fn copy(desk: &mut Desk<MemDevice>, tools: &mut Tools, server: Server) {
    let count = (server.page as usize).min(tools.room.len());
    for page in 0..server.stream.wrapping_mul(2) {
        let offset = page.wrapping_mul(server.page);
        desk.read(TABLE, offset, count, &mut tools.room);
        desk.write(COPY, offset, &tools.room[..count]);
    }
    desk.fsync(COPY);
}
