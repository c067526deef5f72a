//! A round of syncs writes what it says, to the device and to the plain file.

use crate::checks::{check, same};
use bench_threads::syncs::{BLOCKS, PAGE, PAGES, Synced, device_at};
use bench_timing::Fault;
use blockdev::{BlockDevice, FileDevice, MemDevice};
use pc_types::{BlockNo, ErrCode, Refusal};
use std::sync::atomic::{AtomicU64, Ordering};
use std::test::Fail;
use std::{env, fs, process};

/// How often a device was called.
#[derive(Drop)]
struct Counts {
    writes: AtomicU64,
    flushes: AtomicU64,
}

impl Counts {
    fn seen(&self) -> (u64, u64) {
        (
            self.writes.load(Ordering::SeqCst),
            self.flushes.load(Ordering::SeqCst),
        )
    }
}

/// A device in memory whose writes and flushes are counted outside of it.
#[derive(Drop)]
struct Counted<'a> {
    device: MemDevice,
    counts: &'a Counts,
}

impl<'a> BlockDevice for Counted<'a> {
    ghost told = { λ d. d.device };

    fn block_size(&self) -> u64 {
        self.device.block_size()
    }

    fn blocks(&self) -> u64 {
        self.device.blocks()
    }

    fn faults(&self) -> u64 {
        self.device.faults()
    }

    fn calls(&self) -> u64 {
        self.device.calls()
    }

    fn flushes(&self) -> u64 {
        self.device.flushes()
    }

    fn read(&mut self, block: BlockNo, out: &mut [u8]) -> Result<(), ErrCode> {
        self.device.read(block, out)
    }

    fn write(&mut self, block: BlockNo, bytes: &[u8]) -> Result<(), ErrCode> {
        self.counts.writes.fetch_add(1, Ordering::SeqCst);
        self.device.write(block, bytes)
    }

    fn flush(&mut self) -> Result<(), ErrCode> {
        self.counts.flushes.fetch_add(1, Ordering::SeqCst);
        self.device.flush()
    }
}

/// The path of a file that a test makes.
fn path_of(rt: &HostRuntime, name: &str) -> Result<String, Fail> {
    let mut path = env::temp_dir(rt)?;
    let id = process::id(rt.process());
    path.push(format!(in rt.alloc(); "bench_threads-{name}-{id}")?.as_str())?;
    Ok(path.to_string_lossy().to_owned(rt.alloc())?)
}

/// The counts after the writes and after the sync of each of two rounds.
fn counts_of(rt: &HostRuntime, path: &str, counts: &Counts) -> Result<[(u64, u64); 4], Fault> {
    let device = Counted {
        device: MemDevice::new(rt.alloc(), PAGE, BLOCKS)?,
        counts,
    };
    let mut synced = Synced::new(rt, rt.alloc(), device, path)?;
    let seen = counts_in(&mut synced, counts);
    // by a call, since the check is slow where a service goes out of scope
    drop(synced);
    Ok(seen?)
}

fn counts_in(
    synced: &mut Synced<Counted<'_>>,
    counts: &Counts,
) -> Result<[(u64, u64); 4], Refusal> {
    synced.prepare()?;
    let written = counts.seen();
    synced.sync()?;
    let once = counts.seen();
    synced.prepare()?;
    let written_again = counts.seen();
    synced.sync()?;
    Ok([written, once, written_again, counts.seen()])
}

// An fsync writes each page once and flushes once. The writes before it write none.
#[test]
fn each_page_is_written_by_the_fsync(rt: HostRuntime) -> Result<(), Fail> {
    let path = path_of(&rt, "counted")?;
    let counts = Counts {
        writes: AtomicU64::new(0),
        flushes: AtomicU64::new(0),
    };
    let seen = counts_of(&rt, path.as_str(), &counts)?;
    same(&rt, seen, [(0, 0), (PAGES, 1), (PAGES, 1), (2 * PAGES, 2)]);
    fs::remove_file(&rt, path.as_str())?;
    Ok(())
}

/// Whether both files have the pages of the second of two rounds, which are others than those of the first.
fn has_written_both(rt: &HostRuntime, path: &str, plain: &str) -> Result<bool, Fault> {
    let device = device_at(rt, rt.alloc(), path)?;
    let mut synced = Synced::new(rt, rt.alloc(), device, plain)?;
    let has_written = has_written_in(rt, &mut synced, path, plain);
    drop(synced);
    has_written
}

fn has_written_in(
    rt: &HostRuntime,
    synced: &mut Synced<FileDevice>,
    path: &str,
    plain: &str,
) -> Result<bool, Fault> {
    synced.prepare()?;
    let first = synced.pages().to_vec(rt.alloc())?;
    synced.prepare()?;
    synced.sync()?;
    synced.write_plain()?;
    let on_device = fs::read(rt, path)?;
    let in_plain = fs::read(rt, plain)?;
    let pages = synced.pages();
    let is_new = first.as_slice() != pages;
    Ok(is_new && in_plain.as_slice() == pages && on_device.as_slice().starts_with(pages))
}

#[test]
fn both_files_have_the_pages(rt: HostRuntime) -> Result<(), Fail> {
    let path = path_of(&rt, "synced")?;
    let plain = path_of(&rt, "plain")?;
    check(&rt, has_written_both(&rt, path.as_str(), plain.as_str())?);
    fs::remove_file(&rt, path.as_str())?;
    fs::remove_file(&rt, plain.as_str())?;
    Ok(())
}
