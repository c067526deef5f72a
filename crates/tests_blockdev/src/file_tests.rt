//! A device over a file: what it takes, what it refuses, what a system call cut short means, and a flush that failed.

ghost use Rattle.std.specs.Prelude.{◌≡◌, ◌<◌, IfOk};

use crate::checks::{check, same};
use blockdev::{BlockDevice, FileDevice, MemFile, SystemFile};
use pc_types::{BlockNo, ErrCode, Refusal};
use std::cell::Cell;
use std::fs::{Metadata, OpenFile, OpenOptions};
use std::os::unix::fs::FileExt;
use std::path::{Path, PathBuf};
use std::process::Abort;
use std::test::*;
use std::{env, fs, io, process};

/// A folder of the test's own.
fn folder(rt: &HostRuntime, name: &str) -> Result<PathBuf, Fail> {
    let mut path = env::temp_dir(rt)?;
    path.push(format!(in rt.alloc(); "blockdev-{}-{name}", process::id(rt.process()))?.as_str())?;
    fs::create_dir(rt, path.as_path())?;
    Ok(path)
}

/// Such a folder, and a file in it with this text.
fn disk(rt: &HostRuntime, name: &str, text: &str) -> Result<(PathBuf, PathBuf), Fail> {
    let folder = folder(rt, name)?;
    let path = folder.join(rt.alloc(), "disk")?;
    fs::write(rt, path.as_path(), text)?;
    Ok((folder, path))
}

fn has_len(rt: &HostRuntime, path: Path, len: u64) -> bool {
    matches!(fs::metadata(rt, path), Ok(metadata) if metadata.len() == len)
}

fn writes_and_reads(rt: &impl Abort, device: &mut FileDevice)
    requires { (device.old.told.size ≡ 16) × (3 < device.old.told.count) }
{
    let mut out = [9; 16];
    let written = device.write(BlockNo(3), b"sixteen bytes...");
    same(rt, written, Ok(()));
    same(rt, device.flush(), Ok(()));
    same(rt, device.read(BlockNo(3), &mut out), Ok(()));
    same(rt, out, *b"sixteen bytes...");
    same(rt, (device.block_size(), device.blocks()), (16, 4));
    same(
        rt,
        (device.calls(), device.flushes(), device.faults()),
        (2, 1, 0),
    );
}

fn by_four_blocks(rt: &impl Abort, host: &HostRuntime, path: Path) -> Result<(), Refusal> {
    let mut device = FileDevice::open(host, host.alloc(), path, 16, 4)?;
    check(rt, has_len(host, path, 64));
    writes_and_reads(rt, &mut device);
    Ok(())
}

fn by_two_blocks(rt: &impl Abort, host: &HostRuntime, path: Path) -> Result<[u8; 16], Refusal> {
    let mut out = [9; 16];
    let mut fewer = FileDevice::open(host, host.alloc(), path, 16, 2)?;
    check(rt, has_len(host, path, 64));
    check(rt, fewer.read(BlockNo(0), &mut out).is_ok());
    Ok(out)
}

// A file that is shorter is made as long as the blocks, one that is longer stays, and the bytes come back, also to the next who opens it.
#[test]
fn a_regular_file_reads_back(rt: HostRuntime) -> Result<(), Fail> {
    let (folder, path) = disk(&rt, "reads_back", "short")?;
    same(&rt, by_four_blocks(&rt, &rt, path.as_path()), Ok(()));
    same(
        &rt,
        by_two_blocks(&rt, &rt, path.as_path()),
        Ok(*b"short\0\0\0\0\0\0\0\0\0\0\0"),
    );
    fs::remove_dir_all(&rt, folder.as_path())?;
    Ok(())
}

/// Whether no device is made at this path.
fn is_refused(rt: &HostRuntime, path: Path, block_size: u64, blocks: u64) -> bool {
    let device = FileDevice::open(rt, rt.alloc(), path, block_size, blocks);
    matches!(device, Err(Refusal::Io(ErrCode::IO)))
}

#[test]
fn what_is_no_device_is_refused(rt: HostRuntime) -> Result<(), Fail> {
    let folder = folder(&rt, "refused")?;
    let path = folder.join(rt.alloc(), "disk")?;
    check(&rt, is_refused(&rt, path.as_path(), 16, 4));
    check(&rt, is_refused(&rt, folder.as_path(), 16, 4));
    fs::write(&rt, path.as_path(), "short")?;
    for (block_size, blocks) in [(0, 4), (16, u64::MAX), (1 << 40, 1 << 23)] {
        check(&rt, is_refused(&rt, path.as_path(), block_size, blocks));
    }
    // Nothing was done to the file.
    check(&rt, has_len(&rt, path.as_path(), 5));
    fs::remove_dir_all(&rt, folder.as_path())?;
    Ok(())
}

/// Makes the file 24 bytes long.
fn cut(rt: &HostRuntime, path: Path) -> io::Result<()> {
    let file = OpenOptions::new().write(true).open(rt, path)?;
    file.set_len(24)
}

fn reads_what_is_left(rt: &impl Abort, device: &mut FileDevice)
    requires { (device.old.told.size ≡ 16) × (3 < device.old.told.count) }
{
    let mut out = [9; 16];
    same(rt, device.read(BlockNo(0), &mut out), Ok(()));
    same(rt, out, [0; 16]);
    out = [9; 16];
    same(rt, device.read(BlockNo(1), &mut out), Err(ErrCode::IO));
    same(rt, out, [9; 16]);
    same(rt, (device.calls(), device.faults()), (2, 1));
}

fn over_a_cut_file(rt: &impl Abort, host: &HostRuntime, path: Path) -> Result<(), Refusal> {
    let mut device = FileDevice::open(host, host.alloc(), path, 16, 4)?;
    check(rt, cut(host, path).is_ok());
    reads_what_is_left(rt, &mut device);
    Ok(())
}

// A file that is cut shorter by another hand: a fault, which is counted, and no bytes.
#[test]
fn a_file_cut_shorter_is_a_fault(rt: HostRuntime) -> Result<(), Fail> {
    let (folder, path) = disk(&rt, "cut", "")?;
    same(&rt, over_a_cut_file(&rt, &rt, path.as_path()), Ok(()));
    fs::remove_dir_all(&rt, folder.as_path())?;
    Ok(())
}

/// A file of zeros whose calls are cut short after three bytes, and whose second sync fails.
#[derive(Drop)]
struct Slow {
    syncs: Cell<u32>,
}

impl Slow {
    fn new() -> Slow {
        Slow {
            syncs: Cell::new(0),
        }
    }
}

impl FileExt for Slow {
    fn read_at(&self, buf: &mut [u8], _offset: u64) -> io::Result<usize> {
        let n = buf.len().min(3);
        buf[..n].fill(0);
        Ok(n)
    }

    fn write_at(&self, buf: &[u8], _offset: u64) -> io::Result<usize> {
        Ok(buf.len().min(3))
    }
}

impl OpenFile for Slow {
    fn metadata(&self) -> io::Result<Metadata> {
        Ok(Metadata::of_file(64))
    }

    fn set_len(&self, _size: u64) -> io::Result<()> {
        Ok(())
    }

    fn sync_all(&self) -> io::Result<()> {
        self.sync_data()
    }

    fn sync_data(&self) -> io::Result<()> {
        let before = self.syncs.get();
        self.syncs.set(before.wrapping_add(1));
        if before == 1 {
            return Err(io::Error::from(io::ErrorKind::StorageFull));
        }
        Ok(())
    }
}

#[test]
fn a_call_that_is_cut_short_is_gone_on_with(rt: HostRuntime) -> Result<(), Fail> {
    let mut device = FileDevice::new(
        SystemFile::new(Slow::new()),
        16,
        4,
        vec![in rt.alloc(); 9; 16]?,
    );
    let mut out = [9; 16];
    check(&rt, device.read(BlockNo(2), &mut out).is_ok());
    same(&rt, out, [0; 16]);
    check(&rt, device.write(BlockNo(2), &out).is_ok());
    Ok(())
}

// Its third sync would succeed, and says nothing of what was written before the second.
#[test]
fn a_flush_that_failed_is_not_forgotten(rt: HostRuntime) -> Result<(), Fail> {
    let mut device = FileDevice::new(
        SystemFile::new(Slow::new()),
        16,
        4,
        vec![in rt.alloc(); 9; 16]?,
    );
    check(&rt, device.flush().is_ok());
    for failed in 1..4 {
        same(&rt, device.flush(), Err(ErrCode::IO));
        same(&rt, (device.calls(), device.faults()), (0, failed));
    }
    check(&rt, device.flushes() == 4);
    Ok(())
}

/// A file whose first read is interrupted, and whose third is refused.
#[derive(Drop)]
struct Shy {
    reads: Cell<u32>,
}

impl FileExt for Shy {
    fn read_at(&self, buf: &mut [u8], _offset: u64) -> io::Result<usize> {
        let before = self.reads.get();
        self.reads.set(before.wrapping_add(1));
        match before {
            0 => Err(io::Error::from(io::ErrorKind::Interrupted)),
            2 => Err(io::Error::from(io::ErrorKind::PermissionDenied)),
            _ => {
                buf.fill(7);
                Ok(buf.len())
            }
        }
    }

    fn write_at(&self, buf: &[u8], _offset: u64) -> io::Result<usize> {
        Ok(buf.len())
    }
}

impl OpenFile for Shy {
    fn metadata(&self) -> io::Result<Metadata> {
        Ok(Metadata::of_file(64))
    }

    fn set_len(&self, _size: u64) -> io::Result<()> {
        Ok(())
    }

    fn sync_all(&self) -> io::Result<()> {
        Ok(())
    }

    fn sync_data(&self) -> io::Result<()> {
        Ok(())
    }
}

// Made again, the read that is refused would go well.
#[test]
fn a_read_that_is_refused_is_made_once(rt: HostRuntime) -> Result<(), Fail> {
    let shy = Shy {
        reads: Cell::new(0),
    };
    let mut device = FileDevice::new(SystemFile::new(shy), 16, 4, vec![in rt.alloc(); 9; 16]?);
    let mut out = [9; 16];
    same(&rt, device.read(BlockNo(2), &mut out), Ok(()));
    same(&rt, out, [7; 16]);
    same(&rt, device.read(BlockNo(2), &mut out), Err(ErrCode::IO));
    same(&rt, (device.calls(), device.faults()), (2, 1));
    Ok(())
}

/// A device over a file in memory, whose first sync fails and whose second would go well.
fn over_memory(rt: &HostRuntime) -> Result<FileDevice<MemFile>, Fail>
    ensures { IfOk result (λ d. (d.told.size ≡ 16) × (d.told.count ≡ 4)) }
{
    let mut file = MemFile::zeros(rt.alloc(), 70)?;
    file.fail_next_sync();
    Ok(FileDevice::new(file, 16, 4, vec![in rt.alloc(); 9; 16]?))
}

/// Reads the block.
fn reads_as(rt: &impl Abort, device: &mut FileDevice<MemFile>, block: u32, wanted: &[u8; 16])
    requires { (device.old.told.size ≡ 16) × (block < device.old.told.count) }
    ensures { (device.new.told.size ≡ 16) × (device.new.told.count ≡ device.old.told.count) }
{
    let mut out = [9; 16];
    same(rt, device.read(BlockNo(block), &mut out), Ok(()));
    check(rt, out == *wanted);
}

#[test]
fn over_a_file_in_memory_one_block_is_written(rt: HostRuntime) -> Result<(), Fail> {
    let mut device = over_memory(&rt)?;
    same(&rt, device.write(BlockNo(2), b"sixteen bytes..."), Ok(()));
    reads_as(&rt, &mut device, 1, &[0; 16]);
    reads_as(&rt, &mut device, 2, b"sixteen bytes...");
    reads_as(&rt, &mut device, 3, &[0; 16]);
    for faults in 1..3 {
        same(&rt, device.flush(), Err(ErrCode::IO));
        same(&rt, device.faults(), faults);
    }
    same(&rt, (device.calls(), device.flushes()), (4, 2));
    Ok(())
}
