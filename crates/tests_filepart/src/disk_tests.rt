//! Parts of a file of the system: two at once, and what is refused.

ghost use Rattle.std.specs.Prelude.{◌≡◌, ◌<◌, IfOk};

use crate::checks::{check, same};
use blockdev::{BlockDevice, FileDevice, RawFile};
use filepart::{FilePart, open_part};
use pc_types::{BlockNo, ErrCode, Refusal};
use std::path::{Path, PathBuf};
use std::process::Abort;
use std::test::*;
use std::{env, fs, process};

/// A folder of the test's own, and a file in it with this text.
fn disk(rt: &HostRuntime, name: &str, text: &str) -> Result<(PathBuf, PathBuf), Fail> {
    let mut folder = env::temp_dir(rt)?;
    folder.push(format!(in rt.alloc(); "filepart-{}-{name}", process::id(rt.process()))?.as_str())?;
    fs::create_dir(rt, folder.as_path())?;
    let path = folder.join(rt.alloc(), "disk")?;
    fs::write(rt, path.as_path(), text)?;
    Ok((folder, path))
}

fn has(rt: &HostRuntime, path: Path, wanted: &str) -> bool {
    matches!(fs::read(rt, path), Ok(bytes) if bytes.as_slice() == wanted.as_bytes())
}

/// A device of blocks of four bytes.
fn part(
    rt: &HostRuntime,
    path: Path,
    first: u64,
    count: u64,
) -> Result<FileDevice<FilePart>, Refusal>
    ensures { IfOk result (λ d. (d.told.size ≡ 4) × (d.told.count ≡ count)) }
{
    open_part(rt, rt.alloc(), path, 4, first, count)
}

/// Reads the block.
fn reads_as(rt: &impl Abort, device: &mut FileDevice<FilePart>, block: u32, wanted: &[u8; 4])
    requires { (device.old.told.size ≡ 4) × (block < device.old.told.count) }
    ensures { (device.new.told.size ≡ 4) × (device.new.told.count ≡ device.old.told.count) }
{
    let mut out = [9; 4];
    same(rt, device.read(BlockNo(block), &mut out), Ok(()));
    check(rt, out == *wanted);
}

/// Two devices that are open at the same time: blocks 1 and 2 of the file, and block 3.
fn side_by_side(rt: &impl Abort, host: &HostRuntime, path: Path) -> Result<(), Refusal> {
    let mut low = part(host, path, 1, 2)?;
    let mut high = part(host, path, 3, 1)?;
    reads_as(rt, &mut low, 0, b"one.");
    same(rt, low.write(BlockNo(1), b"low."), Ok(()));
    reads_as(rt, &mut high, 0, b"thr.");
    same(rt, high.write(BlockNo(0), b"high"), Ok(()));
    reads_as(rt, &mut low, 1, b"low.");
    same(rt, (low.flush(), high.flush()), (Ok(()), Ok(())));
    same(rt, (low.blocks(), high.blocks()), (2, 1));
    same(rt, (low.calls(), high.calls()), (3, 2));
    Ok(())
}

#[test]
fn two_parts_stand_side_by_side(rt: HostRuntime) -> Result<(), Fail> {
    let (folder, path) = disk(&rt, "side_by_side", "zeroone.two.thr.more")?;
    same(&rt, side_by_side(&rt, &rt, path.as_path()), Ok(()));
    check(&rt, has(&rt, path.as_path(), "zeroone.low.highmore"));
    fs::remove_dir_all(&rt, folder.as_path())?;
    Ok(())
}

/// Blocks 1 and 2 of the file, as bytes: calls that reach into block 3.
fn past_the_part(rt: &impl Abort, host: &HostRuntime, path: Path) -> Result<(), Refusal> {
    let mut part = FilePart::open(host, path, 4, 1, 2)?;
    let mut out = [9; 4];
    check(rt, part.read_at(&mut out, 4) && out == *b"two.");
    check(rt, !part.read_at(&mut out, 5));
    check(rt, part.write_at(b"low.", 4) && !part.write_at(b"high", 5));
    check(rt, part.sync());
    Ok(())
}

#[test]
fn what_reaches_past_an_opened_part_is_refused(rt: HostRuntime) -> Result<(), Fail> {
    let (folder, path) = disk(&rt, "past", "zeroone.two.thr.")?;
    same(&rt, past_the_part(&rt, &rt, path.as_path()), Ok(()));
    check(&rt, has(&rt, path.as_path(), "zeroone.low.thr."));
    fs::remove_dir_all(&rt, folder.as_path())?;
    Ok(())
}

/// Whether no device is made of these blocks.
fn is_refused(rt: &HostRuntime, path: Path, block_size: u64, first: u64, count: u64) -> bool {
    let device = open_part(rt, rt.alloc(), path, block_size, first, count);
    matches!(device, Err(Refusal::Io(ErrCode::IO)))
}

// The file has three whole blocks of four bytes, and three bytes of another.
#[test]
fn blocks_that_the_file_has_not_are_refused(rt: HostRuntime) -> Result<(), Fail> {
    let (folder, path) = disk(&rt, "too_few", "zeroone.two.thr")?;
    check(&rt, part(&rt, path.as_path(), 2, 1).is_ok());
    check(&rt, part(&rt, path.as_path(), 3, 0).is_ok());
    for (first, count) in [(0, 4), (3, 1), (4, 0), (1, u64::MAX)] {
        check(&rt, is_refused(&rt, path.as_path(), 4, first, count));
    }
    // It was not made longer.
    check(&rt, has(&rt, path.as_path(), "zeroone.two.thr"));
    fs::remove_dir_all(&rt, folder.as_path())?;
    Ok(())
}

#[test]
fn what_is_no_part_is_refused(rt: HostRuntime) -> Result<(), Fail> {
    let (folder, path) = disk(&rt, "refused", "zero")?;
    check(&rt, is_refused(&rt, folder.as_path(), 4, 0, 1));
    for (block_size, first, count) in [(0, 0, 1), (16, 1 << 60, 0), (1 << 40, 1 << 22, 1 << 22)] {
        check(
            &rt,
            is_refused(&rt, path.as_path(), block_size, first, count),
        );
    }
    fs::remove_file(&rt, path.as_path())?;
    check(&rt, is_refused(&rt, path.as_path(), 4, 0, 1));
    fs::remove_dir_all(&rt, folder.as_path())?;
    Ok(())
}
