//! Rows over a file in memory: parts one after the other, what reaches past a part, syncs, a device, a part of a part.

ghost use Rattle.std.specs.Prelude.{◌≡◌, ◌≤◌, ◌+◌, IfOk, length};

use crate::checks::{check, same};
use crate::owner::{put, put_two, take};
use blockdev::{BlockDevice, FileDevice, MemFile, RawFile};
use filepart::FilePart;
use pc_types::{BlockNo, Refusal};
use std::process::Abort;
use std::test::*;

/// A file of eight zeros.
fn eight(rt: &HostRuntime) -> Result<MemFile, Refusal>
    ensures { IfOk result (λ f. length f.bytes ≡ 8) }
{
    MemFile::zeros(rt.alloc(), 8)
}

/// Writes into a part of a file of eight bytes.
fn write(file: MemFile, first: u64, len: u64, offset: u64, these: &[u8]) -> (bool, MemFile)
    requires eight { length file.bytes ≡ 8 }
    requires within { first + len ≤ 8 }
    ensures { length result.1.bytes ≡ 8 }
{
    put(file, first, len, offset, these)
}

fn holds(rt: &impl Abort, file: &MemFile, wanted: &[u8; 8]) {
    let mut out = [9; 8];
    check(rt, file.read_at(&mut out, 0));
    check(rt, out == *wanted);
}

// The second part ends with the file.
#[test]
fn two_parts_do_not_touch_each_other(rt: HostRuntime) -> Result<(), Fail> {
    let file = eight(&rt)?;
    let (low, file) = write(file, 2, 3, 0, b"low");
    let (high, file) = write(file, 5, 3, 1, b"hi");
    same(&rt, (low, high), (true, true));
    holds(&rt, &file, b"\0\0low\0hi");
    let mut out = [9; 2];
    let (read, _) = take(file, 5, 3, 1, &mut out);
    same(&rt, (read, out), (true, *b"hi"));
    Ok(())
}

/// Whether so many bytes from the offset on can be read.
fn reads(part: &FilePart<MemFile>, offset: u64, count: usize) -> bool
    requires { count ≤ 8 }
{
    let mut out = [9; 8];
    part.read_at(&mut out[..count], offset)
}

// The file has bytes behind the part.
#[test]
fn a_read_past_the_part_is_refused(rt: HostRuntime) -> Result<(), Fail> {
    let part = FilePart::new(eight(&rt)?, 2, 3);
    check(
        &rt,
        reads(&part, 0, 3) && reads(&part, 2, 1) && reads(&part, 3, 0),
    );
    for (offset, count) in [(0, 4), (2, 2), (3, 1), (4, 0), (u64::MAX, 8)] {
        check(&rt, count <= 8 && !reads(&part, offset, count));
    }
    Ok(())
}

#[test]
fn a_write_past_the_part_is_refused(rt: HostRuntime) -> Result<(), Fail> {
    let mut part = FilePart::new(eight(&rt)?, 2, 3);
    for (offset, bytes) in [(0, "long"), (2, "ab"), (3, "a"), (4, ""), (u64::MAX, "a")] {
        check(&rt, !part.write_at(bytes.as_bytes(), offset));
    }
    check(&rt, part.write_at(b"b", 2) && part.write_at(b"", 3));
    holds(&rt, &part.into_file(), b"\0\0\0\0b\0\0\0");
    Ok(())
}

#[test]
fn a_sync_is_one_of_the_file(rt: HostRuntime) -> Result<(), Fail> {
    let mut file = eight(&rt)?;
    file.fail_next_sync();
    let mut part = FilePart::new(file, 2, 4);
    check(&rt, !put_two(&mut part, b"ab", 2, 0));
    check(&rt, put_two(&mut part, b"cd", 0, 2));
    holds(&rt, &part.into_file(), b"\0\0cdcd\0\0");
    Ok(())
}

#[test]
fn a_part_may_have_no_byte(rt: HostRuntime) -> Result<(), Fail> {
    let mut part = FilePart::new(eight(&rt)?, 8, 0);
    check(&rt, reads(&part, 0, 0) && !reads(&part, 0, 1));
    check(&rt, part.write_at(b"", 0) && !part.write_at(b"a", 0));
    check(&rt, part.sync());
    Ok(())
}

// Byte 1 of a part from byte 1 on, of a part from byte 2 on, is byte 4.
#[test]
fn a_part_may_have_a_part(rt: HostRuntime) -> Result<(), Fail> {
    let outer = FilePart::new(eight(&rt)?, 2, 5);
    let mut inner = FilePart::new(outer, 1, 3);
    check(&rt, inner.write_at(b"in", 1) && !inner.write_at(b"out", 1));
    holds(&rt, &inner.into_file().into_file(), b"\0\0\0\0in\0\0");
    Ok(())
}

// Block 1 of a device from byte 2 on begins with byte 4.
#[test]
fn a_device_stands_on_a_part(rt: HostRuntime) -> Result<(), Fail> {
    let (put, file) = write(eight(&rt)?, 4, 2, 0, b"ab");
    check(&rt, put);
    let part = FilePart::new(file, 2, 6);
    let mut device = FileDevice::new(part, 2, 3, vec![in rt.alloc(); 0; 2]?);
    let mut out = [9; 2];
    same(&rt, device.read(BlockNo(1), &mut out), Ok(()));
    check(&rt, out == *b"ab");
    same(&rt, device.write(BlockNo(2), b"cd"), Ok(()));
    same(&rt, device.read(BlockNo(1), &mut out), Ok(()));
    check(&rt, out == *b"ab");
    same(&rt, device.flush(), Ok(()));
    Ok(())
}
