//! Files that a device holds already. What each read is to give is written here by hand.

use crate::calls::{append, pread, pwrite, truncate};
use crate::checks::{check, same};
use crate::disk::{TEXT, add_file, block, boxed, disk, extent, geometry, one_file, service, text};
use crate::odd::Odd;
use blockdev::{BlockDevice, MemDevice};
use blockmap::Placed;
use catalog::Catalog;
use filesvc::Solo;
use pc_types::{BlockNo, FileId, Geometry, PageIndex, Refusal};
use std::alloc::Global;
use std::process::Abort;

/// The file's bytes from the offset on, as many as `want` has and then no more.
fn reads<D: BlockDevice>(
    solo: &mut Solo<D>,
    file: u64,
    offset: u64,
    want: &[u8],
) -> Result<(), Odd> {
    let mut out = [0xee; 64];
    let count = pread(solo, file, offset, &mut out)?;
    if count != want.len() as u64 || !out.starts_with(want) {
        return Err(Odd::Bytes(file));
    }
    Ok(())
}

fn writes<D: BlockDevice>(
    solo: &mut Solo<D>,
    file: u64,
    offset: u64,
    bytes: &[u8],
) -> Result<(), Odd> {
    if pwrite(solo, file, offset, bytes)? != bytes.len() as u64 {
        return Err(Odd::Answer);
    }
    Ok(())
}

// Three whole blocks: five bytes in the middle are another word's, and nothing else on the device is changed.
fn changes_five_bytes(alloc: Global) -> Result<[u8; 64], Odd> {
    let catalog = one_file(alloc, 48, &[extent(0, 0, 48)])?;
    let mut solo = service(alloc, 7, catalog, disk(alloc, TEXT)?)?;
    reads(
        &mut solo,
        0,
        0,
        b"The quick brown fox jumps over the lazy dog and ",
    )?;
    writes(&mut solo, 0, 20, b"jogs.")?;
    solo.sync_all()?;
    let mut device = Box::into_inner(solo).into_device();
    text(&mut device)
}

#[test]
fn five_bytes_are_changed(rt: HostRuntime) {
    same(
        &rt,
        changes_five_bytes(rt.alloc()),
        Ok(*b"The quick brown fox jogs. over the lazy dog and runs. ##########"),
    );
}

// The file ends within its third block, whose rest is never read: not past the end, nor where the file grows over it.
fn ends_within_a_block(alloc: Global) -> Result<(), Odd> {
    let catalog = one_file(alloc, 40, &[extent(0, 0, 40)])?;
    let mut solo = service(alloc, 7, catalog, disk(alloc, TEXT)?)?;
    reads(&mut solo, 0, 31, b"the lazy ")?;
    truncate(&mut solo, 0, 45)?;
    reads(&mut solo, 0, 31, b"the lazy \0\0\0\0\0")?;
    solo.sync_all()?;
    let catalog = solo.catalog()?;
    let device = Box::into_inner(solo).into_device();
    let mut solo = service(alloc, 8, catalog, device)?;
    reads(&mut solo, 0, 31, b"the lazy \0\0\0\0\0")?;
    truncate(&mut solo, 0, 34)?;
    truncate(&mut solo, 0, 50)?;
    reads(&mut solo, 0, 31, b"the\0\0\0\0\0\0\0\0\0\0\0\0\0\0\0\0")?;
    writes(&mut solo, 0, 47, b"x")?;
    reads(&mut solo, 0, 31, b"the\0\0\0\0\0\0\0\0\0\0\0\0\0x\0\0")
}

#[test]
fn bytes_past_the_size_are_not_read(rt: HostRuntime) {
    same(&rt, ends_within_a_block(rt.alloc()), Ok(()));
}

// Pages 0 and 2 stand on blocks 0 and 2, and page 1 nowhere, though block 1 has bytes.
fn has_a_hole(alloc: Global) -> Result<(), Odd> {
    let catalog = one_file(alloc, 48, &[extent(0, 0, 16), extent(2, 2, 16)])?;
    let mut solo = service(alloc, 7, catalog, disk(alloc, TEXT)?)?;
    reads(
        &mut solo,
        0,
        10,
        b"brown \0\0\0\0\0\0\0\0\0\0\0\0\0\0\0\0he lazy dog and ",
    )?;
    // its page gets the lowest free block, which is 1
    writes(&mut solo, 0, 20, b"-")?;
    reads(
        &mut solo,
        0,
        10,
        b"brown \0\0\0\0-\0\0\0\0\0\0\0\0\0\0\0he lazy dog and ",
    )?;
    solo.sync_all()?;
    let mut device = Box::into_inner(solo).into_device();
    if block(&mut device, 1)? != *b"\0\0\0\0-\0\0\0\0\0\0\0\0\0\0\0" {
        return Err(Odd::Answer);
    }
    Ok(())
}

#[test]
fn a_hole_reads_as_zeros(rt: HostRuntime) {
    same(&rt, has_a_hole(rt.alloc()), Ok(()));
}

fn stands<D: BlockDevice>(
    rt: &impl Abort,
    solo: &Solo<D>,
    file: u64,
    page: u64,
    want: Result<Option<(u32, u32)>, Refusal>,
) {
    let is = solo.block_of(FileId(file), PageIndex(page));
    let is = is.map(|placed| placed.map(|placed: Placed| (placed.block.0, placed.valid)));
    same(rt, is, want);
}

fn stands_as_given(rt: &impl Abort, solo: &Solo<MemDevice>) {
    stands(rt, solo, 0, 0, Ok(Some((5, 16))));
    stands(rt, solo, 0, 1, Ok(Some((6, 16))));
    stands(rt, solo, 0, 2, Ok(None));
    stands(rt, solo, 0, 3, Ok(Some((9, 2))));
    stands(rt, solo, 0, 4, Ok(None));
    stands(rt, solo, 0, (1 << 36) - 1, Ok(None));
    stands(rt, solo, 0, 1 << 36, Ok(None));
    stands(rt, solo, 0, u64::MAX, Ok(None));
    stands(rt, solo, 1, 0, Err(Refusal::NoSuchFile));
    stands(rt, solo, u64::MAX, 0, Err(Refusal::NoSuchFile));
}

// A page that is written gets the lowest free block, and none of its bytes is there before it was written to the device.
fn tells_blocks(rt: &impl Abort, alloc: Global) -> Result<(), Odd> {
    let catalog = one_file(alloc, 50, &[extent(0, 5, 32), extent(3, 9, 2)])?;
    let mut solo = service(alloc, 7, catalog, disk(alloc, TEXT)?)?;
    stands_as_given(rt, &solo);
    writes(&mut solo, 0, 40, b"x")?;
    stands(rt, &solo, 0, 2, Ok(Some((0, 0))));
    solo.sync_all()?;
    stands(rt, &solo, 0, 2, Ok(Some((0, 16))));
    stands(rt, &solo, 0, 3, Ok(Some((9, 2))));
    Ok(())
}

#[test]
fn each_page_has_the_block_it_was_given(rt: HostRuntime) {
    same(&rt, tells_blocks(&rt, rt.alloc()), Ok(()));
}

// The only file of a device grows behind its last block, so whoever reads the device's bytes finds the file.
fn grows(rt: &impl Abort, alloc: Global) -> Result<[u8; 64], Odd> {
    let catalog = one_file(alloc, 32, &[extent(0, 0, 32)])?;
    let mut solo = service(alloc, 7, catalog, disk(alloc, TEXT)?)?;
    if append(&mut solo, 0, b"a fence, and on it goes.")? != 24 {
        return Err(Odd::Answer);
    }
    solo.sync_all()?;
    stands(rt, &solo, 0, 2, Ok(Some((2, 16))));
    stands(rt, &solo, 0, 3, Ok(Some((3, 16))));
    let mut device = Box::into_inner(solo).into_device();
    text(&mut device)
}

#[test]
fn an_append_lands_behind_the_last_block(rt: HostRuntime) {
    same(
        &rt,
        grows(&rt, rt.alloc()),
        Ok(*b"The quick brown fox jumps over ta fence, and on it goes.\0\0\0\0\0\0\0\0"),
    );
}

/// How many files the refused catalog has that comes back, and what the device has.
fn refused_by(alloc: Global, sizes: &Geometry, catalog: Catalog) -> Result<(u64, [u8; 64]), Odd> {
    match Solo::over(alloc, sizes, 7, catalog, disk(alloc, TEXT)?) {
        Err((Refusal::BadConfig, catalog, mut device)) => {
            Ok((catalog.file_count(), text(&mut device)?))
        }
        Err((refusal, catalog, device)) => {
            drop(catalog);
            drop(device);
            Err(Odd::from(refusal))
        }
        Ok(solo) => {
            drop(solo);
            Err(Odd::Answer)
        }
    }
}

/// A catalog of one file for a device of so many blocks.
fn for_blocks(alloc: Global, page: u64, blocks: u64) -> Result<Catalog, Odd> {
    let sizes = Geometry::new(page, 48, 16, blocks)?;
    let mut catalog = Catalog::new(alloc, &sizes);
    add_file(&mut catalog, 16, &[extent(0, 0, 16)])?;
    Ok(catalog)
}

// One block less, one more, and another block size, each with one file; and a catalog that fits, where the device doesn't.
fn refuses_strangers(alloc: Global) -> Result<[(u64, [u8; 64]); 4], Odd> {
    let sizes = geometry()?;
    let larger = Geometry::new(16, 48, 16, 17)?;
    Ok([
        refused_by(alloc, &sizes, for_blocks(alloc, 16, 15)?)?,
        refused_by(alloc, &sizes, for_blocks(alloc, 16, 17)?)?,
        refused_by(alloc, &sizes, for_blocks(alloc, 32, 16)?)?,
        refused_by(alloc, &larger, for_blocks(alloc, 16, 17)?)?,
    ])
}

#[test]
fn a_catalog_of_another_device_is_refused(rt: HostRuntime) {
    same(&rt, refuses_strangers(rt.alloc()), Ok([(1, *TEXT); 4]));
}

/// 64 files, of which file f has f % 4 bytes. Each but the empty ones has a block.
fn many_files(alloc: Global, sizes: &Geometry) -> Result<Catalog, Odd> {
    let mut catalog = Catalog::new(alloc, sizes);
    for file in 0..64u32 {
        let size = u64::from(file % 4);
        if size == 0 {
            add_file(&mut catalog, 0, &[])?;
        } else {
            add_file(&mut catalog, size, &[extent(0, 63 - file, size)])?;
        }
    }
    Ok(catalog)
}

/// Each file reads as its number, as often as it is long.
fn are_numbered(solo: &mut Solo<MemDevice>) -> Result<(), Odd> {
    for file in 0..64u8 {
        let bytes = [file; 3];
        let len = usize::from(file % 4);
        reads(solo, u64::from(file), 0, &bytes[..len])?;
    }
    Ok(())
}

// The files are written by one service, over zeros, and read by the next. There is no room for one more.
fn serves_many(alloc: Global) -> Result<(), Odd> {
    let sizes = Geometry::new(16, 64, 32, 64)?;
    let catalog = many_files(alloc, &sizes)?;
    let device = MemDevice::new(alloc, 16, 64)?;
    let Ok(solo) = Solo::over(alloc, &sizes, 7, catalog, device) else {
        return Err(Odd::Answer);
    };
    let mut solo = boxed(alloc, solo)?;
    for file in 0..64u8 {
        let bytes = [file; 3];
        let (these, _) = bytes.split_at(usize::from(file % 4));
        writes(&mut solo, u64::from(file), 0, these)?;
    }
    solo.sync_all()?;
    let catalog = solo.catalog()?;
    let device = Box::into_inner(solo).into_device();
    let Ok(solo) = Solo::over(alloc, &sizes, 8, catalog, device) else {
        return Err(Odd::Answer);
    };
    let mut solo = boxed(alloc, solo)?;
    are_numbered(&mut solo)?;
    match solo.create() {
        Err(Refusal::TooManyFiles) => Ok(()),
        _ => Err(Odd::Answer),
    }
}

#[test]
fn a_catalog_may_have_64_files(rt: HostRuntime) {
    same(&rt, serves_many(rt.alloc()), Ok(()));
}

// One block, the device's last, and a file of no bytes.
fn begins_at_the_last(alloc: Global) -> Result<(), Odd> {
    let mut catalog = one_file(alloc, 16, &[extent(0, 15, 16)])?;
    add_file(&mut catalog, 0, &[])?;
    let mut solo = service(alloc, 7, catalog, disk(alloc, TEXT)?)?;
    reads(&mut solo, 0, 0, &[0; 16])?;
    reads(&mut solo, 1, 0, &[])?;
    writes(&mut solo, 0, 0, b"at the very end.")?;
    solo.sync_all()?;
    let mut device = Box::into_inner(solo).into_device();
    if block(&mut device, 15)? != *b"at the very end." {
        return Err(Odd::Answer);
    }
    Ok(())
}

#[test]
fn a_file_may_stand_on_the_last_block(rt: HostRuntime) {
    same(&rt, begins_at_the_last(rt.alloc()), Ok(()));
}
