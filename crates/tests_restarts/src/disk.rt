//! A device of sixteen blocks of sixteen bytes, block by block, and what a catalog says of it.

use crate::odd::Odd;
use blockdev::{BlockDevice, MemDevice};
use catalog::{Catalog, Extent};
use filesvc::Solo;
use pc_types::{BlockNo, FileId, Geometry, PageIndex, Refusal};
use std::alloc::Global;

/// Bytes of a block, and of a page.
pub const PAGE: usize = 16;

/// What blocks 0 to 3 have: the fourth is no file's.
pub const TEXT: &[u8; 64] = b"The quick brown fox jumps over the lazy dog and runs. ##########";

pub fn geometry() -> Result<Geometry, Refusal> {
    Geometry::new(16, 48, 16, 16)
}

/// A device with these bytes from its first block on.
pub fn disk(alloc: Global, text: &[u8; 64]) -> Result<MemDevice, Odd> {
    let mut device = MemDevice::new(alloc, 16, 16)?;
    for number in 0..4 {
        let first = number as usize * PAGE;
        if !put(&mut device, number, &text[first..first + PAGE]) {
            return Err(Odd::Answer);
        }
    }
    Ok(device)
}

/// Writes a block, and answers whether that went well.
fn put<D: BlockDevice>(device: &mut D, block: u32, bytes: &[u8]) -> bool {
    u64::from(block) < device.blocks()
        && bytes.len() as u64 == device.block_size()
        && device.write(BlockNo(block), bytes).is_ok()
}

/// What a block has.
pub fn block<D: BlockDevice>(device: &mut D, block: u32) -> Result<[u8; PAGE], Odd> {
    let mut out = [0xee; PAGE];
    if u64::from(block) >= device.blocks()
        || device.block_size() != 16
        || device.read(BlockNo(block), &mut out).is_err()
    {
        return Err(Odd::Answer);
    }
    Ok(out)
}

/// What blocks 0 to 3 have.
pub fn text<D: BlockDevice>(device: &mut D) -> Result<[u8; 64], Odd> {
    let mut all = [0; 64];
    for number in 0..4 {
        let first = number as usize * PAGE;
        all[first..first + PAGE].copy_from_slice(&block(device, number)?);
    }
    Ok(all)
}

pub fn extent(first: u64, block: u32, bytes: u64) -> Extent {
    Extent {
        first: PageIndex(first),
        block: BlockNo(block),
        bytes,
    }
}

/// A catalog of one file of this size.
pub fn one_file(alloc: Global, size: u64, extents: &[Extent]) -> Result<Catalog, Odd> {
    let mut catalog = Catalog::new(alloc, &geometry()?);
    add_file(&mut catalog, size, extents)?;
    Ok(catalog)
}

/// One file more of this size.
pub fn add_file(catalog: &mut Catalog, size: u64, extents: &[Extent]) -> Result<FileId, Odd> {
    let Ok(file) = catalog.add_file(size) else {
        return Err(Odd::Answer);
    };
    for extent in extents {
        if catalog.add_extent(file, *extent).is_err() {
            return Err(Odd::Answer);
        }
    }
    Ok(file)
}

/// A service over the device with the catalog's files.
pub fn service<D: BlockDevice>(
    alloc: Global,
    name: u64,
    catalog: Catalog,
    device: D,
) -> Result<Box<Solo<D>>, Odd> {
    let geometry = geometry()?;
    match Solo::over(alloc, &geometry, name, catalog, device) {
        Ok(solo) => Ok(boxed(alloc, solo)?),
        Err((refusal, catalog, device)) => {
            // each by a call, since the check is slow where they go out of scope
            drop(catalog);
            drop(device);
            Err(Odd::from(refusal))
        }
    }
}

pub fn boxed<D: BlockDevice>(alloc: Global, solo: Solo<D>) -> Result<Box<Solo<D>>, Refusal> {
    Ok(Box::new(alloc, solo)?)
}
