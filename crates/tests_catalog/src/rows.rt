//! A catalog, what it takes, and its extents.

use crate::checks::same;
use catalog::{Catalog, Extent, Misfit};
use pc_types::{BlockNo, FileId, Geometry, PageIndex};
use std::alloc::Global;
use std::process::Abort;

/// For a device of so many blocks of 16 bytes.
pub fn empty(rt: &impl Abort, alloc: Global, blocks: u64) -> Catalog {
    let geometry = Geometry::new(16, 48, 16, blocks).expect(rt, "sizes of a cache");
    Catalog::new(alloc, &geometry)
}

/// The next file has this number, or is refused so.
pub fn has_file(rt: &impl Abort, catalog: &mut Catalog, size: u64, want: Result<u64, Misfit>) {
    same(rt, catalog.add_file(size), want.map(FileId));
}

pub fn extent(first: u64, block: u32, bytes: u64) -> Extent {
    Extent {
        first: PageIndex(first),
        block: BlockNo(block),
        bytes,
    }
}

pub fn takes(rt: &impl Abort, catalog: &mut Catalog, file: u64, extent: Extent) {
    same(rt, catalog.add_extent(FileId(file), extent), Ok(()));
}

/// What `extents_of` tells.
pub type Extents = [Option<Extent>; 5];

/// An extent is refused so, and the first two files have the extents that they had.
pub fn refuses(rt: &impl Abort, catalog: &mut Catalog, file: u64, extent: Extent, reason: Misfit) {
    let before = (extents_of(catalog, 0), extents_of(catalog, 1));
    same(rt, catalog.add_extent(FileId(file), extent), Err(reason));
    same(rt, extents_of(catalog, 0), before.0);
    same(rt, extents_of(catalog, 1), before.1);
}

/// The first five extents of a file.
pub fn extents_of(catalog: &Catalog, file: u64) -> Extents {
    let mut all = [None; 5];
    let mut from = 0u64;
    for place in all.iter_mut() {
        let next = catalog.next_extent(FileId(file), PageIndex(from));
        if let Some(extent) = next {
            from = extent.first.0.saturating_add(extent.bytes.div_ceil(16));
        }
        *place = next;
    }
    all
}
