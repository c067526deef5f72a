//! How a service over a file begins.

use crate::desk::Desk;
use crate::fault::Fault;
use crate::options::Options;
use blockdev::{BlockDevice, FileDevice};
use catalog::{Catalog, Extent, Misfit};
use filesvc::Solo;
use pc_types::limits::MAX_FILE_SIZE;
use pc_types::{BlockNo, FileId, Geometry, PageIndex};
use std::alloc::Global;
use std::fs::{File, Files, OpenOptions};

/// Bytes of a page, and of a block.
const PAGE: u64 = 4096;

const FRAMES: u64 = 256;

const DIRTY_LIMIT: u64 = 128;

/// So many blocks there are behind those of the file that is served.
const GROWTH: u64 = 1024;

/// A name for the service, which is the only one.
const NAME: u64 = 1;

/// A service over the file at the path. The file is made longer, so that it has all blocks; their bytes are zeros.
pub fn desk_over<F: Files<File = File>>(
    files: &F,
    alloc: Global,
    options: Options<'_>,
) -> Result<Desk<FileDevice>, Fault> {
    let len = length(files, options.path)?;
    if options.size > len {
        return Err(Fault::PastEnd(len));
    }
    if options.size > MAX_FILE_SIZE {
        return Err(Fault::TooLarge);
    }
    let blocks = blocks_for(len, options.size);
    let geometry = Geometry::new(PAGE, FRAMES, DIRTY_LIMIT, blocks).map_err(Fault::of)?;
    let catalog = catalog_of(alloc, &geometry, options.size)?;
    match FileDevice::open(files, alloc, options.path, PAGE, blocks) {
        Ok(device) => desk_of(alloc, &geometry, catalog, device),
        Err(refusal) => Err(Fault::of(refusal)),
    }
}

/// How many bytes the regular file at the path has.
fn length<F: Files<File = File>>(files: &F, path: &str) -> Result<u64, Fault> {
    let Ok(file) = OpenOptions::new().read(true).write(true).open(files, path) else {
        return Err(Fault::Closed);
    };
    match file.metadata() {
        Ok(metadata) if metadata.is_file() => Ok(metadata.len()),
        Ok(_) => Err(Fault::NoFile),
        Err(_) => Err(Fault::Closed),
    }
}

/// As many blocks as the file has, and no fewer than those that are served and `GROWTH` more.
fn blocks_for(len: u64, size: u64) -> u64 {
    let grown = (size / PAGE + 1).saturating_add(GROWTH);
    grown.max(len.div_ceil(PAGE))
}

/// A catalog of one file of this size, from the first block on.
pub fn catalog_of(alloc: Global, geometry: &Geometry, size: u64) -> Result<Catalog, Fault> {
    let mut catalog = Catalog::new(alloc, geometry);
    match catalog.add_file(size) {
        Ok(file) if size > 0 => {
            let whole = Extent {
                first: PageIndex(0),
                block: BlockNo(0),
                bytes: size,
            };
            catalog.add_extent(file, whole).map_err(fault_of)?;
        }
        Ok(_) => {}
        Err(misfit) => return Err(fault_of(misfit)),
    }
    Ok(catalog)
}

fn fault_of(misfit: Misfit) -> Fault {
    match misfit {
        Misfit::Memory => Fault::Memory,
        _ => Fault::TooLarge,
    }
}

/// A service over a device with the catalog's first file opened.
pub fn desk_of<D: BlockDevice>(
    alloc: Global,
    geometry: &Geometry,
    catalog: Catalog,
    device: D,
) -> Result<Desk<D>, Fault> {
    match Solo::over(alloc, geometry, NAME, catalog, device) {
        Ok(solo) => Desk::open(solo, FileId(0)).map_err(Fault::of),
        Err((refusal, catalog, device)) => {
            // each by a call, since the check is slow where they go out of scope
            drop(catalog);
            drop(device);
            Err(Fault::of(refusal))
        }
    }
}
