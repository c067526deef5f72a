//! How many files a catalog takes, of which sizes, and how a refusal reads.

use crate::checks::{check, same};
use crate::rows::{empty, extent, has_file, refuses};
use catalog::Misfit;
use pc_types::FileId;
use std::test::Fail;

#[test]
fn a_catalog_has_64_files_at_most(rt: HostRuntime) {
    let mut catalog = empty(&rt, rt.alloc(), 8);
    same(&rt, catalog.file_count(), 0);
    for number in 0..64 {
        has_file(&rt, &mut catalog, 2 * number, Ok(number));
    }
    has_file(&rt, &mut catalog, 0, Err(Misfit::TooManyFiles));
    // It is the first reason.
    has_file(&rt, &mut catalog, u64::MAX, Err(Misfit::TooManyFiles));
    same(&rt, catalog.file_count(), 64);
    same(&rt, catalog.size(FileId(63)), 126);
    same(&rt, catalog.size(FileId(64)), 0);
    same(&rt, catalog.size(FileId(u64::MAX)), 0);
}

#[test]
fn a_file_has_2_40_bytes_at_most(rt: HostRuntime) {
    let mut catalog = empty(&rt, rt.alloc(), 8);
    has_file(&rt, &mut catalog, (1 << 40) + 1, Err(Misfit::TooLarge));
    has_file(&rt, &mut catalog, u64::MAX, Err(Misfit::TooLarge));
    same(&rt, catalog.file_count(), 0);
    has_file(&rt, &mut catalog, 1 << 40, Ok(0));
    same(&rt, catalog.size(FileId(0)), 1 << 40);
}

#[test]
fn a_file_may_have_no_byte(rt: HostRuntime) {
    let mut catalog = empty(&rt, rt.alloc(), 8);
    has_file(&rt, &mut catalog, 0, Ok(0));
    same(&rt, catalog.size(FileId(0)), 0);
    refuses(&rt, &mut catalog, 0, extent(0, 0, 0), Misfit::Empty);
    refuses(&rt, &mut catalog, 0, extent(0, 0, 1), Misfit::PastSize);
}

#[test]
fn a_reason_reads_so(rt: HostRuntime) -> Result<(), Fail> {
    for (reason, text) in [
        (Misfit::TooManyFiles, "the catalog has 64 files already"),
        (Misfit::TooLarge, "a file has more than 2^40 bytes"),
        (Misfit::NoSuchFile, "no file of the catalog has the number"),
        (Misfit::Empty, "an extent has no bytes"),
        (Misfit::PastSize, "an extent ends past its file's size"),
        (
            Misfit::OutOfOrder,
            "the extents of a file overlap, or don't come in the order of their pages",
        ),
        (
            Misfit::PastDevice,
            "an extent ends past the device's last block",
        ),
        (Misfit::BlockTwice, "a block is of two pages"),
        (Misfit::Memory, "no memory is left: free some and try again"),
    ] {
        let is = format!(in rt.alloc(); "{reason}")?;
        check(&rt, is.as_str() == text);
    }
    Ok(())
}
