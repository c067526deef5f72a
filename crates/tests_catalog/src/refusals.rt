//! Each reason not to take an extent, and which comes first.

use crate::checks::same;
use crate::rows::{empty, extent, extents_of, has_file, refuses, takes};
use catalog::{Catalog, Misfit};
use pc_types::Geometry;
use std::alloc::Global;
use std::process::Abort;

/// Eight blocks. File 0 has six whole pages and four bytes, and pages 2 and 3 stand on blocks 0 and 1. File 1 has eight pages.
fn two_files(rt: &impl Abort, alloc: Global) -> Catalog {
    let mut catalog = empty(rt, alloc, 8);
    has_file(rt, &mut catalog, 100, Ok(0));
    has_file(rt, &mut catalog, 128, Ok(1));
    takes(rt, &mut catalog, 0, extent(2, 0, 32));
    catalog
}

#[test]
fn an_extent_is_of_a_file(rt: HostRuntime) {
    let mut catalog = two_files(&rt, rt.alloc());
    let one = extent(0, 4, 16);
    refuses(&rt, &mut catalog, 2, one, Misfit::NoSuchFile);
    refuses(&rt, &mut catalog, 64, one, Misfit::NoSuchFile);
    refuses(&rt, &mut catalog, u64::MAX, one, Misfit::NoSuchFile);
    refuses(&rt, &mut catalog, 1, extent(0, 4, 0), Misfit::Empty);
}

#[test]
fn an_extent_ends_within_the_size(rt: HostRuntime) {
    let mut catalog = two_files(&rt, rt.alloc());
    refuses(&rt, &mut catalog, 0, extent(6, 4, 5), Misfit::PastSize);
    refuses(&rt, &mut catalog, 0, extent(7, 4, 1), Misfit::PastSize);
    refuses(&rt, &mut catalog, 0, extent(0, 4, 101), Misfit::PastSize);
    // The last page is valid in part.
    takes(&rt, &mut catalog, 0, extent(6, 4, 4));
    same(&rt, extents_of(&catalog, 0)[1], Some(extent(6, 4, 4)));
}

// 2^60 pages of 16 bytes are 2^64.
#[test]
fn an_extent_of_any_numbers_is_answered(rt: HostRuntime) {
    let mut catalog = two_files(&rt, rt.alloc());
    let last = u64::MAX;
    refuses(&rt, &mut catalog, 0, extent(last, 4, 1), Misfit::PastSize);
    refuses(&rt, &mut catalog, 0, extent(0, 4, last), Misfit::PastSize);
    refuses(
        &rt,
        &mut catalog,
        0,
        extent(last, 4, last),
        Misfit::PastSize,
    );
    refuses(
        &rt,
        &mut catalog,
        0,
        extent(1 << 60, 4, 16),
        Misfit::PastSize,
    );
    refuses(
        &rt,
        &mut catalog,
        0,
        extent(1 << 60, 4, last),
        Misfit::PastSize,
    );
    refuses(
        &rt,
        &mut catalog,
        0,
        extent(4, u32::MAX, 16),
        Misfit::PastDevice,
    );
    refuses(
        &rt,
        &mut catalog,
        0,
        extent(4, u32::MAX, 32),
        Misfit::PastDevice,
    );
}

#[test]
fn extents_come_in_the_order_of_their_pages(rt: HostRuntime) {
    let mut catalog = two_files(&rt, rt.alloc());
    refuses(&rt, &mut catalog, 0, extent(3, 4, 32), Misfit::OutOfOrder);
    refuses(&rt, &mut catalog, 0, extent(2, 4, 32), Misfit::OutOfOrder);
    refuses(&rt, &mut catalog, 0, extent(1, 4, 16), Misfit::OutOfOrder);
    refuses(&rt, &mut catalog, 0, extent(0, 4, 100), Misfit::OutOfOrder);
    takes(&rt, &mut catalog, 1, extent(1, 4, 16));
    takes(&rt, &mut catalog, 0, extent(4, 5, 16));
}

#[test]
fn an_extent_ends_within_the_device(rt: HostRuntime) {
    let mut catalog = two_files(&rt, rt.alloc());
    refuses(&rt, &mut catalog, 1, extent(0, 8, 1), Misfit::PastDevice);
    refuses(&rt, &mut catalog, 1, extent(0, 7, 17), Misfit::PastDevice);
    refuses(&rt, &mut catalog, 1, extent(0, 2, 97), Misfit::PastDevice);
    takes(&rt, &mut catalog, 1, extent(0, 7, 16));
    takes(&rt, &mut catalog, 1, extent(1, 2, 80));
    same(&rt, extents_of(&catalog, 1)[1], Some(extent(1, 2, 80)));
}

#[test]
fn no_block_is_of_two_pages(rt: HostRuntime) {
    let mut catalog = two_files(&rt, rt.alloc());
    // of two files
    refuses(&rt, &mut catalog, 1, extent(0, 1, 16), Misfit::BlockTwice);
    refuses(&rt, &mut catalog, 1, extent(0, 0, 128), Misfit::BlockTwice);
    // within one file
    refuses(&rt, &mut catalog, 0, extent(4, 1, 32), Misfit::BlockTwice);
    // The first pages of the extent could stand there, and the last can't.
    takes(&rt, &mut catalog, 1, extent(0, 7, 16));
    refuses(&rt, &mut catalog, 1, extent(1, 4, 64), Misfit::BlockTwice);
    takes(&rt, &mut catalog, 1, extent(1, 4, 48));
}

#[test]
fn the_first_reason_is_told(rt: HostRuntime) {
    let mut catalog = two_files(&rt, rt.alloc());
    let last = u64::MAX;
    refuses(&rt, &mut catalog, 2, extent(0, 0, 0), Misfit::NoSuchFile);
    refuses(
        &rt,
        &mut catalog,
        2,
        extent(last, 8, last),
        Misfit::NoSuchFile,
    );
    refuses(&rt, &mut catalog, 0, extent(last, 8, 0), Misfit::Empty);
    refuses(&rt, &mut catalog, 0, extent(2, 8, 101), Misfit::PastSize);
    refuses(&rt, &mut catalog, 0, extent(2, 8, 16), Misfit::OutOfOrder);
    refuses(&rt, &mut catalog, 0, extent(2, 0, 16), Misfit::OutOfOrder);
    takes(&rt, &mut catalog, 1, extent(0, 7, 16));
    refuses(&rt, &mut catalog, 0, extent(4, 7, 32), Misfit::PastDevice);
}

#[test]
fn a_catalog_is_for_one_kind_of_device(rt: HostRuntime) {
    let catalog = two_files(&rt, rt.alloc());
    for (page, frames, dirty_limit, blocks, want) in [
        (16, 48, 16, 8, true),
        (16, 64, 20, 8, true),
        (32, 48, 16, 8, false),
        (16, 48, 16, 9, false),
        (16, 48, 16, 7, false),
    ] {
        let geometry = Geometry::new(page, frames, dirty_limit, blocks).expect(&rt, "sizes");
        same(&rt, catalog.is_for(&geometry), want);
    }
}
