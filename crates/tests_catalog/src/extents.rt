//! The extents that a catalog tells, which need not be those that it was given.

ghost use Rattle.std.specs.Prelude.{◌<◌};

use crate::checks::same;
use crate::rows::{empty, extent, extents_of, has_file, takes};
use blockmap::{BlockMap, Placed};
use catalog::{Catalog, Extent};
use pc_types::{BlockNo, FileId, PageIndex};
use std::alloc::Global;
use std::process::Abort;

/// Sixteen blocks, and one file of ten pages.
fn one_file(rt: &impl Abort, alloc: Global) -> Catalog {
    let mut catalog = empty(rt, alloc, 16);
    has_file(rt, &mut catalog, 160, Ok(0));
    catalog
}

#[test]
fn a_file_without_extents_is_one_hole(rt: HostRuntime) {
    let mut catalog = one_file(&rt, rt.alloc());
    has_file(&rt, &mut catalog, 0, Ok(1));
    same(&rt, extents_of(&catalog, 0), [None; 5]);
    same(&rt, extents_of(&catalog, 1), [None; 5]);
    same(&rt, extents_of(&catalog, 2), [None; 5]);
    same(&rt, extents_of(&catalog, u64::MAX), [None; 5]);
}

#[test]
fn extents_side_by_side_are_one(rt: HostRuntime) {
    let mut catalog = one_file(&rt, rt.alloc());
    takes(&rt, &mut catalog, 0, extent(1, 3, 32));
    takes(&rt, &mut catalog, 0, extent(3, 5, 16));
    takes(&rt, &mut catalog, 0, extent(4, 6, 20));
    let all = [Some(extent(1, 3, 68)), None, None, None, None];
    same(&rt, extents_of(&catalog, 0), all);
}

// Pages 0 and 1 on blocks 4 and 3, and page 2 on block 5.
#[test]
fn an_extent_ends_where_blocks_do_not_follow(rt: HostRuntime) {
    let mut catalog = one_file(&rt, rt.alloc());
    takes(&rt, &mut catalog, 0, extent(0, 4, 16));
    takes(&rt, &mut catalog, 0, extent(1, 3, 16));
    takes(&rt, &mut catalog, 0, extent(2, 5, 16));
    let all = [
        Some(extent(0, 4, 16)),
        Some(extent(1, 3, 16)),
        Some(extent(2, 5, 16)),
        None,
        None,
    ];
    same(&rt, extents_of(&catalog, 0), all);
}

#[test]
fn an_extent_ends_with_a_page_that_is_valid_in_part(rt: HostRuntime) {
    let mut catalog = one_file(&rt, rt.alloc());
    takes(&rt, &mut catalog, 0, extent(0, 4, 20));
    takes(&rt, &mut catalog, 0, extent(2, 6, 16));
    let all = [
        Some(extent(0, 4, 20)),
        Some(extent(2, 6, 16)),
        None,
        None,
        None,
    ];
    same(&rt, extents_of(&catalog, 0), all);
}

// Blocks follow, and pages don't.
#[test]
fn an_extent_ends_at_a_hole(rt: HostRuntime) {
    let mut catalog = one_file(&rt, rt.alloc());
    takes(&rt, &mut catalog, 0, extent(1, 0, 32));
    takes(&rt, &mut catalog, 0, extent(4, 2, 16));
    takes(&rt, &mut catalog, 0, extent(9, 3, 1));
    let all = [
        Some(extent(1, 0, 32)),
        Some(extent(4, 2, 16)),
        Some(extent(9, 3, 1)),
        None,
        None,
    ];
    same(&rt, extents_of(&catalog, 0), all);
}

fn next(catalog: &Catalog, from: u64) -> Option<Extent> {
    catalog.next_extent(FileId(0), PageIndex(from))
}

#[test]
fn an_extent_is_told_from_any_page_on(rt: HostRuntime) {
    let mut catalog = one_file(&rt, rt.alloc());
    takes(&rt, &mut catalog, 0, extent(1, 0, 60));
    takes(&rt, &mut catalog, 0, extent(6, 9, 16));
    same(&rt, next(&catalog, 2), Some(extent(2, 1, 44)));
    same(&rt, next(&catalog, 4), Some(extent(4, 3, 12)));
    same(&rt, next(&catalog, 5), Some(extent(6, 9, 16)));
    same(&rt, next(&catalog, 7), None);
    same(&rt, next(&catalog, 1 << 36), None);
    same(&rt, next(&catalog, u64::MAX), None);
}

// The last page of the largest file, with the smallest pages, on the last block.
#[test]
fn the_last_page_may_stand_on_the_last_block(rt: HostRuntime) {
    let mut catalog = empty(&rt, rt.alloc(), 1 << 32);
    has_file(&rt, &mut catalog, 1 << 40, Ok(0));
    let last = extent((1 << 36) - 1, u32::MAX, 16);
    takes(&rt, &mut catalog, 0, last);
    same(&rt, next(&catalog, 0), Some(last));
    same(&rt, next(&catalog, (1 << 36) - 1), Some(last));
    same(&rt, next(&catalog, 1 << 36), None);
}

fn stands(rt: &impl Abort, blocks: &BlockMap, page: u64, want: Option<(u32, u32)>)
    requires { page < 8 }
{
    let want = want.map(|(block, valid)| Placed {
        block: BlockNo(block),
        valid,
    });
    same(rt, blocks.map(FileId(0), PageIndex(page)), want);
}

#[test]
fn a_cache_gets_the_blocks(rt: HostRuntime) {
    let mut catalog = one_file(&rt, rt.alloc());
    takes(&rt, &mut catalog, 0, extent(1, 4, 20));
    let blocks = catalog.into_blocks();
    stands(&rt, &blocks, 0, None);
    stands(&rt, &blocks, 1, Some((4, 16)));
    stands(&rt, &blocks, 2, Some((5, 4)));
    stands(&rt, &blocks, 3, None);
    same(&rt, blocks.free_count(), 14);
}
