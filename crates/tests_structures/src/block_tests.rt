//! Worked rows. What a call requires is asserted before it.
ghost use Rattle.std.specs.Prelude.{◌<◌, ◌≤◌, ◌^◌};
ghost use Rattle.blockmap.specs.Keys.{IsPage};

use crate::checks::same;
use blockmap::{BlockMap, Placed};
use pc_types::{BlockNo, FileId, PageIndex, Refusal};
use std::process::Abort;

/// A page that has no block is given this one, or is refused so.
fn gives(
    rt: &impl Abort,
    blocks: &mut BlockMap,
    file: FileId,
    page: PageIndex,
    want: Result<BlockNo, Refusal>,
)
    requires { IsPage file.0 page.0 }
{
    let none = blocks.map(file, page).is_none();
    assert!(rt; none);
    let given = blocks.assign(file, page);
    same(rt, given, want);
}

/// A page's block is taken back, or this is refused so.
fn takes_back(
    rt: &impl Abort,
    blocks: &mut BlockMap,
    file: FileId,
    page: PageIndex,
    want: Result<(), Refusal>,
)
    requires { IsPage file.0 page.0 }
{
    if let Some(placed) = blocks.map(file, page) {
        assert!(rt; placed.valid == 0);
        let is_held = blocks.is_held(placed.block);
        assert!(rt; !is_held);
    }
    let taken = blocks.unassign(file, page);
    same(rt, taken, want);
}

/// What is told of a page.
fn tells(rt: &impl Abort, blocks: &BlockMap, file: FileId, page: PageIndex, want: Option<Placed>)
    requires { IsPage file.0 page.0 }
{
    let told = blocks.map(file, page);
    same(rt, told, want);
}

/// The number and the block of the file's first page from this one on that has a block.
fn has_next(
    rt: &impl Abort,
    blocks: &BlockMap,
    file: FileId,
    from: PageIndex,
    want: Option<(u64, u32)>,
)
    requires file { file.0 < 64 }
    requires from { from.0 ≤ 2 ^ 36 }
{
    let next = blocks.next(file, from);
    same(
        rt,
        next.map(|(page, placed)| (page.0, placed.block.0)),
        want,
    );
}

/// A page of the first file stands on this block, with 100 bytes, or is refused so.
fn adopts(
    rt: &impl Abort,
    blocks: &mut BlockMap,
    page: PageIndex,
    block: BlockNo,
    want: Result<(), Refusal>,
)
    requires { IsPage 0 page.0 }
{
    let none = blocks.map(FileId(0), page).is_none();
    assert!(rt; none);
    let adopted = blocks.adopt(FileId(0), page, block, 100);
    same(rt, adopted, want);
}

fn has_free(rt: &impl Abort, blocks: &BlockMap, want: u64) {
    let count = blocks.free_count();
    same(rt, count, want);
}

fn release(rt: &impl Abort, blocks: &mut BlockMap, block: BlockNo) {
    let is_held = blocks.is_held(block);
    assert!(rt; is_held);
    blocks.release(block);
}

/// Holds the block of a page, where that may be.
fn hold(blocks: &mut BlockMap, file: FileId, page: PageIndex)
    requires { IsPage file.0 page.0 }
{
    let Some(placed) = blocks.map(file, page) else {
        return;
    };
    if blocks.is_held(placed.block) {
        return;
    }
    if blocks.held_count() < 64 {
        blocks.hold(placed.block);
    }
}

#[test]
fn a_held_block_is_free_only_after_its_release(rt: HostRuntime) {
    let mut blocks = BlockMap::new(rt.alloc(), 2);
    gives(&rt, &mut blocks, FileId(0), PageIndex(0), Ok(BlockNo(0)));
    gives(&rt, &mut blocks, FileId(0), PageIndex(5), Ok(BlockNo(1)));
    gives(
        &rt,
        &mut blocks,
        FileId(1),
        PageIndex(0),
        Err(Refusal::NoSpace),
    );
    hold(&mut blocks, FileId(0), PageIndex(0));
    // The cut frees block 1, and block 0 is still held.
    blocks.cut_from(FileId(0), PageIndex(0));
    has_free(&rt, &blocks, 1);
    gives(&rt, &mut blocks, FileId(1), PageIndex(0), Ok(BlockNo(1)));
    gives(
        &rt,
        &mut blocks,
        FileId(1),
        PageIndex(1),
        Err(Refusal::NoSpace),
    );
    release(&rt, &mut blocks, BlockNo(0));
    gives(&rt, &mut blocks, FileId(1), PageIndex(1), Ok(BlockNo(0)));
    takes_back(&rt, &mut blocks, FileId(1), PageIndex(1), Ok(()));
    takes_back(
        &rt,
        &mut blocks,
        FileId(1),
        PageIndex(1),
        Err(Refusal::NoEntry),
    );
    has_free(&rt, &blocks, 1);
}

#[test]
fn a_page_is_told_with_its_block(rt: HostRuntime) {
    let mut blocks = BlockMap::new(rt.alloc(), 3);
    tells(&rt, &blocks, FileId(0), PageIndex(7), None);
    gives(&rt, &mut blocks, FileId(0), PageIndex(7), Ok(BlockNo(0)));
    let fresh = Placed {
        block: BlockNo(0),
        valid: 0,
    };
    tells(&rt, &blocks, FileId(0), PageIndex(7), Some(fresh));
    blocks.set_valid(FileId(0), PageIndex(7), 4096);
    let written = Placed {
        block: BlockNo(0),
        valid: 4096,
    };
    tells(&rt, &blocks, FileId(0), PageIndex(7), Some(written));
}

#[test]
fn the_next_page_with_a_block_is_told(rt: HostRuntime) {
    let mut blocks = BlockMap::new(rt.alloc(), 3);
    let last = PageIndex(68_719_476_735);
    gives(&rt, &mut blocks, FileId(0), last, Ok(BlockNo(0)));
    gives(&rt, &mut blocks, FileId(0), PageIndex(3), Ok(BlockNo(1)));
    gives(&rt, &mut blocks, FileId(1), PageIndex(2), Ok(BlockNo(2)));
    has_next(&rt, &blocks, FileId(0), PageIndex(0), Some((3, 1)));
    has_next(&rt, &blocks, FileId(0), PageIndex(3), Some((3, 1)));
    has_next(&rt, &blocks, FileId(0), PageIndex(4), Some((last.0, 0)));
    // Page 0 of the next file is not behind it.
    let past = PageIndex(68_719_476_736);
    has_next(&rt, &blocks, FileId(0), past, None);
    has_next(&rt, &blocks, FileId(1), PageIndex(0), Some((2, 2)));
    has_next(&rt, &blocks, FileId(2), PageIndex(0), None);
}

#[test]
fn a_block_is_adopted_once(rt: HostRuntime) {
    let mut blocks = BlockMap::new(rt.alloc(), 3);
    adopts(&rt, &mut blocks, PageIndex(0), BlockNo(1), Ok(()));
    let taken = Err(Refusal::NoSpace);
    adopts(&rt, &mut blocks, PageIndex(1), BlockNo(1), taken);
    let past = Err(Refusal::NoSpace);
    adopts(&rt, &mut blocks, PageIndex(1), BlockNo(3), past);
    let part = Placed {
        block: BlockNo(1),
        valid: 100,
    };
    tells(&rt, &blocks, FileId(0), PageIndex(0), Some(part));
    // the lowest free blocks are given out around it
    gives(&rt, &mut blocks, FileId(0), PageIndex(1), Ok(BlockNo(0)));
    gives(&rt, &mut blocks, FileId(0), PageIndex(2), Ok(BlockNo(2)));
    has_free(&rt, &blocks, 0);
}

#[test]
fn the_last_page_of_the_last_file_is_cut(rt: HostRuntime) {
    let mut blocks = BlockMap::new(rt.alloc(), 1);
    let last = PageIndex(68_719_476_735);
    gives(&rt, &mut blocks, FileId(63), last, Ok(BlockNo(0)));
    // No page is past the last.
    blocks.cut_from(FileId(63), PageIndex(68_719_476_736));
    has_free(&rt, &blocks, 0);
    blocks.cut_from(FileId(63), last);
    has_free(&rt, &blocks, 1);
}

/// A page, and the block that it gets.
#[derive(Clone, Copy)]
struct Given {
    file: u64,
    page: u64,
    block: u32,
}

/// On both sides of 2^18, 2^24 and 2^30, where the keys of all blocks grow wider, of 2^12, and the last page of all.
fn rows() -> [Given; 11] {
    [
        row(0, 4_095, 0),
        row(63, 0, 1),
        row(1, 4_096, 2),
        row(63, 262_143, 3),
        row(0, 262_144, 4),
        row(0, 16_777_215, 5),
        row(1, 16_777_216, 6),
        row(63, 1_073_741_823, 7),
        row(0, 1_073_741_824, 8),
        row(63, 68_719_476_735, 9),
        row(1, 4_095, 10),
    ]
}

fn row(file: u64, page: u64, block: u32) -> Given {
    Given { file, page, block }
}

/// The pages of these rows have their blocks.
fn tells_rows(rt: &impl Abort, blocks: &BlockMap, rows: &[Given]) {
    for row in rows {
        assert!(rt; row.file < 64 && row.page < 1 << 36);
        let fresh = Placed {
            block: BlockNo(row.block),
            valid: 0,
        };
        tells(
            rt,
            blocks,
            FileId(row.file),
            PageIndex(row.page),
            Some(fresh),
        );
    }
}

/// The pages of these rows have no blocks.
fn tells_none(rt: &impl Abort, blocks: &BlockMap, rows: &[Given]) {
    for row in rows {
        assert!(rt; row.file < 64 && row.page < 1 << 36);
        tells(rt, blocks, FileId(row.file), PageIndex(row.page), None);
    }
}

/// The page of the row at a number gets its block, and the rows before it have theirs. Where memory is refused, as `rt try` can do,
/// the call has changed nothing, and a second one goes well.
fn gives_row(rt: &impl Abort, blocks: &mut BlockMap, rows: &[Given], at: usize) {
    assert!(rt; at < rows.len());
    let (done, rest) = rows.split_at(at);
    let row = &rows[at];
    assert!(rt; row.file < 64 && row.page < 1 << 36);
    let (file, page) = (FileId(row.file), PageIndex(row.page));
    let none = blocks.map(file, page).is_none();
    assert!(rt; none);
    let free = blocks.free_count();
    let given = blocks.assign(file, page);
    if given == Err(Refusal::Memory) {
        has_free(rt, blocks, free);
        tells_rows(rt, blocks, done);
        tells_none(rt, blocks, rest);
        gives(rt, blocks, file, page, Ok(BlockNo(row.block)));
        return;
    }
    same(rt, given, Ok(BlockNo(row.block)));
}

#[test]
fn blocks_stay_while_the_keys_grow_wider(rt: HostRuntime) {
    let mut blocks = BlockMap::new(rt.alloc(), 11);
    let rows = rows();
    for at in 0..rows.len() {
        gives_row(&rt, &mut blocks, &rows, at);
        let (done, rest) = rows.split_at(at + 1);
        tells_rows(&rt, &blocks, done);
        tells_none(&rt, &blocks, rest);
    }
    has_free(&rt, &blocks, 0);
    has_next(&rt, &blocks, FileId(0), PageIndex(0), Some((4_095, 0)));
    has_next(
        &rt,
        &blocks,
        FileId(0),
        PageIndex(4_096),
        Some((262_144, 4)),
    );
    has_next(
        &rt,
        &blocks,
        FileId(1),
        PageIndex(4_097),
        Some((16_777_216, 6)),
    );
    blocks.cut_from(FileId(0), PageIndex(262_144));
    has_free(&rt, &blocks, 3);
    has_next(&rt, &blocks, FileId(0), PageIndex(4_096), None);
    has_next(&rt, &blocks, FileId(63), PageIndex(1), Some((262_143, 3)));
}

#[test]
fn a_page_past_the_keys_has_no_block(rt: HostRuntime) {
    let mut blocks = BlockMap::new(rt.alloc(), 2);
    gives(&rt, &mut blocks, FileId(1), PageIndex(0), Ok(BlockNo(0)));
    // In narrow keys this would be page 0 of the next file.
    let past = PageIndex(262_144);
    tells(&rt, &blocks, FileId(0), past, None);
    has_next(&rt, &blocks, FileId(0), past, None);
    takes_back(&rt, &mut blocks, FileId(0), past, Err(Refusal::NoEntry));
    blocks.set_valid(FileId(0), past, 4_096);
    blocks.cut_from(FileId(0), PageIndex(262_143));
    has_free(&rt, &blocks, 1);
    let fresh = Placed {
        block: BlockNo(0),
        valid: 0,
    };
    tells(&rt, &blocks, FileId(1), PageIndex(0), Some(fresh));
}
