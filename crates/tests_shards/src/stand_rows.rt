//! Where the files of a shard stand on its device, as it is told and as the device has it.

ghost use Rattle.std.specs.Prelude.{◌<◌, All};
ghost use Rattle.shared.specs.ShardSeats.{AreSeated};

use crate::byte_rows::TEXT;
use crate::caller::{Caller, Opened, Tested};
use crate::close_rows::{Left, Own, are_plain, closes};
use crate::sources::SHARDS;
use blockdev::{BlockDevice, ScriptDevice};
use cachecore::Placed;
use catalog::Catalog;
use pc_types::{BlockNo, FileId, PageIndex, Refusal};
use shared::shards::naming::ShardNaming;
use shared::shards::seat::ShardSeat;
use std::alloc::Global;
use std::mem::drop;
use std::sync::Wait;

/// A file is written and synced in each shard. It is told where it stands, and it stands there when the cache is closed.
pub(crate) fn stands<'a, B: ShardNaming, R: Wait>(
    rt: &R,
    alloc: Global,
    cache: Tested<'a, B>,
    own: Own<B>,
    mut seats: Vec<ShardSeat>,
) -> bool
    requires { All (AreSeated B.names) seats.items }
{
    let Some(mut caller) = Caller::last_of(&mut seats) else {
        return false;
    };
    let first = stands_in(rt, &cache, &mut caller, 0);
    let second = stands_in(rt, &cache, &mut caller, 1);
    let third = stands_in(rt, &cache, &mut caller, 2);
    let is_none = is_nowhere(rt, &cache, &mut caller);
    let is_back = caller.comes_back(&mut seats);
    let (Some(first), Some(second), Some(third)) = (first, second, third) else {
        return false;
    };
    let Some(left) = closes(rt, cache, own, seats) else {
        return false;
    };
    let blocks = (first, second, third);
    let is_so = is_none && is_back && are_plain(alloc, &left) && have_pages(&left, blocks);
    drop(left);
    is_so
}

/// Writes the text with the shard's number in the place of its first byte, and syncs that. Answers where the first page stands, if all is
/// told as it is.
fn stands_in<B: ShardNaming, R: Wait>(
    rt: &R,
    cache: &Tested<'_, B>,
    caller: &mut Caller<B>,
    shard: u8,
) -> Option<BlockNo> {
    let mut file = caller.makes(rt, cache, u64::from(shard))?;
    caller.writes(rt, cache, &file, 0, TEXT)?;
    caller.writes(rt, cache, &file, 0, &[shard])?;
    let number = cache.file_of(&file.handle);
    let is_part_synced = syncs_a_page(rt, cache, caller, &mut file);
    let is_synced = caller.syncs(rt, cache, &mut file);
    let first = at(rt, cache, caller, number, 0)?;
    let second = at(rt, cache, caller, number, 1)?;
    let third = at(rt, cache, caller, number, 2)?;
    let are_apart = first.block != second.block && second.block != third.block;
    let is_placed = (first.valid, second.valid, third.valid) == (16, 16, 16);
    let is_end = at(rt, cache, caller, number, 3).is_none();
    let catalog = cache.catalog(rt, &mut caller.seat, u64::from(shard)).ok()?;
    let is_listed = lists(&catalog, first.block);
    (is_part_synced && is_synced && are_apart && is_placed && is_end && is_listed).then_some(
        first.block,
    )
}

/// Syncs the first page alone: the next one has no valid byte on the device yet.
fn syncs_a_page<B: ShardNaming, R: Wait>(
    rt: &R,
    cache: &Tested<'_, B>,
    caller: &mut Caller<B>,
    file: &mut Opened<B>,
) -> bool {
    let page = PageIndex(0);
    let number = cache.file_of(&file.handle);
    let synced = cache.fsync_range(rt, &mut caller.seat, &mut file.handle, page, page);
    let first = at(rt, cache, caller, number, 0);
    let second = at(rt, cache, caller, number, 1);
    synced.is_ok()
        && matches!(first, Some(Placed { valid: 16, .. }))
        && !matches!(second, Some(Placed { valid: 1.., .. }))
}

/// Where the page of the file stands.
fn at<B: ShardNaming, R: Wait>(
    rt: &R,
    cache: &Tested<'_, B>,
    caller: &mut Caller<B>,
    file: FileId,
    page: u64,
) -> Option<Placed> {
    cache
        .block_of(rt, &mut caller.seat, file, PageIndex(page))
        .ok()?
}

/// Whether the catalog has one file, as long as the text, which begins at this block and has no holes.
fn lists(catalog: &Catalog, first: BlockNo) -> bool {
    let own = FileId(0);
    let Some(extent) = catalog.next_extent(own, PageIndex(0)) else {
        return false;
    };
    let mut bytes = 0u64;
    for page in 0..3 {
        if let Some(next) = catalog.next_extent(own, PageIndex(page)) {
            bytes = bytes.max(next.bytes.saturating_add(next.first.0.saturating_mul(16)));
        }
    }
    catalog.file_count() == 1
        && catalog.size(own) == TEXT.len() as u64
        && extent.first == PageIndex(0)
        && extent.block == first
        && bytes == TEXT.len() as u64
}

/// Whether a file that no shard has stands nowhere, and a shard that is not there lists no files.
fn is_nowhere<B: ShardNaming, R: Wait>(
    rt: &R,
    cache: &Tested<'_, B>,
    caller: &mut Caller<B>,
) -> bool {
    let seat = &mut caller.seat;
    let none = cache.block_of(rt, seat, FileId(SHARDS), PageIndex(0));
    let listed = cache.catalog(rt, seat, SHARDS);
    none == Err(Refusal::NoSuchFile) && matches!(listed, Err(Refusal::Stranger))
}

/// Whether each device has its shard's first page at the shard's block.
fn have_pages(left: &[Left<'_>], blocks: (BlockNo, BlockNo, BlockNo)) -> bool {
    let (Some(first), Some(second), Some(third)) = (left.get(0), left.get(1), left.get(2)) else {
        return false;
    };
    left.len() == 3
        && has_page(&first.device, blocks.0, 0)
        && has_page(&second.device, blocks.1, 1)
        && has_page(&third.device, blocks.2, 2)
}

/// Whether the block has the text's first page, with the shard's number in the place of its first byte.
fn has_page(device: &ScriptDevice, block: BlockNo, shard: u8) -> bool {
    if u64::from(block.0) >= device.blocks() {
        return false;
    }
    let bytes = device.bytes(block);
    bytes.first() == Some(&shard) && bytes.ends_with(b"123456789abcdef")
}
