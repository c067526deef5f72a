//! Blocks and frames for the pages of a write.

ghost use Rattle.std.specs.Prelude.{◌≡◌, ◌+◌, ◌-◌, ◌/◌, ◌<◌, ◌≤◌, ◌⊎◌, OnOk, OnErr, length, not, is_some, count_by, nat_lt};
ghost use Rattle.std.specs.List.{range_with_len};
ghost use Rattle.mapping.specs.declared.mapping.TheConstants.{MAX_PAGES};
ghost use Rattle.blockmap.specs.Blocks.{free_blocks};
ghost use Rattle.cachecore.specs.Placing.{HasBare, is_bare, with_placed};
ghost use Rattle.pagestore.specs.Ranges.{AreFlags, AreSized, AreWritten, HasAbsent};
ghost use Rattle.pagestore.specs.Store.{stored_at, stored_page, NoneAwaited};

use blockmap::BlockMap;
use pagestore::{Pages, Span, has_more};
use pc_types::limits::{MAX_FILE_SIZE, MAX_FILES, MAX_PAGE_SIZE};
use pc_types::{FileId, PageIndex};
use std::alloc::AllocError;

/// Whether fewer blocks are free than pages from `first` up to `end` have none. It looks up no more pages than tell.
pub fn lacks_blocks(blocks: &BlockMap, file: u64, first: u64, end: u64) -> bool
    requires file { file < MAX_FILES }
    requires order { first ≤ end }
    requires below { end ≤ MAX_PAGES }
    ensures { result ≡ nat_lt (length (free_blocks blocks.now)) (count_by (is_bare blocks.now file) (range_with_len first (end - first))) }
{
    has_more(first, end, blocks.free_count(), |page| {
        blocks.map(FileId(file), PageIndex(page)).is_none()
    })
}

/// Gives each page of the span from `next` on that has no block the lowest free one, and then writes the bytes into the span's
/// pages, by their flags. Where memory is refused, what was given is taken back, the last first. It calls itself once a page: at most
/// 16 times in a call of the cache (no clause says so). Decision 69.
pub fn place(
    pages: &mut Pages,
    blocks: &mut BlockMap,
    span: Span,
    bytes: &[u8],
    cached: &[bool],
    next: u64,
) -> Result<(), AllocError>
    requires file { span.file < MAX_FILES }
    requires here { span.file < length pages.old.files }
    requires size { span.page_size ≡ pages.old.page }
    requires positive { 0 < span.page_size }
    requires small { span.page_size ≤ MAX_PAGE_SIZE }
    requires some { 0 < length bytes.now }
    requires bound { span.offset + length bytes.now ≤ MAX_FILE_SIZE }
    requires from { span.offset / span.page_size ≤ span.first }
    requires begun { span.first ≤ next }
    requires order { next ≤ span.end }
    requires to { span.end ≤ (span.offset + length bytes.now - 1) / span.page_size + 1 }
    requires below { span.end ≤ MAX_PAGES }
    requires sized { AreSized span.page_size (stored_at pages.old span.file).pages }
    requires idle { NoneAwaited span.file span.first span.end pages.old }
    requires flags { AreFlags cached.now pages.old.files span.file span.first span.end }
    requires frames { count_by (λ p. not (is_some (stored_page pages.old span.file p))) (range_with_len span.first (span.end - span.first)) ≤ pages.old.free }
    requires room { count_by (is_bare blocks.old span.file) (range_with_len next (span.end - next)) ≤ length (free_blocks blocks.old) }
    ensures placed { OnOk result (blocks.new ≡ with_placed blocks.old span.file (range_with_len next (span.end - next))) }
    ensures written { OnOk result (AreWritten span.page_size span.file span.offset bytes.now span.first span.end pages.old pages.new) }
    ensures not_placed { OnErr result (blocks.new ≡ blocks.old) }
    ensures not_written { OnErr result (pages.new ≡ pages.old) }
    ensures wanting { OnErr result (HasAbsent span.file span.first span.end pages.old ⊎ HasBare span.file next span.end blocks.old) }
{
    if next == span.end {
        return pages.write(span, bytes, cached, span.first);
    }
    let file = FileId(span.file);
    let page = PageIndex(next);
    if blocks.map(file, page).is_some() {
        return place(pages, blocks, span, bytes, cached, next + 1);
    }
    if blocks.assign(file, page).is_err() {
        return Err(AllocError);
    }
    let rest = place(pages, blocks, span, bytes, cached, next + 1);
    if rest.is_err() {
        let _ = blocks.unassign(file, page);
    }
    rest
}
