//! Which page is written next, and the tags of a page that is.

ghost use Rattle.std.specs.Prelude.{◌≡◌, ◌<◌, IfSome, false, option_map};
ghost use Rattle.std.specs.FinMap as map;
ghost use Rattle.pc_types.specs.TagBits.{tag_set};
ghost use Rattle.mapping.specs.Pages.{found, seen, with_tags};
ghost use Rattle.maps.specs.Maps.{change_at, each_value};
ghost use Rattle.machine.specs.PageTags.{under_write};
ghost use Rattle.writeback.specs.Picks.{StartsBelow, after_write, flush_pick, picked, sync_pick, sync_step, to_write, waits, written_through};
ghost use Rattle.writeback.specs.Slots.{sync_of};

use crate::requests::Requests;
use crate::syncs::Progress;
use mapping::{FoundPage, MAX_PAGES, MappedPage, Mapping};
use pc_types::{FileId, PageIndex, Serial, Tag, Tags};

/// What a sync does next.
#[derive(Clone, Copy, PartialEq, Eq, Debug)]
pub enum SyncStep {
    /// It starts this page.
    Start(FoundPage),
    /// A write of this page, which it has left to start, is in flight, and it waits for that. What is then in the page
    /// is written anew: the write in flight may have older bytes.
    Held(PageIndex),
    /// It has nothing to start any more. From now on it has this bound, and it waits for the flush of this page.
    Await(PageIndex, Serial),
    /// It has nothing to start and nothing to wait for.
    Over,
}

/// The lowest page that is DIRTY and has no write in flight.
pub fn flush_pick(mapping: &Mapping) -> Option<FoundPage>
    ensures pick { result ≡ option_map found (flush_pick mapping.now.pages) }
    ensures numbered { IfSome result (λ found. found.page.0 < MAX_PAGES) }
{
    let mut from = PageIndex(0);
    while let Some(found) = mapping.find_tagged(from, PageIndex(MAX_PAGES), Tag::Dirty) {
        if !mapping.has_tag(found.page, Tag::Writeback) {
            return Some(found);
        }
        from = PageIndex(found.page.0 + 1);
    }
    None
}

/// Tags each DIRTY page from `first` to `last` with TOWRITE, before the sync that begins starts any write. Pages that are
/// made DIRTY later do not prolong the sync. The cost is that of the DIRTY pages (not proved).
pub fn sync_begin(mapping: &mut Mapping, first: PageIndex, last: PageIndex)
    ensures { mapping.new ≡ record mapping.old { pages = each_value (to_write first.0 last.0) mapping.old.pages } }
{
    mapping.retag(first, last, Tag::Dirty, Tag::Towrite);
}

/// The lowest page that a sync has left to start.
pub fn sync_pick(mapping: &Mapping, progress: &Progress) -> Option<FoundPage>
    ensures pick { result ≡ option_map found (sync_pick mapping.now.pages (sync_of progress.now)) }
    ensures numbered { IfSome result (λ found. found.page.0 < MAX_PAGES) }
{
    mapping.find_tagged(progress.cursor(), progress.last, Tag::Towrite)
}

/// What a sync of `file` does next. It changes nothing: the caller makes the step.
pub fn sync_step(
    mapping: &Mapping,
    requests: &Requests,
    file: FileId,
    progress: &Progress,
) -> SyncStep
    ensures step { result ≡ sync_step file.0 mapping.now.pages requests.now (sync_of progress.now) }
    ensures numbered { StartsBelow MAX_PAGES result }
{
    match progress.bound {
        Some(bound) => waits(requests, file, progress, bound),
        None => picked(mapping, requests, file, progress),
    }
}

/// A write of the page begins: it loses DIRTY and TOWRITE and gets WRITEBACK. Answers the page as it was. If no page is cached
/// nothing is done.
///
/// TOWRITE goes here and in `write_through` alone (rule 7 of docs/DESIGN.md): whoever starts a page's write clears it. So a sync whose page
/// another flusher started finds the tag no more, and waits for that write by its bound.
pub fn begin_write(mapping: &mut Mapping, page: PageIndex) -> Option<MappedPage>
    ensures tags { mapping.new ≡ record mapping.old { pages = change_at page.0 (with_tags under_write) mapping.old.pages } }
    ensures before { option_map seen result ≡ map.get mapping.old.pages page.0 }
{
    let set = Tags::none().with(Tag::Writeback);
    let clear = set.with(Tag::Dirty).with(Tag::Towrite);
    mapping.change_tags(page, clear, set)
}

/// A write of the page ended: it loses WRITEBACK, and is DIRTY again if the write failed. Answers the page as it was. A page left
/// clean here is the second fsync that lies (rule 9 of docs/DESIGN.md).
pub fn end_write(mapping: &mut Mapping, page: PageIndex, failed: bool) -> Option<MappedPage>
    ensures tags { mapping.new ≡ record mapping.old { pages = change_at page.0 (after_write failed) mapping.old.pages } }
    ensures before { option_map seen result ≡ map.get mapping.old.pages page.0 }
{
    let clear = Tags::none().with(Tag::Writeback);
    mapping.change_tags(page, clear, dirty_if(failed))
}

/// A write of the page that began and ended in one: it loses TOWRITE, and DIRTY too unless the write failed. Answers the page as it was.
pub fn write_through(mapping: &mut Mapping, page: PageIndex, failed: bool) -> Option<MappedPage>
    ensures tags { mapping.new ≡ record mapping.old { pages = change_at page.0 (written_through failed) mapping.old.pages } }
    ensures before { option_map seen result ≡ map.get mapping.old.pages page.0 }
{
    let all = Tags::none()
        .with(Tag::Dirty)
        .with(Tag::Writeback)
        .with(Tag::Towrite);
    mapping.change_tags(page, all, dirty_if(failed))
}

fn dirty_if(failed: bool) -> Tags
    ensures { tag_set result ≡ record { dirty = failed; writeback = false; towrite = false } }
{
    if failed {
        Tags::none().with(Tag::Dirty)
    } else {
        Tags::none()
    }
}

/// A sync that has nothing to start, with this bound.
fn waits(requests: &Requests, file: FileId, progress: &Progress, bound: Serial) -> SyncStep
    ensures step { result ≡ waits file.0 (sync_of progress.now) bound.0 requests.now }
    ensures numbered { StartsBelow MAX_PAGES result }
{
    match requests.first_awaited(file, progress, bound) {
        Some((_, page)) => SyncStep::Await(page, bound),
        None => SyncStep::Over,
    }
}

/// A sync that may have pages left to start.
fn picked(mapping: &Mapping, requests: &Requests, file: FileId, progress: &Progress) -> SyncStep
    ensures step { result ≡ picked file.0 (sync_of progress.now) requests.now (sync_pick mapping.now.pages (sync_of progress.now)) }
    ensures numbered { StartsBelow MAX_PAGES result }
{
    match sync_pick(mapping, progress) {
        Some(found) => {
            if mapping.has_tag(found.page, Tag::Writeback) {
                SyncStep::Held(found.page)
            } else {
                SyncStep::Start(found)
            }
        }
        None => waits(requests, file, progress, requests.next_serial()),
    }
}
