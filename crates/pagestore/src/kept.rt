//! A file as the pages' store keeps it.

ghost use Rattle.std.specs.Prelude.{◌≡◌, ◌-◌, ◌≤◌, ◌^◌, false, nat_lt, not, slice_index_or, count_by};
ghost use Rattle.std.specs.List.{range_with_len};
ghost use Rattle.std.specs.FinMap as map;
ghost use Rattle.pc_types.specs.declared.tags.Tag.TheVariants.{Dirty};
ghost use Rattle.mapping.specs.Pages.{frame_of, has_at};
ghost use Rattle.pc_types.specs.TagBits.{tag_set};
ghost use Rattle.pagestore.specs.Store.{awaits, none_kept, has_page, is_untagged, is_idle_entry};

use crate::counts::has_more;
use frames::Frames;
use mapping::Mapping;
use pc_types::{FrameId, PageIndex, Tag, Tags};
use std::alloc::Global;

/// A file's pages, how many writes of it failed, and the code of the last.
#[derive(Drop)]
pub struct KeptFile {
    pub mapping: Mapping,
    pub failures: u64,
    pub last_code: u64,
}

impl KeptFile {
    /// A file without bytes.
    pub fn new(alloc: Global) -> KeptFile
        ensures { result ≡ none_kept }
    {
        KeptFile {
            mapping: Mapping::new(alloc),
            failures: 0,
            last_code: 0,
        }
    }

    /// Whether the page has an entry, and its frame has the page's bytes.
    pub fn is_cached(&self, uptodate: &[bool], page: u64) -> bool
        ensures { result ≡ has_page uptodate.now (map.get self.now.mapping.pages page) }
    {
        match self.mapping.frame(PageIndex(page)) {
            Some(frame) => is_uptodate(uptodate, frame),
            None => false,
        }
    }

    /// Whether the page has an entry, and its frame waits for the page's bytes.
    pub fn is_awaited(&self, uptodate: &[bool], page: u64) -> bool
        ensures { result ≡ awaits uptodate.now (map.get self.now.mapping.pages page) }
    {
        match self.mapping.frame(PageIndex(page)) {
            Some(frame) => !is_uptodate(uptodate, frame),
            None => false,
        }
    }

    /// Whether the page is cached and has no tag. A page that is filling has none either.
    pub fn is_idle(&self, uptodate: &[bool], page: u64) -> bool
        ensures { result ≡ is_idle_entry uptodate.now (map.get self.now.mapping.pages page) }
    {
        match self.mapping.page(PageIndex(page)) {
            Some(mapped) => is_uptodate(uptodate, mapped.frame) && has_no_tag(mapped.tags),
            None => false,
        }
    }

    pub fn is_dirty(&self, page: u64) -> bool
        ensures { result ≡ has_at self.now.mapping.pages page Dirty }
    {
        self.mapping.has_tag(PageIndex(page), Tag::Dirty)
    }

    /// Whether more than `room` pages from `first` up to `end` are not DIRTY.
    pub fn has_more_clean(&self, first: u64, end: u64, room: u64) -> bool
        requires { first ≤ end }
        ensures { result ≡ nat_lt room (count_by (λ p. not (has_at self.now.mapping.pages p Dirty)) (range_with_len first (end - first))) }
    {
        has_more(first, end, room, |page| !self.is_dirty(page))
    }
}

fn has_no_tag(tags: Tags) -> bool
    ensures { result ≡ is_untagged (tag_set tags) }
{
    !tags.has(Tag::Dirty) && !tags.has(Tag::Writeback) && !tags.has(Tag::Towrite)
}

/// Whether a frame has its page's bytes, by the flags of all frames.
pub fn is_uptodate(uptodate: &[bool], frame: FrameId) -> bool
    ensures { result ≡ slice_index_or uptodate.now frame.0 false }
{
    let at = frame.0 as usize;
    at < uptodate.len() && uptodate[at]
}
