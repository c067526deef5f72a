//! One file's size and its cached pages, over a marked array.

ghost use Rattle.std.specs.Prelude.{◌≡◌, ◌+◌, ◌≤◌, ◌<◌, ◌^◌, ◌↔◌, true, false, nat_le, Some, None, Err, IfErr, IfSome, OnOk, OnErr, IsOk, IsOkUnless, IsSome, option_map};
ghost use Rattle.std.specs.FinMap as map;
ghost use Rattle.pc_types.specs.TagBits.{tag_set};
ghost use Rattle.maps.specs.Maps.{change_at};
ghost use Rattle.mapping.specs.Pages.{IsNumbered, seen, frame_of, has_at, untagged, with_tag, with_tags, with_tags_after, is_tagged, lowest, count, totals_of, tag_each};

use crate::entry::{found_page, mapped_page, mark_of, marks_from, tags_from};
use crate::page::{FoundPage, MappedPage};
use crate::totals::Totals;
use pc_types::limits::{MAX_FILE_SIZE, MIN_PAGE_SIZE};
use pc_types::{FrameId, PageIndex, Refusal, Tag, Tags};
use std::alloc::Global;
use std::marker::Model;
use xarray::XArray;

/// How many pages a file has at most: those of the largest file, at the least page size.
pub const MAX_PAGES: u64 = MAX_FILE_SIZE / MIN_PAGE_SIZE;

/// One file's size and its cached pages.
#[derive(Drop)]
pub struct Mapping {
    /// The frame of each page, with its tags as marks.
    pages: XArray,
    /// How many entries the array has. At most `MAX_PAGES`, so a sum never overflows.
    page_count: u64,
    /// How many entries have each mark: each change of a mark is entered here.
    totals: Totals,
    size: u64,
}

impl Model for Mapping {
    ghost use Rattle.mapping.specs.Pages.{FilePages, file_code};

    ghost Value = { FilePages };

    ghost coded = { file_code };

    ghost use Rattle.mapping.specs.View.{pages_of, IsCounted};

    ghost view = { λ a. record { size = a.size; pages = pages_of a.pages.ranges } };

    ghost invariant = { λ a. IsCounted a.pages.ranges a.page_count a.totals };
}

impl Mapping {
    /// A file of size 0 without pages.
    pub fn new(alloc: Global) -> Mapping
        ensures { result ≡ record { size = 0; pages = map.empty } }
    {
        Mapping {
            pages: XArray::new(alloc),
            page_count: 0,
            totals: Totals::zero(),
            size: 0,
        }
    }

    /// The file's size in bytes.
    pub fn size(&self) -> u64
        ensures { result ≡ self.now.size }
    {
        self.size
    }

    /// Only notes the size: pages past it stay.
    pub fn set_size(&mut self, size: u64)
        ensures { self.new ≡ record self.old { size = size } }
    {
        self.size = size;
    }

    /// The page at an index, where one is cached.
    pub fn page(&self, index: PageIndex) -> Option<MappedPage>
        ensures { option_map seen result ≡ map.get self.now.pages index.0 }
    {
        let entry = self.pages.load_with_marks(index.0)?;
        Some(mapped_page(entry))
    }

    /// The frame of the page at an index, where one is cached. It asks for no tags.
    #[inline(always)]
    pub fn frame(&self, index: PageIndex) -> Option<FrameId>
        ensures { result ≡ option_map frame_of (map.get self.now.pages index.0) }
    {
        let frame = self.pages.load(index.0)? as u32;
        Some(FrameId(frame))
    }

    /// The frame of the page at an index, where one is cached and has the tag. It takes one walk too.
    #[inline(always)]
    pub fn tagged_frame(&self, index: PageIndex, tag: Tag) -> Option<FrameId>
        ensures tagged { has_at self.now.pages index.0 tag ≡ true → result ≡ option_map frame_of (map.get self.now.pages index.0) }
        ensures untagged { has_at self.now.pages index.0 tag ≡ false → result ≡ None }
    {
        let frame = self.pages.load_marked(index.0, mark_of(tag))? as u32;
        Some(FrameId(frame))
    }

    /// Caches a page without tags.
    pub fn insert_page(&mut self, index: PageIndex, frame: FrameId) -> Result<(), Refusal>
        requires { index.0 < MAX_PAGES }
        ensures busy { IsSome (map.get self.old.pages index.0) → result ≡ Err Refusal.Busy }
        ensures memory { map.get self.old.pages index.0 ≡ None → IfErr result (λ refusal. refusal ≡ Refusal.Memory) }
        ensures done { OnOk result (self.new ≡ record self.old { pages = map.insert self.old.pages index.0 (untagged frame.0) }) }
        ensures same { OnErr result (self.new ≡ self.old) }
    {
        self.pages.insert(index.0, frame.0 as u64)?;
        self.page_count += 1;
        Ok(())
    }

    /// Drops a page with its tags, and answers its frame. Takes no memory, so that an insert can always be taken back.
    pub fn remove_page(&mut self, index: PageIndex) -> Option<FrameId>
        ensures frame { result ≡ option_map frame_of (map.get self.old.pages index.0) }
        ensures gone { self.new ≡ record self.old { pages = map.remove self.old.pages index.0 } }
    {
        let page = self.take_page(index)?;
        Some(page.frame)
    }

    /// Drops a page as `remove_page` does, and answers it as it was: one walk.
    pub fn take_page(&mut self, index: PageIndex) -> Option<MappedPage>
        ensures page { option_map seen result ≡ map.get self.old.pages index.0 }
        ensures gone { self.new ≡ record self.old { pages = map.remove self.old.pages index.0 } }
    {
        let entry = self.pages.take(index.0)?;
        let page = mapped_page(entry);
        self.page_count -= 1;
        self.totals.forget(page.tags);
        Some(page)
    }

    /// Whether a page is cached at the index and has the tag.
    pub fn has_tag(&self, index: PageIndex, tag: Tag) -> bool
        ensures { result ≡ has_at self.now.pages index.0 tag }
    {
        self.pages.get_mark(index.0, mark_of(tag))
    }

    /// Tags a page. Takes no memory.
    pub fn tag(&mut self, index: PageIndex, tag: Tag) -> Result<(), Refusal>
        ensures cached { IsOk result ↔ IsSome (map.get self.old.pages index.0) }
        ensures refused { IsOkUnless result Refusal.NoEntry }
        ensures tagged { self.new ≡ record self.old { pages = change_at index.0 (with_tag tag true) self.old.pages } }
    {
        let Some(was) = self.pages.swap_mark(index.0, mark_of(tag), true) else {
            return Err(Refusal::NoEntry);
        };
        if !was {
            self.totals.raise(tag);
        }
        Ok(())
    }

    /// Takes a tag off a page. Where no page is cached nothing is done.
    pub fn untag(&mut self, index: PageIndex, tag: Tag)
        ensures { self.new ≡ record self.old { pages = change_at index.0 (with_tag tag false) self.old.pages } }
    {
        let was = self.pages.swap_mark(index.0, mark_of(tag), false);
        if was.unwrap_or(false) {
            self.totals.lower(tag);
        }
    }

    /// Gives a page these tags and no others. Takes no memory.
    pub fn set_tags(&mut self, index: PageIndex, tags: Tags) -> Result<(), Refusal>
        ensures cached { IsOk result ↔ IsSome (map.get self.old.pages index.0) }
        ensures refused { IsOkUnless result Refusal.NoEntry }
        ensures tagged { self.new ≡ record self.old { pages = change_at index.0 (with_tags (tag_set tags)) self.old.pages } }
    {
        let Some(were) = self.pages.swap_marks(index.0, marks_from(tags)) else {
            return Err(Refusal::NoEntry);
        };
        self.totals.exchange(tags_from(were), tags);
        Ok(())
    }

    /// Takes the tags `clear` off a page and gives it the tags `set`, and answers it as it was: one walk. Takes no memory (decision 48).
    pub fn change_tags(&mut self, index: PageIndex, clear: Tags, set: Tags) -> Option<MappedPage>
        ensures page { option_map seen result ≡ map.get self.old.pages index.0 }
        ensures tagged { self.new ≡ record self.old { pages = change_at index.0 (with_tags_after (tag_set clear) (tag_set set)) self.old.pages } }
    {
        let cleared = marks_from(clear);
        let given = marks_from(set);
        let entry = self.pages.change_marks(index.0, cleared, given)?;
        let page = mapped_page(entry);
        let tags = tags_from(entry.marks.after(cleared, given));
        self.totals.exchange(page.tags, tags);
        Some(page)
    }

    /// Tags a page as `tag` does, and answers it as it was: one walk. Takes no memory.
    pub fn tag_page(&mut self, index: PageIndex, tag: Tag) -> Option<MappedPage>
        ensures page { option_map seen result ≡ map.get self.old.pages index.0 }
        ensures tagged { self.new ≡ record self.old { pages = change_at index.0 (with_tag tag true) self.old.pages } }
    {
        let empty = Tags::none();
        self.change_tags(index, empty, empty.with(tag))
    }

    /// Sets or takes off a tag of a page. Where no page is cached nothing is done.
    fn put_tag(&mut self, index: PageIndex, tag: Tag, is: bool)
        ensures { self.new ≡ record self.old { pages = change_at index.0 (with_tag tag is) self.old.pages } }
    {
        if is {
            let _ = self.tag(index, tag);
        } else {
            self.untag(index, tag);
        }
    }

    /// The lowest page from `from` on.
    pub fn find_page(&self, from: PageIndex) -> Option<FoundPage>
        ensures lowest { result ≡ lowest (λ e. nat_le from.0 e.0) self.now.pages }
        ensures numbered { IfSome result (λ found. found.page.0 < MAX_PAGES) }
    {
        let found = self.pages.find(from.0, u64::MAX)?;
        Some(found_page(found))
    }

    /// The lowest page with the tag from `from` to `to`.
    pub fn find_tagged(&self, from: PageIndex, to: PageIndex, tag: Tag) -> Option<FoundPage>
        ensures lowest { result ≡ lowest (is_tagged tag from.0 to.0) self.now.pages }
        ensures numbered { IfSome result (λ found. found.page.0 < MAX_PAGES) }
        ensures below { IsNumbered self.now.pages }
    {
        let found = self.pages.find_marked(from.0, to.0, mark_of(tag))?;
        Some(found_page(found))
    }

    /// Tags each page that has `tag` from `from` to `to` with `other` too, and answers how many pages these are.
    ///
    /// The array's own `retag` would not tell how many of them are new, and the total of `other` rises by those alone (decision 50).
    pub fn retag(&mut self, from: PageIndex, to: PageIndex, tag: Tag, other: Tag) -> u64
        ensures count { result ≡ count (is_tagged tag from.0 to.0) self.old.pages }
        ensures retagged { self.new ≡ record self.old { pages = tag_each (is_tagged tag from.0 to.0) other self.old.pages } }
        ensures below { IsNumbered self.old.pages }
    {
        let mut next = from;
        let mut tagged = 0;
        while let Some(found) = self.find_tagged(next, to, tag) {
            self.put_tag(found.page, other, true);
            tagged += 1;
            next = PageIndex(found.page.0 + 1);
        }
        tagged
    }

    /// How many pages are cached.
    pub fn page_count(&self) -> u64
        ensures pages { result ≡ map.len self.now.pages }
        ensures most { result ≤ MAX_PAGES }
        ensures below { IsNumbered self.now.pages }
    {
        self.page_count
    }

    /// How many pages have each tag.
    pub fn totals(&self) -> Totals
        ensures { result ≡ totals_of self.now.pages }
    {
        self.totals
    }
}
