//! A page as an entry of a marked array: the value is the frame, and the marks are the tags.

ghost use Rattle.std.specs.Prelude.{◌≡◌, ◌<◌, ◌^◌};
ghost use Rattle.pc_types.specs.TagBits.{tag_set};
ghost use Rattle.pc_types.specs.Tags.{put};
ghost use Rattle.mapping.specs.Pages.{seen};
ghost use Rattle.mapping.specs.View.{tag_mark, tags_of, page_from};

use crate::page::{FoundPage, MappedPage};
use pc_types::{FrameId, PageIndex, Tag, Tags};
use xarray::{Found, Mark, Marked, Marks};

/// The mark that stands for a tag, as Linux numbers them.
pub fn mark_of(tag: Tag) -> Mark
    ensures { result ≡ tag_mark tag }
{
    match tag {
        Tag::Dirty => Mark::M0,
        Tag::Writeback => Mark::M1,
        Tag::Towrite => Mark::M2,
    }
}

/// The tags that an entry's marks stand for.
pub fn tags_from(marks: Marks) -> Tags
    ensures { tag_set result ≡ tags_of marks }
{
    let tags = with_or_without(Tags::none(), Tag::Dirty, marks.m0);
    let tags = with_or_without(tags, Tag::Writeback, marks.m1);
    with_or_without(tags, Tag::Towrite, marks.m2)
}

/// The marks that stand for tags.
pub fn marks_from(tags: Tags) -> Marks
    ensures { tags_of result ≡ tag_set tags }
{
    Marks {
        m0: tags.has(Tag::Dirty),
        m1: tags.has(Tag::Writeback),
        m2: tags.has(Tag::Towrite),
    }
}

/// The page of an entry.
pub fn mapped_page(entry: Marked) -> MappedPage
    requires { entry.value < 2 ^ 32 }
    ensures { seen result ≡ page_from entry }
{
    MappedPage {
        frame: FrameId(entry.value as u32),
        tags: tags_from(entry.marks),
    }
}

fn with_or_without(tags: Tags, tag: Tag, is: bool) -> Tags
    ensures { tag_set result ≡ put (tag_set tags) tag is }
{
    if is {
        tags.with(tag)
    } else {
        tags.without(tag)
    }
}

/// The page of an entry that a search found.
pub fn found_page(found: Found) -> FoundPage
    requires { found.value < 2 ^ 32 }
    ensures { result ≡ record { page = record { 0 = found.first }; frame = record { 0 = found.value } } }
{
    FoundPage {
        page: PageIndex(found.first),
        frame: FrameId(found.value as u32),
    }
}
