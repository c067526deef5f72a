//! How many pages have each tag.

ghost use Rattle.std.specs.Prelude.{◌≡◌, ◌+◌, ◌-◌, ◌<◌, ◌≤◌, ◌^◌};
ghost use Rattle.pc_types.specs.TagBits.{tag_set};
ghost use Rattle.pc_types.specs.Tags.{has};
ghost use Rattle.pc_types.specs.declared.tags.Tag.{Tag as AnyTag};
ghost use Rattle.mapping.specs.Totals.{total, with_total, one, with_page, without_page};

use pc_types::{Tag, Tags};

/// How many pages of a file have each tag.
#[derive(Clone, Copy, PartialEq, Eq, Debug)]
pub struct Totals {
    pub dirty: u64,
    pub writeback: u64,
    pub towrite: u64,
}

impl Totals {
    pub(crate) fn zero() -> Totals
        ensures { result ≡ record { dirty = 0; writeback = 0; towrite = 0 } }
    {
        Totals {
            dirty: 0,
            writeback: 0,
            towrite: 0,
        }
    }

    /// One page more has the tag.
    pub(crate) fn raise(&mut self, tag: Tag)
        requires { total self.old tag + 1 < 2 ^ 64 }
        ensures { self.new ≡ with_total self.old tag (total self.old tag + 1) }
    {
        match tag {
            Tag::Dirty => self.dirty += 1,
            Tag::Writeback => self.writeback += 1,
            Tag::Towrite => self.towrite += 1,
        }
    }

    /// One page less has the tag.
    pub(crate) fn lower(&mut self, tag: Tag)
        requires { 0 < total self.old tag }
        ensures { self.new ≡ with_total self.old tag (total self.old tag - 1) }
    {
        match tag {
            Tag::Dirty => self.dirty -= 1,
            Tag::Writeback => self.writeback -= 1,
            Tag::Towrite => self.towrite -= 1,
        }
    }

    /// A page that had these tags has others now.
    pub(crate) fn exchange(&mut self, before: Tags, now: Tags)
        requires counted { (tag : AnyTag) → one (has (tag_set before) tag) ≤ total self.old tag }
        requires room { (tag : AnyTag) → total self.old tag + 1 < 2 ^ 64 }
        ensures { self.new ≡ with_page self.old (tag_set before) (tag_set now) }
    {
        self.dirty = self.dirty - u64::from(before.has(Tag::Dirty))
            + u64::from(now.has(Tag::Dirty));
        self.writeback = self.writeback - u64::from(before.has(Tag::Writeback))
            + u64::from(now.has(Tag::Writeback));
        self.towrite = self.towrite - u64::from(before.has(Tag::Towrite))
            + u64::from(now.has(Tag::Towrite));
    }

    /// A page with these tags is gone.
    pub(crate) fn forget(&mut self, tags: Tags)
        requires { (tag : AnyTag) → one (has (tag_set tags) tag) ≤ total self.old tag }
        ensures { self.new ≡ without_page self.old (tag_set tags) }
    {
        self.dirty -= u64::from(tags.has(Tag::Dirty));
        self.writeback -= u64::from(tags.has(Tag::Writeback));
        self.towrite -= u64::from(tags.has(Tag::Towrite));
    }
}
