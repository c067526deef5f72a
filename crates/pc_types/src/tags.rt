//! The tags of a page.

ghost use Rattle.std.specs.Prelude.{◌≡◌, [], ◌∷◌, ⊤, codes, true, false};

use bitflags::{Flag, Flags, bitflag_items};

/// What a page may be tagged with.
#[derive(Clone, Copy, PartialEq, Eq, Debug)]
pub enum Tag {
    /// The device may lack the page's bytes even after the write in flight, if there is one, ends well.
    Dirty,
    /// A write of the page to the device is in flight.
    Writeback,
    /// A sync tagged the page, and a write of it is to be started. The tag outlives a sync that is dropped.
    Towrite,
}

/// A set of tags, one bit a tag.
#[derive(Clone, Copy, PartialEq, Eq, Debug)]
pub struct Tags(u8);

bitflag_items! {
    impl Tags: u8 {
        const DIRTY = 1;
        const WRITEBACK = 2;
        const TOWRITE = 4;
    }
}

impl Flags for Tags {
    type Bits = u8;

    ghost exact = { ⊤ };

    ghost table = { (codes "DIRTY", 1) ∷ (codes "WRITEBACK", 2) ∷ (codes "TOWRITE", 4) ∷ [] };

    ghost set_of = { λ p. p.0 };

    fn flags<'a>() -> &'a [Flag<Tags>] {
        Tags::FLAGS
    }

    fn bits(&self) -> u8 {
        self.0
    }

    fn from_bits_retain(bits: u8) -> Tags {
        Tags(bits)
    }
}

#[tactic(auto, using(crate::proofs::TagBits::tag_bits))]
impl Tags {
    ghost use Rattle.pc_types.specs.Tags.{no_tags, has, put};
    ghost use Rattle.pc_types.specs.TagBits.{tag_set};

    /// No tag.
    pub fn none() -> Tags
        ensures { tag_set result ≡ no_tags }
    {
        Tags(0)
    }

    /// Whether the tag is in the set.
    pub fn has(self, tag: Tag) -> bool
        ensures { result ≡ has (tag_set self) tag }
    {
        match tag {
            Tag::Dirty => self.contains(Tags::DIRTY),
            Tag::Writeback => self.contains(Tags::WRITEBACK),
            Tag::Towrite => self.contains(Tags::TOWRITE),
        }
    }

    /// The set with the tag in it.
    pub fn with(mut self, tag: Tag) -> Tags
        ensures { tag_set result ≡ put (tag_set self) tag true }
    {
        match tag {
            Tag::Dirty => self.insert(Tags::DIRTY),
            Tag::Writeback => self.insert(Tags::WRITEBACK),
            Tag::Towrite => self.insert(Tags::TOWRITE),
        }
        self
    }

    /// The set without the tag.
    pub fn without(mut self, tag: Tag) -> Tags
        ensures { tag_set result ≡ put (tag_set self) tag false }
    {
        match tag {
            Tag::Dirty => self.remove(Tags::DIRTY),
            Tag::Writeback => self.remove(Tags::WRITEBACK),
            Tag::Towrite => self.remove(Tags::TOWRITE),
        }
        self
    }
}
