//! What a mapping tells of a page.

use pc_types::{FrameId, PageIndex, Tags};

/// A cached page: the frame that holds its bytes, and its tags.
#[derive(Clone, Copy, PartialEq, Eq, Debug)]
pub struct MappedPage {
    pub frame: FrameId,
    pub tags: Tags,
}

/// A page that a search found.
#[derive(Clone, Copy, PartialEq, Eq, Debug)]
pub struct FoundPage {
    pub page: PageIndex,
    pub frame: FrameId,
}
