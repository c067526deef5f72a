//! A link of a ring.

/// The neighbours of a frame, or of a list's head, in its ring. Those of a free frame mean nothing.
#[derive(Clone, Copy)]
pub(crate) struct Link {
    pub(crate) prev: u32,
    pub(crate) next: u32,
}

/// Which list a frame is in.
#[derive(Clone, Copy, PartialEq, Eq)]
pub(crate) enum Place {
    Free,
    Active,
    Inactive,
}
