//! Where the bytes of a write go.

ghost use Rattle.std.specs.Prelude.{◌≡◌, ◌+◌, ◌-◌, ◌*◌, ◌/◌, ◌<◌, ◌≤◌, length, min, slice_range};

use pc_types::limits::{MAX_FILE_SIZE, MAX_PAGE_SIZE};

/// The pages from `first` up to `end` of a file, which the bytes at an offset touch.
#[derive(Clone, Copy)]
pub struct Span {
    pub file: u64,
    pub page_size: u64,
    pub offset: u64,
    pub first: u64,
    pub end: u64,
}

impl Span {
    /// The bytes that fall into a page, after the place where they go in it.
    pub(crate) fn part(self, bytes: &[u8], page: u64) -> (usize, &[u8])
        requires positive { 0 < self.page_size }
        requires small { self.page_size ≤ MAX_PAGE_SIZE }
        requires some { 0 < length bytes.now }
        requires bound { self.offset + length bytes.now ≤ MAX_FILE_SIZE }
        requires from { self.offset / self.page_size ≤ page }
        requires to { page ≤ (self.offset + length bytes.now - 1) / self.page_size }
        ensures at { result.0 ≡ self.offset - page * self.page_size }
        ensures bytes { result.1.now ≡ slice_range bytes.now (page * self.page_size - self.offset) (min (length bytes.now) (page * self.page_size + self.page_size - self.offset)) }
        ensures inside { result.0 + length result.1.now ≤ self.page_size }
    {
        let start = page * self.page_size;
        let at = self.offset.saturating_sub(start) as usize;
        let from = start.saturating_sub(self.offset) as usize;
        let to = bytes
            .len()
            .min((start + self.page_size - self.offset) as usize);
        (at, &bytes[from..to])
    }
}
