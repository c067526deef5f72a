//! A file as plain bytes.

ghost use Rattle.std.specs.Prelude.{◌<◌, ◌≡◌, length};

use crate::window::Window;
use pc_types::limits::MAX_FILE_SIZE;
use std::alloc::{AllocError, Global};

/// A file of any size up to the greatest, whose first bytes and whose last ones may be written. All between are zeros.
#[derive(Drop)]
pub(crate) struct PlainFile {
    size: u64,
    low: Window,
    high: Window,
}

impl PlainFile {
    pub(crate) fn new(alloc: Global) -> PlainFile {
        PlainFile {
            size: 0,
            low: Window::new(alloc),
            high: Window::new(alloc),
        }
    }

    /// A file without bytes, with so many pages at each end that may be written.
    pub(crate) fn reset(&mut self, page: u64, pages: u64) -> Result<(), AllocError>
        requires { 0 < page }
    {
        self.size = 0;
        let start = MAX_FILE_SIZE.saturating_sub(page.saturating_mul(pages));
        self.low.reset(0, page, pages)?;
        self.high.reset(start, page, pages)
    }

    pub(crate) fn size(&self) -> u64 {
        self.size
    }

    /// Whether these bytes may be written.
    pub(crate) fn takes(&self, offset: u64, count: u64) -> bool {
        self.low.takes(offset, count) || self.high.takes(offset, count)
    }

    /// How many pages have a block.
    pub(crate) fn blocks(&self) -> u64 {
        self.low.blocks().saturating_add(self.high.blocks())
    }

    /// How many of the pages with these bytes have no block. There is a byte, and all may be written.
    pub(crate) fn lacks(&self, offset: u64, count: u64) -> u64 {
        if self.low.takes(offset, count) {
            self.low.lacks(offset, count)
        } else {
            self.high.lacks(offset, count)
        }
    }

    /// Writes bytes that may be written.
    pub(crate) fn write(&mut self, offset: u64, bytes: &[u8]) -> Result<(), AllocError> {
        if bytes.is_empty() {
            return Ok(());
        }
        let count = bytes.len() as u64;
        if self.low.takes(offset, count) {
            self.low.write(offset, bytes)?;
        } else if self.high.takes(offset, count) {
            self.high.write(offset, bytes)?;
        }
        self.size = self.size.max(offset.saturating_add(count));
        Ok(())
    }

    /// Makes it as long as this.
    pub(crate) fn cut(&mut self, size: u64) {
        self.size = size;
        self.low.cut(size);
        self.high.cut(size);
    }

    /// Fills `out` with the bytes from the offset on, which are there.
    pub(crate) fn read(&self, offset: u64, out: &mut [u8]) {
        out.fill(0);
        self.low.read(offset, out);
        self.high.read(offset, out);
    }
}
