//! The bytes of one part of a file.

ghost use Rattle.std.specs.Prelude.{◌<◌, ◌≡◌, ◌≤◌, length};

use std::alloc::{AllocError, Global};

/// Pages side by side from an offset on, with the bytes up to the last that was written. Those past it are zeros.
#[derive(Drop)]
pub(crate) struct Window {
    start: u64,
    page: u64,
    bytes: Vec<u8>,
    // whether each page has a block: one does that was written, and not cut off since
    held: Vec<bool>,
    count: u64,
    ghost sized: { 0 < page },
}

impl Window {
    /// No page.
    pub(crate) fn new(alloc: Global) -> Window {
        Window {
            start: 0,
            page: 1,
            bytes: Vec::new(alloc),
            held: Vec::new(alloc),
            count: 0,
        }
    }

    /// So many pages of zeros, none with a block.
    pub(crate) fn reset(&mut self, start: u64, page: u64, pages: u64) -> Result<(), AllocError>
        requires { 0 < page }
    {
        self.start = start;
        self.page = page;
        self.count = 0;
        self.bytes.clear();
        self.held.clear();
        self.held.resize(pages as usize, false)
    }

    /// Whether these bytes lie within it.
    pub(crate) fn takes(&self, offset: u64, count: u64) -> bool {
        let room = self.page.saturating_mul(self.held.len() as u64);
        match offset.checked_sub(self.start) {
            Some(at) => at <= room && count <= room - at,
            None => false,
        }
    }

    /// How many pages have a block.
    pub(crate) fn blocks(&self) -> u64 {
        self.count
    }

    /// How many of the pages with these bytes have no block. There is a byte, and all lie within.
    pub(crate) fn lacks(&self, offset: u64, count: u64) -> u64 {
        let (first, last) = self.pages(offset, count);
        let mut lacking: u64 = 0;
        for at in first..=last {
            if self.held.get(at) == Some(&false) {
                lacking = lacking.saturating_add(1);
            }
        }
        lacking
    }

    /// The first and the last page with these bytes.
    fn pages(&self, offset: u64, count: u64) -> (usize, usize) {
        let at = offset.saturating_sub(self.start);
        let last = at.saturating_add(count).saturating_sub(1);
        ((at / self.page) as usize, (last / self.page) as usize)
    }

    /// Writes the bytes, which lie within.
    pub(crate) fn write(&mut self, offset: u64, bytes: &[u8]) -> Result<(), AllocError> {
        let at = offset.saturating_sub(self.start) as usize;
        let end = at.saturating_add(bytes.len());
        if self.bytes.len() < end {
            self.bytes.resize(end, 0)?;
        }
        copy(bytes, 0, &mut self.bytes, at);
        self.hold(offset, bytes.len() as u64);
        Ok(())
    }

    fn hold(&mut self, offset: u64, count: u64) {
        let (first, last) = self.pages(offset, count);
        for at in first..=last {
            if let Some(held) = self.held.get_mut(at) {
                if !*held {
                    *held = true;
                    self.count = self.count.saturating_add(1);
                }
            }
        }
    }

    /// Cuts off what lies past this size of the file.
    pub(crate) fn cut(&mut self, size: u64) {
        let keep = size.saturating_sub(self.start);
        self.bytes.truncate(keep as usize);
        let first = keep.div_ceil(self.page) as usize;
        for at in first..self.held.len() {
            if let Some(held) = self.held.get_mut(at) {
                if *held {
                    *held = false;
                    self.count = self.count.saturating_sub(1);
                }
            }
        }
    }

    /// Puts what it has of the bytes from the offset on over those of `out`.
    pub(crate) fn read(&self, offset: u64, out: &mut [u8]) {
        if offset >= self.start {
            copy(&self.bytes, (offset - self.start) as usize, out, 0);
        } else {
            copy(&self.bytes, 0, out, (self.start - offset) as usize);
        }
    }
}

/// Copies the bytes from one place on to another, as many as there are and fit.
fn copy(from: &[u8], at: usize, out: &mut [u8], to: usize)
    ensures { length out.new ≡ length out.old }
{
    let count = from
        .len()
        .saturating_sub(at)
        .min(out.len().saturating_sub(to));
    if count > 0 {
        out[to..to + count].copy_from_slice(&from[at..at + count]);
    }
}
