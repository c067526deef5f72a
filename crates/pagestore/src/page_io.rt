//! A page whose frame the device reads into or writes from: no copy of its bytes is made.

ghost use Rattle.std.specs.Prelude.{◌≡◌, ◌<◌, is_some, length, true};
ghost use Rattle.std.specs.FinMap as map;
ghost use Rattle.pc_types.specs.Spots.{shown};
ghost use Rattle.pagestore.specs.Filling.{FillsBy};
ghost use Rattle.pagestore.specs.Store.{is_awaited, stored_at, stored_page, the_page, with_pages};
ghost use Rattle.machine.specs.Changes.{after_write, under_write};

use crate::pages::Pages;
use blockdev::{BlockDevice, Watched};
use pc_types::{BlockNo, ErrCode, PageIndex, Tag};

impl Pages {
    /// The device reads a block into the frame of a page that is filling. The page is cached then with the first `valid` of these bytes and
    /// zeros past them, and has no tags. Where the device fails the page is filling as before.
    pub fn fill_by<D: BlockDevice>(
        &mut self,
        device: &mut Watched<D>,
        block: BlockNo,
        file: u64,
        page: u64,
        valid: usize,
    ) -> Result<(), ErrCode>
        requires here { file < length self.old.files }
        requires filling { is_awaited self.old file page ≡ true }
        requires exists { block.0 < device.old.device.count }
        requires size { device.old.device.size ≡ self.old.page }
        ensures { FillsBy self.old file page device.old block.0 valid result self.new device.new }
    {
        let Some(frame) = self.files[file as usize].mapping.frame(PageIndex(page)) else {
            unreachable!()
        };
        let bytes = self.frames.bytes_mut(frame);
        device.read(block, bytes)?;
        zero_past(bytes, valid);
        // the page is idle now, so that an eviction finds it
        self.frames.put_back(frame);
        self.uptodate[frame.0 as usize] = true;
        Ok(())
    }

    /// A write of a cached page began and ended in one.
    pub fn write_through(&mut self, file: u64, page: u64, failed: bool)
        requires here { file < length self.old.files }
        requires cached { is_some (stored_page self.old file page) ≡ true }
        ensures { self.new ≡ with_pages self.old file (map.insert (stored_at self.old file).pages page (after_write failed (under_write (the_page (stored_at self.old file).pages page)))) self.old.free }
    {
        let mapping = &mut self.files[file as usize].mapping;
        let Some(mapped) = writeback::write_through(mapping, PageIndex(page), failed) else {
            unreachable!()
        };
        self.dirty -= u64::from(mapped.tags.has(Tag::Dirty));
        self.dirty += u64::from(failed);
        // the page may be idle now, so that an eviction finds it
        self.frames.put_back(mapped.frame);
    }

    /// The bytes of a cached page.
    pub fn bytes(&self, file: u64, page: u64) -> &[u8]
        requires here { file < length self.now.files }
        requires cached { is_some (stored_page self.now file page) ≡ true }
        ensures bytes { result.now ≡ (the_page (stored_at self.now file).pages page).bytes }
        ensures size { length result.now ≡ self.now.page }
    {
        let Some(frame) = self.files[file as usize].mapping.frame(PageIndex(page)) else {
            unreachable!()
        };
        self.frames.bytes(frame)
    }
}

/// The bytes past the first `valid` are zeros.
fn zero_past(bytes: &mut [u8], valid: usize)
    ensures { bytes.new ≡ shown (length bytes.old) valid bytes.old }
{
    if valid < bytes.len() {
        bytes[valid..].fill(0);
    }
}
