//! The begin and the end of a page's write: one walk of the file's mapping each.

ghost use Rattle.std.specs.Prelude.{◌≡◌, ◌<◌, is_some, length, true};
ghost use Rattle.std.specs.FinMap as map;
ghost use Rattle.pagestore.specs.Store.{the_page, stored_at, stored_page, with_pages};
ghost use Rattle.machine.specs.Changes.{after_write, under_write};

use crate::pages::Pages;
use pc_types::{PageIndex, Tag};

impl Pages {
    /// A write of a cached page begins, and `out` gets the bytes that it writes.
    pub fn start_write(&mut self, file: u64, page: u64, out: &mut [u8])
        requires here { file < length self.old.files }
        requires cached { is_some (stored_page self.old file page) ≡ true }
        requires whole { length out.old ≡ self.old.page }
        ensures begun { self.new ≡ with_pages self.old file (map.insert (stored_at self.old file).pages page (under_write (the_page (stored_at self.old file).pages page))) self.old.free }
        ensures copy { out.new ≡ (the_page (stored_at self.old file).pages page).bytes }
    {
        let mapping = &mut self.files[file as usize].mapping;
        let Some(mapped) = writeback::begin_write(mapping, PageIndex(page)) else {
            unreachable!()
        };
        self.dirty -= u64::from(mapped.tags.has(Tag::Dirty));
        out.copy_from_slice(self.frames.bytes(mapped.frame));
    }

    /// A write of a cached page ended.
    pub fn finish_write(&mut self, file: u64, page: u64, failed: bool)
        requires here { file < length self.old.files }
        requires cached { is_some (stored_page self.old file page) ≡ true }
        ensures { self.new ≡ with_pages self.old file (map.insert (stored_at self.old file).pages page (after_write failed (the_page (stored_at self.old file).pages page))) self.old.free }
    {
        let mapping = &mut self.files[file as usize].mapping;
        let Some(mapped) = writeback::end_write(mapping, PageIndex(page), failed) else {
            unreachable!()
        };
        let was_dirty = mapped.tags.has(Tag::Dirty);
        self.dirty += u64::from(failed && !was_dirty);
        // the page may be idle now, so that an eviction finds it
        self.frames.put_back(mapped.frame);
    }
}
