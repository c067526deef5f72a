//! Pages that are being filled: each has its entry and a frame, which waits for the page's bytes.

ghost use Rattle.std.specs.Prelude.{◌≡◌, ◌+◌, ◌-◌, ◌<◌, ◌≤◌, OnOk, OnErr, length, true, false, None};
ghost use Rattle.std.specs.FinMap as map;
ghost use Rattle.std.specs.FinSet as set;
ghost use Rattle.mapping.specs.declared.mapping.TheConstants.{MAX_PAGES};
ghost use Rattle.pc_types.specs.Tags.{no_tags};
ghost use Rattle.frames.specs.Rows.{laid};
ghost use Rattle.machine.specs.PageLists.{entered, is_listed, left};
ghost use Rattle.pc_types.specs.Spots.{shown};
ghost use Rattle.pagestore.specs.Filling.{filled};
ghost use Rattle.pagestore.specs.Store.{stored_at, stored_page, is_awaited, with_pages};

use crate::pages::Pages;
use pc_types::{FileId, PageIndex};
use std::alloc::AllocError;

impl Pages {
    /// Begins to fill an absent page. All memory that the page needs is taken here.
    pub fn start_fill(&mut self, file: u64, page: u64) -> Result<(), AllocError>
        requires here { file < length self.old.files }
        requires below { page < MAX_PAGES }
        requires absent { stored_page self.old file page ≡ None }
        requires idle { is_awaited self.old file page ≡ false }
        requires room { 0 < self.old.free }
        ensures ok { OnOk result (self.new ≡ record self.old { filling = set.insert self.old.filling (file, page); free = self.old.free - 1; lists = entered file page self.old.lists }) }
        ensures err { OnErr result (self.new ≡ self.old) }
        ensures unlisted { is_listed file page self.old.lists ≡ false }
    {
        let Ok(frame) = self.frames.take(FileId(file), PageIndex(page)) else {
            unreachable!()
        };
        let mapping = &mut self.files[file as usize].mapping;
        if mapping.insert_page(PageIndex(page), frame).is_err() {
            self.frames.give(frame);
            return Err(AllocError);
        }
        // the frame has another page's bytes, which nobody reads before it is up to date
        self.uptodate[frame.0 as usize] = false;
        Ok(())
    }

    /// A page that was filling is cached with what a block with these bytes shows of it: the first `valid`, and zeros past them. It
    /// has no tags.
    pub fn finish_fill(&mut self, file: u64, page: u64, bytes: &[u8], valid: usize)
        requires here { file < length self.old.files }
        requires filling { is_awaited self.old file page ≡ true }
        requires whole { length bytes.now ≡ self.old.page }
        ensures { self.new ≡ filled self.old file page (shown self.old.page valid bytes.now) }
    {
        self.finish(file, page, 0, &bytes[..valid.min(bytes.len())]);
    }

    /// A page that was filling is cached with these bytes from `at` on, zeros around them, and no tags.
    pub(crate) fn finish(&mut self, file: u64, page: u64, at: usize, bytes: &[u8])
        requires here { file < length self.old.files }
        requires filling { is_awaited self.old file page ≡ true }
        requires inside { at + length bytes.now ≤ self.old.page }
        ensures { self.new ≡ record (with_pages self.old file (map.insert (stored_at self.old file).pages page (record { bytes = laid self.old.page at bytes.now; tags = no_tags })) self.old.free) { filling = set.remove self.old.filling (file, page) } }
    {
        let Some(frame) = self.files[file as usize].mapping.frame(PageIndex(page)) else {
            unreachable!()
        };
        // the page is idle now, so that an eviction finds it
        self.frames.put_back(frame);
        self.frames.lay(frame, at, bytes);
        self.uptodate[frame.0 as usize] = true;
    }
}
