//! Truncation: a file made shorter or longer.

ghost use Rattle.std.specs.Prelude.{◌≡◌, ◌≢◌, ◌<◌, ◌≤◌, Err, IfSome, is_some, length};
ghost use Rattle.std.specs.FinMap as map;
ghost use Rattle.blockmap.specs.Keys.{IsPage};
ghost use Rattle.mapping.specs.declared.mapping.TheConstants.{MAX_PAGES};
ghost use Rattle.machine.specs.State.{file_at, page_count};
ghost use Rattle.machine.specs.ListChanges.{lists_cut, lists_after};
ghost use Rattle.machine.specs.PageLists.{cut_off};
ghost use Rattle.machine.specs.Changes.{boundary, cut_page, shrunk, truncated};
ghost use Rattle.maps.specs.Maps.{change_at};
ghost use Rattle.pagestore.specs.Store.{stored_at, with_pages};
ghost use Rattle.machine.specs.Step.{Step};
ghost use Rattle.cachecore.specs.Replies.{was_truncated};

use crate::answers::TruncateAnswer;
use crate::cache::{CacheCore, page_count};
use blockmap::BlockMap;
use machine::Event;
use pagestore::Pages;
use pc_types::limits::MAX_FILE_SIZE;
use pc_types::{FileId, HandleId, PageIndex, Refusal};

impl CacheCore {
    /// Gives the handle's file so many bytes. What is past them is gone, and a file that gets longer reads as zeros there.
    pub fn truncate(&mut self, handle: HandleId, size: u64) -> Result<TruncateAnswer, Refusal>
        ensures step { Step self.old.state (Event.Truncate handle size) (was_truncated result) self.new.state }
        ensures lists { self.new.lists ≡ lists_after self.old.state (Event.Truncate handle size) (was_truncated result) self.old.lists }
        ensures no_memory { result ≢ Err Refusal.Memory }
    {
        let Some(file) = self.handles.file(handle.0) else {
            return Err(Refusal::BadHandle);
        };
        if size > MAX_FILE_SIZE {
            return Err(Refusal::TooLarge);
        }
        if let Some(page) = self.boundary(file, size) {
            if self.is_filling(file, page) {
                return Ok(TruncateAnswer::Wait(PageIndex(page)));
            }
            if self.must_fill(file, page) {
                return Ok(TruncateAnswer::Miss(PageIndex(page)));
            }
        }
        self.resize(file, size);
        Ok(TruncateAnswer::Done)
    }

    /// The page that a truncation to `size` bytes cuts into, where it cuts into one.
    #[tactic(auto, using(pagestore::proofs::Spans::last_below))]
    fn boundary(&self, file: u64, size: u64) -> Option<u64>
        requires { file < length self.now.state.files }
        ensures page { result ≡ boundary self.now.state file size }
        ensures below { IfSome result (λ page. page < MAX_PAGES) }
    {
        let page_size = self.geometry.page();
        if size < self.pages.size(file) && size % page_size != 0 {
            Some(size / page_size)
        } else {
            None
        }
    }

    /// Gives the file `size` bytes. The tests have passed.
    fn resize(&mut self, file: u64, size: u64)
        requires here { file < length self.old.state.files }
        requires small { size ≤ MAX_FILE_SIZE }
        ensures state { self.new.state ≡ truncated self.old.state file size }
        ensures lists { self.new.lists ≡ lists_cut self.old.state file size self.old.lists }
    {
        if size < self.pages.size(file) {
            self.shrink(file, size);
        } else {
            self.pages.set_size(file, size);
        }
    }

    /// Cuts the file to `size` bytes, which are fewer than it has. The pages past the new last one are absent, without blocks.
    fn shrink(&mut self, file: u64, size: u64)
        requires here { file < length self.old.state.files }
        requires fewer { size < (file_at self.old.state file).size }
        ensures state { self.new.state ≡ shrunk self.old.state file size }
        ensures lists { self.new.lists ≡ cut_off file (page_count self.old.state.sizes.page size) self.old.lists }
    {
        let page_size = self.geometry.page();
        if let Some(page) = self.boundary(file, size) {
            let from = (size % page_size) as usize;
            cut_tail(&mut self.pages, &self.blocks, file, page, from);
        }
        let end_page = page_count(page_size, size);
        self.pages.remove_from(file, end_page);
        // A request in flight holds its block until it ends, though its page goes: a late write must not reach a block that is
        // another page's by then (rules 11 and 12 of docs/DESIGN.md).
        self.blocks.cut_from(FileId(file), PageIndex(end_page));
        self.requests.drop_from(FileId(file), PageIndex(end_page));
        self.pages.set_size(file, size);
    }
}

/// The bytes of a page from `from` on become zeros, where it is cached and has a block. A page without a block has zeros
/// there.
fn cut_tail(pages: &mut Pages, blocks: &BlockMap, file: u64, page: u64, from: usize)
    requires here { file < length pages.old.files }
    requires place { IsPage file page }
    requires inside { from < pages.old.page }
    ensures { pages.new ≡ with_pages pages.old file (change_at page (cut_page pages.old.page from (is_some (map.get blocks.now.spots (file, page)))) (stored_at pages.old file).pages) pages.old.free }
{
    if pages.is_cached(file, page) && blocks.map(FileId(file), PageIndex(page)).is_some() {
        pages.cut_tail(file, page, from);
    }
}
