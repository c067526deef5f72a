//! The cache's state and its calls.

ghost use Rattle.std.specs.Prelude.{◌≡◌, ◌≢◌, ◌+◌, ◌-◌, ◌*◌, ◌/◌, ◌^◌, ◌<◌, ◌≤◌, ℕ, [], Option, IfOk, IfSome, IsOkUnless, OnOk, OnErr, length, drop, true, false, is_some, None, Some, nat_lt, not, count_by, ◌&&◌, ◌||◌};
ghost use Rattle.std.specs.FinMap as map;
ghost use Rattle.std.specs.List.{range_with_len};
ghost use Rattle.mapping.specs.declared.mapping.TheConstants.{MAX_PAGES};
ghost use Rattle.machine.specs.State.{dirty_total, handle_file, is_cached, is_filling, is_written, page_count, tags_at, touched_count};
ghost use Rattle.machine.specs.Tests.{covers, must_fill, room_tests, write_stop, write_tests};
ghost use Rattle.machine.specs.Changes.{written};
ghost use Rattle.machine.specs.Step.{Step, wants_memory};
ghost use Rattle.machine.specs.PageLists.{no_lists};
ghost use Rattle.machine.specs.ListChanges.{lists_after, lists_written};
ghost use Rattle.cachecore.specs.Placing.{AreFlagged};
ghost use Rattle.cachecore.specs.Replies.{created, opened, closed, sized, wrote, was_read, bytes_read, test_of, TagsAre};

use crate::answers::{PageTags, ReadAnswer, WriteAnswer};
use crate::handles::Handles;
use crate::placing::{lacks_blocks, place};
use blockmap::BlockMap;
use catalog::Catalog;
use machine::Event;
use pagestore::{Layout, Pages, Reading, Span};
use pc_types::limits::{MAX_FILE_SIZE, MAX_FILES, MAX_HANDLES, MAX_PAGE_SIZE, MAX_TOUCHED};
use pc_types::{FileId, Geometry, HandleId, PageIndex, Refusal};
use std::alloc::{AllocError, Global};
use std::marker::Model;
use writeback::{Requests, Syncs};

/// The state of a cache.
#[derive(Drop)]
pub struct CacheCore {
    pub(crate) geometry: Layout,
    pub(crate) name: u64,
    pub(crate) pages: Pages,
    pub(crate) handles: Handles,
    pub(crate) blocks: BlockMap,
    pub(crate) requests: Requests,
    pub(crate) syncs: Syncs,
    pub(crate) alloc: Global,
}

impl Model for CacheCore {
    ghost use Rattle.cachecore.specs.Core.{Core, core_code};
    ghost use Rattle.cachecore.specs.Tables.{state_of, IsCache};

    ghost Value = { Core };

    ghost coded = { core_code };

    ghost view = { λ a. record { state = state_of a.geometry a.name a.pages.files a.handles a.blocks a.requests a.syncs; lists = a.pages.lists } };

    ghost invariant = { λ a. IsCache (state_of a.geometry a.name a.pages.files a.handles a.blocks a.requests a.syncs) a.pages a.blocks };
}

impl CacheCore {
    /// A cache without files, refused by `Memory` alone. The name tells its requests and handles from another's, so
    /// each cache gets another one.
    pub fn new(alloc: Global, geometry: &Geometry, name: u64) -> Result<CacheCore, Refusal>
        ensures empty { IfOk result (λ c. c ≡ record { state = record { sizes = geometry.now; name = name; files = []; handles = map.empty; spots = map.empty; next = 0; requests = map.empty; syncs = map.empty }; lists = no_lists }) }
        ensures refused { IsOkUnless result Refusal.Memory }
    {
        match CacheCore::over(alloc, geometry, name, Catalog::new(alloc, geometry)) {
            Ok(core) => Ok(core),
            Err(refused) => Err(refused.0),
        }
    }

    /// The sizes that the cache was made with. They stay.
    pub fn geometry(&self) -> Geometry
        ensures { result ≡ self.now.state.sizes }
    {
        self.geometry.geometry()
    }

    /// A new file, without bytes. It stays as long as the cache.
    pub fn create(&mut self) -> Result<FileId, Refusal>
        ensures step { Step self.old.state Event.Create (created result) self.new.state }
        ensures lists { self.new.lists ≡ self.old.lists }
    {
        let number = self.pages.file_count();
        if number >= MAX_FILES {
            return Err(Refusal::TooManyFiles);
        }
        match self.pages.add_file(self.alloc) {
            Ok(()) => Ok(FileId(number)),
            Err(_) => Err(Refusal::Memory),
        }
    }

    /// Opens a file, by the lowest free handle.
    pub fn open(&mut self, file: FileId) -> Result<HandleId, Refusal>
        ensures step { Step self.old.state (Event.Open file) (opened result) self.new.state }
        ensures lists { self.new.lists ≡ self.old.lists }
    {
        if file.0 >= self.pages.file_count() {
            return Err(Refusal::NoSuchFile);
        }
        if self.handles.count() >= MAX_HANDLES {
            return Err(Refusal::TooManyHandles);
        }
        let handle = self.handles.open(file.0)?;
        Ok(HandleId(handle))
    }

    /// Closes a handle. Its number may be given out again. A handle with a sync in progress stays open.
    pub fn close(&mut self, handle: HandleId) -> Result<(), Refusal>
        ensures step { Step self.old.state (Event.Close handle) (closed result) self.new.state }
        ensures lists { self.new.lists ≡ self.old.lists }
        ensures no_memory { result ≢ Err Refusal.Memory }
    {
        if self.handles.file(handle.0).is_none() {
            return Err(Refusal::BadHandle);
        }
        if self.syncs.uses_handle(handle) {
            return Err(Refusal::Busy);
        }
        self.handles.close(handle.0);
        Ok(())
    }

    /// Bytes of the handle's file.
    pub fn size(&self, handle: HandleId) -> Result<u64, Refusal>
        ensures step { Step self.now.state (Event.Size handle) (sized result) self.now.state }
        ensures no_memory { result ≢ Err Refusal.Memory }
    {
        let Some(file) = self.handles.file(handle.0) else {
            return Err(Refusal::BadHandle);
        };
        Ok(self.pages.size(file))
    }

    /// What is known of a page. Any page may be asked for, also past the end of the file. This is no event.
    pub fn tags(&self, file: FileId, page: PageIndex) -> Result<PageTags, Refusal>
        ensures { TagsAre self.now.state file.0 page.0 result }
    {
        if file.0 >= self.pages.file_count() {
            return Err(Refusal::NoSuchFile);
        }
        match self.pages.tags(file.0, page.0) {
            Some(tags) => Ok(PageTags::Cached(tags)),
            None if self.is_filling(file.0, page.0) => Ok(PageTags::Filling),
            None => Ok(PageTags::Absent),
        }
    }

    /// Reads the bytes from `offset` on into the front of `out`: as many as it takes, and none past the end of the
    /// file. Where no bytes are read, `out` is as before.
    pub fn read(
        &mut self,
        handle: HandleId,
        offset: u64,
        out: &mut [u8],
    ) -> Result<ReadAnswer, Refusal>
        ensures step { Step self.old.state (Event.Read handle offset (length out.old)) (was_read result out.new) self.new.state }
        ensures lists { self.new.lists ≡ lists_after self.old.state (Event.Read handle offset (length out.old)) (was_read result out.new) self.old.lists }
        ensures count { bytes_read result ≤ length out.old }
        ensures rest { drop (bytes_read result) out.new ≡ drop (bytes_read result) out.old }
        ensures no_memory { result ≢ Err Refusal.Memory }
    {
        let Some(file) = self.handles.file(handle.0) else {
            return Err(Refusal::BadHandle);
        };
        let size = self.pages.size(file);
        if size <= offset || out.is_empty() {
            return Ok(ReadAnswer::Bytes(0));
        }
        let count = (size - offset).min(out.len() as u64);
        let page_size = self.geometry.page();
        if is_too_long(page_size, offset, count) {
            return Err(Refusal::TooLong);
        }
        let out = &mut out[..count as usize];
        match self.pages.read(file, page_size, offset, out) {
            Reading::Done => Ok(ReadAnswer::Bytes(count)),
            Reading::Filling(page) => Ok(ReadAnswer::Wait(PageIndex(page))),
            Reading::Absent(page) => Ok(ReadAnswer::Miss(PageIndex(page))),
        }
    }

    /// Writes the bytes into the file from `offset` on. A gap before them reads as zeros.
    pub fn write(
        &mut self,
        handle: HandleId,
        offset: u64,
        bytes: &[u8],
    ) -> Result<WriteAnswer, Refusal>
        ensures step { Step self.old.state (Event.Write handle offset bytes.now) (wrote result) self.new.state }
        ensures lists { self.new.lists ≡ lists_after self.old.state (Event.Write handle offset bytes.now) (wrote result) self.old.lists }
    {
        let Some(file) = self.handles.file(handle.0) else {
            return Err(Refusal::BadHandle);
        };
        let count = bytes.len() as u64;
        if count == 0 {
            return Ok(WriteAnswer::Wrote {
                count: 0,
                end: offset,
            });
        }
        if is_too_long(self.geometry.page(), offset, count) {
            return Err(Refusal::TooLong);
        }
        let end = offset.saturating_add(count);
        if end > MAX_FILE_SIZE {
            return Err(Refusal::TooLarge);
        }
        if self.overwrite(file, offset, bytes) {
            return Ok(WriteAnswer::Wrote { count, end });
        }
        let cached = self.which_cached(file, offset, count);
        if let Some(page) = self.write_stop(file, offset, count, &cached) {
            if self.is_filling(file, page) {
                return Ok(WriteAnswer::Wait(PageIndex(page)));
            }
            return Ok(WriteAnswer::Miss(PageIndex(page)));
        }
        self.check_room(file, offset, count, &cached)?;
        self.write_pages(file, offset, bytes, &cached)?;
        Ok(WriteAnswer::Wrote { count, end })
    }

    /// Writes the bytes at the end of the file, with nothing between.
    pub fn append(&mut self, handle: HandleId, bytes: &[u8]) -> Result<WriteAnswer, Refusal>
        ensures step { Step self.old.state (Event.Append handle bytes.now) (wrote result) self.new.state }
        ensures lists { self.new.lists ≡ lists_after self.old.state (Event.Append handle bytes.now) (wrote result) self.old.lists }
    {
        let Some(file) = self.handles.file(handle.0) else {
            return Err(Refusal::BadHandle);
        };
        let end = self.pages.size(file);
        self.write(handle, end, bytes)
    }

    /// Whether a fill of the page is in flight.
    #[inline(never)]
    pub(crate) fn is_filling(&self, file: u64, page: u64) -> bool
        ensures { result ≡ is_filling self.now.state file page }
    {
        self.requests.is_filling(FileId(file), PageIndex(page))
    }

    /// Whether the page's bytes are on the device alone.
    pub(crate) fn must_fill(&self, file: u64, page: u64) -> bool
        requires here { file < length self.now.state.files }
        requires below { page < MAX_PAGES }
        ensures { result ≡ must_fill self.now.state file page }
    {
        // first, since most pages are cached, and a page is found in fewer steps than its block (decision 168)
        !self.pages.is_cached(file, page) && self.is_written(file, page)
    }

    /// Whether the page has bytes on the device.
    fn is_written(&self, file: u64, page: u64) -> bool
        requires here { file < length self.now.state.files }
        requires below { page < MAX_PAGES }
        ensures { result ≡ is_written self.now.state file page }
    {
        match self.blocks.map(FileId(file), PageIndex(page)) {
            Some(placed) => placed.valid > 0,
            None => false,
        }
    }

    /// Which pages that a write touches are cached: a flag for each.
    fn which_cached(&self, file: u64, offset: u64, count: u64) -> [bool; MAX_TOUCHED as usize]
        requires here { file < length self.now.state.files }
        requires some { 0 < count }
        requires bound { offset + count ≤ MAX_FILE_SIZE }
        requires few { touched_count self.now.state.sizes.page offset count ≤ MAX_TOUCHED }
        ensures { AreFlagged result self.now.state file offset count }
    {
        let page_size = self.geometry.page();
        let first = offset / page_size;
        let end = (offset + count - 1) / page_size + 1;
        self.pages.which_cached(file, first, end)
    }

    /// The first page that stops a write which touches it: it is filling, or its bytes are on the device alone and are not
    /// all written over.
    fn write_stop(&self, file: u64, offset: u64, count: u64, cached: &[bool]) -> Option<u64>
        requires here { file < length self.now.state.files }
        requires some { 0 < count }
        requires bound { offset + count ≤ MAX_FILE_SIZE }
        requires flags { AreFlagged cached.now self.now.state file offset count }
        ensures { result ≡ write_stop self.now.state file offset count }
    {
        let page_size = self.geometry.page();
        let first = offset / page_size;
        let end = (offset + count - 1) / page_size + 1;
        (first..end).find(|page| {
            let cached = cached[(*page - first) as usize];
            self.stops_write(file, *page, offset, count, cached)
        })
    }

    /// Whether a page that a write touches stops it. One that is cached does not.
    fn stops_write(&self, file: u64, page: u64, offset: u64, count: u64, cached: bool) -> bool
        requires here { file < length self.now.state.files }
        requires below { page < MAX_PAGES }
        requires bound { offset + count ≤ MAX_FILE_SIZE }
        requires told { cached ≡ is_cached self.now.state file page }
        ensures { result ≡ (is_filling self.now.state file page || (must_fill self.now.state file page && not (covers self.now.state.sizes.page offset count page))) }
    {
        let page_size = self.geometry.page();
        if cached {
            return false;
        }
        if self.is_filling(file, page) {
            return true;
        }
        // this order, since `covers` looks nothing up
        !covers(page_size, offset, count, page) && self.is_written(file, page)
    }

    /// Whether the pages that a write touches may become dirty, and there are frames and blocks for those that need one.
    fn check_room(&self, file: u64, offset: u64, count: u64, cached: &[bool]) -> Result<(), Refusal>
        requires here { file < length self.now.state.files }
        requires some { 0 < count }
        requires bound { offset + count ≤ MAX_FILE_SIZE }
        requires few { touched_count self.now.state.sizes.page offset count ≤ MAX_TOUCHED }
        requires flags { AreFlagged cached.now self.now.state file offset count }
        ensures { test_of result ≡ room_tests self.now.state file offset count }
    {
        let page_size = self.geometry.page();
        let first = offset / page_size;
        let end = (offset + count - 1) / page_size + 1;
        if self.is_over_limit(file, first, end) {
            return Err(Refusal::DirtyLimit);
        }
        if self.pages.lacks_frames(first, end, cached) {
            return Err(Refusal::NoFrame);
        }
        if lacks_blocks(&self.blocks, file, first, end) {
            return Err(Refusal::NoSpace);
        }
        Ok(())
    }

    /// Whether too many pages would be dirty with those from `first` up to `end`. A write that makes no page dirty goes through
    /// although the limit is passed, as a truncation or a failed write may pass it. It looks up no more pages than tell.
    pub(crate) fn is_over_limit(&self, file: u64, first: u64, end: u64) -> bool
        requires here { file < length self.now.state.files }
        requires order { first ≤ end }
        ensures { result ≡ (nat_lt 0 (count_by (λ p. not (tags_at self.now.state file p).dirty) (range_with_len first (end - first))) && nat_lt self.now.state.sizes.dirty_limit (dirty_total self.now.state + count_by (λ p. not (tags_at self.now.state file p).dirty) (range_with_len first (end - first)))) }
    {
        let dirty = self.pages.dirty_total();
        // none, where the limit is passed already
        let room = self.geometry.dirty_limit().saturating_sub(dirty);
        self.pages.has_more_clean(file, first, end, room)
    }

    /// Writes the bytes where they are all of one page that is DIRTY. Such a page has its frame and its block, so no test stops
    /// or refuses the write (decision 71). Answers whether that was done.
    fn overwrite(&mut self, file: u64, offset: u64, bytes: &[u8]) -> bool
        requires open { (h : ℕ) × (map.get self.old.state.handles h ≡ Some file) }
        requires some { 0 < length bytes.now }
        requires bound { offset + length bytes.now ≤ MAX_FILE_SIZE }
        ensures unstopped { result ≡ true → write_stop self.old.state file offset (length bytes.now) ≡ None }
        ensures room { result ≡ true → room_tests self.old.state file offset (length bytes.now) ≡ None }
        ensures done { result ≡ true → self.new.state ≡ written self.old.state file offset bytes.now }
        ensures lists { result ≡ true → self.new.lists ≡ lists_written self.old.state file offset (length bytes.now) self.old.lists }
        ensures same { result ≡ false → self.new ≡ self.old }
    {
        let page_size = self.geometry.page();
        let page = offset / page_size;
        let at = offset - page * page_size;
        if at + bytes.len() as u64 > page_size {
            return false;
        }
        if !self.pages.put_again(file, page, at as usize, bytes) {
            return false;
        }
        let size = self.pages.size(file).max(offset + bytes.len() as u64);
        self.pages.set_size(file, size);
        true
    }

    /// Writes the bytes into a file, which may be made longer. The tests have passed. What may be refused is taken before a byte
    /// of a cached page changes: a write is done whole or not at all.
    fn write_pages(
        &mut self,
        file: u64,
        offset: u64,
        bytes: &[u8],
        cached: &[bool],
    ) -> Result<(), AllocError>
        requires here { file < length self.old.state.files }
        requires some { 0 < length bytes.now }
        requires bound { offset + length bytes.now ≤ MAX_FILE_SIZE }
        requires few { touched_count self.old.state.sizes.page offset (length bytes.now) ≤ MAX_TOUCHED }
        requires flags { AreFlagged cached.now self.old.state file offset (length bytes.now) }
        requires passed { (h : ℕ) × (handle_file self.old.state h ≡ file) × (write_tests self.old.state h offset (length bytes.now) ≡ None) }
        ensures ok { OnOk result (self.new.state ≡ written self.old.state file offset bytes.now) }
        ensures lists { OnOk result (self.new.lists ≡ lists_written self.old.state file offset (length bytes.now) self.old.lists) }
        ensures err { OnErr result (self.new ≡ self.old) }
        ensures wanting { OnErr result (wants_memory self.old.state file offset (length bytes.now) ≡ true) }
    {
        let page_size = self.geometry.page();
        let end = offset + bytes.len() as u64;
        let span = Span {
            file,
            page_size,
            offset,
            first: offset / page_size,
            end: (end - 1) / page_size + 1,
        };
        place(
            &mut self.pages,
            &mut self.blocks,
            span,
            bytes,
            cached,
            span.first,
        )?;
        self.pages.access_cached(file, span.first, cached);
        let size = self.pages.size(file).max(end);
        self.pages.set_size(file, size);
        Ok(())
    }
}

/// How many pages `count` bytes at `offset` touch. No sum passes 2^64, whatever the offset: it counts from the start of
/// the first page.
fn touched_count(page_size: u64, offset: u64, count: u64) -> u64
    requires positive { 0 < page_size }
    requires small { page_size ≤ MAX_PAGE_SIZE }
    requires some { 0 < count }
    requires fits { count < 2 ^ 63 }
    ensures { result ≡ touched_count page_size offset count }
{
    (offset % page_size + count - 1) / page_size + 1
}

/// Whether `count` bytes at `offset` touch more pages than a call may.
pub(crate) fn is_too_long(page_size: u64, offset: u64, count: u64) -> bool
    requires positive { 0 < page_size }
    requires small { page_size ≤ MAX_PAGE_SIZE }
    requires some { 0 < count }
    requires fits { count < 2 ^ 63 }
    ensures { result ≡ nat_lt MAX_TOUCHED (touched_count page_size offset count) }
{
    // bytes within one page, as of most calls, touch one
    offset % page_size + count > page_size && touched_count(page_size, offset, count) > MAX_TOUCHED
}

/// How many pages a file of this size has.
pub(crate) fn page_count(page_size: u64, size: u64) -> u64
    requires positive { 0 < page_size }
    requires small { page_size ≤ MAX_PAGE_SIZE }
    requires bound { size ≤ MAX_FILE_SIZE }
    ensures { result ≡ page_count page_size size }
{
    (size + (page_size - 1)) / page_size
}

/// Whether the bytes from `offset` on cover the page, `count` of them.
fn covers(page_size: u64, offset: u64, count: u64, page: u64) -> bool
    requires small { page_size ≤ MAX_PAGE_SIZE }
    requires below { page < MAX_PAGES }
    requires bound { offset + count ≤ MAX_FILE_SIZE }
    ensures { result ≡ covers page_size offset count page }
{
    let start = page * page_size;
    offset <= start && start + page_size <= offset + count
}
