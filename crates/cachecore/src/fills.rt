//! Fills: an absent page read in from its block.

ghost use Rattle.std.specs.Prelude.{◌≡◌, ◌<◌, Some, IfErr, IfNone, IfOk, IfSome, false, length, true, option_map, unwrap_or, if◌then◌else◌};
ghost use Rattle.std.specs.FinMap as map;
ghost use Rattle.blockdev.specs.Jobs.{IsJobFor};
ghost use Rattle.mapping.specs.declared.mapping.TheConstants.{MAX_PAGES};
ghost use Rattle.pc_types.specs.declared.refusal.Refusal.TheVariants.{Memory, TooManyInFlight};
ghost use Rattle.machine.specs.State.{file_at, free_frames, is_cached, is_filling, is_written, page_count, spot_at};
ghost use Rattle.machine.specs.Tests.{is_full};
ghost use Rattle.machine.specs.Changes.{requested};
ghost use Rattle.machine.specs.Step.{Step};
ghost use Rattle.machine.specs.PageLists.{entered};
ghost use Rattle.machine.specs.ListChanges.{lists_filling, lists_after};
ghost use Rattle.cachecore.specs.Nexts.{IsToRead, OnRead, fill_says, is_read, its_spot};
ghost use Rattle.cachecore.specs.Replies.{EndGivesBack, GivesBack, IsFillJob, NamesFile, OnFillJob, end_of, fill_begun, fill_ended};

use crate::answers::{Ended, FillBegun, Refused, RefusedEnd};
use crate::cache::{CacheCore, page_count};
use crate::ends::take_ended;
use blockdev::{Buffer, Finished, FinishedParts, Job};
use blockmap::Placed;
use machine::Event;
use pc_types::{FileId, HandleId, Kind, PageIndex, Refusal, Serial};

/// What a fill of a page comes to.
#[derive(Clone, Copy)]
pub(crate) enum FillNext {
    /// The file has no such page.
    Gone,
    /// A fill of the page is in flight.
    Wait(PageIndex),
    Present,
    /// The page is filled with zeros, at once.
    Filled,
    /// The page of this file is read from where it stands.
    Read(FileId, Placed),
}

impl CacheCore {
    /// Begins to fill an absent page. Where the page's bytes are on the device, the job reads them into the buffer, and else
    /// the page is filled with zeros at once. The buffer has as many bytes as a page.
    pub fn fill_begin(
        &mut self,
        handle: HandleId,
        page: PageIndex,
        buffer: Buffer,
    ) -> Result<FillBegun, Refused>
        requires size { length buffer ≡ self.old.state.sizes.page }
        ensures step { Step self.old.state (Event.FillBegin handle page) (fill_begun result) self.new.state }
        ensures lists { self.new.lists ≡ lists_after self.old.state (Event.FillBegin handle page) (fill_begun result) self.old.lists }
        ensures job { IsFillJob self.new.state result }
        ensures fits { OnFillJob result (IsJobFor self.old.state.name self.old.state.sizes.blocks self.old.state.sizes.page) }
        ensures back { GivesBack buffer result }
    {
        match self.next_fill(handle, page) {
            Ok(FillNext::Read(file, placed)) => self.read_by(file, page, placed, buffer),
            Ok(FillNext::Gone) => Ok(FillBegun::Gone(buffer)),
            Ok(FillNext::Wait(page)) => Ok(FillBegun::Wait(page, buffer)),
            Ok(FillNext::Present) => Ok(FillBegun::Present(buffer)),
            Ok(FillNext::Filled) => Ok(FillBegun::Filled(buffer)),
            Err(refusal) => Err(Refused { refusal, buffer }),
        }
    }

    /// What a fill of the page comes to. Where its bytes are on the device they are left to the caller to be read, and else the event is
    /// made.
    pub(crate) fn next_fill(
        &mut self,
        handle: HandleId,
        page: PageIndex,
    ) -> Result<FillNext, Refusal>
        ensures reads { IfOk result (OnRead (λ file placed. (map.get self.old.state.handles handle.0 ≡ Some file.0) × IsToRead self.old.state file.0 page.0 placed × (self.new ≡ self.old))) }
        ensures step { is_read result ≡ false → Step self.old.state (Event.FillBegin handle page) (fill_says result) self.new.state }
        ensures lists { is_read result ≡ false → self.new.lists ≡ lists_after self.old.state (Event.FillBegin handle page) (fill_says result) self.old.lists }
    {
        let Some(file) = self.handles.file(handle.0) else {
            return Err(Refusal::BadHandle);
        };
        if page.0 >= page_count(self.geometry.page(), self.pages.size(file)) {
            return Ok(FillNext::Gone);
        }
        if self.is_filling(file, page.0) {
            return Ok(FillNext::Wait(page));
        }
        if self.pages.is_cached(file, page.0) {
            return Ok(FillNext::Present);
        }
        if self.pages.free_frames() == 0 {
            return Err(Refusal::NoFrame);
        }
        self.next_absent(file, page)
    }

    /// The same of an absent page. The tests that come before have passed.
    fn next_absent(&mut self, file: u64, page: PageIndex) -> Result<FillNext, Refusal>
        requires here { file < length self.old.state.files }
        requires below { page.0 < MAX_PAGES }
        requires inside { page.0 < page_count self.old.state.sizes.page (file_at self.old.state file).size }
        requires absent { is_cached self.old.state file page.0 ≡ false }
        requires idle { is_filling self.old.state file page.0 ≡ false }
        requires room { 0 < free_frames self.old.state }
        ensures reads { IfOk result (OnRead (λ f placed. (f.0 ≡ file) × IsToRead self.old.state file page.0 placed × (self.new ≡ self.old))) }
        ensures step { (h : HandleId) → map.get self.old.state.handles h.0 ≡ Some file → is_read result ≡ false → Step self.old.state (Event.FillBegin h page) (fill_says result) self.new.state }
        ensures lists { is_read result ≡ false → self.new.lists ≡ lists_filling file page.0 (fill_says result) self.old.lists }
    {
        let Some(placed) = self.place_to_read(file, page) else {
            if self.pages.make(file, page.0).is_err() {
                return Err(Refusal::Memory);
            }
            return Ok(FillNext::Filled);
        };
        Ok(FillNext::Read(FileId(file), placed))
    }

    /// Begins to read an absent page from its block into the buffer.
    fn read_by(
        &mut self,
        file: FileId,
        page: PageIndex,
        placed: Placed,
        buffer: Buffer,
    ) -> Result<FillBegun, Refused>
        requires reads { IsToRead self.old.state file.0 page.0 placed }
        requires size { length buffer ≡ self.old.state.sizes.page }
        ensures step { (h : HandleId) → map.get self.old.state.handles h.0 ≡ Some file.0 → Step self.old.state (Event.FillBegin h page) (fill_begun result) self.new.state }
        ensures lists { self.new.lists ≡ lists_filling file.0 page.0 (fill_begun result) self.old.lists }
        ensures job { IsFillJob self.new.state result }
        ensures fits { OnFillJob result (IsJobFor self.old.state.name self.old.state.sizes.blocks self.old.state.sizes.page) }
        ensures back { GivesBack buffer result }
    {
        match self.begin_read(file.0, page, placed) {
            Ok(serial) => {
                let job = Job::new(self.name, serial, Kind::Fill, placed.block, buffer);
                Ok(FillBegun::Job(job))
            }
            Err(refusal) => Err(Refused { refusal, buffer }),
        }
    }

    /// Ends a fill by its finished job. A buffer of this cache has as many bytes as a page. Refused by `Stranger` where no fill of this
    /// cache with this serial is in flight; what was handed in comes back.
    pub fn fill_end(&mut self, finished: Finished) -> Result<Ended, RefusedEnd>
        requires size { finished.cache ≡ self.old.state.name → length finished.bytes ≡ self.old.state.sizes.page }
        ensures step { Step self.old.state (Event.End Kind.Fill (end_of finished)) (fill_ended result) self.new.state }
        ensures lists { self.new.lists ≡ lists_after self.old.state (Event.End Kind.Fill (end_of finished)) (fill_ended result) self.old.lists }
        ensures back { EndGivesBack finished result }
        ensures file { NamesFile self.old.state Kind.Fill finished.serial result }
    {
        let Some(request) = take_ended(&mut self.requests, self.name, Kind::Fill, &finished) else {
            let refusal = Refusal::Stranger;
            return Err(RefusedEnd { refusal, finished });
        };
        let FinishedParts {
            buffer,
            outcome,
            ..
        } = finished.into_parts();
        self.blocks.release(request.block);
        if request.dropped {
            return Ok(Ended::Dropped(buffer));
        }
        match outcome {
            Ok(()) => {
                let (file, page) = (request.file, request.page);
                let valid = valid_of(self.blocks.map(file, page));
                self.pages
                    .finish_fill(file.0, page.0, buffer.as_slice(), valid);
                Ok(Ended::Done(buffer))
            }
            Err(code) => {
                let file = request.file;
                self.pages.leave(file.0, request.page.0);
                Ok(Ended::Failed(file, code, buffer))
            }
        }
    }

    /// Where a page stands that has bytes on the device.
    fn place_to_read(&self, file: u64, page: PageIndex) -> Option<Placed>
        requires here { file < length self.now.state.files }
        requires below { page.0 < MAX_PAGES }
        ensures some { IfSome result (λ placed. spot_at self.now.state file page.0 ≡ Some (its_spot placed)) }
        ensures valid { IfSome result (λ placed. 0 < placed.valid) }
        ensures none { IfNone result (is_written self.now.state file page.0 ≡ false) }
        ensures within { IfSome result (λ placed. placed.block.0 < self.now.state.sizes.blocks) }
    {
        // for what `free_count` ensures: the block of a page is one of the device's
        prove!(self.blocks.free_count() <= u64::MAX);
        let placed = self.blocks.map(FileId(file), page)?;
        if placed.valid > 0 { Some(placed) } else { None }
    }

    /// Begins a request that reads an absent page from its block. Refused by `TooManyInFlight` and by `Memory`.
    fn begin_read(&mut self, file: u64, page: PageIndex, placed: Placed) -> Result<Serial, Refusal>
        requires here { file < length self.old.state.files }
        requires below { page.0 < MAX_PAGES }
        requires absent { is_cached self.old.state file page.0 ≡ false }
        requires idle { is_filling self.old.state file page.0 ≡ false }
        requires room { 0 < free_frames self.old.state }
        requires placed { spot_at self.old.state file page.0 ≡ Some (its_spot placed) }
        requires valid { 0 < placed.valid }
        ensures begun { IfOk result (λ t. (is_full self.old.state ≡ false) × (t.0 ≡ self.old.state.next) × (self.new.state ≡ requested self.old.state Kind.Fill file page.0) × (self.new.lists ≡ entered file page.0 self.old.lists)) }
        ensures refused { IfErr result (λ r. (self.new ≡ self.old) × (r ≡ (if is_full self.old.state then TooManyInFlight else Memory))) }
    {
        if self.requests.is_full() {
            return Err(Refusal::TooManyInFlight);
        }
        if self.pages.start_fill(file, page.0).is_err() {
            return Err(Refusal::Memory);
        }
        let block = placed.block;
        self.blocks.hold(block);
        Ok(self.requests.begin(Kind::Fill, FileId(file), page, block))
    }
}

/// How many bytes of its block are a page's, and none where it has no block.
fn valid_of(placed: Option<Placed>) -> usize
    ensures { result ≡ unwrap_or (option_map (λ p. p.valid) placed) 0 }
{
    match placed {
        Some(placed) => placed.valid as usize,
        None => 0,
    }
}
