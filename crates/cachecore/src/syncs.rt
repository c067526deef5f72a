//! Syncs: the pages of a file that are DIRTY as a sync begins are written, and it tells whether a write of the file failed since.

ghost use Rattle.std.specs.Prelude.{◌≡◌, ◌≢◌, ◌<◌, Err, IfErr, IfOk, false, length};
ghost use Rattle.blockdev.specs.Jobs.{IsJobFor};
ghost use Rattle.mapping.specs.declared.mapping.TheConstants.{MAX_PAGES};
ghost use Rattle.pc_types.specs.declared.refusal.Refusal.TheVariants.{Memory, TooManyInFlight};
ghost use Rattle.machine.specs.declared.event.Reply.TheVariants as reply;
ghost use Rattle.machine.specs.Step.{Step};
ghost use Rattle.pc_types.specs.declared.limits.TheConstants.{LAST_PAGE};
ghost use Rattle.cachecore.specs.Replies.{IsSyncJob, OnSyncJob, SyncGivesBack, sync_begun, sync_dropped, sync_stepped};
ghost use Rattle.cachecore.specs.Starting.{IsNext, IsToStart};
ghost use Rattle.cachecore.specs.Nexts.{OnStart, is_start, sync_says};
ghost use Rattle.cachecore.specs.declared.syncs.SyncNext.TheVariants as next;

use crate::answers::{Refused, SyncStepped};
use crate::cache::CacheCore;
use blockdev::Buffer;
use machine::Event;
use pc_types::limits::LAST_PAGE;
use pc_types::{ErrCode, FileId, HandleId, PageIndex, Refusal, SyncId};
use writeback::SyncStep;

/// What a sync does next.
#[derive(Clone, Copy)]
pub(crate) enum SyncNext {
    /// It starts the write of this page of its file.
    Start(FileId, PageIndex),
    /// It waits for a write of this page.
    Wait(PageIndex),
    /// It is over, and no write of the file failed meanwhile.
    Clean,
    /// It is over, and a write failed, the last with this code.
    Failed(ErrCode),
}

impl CacheCore {
    /// Begins a sync of the handle's whole file, by the lowest free number. Pages that become DIRTY later do not prolong it.
    pub fn sync_begin(&mut self, handle: HandleId) -> Result<SyncId, Refusal>
        ensures step { Step self.old.state (Event.SyncBegin handle (record { 0 = 0 }) (record { 0 = LAST_PAGE })) (sync_begun result) self.new.state }
        ensures lists { self.new.lists ≡ self.old.lists }
        ensures no_memory { result ≢ Err Refusal.Memory }
    {
        self.sync_begin_range(handle, PageIndex(0), PageIndex(LAST_PAGE))
    }

    /// Begins a sync of the pages from `first` to `last` of the handle's file, by the lowest free number. Pages that become DIRTY
    /// later do not prolong it.
    pub fn sync_begin_range(
        &mut self,
        handle: HandleId,
        first: PageIndex,
        last: PageIndex,
    ) -> Result<SyncId, Refusal>
        ensures step { Step self.old.state (Event.SyncBegin handle first last) (sync_begun result) self.new.state }
        ensures lists { self.new.lists ≡ self.old.lists }
        ensures no_memory { result ≢ Err Refusal.Memory }
    {
        let Some(file) = self.handles.file(handle.0) else {
            return Err(Refusal::BadHandle);
        };
        if last.0 < first.0 {
            return Err(Refusal::BadRange);
        }
        let failures = self.pages.failures(file);
        let sync = self.syncs.begin(handle, first, last, failures)?;
        self.pages.sync_begin(file, first, last);
        Ok(sync)
    }

    /// Goes on with a sync: starts the write of its lowest page that is left, or tells what it waits for, or is over. The
    /// buffer is for a copy of the page's bytes, and has as many as a page.
    pub fn sync_step(&mut self, sync: SyncId, buffer: Buffer) -> Result<SyncStepped, Refused>
        requires size { length buffer ≡ self.old.state.sizes.page }
        ensures step { Step self.old.state (Event.SyncStep sync) (sync_stepped result) self.new.state }
        ensures job { IsSyncJob self.new.state result }
        ensures fits { OnSyncJob result (IsJobFor self.old.state.name self.old.state.sizes.blocks self.old.state.sizes.page) }
        ensures lists { self.new.lists ≡ self.old.lists }
        ensures back { SyncGivesBack buffer result }
        ensures no_memory { IfErr result (λ e. e.refusal ≢ Memory) }
    {
        let next = match self.next_of(sync) {
            Ok(next) => next,
            Err(refusal) => return Err(Refused { refusal, buffer }),
        };
        match next {
            SyncNext::Start(file, page) => {
                let job = self.begin_flush(file, page, buffer);
                self.syncs.started(sync, page);
                Ok(SyncStepped::Job(job))
            }
            SyncNext::Wait(page) => Ok(SyncStepped::Wait(page, buffer)),
            SyncNext::Clean => Ok(SyncStepped::Clean(buffer)),
            SyncNext::Failed(code) => Ok(SyncStepped::Failed(code, buffer)),
        }
    }

    /// What a sync does next. Where it starts a page that is left to the caller, and else the step is made.
    pub(crate) fn next_of(&mut self, sync: SyncId) -> Result<SyncNext, Refusal>
        ensures starts { IfOk result (OnStart (λ file page. IsToStart self.old.state sync file.0 page.0 × (self.new ≡ self.old))) }
        ensures step { is_start result ≡ false → Step self.old.state (Event.SyncStep sync) (sync_says result) self.new.state }
        ensures lists { self.new.lists ≡ self.old.lists }
        ensures no_memory { result ≢ Err Memory }
    {
        let Some(progress) = self.syncs.get(sync) else {
            return Err(Refusal::Stranger);
        };
        let Some(file) = self.handles.file(progress.handle.0) else {
            unreachable!()
        };
        match self.pages.sync_step(file, &self.requests, &progress) {
            SyncStep::Start(found) => self.start_of(sync, file, found.page),
            SyncStep::Held(page) => Ok(SyncNext::Wait(page)),
            SyncStep::Await(page, bound) => {
                self.syncs.set_bound(sync, bound);
                Ok(SyncNext::Wait(page))
            }
            SyncStep::Over => {
                let _ = self.syncs.remove(sync);
                match self.pages.failure_since(file, progress.failures) {
                    None => Ok(SyncNext::Clean),
                    Some(code) => Ok(SyncNext::Failed(code)),
                }
            }
        }
    }

    /// The lowest page that a sync has left, where one more request may begin.
    fn start_of(&self, sync: SyncId, file: u64, page: PageIndex) -> Result<SyncNext, Refusal>
        requires next { IsNext self.now.state sync.0 file page.0 }
        requires below { page.0 < MAX_PAGES }
        ensures starts { IfOk result (λ n. (n ≡ next.Start (record { 0 = file }) page) × IsToStart self.now.state sync file page.0) }
        ensures refused { IfErr result (λ r. (r ≡ TooManyInFlight) × Step self.now.state (Event.SyncStep sync) (reply.Refused r) self.now.state) }
    {
        if self.requests.is_full() {
            return Err(Refusal::TooManyInFlight);
        }
        Ok(SyncNext::Start(FileId(file), page))
    }

    /// Forgets a sync. The tags that it set stay.
    pub fn sync_drop(&mut self, sync: SyncId) -> Result<(), Refusal>
        ensures step { Step self.old.state (Event.SyncDrop sync) (sync_dropped result) self.new.state }
        ensures lists { self.new.lists ≡ self.old.lists }
        ensures no_memory { result ≢ Err Refusal.Memory }
    {
        if self.syncs.remove(sync).is_none() {
            return Err(Refusal::Stranger);
        }
        Ok(())
    }
}
