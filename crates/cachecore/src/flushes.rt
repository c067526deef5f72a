//! Flushes: the lowest page of a file that is dirty and has no write in flight, written to its block.

ghost use Rattle.std.specs.Prelude.{◌≡◌, ◌≢◌, ◌<◌, IfErr, IfNone, IfOk, IfSome, false, length, option_map};
ghost use Rattle.blockdev.specs.Jobs.{IsJobFor};
ghost use Rattle.mapping.specs.declared.mapping.TheConstants.{MAX_PAGES};
ghost use Rattle.pc_types.specs.declared.refusal.Refusal.TheVariants.{Memory};
ghost use Rattle.machine.specs.declared.event.Reply.TheVariants as reply;
ghost use Rattle.machine.specs.Step.{Step};
ghost use Rattle.cachecore.specs.Replies.{EndGivesBack, FlushGivesBack, IsFlushJob, NamesFile, OnFlushJob, end_of, flush_begun, flush_ended};
ghost use Rattle.cachecore.specs.Starting.{IsStarted, IsToFlush, MayStart};
ghost use Rattle.machine.specs.Tests.{is_full};

use crate::answers::{Ended, FlushBegun, Refused, RefusedEnd};
use crate::cache::CacheCore;
use crate::ends::take_ended;
use blockdev::{Buffer, Finished, FinishedParts, Job};
use machine::Event;
use pc_types::{FileId, Kind, PageIndex, Refusal};

impl CacheCore {
    /// Begins to write the file's lowest page that is dirty and has no write in flight. The buffer is for a copy of its
    /// bytes, and has as many as a page.
    pub fn flush_begin(&mut self, file: FileId, buffer: Buffer) -> Result<FlushBegun, Refused>
        requires size { length buffer ≡ self.old.state.sizes.page }
        ensures step { Step self.old.state (Event.FlushBegin file) (flush_begun result) self.new.state }
        ensures job { IsFlushJob self.new.state result }
        ensures fits { OnFlushJob result (IsJobFor self.old.state.name self.old.state.sizes.blocks self.old.state.sizes.page) }
        ensures lists { self.new.lists ≡ self.old.lists }
        ensures back { FlushGivesBack buffer result }
        ensures no_memory { IfErr result (λ e. e.refusal ≢ Memory) }
    {
        match self.page_to_flush(file) {
            Ok(Some(page)) => Ok(FlushBegun::Job(self.begin_flush(file, page, buffer))),
            Ok(None) => Ok(FlushBegun::Nothing(buffer)),
            Err(refusal) => Err(Refused { refusal, buffer }),
        }
    }

    /// The page that a flush of the file writes, where there is one.
    pub(crate) fn page_to_flush(&self, file: FileId) -> Result<Option<PageIndex>, Refusal>
        ensures refused { IfErr result (λ r. Step self.now.state (Event.FlushBegin file) (reply.Refused r) self.now.state × (r ≢ Memory)) }
        ensures none { IfOk result (λ o. IfNone o (Step self.now.state (Event.FlushBegin file) reply.Nothing self.now.state)) }
        ensures some { IfOk result (λ o. IfSome o (λ page. IsToFlush self.now.state file page.0)) }
    {
        if file.0 >= self.pages.file_count() {
            return Err(Refusal::NoSuchFile);
        }
        let Some(number) = self.pages.flush_pick(file.0) else {
            return Ok(None);
        };
        if self.requests.is_full() {
            return Err(Refusal::TooManyInFlight);
        }
        Ok(Some(PageIndex(number)))
    }

    /// Begins to write a page that is DIRTY and has no write in flight. The buffer is for a copy of its bytes.
    pub(crate) fn begin_flush(&mut self, file: FileId, page: PageIndex, mut buffer: Buffer) -> Job
        requires here { file.0 < length self.old.state.files }
        requires startable { MayStart self.old.state file.0 page.0 }
        requires below { page.0 < MAX_PAGES }
        requires room { is_full self.old.state ≡ false }
        requires size { length buffer ≡ self.old.state.sizes.page }
        ensures begun { IsStarted self.old.state file.0 page.0 result self.new.state }
        ensures fits { IsJobFor self.old.state.name self.old.state.sizes.blocks self.old.state.sizes.page result }
        ensures lists { self.new.lists ≡ self.old.lists }
    {
        // for what `free_count` ensures: the block of a page is one of the device's
        prove!(self.blocks.free_count() <= u64::MAX);
        let Some(placed) = self.blocks.map(file, page) else {
            unreachable!()
        };
        let block = placed.block;
        self.pages
            .start_write(file.0, page.0, buffer.as_mut_slice());
        self.blocks.hold(block);
        let serial = self.requests.begin(Kind::Flush, file, page, block);
        Job::new(self.name, serial, Kind::Flush, block, buffer)
    }

    /// Ends a flush by its finished job. Refused by `Stranger` where no flush of this cache with this serial is in flight;
    /// what was handed in comes back.
    pub fn flush_end(&mut self, finished: Finished) -> Result<Ended, RefusedEnd>
        ensures step { Step self.old.state (Event.End Kind.Flush (end_of finished)) (flush_ended result) self.new.state }
        ensures lists { self.new.lists ≡ self.old.lists }
        ensures back { EndGivesBack finished result }
        ensures file { NamesFile self.old.state Kind.Flush finished.serial result }
    {
        let Some(request) = take_ended(&mut self.requests, self.name, Kind::Flush, &finished) else {
            let refusal = Refusal::Stranger;
            return Err(RefusedEnd { refusal, finished });
        };
        let FinishedParts {
            buffer,
            outcome,
            ..
        } = finished.into_parts();
        self.blocks.release(request.block);
        if request.dropped {
            return Ok(Ended::Dropped(buffer));
        }
        match outcome {
            Ok(()) => {
                self.pages
                    .finish_write(request.file.0, request.page.0, false);
                let page = self.geometry.page() as u32;
                self.blocks.set_valid(request.file, request.page, page);
                Ok(Ended::Done(buffer))
            }
            Err(code) => {
                let file = request.file;
                // DIRTY again, and counted: a sync that ends compares the counts (rules 9 and 14 of docs/DESIGN.md).
                self.pages.finish_write(file.0, request.page.0, true);
                self.pages.note_failure(file.0, u64::from(code.code()));
                Ok(Ended::Failed(file, code, buffer))
            }
        }
    }
}
