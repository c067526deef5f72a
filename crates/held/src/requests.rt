//! Requests: fills and flushes of pages.

ghost use Rattle.std.specs.Prelude.{◌≡◌, IfErr, IfOk, IfSome, Ok, length};
ghost use Rattle.blockdev.specs.Jobs.{IsJobFor};
ghost use Rattle.cachecore.specs.Replies.{EndGivesBack, FlushGivesBack, GivesBack, IsFillJob, IsFlushJob, NamesFile, OnFillJob, OnFlushJob, end_of, fill_begun, fill_ended, flush_begun, flush_ended};
ghost use Rattle.machine.specs.declared.event.Event.TheVariants as event;
ghost use Rattle.pc_types.specs.declared.kind.Kind.TheVariants.{Fill, Flush};
ghost use Rattle.held.specs.Denials.{IsDenied};
ghost use Rattle.held.specs.Ends.{HasFailure, IsRecorded, IsRecordedOf, ended_as};
ghost use Rattle.held.specs.Entered.{Made};
ghost use Rattle.held.specs.Started.{as_fill, as_flush};

use crate::denied::{Denied, by};
use crate::end::{bytes_of, end_without, gone_through, is_well, record};
use crate::log::{Seat, Slip};
use crate::naming::Naming;
use crate::started::{FillStarted, FlushStarted, fill_started, flush_started};
use crate::state::Held;
use blockdev::{Buffer, Finished};
use cachecore::replies::{of_fill_begin, of_fill_end, of_flush_begin, of_flush_end};
use cachecore::{Ended, Event};
use deeds::sides::{Report, Stub};
use errboard::Receipt;
use pc_types::{FileId, HandleId, Kind, PageIndex};
use trail::Trail;

impl<B: Naming, T: Trail> Held<B, T> {
    /// Begins to fill a page.
    pub fn fill_begin(
        &mut self,
        seat: &mut Seat,
        handle: HandleId,
        page: PageIndex,
        buffer: Buffer,
    ) -> Result<(FillStarted<B>, Slip), Denied>
        requires seat { seat.old.table ≡ B.table }
        requires size { length buffer ≡ B.sizes.page }
        ensures made { IfOk result (λ r. Made (event.FillBegin handle page) (fill_begun (Ok (as_fill r.0))) self.old self.new seat.old seat.new r.1) }
        ensures job { IfOk result (λ r. IsFillJob self.new.core.state (Ok (as_fill r.0))) }
        ensures fits { IfOk result (λ r. OnFillJob (Ok (as_fill r.0)) (IsJobFor B.name B.sizes.blocks B.sizes.page)) }
        ensures back { IfOk result (λ r. GivesBack buffer (Ok (as_fill r.0))) }
        ensures denied { IfErr result (IsDenied B.files B.sizes B.name B.whole (event.FillBegin handle page) self.old self.new seat.old seat.new) }
    {
        let Held {
            core,
            log,
            desk,
            ..
        } = self;
        // The end of a fill may have the bytes of a page.
        if !log.has_room(core, 2, core.geometry().page()) {
            return Err(log.full(seat));
        }
        let answer = core.fill_begin(handle, page, buffer);
        let event = Event::FillBegin(handle, page);
        let slip = log.enter(seat, event, of_fill_begin(&answer), &[]);
        match fill_started(desk, answer) {
            Ok(begun) => Ok((begun, slip)),
            Err(refused) => Err(by(refused.refusal, slip)),
        }
    }

    /// Begins to write the file's lowest page that is to be written.
    pub fn flush_begin(
        &mut self,
        seat: &mut Seat,
        file: FileId,
        buffer: Buffer,
    ) -> Result<(FlushStarted<B>, Slip), Denied>
        requires seat { seat.old.table ≡ B.table }
        requires size { length buffer ≡ B.sizes.page }
        ensures made { IfOk result (λ r. Made (event.FlushBegin file) (flush_begun (Ok (as_flush r.0))) self.old self.new seat.old seat.new r.1) }
        ensures job { IfOk result (λ r. IsFlushJob self.new.core.state (Ok (as_flush r.0))) }
        ensures fits { IfOk result (λ r. OnFlushJob (Ok (as_flush r.0)) (IsJobFor B.name B.sizes.blocks B.sizes.page)) }
        ensures back { IfOk result (λ r. FlushGivesBack buffer (Ok (as_flush r.0))) }
        ensures denied { IfErr result (IsDenied B.files B.sizes B.name B.whole (event.FlushBegin file) self.old self.new seat.old seat.new) }
    {
        let Held {
            core,
            log,
            desk,
            ..
        } = self;
        if !log.has_room(core, 2, 0) {
            return Err(log.full(seat));
        }
        let answer = core.flush_begin(file, buffer);
        let slip = log.enter(seat, Event::FlushBegin(file), of_flush_begin(&answer), &[]);
        match flush_started(desk, answer) {
            Ok(begun) => Ok((begun, slip)),
            Err(refused) => Err(by(refused.refusal, slip)),
        }
    }

    /// Ends a request, by its kind. A write that failed is recorded, once, and its receipt handed out. No end is refused: the deed that
    /// comes back with the report tells that the request is in flight, and so that there is room for its end (decision 187).
    pub fn end(&mut self, seat: &mut Seat, report: Report<B>) -> (Ended, Option<Receipt>, Slip)
        requires seat { seat.old.table ≡ B.table }
        requires size { report.kind ≡ Fill → length report.bytes ≡ B.sizes.page }
        ensures made { Made (event.End report.kind (end_of report)) (ended_as report.kind (Ok result.0)) self.old self.new seat.old seat.new result.2 }
        ensures file { NamesFile self.old.core.state report.kind report.serial (Ok result.0) }
        ensures receipt { IsRecordedOf report.kind self.old.errors result.0 result.1 self.new.errors }
        ensures failure { HasFailure self.old.core.state result.0 result.1 }
        ensures own { IfSome result.1 (λ receipt. receipt.board ≡ B.board) }
        ensures back { EndGivesBack report (Ok result.0) }
    {
        let kind = report.finished().kind();
        let (finished, stub) = report.parts();
        match kind {
            Kind::Fill => {
                let (ended, slip) = self.end_fill(seat, finished, stub);
                (ended, None, slip)
            }
            Kind::Flush => self.end_flush(seat, finished, stub),
        }
    }

    /// Ends a fill. Its deed comes back first: that tells that the fill is in flight.
    fn end_fill(&mut self, seat: &mut Seat, finished: Finished, stub: Stub<B>) -> (Ended, Slip)
        requires seat { seat.old.table ≡ B.table }
        requires stub { stub ≡ finished }
        requires kind { finished.kind ≡ Fill }
        requires size { length finished.bytes ≡ B.sizes.page }
        ensures made { Made (event.End Fill (end_of finished)) (fill_ended (Ok result.0)) self.old self.new seat.old seat.new result.1 }
        ensures file { NamesFile self.old.core.state Fill finished.serial (Ok result.0) }
        ensures back { EndGivesBack finished (Ok result.0) }
    {
        let Held {
            core,
            log,
            alloc,
            desk,
            ..
        } = self;
        desk.take_back(stub);
        let end = end_without(&finished, *alloc);
        let is_read = is_well(&finished);
        let answer = core.fill_end(finished);
        let reply = of_fill_end(&answer);
        let bytes = bytes_of(&answer, is_read);
        let slip = log.enter(seat, Event::End(Kind::Fill, end), reply, bytes);
        (gone_through(answer), slip)
    }

    /// Ends a flush, whose deed comes back first.
    fn end_flush(
        &mut self,
        seat: &mut Seat,
        finished: Finished,
        deed: Stub<B>,
    ) -> (Ended, Option<Receipt>, Slip)
        requires seat { seat.old.table ≡ B.table }
        requires deed { deed ≡ finished }
        requires kind { finished.kind ≡ Flush }
        ensures made { Made (event.End Flush (end_of finished)) (flush_ended (Ok result.0)) self.old self.new seat.old seat.new result.2 }
        ensures file { NamesFile self.old.core.state Flush finished.serial (Ok result.0) }
        ensures receipt { IsRecorded self.old.errors (Ok result.0) result.1 self.new.errors }
        ensures failure { HasFailure self.old.core.state result.0 result.1 }
        ensures own { IfSome result.1 (λ receipt. receipt.board ≡ B.board) }
        ensures back { EndGivesBack finished (Ok result.0) }
    {
        let Held {
            core,
            log,
            recorder,
            alloc,
            desk,
            ..
        } = self;
        desk.take_back(deed);
        let end = end_without(&finished, *alloc);
        let answer = core.flush_end(finished);
        let reply = of_flush_end(&answer);
        let slip = log.enter(seat, Event::End(Kind::Flush, end), reply, &[]);
        let receipt = record(recorder, &answer);
        (gone_through(answer), receipt, slip)
    }
}
