//! A job's device call, and the end of its request: a caller's own, a worker's, and as the cache is closed.

ghost use Rattle.std.specs.Prelude.{◌≡◌, Bool, IfErr, IfSome, Some, false, is_some, length, option_map};
ghost use Rattle.atomic_table.specs.Seated.{TableId};
ghost use Rattle.blockdev.specs.Jobs.{IsJobFor, Task};
ghost use Rattle.cachecore.specs.Replies.{buffer_of, end_of};
ghost use Rattle.machine.specs.declared.event.Event.TheVariants as event;
ghost use Rattle.machine.specs.declared.event.Reply.{Reply};
ghost use Rattle.pc_types.specs.declared.kind.Kind.TheVariants.{Fill, Flush};
ghost use Rattle.held.specs.Called.{Goes, Only};
ghost use Rattle.held.specs.declared.log.Slip.{Slip};
ghost use Rattle.shared.specs.Called.{Makes};
ghost use Rattle.shared.specs.Denials.{IsDenied, MadeOne};
ghost use Rattle.shared.specs.Own.{IsHelp};
ghost use Rattle.shared.specs.Rooms.{FailsToWrite, IsFinal, is_written, wants_room};
ghost use Rattle.shared.specs.Settled.{EndsOne, IsEnded};
ghost use Rattle.shared.specs.Synced.{IsFlushEnd};
ghost use Rattle.shared.specs.Workers.{Ends, IsEndOf, IsEndReply, IsOfRequest, IsOver, IsOwnFailure, fails_write};

use crate::brief::BriefLock;
use crate::cache::SharedCache;
use crate::disk::Disk;
use crate::handle::FailedWrite;
use blockdev::{BlockDevice, Buffer};
use cachecore::Ended;
use deeds::sides::{Errand, Report};
use errboard::Receipt;
use held::denied::{Denied, by};
use held::log::{Seat, Slip};
use held::naming::Naming;
use held::state::Held;
use pc_types::{HandleId, Refusal, Serial};
use std::sync::{Mutex, Wait};
use trail::Trail;

impl<B: Naming, D: BlockDevice, T: Trail> SharedCache<B, D, T> {
    /// Makes the device call of a fill, without the state's lock, and ends the fill. Refused where the call failed, by its code.
    #[tactic(auto, using(held::proofs::Seats::goes_by, crate::proofs::Making::failed_end, crate::proofs::Owning::only_fill_end, crate::proofs::Rooming::io_unwanted, crate::proofs::Rooming::io_final))]
    pub(crate) fn fill_by<R: Wait>(
        &self,
        rt: &R,
        seat: &mut Seat,
        handle: HandleId,
        job: Errand<B>,
    ) -> Result<(), Denied>
        requires seat { seat.old.table ≡ B.table }
        requires fits { IsJobFor B.name B.sizes.blocks B.sizes.page job }
        requires kind { job.kind ≡ Fill }
        ensures goes { Goes seat.old seat.new }
        ensures only { Only (λ e. IsHelp handle e.event) seat.old seat.new }
        ensures denied { IfErr result (IsDenied B.files B.sizes B.name B.whole (IsHelp handle) seat.old seat.new) }
        ensures unwanted { IfErr result (λ d. wants_room d.refusal ≡ false) }
        ensures stands { IfErr result (IsFinal B.files B.sizes B.name seat.new) }
        ensures ends { EndsOne B.name (Fill, job.serial) seat.old seat.new }
    {
        let report = self.disk.lock(rt).carry_out(job);
        let (ended, _, slip) = self.state.lock(rt).end(seat, report);
        self.has_ended(rt);
        match &ended {
            Ended::Failed(_, code, _) => Err(by(Refusal::Io(*code), slip)),
            _ => Ok(()),
        }
    }

    /// Makes the device call of a flush, without the state's lock, and ends the flush. Answers whether the page was written, with the
    /// job's buffer.
    #[tactic(auto, using(held::proofs::Seats::goes_by, crate::proofs::Owning::only_flush_end, crate::proofs::Rooming::failed_by))]
    pub(crate) fn flush_by<R: Wait>(
        &self,
        rt: &R,
        seat: &mut Seat,
        job: Errand<B>,
    ) -> (bool, Buffer)
        requires seat { seat.old.table ≡ B.table }
        requires fits { IsJobFor B.name B.sizes.blocks B.sizes.page job }
        requires kind { job.kind ≡ Flush }
        ensures goes { Goes seat.old seat.new }
        ensures only { Only (λ e. IsFlushEnd e.event) seat.old seat.new }
        ensures failed { result.0 ≡ false → FailsToWrite seat.old seat.new }
        ensures size { length result.1 ≡ B.sizes.page }
        ensures ends { EndsOne B.name (Flush, job.serial) seat.old seat.new }
    {
        let report = self.disk.lock(rt).carry_out(job);
        let (ended, _, _) = self.state.lock(rt).end(seat, report);
        self.has_ended(rt);
        written(ended)
    }

    /// Makes a job's device call, ends its request, and wakes those who wait for an end.
    pub(crate) fn end_job<R: Wait>(&self, rt: &R, seat: &mut Seat, job: Errand<B>) -> Done
        requires seat { seat.old.table ≡ B.table }
        requires fits { IsJobFor B.name B.sizes.blocks B.sizes.page job }
        ensures goes { Goes seat.old seat.new }
        ensures only { Only (λ e. IsEndOf job e.event) seat.old seat.new }
        ensures ends { Only (λ e. IsEnded B.name (job.kind, job.serial) e.event) seat.old seat.new }
        ensures ended { (result.serial.0 ≡ job.serial) × Ends job seat.old seat.new result.slip (is_some result.failed) }
        ensures one { MadeOne (Some result.slip) seat.old seat.new }
        ensures failed { IfSome result.failed (IsOwnFailure self.now.name B.board) }
        ensures file { IfSome result.failed (λ w. IsOfRequest B.files B.sizes B.name result.serial.0 seat.new result.slip w.receipt) }
    {
        let done = carry_through(rt, &self.disk, &self.state, self.name, seat, job);
        self.has_ended(rt);
        done
    }
}

/// Whether the write of a flush that ended so did not fail, and its buffer.
fn written(ended: Ended) -> (bool, Buffer)
    ensures is { result.0 ≡ is_written ended }
    ensures back { result.1 ≡ buffer_of ended }
{
    match ended {
        Ended::Failed(_, _, buffer) => (false, buffer),
        Ended::Done(buffer) => (true, buffer),
        Ended::Dropped(buffer) => (true, buffer),
    }
}

/// A request that was ended: its serial, the slip of its end, and the failed write, where it was one.
#[derive(Drop)]
pub struct Done {
    pub serial: Serial,
    pub slip: Slip,
    pub failed: Option<FailedWrite>,
}

/// Makes a job's device call, without the state's lock, and ends its request.
#[tactic(auto, using(crate::proofs::Ending::ends_by))]
pub(crate) fn carry_through<B: Naming, D: BlockDevice, T: Trail, R: Wait>(
    rt: &R,
    disk: &Mutex<Disk<B, D>>,
    state: &BriefLock<Held<B, T>>,
    name: u64,
    seat: &mut Seat,
    job: Errand<B>,
) -> Done
    requires seat { seat.old.table ≡ B.table }
    requires fits { IsJobFor B.name B.sizes.blocks B.sizes.page job }
    ensures goes { Goes seat.old seat.new }
    ensures only { Only (λ e. IsEndOf job e.event) seat.old seat.new }
    ensures ends { Only (λ e. IsEnded B.name (job.kind, job.serial) e.event) seat.old seat.new }
    ensures ended { (result.serial.0 ≡ job.serial) × Ends job seat.old seat.new result.slip (is_some result.failed) }
    ensures one { MadeOne (Some result.slip) seat.old seat.new }
    ensures failed { IfSome result.failed (IsOwnFailure name B.board) }
    ensures file { IfSome result.failed (λ w. IsOfRequest B.files B.sizes B.name result.serial.0 seat.new result.slip w.receipt) }
{
    let serial = job.job().serial();
    let report = disk.lock(rt).carry_out(job);
    let (slip, receipt) = end(&mut state.lock(rt), seat, report);
    Done {
        serial,
        slip,
        failed: failure(name, receipt),
    }
}

/// The failed write of a receipt, where there is one.
fn failure(name: u64, receipt: Option<Receipt>) -> Option<FailedWrite>
    ensures is { result ≡ option_map (λ r. record { cache = name; receipt = r }) receipt }
    ensures told { is_some result ≡ is_some receipt }
    ensures own { (board : TableId) → IfSome receipt (λ r. r.board ≡ board) → IfSome result (IsOwnFailure name board) }
{
    match receipt {
        Some(receipt) => Some(FailedWrite {
            cache: name,
            receipt,
        }),
        None => None,
    }
}

/// Makes a job's device call, and ends its request. The receipt of a write that failed goes: no handle is left to be told.
#[tactic(auto, using(crate::proofs::Ending::ends_by))]
pub(crate) fn finish<B: Naming, D: BlockDevice, T: Trail>(
    disk: &mut Disk<B, D>,
    state: &mut Held<B, T>,
    seat: &mut Seat,
    job: Errand<B>,
)
    requires seat { seat.old.table ≡ B.table }
    requires fits { IsJobFor B.name B.sizes.blocks B.sizes.page job }
    ensures goes { Goes seat.old seat.new }
    ensures only { Only (λ e. IsEndOf job e.event) seat.old seat.new }
    ensures ended { (slip : Slip) × (told : Bool) × Ends job seat.old seat.new slip told }
    ensures over { IsOver state.new.core.state job }
    ensures others { (other : Task) → IsOver state.old.core.state other → IsOver state.new.core.state other }
{
    let report = disk.carry_out(job);
    let _ = end(state, seat, report);
}

/// Ends a request.
#[tactic(auto, using(held::proofs::Seats::goes_by, crate::proofs::Making::makes_by, crate::proofs::Making::made_one, crate::proofs::Owning::only_end))]
fn end<B: Naming, T: Trail>(
    state: &mut Held<B, T>,
    seat: &mut Seat,
    report: Report<B>,
) -> (Slip, Option<Receipt>)
    requires seat { seat.old.table ≡ B.table }
    requires size { length report.bytes ≡ B.sizes.page }
    requires cache { report.cache ≡ B.name }
    ensures goes { Goes seat.old seat.new }
    ensures over { (job : Task) → report.serial ≡ job.serial → IsOver state.new.core.state job }
    ensures others { (job : Task) → IsOver state.old.core.state job → IsOver state.new.core.state job }
    ensures only { (job : Task) → report.kind ≡ job.kind → report.serial ≡ job.serial → report.cache ≡ job.cache → report.block ≡ job.block → Only (λ e. IsEndOf job e.event) seat.old seat.new }
    ensures ends { Only (λ e. IsEnded B.name (report.kind, report.serial) e.event) seat.old seat.new }
    ensures made { (reply : Reply) × Makes seat.old seat.new result.0 (event.End report.kind (end_of report)) reply × IsEndReply reply × (is_some result.1 ≡ fails_write report.kind reply) }
    ensures one { MadeOne (Some result.0) seat.old seat.new }
    ensures own { IfSome result.1 (λ receipt. receipt.board ≡ B.board) }
    ensures file { IfSome result.1 (IsOfRequest B.files B.sizes B.name report.serial seat.new result.0) }
{
    // Lends that the history is legal.
    let _ = state.core();
    let (_, receipt, slip) = state.end(seat, report);
    (slip, receipt)
}
