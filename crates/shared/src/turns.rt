//! The turns of workers.

ghost use Rattle.std.specs.Prelude.{◌≡◌, ◌+◌, ◌++◌, ◌∷◌, [], IfErr, IfNone, IfOk, IfSome, Some, is_some};
ghost use Rattle.blockdev.specs.Jobs.{IsJobFor, Task};
ghost use Rattle.crossbeam_queue.specs.Fifo as fifo;
ghost use Rattle.crossbeam_queue.specs.Passes.{view};
ghost use Rattle.held.specs.Called.{Goes, Only};
ghost use Rattle.ring.specs.Order.{Stands};
ghost use Rattle.shared.specs.Denials.{IsDenied, MadeOne};
ghost use Rattle.shared.specs.Settled.{EndsOwn, IsBegun};
ghost use Rattle.shared.specs.Turns.{EntersBy, WasFull};
ghost use Rattle.shared.specs.Workers.{AllCarried, Begins, Ends, FailsOf, FailsOwn, FindsNothing, IsEnd, IsFlushBegin, IsFlushed, IsOfRequest, IsOwnFailure, IsWorkerOf, IsWriteBack, OnBegun, RefusesFirst, entered_in, company_of, popped_by, pushed_by, seat_of};

use crate::cache::SharedCache;
use crate::ends::Done;
use crate::jobs::{put, take};
use crate::worker::Worker;
use blockdev::{BlockDevice, Buffer, Gate};
use deeds::sides::Errand;
use held::denied::{Denied, without_slip};
use held::log::{Seat, Slip};
use held::naming::Naming;
use pc_types::Serial;
use std::sync::Wait;
use trail::Trail;

/// What a turn of the flusher did.
#[derive(Drop)]
pub enum Flushed {
    /// It found no page to write.
    Nothing,
    /// A write was begun, and its job put into the ring: its serial, and the slip of its beginning.
    Pushed(Serial, Slip),
    /// A write was begun and ended.
    Ended(Slip, Done),
}

impl<B: Naming, D: BlockDevice, T: Trail> SharedCache<B, D, T> {
    /// One turn of an I/O worker: it takes a job from the ring, makes its device call, and ends its request. Answers nothing only where
    /// the ring was empty at one moment of the turn. The gate is entered with the job's serial, before the device call.
    #[tactic(auto, using(held::proofs::Seats::goes_same, held::proofs::Seats::only_same, crate::proofs::Owning::only_job))]
    pub fn io_turn<R: Wait, G: Gate>(&self, rt: &R, gate: &G, worker: &mut Worker) -> Option<Done>
        requires worker { IsWorkerOf self.now.ring B.name B.table B.deeds B.sizes worker.old }
        ensures worker { IsWorkerOf self.now.ring B.name B.table B.deeds B.sizes worker.new }
        ensures goes { Goes (seat_of worker.old) (seat_of worker.new) }
        ensures only { Only (λ e. IsEnd e.event) (seat_of worker.old) (seat_of worker.new) }
        ensures pushed { pushed_by worker.new ≡ pushed_by worker.old }
        ensures alone { company_of worker.new ≡ company_of worker.old }
        ensures idle { IfNone result ((seat_of worker.new ≡ seat_of worker.old) × (popped_by worker.new ≡ popped_by worker.old)) }
        ensures emptied { IfNone result (fifo.Held 0 (Stands (view worker.new.pass))) }
        ensures ended { IfSome result (λ d. (job : Task) × (popped_by worker.new ≡ popped_by worker.old ++ job ∷ []) × (d.serial.0 ≡ job.serial) × Ends job (seat_of worker.old) (seat_of worker.new) d.slip (is_some d.failed) × IfSome d.failed (IsOwnFailure self.now.name B.board)) }
        ensures one { IfSome result (λ d. MadeOne (Some d.slip) (seat_of worker.old) (seat_of worker.new)) }
        ensures file { IfSome result (λ d. IfSome d.failed (λ w. IsOfRequest B.files B.sizes B.name d.serial.0 (seat_of worker.new) d.slip w.receipt)) }
        ensures passed { IfSome result (λ d. G.passed gate.now d.serial.0) }
    {
        let job = take(rt, &self.ring, &mut worker.pass)?;
        gate.enter(job.job().serial().0);
        Some(self.end_job(rt, &mut worker.seat, job))
    }

    /// One turn of a flusher: it begins to write the lowest page of the first file that has one to write, and puts the job into the
    /// ring. Where the ring is full it makes the device call itself, for which the gate is entered with the job's serial. Refused
    /// only where no write was begun.
    #[tactic(auto, using(held::proofs::Seats::goes_same, crate::proofs::Finding::nothing_carried, crate::proofs::Finding::none_counted, held::proofs::Seats::goes_on, crate::proofs::Ending::begins_then, crate::proofs::Ending::ends_on, held::proofs::Seats::only_same, crate::proofs::Owning::only_flushed, crate::proofs::Owning::only_begins, crate::proofs::Carrying::none_carried, crate::proofs::Settling::own_begins))]
    pub fn flusher_turn<R: Wait, G: Gate>(
        &self,
        rt: &R,
        gate: &G,
        worker: &mut Worker,
    ) -> Result<Flushed, Denied>
        requires worker { IsWorkerOf self.now.ring B.name B.table B.deeds B.sizes worker.old }
        ensures worker { IsWorkerOf self.now.ring B.name B.table B.deeds B.sizes worker.new }
        ensures goes { Goes (seat_of worker.old) (seat_of worker.new) }
        ensures only { Only (λ e. IsWriteBack e.event) (seat_of worker.old) (seat_of worker.new) }
        ensures own { EndsOwn B.name (seat_of worker.old) (seat_of worker.new) }
        ensures popped { popped_by worker.new ≡ popped_by worker.old }
        ensures alone { company_of worker.new ≡ company_of worker.old }
        ensures done { IfOk result (IsFlushed B.files B.sizes B.name worker.old worker.new) }
        ensures carried { AllCarried worker.old worker.new }
        ensures count { IfOk result (λ f. (seat_of worker.new).count ≡ (seat_of worker.old).count + entered_in f) }
        ensures failed { IfOk result (λ f. FailsOwn self.now.name B.board f) }
        ensures file { IfOk result (λ f. FailsOf B.files B.sizes B.name (seat_of worker.new) f) }
        ensures denied { IfErr result (IsDenied B.files B.sizes B.name B.whole IsFlushBegin (seat_of worker.old) (seat_of worker.new)) }
        ensures unbegun { IfErr result (λ d. (pushed_by worker.new ≡ pushed_by worker.old) × MadeOne d.slip (seat_of worker.old) (seat_of worker.new)) }
        ensures first { IfErr result (λ d. IfSome d.slip (RefusesFirst B.files B.sizes B.name d.refusal (seat_of worker.old) (seat_of worker.new))) }
        ensures full { IfOk result (WasFull worker.new) }
        ensures passed { IfOk result (EntersBy (G.passed gate.now)) }
    {
        let (job, slip) = match self.begin_flush(rt, &mut worker.seat) {
            Ok(Some(begun)) => begun,
            Ok(None) => return Ok(Flushed::Nothing),
            Err(denied) => return Err(denied),
        };
        let serial = job.job().serial();
        let Err(job) = put(rt, &self.ring, &mut worker.pass, job) else {
            self.jobs.give(rt);
            return Ok(Flushed::Pushed(serial, slip));
        };
        gate.enter(serial.0);
        Ok(Flushed::Ended(slip, self.end_job(rt, &mut worker.seat, job)))
    }

    /// Begins to write a page, of the first file that has one to write.
    #[tactic(auto, using(held::proofs::Seats::goes_same, held::proofs::Seats::goes_on, held::proofs::Seats::goes_shown, held::proofs::Seats::only_any, crate::proofs::Finding::finds_nothing, crate::proofs::Ending::begins_first, crate::proofs::Ending::denied_begun, crate::proofs::Ending::refuses_first, held::proofs::Seats::only_same, crate::proofs::Ending::begun_one, crate::proofs::Ending::unbegun, crate::proofs::Making::none_made, crate::proofs::Owning::only_begun, crate::proofs::Owning::only_begun_denied, crate::proofs::Carrying::begins_one, crate::proofs::Carrying::begins_none, crate::proofs::Settling::writes_begun))]
    fn begin_flush<R: Wait>(
        &self,
        rt: &R,
        seat: &mut Seat,
    ) -> Result<Option<(Errand<B>, Slip)>, Denied>
        requires { seat.old.table ≡ B.table }
        ensures goes { Goes seat.old seat.new }
        ensures only { Only (λ e. IsFlushBegin e.event) seat.old seat.new }
        ensures idle { IfOk result (λ o. IfNone o (FindsNothing B.files B.sizes B.name seat.old seat.new)) }
        ensures one { IfOk result (λ o. IfSome o (λ r. MadeOne (Some r.1) seat.old seat.new)) }
        ensures begun { IfOk result (λ o. IfSome o (λ r. Begins B.files B.sizes B.name r.0 seat.old seat.new r.1)) }
        ensures alone { IfOk result (λ o. IfSome o (λ r. Only (λ e. OnBegun (λ t. t ≡ r.0.serial) e.event e.reply) seat.old seat.new)) }
        ensures write { IfOk result (λ o. IfSome o (λ r. Only (λ e. IsBegun (r.0.kind, r.0.serial) e.event e.reply) seat.old seat.new)) }
        ensures fits { IfOk result (λ o. IfSome o (λ r. IsJobFor B.name B.sizes.blocks B.sizes.page r.0)) }
        ensures denied { IfErr result (IsDenied B.files B.sizes B.name B.whole IsFlushBegin seat.old seat.new) }
        ensures unbegun { IfErr result (λ d. MadeOne d.slip seat.old seat.new × Only (λ e. OnBegun (λ _. ⊥) e.event e.reply) seat.old seat.new) }
        ensures first { IfErr result (λ d. IfSome d.slip (RefusesFirst B.files B.sizes B.name d.refusal seat.old seat.new)) }
    {
        let buffer = match Buffer::new(self.alloc, &self.geometry) {
            Ok(buffer) => buffer,
            Err(refusal) => return Err(without_slip(refusal)),
        };
        let mut guard = self.state.lock(rt);
        // Lends that the history is legal.
        let _ = guard.core();
        match guard.flush_first(seat, buffer) {
            Ok(Some(begun)) => Ok(Some(begun)),
            Ok(None) => {
                guard.show(seat);
                Ok(None)
            }
            Err(denied) => Err(denied),
        }
    }
}
