//! Workers' loops: they go on until the cache tells them to stop.

ghost use Rattle.std.specs.Prelude.{◌≡◌};
ghost use Rattle.crossbeam_queue.specs.Fifo as fifo;
ghost use Rattle.crossbeam_queue.specs.Passes.{view};
ghost use Rattle.held.specs.Called.{Goes, Only};
ghost use Rattle.ring.specs.Order.{Stands};
ghost use Rattle.shared.specs.Settled.{EndsOwn};
ghost use Rattle.shared.specs.Workers.{AllCarried, AllEnded, IsEnd, IsWorkerOf, IsWriteBack, company_of, popped_by, pushed_by, seat_of};

use crate::cache::SharedCache;
use crate::turns::Flushed;
use crate::worker::Worker;
use blockdev::{BlockDevice, Gate};
use held::denied::Denied;
use held::naming::Naming;
use std::sync::Wait;
use std::sync::atomic::Ordering;
use trail::Trail;

impl<B: Naming, D: BlockDevice, T: Trail> SharedCache<B, D, T> {
    /// Tells the workers to stop. It waits for none of them.
    pub fn stop<R: Wait>(&self, rt: &R) {
        self.work.stop(rt);
        self.jobs.stop(rt);
    }

    /// Writes pages back while there are any to write, and sleeps where there are none, until it is told to stop.
    pub fn flusher<R: Wait, G: Gate>(&self, rt: &R, gate: &G, worker: &mut Worker)
        requires worker { IsWorkerOf self.now.ring B.name B.table B.deeds B.sizes worker.old }
        ensures worker { IsWorkerOf self.now.ring B.name B.table B.deeds B.sizes worker.new }
        ensures goes { Goes (seat_of worker.old) (seat_of worker.new) }
        ensures only { Only (λ e. IsWriteBack e.event) (seat_of worker.old) (seat_of worker.new) }
        ensures own { EndsOwn B.name (seat_of worker.old) (seat_of worker.new) }
        ensures popped { popped_by worker.new ≡ popped_by worker.old }
        ensures alone { company_of worker.new ≡ company_of worker.old }
        ensures carried { AllCarried worker.old worker.new }
    {
        self.flushers.fetch_add(1, Ordering::SeqCst);
        self.write_back(rt, gate, worker);
        self.flushers.fetch_sub(1, Ordering::SeqCst);
        self.jobs.give(rt);
    }

    /// The turns of a flusher, which may put a job into the ring until it returns.
    #[tactic(auto, using(held::proofs::Seats::goes_same, held::proofs::Seats::goes_on, held::proofs::Seats::only_same, crate::proofs::Owning::only_write_back_on, crate::proofs::Carrying::none_carried, crate::proofs::Carrying::puts_none, crate::proofs::Carrying::carried_on))]
    fn write_back<R: Wait, G: Gate>(&self, rt: &R, gate: &G, worker: &mut Worker)
        requires worker { IsWorkerOf self.now.ring B.name B.table B.deeds B.sizes worker.old }
        ensures worker { IsWorkerOf self.now.ring B.name B.table B.deeds B.sizes worker.new }
        ensures goes { Goes (seat_of worker.old) (seat_of worker.new) }
        ensures only { Only (λ e. IsWriteBack e.event) (seat_of worker.old) (seat_of worker.new) }
        ensures own { EndsOwn B.name (seat_of worker.old) (seat_of worker.new) }
        ensures popped { popped_by worker.new ≡ popped_by worker.old }
        ensures alone { company_of worker.new ≡ company_of worker.old }
        ensures carried { AllCarried worker.old worker.new }
    {
        'turns: for _ in rt.forever() {
            let seen = self.work.count();
            if self.work.is_stopped() {
                return;
            }
            let turn = self.flusher_turn(rt, gate, worker);
            // A refusal may pass when a request ends, which gives the signal.
            if is_idle(&turn) {
                self.work.wait(rt, seen);
            }
        }
    }

    /// Carries out the jobs of the ring, and sleeps where there are none. Told to stop, it goes on till no flusher is in its loop and
    /// the ring is empty.
    #[tactic(auto, using(held::proofs::Seats::goes_same, held::proofs::Seats::goes_on, crate::proofs::Ending::none_ended, held::proofs::Seats::only_same, crate::proofs::Owning::only_ends_on))]
    pub fn io_worker<R: Wait, G: Gate>(&self, rt: &R, gate: &G, worker: &mut Worker)
        requires worker { IsWorkerOf self.now.ring B.name B.table B.deeds B.sizes worker.old }
        ensures worker { IsWorkerOf self.now.ring B.name B.table B.deeds B.sizes worker.new }
        ensures goes { Goes (seat_of worker.old) (seat_of worker.new) }
        ensures only { Only (λ e. IsEnd e.event) (seat_of worker.old) (seat_of worker.new) }
        ensures pushed { pushed_by worker.new ≡ pushed_by worker.old }
        ensures alone { company_of worker.new ≡ company_of worker.old }
        ensures ended { AllEnded worker.old worker.new }
        ensures emptied { fifo.Held 0 (Stands (view worker.new.pass)) }
    {
        'turns: for _ in rt.forever() {
            let seen = self.jobs.count();
            // In this order (decision 171): a flusher that counts itself later finds that it is to stop, and begins no write.
            let is_over = self.jobs.is_stopped() && self.flushers.load(Ordering::SeqCst) == 0;
            let is_idle = self.io_turn(rt, gate, worker).is_none();
            if is_idle {
                if is_over {
                    return;
                }
                self.jobs.wait(rt, seen);
            }
        }
        unreachable!()
    }
}

/// Whether a turn began no write.
fn is_idle(turn: &Result<Flushed, Denied>) -> bool {
    matches!(turn, Ok(Flushed::Nothing) | Err(_))
}
