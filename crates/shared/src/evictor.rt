//! The evictor: frames are free before a caller needs them.

ghost use Rattle.std.specs.Bool.{OnFalse, OnTrue};
ghost use Rattle.std.specs.Prelude.{◌≡◌, ◌<◌, ℕ, IfErr, IfOk, min};
ghost use Rattle.held.specs.Called.{Goes, Only};
ghost use Rattle.shared.specs.Denials.{IsFullFor};
ghost use Rattle.shared.specs.Own.{IsEviction};
ghost use Rattle.shared.specs.Workers.{FindsEnough, IsWorkerOf, LetsGo, company_of, popped_by, pushed_by, seat_of};

use crate::cache::SharedCache;
use crate::worker::Worker;
use blockdev::{BlockDevice, Gate};
use held::denied::Denied;
use held::log::Seat;
use held::naming::Naming;
use std::sync::Wait;
use trail::Trail;

/// The evictor lets pages go while fewer frames than these are free: as many as the pages that one call touches.
pub const SPARE_FRAMES: u64 = 16;

impl<B: Naming, D: BlockDevice, T: Trail> SharedCache<B, D, T> {
    /// One turn of an evictor: while few frames are free, pages of the active list age and the first idle page goes. It ends where
    /// enough are free, or no page is idle, and answers how many pages went. Refused by a full trail alone. The gate is entered with 0
    /// before each.
    #[tactic(auto, using(held::proofs::Seats::goes_same, held::proofs::Seats::goes_on, crate::proofs::Making::full_for_on, held::proofs::Seats::only_same, crate::proofs::Owning::eviction_on, crate::proofs::Letting::none_gone, crate::proofs::Letting::more_gone))]
    pub fn evictor_turn<R: Wait, G: Gate>(
        &self,
        rt: &R,
        gate: &G,
        worker: &mut Worker,
    ) -> Result<u64, Denied>
        requires worker { IsWorkerOf self.now.ring B.name B.table B.deeds B.sizes worker.old }
        ensures worker { IsWorkerOf self.now.ring B.name B.table B.deeds B.sizes worker.new }
        ensures goes { Goes (seat_of worker.old) (seat_of worker.new) }
        ensures only { Only (λ e. IsEviction e.event) (seat_of worker.old) (seat_of worker.new) }
        ensures gone { IfOk result (λ n. (pages : ℕ) × LetsGo pages (seat_of worker.old) (seat_of worker.new) × (n ≡ min pages u64.MAX)) }
        ensures enough { IfOk result (λ _. FindsEnough 16 B.files B.sizes B.name (seat_of worker.new)) }
        ensures ring { (popped_by worker.new ≡ popped_by worker.old) × (pushed_by worker.new ≡ pushed_by worker.old) }
        ensures alone { company_of worker.new ≡ company_of worker.old }
        ensures denied { IfErr result (IsFullFor B.files B.sizes B.name B.whole IsEviction (seat_of worker.old) (seat_of worker.new)) }
        ensures passed { IfOk result (λ n. 0 < n → G.passed gate.now 0) }
    {
        let mut gone = 0u64;
        'pages: for _ in rt.forever() {
            if self.has_spare(rt, &mut worker.seat) {
                return Ok(gone);
            }
            gate.enter(0);
            match self.evict_one(rt, &mut worker.seat) {
                Ok(true) => gone = gone.saturating_add(1),
                Ok(false) => return Ok(gone),
                Err(denied) => return Err(denied),
            }
        }
        unreachable!()
    }

    /// Whether enough frames are free. Where they are, the seat is shown the history.
    #[tactic(auto, using(held::proofs::Seats::goes_same, held::proofs::Seats::goes_shown, held::proofs::Seats::only_same, crate::proofs::Finding::finds_spare))]
    fn has_spare<R: Wait>(&self, rt: &R, seat: &mut Seat) -> bool
        requires { seat.old.table ≡ B.table }
        ensures goes { Goes seat.old seat.new }
        ensures only { Only (λ _. ⊥) seat.old seat.new }
        ensures same { OnFalse result (seat.new ≡ seat.old) }
        ensures enough { OnTrue result (FindsEnough 16 B.files B.sizes B.name seat.new) }
    {
        let mut guard = self.state.lock(rt);
        if guard.core().free_frames() < SPARE_FRAMES {
            return false;
        }
        guard.show(seat);
        true
    }

    /// Lets pages go while few frames are free, and sleeps where enough are, until it is told to stop.
    #[tactic(auto, using(held::proofs::Seats::goes_same, held::proofs::Seats::goes_on, held::proofs::Seats::only_same, crate::proofs::Owning::eviction_on))]
    pub fn evictor<R: Wait, G: Gate>(&self, rt: &R, gate: &G, worker: &mut Worker)
        requires worker { IsWorkerOf self.now.ring B.name B.table B.deeds B.sizes worker.old }
        ensures worker { IsWorkerOf self.now.ring B.name B.table B.deeds B.sizes worker.new }
        ensures goes { Goes (seat_of worker.old) (seat_of worker.new) }
        ensures only { Only (λ e. IsEviction e.event) (seat_of worker.old) (seat_of worker.new) }
        ensures ring { (popped_by worker.new ≡ popped_by worker.old) × (pushed_by worker.new ≡ pushed_by worker.old) }
        ensures alone { company_of worker.new ≡ company_of worker.old }
    {
        'turns: for _ in rt.forever() {
            let seen = self.work.count();
            if self.work.is_stopped() {
                return;
            }
            // A refusal may pass, as the end of a turn does: both wait for the next signal.
            let _ = self.evictor_turn(rt, gate, worker);
            self.work.wait(rt, seen);
        }
    }
}
