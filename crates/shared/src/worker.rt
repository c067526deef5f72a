//! A worker of the cache.

ghost use Rattle.std.specs.Prelude.{◌≡◌, ◌≢◌, ◌↔◌, ◌+◌, [], false, IfErr, IfOk, IsErr, OnErr, OnOk};
ghost use Rattle.pc_types.specs.declared.refusal.Refusal.TheVariants.{Stranger};
ghost use Rattle.shared.specs.Workers.{IsWorkerOf, company_of, popped_by, pushed_by, seat_of};

use crate::cache::SharedCache;
use blockdev::BlockDevice;
use held::log::Seat;
use held::naming::Naming;
use pc_types::Refusal;
use ring::RingPass;
use trail::Trail;

/// One who works for the cache beside its callers, in a thread of its own: its seat, and what it did at the ring of jobs.
#[derive(Drop)]
pub struct Worker {
    pub(crate) seat: Seat,
    pub(crate) pass: RingPass,
}

impl Worker {
    /// Who enters events by this seat, and goes to the ring by this pass.
    pub fn new(seat: Seat, pass: RingPass) -> Worker
        ensures { result ≡ record { seat = seat; pass = pass } }
    {
        Worker { seat, pass }
    }

    /// Its seat, to be given to `close`.
    pub fn into_seat(self) -> Seat
        ensures { result ≡ seat_of self }
    {
        self.seat
    }
}

impl<B: Naming, D: BlockDevice, T: Trail> SharedCache<B, D, T> {
    /// A worker, whose events are entered by this seat.
    pub fn worker(&self, own: &mut Worker, seat: Seat) -> Result<Worker, (Refusal, Seat)>
        requires own { IsWorkerOf self.now.ring B.name B.table B.deeds B.sizes own.old }
        requires seat { seat.name ≡ self.now.name → seat.table ≡ B.table }
        ensures foreign { IsErr result ↔ (seat.name ≢ self.now.name) }
        ensures err { IfErr result (λ e. (e.0 ≡ Stranger) × (e.1 ≡ seat)) }
        ensures worker { IfOk result (IsWorkerOf self.now.ring B.name B.table B.deeds B.sizes) }
        ensures seat { IfOk result (λ w. seat_of w ≡ seat) }
        ensures new { IfOk result (λ w. (popped_by w ≡ []) × (pushed_by w ≡ []) × (company_of w ≡ (false, 0, (company_of own.old).2 + 1))) }
        ensures own { IsWorkerOf self.now.ring B.name B.table B.deeds B.sizes own.new }
        ensures untouched { seat_of own.new ≡ seat_of own.old }
        ensures kept { (popped_by own.new ≡ popped_by own.old) × (pushed_by own.new ≡ pushed_by own.old) }
        ensures alone { OnErr result (company_of own.new ≡ company_of own.old) }
        ensures made { OnOk result (company_of own.new ≡ (false, (company_of own.old).1 + 1, (company_of own.old).2)) }
    {
        if seat.name() != self.name {
            return Err((Refusal::Stranger, seat));
        }
        let pass = self.ring.pass(&mut own.pass);
        Ok(Worker { seat, pass })
    }
}
