//! The end of a cache.

ghost use Rattle.std.specs.Prelude.{◌≡◌, ◌≢◌, ◌↔◌, ◌⊎◌, ◌+◌, All, Any, IfErr, IfOk, IsErr, List, Some, true, vec_len};
ghost use Rattle.crossbeam_queue.specs.Fifo as fifo;
ghost use Rattle.crossbeam_queue.specs.Passes.{view};
ghost use Rattle.ring.specs.Order.{Stands};
ghost use mathlib.Core.List.{IsPrefix};
ghost use Rattle.held.specs.Views.{AreOfSeats, count_of};
ghost use Rattle.pc_types.specs.declared.refusal.Refusal.TheVariants.{Stranger};
ghost use Rattle.trail.specs.History.{After};
ghost use Rattle.trail.specs.declared.entry.Entry.{Entry};
ghost use Rattle.held.specs.Called.{Goes, Only};
ghost use Rattle.shared.specs.Keeps.{IsCalledFor, IsDisk, IsLeftBy};
ghost use Rattle.shared.specs.Workers.{AllEnded, AllOver, Drained, IsEnd, IsWorkerOf, company_of, pushed_by, seat_of};

use crate::brief::BriefLock;
use crate::cache::SharedCache;
use crate::disk::Disk;
use crate::ends::finish;
use crate::jobs::take;
use crate::worker::Worker;
use blockdev::BlockDevice;
use cachecore::CacheCore;
use held::log::Seat;
use held::naming::Naming;
use held::state::Held;
use pc_types::Refusal;
use ring::Ring;
use std::sync::{Mutex, Wait};
use trail::Trail;

impl<B: Naming, D: BlockDevice, T: Trail> SharedCache<B, D, T> {
    /// The trail, the core and the device, where all seats come back. What is left in the ring is carried out and ended first, by
    /// the cache's own worker. Refused by `Stranger` where a seat is missing or of another cache; the cache comes back then with its
    /// worker, and the seats as they were.
    pub fn close<R: Wait>(
        self,
        rt: &R,
        mut own: Worker,
        seats: Vec<Seat>,
    ) -> Result<(T, CacheCore, D), (Refusal, SharedCache<B, D, T>, Worker, Vec<Seat>)>
        requires own { IsWorkerOf self.ring B.name B.table B.deeds B.sizes own }
        requires came { All (λ s. s.name ≡ self.name → s.table ≡ B.table) seats.items }
        ensures refused { IsErr result ↔ ((vec_len seats + 1 ≢ B.seats) ⊎ Any (λ s. s.name ≢ self.name) seats.items) }
        ensures err { IfErr result (λ e. (e.0 ≡ Stranger) × (e.1.name ≡ self.name) × (e.1.ring ≡ self.ring) × (e.3 ≡ seats)) }
        ensures again { IfErr result (λ e. IsWorkerOf self.ring B.name B.table B.deeds B.sizes e.2 × Goes (seat_of own) (seat_of e.2)) }
        ensures only { IfErr result (λ e. Only (λ x. IsEnd x.event) (seat_of own) (seat_of e.2)) }
        ensures ended { IfErr result (λ e. AllEnded own e.2 × (pushed_by e.2 ≡ pushed_by own) × (company_of e.2 ≡ company_of own)) }
        ensures device { IfOk result (λ r. IsDisk B.sizes (D.told r.2)) }
        ensures core { IfOk result (λ r. (r.1.state.name ≡ self.name) × (r.1.state.sizes ≡ B.sizes)) }
        ensures closed { IfOk result (λ r. (history : List Entry) × T.records r.0 history × (T.cache r.0 ≡ Some self.name) × After B.files r.1.state.sizes r.1.state.name history r.1.state × Drained own history r.1.state × All (λ s. IsPrefix s.list history × (s.count ≡ count_of s.number history)) seats.items × (B.told ≡ true → IsLeftBy B.files B.sizes B.name B.blocks history r.1.state (D.told r.2)) × IsCalledFor B.calls history r.1.state (D.told r.2) × AreOfSeats B.seats history) }
    {
        let SharedCache {
            name,
            geometry,
            board,
            state,
            changed,
            disk,
            alloc,
            ring,
            work,
            jobs,
            flushers,
        } = self;
        // first, so that the state has a name while the ends are made (decision 165)
        let mut held = state.into_inner();
        let mut device = disk.into_inner();
        drain(rt, &ring, &mut device, &mut held, &mut own);
        let Worker { seat, pass } = own;
        match held.close(seats, seat) {
            Ok((trail, core, desk)) => {
                let (device, side) = device.into_parts();
                // Tells that the device has what the history leaves of each block, and made no call but for its requests.
                desk.close(side);
                Ok((trail, core, device))
            }
            Err((refusal, held, seats, seat)) => {
                let cache = SharedCache {
                    name,
                    geometry,
                    board,
                    state: BriefLock::new(held),
                    changed,
                    disk: Mutex::new(device),
                    alloc,
                    ring,
                    work,
                    jobs,
                    flushers,
                };
                Err((refusal, cache, Worker { seat, pass }, seats))
            }
        }
    }
}

/// Carries out and ends what the ring has, till it is empty. No other holds the cache, so no lock is taken.
#[tactic(auto, using(held::proofs::Seats::goes_same, held::proofs::Seats::goes_on, held::proofs::Seats::only_same, crate::proofs::Owning::only_job_on, crate::proofs::Ending::none_ended, crate::proofs::Closing::none_taken))]
fn drain<B: Naming, D: BlockDevice, T: Trail, R: Wait>(
    rt: &R,
    ring: &Ring,
    disk: &mut Disk<B, D>,
    state: &mut Held<B, T>,
    own: &mut Worker,
)
    requires worker { IsWorkerOf ring.now B.name B.table B.deeds B.sizes own.old }
    ensures worker { IsWorkerOf ring.now B.name B.table B.deeds B.sizes own.new }
    ensures goes { Goes (seat_of own.old) (seat_of own.new) }
    ensures only { Only (λ e. IsEnd e.event) (seat_of own.old) (seat_of own.new) }
    ensures ended { AllEnded own.old own.new }
    ensures over { AllOver own.old own.new state.new.core.state }
    ensures same { (pushed_by own.new ≡ pushed_by own.old) × (company_of own.new ≡ company_of own.old) }
    ensures emptied { fifo.Held 0 (Stands (view own.new.pass)) }
{
    'jobs: for _ in rt.forever() {
        let Some(job) = take(rt, ring, &mut own.pass) else {
            return;
        };
        finish(disk, state, &mut own.seat, job);
    }
    unreachable!()
}
