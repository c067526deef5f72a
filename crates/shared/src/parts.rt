//! The parts of a cache, made at once.

ghost use Rattle.std.specs.FinMap as map;
ghost use Rattle.std.specs.Prelude.{◌≡◌, [], true, ◌+◌, ◌<◌, ◌≤◌, ◌&&◌, IfErr, IfOk, OnOk, if◌then◌else◌, is_some, nat_le, nat_lt, vec_len};
ghost use Rattle.crossbeam_queue.specs.Passes.{view};
ghost use Rattle.held.specs.Shown.{AreFresh, IsFresh};
ghost use Rattle.pc_types.specs.declared.refusal.Refusal.TheVariants.{BadConfig, Memory};
ghost use Rattle.ring.specs.Order.{log};
ghost use Rattle.ring.specs.Serving.{Carries, Serves};
ghost use Rattle.catalog.specs.Cataloged as cataloged;
ghost use Rattle.machine.specs.Catalogs.{IsCatalog, adopted, no_catalog};
ghost use Rattle.machine.specs.PageLists.{no_lists};
ghost use Rattle.held.specs.Keeps.{IsLocked};
ghost use Rattle.shared.specs.Keeps.{AreBlocksOf, IsDisk, begun_with};
ghost use Rattle.shared.specs.Workers.{IsWorkerOf, company_of, popped_by, pushed_by, seat_of};

use crate::cache::Parts;
use crate::worker::Worker;
use blockdev::BlockDevice;
use catalog::Catalog;
use deeds::sides;
use held::log::Seat;
use held::state::Opened;
pub use pc_types::limits::MAX_SEATS;
use pc_types::{Geometry, Refusal};
use ring::{Ring, RingPass};
use std::alloc::Global;
use std::sync::Wait;
use trail::Trail;

/// What was to be among the parts of a cache that were not made.
#[derive(Drop)]
pub struct Unmade<D, T> {
    pub refusal: Refusal,
    pub device: D,
    pub trail: T,
}

impl<D: BlockDevice, T: Trail> Parts<D, T> {
    /// The parts of a cache of this name over the device, without files, and so many seats. A program that starts threads gives them to
    /// a function of its own, at `Brand`, which makes the cache by `SharedCache::of`.
    #[tactic(auto, using(crate::proofs::Serving::idle_first))]
    pub fn make<R: Wait>(
        rt: &R,
        alloc: Global,
        geometry: &Geometry,
        name: u64,
        device: D,
        trail: T,
        seat_count: u64,
    ) -> Result<(Parts<D, T>, Vec<Seat>), Unmade<D, T>>
        requires { IsDisk geometry.now (D.told device) }
        ensures named { IfOk result (λ r. (r.0.name ≡ name) × (r.0.geometry ≡ geometry.now)) }
        ensures few { OnOk result ((0 < seat_count) × (seat_count ≤ 64)) }
        ensures state { IfOk result (λ r. IsLocked r.0.name r.0.held.log.table r.0.board r.0.geometry (vec_len r.1 + 1) r.0.held.log.room r.0.held) }
        ensures room { IfOk result (λ r. r.0.held.log.room ≡ T.whole trail) }
        ensures empty { IfOk result (λ r. (r.0.held.log.history ≡ []) × (r.0.held.core ≡ record { state = adopted geometry.now name no_catalog; lists = no_lists })) }
        ensures begun { IfOk result (λ r. (r.0.held.core.state ≡ adopted r.0.geometry r.0.name (begun_with r.0.held.core.state)) × IsCatalog r.0.geometry (begun_with r.0.held.core.state)) }
        ensures idle { IfOk result (λ r. map.len r.0.held.core.state.requests ≡ 0) }
        ensures own { IfOk result (λ r. IsWorkerOf r.0.ring r.0.name r.0.held.log.table r.0.deeds.table r.0.geometry r.0.own) }
        ensures first { IfOk result (λ r. (company_of r.0.own ≡ (true, 0, 0)) × (popped_by r.0.own ≡ []) × (pushed_by r.0.own ≡ [])) }
        ensures seated { IfOk result (λ r. IsFresh r.0.held.log.table name (seat_of r.0.own) seat_count) }
        ensures told { IfOk result (λ r. r.0.deeds.told ≡ is_some (D.told device).contents) }
        ensures blocks { IfOk result (λ r. AreBlocksOf r.0.deeds.told r.0.deeds.blocks (D.told device)) }
        ensures device { IfOk result (λ r. r.0.device ≡ device) }
        ensures seats { IfOk result (λ r. (vec_len r.1 ≡ seat_count) × AreFresh r.0.held.log.table r.0.name r.1.items) }
        ensures refused { IfErr result (λ e. e.refusal ≡ (if nat_lt 0 seat_count && nat_le seat_count 64 then Memory else BadConfig)) }
        ensures back { IfErr result (λ e. (e.device ≡ device) × (e.trail ≡ trail)) }
    {
        let (ring, pass, deeds) = match ring_over(rt, alloc, &device, name, geometry, seat_count) {
            Ok(made) => made,
            Err(refusal) => {
                return Err(Unmade {
                    refusal,
                    device,
                    trail,
                });
            }
        };
        match Opened::new(alloc, geometry, name, trail, seat_count) {
            Ok((held, board, seats, own)) => {
                let parts = Parts {
                    name,
                    geometry: *geometry,
                    held,
                    board,
                    ring,
                    own: Worker::new(own, pass),
                    device,
                    deeds,
                };
                Ok((parts, seats))
            }
            Err((refusal, trail)) => Err(Unmade {
                refusal,
                device,
                trail,
            }),
        }
    }
}

/// What was to be among the parts of a cache over files that stand on its device, and that were not made.
#[derive(Drop)]
pub struct Unadopted<D, T> {
    pub refusal: Refusal,
    pub catalog: Catalog,
    pub device: D,
    pub trail: T,
}

impl<D: BlockDevice, T: Trail> Parts<D, T> {
    /// The parts of a cache of this name over a device that has the catalog's files, and so many seats. It reads nothing, so an old catalog or
    /// one of another device makes files of what stands there. `BadConfig`: no seats or more than 64, or the catalog is for another block size or number of blocks. `Memory`. Either way all comes back.
    #[tactic(auto, using(crate::proofs::Serving::idle_first))]
    pub fn over<R: Wait>(
        rt: &R,
        alloc: Global,
        geometry: &Geometry,
        name: u64,
        catalog: Catalog,
        device: D,
        trail: T,
        seat_count: u64,
    ) -> Result<(Parts<D, T>, Vec<Seat>), Unadopted<D, T>>
        requires { IsDisk geometry.now (D.told device) }
        ensures named { IfOk result (λ r. (r.0.name ≡ name) × (r.0.geometry ≡ geometry.now)) }
        ensures few { OnOk result ((0 < seat_count) × (seat_count ≤ 64)) }
        ensures state { IfOk result (λ r. IsLocked r.0.name r.0.held.log.table r.0.board r.0.geometry (vec_len r.1 + 1) r.0.held.log.room r.0.held) }
        ensures room { IfOk result (λ r. r.0.held.log.room ≡ T.whole trail) }
        ensures adopted { IfOk result (λ r. (r.0.held.log.history ≡ []) × (r.0.held.core ≡ record { state = adopted geometry.now name catalog.files; lists = no_lists })) }
        ensures catalog { IfOk result (λ r. IsCatalog geometry.now catalog.files × (begun_with r.0.held.core.state ≡ catalog.files)) }
        ensures begun { IfOk result (λ r. (r.0.held.core.state ≡ adopted r.0.geometry r.0.name (begun_with r.0.held.core.state)) × IsCatalog r.0.geometry (begun_with r.0.held.core.state)) }
        ensures idle { IfOk result (λ r. map.len r.0.held.core.state.requests ≡ 0) }
        ensures own { IfOk result (λ r. IsWorkerOf r.0.ring r.0.name r.0.held.log.table r.0.deeds.table r.0.geometry r.0.own) }
        ensures first { IfOk result (λ r. (company_of r.0.own ≡ (true, 0, 0)) × (popped_by r.0.own ≡ []) × (pushed_by r.0.own ≡ [])) }
        ensures seated { IfOk result (λ r. IsFresh r.0.held.log.table name (seat_of r.0.own) seat_count) }
        ensures told { IfOk result (λ r. r.0.deeds.told ≡ is_some (D.told device).contents) }
        ensures blocks { IfOk result (λ r. AreBlocksOf r.0.deeds.told r.0.deeds.blocks (D.told device)) }
        ensures device { IfOk result (λ r. r.0.device ≡ device) }
        ensures seats { IfOk result (λ r. (vec_len r.1 ≡ seat_count) × AreFresh r.0.held.log.table r.0.name r.1.items) }
        ensures refused { IfErr result (λ e. e.refusal ≡ (if nat_lt 0 seat_count && nat_le seat_count 64 && cataloged.fits geometry.now catalog then Memory else BadConfig)) }
        ensures back { IfErr result (λ e. (e.catalog ≡ catalog) × (e.device ≡ device) × (e.trail ≡ trail)) }
    {
        if !catalog.is_for(geometry) {
            return Err(Unadopted {
                refusal: Refusal::BadConfig,
                catalog,
                device,
                trail,
            });
        }
        let (ring, pass, deeds) = match ring_over(rt, alloc, &device, name, geometry, seat_count) {
            Ok(made) => made,
            Err(refusal) => {
                return Err(Unadopted {
                    refusal,
                    catalog,
                    device,
                    trail,
                });
            }
        };
        match Opened::over(alloc, geometry, name, catalog, trail, seat_count) {
            Ok((held, board, seats, own)) => {
                let parts = Parts {
                    name,
                    geometry: *geometry,
                    held,
                    board,
                    ring,
                    own: Worker::new(own, pass),
                    device,
                    deeds,
                };
                Ok((parts, seats))
            }
            Err((refusal, catalog, trail)) => {
                let unadopted = Unadopted {
                    refusal,
                    catalog,
                    device,
                    trail,
                };
                Err(unadopted)
            }
        }
    }
}

/// The deeds of a device's blocks, and the ring of a cache over it that so many may share.
fn ring_over<R: Wait, D: BlockDevice>(
    rt: &R,
    alloc: Global,
    device: &D,
    name: u64,
    geometry: &Geometry,
    seat_count: u64,
) -> Result<(Ring, RingPass, sides::Opened), Refusal>
    requires { IsDisk geometry.now (D.told device.now) }
    ensures few { OnOk result ((0 < seat_count) × (seat_count ≤ 64)) }
    ensures pass { IfOk result (λ r. Serves r.0 r.1 × Carries name geometry.now.blocks geometry.now.page r.2.table r.1) }
    ensures first { IfOk result (λ r. view r.1 ≡ log 2 true 0 0 name geometry.now.blocks geometry.now.page r.2.table [] []) }
    ensures told { IfOk result (λ r. r.2.told ≡ is_some (D.told device.now).contents) }
    ensures blocks { IfOk result (λ r. AreBlocksOf r.2.told r.2.blocks (D.told device.now)) }
    ensures refused { IfErr result (λ e. e ≡ (if nat_lt 0 seat_count && nat_le seat_count 64 then Memory else BadConfig)) }
{
    if seat_count == 0 || seat_count > MAX_SEATS {
        return Err(Refusal::BadConfig);
    }
    // Lends that the device has a block.
    let _ = geometry.blocks();
    let deeds = sides::Opened::over(alloc, device)?;
    Ring::over(rt, alloc, name, geometry, deeds)
}
