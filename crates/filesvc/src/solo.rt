//! The service, and its calls on files and handles.

ghost use Rattle.std.specs.Prelude.{◌≡◌, ℕ, true, [], IfErr, IfOk, if◌then◌else◌};
ghost use Rattle.pc_types.specs.declared.refusal.Refusal.TheVariants.{BadConfig, Memory};
ghost use Rattle.world.specs.Stepping.{first_world, fits};
ghost use Rattle.filesvc.specs.Service.{errors_of};

use blockdev::BlockDevice;
use catalog::Catalog;
use errboard::Recorder;
use pc_types::{Geometry, Refusal};
use std::alloc::Global;
use std::marker::Model;
use world::World;

/// After so many attempts a call gives up, by `Turns`. None needs so many (`IsSoonOver` in specs/Service.antt), so none does.
pub(crate) const MAX_ATTEMPTS: u64 = 256;

/// A cache over a device, for one thread.
///
/// A handle is of the service that opened it. The name tells a service's handles from another's, so each service gets
/// another one: a call refuses a handle of another name by `BadHandle`.
#[derive(Drop)]
pub struct Solo<D: BlockDevice> {
    pub(crate) name: u64,
    // between two calls no request is in flight
    pub(crate) world: World<D>,
    pub(crate) recorder: Recorder,
    pub(crate) attempts: u64,
}

impl<D: BlockDevice> Model for Solo<D> {
    ghost use Rattle.std.specs.Coded.{codes, coded_ℕ};
    ghost use Rattle.std.specs.FinMap as map;
    ghost use Rattle.std.specs.Ordering.{nat_cmp};
    ghost use Rattle.std.specs.Prelude.{ℕ, List};
    ghost use Rattle.atomic_table.specs.Seated.{table_id_coded};
    ghost use Rattle.machine.specs.inside.Codes.{state_code};
    ghost use Rattle.machine.specs.declared.event.Outcome.{Outcome};
    ghost use Rattle.filesvc.specs.Rests.{IsService};
    ghost use Rattle.filesvc.specs.Seen.{SoloSeen};

    ghost Value = { SoloSeen };

    ghost coded = { Prim.hlevel (codes, state_code, table_id_coded, map.code {X = Outcome} {R = nat_cmp} coded_ℕ (Prim.hlevel codes), map.code {X = List ℕ} {R = nat_cmp} coded_ℕ (Prim.hlevel codes)) };

    ghost view = { λ s. record { world = s.world; errors = s.recorder; attempts = s.attempts } };

    ghost invariant = { λ s. IsService s.name s.world s.recorder.board s.recorder };
}

impl<D: BlockDevice> Solo<D> {
    /// A service without files over a device. Refused by `BadConfig` where the device has another block size or number of
    /// blocks than the geometry, and else by want of memory; the device comes back.
    pub fn new(
        alloc: Global,
        geometry: &Geometry,
        name: u64,
        device: D,
    ) -> Result<Solo<D>, (Refusal, D)>
        ensures fresh { IfOk result (λ s. s.world ≡ first_world geometry.now name (D.told device)) }
        ensures fits { IfOk result (λ _. fits geometry.now (D.told device) ≡ true) }
        ensures nothing { IfOk result (λ s. (f : ℕ) → errors_of s f ≡ []) }
        ensures refused { IfErr result (λ e. e.0 ≡ (if fits geometry.now (D.told device) then Memory else BadConfig)) }
        ensures back { IfErr result (λ e. e.1 ≡ device) }
    {
        match Solo::over(alloc, geometry, name, Catalog::new(alloc, geometry), device) {
            Ok(solo) => Ok(solo),
            Err((refusal, _catalog, device)) => Err((refusal, device)),
        }
    }

    /// How many attempts the last call made: a read, a write or a truncation is tried again after a page was filled or room was
    /// made for it.
    pub fn attempts(&self) -> u64
        ensures { result ≡ self.now.attempts }
    {
        self.attempts
    }
}
