//! Jobs on their way through the ring, with the deeds of their blocks, for the cache that B names.

ghost use Rattle.std.specs.Prelude.{◌≡◌, ◌++◌, ◌∷◌, [], MatchOption, MatchResult};
ghost use Rattle.blockdev.specs.Jobs.{IsJobFor};
ghost use Rattle.crossbeam_queue.specs.Fifo.{Held};
ghost use Rattle.crossbeam_queue.specs.Passes.{view};
ghost use Rattle.ring.specs.Order.{Stands};
ghost use Rattle.shared.specs.Workers.{IsPassFor, company_in, popped_in, pushed_in};

use deeds::sides::Errand;
use held::naming::Naming;
use ring::{Ring, RingPass};
use std::sync::Wait;

/// Puts a job at the back of the ring. It comes back only where the ring was full at one moment of the call.
#[tactic(auto, using(crate::proofs::Parcels::pushed_on, crate::proofs::Parcels::same_popped, crate::proofs::Parcels::beside_same, crate::proofs::Parcels::beside_pushed))]
pub(crate) fn put<B: Naming, R: Wait>(
    rt: &R,
    ring: &Ring,
    pass: &mut RingPass,
    job: Errand<B>,
) -> Result<(), Errand<B>>
    requires pass { IsPassFor ring.now B.name B.deeds B.sizes pass.old }
    requires job { IsJobFor B.name B.sizes.blocks B.sizes.page job }
    ensures pass { IsPassFor ring.now B.name B.deeds B.sizes pass.new }
    ensures popped { popped_in pass.new ≡ popped_in pass.old }
    ensures alone { company_in pass.new ≡ company_in pass.old }
    ensures answer { MatchResult result (λ _. pushed_in pass.new ≡ pushed_in pass.old ++ job ∷ []) (λ back. (back ≡ job) × (pushed_in pass.new ≡ pushed_in pass.old) × Held 64 (Stands (view pass.new))) }
{
    match ring.push(rt, pass, job.unnamed()) {
        Ok(()) => Ok(()),
        Err(parcel) => Err(parcel.named()),
    }
}

/// Takes the job at the front of the ring. Nothing only where the ring was empty at one moment of the call.
#[tactic(auto, using(crate::proofs::Parcels::popped_on, crate::proofs::Parcels::same_pushed, crate::proofs::Parcels::beside_same, crate::proofs::Parcels::beside_popped))]
pub(crate) fn take<B: Naming, R: Wait>(
    rt: &R,
    ring: &Ring,
    pass: &mut RingPass,
) -> Option<Errand<B>>
    requires pass { IsPassFor ring.now B.name B.deeds B.sizes pass.old }
    ensures pass { IsPassFor ring.now B.name B.deeds B.sizes pass.new }
    ensures answer { MatchOption result ((view pass.new ≡ view pass.old) × Held 0 (Stands (view pass.old))) (λ job. (popped_in pass.new ≡ popped_in pass.old ++ job ∷ []) × IsJobFor B.name B.sizes.blocks B.sizes.page job) }
    ensures pushed { pushed_in pass.new ≡ pushed_in pass.old }
    ensures alone { company_in pass.new ≡ company_in pass.old }
{
    let parcel = ring.pop(rt, pass)?;
    Some(parcel.named())
}
