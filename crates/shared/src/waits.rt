//! Waiting for the end of a request, and which refusals may pass by one.

ghost use Rattle.std.specs.Prelude.{◌≡◌, IfErr, IfOk, false, true};
ghost use Rattle.std.specs.Sync.Mutex.{mutex_guard_value};
ghost use Rattle.cachecore.specs.Wants.{is_busy};
ghost use Rattle.trail.specs.History.{After};
ghost use Rattle.shared.specs.Called.{is_for_now, may_pass};

use crate::cache::SharedCache;
use blockdev::BlockDevice;
use held::denied::Denied;
use held::naming::Naming;
use held::state::Held;
use pc_types::Refusal;
use std::sync::{MutexGuard, Wait};
use trail::Trail;

impl<B: Naming, D: BlockDevice, T: Trail> SharedCache<B, D, T> {
    /// Waits for the end of a request. One is in flight.
    pub(crate) fn wait_for_end<R: Wait>(&self, rt: &R, guard: MutexGuard<'_, Held<B, T>>)
        requires { is_busy (mutex_guard_value guard).core.state ≡ true }
    {
        drop(self.changed.wait(rt, guard));
    }

    /// Waits for the end of a request, where one is in flight by whose end the refusal may pass; else the refusal stands.
    #[tactic(auto, using(crate::proofs::Rooming::passes_now, crate::proofs::Rooming::passes_busy))]
    pub(crate) fn wait_or<R: Wait>(
        &self,
        rt: &R,
        guard: MutexGuard<'_, Held<B, T>>,
        denied: Denied,
    ) -> Result<(), Denied>
        ensures denied { IfErr result (λ d. d ≡ denied) }
        ensures passing { IfOk result (λ _. is_for_now denied.refusal ≡ true) }
        ensures waited { IfOk result (λ _. may_pass denied.refusal (mutex_guard_value guard.entry).core.state ≡ true) }
        ensures still { IfErr result (λ _. may_pass denied.refusal (mutex_guard_value guard.entry).core.state ≡ false) }
        ensures legal { After B.files B.sizes B.name (mutex_guard_value guard.entry).log.history (mutex_guard_value guard.entry).core.state }
    {
        // Lends that the history is legal.
        let _ = guard.core();
        if !may_pass(&guard, denied.refusal) {
            return Err(denied);
        }
        self.wait_for_end(rt, guard);
        Ok(())
    }
}

/// Whether a request is in flight by whose end a refusal may pass (decision 172).
fn may_pass<B: Naming, T: Trail>(state: &Held<B, T>, refusal: Refusal) -> bool
    ensures { result ≡ may_pass refusal state.now.core.state }
{
    match refusal {
        Refusal::NoSpace => state.core().holds_cut(),
        _ => is_for_now(refusal) && state.core().is_busy(),
    }
}

/// Whether a refusal may pass when a request ends.
pub(crate) fn is_for_now(refusal: Refusal) -> bool
    ensures { result ≡ is_for_now refusal }
{
    matches!(
        refusal,
        Refusal::NoFrame | Refusal::DirtyLimit | Refusal::TooManyInFlight | Refusal::NoSpace
    )
}
