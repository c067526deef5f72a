//! How a call makes room.

ghost use Rattle.std.specs.Prelude.{◌≡◌, ℕ, ◌⊎◌, IfErr, IfOk, IsTrue, if◌then◌else◌, false, true};
ghost use Rattle.std.specs.Sync.Mutex.{mutex_guard_value};
ghost use Rattle.cachecore.specs.Wants.{is_busy};
ghost use Rattle.cachecore.specs.declared.answers.Want.TheVariants.{Frames};
ghost use Rattle.machine.specs.Tests.{has_idle};
ghost use Rattle.pc_types.specs.Limits.{is_geometry};
ghost use Rattle.pc_types.specs.declared.refusal.Refusal.TheVariants.{NoFrame};
ghost use Rattle.trail.specs.History.{After};
ghost use Rattle.held.specs.Called.{Goes, Only};
ghost use Rattle.shared.specs.Called.{is_for_now};
ghost use Rattle.shared.specs.Denials.{IsDenied, IsFullFor};
ghost use Rattle.shared.specs.Own.{IsEviction, IsRoomEvent, IsStillDenied};
ghost use Rattle.shared.specs.Rooms.{IsCrammed, IsFinal, IsFinalOr, IsUnwritten, wants_room};
ghost use Rattle.shared.specs.Settled.{Settles};
ghost use Rattle.shared.specs.Workers.{FindsEnough, LetsGo};

use crate::cache::SharedCache;
use blockdev::{BlockDevice, Buffer};
use cachecore::{Demand, Want};
use held::denied::{Denied, without_slip};
use held::log::Seat;
use held::naming::Naming;
use held::state::Held;
use pc_types::{HandleId, Refusal};
use std::sync::{MutexGuard, Wait};
use trail::Trail;

impl<B: Naming, D: BlockDevice, T: Trail> SharedCache<B, D, T> {
    /// Makes room for a call: until as many frames are free as it lacks pages, and no more pages would be dirty than may be, or none can
    /// be made.
    #[tactic(auto, using(held::proofs::Seats::goes_by, held::proofs::Seats::goes_on, held::proofs::Seats::goes_same, crate::proofs::Making::goes_denied, crate::proofs::Making::room_on, held::proofs::Seats::only_same, crate::proofs::Owning::only_room_on, crate::proofs::Settling::settles_same))]
    pub(crate) fn make_way<R: Wait>(
        &self,
        rt: &R,
        seat: &mut Seat,
        demand: Demand,
    ) -> Result<(), Denied>
        requires { seat.old.table ≡ B.table }
        ensures goes { Goes seat.old seat.new }
        ensures only { Only (λ e. IsRoomEvent e.event) seat.old seat.new }
        ensures denied { IfErr result (IsDenied B.files B.sizes B.name B.whole IsRoomEvent seat.old seat.new) }
        ensures unwanted { IfErr result (λ d. wants_room d.refusal ≡ false) }
        ensures stands { IfErr result (IsFinal B.files B.sizes B.name seat.new) }
        ensures settled { Settles B.name seat.old seat.new }
    {
        'turns: for _ in rt.forever() {
            let guard = self.state.lock(rt);
            let Some(want) = guard.core().wants(demand) else {
                return Ok(());
            };
            match self.make_room(rt, guard, seat, want) {
                Ok(true) => {}
                Ok(false) => return Ok(()),
                Err(denied) => return Err(denied),
            }
        }
        unreachable!()
    }

    /// What comes of an event that was refused, in the hold that refused it: where it wanted room, some is made, or the end of a request
    /// waited for. The refusal stands where none can be made, and where it is of another kind.
    #[tactic(auto, using(held::proofs::Seats::goes_same, crate::proofs::Making::goes_denied, held::proofs::Seats::only_same, crate::proofs::Rooming::wants_pass, crate::proofs::Rooming::stands_by, crate::proofs::Rooming::stands_still, crate::proofs::Rooming::stands_other, crate::proofs::Settling::settles_same))]
    pub(crate) fn relieve<R: Wait>(
        &self,
        rt: &R,
        guard: MutexGuard<'_, Held<B, T>>,
        seat: &mut Seat,
        denied: Denied,
    ) -> Result<(), Denied>
        requires { seat.old.table ≡ B.table }
        ensures goes { Goes seat.old seat.new }
        ensures only { Only (λ e. IsRoomEvent e.event) seat.old seat.new }
        ensures denied { IfErr result (IsStillDenied B.files B.sizes B.name B.whole denied seat.old seat.new) }
        ensures passing { IfOk result (λ _. is_for_now denied.refusal ≡ true) }
        ensures other { IfErr result (λ d. (d ≡ denied) ⊎ (wants_room denied.refusal ≡ true)) }
        ensures quiet { wants_room denied.refusal ≡ false → seat.new ≡ seat.old }
        ensures crammed { IfErr result (λ d. wants_room d.refusal ≡ true → (d ≡ denied) × IsCrammed d.refusal (mutex_guard_value guard.entry).core.state × IsUnwritten (mutex_guard_value guard.entry).core.state seat.old seat.new) }
        ensures legal { After B.files B.sizes B.name (mutex_guard_value guard.entry).log.history (mutex_guard_value guard.entry).core.state }
        ensures within { IsTrue (is_geometry B.sizes) }
        ensures stands { IfErr result (IsFinalOr denied B.files B.sizes B.name (mutex_guard_value guard.entry).core.state seat.new) }
        ensures settled { Settles B.name seat.old seat.new }
    {
        // Lend that the history is legal, and that the sizes are within their limits.
        let _ = guard.core();
        let _ = self.geometry.page();
        if !wants_room(denied.refusal) {
            return self.wait_or(rt, guard, denied);
        }
        match self.make_room(rt, guard, seat, want_of(denied.refusal)) {
            Ok(true) => Ok(()),
            Ok(false) => Err(denied),
            Err(other) => Err(other),
        }
    }

    /// Makes some room: a page is evicted, or written, or the end of a request waited for. Answers whether that was done: not where no
    /// page is idle or to be written and no request is in flight, nor where only the call's own write was in flight, and failed.
    ///
    /// All of that is asked in one hold (decision 136). Between two the end of a write could make a page idle that neither would see.
    fn make_room<R: Wait>(
        &self,
        rt: &R,
        guard: MutexGuard<'_, Held<B, T>>,
        seat: &mut Seat,
        want: Want,
    ) -> Result<bool, Denied>
        requires { seat.old.table ≡ B.table }
        ensures goes { Goes seat.old seat.new }
        ensures only { Only (λ e. IsRoomEvent e.event) seat.old seat.new }
        ensures denied { IfErr result (IsDenied B.files B.sizes B.name B.whole IsRoomEvent seat.old seat.new) }
        ensures unwanted { IfErr result (λ d. wants_room d.refusal ≡ false) }
        ensures still { IfOk result (λ made. made ≡ false → is_busy (mutex_guard_value guard.entry).core.state ≡ false) }
        ensures unwritten { IfOk result (λ made. made ≡ false → IsUnwritten (mutex_guard_value guard.entry).core.state seat.old seat.new) }
        ensures idle { IfOk result (λ made. made ≡ false → (n : ℕ) → want ≡ Frames n → has_idle (mutex_guard_value guard.entry).core.state ≡ false) }
        ensures stands { IfErr result (IsFinal B.files B.sizes B.name seat.new) }
        ensures settled { Settles B.name seat.old seat.new }
    {
        match want {
            Want::Frames(_) => self.free_frame(rt, guard, seat),
            Want::Clean => self.flush_one(rt, guard, seat),
        }
    }

    /// Lets an idle page go. Where none is idle a page is written back, or the end of a request waited for.
    #[tactic(auto, using(held::proofs::Seats::goes_on, crate::proofs::Making::room_on, crate::proofs::Making::room_full, crate::proofs::Owning::only_evicted, crate::proofs::Owning::only_evicted_on, crate::proofs::Rooming::unwritten_on, crate::proofs::Settling::settles_evicted))]
    fn free_frame<R: Wait>(
        &self,
        rt: &R,
        mut guard: MutexGuard<'_, Held<B, T>>,
        seat: &mut Seat,
    ) -> Result<bool, Denied>
        requires { seat.old.table ≡ B.table }
        ensures goes { Goes seat.old seat.new }
        ensures only { Only (λ e. IsRoomEvent e.event) seat.old seat.new }
        ensures denied { IfErr result (IsDenied B.files B.sizes B.name B.whole IsRoomEvent seat.old seat.new) }
        ensures unwanted { IfErr result (λ d. wants_room d.refusal ≡ false) }
        ensures still { IfOk result (λ made. made ≡ false → is_busy (mutex_guard_value guard.entry).core.state ≡ false) }
        ensures unwritten { IfOk result (λ made. made ≡ false → IsUnwritten (mutex_guard_value guard.entry).core.state seat.old seat.new) }
        ensures idle { IfOk result (λ made. made ≡ false → has_idle (mutex_guard_value guard.entry).core.state ≡ false) }
        ensures stands { IfErr result (IsFinal B.files B.sizes B.name seat.new) }
        ensures settled { Settles B.name seat.old seat.new }
    {
        match evict_idle(&mut guard, seat) {
            Ok(true) => Ok(true),
            Ok(false) => self.flush_one(rt, guard, seat),
            Err(denied) => Err(denied),
        }
    }

    /// Writes a page back, of the first file that has one to write; or waits for the end of a request, where there is none to write or
    /// too many are in flight. Answers whether that was done; also where the write failed, if another request was in flight beside it.
    #[tactic(auto, using(held::proofs::Seats::goes_by, held::proofs::Seats::goes_on, held::proofs::Seats::goes_same, crate::proofs::Making::goes_denied, crate::proofs::Making::denied_first, crate::proofs::Making::room_on, held::proofs::Seats::only_same, crate::proofs::Owning::only_first_denied, crate::proofs::Owning::only_written, crate::proofs::Rooming::first_unwanted, crate::proofs::Rooming::none_unwritten, crate::proofs::Rooming::first_final, crate::proofs::Rooming::final_lasting, crate::proofs::Settling::settles_same))]
    fn flush_one<R: Wait>(
        &self,
        rt: &R,
        mut guard: MutexGuard<'_, Held<B, T>>,
        seat: &mut Seat,
    ) -> Result<bool, Denied>
        requires { seat.old.table ≡ B.table }
        ensures goes { Goes seat.old seat.new }
        ensures only { Only (λ e. IsRoomEvent e.event) seat.old seat.new }
        ensures denied { IfErr result (IsDenied B.files B.sizes B.name B.whole IsRoomEvent seat.old seat.new) }
        ensures unwanted { IfErr result (λ d. wants_room d.refusal ≡ false) }
        ensures still { IfOk result (λ made. made ≡ false → is_busy (mutex_guard_value guard.entry).core.state ≡ false) }
        ensures unwritten { IfOk result (λ made. made ≡ false → IsUnwritten (mutex_guard_value guard.entry).core.state seat.old seat.new) }
        ensures stands { IfErr result (IsFinal B.files B.sizes B.name seat.new) }
        ensures settled { Settles B.name seat.old seat.new }
    {
        let was_busy = guard.core().is_busy();
        let buffer = match Buffer::new(self.alloc, &self.geometry) {
            Ok(buffer) => buffer,
            Err(refusal) => return Err(without_slip(refusal)),
        };
        match guard.flush_first(seat, buffer) {
            Ok(Some((job, _))) => {
                drop(guard);
                let (is_written, buffer) = self.flush_by(rt, seat, job);
                drop(buffer);
                Ok(is_written || was_busy)
            }
            Ok(None) => {
                if was_busy {
                    self.wait_for_end(rt, guard);
                }
                Ok(was_busy)
            }
            Err(denied) => match self.wait_or(rt, guard, denied) {
                Ok(()) => Ok(true),
                Err(denied) => Err(denied),
            },
        }
    }

    /// Lets an idle page go. Answers whether there was one.
    pub(crate) fn evict_one<R: Wait>(&self, rt: &R, seat: &mut Seat) -> Result<bool, Denied>
        requires { seat.old.table ≡ B.table }
        ensures goes { Goes seat.old seat.new }
        ensures only { Only (λ e. IsEviction e.event) seat.old seat.new }
        ensures gone { IfOk result (λ went. LetsGo (if went then 1 else 0) seat.old seat.new) }
        ensures none { IfOk result (λ went. went ≡ false → FindsEnough 16 B.files B.sizes B.name seat.new) }
        ensures denied { IfErr result (IsFullFor B.files B.sizes B.name B.whole IsEviction seat.old seat.new) }
    {
        evict_idle(&mut self.state.lock(rt), seat)
    }
}

/// Lets pages age, and then an idle one go. Answers whether there was one.
#[tactic(auto, using(held::proofs::Seats::goes_by, held::proofs::Seats::goes_on, held::proofs::Seats::goes_same, crate::proofs::Making::goes_denied, crate::proofs::Rooming::full_age, crate::proofs::Rooming::full_evict, crate::proofs::Owning::only_age_denied, crate::proofs::Owning::only_evicts, crate::proofs::Owning::only_evict_denied, crate::proofs::Letting::evicted_gone, crate::proofs::Finding::finds_none_idle, crate::proofs::Rooming::age_unwanted, crate::proofs::Rooming::evict_unwanted, crate::proofs::Rooming::evict_none, crate::proofs::Rooming::age_final, crate::proofs::Rooming::evict_final))]
fn evict_idle<B: Naming, T: Trail>(state: &mut Held<B, T>, seat: &mut Seat) -> Result<bool, Denied>
    requires { seat.old.table ≡ B.table }
    ensures goes { Goes seat.old seat.new }
    ensures only { Only (λ e. IsEviction e.event) seat.old seat.new }
    ensures gone { IfOk result (λ went. LetsGo (if went then 1 else 0) seat.old seat.new) }
    ensures denied { IfErr result (IsFullFor B.files B.sizes B.name B.whole IsEviction seat.old seat.new) }
    ensures unwanted { IfErr result (λ d. wants_room d.refusal ≡ false) }
    ensures found { IfOk result (λ went. went ≡ false → FindsEnough 16 B.files B.sizes B.name seat.new) }
    ensures none { IfOk result (λ went. went ≡ false → (has_idle state.old.core.state ≡ false) × (state.new.core.state ≡ state.old.core.state)) }
    ensures stands { IfErr result (IsFinal B.files B.sizes B.name seat.new) }
{
    if let Err(denied) = state.age(seat) {
        return Err(denied);
    }
    match state.evict(seat) {
        Ok((page, _)) => {
            // Lends that the history is legal.
            let _ = state.core();
            Ok(page.is_some())
        }
        Err(denied) => Err(denied),
    }
}

/// Whether more room might have spared a refusal.
pub(crate) fn wants_room(refusal: Refusal) -> bool
    ensures { result ≡ wants_room refusal }
{
    matches!(refusal, Refusal::NoFrame | Refusal::DirtyLimit)
}

/// Which room an event wanted that was refused so.
fn want_of(refusal: Refusal) -> Want
    ensures { refusal ≡ NoFrame → result ≡ Frames 1 }
{
    match refusal {
        Refusal::NoFrame => Want::Frames(1),
        _ => Want::Clean,
    }
}
