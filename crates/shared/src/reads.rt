//! Reads.

ghost use Rattle.std.specs.Prelude.{◌≡◌, ◌≢◌, ◌+◌, ◌≤◌, Err, IfErr, IfNone, IfOk, IfSome, None, drop, length, take};
ghost use Rattle.machine.specs.declared.event.Event.TheVariants as event;
ghost use Rattle.machine.specs.declared.event.Reply.TheVariants as reply;
ghost use Rattle.pc_types.specs.declared.limits.TheConstants.{MAX_FILE_SIZE};
ghost use Rattle.pc_types.specs.declared.refusal.Refusal.TheVariants.{BadHandle, Stranger};
ghost use Rattle.held.specs.Called.{Goes, Once, Only};
ghost use Rattle.shared.specs.Called.{Makes, OwnFirst, Retries};
ghost use Rattle.shared.specs.Denials.{IsDenied};
ghost use Rattle.shared.specs.Rooms.{IsFinal, IsLost, IsShortFor};
ghost use Rattle.shared.specs.Own.{IsCallOf, IsTry, count_in};
ghost use Rattle.shared.specs.Settled.{FillsMissed, Settles};

use crate::cache::SharedCache;
use crate::handle::Handle;
use blockdev::BlockDevice;
use cachecore::{Demand, ReadAnswer};
use held::denied::{Denied, without_slip};
use held::log::{Seat, Slip};
use held::naming::Naming;
use pc_types::HandleId;
use std::sync::Wait;
use trail::Trail;

impl<B: Naming, D: BlockDevice, T: Trail> SharedCache<B, D, T> {
    /// Reads at the cursor, as `pread` does there, and moves the cursor by the count.
    pub fn read<R: Wait>(
        &self,
        rt: &R,
        seat: &mut Seat,
        handle: &mut Handle,
        out: &mut [u8],
    ) -> Result<(u64, Slip), Denied>
        requires seat { seat.old.name ≡ self.now.name → seat.old.table ≡ B.table }
        ensures foreign { seat.old.name ≢ self.now.name → (result ≡ Err (record { refusal = Stranger; slip = None })) × (seat.new ≡ seat.old) }
        ensures closed { seat.old.name ≡ self.now.name → handle.old.cache ≢ self.now.name → (result ≡ Err (record { refusal = BadHandle; slip = None })) × (seat.new ≡ seat.old) }
        ensures goes { Goes seat.old seat.new }
        ensures only { IfErr result (λ _. Only (IsTry handle.old.number (event.Read handle.old.number handle.old.cursor (length out.old))) seat.old seat.new) }
        ensures once { IfOk result (λ _. Once (IsTry handle.old.number (event.Read handle.old.number handle.old.cursor (length out.old))) seat.old seat.new) }
        ensures answer { IfOk result (λ r. Makes seat.old seat.new r.1 (event.Read handle.old.number handle.old.cursor (length out.old)) (reply.Bytes (take r.0 out.new))) }
        ensures denied { seat.old.name ≡ self.now.name → handle.old.cache ≡ self.now.name → IfErr result (IsDenied B.files B.sizes B.name B.whole (IsCallOf handle.old.number (event.Read handle.old.number handle.old.cursor (length out.old))) seat.old seat.new) }
        ensures lost { IfErr result (IsLost B.files B.sizes self.now.name seat.new) }
        ensures count { IfOk result (λ r. r.0 ≤ length out.old) }
        ensures rest { drop (count_in result) out.new ≡ drop (count_in result) out.old }
        ensures cursor { handle.new ≡ record handle.old { cursor = handle.old.cursor + count_in result } }
        ensures stands { IfErr result (IsFinal B.files B.sizes self.now.name seat.new) }
        ensures wanting { IfErr result (IsShortFor (event.Read handle.old.number handle.old.cursor (length out.old)) seat.old seat.new) }
        ensures settled { Settles self.now.name seat.old seat.new }
        ensures missed { FillsMissed (event.Read handle.old.number handle.old.cursor (length out.old)) seat.old seat.new }
        ensures first { OwnFirst (event.Read handle.old.number handle.old.cursor (length out.old)) seat.old seat.new }
    {
        match self.pread(rt, seat, handle, handle.cursor, out) {
            Ok((count, slip)) => {
                handle.cursor += count;
                Ok((count, slip))
            }
            Err(denied) => Err(denied),
        }
    }

    /// Reads the bytes from `offset` on into the front of `out`, and answers how many: as many as it takes, and none past the end of
    /// the file. A read touches 16 pages at most.
    #[tactic(auto, using(held::proofs::Seats::goes_by, held::proofs::Seats::goes_on, held::proofs::Seats::goes_same, crate::proofs::Making::goes_denied, crate::proofs::Making::makes_on, crate::proofs::Making::call_on, held::proofs::Seats::only_same, crate::proofs::Owning::only_try_on, crate::proofs::Owning::once_try_on, crate::proofs::Settling::settles_same, crate::proofs::Making::first_same))]
    pub fn pread<R: Wait>(
        &self,
        rt: &R,
        seat: &mut Seat,
        handle: &Handle,
        offset: u64,
        out: &mut [u8],
    ) -> Result<(u64, Slip), Denied>
        requires seat { seat.old.name ≡ self.now.name → seat.old.table ≡ B.table }
        ensures foreign { seat.old.name ≢ self.now.name → (result ≡ Err (record { refusal = Stranger; slip = None })) × (seat.new ≡ seat.old) }
        ensures closed { seat.old.name ≡ self.now.name → handle.now.cache ≢ self.now.name → (result ≡ Err (record { refusal = BadHandle; slip = None })) × (seat.new ≡ seat.old) }
        ensures goes { Goes seat.old seat.new }
        ensures only { IfErr result (λ _. Only (IsTry handle.now.number (event.Read handle.now.number offset (length out.old))) seat.old seat.new) }
        ensures once { IfOk result (λ _. Once (IsTry handle.now.number (event.Read handle.now.number offset (length out.old))) seat.old seat.new) }
        ensures answer { IfOk result (λ r. Makes seat.old seat.new r.1 (event.Read handle.now.number offset (length out.old)) (reply.Bytes (take r.0 out.new))) }
        ensures denied { seat.old.name ≡ self.now.name → handle.now.cache ≡ self.now.name → IfErr result (IsDenied B.files B.sizes B.name B.whole (IsCallOf handle.now.number (event.Read handle.now.number offset (length out.old))) seat.old seat.new) }
        ensures lost { IfErr result (IsLost B.files B.sizes self.now.name seat.new) }
        ensures count { IfOk result (λ r. r.0 ≤ length out.old) }
        ensures rest { drop (count_in result) out.new ≡ drop (count_in result) out.old }
        ensures within { offset ≤ MAX_FILE_SIZE → offset + count_in result ≤ MAX_FILE_SIZE }
        ensures stands { IfErr result (IsFinal B.files B.sizes self.now.name seat.new) }
        ensures wanting { IfErr result (IsShortFor (event.Read handle.now.number offset (length out.old)) seat.old seat.new) }
        ensures settled { Settles self.now.name seat.old seat.new }
        ensures missed { FillsMissed (event.Read handle.now.number offset (length out.old)) seat.old seat.new }
        ensures first { OwnFirst (event.Read handle.now.number offset (length out.old)) seat.old seat.new }
    {
        if let Err(refusal) = self.admits(seat, handle) {
            return Err(without_slip(refusal));
        }
        'attempts: for _ in rt.forever() {
            match self.try_read(rt, seat, handle.number, offset, out) {
                Ok(Some(answer)) => return Ok(answer),
                Ok(None) => {}
                Err(denied) => return Err(denied),
            }
        }
        unreachable!()
    }

    /// One attempt to read. Where a page is missing it is filled, where one is filling the end of a request is waited for, and nothing
    /// is answered.
    #[tactic(auto, using(held::proofs::Seats::goes_by, held::proofs::Seats::goes_on, held::proofs::Seats::goes_same, crate::proofs::Making::goes_denied, crate::proofs::Making::makes_by, crate::proofs::Making::call_first, crate::proofs::Making::call_help, held::proofs::Seats::once_by, crate::proofs::Owning::only_try_denied, crate::proofs::Rooming::read_final))]
    fn try_read<R: Wait>(
        &self,
        rt: &R,
        seat: &mut Seat,
        handle: HandleId,
        offset: u64,
        out: &mut [u8],
    ) -> Result<Option<(u64, Slip)>, Denied>
        requires { seat.old.table ≡ B.table }
        ensures goes { Goes seat.old seat.new }
        ensures only { IfErr result (λ _. Only (IsTry handle (event.Read handle offset (length out.old))) seat.old seat.new) }
        ensures tried { IfOk result (λ o. IfNone o (Only (IsTry handle (event.Read handle offset (length out.old))) seat.old seat.new)) }
        ensures once { IfOk result (λ o. IfSome o (λ _. Once (IsTry handle (event.Read handle offset (length out.old))) seat.old seat.new)) }
        ensures answer { IfOk result (λ o. IfSome o (λ r. Makes seat.old seat.new r.1 (event.Read handle offset (length out.old)) (reply.Bytes (take r.0 out.new)))) }
        ensures denied { IfErr result (IsDenied B.files B.sizes B.name B.whole (IsCallOf handle (event.Read handle offset (length out.old))) seat.old seat.new) }
        ensures lost { IfErr result (IsLost B.files B.sizes B.name seat.new) }
        ensures count { IfOk result (λ o. IfSome o (λ r. r.0 ≤ length out.old)) }
        ensures rest { IfOk result (λ o. IfSome o (λ r. drop r.0 out.new ≡ drop r.0 out.old)) }
        ensures within { IfOk result (λ o. IfSome o (λ r. offset ≤ MAX_FILE_SIZE → offset + r.0 ≤ MAX_FILE_SIZE)) }
        ensures same { IfOk result (λ o. IfNone o (out.new ≡ out.old)) }
        ensures kept { IfErr result (λ _. out.new ≡ out.old) }
        ensures again { IfOk result (λ o. IfNone o (Retries seat.old seat.new (event.Read handle offset (length out.old)))) }
        ensures stands { IfErr result (IsFinal B.files B.sizes B.name seat.new) }
        ensures wanting { IfErr result (IsShortFor (event.Read handle offset (length out.old)) seat.old seat.new) }
        ensures settled { Settles B.name seat.old seat.new }
        ensures missed { FillsMissed (event.Read handle offset (length out.old)) seat.old seat.new }
        ensures first { OwnFirst (event.Read handle offset (length out.old)) seat.old seat.new }
    {
        let most = out.len() as u64;
        let mut guard = self.state.lock(rt);
        // Lends that the history is legal, and so that no file is longer than the limit.
        let _ = guard.core();
        let (answer, slip) = match guard.read(seat, handle, offset, out) {
            Ok(made) => made,
            Err(denied) => return Err(denied),
        };
        let page = match answer {
            ReadAnswer::Bytes(count) => return Ok(Some((count, slip))),
            ReadAnswer::Wait(_) => {
                self.wait_for_end(rt, guard);
                return Ok(None);
            }
            ReadAnswer::Miss(page) => page,
        };
        drop(guard);
        let demand = Demand {
            handle,
            offset,
            count: most,
            dirties: false,
        };
        match self.fill(rt, seat, demand, page) {
            Ok(()) => Ok(None),
            Err(denied) => Err(denied),
        }
    }
}
