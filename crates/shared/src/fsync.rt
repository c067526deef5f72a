//! Fsync, of a file or of a range of its pages.

ghost use Rattle.std.specs.Prelude.{◌≡◌, ◌≢◌, ◌⊎◌, ◌+◌, ◌≤◌, Err, IfErr, IfNone, IfOk, IfSome, None, Some, length};
ghost use Rattle.errboard.specs.Shown.{PassSeen};
ghost use Rattle.machine.specs.State.{file_at};
ghost use Rattle.machine.specs.declared.event.Event.TheVariants as event;
ghost use Rattle.pc_types.specs.declared.limits.TheConstants.{LAST_PAGE};
ghost use Rattle.pc_types.specs.declared.refusal.Refusal.TheVariants.{BadHandle, Stranger, TrailFull};
ghost use Rattle.trail.specs.History.{After};
ghost use Rattle.held.specs.Called.{Goes, Only};
ghost use Rattle.shared.specs.Called.{Makes};
ghost use Rattle.shared.specs.Denials.{IsDenied};
ghost use Rattle.shared.specs.Polls.{Hears, IsLevelled, Polled};
ghost use Rattle.shared.specs.Rooms.{IsFinal};
ghost use Rattle.shared.specs.Settled.{Settles};
ghost use Rattle.shared.specs.Synced.{EndsOnce, IsDropped, IsFsyncDenied, IsGone, IsNotBegun, IsSyncDenied, IsSyncOver, IsTurnTry, OneSync, Reports, Syncs, end_reply};

use crate::cache::SharedCache;
use crate::disk::Durable;
use crate::handle::Handle;
use blockdev::{BlockDevice, Buffer};
use errboard::Pass;
use held::denied::{Denied, by, without_slip};
use held::log::{Seat, Slip};
use held::naming::Naming;
use held::started::SyncMoved;
use held::state::Held;
use pc_types::limits::LAST_PAGE;
use pc_types::{ErrCode, HandleId, PageIndex, Refusal, SyncId};
use std::sync::Wait;
use trail::Trail;

/// How a sync ended: the code of the last write of the file that failed meanwhile, where one did, and the slip of the
/// step that says so.
#[derive(Clone, Copy)]
struct Synced {
    failed: Option<ErrCode>,
    slip: Slip,
}

impl<B: Naming, D: BlockDevice, T: Trail> SharedCache<B, D, T> {
    /// Writes the file's dirty pages to the device. Refused by `Io` where a write of the file failed, during the call or since the
    /// handle was last told: with the code of the last such failure, and the handle is told of all then. Without a slip `Io` is the
    /// device's, which could not make its writes durable.
    pub fn fsync<R: Wait>(
        &self,
        rt: &R,
        seat: &mut Seat,
        handle: &mut Handle,
    ) -> Result<Durable<B, D>, Denied>
        requires seat { seat.old.name ≡ self.now.name → seat.old.table ≡ B.table }
        requires came { handle.old.cache ≡ self.now.name → handle.old.pass.board ≡ B.board }
        ensures foreign { seat.old.name ≢ self.now.name → (result ≡ Err (record { refusal = Stranger; slip = None })) × (seat.new ≡ seat.old) × (handle.new ≡ handle.old) }
        ensures closed { seat.old.name ≡ self.now.name → handle.old.cache ≢ self.now.name → (result ≡ Err (record { refusal = BadHandle; slip = None })) × (seat.new ≡ seat.old) × (handle.new ≡ handle.old) }
        ensures goes { Goes seat.old seat.new }
        ensures only { OneSync handle.old.number (record { 0 = 0 }) (record { 0 = LAST_PAGE }) seat.old seat.new }
        ensures same { (handle.new ≡ record handle.old { pass = handle.new.pass }) × (handle.new.pass.board ≡ handle.old.pass.board) }
        ensures clean { IfOk result (λ slip. Syncs handle.old.number (record { 0 = 0 }) (record { 0 = LAST_PAGE }) None seat.old seat.new slip × Polled handle.old.pass handle.new.pass None) }
        ensures hears { IfOk result (λ slip. Hears B.files B.sizes self.now.name slip seat.new handle.new.pass) }
        ensures denied { seat.old.name ≡ self.now.name → handle.old.cache ≡ self.now.name → IfErr result (IsFsyncDenied B.files B.sizes self.now.name B.whole handle.old.number (record { 0 = 0 }) (record { 0 = LAST_PAGE }) seat.old seat.new handle.old.pass handle.new.pass) }
        ensures stands { IfErr result (λ d. IsNotBegun B.files B.sizes self.now.name B.whole handle.old.number (record { 0 = 0 }) (record { 0 = LAST_PAGE }) seat.old seat.new d ⊎ IsFinal B.files B.sizes self.now.name seat.new d) }
        ensures settled { Settles self.now.name seat.old seat.new }
    {
        self.fsync_range(rt, seat, handle, PageIndex(0), PageIndex(LAST_PAGE))
    }

    /// Writes those of the file's pages from `first` to `last` to the device that are dirty. Refused by `BadRange` where `first` is
    /// past `last`, and by `Io` as `fsync` is: also where the write that failed was of a page outside the range.
    #[tactic(auto, using(held::proofs::Seats::goes_same, crate::proofs::Syncing::syncs_seen, crate::proofs::Syncing::flush_failed, crate::proofs::Syncing::sync_denied, crate::proofs::Owning::sync_same))]
    pub fn fsync_range<R: Wait>(
        &self,
        rt: &R,
        seat: &mut Seat,
        handle: &mut Handle,
        first: PageIndex,
        last: PageIndex,
    ) -> Result<Durable<B, D>, Denied>
        requires seat { seat.old.name ≡ self.now.name → seat.old.table ≡ B.table }
        requires came { handle.old.cache ≡ self.now.name → handle.old.pass.board ≡ B.board }
        ensures foreign { seat.old.name ≢ self.now.name → (result ≡ Err (record { refusal = Stranger; slip = None })) × (seat.new ≡ seat.old) × (handle.new ≡ handle.old) }
        ensures closed { seat.old.name ≡ self.now.name → handle.old.cache ≢ self.now.name → (result ≡ Err (record { refusal = BadHandle; slip = None })) × (seat.new ≡ seat.old) × (handle.new ≡ handle.old) }
        ensures goes { Goes seat.old seat.new }
        ensures only { OneSync handle.old.number first last seat.old seat.new }
        ensures same { (handle.new ≡ record handle.old { pass = handle.new.pass }) × (handle.new.pass.board ≡ handle.old.pass.board) }
        ensures clean { IfOk result (λ slip. Syncs handle.old.number first last None seat.old seat.new slip × Polled handle.old.pass handle.new.pass None) }
        ensures hears { IfOk result (λ slip. Hears B.files B.sizes self.now.name slip seat.new handle.new.pass) }
        ensures denied { seat.old.name ≡ self.now.name → handle.old.cache ≡ self.now.name → IfErr result (IsFsyncDenied B.files B.sizes self.now.name B.whole handle.old.number first last seat.old seat.new handle.old.pass handle.new.pass) }
        ensures stands { IfErr result (λ d. IsNotBegun B.files B.sizes self.now.name B.whole handle.old.number first last seat.old seat.new d ⊎ IsFinal B.files B.sizes self.now.name seat.new d) }
        ensures settled { Settles self.now.name seat.old seat.new }
    {
        if let Err(refusal) = self.admits(seat, handle) {
            return Err(without_slip(refusal));
        }
        let synced = match self.sync_pages(rt, seat, &mut handle.pass, handle.number, first, last) {
            Ok(synced) => synced,
            Err(denied) => return Err(denied),
        };
        if let Some(code) = synced.failed {
            return Err(self.report_failed(handle, code, synced.slip));
        }
        // under the device's lock alone, after the sync (decision 140)
        let flushed = self.disk.lock(rt).flush_after(seat, synced.slip);
        match flushed {
            Ok(durable) => self.report(handle, durable),
            Err(code) => Err(without_slip(Refusal::Io(code))),
        }
    }

    /// What the handle is told once the sync has ended clean: the code of the last write that failed, if it was not told of that.
    #[tactic(auto, using(crate::proofs::Syncing::reports_polled))]
    fn report(&self, handle: &mut Handle, durable: Durable<B, D>) -> Result<Durable<B, D>, Denied>
        requires { handle.old.pass.board ≡ B.board }
        ensures same { (handle.new ≡ record handle.old { pass = handle.new.pass }) × (handle.new.pass.board ≡ handle.old.pass.board) }
        ensures clean { IfOk result (λ d. (d ≡ durable) × Polled handle.old.pass handle.new.pass None) }
        ensures failed { IfErr result (Reports None durable handle.old.pass handle.new.pass) }
    {
        match self.poll(&mut handle.pass) {
            Some(code) => Err(by(Refusal::Io(code), durable.slip())),
            None => Ok(durable),
        }
    }

    /// What the handle is told once the sync has ended with the code of a failed write: the code of the last one that it was not told of,
    /// or this.
    #[tactic(auto, using(crate::proofs::Syncing::reports_failed))]
    fn report_failed(&self, handle: &mut Handle, code: ErrCode, slip: Slip) -> Denied
        requires { handle.old.pass.board ≡ B.board }
        ensures same { (handle.new ≡ record handle.old { pass = handle.new.pass }) × (handle.new.pass.board ≡ handle.old.pass.board) }
        ensures failed { Reports (Some code) slip handle.old.pass handle.new.pass result }
    {
        match self.poll(&mut handle.pass) {
            Some(last) => by(Refusal::Io(last), slip),
            None => by(Refusal::Io(code), slip),
        }
    }

    /// Syncs these pages of the handle's file. No sync is left. The one buffer of all its writes is made before it begins
    /// (decision 162).
    #[tactic(auto, using(held::proofs::Seats::goes_by, held::proofs::Seats::goes_on, held::proofs::Seats::goes_same, crate::proofs::Making::goes_denied, crate::proofs::Syncing::syncs_by, crate::proofs::Syncing::begin_denied, crate::proofs::Syncing::gave_up, crate::proofs::Owning::sync_not_begun, crate::proofs::Owning::sync_over, crate::proofs::Owning::sync_given_up))]
    fn sync_pages<R: Wait>(
        &self,
        rt: &R,
        seat: &mut Seat,
        pass: &mut Pass,
        handle: HandleId,
        first: PageIndex,
        last: PageIndex,
    ) -> Result<Synced, Denied>
        requires seat { seat.old.table ≡ B.table }
        requires pass { pass.old.board ≡ B.board }
        ensures goes { Goes seat.old seat.new }
        ensures level { IsLevelled pass.old pass.new }
        ensures hears { IfOk result (λ r. Hears B.files B.sizes B.name r.slip seat.new pass.new) }
        ensures kept { IfErr result (λ _. pass.new ≡ pass.old) }
        ensures only { OneSync handle first last seat.old seat.new }
        ensures ended { IfOk result (λ r. Syncs handle first last r.failed seat.old seat.new r.slip) }
        ensures denied { IfErr result (IsSyncDenied B.files B.sizes B.name B.whole handle first last seat.old seat.new) }
        ensures stands { IfErr result (λ d. IsNotBegun B.files B.sizes B.name B.whole handle first last seat.old seat.new d ⊎ IsFinal B.files B.sizes B.name seat.new d) }
        ensures settled { Settles B.name seat.old seat.new }
    {
        let buffer = match Buffer::new(self.alloc, &self.geometry) {
            Ok(buffer) => buffer,
            Err(refusal) => return Err(without_slip(refusal)),
        };
        let begun = self.state.lock(rt).sync_begin(seat, handle, first, last);
        let sync = match begun {
            Ok((sync, _)) => sync,
            Err(denied) => return Err(denied),
        };
        match self.sync_turns(rt, seat, pass, sync, buffer) {
            Ok(synced) => Ok(synced),
            Err(denied) => Err(self.give_up(rt, seat, sync, denied)),
        }
    }

    /// Makes turns of the sync until one ends it, each with the buffer that the one before gave back.
    #[tactic(auto, using(held::proofs::Seats::goes_by, held::proofs::Seats::goes_on, held::proofs::Seats::goes_same, crate::proofs::Making::goes_denied, crate::proofs::Making::makes_on, crate::proofs::Syncing::turn_on, crate::proofs::Owning::turn_try_on))]
    fn sync_turns<R: Wait>(
        &self,
        rt: &R,
        seat: &mut Seat,
        pass: &mut Pass,
        sync: SyncId,
        mut buffer: Buffer,
    ) -> Result<Synced, Denied>
        requires seat { seat.old.table ≡ B.table }
        requires pass { pass.old.board ≡ B.board }
        requires size { length buffer ≡ B.sizes.page }
        ensures goes { Goes seat.old seat.new }
        ensures level { IsLevelled pass.old pass.new }
        ensures hears { IfOk result (λ r. Hears B.files B.sizes B.name r.slip seat.new pass.new) }
        ensures kept { IfErr result (λ _. pass.new ≡ pass.old) }
        ensures once { IfOk result (λ _. EndsOnce (IsTurnTry sync) (IsSyncOver sync) seat.old seat.new) }
        ensures tried { IfErr result (λ _. Only (IsTurnTry sync) seat.old seat.new) }
        ensures ended { IfOk result (λ r. Makes seat.old seat.new r.slip (event.SyncStep sync) (end_reply r.failed)) }
        ensures denied { IfErr result (IsDenied B.files B.sizes B.name B.whole (λ e. e ≡ event.SyncStep sync) seat.old seat.new) }
        ensures full { IfErr result (λ d. d.slip ≡ None → d.refusal ≡ TrailFull) }
        ensures stands { IfErr result (IsFinal B.files B.sizes B.name seat.new) }
        ensures settled { Settles B.name seat.old seat.new }
    {
        'turns: for _ in rt.forever() {
            let (ended, back) = match self.sync_turn(rt, seat, pass, sync, buffer) {
                Ok(made) => made,
                Err(denied) => return Err(denied),
            };
            if let Some(synced) = ended {
                return Ok(synced);
            }
            buffer = back;
        }
        unreachable!()
    }

    /// Makes a step of the sync. Where that begins a write it is carried out, where a page is being written or too many requests
    /// are in flight the end of one is waited for, and the buffer alone is answered.
    #[tactic(auto, using(held::proofs::Seats::goes_by, held::proofs::Seats::goes_on, held::proofs::Seats::goes_same, crate::proofs::Making::goes_denied, crate::proofs::Syncing::clean_ended, crate::proofs::Syncing::failed_ended, crate::proofs::Making::denied_event, crate::proofs::Owning::try_denied))]
    fn sync_turn<R: Wait>(
        &self,
        rt: &R,
        seat: &mut Seat,
        pass: &mut Pass,
        sync: SyncId,
        buffer: Buffer,
    ) -> Result<(Option<Synced>, Buffer), Denied>
        requires seat { seat.old.table ≡ B.table }
        requires pass { pass.old.board ≡ B.board }
        requires size { length buffer ≡ B.sizes.page }
        ensures goes { Goes seat.old seat.new }
        ensures level { IsLevelled pass.old pass.new }
        ensures hears { IfOk result (λ o. IfSome o.0 (λ r. Hears B.files B.sizes B.name r.slip seat.new pass.new)) }
        ensures again { IfOk result (λ o. IfNone o.0 (pass.new ≡ pass.old)) }
        ensures kept { IfErr result (λ _. pass.new ≡ pass.old) }
        ensures once { IfOk result (λ o. IfSome o.0 (λ _. EndsOnce (IsTurnTry sync) (IsSyncOver sync) seat.old seat.new)) }
        ensures goes_on { IfOk result (λ o. IfNone o.0 (Only (IsTurnTry sync) seat.old seat.new)) }
        ensures tried { IfErr result (λ _. Only (IsTurnTry sync) seat.old seat.new) }
        ensures ended { IfOk result (λ o. IfSome o.0 (λ r. Makes seat.old seat.new r.slip (event.SyncStep sync) (end_reply r.failed))) }
        ensures back { IfOk result (λ o. length o.1 ≡ B.sizes.page) }
        ensures denied { IfErr result (IsDenied B.files B.sizes B.name B.whole (λ e. e ≡ event.SyncStep sync) seat.old seat.new) }
        ensures full { IfErr result (λ d. d.slip ≡ None → d.refusal ≡ TrailFull) }
        ensures stands { IfErr result (IsFinal B.files B.sizes B.name seat.new) }
        ensures settled { Settles B.name seat.old seat.new }
    {
        let mut guard = self.state.lock(rt);
        let (stepped, slip) = match guard.sync_step(seat, sync, buffer) {
            Ok(made) => made,
            Err((denied, buffer)) => {
                return match self.wait_or(rt, guard, denied) {
                    Ok(()) => Ok((None, buffer)),
                    Err(denied) => Err(denied),
                };
            }
        };
        let job = match stepped {
            SyncMoved::Job(job) => job,
            SyncMoved::Wait(_, buffer) => {
                // Lend that the history is legal, and that the sizes are within their limits. So the write of that page is in flight.
                let _ = guard.core();
                let _ = self.geometry.page();
                self.wait_for_end(rt, guard);
                return Ok((None, buffer));
            }
            SyncMoved::Clean(buffer) => {
                return Ok((Some(over(&mut guard, pass, None, slip)), buffer));
            }
            SyncMoved::Failed(code, buffer) => {
                return Ok((Some(over(&mut guard, pass, Some(code), slip)), buffer));
            }
        };
        drop(guard);
        let (_, buffer) = self.flush_by(rt, seat, job);
        Ok((None, buffer))
    }

    /// Drops a sync whose turn was refused, and answers that refusal. The drop has no slip only where the trail is full and the sync in
    /// progress no longer, since room is kept for the drop of each that is: `Stranger` then, as a drop with a slip would have it. The seat
    /// is shown the history that says so.
    #[tactic(auto, using(held::proofs::Seats::goes_by, held::proofs::Seats::goes_on, held::proofs::Seats::goes_same, crate::proofs::Making::goes_denied, crate::proofs::Syncing::dropped_by, crate::proofs::Syncing::dropped_refused, crate::proofs::Owning::only_event, crate::proofs::Owning::only_event_denied, crate::proofs::Owning::event_few, crate::proofs::Owning::event_denied_few))]
    fn give_up<R: Wait>(&self, rt: &R, seat: &mut Seat, sync: SyncId, denied: Denied) -> Denied
        requires { seat.old.table ≡ B.table }
        ensures goes { Goes seat.old seat.new }
        ensures only { Only (λ e. e.event ≡ event.SyncDrop sync) seat.old seat.new }
        ensures few { seat.new.count ≤ seat.old.count + 1 }
        ensures dropped { ((result ≡ denied) × IsDropped sync seat.old seat.new) ⊎ ((result ≡ record { refusal = Stranger; slip = None }) × IsGone B.files B.sizes B.name sync seat.old seat.new) }
    {
        let Err(other) = self.state.lock(rt).sync_drop(seat, sync) else {
            return denied;
        };
        if other.slip.is_some() {
            return denied;
        }
        without_slip(Refusal::Stranger)
    }
}

/// A sync that ended by the entry of this slip. The poll that follows knows all failed writes up to here.
fn over<B: Naming, T: Trail>(
    state: &mut Held<B, T>,
    pass: &mut Pass,
    failed: Option<ErrCode>,
    slip: Slip,
) -> Synced
    requires { pass.old.board ≡ B.board }
    ensures is { result ≡ record { failed = failed; slip = slip } }
    ensures same { state.new ≡ state.old }
    ensures level { IsLevelled pass.old pass.new }
    ensures known { length pass.new.known ≡ (file_at state.old.core.state pass.new.file).failures }
    ensures legal { After B.files B.sizes B.name state.old.log.history state.old.core.state }
{
    state.level(pass);
    Synced { failed, slip }
}
