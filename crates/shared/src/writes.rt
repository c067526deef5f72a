//! Writes and truncations.

ghost use Rattle.std.specs.Prelude.{◌≡◌, ◌≢◌, ◌⊎◌, ◌+◌, Err, IfErr, IfNone, IfOk, IfSome, IsTrue, None, Ok, false, length, true};
ghost use Rattle.std.specs.Sync.Mutex.{mutex_guard_value};
ghost use Rattle.cachecore.specs.Replies.{was_truncated};
ghost use Rattle.held.specs.Entered.{Made};
ghost use Rattle.machine.specs.declared.event.Event.TheVariants as event;
ghost use Rattle.machine.specs.declared.event.Reply.TheVariants as reply;
ghost use Rattle.pc_types.specs.Limits.{is_geometry};
ghost use Rattle.pc_types.specs.declared.refusal.Refusal.TheVariants.{BadHandle, Stranger};
ghost use Rattle.trail.specs.History.{After};
ghost use Rattle.held.specs.Called.{Goes, Once, Only};
ghost use Rattle.held.specs.Denials as under;
ghost use Rattle.shared.specs.Called.{Makes, OwnFirst, Retries, is_for_now};
ghost use Rattle.shared.specs.Changes.{IsWhole, IsWholeIn, cursor_after, event_of, over, reply_of, write_event};
ghost use Rattle.shared.specs.Denials.{IsDenied};
ghost use Rattle.shared.specs.Rooms.{IsCrammed, IsFinal, IsFinalOr, IsLost, IsShortFor, IsUnwritten, wants_room};
ghost use Rattle.shared.specs.Own.{IsCallOf, IsRoomEvent, IsStillDenied, IsTry};
ghost use Rattle.shared.specs.Settled.{FillsMissed, Settles};
ghost use Rattle.shared.specs.declared.writes.Change.TheVariants as change;

use crate::cache::SharedCache;
use crate::handle::Handle;
use crate::room::wants_room;
use blockdev::BlockDevice;
use cachecore::{Demand, TruncateAnswer, WriteAnswer};
use held::denied::{Denied, without_slip};
use held::log::{Seat, Slip};
use held::naming::Naming;
use held::state::Held;
use pc_types::HandleId;
use std::sync::{MutexGuard, Wait};
use trail::Trail;

/// How a write ended: how many bytes were written, and the offset after them.
#[derive(Clone, Copy, Debug)]
pub struct Wrote {
    pub count: u64,
    pub end: u64,
}

/// How a file is changed by a handle, beside the bytes.
#[derive(Clone, Copy)]
pub(crate) enum Change {
    // from this offset on
    Write(u64),
    Append,
    // to this size, without bytes
    Truncate(u64),
}

impl<B: Naming, D: BlockDevice, T: Trail> SharedCache<B, D, T> {
    /// Writes the bytes into the file from `offset` on, all of them, also by an appending handle. A gap before them reads as zeros. A
    /// write touches 16 pages at most.
    #[tactic(auto, using(held::proofs::Seats::only_same, crate::proofs::Settling::settles_same, crate::proofs::Making::first_same))]
    pub fn pwrite<R: Wait>(
        &self,
        rt: &R,
        seat: &mut Seat,
        handle: &Handle,
        offset: u64,
        bytes: &[u8],
    ) -> Result<(Wrote, Slip), Denied>
        requires seat { seat.old.name ≡ self.now.name → seat.old.table ≡ B.table }
        ensures foreign { seat.old.name ≢ self.now.name → (result ≡ Err (record { refusal = Stranger; slip = None })) × (seat.new ≡ seat.old) }
        ensures closed { seat.old.name ≡ self.now.name → handle.now.cache ≢ self.now.name → (result ≡ Err (record { refusal = BadHandle; slip = None })) × (seat.new ≡ seat.old) }
        ensures goes { Goes seat.old seat.new }
        ensures only { IfErr result (λ _. Only (IsTry handle.now.number (event.Write handle.now.number offset bytes.now)) seat.old seat.new) }
        ensures once { IfOk result (λ _. Once (IsTry handle.now.number (event.Write handle.now.number offset bytes.now)) seat.old seat.new) }
        ensures answer { IfOk result (λ r. Makes seat.old seat.new r.1 (event.Write handle.now.number offset bytes.now) (reply.Wrote r.0.count r.0.end)) }
        ensures denied { seat.old.name ≡ self.now.name → handle.now.cache ≡ self.now.name → IfErr result (IsDenied B.files B.sizes B.name B.whole (IsCallOf handle.now.number (event.Write handle.now.number offset bytes.now)) seat.old seat.new) }
        ensures lost { IfErr result (IsLost B.files B.sizes self.now.name seat.new) }
        ensures count { IfOk result (λ r. (r.0.count ≡ length bytes.now) × (r.0.end ≡ offset + length bytes.now)) }
        ensures stands { IfErr result (IsFinal B.files B.sizes self.now.name seat.new) }
        ensures wanting { IfErr result (IsShortFor (event.Write handle.now.number offset bytes.now) seat.old seat.new) }
        ensures settled { Settles self.now.name seat.old seat.new }
        ensures missed { FillsMissed (event.Write handle.now.number offset bytes.now) seat.old seat.new }
        ensures first { OwnFirst (event.Write handle.now.number offset bytes.now) seat.old seat.new }
    {
        if let Err(refusal) = self.admits(seat, handle) {
            return Err(without_slip(refusal));
        }
        self.change(rt, seat, handle.number, Change::Write(offset), bytes)
    }

    /// Writes at the cursor, or with an appending handle at the end of the file, all of the bytes, and puts the cursor behind them.
    #[tactic(auto, using(held::proofs::Seats::only_same, crate::proofs::Settling::settles_same, crate::proofs::Making::first_same))]
    pub fn write<R: Wait>(
        &self,
        rt: &R,
        seat: &mut Seat,
        handle: &mut Handle,
        bytes: &[u8],
    ) -> Result<(Wrote, Slip), Denied>
        requires seat { seat.old.name ≡ self.now.name → seat.old.table ≡ B.table }
        ensures foreign { seat.old.name ≢ self.now.name → (result ≡ Err (record { refusal = Stranger; slip = None })) × (seat.new ≡ seat.old) }
        ensures closed { seat.old.name ≡ self.now.name → handle.old.cache ≢ self.now.name → (result ≡ Err (record { refusal = BadHandle; slip = None })) × (seat.new ≡ seat.old) }
        ensures goes { Goes seat.old seat.new }
        ensures only { IfErr result (λ _. Only (IsTry handle.old.number (write_event handle.old bytes.now)) seat.old seat.new) }
        ensures once { IfOk result (λ _. Once (IsTry handle.old.number (write_event handle.old bytes.now)) seat.old seat.new) }
        ensures answer { IfOk result (λ r. Makes seat.old seat.new r.1 (write_event handle.old bytes.now) (reply.Wrote r.0.count r.0.end)) }
        ensures denied { seat.old.name ≡ self.now.name → handle.old.cache ≡ self.now.name → IfErr result (IsDenied B.files B.sizes B.name B.whole (IsCallOf handle.old.number (write_event handle.old bytes.now)) seat.old seat.new) }
        ensures lost { IfErr result (IsLost B.files B.sizes self.now.name seat.new) }
        ensures count { IfOk result (λ r. r.0.count ≡ length bytes.now) }
        ensures cursor { handle.new ≡ record handle.old { cursor = cursor_after handle.old.cursor result } }
        ensures stands { IfErr result (IsFinal B.files B.sizes self.now.name seat.new) }
        ensures wanting { IfErr result (IsShortFor (write_event handle.old bytes.now) seat.old seat.new) }
        ensures settled { Settles self.now.name seat.old seat.new }
        ensures missed { FillsMissed (write_event handle.old bytes.now) seat.old seat.new }
        ensures first { OwnFirst (write_event handle.old bytes.now) seat.old seat.new }
    {
        if let Err(refusal) = self.admits(seat, handle) {
            return Err(without_slip(refusal));
        }
        let change = if handle.append {
            Change::Append
        } else {
            Change::Write(handle.cursor)
        };
        match self.change(rt, seat, handle.number, change, bytes) {
            Ok((wrote, slip)) => {
                handle.cursor = wrote.end;
                Ok((wrote, slip))
            }
            Err(denied) => Err(denied),
        }
    }

    /// Makes the file as long as this, in bytes. A longer one gains zeros. The cursor stays.
    #[tactic(auto, using(held::proofs::Seats::only_same, crate::proofs::Settling::settles_same, crate::proofs::Making::first_same))]
    pub fn truncate<R: Wait>(
        &self,
        rt: &R,
        seat: &mut Seat,
        handle: &Handle,
        size: u64,
    ) -> Result<Slip, Denied>
        requires seat { seat.old.name ≡ self.now.name → seat.old.table ≡ B.table }
        ensures foreign { seat.old.name ≢ self.now.name → (result ≡ Err (record { refusal = Stranger; slip = None })) × (seat.new ≡ seat.old) }
        ensures closed { seat.old.name ≡ self.now.name → handle.now.cache ≢ self.now.name → (result ≡ Err (record { refusal = BadHandle; slip = None })) × (seat.new ≡ seat.old) }
        ensures goes { Goes seat.old seat.new }
        ensures only { IfErr result (λ _. Only (IsTry handle.now.number (event.Truncate handle.now.number size)) seat.old seat.new) }
        ensures once { IfOk result (λ _. Once (IsTry handle.now.number (event.Truncate handle.now.number size)) seat.old seat.new) }
        ensures answer { IfOk result (λ slip. Makes seat.old seat.new slip (event.Truncate handle.now.number size) reply.Done) }
        ensures denied { seat.old.name ≡ self.now.name → handle.now.cache ≡ self.now.name → IfErr result (IsDenied B.files B.sizes B.name B.whole (IsCallOf handle.now.number (event.Truncate handle.now.number size)) seat.old seat.new) }
        ensures lost { IfErr result (IsLost B.files B.sizes self.now.name seat.new) }
        ensures stands { IfErr result (IsFinal B.files B.sizes self.now.name seat.new) }
        ensures wanting { IfErr result (IsShortFor (event.Truncate handle.now.number size) seat.old seat.new) }
        ensures settled { Settles self.now.name seat.old seat.new }
        ensures missed { FillsMissed (event.Truncate handle.now.number size) seat.old seat.new }
        ensures first { OwnFirst (event.Truncate handle.now.number size) seat.old seat.new }
    {
        if let Err(refusal) = self.admits(seat, handle) {
            return Err(without_slip(refusal));
        }
        match self.change(rt, seat, handle.number, Change::Truncate(size), &[]) {
            Ok((_, slip)) => Ok(slip),
            Err(denied) => Err(denied),
        }
    }

    /// Changes the handle's file, in as many attempts as it takes.
    #[tactic(auto, using(held::proofs::Seats::goes_on, held::proofs::Seats::goes_same, crate::proofs::Making::makes_on, crate::proofs::Making::call_on, held::proofs::Seats::only_same, crate::proofs::Owning::only_try_on, crate::proofs::Owning::once_try_on))]
    fn change<R: Wait>(
        &self,
        rt: &R,
        seat: &mut Seat,
        handle: HandleId,
        change: Change,
        bytes: &[u8],
    ) -> Result<(Wrote, Slip), Denied>
        requires { seat.old.table ≡ B.table }
        ensures goes { Goes seat.old seat.new }
        ensures only { IfErr result (λ _. Only (IsTry handle (event_of change handle bytes.now)) seat.old seat.new) }
        ensures once { IfOk result (λ _. Once (IsTry handle (event_of change handle bytes.now)) seat.old seat.new) }
        ensures answer { IfOk result (λ r. Makes seat.old seat.new r.1 (event_of change handle bytes.now) (over change r.0)) }
        ensures denied { IfErr result (IsDenied B.files B.sizes B.name B.whole (IsCallOf handle (event_of change handle bytes.now)) seat.old seat.new) }
        ensures lost { IfErr result (IsLost B.files B.sizes B.name seat.new) }
        ensures whole { IfOk result (λ r. IsWhole change bytes.now r.0) }
        ensures stands { IfErr result (IsFinal B.files B.sizes B.name seat.new) }
        ensures wanting { IfErr result (IsShortFor (event_of change handle bytes.now) seat.old seat.new) }
        ensures settled { Settles B.name seat.old seat.new }
        ensures missed { FillsMissed (event_of change handle bytes.now) seat.old seat.new }
        ensures first { OwnFirst (event_of change handle bytes.now) seat.old seat.new }
    {
        'attempts: for _ in rt.forever() {
            match self.try_change(rt, seat, handle, change, bytes) {
                Ok(Some(answer)) => {
                    self.made_work(rt);
                    return Ok(answer);
                }
                Ok(None) => {}
                Err(denied) => return Err(denied),
            }
        }
        unreachable!()
    }

    /// One attempt to change the file. Where a page is missing it is filled, where there is no room it is made, and nothing is
    /// answered.
    #[tactic(auto, using(held::proofs::Seats::goes_by, held::proofs::Seats::goes_on, held::proofs::Seats::goes_same, crate::proofs::Making::goes_denied, crate::proofs::Making::makes_by, crate::proofs::Making::call_help, crate::proofs::Making::call_settled, held::proofs::Seats::once_by))]
    fn try_change<R: Wait>(
        &self,
        rt: &R,
        seat: &mut Seat,
        handle: HandleId,
        change: Change,
        bytes: &[u8],
    ) -> Result<Option<(Wrote, Slip)>, Denied>
        requires { seat.old.table ≡ B.table }
        ensures goes { Goes seat.old seat.new }
        ensures only { IfErr result (λ _. Only (IsTry handle (event_of change handle bytes.now)) seat.old seat.new) }
        ensures tried { IfOk result (λ o. IfNone o (Only (IsTry handle (event_of change handle bytes.now)) seat.old seat.new)) }
        ensures once { IfOk result (λ o. IfSome o (λ _. Once (IsTry handle (event_of change handle bytes.now)) seat.old seat.new)) }
        ensures answer { IfOk result (λ o. IfSome o (λ r. Makes seat.old seat.new r.1 (event_of change handle bytes.now) (over change r.0))) }
        ensures denied { IfErr result (IsDenied B.files B.sizes B.name B.whole (IsCallOf handle (event_of change handle bytes.now)) seat.old seat.new) }
        ensures lost { IfErr result (IsLost B.files B.sizes B.name seat.new) }
        ensures whole { IfOk result (λ o. IfSome o (λ r. IsWhole change bytes.now r.0)) }
        ensures again { IfOk result (λ o. IfNone o (Retries seat.old seat.new (event_of change handle bytes.now))) }
        ensures stands { IfErr result (IsFinal B.files B.sizes B.name seat.new) }
        ensures wanting { IfErr result (IsShortFor (event_of change handle bytes.now) seat.old seat.new) }
        ensures settled { Settles B.name seat.old seat.new }
        ensures missed { FillsMissed (event_of change handle bytes.now) seat.old seat.new }
        ensures first { OwnFirst (event_of change handle bytes.now) seat.old seat.new }
    {
        let mut guard = self.state.lock(rt);
        let (answer, slip) = match change_by(&mut guard, seat, handle, change, bytes) {
            Ok(made) => made,
            Err(denied) => {
                let demand = demand_of(&guard, handle, change, bytes);
                return match self.settle(rt, guard, seat, demand, denied) {
                    Ok(()) => Ok(None),
                    Err(denied) => Err(denied),
                };
            }
        };
        let page = match answer {
            WriteAnswer::Wrote { count, end } => return Ok(Some((Wrote { count, end }, slip))),
            WriteAnswer::Wait(_) => {
                self.wait_for_end(rt, guard);
                return Ok(None);
            }
            WriteAnswer::Miss(page) => page,
        };
        let demand = demand_of(&guard, handle, change, bytes);
        drop(guard);
        match self.fill(rt, seat, demand, page) {
            Ok(()) => Ok(None),
            Err(denied) => Err(denied),
        }
    }

    /// What a change comes to that was refused, in the hold that refused it: where it was for want of room, room is made for all that
    /// the call wants, or the end of a request waited for; else the refusal stands.
    #[tactic(auto, using(held::proofs::Seats::goes_on, held::proofs::Seats::goes_same, held::proofs::Seats::only_same, crate::proofs::Owning::only_room_on, crate::proofs::Making::room_on, crate::proofs::Rooming::stands_other, crate::proofs::Wanting::wants_anyhow))]
    fn settle<R: Wait>(
        &self,
        rt: &R,
        guard: MutexGuard<'_, Held<B, T>>,
        seat: &mut Seat,
        demand: Demand,
        denied: Denied,
    ) -> Result<(), Denied>
        requires { seat.old.table ≡ B.table }
        ensures goes { Goes seat.old seat.new }
        ensures only { Only (λ e. IsRoomEvent e.event) seat.old seat.new }
        ensures denied { IfErr result (IsStillDenied B.files B.sizes B.name B.whole denied seat.old seat.new) }
        ensures passing { IfOk result (λ _. is_for_now denied.refusal ≡ true) }
        ensures other { IfErr result (λ d. (d ≡ denied) ⊎ (wants_room denied.refusal ≡ true)) }
        ensures quiet { wants_room denied.refusal ≡ false → seat.new ≡ seat.old }
        ensures crammed { IfErr result (λ d. wants_room d.refusal ≡ true → (d ≡ denied) × IsCrammed d.refusal (mutex_guard_value guard.entry).core.state × IsUnwritten (mutex_guard_value guard.entry).core.state seat.old seat.new) }
        ensures legal { After B.files B.sizes B.name (mutex_guard_value guard.entry).log.history (mutex_guard_value guard.entry).core.state }
        ensures within { IsTrue (is_geometry B.sizes) }
        ensures stands { IfErr result (IsFinalOr denied B.files B.sizes B.name (mutex_guard_value guard.entry).core.state seat.new) }
        ensures settled { Settles B.name seat.old seat.new }
    {
        let is_roomy = !wants_room(denied.refusal);
        if let Err(other) = self.relieve(rt, guard, seat, denied) {
            return Err(other);
        }
        if is_roomy {
            return Ok(());
        }
        self.make_way(rt, seat, demand)
    }
}

/// Makes the event of a change.
#[tactic(auto, using(crate::proofs::Sizes::whole_write))]
fn change_by<B: Naming, T: Trail>(
    state: &mut Held<B, T>,
    seat: &mut Seat,
    handle: HandleId,
    change: Change,
    bytes: &[u8],
) -> Result<(WriteAnswer, Slip), Denied>
    requires { seat.old.table ≡ B.table }
    ensures made { IfOk result (λ r. Made (event_of change handle bytes.now) (reply_of change r.0) state.old state.new seat.old seat.new r.1) }
    ensures denied { IfErr result (under.IsDenied B.files B.sizes B.name B.whole (event_of change handle bytes.now) state.old state.new seat.old seat.new) }
    ensures whole { IfOk result (λ r. IsWholeIn change bytes.now r.0) }
{
    // Lends that the history is legal, and so that no file is longer than the limit.
    let _ = state.core();
    match change {
        Change::Write(offset) => state.write(seat, handle, offset, bytes),
        Change::Append => state.append(seat, handle, bytes),
        Change::Truncate(size) => match state.truncate(seat, handle, size) {
            Ok((answer, slip)) => Ok((as_write(answer, size), slip)),
            Err(denied) => Err(denied),
        },
    }
}

/// What a truncation to this size answers, as one that writes no bytes.
fn as_write(answer: TruncateAnswer, size: u64) -> WriteAnswer
    ensures { reply_of (change.Truncate size) result ≡ was_truncated (Ok answer) }
{
    match answer {
        TruncateAnswer::Done => WriteAnswer::Wrote {
            count: 0,
            end: size,
        },
        TruncateAnswer::Wait(page) => WriteAnswer::Wait(page),
        TruncateAnswer::Miss(page) => WriteAnswer::Miss(page),
    }
}

/// The bytes of the file whose pages a change needs.
fn demand_of<B: Naming, T: Trail>(
    state: &Held<B, T>,
    handle: HandleId,
    change: Change,
    bytes: &[u8],
) -> Demand
    ensures { result.handle ≡ handle }
{
    let (offset, count) = match change {
        Change::Write(offset) => (offset, bytes.len() as u64),
        Change::Append => (state.core().size(handle).unwrap_or(0), bytes.len() as u64),
        // the byte behind the new end is of the page that is cut into
        Change::Truncate(size) => (size, 1),
    };
    Demand {
        handle,
        offset,
        count,
        dirties: !matches!(change, Change::Truncate(_)),
    }
}
