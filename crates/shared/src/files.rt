//! Files and handles, and what they are told.

ghost use Rattle.std.specs.Prelude.{◌≡◌, ◌≢◌, ◌<◌, ◌≤◌, Err, IfErr, IfOk, None, Ok, Some, length};
ghost use Rattle.cachecore.specs.Replies.{opened};
ghost use Rattle.errboard.specs.Views.{told_of};
ghost use Rattle.machine.specs.declared.event.Event.TheVariants as event;
ghost use Rattle.machine.specs.declared.event.Reply.TheVariants as reply;
ghost use Rattle.pc_types.specs.declared.refusal.Refusal.TheVariants.{BadHandle, Stranger};
ghost use Rattle.held.specs.Called.{Goes, Only};
ghost use Rattle.held.specs.Denials as under;
ghost use Rattle.held.specs.Entered.{Made};
ghost use Rattle.shared.specs.Called.{Makes};
ghost use Rattle.shared.specs.Denials.{IsDenied, IsFullIfNoSlip, MadeOne};
ghost use Rattle.shared.specs.Own.{admitted};
ghost use Rattle.shared.specs.Polls.{HearsJust, IsSampled, Polled};

use crate::cache::SharedCache;
use crate::handle::{FailedWrite, Handle};
use blockdev::BlockDevice;
use errboard::Pass;
use held::denied::{Denied, without_slip};
use held::log::{Seat, Slip};
use held::naming::Naming;
use held::state::Held;
use pc_types::{ErrCode, FileId, HandleId, Refusal};
use std::sync::Wait;
use trail::Trail;

impl<B: Naming, D: BlockDevice, T: Trail> SharedCache<B, D, T> {
    /// Makes a new file.
    #[tactic(auto, using(held::proofs::Seats::goes_by, held::proofs::Seats::goes_on, held::proofs::Seats::goes_same, crate::proofs::Making::goes_denied, crate::proofs::Making::makes_by, crate::proofs::Making::denied_event, crate::proofs::Making::full_by, crate::proofs::Making::made_one, crate::proofs::Making::denied_one, crate::proofs::Making::none_made, held::proofs::Seats::only_same, crate::proofs::Owning::only_event, crate::proofs::Owning::only_event_denied))]
    pub fn create<R: Wait>(&self, rt: &R, seat: &mut Seat) -> Result<(FileId, Slip), Denied>
        requires seat { seat.old.name ≡ self.now.name → seat.old.table ≡ B.table }
        ensures foreign { seat.old.name ≢ self.now.name → (result ≡ Err (record { refusal = Stranger; slip = None })) × (seat.new ≡ seat.old) }
        ensures goes { Goes seat.old seat.new }
        ensures only { Only (λ e. e.event ≡ event.Create) seat.old seat.new }
        ensures answer { IfOk result (λ r. Makes seat.old seat.new r.1 event.Create (reply.File r.0)) }
        ensures few { IfOk result (λ r. r.0.0 < 64) }
        ensures one { IfOk result (λ r. MadeOne (Some r.1) seat.old seat.new) }
        ensures refused_once { IfErr result (λ d. MadeOne d.slip seat.old seat.new) }
        ensures denied { seat.old.name ≡ self.now.name → IfErr result (IsDenied B.files B.sizes B.name B.whole (λ e. e ≡ event.Create) seat.old seat.new) }
        ensures full { seat.old.name ≡ self.now.name → IfErr result (IsFullIfNoSlip seat.old seat.new) }
    {
        if seat.name() != self.name {
            return Err(without_slip(Refusal::Stranger));
        }
        self.state.lock(rt).create(seat)
    }

    /// Opens a file. The handle's cursor is at the beginning; with `append` its writes go to the end of the file.
    #[tactic(auto, using(held::proofs::Seats::goes_by, held::proofs::Seats::goes_on, held::proofs::Seats::goes_same, crate::proofs::Making::goes_denied, crate::proofs::Making::makes_by, crate::proofs::Making::denied_event, crate::proofs::Making::full_by, crate::proofs::Making::made_one, crate::proofs::Making::denied_one, crate::proofs::Making::none_made, held::proofs::Seats::only_same, crate::proofs::Owning::only_event, crate::proofs::Owning::only_event_denied, crate::proofs::Hearing::just_named))]
    pub fn open<R: Wait>(
        &self,
        rt: &R,
        seat: &mut Seat,
        file: FileId,
        append: bool,
    ) -> Result<(Handle, Slip), Denied>
        requires seat { seat.old.name ≡ self.now.name → seat.old.table ≡ B.table }
        ensures foreign { seat.old.name ≢ self.now.name → (result ≡ Err (record { refusal = Stranger; slip = None })) × (seat.new ≡ seat.old) }
        ensures goes { Goes seat.old seat.new }
        ensures only { Only (λ e. e.event ≡ event.Open file) seat.old seat.new }
        ensures answer { IfOk result (λ r. Makes seat.old seat.new r.1 (event.Open file) (reply.Handle r.0.number)) }
        ensures one { IfOk result (λ r. MadeOne (Some r.1) seat.old seat.new) }
        ensures refused_once { IfErr result (λ d. MadeOne d.slip seat.old seat.new) }
        ensures handle { IfOk result (λ r. (r.0.cache ≡ self.now.name) × (r.0.file ≡ file) × (r.0.pass.board ≡ B.board)) }
        ensures begins { IfOk result (λ r. (r.0.cursor ≡ 0) × (r.0.append ≡ append)) }
        ensures hears { IfOk result (λ r. HearsJust B.files B.sizes self.now.name r.1 seat.new r.0.pass) }
        ensures sampled { IfOk result (λ r. IsSampled r.0.pass) }
        ensures denied { seat.old.name ≡ self.now.name → IfErr result (IsDenied B.files B.sizes B.name B.whole (λ e. e ≡ event.Open file) seat.old seat.new) }
        ensures full { seat.old.name ≡ self.now.name → IfErr result (IsFullIfNoSlip seat.old seat.new) }
    {
        if seat.name() != self.name {
            return Err(without_slip(Refusal::Stranger));
        }
        let (number, pass, slip) = match open_heard(&mut self.state.lock(rt), seat, file) {
            Ok(opened) => opened,
            Err(denied) => return Err(denied),
        };
        let handle = Handle {
            cache: self.name,
            file,
            number,
            cursor: 0,
            append,
            pass,
        };
        Ok((handle, slip))
    }

    /// Closes a handle. It comes back where that is refused, as by `Busy` while a sync by it is in progress.
    #[tactic(auto, using(held::proofs::Seats::goes_by, held::proofs::Seats::goes_on, held::proofs::Seats::goes_same, crate::proofs::Making::goes_denied, crate::proofs::Making::makes_by, crate::proofs::Making::denied_event, crate::proofs::Making::full_by, crate::proofs::Making::made_one, crate::proofs::Making::denied_one, crate::proofs::Making::none_made, held::proofs::Seats::only_same, crate::proofs::Owning::only_event, crate::proofs::Owning::only_event_denied))]
    pub fn close_handle<R: Wait>(
        &self,
        rt: &R,
        seat: &mut Seat,
        handle: Handle,
    ) -> Result<Slip, (Denied, Handle)>
        requires seat { seat.old.name ≡ self.now.name → seat.old.table ≡ B.table }
        requires came { handle.cache ≡ self.now.name → handle.pass.board ≡ B.board }
        ensures foreign { seat.old.name ≢ self.now.name → (result ≡ Err (record { refusal = Stranger; slip = None }, handle)) × (seat.new ≡ seat.old) }
        ensures closed { seat.old.name ≡ self.now.name → handle.cache ≢ self.now.name → (result ≡ Err (record { refusal = BadHandle; slip = None }, handle)) × (seat.new ≡ seat.old) }
        ensures goes { Goes seat.old seat.new }
        ensures only { Only (λ e. e.event ≡ event.Close handle.number) seat.old seat.new }
        ensures answer { IfOk result (λ slip. Makes seat.old seat.new slip (event.Close handle.number) reply.Closed) }
        ensures one { IfOk result (λ slip. MadeOne (Some slip) seat.old seat.new) }
        ensures refused_once { IfErr result (λ d. MadeOne d.0.slip seat.old seat.new) }
        ensures denied { seat.old.name ≡ self.now.name → handle.cache ≡ self.now.name → IfErr result (λ d. IsDenied B.files B.sizes B.name B.whole (λ e. e ≡ event.Close handle.number) seat.old seat.new d.0) }
        ensures full { seat.old.name ≡ self.now.name → handle.cache ≡ self.now.name → IfErr result (λ d. IsFullIfNoSlip seat.old seat.new d.0) }
        ensures back { IfErr result (λ d. d.1 ≡ handle) }
    {
        if let Err(refusal) = self.admits(seat, &handle) {
            return Err((without_slip(refusal), handle));
        }
        let mut guard = self.state.lock(rt);
        match guard.close_handle(seat, handle.number) {
            Ok(slip) => {
                guard.retire(handle.pass);
                Ok(slip)
            }
            Err(denied) => Err((denied, handle)),
        }
    }

    /// The size of the handle's file, in bytes.
    #[tactic(auto, using(held::proofs::Seats::goes_by, held::proofs::Seats::goes_on, held::proofs::Seats::goes_same, crate::proofs::Making::goes_denied, crate::proofs::Making::makes_by, crate::proofs::Making::denied_event, crate::proofs::Making::full_by, crate::proofs::Making::made_one, crate::proofs::Making::denied_one, crate::proofs::Making::none_made, held::proofs::Seats::only_same, crate::proofs::Owning::only_event, crate::proofs::Owning::only_event_denied))]
    pub fn size<R: Wait>(
        &self,
        rt: &R,
        seat: &mut Seat,
        handle: &Handle,
    ) -> Result<(u64, Slip), Denied>
        requires seat { seat.old.name ≡ self.now.name → seat.old.table ≡ B.table }
        ensures foreign { seat.old.name ≢ self.now.name → (result ≡ Err (record { refusal = Stranger; slip = None })) × (seat.new ≡ seat.old) }
        ensures closed { seat.old.name ≡ self.now.name → handle.now.cache ≢ self.now.name → (result ≡ Err (record { refusal = BadHandle; slip = None })) × (seat.new ≡ seat.old) }
        ensures goes { Goes seat.old seat.new }
        ensures only { Only (λ e. e.event ≡ event.Size handle.now.number) seat.old seat.new }
        ensures answer { IfOk result (λ r. Makes seat.old seat.new r.1 (event.Size handle.now.number) (reply.Size r.0)) }
        ensures one { IfOk result (λ r. MadeOne (Some r.1) seat.old seat.new) }
        ensures refused_once { IfErr result (λ d. MadeOne d.slip seat.old seat.new) }
        ensures denied { seat.old.name ≡ self.now.name → handle.now.cache ≡ self.now.name → IfErr result (IsDenied B.files B.sizes B.name B.whole (λ e. e ≡ event.Size handle.now.number) seat.old seat.new) }
        ensures full { seat.old.name ≡ self.now.name → handle.now.cache ≡ self.now.name → IfErr result (IsFullIfNoSlip seat.old seat.new) }
    {
        if let Err(refusal) = self.admits(seat, handle) {
            return Err(without_slip(refusal));
        }
        self.state.lock(rt).size(seat, handle.number)
    }

    /// The code of the last failed write that the handle was not told of. It takes no lock and never waits.
    pub fn poll_error(&self, handle: &mut Handle) -> Result<Option<ErrCode>, Refusal>
        requires came { handle.old.cache ≡ self.now.name → handle.old.pass.board ≡ B.board }
        ensures foreign { handle.old.cache ≢ self.now.name → (result ≡ Err BadHandle) × (handle.new ≡ handle.old) }
        ensures answers { handle.old.cache ≡ self.now.name → IfErr result (λ _. ⊥) }
        ensures same { handle.new ≡ record handle.old { pass = handle.new.pass } }
        ensures polled { IfOk result (Polled handle.old.pass handle.new.pass) }
    {
        if handle.cache != self.name {
            return Err(Refusal::BadHandle);
        }
        Ok(self.poll(&mut handle.pass))
    }

    /// What the error board answers a pass.
    pub(crate) fn poll(&self, pass: &mut Pass) -> Option<ErrCode>
        requires { pass.old.board ≡ B.board }
        ensures { Polled pass.old pass.new result }
    {
        self.board.poll(pass)
    }

    /// Tells a handle of a failed write, without its code: the next `poll_error` answers that. One of another file or of another
    /// cache tells nothing. It takes no lock and never waits.
    pub fn tell_error(&self, handle: &mut Handle, failed: &mut FailedWrite) -> Result<(), Refusal>
        requires came { handle.old.cache ≡ self.now.name → handle.old.pass.board ≡ B.board }
        requires failed { failed.old.cache ≡ self.now.name → failed.old.receipt.board ≡ B.board }
        ensures foreign { handle.old.cache ≢ self.now.name → (result ≡ Err BadHandle) × (handle.new ≡ handle.old) }
        ensures answers { handle.old.cache ≡ self.now.name → result ≡ Ok tt }
        ensures other { failed.old.cache ≢ self.now.name → handle.new ≡ handle.old }
        ensures told { handle.old.cache ≡ self.now.name → failed.old.cache ≡ self.now.name → handle.new ≡ record handle.old { pass = record handle.old.pass { known = told_of handle.old.file.0 handle.old.pass.known failed.old.receipt.file failed.old.receipt.recorded } } }
        ensures knows { handle.old.cache ≡ self.now.name → failed.old.cache ≡ self.now.name → failed.old.receipt.file ≡ handle.old.file.0 → length failed.old.receipt.recorded ≤ length handle.new.pass.known }
        ensures failed { failed.new ≡ failed.old }
    {
        if handle.cache != self.name {
            return Err(Refusal::BadHandle);
        }
        if failed.cache == self.name {
            self.board.tell(&mut handle.pass, &mut failed.receipt);
        }
        Ok(())
    }

    /// Whether seat and handle are of this cache.
    pub(crate) fn admits(&self, seat: &Seat, handle: &Handle) -> Result<(), Refusal>
        ensures { result ≡ admitted self.now.name seat.now.name handle.now.cache }
    {
        if seat.name() != self.name {
            return Err(Refusal::Stranger);
        }
        if handle.cache != self.name {
            return Err(Refusal::BadHandle);
        }
        Ok(())
    }
}

/// Opens a file, with a pass that knows its failed writes up to the slip's entry, and no other.
fn open_heard<B: Naming, T: Trail>(
    state: &mut Held<B, T>,
    seat: &mut Seat,
    file: FileId,
) -> Result<(HandleId, Pass, Slip), Denied>
    requires { seat.old.table ≡ B.table }
    ensures made { IfOk result (λ r. Made (event.Open file) (opened (Ok r.0)) state.old state.new seat.old seat.new r.2) }
    ensures pass { IfOk result (λ r. (r.1.board ≡ B.board) × (r.1.file ≡ file.0)) }
    ensures hears { IfOk result (λ r. HearsJust B.files B.sizes B.name r.2 seat.new r.1) }
    ensures sampled { IfOk result (λ r. IsSampled r.1) }
    ensures denied { IfErr result (under.IsDenied B.files B.sizes B.name B.whole (event.Open file) state.old state.new seat.old seat.new) }
{
    let (number, mut pass, slip) = match state.open(seat, file) {
        Ok(opened) => opened,
        Err(denied) => return Err(denied),
    };
    // It knows them already. Lends that it does, and that the history is legal.
    state.level(&mut pass);
    Ok((number, pass, slip))
}
