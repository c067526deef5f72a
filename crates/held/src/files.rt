//! Files and handles, and which pages go.

ghost use Rattle.std.specs.Prelude.{◌≡◌, ◌+◌, ℕ, IfErr, IfOk, Ok, find, length, option_map};
ghost use Rattle.cachecore.specs.Replies.{closed, created, evicted, opened, sized, was_truncated};
ghost use Rattle.errboard.specs.Views.{recorded_of};
ghost use Rattle.errseq.specs.Samples.{StandsFor, done_at};
ghost use Rattle.errseq.specs.Word.{sample_of};
ghost use Rattle.machine.specs.ListChanges.{is_idle_in, numbers};
ghost use Rattle.machine.specs.PageLists.{active_target, place, scan_order};
ghost use Rattle.machine.specs.declared.event.Event.TheVariants as event;
ghost use Rattle.machine.specs.declared.event.Reply.TheVariants as reply;
ghost use Rattle.held.specs.Denials.{IsDenied};
ghost use Rattle.held.specs.Entered.{Made};

use crate::denied::{Denied, told};
use crate::log::{Seat, Slip};
use crate::naming::Naming;
use crate::state::Held;
use cachecore::replies::{of_close, of_create, of_evict, of_open, of_size, of_truncate};
use cachecore::{Event, Reply, TruncateAnswer};
use errboard::Pass;
use pc_types::{FileId, HandleId, PageIndex};
use trail::Trail;

impl<B: Naming, T: Trail> Held<B, T> {
    /// Makes a new file.
    pub fn create(&mut self, seat: &mut Seat) -> Result<(FileId, Slip), Denied>
        requires { seat.old.table ≡ B.table }
        ensures made { IfOk result (λ r. Made event.Create (created (Ok r.0)) self.old self.new seat.old seat.new r.1) }
        ensures denied { IfErr result (IsDenied B.files B.sizes B.name B.whole event.Create self.old self.new seat.old seat.new) }
    {
        let Held { core, log, .. } = self;
        if !log.has_room(core, 1, 0) {
            return Err(log.full(seat));
        }
        let answer = core.create();
        let slip = log.enter(seat, Event::Create, of_create(&answer), &[]);
        told(answer, slip)
    }

    /// Opens a file, with a pass of its failed writes.
    pub fn open(&mut self, seat: &mut Seat, file: FileId) -> Result<(HandleId, Pass, Slip), Denied>
        requires { seat.old.table ≡ B.table }
        ensures made { IfOk result (λ r. Made (event.Open file) (opened (Ok r.0)) self.old self.new seat.old seat.new r.2) }
        ensures pass { IfOk result (λ r. (r.1.board ≡ B.board) × (r.1.file ≡ file.0) × (r.1.known ≡ recorded_of self.old.errors.all file.0)) }
        ensures sampled { IfOk result (λ r. (loaded : ℕ) × StandsFor r.1.start loaded r.1.known × (r.1.since ≡ sample_of loaded) × (r.1.done ≡ done_at r.1.known loaded)) }
        ensures denied { IfErr result (IsDenied B.files B.sizes B.name B.whole (event.Open file) self.old self.new seat.old seat.new) }
    {
        // Lends that the history is legal. So a file that can be opened has a number below 64, and a pass.
        let _ = self.core();
        let (handle, slip) = self.open_bare(seat, file)?;
        let Ok(pass) = self.pass(file) else {
            unreachable!()
        };
        Ok((handle, pass, slip))
    }

    /// Opens a file, without a pass.
    fn open_bare(&mut self, seat: &mut Seat, file: FileId) -> Result<(HandleId, Slip), Denied>
        requires { seat.old.table ≡ B.table }
        ensures made { IfOk result (λ r. Made (event.Open file) (opened (Ok r.0)) self.old self.new seat.old seat.new r.1) }
        ensures denied { IfErr result (IsDenied B.files B.sizes B.name B.whole (event.Open file) self.old self.new seat.old seat.new) }
    {
        let Held { core, log, .. } = self;
        if !log.has_room(core, 1, 0) {
            return Err(log.full(seat));
        }
        let answer = core.open(file);
        let slip = log.enter(seat, Event::Open(file), of_open(&answer), &[]);
        told(answer, slip)
    }

    /// Closes a handle.
    pub fn close_handle(&mut self, seat: &mut Seat, handle: HandleId) -> Result<Slip, Denied>
        requires { seat.old.table ≡ B.table }
        ensures made { IfOk result (λ slip. Made (event.Close handle) reply.Closed self.old self.new seat.old seat.new slip) }
        ensures denied { IfErr result (IsDenied B.files B.sizes B.name B.whole (event.Close handle) self.old self.new seat.old seat.new) }
    {
        let Held { core, log, .. } = self;
        if !log.has_room(core, 1, 0) {
            return Err(log.full(seat));
        }
        let answer = core.close(handle);
        let slip = log.enter(seat, Event::Close(handle), of_close(&answer), &[]);
        let ((), slip) = told(answer, slip)?;
        Ok(slip)
    }

    /// The size of the handle's file, in bytes.
    pub fn size(&mut self, seat: &mut Seat, handle: HandleId) -> Result<(u64, Slip), Denied>
        requires { seat.old.table ≡ B.table }
        ensures made { IfOk result (λ r. Made (event.Size handle) (sized (Ok r.0)) self.old self.new seat.old seat.new r.1) }
        ensures denied { IfErr result (IsDenied B.files B.sizes B.name B.whole (event.Size handle) self.old self.new seat.old seat.new) }
    {
        let Held { core, log, .. } = self;
        if !log.has_room(core, 1, 0) {
            return Err(log.full(seat));
        }
        let answer = core.size(handle);
        let slip = log.enter(seat, Event::Size(handle), of_size(&answer), &[]);
        told(answer, slip)
    }

    /// Gives the handle's file a size, in bytes.
    pub fn truncate(
        &mut self,
        seat: &mut Seat,
        handle: HandleId,
        size: u64,
    ) -> Result<(TruncateAnswer, Slip), Denied>
        requires { seat.old.table ≡ B.table }
        ensures made { IfOk result (λ r. Made (event.Truncate handle size) (was_truncated (Ok r.0)) self.old self.new seat.old seat.new r.1) }
        ensures denied { IfErr result (IsDenied B.files B.sizes B.name B.whole (event.Truncate handle size) self.old self.new seat.old seat.new) }
    {
        let Held { core, log, .. } = self;
        if !log.has_room(core, 1, 0) {
            return Err(log.full(seat));
        }
        let answer = core.truncate(handle, size);
        let slip = log.enter(
            seat,
            Event::Truncate(handle, size),
            of_truncate(&answer),
            &[],
        );
        told(answer, slip)
    }

    /// Lets the first idle page of the scan order go, where there is one.
    pub fn evict(&mut self, seat: &mut Seat) -> Result<(Option<(FileId, PageIndex)>, Slip), Denied>
        requires { seat.old.table ≡ B.table }
        ensures made { IfOk result (λ r. Made event.Evict (evicted r.0) self.old self.new seat.old seat.new r.1) }
        ensures first { IfOk result (λ r. option_map numbers r.0 ≡ option_map place (find (is_idle_in self.old.core.state) (scan_order self.old.core.lists))) }
        ensures denied { IfErr result (IsDenied B.files B.sizes B.name B.whole event.Evict self.old self.new seat.old seat.new) }
    {
        let Held { core, log, .. } = self;
        if !log.has_room(core, 1, 0) {
            return Err(log.full(seat));
        }
        let answer = core.evict();
        let slip = log.enter(seat, Event::Evict, of_evict(&answer), &[]);
        Ok((answer, slip))
    }

    /// Lets pages of the active list age, and answers how many: until it is no longer than the other.
    pub fn age(&mut self, seat: &mut Seat) -> Result<(u64, Slip), Denied>
        requires { seat.old.table ≡ B.table }
        ensures made { IfOk result (λ r. Made event.Age (reply.Aged r.0) self.old self.new seat.old seat.new r.1) }
        ensures until { IfOk result (λ r. r.0 + active_target self.old.core.lists ≡ length self.old.core.lists.active) }
        ensures denied { IfErr result (IsDenied B.files B.sizes B.name B.whole event.Age self.old self.new seat.old seat.new) }
    {
        let Held { core, log, .. } = self;
        if !log.has_room(core, 1, 0) {
            return Err(log.full(seat));
        }
        let count = core.age();
        let slip = log.enter(seat, Event::Age, Reply::Aged(count), &[]);
        Ok((count, slip))
    }
}
