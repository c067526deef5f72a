//! Syncs.

ghost use Rattle.std.specs.Prelude.{◌≡◌, IfErr, IfOk, IsOk, None, Ok, length};
ghost use Rattle.blockdev.specs.Jobs.{IsJobFor};
ghost use Rattle.cachecore.specs.Replies.{IsSyncJob, OnSyncJob, SyncGivesBack, sync_begun, sync_stepped};
ghost use Rattle.machine.specs.Tests.{tests};
ghost use Rattle.machine.specs.declared.event.Event.TheVariants as event;
ghost use Rattle.machine.specs.declared.event.Reply.TheVariants as reply;
ghost use Rattle.held.specs.Denials.{IsDenied};
ghost use Rattle.held.specs.Entered.{Made};
ghost use Rattle.held.specs.Started.{as_sync};

use crate::denied::{Denied, by, lacks_entry, told};
use crate::log::{Seat, Slip};
use crate::naming::Naming;
use crate::started::{SyncMoved, sync_moved};
use crate::state::Held;
use blockdev::Buffer;
use cachecore::Event;
use cachecore::replies::{of_sync_begin, of_sync_drop, of_sync_step};
use pc_types::{HandleId, PageIndex, SyncId};
use trail::Trail;

impl<B: Naming, T: Trail> Held<B, T> {
    /// Begins a sync of the pages of the handle's file from `first` to `last`.
    pub fn sync_begin(
        &mut self,
        seat: &mut Seat,
        handle: HandleId,
        first: PageIndex,
        last: PageIndex,
    ) -> Result<(SyncId, Slip), Denied>
        requires { seat.old.table ≡ B.table }
        ensures made { IfOk result (λ r. Made (event.SyncBegin handle first last) (sync_begun (Ok r.0)) self.old self.new seat.old seat.new r.1) }
        ensures denied { IfErr result (IsDenied B.files B.sizes B.name B.whole (event.SyncBegin handle first last) self.old self.new seat.old seat.new) }
    {
        let Held { core, log, .. } = self;
        if !log.has_room(core, 2, 0) {
            return Err(log.full(seat));
        }
        let answer = core.sync_begin_range(handle, first, last);
        let event = Event::SyncBegin(handle, first, last);
        let slip = log.enter(seat, event, of_sync_begin(&answer), &[]);
        told(answer, slip)
    }

    /// Makes a step of the sync. Where that is refused the buffer comes back with the refusal, for another try.
    pub fn sync_step(
        &mut self,
        seat: &mut Seat,
        sync: SyncId,
        buffer: Buffer,
    ) -> Result<(SyncMoved<B>, Slip), (Denied, Buffer)>
        requires seat { seat.old.table ≡ B.table }
        requires size { length buffer ≡ B.sizes.page }
        ensures made { IfOk result (λ r. Made (event.SyncStep sync) (sync_stepped (Ok (as_sync r.0))) self.old self.new seat.old seat.new r.1) }
        ensures job { IfOk result (λ r. IsSyncJob self.new.core.state (Ok (as_sync r.0))) }
        ensures fits { IfOk result (λ r. OnSyncJob (Ok (as_sync r.0)) (IsJobFor B.name B.sizes.blocks B.sizes.page)) }
        ensures back { IfOk result (λ r. SyncGivesBack buffer (Ok (as_sync r.0))) }
        ensures kept { IfErr result (λ e. e.1 ≡ buffer) }
        ensures denied { IfErr result (λ e. IsDenied B.files B.sizes B.name B.whole (event.SyncStep sync) self.old self.new seat.old seat.new e.0) }
    {
        let Held {
            core,
            log,
            desk,
            ..
        } = self;
        if !log.has_room(core, 2, 0) {
            return Err((log.full(seat), buffer));
        }
        let answer = core.sync_step(sync, buffer);
        let slip = log.enter(seat, Event::SyncStep(sync), of_sync_step(&answer), &[]);
        match sync_moved(desk, answer) {
            Ok(stepped) => Ok((stepped, slip)),
            Err(refused) => Err((by(refused.refusal, slip), refused.buffer)),
        }
    }

    /// Gives the sync up. The drop of a sync in progress is always made.
    pub fn sync_drop(&mut self, seat: &mut Seat, sync: SyncId) -> Result<Slip, Denied>
        requires { seat.old.table ≡ B.table }
        ensures made { IfOk result (λ slip. Made (event.SyncDrop sync) reply.Dropped self.old self.new seat.old seat.new slip) }
        ensures in_progress { tests self.old.core.state (event.SyncDrop sync) ≡ None → IsOk result }
        ensures denied { IfErr result (IsDenied B.files B.sizes B.name B.whole (event.SyncDrop sync) self.old self.new seat.old seat.new) }
    {
        let Held { core, log, .. } = self;
        let is_room = log.has_room(core, 1, 0);
        let answer = core.sync_drop(sync);
        if lacks_entry(answer.is_err(), is_room) {
            return Err(log.full(seat));
        }
        let slip = log.enter(seat, Event::SyncDrop(sync), of_sync_drop(&answer), &[]);
        let ((), slip) = told(answer, slip)?;
        Ok(slip)
    }
}
