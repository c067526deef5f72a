//! Fsync, of a file or of a range of its pages.

ghost use Rattle.std.specs.Prelude.{◌≡◌, ◌≢◌, ◌<◌, ◌≤◌, ◌+◌, ◌==◌, ℕ, Some, ◌⊎◌, IfErr, IfOk, OnOk, Ok, Err, None, is_some, true, false};
ghost use Rattle.std.specs.FinMap as map;
ghost use Rattle.pc_types.specs.declared.limits.TheConstants.{LAST_PAGE};
ghost use Rattle.pc_types.specs.declared.refusal.Refusal.TheVariants.{BadHandle, BadRange};
ghost use Rattle.machine.specs.State.{dirty_in, file_at, is_open};
ghost use Rattle.runs.specs.Syncing.{dirty_between};
ghost use Rattle.filesvc.specs.Made.{Moves, Syncs, is_for_sync};
ghost use Rattle.filesvc.specs.Rests.{IsService, IsServing};
ghost use Rattle.filesvc.specs.Saving.{Ends, IsSaveRefusal, IsUnflushed, SaveEnds, Saves};
ghost use Rattle.filesvc.specs.Service.{AreOnDevice, CameFrom, IsAsBefore, IsOnDevice, IsSyncRefusal, IsTallied, IsTold, IsUntried, Names, Reports, Serves, ServesBut, Tells, is_reported};
ghost use Rattle.filesvc.specs.Syncs.{Drops, SyncTurn, clean_or, service_of, sync_end_of};

use crate::handle::Handle;
use crate::requests::note;
use crate::solo::Solo;
use blockdev::BlockDevice;
use cachecore::{AtOnce, Reply};
use errboard::Recorder;
use pc_types::limits::LAST_PAGE;
use pc_types::{ErrCode, HandleId, PageIndex, Refusal, SyncId};
use world::World;

impl<D: BlockDevice> Solo<D> {
    /// Writes the file's dirty pages to the device, and has the device make them durable: it is flushed where anything was written to it
    /// since it was last flushed well. Refused by `Io` where a write of the file failed, during the call or since the handle was last
    /// told: with the code of the last such failure, and the handle is told of all then. Refused by `Io` also where the flush fails:
    /// with its code, and then the handle is told nothing, and the next fsync flushes again.
    pub fn fsync(&mut self, handle: &mut Handle) -> Result<(), Refusal>
        requires came { CameFrom self.old handle.old }
        ensures foreign { handle.old.cache ≢ self.old.world.core.name → (result ≡ Err BadHandle) × IsUntried self.old self.new × (handle.new ≡ handle.old) }
        ensures serves { ServesBut (λ f. f == handle.old.file) self.old self.new }
        ensures attempts { Names self.old handle.old → self.new.attempts ≡ 1 }
        ensures ends { Ends (record { 0 = 0 }) (record { 0 = LAST_PAGE }) self.old handle.old result self.new handle.new }
        ensures clean { OnOk result (Saves (record { 0 = handle.old.number }) (record { 0 = 0 }) (record { 0 = LAST_PAGE }) self.old.world (Ok tt) self.new.world) }
        ensures cost { Names self.old handle.old → self.new.world.device.calls ≤ self.old.world.device.calls + dirty_in (file_at self.old.world.core handle.old.file) }
        ensures no_sync { self.new.world.core.syncs ≡ map.empty }
        ensures synced { Tells self.old → OnOk result (IsOnDevice self.new handle.old.file) }
        ensures durable { OnOk result (self.new.world.device.durable ≡ self.new.world.device.contents) }
        ensures reports { Reports self.old handle.old result self.new ⊎ IsUnflushed (record { 0 = 0 }) (record { 0 = LAST_PAGE }) self.old handle.old result self.new handle.new }
        ensures told { IsTold self.new handle.old handle.new ⊎ (handle.new ≡ handle.old) }
        ensures kept { is_reported result ≡ false → handle.new ≡ handle.old }
        ensures refused { Names self.old handle.old → is_reported result ≡ false → IfErr result (λ r. IsSyncRefusal r self.new) }
    {
        // Opens `self`: its invariant says how small a page is, and so that no file has a page past `LAST_PAGE`.
        let _ = &self.world;
        self.fsync_range(handle, PageIndex(0), PageIndex(LAST_PAGE))
    }

    /// Writes those of the file's pages from `first` to `last` to the device that are dirty, and has the device make them durable.
    /// Refused by `BadRange` where `first` is past `last`, and by `Io` as `fsync` is: also where the write that failed was of a page
    /// outside the range.
    pub fn fsync_range(
        &mut self,
        handle: &mut Handle,
        first: PageIndex,
        last: PageIndex,
    ) -> Result<(), Refusal>
        requires came { CameFrom self.old handle.old }
        ensures foreign { handle.old.cache ≢ self.old.world.core.name → (result ≡ Err BadHandle) × IsUntried self.old self.new × (handle.new ≡ handle.old) }
        ensures turned { Names self.old handle.old → last.0 < first.0 → (result ≡ Err BadRange) × IsAsBefore self.old self.new × (handle.new ≡ handle.old) }
        ensures serves { ServesBut (λ f. f == handle.old.file) self.old self.new }
        ensures attempts { Names self.old handle.old → self.new.attempts ≡ 1 }
        ensures ends { Ends first last self.old handle.old result self.new handle.new }
        ensures clean { OnOk result (Saves (record { 0 = handle.old.number }) first last self.old.world (Ok tt) self.new.world) }
        ensures cost { Names self.old handle.old → self.new.world.device.calls ≤ self.old.world.device.calls + dirty_between (file_at self.old.world.core handle.old.file) first.0 last.0 }
        ensures no_sync { self.new.world.core.syncs ≡ map.empty }
        ensures synced { Tells self.old → OnOk result (AreOnDevice self.new handle.old.file first last) }
        ensures durable { OnOk result (self.new.world.device.durable ≡ self.new.world.device.contents) }
        ensures reports { Reports self.old handle.old result self.new ⊎ IsUnflushed first last self.old handle.old result self.new handle.new }
        ensures told { IsTold self.new handle.old handle.new ⊎ (handle.new ≡ handle.old) }
        ensures kept { is_reported result ≡ false → handle.new ≡ handle.old }
        ensures refused { Names self.old handle.old → first.0 ≤ last.0 → is_reported result ≡ false → IfErr result (λ r. IsSyncRefusal r self.new) }
    {
        self.attempts = 0;
        if handle.cache != self.name {
            return Err(Refusal::BadHandle);
        }
        self.attempts = 1;
        let failed = save(
            &mut self.world,
            &mut self.recorder,
            handle.number,
            first,
            last,
        )?;
        match self.recorder.poll(&mut handle.pass).or(failed) {
            Some(code) => Err(Refusal::Io(code)),
            None => Ok(()),
        }
    }
}

/// Syncs these pages of the handle's file, and then flushes the device where anything was written to it since it was last flushed well.
/// Answers the code of the last write of the file that failed, where one did meanwhile, and flushes nothing then. Refused by `Io` where
/// the flush fails.
fn save<D: BlockDevice>(
    world: &mut World<D>,
    recorder: &mut Recorder,
    handle: HandleId,
    first: PageIndex,
    last: PageIndex,
) -> Result<Option<ErrCode>, Refusal>
    requires opened { is_open world.old.core handle.0 ≡ true }
    requires service { IsService world.old.core.name world.old recorder.old.board recorder.old }
    ensures service { IsService world.new.core.name world.new recorder.new.board recorder.new }
    ensures serves { Serves (service_of world.old recorder.old) (service_of world.new recorder.new) }
    ensures turned { last.0 < first.0 → (result ≡ Err BadRange) × (world.new ≡ world.old) × (recorder.new ≡ recorder.old) }
    ensures ends { SaveEnds handle first last world.old result world.new }
    ensures cost { (f : ℕ) → map.get world.old.core.handles handle.0 ≡ Some f → world.new.device.calls ≤ world.old.device.calls + dirty_between (file_at world.old.core f) first.0 last.0 }
    ensures durable { result ≡ Ok None → world.new.device.durable ≡ world.new.device.contents }
    ensures tallied { (f : ℕ) → map.get world.old.core.handles handle.0 ≡ Some f → IfOk result (IsTallied (service_of world.old recorder.old) f (service_of world.new recorder.new)) }
    ensures synced { is_some world.old.device.contents ≡ true → (f : ℕ) → map.get world.old.core.handles handle.0 ≡ Some f → result ≡ Ok None → AreOnDevice (service_of world.new recorder.new) f first last }
    ensures refused { first.0 ≤ last.0 → IfErr result (λ r. IsSaveRefusal r (service_of world.new recorder.new)) }
{
    let failed = sync_file(world, recorder, handle, first, last)?;
    if failed.is_some() {
        return Ok(failed);
    }
    match world.flush_written() {
        Ok(()) => Ok(None),
        Err(code) => Err(Refusal::Io(code)),
    }
}

/// Syncs these pages of the handle's file, and answers the code of the last write of the file that failed, where one did meanwhile. No sync
/// is left.
fn sync_file<D: BlockDevice>(
    world: &mut World<D>,
    recorder: &mut Recorder,
    handle: HandleId,
    first: PageIndex,
    last: PageIndex,
) -> Result<Option<ErrCode>, Refusal>
    requires opened { is_open world.old.core handle.0 ≡ true }
    requires service { IsService world.old.core.name world.old recorder.old.board recorder.old }
    ensures service { IsService world.new.core.name world.new recorder.new.board recorder.new }
    ensures serves { Serves (service_of world.old recorder.old) (service_of world.new recorder.new) }
    ensures turned { last.0 < first.0 → (result ≡ Err BadRange) × (world.new ≡ world.old) × (recorder.new ≡ recorder.old) }
    ensures made { Moves is_for_sync world.old world.new }
    ensures ends { IfOk result (λ failed. Syncs handle first last world.old (clean_or failed) world.new) }
    ensures cost { (f : ℕ) → map.get world.old.core.handles handle.0 ≡ Some f → world.new.device.calls ≤ world.old.device.calls + dirty_between (file_at world.old.core f) first.0 last.0 }
    ensures tallied { (f : ℕ) → map.get world.old.core.handles handle.0 ≡ Some f → IfOk result (IsTallied (service_of world.old recorder.old) f (service_of world.new recorder.new)) }
    ensures synced { is_some world.old.device.contents ≡ true → (f : ℕ) → map.get world.old.core.handles handle.0 ≡ Some f → result ≡ Ok None → AreOnDevice (service_of world.new recorder.new) f first last }
    ensures refused { first.0 ≤ last.0 → IfErr result (λ r. IsSyncRefusal r (service_of world.new recorder.new)) }
{
    let sync = world.sync_begin_range(handle, first, last)?;
    'steps: loop {
        if let Some(reply) = sync_step(world, recorder, sync) {
            return sync_end(world, sync, &reply);
        }
    }
}

/// Makes a step of the sync. Where that writes a page nothing is answered.
fn sync_step<D: BlockDevice>(
    world: &mut World<D>,
    recorder: &mut Recorder,
    sync: SyncId,
) -> Option<Reply>
    requires { IsServing world.old.core.name world.old recorder.old.board recorder.old }
    ensures serving { IsServing world.new.core.name world.new recorder.new.board recorder.new }
    ensures serves { Serves (service_of world.old recorder.old) (service_of world.new recorder.new) }
    ensures turn { SyncTurn world.old sync result world.new }
{
    match world.sync_at_once(sync) {
        AtOnce::Answered(reply) => Some(reply),
        AtOnce::Ended(file, reply) => {
            note(recorder, file, &reply);
            None
        }
    }
}

/// How the sync ended by its last reply. One that can't go on is given up: no write is in flight that it could wait for.
fn sync_end<D: BlockDevice>(
    world: &mut World<D>,
    sync: SyncId,
    reply: &Reply,
) -> Result<Option<ErrCode>, Refusal>
    ensures end { result ≡ sync_end_of reply.now }
    ensures same { IfOk result (λ _. world.new ≡ world.old) }
    ensures dropped { IfErr result (λ _. Drops world.old sync world.new) }
{
    let end = end_of(reply);
    if end.is_err() {
        let _ = world.sync_drop(sync);
    }
    end
}

/// How a sync ended by its last reply.
fn end_of(reply: &Reply) -> Result<Option<ErrCode>, Refusal>
    ensures { result ≡ sync_end_of reply.now }
{
    match reply {
        Reply::Clean => Ok(None),
        Reply::Failed(code) => Ok(Some(*code)),
        Reply::Refused(refusal) => Err(*refusal),
        _ => Err(Refusal::Busy),
    }
}
