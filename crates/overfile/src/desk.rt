//! A service and the handle of its file, and what the commands of a line ask of them.

ghost use Rattle.std.specs.Prelude.{◌≡◌, ◌≢◌, Err, IfOk, OnOk};
ghost use Rattle.pc_types.specs.declared.refusal.Refusal.TheVariants.{BadHandle};
ghost use Rattle.filesvc.specs.Service.{IsOpen};
ghost use Rattle.overfile.specs.Synced.{IsSynced};

use blockdev::BlockDevice;
use cachecore::Reply;
use filesvc::{Handle, Seek, Solo};
use pc_types::{Bytes, ErrCode, FileId, HandleId, PageIndex, Refusal};
use std::alloc::Global;
use std::marker::Model;
use world::Step;

/// A service over a device, and its handle 0.
#[derive(Drop)]
pub struct Desk<D: BlockDevice> {
    solo: Solo<D>,
    handle: Handle,
}

impl<D: BlockDevice> Model for Desk<D> {
    ghost use Rattle.std.specs.Coded.{codes, coded_ℕ};
    ghost use Rattle.std.specs.FinMap as map;
    ghost use Rattle.std.specs.Ordering.{nat_cmp};
    ghost use Rattle.std.specs.Prelude.{ℕ, List};
    ghost use Rattle.atomic_table.specs.Seated.{table_id_coded};
    ghost use Rattle.machine.specs.inside.Codes.{state_code};
    ghost use Rattle.machine.specs.declared.event.Outcome.{Outcome};
    ghost use Rattle.filesvc.specs.Seen.{SoloSeen};
    ghost use Rattle.filesvc.specs.Service.{IsOpen};

    ghost Value = { SoloSeen };

    ghost coded = { Prim.hlevel (codes, state_code, table_id_coded, map.code {X = Outcome} {R = nat_cmp} coded_ℕ (Prim.hlevel codes), map.code {X = List ℕ} {R = nat_cmp} coded_ℕ (Prim.hlevel codes)) };

    ghost view = { λ d. d.solo };

    ghost invariant = { λ d. IsOpen d.solo d.handle };
}

/// Opens the service's file.
fn open<D: BlockDevice>(solo: &mut Solo<D>, file: FileId) -> Result<Handle, Refusal>
    ensures { IfOk result (IsOpen solo.new) }
{
    solo.open(file, false)
}

impl<D: BlockDevice> Desk<D> {
    pub fn open(mut solo: Solo<D>, file: FileId) -> Result<Desk<D>, Refusal> {
        match open(&mut solo, file) {
            Ok(handle) => Ok(Desk { solo, handle }),
            Err(refusal) => {
                // by a call, since the check is slow where a service goes out of scope
                drop(solo);
                Err(refusal)
            }
        }
    }

    /// What a step answers, if it is one that a service has for an open file.
    pub fn step(&mut self, alloc: Global, step: &Step) -> Option<Reply> {
        match step {
            Step::Size(handle) => Some(self.size(*handle)),
            Step::Read(handle, offset, count) => Some(self.read(alloc, *handle, *offset, *count)),
            Step::Write(handle, offset, bytes) => {
                Some(self.write(*handle, Seek::Set(*offset), bytes.as_slice()))
            }
            Step::Append(handle, bytes) => {
                Some(self.write(*handle, Seek::End(0), bytes.as_slice()))
            }
            Step::Truncate(handle, size) => Some(self.truncate(*handle, *size)),
            _ => None,
        }
    }

    fn size(&mut self, handle: HandleId) -> Reply
        ensures stranger { handle.0 ≢ 0 → (result ≡ Reply.Refused BadHandle) × (self.new ≡ self.old) }
    {
        if handle != HandleId(0) {
            return Reply::Refused(Refusal::BadHandle);
        }
        match self.solo.seek(&mut self.handle, Seek::End(0)) {
            Ok(size) => Reply::Size(size),
            Err(refusal) => Reply::Refused(refusal),
        }
    }

    fn read(&mut self, alloc: Global, handle: HandleId, offset: u64, count: u64) -> Reply
        ensures stranger { handle.0 ≢ 0 → (result ≡ Reply.Refused BadHandle) × (self.new ≡ self.old) }
    {
        if handle != HandleId(0) {
            return Reply::Refused(Refusal::BadHandle);
        }
        let Ok(mut bytes) = vec![in alloc; 0; count as usize] else {
            return Reply::Refused(Refusal::Memory);
        };
        match self.solo.pread(&self.handle, offset, &mut bytes) {
            Ok(count) => {
                bytes.truncate(count as usize);
                Reply::Bytes(Bytes::from_vec(bytes))
            }
            Err(refusal) => Reply::Refused(refusal),
        }
    }

    /// Writes where the cursor is put.
    fn write(&mut self, handle: HandleId, place: Seek, bytes: &[u8]) -> Reply
        ensures stranger { handle.0 ≢ 0 → (result ≡ Reply.Refused BadHandle) × (self.new ≡ self.old) }
    {
        if handle != HandleId(0) {
            return Reply::Refused(Refusal::BadHandle);
        }
        if let Err(refusal) = self.solo.seek(&mut self.handle, place) {
            return Reply::Refused(refusal);
        }
        match self.solo.write(&mut self.handle, bytes) {
            Ok(count) => Reply::Wrote(count, self.handle.cursor()),
            Err(refusal) => Reply::Refused(refusal),
        }
    }

    fn truncate(&mut self, handle: HandleId, size: u64) -> Reply
        ensures stranger { handle.0 ≢ 0 → (result ≡ Reply.Refused BadHandle) × (self.new ≡ self.old) }
    {
        if handle != HandleId(0) {
            return Reply::Refused(Refusal::BadHandle);
        }
        match self.solo.truncate(&self.handle, size) {
            Ok(()) => Reply::Done,
            Err(refusal) => Reply::Refused(refusal),
        }
    }

    /// A sync of the file, or of a range of its pages.
    pub fn fsync(&mut self, handle: HandleId, range: Option<(PageIndex, PageIndex)>) -> Reply
        ensures stranger { handle.0 ≢ 0 → (result ≡ Reply.Refused BadHandle) × (self.new ≡ self.old) }
    {
        if handle != HandleId(0) {
            return Reply::Refused(Refusal::BadHandle);
        }
        let synced = match range {
            Some((first, last)) => self.solo.fsync_range(&mut self.handle, first, last),
            None => self.solo.fsync(&mut self.handle),
        };
        match synced {
            Ok(()) => Reply::Done,
            Err(refusal) => Reply::Refused(refusal),
        }
    }

    /// What the handle is told of failed writes.
    pub fn poll(&mut self, handle: HandleId) -> Result<Option<ErrCode>, Refusal>
        ensures stranger { handle.0 ≢ 0 → (result ≡ Err BadHandle) × (self.new ≡ self.old) }
    {
        if handle != HandleId(0) {
            return Err(Refusal::BadHandle);
        }
        self.solo.poll_error(&mut self.handle)
    }

    /// Has all on the device, durable.
    pub fn sync_all(&mut self) -> Result<(), Refusal>
        ensures { OnOk result (IsSynced self.new) }
    {
        self.solo.sync_all()
    }
}
