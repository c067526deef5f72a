//! The files of a service, and their handles by number.

ghost use Rattle.std.specs.Prelude.{◌≡◌, ◌-◌, ◌<◌, ◌≤◌, ◌⊎◌, ℕ, [], None, Some, Ok, Err, IfNone, IfOk, IfSome, OnErr, OnOk, is_some, length, min, take};
ghost use Rattle.pc_types.specs.Files as plain;
ghost use Rattle.pc_types.specs.declared.refusal.Refusal.TheVariants.{BadHandle};
ghost use Rattle.machine.specs.State.{file_at};
ghost use Rattle.machine.specs.declared.event.Event.TheVariants as event;
ghost use Rattle.blockmap.specs.Keys.{NoneFrom};
ghost use Rattle.catalog.specs.Extents.{IsNext};
ghost use Rattle.cachecore.specs.Replies.{created};
ghost use Rattle.cachecore.specs.Standing as standing;
ghost use Rattle.runs.specs.Restart.{IsClean};
ghost use Rattle.filesvc.specs.Seen.{HandleSeen};
ghost use Rattle.filesvc.specs.Service.{AreOnDevice, FilesAfter, IsOnDevice, Serves, Tells, files};
ghost use Rattle.desk.specs.Seen.{IsExtentNow, NoExtentNow, OthersKept, Stays, file_of, handle_at, with_file};

use crate::long::{read_any, write_any};
use blockdev::BlockDevice;
use catalog::{Catalog, Extent};
use filesvc::{Handle, Seek, Solo};
use pc_types::{ErrCode, FileId, PageIndex, Refusal};
use slab::Slab;
use std::alloc::Global;
use std::marker::Model;

/// The number of an open handle. Once it is closed, another may have it.
#[derive(Clone, Copy, PartialEq, Eq, Debug)]
pub struct HandleNo(pub u64);

/// A service, and its open handles.
#[derive(Drop)]
pub struct Desk<D: BlockDevice> {
    solo: Solo<D>,
    handles: Slab<Handle>,
    /// Bytes of a page.
    page: u64,
    /// Where the files stand on the device, as long as no call may have changed it.
    places: Option<Catalog>,
}

impl<D: BlockDevice> Model for Desk<D> {
    ghost use Rattle.std.specs.Coded.{codes, coded_ℕ};
    ghost use Rattle.std.specs.FinMap as map;
    ghost use Rattle.std.specs.Ordering.{nat_cmp};
    ghost use Rattle.std.specs.Prelude.{ℕ, List};
    ghost use Rattle.atomic_table.specs.Seated.{table_id_coded};
    ghost use Rattle.machine.specs.inside.Codes.{state_code};
    ghost use Rattle.machine.specs.declared.event.Outcome.{Outcome};
    ghost use Rattle.desk.specs.Seen.{DeskSeen, ArePlaces, IsTable};

    ghost Value = { DeskSeen };

    ghost coded = { Prim.hlevel (codes, state_code, table_id_coded, map.code {X = Outcome} {R = nat_cmp} coded_ℕ (Prim.hlevel codes), map.code {X = List ℕ} {R = nat_cmp} coded_ℕ (Prim.hlevel codes)) };

    ghost view = { λ d. record { service = d.solo; handles = d.handles.slots } };

    ghost invariant = { λ d. IsTable d.solo d.handles.slots × ArePlaces d.solo d.places };
}

impl<D: BlockDevice> Desk<D> {
    /// The files of a service, none of which is open. A page of it has so many bytes.
    pub fn new(alloc: Global, solo: Solo<D>, page: u64) -> Desk<D>
        ensures { result ≡ record { service = solo; handles = [] } }
    {
        Desk {
            solo,
            handles: Slab::new(alloc),
            page,
            places: None,
        }
    }

    /// A new file, without bytes. It stays as long as the desk. `TooManyFiles`, `Memory`.
    pub fn create(&mut self) -> Result<FileId, Refusal>
        ensures number { IfOk result (λ file. file.0 ≡ length self.old.service.world.core.files) }
        ensures files { FilesAfter self.old.service event.Create (created result) self.new.service }
        ensures handles { self.new.handles ≡ self.old.handles }
        ensures device { self.new.service.world.device ≡ self.old.service.world.device }
    {
        forget(&mut self.places);
        self.solo.create()
    }

    /// Opens a file. `NoSuchFile`, `TooManyHandles`, `Memory`.
    pub fn open(&mut self, file: FileId) -> Result<HandleNo, Refusal>
        ensures free { IfOk result (λ n. handle_at self.old n.0 ≡ None) }
        ensures opened { IfOk result (λ n. (h : HandleSeen) × (handle_at self.new n.0 ≡ Some h) × (h.file ≡ file.0)) }
        ensures others { IfOk result (λ n. OthersKept self.old self.new n.0) }
        ensures refused { OnErr result (self.new.handles ≡ self.old.handles) }
        ensures files { Tells self.old.service → (files self.new.service).files ≡ (files self.old.service).files }
        ensures device { self.new.service.world.device ≡ self.old.service.world.device }
    {
        forget(&mut self.places);
        self.handles.reserve(1)?;
        let handle = self.solo.open(file, false)?;
        Ok(HandleNo(self.handles.insert_reserved(handle) as u64))
    }

    /// Closes a handle.
    pub fn close(&mut self, number: HandleNo) -> Result<(), Refusal>
        ensures unknown { handle_at self.old number.0 ≡ None → (result ≡ Err BadHandle) × (self.new ≡ self.old) }
        ensures closed { (h : HandleSeen) → handle_at self.old number.0 ≡ Some h → result ≡ Ok tt }
        ensures gone { handle_at self.new number.0 ≡ None }
        ensures others { OthersKept self.old self.new number.0 }
        ensures files { Tells self.old.service → (files self.new.service).files ≡ (files self.old.service).files }
        ensures device { self.new.service.world.device ≡ self.old.service.world.device }
    {
        forget(&mut self.places);
        let Some(handle) = self.handles.try_remove(number.0 as usize) else {
            return Err(Refusal::BadHandle);
        };
        match self.solo.close(handle) {
            Ok(()) => Ok(()),
            Err((refusal, _handle)) => Err(refusal),
        }
    }

    /// Reads the bytes from `offset` on into the front of `out`, and answers how many: as many as it takes, and none past the end of
    /// the file. Where it is refused, a part may have been put into `out`.
    pub fn pread(&mut self, number: HandleNo, offset: u64, out: &mut [u8]) -> Result<u64, Refusal>
        ensures unknown { handle_at self.old number.0 ≡ None → (result ≡ Err BadHandle) × (self.new ≡ self.old) × (out.new ≡ out.old) }
        ensures bytes { (h : HandleSeen) → handle_at self.old number.0 ≡ Some h → Tells self.old.service → IfOk result (λ n. take n out.new ≡ plain.pread (file_of self.old h.file) offset (length out.old)) }
        ensures all { (h : HandleSeen) → handle_at self.old number.0 ≡ Some h → IfOk result (λ n. n ≡ min (length out.old) ((file_at self.old.service.world.core h.file).size - offset)) }
        ensures serves { Serves self.old.service self.new.service }
        ensures handles { self.new.handles ≡ self.old.handles }
    {
        forget(&mut self.places);
        let Some(handle) = self.handles.get(number.0 as usize) else {
            return Err(Refusal::BadHandle);
        };
        read_any(&mut self.solo, handle, self.page, offset, out)
    }

    /// Writes bytes into the file from `offset` on, and answers how many from their front: all, or as many as were written before a part
    /// was refused. It is refused where nothing was written.
    pub fn pwrite(&mut self, number: HandleNo, offset: u64, bytes: &[u8]) -> Result<u64, Refusal>
        ensures unknown { handle_at self.old number.0 ≡ None → (result ≡ Err BadHandle) × (self.new ≡ self.old) }
        ensures count { IfOk result (λ n. n ≤ length bytes.now) }
        ensures file { (h : HandleSeen) → handle_at self.old number.0 ≡ Some h → Tells self.old.service → IfOk result (λ n. files self.new.service ≡ with_file (files self.old.service) h.file (plain.pwrite (file_of self.old h.file) offset (take n bytes.now))) }
        ensures refused { Tells self.old.service → OnErr result (files self.new.service ≡ files self.old.service) }
        ensures handles { self.new.handles ≡ self.old.handles }
        ensures tells { Tells self.old.service → Tells self.new.service }
    {
        forget(&mut self.places);
        let Some(handle) = self.handles.get(number.0 as usize) else {
            return Err(Refusal::BadHandle);
        };
        write_any(&mut self.solo, handle, self.page, offset, bytes)
    }

    /// Makes the file as long as this.
    pub fn truncate(&mut self, number: HandleNo, size: u64) -> Result<(), Refusal>
        ensures unknown { handle_at self.old number.0 ≡ None → (result ≡ Err BadHandle) × (self.new ≡ self.old) }
        ensures file { (h : HandleSeen) → handle_at self.old number.0 ≡ Some h → Tells self.old.service → OnOk result (files self.new.service ≡ with_file (files self.old.service) h.file (plain.cut (file_of self.old h.file) size)) }
        ensures refused { Tells self.old.service → OnErr result (files self.new.service ≡ files self.old.service) }
        ensures handles { self.new.handles ≡ self.old.handles }
        ensures tells { Tells self.old.service → Tells self.new.service }
    {
        forget(&mut self.places);
        let Some(handle) = self.handles.get(number.0 as usize) else {
            return Err(Refusal::BadHandle);
        };
        self.solo.truncate(handle, size)
    }

    /// How long the file is.
    pub fn size(&mut self, number: HandleNo) -> Result<u64, Refusal>
        ensures unknown { handle_at self.old number.0 ≡ None → (result ≡ Err BadHandle) × (self.new ≡ self.old) }
        ensures size { (h : HandleSeen) → handle_at self.old number.0 ≡ Some h → IfOk result (λ n. n ≡ (file_at self.old.service.world.core h.file).size) }
        ensures stays { Stays self.old self.new number.0 }
        ensures service { self.new.service.world ≡ self.old.service.world }
    {
        let Some(handle) = self.handles.get_mut(number.0 as usize) else {
            return Err(Refusal::BadHandle);
        };
        self.solo.seek(handle, Seek::End(0))
    }

    /// Writes the file's dirty pages to the device, and has it make them durable, as `Solo::fsync` does.
    pub fn fsync(&mut self, number: HandleNo) -> Result<(), Refusal>
        ensures unknown { handle_at self.old number.0 ≡ None → (result ≡ Err BadHandle) × (self.new ≡ self.old) }
        ensures synced { (h : HandleSeen) → handle_at self.old number.0 ≡ Some h → Tells self.old.service → OnOk result (IsOnDevice self.new.service h.file) }
        ensures durable { OnOk result (self.new.service.world.device.durable ≡ self.new.service.world.device.contents) }
        ensures files { Tells self.old.service → files self.new.service ≡ files self.old.service }
        ensures stays { Stays self.old self.new number.0 }
    {
        forget(&mut self.places);
        let Some(handle) = self.handles.get_mut(number.0 as usize) else {
            return Err(Refusal::BadHandle);
        };
        self.solo.fsync(handle)
    }

    /// The same for these pages alone.
    pub fn fsync_range(
        &mut self,
        number: HandleNo,
        first: PageIndex,
        last: PageIndex,
    ) -> Result<(), Refusal>
        ensures unknown { handle_at self.old number.0 ≡ None → (result ≡ Err BadHandle) × (self.new ≡ self.old) }
        ensures synced { (h : HandleSeen) → handle_at self.old number.0 ≡ Some h → Tells self.old.service → OnOk result (AreOnDevice self.new.service h.file first last) }
        ensures durable { OnOk result (self.new.service.world.device.durable ≡ self.new.service.world.device.contents) }
        ensures files { Tells self.old.service → files self.new.service ≡ files self.old.service }
        ensures stays { Stays self.old self.new number.0 }
    {
        forget(&mut self.places);
        let Some(handle) = self.handles.get_mut(number.0 as usize) else {
            return Err(Refusal::BadHandle);
        };
        self.solo.fsync_range(handle, first, last)
    }

    /// The code of the last failed write of the file that the handle was not told of, where there is one. It is told of all then.
    pub fn poll_error(&mut self, number: HandleNo) -> Result<Option<ErrCode>, Refusal>
        ensures unknown { handle_at self.old number.0 ≡ None → (result ≡ Err BadHandle) × (self.new ≡ self.old) }
        ensures service { self.new.service.world ≡ self.old.service.world }
        ensures stays { Stays self.old self.new number.0 }
    {
        let Some(handle) = self.handles.get_mut(number.0 as usize) else {
            return Err(Refusal::BadHandle);
        };
        self.solo.poll_error(handle)
    }

    /// Writes every dirty page of every file to the device, and has it make them durable, as `Solo::sync_all` does.
    pub fn sync_all(&mut self) -> Result<(), Refusal>
        ensures clean { OnOk result (IsClean self.new.service.world.core) }
        ensures durable { OnOk result (self.new.service.world.device.durable ≡ self.new.service.world.device.contents) }
        ensures serves { Serves self.old.service self.new.service }
        ensures handles { self.new.handles ≡ self.old.handles }
    {
        forget(&mut self.places);
        self.solo.sync_all()
    }
    /// Whether a handle has the number.
    pub fn is_open(&self, number: HandleNo) -> bool
        ensures { result ≡ is_some (handle_at self.now number.0) }
    {
        self.handles.contains(number.0 as usize)
    }

    /// The file's first extent from this page on, as it stands on the device now. A page that was never written there is in none. The first
    /// such call after one that may have changed the files takes time and memory by the page. `NoSuchFile`, `Memory`.
    pub fn next_extent(&mut self, file: FileId, from: PageIndex) -> Result<Option<Extent>, Refusal>
        ensures found { IfOk result (λ next. IfSome next (IsExtentNow self.old.service file.0 from.0)) }
        ensures none { IfOk result (λ next. IfNone next (NoExtentNow self.old.service file.0 from.0)) }
        ensures here { OnOk result (file.0 < length self.old.service.world.core.files) }
        ensures same { self.new ≡ self.old }
    {
        let places = places_of(&mut self.places, &self.solo)?;
        let next = next_of(&places, file, from);
        self.places = Some(places);
        next
    }
}

/// Before a call that may change where the files stand.
#[inline(always)]
fn forget(places: &mut Option<Catalog>)
    ensures { places.new ≡ None }
{
    // asked first, since to take out nothing stores a whole catalog of it
    if places.is_some() {
        discard(places);
    }
}

/// By a call, since the check is slow where a catalog goes out of scope.
#[inline(never)]
fn discard(places: &mut Option<Catalog>)
    ensures { places.new ≡ None }
{
    drop(places.take());
}

/// The catalog that was made before, or a new one. It is taken out.
fn places_of<D: BlockDevice>(
    places: &mut Option<Catalog>,
    solo: &Solo<D>,
) -> Result<Catalog, Refusal>
    ensures told { IfOk result (λ c. (places.old ≡ Some c) ⊎ standing.Tells solo.now.world.core c) }
    ensures out { places.new ≡ None }
{
    match places.take() {
        Some(places) => Ok(places),
        None => solo.catalog(),
    }
}

/// The file's next extent in a catalog. `NoSuchFile`.
fn next_of(places: &Catalog, file: FileId, from: PageIndex) -> Result<Option<Extent>, Refusal>
    ensures found { IfOk result (λ next. IfSome next (IsNext places.now file.0 from.0)) }
    ensures none { IfOk result (λ next. IfNone next (NoneFrom places.now.files.spots file.0 from.0)) }
    ensures here { OnOk result (file.0 < length places.now.files.sizes) }
{
    if file.0 >= places.file_count() {
        return Err(Refusal::NoSuchFile);
    }
    Ok(places.next_extent(file, from))
}
