//! Requests that begin, are carried out and end in one call, for a cache that one thread has: the device reads into the page's own
//! frame and writes from it, so no job has a copy of the bytes (decision 161).

ghost use Rattle.std.specs.Prelude.{◌≡◌, ℕ};
ghost use Rattle.std.specs.FinMap as map;
ghost use Rattle.cachecore.specs.AtOnce.{IsDeviceOf, IsWritten, MakesAtOnce};
ghost use Rattle.cachecore.specs.Nexts.{IsToRead};
ghost use Rattle.cachecore.specs.Starting.{CanStart};

use crate::cache::CacheCore;
use crate::fills::FillNext;
use crate::syncs::SyncNext;
use blockdev::{BlockDevice, Watched};
use blockmap::Placed;
use machine::{Event, Reply};
use pc_types::{FileId, HandleId, PageIndex, Refusal, SyncId};

/// What comes of an event that may begin a request, where the request is carried out and ended at once.
#[derive(Drop, Debug)]
pub enum AtOnce {
    /// No request began. The event's own reply.
    Answered(Reply),
    /// One of this file began, and ended with this reply.
    Ended(FileId, Reply),
}

impl CacheCore {
    /// Fills an absent page: from its block where the page's bytes are on the device, and else with zeros.
    pub fn fill_at_once<D: BlockDevice>(
        &mut self,
        device: &mut Watched<D>,
        handle: HandleId,
        page: PageIndex,
    ) -> AtOnce
        requires { IsDeviceOf self.old.state device.old }
        ensures { MakesAtOnce self.old (Event.FillBegin handle page) device.old result self.new device.new }
    {
        match self.next_fill(handle, page) {
            Ok(FillNext::Read(file, placed)) => self.read_at_once(device, file, page, placed),
            Ok(FillNext::Gone) => AtOnce::Answered(Reply::Gone),
            Ok(FillNext::Wait(page)) => AtOnce::Answered(Reply::Wait(page)),
            Ok(FillNext::Present) => AtOnce::Answered(Reply::Present),
            Ok(FillNext::Filled) => AtOnce::Answered(Reply::Filled),
            Err(refusal) => AtOnce::Answered(Reply::Refused(refusal)),
        }
    }

    /// Writes the file's lowest page that is dirty and has no write in flight.
    pub fn flush_at_once<D: BlockDevice>(&mut self, device: &mut Watched<D>, file: FileId) -> AtOnce
        requires { IsDeviceOf self.old.state device.old }
        ensures { MakesAtOnce self.old (Event.FlushBegin file) device.old result self.new device.new }
    {
        match self.page_to_flush(file) {
            Ok(Some(page)) => {
                let reply = self.write_at_once(device, file, page);
                AtOnce::Ended(file, reply)
            }
            Ok(None) => AtOnce::Answered(Reply::Nothing),
            Err(refusal) => AtOnce::Answered(Reply::Refused(refusal)),
        }
    }

    /// Goes on with a sync, as `sync_step` does. A page that it starts is written.
    pub fn sync_at_once<D: BlockDevice>(&mut self, device: &mut Watched<D>, sync: SyncId) -> AtOnce
        requires { IsDeviceOf self.old.state device.old }
        ensures { MakesAtOnce self.old (Event.SyncStep sync) device.old result self.new device.new }
    {
        let next = match self.next_of(sync) {
            Ok(next) => next,
            Err(refusal) => return AtOnce::Answered(Reply::Refused(refusal)),
        };
        match next {
            SyncNext::Start(file, page) => {
                self.syncs.started(sync, page);
                let reply = self.write_at_once(device, file, page);
                AtOnce::Ended(file, reply)
            }
            SyncNext::Wait(page) => AtOnce::Answered(Reply::Wait(page)),
            SyncNext::Clean => AtOnce::Answered(Reply::Clean),
            SyncNext::Failed(code) => AtOnce::Answered(Reply::Failed(code)),
        }
    }

    /// Reads an absent page from its block.
    fn read_at_once<D: BlockDevice>(
        &mut self,
        device: &mut Watched<D>,
        file: FileId,
        page: PageIndex,
        placed: Placed,
    ) -> AtOnce
        requires device { IsDeviceOf self.old.state device.old }
        requires reads { IsToRead self.old.state file.0 page.0 placed }
        ensures { (h : HandleId) → map.get self.old.state.handles h.0 ≡ Some file.0 → MakesAtOnce self.old (Event.FillBegin h page) device.old result self.new device.new }
    {
        if self.requests.is_full() {
            return AtOnce::Answered(Reply::Refused(Refusal::TooManyInFlight));
        }
        if self.pages.start_fill(file.0, page.0).is_err() {
            return AtOnce::Answered(Reply::Refused(Refusal::Memory));
        }
        // Nobody sees the cache before the request is over, so all that is left of it is that its serial is taken.
        self.requests.pass();
        let valid = placed.valid as usize;
        match self
            .pages
            .fill_by(device, placed.block, file.0, page.0, valid)
        {
            Ok(()) => AtOnce::Ended(file, Reply::Filled),
            Err(code) => {
                self.pages.leave(file.0, page.0);
                AtOnce::Ended(file, Reply::Failed(code))
            }
        }
    }

    /// Writes a page that is DIRTY and has no write in flight to its block.
    fn write_at_once<D: BlockDevice>(
        &mut self,
        device: &mut Watched<D>,
        file: FileId,
        page: PageIndex,
    ) -> Reply
        requires device { IsDeviceOf self.old.state device.old }
        requires start { CanStart self.old.state file.0 page.0 }
        ensures { IsWritten self.old file.0 page.0 device.old result self.new device.new }
    {
        // for what `free_count` ensures: the block of a page is one of the device's
        prove!(self.blocks.free_count() <= u64::MAX);
        let Some(placed) = self.blocks.map(file, page) else {
            unreachable!()
        };
        let written = device.write(placed.block, self.pages.bytes(file.0, page.0));
        // As in `read_at_once`.
        self.requests.pass();
        self.pages.write_through(file.0, page.0, written.is_err());
        match written {
            Ok(()) => {
                self.blocks
                    .set_valid(file, page, self.geometry.page() as u32);
                Reply::Written
            }
            Err(code) => {
                self.pages.note_failure(file.0, u64::from(code.code()));
                Reply::Failed(code)
            }
        }
    }
}
