//! How a service ends: by a sync of all files that fails at first, or by none.

ghost use Rattle.std.specs.Prelude.{IfOk};
ghost use Rattle.filesvc.specs.Service.{IsOpen};

use crate::calls::{fsync, open, pread, pwrite};
use crate::checks::same;
use crate::disk::{TEXT, disk, extent, one_file, service};
use crate::odd::Odd;
use blockdev::{BlockDevice, Fault, FaultEffect, MemDevice};
use catalog::Catalog;
use faulty::{FailingDevice, Log};
use filesvc::{Handle, Solo};
use pc_types::{ErrCode, Refusal};
use std::alloc::Global;
use std::cell::Cell;
use std::marker::Model;
use std::process::Abort;
use std::rc::Rc;

/// A service over a device that fails once, and a handle of its file.
#[derive(Drop)]
struct Desk {
    // in a box, since the check is slow where a service itself goes out of scope
    solo: Box<Solo<FailingDevice<MemDevice>>>,
    handle: Handle,
}

impl Model for Desk {
    ghost use Rattle.std.specs.Prelude.{box_value};
    ghost use Rattle.filesvc.specs.Service.{IsOpen};

    ghost Value = { Unit };

    ghost view = { λ d. tt };

    ghost invariant = { λ d. IsOpen (box_value d.solo) d.handle };
}

impl Desk {
    /// The device's call of this number fails, counted from 0.
    fn new(alloc: Global, number: u64, fault: Fault) -> Result<Desk, Odd> {
        let catalog = one_file(alloc, 48, &[extent(0, 0, 48)])?;
        let log = new_log(alloc)?;
        let device = FailingDevice::at(disk(alloc, TEXT)?, number, fault, log);
        let mut solo = service(alloc, 7, catalog, device)?;
        let handle = open(&mut solo, 0, false)?;
        Ok(Desk { solo, handle })
    }

    fn write(&mut self, offset: u64, bytes: &[u8]) -> Result<u64, Refusal> {
        self.solo.pwrite(&self.handle, offset, bytes)
    }

    fn sync_all(&mut self) -> Result<(), Refusal> {
        self.solo.sync_all()
    }

    fn poll(&mut self) -> Result<Option<ErrCode>, Refusal> {
        self.solo.poll_error(&mut self.handle)
    }

    fn fsync(&mut self) -> Result<(), Refusal> {
        self.solo.fsync(&mut self.handle)
    }

    /// The service's catalog, and its device.
    fn end(self) -> Result<(Catalog, FailingDevice<MemDevice>), Odd> {
        let Desk { solo, handle } = self;
        drop(handle);
        let solo = Box::into_inner(solo);
        let catalog = solo.catalog();
        let device = solo.into_device();
        match catalog {
            Ok(catalog) => Ok((catalog, device)),
            Err(refusal) => {
                drop(device);
                Err(Odd::from(refusal))
            }
        }
    }
}

fn new_log(alloc: Global) -> Result<Rc<Cell<Log>>, Refusal> {
    Ok(Rc::new(alloc, Cell::new(Log::empty()))?)
}

/// The code of the fault: another than that of a call which can't be counted.
fn full() -> Result<ErrCode, Refusal> {
    ErrCode::new(28)
}

/// Two pages whole, which nothing has to be read for.
fn writes_two(rt: &impl Abort, desk: &mut Desk) {
    same(rt, desk.write(0, &[b'a'; 32]), Ok(32));
}

/// The file has those pages, and the rest of its text.
fn reads_two<D: BlockDevice>(solo: &mut Solo<D>) -> Result<(), Odd> {
    let mut out = [0; 64];
    let count = pread(solo, 0, 0, &mut out)?;
    if count != 48 || !out.starts_with(b"aaaaaaaaaaaaaaaaaaaaaaaaaaaaaaaahe lazy dog and ") {
        return Err(Odd::Bytes(0));
    }
    Ok(())
}

fn begins_again(alloc: Global, desk: Desk) -> Result<(), Odd> {
    let (catalog, device) = desk.end()?;
    let mut solo = service(alloc, 8, catalog, device)?;
    reads_two(&mut solo)
}

// The second write fails, whatever it leaves. The next sync writes the page again, and the handle is told of the failure once.
fn fails_to_write(rt: &impl Abort, alloc: Global, effect: FaultEffect) -> Result<(), Odd> {
    let code = full()?;
    let mut desk = Desk::new(alloc, 1, Fault { code, effect })?;
    writes_two(rt, &mut desk);
    same(rt, desk.sync_all(), Err(Refusal::Io(code)));
    same(rt, desk.sync_all(), Ok(()));
    same(rt, desk.poll(), Ok(Some(code)));
    same(rt, desk.poll(), Ok(None));
    same(rt, desk.fsync(), Ok(()));
    begins_again(alloc, desk)
}

#[test]
fn a_failed_write_is_told_once(rt: HostRuntime) {
    same(
        &rt,
        fails_to_write(&rt, rt.alloc(), FaultEffect::Old),
        Ok(()),
    );
    same(
        &rt,
        fails_to_write(&rt, rt.alloc(), FaultEffect::New),
        Ok(()),
    );
}

// By an fsync, as by a poll.
fn is_told_by_fsync(rt: &impl Abort, alloc: Global) -> Result<(), Odd> {
    let code = full()?;
    let effect = FaultEffect::Old;
    let mut desk = Desk::new(alloc, 0, Fault { code, effect })?;
    writes_two(rt, &mut desk);
    same(rt, desk.sync_all(), Err(Refusal::Io(code)));
    same(rt, desk.sync_all(), Ok(()));
    same(rt, desk.fsync(), Err(Refusal::Io(code)));
    same(rt, desk.fsync(), Ok(()));
    begins_again(alloc, desk)
}

#[test]
fn an_fsync_tells_of_it_once(rt: HostRuntime) {
    same(&rt, is_told_by_fsync(&rt, rt.alloc()), Ok(()));
}

// The flush fails, behind both writes. It is made again, and no handle is told: no write failed.
fn fails_to_flush(rt: &impl Abort, alloc: Global) -> Result<(), Odd> {
    let code = full()?;
    let effect = FaultEffect::Old;
    let mut desk = Desk::new(alloc, 2, Fault { code, effect })?;
    writes_two(rt, &mut desk);
    same(rt, desk.sync_all(), Err(Refusal::Io(code)));
    same(rt, desk.poll(), Ok(None));
    same(rt, desk.sync_all(), Ok(()));
    same(rt, desk.sync_all(), Ok(()));
    same(rt, desk.poll(), Ok(None));
    begins_again(alloc, desk)
}

#[test]
fn a_failed_flush_is_made_again(rt: HostRuntime) {
    same(&rt, fails_to_flush(&rt, rt.alloc()), Ok(()));
}

/// A file of two pages and a new one, both synced. Then their pages are written over, and nothing is synced.
fn leaves_dirty_pages(solo: &mut Solo<MemDevice>) -> Result<(), Odd> {
    let file = solo.create()?;
    if file.0 != 1 || pwrite(solo, 1, 0, b"kept")? != 4 {
        return Err(Odd::Answer);
    }
    fsync(solo, 1)?;
    if pwrite(solo, 1, 0, b"lost")? != 4 || pwrite(solo, 0, 4, b"lost!")? != 5 {
        return Err(Odd::Answer);
    }
    Ok(())
}

/// Both files as they were last synced.
fn has_synced(solo: &mut Solo<MemDevice>) -> Result<(), Odd> {
    let mut out = [0; 8];
    if pread(solo, 1, 0, &mut out)? != 4 || !out.starts_with(b"kept") {
        return Err(Odd::Bytes(1));
    }
    if pread(solo, 0, 0, &mut out)? != 8 || !out.starts_with(b"The quic") {
        return Err(Odd::Bytes(0));
    }
    Ok(())
}

fn ends_without_a_sync(alloc: Global) -> Result<(), Odd> {
    let catalog = one_file(alloc, 32, &[extent(0, 0, 32)])?;
    let mut solo = service(alloc, 7, catalog, disk(alloc, TEXT)?)?;
    leaves_dirty_pages(&mut solo)?;
    let catalog = solo.catalog()?;
    let device = Box::into_inner(solo).into_device();
    let mut solo = service(alloc, 8, catalog, device)?;
    has_synced(&mut solo)
}

#[test]
fn without_a_sync_the_files_are_as_last_synced(rt: HostRuntime) {
    same(&rt, ends_without_a_sync(rt.alloc()), Ok(()));
}
