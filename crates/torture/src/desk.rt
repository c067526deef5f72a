//! A service, and the handles that it opened.

ghost use Rattle.std.specs.Prelude.{◌<◌, ◌≡◌, All, IfOk};
ghost use Rattle.pc_types.specs.declared.limits.TheConstants.{MAX_FILES};
ghost use Rattle.filesvc.specs.Service.{IsOpen};

use blockdev::{BlockDevice, MemDevice};
use filesvc::{Handle, Seek, Solo};
use pc_types::{ErrCode, FileId, Geometry, PageIndex, Refusal};
use std::alloc::Global;
use std::marker::Model;

/// The names of the service, and of the one that a stray handle is of.
const NAME: u64 = 7;

const OTHER: u64 = 8;

/// A service over a device, its open handles, and one of another service.
#[derive(Drop)]
pub(crate) struct Desk<D: BlockDevice> {
    solo: Solo<D>,
    handles: Vec<Handle>,
    stray: Handle,
}

impl<D: BlockDevice> Model for Desk<D> {
    ghost use Rattle.std.specs.Prelude.{◌≡◌, All};
    ghost use Rattle.filesvc.specs.Service.{IsOpen};
    ghost use Rattle.torture.specs.Handles.{AreApart};

    ghost Value = { Unit };

    ghost view = { λ d. tt };

    ghost invariant = { λ d. All (IsOpen d.solo) d.handles.items × AreApart d.handles.items × (d.solo.world.core.name ≡ 7) × (d.stray.cache ≡ 8) };
}

impl<D: BlockDevice> Desk<D> {
    /// A service with so many files, none of them open.
    pub(crate) fn new(
        alloc: Global,
        geometry: &Geometry,
        device: D,
        files: u64,
    ) -> Result<Desk<D>, Refusal> {
        let stray = stray(alloc)?;
        match Solo::new(alloc, geometry, NAME, device) {
            Ok(solo) => Desk::of(alloc, solo, stray, files),
            Err((refusal, device)) => {
                // by a call, as below
                drop(device);
                Err(refusal)
            }
        }
    }

    fn of(alloc: Global, mut solo: Solo<D>, stray: Handle, files: u64) -> Result<Desk<D>, Refusal>
        requires name { solo.world.core.name ≡ 7 }
        requires stray { stray.cache ≡ 8 }
    {
        match create_all(&mut solo, files) {
            Ok(()) => Ok(Desk {
                solo,
                handles: Vec::new(alloc),
                stray,
            }),
            Err(refusal) => {
                // by a call, since the check is slow where a service goes out of scope
                drop(solo);
                Err(refusal)
            }
        }
    }

    pub(crate) fn open(&mut self, file: u64, append: bool) -> Result<(), Refusal> {
        let handle = self.solo.open(FileId(file), append)?;
        match self.handles.push(handle) {
            Ok(()) => Ok(()),
            Err(_) => Err(Refusal::Memory),
        }
    }

    /// Closes the handle that was opened last.
    pub(crate) fn close(&mut self) -> Result<(), Refusal> {
        let Some(handle) = self.handles.pop() else {
            return Err(Refusal::Stranger);
        };
        match self.solo.close(handle) {
            Ok(()) => Ok(()),
            Err((refusal, handle)) => {
                drop(handle);
                Err(refusal)
            }
        }
    }

    /// Where the handle's cursor is.
    pub(crate) fn cursor(&self, at: usize) -> u64 {
        match self.handles.get(at) {
            Some(handle) => handle.cursor(),
            None => 0,
        }
    }

    pub(crate) fn pread(&mut self, at: usize, offset: u64, out: &mut [u8]) -> Result<u64, Refusal> {
        let Some(handle) = self.handles.get(at) else {
            return Err(Refusal::Stranger);
        };
        self.solo.pread(handle, offset, out)
    }

    pub(crate) fn pwrite(&mut self, at: usize, offset: u64, bytes: &[u8]) -> Result<u64, Refusal> {
        let Some(handle) = self.handles.get(at) else {
            return Err(Refusal::Stranger);
        };
        self.solo.pwrite(handle, offset, bytes)
    }

    pub(crate) fn truncate(&mut self, at: usize, size: u64) -> Result<(), Refusal> {
        let Some(handle) = self.handles.get(at) else {
            return Err(Refusal::Stranger);
        };
        self.solo.truncate(handle, size)
    }

    pub(crate) fn read(&mut self, at: usize, out: &mut [u8]) -> Result<u64, Refusal> {
        if at >= self.handles.len() {
            return Err(Refusal::Stranger);
        }
        self.solo.read(&mut self.handles[at], out)
    }

    pub(crate) fn write(&mut self, at: usize, bytes: &[u8]) -> Result<u64, Refusal> {
        if at >= self.handles.len() {
            return Err(Refusal::Stranger);
        }
        self.solo.write(&mut self.handles[at], bytes)
    }

    pub(crate) fn seek(&mut self, at: usize, place: Seek) -> Result<u64, Refusal> {
        if at >= self.handles.len() {
            return Err(Refusal::Stranger);
        }
        self.solo.seek(&mut self.handles[at], place)
    }

    pub(crate) fn fsync(&mut self, at: usize) -> Result<(), Refusal> {
        if at >= self.handles.len() {
            return Err(Refusal::Stranger);
        }
        self.solo.fsync(&mut self.handles[at])
    }

    pub(crate) fn fsync_range(&mut self, at: usize, first: u64, last: u64) -> Result<(), Refusal> {
        if at >= self.handles.len() {
            return Err(Refusal::Stranger);
        }
        self.solo
            .fsync_range(&mut self.handles[at], PageIndex(first), PageIndex(last))
    }

    pub(crate) fn poll(&mut self, at: usize) -> Result<Option<ErrCode>, Refusal> {
        if at >= self.handles.len() {
            return Err(Refusal::Stranger);
        }
        self.solo.poll_error(&mut self.handles[at])
    }

    /// Makes the call of this number by the stray handle.
    pub(crate) fn call_astray(&mut self, number: u64) -> Result<(), Refusal> {
        match number % 4 {
            0 => self.solo.pread(&self.stray, 0, &mut [0]).map(|_| ()),
            1 => self.solo.pwrite(&self.stray, 0, &[1]).map(|_| ()),
            2 => self.solo.truncate(&self.stray, 0),
            _ => self.solo.fsync(&mut self.stray),
        }
    }
}

fn create_all<D: BlockDevice>(solo: &mut Solo<D>, files: u64) -> Result<(), Refusal>
    ensures { solo.new.world.core.name ≡ solo.old.world.core.name }
{
    for _ in 0..files {
        solo.create()?;
    }
    Ok(())
}

/// A handle of another service.
fn stray(alloc: Global) -> Result<Handle, Refusal>
    ensures { IfOk result (λ h. h.cache ≡ 8) }
{
    let geometry = Geometry::new(16, 48, 16, 1)?;
    let device = MemDevice::new(alloc, 16, 1)?;
    match Solo::new(alloc, &geometry, OTHER, device) {
        Ok(mut solo) => {
            let handle = first_handle(&mut solo);
            drop(solo);
            handle
        }
        Err((refusal, device)) => {
            drop(device);
            Err(refusal)
        }
    }
}

fn first_handle(solo: &mut Solo<MemDevice>) -> Result<Handle, Refusal>
    requires { solo.old.world.core.name ≡ 8 }
    ensures { IfOk result (λ h. h.cache ≡ 8) }
{
    let file = solo.create()?;
    solo.open(file, false)
}
