//! A service with one file, which is open.

ghost use Rattle.std.specs.Prelude.{IfOk};
ghost use Rattle.filesvc.specs.Service.{IsOpen};

use blockdev::BlockDevice;
use filesvc::{Handle, Solo};
use pc_types::{Geometry, PageIndex, Refusal};
use std::alloc::Global;
use std::marker::Model;

/// A service over a device, and a handle that it opened.
#[derive(Drop)]
pub struct OpenFile<D: BlockDevice> {
    solo: Solo<D>,
    handle: Handle,
}

impl<D: BlockDevice> Model for OpenFile<D> {
    ghost use Rattle.filesvc.specs.Service.{IsOpen};

    ghost Value = { Unit };

    ghost view = { λ f. tt };

    ghost invariant = { λ f. IsOpen f.solo f.handle };
}

impl<D: BlockDevice> OpenFile<D> {
    /// A new file of a new service over the device.
    pub fn new(alloc: Global, geometry: &Geometry, device: D) -> Result<OpenFile<D>, Refusal> {
        match Solo::new(alloc, geometry, 1, device) {
            Ok(solo) => OpenFile::of(solo),
            Err(refused) => {
                // by a call, as below
                drop(refused);
                Err(Refusal::Memory)
            }
        }
    }

    /// A new file of the service.
    fn of(mut solo: Solo<D>) -> Result<OpenFile<D>, Refusal> {
        match open_first(&mut solo) {
            Ok(handle) => Ok(OpenFile { solo, handle }),
            Err(refusal) => {
                // by a call, since the check is slow where a service goes out of scope
                drop(solo);
                Err(refusal)
            }
        }
    }

    #[inline(always)]
    pub fn pread(&mut self, offset: u64, out: &mut [u8]) -> Result<u64, Refusal> {
        self.solo.pread(&self.handle, offset, out)
    }

    #[inline(always)]
    pub fn pwrite(&mut self, offset: u64, bytes: &[u8]) -> Result<u64, Refusal> {
        self.solo.pwrite(&self.handle, offset, bytes)
    }

    pub fn truncate(&mut self, size: u64) -> Result<(), Refusal> {
        self.solo.truncate(&self.handle, size)
    }

    pub fn fsync(&mut self) -> Result<(), Refusal> {
        self.solo.fsync(&mut self.handle)
    }

    pub fn fsync_range(&mut self, first: PageIndex, last: PageIndex) -> Result<(), Refusal> {
        self.solo.fsync_range(&mut self.handle, first, last)
    }

    /// How many attempts the last call made.
    #[inline(always)]
    pub fn attempts(&self) -> u64 {
        self.solo.attempts()
    }
}

/// A handle of a new file.
fn open_first<D: BlockDevice>(solo: &mut Solo<D>) -> Result<Handle, Refusal>
    ensures { IfOk result (IsOpen solo.new) }
{
    let file = solo.create()?;
    solo.open(file, false)
}
