//! What a service refuses that is not its own: a handle of another service, and a file that is not there.

ghost use Rattle.std.specs.Prelude.{◌≡◌, IfOk};

use crate::checks::{check, same};
use blockdev::MemDevice;
use filesvc::{Handle, Seek, Solo};
use pc_types::{ErrCode, FileId, Geometry, PageIndex, Refusal};
use std::alloc::Global;
use std::marker::Model;
use std::process::Abort;

/// A service of name 7, and a handle of one of name 8.
#[derive(Drop)]
struct Visit {
    // in a box, since the check is slow where a service itself goes out of scope
    solo: Box<Solo<MemDevice>>,
    handle: Handle,
}

impl Model for Visit {
    ghost use Rattle.std.specs.Prelude.{◌≡◌, box_value};

    ghost Value = { Unit };

    ghost view = { λ v. tt };

    ghost invariant = { λ v. ((box_value v.solo).world.core.name ≡ 7) × (v.handle.cache ≡ 8) };
}

impl Visit {
    fn read(&mut self, out: &mut [u8]) -> Result<u64, Refusal> {
        self.solo.read(&mut self.handle, out)
    }

    fn write(&mut self, bytes: &[u8]) -> Result<u64, Refusal> {
        self.solo.write(&mut self.handle, bytes)
    }

    fn pread(&mut self, out: &mut [u8]) -> Result<u64, Refusal> {
        self.solo.pread(&self.handle, 0, out)
    }

    fn pwrite(&mut self, bytes: &[u8]) -> Result<u64, Refusal> {
        self.solo.pwrite(&self.handle, 0, bytes)
    }

    fn truncate(&mut self) -> Result<(), Refusal> {
        self.solo.truncate(&self.handle, 0)
    }

    fn seek(&mut self) -> Result<u64, Refusal> {
        self.solo.seek(&mut self.handle, Seek::Set(0))
    }

    fn fsync(&mut self) -> Result<(), Refusal> {
        self.solo.fsync(&mut self.handle)
    }

    fn fsync_range(&mut self) -> Result<(), Refusal> {
        self.solo
            .fsync_range(&mut self.handle, PageIndex(5), PageIndex(4))
    }

    fn poll_error(&mut self) -> Result<Option<ErrCode>, Refusal> {
        self.solo.poll_error(&mut self.handle)
    }

    /// Whether the handle comes back from close.
    fn comes_back(self) -> bool {
        let Visit { mut solo, handle } = self;
        matches!(solo.close(handle), Err((Refusal::BadHandle, _)))
    }
}

/// A service of this name with no file.
fn service(alloc: Global, name: u64) -> Result<Solo<MemDevice>, Refusal>
    ensures { IfOk result (λ s. s.world.core.name ≡ name) }
{
    let geometry = Geometry::new(16, 48, 16, 64)?;
    let device = MemDevice::new(alloc, 16, 64)?;
    let Ok(solo) = Solo::new(alloc, &geometry, name, device) else {
        return Err(Refusal::Memory);
    };
    Ok(solo)
}

/// Makes the first file.
fn create(solo: &mut Solo<MemDevice>) -> Result<FileId, Refusal>
    ensures { solo.new.world.core.name ≡ solo.old.world.core.name }
{
    solo.create()
}

/// Opens the first file.
fn open(solo: &mut Solo<MemDevice>) -> Result<Handle, Refusal>
    ensures { IfOk result (λ h. h.cache ≡ solo.old.world.core.name) }
{
    solo.open(FileId(0), false)
}

/// A handle of another service, which has a file with this number, too.
fn stranger(alloc: Global) -> Result<Handle, Refusal>
    ensures { IfOk result (λ h. h.cache ≡ 8) }
{
    let mut other = Box::new(alloc, service(alloc, 8)?)?;
    create(&mut other)?;
    open(&mut other)
}

fn visiting(alloc: Global) -> Result<Visit, Refusal> {
    let mut solo = Box::new(alloc, service(alloc, 7)?)?;
    create(&mut solo)?;
    let handle = stranger(alloc)?;
    Ok(Visit { solo, handle })
}

// A handle of another service is refused, and comes back from close.
fn refuses_a_stranger(rt: &impl Abort, visit: &mut Visit) {
    let mut out = [0; 1];
    same(rt, visit.read(&mut out), Err(Refusal::BadHandle));
    same(rt, visit.write(&[1]), Err(Refusal::BadHandle));
    same(rt, visit.pread(&mut out), Err(Refusal::BadHandle));
    same(rt, visit.pwrite(&[1]), Err(Refusal::BadHandle));
    same(rt, visit.truncate(), Err(Refusal::BadHandle));
    same(rt, visit.seek(), Err(Refusal::BadHandle));
    same(rt, visit.fsync(), Err(Refusal::BadHandle));
    same(rt, visit.fsync_range(), Err(Refusal::BadHandle));
    same(rt, visit.poll_error(), Err(Refusal::BadHandle));
}

#[test]
fn a_stranger_is_refused(rt: HostRuntime) -> Result<(), Refusal> {
    let mut visit = visiting(rt.alloc())?;
    refuses_a_stranger(&rt, &mut visit);
    check(&rt, visit.comes_back());
    Ok(())
}

fn lacks_a_file(rt: &impl Abort, solo: &mut Solo<MemDevice>) {
    let refused = solo.open(FileId(1), false);
    check(rt, matches!(refused, Err(Refusal::NoSuchFile)));
    let refused = solo.open(FileId(64), false);
    check(rt, matches!(refused, Err(Refusal::NoSuchFile)));
}

#[test]
fn a_file_that_is_not_there_is_refused(rt: HostRuntime) -> Result<(), Refusal> {
    let Visit { mut solo, .. } = visiting(rt.alloc())?;
    lacks_a_file(&rt, &mut solo);
    Ok(())
}
