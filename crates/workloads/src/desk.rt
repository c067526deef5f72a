//! A service with files that are open, and a digest of what its calls answered.

ghost use Rattle.std.specs.Prelude.{◌<◌, All, IfOk};
ghost use Rattle.pc_types.specs.declared.limits.TheConstants.{MAX_FILES};
ghost use Rattle.filesvc.specs.Service.{IsOpen};

use crate::digest::Digest;
use bench_timing::Fault;
use blockdev::BlockDevice;
use filesvc::{Handle, Solo};
use pc_types::limits::MAX_FILES;
use pc_types::{FileId, Geometry, Refusal};
use std::alloc::Global;
use std::marker::Model;

/// How many bytes a call reads or writes at most: 16 pages of 4,096.
pub const MOST: usize = 65_536;

/// A service over a device, and the handles that it opened.
#[derive(Drop)]
pub struct Desk<D: BlockDevice> {
    solo: Solo<D>,
    handles: Vec<Handle>,
    digest: Digest,
}

impl<D: BlockDevice> Model for Desk<D> {
    ghost use Rattle.std.specs.Prelude.{All};
    ghost use Rattle.filesvc.specs.Service.{IsOpen};

    ghost Value = { Unit };

    ghost view = { λ d. tt };

    ghost invariant = { λ d. All (IsOpen d.solo) d.handles.items };
}

impl<D: BlockDevice> Desk<D> {
    /// A service with so many files, each of which so many handles have open. The handles of a file have numbers side by side.
    pub fn new(
        alloc: Global,
        geometry: &Geometry,
        device: D,
        files: u64,
        each: u64,
    ) -> Result<Desk<D>, Fault> {
        match Solo::new(alloc, geometry, 1, device) {
            Ok(solo) => Desk::of(alloc, solo, files, each),
            Err(refused) => {
                // by a call, as below
                drop(refused);
                Err(Fault::Memory)
            }
        }
    }

    fn of(alloc: Global, mut solo: Solo<D>, files: u64, each: u64) -> Result<Desk<D>, Fault> {
        let mut digest = Digest::new();
        match open_all(alloc, &mut solo, &mut digest, files, each) {
            Ok(handles) => Ok(Desk {
                solo,
                handles,
                digest,
            }),
            Err(fault) => {
                // by a call, since the check is slow where a service goes out of scope
                drop(solo);
                Err(fault)
            }
        }
    }

    pub fn digest(&self) -> Digest {
        self.digest
    }

    /// Reads so many bytes by a handle, as many as there is room for at most.
    #[inline(always)]
    pub fn read(&mut self, at: usize, offset: u64, count: usize, room: &mut [u8]) {
        let Some(handle) = self.handles.get(at) else {
            return;
        };
        let count = count.min(room.len());
        match self.solo.pread(handle, offset, &mut room[..count]) {
            Ok(count) => self.digest.add_read(&room[..count as usize]),
            Err(refusal) => self.digest.refuse(refusal),
        }
    }

    /// Writes the bytes by a handle.
    #[inline(always)]
    pub fn write(&mut self, at: usize, offset: u64, bytes: &[u8]) {
        let Some(handle) = self.handles.get(at) else {
            return;
        };
        self.digest
            .add_answer(self.solo.pwrite(handle, offset, bytes));
    }

    pub fn truncate(&mut self, at: usize, size: u64) {
        let Some(handle) = self.handles.get(at) else {
            return;
        };
        self.digest.add_done(self.solo.truncate(handle, size));
    }

    pub fn fsync(&mut self, at: usize) {
        if at >= self.handles.len() {
            return;
        }
        self.digest.add_done(self.solo.fsync(&mut self.handles[at]));
    }
}

/// Makes the files and opens each of them.
fn open_all<D: BlockDevice>(
    alloc: Global,
    solo: &mut Solo<D>,
    digest: &mut Digest,
    files: u64,
    each: u64,
) -> Result<Vec<Handle>, Fault>
    ensures { IfOk result (λ hs. All (IsOpen solo.new) hs.items) }
{
    for _ in 0..files {
        digest.add(solo.create()?.0);
    }
    let mut handles = Vec::new(alloc);
    for file in 0..files.min(MAX_FILES) {
        for _ in 0..each {
            open_one(solo, digest, &mut handles, FileId(file))?;
        }
    }
    Ok(handles)
}

/// Opens the file once more.
fn open_one<D: BlockDevice>(
    solo: &mut Solo<D>,
    digest: &mut Digest,
    handles: &mut Vec<Handle>,
    file: FileId,
) -> Result<(), Fault>
    requires file { file.0 < MAX_FILES }
    requires before { All (IsOpen solo.old) handles.old.items }
    ensures { All (IsOpen solo.new) handles.new.items }
{
    let handle = solo.open(file, false)?;
    digest.add_opened(handle.file().0, handle.cursor());
    match handles.push(handle) {
        Ok(()) => Ok(()),
        Err(_) => Err(Fault::Memory),
    }
}
