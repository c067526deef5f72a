//! Calls on a file, each by a handle of its own that is closed behind it.

ghost use Rattle.std.specs.Prelude.{IfOk};
ghost use Rattle.filesvc.specs.Service.{CameFrom, IsOpen};

use blockdev::BlockDevice;
use filesvc::{Handle, Seek, Solo};
use pc_types::{FileId, Refusal};

pub fn open<D: BlockDevice>(solo: &mut Solo<D>, file: u64, append: bool) -> Result<Handle, Refusal>
    ensures { IfOk result (IsOpen solo.new) }
{
    solo.open(FileId(file), append)
}

pub fn close<D: BlockDevice>(solo: &mut Solo<D>, handle: Handle)
    requires { CameFrom solo.old handle }
{
    let _ = solo.close(handle);
}

pub fn pread<D: BlockDevice>(
    solo: &mut Solo<D>,
    file: u64,
    offset: u64,
    out: &mut [u8],
) -> Result<u64, Refusal> {
    let handle = open(solo, file, false)?;
    let read = solo.pread(&handle, offset, out);
    close(solo, handle);
    read
}

pub fn pwrite<D: BlockDevice>(
    solo: &mut Solo<D>,
    file: u64,
    offset: u64,
    bytes: &[u8],
) -> Result<u64, Refusal> {
    let handle = open(solo, file, false)?;
    let written = solo.pwrite(&handle, offset, bytes);
    close(solo, handle);
    written
}

pub fn append<D: BlockDevice>(solo: &mut Solo<D>, file: u64, bytes: &[u8]) -> Result<u64, Refusal> {
    let mut handle = open(solo, file, true)?;
    let written = solo.write(&mut handle, bytes);
    close(solo, handle);
    written
}

pub fn truncate<D: BlockDevice>(solo: &mut Solo<D>, file: u64, size: u64) -> Result<(), Refusal> {
    let handle = open(solo, file, false)?;
    let cut = solo.truncate(&handle, size);
    close(solo, handle);
    cut
}

pub fn fsync<D: BlockDevice>(solo: &mut Solo<D>, file: u64) -> Result<(), Refusal> {
    let mut handle = open(solo, file, false)?;
    let synced = solo.fsync(&mut handle);
    close(solo, handle);
    synced
}

/// How long the file is.
pub fn size<D: BlockDevice>(solo: &mut Solo<D>, file: u64) -> Result<u64, Refusal> {
    let mut handle = open(solo, file, false)?;
    let size = solo.seek(&mut handle, Seek::End(0));
    close(solo, handle);
    size
}
