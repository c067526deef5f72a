//! Parts of a file of the system, and devices over them.

ghost use Rattle.std.specs.Prelude.{◌≡◌, ◌<◌, ◌+◌, ◌*◌, ◌^◌, ◌⊎◌, None, IfErr, IfOk, IfSome, IsOkUnless};
ghost use Rattle.blockdev.specs.Files.{over_file};

use crate::part::FilePart;
use blockdev::{FileDevice, SystemFile};
use pc_types::{ErrCode, Refusal};
use std::alloc::Global;
use std::fs::{File, Files, OpenOptions};
use std::io::{self, Seek, SeekFrom};
use std::os::unix::fs::FileTypeExt;
use std::path::AsPath;

/// The most bytes that the system counts in a file.
const MAX_BYTES: u64 = i64::MAX as u64;

/// A device of `count` blocks of the file at the path, from block `first` on. The file is opened anew, and has these blocks
/// already: it is not made longer. `Io` with code 5: the path can't be opened for reading and writing, is neither a regular file nor a
/// block special file, or has not so many blocks; or a block has no bytes. Nothing is left open then.
///
/// Devices of one file that share no block may be used at the same time. Whether they share one is not looked at, and what one of
/// them writes no clause tells of another. A flush is of the whole file: it may fail for a write of another device, and that
/// device's own flush fails for it as well.
///
/// It takes one block's bytes here, and no memory later. No byte of the file is read here.
pub fn open_part<R: Files<File = File>, P: AsPath>(
    files: &R,
    alloc: Global,
    path: P,
    block_size: u64,
    first: u64,
    count: u64,
) -> Result<FileDevice<FilePart>, Refusal>
    ensures opened { IfOk result (λ d. d ≡ over_file block_size count None None) }
    ensures sized { IfOk result (λ d. (0 < block_size) × (block_size * (first + count) < 2 ^ 63)) }
    ensures refused { IfErr result (λ r. (r ≡ Refusal.Memory) ⊎ (r ≡ Refusal.Io 5)) }
{
    let part = FilePart::open(files, path, block_size, first, count)?;
    let spare = vec![in alloc; 0; block_size as usize]?;
    Ok(FileDevice::new(part, block_size, count, spare))
}

impl FilePart {
    /// The part of the file at the path that these blocks take, as `open_part` opens it.
    pub fn open<R: Files<File = File>, P: AsPath>(
        files: &R,
        path: P,
        block_size: u64,
        first: u64,
        count: u64,
    ) -> Result<FilePart, Refusal>
        ensures place { IfOk result (λ p. (p.first ≡ first * block_size) × (p.len ≡ count * block_size)) }
        ensures sized { IfOk result (λ p. (0 < block_size) × (block_size * (first + count) < 2 ^ 63)) }
        ensures refused { IsOkUnless result (Refusal.Io 5) }
    {
        let Some(end) = end_of(block_size, first, count) else {
            return Err(Refusal::Io(ErrCode::IO));
        };
        let Ok(file) = open_long(files, path, end) else {
            return Err(Refusal::Io(ErrCode::IO));
        };
        let file = SystemFile::new(file);
        Ok(FilePart::new(file, first * block_size, count * block_size))
    }
}

/// Bytes of a file before the end of the blocks, where blocks have bytes and the system counts so many.
fn end_of(block_size: u64, first: u64, count: u64) -> Option<u64>
    ensures { IfSome result (λ end. (0 < block_size) × (end ≡ block_size * (first + count)) × (end < 2 ^ 63)) }
{
    let end = first.checked_add(count)?.checked_mul(block_size)?;
    if block_size == 0 || end > MAX_BYTES {
        return None;
    }
    Some(end)
}

/// Opens a file that has as many bytes.
fn open_long<R: Files<File = File>, P: AsPath>(files: &R, path: P, bytes: u64) -> io::Result<File> {
    let mut file = OpenOptions::new().read(true).write(true).open(files, path)?;
    let kind = file.metadata()?.file_type();
    // The length of a block special file is told by its end alone.
    let has_length = kind.is_file() || kind.is_block_device();
    if has_length && file.seek(SeekFrom::End(0))? >= bytes {
        return Ok(file);
    }
    Err(io::Error::from(io::ErrorKind::InvalidInput))
}
