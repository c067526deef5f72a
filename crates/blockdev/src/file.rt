//! A device over a file of the system: a regular file, a partition, or a network block device that the system shows as one.
//!
//! What it holds is the file's bytes, cut into blocks, where the file tells them. A file of the system tells none (`raw`), so that
//! a device over one returns what was written to it is a premise.

ghost use Rattle.std.specs.Prelude.{◌≡◌, ◌<◌, ◌≤◌, ◌*◌, ◌^◌, ◌⊎◌, None, Err, true, false, IfErr, IfOk, IfSome, OnErr, OnOk, length, vec_len};
ghost use Rattle.blockdev.specs.Device.{Reads, Writes, Flushes};
ghost use Rattle.blockdev.specs.Files.{over_file};

use crate::device::BlockDevice;
use crate::raw::{RawFile, SystemFile};
use pc_types::{BlockNo, ErrCode, Refusal};
use std::alloc::Global;
use std::fs::{File, Files, OpenOptions};
use std::io::{self, Seek, SeekFrom};
use std::marker::Model;
use std::os::unix::fs::FileTypeExt;
use std::path::AsPath;

/// The most bytes that the system counts in a file.
const MAX_BYTES: u64 = i64::MAX as u64;

/// Blocks one after another in a file, from its beginning. Every fault has code 5.
#[derive(Drop)]
pub struct FileDevice<F: RawFile = SystemFile> {
    file: F,
    size: u64,
    count: u64,
    calls: u64,
    /// No more than `calls`.
    faults: u64,
    flushes: u64,
    /// No more than `flushes`.
    flush_faults: u64,
    /// A flush failed.
    is_broken: bool,
    /// A read goes here first, so that one that fails leaves its slice as it was.
    spare: Vec<u8>,
}

impl<F: RawFile> Model for FileDevice<F> {
    ghost use Rattle.std.specs.Prelude.{◌≡◌, ◌≤◌, ◌<◌, ◌+◌, ◌*◌, ◌^◌, None, IfSome, length};
    ghost use Rattle.blockdev.specs.Files.{FileSeen, told_blocks};

    ghost Value = { FileSeen };

    ghost view = { λ d. record { told = record { size = d.size; count = d.count; contents = told_blocks d.size d.count (F.bytes d.file); plan = None; durable = told_blocks d.size d.count (F.synced d.file); flush_plan = None; calls = d.calls; flushes = d.flushes; faults = d.faults + d.flush_faults }; is_broken = d.is_broken } };

    ghost invariant = { λ d. (d.faults ≤ d.calls) × (d.flush_faults ≤ d.flushes) × (length d.spare.items ≡ d.size) × (d.count * d.size < 2 ^ 63) × IfSome (F.bytes d.file) (λ all. d.count * d.size ≤ length all) };
}

impl FileDevice {
    /// A device over the file at the path, which is there. A regular file is made as long as the blocks where it is shorter,
    /// without taking room on the disk for them. `Io` with code 5: the path can't be opened for reading and writing, is neither a regular
    /// file nor a block special file, or has no room for the blocks; or a block has no bytes. Nothing is left open then.
    ///
    /// It takes one block's bytes here, and no memory later. No byte of the file is read here.
    pub fn open<R: Files<File = File>, P: AsPath>(
        files: &R,
        alloc: Global,
        path: P,
        block_size: u64,
        blocks: u64,
    ) -> Result<FileDevice, Refusal>
        ensures opened { IfOk result (λ d. d ≡ over_file block_size blocks None None) }
        ensures sized { IfOk result (λ d. (0 < block_size) × (block_size * blocks < 2 ^ 63)) }
        ensures refused { IfErr result (λ r. (r ≡ Refusal.Memory) ⊎ (r ≡ Refusal.Io 5)) }
    {
        let bytes = match block_size.checked_mul(blocks) {
            Some(bytes) if block_size > 0 && bytes <= MAX_BYTES => bytes,
            _ => return Err(Refusal::Io(ErrCode::IO)),
        };
        let spare = vec![in alloc; 0; block_size as usize]?;
        let Ok(file) = open_long(files, path, bytes) else {
            return Err(Refusal::Io(ErrCode::IO));
        };
        Ok(FileDevice::new(SystemFile::new(file), block_size, blocks, spare))
    }
}

/// Opens a file that has, or is given, as many bytes.
fn open_long<R: Files<File = File>, P: AsPath>(files: &R, path: P, bytes: u64) -> io::Result<File> {
    let mut file = OpenOptions::new().read(true).write(true).open(files, path)?;
    let metadata = file.metadata()?;
    let kind = metadata.file_type();
    if kind.is_file() {
        if metadata.len() < bytes {
            file.set_len(bytes)?;
        }
        return Ok(file);
    }
    // The length of a block special file is told by its end alone.
    if kind.is_block_device() && file.seek(SeekFrom::End(0))? >= bytes {
        return Ok(file);
    }
    Err(io::Error::from(io::ErrorKind::InvalidInput))
}

impl<F: RawFile> FileDevice<F> {
    /// A device over an open file which is long enough. `spare` is for the bytes of a block.
    pub fn new(file: F, size: u64, count: u64, spare: Vec<u8>) -> FileDevice<F>
        requires spare { vec_len spare ≡ size }
        requires within { count * size < 2 ^ 63 }
        requires long { IfSome (F.bytes file) (λ all. count * size ≤ length all) }
        ensures { result ≡ over_file size count (F.bytes file) (F.synced file) }
    {
        FileDevice {
            file,
            size,
            count,
            calls: 0,
            faults: 0,
            flushes: 0,
            flush_faults: 0,
            is_broken: false,
            spare,
        }
    }

    /// Bytes of the file before a block.
    fn offset(&self, block: BlockNo) -> u64
        requires { block.0 < self.now.told.count }
        ensures { result ≡ block.0 * self.now.told.size }
    {
        u64::from(block.0) * self.size
    }
}

impl<F: RawFile> BlockDevice for FileDevice<F> {
    ghost told = { λ d. d.told };

    fn block_size(&self) -> u64 {
        self.size
    }

    fn blocks(&self) -> u64 {
        self.count
    }

    fn faults(&self) -> u64 {
        self.faults.saturating_add(self.flush_faults)
    }

    fn calls(&self) -> u64 {
        self.calls
    }

    fn flushes(&self) -> u64 {
        self.flushes
    }

    fn read(&mut self, block: BlockNo, out: &mut [u8]) -> Result<(), ErrCode>
        requires exists { block.0 < self.old.told.count }
        requires size { length out.old ≡ self.old.told.size }
        ensures read { Reads self.old.told block.0 out.old result out.new self.new.told }
        ensures code { IfErr result (λ code. code ≡ 5) }
        ensures broken { self.new.is_broken ≡ self.old.is_broken }
    {
        if self.calls == u64::MAX {
            return Err(ErrCode::IO);
        }
        self.calls += 1;
        let offset = self.offset(block);
        if self.file.read_at(&mut self.spare, offset) {
            out.copy_from_slice(&self.spare);
            return Ok(());
        }
        self.faults += 1;
        Err(ErrCode::IO)
    }

    fn write(&mut self, block: BlockNo, bytes: &[u8]) -> Result<(), ErrCode>
        requires exists { block.0 < self.old.told.count }
        requires size { length bytes.now ≡ self.old.told.size }
        ensures write { Writes self.old.told block.0 bytes.now result self.new.told }
        ensures code { IfErr result (λ code. code ≡ 5) }
        ensures broken { self.new.is_broken ≡ self.old.is_broken }
    {
        if self.calls == u64::MAX {
            return Err(ErrCode::IO);
        }
        self.calls += 1;
        let offset = self.offset(block);
        if self.file.write_at(bytes, offset) {
            return Ok(());
        }
        self.faults += 1;
        Err(ErrCode::IO)
    }

    /// After one failure it answers that for ever: the system may have dropped the pages that it could not write, and would
    /// call a later flush a success (decision 108).
    fn flush(&mut self) -> Result<(), ErrCode>
        ensures flush { Flushes self.old.told result self.new.told }
        ensures code { IfErr result (λ code. code ≡ 5) }
        ensures stays_broken { self.old.is_broken ≡ true → result ≡ Err 5 }
        ensures broken { OnErr result (self.new.is_broken ≡ true) }
        ensures well { OnOk result (self.new.is_broken ≡ false) }
    {
        if self.flushes == u64::MAX {
            self.is_broken = true;
            return Err(ErrCode::IO);
        }
        self.flushes += 1;
        if !self.is_broken && self.file.sync() {
            return Ok(());
        }
        self.is_broken = true;
        self.flush_faults += 1;
        Err(ErrCode::IO)
    }
}
