//! The rows of the device over a file, each beside the same calls over std.

ghost use Rattle.std.specs.Prelude.{◌≡◌, ◌<◌, IfOk, length};

use bench_timing::Fault;
use blockdev::{BlockDevice, FileDevice};
use pc_types::BlockNo;
use std::alloc::Global;
use std::fs;
use std::fs::{File, Files, OpenOptions};
use std::os::unix::fs::FileExt;

/// How many blocks of 4,096 bytes a round touches.
pub const BLOCKS: u32 = 16_384;

const SIZE: u64 = 4_096;

/// A file, and a device over it.
#[derive(Drop)]
pub struct Disk {
    device: FileDevice,
    file: File,
    bytes: Vec<u8>,
    ghost sized: { (device.told.size ≡ 4096) × (device.told.count ≡ 16384) },
    ghost one: { length bytes.items ≡ 4096 },
}

impl Disk {
    /// The file at the path is made anew, each of its blocks written.
    pub fn new<R: Files<File = File>>(rt: &R, alloc: Global, path: &str) -> Result<Disk, Fault> {
        fs::write(rt, path, "")?;
        let bytes = vec![in alloc; 7; SIZE as usize]?;
        let device = FileDevice::open(rt, alloc, path, SIZE, u64::from(BLOCKS))?;
        let file = OpenOptions::new().read(true).write(true).open(rt, path)?;
        let mut disk = Disk {
            device,
            file,
            bytes,
        };
        disk.write_plain()?;
        Ok(disk)
    }

    #[inline(never)]
    fn write(&mut self) -> Result<(), Fault> {
        for i in 0..BLOCKS {
            self.device.write(scattered(i), &self.bytes)?;
        }
        Ok(())
    }

    #[inline(never)]
    fn write_plain(&mut self) -> Result<(), Fault> {
        for i in 0..BLOCKS {
            self.file.write_all_at(&self.bytes, place_of(scattered(i)))?;
        }
        Ok(())
    }

    #[inline(never)]
    fn read(&mut self) -> Result<(), Fault> {
        for i in 0..BLOCKS {
            self.device.read(scattered(i), &mut self.bytes)?;
        }
        Ok(())
    }

    #[inline(never)]
    fn read_plain(&mut self) -> Result<(), Fault> {
        for i in 0..BLOCKS {
            self.file
                .read_exact_at(&mut self.bytes, place_of(scattered(i)))?;
        }
        Ok(())
    }
}

#[derive(Clone, Copy, PartialEq, Eq, Debug)]
pub enum DiskRow {
    Write,
    WritePlain,
    Read,
    ReadPlain,
}

impl DiskRow {
    pub const ALL: [DiskRow; 4] = [
        DiskRow::Write,
        DiskRow::WritePlain,
        DiskRow::Read,
        DiskRow::ReadPlain,
    ];

    pub fn label(self) -> &'static str {
        match self {
            DiskRow::Write => "write of a block of 4,096 bytes, FileDevice",
            DiskRow::WritePlain => "write_all_at of 4,096 bytes",
            DiskRow::Read => "read of a block of 4,096 bytes, FileDevice",
            DiskRow::ReadPlain => "read_exact_at of 4,096 bytes",
        }
    }

    /// Makes the row's call once for each block, and gives the sum of the first bytes that were read or written last.
    pub fn run(self, disk: &mut Disk) -> Result<u64, Fault> {
        match self {
            DiskRow::Write => disk.write()?,
            DiskRow::WritePlain => disk.write_plain()?,
            DiskRow::Read => disk.read()?,
            DiskRow::ReadPlain => disk.read_plain()?,
        }
        Ok(u64::from(disk.bytes[0]))
    }
}

/// The blocks in an order that jumps. Each comes once in a round.
fn scattered(i: u32) -> BlockNo
    ensures { result.0 < 16384 }
{
    BlockNo(i.wrapping_mul(7_919) % BLOCKS)
}

fn place_of(block: BlockNo) -> u64 {
    u64::from(block.0) * SIZE
}
