//! The device of a cache: blocks in memory, or one whose calls C makes.

ghost use Rattle.std.specs.Prelude.{◌≡◌, ◌<◌, length};
ghost use Rattle.blockdev.specs.Device.{Reads, Writes, Flushes};
ghost use Rattle.pcache_c.specs.Stores.{told_of};

use blockdev::{BlockDevice, MemDevice};
use pc_types::{BlockNo, ErrCode};
use relay::RelayDevice;

#[derive(Drop)]
pub enum Store {
    Memory(MemDevice),
    Relay(RelayDevice),
}

impl BlockDevice for Store {
    ghost told = { λ s. told_of s };

    fn block_size(&self) -> u64 {
        match self {
            Store::Memory(device) => device.block_size(),
            Store::Relay(device) => device.block_size(),
        }
    }

    fn blocks(&self) -> u64 {
        match self {
            Store::Memory(device) => device.blocks(),
            Store::Relay(device) => device.blocks(),
        }
    }

    fn faults(&self) -> u64 {
        match self {
            Store::Memory(device) => device.faults(),
            Store::Relay(device) => device.faults(),
        }
    }

    fn calls(&self) -> u64 {
        match self {
            Store::Memory(device) => device.calls(),
            Store::Relay(device) => device.calls(),
        }
    }

    fn flushes(&self) -> u64 {
        match self {
            Store::Memory(device) => device.flushes(),
            Store::Relay(device) => device.flushes(),
        }
    }

    fn read(&mut self, block: BlockNo, out: &mut [u8]) -> Result<(), ErrCode> {
        match self {
            Store::Memory(device) => device.read(block, out),
            Store::Relay(device) => device.read(block, out),
        }
    }

    fn write(&mut self, block: BlockNo, bytes: &[u8]) -> Result<(), ErrCode> {
        match self {
            Store::Memory(device) => device.write(block, bytes),
            Store::Relay(device) => device.write(block, bytes),
        }
    }

    fn flush(&mut self) -> Result<(), ErrCode> {
        match self {
            Store::Memory(device) => device.flush(),
            Store::Relay(device) => device.flush(),
        }
    }
}
