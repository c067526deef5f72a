//! A device in memory that never fails.

ghost use Rattle.std.specs.Prelude.{◌≡◌, ◌<◌, IfOk, IsOkUnless, length};
ghost use Rattle.blockdev.specs.Device.{Reads, Writes, fresh};

use crate::blocks::Blocks;
use crate::device::BlockDevice;
use pc_types::{BlockNo, ErrCode, Refusal};
use std::alloc::Global;
use std::marker::Model;
use std::snapshot::Snapshot;

/// A device in memory. Its calls never fail, but for those past the last that can be counted.
///
/// It takes `block_size * blocks` bytes, in one piece, when it is made, and no memory later: a device of 2^32 blocks of
/// 16 bytes takes 64 GiB. So a call never wants for memory, and what the device tells does not depend on it.
#[derive(Drop)]
pub struct MemDevice {
    blocks: Blocks,
    /// As they were at the last flush. It has no bytes.
    flushed: Snapshot<Blocks>,
    calls: u64,
    flushes: u64,
}

impl Model for MemDevice {
    ghost use Rattle.std.specs.Prelude.{[], Some, None, length};
    ghost use Rattle.blockdev.specs.Device.{Told};

    ghost Value = { Told };

    ghost view = { λ d. record { size = d.blocks.size; count = length d.blocks.blocks; contents = Some d.blocks.blocks; plan = Some []; durable = Some d.flushed.value.blocks; flush_plan = Some None; calls = d.calls; flushes = d.flushes; faults = 0 } };
}

impl MemDevice {
    /// A device of zeros, `block_size` bytes a block. Refused by `Memory` where there is no room for its bytes, or they can't be addressed.
    pub fn new(alloc: Global, block_size: u64, blocks: u64) -> Result<MemDevice, Refusal>
        ensures fresh { IfOk result (λ d. d ≡ fresh block_size blocks) }
        ensures refused { IsOkUnless result Refusal.Memory }
    {
        let blocks = Blocks::zeros(alloc, block_size, blocks)?;
        Ok(MemDevice {
            flushed: Snapshot::of(&blocks),
            blocks,
            calls: 0,
            flushes: 0,
        })
    }
}

impl BlockDevice for MemDevice {
    ghost told = { λ d. d };

    fn block_size(&self) -> u64 {
        self.blocks.size()
    }

    fn blocks(&self) -> u64 {
        self.blocks.count()
    }

    fn faults(&self) -> u64 {
        // Opens `self`, whose view says that no fault was ever counted.
        let _ = &self.calls;
        0
    }

    fn calls(&self) -> u64 {
        self.calls
    }

    fn flushes(&self) -> u64 {
        self.flushes
    }

    #[tactic(auto, using(crate::proofs::DurableLemmas::settles_kept))]
    fn read(&mut self, block: BlockNo, out: &mut [u8]) -> Result<(), ErrCode>
        requires exists { block.0 < self.old.count }
        requires size { length out.old ≡ self.old.size }
        ensures read { Reads self.old block.0 out.old result out.new self.new }
        ensures durable { self.new.durable ≡ self.old.durable }
    {
        if self.calls == u64::MAX {
            return Err(ErrCode::IO);
        }
        self.calls += 1;
        out.copy_from_slice(self.blocks.get(block.0));
        Ok(())
    }

    #[tactic(auto, using(crate::proofs::DurableLemmas::settles_kept))]
    fn write(&mut self, block: BlockNo, bytes: &[u8]) -> Result<(), ErrCode>
        requires exists { block.0 < self.old.count }
        requires size { length bytes.now ≡ self.old.size }
        ensures write { Writes self.old block.0 bytes.now result self.new }
        ensures durable { self.new.durable ≡ self.old.durable }
    {
        if self.calls == u64::MAX {
            return Err(ErrCode::IO);
        }
        self.calls += 1;
        self.blocks.set(block.0, bytes);
        Ok(())
    }

    fn flush(&mut self) -> Result<(), ErrCode> {
        if self.flushes == u64::MAX {
            return Err(ErrCode::IO);
        }
        self.flushes += 1;
        self.flushed = Snapshot::of(&self.blocks);
        Ok(())
    }
}
