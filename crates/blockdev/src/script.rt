//! A device in memory that fails when it is told to.

ghost use Rattle.std.specs.Prelude.{◌≡◌, ◌<◌, ◌∷◌, [], IfOk, IfSome, OnErr, IsOkUnless, length};
ghost use Rattle.blockdev.specs.Device.{Reads, Writes, Flushes, fresh, max_calls};
ghost use Rattle.blockdev.specs.Script.{Begins};
ghost use Rattle.blockdev.specs.Blocks.{block_at};

use crate::blocks::Blocks;
use crate::device::BlockDevice;
use crate::fault::{Fault, FaultEffect};
use pc_types::{BlockNo, ErrCode, Refusal};
use std::alloc::Global;
use std::marker::Model;
use std::snapshot::Snapshot;

/// A device in memory whose next call fails where `fail_next` said so, and its next flush where `fail_next_flush` did. It takes as much memory as a `MemDevice`.
#[derive(Drop)]
pub struct ScriptDevice {
    blocks: Blocks,
    /// As they were at the last flush that ended well. It has no bytes.
    flushed: Snapshot<Blocks>,
    planned: Option<Fault>,
    planned_flush: Option<ErrCode>,
    calls: u64,
    /// No more than `calls`.
    faults: u64,
    flushes: u64,
    /// No more than `flushes`.
    flush_faults: u64,
}

impl Model for ScriptDevice {
    ghost use Rattle.std.specs.Prelude.{[], ◌∷◌, ◌≤◌, ◌+◌, Some, length};
    ghost use Rattle.blockdev.specs.Device.{Told};
    ghost use Rattle.blockdev.specs.Script.{plan_of};

    ghost Value = { Told };

    ghost view = { λ d. record { size = d.blocks.size; count = length d.blocks.blocks; contents = Some d.blocks.blocks; plan = Some (plan_of d.planned); durable = Some d.flushed.value.blocks; flush_plan = Some d.planned_flush; calls = d.calls; flushes = d.flushes; faults = d.faults + d.flush_faults } };

    ghost invariant = { λ d. (d.faults ≤ d.calls) × (d.flush_faults ≤ d.flushes) };
}

impl ScriptDevice {
    /// A device of zeros with no fault planned. Refused by `Memory` where there is no room for its bytes, or they can't
    /// be addressed.
    pub fn new(alloc: Global, block_size: u64, blocks: u64) -> Result<ScriptDevice, Refusal>
        ensures fresh { IfOk result (λ d. d ≡ fresh block_size blocks) }
        ensures refused { IsOkUnless result Refusal.Memory }
    {
        let blocks = Blocks::zeros(alloc, block_size, blocks)?;
        Ok(ScriptDevice {
            flushed: Snapshot::of(&blocks),
            blocks,
            planned: None,
            planned_flush: None,
            calls: 0,
            faults: 0,
            flushes: 0,
            flush_faults: 0,
        })
    }

    /// Makes the next call fail with the code. Where a fault was planned for it, this one takes its place.
    pub fn fail_next(&mut self, code: ErrCode, effect: FaultEffect)
        ensures { self.new ≡ record self.old { plan = Some (Some (record { code = code; effect = effect }) ∷ []) } }
    {
        self.planned = Some(Fault { code, effect });
    }

    /// Makes the next flush fail with the code.
    pub fn fail_next_flush(&mut self, code: ErrCode)
        ensures { self.new ≡ record self.old { flush_plan = Some (Some code) } }
    {
        self.planned_flush = Some(code);
    }

    /// The bytes of a block, which is no call.
    pub fn bytes(&self, block: BlockNo) -> &[u8]
        requires { block.0 < self.now.count }
        ensures { IfSome self.now.contents (λ blocks. result.now ≡ block_at blocks block.0) }
    {
        self.blocks.get(block.0)
    }

    /// Counts a call, and the fault that was planned for it, which is answered. Fails where the call can't be counted.
    fn begin_call(&mut self) -> Result<Option<Fault>, ErrCode>
        ensures begun { IfOk result (λ fault. Begins self.old fault self.new) }
        ensures exhausted { OnErr result ((self.old.calls ≡ max_calls) × (self.new ≡ self.old)) }
        ensures code { IsOkUnless result 5 }
    {
        if self.calls == u64::MAX {
            return Err(ErrCode::IO);
        }
        self.calls += 1;
        let fault = self.planned.take();
        if fault.is_some() {
            self.faults += 1;
        }
        Ok(fault)
    }
}

impl BlockDevice for ScriptDevice {
    ghost told = { λ d. d };

    fn block_size(&self) -> u64 {
        self.blocks.size()
    }

    fn blocks(&self) -> u64 {
        self.blocks.count()
    }

    fn faults(&self) -> u64 {
        self.faults.saturating_add(self.flush_faults)
    }

    fn calls(&self) -> u64 {
        self.calls
    }

    fn flushes(&self) -> u64 {
        self.flushes
    }

    #[tactic(auto, using(crate::proofs::DurableLemmas::settles_kept))]
    fn read(&mut self, block: BlockNo, out: &mut [u8]) -> Result<(), ErrCode>
        requires exists { block.0 < self.old.count }
        requires size { length out.old ≡ self.old.size }
        ensures read { Reads self.old block.0 out.old result out.new self.new }
        ensures durable { self.new.durable ≡ self.old.durable }
    {
        match self.begin_call()? {
            None => {
                out.copy_from_slice(self.blocks.get(block.0));
                Ok(())
            }
            Some(fault) => Err(fault.code),
        }
    }

    #[tactic(auto, using(crate::proofs::DurableLemmas::settles_kept))]
    fn write(&mut self, block: BlockNo, bytes: &[u8]) -> Result<(), ErrCode>
        requires exists { block.0 < self.old.count }
        requires size { length bytes.now ≡ self.old.size }
        ensures write { Writes self.old block.0 bytes.now result self.new }
        ensures durable { self.new.durable ≡ self.old.durable }
    {
        match self.begin_call()? {
            None => {
                self.blocks.set(block.0, bytes);
                Ok(())
            }
            Some(fault) => {
                if fault.effect == FaultEffect::New {
                    self.blocks.set(block.0, bytes);
                }
                Err(fault.code)
            }
        }
    }

    #[tactic(auto, using(crate::proofs::DurableLemmas::settles_kept))]
    fn flush(&mut self) -> Result<(), ErrCode>
        ensures flush { Flushes self.old result self.new }
        ensures kept { OnErr result (self.new.durable ≡ self.old.durable) }
    {
        if self.flushes == u64::MAX {
            return Err(ErrCode::IO);
        }
        self.flushes += 1;
        match self.planned_flush.take() {
            None => {
                self.flushed = Snapshot::of(&self.blocks);
                Ok(())
            }
            Some(code) => {
                self.flush_faults += 1;
                Err(code)
            }
        }
    }
}
