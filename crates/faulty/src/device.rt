//! The device.

ghost use Rattle.std.specs.Prelude.{◌≡◌};
ghost use Rattle.faulty.specs.Faulty.{faulty};

use blockdev::BlockDevice;
use pc_types::{BlockNo, ErrCode};
use std::marker::Model;

/// A device of whose reads, writes and flushes each fails whose number among all of them is a multiple of `every`, and none where
/// `every` is 0. A write that fails leaves the old bytes and the new ones by turns.
#[derive(Drop)]
pub struct FaultyDevice<D: BlockDevice> {
    device: D,
    every: u64,
    calls: u64,
    faults: u64,
    flushes: u64,
    flush_faults: u64,
}

impl<D: BlockDevice> Model for FaultyDevice<D> {
    ghost use Rattle.std.specs.Prelude.{◌≤◌, ◌+◌, None};
    ghost use Rattle.blockdev.specs.Device.{Told};

    ghost Value = { Told };

    ghost view = { λ d. record (D.told d.device) { plan = None; flush_plan = None; calls = d.calls; flushes = d.flushes; faults = d.faults + d.flush_faults } };

    ghost invariant = { λ d. (d.faults ≤ d.calls) × (d.flush_faults ≤ d.flushes) };
}

impl<D: BlockDevice> FaultyDevice<D> {
    /// The device, no call made yet.
    pub fn new(device: D, every: u64) -> FaultyDevice<D>
        ensures { result ≡ faulty (D.told device) }
    {
        FaultyDevice {
            device,
            every,
            calls: 0,
            faults: 0,
            flushes: 0,
            flush_faults: 0,
        }
    }

    /// The device below, with which nothing more is done here.
    pub fn into_device(self) -> D
        ensures { ((D.told result).size ≡ self.size) × ((D.told result).count ≡ self.count) × ((D.told result).contents ≡ self.contents) }
    {
        self.device
    }

    /// Whether the call that was counted last is to fail.
    fn is_chosen(&self) -> bool {
        self.every > 0 && self.calls.wrapping_add(self.flushes) % self.every == 0
    }
}

impl<D: BlockDevice> BlockDevice for FaultyDevice<D> {
    ghost told = { λ d. d };

    fn block_size(&self) -> u64 {
        self.device.block_size()
    }

    fn blocks(&self) -> u64 {
        self.device.blocks()
    }

    fn faults(&self) -> u64 {
        self.faults.saturating_add(self.flush_faults)
    }

    fn calls(&self) -> u64 {
        self.calls
    }

    fn flushes(&self) -> u64 {
        self.flushes
    }

    #[tactic(auto, using(blockdev::proofs::DurableLemmas::settles_kept))]
    fn read(&mut self, block: BlockNo, out: &mut [u8]) -> Result<(), ErrCode> {
        if self.calls == u64::MAX {
            return Err(ErrCode::IO);
        }
        self.calls += 1;
        let read = if self.is_chosen() {
            Err(ErrCode::IO)
        } else {
            self.device.read(block, out)
        };
        if read.is_err() {
            self.faults += 1;
        }
        read
    }

    #[tactic(auto, using(blockdev::proofs::DurableLemmas::settles_kept))]
    fn write(&mut self, block: BlockNo, bytes: &[u8]) -> Result<(), ErrCode> {
        if self.calls == u64::MAX {
            return Err(ErrCode::IO);
        }
        self.calls += 1;
        let fails = self.is_chosen();
        let keeps_old = fails && self.faults % 2 == 0;
        let written = if keeps_old {
            Err(ErrCode::IO)
        } else {
            self.device.write(block, bytes)
        };
        if fails || written.is_err() {
            self.faults += 1;
            return Err(ErrCode::IO);
        }
        Ok(())
    }

    #[tactic(auto, using(blockdev::proofs::DurableLemmas::settles_kept))]
    fn flush(&mut self) -> Result<(), ErrCode> {
        if self.flushes == u64::MAX {
            return Err(ErrCode::IO);
        }
        self.flushes += 1;
        let flushed = if self.is_chosen() {
            Err(ErrCode::IO)
        } else {
            self.device.flush()
        };
        if flushed.is_err() {
            self.flush_faults += 1;
        }
        flushed
    }
}
