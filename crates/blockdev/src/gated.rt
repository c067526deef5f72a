//! A device whose reads and writes pass a gate, so that a test can hold one of them, and a gate that holds none.

ghost use Rattle.std.specs.Prelude.{◌≡◌, ◌<◌, ℕ, length};
ghost use Rattle.blockdev.specs.Device.{Reads, Writes};

use crate::device::BlockDevice;
use pc_types::{BlockNo, ErrCode};

/// What holds a call until it lets it go on.
pub trait Gate: Drop {
    /// That a call with this number was let through. A gate that tells nothing has what always holds.
    ghost passed: { Self → ℕ → Type 0 };

    /// Comes back once the call with this number may go on.
    fn enter(&self, number: u64)
        ensures { Self.passed self.now number };
}

/// A gate that lets each call go on at once, for workers that nobody holds.
#[derive(Drop)]
pub struct OpenGate;

impl Gate for OpenGate {
    ghost use Rattle.std.specs.Prelude.{⊤};

    ghost passed = { λ _ _. ⊤ };

    fn enter(&self, _number: u64) {}
}

/// Any device, behind a gate. The gate is told how many calls were made before this one.
#[derive(Drop)]
pub struct GatedDevice<D: BlockDevice, G: Gate> {
    device: D,
    gate: G,
}

impl<D: BlockDevice, G: Gate> GatedDevice<D, G> {
    pub fn new(device: D, gate: G) -> GatedDevice<D, G>
        ensures { (result.device ≡ device) × (result.gate ≡ gate) }
    {
        GatedDevice { device, gate }
    }

    pub fn gate(&self) -> &G
        ensures { result.now ≡ self.now.gate }
    {
        &self.gate
    }

    /// Passes the gate, before the device is called.
    fn pass(&self)
        ensures { G.passed self.now.gate (D.told self.now.device).calls }
    {
        self.gate.enter(self.device.calls());
    }
}

impl<D: BlockDevice, G: Gate> BlockDevice for GatedDevice<D, G> {
    ghost told = { λ d. D.told d.device };

    fn block_size(&self) -> u64 {
        self.device.block_size()
    }

    fn blocks(&self) -> u64 {
        self.device.blocks()
    }

    fn faults(&self) -> u64 {
        self.device.faults()
    }

    fn calls(&self) -> u64 {
        self.device.calls()
    }

    fn flushes(&self) -> u64 {
        self.device.flushes()
    }

    fn read(&mut self, block: BlockNo, out: &mut [u8]) -> Result<(), ErrCode>
        requires exists { block.0 < (D.told self.old.device).count }
        requires size { length out.old ≡ (D.told self.old.device).size }
        ensures read { Reads (D.told self.old.device) block.0 out.old result out.new (D.told self.new.device) }
        ensures gate { (self.new.gate ≡ self.old.gate) × G.passed self.new.gate (D.told self.old.device).calls }
    {
        self.pass();
        self.device.read(block, out)
    }

    fn write(&mut self, block: BlockNo, bytes: &[u8]) -> Result<(), ErrCode>
        requires exists { block.0 < (D.told self.old.device).count }
        requires size { length bytes.now ≡ (D.told self.old.device).size }
        ensures write { Writes (D.told self.old.device) block.0 bytes.now result (D.told self.new.device) }
        ensures gate { (self.new.gate ≡ self.old.gate) × G.passed self.new.gate (D.told self.old.device).calls }
    {
        self.pass();
        self.device.write(block, bytes)
    }

    fn flush(&mut self) -> Result<(), ErrCode> {
        self.device.flush()
    }
}
