//! A device, with a note whether anything was written to it since it was last flushed well.

ghost use Rattle.std.specs.Prelude.{◌≡◌, ◌<◌, ◌≤◌, ◌∷◌, [], true, false, OnOk, Ok, length};
ghost use Rattle.blockdev.specs.Device.{Reads, Writes};
ghost use Rattle.blockdev.specs.Watching.{Clears, Makes, first_watch};

use crate::device::BlockDevice;
use crate::fault::FaultEffect;
use crate::job::{Finished, Job, perform};
use crate::script::ScriptDevice;
use pc_types::{BlockNo, ErrCode, Kind};
use std::marker::Model;

/// A device, and whether a write was made since the last flush that ended well.
#[derive(Drop)]
pub struct Watched<D: BlockDevice> {
    device: D,
    is_written: bool,
}

impl<D: BlockDevice> Model for Watched<D> {
    ghost use Rattle.std.specs.Prelude.{◌≡◌, false};
    ghost use Rattle.blockdev.specs.Device.{Reads, Writes};
    ghost use Rattle.blockdev.specs.Watching.{Watch};

    ghost Value = { Watch };

    ghost view = { λ w. record { device = D.told w.device; unflushed = w.is_written } };

    // what was flushed and not written to since is durable
    ghost invariant = { λ w. w.is_written ≡ false → (D.told w.device).durable ≡ (D.told w.device).contents };
}

impl<D: BlockDevice> Watched<D> {
    /// A device that may have been written to before (decision 132).
    pub fn over(device: D) -> Watched<D>
        ensures { result ≡ first_watch (D.told device) }
    {
        Watched {
            device,
            is_written: true,
        }
    }

    /// The device, without the note.
    pub fn into_device(self) -> D
        ensures { D.told result ≡ self.device }
    {
        self.device
    }

    /// Makes the job's device call. A write is noted, since one that fails may have taken effect.
    #[tactic(auto, using(crate::proofs::DurableLemmas::stays_durable))]
    pub fn perform(&mut self, job: Job) -> Finished
        requires exists { job.block < self.old.device.count }
        requires size { length job.bytes ≡ self.old.device.size }
        ensures { Makes self.old job result self.new }
    {
        if job.kind() == Kind::Flush {
            self.is_written = true;
        }
        perform(&mut self.device, job)
    }

    /// Reads a block, for a caller that has a place for its bytes and wants no job.
    #[tactic(auto, using(crate::proofs::DurableLemmas::stays_durable))]
    pub fn read(&mut self, block: BlockNo, out: &mut [u8]) -> Result<(), ErrCode>
        requires exists { block.0 < self.old.device.count }
        requires size { length out.old ≡ self.old.device.size }
        ensures reads { Reads self.old.device block.0 out.old result out.new self.new.device }
        ensures unflushed { self.new.unflushed ≡ self.old.unflushed }
    {
        self.device.read(block, out)
    }

    /// Writes a block, for a caller that has its bytes at hand. It is noted, as in `perform`.
    pub fn write(&mut self, block: BlockNo, bytes: &[u8]) -> Result<(), ErrCode>
        requires exists { block.0 < self.old.device.count }
        requires size { length bytes.now ≡ self.old.device.size }
        ensures writes { Writes self.old.device block.0 bytes.now result self.new.device }
        ensures unflushed { self.new.unflushed ≡ true }
    {
        self.is_written = true;
        self.device.write(block, bytes)
    }

    /// Flushes the device.
    #[tactic(auto, using(crate::proofs::DurableLemmas::stays_durable))]
    pub fn flush(&mut self) -> Result<(), ErrCode>
        ensures cleared { Clears self.old result self.new }
        ensures durable { OnOk result (self.new.device.durable ≡ self.new.device.contents) }
    {
        self.device.flush()?;
        self.is_written = false;
        Ok(())
    }

    /// Flushes the device where a write is noted.
    pub fn flush_written(&mut self) -> Result<(), ErrCode>
        ensures written { self.old.unflushed ≡ true → Clears self.old result self.new }
        ensures unwritten { self.old.unflushed ≡ false → (result ≡ Ok tt) × (self.new ≡ self.old) }
        ensures durable { OnOk result (self.new.device.durable ≡ self.new.device.contents) }
        ensures faults { self.old.device.faults ≤ self.new.device.faults }
    {
        if !self.is_written {
            return Ok(());
        }
        // A flush that fails raises the faults where it is counted, and else changes nothing.
        prove!(self.device.flushes() <= u64::MAX);
        self.flush()
    }
}

impl Watched<ScriptDevice> {
    /// Makes the device's next call fail with the code.
    pub fn fail_next(&mut self, code: ErrCode, effect: FaultEffect)
        ensures { self.new ≡ record self.old { device = record self.old.device { plan = Some (Some (record { code = code; effect = effect }) ∷ []) } } }
    {
        self.device.fail_next(code, effect);
    }
}
