//! The device of a shared cache, as it lies under its lock.

ghost use Rattle.std.specs.Prelude.{◌≡◌, ◌<◌, IfOk, IsOk, Ok, OnOk, false, length, true};
ghost use Rattle.blockdev.specs.Jobs.{IsJobFor};
ghost use Rattle.blockdev.specs.Watching.{Clears, Makes, first_watch};
ghost use Rattle.deeds.specs.Shown.{AreTold, bytes_of, calls_of};
ghost use Rattle.shared.specs.Keeps.{HasMade, IsDisk, answer_of};
ghost use Rattle.shared.specs.Synced.{EndsClean};

use blockdev::{BlockDevice, Watched};
use deeds::sides::{DeviceSide, Errand, Report};
use held::log::{Seat, Slip};
use held::naming::Naming;
use pc_types::ErrCode;
use std::marker::{Model, PhantomData};

/// The device of the cache that B names, with a note whether anything was written to it since it was last flushed well. No call of
/// a block is made but with the block's deed.
#[derive(Drop)]
pub struct Disk<B: Naming, D: BlockDevice> {
    device: Watched<D>,
    side: DeviceSide<B>,
}

impl<B: Naming, D: BlockDevice> Model for Disk<B, D> {
    ghost use Rattle.blockdev.specs.Watching.{Watch};
    ghost use Rattle.deeds.specs.Shown.{AreTold, bytes_of, calls_of};
    ghost use Rattle.shared.specs.Keeps.{HasMade, IsDisk};

    ghost Value = { Watch };

    ghost view = { λ d. d.device };

    ghost invariant = { λ d. IsDisk B.sizes d.device.device × AreTold B.told d.device.device (bytes_of d.side) × HasMade B.calls (calls_of d.side) d.device.device };
}

impl<B: Naming, D: BlockDevice> Disk<B, D> {
    /// A device that may have been written to before.
    pub(crate) fn of(device: D, side: DeviceSide<B>) -> Disk<B, D>
        requires fits { IsDisk B.sizes (D.told device) }
        requires told { AreTold B.told (D.told device) (bytes_of side) }
        requires made { HasMade B.calls (calls_of side) (D.told device) }
        ensures { result ≡ first_watch (D.told device) }
    {
        Disk {
            device: Watched::over(device),
            side,
        }
    }

    /// The device and its side of the deeds, without their lock.
    pub(crate) fn into_parts(self) -> (D, DeviceSide<B>)
        ensures told { D.told result.0 ≡ self.device }
        ensures fits { IsDisk B.sizes (D.told result.0) }
        ensures contents { AreTold B.told (D.told result.0) (bytes_of result.1) }
        ensures made { HasMade B.calls (calls_of result.1) (D.told result.0) }
    {
        (self.device.into_device(), self.side)
    }

    /// Makes the device call of a job. A write is noted.
    pub(crate) fn carry_out(&mut self, job: Errand<B>) -> Report<B>
        requires { IsJobFor B.name B.sizes.blocks B.sizes.page job }
        ensures made { Makes self.old job result self.new }
        ensures same { (result.serial ≡ job.serial) × (result.kind ≡ job.kind) × (result.cache ≡ job.cache) }
        ensures block { result.block ≡ job.block }
        ensures size { length result.bytes ≡ B.sizes.page }
    {
        let Disk { device, side } = self;
        side.carry_out(device, job)
    }

    /// Makes what was written durable, by one flush where anything was, after the step that ended a sync of the seat's.
    pub(crate) fn flush_after(&mut self, seat: &Seat, slip: Slip) -> Result<Durable<B, D>, ErrCode>
        requires own { slip.name ≡ B.name }
        requires seen { (slip.name ≡ seat.now.name) × (slip.place < length seat.now.list) }
        requires clean { EndsClean seat.now slip }
        ensures slip { IfOk result (λ d. d ≡ slip) }
        ensures written { self.old.unflushed ≡ true → Clears self.old (answer_of result) self.new }
        ensures unwritten { self.old.unflushed ≡ false → IsOk result × (self.new ≡ self.old) }
        ensures flushed { OnOk result (self.new.unflushed ≡ false) }
        ensures durable { OnOk result (self.new.device.durable ≡ self.new.device.contents) }
    {
        match self.flush() {
            Ok(()) => Ok(Durable {
                slip,
                of: PhantomData,
            }),
            Err(code) => Err(code),
        }
    }

    /// Makes what was written durable. Where nothing was written since the last flush that ended well no call is made. A flush that
    /// fails leaves the note, so that the next one is tried again.
    fn flush(&mut self) -> Result<(), ErrCode>
        ensures written { self.old.unflushed ≡ true → Clears self.old result self.new }
        ensures unwritten { self.old.unflushed ≡ false → (result ≡ Ok tt) × (self.new ≡ self.old) }
        ensures durable { OnOk result (self.new.device.durable ≡ self.new.device.contents) }
    {
        self.device.flush_written()
    }
}

/// The slip of an entry of the cache that B names: all that this cache's device had been told to write before was flushed since, and
/// well. Only `Disk::flush_after` makes one (decision 152).
#[derive(Drop)]
pub struct Durable<B: Naming, D: BlockDevice> {
    slip: Slip,
    of: PhantomData<(B, D)>,
}

impl<B: Naming, D: BlockDevice> Model for Durable<B, D> {
    ghost use Rattle.std.specs.Prelude.{◌≡◌};
    ghost use Rattle.held.specs.declared.log.Slip.{Slip};

    ghost Value = { Slip };

    ghost view = { λ d. d.slip };

    ghost invariant = { λ d. d.slip.name ≡ B.name };
}

impl<B: Naming, D: BlockDevice> Durable<B, D> {
    /// The slip of the entry.
    pub fn slip(&self) -> Slip
        ensures { result ≡ self.now }
    {
        self.slip
    }
}
