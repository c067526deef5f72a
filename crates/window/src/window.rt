//! The window.

ghost use Rattle.std.specs.Prelude.{◌≡◌, ◌<◌, ◌≤◌, ◌+◌, length};
ghost use Rattle.blockdev.specs.Device.{Reads, Writes, Flushes};
ghost use Rattle.pc_types.specs.declared.limits.TheConstants.{MAX_BLOCKS};
ghost use Rattle.window.specs.Windows.{Outside, window_of};

use blockdev::BlockDevice;
use pc_types::{BlockNo, ErrCode};

/// `count` blocks of a device, from block `first` on.
#[derive(Drop)]
pub struct Window<'a, D: BlockDevice> {
    device: &'a mut D,
    first: u64,
    count: u64,
    ghost exist: { first + count ≤ (D.told device.now).count },
    ghost named: { first + count ≤ MAX_BLOCKS },
}

impl<'a, D: BlockDevice> Window<'a, D> {
    /// The window, of blocks that exist and have numbers.
    pub fn new(device: &'a mut D, first: u64, count: u64) -> Window<'a, D>
        requires exist { first + count ≤ (D.told device.old).count }
        requires named { first + count ≤ MAX_BLOCKS }
        ensures device { result.device.ghost_name ≡ device.entry.ghost_name }
        ensures same { result.device.now ≡ device.old }
        ensures place { (result.first ≡ first) × (result.count ≡ count) }
    {
        Window {
            device,
            first,
            count,
        }
    }

    /// The number that a block of the window has on the device.
    fn place(&self, block: BlockNo) -> BlockNo
        requires { block.0 < self.now.count }
        ensures { result.0 ≡ self.now.first + block.0 }
    {
        BlockNo((self.first + u64::from(block.0)) as u32)
    }
}

impl<D: BlockDevice> BlockDevice for Window<'_, D> {
    ghost told = { λ w. window_of w.first w.count (D.told w.device.now) };

    fn block_size(&self) -> u64 {
        self.device.block_size()
    }

    #[tactic(auto, using(crate::proofs::Slices::sized_in))]
    fn blocks(&self) -> u64 {
        // What the device tells of its blocks, it tells where it is asked.
        prove!(self.count <= self.device.blocks());
        self.count
    }

    fn faults(&self) -> u64 {
        self.device.faults()
    }

    fn calls(&self) -> u64 {
        self.device.calls()
    }

    fn flushes(&self) -> u64 {
        self.device.flushes()
    }

    #[tactic(auto, using(crate::proofs::Outsides::outside_read))]
    fn read(&mut self, block: BlockNo, out: &mut [u8]) -> Result<(), ErrCode>
        requires exists { block.0 < self.old.count }
        requires size { length out.old ≡ (D.told self.old.device.now).size }
        ensures read { Reads (window_of self.old.first self.old.count (D.told self.old.device.now)) block.0 out.old result out.new (window_of self.new.first self.new.count (D.told self.new.device.now)) }
        ensures outside { Outside self.old.first self.old.count (D.told self.old.device.now) (D.told self.new.device.now) }
        ensures device { self.new.device.ghost_name ≡ self.old.device.ghost_name }
        ensures place { (self.new.first ≡ self.old.first) × (self.new.count ≡ self.old.count) }
    {
        let place = self.place(block);
        self.device.read(place, out)
    }

    fn write(&mut self, block: BlockNo, bytes: &[u8]) -> Result<(), ErrCode>
        requires exists { block.0 < self.old.count }
        requires size { length bytes.now ≡ (D.told self.old.device.now).size }
        ensures write { Writes (window_of self.old.first self.old.count (D.told self.old.device.now)) block.0 bytes.now result (window_of self.new.first self.new.count (D.told self.new.device.now)) }
        ensures outside { Outside self.old.first self.old.count (D.told self.old.device.now) (D.told self.new.device.now) }
        ensures device { self.new.device.ghost_name ≡ self.old.device.ghost_name }
        ensures place { (self.new.first ≡ self.old.first) × (self.new.count ≡ self.old.count) }
    {
        let place = self.place(block);
        self.device.write(place, bytes)
    }

    #[tactic(auto, using(crate::proofs::WindowCalls::flushes_in, crate::proofs::Outsides::outside_flush))]
    fn flush(&mut self) -> Result<(), ErrCode>
        ensures flush { Flushes (window_of self.old.first self.old.count (D.told self.old.device.now)) result (window_of self.new.first self.new.count (D.told self.new.device.now)) }
        ensures outside { Outside self.old.first self.old.count (D.told self.old.device.now) (D.told self.new.device.now) }
        ensures device { self.new.device.ghost_name ≡ self.old.device.ghost_name }
        ensures place { (self.new.first ≡ self.old.first) × (self.new.count ≡ self.old.count) }
    {
        self.device.flush()
    }
}
