//! What the owner of a device knows of it, once windows of it are gone.

ghost use Rattle.std.specs.Prelude.{◌≡◌, ◌<◌, ◌≤◌, ◌+◌, length};
ghost use Rattle.blockdev.specs.Device.{Flushes, Reads, Writes};
ghost use Rattle.pc_types.specs.declared.limits.TheConstants.{MAX_BLOCKS};
ghost use Rattle.window.specs.Windows.{Outside, window_of};

use blockdev::BlockDevice;
use pc_types::{BlockNo, ErrCode};
use window::Window;

/// Reads a block through a window.
pub fn take<D: BlockDevice>(
    device: &mut D,
    first: u64,
    count: u64,
    block: u32,
    out: &mut [u8],
) -> Result<(), ErrCode>
    requires exist { first + count ≤ (D.told device.old).count }
    requires named { first + count ≤ MAX_BLOCKS }
    requires within { block < count }
    requires size { length out.old ≡ (D.told device.old).size }
    ensures read { Reads (window_of first count (D.told device.old)) block out.old result out.new (window_of first count (D.told device.new)) }
    ensures outside { Outside first count (D.told device.old) (D.told device.new) }
{
    let mut window = Window::new(device, first, count);
    window.read(BlockNo(block), out)
}

/// Writes a block through a window.
pub fn put<D: BlockDevice>(
    device: &mut D,
    first: u64,
    count: u64,
    block: u32,
    bytes: &[u8],
) -> Result<(), ErrCode>
    requires exist { first + count ≤ (D.told device.old).count }
    requires named { first + count ≤ MAX_BLOCKS }
    requires within { block < count }
    requires size { length bytes.now ≡ (D.told device.old).size }
    ensures write { Writes (window_of first count (D.told device.old)) block bytes.now result (window_of first count (D.told device.new)) }
    ensures outside { Outside first count (D.told device.old) (D.told device.new) }
{
    let mut window = Window::new(device, first, count);
    window.write(BlockNo(block), bytes)
}

/// Flushes a window, which flushes the device.
pub fn settle<D: BlockDevice>(device: &mut D, first: u64, count: u64) -> Result<(), ErrCode>
    requires exist { first + count ≤ (D.told device.old).count }
    requires named { first + count ≤ MAX_BLOCKS }
    ensures flush { Flushes (window_of first count (D.told device.old)) result (window_of first count (D.told device.new)) }
    ensures outside { Outside first count (D.told device.old) (D.told device.new) }
{
    let mut window = Window::new(device, first, count);
    window.flush()
}

/// Writes all blocks of a window, and leaves the others as they are.
#[tactic(auto, using(window::proofs::Outsides::outside_then))]
pub fn put_two<D: BlockDevice>(device: &mut D, first: u64, bytes: &[u8]) -> Result<(), ErrCode>
    requires exist { first + 2 ≤ (D.told device.old).count }
    requires named { first + 2 ≤ MAX_BLOCKS }
    requires size { length bytes.now ≡ (D.told device.old).size }
    ensures outside { Outside first 2 (D.told device.old) (D.told device.new) }
{
    put(device, first, 2, 0, bytes)?;
    put(device, first, 2, 1, bytes)
}
