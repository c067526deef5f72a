//! The blocks of devices.

ghost use Rattle.std.specs.Bool.{OnTrue};
ghost use Rattle.std.specs.Prelude.{◌≡◌, ◌<◌, IfOk, IsOkUnless, is_some, length, true};
ghost use Rattle.playback.specs.Playing.{AreAlike, IsAlike, IsCopy, IsSameSize};

use blockdev::{BlockDevice, ScriptDevice};
use pc_types::{BlockNo, ErrCode, Refusal};
use std::alloc::Global;

/// How many blocks can be named.
const NUMBERS: u64 = 1 << 32;

/// A device with the blocks of this one. Where one of them can't be read the code is that of the fault.
pub fn copy_of<D: BlockDevice>(
    alloc: Global,
    device: &mut D,
) -> Result<Result<ScriptDevice, ErrCode>, Refusal>
    ensures copied { IfOk result (λ read. IfOk read (IsCopy (D.told device.old))) }
    ensures device { IsSameSize (D.told device.old) (D.told device.new) }
    ensures refused { IsOkUnless result Refusal.Memory }
{
    let size = device.block_size();
    let count = device.blocks();
    let mut copy = ScriptDevice::new(alloc, size, count)?;
    let mut buffer = vec![in alloc; 0; size as usize]?;
    for number in 0..count.min(NUMBERS) {
        if let Err(code) = copy_block(
            device,
            &mut copy,
            BlockNo(number as u32),
            buffer.as_mut_slice(),
        ) {
            drop(copy);
            return Ok(Err(code));
        }
    }
    Ok(Ok(copy))
}

fn copy_block<D: BlockDevice>(
    device: &mut D,
    copy: &mut ScriptDevice,
    block: BlockNo,
    buffer: &mut [u8],
) -> Result<(), ErrCode>
    requires block { block.0 < (D.told device.old).count }
    requires size { (D.told device.old).size ≡ length buffer.old }
    requires copy { IsCopy (D.told device.old) copy.old }
    ensures device { IsSameSize (D.told device.old) (D.told device.new) }
    ensures copy { IsCopy (D.told device.old) copy.new }
    ensures buffer { length buffer.new ≡ length buffer.old }
{
    device.read(block, buffer)?;
    copy.write(block, buffer)
}

/// The first block of the device that is not as in both of the others. A block in which these differ is passed over, since
/// it may be as in neither; one that can't be read is not as in them. Where a device has more blocks than another, no block
/// is as in both, and so it is the first.
#[tactic(auto, using(crate::proofs::Alike::none_before, crate::proofs::Alike::alike_next, crate::proofs::Alike::all_alike))]
pub fn first_unlike<D: BlockDevice>(
    alloc: Global,
    device: &mut D,
    one: &ScriptDevice,
    other: &ScriptDevice,
) -> Result<Option<u64>, Refusal>
    requires one { is_some one.now.contents ≡ true }
    requires other { is_some other.now.contents ≡ true }
    ensures alike { IfOk result (AreAlike (D.told device.old) one.now other.now) }
    ensures refused { IsOkUnless result Refusal.Memory }
{
    let count = device.blocks();
    if one.blocks() != count || other.blocks() != count {
        return Ok(Some(0));
    }
    let mut buffer = vec![in alloc; 0; device.block_size() as usize]?;
    for number in 0..count.min(NUMBERS) {
        let block = BlockNo(number as u32);
        if !is_alike(device, one, other, block, buffer.as_mut_slice()) {
            return Ok(Some(number));
        }
    }
    Ok(None)
}

/// Whether a block of the device is as in both of the others, or these differ in it.
#[tactic(auto, using(crate::proofs::Alike::alike_read, crate::proofs::Alike::passed_over))]
fn is_alike<D: BlockDevice>(
    device: &mut D,
    one: &ScriptDevice,
    other: &ScriptDevice,
    block: BlockNo,
    buffer: &mut [u8],
) -> bool
    requires device { block.0 < (D.told device.old).count }
    requires size { (D.told device.old).size ≡ length buffer.old }
    requires blocks { (block.0 < one.now.count) × (block.0 < other.now.count) }
    requires told { (is_some one.now.contents ≡ true) × (is_some other.now.contents ≡ true) }
    ensures device { IsSameSize (D.told device.old) (D.told device.new) × ((D.told device.new).contents ≡ (D.told device.old).contents) }
    ensures buffer { length buffer.new ≡ length buffer.old }
    ensures alike { OnTrue result (IsAlike (D.told device.old) one.now other.now block.0) }
{
    let bytes = one.bytes(block);
    if bytes != other.bytes(block) {
        return true;
    }
    match device.read(block, buffer) {
        Ok(()) => &*buffer == bytes,
        Err(_) => false,
    }
}
