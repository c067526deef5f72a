//! What a block device does, call by call.

ghost use Rattle.std.specs.Prelude.{◌≡◌, ◌<◌, length, min};
ghost use Rattle.blockdev.specs.Device.{Told, IsSized, Reads, Writes, Flushes, max_calls};

use pc_types::{BlockNo, ErrCode};

/// A device of equal blocks, read and written one block at a time.
///
/// `told` is what the device tells of itself. Code above is proved from the clauses here alone, for a device that tells
/// its contents as for one that tells nothing.
pub trait BlockDevice: Drop {
    ghost told: { Self → Told };

    /// Bytes of a block.
    fn block_size(&self) -> u64
        ensures { result ≡ (told self.now).size };

    /// How many blocks there are. They are numbered from 0.
    fn blocks(&self) -> u64
        ensures count { result ≡ (told self.now).count }
        ensures sized { IsSized (told self.now) };

    /// How many reads, writes and flushes have failed. One past the last that can be counted fails and is not counted.
    fn faults(&self) -> u64
        ensures { result ≡ min (told self.now).faults max_calls };

    /// How many reads and writes were made, failed ones too.
    fn calls(&self) -> u64
        ensures { result ≡ (told self.now).calls };

    /// How many flushes were made, failed ones too.
    fn flushes(&self) -> u64
        ensures { result ≡ (told self.now).flushes };

    /// Fills `out` with the block's bytes.
    fn read(&mut self, block: BlockNo, out: &mut [u8]) -> Result<(), ErrCode>
        requires exists { block.0 < (told self.old).count }
        requires size { length out.old ≡ (told self.old).size }
        ensures { Reads (told self.old) block.0 out.old result out.new (told self.new) };

    /// Puts `bytes` into the block, whole and at one moment. Where the call fails the block has its old bytes or these.
    fn write(&mut self, block: BlockNo, bytes: &[u8]) -> Result<(), ErrCode>
        requires exists { block.0 < (told self.old).count }
        requires size { length bytes.now ≡ (told self.old).size }
        ensures { Writes (told self.old) block.0 bytes.now result (told self.new) };

    /// Makes what was written durable. A write that was answered may stand in the device's own cache until then.
    fn flush(&mut self) -> Result<(), ErrCode>
        ensures { Flushes (told self.old) result (told self.new) };
}
