//! The bytes of a device in memory: one vector, block after block.

ghost use Rattle.std.specs.Prelude.{◌≡◌, ◌<◌, length, slice_set, All, IfOk, IsOkUnless};
ghost use Rattle.blockdev.specs.Blocks.{block_at, zero_blocks};

use pc_types::Refusal;
use std::alloc::Global;
use std::marker::Model;

/// Blocks of one size.
#[derive(Drop)]
pub struct Blocks {
    size: usize,
    count: u64,
    bytes: Vec<u8>,
}

impl Model for Blocks {
    ghost use Rattle.std.specs.Prelude.{◌≡◌, ◌*◌, length};
    ghost use Rattle.blockdev.specs.Blocks.{Grid, blocks_of};

    ghost Value = { Grid };

    ghost view = { λ b. record { size = b.size; blocks = blocks_of b.size b.count b.bytes.items } };

    ghost invariant = { λ b. length b.bytes.items ≡ b.count * b.size };
}

impl Blocks {
    /// Blocks of zeros. Refused by `Memory` also where they would have more bytes than can be addressed.
    pub fn zeros(alloc: Global, size: u64, count: u64) -> Result<Blocks, Refusal>
        ensures zeros { IfOk result (λ b. b ≡ record { size = size; blocks = zero_blocks size count }) }
        ensures refused { IsOkUnless result Refusal.Memory }
    {
        let Some(len) = size.checked_mul(count) else {
            return Err(Refusal::Memory);
        };
        let bytes = vec![in alloc; 0; len as usize]?;
        Ok(Blocks {
            size: size as usize,
            count,
            bytes,
        })
    }

    /// Bytes of a block.
    pub fn size(&self) -> u64
        ensures { result ≡ self.now.size }
    {
        self.size as u64
    }

    /// How many blocks.
    pub fn count(&self) -> u64
        ensures count { result ≡ length self.now.blocks }
        ensures sized { All (λ bytes. length bytes ≡ self.now.size) self.now.blocks }
    {
        self.count
    }

    /// The bytes of a block.
    pub fn get(&self, block: u32) -> &[u8]
        requires { block < length self.now.blocks }
        ensures bytes { result.now ≡ block_at self.now.blocks block }
        ensures size { length result.now ≡ self.now.size }
    {
        let start = block as usize * self.size;
        &self.bytes[start..start + self.size]
    }

    /// Puts the bytes into the block.
    pub fn set(&mut self, block: u32, bytes: &[u8])
        requires exists { block < length self.old.blocks }
        requires size { length bytes.now ≡ self.old.size }
        ensures { self.new ≡ record self.old { blocks = slice_set self.old.blocks block bytes.now } }
    {
        let start = block as usize * self.size;
        self.bytes[start..start + self.size].copy_from_slice(bytes);
    }
}
