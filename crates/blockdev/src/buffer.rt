//! The bytes of one page on their way from or to a device.

ghost use Rattle.std.specs.Prelude.{◌≡◌, replicate, IfOk, IsOkUnless};

use pc_types::{Geometry, Refusal};
use std::alloc::Global;
use std::marker::Model;

/// As many bytes as a page has.
#[derive(Drop, Debug)]
pub struct Buffer {
    bytes: Vec<u8>,
}

impl Model for Buffer {
    ghost use Rattle.std.specs.Prelude.{List, ℕ};

    ghost Value = { List ℕ };

    ghost view = { λ b. b.bytes.items };
}

impl Buffer {
    ghost use Rattle.std.specs.Borrow.{sem};
    ghost use Rattle.blockdev.specs.Buffer.{LendsBytes};

    /// A page of zeros. Refused by `Memory` where there is no room for it.
    pub fn new(alloc: Global, geometry: &Geometry) -> Result<Buffer, Refusal>
        ensures zeros { IfOk result (λ b. b ≡ replicate geometry.now.page 0) }
        ensures refused { IsOkUnless result Refusal.Memory }
    {
        let bytes = vec![in alloc; 0; geometry.page() as usize]?;
        Ok(Buffer { bytes })
    }

    pub fn as_slice(&self) -> &[u8]
        ensures { result.now ≡ self.now }
    {
        self.bytes.as_slice()
    }

    pub fn as_mut_slice(&mut self) -> &mut [u8]
        ensures* writes_back { sem 𝓛 (LendsBytes self.entry result) }
        ensures value { result.now ≡ self.old }
    {
        self.bytes.as_mut_slice()
    }
}
