//! A file in memory.

ghost use Rattle.std.specs.Prelude.{◌≡◌, true, false, Some, IfOk, IsOkUnless, replicate};

use crate::raw::RawFile;
use pc_types::Refusal;
use std::alloc::Global;
use std::marker::Model;
use std::snapshot::Snapshot;

/// A file in memory, which tells its bytes. It stays as long as it is made. Its next sync fails where `fail_next_sync` said so.
#[derive(Drop)]
pub struct MemFile {
    bytes: Vec<u8>,
    /// As they were at the last sync that went well. It has no bytes.
    synced: Snapshot<Vec<u8>>,
    is_failing: bool,
}

impl Model for MemFile {
    ghost use Rattle.blockdev.specs.Files.{MemSeen};

    ghost Value = { MemSeen };

    ghost view = { λ f. record { bytes = f.bytes.items; synced = f.synced.value.items; is_failing = f.is_failing } };
}

impl MemFile {
    /// A file of zeros. Refused by `Memory` where there is no room for its bytes.
    pub fn zeros(alloc: Global, len: u32) -> Result<MemFile, Refusal>
        ensures zeros { IfOk result (λ f. f ≡ record { bytes = replicate len 0; synced = replicate len 0; is_failing = false }) }
        ensures refused { IsOkUnless result Refusal.Memory }
    {
        let bytes = vec![in alloc; 0; len as usize]?;
        Ok(MemFile {
            synced: Snapshot::of(&bytes),
            bytes,
            is_failing: false,
        })
    }

    /// Makes the next sync fail.
    pub fn fail_next_sync(&mut self)
        ensures { self.new ≡ record self.old { is_failing = true } }
    {
        self.is_failing = true;
    }
}

impl RawFile for MemFile {
    ghost bytes = { λ f. Some f.bytes };

    ghost synced = { λ f. Some f.synced };

    fn read_at(&self, out: &mut [u8], offset: u64) -> bool {
        let len = self.bytes.len();
        if offset > len as u64 || out.len() > len - offset as usize {
            return false;
        }
        let start = offset as usize;
        out.copy_from_slice(&self.bytes[start..start + out.len()]);
        true
    }

    fn write_at(&mut self, these: &[u8], offset: u64) -> bool {
        let start = offset as usize;
        self.bytes[start..start + these.len()].copy_from_slice(these);
        true
    }

    fn sync(&mut self) -> bool {
        if self.is_failing {
            self.is_failing = false;
            return false;
        }
        self.synced = Snapshot::of(&self.bytes);
        true
    }
}
