//! The open handles of a cache.

ghost use Rattle.std.specs.Prelude.{◌≡◌, ◌<◌, IfOk, OnErr, IsOkUnless, is_some, true};
ghost use Rattle.std.specs.FinMap as map;
ghost use Rattle.pc_types.specs.declared.refusal.Refusal.{Refusal};
ghost use Rattle.machine.specs.Step.{IsLowest};

use idalloc::IdAlloc;
use pc_types::Refusal;
use pc_types::limits::{MAX_FILES, MAX_HANDLES};
use std::alloc::{AllocError, Global};
use std::marker::Model;

/// The file of each open handle, by the handle's number.
#[derive(Drop)]
pub struct Handles {
    // the numbers of the open handles
    ids: IdAlloc,
    // the file of each number, where it is open
    files: Vec<Option<u64>>,
    // how many they are
    count: u64,
}

impl Model for Handles {
    ghost use Rattle.std.specs.Prelude.{ℕ};
    ghost use Rattle.std.specs.Coded.{coded_ℕ};
    ghost use Rattle.std.specs.Ordering.{nat_cmp};
    ghost use Rattle.std.specs.FinMap as map;
    ghost use Rattle.maps.specs.Vectors.{by_place};
    ghost use Rattle.cachecore.specs.Handles.{AreHandles};

    ghost Value = { map.FinMap nat_cmp ℕ };

    ghost coded = { map.code coded_ℕ coded_ℕ };

    ghost view = { λ a. by_place a.files.items };

    ghost invariant = { λ a. AreHandles a.ids.used a.files.items a.count };
}

impl Handles {
    /// No handle is open. It makes the places of all handles, so `open` takes memory for the number alone.
    pub fn new(alloc: Global) -> Result<Handles, AllocError>
        ensures { IfOk result (λ h. h ≡ map.empty) }
    {
        Ok(Handles {
            ids: IdAlloc::new(alloc),
            files: vec![in alloc; None; MAX_HANDLES as usize]?,
            count: 0,
        })
    }

    /// The file of an open handle.
    #[inline(always)]
    pub fn file(&self, handle: u64) -> Option<u64>
        ensures { result ≡ map.get self.now handle }
    {
        if handle < MAX_HANDLES {
            self.files[handle as usize]
        } else {
            None
        }
    }

    /// How many handles are open.
    pub fn count(&self) -> u64
        ensures { result ≡ map.len self.now }
    {
        self.count
    }

    /// Opens the lowest free handle.
    pub fn open(&mut self, file: u64) -> Result<u64, Refusal>
        requires room { map.len self.old < MAX_HANDLES }
        requires file { file < MAX_FILES }
        ensures lowest { IfOk result (λ h. IsLowest (λ k. is_some (map.get self.old k)) h) }
        ensures opened { IfOk result (λ h. self.new ≡ map.insert self.old h file) }
        ensures err { OnErr result (self.new ≡ self.old) }
        ensures memory { IsOkUnless result Refusal.Memory }
    {
        let handle = self.ids.alloc(0, MAX_HANDLES - 1)?;
        self.files[handle as usize] = Some(file);
        self.count += 1;
        Ok(handle)
    }

    /// Closes an open handle. It takes no memory.
    pub fn close(&mut self, handle: u64)
        requires { is_some (map.get self.old handle) ≡ true }
        ensures { self.new ≡ map.remove self.old handle }
    {
        self.ids.free(handle).unwrap();
        self.files[handle as usize] = None;
        self.count -= 1;
    }
}
