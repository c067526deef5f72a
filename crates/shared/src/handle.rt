//! An open file, and a failed write that it can be told of.

ghost use Rattle.std.specs.Prelude.{◌≡◌};

use errboard::{Pass, Receipt};
use pc_types::{FileId, HandleId};
use std::marker::Model;

/// An open file of a cache, with the place where the next read or write begins, and what it was told of the file's failed writes.
#[derive(Drop)]
pub struct Handle {
    // the name of the cache
    pub(crate) cache: u64,
    pub(crate) file: FileId,
    pub(crate) number: HandleId,
    pub(crate) cursor: u64,
    // whether a write goes to the end of the file
    pub(crate) append: bool,
    pub(crate) pass: Pass,
}

impl Model for Handle {
    ghost use Rattle.std.specs.Prelude.{◌≡◌, ◌≤◌};
    ghost use Rattle.pc_types.specs.declared.limits.TheConstants.{MAX_FILE_SIZE};
    ghost use Rattle.shared.specs.Seen.{HandleSeen};

    ghost Value = { HandleSeen };

    ghost view = { λ h. record { cache = h.cache; file = h.file; number = h.number; cursor = h.cursor; append = h.append; pass = h.pass } };

    ghost invariant = { λ h. (h.cursor ≤ MAX_FILE_SIZE) × (h.pass.file ≡ h.file.0) };
}

impl Handle {
    /// Its file.
    pub fn file(&self) -> FileId
        ensures { result ≡ self.now.file }
    {
        self.file
    }

    /// Where the next read begins, and the next write but an appending one.
    pub fn cursor(&self) -> u64
        ensures { result ≡ self.now.cursor }
    {
        self.cursor
    }
}

/// A failed write, as the turn tells that ended it. Handles of the file that it names can be told of it.
#[derive(Drop)]
pub struct FailedWrite {
    // the name of the cache
    pub(crate) cache: u64,
    pub(crate) receipt: Receipt,
}

impl Model for FailedWrite {
    ghost use Rattle.shared.specs.Seen.{FailedSeen};

    ghost Value = { FailedSeen };

    ghost view = { λ w. record { cache = w.cache; receipt = w.receipt } };
}
