//! A handle of an open file.

ghost use Rattle.std.specs.Prelude.{◌≡◌};

use errboard::Pass;
use pc_types::{FileId, HandleId};
use std::marker::Model;

/// An open file, with the place where the next read or write begins. It goes back to the service that opened it by `close`.
#[derive(Drop)]
pub struct Handle {
    // the name of the cache
    pub(crate) cache: u64,
    pub(crate) file: FileId,
    pub(crate) number: HandleId,
    pub(crate) cursor: u64,
    // whether a write goes to the end of the file
    pub(crate) append: bool,
    // what this handle was told of the file's failed writes
    pub(crate) pass: Pass,
}

impl Model for Handle {
    ghost use Rattle.std.specs.Prelude.{◌<◌, ◌≤◌};
    ghost use Rattle.pc_types.specs.declared.limits.TheConstants.{MAX_FILES, MAX_FILE_SIZE};
    ghost use Rattle.filesvc.specs.Seen.{HandleSeen};

    ghost Value = { HandleSeen };

    ghost view = { λ h. record { cache = h.cache; file = h.file.0; number = h.number.0; cursor = h.cursor; append = h.append; pass = h.pass } };

    ghost invariant = { λ h. (h.cursor ≤ MAX_FILE_SIZE) × (h.file.0 < MAX_FILES) };
}

impl Handle {
    /// The number of its file.
    pub fn file(&self) -> FileId
        ensures { result.0 ≡ self.now.file }
    {
        self.file
    }

    /// Where the next read begins, and the next write but an appending one.
    pub fn cursor(&self) -> u64
        ensures { result ≡ self.now.cursor }
    {
        self.cursor
    }
}
