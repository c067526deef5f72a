//! The events of the cache that begin no request, each as a call of its own.

ghost use Rattle.std.specs.Prelude.{◌≡◌, ◌≢◌, ◌≤◌, length, drop, Err};
ghost use Rattle.pc_types.specs.declared.refusal.Refusal.TheVariants.{Memory};
ghost use Rattle.machine.specs.declared.event.Reply.TheVariants as reply;
ghost use Rattle.cachecore.specs.Replies.{answered, bytes_read, evicted, was_read, was_truncated, wrote};
ghost use Rattle.world.specs.Stepping.{HasAllPages, IsMade};

use super::World;
use crate::step::Step;
use blockdev::BlockDevice;
use cachecore::{ReadAnswer, TruncateAnswer, WriteAnswer};
use pc_types::{FileId, HandleId, PageIndex, Refusal, SyncId};

impl<D: BlockDevice> World<D> {
    /// A new file, without bytes.
    pub fn create(&mut self) -> Result<FileId, Refusal>
        ensures { IsMade self.old Step.Create (answered reply.File result) self.new }
    {
        self.core.create()
    }

    /// Opens a file, by the lowest free handle.
    pub fn open(&mut self, file: FileId) -> Result<HandleId, Refusal>
        ensures { IsMade self.old (Step.Open file) (answered reply.Handle result) self.new }
    {
        self.core.open(file)
    }

    /// Closes a handle.
    pub fn close(&mut self, handle: HandleId) -> Result<(), Refusal>
        ensures { IsMade self.old (Step.Close handle) (answered (λ _. reply.Closed) result) self.new }
    {
        self.core.close(handle)
    }

    /// Bytes of the handle's file.
    pub fn size(&self, handle: HandleId) -> Result<u64, Refusal>
        ensures { IsMade self.now (Step.Size handle) (answered reply.Size result) self.now }
    {
        self.core.size(handle)
    }

    /// Reads the bytes from `offset` on into the front of `out`, and takes no memory for them.
    pub fn read(
        &mut self,
        handle: HandleId,
        offset: u64,
        out: &mut [u8],
    ) -> Result<ReadAnswer, Refusal>
        ensures made { IsMade self.old (Step.Read handle offset (length out.old)) (was_read result out.new) self.new }
        ensures count { bytes_read result ≤ length out.old }
        ensures rest { drop (bytes_read result) out.new ≡ drop (bytes_read result) out.old }
        ensures no_memory { result ≢ Err Memory }
    {
        self.core.read(handle, offset, out)
    }

    /// Writes the bytes into the file from `offset` on.
    pub fn write(
        &mut self,
        handle: HandleId,
        offset: u64,
        bytes: &[u8],
    ) -> Result<WriteAnswer, Refusal>
        ensures { IsMade self.old (Step.Write handle offset bytes.now) (wrote result) self.new }
    {
        self.core.write(handle, offset, bytes)
    }

    /// Writes the bytes at the end of the file.
    pub fn append(&mut self, handle: HandleId, bytes: &[u8]) -> Result<WriteAnswer, Refusal>
        ensures { IsMade self.old (Step.Append handle bytes.now) (wrote result) self.new }
    {
        self.core.append(handle, bytes)
    }

    /// Makes the file as long as this.
    pub fn truncate(&mut self, handle: HandleId, size: u64) -> Result<TruncateAnswer, Refusal>
        ensures { IsMade self.old (Step.Truncate handle size) (was_truncated result) self.new }
    {
        self.core.truncate(handle, size)
    }

    /// Makes an idle page absent, where there is one.
    pub fn evict(&mut self) -> Option<(FileId, PageIndex)>
        ensures { IsMade self.old Step.Evict (evicted result) self.new }
    {
        self.core.evict()
    }

    /// Moves pages that were not accessed of late to where they may be evicted, and answers how many.
    pub fn age(&mut self) -> u64
        ensures { IsMade self.old Step.Age (reply.Aged result) self.new }
    {
        self.core.age()
    }

    /// Begins a sync of the handle's whole file.
    pub fn sync_begin(&mut self, handle: HandleId) -> Result<SyncId, Refusal>
        ensures made { IsMade self.old (Step.SyncBegin handle) (answered reply.Sync result) self.new }
        ensures whole { HasAllPages self.old.core.sizes.page }
    {
        self.core.sync_begin(handle)
    }

    /// Begins a sync of the pages from `first` to `last` of the handle's file. Refused by `BadRange` where `first` is past
    /// `last`.
    pub fn sync_begin_range(
        &mut self,
        handle: HandleId,
        first: PageIndex,
        last: PageIndex,
    ) -> Result<SyncId, Refusal>
        ensures { IsMade self.old (Step.SyncBeginRange handle first last) (answered reply.Sync result) self.new }
    {
        self.core.sync_begin_range(handle, first, last)
    }

    /// Gives a sync up. The pages that it tagged stay so.
    pub fn sync_drop(&mut self, sync: SyncId) -> Result<(), Refusal>
        ensures { IsMade self.old (Step.SyncDrop sync) (answered (λ _. reply.Dropped) result) self.new }
    {
        self.core.sync_drop(sync)
    }
}
