//! An open file of a cache of shards.

ghost use Rattle.std.specs.Prelude.{◌≡◌};

use crate::handle::Handle;

/// An open file: the shard that it stands in, and the handle there.
#[derive(Drop)]
pub struct ShardHandle {
    pub(crate) shard: u64,
    pub(crate) handle: Handle,
}

impl ShardHandle {
    /// The shard of its file.
    pub fn shard(&self) -> u64
        ensures { result ≡ self.now.shard }
    {
        self.shard
    }

    /// The name of the shard's cache.
    pub fn cache(&self) -> u64
        ensures { result ≡ self.now.handle.cache }
    {
        self.handle.cache
    }

    /// Where the next read begins, and the next write but an appending one.
    pub fn cursor(&self) -> u64
        ensures { result ≡ self.now.handle.cursor }
    {
        self.handle.cursor()
    }
}
