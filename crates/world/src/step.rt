//! What a caller may ask of a world.

use pc_types::{Bytes, FileId, HandleId, PageIndex, Serial, SyncId};

/// One event of the cache, with what it carries, or the device call or the end of a request in flight.
#[derive(Drop, Debug)]
pub enum Step {
    Create,
    Open(FileId),
    Close(HandleId),
    Size(HandleId),
    /// An offset and how many bytes to read.
    Read(HandleId, u64, u64),
    /// An offset and the bytes to write there.
    Write(HandleId, u64, Bytes),
    Append(HandleId, Bytes),
    /// The new size.
    Truncate(HandleId, u64),
    FillBegin(HandleId, PageIndex),
    FlushBegin(FileId),
    Evict,
    Age,
    SyncBegin(HandleId),
    /// The first and the last page of the range.
    SyncBeginRange(HandleId, PageIndex, PageIndex),
    SyncStep(SyncId),
    SyncDrop(SyncId),
    /// Makes the device call of the request. How it goes is the device's matter.
    Call(Serial),
    /// Ends the request, whose device call was made.
    End(Serial),
}
