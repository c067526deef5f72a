//! Numbers with names. Any file, handle, serial or sync may be asked for: a number that the cache did not give out is refused.

/// A file of a cache, counted from 0.
#[derive(Clone, Copy, PartialEq, Eq, PartialOrd, Ord, Debug)]
pub struct FileId(pub u64);

/// An open handle of a cache. A new handle gets the lowest free number.
#[derive(Clone, Copy, PartialEq, Eq, PartialOrd, Ord, Debug)]
pub struct HandleId(pub u64);

/// A page of a file, counted from 0. A file of 2^40 bytes has pages past 2^32.
#[derive(Clone, Copy, PartialEq, Eq, PartialOrd, Ord, Debug)]
pub struct PageIndex(pub u64);

/// A frame of a cache: the place of one cached page.
#[derive(Clone, Copy, PartialEq, Eq, PartialOrd, Ord, Debug)]
pub struct FrameId(pub u32);

/// A block of a device, counted from 0.
#[derive(Clone, Copy, PartialEq, Eq, PartialOrd, Ord, Debug)]
pub struct BlockNo(pub u32);

/// A request's number, counted from 0 over all requests of a cache.
#[derive(Clone, Copy, PartialEq, Eq, PartialOrd, Ord, Debug)]
pub struct Serial(pub u64);

/// A sync in progress. A new sync gets the lowest free number.
#[derive(Clone, Copy, PartialEq, Eq, PartialOrd, Ord, Debug)]
pub struct SyncId(pub u64);
