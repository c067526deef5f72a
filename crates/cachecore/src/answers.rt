//! What the calls of a cache answer.

use blockdev::{Buffer, Finished, Job};
use pc_types::{ErrCode, FileId, HandleId, PageIndex, Refusal, Tags};

/// How many requests of each kind are in flight, and how many syncs are in progress.
#[derive(Clone, Copy, PartialEq, Eq, Debug)]
pub struct InFlight {
    pub fills: u64,
    pub flushes: u64,
    pub syncs: u64,
}

/// What a read answers.
#[derive(Clone, Copy, PartialEq, Eq, Debug)]
pub enum ReadAnswer {
    /// So many bytes were read. None were where nothing stands at the offset.
    Bytes(u64),
    /// The page is filling: try again after a request has ended.
    Wait(PageIndex),
    /// The page has to be filled first.
    Miss(PageIndex),
}

/// What a write or an append answers.
#[derive(Clone, Copy, PartialEq, Eq, Debug)]
pub enum WriteAnswer {
    /// All bytes were written.
    Wrote {
        count: u64,
        /// The offset after them.
        end: u64,
    },
    /// The page is filling: try again after a request has ended.
    Wait(PageIndex),
    /// The page has to be filled first, since a part of it keeps its bytes.
    Miss(PageIndex),
}

/// What the begin of a fill answers, with the buffer that was handed in.
#[derive(Drop, Debug)]
pub enum FillBegun {
    /// The file has no such page.
    Gone(Buffer),
    /// The page is filling already.
    Wait(PageIndex, Buffer),
    /// The page is cached already.
    Present(Buffer),
    /// The page is cached: its bytes are not on the device, so they are zeros.
    Filled(Buffer),
    /// The page is filling: its block has to be read, into the buffer.
    Job(Job),
}

/// What the begin of a flush answers, with the buffer that was handed in.
#[derive(Drop, Debug)]
pub enum FlushBegun {
    /// No page of the file is to be written.
    Nothing(Buffer),
    /// A write of a page has begun: the buffer has its bytes, and they have to be written to its block.
    Job(Job),
}

/// What a step of a sync answers, with the buffer that was handed in.
#[derive(Drop, Debug)]
pub enum SyncStepped {
    /// A write of a page has begun: the buffer has its bytes, and they have to be written to its block.
    Job(Job),
    /// A write of the page is in flight: try again after a request has ended.
    Wait(PageIndex, Buffer),
    /// The sync is over, and no write of the file failed since it began.
    Clean(Buffer),
    /// The sync is over, and a write of the file failed since it began. The code is that of the last one.
    Failed(ErrCode, Buffer),
}

/// How a request ended, with its buffer.
#[derive(Drop, Debug)]
pub enum Ended {
    /// Its page was cut off before, and nothing changed.
    Dropped(Buffer),
    /// Its device call failed, on a page of this file. A page to fill is absent again, and one to write is dirty again.
    Failed(FileId, ErrCode, Buffer),
    /// The page is filled, or written.
    Done(Buffer),
}

/// What a truncation answers.
#[derive(Clone, Copy, PartialEq, Eq, Debug)]
pub enum TruncateAnswer {
    /// The file has the new size.
    Done,
    /// The page that is cut into is filling: try again after a request has ended.
    Wait(PageIndex),
    /// The page that is cut into has to be filled first.
    Miss(PageIndex),
}

/// The bytes of a handle's file that a call reads or changes, whose pages it needs.
#[derive(Clone, Copy, PartialEq, Eq, Debug)]
pub struct Demand {
    pub handle: HandleId,
    pub offset: u64,
    pub count: u64,
    /// Whether the call makes these pages dirty. If not, bytes past the end of the file are no part of the demand.
    pub dirties: bool,
}

/// Which room a call wants.
#[derive(Clone, Copy, PartialEq, Eq, Debug)]
pub enum Want {
    /// So many more free frames.
    Frames(u64),
    /// Fewer dirty pages.
    Clean,
}

/// A refusal, with the buffer that was handed in.
#[derive(Drop, Debug)]
pub struct Refused {
    pub refusal: Refusal,
    pub buffer: Buffer,
}

/// A refusal of an end, with what was handed in.
#[derive(Drop, Debug)]
pub struct RefusedEnd {
    pub refusal: Refusal,
    pub finished: Finished,
}

/// What is known of a page.
#[derive(Clone, Copy, PartialEq, Eq, Debug)]
pub enum PageTags {
    Absent,
    Filling,
    Cached(Tags),
}
