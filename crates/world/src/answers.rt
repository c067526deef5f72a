//! What the calls of a world answer that begin a request, or end one, and that as replies of the machine.

ghost use Rattle.std.specs.Prelude.{◌≡◌};
ghost use Rattle.cachecore.specs.Replies.{answered};
ghost use Rattle.world.specs.Answers.{end_says, fill_says, flush_says, sync_says};

use blockdev::Buffer;
use cachecore::{Kind, Reply};
use pc_types::{BlockNo, ErrCode, FileId, PageIndex, Refusal, Serial};

/// What the begin of a fill answers.
#[derive(Clone, Copy, PartialEq, Eq, Debug)]
pub enum FillAnswer {
    /// The file has no such page.
    Gone,
    /// The page is filling already.
    Wait(PageIndex),
    /// The page is cached already.
    Present,
    /// The page is cached: its bytes are not on the device, so they are zeros.
    Filled,
    /// The page is filling, by this request.
    Begun(Serial),
}

/// What the begin of a flush answers.
#[derive(Clone, Copy, PartialEq, Eq, Debug)]
pub enum FlushAnswer {
    /// No page of the file is to be written.
    Nothing,
    /// A write of a page has begun, by this request.
    Begun(Serial),
}

/// What a step of a sync answers.
#[derive(Clone, Copy, PartialEq, Eq, Debug)]
pub enum SyncAnswer {
    /// A write of a page has begun, by this request.
    Begun(Serial),
    /// A write of the page is in flight: try again after a request has ended.
    Wait(PageIndex),
    /// The sync is over, and no write of the file failed since it began.
    Clean,
    /// The sync is over, and a write of the file failed since it began. The code is that of the last one.
    Failed(ErrCode),
}

/// How a request ended.
#[derive(Clone, Copy, PartialEq, Eq, Debug)]
pub enum EndAnswer {
    /// Its page was cut off before, and nothing changed.
    Dropped,
    /// Its device call failed. The page to fill is absent again.
    FillFailed(ErrCode),
    /// Its device call failed, on a page of this file. The page to write is dirty again.
    FlushFailed(FileId, ErrCode),
    Filled,
    Written,
}

/// A request that has ended, and what its device call came to.
#[derive(Drop, Debug)]
pub struct EndTold {
    pub answer: EndAnswer,
    pub kind: Kind,
    /// The block that its device call was of.
    pub block: BlockNo,
    pub outcome: Result<(), ErrCode>,
    /// The bytes that were read or written, where the call went well.
    pub buffer: Buffer,
}

pub fn fill_reply(answer: &Result<FillAnswer, Refusal>) -> Reply
    ensures { result ≡ answered fill_says answer.now }
{
    match answer {
        Ok(FillAnswer::Gone) => Reply::Gone,
        Ok(FillAnswer::Wait(page)) => Reply::Wait(*page),
        Ok(FillAnswer::Present) => Reply::Present,
        Ok(FillAnswer::Filled) => Reply::Filled,
        Ok(FillAnswer::Begun(serial)) => Reply::Job(*serial),
        Err(refusal) => Reply::Refused(*refusal),
    }
}

pub fn flush_reply(answer: &Result<FlushAnswer, Refusal>) -> Reply
    ensures { result ≡ answered flush_says answer.now }
{
    match answer {
        Ok(FlushAnswer::Nothing) => Reply::Nothing,
        Ok(FlushAnswer::Begun(serial)) => Reply::Job(*serial),
        Err(refusal) => Reply::Refused(*refusal),
    }
}

pub fn sync_reply(answer: &Result<SyncAnswer, Refusal>) -> Reply
    ensures { result ≡ answered sync_says answer.now }
{
    match answer {
        Ok(SyncAnswer::Begun(serial)) => Reply::Job(*serial),
        Ok(SyncAnswer::Wait(page)) => Reply::Wait(*page),
        Ok(SyncAnswer::Clean) => Reply::Clean,
        Ok(SyncAnswer::Failed(code)) => Reply::Failed(*code),
        Err(refusal) => Reply::Refused(*refusal),
    }
}

pub fn end_reply(answer: &Result<EndAnswer, Refusal>) -> Reply
    ensures { result ≡ answered end_says answer.now }
{
    match answer {
        Ok(EndAnswer::Dropped) => Reply::Dropped,
        Ok(EndAnswer::FillFailed(code)) => Reply::Failed(*code),
        Ok(EndAnswer::FlushFailed(_, code)) => Reply::Failed(*code),
        Ok(EndAnswer::Filled) => Reply::Filled,
        Ok(EndAnswer::Written) => Reply::Written,
        Err(refusal) => Reply::Refused(*refusal),
    }
}
