//! What the calls answer, as replies of the machine. A read's reply has its bytes, which its answer has not, so it is not here.

ghost use Rattle.std.specs.Prelude.{◌≡◌};
ghost use Rattle.cachecore.specs.Replies.{closed, created, evicted, fill_begun, fill_ended, flush_begun, flush_ended, opened, sized, sync_begun, sync_dropped, sync_stepped, was_truncated, wrote};

use crate::answers::{
    Ended, FillBegun, FlushBegun, Refused, RefusedEnd, SyncStepped, TruncateAnswer, WriteAnswer,
};
use machine::Reply;
use pc_types::{FileId, HandleId, PageIndex, Refusal, SyncId};

pub fn of_create(answer: &Result<FileId, Refusal>) -> Reply
    ensures { result ≡ created answer.now }
{
    match answer {
        Ok(file) => Reply::File(*file),
        Err(refusal) => Reply::Refused(*refusal),
    }
}

pub fn of_open(answer: &Result<HandleId, Refusal>) -> Reply
    ensures { result ≡ opened answer.now }
{
    match answer {
        Ok(handle) => Reply::Handle(*handle),
        Err(refusal) => Reply::Refused(*refusal),
    }
}

pub fn of_close(answer: &Result<(), Refusal>) -> Reply
    ensures { result ≡ closed answer.now }
{
    match answer {
        Ok(()) => Reply::Closed,
        Err(refusal) => Reply::Refused(*refusal),
    }
}

pub fn of_size(answer: &Result<u64, Refusal>) -> Reply
    ensures { result ≡ sized answer.now }
{
    match answer {
        Ok(size) => Reply::Size(*size),
        Err(refusal) => Reply::Refused(*refusal),
    }
}

/// Of a write or an append.
pub fn of_write(answer: &Result<WriteAnswer, Refusal>) -> Reply
    ensures { result ≡ wrote answer.now }
{
    match answer {
        Ok(WriteAnswer::Wrote { count, end }) => Reply::Wrote(*count, *end),
        Ok(WriteAnswer::Wait(page)) => Reply::Wait(*page),
        Ok(WriteAnswer::Miss(page)) => Reply::Miss(*page),
        Err(refusal) => Reply::Refused(*refusal),
    }
}

pub fn of_truncate(answer: &Result<TruncateAnswer, Refusal>) -> Reply
    ensures { result ≡ was_truncated answer.now }
{
    match answer {
        Ok(TruncateAnswer::Done) => Reply::Done,
        Ok(TruncateAnswer::Wait(page)) => Reply::Wait(*page),
        Ok(TruncateAnswer::Miss(page)) => Reply::Miss(*page),
        Err(refusal) => Reply::Refused(*refusal),
    }
}

pub fn of_fill_begin(answer: &Result<FillBegun, Refused>) -> Reply
    ensures { result ≡ fill_begun answer.now }
{
    match answer {
        Ok(FillBegun::Gone(_)) => Reply::Gone,
        Ok(FillBegun::Wait(page, _)) => Reply::Wait(*page),
        Ok(FillBegun::Present(_)) => Reply::Present,
        Ok(FillBegun::Filled(_)) => Reply::Filled,
        Ok(FillBegun::Job(job)) => Reply::Job(job.serial()),
        Err(refused) => Reply::Refused(refused.refusal),
    }
}

pub fn of_fill_end(answer: &Result<Ended, RefusedEnd>) -> Reply
    ensures { result ≡ fill_ended answer.now }
{
    match answer {
        Ok(Ended::Dropped(_)) => Reply::Dropped,
        Ok(Ended::Failed(_, code, _)) => Reply::Failed(*code),
        Ok(Ended::Done(_)) => Reply::Filled,
        Err(refused) => Reply::Refused(refused.refusal),
    }
}

pub fn of_flush_begin(answer: &Result<FlushBegun, Refused>) -> Reply
    ensures { result ≡ flush_begun answer.now }
{
    match answer {
        Ok(FlushBegun::Nothing(_)) => Reply::Nothing,
        Ok(FlushBegun::Job(job)) => Reply::Job(job.serial()),
        Err(refused) => Reply::Refused(refused.refusal),
    }
}

pub fn of_flush_end(answer: &Result<Ended, RefusedEnd>) -> Reply
    ensures { result ≡ flush_ended answer.now }
{
    match answer {
        Ok(Ended::Dropped(_)) => Reply::Dropped,
        Ok(Ended::Failed(_, code, _)) => Reply::Failed(*code),
        Ok(Ended::Done(_)) => Reply::Written,
        Err(refused) => Reply::Refused(refused.refusal),
    }
}

pub fn of_evict(answer: &Option<(FileId, PageIndex)>) -> Reply
    ensures { result ≡ evicted answer.now }
{
    match answer {
        Some((file, page)) => Reply::Evicted(*file, *page),
        None => Reply::NoneIdle,
    }
}

/// Of a sync that begins, with a range or without.
pub fn of_sync_begin(answer: &Result<SyncId, Refusal>) -> Reply
    ensures { result ≡ sync_begun answer.now }
{
    match answer {
        Ok(sync) => Reply::Sync(*sync),
        Err(refusal) => Reply::Refused(*refusal),
    }
}

pub fn of_sync_step(answer: &Result<SyncStepped, Refused>) -> Reply
    ensures { result ≡ sync_stepped answer.now }
{
    match answer {
        Ok(SyncStepped::Job(job)) => Reply::Job(job.serial()),
        Ok(SyncStepped::Wait(page, _)) => Reply::Wait(*page),
        Ok(SyncStepped::Clean(_)) => Reply::Clean,
        Ok(SyncStepped::Failed(code, _)) => Reply::Failed(*code),
        Err(refused) => Reply::Refused(refused.refusal),
    }
}

pub fn of_sync_drop(answer: &Result<(), Refusal>) -> Reply
    ensures { result ≡ sync_dropped answer.now }
{
    match answer {
        Ok(()) => Reply::Dropped,
        Err(refusal) => Reply::Refused(*refusal),
    }
}
