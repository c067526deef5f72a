//! What the cache's calls come to that begin a request or end one: the job, or the answer and the buffer that comes back.

ghost use Rattle.std.specs.Prelude.{◌≡◌, Ok};
ghost use Rattle.world.specs.Begins.{IsFillBegun, IsFlushBegun, IsSyncStepped};
ghost use Rattle.cachecore.specs.Replies.{buffer_of};
ghost use Rattle.world.specs.Ends.{end_as};

use crate::answers::{EndAnswer, FillAnswer, FlushAnswer, SyncAnswer};
use blockdev::{Buffer, Job};
use cachecore::{Ended, FillBegun, FlushBegun, Kind, Refused, SyncStepped};
use pc_types::Refusal;

/// What a call that may begin a request comes to.
#[derive(Drop)]
pub enum Begun<A> {
    /// A request has begun, by this job.
    Job(Job),
    /// No request has begun: the answer, and the buffer that was handed in.
    Answered(Result<A, Refusal>, Buffer),
}

pub fn of_fill_begin(answer: Result<FillBegun, Refused>) -> Begun<FillAnswer>
    ensures { IsFillBegun answer result }
{
    match answer {
        Ok(FillBegun::Job(job)) => Begun::Job(job),
        Ok(FillBegun::Gone(buffer)) => Begun::Answered(Ok(FillAnswer::Gone), buffer),
        Ok(FillBegun::Wait(page, buffer)) => Begun::Answered(Ok(FillAnswer::Wait(page)), buffer),
        Ok(FillBegun::Present(buffer)) => Begun::Answered(Ok(FillAnswer::Present), buffer),
        Ok(FillBegun::Filled(buffer)) => Begun::Answered(Ok(FillAnswer::Filled), buffer),
        Err(refused) => Begun::Answered(Err(refused.refusal), refused.buffer),
    }
}

pub fn of_flush_begin(answer: Result<FlushBegun, Refused>) -> Begun<FlushAnswer>
    ensures { IsFlushBegun answer result }
{
    match answer {
        Ok(FlushBegun::Job(job)) => Begun::Job(job),
        Ok(FlushBegun::Nothing(buffer)) => Begun::Answered(Ok(FlushAnswer::Nothing), buffer),
        Err(refused) => Begun::Answered(Err(refused.refusal), refused.buffer),
    }
}

pub fn of_sync_step(answer: Result<SyncStepped, Refused>) -> Begun<SyncAnswer>
    ensures { IsSyncStepped answer result }
{
    match answer {
        Ok(stepped) => of_stepped(stepped),
        Err(refused) => Begun::Answered(Err(refused.refusal), refused.buffer),
    }
}

fn of_stepped(stepped: SyncStepped) -> Begun<SyncAnswer>
    ensures { IsSyncStepped (Ok stepped) result }
{
    match stepped {
        SyncStepped::Job(job) => Begun::Job(job),
        SyncStepped::Wait(page, buffer) => Begun::Answered(Ok(SyncAnswer::Wait(page)), buffer),
        SyncStepped::Clean(buffer) => Begun::Answered(Ok(SyncAnswer::Clean), buffer),
        SyncStepped::Failed(code, buffer) => Begun::Answered(Ok(SyncAnswer::Failed(code)), buffer),
    }
}

/// How a request ended, and its buffer.
pub fn of_end(kind: Kind, end: Ended) -> (EndAnswer, Buffer)
    ensures answer { result.0 ≡ end_as kind end }
    ensures buffer { result.1 ≡ buffer_of end }
{
    match end {
        Ended::Dropped(buffer) => (EndAnswer::Dropped, buffer),
        Ended::Failed(file, code, buffer) => match kind {
            Kind::Fill => (EndAnswer::FillFailed(code), buffer),
            Kind::Flush => (EndAnswer::FlushFailed(file, code), buffer),
        },
        Ended::Done(buffer) => match kind {
            Kind::Fill => (EndAnswer::Filled, buffer),
            Kind::Flush => (EndAnswer::Written, buffer),
        },
    }
}
