//! Requests that have begun: the answers of the cache, with an errand where it begins a job.

ghost use Rattle.std.specs.Prelude.{◌≡◌, Err, IfErr, IfOk, None, Ok};
ghost use Rattle.cachecore.specs.declared.answers.SyncStepped.TheVariants as sync;
ghost use Rattle.held.specs.Started.{IsAtHome, as_fill, as_flush, as_sync, fill_job, flush_job, given_out, sync_job};

use blockdev::{Buffer, Job};
use cachecore::{FillBegun, FlushBegun, Refused, SyncStepped};
use deeds::naming::NamesDeeds;
use deeds::sides::{Desk, Errand};
use pc_types::{ErrCode, PageIndex};

/// What the begin of a fill answers, with the buffer that was handed in.
#[derive(Drop)]
pub enum FillStarted<B: NamesDeeds> {
    /// The file has no such page.
    Gone(Buffer),
    /// The page is filling already.
    Wait(PageIndex, Buffer),
    /// The page is cached already.
    Present(Buffer),
    /// The page is cached: its bytes are not on the device, so they are zeros.
    Filled(Buffer),
    /// The page is filling: its block has to be read, into the buffer.
    Job(Errand<B>),
}

/// What the begin of a flush answers, with the buffer that was handed in.
#[derive(Drop)]
pub enum FlushStarted<B: NamesDeeds> {
    /// No page of the file is to be written.
    Nothing(Buffer),
    /// A write of a page has begun: the buffer has its bytes, and they have to be written to its block.
    Job(Errand<B>),
}

/// What a step of a sync answers, with the buffer that was handed in.
#[derive(Drop)]
pub enum SyncMoved<B: NamesDeeds> {
    /// A write of a page has begun: the buffer has its bytes, and they have to be written to its block.
    Job(Errand<B>),
    /// A write of the page is in flight: try again after a request has ended.
    Wait(PageIndex, Buffer),
    /// The sync is over, and no write of the file failed since it began.
    Clean(Buffer),
    /// The sync is over, and a write of the file failed since it began. The code is that of the last one.
    Failed(ErrCode, Buffer),
}

/// Gives the deed of the block of a fill that has begun.
pub(crate) fn fill_started<B: NamesDeeds>(
    desk: &mut Desk<B>,
    answer: Result<FillBegun, Refused>,
) -> Result<FillStarted<B>, Refused>
    requires { IsAtHome desk.old (fill_job answer) }
    ensures desk { desk.new ≡ given_out desk.old (fill_job answer) }
    ensures ok { IfOk result (λ s. answer ≡ Ok (as_fill s)) }
    ensures err { IfErr result (λ e. answer ≡ Err e) }
{
    match answer {
        Ok(FillBegun::Gone(buffer)) => Ok(FillStarted::Gone(buffer)),
        Ok(FillBegun::Wait(page, buffer)) => Ok(FillStarted::Wait(page, buffer)),
        Ok(FillBegun::Present(buffer)) => Ok(FillStarted::Present(buffer)),
        Ok(FillBegun::Filled(buffer)) => Ok(FillStarted::Filled(buffer)),
        Ok(FillBegun::Job(job)) => Ok(FillStarted::Job(desk.give(job))),
        Err(refused) => Err(refused),
    }
}

/// Gives the deed of the block of a flush that has begun.
pub(crate) fn flush_started<B: NamesDeeds>(
    desk: &mut Desk<B>,
    answer: Result<FlushBegun, Refused>,
) -> Result<FlushStarted<B>, Refused>
    requires { IsAtHome desk.old (flush_job answer) }
    ensures desk { desk.new ≡ given_out desk.old (flush_job answer) }
    ensures ok { IfOk result (λ s. answer ≡ Ok (as_flush s)) }
    ensures err { IfErr result (λ e. answer ≡ Err e) }
{
    match answer {
        Ok(FlushBegun::Nothing(buffer)) => Ok(FlushStarted::Nothing(buffer)),
        Ok(FlushBegun::Job(job)) => Ok(FlushStarted::Job(desk.give(job))),
        Err(refused) => Err(refused),
    }
}

/// Gives the deed of the block of a flush that a sync has begun.
pub(crate) fn sync_moved<B: NamesDeeds>(
    desk: &mut Desk<B>,
    answer: Result<SyncStepped, Refused>,
) -> Result<SyncMoved<B>, Refused>
    requires { IsAtHome desk.old (sync_job answer) }
    ensures desk { desk.new ≡ given_out desk.old (sync_job answer) }
    ensures ok { IfOk result (λ s. answer ≡ Ok (as_sync s)) }
    ensures err { IfErr result (λ e. answer ≡ Err e) }
{
    match answer {
        Ok(stepped) => match without_job(stepped) {
            Ok(moved) => Ok(moved),
            Err(job) => Ok(SyncMoved::Job(desk.give(job))),
        },
        Err(refused) => Err(refused),
    }
}

// The step that begins no job, or the job.
fn without_job<B: NamesDeeds>(stepped: SyncStepped) -> Result<SyncMoved<B>, Job>
    ensures ok { IfOk result (λ s. (stepped ≡ as_sync s) × (sync_job (Ok stepped) ≡ None)) }
    ensures err { IfErr result (λ job. stepped ≡ sync.Job job) }
{
    match stepped {
        SyncStepped::Job(job) => Err(job),
        SyncStepped::Wait(page, buffer) => Ok(SyncMoved::Wait(page, buffer)),
        SyncStepped::Clean(buffer) => Ok(SyncMoved::Clean(buffer)),
        SyncStepped::Failed(code, buffer) => Ok(SyncMoved::Failed(code, buffer)),
    }
}
