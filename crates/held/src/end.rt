//! The ends of requests, as they are entered, and the recording of a write that failed.

ghost use Rattle.std.specs.Prelude.{◌≡◌, [], IsOk, Ok};
ghost use Rattle.cachecore.specs.Replies.{end_of};
ghost use Rattle.held.specs.Ends.{IsOnBoard, IsRecorded, bytes_read_in, went_well};
ghost use Rattle.trail.specs.Entries.{end_with};

use crate::bytes::no_bytes;
use blockdev::Finished;
use cachecore::{End as Ending, Ended, Outcome, RefusedEnd};
use errboard::{Receipt, Recorder};
use pc_types::Kind;
use std::alloc::Global;

/// The end that a finished job makes, without its bytes.
pub(crate) fn end_without(finished: &Finished, alloc: Global) -> Ending
    ensures { result ≡ end_with (end_of finished.now) [] }
{
    let outcome = match (finished.outcome(), finished.kind()) {
        (Err(code), _) => Outcome::Fault(code),
        (Ok(()), Kind::Fill) => Outcome::Read(no_bytes(alloc)),
        (Ok(()), Kind::Flush) => Outcome::Written,
    };
    Ending {
        cache: finished.cache(),
        kind: finished.kind(),
        serial: finished.serial(),
        block: finished.block(),
        outcome,
    }
}

/// Records a flush, where it failed.
pub(crate) fn record(recorder: &mut Recorder, answer: &Result<Ended, RefusedEnd>) -> Option<Receipt>
    requires { IsOnBoard answer.now }
    ensures { IsRecorded recorder.old answer.now result recorder.new }
{
    let Ok(Ended::Failed(file, code, _)) = answer else {
        return None;
    };
    Some(recorder.record(*file, *code))
}

/// What an end answers that went through.
pub(crate) fn gone_through(answer: Result<Ended, RefusedEnd>) -> Ended
    requires { IsOk answer }
    ensures { answer ≡ Ok result }
{
    match answer {
        Ok(ended) => ended,
        Err(_) => unreachable!(),
    }
}

/// Whether the device call went well.
pub(crate) fn is_well(finished: &Finished) -> bool
    ensures { result ≡ went_well finished.now.outcome }
{
    match finished.outcome() {
        Ok(()) => true,
        Err(_) => false,
    }
}

/// The bytes that stand beside the entry of a fill's end: those that were read, where its device call went well and it was not refused.
pub(crate) fn bytes_of(answer: &Result<Ended, RefusedEnd>, is_read: bool) -> &[u8]
    ensures { result.now ≡ bytes_read_in answer.now is_read }
{
    if !is_read {
        return &[];
    }
    match answer {
        Ok(Ended::Dropped(buffer)) => buffer.as_slice(),
        Ok(Ended::Failed(_, _, buffer)) => buffer.as_slice(),
        Ok(Ended::Done(buffer)) => buffer.as_slice(),
        Err(_) => &[],
    }
}
