//! Whether what is answered is what a history tells.

ghost use Rattle.std.specs.Bool.{OnTrue};
ghost use Rattle.std.specs.Prelude.{◌≡◌};
ghost use Rattle.cachecore.specs.Replies.{outcome_of};
ghost use Rattle.trail.specs.Entries.{outcome_with, reply_with};

use cachecore::{Kind, Outcome, Reply};
use world::answers::EndTold;

/// Whether a reply is that of an entry, whose bytes are beside it.
pub fn is_told(reply: &Reply, told: &Reply, bytes: &[u8]) -> bool
    ensures { OnTrue result (reply.now ≡ reply_with told.now bytes.now) }
{
    match (reply, told) {
        (Reply::Refused(one), Reply::Refused(other)) => one == other,
        (Reply::File(one), Reply::File(other)) => one == other,
        (Reply::Handle(one), Reply::Handle(other)) => one == other,
        (Reply::Size(one), Reply::Size(other)) => one == other,
        (Reply::Bytes(read), Reply::Bytes(_)) => read.as_slice() == bytes,
        (Reply::Wait(one), Reply::Wait(other)) => one == other,
        (Reply::Miss(one), Reply::Miss(other)) => one == other,
        (Reply::Wrote(count, end), Reply::Wrote(other, last)) => count == other && end == last,
        (Reply::Job(one), Reply::Job(other)) => one == other,
        (Reply::Failed(one), Reply::Failed(other)) => one == other,
        (Reply::Evicted(file, page), Reply::Evicted(other, at)) => file == other && page == at,
        (Reply::Aged(one), Reply::Aged(other)) => one == other,
        (Reply::Sync(one), Reply::Sync(other)) => one == other,
        (Reply::Closed, Reply::Closed)
        | (Reply::Done, Reply::Done)
        | (Reply::Gone, Reply::Gone)
        | (Reply::Present, Reply::Present)
        | (Reply::Filled, Reply::Filled)
        | (Reply::Dropped, Reply::Dropped)
        | (Reply::Nothing, Reply::Nothing)
        | (Reply::Written, Reply::Written)
        | (Reply::NoneIdle, Reply::NoneIdle)
        | (Reply::Clean, Reply::Clean) => true,
        _ => false,
    }
}

/// Whether the device call of a request that has ended came to what an entry tells, whose bytes are beside it.
pub fn came_to(end: &EndTold, told: &Outcome, bytes: &[u8]) -> bool
    ensures { OnTrue result (outcome_of end.now.kind end.now.outcome end.now.buffer ≡ outcome_with told.now bytes.now) }
{
    match (&end.outcome, told) {
        (Err(code), Outcome::Fault(other)) => code == other,
        (Ok(()), Outcome::Read(_)) => end.kind == Kind::Fill && end.buffer.as_slice() == bytes,
        (Ok(()), Outcome::Written) => end.kind == Kind::Flush,
        _ => false,
    }
}
