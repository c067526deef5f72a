//! Reads and writes, whose bytes stand beside their entries.

ghost use Rattle.std.specs.Prelude.{◌≡◌, ◌≤◌, ℕ, IfErr, IfOk, List, Ok, [], drop, length, take};
ghost use Rattle.cachecore.specs.Replies.{bytes_read, was_read, wrote};
ghost use Rattle.machine.specs.declared.event.Event.TheVariants as event;
ghost use Rattle.trail.specs.Entries.{reply_with};
ghost use Rattle.held.specs.Denials.{IsDenied};
ghost use Rattle.held.specs.Entered.{Made};

use crate::denied::{Denied, told};
use crate::log::{Seat, Slip};
use crate::naming::Naming;
use crate::state::Held;
use cachecore::replies::of_write;
use cachecore::{Event, ReadAnswer, Reply, WriteAnswer};
use pc_types::{Bytes, HandleId, Refusal};
use std::alloc::Global;
use trail::Trail;

impl<B: Naming, T: Trail> Held<B, T> {
    /// Reads the bytes from `offset` on into the front of `out`.
    pub fn read(
        &mut self,
        seat: &mut Seat,
        handle: HandleId,
        offset: u64,
        out: &mut [u8],
    ) -> Result<(ReadAnswer, Slip), Denied>
        requires { seat.old.table ≡ B.table }
        ensures made { IfOk result (λ r. Made (event.Read handle offset (length out.old)) (was_read (Ok r.0) out.new) self.old self.new seat.old seat.new r.1) }
        ensures denied { IfErr result (IsDenied B.files B.sizes B.name B.whole (event.Read handle offset (length out.old)) self.old self.new seat.old seat.new) }
        ensures count { IfOk result (λ r. bytes_read (Ok r.0) ≤ length out.old) }
        ensures rest { IfOk result (λ r. drop (bytes_read (Ok r.0)) out.new ≡ drop (bytes_read (Ok r.0)) out.old) }
        ensures kept { IfErr result (λ _. out.new ≡ out.old) }
    {
        let Held {
            core,
            log,
            alloc,
            ..
        } = self;
        let asked = out.len() as u64;
        if !log.has_room(core, 1, asked) {
            return Err(log.full(seat));
        }
        let answer = core.read(handle, offset, out);
        let event = Event::Read(handle, offset, asked);
        let (reply, count) = of_read(&answer, *alloc);
        let slip = log.enter(seat, event, reply, &out[..count as usize]);
        told(answer, slip)
    }

    /// Writes the bytes into the file from `offset` on.
    pub fn write(
        &mut self,
        seat: &mut Seat,
        handle: HandleId,
        offset: u64,
        bytes: &[u8],
    ) -> Result<(WriteAnswer, Slip), Denied>
        requires { seat.old.table ≡ B.table }
        ensures made { IfOk result (λ r. Made (event.Write handle offset bytes.now) (wrote (Ok r.0)) self.old self.new seat.old seat.new r.1) }
        ensures denied { IfErr result (IsDenied B.files B.sizes B.name B.whole (event.Write handle offset bytes.now) self.old self.new seat.old seat.new) }
    {
        let Held {
            core,
            log,
            alloc,
            ..
        } = self;
        if !log.has_room(core, 1, bytes.len() as u64) {
            return Err(log.full(seat));
        }
        let answer = core.write(handle, offset, bytes);
        let event = Event::Write(handle, offset, no_bytes(*alloc));
        let slip = log.enter(seat, event, of_write(&answer), bytes);
        told(answer, slip)
    }

    /// Writes the bytes at the end of the file.
    pub fn append(
        &mut self,
        seat: &mut Seat,
        handle: HandleId,
        bytes: &[u8],
    ) -> Result<(WriteAnswer, Slip), Denied>
        requires { seat.old.table ≡ B.table }
        ensures made { IfOk result (λ r. Made (event.Append handle bytes.now) (wrote (Ok r.0)) self.old self.new seat.old seat.new r.1) }
        ensures denied { IfErr result (IsDenied B.files B.sizes B.name B.whole (event.Append handle bytes.now) self.old self.new seat.old seat.new) }
    {
        let Held {
            core,
            log,
            alloc,
            ..
        } = self;
        if !log.has_room(core, 1, bytes.len() as u64) {
            return Err(log.full(seat));
        }
        let answer = core.append(handle, bytes);
        let event = Event::Append(handle, no_bytes(*alloc));
        let slip = log.enter(seat, event, of_write(&answer), bytes);
        told(answer, slip)
    }
}

/// No bytes. They take no memory.
pub(crate) fn no_bytes(alloc: Global) -> Bytes
    ensures { result ≡ [] }
{
    Bytes::from_vec(Vec::new(alloc))
}

/// What a read answered, and how many bytes stand beside it.
pub(crate) fn of_read(answer: &Result<ReadAnswer, Refusal>, alloc: Global) -> (Reply, u64)
    ensures reply { (out : List ℕ) → reply_with result.0 (take result.1 out) ≡ was_read answer.now out }
    ensures count { result.1 ≡ bytes_read answer.now }
{
    match answer {
        Ok(ReadAnswer::Bytes(count)) => (Reply::Bytes(no_bytes(alloc)), *count),
        Ok(ReadAnswer::Wait(page)) => (Reply::Wait(*page), 0),
        Ok(ReadAnswer::Miss(page)) => (Reply::Miss(*page), 0),
        Err(refusal) => (Reply::Refused(*refusal), 0),
    }
}
