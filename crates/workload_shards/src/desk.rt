//! What one thread works with at the cache: its seats and two open files.

ghost use Rattle.std.specs.Prelude.{◌≡◌, length};
ghost use Rattle.shared.specs.ShardSeats.{AreSeated};

use crate::member::{Member, Sharded};
use pc_types::{FileId, Refusal};
use shared::shards::handle::ShardHandle;
use shared::shards::naming::ShardNaming;
use shared::shards::seat::ShardSeat;
use std::marker::PhantomData;
use std::sync::Wait;
use workload_steps::{Bytes, Kind, MAX_COUNT, Step, Steps, Tally};

/// Seats of the cache that B names, with an own file that is written and a common one that is read, and what the calls answered.
#[derive(Drop)]
pub struct Desk<B: ShardNaming> {
    seat: ShardSeat,
    own: Opened<B>,
    common: Opened<B>,
    tally: Tally,
    ghost seated: { AreSeated B.names seat },
}

/// An open file of the cache that B names.
#[derive(Drop)]
struct Opened<B: ShardNaming> {
    handle: ShardHandle,
    of: PhantomData<B>,
    ghost came: { handle.handle.pass.board ≡ (B.names handle.shard).board },
}

impl<B: ShardNaming> Opened<B> {
    fn of(handle: ShardHandle) -> Opened<B>
        requires { handle.handle.pass.board ≡ (B.names handle.shard).board }
    {
        Opened {
            handle,
            of: PhantomData,
        }
    }
}

impl<B: ShardNaming> Desk<B> {
    /// Opens the two files, the own one for appending writes.
    pub fn open<R: Wait>(
        rt: &R,
        cache: &Sharded<B>,
        member: Member<B>,
        own: FileId,
        common: FileId,
    ) -> Result<Desk<B>, Refusal> {
        let mut seat = member.into_seat();
        match open_both(rt, cache, &mut seat, own, common) {
            Ok((own, common)) => Ok(Desk {
                tally: tally_of(cache, &own, &common),
                seat,
                own,
                common,
            }),
            Err(refusal) => {
                // by a call, since the check is slow where a seat goes out of scope
                drop(seat);
                Err(refusal)
            }
        }
    }

    /// Closes the two files, and gives the seats and what the calls answered.
    pub fn close<R: Wait>(self, rt: &R, cache: &Sharded<B>) -> Result<(Member<B>, Tally), Refusal> {
        let Desk {
            mut seat,
            own,
            common,
            tally,
            ..
        } = self;
        let closed = close_both(rt, cache, &mut seat, own, common);
        let member = Member::of(seat);
        match closed {
            Ok(()) => Ok((member, tally)),
            Err(refusal) => {
                drop(member);
                Err(refusal)
            }
        }
    }

    /// Makes a call. What is read goes into the front of `out`.
    pub fn make_call<R: Wait>(
        &mut self,
        rt: &R,
        cache: &Sharded<B>,
        step: &Step,
        bytes: &Bytes,
        out: &mut [u8],
    ) -> Result<(), Refusal>
        requires { length out.old ≡ 65536 }
    {
        match step.kind {
            Kind::ReadCommon => self.read_common(rt, cache, step.offset, &mut out[..step.count]),
            Kind::Read => self.read(rt, cache, step.offset, &mut out[..step.count]),
            Kind::Write => self.write(rt, cache, step.offset, bytes.part(step.start, step.count)),
            Kind::Append => self.append(rt, cache, bytes.part(step.start, step.count)),
            Kind::Truncate => self.truncate(rt, cache, step.offset),
            Kind::Fsync => self.fsync(rt, cache),
        }
    }

    // Each kind has a function of its own: the check of one that makes them all takes minutes.

    fn read_common<R: Wait>(
        &mut self,
        rt: &R,
        cache: &Sharded<B>,
        offset: u64,
        out: &mut [u8],
    ) -> Result<(), Refusal> {
        match cache.pread(rt, &mut self.seat, &self.common.handle, offset, out) {
            Ok((count, _)) => {
                self.tally.add_read(front(out, count));
                Ok(())
            }
            Err(denied) => Err(denied.refusal),
        }
    }

    fn read<R: Wait>(
        &mut self,
        rt: &R,
        cache: &Sharded<B>,
        offset: u64,
        out: &mut [u8],
    ) -> Result<(), Refusal> {
        match cache.pread(rt, &mut self.seat, &self.own.handle, offset, out) {
            Ok((count, _)) => {
                self.tally.add_read(front(out, count));
                Ok(())
            }
            Err(denied) => Err(denied.refusal),
        }
    }

    /// Writes so many bytes into the own file, the most that a call may at once.
    pub fn write_all<R: Wait>(
        &mut self,
        rt: &R,
        cache: &Sharded<B>,
        steps: &mut Steps,
        size: u64,
    ) -> Result<(), Refusal> {
        for part in 0..size / MAX_COUNT {
            let step = steps.fill(part * MAX_COUNT);
            let bytes = steps.bytes.part(step.start, step.count);
            self.write(rt, cache, step.offset, bytes)?;
        }
        Ok(())
    }

    fn write<R: Wait>(
        &mut self,
        rt: &R,
        cache: &Sharded<B>,
        offset: u64,
        bytes: &[u8],
    ) -> Result<(), Refusal> {
        match cache.pwrite(rt, &mut self.seat, &self.own.handle, offset, bytes) {
            Ok((wrote, _)) => {
                self.tally.add_both(wrote.count, wrote.end);
                Ok(())
            }
            Err(denied) => Err(denied.refusal),
        }
    }

    fn append<R: Wait>(&mut self, rt: &R, cache: &Sharded<B>, bytes: &[u8]) -> Result<(), Refusal> {
        match cache.write(rt, &mut self.seat, &mut self.own.handle, bytes) {
            Ok((wrote, _)) => {
                self.tally.add_both(wrote.count, wrote.end);
                Ok(())
            }
            Err(denied) => Err(denied.refusal),
        }
    }

    fn truncate<R: Wait>(&mut self, rt: &R, cache: &Sharded<B>, size: u64) -> Result<(), Refusal> {
        match cache.truncate(rt, &mut self.seat, &self.own.handle, size) {
            Ok(_) => {
                self.tally.add_done();
                Ok(())
            }
            Err(denied) => Err(denied.refusal),
        }
    }

    /// Syncs the own file.
    pub fn fsync<R: Wait>(&mut self, rt: &R, cache: &Sharded<B>) -> Result<(), Refusal> {
        match cache.fsync(rt, &mut self.seat, &mut self.own.handle) {
            Ok(_) => {
                self.tally.add_done();
                Ok(())
            }
            Err(denied) => Err(denied.refusal),
        }
    }
}

/// So many of the first bytes. No read answers more than it was asked for, which the cache says only of the seats of its own callers.
#[inline(always)]
fn front(out: &[u8], count: u64) -> &[u8] {
    &out[..out.len().min(count as usize)]
}

/// What opening these two has answered.
fn tally_of<B: ShardNaming>(cache: &Sharded<B>, own: &Opened<B>, common: &Opened<B>) -> Tally {
    let mut tally = Tally::NONE;
    for file in [own, common] {
        tally.add_both(cache.file_of(&file.handle).0, file.handle.cursor());
    }
    tally
}

/// Opens the two files, the first for appending writes.
fn open_both<R: Wait, B: ShardNaming>(
    rt: &R,
    cache: &Sharded<B>,
    seat: &mut ShardSeat,
    own: FileId,
    common: FileId,
) -> Result<(Opened<B>, Opened<B>), Refusal>
    requires { AreSeated B.names seat.old }
    ensures { AreSeated B.names seat.new }
{
    let own = open_file(rt, cache, seat, own, true)?;
    match open_file(rt, cache, seat, common, false) {
        Ok(common) => Ok((own, common)),
        Err(refusal) => {
            drop(own);
            Err(refusal)
        }
    }
}

fn open_file<R: Wait, B: ShardNaming>(
    rt: &R,
    cache: &Sharded<B>,
    seat: &mut ShardSeat,
    file: FileId,
    append: bool,
) -> Result<Opened<B>, Refusal>
    requires { AreSeated B.names seat.old }
    ensures { AreSeated B.names seat.new }
{
    match cache.open(rt, seat, file, append) {
        Ok((handle, _)) => Ok(Opened::of(handle)),
        Err(denied) => Err(denied.refusal),
    }
}

fn close_both<R: Wait, B: ShardNaming>(
    rt: &R,
    cache: &Sharded<B>,
    seat: &mut ShardSeat,
    own: Opened<B>,
    common: Opened<B>,
) -> Result<(), Refusal>
    requires { AreSeated B.names seat.old }
    ensures { AreSeated B.names seat.new }
{
    let first = close_file(rt, cache, seat, own);
    let second = close_file(rt, cache, seat, common);
    first?;
    second
}

fn close_file<R: Wait, B: ShardNaming>(
    rt: &R,
    cache: &Sharded<B>,
    seat: &mut ShardSeat,
    file: Opened<B>,
) -> Result<(), Refusal>
    requires { AreSeated B.names seat.old }
    ensures { AreSeated B.names seat.new }
{
    match cache.close_handle(rt, seat, file.handle) {
        Ok(_) => Ok(()),
        Err((denied, handle)) => {
            drop(handle);
            Err(denied.refusal)
        }
    }
}
