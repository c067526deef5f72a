//! What one thread works with at the cache: a seat and two open files.

ghost use Rattle.std.specs.Prelude.{◌≡◌, IfOk, length};

use crate::member::{Member, Shared};
use held::denied::Denied;
use held::log::Seat;
use held::naming::Naming;
use pc_types::{FileId, Refusal};
use shared::handle::Handle;
use std::marker::PhantomData;
use std::sync::Wait;
use workload_steps::{Bytes, Kind, MAX_COUNT, Step, Steps, Tally};

/// A seat of the cache that B names, with an own file that is written and a common one that is read, and what its calls answered.
#[derive(Drop)]
pub struct Desk<B: Naming> {
    seat: Seat,
    own: Handle,
    common: Handle,
    tally: Tally,
    of: PhantomData<B>,
    ghost seated: { seat.table ≡ B.table },
    ghost own_came: { own.pass.board ≡ B.board },
    ghost common_came: { common.pass.board ≡ B.board },
}

/// What a call answered, or why it was refused.
#[inline(always)]
fn heard<T>(answer: Result<T, Denied>) -> Result<T, Refusal> {
    match answer {
        Ok(answer) => Ok(answer),
        Err(denied) => Err(denied.refusal),
    }
}

impl<B: Naming> Desk<B> {
    /// Opens the two files, the own one for appending writes.
    pub fn open<R: Wait>(
        rt: &R,
        cache: &Shared<B>,
        member: Member<B>,
        own: FileId,
        common: FileId,
    ) -> Result<Desk<B>, Refusal> {
        let mut seat = member.into_seat();
        match open_both(rt, cache, &mut seat, own, common) {
            Ok((own, common)) => Ok(Desk {
                tally: opened(&own, &common),
                seat,
                own,
                common,
                of: PhantomData,
            }),
            Err(refusal) => {
                // by a call, since the check is slow where a seat goes out of scope
                drop(seat);
                Err(refusal)
            }
        }
    }

    /// Closes the two files, and gives the seat and what the calls answered.
    pub fn close<R: Wait>(self, rt: &R, cache: &Shared<B>) -> Result<(Member<B>, Tally), Refusal> {
        let Desk {
            mut seat,
            own,
            common,
            tally,
            ..
        } = self;
        let closed = close_both(rt, cache, &mut seat, own, common);
        let member = Member::of(seat);
        match closed {
            Ok(()) => Ok((member, tally)),
            Err(refusal) => {
                drop(member);
                Err(refusal)
            }
        }
    }

    /// Makes a call. What is read goes into the front of `out`.
    pub fn make_call<R: Wait>(
        &mut self,
        rt: &R,
        cache: &Shared<B>,
        step: &Step,
        bytes: &Bytes,
        out: &mut [u8],
    ) -> Result<(), Refusal>
        requires { length out.old ≡ 65536 }
    {
        match step.kind {
            Kind::ReadCommon => self.read_common(rt, cache, step.offset, &mut out[..step.count]),
            Kind::Read => self.read(rt, cache, step.offset, &mut out[..step.count]),
            Kind::Write => self.write(rt, cache, step.offset, bytes.part(step.start, step.count)),
            Kind::Append => self.append(rt, cache, bytes.part(step.start, step.count)),
            Kind::Truncate => self.truncate(rt, cache, step.offset),
            Kind::Fsync => self.fsync(rt, cache),
        }
    }

    // Each kind has a function of its own: the check of one that makes them all takes minutes.

    fn read_common<R: Wait>(
        &mut self,
        rt: &R,
        cache: &Shared<B>,
        offset: u64,
        out: &mut [u8],
    ) -> Result<(), Refusal> {
        match cache.pread(rt, &mut self.seat, &self.common, offset, out) {
            Ok((count, _)) => {
                self.tally.add_read(&out[..count as usize]);
                Ok(())
            }
            Err(denied) => Err(denied.refusal),
        }
    }

    fn read<R: Wait>(
        &mut self,
        rt: &R,
        cache: &Shared<B>,
        offset: u64,
        out: &mut [u8],
    ) -> Result<(), Refusal> {
        match cache.pread(rt, &mut self.seat, &self.own, offset, out) {
            Ok((count, _)) => {
                self.tally.add_read(&out[..count as usize]);
                Ok(())
            }
            Err(denied) => Err(denied.refusal),
        }
    }

    /// Writes so many bytes into the own file, the most that a call may at once.
    pub fn write_all<R: Wait>(
        &mut self,
        rt: &R,
        cache: &Shared<B>,
        steps: &mut Steps,
        size: u64,
    ) -> Result<(), Refusal> {
        for part in 0..size / MAX_COUNT {
            let step = steps.fill(part * MAX_COUNT);
            let bytes = steps.bytes.part(step.start, step.count);
            self.write(rt, cache, step.offset, bytes)?;
        }
        Ok(())
    }

    fn write<R: Wait>(
        &mut self,
        rt: &R,
        cache: &Shared<B>,
        offset: u64,
        bytes: &[u8],
    ) -> Result<(), Refusal> {
        let (wrote, _) = heard(cache.pwrite(rt, &mut self.seat, &self.own, offset, bytes))?;
        self.tally.add_both(wrote.count, wrote.end);
        Ok(())
    }

    fn append<R: Wait>(&mut self, rt: &R, cache: &Shared<B>, bytes: &[u8]) -> Result<(), Refusal> {
        let (wrote, _) = heard(cache.write(rt, &mut self.seat, &mut self.own, bytes))?;
        self.tally.add_both(wrote.count, wrote.end);
        Ok(())
    }

    fn truncate<R: Wait>(&mut self, rt: &R, cache: &Shared<B>, size: u64) -> Result<(), Refusal> {
        heard(cache.truncate(rt, &mut self.seat, &self.own, size))?;
        self.tally.add_done();
        Ok(())
    }

    /// Syncs the own file.
    pub fn fsync<R: Wait>(&mut self, rt: &R, cache: &Shared<B>) -> Result<(), Refusal> {
        heard(cache.fsync(rt, &mut self.seat, &mut self.own))?;
        self.tally.add_done();
        Ok(())
    }
}

/// What opening these two has answered.
fn opened(own: &Handle, common: &Handle) -> Tally {
    let mut tally = Tally::NONE;
    for handle in [own, common] {
        tally.add_both(handle.file().0, handle.cursor());
    }
    tally
}

/// Opens the two files, the first for appending writes.
fn open_both<R: Wait, B: Naming>(
    rt: &R,
    cache: &Shared<B>,
    seat: &mut Seat,
    own: FileId,
    common: FileId,
) -> Result<(Handle, Handle), Refusal>
    requires { seat.old.table ≡ B.table }
    ensures seat { seat.new.table ≡ B.table }
    ensures came { IfOk result (λ r. (r.0.pass.board ≡ B.board) × (r.1.pass.board ≡ B.board)) }
{
    let own = open_file(rt, cache, seat, own, true)?;
    match open_file(rt, cache, seat, common, false) {
        Ok(common) => Ok((own, common)),
        Err(refusal) => {
            drop(own);
            Err(refusal)
        }
    }
}

fn open_file<R: Wait, B: Naming>(
    rt: &R,
    cache: &Shared<B>,
    seat: &mut Seat,
    file: FileId,
    append: bool,
) -> Result<Handle, Refusal>
    requires { seat.old.table ≡ B.table }
    ensures seat { seat.new.table ≡ B.table }
    ensures came { IfOk result (λ h. h.pass.board ≡ B.board) }
{
    match cache.open(rt, seat, file, append) {
        Ok((handle, _)) => Ok(handle),
        Err(denied) => Err(denied.refusal),
    }
}

fn close_both<R: Wait, B: Naming>(
    rt: &R,
    cache: &Shared<B>,
    seat: &mut Seat,
    own: Handle,
    common: Handle,
) -> Result<(), Refusal>
    requires seat { seat.old.table ≡ B.table }
    requires own { own.pass.board ≡ B.board }
    requires common { common.pass.board ≡ B.board }
    ensures { seat.new.table ≡ B.table }
{
    let first = close_handle(rt, cache, seat, own);
    let second = close_handle(rt, cache, seat, common);
    first?;
    second
}

fn close_handle<R: Wait, B: Naming>(
    rt: &R,
    cache: &Shared<B>,
    seat: &mut Seat,
    handle: Handle,
) -> Result<(), Refusal>
    requires seat { seat.old.table ≡ B.table }
    requires came { handle.pass.board ≡ B.board }
    ensures { seat.new.table ≡ B.table }
{
    match cache.close_handle(rt, seat, handle) {
        Ok(_) => Ok(()),
        Err((denied, handle)) => {
            drop(handle);
            Err(denied.refusal)
        }
    }
}
