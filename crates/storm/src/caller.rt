//! A caller: one thread that makes file calls.

ghost use Rattle.std.specs.Prelude.{◌≡◌};

use crate::member::Member;
use crate::steps::{FILES, Kind, MAX_COUNT, Step, Steps};
use blockdev::BlockDevice;
use held::denied::Denied;
use held::log::Slip;
use held::naming::Naming;
use pc_types::{FileId, Refusal};
use shared::cache::SharedCache;
use shared::handle::Handle;
use std::alloc::{AllocError, Global};
use std::marker::PhantomData;
use std::sync::Wait;
use storm_text::Refused;
use trail::FullTrail;

/// An open file of the cache that B names.
#[derive(Drop)]
struct Opened<B: Naming> {
    handle: Handle,
    of: PhantomData<B>,
    ghost came: { handle.pass.board ≡ B.board },
}

/// A thread's seat, its open files, which calls it makes and how many.
#[derive(Drop)]
pub struct Caller<B: Naming> {
    member: Member<B>,
    files: Vec<Opened<B>>,
    steps: Steps,
    count: u64,
    // room for an entry of each call
    crowded: Vec<Slip>,
}

/// The seat of a caller that is done, the entries at which its calls were refused for want of a block, and by what calls were refused.
#[derive(Drop)]
pub struct Done<B: Naming> {
    pub member: Member<B>,
    pub crowded: Vec<Slip>,
    pub refused: Refused,
}

impl<B: Naming> Caller<B> {
    /// A caller with no open file, who is to make so many calls.
    pub fn new(
        alloc: Global,
        member: Member<B>,
        steps: Steps,
        count: u64,
    ) -> Result<Caller<B>, AllocError> {
        Ok(Caller {
            files: Vec::with_capacity(alloc, FILES as usize)?,
            crowded: Vec::with_capacity(alloc, count as usize)?,
            member,
            steps,
            count,
        })
    }

    /// Opens the files, makes the calls, closes the files, and gives the seat back. A refused call counts as one that was made.
    pub fn run<R: Wait, D: BlockDevice>(
        self,
        rt: &R,
        cache: &SharedCache<B, D, FullTrail>,
    ) -> Done<B> {
        let Caller {
            mut member,
            mut files,
            mut steps,
            count,
            mut crowded,
        } = self;
        let mut refused = Refused::none();
        open_files(rt, cache, &mut member, &mut files, &mut refused);
        for number in 0..count {
            if let Some(denied) = make_call(
                rt,
                cache,
                &mut member,
                &mut files,
                &mut steps,
                number,
            ) {
                refused.count(denied.refusal);
                if let Some(slip) = crowded_by(&denied) {
                    let _ = crowded.push(slip);
                }
            }
        }
        close_files(rt, cache, &mut member, files, &mut refused);
        Done {
            member,
            crowded,
            refused,
        }
    }
}

/// Opens each file, for appending writes.
fn open_files<R: Wait, B: Naming, D: BlockDevice>(
    rt: &R,
    cache: &SharedCache<B, D, FullTrail>,
    member: &mut Member<B>,
    files: &mut Vec<Opened<B>>,
    refused: &mut Refused,
) {
    for file in 0..FILES {
        match cache.open(rt, &mut member.seat, FileId(file), true) {
            Ok((handle, _)) => {
                let _ = files.push(Opened {
                    handle,
                    of: PhantomData,
                });
            }
            Err(denied) => refused.count(denied.refusal),
        }
    }
}

/// Makes the call of this number. Answers by what it was refused.
fn make_call<R: Wait, B: Naming, D: BlockDevice>(
    rt: &R,
    cache: &SharedCache<B, D, FullTrail>,
    member: &mut Member<B>,
    files: &mut Vec<Opened<B>>,
    steps: &mut Steps,
    number: u64,
) -> Option<Denied> {
    let step = steps.step(number);
    let mut buffer = [0; MAX_COUNT];
    let bytes = &mut buffer[..step.count];
    steps.fill(bytes);
    let file = files.get_mut(step.file)?;
    file.make_call(rt, cache, member, &step, bytes)
}

/// The entry that refused a call for want of a block.
fn crowded_by(denied: &Denied) -> Option<Slip> {
    match denied.refusal {
        Refusal::NoSpace => denied.slip,
        _ => None,
    }
}

// What a call answers is told by the trail, but which of its refusals is the last. Each kind has a function of its own: the check of
// one that makes them all takes minutes.
impl<B: Naming> Opened<B> {
    /// Makes a call, with the bytes that are to be written or read over. Answers by what it was refused.
    fn make_call<R: Wait, D: BlockDevice>(
        &mut self,
        rt: &R,
        cache: &SharedCache<B, D, FullTrail>,
        member: &mut Member<B>,
        step: &Step,
        bytes: &mut [u8],
    ) -> Option<Denied> {
        match step.kind {
            Kind::Read => self.read(rt, cache, member, step.offset, bytes),
            Kind::Write => self.write(rt, cache, member, step.offset, bytes),
            Kind::Append => self.append(rt, cache, member, bytes),
            Kind::Truncate => self.truncate(rt, cache, member, step.offset),
            Kind::Fsync => self.fsync(rt, cache, member),
        }
    }

    fn read<R: Wait, D: BlockDevice>(
        &self,
        rt: &R,
        cache: &SharedCache<B, D, FullTrail>,
        member: &mut Member<B>,
        offset: u64,
        bytes: &mut [u8],
    ) -> Option<Denied> {
        cache
            .pread(rt, &mut member.seat, &self.handle, offset, bytes)
            .err()
    }

    fn write<R: Wait, D: BlockDevice>(
        &self,
        rt: &R,
        cache: &SharedCache<B, D, FullTrail>,
        member: &mut Member<B>,
        offset: u64,
        bytes: &[u8],
    ) -> Option<Denied> {
        cache
            .pwrite(rt, &mut member.seat, &self.handle, offset, bytes)
            .err()
    }

    fn append<R: Wait, D: BlockDevice>(
        &mut self,
        rt: &R,
        cache: &SharedCache<B, D, FullTrail>,
        member: &mut Member<B>,
        bytes: &[u8],
    ) -> Option<Denied> {
        cache
            .write(rt, &mut member.seat, &mut self.handle, bytes)
            .err()
    }

    fn truncate<R: Wait, D: BlockDevice>(
        &self,
        rt: &R,
        cache: &SharedCache<B, D, FullTrail>,
        member: &mut Member<B>,
        size: u64,
    ) -> Option<Denied> {
        cache
            .truncate(rt, &mut member.seat, &self.handle, size)
            .err()
    }

    fn fsync<R: Wait, D: BlockDevice>(
        &mut self,
        rt: &R,
        cache: &SharedCache<B, D, FullTrail>,
        member: &mut Member<B>,
    ) -> Option<Denied> {
        cache.fsync(rt, &mut member.seat, &mut self.handle).err()
    }
}

fn close_files<R: Wait, B: Naming, D: BlockDevice>(
    rt: &R,
    cache: &SharedCache<B, D, FullTrail>,
    member: &mut Member<B>,
    files: Vec<Opened<B>>,
    refused: &mut Refused,
) {
    for file in files {
        if let Err((denied, handle)) = cache.close_handle(rt, &mut member.seat, file.handle) {
            drop(handle);
            refused.count(denied.refusal);
        }
    }
}
