//! A caller: one thread that makes file calls in all shards.

ghost use Rattle.std.specs.Prelude.{◌≡◌};

use crate::shards::member::Member;
use crate::shards::plan::Plan;
use crate::steps::{FILES, Kind, MAX_COUNT, Step, Steps};
use blockdev::BlockDevice;
use held::denied::Denied;
use pc_types::{FileId, Refusal};
use shared::shards::cache::ShardedCache;
use shared::shards::handle::ShardHandle;
use shared::shards::naming::ShardNaming;
use std::alloc::{AllocError, Global};
use std::marker::PhantomData;
use std::sync::Wait;
use storm_text::Refused;
use trail::FullTrail;

/// An open file of the shards that B names.
#[derive(Drop)]
struct Opened<B: ShardNaming> {
    handle: ShardHandle,
    of: PhantomData<B>,
    ghost came: { handle.handle.pass.board ≡ (B.names handle.shard).board },
}

/// A thread's seats, its open files, which calls it makes and how many.
#[derive(Drop)]
pub struct Caller<B: ShardNaming> {
    member: Member<B>,
    // in the order of their numbers: file F stands in shard F mod n
    files: Vec<Opened<B>>,
    steps: Steps,
    plan: Plan,
}

/// The seats of a caller that is done, and by what its calls were refused.
#[derive(Drop)]
pub struct Done<B: ShardNaming> {
    pub member: Member<B>,
    pub refused: Refused,
}

impl<B: ShardNaming> Caller<B> {
    /// The caller of this number, with no open file.
    pub fn new(
        alloc: Global,
        member: Member<B>,
        plan: Plan,
        number: u64,
    ) -> Result<Caller<B>, AllocError> {
        Ok(Caller {
            files: Vec::with_capacity(alloc, (FILES * plan.shards) as usize)?,
            steps: Steps::new(plan.seed, number),
            member,
            plan,
        })
    }

    /// Opens the files, makes the calls, closes the files, and gives the seats back. A refused call counts as one that was made.
    pub fn run<R: Wait, D: BlockDevice>(
        self,
        rt: &R,
        cache: &ShardedCache<B, D, FullTrail>,
    ) -> Done<B> {
        let Caller {
            mut member,
            mut files,
            mut steps,
            plan,
        } = self;
        let mut refused = Refused::none();
        open_files(rt, cache, &mut member, plan, &mut files, &mut refused);
        for number in 0..plan.steps {
            if let Some(refusal) = make_call(
                rt,
                cache,
                &mut member,
                &mut files,
                &mut steps,
                plan,
                number,
            ) {
                refused.count(refusal);
            }
        }
        close_files(rt, cache, &mut member, files, &mut refused);
        Done { member, refused }
    }
}

/// Opens each file, for appending writes.
fn open_files<R: Wait, B: ShardNaming, D: BlockDevice>(
    rt: &R,
    cache: &ShardedCache<B, D, FullTrail>,
    member: &mut Member<B>,
    plan: Plan,
    files: &mut Vec<Opened<B>>,
    refused: &mut Refused,
) {
    for file in 0..FILES * plan.shards {
        match cache.open(rt, &mut member.seat, FileId(file), true) {
            Ok((handle, _)) => {
                let _ = files.push(Opened {
                    handle,
                    of: PhantomData,
                });
            }
            Err(denied) => refused.count(denied.refusal),
        }
    }
}

/// Makes the call of this number, in some shard. Answers by what it was refused.
fn make_call<R: Wait, B: ShardNaming, D: BlockDevice>(
    rt: &R,
    cache: &ShardedCache<B, D, FullTrail>,
    member: &mut Member<B>,
    files: &mut Vec<Opened<B>>,
    steps: &mut Steps,
    plan: Plan,
    number: u64,
) -> Option<Refusal> {
    let shard = steps.shard(plan.shards);
    let step = steps.step(number);
    let mut buffer = [0; MAX_COUNT];
    let bytes = &mut buffer[..step.count];
    steps.fill(bytes);
    let file = files.get_mut(step.file * plan.shards as usize + shard as usize)?;
    let denied = file.make_call(rt, cache, member, &step, bytes)?;
    Some(denied.refusal)
}

// What a call answers is told by the trail of its shard, but which of its refusals is the last. Each kind has a function of its own: the
// check of one that makes them all takes minutes.
impl<B: ShardNaming> Opened<B> {
    /// Makes a call, with the bytes that are to be written or read over. Answers by what it was refused.
    fn make_call<R: Wait, D: BlockDevice>(
        &mut self,
        rt: &R,
        cache: &ShardedCache<B, D, FullTrail>,
        member: &mut Member<B>,
        step: &Step,
        bytes: &mut [u8],
    ) -> Option<Denied> {
        match step.kind {
            Kind::Read => self.read(rt, cache, member, step.offset, bytes),
            Kind::Write => self.write(rt, cache, member, step.offset, bytes),
            Kind::Append => self.append(rt, cache, member, bytes),
            Kind::Truncate => self.truncate(rt, cache, member, step.offset),
            Kind::Fsync => self.fsync(rt, cache, member),
        }
    }

    fn read<R: Wait, D: BlockDevice>(
        &self,
        rt: &R,
        cache: &ShardedCache<B, D, FullTrail>,
        member: &mut Member<B>,
        offset: u64,
        bytes: &mut [u8],
    ) -> Option<Denied> {
        cache
            .pread(rt, &mut member.seat, &self.handle, offset, bytes)
            .err()
    }

    fn write<R: Wait, D: BlockDevice>(
        &self,
        rt: &R,
        cache: &ShardedCache<B, D, FullTrail>,
        member: &mut Member<B>,
        offset: u64,
        bytes: &[u8],
    ) -> Option<Denied> {
        cache
            .pwrite(rt, &mut member.seat, &self.handle, offset, bytes)
            .err()
    }

    fn append<R: Wait, D: BlockDevice>(
        &mut self,
        rt: &R,
        cache: &ShardedCache<B, D, FullTrail>,
        member: &mut Member<B>,
        bytes: &[u8],
    ) -> Option<Denied> {
        cache
            .write(rt, &mut member.seat, &mut self.handle, bytes)
            .err()
    }

    fn truncate<R: Wait, D: BlockDevice>(
        &self,
        rt: &R,
        cache: &ShardedCache<B, D, FullTrail>,
        member: &mut Member<B>,
        size: u64,
    ) -> Option<Denied> {
        cache
            .truncate(rt, &mut member.seat, &self.handle, size)
            .err()
    }

    fn fsync<R: Wait, D: BlockDevice>(
        &mut self,
        rt: &R,
        cache: &ShardedCache<B, D, FullTrail>,
        member: &mut Member<B>,
    ) -> Option<Denied> {
        cache.fsync(rt, &mut member.seat, &mut self.handle).err()
    }
}

fn close_files<R: Wait, B: ShardNaming, D: BlockDevice>(
    rt: &R,
    cache: &ShardedCache<B, D, FullTrail>,
    member: &mut Member<B>,
    files: Vec<Opened<B>>,
    refused: &mut Refused,
) {
    for file in files {
        if let Err((denied, handle)) = cache.close_handle(rt, &mut member.seat, file.handle) {
            drop(handle);
            refused.count(denied.refusal);
        }
    }
}
