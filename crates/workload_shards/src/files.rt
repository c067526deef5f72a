//! The files of the cache, made before the callers start.

use crate::desk::Desk;
use crate::member::{Member, Sharded};
use pc_types::{FileId, Refusal};
use shared::shards::denied::CreateDenied;
use shared::shards::naming::ShardNaming;
use std::sync::Wait;
use workload_steps::{CALLERS, Scale, Steps, Tally};

/// The file that all callers read: the second of the first shard. Those before it are their own.
pub const COMMON: FileId = FileId(CALLERS);

/// Makes the files, by a member's seats. Writes and syncs the common one. Gives the seats back, and what was answered.
pub fn make_files<R: Wait, B: ShardNaming>(
    rt: &R,
    cache: &Sharded<B>,
    mut member: Member<B>,
    steps: &mut Steps,
    scale: Scale,
) -> Result<(Member<B>, Tally), Refusal> {
    let mut tally = Tally::NONE;
    if let Err(refusal) = create_files(rt, cache, &mut member, &mut tally) {
        // by a call, since the check is slow where a seat goes out of scope
        drop(member);
        return Err(refusal);
    }
    let (member, own) = write_common(rt, cache, member, steps, scale)?;
    tally.add_all(own);
    Ok((member, tally))
}

/// Makes a file for each caller, in its shard, and the common one.
fn create_files<R: Wait, B: ShardNaming>(
    rt: &R,
    cache: &Sharded<B>,
    member: &mut Member<B>,
    tally: &mut Tally,
) -> Result<(), Refusal> {
    for number in 0..=CALLERS {
        create_in(rt, cache, member, number % CALLERS, tally)?;
    }
    Ok(())
}

fn create_in<R: Wait, B: ShardNaming>(
    rt: &R,
    cache: &Sharded<B>,
    member: &mut Member<B>,
    shard: u64,
    tally: &mut Tally,
) -> Result<(), Refusal> {
    match cache.create_in(rt, &mut member.seat, shard) {
        Ok((file, _)) => {
            tally.add(file.0);
            Ok(())
        }
        Err(CreateDenied::ByShard(denied)) => Err(denied.refusal),
        Err(CreateDenied::NoShard) => Err(Refusal::NoSuchFile),
    }
}

/// Writes and syncs the common file, by a desk of its own.
fn write_common<R: Wait, B: ShardNaming>(
    rt: &R,
    cache: &Sharded<B>,
    member: Member<B>,
    steps: &mut Steps,
    scale: Scale,
) -> Result<(Member<B>, Tally), Refusal> {
    let mut desk = Desk::open(rt, cache, member, COMMON, COMMON)?;
    match fill_common(rt, cache, &mut desk, steps, scale) {
        Ok(()) => desk.close(rt, cache),
        Err(refusal) => {
            drop(desk);
            Err(refusal)
        }
    }
}

fn fill_common<R: Wait, B: ShardNaming>(
    rt: &R,
    cache: &Sharded<B>,
    desk: &mut Desk<B>,
    steps: &mut Steps,
    scale: Scale,
) -> Result<(), Refusal> {
    desk.write_all(rt, cache, steps, scale.common_size())?;
    desk.fsync(rt, cache)
}
