//! The files of the cache, made before the callers start.

use crate::desk::Desk;
use crate::member::{Member, Shared};
use held::naming::Naming;
use pc_types::{FileId, Refusal};
use std::sync::Wait;
use workload_steps::{CALLERS, Scale, Steps, Tally};

/// The file that all callers read. Those before it are their own.
pub const COMMON: FileId = FileId(CALLERS);

/// Makes the files, by a member's seat. Writes and syncs the common one. Gives the seat back, and what was answered.
pub fn make_files<R: Wait, B: Naming>(
    rt: &R,
    cache: &Shared<B>,
    mut member: Member<B>,
    steps: &mut Steps,
    scale: Scale,
) -> Result<(Member<B>, Tally), Refusal> {
    let mut tally = Tally::NONE;
    if let Err(refusal) = create_files(rt, cache, &mut member, &mut tally) {
        // by a call, since the check is slow where a seat goes out of scope
        drop(member);
        return Err(refusal);
    }
    let (member, own) = write_common(rt, cache, member, steps, scale)?;
    tally.add_all(own);
    Ok((member, tally))
}

/// Makes a file for each caller, and the common one.
fn create_files<R: Wait, B: Naming>(
    rt: &R,
    cache: &Shared<B>,
    member: &mut Member<B>,
    tally: &mut Tally,
) -> Result<(), Refusal> {
    for _ in 0..=CALLERS {
        match cache.create(rt, &mut member.seat) {
            Ok((file, _)) => tally.add(file.0),
            Err(denied) => return Err(denied.refusal),
        }
    }
    Ok(())
}

/// Writes and syncs the common file, by a desk of its own.
fn write_common<R: Wait, B: Naming>(
    rt: &R,
    cache: &Shared<B>,
    member: Member<B>,
    steps: &mut Steps,
    scale: Scale,
) -> Result<(Member<B>, Tally), Refusal> {
    let mut desk = Desk::open(rt, cache, member, COMMON, COMMON)?;
    match fill_common(rt, cache, &mut desk, steps, scale) {
        Ok(()) => desk.close(rt, cache),
        Err(refusal) => {
            drop(desk);
            Err(refusal)
        }
    }
}

fn fill_common<R: Wait, B: Naming>(
    rt: &R,
    cache: &Shared<B>,
    desk: &mut Desk<B>,
    steps: &mut Steps,
    scale: Scale,
) -> Result<(), Refusal> {
    desk.write_all(rt, cache, steps, scale.common_size())?;
    desk.fsync(rt, cache)
}
