//! A caller: one thread that makes calls.

ghost use Rattle.std.specs.Prelude.{◌≡◌, length};

use crate::desk::Desk;
use crate::files::COMMON;
use crate::member::{Member, Sharded};
use pc_types::{FileId, Refusal};
use shared::shards::naming::ShardNaming;
use std::alloc::{AllocError, Global};
use std::sync::Wait;
use workload_steps::{MAX_COUNT, Plan, Scale, Steps, Tally};

/// A thread's seats, its own file, and which calls it makes.
#[derive(Drop)]
pub struct Caller<B: ShardNaming> {
    member: Member<B>,
    own: FileId,
    scale: Scale,
    steps: Steps,
}

impl<B: ShardNaming> Caller<B> {
    /// The caller of this number, with no open file.
    pub fn new(
        alloc: Global,
        member: Member<B>,
        plan: Plan,
        number: u64,
    ) -> Result<Caller<B>, AllocError> {
        Ok(Caller {
            steps: Steps::new(alloc, plan, number)?,
            member,
            own: FileId(number),
            scale: plan.scale,
        })
    }

    /// Writes the own file and makes the calls. Gives the seats back, and what was answered.
    pub fn run<R: Wait>(self, rt: &R, cache: &Sharded<B>) -> Result<(Member<B>, Tally), Refusal> {
        let Caller {
            member,
            own,
            scale,
            mut steps,
        } = self;
        let desk = Desk::open(rt, cache, member, own, COMMON)?;
        let mut out = [0; MAX_COUNT as usize];
        make_all(rt, cache, desk, &mut steps, scale, &mut out)
    }
}

/// Makes the calls, and closes the desk.
fn make_all<R: Wait, B: ShardNaming>(
    rt: &R,
    cache: &Sharded<B>,
    mut desk: Desk<B>,
    steps: &mut Steps,
    scale: Scale,
    out: &mut [u8],
) -> Result<(Member<B>, Tally), Refusal>
    requires { length out.old ≡ 65536 }
{
    match make_calls(rt, cache, &mut desk, steps, scale, out) {
        Ok(()) => desk.close(rt, cache),
        Err(refusal) => {
            drop(desk);
            Err(refusal)
        }
    }
}

fn make_calls<R: Wait, B: ShardNaming>(
    rt: &R,
    cache: &Sharded<B>,
    desk: &mut Desk<B>,
    steps: &mut Steps,
    scale: Scale,
    out: &mut [u8],
) -> Result<(), Refusal>
    requires { length out.old ≡ 65536 }
{
    desk.write_all(rt, cache, steps, scale.own_size())?;
    for _ in 0..scale.calls() {
        let step = steps.draw();
        desk.make_call(rt, cache, &step, &steps.bytes, out)?;
    }
    Ok(())
}
