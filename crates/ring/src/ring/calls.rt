//! The calls of a ring. For a pass that is alone, the ring is a plain queue of 64 places: that is what ties an answer of
//! nothing, and a parcel given back, to what the ring held.

ghost use Rattle.std.specs.Prelude.{◌≡◌, ◌+◌, ◌<◌, true, false, [], length, IfOk, IsOkUnless, MatchOption, MatchResult};
ghost use Rattle.crossbeam_queue.specs.Fifo.{Held};
ghost use Rattle.crossbeam_queue.specs.Passes.{view};
ghost use Rattle.ring.specs.Order.{IsParcelFor, Stands, Enqueues, Dequeues, accompanied, log, opened};
ghost use Rattle.ring.specs.Serving.{IsSampleFor, Serves, Carries};

use super::{PLACES, Ring, RingPass};
use crate::log::{Beside, InOrder, Log, Opened, Popped, Pushed, Shown};
use blockdev::{Buffer, Job};
use crossbeam_queue::RuledArrayQueue;
use deeds::sides::{self, Parcel};
use pc_types::{BlockNo, Geometry, Kind, Refusal, Serial};
use std::alloc::Global;
use std::sync::Wait;

impl Ring {
    /// The job of a sample, by which a ring learns the cache's name and the sizes. It is for no device call.
    pub fn sample_job(alloc: Global, name: u64, geometry: &Geometry) -> Result<Job, Refusal>
        ensures sample { IfOk result (IsSampleFor name geometry.now.blocks geometry.now.page) }
        ensures refused { IsOkUnless result Refusal.Memory }
    {
        let buffer = Buffer::new(alloc, geometry)?;
        Ok(Job::new(
            name,
            Serial(geometry.blocks()),
            Kind::Fill,
            BlockNo(0),
            buffer,
        ))
    }

    /// An empty ring for the parcels of one cache, and a pass which is alone. The rule of the ring can't name what is known only as the
    /// program runs: a sample tells it, with the blocks as its serial and a page of bytes, and comes back.
    pub fn new<R: Wait>(
        rt: &R,
        alloc: Global,
        sample: Parcel,
    ) -> Result<(Ring, RingPass, Parcel), Refusal>
        ensures pass { IfOk result (λ r. Serves r.0 r.1) }
        ensures empty { IfOk result (λ r. view r.1 ≡ log 2 true 0 0 sample.task.cache sample.task.serial (length sample.task.bytes) sample.table [] []) }
        ensures back { IfOk result (λ r. r.2 ≡ sample) }
        ensures refused { IsOkUnless result Refusal.Memory }
    {
        let (queue, mut pass) = RuledArrayQueue::<Parcel, Log, InOrder>::ruled(alloc, PLACES)?;
        let Ok(()) = queue.push_as::<Shown, R>(rt, &mut pass, sample) else {
            unreachable!()
        };
        let Some(back) = queue.pop_as::<Opened, R>(rt, &mut pass) else {
            unreachable!()
        };
        Ok((Ring { queue }, pass, back))
    }

    /// An empty ring for the jobs of the cache with this name and geometry and for the deeds of these sides, and a pass which is alone. The
    /// sides come back as they were.
    pub fn over<R: Wait>(
        rt: &R,
        alloc: Global,
        name: u64,
        geometry: &Geometry,
        opened: sides::Opened,
    ) -> Result<(Ring, RingPass, sides::Opened), Refusal>
        requires { 0 < length opened.blocks }
        ensures pass { IfOk result (λ r. Serves r.0 r.1) }
        ensures empty { IfOk result (λ r. view r.1 ≡ log 2 true 0 0 name geometry.now.blocks geometry.now.page opened.table [] []) }
        ensures back { IfOk result (λ r. r.2 ≡ opened) }
        ensures refused { IsOkUnless result Refusal.Memory }
    {
        let job = Ring::sample_job(alloc, name, geometry)?;
        let (lent, sample) = opened.lend(job);
        let (ring, pass, sample) = Ring::new(rt, alloc, sample)?;
        Ok((ring, pass, lent.restore(sample)))
    }

    /// A pass for another thread.
    pub fn pass(&self, pass: &mut RingPass) -> RingPass
        requires { Serves self.now pass.old }
        ensures same { Serves self.now pass.new × (view pass.new ≡ accompanied (view pass.old)) }
        ensures new { Serves self.now result × (view result ≡ opened false ((view pass.old).depth + 1) (view pass.old)) }
    {
        self.queue.another::<Beside>(pass)
    }

    /// Puts the parcel at the back. It comes back only where the ring was full at one moment of the call.
    pub fn push<R: Wait>(&self, rt: &R, pass: &mut RingPass, parcel: Parcel) -> Result<(), Parcel>
        requires pass { Serves self.now pass.old }
        requires parcel { IsParcelFor (view pass.old).cache (view pass.old).blocks (view pass.old).page (view pass.old).table parcel }
        ensures pass { Serves self.now pass.new × Carries (view pass.old).cache (view pass.old).blocks (view pass.old).page (view pass.old).table pass.new }
        ensures answer { MatchResult result (λ _. Enqueues (view pass.old) parcel (view pass.new)) (λ back. (back ≡ parcel) × (view pass.new ≡ view pass.old) × Held 64 (Stands (view pass.old))) }
    {
        self.queue.push_as::<Pushed, R>(rt, pass, parcel)
    }

    /// Takes the parcel at the front. Nothing only where the ring was empty at one moment of the call.
    pub fn pop<R: Wait>(&self, rt: &R, pass: &mut RingPass) -> Option<Parcel>
        requires pass { Serves self.now pass.old }
        ensures pass { Serves self.now pass.new × Carries (view pass.old).cache (view pass.old).blocks (view pass.old).page (view pass.old).table pass.new }
        ensures answer { MatchOption result ((view pass.new ≡ view pass.old) × Held 0 (Stands (view pass.old))) (λ parcel. Dequeues (view pass.old) parcel (view pass.new)) }
    {
        self.queue.pop_as::<Popped, R>(rt, pass)
    }
}
