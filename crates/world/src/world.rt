//! A cache and its device, driven one step at a time.

mod at_once;
mod calls;
mod events;
mod files;

ghost use Rattle.std.specs.Prelude.{◌≡◌, IfErr, IfNone, IfOk, IfSome, IsOkUnless, None, OnErr, length, true, if◌then◌else◌};
ghost use Rattle.pc_types.specs.declared.refusal.Refusal.TheVariants.{BadConfig, Memory};
ghost use Rattle.cachecore.specs.Replies.{TagsAre, answered};
ghost use Rattle.cachecore.specs.Wants.{IsFirstToWrite, NothingToWrite, holds_cut, wants};
ghost use Rattle.world.specs.Answers.{fill_says, flush_says, sync_says};
ghost use Rattle.world.specs.Flights.{IsSpare};
ghost use Rattle.runs.specs.Runs.{IsBlank};
ghost use Rattle.world.specs.Stepping.{Plays, Steps, first_world, fits, world_of};

use crate::answers::{self, FillAnswer, FlushAnswer, SyncAnswer};
use crate::begun::{self, Begun};
use crate::jobs::Jobs;
use crate::step::Step;
use blockdev::{BlockDevice, Buffer, Watched};
use cachecore::{CacheCore, Demand, PageTags, ReadAnswer, Reply, Want, replies};
use catalog::Catalog;
use pc_types::{Bytes, FileId, Geometry, HandleId, PageIndex, Refusal, SyncId};
use std::alloc::{AllocError, Global};
use std::marker::Model;

/// A cache, the device that it writes to, and the jobs on their way between them.
#[derive(Drop)]
pub struct World<D: BlockDevice> {
    core: CacheCore,
    jobs: Jobs,
    device: Watched<D>,
    // a buffer that came back, for the next begin
    spare: Option<Buffer>,
    alloc: Global,
}

impl<D: BlockDevice> Model for World<D> {
    ghost use Rattle.std.specs.Coded.{codes, coded_ℕ};
    ghost use Rattle.std.specs.FinMap as map;
    ghost use Rattle.std.specs.Ordering.{nat_cmp};
    ghost use Rattle.std.specs.Prelude.{List, ℕ};
    ghost use Rattle.machine.specs.inside.Codes.{state_code};
    ghost use Rattle.machine.specs.declared.event.Outcome.{Outcome};
    ghost use Rattle.world.specs.Stepping.{WorldSeen};

    ghost Value = { WorldSeen };

    ghost coded = { Prim.hlevel (codes, state_code, map.code {X = Outcome} {R = nat_cmp} coded_ℕ (Prim.hlevel codes), map.code {X = List ℕ} {R = nat_cmp} coded_ℕ (Prim.hlevel codes)) };

    ghost use Rattle.world.specs.Flights.{seen_of, IsSpare, IsWorld};

    ghost view = { λ w. seen_of w.core.state w.jobs w.device };

    ghost invariant = { λ w. IsWorld w.core.state w.jobs w.device × IsSpare w.core.state w.spare };
}

impl<D: BlockDevice> World<D> {
    /// A cache without files over a device. Refused by `BadConfig` where the device has another block size or number of
    /// blocks than the geometry; the device comes back.
    pub fn new(
        alloc: Global,
        geometry: &Geometry,
        name: u64,
        device: D,
    ) -> Result<World<D>, (Refusal, D)>
        ensures fresh { IfOk result (λ w. w ≡ first_world geometry.now name (D.told device)) }
        ensures first { IfOk result (λ w. IfSome (D.told device).contents (λ _. IsBlank (world_of w))) }
        ensures fits { IfOk result (λ _. fits geometry.now (D.told device) ≡ true) }
        ensures refused { IfErr result (λ e. e.0 ≡ (if fits geometry.now (D.told device) then Memory else BadConfig)) }
        ensures back { IfErr result (λ e. e.1 ≡ device) }
    {
        match World::over(alloc, geometry, name, Catalog::new(alloc, geometry), device) {
            Ok(world) => Ok(world),
            Err((refusal, _catalog, device)) => Err((refusal, device)),
        }
    }

    /// Makes one event, one device call, or one end. Where memory for the bytes of a read or for a buffer is refused, no
    /// event is made. A call or an end is refused by `Stranger`, and nothing changes, where the request is not in flight, or
    /// its call was made already, or, for an end, was not made.
    pub fn step(&mut self, step: &Step) -> Reply
        ensures { Steps self.old step.now result self.new }
    {
        match step {
            Step::Create => replies::of_create(&self.create()),
            Step::Open(file) => replies::of_open(&self.open(*file)),
            Step::Close(handle) => replies::of_close(&self.close(*handle)),
            Step::Size(handle) => replies::of_size(&self.size(*handle)),
            Step::Read(handle, offset, count) => self.read_new(*handle, *offset, *count),
            Step::Write(handle, offset, bytes) => {
                replies::of_write(&self.write(*handle, *offset, bytes.as_slice()))
            },
            Step::Append(handle, bytes) => replies::of_write(&self.append(
                *handle,
                bytes.as_slice(),
            )),
            Step::Truncate(handle, size) => { replies::of_truncate(&self.truncate(*handle, *size)) }
            Step::FillBegin(handle, page) => answers::fill_reply(&self.fill_begin(*handle, *page)),
            Step::FlushBegin(file) => answers::flush_reply(&self.flush_begin(*file)),
            Step::Evict => replies::of_evict(&self.evict()),
            Step::Age => Reply::Aged(self.age()),
            Step::SyncBegin(handle) => replies::of_sync_begin(&self.sync_begin(*handle)),
            Step::SyncBeginRange(handle, first, last) => {
                replies::of_sync_begin(&self.sync_begin_range(*handle, *first, *last))
            }
            Step::SyncStep(sync) => answers::sync_reply(&self.sync_step(*sync)),
            Step::SyncDrop(sync) => replies::of_sync_drop(&self.sync_drop(*sync)),
            Step::Call(serial) => match self.call(*serial) {
                Ok(()) => Reply::Done,
                Err(refusal) => Reply::Refused(refusal),
            },
            Step::End(serial) => answers::end_reply(&self.end(*serial)),
        }
    }

    /// Makes the steps, one after the other, and gives their replies. Refused by `Memory`, with no step made, where there
    /// is no room for the replies.
    pub fn play(&mut self, steps: &[Step]) -> Result<Vec<Reply>, Refusal>
        ensures played { IfOk result (λ replies. Plays self.old steps.now replies.items self.new) }
        ensures refused { IsOkUnless result Refusal.Memory }
        ensures err { OnErr result (self.new ≡ self.old) }
    {
        let mut replies = Vec::with_capacity(self.alloc, steps.len())?;
        for step in steps {
            replies.push_reserved(self.step(step));
        }
        Ok(replies)
    }

    /// What is known of a page, which is no event.
    pub fn tags(&self, file: FileId, page: PageIndex) -> Result<PageTags, Refusal>
        ensures { TagsAre self.now.core file.0 page.0 result }
    {
        self.core.tags(file, page)
    }

    /// Which room a call wants for these bytes. This is no event.
    pub fn wants(&self, demand: Demand) -> Option<Want>
        ensures { result ≡ wants self.now.core demand }
    {
        self.core.wants(demand)
    }

    /// The first file that has a page to write. This is no event.
    pub fn first_to_write(&self) -> Option<FileId>
        ensures some { IfSome result (λ f. IsFirstToWrite self.now.core f.0) }
        ensures none { IfNone result (NothingToWrite self.now.core) }
    {
        self.core.first_to_write()
    }

    /// Whether a request in flight is dropped, which is no event either.
    pub fn holds_cut(&self) -> bool
        ensures { result ≡ holds_cut self.now.core }
    {
        self.core.holds_cut()
    }

    // A read into a place of its own.
    fn read_new(&mut self, handle: HandleId, offset: u64, count: u64) -> Reply
        ensures { Steps self.old (Step.Read handle offset count) result self.new }
    {
        let Ok(mut out) = zeros(self.alloc, count) else {
            return Reply::Refused(Refusal::Memory);
        };
        match self.read(handle, offset, out.as_mut_slice()) {
            Ok(ReadAnswer::Bytes(count)) => {
                out.truncate(count as usize);
                Reply::Bytes(Bytes::from_vec(out))
            }
            Ok(ReadAnswer::Wait(page)) => Reply::Wait(page),
            Ok(ReadAnswer::Miss(page)) => Reply::Miss(page),
            Err(refusal) => Reply::Refused(refusal),
        }
    }

    /// Begins a fill of the page.
    pub fn fill_begin(&mut self, handle: HandleId, page: PageIndex) -> Result<FillAnswer, Refusal>
        ensures { Steps self.old (Step.FillBegin handle page) (answered fill_says result) self.new }
    {
        let buffer = buffer_for(&self.core, &mut self.spare, self.alloc)?;
        match begun::of_fill_begin(self.core.fill_begin(handle, page, buffer)) {
            Begun::Job(job) => Ok(FillAnswer::Begun(self.jobs.ask(job))),
            Begun::Answered(answer, buffer) => {
                self.spare = Some(buffer);
                answer
            }
        }
    }

    /// Begins a write of the file's lowest page that is to be written.
    pub fn flush_begin(&mut self, file: FileId) -> Result<FlushAnswer, Refusal>
        ensures { Steps self.old (Step.FlushBegin file) (answered flush_says result) self.new }
    {
        let buffer = buffer_for(&self.core, &mut self.spare, self.alloc)?;
        match begun::of_flush_begin(self.core.flush_begin(file, buffer)) {
            Begun::Job(job) => Ok(FlushAnswer::Begun(self.jobs.ask(job))),
            Begun::Answered(answer, buffer) => {
                self.spare = Some(buffer);
                answer
            }
        }
    }

    /// Makes a step of the sync.
    pub fn sync_step(&mut self, sync: SyncId) -> Result<SyncAnswer, Refusal>
        ensures { Steps self.old (Step.SyncStep sync) (answered sync_says result) self.new }
    {
        let buffer = buffer_for(&self.core, &mut self.spare, self.alloc)?;
        match begun::of_sync_step(self.core.sync_step(sync, buffer)) {
            Begun::Job(job) => Ok(SyncAnswer::Begun(self.jobs.ask(job))),
            Begun::Answered(answer, buffer) => {
                self.spare = Some(buffer);
                answer
            }
        }
    }
}

/// A place for so many bytes.
fn zeros(alloc: Global, count: u64) -> Result<Vec<u8>, AllocError>
    ensures { IfOk result (λ out. length out.items ≡ count) }
{
    vec![in alloc; 0; count as usize]
}

/// A buffer for a request, with any bytes: the spare one, where there is one.
fn buffer_for(
    core: &CacheCore,
    spare: &mut Option<Buffer>,
    alloc: Global,
) -> Result<Buffer, Refusal>
    requires { IsSpare core.now.state spare.old }
    ensures size { IfOk result (λ buffer. length buffer ≡ core.now.state.sizes.page) }
    ensures refused { IsOkUnless result Memory }
    ensures taken { spare.new ≡ None }
{
    match spare.take() {
        Some(buffer) => Ok(buffer),
        None => Buffer::new(alloc, &core.geometry()),
    }
}
