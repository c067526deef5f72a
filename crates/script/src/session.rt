//! A world with the board of its failed writes, of which each open handle is told once.

ghost use Rattle.std.specs.Prelude.{◌≡◌, IfOk, IsOkUnless};
ghost use Rattle.script.specs.Runs.{world_of_sizes};

use crate::command::sync_begin;
use crate::passes::Passes;
use blockdev::{FaultEffect, ScriptDevice};
use cachecore::{PageTags, Reply};
use errboard::{Board, Recorder};
use pc_types::{ErrCode, FileId, Geometry, HandleId, PageIndex, Refusal, Serial, SyncId};
use std::alloc::Global;
use std::marker::Model;
use textline::Stop;
use world::answers::{EndAnswer, end_reply};
use world::{Step, World};

/// A world, the board on which its failed writes are recorded, and the pass of each open handle.
#[derive(Drop)]
pub struct Session {
    world: World<ScriptDevice>,
    board: Board,
    recorder: Recorder,
    passes: Passes,
}

impl Model for Session {
    ghost use Rattle.std.specs.Prelude.{ℕ, List};
    ghost use Rattle.std.specs.Coded.{codes, coded_ℕ};
    ghost use Rattle.std.specs.FinMap as map;
    ghost use Rattle.std.specs.Ordering.{nat_cmp};
    ghost use Rattle.machine.specs.inside.Codes.{state_code};
    ghost use Rattle.machine.specs.declared.event.Outcome.{Outcome};
    ghost use Rattle.script.specs.Sessions.{SessionSeen};

    ghost Value = { SessionSeen };

    ghost coded = { Prim.hlevel (codes, state_code, map.code {X = Outcome} {R = nat_cmp} coded_ℕ (Prim.hlevel codes), map.code {X = List ℕ} {R = nat_cmp} coded_ℕ (Prim.hlevel codes), map.code {X = ℕ} {R = nat_cmp} coded_ℕ coded_ℕ) };

    ghost use Rattle.script.specs.Telling.{IsSession, told_of};

    ghost view = { λ s. record { world = s.world; recorded = s.recorder.all; told = told_of s.passes } };

    ghost invariant = { λ s. IsSession s.world s.board s.recorder s.passes };
}

impl Session {
    ghost use Rattle.std.specs.Prelude.{◌≡◌, ◌≢◌, ℕ, List, Option, IfOk, IsOkUnless, true};
    ghost use Rattle.pc_types.specs.declared.ids.Serial.{Serial};
    ghost use Rattle.cachecore.specs.Replies.{TagsAre};
    ghost use Rattle.machine.specs.State.{is_open};
    ghost use Rattle.world.specs.Stepping.{Fails};
    ghost use Rattle.script.specs.Sessions.{Fsyncs, GoesOn, Makes, Polls, SessionSeen, Writes, over};
    ghost use Rattle.script.specs.Runs.{session_of_sizes};

    /// A session without files, over a device of zeros. Only want of memory refuses it.
    pub fn new(alloc: Global, geometry: &Geometry) -> Result<Session, Stop>
        ensures fresh { IfOk result (λ s. s ≡ session_of_sizes geometry.now) }
        ensures refused { IsOkUnless result Stop.Memory }
    {
        let passes = Passes::new(alloc)?;
        let Ok((board, recorder)) = Board::new(alloc) else {
            return Err(Stop::Memory);
        };
        let world = new_world(alloc, geometry)?;
        Ok(Session {
            world,
            board,
            recorder,
            passes,
        })
    }

    /// Makes one step of the world. A flush that fails leaves its code on the board.
    pub fn step(&mut self, step: &Step) -> Reply
        ensures { Makes self.old step.now result self.new }
    {
        match step {
            Step::Open(file) => self.open(*file),
            Step::Close(handle) => self.close(*handle),
            Step::End(serial) => self.end(*serial),
            _ => self.world.step(step),
        }
    }

    // Opens a file. Its handle's pass is made before, and taken back where the file is not opened.
    fn open(&mut self, file: FileId) -> Reply
        ensures { Makes self.old (Step.Open file) result self.new }
    {
        let Ok(pass) = self.recorder.pass(file) else {
            // No file has such a number: the event refuses it.
            return self.world.step(&Step::Open(file));
        };
        let reply = self.world.step(&Step::Open(file));
        match &reply {
            Reply::Handle(handle) => self.passes.put(*handle, pass),
            _ => self.recorder.retire(pass),
        }
        reply
    }

    // Closes a handle, whose pass is taken back.
    fn close(&mut self, handle: HandleId) -> Reply
        ensures { Makes self.old (Step.Close handle) result self.new }
    {
        let reply = self.world.step(&Step::Close(handle));
        if let Reply::Closed = &reply {
            if let Some(pass) = self.passes.take(handle) {
                self.recorder.retire(pass);
            }
        }
        reply
    }

    // Ends a request, and records the code of a flush that failed.
    fn end(&mut self, serial: Serial) -> Reply
        ensures { Makes self.old (Step.End serial) result self.new }
    {
        let answer = self.world.end(serial);
        if let Ok(EndAnswer::FlushFailed(file, code)) = &answer {
            self.recorder.record(*file, *code);
        }
        end_reply(&answer)
    }

    /// Makes the device call of a request fail.
    pub fn fail(
        &mut self,
        serial: Serial,
        code: ErrCode,
        effect: FaultEffect,
    ) -> Result<(), Refusal>
        ensures call { Fails self.old.world serial.0 code effect result self.new.world }
        ensures rest { self.new ≡ record self.old { world = self.new.world } }
    {
        self.world.fail(serial, code, effect)
    }

    /// What is known of a page.
    pub fn tags(&self, file: FileId, page: PageIndex) -> Result<PageTags, Refusal>
        ensures { TagsAre self.now.world.core file.0 page.0 result }
    {
        self.world.tags(file, page)
    }

    /// Tells a handle the last code that was recorded of its file, where it was not told of it yet.
    pub fn poll(&mut self, handle: HandleId) -> Result<Option<ErrCode>, Refusal>
        ensures { Polls self.old handle.0 result self.new }
    {
        let Some(mut pass) = self.passes.take(handle) else {
            return Err(Refusal::BadHandle);
        };
        // A pass that is leveled knows all that was recorded of its file. It does so before the poll and after it, and so the
        // poll told it of just that.
        self.recorder.level(&mut pass);
        let code = self.board.poll(&mut pass);
        self.recorder.level(&mut pass);
        self.passes.put(handle, pass);
        Ok(code)
    }

    /// Makes a sync of the handle's file, or of a range of its pages, from its beginning to its end, and polls the handle. Where the sync would wait for a
    /// request, or is refused, it is given up.
    pub fn fsync(&mut self, handle: HandleId, range: Option<(PageIndex, PageIndex)>) -> Reply
        ensures { Fsyncs self.old handle range result self.new }
    {
        match self.step(&sync_begin(handle, range)) {
            Reply::Sync(sync) => self.finish(handle, sync),
            refused => refused,
        }
    }

    // Goes on with a sync of the handle, to its end.
    fn finish(&mut self, handle: HandleId, sync: SyncId) -> Reply
        requires open { is_open self.old.world.core handle.0 ≡ true }
        ensures { GoesOn self.old handle (Reply.Sync sync) result self.new }
    {
        match self.write_back(sync) {
            Reply::Clean => self.conclude(handle, None),
            Reply::Failed(code) => self.conclude(handle, Some(code)),
            stopped => {
                self.step(&Step::SyncDrop(sync));
                stopped
            }
        }
    }

    // Makes the steps of a sync that start a write, with its device call and its end at once, and then the first step that
    // starts none, whose reply it gives. Each write takes a serial, and serials come to an end.
    fn write_back(&mut self, sync: SyncId) -> Reply
        ensures written { (ts : List Serial) × (written : SessionSeen) × Writes self.old sync ts written × Makes written (Step.SyncStep sync) result self.new }
        ensures over { (t : Serial) → result ≢ Reply.Job t }
        ensures handles { self.new.world.core.handles ≡ self.old.world.core.handles }
    {
        'writes: loop {
            match self.step(&Step::SyncStep(sync)) {
                Reply::Job(serial) => {
                    self.step(&Step::Call(serial));
                    self.step(&Step::End(serial));
                }
                stopped => return stopped,
            }
        }
    }

    // What a sync that is over answers: the code that its handle is told, else its own.
    fn conclude(&mut self, handle: HandleId, own: Option<ErrCode>) -> Reply
        requires open { is_open self.old.world.core handle.0 ≡ true }
        ensures { (told : Option ℕ) × Polls self.old handle.0 (Ok told) self.new × (result ≡ over told own) }
    {
        match self.poll(handle) {
            Ok(told) => match told.or(own) {
                Some(code) => Reply::Refused(Refusal::Io(code)),
                None => Reply::Done,
            },
            Err(_) => unreachable!(),
        }
    }
}

/// A world over a device of zeros. Only want of memory refuses it.
fn new_world(alloc: Global, geometry: &Geometry) -> Result<World<ScriptDevice>, Stop>
    ensures fresh { IfOk result (λ world. world ≡ world_of_sizes geometry.now) }
    ensures refused { IsOkUnless result Stop.Memory }
{
    let Ok(device) = ScriptDevice::new(alloc, geometry.page(), geometry.blocks()) else {
        return Err(Stop::Memory);
    };
    match World::new(alloc, geometry, 0, device) {
        Ok(world) => Ok(world),
        Err(_) => Err(Stop::Memory),
    }
}
