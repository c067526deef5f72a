//! The device calls of requests in flight, and their ends.

ghost use Rattle.std.specs.Prelude.{◌≡◌, ◌≤◌, IfOk, Ok, OnOk, length};
ghost use Rattle.machine.specs.declared.event.Event.TheVariants as event;
ghost use Rattle.machine.specs.Step.{Step as MachineStep};
ghost use Rattle.machine.specs.declared.event.Reply.TheVariants as reply;
ghost use Rattle.cachecore.specs.Replies.{EndGivesBack, NamesFile, answered, end_of};
ghost use Rattle.world.specs.Answers.{CameTo, NamesFlush, end_says};
ghost use Rattle.world.specs.Ends.{ended};
ghost use Rattle.world.specs.Flushing.{IsFlushed, IsFlushedOnce};
ghost use Rattle.world.specs.Stepping.{Fails, Steps};

use super::World;
use crate::answers::{EndAnswer, EndTold};
use crate::begun;
use crate::jobs::Flight;
use crate::step::Step;
use blockdev::{BlockDevice, FaultEffect, Finished, ScriptDevice};
use cachecore::{CacheCore, Ended, Kind, RefusedEnd};
use pc_types::{ErrCode, Refusal, Serial};

impl<D: BlockDevice> World<D> {
    /// Makes the device call of the request.
    pub fn call(&mut self, serial: Serial) -> Result<(), Refusal>
        ensures { Steps self.old (Step.Call serial) (answered (λ _. reply.Done) result) self.new }
    {
        match self.jobs.take(serial) {
            Some(Flight::Asked(job)) => {
                let finished = self.device.perform(job);
                self.jobs.put(Flight::Made(finished));
                Ok(())
            }
            Some(Flight::Made(finished)) => {
                self.jobs.put(Flight::Made(finished));
                Err(Refusal::Stranger)
            }
            None => Err(Refusal::Stranger),
        }
    }

    /// Ends the request.
    pub fn end(&mut self, serial: Serial) -> Result<EndAnswer, Refusal>
        ensures ended { Steps self.old (Step.End serial) (answered end_says result) self.new }
        ensures file { NamesFlush self.old.core serial.0 result }
    {
        match self.end_told(serial) {
            Ok(told) => {
                self.spare = Some(told.buffer);
                Ok(told.answer)
            }
            Err(refusal) => Err(refusal),
        }
    }

    /// Ends the request as `end` does, and tells what its device call came to. Its buffer goes to the caller, who may
    /// look at what was read.
    pub fn end_told(&mut self, serial: Serial) -> Result<EndTold, Refusal>
        ensures ended { Steps self.old (Step.End serial) (answered (λ e. end_says e.answer) result) self.new }
        ensures told { IfOk result (CameTo self.old serial.0) }
        ensures file { IfOk result (λ e. NamesFlush self.old.core serial.0 (Ok e.answer)) }
        ensures size { IfOk result (λ e. length e.buffer ≡ self.new.core.sizes.page) }
    {
        match self.jobs.take(serial) {
            Some(Flight::Made(finished)) => {
                let kind = finished.kind();
                let block = finished.block();
                let outcome = finished.outcome();
                match hand_in(&mut self.core, kind, finished) {
                    Ok(end) => {
                        let (answer, buffer) = begun::of_end(kind, end);
                        Ok(EndTold {
                            answer,
                            kind,
                            block,
                            outcome,
                            buffer,
                        })
                    }
                    Err(refused) => {
                        self.jobs.put(Flight::Made(refused.finished));
                        Err(refused.refusal)
                    }
                }
            }
            Some(Flight::Asked(job)) => {
                self.jobs.put(Flight::Asked(job));
                Err(Refusal::Stranger)
            }
            None => Err(Refusal::Stranger),
        }
    }

    /// The device, with which nothing more is done.
    pub fn into_device(self) -> D
        ensures { D.told result ≡ self.device }
    {
        self.device.into_device()
    }
}

impl<D: BlockDevice> World<D> {
    /// Flushes the device. Where that ends well all that it was told to write is durable: until then the device may have it in
    /// a cache of its own. It is no event, and the device call of no request.
    pub fn flush(&mut self) -> Result<(), ErrCode>
        ensures flushed { IsFlushed self.old result self.new }
        ensures durable { OnOk result (self.new.device.durable ≡ self.new.device.contents) }
    {
        self.device.flush()
    }

    /// Flushes the device as `flush` does, where something was written to it since it was last flushed well. Where nothing
    /// was, it makes no device call.
    pub fn flush_written(&mut self) -> Result<(), ErrCode>
        ensures flushed { IsFlushedOnce self.old result self.new }
        ensures durable { OnOk result (self.new.device.durable ≡ self.new.device.contents) }
        ensures faults { self.old.device.faults ≤ self.new.device.faults }
    {
        self.device.flush_written()
    }
}

impl World<ScriptDevice> {
    /// Makes the device call of the request, which fails with the code. A flush leaves the old or the new bytes on its block,
    /// by `effect`. Refused by `Stranger` where a call would be, and then no fault is planned.
    pub fn fail(
        &mut self,
        serial: Serial,
        code: ErrCode,
        effect: FaultEffect,
    ) -> Result<(), Refusal>
        ensures { Fails self.old serial.0 code effect result self.new }
    {
        if !self.jobs.is_asked(serial) {
            return Err(Refusal::Stranger);
        }
        self.device.fail_next(code, effect);
        self.call(serial)
    }
}

/// Ends a request of this kind by its finished job.
fn hand_in(core: &mut CacheCore, kind: Kind, finished: Finished) -> Result<Ended, RefusedEnd>
    requires size { length finished.bytes ≡ core.old.state.sizes.page }
    ensures step { MachineStep core.old.state (event.End kind (end_of finished)) (ended kind result) core.new.state }
    ensures back { EndGivesBack finished result }
    ensures file { NamesFile core.old.state kind finished.serial result }
{
    match kind {
        Kind::Fill => core.fill_end(finished),
        Kind::Flush => core.flush_end(finished),
    }
}
