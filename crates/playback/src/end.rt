//! The end of a request.

ghost use Rattle.std.specs.Bool.{OnTrue};
ghost use Rattle.std.specs.Prelude.{◌≡◌, OnOk, is_some, true};
ghost use Rattle.cachecore.specs.Replies.{outcome_of};
ghost use Rattle.machine.specs.declared.event.Event.TheVariants as event;
ghost use Rattle.trail.specs.Entries.{end_with, outcome_with, reply_with};
ghost use Rattle.world.specs.Answers.{end_says};
ghost use Rattle.playback.specs.Playing.{Finishes, IsAgreed, IsCalled, IsReady, RefusesEnd, entry};

use crate::replies::{came_to, is_told};
use blockdev::{FaultEffect, ScriptDevice};
use cachecore::{End, Kind, Outcome, Reply};
use pc_types::{Refusal, Serial};
use world::World;
use world::answers::{EndTold, end_reply};

/// The end of a request of a kind, as an entry has it, with its reply and its bytes beside it.
#[derive(Clone, Copy)]
pub struct Ending<'a> {
    pub kind: Kind,
    pub end: &'a End,
    pub reply: &'a Reply,
    pub bytes: &'a [u8],
}

impl<'a> Ending<'a> {
    /// Makes the device call of the request, and ends it. Whether the call came to what the entry tells, and the end is
    /// answered so. Where the entry tells a fault the call is made to fail with its code, and by `effect` a flush leaves
    /// the old or the new bytes on its block.
    #[tactic(auto, using(crate::proofs::Ends::refused_told))]
    pub fn play(&self, world: &mut World<ScriptDevice>, name: u64, effect: FaultEffect) -> bool
        requires ready { IsReady name world.old }
        ensures { OnTrue result (IsAgreed name world.old (entry (event.End self.now.kind (end_with self.now.end.now self.now.bytes.now)) (reply_with self.now.reply.now self.now.bytes.now)) world.new) }
    {
        match self.reply {
            Reply::Refused(Refusal::Stranger) => ends_none(world, name, self.end),
            Reply::Refused(_) => false,
            _ => self.end(world, name, effect),
        }
    }

    // An end that is not refused.
    fn end(&self, world: &mut World<ScriptDevice>, name: u64, effect: FaultEffect) -> bool
        requires ready { IsReady name world.old }
        ensures { OnTrue result (IsAgreed name world.old (entry (event.End self.now.kind (end_with self.now.end.now self.now.bytes.now)) (reply_with self.now.reply.now self.now.bytes.now)) world.new) }
    {
        if self.end.cache != name || self.end.kind != self.kind {
            return false;
        }
        match make_call(world, self.end.serial, &self.end.outcome, effect) {
            Ok(()) => self.finish(world),
            Err(_) => false,
        }
    }

    // Ends the request, whose call was made.
    fn finish(&self, world: &mut World<ScriptDevice>) -> bool
        ensures { OnTrue result (Finishes world.old self.now.kind self.now.end.now self.now.bytes.now (reply_with self.now.reply.now self.now.bytes.now) world.new) }
    {
        match world.end_told(self.end.serial) {
            Ok(told) => self.is_told(&told),
            Err(_) => false,
        }
    }

    // Whether the request ended as the entry tells.
    fn is_told(&self, ended: &EndTold) -> bool
        ensures kind { OnTrue result (ended.now.kind ≡ self.now.kind) }
        ensures block { OnTrue result (ended.now.block ≡ self.now.end.now.block) }
        ensures call { OnTrue result (outcome_of ended.now.kind ended.now.outcome ended.now.buffer ≡ outcome_with self.now.end.now.outcome self.now.bytes.now) }
        ensures reply { OnTrue result (end_says ended.now.answer ≡ reply_with self.now.reply.now self.now.bytes.now) }
    {
        ended.kind == self.kind
            && ended.block == self.end.block
            && came_to(ended, &self.end.outcome, self.bytes)
            && is_told(&end_reply(&Ok(ended.answer)), self.reply, self.bytes)
    }
}

/// Makes the device call of a request, which fails where it is told so.
#[tactic(auto, using(crate::proofs::Ends::by_call, crate::proofs::Ends::by_fail))]
fn make_call(
    world: &mut World<ScriptDevice>,
    serial: Serial,
    told: &Outcome,
    effect: FaultEffect,
) -> Result<(), Refusal>
    requires told { is_some world.old.device.contents ≡ true }
    ensures { OnOk result (IsCalled world.old serial.0 world.new) }
{
    match told {
        Outcome::Fault(code) => world.fail(serial, *code, effect),
        _ => world.call(serial),
    }
}

/// Whether no request of this cache is in flight that the end could be of.
#[tactic(auto, using(crate::proofs::Ends::other_cache, crate::proofs::Ends::not_called))]
fn ends_none(world: &mut World<ScriptDevice>, name: u64, end: &End) -> bool
    requires ready { IsReady name world.old }
    ensures { OnTrue result (RefusesEnd world.old end.now world.new) }
{
    end.cache != name || world.call(end.serial).is_err()
}
