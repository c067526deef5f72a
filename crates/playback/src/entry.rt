//! One entry, played again.

ghost use Rattle.std.specs.Bool.{OnTrue};
ghost use Rattle.std.specs.Prelude.{◌≡◌, ℕ, IfOk, IsOkUnless, false};
ghost use Rattle.trail.specs.Entries.{entry_with, event_with, reply_with};
ghost use Rattle.playback.specs.Playing.{IsActed, IsAgreed, IsPlayed, IsReady, IsStepOf, entry as made, is_ending, wants_no_memory};

use crate::end::Ending;
use crate::replies::is_told;
use blockdev::{FaultEffect, ScriptDevice};
use cachecore::{Event, Reply, replies};
use pc_types::Refusal;
use trail::Entry;
use world::{Step, World};

/// Plays an entry, whose bytes are beside it: makes its event, and before the end of a request its device call. Whether
/// the world did as the entry tells. One that is refused for want of memory is passed over.
#[tactic(auto, using(crate::proofs::Events::memory_with))]
pub fn play_entry(
    world: &mut World<ScriptDevice>,
    name: u64,
    effect: FaultEffect,
    entry: &Entry,
    bytes: &[u8],
) -> Result<bool, Refusal>
    requires ready { IsReady name world.old }
    ensures played { IfOk result (λ agrees. OnTrue agrees (IsPlayed name world.old (entry_with entry.now bytes.now) world.new)) }
    ensures refused { IsOkUnless result Refusal.Memory }
{
    if !wants_no_memory(&entry.reply) {
        return Ok(true);
    }
    match &entry.event {
        Event::End(kind, end) => {
            let ending = Ending {
                kind: *kind,
                end,
                reply: &entry.reply,
                bytes,
            };
            Ok(ending.play(world, name, effect))
        }
        event => play_event(world, event, &entry.reply, bytes),
    }
}

fn wants_no_memory(reply: &Reply) -> bool
    ensures { result ≡ wants_no_memory reply.now }
{
    !matches!(reply, Reply::Refused(Refusal::Memory))
}

/// Makes an event that is no end. Whether it is answered so.
fn play_event(
    world: &mut World<ScriptDevice>,
    event: &Event,
    reply: &Reply,
    bytes: &[u8],
) -> Result<bool, Refusal>
    requires no_end { is_ending event.now ≡ false }
    ensures agrees { IfOk result (λ agrees. OnTrue agrees ((name : ℕ) → IsReady name world.old → IsAgreed name world.old (made (event_with event.now bytes.now) (reply_with reply.now bytes.now)) world.new)) }
    ensures refused { IsOkUnless result Refusal.Memory }
{
    let answer = act(world, event, bytes);
    if !wants_no_memory(&answer) {
        return Err(Refusal::Memory);
    }
    Ok(is_told(&answer, reply, bytes))
}

/// Makes an event that is no end, with these bytes.
fn act(world: &mut World<ScriptDevice>, event: &Event, bytes: &[u8]) -> Reply
    requires no_end { is_ending event.now ≡ false }
    ensures { IsActed world.old (event_with event.now bytes.now) result world.new }
{
    match event {
        Event::Write(handle, offset, _) => {
            replies::of_write(&world.write(*handle, *offset, bytes))
        }
        Event::Append(handle, _) => replies::of_write(&world.append(*handle, bytes)),
        _ => world.step(&step_of(event)),
    }
}

/// The step that makes an event which carries no bytes.
fn step_of(event: &Event) -> Step
    ensures { IsStepOf event.now result }
{
    match event {
        Event::Create => Step::Create,
        Event::Open(file) => Step::Open(*file),
        Event::Close(handle) => Step::Close(*handle),
        Event::Size(handle) => Step::Size(*handle),
        Event::Read(handle, offset, count) => Step::Read(*handle, *offset, *count),
        Event::Truncate(handle, size) => Step::Truncate(*handle, *size),
        Event::FillBegin(handle, page) => Step::FillBegin(*handle, *page),
        Event::FlushBegin(file) => Step::FlushBegin(*file),
        Event::Age => Step::Age,
        Event::SyncBegin(handle, first, last) => Step::SyncBeginRange(*handle, *first, *last),
        Event::SyncStep(sync) => Step::SyncStep(*sync),
        Event::SyncDrop(sync) => Step::SyncDrop(*sync),
        // and no other event is left
        _ => Step::Evict,
    }
}
