//! A full trail, played again.

ghost use Rattle.std.specs.Prelude.{◌≡◌, ◌<◌, IfNone, IfOk, IfSome, IsOkUnless, is_some, length, take, true};
ghost use Rattle.runs.specs.Runs.{IsBlank};
ghost use Rattle.world.specs.Stepping.{fits, world_of};
ghost use Rattle.playback.specs.Playing.{IsReady, Plays, Stands, Went, played};

use crate::entry::play_entry;
use blockdev::{FaultEffect, ScriptDevice};
use pc_types::{Geometry, Refusal};
use std::alloc::Global;
use trail::FullTrail;
use world::World;

/// What a history comes to that is played again.
#[derive(Drop)]
pub enum Playback {
    /// Each entry agrees, and so the history is honest. The device is as the history leaves it.
    Agrees(ScriptDevice),
    /// The place of the first entry, counted from 0, at which the world does otherwise.
    Odd(u64),
}

/// Plays the history of the cache of this name again, over a device that is as it was before the history. Each device call
/// is made as its request ends; where the history tells that it failed it is made to fail with that code, and a flush
/// leaves the old or the new bytes on its block by `effect`, which the history does not tell.
///
/// An entry agrees where the world gives the same reply, with all its numbers and bytes, and where it ends a request if the
/// device call came to what the entry tells. Whether memory is wanted can't be played: an entry that is refused for want
/// of it has changed nothing, and is passed over. It is refused by `Memory` alone.
#[tactic(auto, using(crate::proofs::Going::ready_first, crate::proofs::Going::plays_first))]
pub fn play_again(
    alloc: Global,
    geometry: &Geometry,
    name: u64,
    trail: &FullTrail,
    device: ScriptDevice,
    effect: FaultEffect,
) -> Result<Playback, Refusal>
    requires sized { fits geometry.now device ≡ true }
    requires contents { is_some device.contents ≡ true }
    ensures played { IfOk result (Plays geometry.now name trail.now.entries device) }
    ensures refused { IsOkUnless result Refusal.Memory }
{
    match World::new(alloc, geometry, name, device) {
        Ok(world) => play_all(world, name, trail, effect),
        Err((_, device)) => {
            drop(device);
            Err(Refusal::Memory)
        }
    }
}

#[tactic(auto, using(crate::proofs::Going::all_agree, crate::proofs::Going::one_odd))]
fn play_all(
    mut world: World<ScriptDevice>,
    name: u64,
    trail: &FullTrail,
    effect: FaultEffect,
) -> Result<Playback, Refusal>
    requires ready { IsReady name world }
    requires first { IsBlank (world_of world) }
    ensures played { IfOk result (Plays world.core.sizes name trail.now.entries world.device) }
    ensures refused { IsOkUnless result Refusal.Memory }
{
    // each by a call, since the check is slow where a world goes out of scope
    match first_odd(&mut world, name, trail, effect) {
        Ok(None) => Ok(Playback::Agrees(world.into_device())),
        Ok(Some(place)) => {
            drop(world);
            Ok(Playback::Odd(place))
        }
        Err(refusal) => {
            drop(world);
            Err(refusal)
        }
    }
}

/// The place of the first entry at which the world does otherwise.
#[tactic(auto, using(crate::proofs::Going::next, crate::proofs::Going::far_first, crate::proofs::Going::far_all, crate::proofs::Going::far_told, crate::proofs::Going::far_odd))]
fn first_odd(
    world: &mut World<ScriptDevice>,
    name: u64,
    trail: &FullTrail,
    effect: FaultEffect,
) -> Result<Option<u64>, Refusal>
    requires ready { IsReady name world.old }
    requires first { IsBlank (world_of world.old) }
    ensures all { IfOk result (λ o. IfNone o (Went (world_of world.old) (played trail.now.entries) (world_of world.new))) }
    ensures told { IfOk result (λ o. IfNone o (is_some world.new.device.contents ≡ true)) }
    ensures odd { IfOk result (λ o. IfSome o (Stands (world_of world.old) trail.now.entries)) }
    ensures refused { IsOkUnless result Refusal.Memory }
{
    let mut place = 0;
    while place < trail.len() {
        let Some((entry, bytes)) = trail.entry(place) else {
            return Ok(None);
        };
        if !play_entry(world, name, effect, entry, bytes)? {
            return Ok(Some(place));
        }
        place += 1;
    }
    Ok(None)
}
