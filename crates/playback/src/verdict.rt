//! Whether a device was honest, by the history of the cache over it.

ghost use Rattle.std.specs.Prelude.{◌≡◌, IfOk, IsOkUnless, is_some, true};
ghost use Rattle.world.specs.Stepping.{fits};
ghost use Rattle.playback.specs.Playing.{AreCopies, Compares, IsSameSize, Judges, Plays};
ghost use Rattle.playback.specs.declared.play.Playback.TheVariants.{Agrees};

use crate::blocks::{copy_of, first_unlike};
use crate::play::{Playback, play_again};
use blockdev::{BlockDevice, FaultEffect, ScriptDevice};
use pc_types::{ErrCode, Geometry, Refusal};
use std::alloc::Global;
use trail::FullTrail;

/// What a history says of its device.
#[derive(Clone, Copy, PartialEq, Eq, Debug)]
pub enum Verdict {
    /// The history is honest, and each block is as it leaves it, but where a write that failed may have left either bytes.
    AllAlike,
    /// The first block that is not.
    Unlike(u64),
    /// The place of the first entry at which an honest device would have done otherwise.
    OddEntry(u64),
}

/// Two devices that are as another was before a history.
#[derive(Drop)]
pub struct Copies {
    pub one: ScriptDevice,
    pub other: ScriptDevice,
}

/// Copies of a device. Where a block of it can't be read the code is that of the fault.
pub fn copies_of<D: BlockDevice>(
    alloc: Global,
    device: &mut D,
) -> Result<Result<Copies, ErrCode>, Refusal>
    ensures copied { IfOk result (λ read. IfOk read (AreCopies (D.told device.old))) }
    ensures device { IsSameSize (D.told device.old) (D.told device.new) }
    ensures refused { IsOkUnless result Refusal.Memory }
{
    let one = match copy_of(alloc, device)? {
        Ok(one) => one,
        Err(code) => return Ok(Err(code)),
    };
    match copy_of(alloc, device) {
        Ok(Ok(other)) => Ok(Ok(Copies { one, other })),
        Ok(Err(code)) => {
            drop(one);
            Ok(Err(code))
        }
        Err(refusal) => {
            drop(one);
            Err(refusal)
        }
    }
}

/// What the history of the cache of this name says of the device that it was made over. The copies are as that device was
/// before. A write that failed is played on the one so that it leaves the old bytes, and on the other the new ones: where
/// the two differ the device may have either.
pub fn judge<D: BlockDevice>(
    alloc: Global,
    geometry: &Geometry,
    name: u64,
    trail: &FullTrail,
    copies: Copies,
    device: &mut D,
) -> Result<Verdict, Refusal>
    requires sized { (fits geometry.now copies.one ≡ true) × (fits geometry.now copies.other ≡ true) }
    requires told { (is_some copies.one.contents ≡ true) × (is_some copies.other.contents ≡ true) }
    ensures judged { IfOk result (Judges geometry.now name trail.now.entries copies (D.told device.old)) }
    ensures refused { IsOkUnless result Refusal.Memory }
{
    let Copies { one, other } = copies;
    // each by a call, since the check is slow where a device goes out of scope
    match play_again(alloc, geometry, name, trail, one, FaultEffect::Old) {
        Ok(Playback::Agrees(one)) => {
            match play_again(alloc, geometry, name, trail, other, FaultEffect::New) {
                Ok(Playback::Agrees(other)) => compare(alloc, device, one, other),
                Ok(Playback::Odd(place)) => {
                    drop(one);
                    Ok(Verdict::OddEntry(place))
                }
                Err(refusal) => {
                    drop(one);
                    Err(refusal)
                }
            }
        }
        Ok(Playback::Odd(place)) => {
            drop(other);
            Ok(Verdict::OddEntry(place))
        }
        Err(refusal) => {
            drop(other);
            Err(refusal)
        }
    }
}

/// Compares a device with what a history leaves of its copies.
fn compare<D: BlockDevice>(
    alloc: Global,
    device: &mut D,
    one: ScriptDevice,
    other: ScriptDevice,
) -> Result<Verdict, Refusal>
    requires told { (is_some one.contents ≡ true) × (is_some other.contents ≡ true) }
    ensures compared { IfOk result (Compares (D.told device.old) one other) }
    ensures refused { IsOkUnless result Refusal.Memory }
{
    let unlike = first_unlike(alloc, device, &one, &other);
    drop(one);
    drop(other);
    match unlike? {
        None => Ok(Verdict::AllAlike),
        Some(first) => Ok(Verdict::Unlike(first)),
    }
}
