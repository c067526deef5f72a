//! What the shards of a storm are made of.

ghost use Rattle.std.specs.Prelude.{◌≡◌, ◌<◌, ◌≤◌, All, IfOk, vec_len};
ghost use Rattle.shared.specs.Keeps.{IsDisk};
ghost use Rattle.storm.specs.Sharded.{AreFor};

use crate::run::{BYTES, EVENTS, NAME, fault_of};
use blockdev::BlockDevice;
use catalog::Catalog;
use faulty::FaultyDevice;
use pc_types::Geometry;
use playback::{Copies, copies_of};
use shared::shards::parts::Source;
use std::alloc::Global;
use storm_text::Fault;
use trail::FullTrail;

/// What a shard over a device is made of.
pub type Stormed<D> = Source<FaultyDevice<D>, FullTrail>;

/// What is needed of each shard's trail and device.
#[derive(Clone, Copy)]
pub struct Needs {
    /// The most events of the trail, and bytes of all of them.
    events: u64,
    bytes: u64,
    /// Each call of the device whose number is a multiple of this one fails; none where it is 0.
    faults: u64,
}

impl Needs {
    /// Of so many shards, which share the room that the trail of one cache has.
    pub fn of(shards: u64, faults: u64) -> Needs
        requires { 0 < shards }
    {
        Needs {
            events: EVENTS / shards,
            bytes: BYTES / shards,
            faults,
        }
    }
}

/// A source for each of these devices, and copies of it.
pub fn sources_of<D: BlockDevice>(
    alloc: Global,
    geometry: &Geometry,
    devices: Vec<D>,
    needs: Needs,
) -> Result<(Vec<Stormed<D>>, Vec<Copies>), Fault>
    requires { All (λ d. IsDisk geometry.now (D.told d)) devices.items }
    ensures sources { IfOk result (λ r. All (λ s. IsDisk geometry.now s.device) r.0.items) }
    ensures copies { IfOk result (λ r. All (AreFor geometry.now) r.1.items) }
{
    let mut sources = Vec::new(alloc);
    let mut copies = Vec::new(alloc);
    for device in devices {
        let name = NAME + sources.len() as u64;
        let (source, copied) = source_of(alloc, geometry, name, device, needs)?;
        let Ok(()) = sources.push(source) else {
            return Err(Fault::Memory);
        };
        let Ok(()) = copies.push(copied) else {
            return Err(Fault::Memory);
        };
    }
    Ok((sources, copies))
}

/// The source of a shard of this name, and copies of its device.
#[tactic(auto, using(crate::proofs::Copying::copies_are_for))]
fn source_of<D: BlockDevice>(
    alloc: Global,
    geometry: &Geometry,
    name: u64,
    mut device: D,
    needs: Needs,
) -> Result<(Stormed<D>, Copies), Fault>
    requires { IsDisk geometry.now (D.told device) }
    ensures source { IfOk result (λ r. IsDisk geometry.now r.0.device) }
    ensures copies { IfOk result (λ r. AreFor geometry.now r.1) }
{
    // each by a call, since the check is slow where a device goes out of scope
    match copies_of(alloc, &mut device) {
        Ok(Ok(copies)) => match FullTrail::new(alloc, needs.events, needs.bytes) {
            Ok(trail) => {
                let files = Catalog::new(alloc, geometry);
                Ok((stormed(name, files, trail, device, needs), copies))
            }
            Err(_) => {
                drop(device);
                drop(copies);
                Err(Fault::Memory)
            }
        },
        Ok(Err(_)) => {
            drop(device);
            Err(Fault::Device)
        }
        Err(_) => {
            drop(device);
            Err(Fault::Memory)
        }
    }
}

fn stormed<D: BlockDevice>(
    name: u64,
    files: Catalog,
    trail: FullTrail,
    device: D,
    needs: Needs,
) -> Stormed<D>
    ensures { (result.device.size ≡ (D.told device).size) × (result.device.count ≡ (D.told device).count) }
{
    Source {
        name,
        files,
        trail,
        device: FaultyDevice::new(device, needs.faults),
    }
}
