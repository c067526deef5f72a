//! What the history of a shard comes to.

ghost use Rattle.storm.specs.Sharded.{AreFor};

use crate::odd::Odd;
use crate::run::keeping_of;
use blockdev::BlockDevice;
use faulty::FaultyDevice;
use pc_types::Geometry;
use playback::{Copies, judge};
use shared::shards::close::Closed;
use std::alloc::Global;
use std::io::Write;
use storm_text::{Fault, Findings, Keeping};
use trail::FullTrail;

/// The history of a shard, and whether its device kept what was written to it.
#[derive(Drop)]
pub struct ShardPast {
    pub trail: FullTrail,
    pub device: Keeping,
}

impl ShardPast {
    /// Of a shard of this name that was closed. The history is played again over copies of its device as that was before.
    pub(crate) fn of<D: BlockDevice>(
        alloc: Global,
        geometry: &Geometry,
        name: u64,
        closed: Closed<FaultyDevice<D>, FullTrail>,
        copies: Copies,
    ) -> Result<ShardPast, Fault>
        requires { AreFor geometry.now copies }
    {
        let Closed {
            trail,
            core,
            device,
        } = closed;
        // each by a call, since the check is slow where a core or a device goes out of scope
        drop(core);
        let mut device = device.into_device();
        let verdict = judge(alloc, geometry, name, &trail, copies, &mut device);
        drop(device);
        match verdict {
            Ok(verdict) => {
                let device = keeping_of(&trail, verdict);
                Ok(ShardPast { trail, device })
            }
            Err(_) => {
                drop(trail);
                Err(Fault::Memory)
            }
        }
    }

    /// Adds what is found of the shard of this number to what is found of those before it. What is wrong with it is said on `err`.
    pub(crate) fn find<E: Write>(
        self,
        alloc: Global,
        shard: usize,
        findings: &mut Findings,
        err: &mut E,
    ) -> Result<(), Fault> {
        let ShardPast { trail, device } = self;
        if !device.is_kept() {
            let _ = writeln!(
                err,
                "pcache: shard {shard}: its device did not keep what was written to it"
            );
        }
        if findings.device.is_kept() {
            findings.device = device;
        }
        match Odd::first_in(alloc, trail) {
            Ok(None) => Ok(()),
            Ok(Some(odd)) => {
                let _ = odd.say_of(alloc, shard, err);
                // by a call, since the check is slow where a trail goes out of scope
                drop(odd);
                findings.replays = false;
                Ok(())
            }
            Err(fault) => Err(fault),
        }
    }
}
