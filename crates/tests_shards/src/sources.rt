//! What the caches of the rows are made of: pages of 16 bytes, 48 frames, a dirty limit of 16, and a device of 256 blocks a shard.

ghost use Rattle.std.specs.Prelude.{◌≡◌, ◌<◌, ◌≤◌, ◌+◌, All, IfOk};
ghost use Rattle.shared.specs.Keeps.{IsDisk};

use crate::gated_trail::GatedTrail;
use crate::turnstile::Turnstile;
use blockdev::{FaultEffect, ScriptDevice};
use catalog::Catalog;
use pc_types::{ErrCode, Geometry, Refusal};
use shared::shards::parts::Source;
use std::alloc::Global;
use trail::FullTrail;

/// How many shards the cache of a row has.
pub(crate) const SHARDS: u64 = 3;

/// The name of its first shard. The others have the numbers after it.
pub(crate) const FIRST: u64 = 7;

/// Names of other caches begin here.
pub(crate) const OTHERS: u64 = 100;

/// What a source is made of.
pub(crate) type Given<'a> = Source<ScriptDevice, GatedTrail<'a>>;

pub(crate) fn geometry() -> Result<Geometry, Refusal> {
    Geometry::new(16, 48, 16, 256)
}

/// How the sources of a row differ.
#[derive(Clone, Copy)]
pub(crate) struct Plan {
    /// How many entries a shard's trail has room for.
    pub(crate) events: u64,
    /// Whether the first write to the device of shard 0 fails.
    pub(crate) fails: bool,
    /// Whether the last source has the name of the first.
    pub(crate) twice: bool,
    /// Whether the catalog of shard 0 is for a device of fewer blocks.
    pub(crate) misfits: bool,
}

impl Plan {
    pub(crate) const SHORT: Plan = Plan {
        events: 1_000,
        fails: false,
        twice: false,
        misfits: false,
    };

    pub(crate) const LONG: Plan = Plan {
        events: 100_000,
        fails: false,
        twice: false,
        misfits: false,
    };

    pub(crate) const FAILING: Plan = Plan {
        events: 1_000,
        fails: true,
        twice: false,
        misfits: false,
    };

    /// The name of a shard.
    fn name(self, first: u64, shard: u64, count: u64) -> u64
        requires there { shard < count }
        requires few { first + count < 1000 }
        ensures least { first ≤ result }
        ensures most { result < first + count }
    {
        if self.twice && shard + 1 == count {
            first
        } else {
            first + shard
        }
    }
}

/// The source of a shard.
fn source<'a>(
    alloc: Global,
    geometry: &Geometry,
    name: u64,
    shard: u64,
    plan: Plan,
    turnstile: Option<&'a Turnstile>,
) -> Result<Given<'a>, Refusal>
    ensures device { IfOk result (λ s. IsDisk geometry.now s.device) }
    ensures name { IfOk result (λ s. s.name ≡ name) }
{
    let trail = FullTrail::new(alloc, plan.events, plan.events.saturating_mul(16))?;
    let mut device = ScriptDevice::new(alloc, geometry.page(), geometry.blocks())?;
    if plan.fails && shard == 0 {
        device.fail_next(ErrCode::IO, FaultEffect::Old);
    }
    let sizes = if plan.misfits && shard == 0 {
        Geometry::new(16, 48, 16, 255)?
    } else {
        *geometry
    };
    Ok(Source {
        name,
        files: Catalog::new(alloc, &sizes),
        trail: GatedTrail {
            trail,
            turnstile: if shard == 0 { turnstile } else { None },
        },
        device,
    })
}

/// Sources of so many shards, whose names are counted from the first. Only the trail of shard 0 stands behind the turnstile, and only its
/// device fails.
pub(crate) fn sources<'a>(
    alloc: Global,
    geometry: &Geometry,
    count: u64,
    first: u64,
    plan: Plan,
    turnstile: Option<&'a Turnstile>,
) -> Result<Vec<Given<'a>>, Refusal>
    requires { first + count < 1000 }
    ensures devices { IfOk result (λ all. All (λ s. IsDisk geometry.now s.device) all.items) }
    ensures names { IfOk result (λ all. All (λ s. (first ≤ s.name) × (s.name < first + count)) all.items) }
{
    let mut all = Vec::new(alloc);
    for shard in 0..count {
        let name = plan.name(first, shard, count);
        let source = source(alloc, geometry, name, shard, plan, turnstile)?;
        if all.push(source).is_err() {
            return Err(Refusal::Memory);
        }
    }
    Ok(all)
}
