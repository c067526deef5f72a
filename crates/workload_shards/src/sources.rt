//! What a cache of shards is made of.

ghost use Rattle.std.specs.Prelude.{◌≡◌, All, IfOk, length};
ghost use Rattle.shared.specs.Keeps.{IsDisk};

use blockdev::MemDevice;
use catalog::Catalog;
use pc_types::{Geometry, Refusal};
use shared::shards::parts::Source;
use std::alloc::Global;
use trail::NoTrail;
use workload_steps::CALLERS;

/// What each shard is made of: one for each caller, with a number for its name.
pub fn sources_of(
    alloc: Global,
    geometry: &Geometry,
) -> Result<Vec<Source<MemDevice, NoTrail>>, Refusal>
    ensures { IfOk result (λ sources. All (λ s. IsDisk geometry.now s.device) sources.items) }
{
    let mut sources = Vec::new(alloc);
    for name in 0..CALLERS {
        let source = source_of(alloc, geometry, name)?;
        let Ok(()) = sources.push(source) else {
            return Err(Refusal::Memory);
        };
    }
    Ok(sources)
}

/// What the shard of this name is made of.
fn source_of(
    alloc: Global,
    geometry: &Geometry,
    name: u64,
) -> Result<Source<MemDevice, NoTrail>, Refusal>
    ensures { IfOk result (λ s. IsDisk geometry.now s.device) }
{
    let device = MemDevice::new(alloc, geometry.page(), geometry.blocks())?;
    Ok(Source {
        name,
        files: Catalog::new(alloc, geometry),
        trail: NoTrail::new(),
        device,
    })
}
