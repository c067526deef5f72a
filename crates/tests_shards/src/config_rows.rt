//! What no cache of shards is made of.

use crate::gated_trail::GatedTrail;
use crate::sources::{FIRST, Given, Plan, geometry, sources};
use blockdev::ScriptDevice;
use pc_types::Refusal;
use shared::shards::parts::{ShardParts, Unmade};
use std::alloc::{AllocError, Global};
use std::mem::drop;
use std::sync::Wait;
use std::test::Fail;

/// What comes of sources.
#[derive(Clone, Copy, PartialEq, Eq)]
enum Fate {
    Made,
    Refused,
    Lost,
}

const PLAIN: Plan = Plan {
    events: 8,
    fails: false,
    twice: false,
    misfits: false,
};

const TWICE: Plan = Plan {
    events: 8,
    fails: false,
    twice: true,
    misfits: false,
};

const MISFIT: Plan = Plan {
    events: 8,
    fails: false,
    twice: false,
    misfits: true,
};

/// What comes of so many sources of this plan, and so many callers.
fn fate_of<R: Wait>(
    rt: &R,
    alloc: Global,
    count: u8,
    plan: Plan,
    callers: u64,
) -> Result<Fate, Refusal> {
    let geometry = geometry()?;
    let sources = sources(alloc, &geometry, u64::from(count), FIRST, plan, None)?;
    let names = names_of(alloc, &sources)?;
    match ShardParts::make(rt, alloc, &geometry, sources, callers) {
        Ok((parts, seats)) => {
            let is_whole = seats.len() as u64 == callers;
            drop(parts);
            drop(seats);
            Ok(if is_whole { Fate::Made } else { Fate::Lost })
        }
        Err(unmade) => {
            let is_back = is_all_back(&unmade, &names);
            drop(unmade);
            Ok(if is_back { Fate::Refused } else { Fate::Lost })
        }
    }
}

fn names_of(alloc: Global, sources: &[Given<'_>]) -> Result<Vec<u64>, AllocError> {
    let mut names = Vec::new(alloc);
    for source in sources {
        names.push(source.name)?;
    }
    Ok(names)
}

/// Whether nothing was made, and the sources of these names are there.
fn is_all_back(unmade: &Unmade<ScriptDevice, GatedTrail<'_>>, names: &[u64]) -> bool {
    unmade.refusal == Refusal::BadConfig
        && unmade.made.is_empty()
        && unmade.left.len() == names.len()
        && unmade
            .left
            .iter()
            .zip(names)
            .all(|(source, name)| source.name == *name)
}

#[test]
fn a_cache_has_1_to_16_shards_of_different_names_with_catalogs_that_fit_and_1_to_64_callers(
    rt: HostRuntime,
) -> Result<(), Fail> {
    for (count, plan, callers, wanted) in [
        (1, PLAIN, 1, Fate::Made),
        (16, PLAIN, 2, Fate::Made),
        (2, PLAIN, 64, Fate::Made),
        (0, PLAIN, 2, Fate::Refused),
        (17, PLAIN, 2, Fate::Refused),
        (3, TWICE, 2, Fate::Refused),
        (2, TWICE, 2, Fate::Refused),
        (1, MISFIT, 2, Fate::Refused),
        (3, MISFIT, 2, Fate::Refused),
        (3, PLAIN, 0, Fate::Refused),
        (3, PLAIN, 65, Fate::Refused),
    ] {
        let fate = fate_of(&rt, rt.alloc(), count, plan, callers)?;
        assert!(&rt; fate == wanted, "{count} sources, {callers} callers");
    }
    Ok(())
}
