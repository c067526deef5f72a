//! What a cache of shards may be made of.

ghost use Rattle.std.specs.Prelude.{map as each};
ghost use Rattle.std.specs.Prelude.{◌≡◌};
ghost use Rattle.std.specs.List.{list_all};
ghost use Rattle.catalog.specs.Cataloged.{fits};
ghost use Rattle.shared.specs.ShardConfigs.{are_distinct, is_among, is_config};

use crate::shards::cache::MAX_SHARDS;
use crate::shards::parts::Source;
use pc_types::Geometry;
use pc_types::limits::MAX_SEATS;

/// Whether there are 1 to 16 sources with different names and with catalogs for the geometry, and 1 to 64 callers.
pub(crate) fn is_config<D, T>(geometry: &Geometry, sources: &[Source<D, T>], callers: u64) -> bool
    ensures { result ≡ is_config geometry.now (each (λ s. s.name) sources.now) (each (λ s. s.files) sources.now) callers }
{
    !sources.is_empty()
        && sources.len() as u64 <= MAX_SHARDS
        && are_distinct(sources)
        && all_fit(geometry, sources)
        && callers > 0
        && callers <= MAX_SEATS
}

/// Whether no two names are equal.
fn are_distinct<D, T>(sources: &[Source<D, T>]) -> bool
    ensures { result ≡ are_distinct (each (λ s. s.name) sources.now) }
{
    match sources.split_first() {
        Some((first, others)) => !is_among(first.name, others) && are_distinct(others),
        None => true,
    }
}

/// Whether the name is among theirs.
fn is_among<D, T>(name: u64, sources: &[Source<D, T>]) -> bool
    ensures { result ≡ is_among name (each (λ s. s.name) sources.now) }
{
    sources.iter().any(|source| source.name == name)
}

/// Whether each catalog is for the geometry.
fn all_fit<D, T>(geometry: &Geometry, sources: &[Source<D, T>]) -> bool
    ensures { result ≡ list_all (fits geometry.now) (each (λ s. s.files) sources.now) }
{
    sources.iter().all(|source| source.files.is_for(geometry))
}
