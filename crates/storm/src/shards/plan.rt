//! What the callers of a storm over shards are to do.

ghost use Rattle.std.specs.Prelude.{◌<◌, ◌≤◌};

/// The calls of a storm over a cache of shards.
#[derive(Clone, Copy)]
pub struct Plan {
    pub shards: u64,
    /// How many callers there are.
    pub threads: u64,
    /// How many calls each of them makes.
    pub steps: u64,
    /// The calls of each caller follow from it.
    pub seed: u64,
    pub ghost some: { 0 < shards },
    pub ghost few: { shards ≤ 16 },
}
