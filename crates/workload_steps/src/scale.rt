//! How large the work is.

ghost use Rattle.std.specs.Prelude.{◌≤◌};

use pc_types::{Geometry, Refusal};

/// Bytes of a page.
pub const PAGE: u64 = 4_096;

/// How many callers there are.
pub const CALLERS: u64 = 4;

/// The whole work, or a fiftieth of it.
#[derive(Clone, Copy, PartialEq, Eq, Debug)]
pub enum Scale {
    Whole,
    Small,
}

/// What is asked for: calls follow from the seed.
#[derive(Clone, Copy)]
pub struct Plan {
    pub scale: Scale,
    pub seed: u32,
}

impl Plan {
    /// What two words ask for, where they are a scale and a seed.
    pub fn read(scale: &str, seed: &str) -> Option<Plan> {
        Some(Plan {
            scale: Scale::named(scale)?,
            seed: seed.parse().ok()?,
        })
    }
}

impl Scale {
    /// The scale of this name.
    fn named(word: &str) -> Option<Scale> {
        match word {
            "threads" => Some(Scale::Whole),
            "small" => Some(Scale::Small),
            _ => None,
        }
    }

    /// How many calls a caller makes, after it has written its file.
    pub fn calls(self) -> u64 {
        match self {
            Scale::Whole => 250_000,
            Scale::Small => 5_000,
        }
    }

    /// Bytes of a caller's own file.
    pub fn own_size(self) -> u64
        ensures least { 131072 ≤ result }
        ensures most { result ≤ 4194304 }
    {
        match self {
            Scale::Whole => 1_024 * PAGE,
            Scale::Small => 48 * PAGE,
        }
    }

    /// Bytes of the common file.
    pub fn common_size(self) -> u64
        ensures least { 131072 ≤ result }
        ensures most { result ≤ 4194304 }
    {
        match self {
            Scale::Whole => 512 * PAGE,
            Scale::Small => 32 * PAGE,
        }
    }

    /// Half as many frames as the callers' own files have pages, half of which may be dirty, and more blocks than all files have pages.
    pub fn geometry(self) -> Result<Geometry, Refusal> {
        match self {
            Scale::Whole => Geometry::new(PAGE, 2_048, 1_024, 8_192),
            Scale::Small => Geometry::new(PAGE, 96, 48, 1_024),
        }
    }

    /// The same of one of four shards, which has a caller's own file, and the first the common one as well. As many pages as one call
    /// touches may be dirty.
    pub fn shard_geometry(self) -> Result<Geometry, Refusal> {
        match self {
            Scale::Whole => Geometry::new(PAGE, 512, 256, 4_096),
            Scale::Small => Geometry::new(PAGE, 64, 32, 512),
        }
    }
}
