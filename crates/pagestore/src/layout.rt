//! The sizes of a cache, with the page's as a shift.

ghost use Rattle.std.specs.Prelude.{◌≡◌, ◌+◌, ◌≤◌, IsTrue};
ghost use Rattle.pc_types.specs.Limits.{is_geometry};
ghost use Rattle.pc_types.specs.declared.limits.TheConstants.{CLEAN_FRAMES, MAX_PAGE_SIZE, MIN_PAGE_SIZE};

use pc_types::Geometry;
use std::marker::Model;

/// A geometry that keeps its page's size as a power of two: where code divides by the size, the compiler sees a shift.
#[derive(Drop)]
pub struct Layout {
    geometry: Geometry,
    shift: u32,
}

impl Model for Layout {
    ghost use Rattle.std.specs.Prelude.{◌≡◌, ◌^◌, ◌<◌};
    ghost use Rattle.pc_types.specs.Limits.{Sizes};

    ghost Value = { Sizes };

    ghost view = { λ l. l.geometry };

    ghost invariant = { λ l. (l.shift < 64) × (l.geometry.page ≡ 2 ^ l.shift) };
}

impl Layout {
    pub fn new(geometry: &Geometry) -> Layout
        ensures { result ≡ geometry.now }
    {
        Layout {
            geometry: *geometry,
            shift: geometry.page().ilog2(),
        }
    }

    pub fn geometry(&self) -> Geometry
        ensures { result ≡ self.now }
    {
        self.geometry
    }

    /// Bytes of a page.
    #[inline(always)]
    pub fn page(&self) -> u64
        ensures value { result ≡ self.now.page }
        ensures within { IsTrue (is_geometry self.now) }
        ensures least { MIN_PAGE_SIZE ≤ result }
        ensures most { result ≤ MAX_PAGE_SIZE }
    {
        // for what `page` ensures
        prove!(self.geometry.page() > 0);
        1 << self.shift
    }

    /// The most pages that writes may make dirty.
    pub fn dirty_limit(&self) -> u64
        ensures value { result ≡ self.now.dirty_limit }
        ensures most { result + CLEAN_FRAMES ≤ self.now.frames }
    {
        self.geometry.dirty_limit()
    }
}
