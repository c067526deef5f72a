//! What a cache tells of itself, without an event.

ghost use Rattle.std.specs.Prelude.{◌≡◌};

use crate::cache::SharedCache;
use blockdev::BlockDevice;
use held::naming::Naming;
use pc_types::Geometry;
use trail::Trail;

impl<B: Naming, D: BlockDevice, T: Trail> SharedCache<B, D, T> {
    /// The name that its seats, handles and slips carry.
    pub fn name(&self) -> u64
        ensures { result ≡ self.now.name }
    {
        self.name
    }

    /// Its sizes.
    pub fn geometry(&self) -> Geometry
        ensures { result ≡ B.sizes }
    {
        self.geometry
    }
}
