//! Requests that are carried out and ended in the call that begins them: no job is made, and no buffer is taken.

ghost use Rattle.pc_types.specs.declared.kind.Kind.TheVariants.{Fill, Flush};
ghost use Rattle.world.specs.AtOnce.{StepsAtOnce};

use super::World;
use crate::step::Step;
use blockdev::BlockDevice;
use cachecore::AtOnce;
use pc_types::{FileId, HandleId, PageIndex, SyncId};

impl<D: BlockDevice> World<D> {
    /// Fills the page.
    pub fn fill_at_once(&mut self, handle: HandleId, page: PageIndex) -> AtOnce
        ensures { StepsAtOnce self.old (Step.FillBegin handle page) Fill result self.new }
    {
        self.core.fill_at_once(&mut self.device, handle, page)
    }

    /// Writes the file's lowest page that is to be written.
    pub fn flush_at_once(&mut self, file: FileId) -> AtOnce
        ensures { StepsAtOnce self.old (Step.FlushBegin file) Flush result self.new }
    {
        self.core.flush_at_once(&mut self.device, file)
    }

    /// Makes a step of the sync. The page that it starts is written.
    pub fn sync_at_once(&mut self, sync: SyncId) -> AtOnce
        ensures { StepsAtOnce self.old (Step.SyncStep sync) Flush result self.new }
    {
        self.core.sync_at_once(&mut self.device, sync)
    }
}
