//! Where the files stand on the device.

ghost use Rattle.std.specs.Prelude.{◌≡◌, ◌≢◌, ℕ, Err, IfOk, IsOkUnless};
ghost use Rattle.cachecore.specs.Standing.{SpotIs, Tells};
ghost use Rattle.held.specs.Called.{Goes, Only};
ghost use Rattle.machine.specs.State.{State};
ghost use Rattle.pc_types.specs.declared.refusal.Refusal.TheVariants.{Memory, Stranger};
ghost use Rattle.trail.specs.History.{After};

use crate::cache::SharedCache;
use blockdev::BlockDevice;
use cachecore::Placed;
use catalog::Catalog;
use held::log::Seat;
use held::naming::Naming;
use pc_types::{FileId, PageIndex, Refusal};
use std::sync::Wait;
use trail::Trail;

impl<B: Naming, D: BlockDevice, T: Trail> SharedCache<B, D, T> {
    /// Where a page of a file stands on the device, and how many bytes of the block are the page's: 0 as long as no write of it has ended
    /// well, and past the file's end those that a truncation cut off as well. `NoSuchFile`. Any page may be asked for. It is no event: the
    /// seat sees the history as it is.
    #[tactic(auto, using(held::proofs::Seats::goes_shown, held::proofs::Seats::goes_same, held::proofs::Seats::only_same))]
    pub fn block_of<R: Wait>(
        &self,
        rt: &R,
        seat: &mut Seat,
        file: FileId,
        page: PageIndex,
    ) -> Result<Option<Placed>, Refusal>
        requires seat { seat.old.name ≡ self.now.name → seat.old.table ≡ B.table }
        ensures foreign { seat.old.name ≢ self.now.name → (result ≡ Err Stranger) × (seat.new ≡ seat.old) }
        ensures goes { Goes seat.old seat.new }
        ensures only { Only (λ _. ⊥) seat.old seat.new }
        ensures stands { seat.old.name ≡ self.now.name → (state : State) × After B.files B.sizes B.name seat.new.list state × SpotIs state file.0 page.0 result }
    {
        if seat.name() != self.name {
            return Err(Refusal::Stranger);
        }
        let mut guard = self.state.lock(rt);
        guard.show(seat);
        guard.core().block_of(file, page)
    }

    /// The files as they stand on the device. A page whose block was never written well is a hole in it. It is no event: the seat sees the
    /// history as it is. After an fsync of each file, and where none is written since, the catalog is all that a cache needs to begin with
    /// these files on the same device; it doesn't tell whether that is so. `Memory`. The state is locked for two look-ups a page that has a block.
    #[tactic(auto, using(held::proofs::Seats::goes_shown, held::proofs::Seats::goes_same, held::proofs::Seats::only_same))]
    pub fn catalog<R: Wait>(&self, rt: &R, seat: &mut Seat) -> Result<Catalog, Refusal>
        requires seat { seat.old.name ≡ self.now.name → seat.old.table ≡ B.table }
        ensures foreign { seat.old.name ≢ self.now.name → (result ≡ Err Stranger) × (seat.new ≡ seat.old) }
        ensures goes { Goes seat.old seat.new }
        ensures only { Only (λ _. ⊥) seat.old seat.new }
        ensures told { seat.old.name ≡ self.now.name → (state : State) × After B.files B.sizes B.name seat.new.list state × IfOk result (Tells state) }
        ensures refused { seat.old.name ≡ self.now.name → IsOkUnless result Memory }
    {
        if seat.name() != self.name {
            return Err(Refusal::Stranger);
        }
        let mut guard = self.state.lock(rt);
        guard.show(seat);
        guard.core().catalog()
    }
}
