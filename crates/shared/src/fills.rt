//! What a call does for a page that it missed.

ghost use Rattle.std.specs.Prelude.{◌≡◌, IfErr};
ghost use Rattle.held.specs.Called.{Goes, Only};
ghost use Rattle.shared.specs.Denials.{IsDenied};
ghost use Rattle.shared.specs.Own.{IsHelp};
ghost use Rattle.shared.specs.Rooms.{IsFinal, IsLost};
ghost use Rattle.shared.specs.Settled.{FillsNoOther, Settles};

use crate::cache::SharedCache;
use blockdev::{BlockDevice, Buffer};
use cachecore::Demand;
use held::denied::{Denied, without_slip};
use held::log::Seat;
use held::naming::Naming;
use held::started::FillStarted;
use pc_types::{HandleId, PageIndex};
use std::sync::Wait;
use trail::Trail;

impl<B: Naming, D: BlockDevice, T: Trail> SharedCache<B, D, T> {
    /// Fills a page that a call on these bytes lacks. First room is made for all pages that it lacks: made for this one alone
    /// it could cost the call another of its pages.
    #[tactic(auto, using(held::proofs::Seats::goes_by, held::proofs::Seats::goes_on, held::proofs::Seats::goes_same, crate::proofs::Making::goes_denied, crate::proofs::Making::help_room, crate::proofs::Making::help_on, crate::proofs::Owning::only_room, crate::proofs::Owning::only_filled, crate::proofs::Rooming::lost_unwanted))]
    pub(crate) fn fill<R: Wait>(
        &self,
        rt: &R,
        seat: &mut Seat,
        demand: Demand,
        page: PageIndex,
    ) -> Result<(), Denied>
        requires { seat.old.table ≡ B.table }
        ensures goes { Goes seat.old seat.new }
        ensures only { Only (λ e. IsHelp demand.handle e.event) seat.old seat.new }
        ensures denied { IfErr result (IsDenied B.files B.sizes B.name B.whole (IsHelp demand.handle) seat.old seat.new) }
        ensures lost { IfErr result (IsLost B.files B.sizes B.name seat.new) }
        ensures stands { IfErr result (IsFinal B.files B.sizes B.name seat.new) }
        ensures settled { Settles B.name seat.old seat.new }
        ensures page { Only (λ e. FillsNoOther page e.event) seat.old seat.new }
    {
        if let Err(denied) = self.make_way(rt, seat, demand) {
            return Err(denied);
        }
        self.fill_once(rt, seat, demand.handle, page)
    }

    /// Fills a page. Where it is refused for want of room some is made, or the end of a request waited for.
    #[tactic(auto, using(held::proofs::Seats::goes_by, held::proofs::Seats::goes_on, held::proofs::Seats::goes_same, crate::proofs::Making::goes_denied, crate::proofs::Making::denied_begin, crate::proofs::Making::help_on, held::proofs::Seats::only_same, crate::proofs::Owning::only_fill_begin, crate::proofs::Owning::only_fill_begin_denied, crate::proofs::Owning::only_begun_on, crate::proofs::Rooming::lost_unwanted, crate::proofs::Making::help_settled, crate::proofs::Owning::only_relieved, crate::proofs::Rooming::final_lasting, crate::proofs::Settling::settles_same))]
    fn fill_once<R: Wait>(
        &self,
        rt: &R,
        seat: &mut Seat,
        handle: HandleId,
        page: PageIndex,
    ) -> Result<(), Denied>
        requires { seat.old.table ≡ B.table }
        ensures goes { Goes seat.old seat.new }
        ensures only { Only (λ e. IsHelp handle e.event) seat.old seat.new }
        ensures denied { IfErr result (IsDenied B.files B.sizes B.name B.whole (IsHelp handle) seat.old seat.new) }
        ensures lost { IfErr result (IsLost B.files B.sizes B.name seat.new) }
        ensures stands { IfErr result (IsFinal B.files B.sizes B.name seat.new) }
        ensures settled { Settles B.name seat.old seat.new }
        ensures page { Only (λ e. FillsNoOther page e.event) seat.old seat.new }
    {
        let buffer = match Buffer::new(self.alloc, &self.geometry) {
            Ok(buffer) => buffer,
            Err(refusal) => return Err(without_slip(refusal)),
        };
        let mut guard = self.state.lock(rt);
        let (begun, _) = match guard.fill_begin(seat, handle, page, buffer) {
            Ok(made) => made,
            Err(denied) => return self.relieve(rt, guard, seat, denied),
        };
        drop(guard);
        match begun {
            FillStarted::Job(job) => self.fill_by(rt, seat, handle, job),
            _ => Ok(()),
        }
    }
}
