//! Where a cursor is put.

ghost use Rattle.std.specs.Prelude.{◌≡◌, ◌≢◌, Err, None};
ghost use Rattle.machine.specs.declared.event.Event.TheVariants as event;
ghost use Rattle.pc_types.specs.declared.refusal.Refusal.TheVariants.{BadHandle, Stranger};
ghost use Rattle.held.specs.Called.{Goes, Only};
ghost use Rattle.cursor.specs.Places.{placed, target};
ghost use Rattle.shared.specs.Seeks.{Seeks, place_after, with_slip};

use crate::cache::SharedCache;
use crate::handle::Handle;
use blockdev::BlockDevice;
use cursor::Seek;
use held::denied::{Denied, without_slip};
use held::log::{Seat, Slip};
use held::naming::Naming;
use std::sync::Wait;
use trail::Trail;

impl<B: Naming, D: BlockDevice, T: Trail> SharedCache<B, D, T> {
    /// Puts the cursor, and answers where it is now. Refused by `TooLarge` below 0 and past the greatest size of a file. Only a place
    /// that is counted from the end of the file makes an event, which asks for the file's size.
    #[tactic(auto, using(held::proofs::Seats::goes_by, held::proofs::Seats::goes_same, crate::proofs::Making::goes_denied, crate::proofs::Making::makes_by, crate::proofs::Making::denied_event, crate::proofs::Making::full_by, crate::proofs::Making::made_one, crate::proofs::Making::denied_one, crate::proofs::Making::none_made, held::proofs::Seats::only_same, crate::proofs::Owning::only_event, crate::proofs::Owning::only_event_denied))]
    pub fn seek<R: Wait>(
        &self,
        rt: &R,
        seat: &mut Seat,
        handle: &mut Handle,
        place: Seek,
    ) -> Result<(u64, Option<Slip>), Denied>
        requires seat { seat.old.name ≡ self.now.name → seat.old.table ≡ B.table }
        ensures foreign { seat.old.name ≢ self.now.name → (result ≡ Err (record { refusal = Stranger; slip = None })) × (seat.new ≡ seat.old) }
        ensures closed { seat.old.name ≡ self.now.name → handle.old.cache ≢ self.now.name → (result ≡ Err (record { refusal = BadHandle; slip = None })) × (seat.new ≡ seat.old) }
        ensures goes { Goes seat.old seat.new }
        ensures only { Only (λ e. e.event ≡ event.Size handle.old.number) seat.old seat.new }
        ensures sought { seat.old.name ≡ self.now.name → handle.old.cache ≡ self.now.name → Seeks B.files B.sizes B.name B.whole place handle.old seat.old seat.new result }
        ensures cursor { handle.new ≡ record handle.old { cursor = place_after handle.old.cursor result } }
    {
        if let Err(refusal) = self.admits(seat, handle) {
            return Err(without_slip(refusal));
        }
        match place {
            Seek::End(_) => match self.state.lock(rt).size(seat, handle.number) {
                Ok((size, slip)) => put(handle, place, size, Some(slip)),
                Err(denied) => Err(denied),
            },
            _ => put(handle, place, 0, None),
        }
    }
}

/// Puts the cursor at a place of a file of this size.
fn put(
    handle: &mut Handle,
    place: Seek,
    size: u64,
    slip: Option<Slip>,
) -> Result<(u64, Option<Slip>), Denied>
    ensures at { result ≡ with_slip slip (placed (target place handle.old.cursor size)) }
    ensures cursor { handle.new ≡ record handle.old { cursor = place_after handle.old.cursor result } }
{
    match place.offset(handle.cursor, size) {
        Ok(at) => {
            handle.cursor = at;
            Ok((at, slip))
        }
        Err(refusal) => Err(Denied { refusal, slip }),
    }
}
