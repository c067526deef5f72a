//! Who works at the cache.

ghost use Rattle.std.specs.Prelude.{◌≡◌, All, IfOk};

use blockdev::MemDevice;
use held::log::Seat;
use held::naming::Naming;
use shared::cache::SharedCache;
use std::alloc::{AllocError, Global};
use std::marker::PhantomData;
use trail::NoTrail;

/// A cache over memory that keeps no history.
pub type Shared<B> = SharedCache<B, MemDevice, NoTrail>;

/// A seat of the cache that B names.
#[derive(Drop)]
pub struct Member<B: Naming> {
    pub seat: Seat,
    of: PhantomData<B>,
    ghost seated: { seat.table ≡ B.table },
}

impl<B: Naming> Member<B> {
    pub fn of(seat: Seat) -> Member<B>
        requires { seat.table ≡ B.table }
    {
        Member {
            seat,
            of: PhantomData,
        }
    }

    pub fn into_seat(self) -> Seat
        ensures { result.table ≡ B.table }
    {
        self.seat
    }
}

/// A member for each seat.
pub fn members_of<B: Naming>(alloc: Global, seats: Vec<Seat>) -> Result<Vec<Member<B>>, AllocError>
    requires { All (λ s. s.table ≡ B.table) seats.items }
{
    let mut members = Vec::new(alloc);
    for seat in seats {
        members.push(Member::of(seat))?;
    }
    Ok(members)
}

/// The members' seats, to be given to `close`.
pub fn seats_of<B: Naming>(alloc: Global, members: Vec<Member<B>>) -> Result<Vec<Seat>, AllocError>
    ensures { IfOk result (λ seats. All (λ s. s.table ≡ B.table) seats.items) }
{
    let mut seats = Vec::new(alloc);
    for member in members {
        seats.push(member.seat)?;
    }
    Ok(seats)
}
