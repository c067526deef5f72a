//! Who takes part in a storm: a seat of its cache.

ghost use Rattle.std.specs.Prelude.{◌≡◌, All, IfSome};

use held::log::Seat;
use held::naming::Naming;
use std::alloc::Global;
use std::marker::PhantomData;

/// A seat of the cache that B names.
#[derive(Drop)]
pub struct Member<B: Naming> {
    pub seat: Seat,
    of: PhantomData<B>,
    ghost seated: { seat.table ≡ B.table },
}

impl<B: Naming> Member<B> {
    pub fn of(seat: Seat) -> Member<B>
        requires { seat.table ≡ B.table }
    {
        Member {
            seat,
            of: PhantomData,
        }
    }
}

/// A member for each seat. None are answered where memory is wanted.
pub fn members_of<B: Naming>(alloc: Global, seats: Vec<Seat>) -> Option<Vec<Member<B>>>
    requires { All (λ s. s.table ≡ B.table) seats.items }
{
    let mut members = Vec::new(alloc);
    for seat in seats {
        members.push(Member::of(seat)).ok()?;
    }
    Some(members)
}

/// The members' seats, to be given to `close`. None are answered where memory is wanted.
pub fn seats_of<B: Naming>(alloc: Global, members: Vec<Member<B>>) -> Option<Vec<Seat>>
    ensures { IfSome result (λ seats. All (λ s. s.table ≡ B.table) seats.items) }
{
    let mut seats = Vec::new(alloc);
    for member in members {
        seats.push(member.seat).ok()?;
    }
    Some(seats)
}
