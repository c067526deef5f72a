//! Who takes part in a storm over shards: a caller's seats, one at each.

ghost use Rattle.std.specs.Prelude.{◌≡◌, All, IfSome};
ghost use Rattle.shared.specs.ShardSeats.{AreSeated};

use shared::shards::naming::ShardNaming;
use shared::shards::seat::ShardSeat;
use std::alloc::Global;
use std::marker::PhantomData;

/// A caller's seats at the shards that B names.
#[derive(Drop)]
pub struct Member<B: ShardNaming> {
    pub seat: ShardSeat,
    of: PhantomData<B>,
    ghost seated: { AreSeated B.names seat },
}

impl<B: ShardNaming> Member<B> {
    pub fn of(seat: ShardSeat) -> Member<B>
        requires { AreSeated B.names seat }
    {
        Member {
            seat,
            of: PhantomData,
        }
    }
}

/// A member for each seat. None are answered where memory is wanted.
pub fn members_of<B: ShardNaming>(alloc: Global, seats: Vec<ShardSeat>) -> Option<Vec<Member<B>>>
    requires { All (AreSeated B.names) seats.items }
{
    let mut members = Vec::new(alloc);
    for seat in seats {
        members.push(Member::of(seat)).ok()?;
    }
    Some(members)
}

/// The members' seats, to be given to `close`. None are answered where memory is wanted.
pub fn seats_of<B: ShardNaming>(alloc: Global, members: Vec<Member<B>>) -> Option<Vec<ShardSeat>>
    ensures { IfSome result (λ seats. All (AreSeated B.names) seats.items) }
{
    let mut seats = Vec::new(alloc);
    for member in members {
        seats.push(member.seat).ok()?;
    }
    Some(seats)
}
