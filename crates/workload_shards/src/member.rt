//! Who works at the cache.

ghost use Rattle.std.specs.Prelude.{All, IfOk};
ghost use Rattle.shared.specs.ShardSeats.{AreSeated};

use blockdev::MemDevice;
use shared::shards::cache::ShardedCache;
use shared::shards::naming::ShardNaming;
use shared::shards::seat::ShardSeat;
use std::alloc::{AllocError, Global};
use std::marker::PhantomData;
use trail::NoTrail;

/// A cache of shards over memory that keeps no history.
pub type Sharded<B> = ShardedCache<B, MemDevice, NoTrail>;

/// A caller's seats at the cache of shards that B names.
#[derive(Drop)]
pub struct Member<B: ShardNaming> {
    pub seat: ShardSeat,
    of: PhantomData<B>,
    ghost seated: { AreSeated B.names seat },
}

impl<B: ShardNaming> Member<B> {
    pub fn of(seat: ShardSeat) -> Member<B>
        requires { AreSeated B.names seat }
    {
        Member {
            seat,
            of: PhantomData,
        }
    }

    pub fn into_seat(self) -> ShardSeat
        ensures { AreSeated B.names result }
    {
        self.seat
    }
}

/// A member for each caller's seats.
pub fn members_of<B: ShardNaming>(
    alloc: Global,
    seats: Vec<ShardSeat>,
) -> Result<Vec<Member<B>>, AllocError>
    requires { All (AreSeated B.names) seats.items }
{
    let mut members = Vec::new(alloc);
    for seat in seats {
        members.push(Member::of(seat))?;
    }
    Ok(members)
}

/// The members' seats, to be given to `close`.
pub fn seats_of<B: ShardNaming>(
    alloc: Global,
    members: Vec<Member<B>>,
) -> Result<Vec<ShardSeat>, AllocError>
    ensures { IfOk result (λ seats. All (AreSeated B.names) seats.items) }
{
    let mut seats = Vec::new(alloc);
    for member in members {
        seats.push(member.seat)?;
    }
    Ok(seats)
}
