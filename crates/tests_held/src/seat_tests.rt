//! How many seats a cache has.

use crate::checks::check;
use held::state::Opened;
use pc_types::{Geometry, Refusal};
use std::alloc::Global;
use std::mem::drop;
use std::process::Abort;
use trail::NoTrail;

/// How many seats a new cache has that is to have so many.
fn seats(rt: &impl Abort, alloc: Global, count: u64) -> Result<usize, Refusal> {
    let geometry = Geometry::new(16, 48, 16, 64).expect(rt, "sizes");
    match Opened::new(alloc, &geometry, 7, NoTrail::new(), count) {
        Ok((opened, board, seats, own)) => {
            let made = seats.len();
            drop(opened);
            drop(board);
            drop(seats);
            drop(own);
            Ok(made)
        }
        Err((refusal, trail)) => {
            drop(trail);
            Err(refusal)
        }
    }
}

#[test]
fn a_cache_has_64_seats_at_most(rt: HostRuntime) {
    let alloc = rt.alloc();
    check(&rt, seats(&rt, alloc, 64) == Ok(64));
    check(&rt, seats(&rt, alloc, 65) == Err(Refusal::BadConfig));
    check(&rt, seats(&rt, alloc, 0) == Err(Refusal::BadConfig));
}
