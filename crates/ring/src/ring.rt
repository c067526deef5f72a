//! The ring: what it is made of. `calls` has what it does.

ghost use Rattle.std.specs.Prelude.{◌≡◌};
ghost use Rattle.crossbeam_queue.specs.Passes.{ruled_capacity};

use crate::log::{InOrder, Log};
use crossbeam_queue::{Pass, RuledArrayQueue};
use deeds::sides::Parcel;

mod calls;

/// The number of parcels that a ring has room for.
pub const PLACES: usize = 64;

/// What one thread did at a ring. It has no bytes.
pub type RingPass = Pass<Parcel, Log>;

/// Parcels on their way to workers, first in first out.
#[derive(Drop)]
pub struct Ring {
    queue: RuledArrayQueue<Parcel, Log, InOrder>,
    ghost places: { ruled_capacity queue ≡ 64 },
}
