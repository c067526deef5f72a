//! A caller's seat at a cache of shards.

ghost use Rattle.std.specs.Prelude.{◌≡◌, ◌≢◌, ◌<◌, ℕ, All, Err, length};
ghost use Rattle.held.specs.Shown.{SeatSeen};
ghost use Rattle.pc_types.specs.declared.refusal.Refusal.TheVariants.{Stranger};
ghost use Rattle.shared.specs.ShardNames.{CacheNames};
ghost use Rattle.shared.specs.ShardSeats.{AreSeated, OnlyAt, Sees, SeesMore, is_of, part};

use held::log::{Seat, Slip};
use pc_types::Refusal;
use std::marker::Model;

/// A caller's seats, one at each shard. It counts its events and knows a history a shard: no order between shards is claimed.
#[derive(Drop)]
pub struct ShardSeat {
    pub(crate) seats: Vec<Seat>,
}

impl Model for ShardSeat {
    ghost use Rattle.std.specs.Prelude.{List};
    ghost use Rattle.held.specs.Shown.{SeatSeen};

    ghost Value = { List SeatSeen };

    ghost view = { λ s. s.seats.items };
}

impl ShardSeat {
    /// Whether the caller has a seat at this shard, of the cache of this name.
    pub(crate) fn is_of(&self, name: u64, shard: u64) -> bool
        ensures { result ≡ is_of name self.now shard }
    {
        match self.seats.get(shard as usize) {
            Some(seat) => seat.name() == name,
            None => false,
        }
    }

    /// Sees the entry of a slip that another caller has, at the shard of whose cache the slip is: what this caller does there after comes
    /// after that entry. `Stranger` where it is of no shard, or of a history that the seat cannot reach.
    pub fn see(&mut self, slip: &Slip) -> Result<(), Refusal>
        ensures none { All (λ s. s.name ≢ slip.now.name) self.old → (result ≡ Err Stranger) × (self.new ≡ self.old) }
        ensures one { (k : ℕ) → k < length self.old → (part self.old k).name ≡ slip.now.name → ((j : ℕ) → j < k → (part self.old j).name ≢ slip.now.name) → OnlyAt k self.old self.new × Sees slip.now (part self.old k) (part self.new k) result }
        ensures same { (length self.new ≡ length self.old) × ((k : ℕ) → k < length self.old → SeesMore (part self.old k) (part self.new k)) }
        ensures seated { (names : ℕ → CacheNames) → AreSeated names self.old → AreSeated names self.new }
    {
        match self.seats.iter().position(|seat| seat.name() == slip.name) {
            Some(shard) => self.seats[shard].see(slip),
            None => Err(Refusal::Stranger),
        }
    }
}
