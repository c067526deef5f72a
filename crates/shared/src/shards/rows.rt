//! Seats of callers, made shard by shard.

ghost use Rattle.std.specs.Prelude.{◌≡◌, ◌+◌, ◌≤◌, ◌++◌, ◌∷◌, [], length, map, option_to_list, take, vec_capacity, All, IfNone, IfOk, OnOk, List, if◌then◌else◌, is_ok, vec_len};
ghost use Rattle.held.specs.Shown.{AreFresh};
ghost use Rattle.shared.specs.ShardNames.{CacheNames};
ghost use Rattle.shared.specs.ShardSeats.{AreCallers, part};

use crate::shards::seat::ShardSeat;
use held::log::Seat;
use std::alloc::{AllocError, Global};

/// So many callers, without a seat at any shard.
pub(crate) fn without_shards(alloc: Global, count: u64) -> Result<Vec<ShardSeat>, AllocError>
    ensures len { IfOk result (λ rows. vec_len rows ≡ count) }
    ensures empty { IfOk result (λ rows. All (λ row. row ≡ []) rows.items) }
{
    let mut rows = Vec::new(alloc);
    for _ in 0..count {
        rows.push(ShardSeat {
            seats: Vec::new(alloc),
        })?;
    }
    Ok(rows)
}

/// Gives each caller the seat of its number at one more shard.
pub(crate) fn seat_all(rows: &mut Vec<ShardSeat>, mut seats: Vec<Seat>) -> Result<(), AllocError>
    requires { vec_len seats ≡ vec_len rows.old }
    ensures len { vec_len rows.new ≡ vec_len rows.old }
    ensures seated { (names : List CacheNames) (n : CacheNames) → AreCallers names rows.old.items → AreFresh n.table n.name seats.items → OnOk result (AreCallers (names ++ n ∷ []) rows.new.items) }
{
    // the last caller first, since the last seat goes first
    let mut row = rows.len();
    while let Some(seat) = seats.pop() {
        row -= 1;
        rows[row].add(seat)?;
    }
    Ok(())
}

impl ShardSeat {
    /// Gives the caller a seat at one more shard.
    fn add(&mut self, seat: Seat) -> Result<(), AllocError>
        ensures { self.new ≡ (if is_ok result then self.old ++ seat ∷ [] else self.old) }
    {
        self.seats.push(seat)?;
        Ok(())
    }

    /// Takes the caller's seat at the last shard, if there is one.
    fn take_last(&mut self) -> Option<Seat>
        ensures items { self.old ≡ self.new ++ option_to_list result }
        ensures none { IfNone result (length self.old ≡ 0) }
    {
        self.seats.pop()
    }
}

/// Takes each caller's seat at the last shard.
pub(crate) fn take_last(rows: &mut Vec<ShardSeat>, shard: u64, mut desk: Vec<Seat>) -> Vec<Seat>
    requires long { All (λ row. length row ≡ shard + 1) rows.old.items }
    requires desk { (desk.items ≡ []) × (vec_len rows.old ≤ vec_capacity desk) }
    ensures taken { result.items ≡ map (λ row. part row shard) rows.old.items }
    ensures left { rows.new.items ≡ map (λ row. take shard row) rows.old.items }
{
    for row in 0..rows.len() {
        let Some(seat) = rows[row].take_last() else {
            unreachable!()
        };
        desk.push_reserved(seat);
    }
    desk
}
