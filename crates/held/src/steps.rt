//! The atomic steps, at a table and its seats.
ghost use Rattle.std.specs.Prelude.{◌≡◌, ℕ, ◌+◌, ◌<◌, ◌^◌, [], ◌∷◌, ◌++◌, length};
ghost use mathlib.Core.List.{IsPrefix};
ghost use Rattle.held.specs.Shown.{all_of, made_of, number_in, list_of, count_in, IsKeeper, IsSeat};
ghost use Rattle.held.specs.Steps.{IsAt, Stays};
ghost use Rattle.trail.specs.Entries.{entry_with};
ghost use Rattle.held.specs.Views.{AreOfSeats, count_of};
ghost use Rattle.held.specs.declared.views.View.TheVariants.{Spent, Keeper, Holds, Seat};

use crate::views::{
    Adds, Compares, Count, GivesBack, GivesNote, GivesSeat, NamesEntry, Sees, Stand, TakesBack,
    TakesNote,
};
use std::marker::Brand;
use trail::Entry;

// Adds an entry of the seat, whose list is then the whole trail.
pub(crate) fn enter(
    table: &Count,
    keeper: &mut Stand,
    seat: &mut Stand,
    entry: &Entry,
    bytes: &[u8],
    len: u64,
)
    requires at { IsAt table.now.table_id keeper.old × IsAt table.now.table_id seat.old }
    requires keeper { IsKeeper keeper.old.me }
    requires seat { IsSeat seat.old.me × (entry.now.seat ≡ number_in seat.old.me.0) }
    requires len { (len ≡ length (all_of keeper.old.me.0)) × (len + 1 < 2 ^ 64) }
    ensures keeper { Stays keeper.old keeper.new × (keeper.new.me ≡ (Keeper (all_of keeper.old.me.0 ++ entry_with entry.now bytes.now ∷ []) (made_of keeper.old.me.0), [])) }
    ensures seat { Stays seat.old seat.new × (seat.new.me ≡ (Seat (number_in seat.old.me.0) (all_of keeper.old.me.0 ++ entry_with entry.now bytes.now ∷ []) (count_in seat.old.me.0 + 1), [])) }
    ensures begins { IsPrefix (list_of seat.old.me.0) (all_of keeper.old.me.0) }
    ensures counted { count_in seat.old.me.0 ≡ count_of (number_in seat.old.me.0) (all_of keeper.old.me.0) }
{
    take_note(table, keeper, seat);
    add::<Brand>(table, keeper, len + 1, entry, bytes);
    give_back(table, keeper, seat);
}

// The trail's side takes in the seat's number, list and count.
fn take_note(table: &Count, keeper: &mut Stand, seat: &mut Stand)
    requires at { IsAt table.now.table_id keeper.old × IsAt table.now.table_id seat.old }
    requires keeper { IsKeeper keeper.old.me }
    requires seat { IsSeat seat.old.me }
    ensures keeper { Stays keeper.old keeper.new × (keeper.new.me ≡ (Holds (all_of keeper.old.me.0) (made_of keeper.old.me.0) (number_in seat.old.me.0) (list_of seat.old.me.0) (count_in seat.old.me.0), [])) }
    ensures seat { Stays seat.old seat.new × (seat.new.me ≡ (Spent, [])) }
{
    let note = table.split_seat::<GivesNote>(seat);
    table.join_seat::<TakesNote>(keeper, note);
}

fn add<N: NamesEntry>(table: &Count, keeper: &mut Stand, len: u64, entry: &Entry, bytes: &[u8])
    requires at { IsAt table.now.table_id keeper.old }
    requires keeper { keeper.old.me ≡ (Holds (all_of keeper.old.me.0) (made_of keeper.old.me.0) (number_in keeper.old.me.0) (list_of keeper.old.me.0) (count_in keeper.old.me.0), []) }
    requires entry { (N.entry ≡ entry_with entry.now bytes.now) × (entry.now.seat ≡ number_in keeper.old.me.0) }
    requires len { len ≡ length (all_of keeper.old.me.0) + 1 }
    ensures keeper { Stays keeper.old keeper.new × (keeper.new.me ≡ (Holds (all_of keeper.old.me.0 ++ entry_with entry.now bytes.now ∷ []) (made_of keeper.old.me.0) (number_in keeper.old.me.0) (list_of keeper.old.me.0) (count_in keeper.old.me.0 + 1), [])) }
    ensures begins { IsPrefix (list_of keeper.old.me.0) (all_of keeper.old.me.0) }
    ensures counted { count_in keeper.old.me.0 ≡ count_of (number_in keeper.old.me.0) (all_of keeper.old.me.0) }
{
    table.store::<Adds<N>>(keeper, 0, len);
}

// The seat takes its number and count back, with the whole trail for a list.
fn give_back(table: &Count, keeper: &mut Stand, seat: &mut Stand)
    requires at { IsAt table.now.table_id keeper.old × IsAt table.now.table_id seat.old }
    requires keeper { keeper.old.me ≡ (Holds (all_of keeper.old.me.0) (made_of keeper.old.me.0) (number_in keeper.old.me.0) (list_of keeper.old.me.0) (count_in keeper.old.me.0), []) }
    requires seat { seat.old.me ≡ (Spent, []) }
    ensures keeper { Stays keeper.old keeper.new × (keeper.new.me ≡ (Keeper (all_of keeper.old.me.0) (made_of keeper.old.me.0), [])) }
    ensures seat { Stays seat.old seat.new × (seat.new.me ≡ (Seat (number_in keeper.old.me.0) (all_of keeper.old.me.0) (count_in keeper.old.me.0), [])) }
{
    let note = table.split_seat::<GivesBack>(keeper);
    table.join_seat::<TakesBack>(seat, note);
}

// A new seat.
pub(crate) fn give_seat(table: &Count, keeper: &mut Stand) -> Stand
    requires at { IsAt table.now.table_id keeper.old }
    requires keeper { IsKeeper keeper.old.me }
    ensures keeper { Stays keeper.old keeper.new × (keeper.new.me ≡ (Keeper (all_of keeper.old.me.0) (made_of keeper.old.me.0 + 1), [])) }
    ensures seat { IsAt table.now.table_id result × (result.me ≡ (Seat (made_of keeper.old.me.0) (all_of keeper.old.me.0) 0, [])) }
{
    table.split_seat::<GivesSeat>(keeper)
}

// The seat sees the trail as it is. Gives its length.
pub(crate) fn look(table: &Count, seat: &mut Stand) -> u64
    requires at { IsAt table.now.table_id seat.old }
    requires seat { IsSeat seat.old.me }
    ensures seat { Stays seat.old seat.new × (seat.new.me ≡ (Seat (number_in seat.old.me.0) (list_of seat.new.me.0) (count_in seat.old.me.0), [])) }
    ensures seen { IsPrefix (list_of seat.old.me.0) (list_of seat.new.me.0) × (result ≡ length (list_of seat.new.me.0)) }
    ensures counted { count_in seat.old.me.0 ≡ count_of (number_in seat.old.me.0) (list_of seat.new.me.0) }
{
    table.load::<Sees>(seat, 0)
}

// The trail's side takes a seat in for good, and compares it with the trail.
pub(crate) fn settle(table: &Count, keeper: &mut Stand, mut seat: Stand)
    requires at { IsAt table.now.table_id keeper.old × IsAt table.now.table_id seat }
    requires keeper { IsKeeper keeper.old.me }
    requires seat { IsSeat seat.me }
    ensures keeper { Stays keeper.old keeper.new × (keeper.new.me ≡ keeper.old.me) }
    ensures settled { IsPrefix (list_of seat.me.0) (all_of keeper.old.me.0) × (count_in seat.me.0 ≡ count_of (number_in seat.me.0) (all_of keeper.old.me.0)) × (number_in seat.me.0 < made_of keeper.old.me.0) }
    ensures seats { AreOfSeats (made_of keeper.old.me.0) (all_of keeper.old.me.0) }
{
    show(table, keeper, &mut seat);
}

// The seat sees the trail as its side has it.
pub(crate) fn show(table: &Count, keeper: &mut Stand, seat: &mut Stand)
    requires at { IsAt table.now.table_id keeper.old × IsAt table.now.table_id seat.old }
    requires keeper { IsKeeper keeper.old.me }
    requires seat { IsSeat seat.old.me }
    ensures keeper { Stays keeper.old keeper.new × (keeper.new.me ≡ keeper.old.me) }
    ensures seat { Stays seat.old seat.new × (seat.new.me ≡ (Seat (number_in seat.old.me.0) (all_of keeper.old.me.0) (count_in seat.old.me.0), [])) }
    ensures begins { IsPrefix (list_of seat.old.me.0) (all_of keeper.old.me.0) }
    ensures counted { count_in seat.old.me.0 ≡ count_of (number_in seat.old.me.0) (all_of keeper.old.me.0) }
    ensures made { number_in seat.old.me.0 < made_of keeper.old.me.0 }
    ensures seats { AreOfSeats (made_of keeper.old.me.0) (all_of keeper.old.me.0) }
{
    take_note(table, keeper, seat);
    compare(table, keeper);
    give_back(table, keeper, seat);
}

// The trail's side compares the seat that it has a note of with the trail.
fn compare(table: &Count, keeper: &mut Stand)
    requires at { IsAt table.now.table_id keeper.old }
    requires keeper { keeper.old.me ≡ (Holds (all_of keeper.old.me.0) (made_of keeper.old.me.0) (number_in keeper.old.me.0) (list_of keeper.old.me.0) (count_in keeper.old.me.0), []) }
    ensures keeper { Stays keeper.old keeper.new × (keeper.new.me ≡ keeper.old.me) }
    ensures begins { IsPrefix (list_of keeper.old.me.0) (all_of keeper.old.me.0) }
    ensures counted { count_in keeper.old.me.0 ≡ count_of (number_in keeper.old.me.0) (all_of keeper.old.me.0) }
    ensures made { number_in keeper.old.me.0 < made_of keeper.old.me.0 }
    ensures seats { AreOfSeats (made_of keeper.old.me.0) (all_of keeper.old.me.0) }
{
    table.load::<Compares>(keeper, 0);
}
