//! The history of a cache with the seats of its callers, and the slips of their entries.

ghost use Rattle.std.specs.Prelude.{◌≡◌, ◌≢◌, ℕ, ◌+◌, ◌<◌, ◌≤◌, [], ◌∷◌, ◌++◌, length, IfOk, IfErr, OnOk, All, Any, vec_len, ◌⊎◌, false, true, None, Some};
ghost use Rattle.std.specs.Arc.{arc_value};
ghost use Rattle.std.specs.Bool.{OnTrue, OnFalse};
ghost use Rattle.pc_types.specs.declared.refusal.Refusal.TheVariants.{Stranger, TrailFull};
ghost use mathlib.Core.List.{IsPrefix};
ghost use Rattle.held.specs.declared.views.View.TheVariants.{Keeper};
ghost use Rattle.held.specs.Called.{Only};
ghost use Rattle.held.specs.Entered.{Entered};
ghost use Rattle.trail.specs.Entries.{entry_with};
ghost use Rattle.trail.specs.Room.{fits, fits_beside, less, reserved};
ghost use Rattle.held.specs.Shown.{AreFresh, IsFresh, IsKeeper, all_of, made_of};
ghost use Rattle.held.specs.Steps.{IsAt, Stays};
ghost use Rattle.held.specs.Views.{AreOfSeats, count_of};

use crate::denied::{Denied, without_slip};
use crate::steps::{enter, give_seat, look, settle, show};
use crate::views::{Count, InOneOrder, Stand, View};
use atomic_table::Table;
use cachecore::{CacheCore, Event, Reply};
use pc_types::Refusal;
use std::alloc::{AllocError, Global};
use std::marker::Model;
use std::sync::Arc;
use trail::{Entry, FullTrail, Reserve, Trail};

pub(crate) type Owned = Table<u8, View, (), InOneOrder, Global>;

/// A history as it is written down, and how many seats it has.
#[derive(Drop)]
pub(crate) struct Log<T: Trail> {
    name: u64,
    count: Arc<Owned, Global>,
    keeper: Stand,
    made: u64,
    trail: T,
}

impl<T: Trail> Model for Log<T> {
    ghost use Rattle.std.specs.Prelude.{◌≡◌, [], Some};
    ghost use Rattle.std.specs.Arc.{arc_value};
    ghost use Rattle.held.specs.declared.views.View.TheVariants.{Keeper};
    ghost use Rattle.held.specs.Shown.{LogSeen, all_of};

    ghost Value = { LogSeen };

    ghost view = { λ h. record { table = h.keeper.table_id; name = h.name; history = all_of h.keeper.me.0; room = T.room h.trail; made = h.made } };

    ghost invariant = { λ h.
        ((arc_value h.count).shared.table_id ≡ h.keeper.table_id) × (h.keeper.table_id.words ≡ 1)
        × (h.keeper.me ≡ (Keeper (all_of h.keeper.me.0) h.made, []))
        × T.records h.trail (all_of h.keeper.me.0)
        × (T.cache h.trail ≡ Some h.name) };
}

/// A caller's seat: what it has seen of the history.
#[derive(Drop)]
pub struct Seat {
    name: u64,
    number: u64,
    count: Arc<Owned, Global>,
    stand: Stand,
}

impl Model for Seat {
    ghost use Rattle.std.specs.Prelude.{◌≡◌, []};
    ghost use Rattle.std.specs.Arc.{arc_value};
    ghost use Rattle.held.specs.declared.views.View.TheVariants.{Seat};
    ghost use Rattle.held.specs.Shown.{SeatSeen, list_of, count_in};
    ghost use Rattle.held.specs.Views.{count_of};

    ghost Value = { SeatSeen };

    ghost view = { λ s. record { table = s.stand.table_id; name = s.name; number = s.number; list = list_of s.stand.me.0; count = count_in s.stand.me.0 } };

    ghost invariant = { λ s.
        ((arc_value s.count).shared.table_id ≡ s.stand.table_id) × (s.stand.table_id.words ≡ 1)
        × (s.stand.me ≡ (Seat s.number (list_of s.stand.me.0) (count_in s.stand.me.0), []))
        × (count_in s.stand.me.0 ≡ count_of s.number (list_of s.stand.me.0)) };
}

/// The place of an entry in the history of the cache of a name.
#[derive(Clone, Copy, Debug)]
pub struct Slip {
    pub name: u64,
    pub place: u64,
}

impl<T: Trail> Log<T> {
    /// Adds the entry of a seat, whose bytes stand beside it.
    #[inline(always)]
    pub(crate) fn enter(
        &mut self,
        seat: &mut Seat,
        event: Event,
        reply: Reply,
        bytes: &[u8],
    ) -> Slip
        requires table { seat.old.table ≡ self.old.table }
        requires room { fits self.old.room 1 (length bytes.now) ≡ true }
        ensures entered { Entered (entry_with record { seat = seat.old.number; event = event; reply = reply } bytes.now) self.old self.new seat.old seat.new result }
        ensures room { self.new.room ≡ less self.old.room (length bytes.now) }
    {
        let Log {
            count,
            keeper,
            trail,
            ..
        } = self;
        let entry = Entry {
            seat: seat.number,
            event,
            reply,
        };
        let place = trail.count();
        enter(&count.shared, keeper, &mut seat.stand, &entry, bytes, place);
        trail.append(entry, bytes);
        Slip {
            name: seat.name,
            place,
        }
    }

    /// Whether so many more entries, with so many bytes together, fit beside the ends of all that is in flight.
    pub(crate) fn has_room(&self, core: &CacheCore, entries: u64, bytes: u64) -> bool
        ensures { result ≡ fits_beside self.now.room core.now.state.sizes.page (reserved core.now.state) entries bytes }
    {
        let in_flight = core.in_flight();
        let reserved = Reserve {
            fills: in_flight.fills,
            others: in_flight.flushes + in_flight.syncs,
        };
        let page = core.geometry().page();
        self.trail.has_room(page, &reserved, entries, bytes)
    }

    /// The refusal of an event for which there is no room. The seat is shown the history that leaves none.
    pub(crate) fn full(&mut self, seat: &mut Seat) -> Denied
        requires { seat.old.table ≡ self.old.table }
        ensures denied { result ≡ record { refusal = TrailFull; slip = None } }
        ensures same { self.new ≡ self.old }
        ensures seen { seat.new ≡ record seat.old { list = self.old.history } }
        ensures only { Only (λ _. ⊥) seat.old seat.new }
    {
        self.show(seat);
        without_slip(Refusal::TrailFull)
    }

    /// The history of the cache of this name, without entries, over the table that `opened` gave. It takes no memory: the trail is begun
    /// once nothing can be refused any more.
    pub(crate) fn of(
        name: u64,
        count: Arc<Owned, Global>,
        keeper: Stand,
        seats: u64,
        mut trail: T,
    ) -> Log<T>
        requires few { seats ≤ 64 }
        requires table { ((arc_value count).shared.table_id ≡ keeper.table_id) × (keeper.table_id.words ≡ 1) }
        requires keeper { keeper.me ≡ (Keeper [] (seats + 1), []) }
        ensures log { (result.name ≡ name) × (result.history ≡ []) × (result.room ≡ T.whole trail) × (result.made ≡ seats + 1) }
        ensures table { result.table ≡ keeper.table_id }
    {
        trail.begin(name);
        Log {
            name,
            count,
            keeper,
            made: seats + 1,
            trail,
        }
    }

    /// Lets a seat see the history as it is.
    #[tactic(auto, using(crate::proofs::Seats::only_shown))]
    pub(crate) fn show(&mut self, seat: &mut Seat)
        requires { seat.old.table ≡ self.old.table }
        ensures same { self.new ≡ self.old }
        ensures seen { seat.new ≡ record seat.old { list = self.old.history } }
        ensures only { Only (λ _. ⊥) seat.old seat.new }
    {
        let Log { count, keeper, .. } = self;
        show(&count.shared, keeper, &mut seat.stand);
    }

    pub(crate) fn name(&self) -> u64
        ensures { result ≡ self.now.name }
    {
        self.name
    }

    /// How many seats it has.
    pub(crate) fn made(&self) -> u64
        ensures { result ≡ self.now.made }
    {
        self.made
    }

    /// The trail, once all seats have come back.
    pub(crate) fn close(self, seats: Vec<Seat>, own: Seat) -> T
        requires came { All (λ s. s.table ≡ self.table) seats.items }
        requires own { own.table ≡ self.table }
        ensures trail { T.records result self.history }
        ensures cache { T.cache result ≡ Some self.name }
        ensures own { IsPrefix own.list self.history × (own.count ≡ count_of own.number self.history) }
        ensures seats { All (λ s. IsPrefix s.list self.history × (s.count ≡ count_of s.number self.history)) seats.items }
        ensures others { AreOfSeats self.made self.history }
    {
        let Log {
            count,
            mut keeper,
            trail,
            ..
        } = self;
        settle_one(&count.shared, &mut keeper, own);
        settle_all(&count.shared, &mut keeper, seats);
        trail
    }
}

impl Seat {
    /// The name of its cache.
    pub fn name(&self) -> u64
        ensures { result ≡ self.now.name }
    {
        self.name
    }

    /// Its number. The cache's own seat has the last one.
    pub fn number(&self) -> u64
        ensures value { result ≡ self.now.number }
        ensures counted { self.now.count ≡ count_of self.now.number self.now.list }
    {
        self.number
    }

    /// Sees the history as it is. It has the slip's entry, where the slip is of the same cache.
    pub fn see(&mut self, slip: &Slip) -> Result<(), Refusal>
        ensures same { (self.new.table ≡ self.old.table) × (self.new.name ≡ self.old.name) × (self.new.number ≡ self.old.number) × (self.new.count ≡ self.old.count) }
        ensures grows { IsPrefix self.old.list self.new.list }
        ensures ok { OnOk result ((slip.now.name ≡ self.old.name) × (slip.now.place < length self.new.list)) }
        ensures err { IfErr result (λ e. (e ≡ Stranger) × ((slip.now.name ≢ self.old.name) ⊎ (length self.new.list ≤ slip.now.place))) }
        ensures foreign { slip.now.name ≢ self.old.name → self.new ≡ self.old }
    {
        if slip.name != self.name {
            return Err(Refusal::Stranger);
        }
        let Seat { count, stand, .. } = self;
        let found = look(&count.shared, stand);
        if slip.place < found {
            Ok(())
        } else {
            Err(Refusal::Stranger)
        }
    }
}

/// The table of an empty history: its side of the trail, its seats, numbered from 0, and one more.
pub(crate) fn opened(
    alloc: Global,
    name: u64,
    seats: u64,
) -> Result<(Arc<Owned, Global>, Stand, Vec<Seat>, Seat), AllocError>
    requires { seats ≤ 64 }
    ensures table { IfOk result (λ r. ((arc_value r.0).shared.table_id ≡ r.1.table_id) × (r.1.table_id.words ≡ 1)) }
    ensures keeper { IfOk result (λ r. r.1.me ≡ (Keeper [] (seats + 1), [])) }
    ensures seats { IfOk result (λ r. (vec_len r.2 ≡ seats) × AreFresh r.1.table_id name r.2.items) }
    ensures own { IfOk result (λ r. IsFresh r.1.table_id name r.3 seats) }
{
    let (table, mut keeper) = Table::<u8, View, (), InOneOrder, Global>::of_words(
        alloc,
        &[0],
        &(),
    )?;
    let Ok(count) = Arc::new(alloc, table) else {
        return Err(AllocError);
    };
    let mut all = Vec::new(alloc);
    for number in 0..seats {
        let seat = new_seat(&count, &mut keeper, name, number)?;
        all.push(seat)?;
    }
    let own = new_seat(&count, &mut keeper, name, seats)?;
    Ok((count, keeper, all, own))
}

// A seat of the next number.
fn new_seat(
    count: &Arc<Owned, Global>,
    keeper: &mut Stand,
    name: u64,
    number: u64,
) -> Result<Seat, AllocError>
    requires at { IsAt (arc_value count.now).shared.table_id keeper.old }
    requires next { keeper.old.me ≡ (Keeper [] number, []) }
    ensures same { OnOk result (Stays keeper.old keeper.new) }
    ensures made { OnOk result (keeper.new.me ≡ (Keeper [] (number + 1), [])) }
    ensures seat { IfOk result (λ s. IsFresh keeper.old.table_id name s number) }
{
    let again = Arc::try_clone(count)?;
    let stand = give_seat(&count.shared, keeper);
    Ok(Seat {
        name,
        number,
        count: again,
        stand,
    })
}

pub(crate) fn are_named(seats: &Vec<Seat>, name: u64) -> bool
    ensures yes { OnTrue result (All (λ s. s.name ≡ name) seats.now.items) }
    ensures no { OnFalse result (Any (λ s. s.name ≢ name) seats.now.items) }
{
    seats.iter().all(|seat| seat.name == name)
}

/// Whether these are all the seats that were made, with one more beside them.
pub(crate) fn are_all(seats: u64, made: u64) -> bool
    ensures yes { OnTrue result (seats + 1 ≡ made) }
    ensures no { OnFalse result (seats + 1 ≢ made) }
{
    seats < made && seats == made - 1
}

// The trail's side takes a seat in, and compares it with the history.
fn settle_one(table: &Count, keeper: &mut Stand, seat: Seat)
    requires at { IsAt table.now.table_id keeper.old × IsKeeper keeper.old.me }
    requires seat { seat.table ≡ table.now.table_id }
    ensures keeper { Stays keeper.old keeper.new × (keeper.new.me ≡ keeper.old.me) }
    ensures settled { IsPrefix seat.list (all_of keeper.old.me.0) × (seat.count ≡ count_of seat.number (all_of keeper.old.me.0)) }
    ensures seats { AreOfSeats (made_of keeper.old.me.0) (all_of keeper.old.me.0) }
{
    let Seat { stand, .. } = seat;
    settle(table, keeper, stand);
}

// The trail's side takes all seats in, and compares each with the history.
fn settle_all(table: &Count, keeper: &mut Stand, mut seats: Vec<Seat>)
    requires at { IsAt table.now.table_id keeper.old × IsKeeper keeper.old.me }
    requires seats { All (λ s. s.table ≡ table.now.table_id) seats.items }
    ensures { All (λ s. IsPrefix s.list (all_of keeper.old.me.0) × (s.count ≡ count_of s.number (all_of keeper.old.me.0))) seats.items }
{
    while let Some(seat) = seats.pop() {
        let Seat { stand, .. } = seat;
        settle(table, keeper, stand);
    }
}

/// The place of the slip's entry in the trail that its cache gave back.
pub fn confirm(trail: &FullTrail, slip: Slip) -> Result<u64, Refusal>
    ensures ok { IfOk result (λ place. (place ≡ slip.place) × (trail.now.cache ≡ Some slip.name) × (place < length trail.now.entries)) }
    ensures err { IfErr result (λ e. (e ≡ Stranger) × ((trail.now.cache ≢ Some slip.name) ⊎ (length trail.now.entries ≤ slip.place))) }
{
    let Some(name) = trail.cache() else {
        return Err(Refusal::Stranger);
    };
    if name == slip.name && slip.place < trail.len() {
        Ok(slip.place)
    } else {
        Err(Refusal::Stranger)
    }
}
