//! What a seat of the table knows, and the rule over the word and all views.
use atomic_table::{Join, Play, Seat as Place, Shared, Split, TableRule};
use std::collections::LinkedList;
use std::marker::{Brand, PhantomData};
use trail::Entry;

/// What a seat knows. No value of it is made.
pub enum View {
    /// It knows nothing: its view was handed on.
    Spent,
    /// The trail's side: all entries, and how many seats were made.
    Keeper(LinkedList<Entry>, u64),
    /// The trail's side, with a seat's number, its list and its count.
    Holds(LinkedList<Entry>, u64, u64, LinkedList<Entry>, u64),
    /// A seat or a note of one: its number, its list and its count.
    Seat(u64, LinkedList<Entry>, u64),
}

pub struct InOneOrder;

impl TableRule<u8, View, ()> for InOneOrder {
    ghost use Rattle.held.specs.Rules.{IsKept};
    ghost use Rattle.held.specs.Views.{opening_view};

    ghost holds = { λ _. IsKept };

    ghost first = { λ _. opening_view };
}

/// Names an entry, which may be one that no value of the program is. Each call that adds one picks it.
pub trait NamesEntry {
    ghost use Rattle.trail.specs.declared.entry.Entry.{Entry};

    ghost entry: { Entry };
}

impl NamesEntry for Brand {
    ghost use Rattle.held.specs.Views.{no_entry};

    ghost entry = { no_entry };
}

/// The trail's side adds the entry, of the seat that it holds.
pub struct Adds<N: NamesEntry> {
    of: PhantomData<N>,
}

impl<N: NamesEntry> Play<u8, View> for Adds<N> {
    ghost use Rattle.held.specs.Rules.{Added};

    ghost then = { λ s before found after. Added N.entry s before found after };
}

/// A seat sees the trail as it is.
pub struct Sees;

impl Play<u8, View> for Sees {
    ghost use Rattle.held.specs.Rules.{Seen};

    ghost then = { Seen };
}

/// The trail's side compares the seat that it holds with its entries.
pub struct Compares;

impl Play<u8, View> for Compares {
    ghost use Rattle.held.specs.Rules.{Compared};

    ghost then = { Compared };
}

/// A new seat.
pub struct GivesSeat;

impl Split<View> for GivesSeat {
    ghost use Rattle.held.specs.Views.{with_seat, new_seat};

    ghost left = { with_seat };

    ghost right = { new_seat };
}

/// A seat's number, list and count go into a note.
pub struct GivesNote;

impl Split<View> for GivesNote {
    ghost use Rattle.held.specs.declared.views.View.TheVariants.{Spent};

    ghost left = { λ v. Spent };

    ghost right = { λ v. v };
}

/// The trail's side takes in a note.
pub struct TakesNote;

impl Join<View> for TakesNote {
    ghost use Rattle.held.specs.Views.{holding};
    ghost use Rattle.held.specs.declared.views.View.TheVariants.{Spent};

    ghost both = { holding };

    ghost spent = { Spent };
}

/// The trail's side gives the seat's number and count back, with all its entries for a list.
pub struct GivesBack;

impl Split<View> for GivesBack {
    ghost use Rattle.held.specs.Views.{without_seat, note_back};

    ghost left = { without_seat };

    ghost right = { note_back };
}

/// A seat takes its note back.
pub struct TakesBack;

impl Join<View> for TakesBack {
    ghost use Rattle.held.specs.declared.views.View.TheVariants.{Spent};

    ghost both = { λ v w. w };

    ghost spent = { Spent };
}

/// The table as threads share it.
pub type Count = Shared<u8, View, (), InOneOrder>;

/// A seat of the table.
pub type Stand = Place<u8, View>;
