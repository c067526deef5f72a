//! What a pass knows, the rule over all of them, and what each step tells. No value of these types is made.

use atomic_table::Seat;
use crossbeam_queue::protocol::{Lesson, Outcome, Protocol, Split};
use deeds::sides::Parcel;
use std::collections::LinkedList;
use std::marker::Model;

/// Stands for the table behind deeds.
pub struct DeedTable {
    seat: Seat<u8, ()>,
}

impl Model for DeedTable {
    ghost use Rattle.atomic_table.specs.Seated.{TableId, table_id_coded};

    ghost Value = { TableId };

    ghost coded = { table_id_coded };

    ghost view = { λ d. d.seat.table_id };
}

/// What a pass knows.
pub struct Log {
    /// How far the ring is: 0 where it is new, 1 where a sample of its parcels lies in it, 2 where it is open.
    pub stage: u8,
    /// No other pass was made of it: it pushed and popped all that ever was.
    pub alone: bool,
    /// How many passes were made of it.
    pub made: u64,
    /// How many passes it comes of, each made of the one before.
    pub depth: u64,
    /// The name of the cache whose jobs are in the parcels.
    pub cache: u64,
    /// Blocks of its device.
    pub blocks: u64,
    /// Bytes of a page.
    pub page: u64,
    /// The table behind the deeds of the parcels.
    pub table: DeedTable,
    /// What the pass pushed, in order.
    pub pushed: LinkedList<Parcel>,
    /// What the pass popped, in order.
    pub popped: LinkedList<Parcel>,
}

/// First in, first out.
pub struct InOrder;

impl Protocol<Parcel, Log> for InOrder {
    ghost use Rattle.ring.specs.Order.{Ruled, start};

    ghost holds = { Ruled };

    ghost first = { start };
}

/// A sample of the parcels goes in. By it the rule learns the numbers and the table, which are known only as the program runs.
pub struct Shown;

impl Outcome<Parcel, Log> for Shown {
    ghost use Rattle.std.specs.Prelude.{◌≡◌};
    ghost use Rattle.ring.specs.Order.{seeded};

    ghost then = { λ v x w. w ≡ seeded x };
}

impl Lesson<Parcel, Log> for Shown {
    ghost use Rattle.std.specs.Prelude.{◌≡◌, []};

    ghost fact = { λ v items. items ≡ [] };
}

/// The sample comes out again, and the ring is open.
pub struct Opened;

impl Outcome<Parcel, Log> for Opened {
    ghost use Rattle.std.specs.Prelude.{◌≡◌, true, [], ◌∷◌};
    ghost use Rattle.ring.specs.Order.{opened};

    ghost then = { λ v x w. (w ≡ opened true 0 v) × (v.pushed ≡ x ∷ []) };
}

impl Lesson<Parcel, Log> for Opened {
    ghost use Rattle.std.specs.Prelude.{◌≡◌, length};

    ghost fact = { λ v items. length items ≡ 1 };
}

/// A parcel went in at the back, where there was room.
pub struct Pushed;

impl Outcome<Parcel, Log> for Pushed {
    ghost use Rattle.ring.specs.Order.{Enqueues};

    ghost then = { Enqueues };
}

impl Lesson<Parcel, Log> for Pushed {
    ghost use Rattle.ring.specs.Order.{Stands};

    ghost fact = { Stands };
}

/// The parcel at the front came out.
pub struct Popped;

impl Outcome<Parcel, Log> for Popped {
    ghost use Rattle.ring.specs.Order.{Dequeues};

    ghost then = { Dequeues };
}

impl Lesson<Parcel, Log> for Popped {
    ghost use Rattle.ring.specs.Order.{Stands};

    ghost fact = { Stands };
}

/// A pass beside this one, which has pushed and popped nothing. Neither is alone any more.
pub struct Beside;

impl Split<Log> for Beside {
    ghost use Rattle.std.specs.Prelude.{false, ◌+◌};
    ghost use Rattle.ring.specs.Order.{opened, accompanied};

    ghost left = { accompanied };

    ghost right = { λ v. opened false (v.depth + 1) v };
}
