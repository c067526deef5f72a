//! Which cache it is.

use deeds::naming::NamesDeeds;
use std::marker::Brand;

/// Names a cache: its name, the tables behind its seats and its error board, its sizes, how many seats it has, how much room its trail
/// has at first, and what its device has then: the files that stand on it, the blocks, where the device tells them, and how many reads and
/// writes were made. Its deeds are named too. A program picks it once.
pub trait Naming: NamesDeeds {
    ghost use Rattle.std.specs.Prelude.{ℕ, List};
    ghost use Rattle.atomic_table.specs.Seated.{TableId};
    ghost use Rattle.machine.specs.Catalogs.{Catalog};
    ghost use Rattle.pc_types.specs.Limits.{Sizes};
    ghost use Rattle.trail.specs.Room.{Room};

    ghost name: { ℕ };

    ghost table: { TableId };

    ghost board: { TableId };

    ghost sizes: { Sizes };

    ghost files: { Catalog };

    ghost seats: { ℕ };

    ghost whole: { Room };

    ghost blocks: { List (List ℕ) };

    ghost calls: { ℕ };
}

impl Naming for Brand {
    ghost use Rattle.std.specs.Prelude.{[]};
    ghost use Rattle.held.specs.Names.{no_room, no_table, no_sizes};
    ghost use Rattle.machine.specs.Catalogs.{no_catalog};

    ghost name = { 0 };

    ghost table = { no_table };

    ghost board = { no_table };

    ghost sizes = { no_sizes };

    ghost files = { no_catalog };

    ghost seats = { 0 };

    ghost whole = { no_room };

    ghost blocks = { [] };

    ghost calls = { 0 };
}
