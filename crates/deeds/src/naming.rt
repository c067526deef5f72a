//! Which deeds they are.

use std::marker::Brand;

/// Names the deeds of a device: the table behind them, and whether the device tells its contents. A program picks it once.
pub trait NamesDeeds {
    ghost use Rattle.std.specs.Prelude.{Bool};
    ghost use Rattle.atomic_table.specs.Seated.{TableId};

    ghost deeds: { TableId };

    ghost told: { Bool };
}

impl NamesDeeds for Brand {
    ghost use Rattle.std.specs.Prelude.{false};
    ghost use Rattle.deeds.specs.Shown.{no_table};

    ghost deeds = { no_table };

    ghost told = { false };
}
