//! Look-ups in the table of held blocks.
ghost use Rattle.std.specs.Prelude.{◌≡◌};
ghost use Rattle.std.specs.FinMap as map;
ghost use Rattle.blockmap.specs.Table.{held_of};

use crate::held::Held;

/// Whether a held block was cut; nothing where it isn't held.
pub(crate) fn cut_of(table: &[Held], block: u32) -> Option<bool>
    ensures { result ≡ map.get (held_of table.now) block }
{
    for held in table {
        if held.block == block {
            return Some(held.is_cut);
        }
    }
    None
}
