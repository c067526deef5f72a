//! The held blocks: those of requests in flight, 64 at most.
ghost use Rattle.std.specs.Prelude.{◌≡◌, ◌<◌, ◌==◌, None, IsSome, filter, not, true};
ghost use Rattle.std.specs.FinMap as map;

use crate::table::cut_of;
use arrayvec::ArrayVec;
use std::marker::Model;

/// The most held blocks: as many as there may be requests in flight.
pub(crate) const MAX_HELD: usize = 64;

/// A held block, and whether its page was cut off since.
#[derive(Clone, Copy, Default)]
pub(crate) struct Held {
    pub(crate) block: u32,
    pub(crate) is_cut: bool,
}

/// The held blocks, without doubles.
#[derive(Drop)]
pub(crate) struct HeldBlocks {
    table: ArrayVec<Held, MAX_HELD>,
}

impl Model for HeldBlocks {
    ghost use Rattle.std.specs.Prelude.{Bool};
    ghost use Rattle.std.specs.Ordering.{nat_cmp};
    ghost use Rattle.std.specs.FinMap as map;
    ghost use Rattle.std.specs.Coded.{coded_ℕ, coded_bool};
    ghost use Rattle.blockmap.specs.Table.{IsTable, held_of};

    ghost Value = { map.FinMap nat_cmp Bool };

    ghost coded = { map.code coded_ℕ coded_bool };

    ghost view = { λ a. held_of a.table.items };

    ghost invariant = { λ a. IsTable a.table.items };
}

impl HeldBlocks {
    pub(crate) fn new() -> HeldBlocks
        ensures { result ≡ map.empty }
    {
        HeldBlocks {
            table: ArrayVec::new(),
        }
    }

    pub(crate) fn len(&self) -> usize
        ensures { result ≡ map.len self.now }
    {
        self.table.len()
    }

    /// Whether a held block was cut; nothing where it isn't held.
    pub(crate) fn get(&self, block: u32) -> Option<bool>
        ensures { result ≡ map.get self.now block }
    {
        cut_of(&self.table, block)
    }

    /// A block that isn't held is held.
    pub(crate) fn add(&mut self, block: u32, is_cut: bool)
        requires free { map.get self.old block ≡ None }
        requires room { map.len self.old < 64 }
        ensures { self.new ≡ map.insert self.old block is_cut }
    {
        self.table.push(Held { block, is_cut });
    }

    /// A held block is cut.
    pub(crate) fn cut(&mut self, block: u32)
        requires { IsSome (map.get self.old block) }
        ensures { self.new ≡ map.insert self.old block true }
    {
        take_out(&mut self.table, block);
        self.table.push(Held {
            block,
            is_cut: true,
        });
    }

    /// A block is held no longer.
    pub(crate) fn remove(&mut self, block: u32)
        ensures { self.new ≡ map.remove self.old block }
    {
        take_out(&mut self.table, block);
    }
}

fn take_out(table: &mut ArrayVec<Held, MAX_HELD>, block: u32)
    ensures { table.new.items ≡ filter (λ h. not (h.block == block)) table.old.items }
{
    table.retain(|held| held.block != block);
}
