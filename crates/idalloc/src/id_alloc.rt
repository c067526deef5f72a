//! The allocator as its caller sees it.
ghost use Rattle.std.specs.Prelude.{◌≡◌, ◌+◌, ◌%◌, ◌^◌, ◌↔◌, Err, false, IfOk, IfErr, OnOk, OnErr, IsOkUnless};
ghost use Rattle.std.specs.FinSet as set;
ghost use Rattle.pc_types.specs.declared.refusal.Refusal.{Refusal};
ghost use Rattle.idalloc.specs.Ids.{AllUsed, IsCyclic, IsLowestUnused, IsNoIdOrMemory};

use crate::bitmaps::Bitmaps;
use crate::changes::{give_back, take};
use crate::floor::{lowered, lowest_above, raised};
use crate::search::{is_set, next_unused};
use pc_types::Refusal;
use std::alloc::Global;
use std::marker::Model;

/// The numbers in use, and where the next cyclic search begins.
#[derive(Drop)]
pub struct IdAlloc {
    bitmaps: Bitmaps,
    next: u64,
    // Every number below it is used (decision 36).
    floor: u64,
}

impl Model for IdAlloc {
    ghost use Rattle.std.specs.Prelude.{None};
    ghost use Rattle.idalloc.specs.Bitmaps.{IsTidy, numbers};
    ghost use Rattle.idalloc.specs.Floor.{IsFloor};
    ghost use Rattle.idalloc.specs.Ids.{Ids, ids_code};

    ghost Value = { Ids };

    ghost coded = { ids_code };

    ghost view = { λ a. record { used = numbers a.bitmaps; next = a.next } };

    ghost invariant = { λ a. IsTidy a.bitmaps None × IsFloor (numbers a.bitmaps) a.floor };
}

impl IdAlloc {
    /// No number is used. It takes no memory yet.
    pub fn new(alloc: Global) -> IdAlloc
        ensures used { result.used ≡ set.empty }
        ensures next { result.next ≡ 0 }
    {
        IdAlloc {
            bitmaps: Bitmaps::new(alloc),
            next: 0,
            floor: 0,
        }
    }

    /// Uses the lowest unused number from `min` to `max`. `NoId`: there is none, as also where `min` is above `max`.
    pub fn alloc(&mut self, min: u64, max: u64) -> Result<u64, Refusal>
        ensures lowest { IfOk result (λ n. IsLowestUnused self.old.used min max n) }
        ensures used { IfOk result (λ n. self.new ≡ record self.old { used = set.insert self.old.used n }) }
        ensures none { result ≡ Err Refusal.NoId ↔ AllUsed self.old.used min max }
        ensures refused { OnErr result (self.new ≡ self.old) }
        ensures only { IfErr result IsNoIdOrMemory }
    {
        let Some(unused) = lowest_above(&self.bitmaps, self.floor, min, max) else {
            return Err(Refusal::NoId);
        };
        take(&mut self.bitmaps, unused)?;
        self.floor = raised(self.floor, min, unused.number);
        Ok(unused.number)
    }

    /// Uses the lowest unused number from the one after the last that a call of this kind gave, or from `min` where that
    /// is greater, up to `max`; where there is none, from `min` on. It answers the number and whether it began again.
    pub fn alloc_cyclic(&mut self, min: u64, max: u64) -> Result<(u64, bool), Refusal>
        ensures lowest { IfOk result (λ r. IsCyclic self.old.used self.old.next min max r) }
        ensures used { IfOk result (λ r. self.new ≡ record { used = set.insert self.old.used r.0; next = (r.0 + 1) % 2 ^ 64 }) }
        ensures none { result ≡ Err Refusal.NoId ↔ AllUsed self.old.used min max }
        ensures refused { OnErr result (self.new ≡ self.old) }
        ensures only { IfErr result IsNoIdOrMemory }
    {
        let Some((unused, wrapped)) = next_unused(&self.bitmaps, self.next, min, max) else {
            return Err(Refusal::NoId);
        };
        take(&mut self.bitmaps, unused)?;
        self.next = unused.number.wrapping_add(1);
        Ok((unused.number, wrapped))
    }

    /// Gives a number back. `NoEntry`: it isn't used. It takes no memory.
    pub fn free(&mut self, number: u64) -> Result<(), Refusal>
        ensures freed { OnOk result (self.new ≡ record self.old { used = set.remove self.old.used number }) }
        ensures unused { result ≡ Err Refusal.NoEntry ↔ set.contains self.old.used number ≡ false }
        ensures refused { OnErr result (self.new ≡ self.old) }
        ensures only { IsOkUnless result Refusal.NoEntry }
    {
        give_back(&mut self.bitmaps, number)?;
        self.floor = lowered(self.floor, number);
        Ok(())
    }

    /// Whether a number is used.
    pub fn is_used(&self, number: u64) -> bool
        ensures { result ≡ set.contains self.now.used number }
    {
        is_set(&self.bitmaps, number)
    }

    /// How many nodes keep the numbers: none exactly where no number is used.
    pub fn nodes(&self) -> usize
        ensures { self.now.used ≡ set.empty ↔ result ≡ 0 }
    {
        self.bitmaps.nodes()
    }
}
