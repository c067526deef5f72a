//! The passes of the open handles.

ghost use Rattle.std.specs.Prelude.{◌≡◌, ◌<◌, ◌==◌, None, IfOk, IfSome, position};
ghost use Rattle.std.specs.FinMap as map;
ghost use Rattle.script.specs.declared.passes.Entry.{Entry};

use errboard::Pass;
use pc_types::HandleId;
use pc_types::limits::MAX_HANDLES;
use std::alloc::{AllocError, Global};
use std::marker::Model;

/// The pass of an open handle.
#[derive(Drop)]
pub struct Entry {
    handle: HandleId,
    pass: Pass,
}

/// The pass of each open handle. Their room is taken when the table is made, so that a file is opened without memory for it.
#[derive(Drop)]
pub struct Passes {
    // each handle once
    entries: Vec<Entry>,
}

impl Model for Passes {
    ghost use Rattle.std.specs.Prelude.{◌≤◌, map as map_list};
    ghost use Rattle.std.specs.Ordering.{nat_cmp};
    ghost use Rattle.std.specs.Coded.{codes, coded_ℕ};
    ghost use Rattle.std.specs.FinMap as map;
    ghost use Rattle.std.specs.Vec.{vec_capacity, vec_len};
    ghost use Rattle.pc_types.specs.declared.limits.TheConstants.{MAX_HANDLES};
    ghost use Rattle.errboard.specs.Shown.{PassSeen};

    ghost Value = { map.FinMap nat_cmp PassSeen };

    ghost coded = { map.code coded_ℕ (Prim.hlevel codes) };

    ghost use Rattle.world.specs.Flights.{EachOnce};
    ghost use Rattle.script.specs.Passes.{entry_of};

    ghost view = { λ a. map.from_entries (map_list entry_of a.entries.items) };

    ghost invariant = { λ a. EachOnce (map_list entry_of a.entries.items) × (vec_len a.entries ≤ MAX_HANDLES) × (MAX_HANDLES ≤ vec_capacity a.entries) };
}

impl Passes {
    /// No handle is open.
    pub fn new(alloc: Global) -> Result<Passes, AllocError>
        ensures { IfOk result (λ passes. passes ≡ map.empty) }
    {
        let entries = Vec::with_capacity(alloc, MAX_HANDLES as usize)?;
        Ok(Passes { entries })
    }

    /// Puts the pass of a handle into the table.
    pub fn put(&mut self, handle: HandleId, pass: Pass)
        requires apart { map.get self.old handle.0 ≡ None }
        requires room { map.len self.old < MAX_HANDLES }
        ensures { self.new ≡ map.insert self.old handle.0 pass }
    {
        self.entries.push_reserved(Entry { handle, pass });
    }

    /// Takes the pass of a handle out of the table.
    pub fn take(&mut self, handle: HandleId) -> Option<Pass>
        ensures pass { result ≡ map.get self.old handle.0 }
        ensures rest { self.new ≡ map.remove self.old handle.0 }
        ensures room { IfSome result (λ _. map.len self.new < MAX_HANDLES) }
    {
        let at = position_of(&self.entries, handle)?;
        let Entry { pass, .. } = self.entries.remove(at);
        Some(pass)
    }
}

fn position_of(entries: &[Entry], handle: HandleId) -> Option<usize>
    ensures { result ≡ position (λ (x : Entry). x.handle.0 == handle.0) entries.now }
{
    entries.iter().position(|entry| entry.handle == handle)
}
