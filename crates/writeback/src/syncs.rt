//! The syncs in progress.

ghost use Rattle.std.specs.Prelude.{◌≡◌, ℕ, ◌==◌, ◌<◌, ◌≤◌, ◌+◌, ◌-◌, ◌^◌, ◌↔◌, true, not, IfOk, IsOk, IsOkUnless, OnErr, Some, None, is_some, if◌then◌else◌, slice_index_or, option_map, position};
ghost use Rattle.std.specs.List.{list_any};
ghost use Rattle.std.specs.FinMap as map;
ghost use Rattle.maps.specs.Maps.{change_at};
ghost use Rattle.machine.specs.State.{Sync};
ghost use Rattle.machine.specs.Step.{IsLowest};
ghost use Rattle.writeback.specs.Slots.{is_of, sync_of};
ghost use Rattle.writeback.specs.declared.syncs.Progress.{Progress};

use mapping::MAX_PAGES;
use pc_types::limits::MAX_SYNCS;
use pc_types::{HandleId, PageIndex, Refusal, Serial, SyncId};
use std::marker::Model;

const PLACES: usize = MAX_SYNCS as usize;

/// How far a sync in progress is.
#[derive(Clone, Copy, PartialEq, Eq, Debug)]
pub struct Progress {
    /// The handle that it was begun on.
    pub handle: HandleId,
    /// The first page of its range, and the last.
    pub first: PageIndex,
    pub last: PageIndex,
    /// The last page that it started. It starts only pages past it, so each page once.
    pub started: Option<PageIndex>,
    /// The failure count of its file as it began.
    pub failures: u64,
    /// Set once it has nothing to start any more: it awaits the flushes of its file and range with a serial below this (decision 53).
    pub bound: Option<Serial>,
}

impl Progress {
    ghost use Rattle.std.specs.Prelude.{◌&&◌, nat_lt, option_map, unwrap_or};
    ghost use Rattle.mapping.specs.declared.mapping.TheConstants.{MAX_PAGES};
    ghost use Rattle.mapping.specs.Pages.{within};
    ghost use Rattle.machine.specs.State.{in_range};
    ghost use Rattle.writeback.specs.Slots.{sync_of};

    /// Whether the page is of its range.
    pub fn has_page(&self, page: PageIndex) -> bool
        ensures { result ≡ in_range (sync_of self.now) page.0 }
    {
        self.first <= page && page <= self.last
    }

    /// The lowest page that it may still start.
    pub fn cursor(&self) -> PageIndex
        ensures { (p : ℕ) → p < MAX_PAGES → within result.0 self.now.last.0 p ≡ (in_range (sync_of self.now) p && unwrap_or (option_map (λ q. nat_lt q p) (sync_of self.now).started) true) }
    {
        match self.started {
            // A number past those of all pages stands for any higher one, so the sum cannot overflow.
            Some(page) => PageIndex((page.0.min(MAX_PAGES) + 1).max(self.first.0)),
            None => self.first,
        }
    }
}

/// The syncs in progress by their numbers.
#[derive(Drop)]
pub struct Syncs {
    slots: [Option<Progress>; PLACES],
    // how many slots have one
    count: u64,
}

impl Model for Syncs {
    ghost use Rattle.std.specs.Prelude.{◌≡◌, length};
    ghost use Rattle.std.specs.Coded.{coded_ℕ};
    ghost use Rattle.std.specs.Ordering.{nat_cmp};
    ghost use Rattle.std.specs.FinMap as map;
    ghost use Rattle.pc_types.specs.declared.limits.TheConstants.{MAX_SYNCS};
    ghost use Rattle.machine.specs.State.{Sync};
    ghost use Rattle.machine.specs.inside.Codes.{sync_code};
    ghost use Rattle.writeback.specs.Slots.{in_progress};

    ghost Value = { map.FinMap nat_cmp Sync };

    ghost coded = { map.code coded_ℕ sync_code };

    ghost view = { λ a. in_progress a.slots };

    ghost invariant = { λ a. (length a.slots ≡ MAX_SYNCS) × (a.count ≡ map.len (in_progress a.slots)) };
}

impl Syncs {
    /// No sync is in progress.
    pub fn new() -> Syncs
        ensures { result ≡ map.empty }
    {
        Syncs {
            slots: [None; PLACES],
            count: 0,
        }
    }

    /// How many syncs are in progress.
    pub fn len(&self) -> u64
        ensures value { result ≡ map.len self.now }
        ensures few { result ≤ MAX_SYNCS }
    {
        self.count
    }

    /// The sync with this number.
    pub fn get(&self, sync: SyncId) -> Option<Progress>
        ensures { option_map sync_of result ≡ map.get self.now sync.0 }
    {
        progress_in(&self.slots, sync)
    }

    /// Whether a sync that was begun on this handle is in progress.
    pub fn uses_handle(&self, handle: HandleId) -> bool
        ensures { result ≡ list_any (λ s. s.handle == handle.0) (map.values self.now) }
    {
        uses_in(&self.slots, handle)
    }

    /// Begins a sync of the pages from `first` to `last`, which takes the lowest free number. `failures` is the failure
    /// count of its file.
    pub fn begin(
        &mut self,
        handle: HandleId,
        first: PageIndex,
        last: PageIndex,
        failures: u64,
    ) -> Result<SyncId, Refusal>
        ensures lowest { IfOk result (λ n. IsLowest (λ k. is_some (map.get self.old k)) n.0) }
        ensures begun { IfOk result (λ n. self.new ≡ map.insert self.old n.0 (record { handle = handle.0; first = first.0; last = last.0; started = None; failures = failures; bound = None })) }
        ensures room { IsOk result ↔ (map.len self.old < MAX_SYNCS) }
        ensures refused { IsOkUnless result Refusal.TooManyInFlight }
        ensures same { OnErr result (self.new ≡ self.old) }
    {
        let at = match free_place(&self.slots) {
            Some(at) => at,
            None => return Err(Refusal::TooManyInFlight),
        };
        let progress = Progress {
            handle,
            first,
            last,
            started: None,
            failures,
            bound: None,
        };
        self.slots[at] = Some(progress);
        self.count += 1;
        Ok(SyncId(at as u64))
    }

    /// Takes a sync that is over or dropped out of the table.
    pub fn remove(&mut self, sync: SyncId) -> Option<Progress>
        ensures progress { option_map sync_of result ≡ map.get self.old sync.0 }
        ensures removed { self.new ≡ map.remove self.old sync.0 }
    {
        let progress = take_in(&mut self.slots, sync)?;
        self.count -= 1;
        Some(progress)
    }

    /// Notes that a sync started `page`.
    pub fn started(&mut self, sync: SyncId, page: PageIndex)
        ensures { self.new ≡ change_at sync.0 (λ y. record y { started = Some page.0 }) self.old }
    {
        start_in(&mut self.slots, sync, page);
    }

    /// Sets the bound of a sync that has nothing to start any more.
    pub fn set_bound(&mut self, sync: SyncId, bound: Serial)
        ensures { self.new ≡ change_at sync.0 (λ y. record y { bound = Some bound.0 }) self.old }
    {
        bound_in(&mut self.slots, sync, bound);
    }
}

fn progress_in(slots: &[Option<Progress>], sync: SyncId) -> Option<Progress>
    ensures { result ≡ slice_index_or slots.now sync.0 None }
{
    let at = sync.0 as usize;
    if at < slots.len() { slots[at] } else { None }
}

fn is_of(slot: Option<Progress>, handle: HandleId) -> bool
    ensures { result ≡ is_of handle.0 slot }
{
    match slot {
        Some(progress) => progress.handle == handle,
        None => false,
    }
}

fn uses_in(slots: &[Option<Progress>], handle: HandleId) -> bool
    ensures { result ≡ list_any (is_of handle.0) slots.now }
{
    slots.iter().any(|slot| is_of(*slot, handle))
}

/// The lowest number of no sync.
fn free_place(slots: &[Option<Progress>]) -> Option<usize>
    ensures { result ≡ position (λ s. not (is_some s)) slots.now }
{
    slots.iter().position(|slot| slot.is_none())
}

fn take_in(slots: &mut [Option<Progress>], sync: SyncId) -> Option<Progress>
    ensures value { result ≡ slice_index_or slots.old sync.0 None }
    ensures taken { (k : ℕ) → slice_index_or slots.new k None ≡ (if k == sync.0 then None else slice_index_or slots.old k None) }
{
    let progress = progress_in(slots, sync);
    if progress.is_some() {
        slots[sync.0 as usize] = None;
    }
    progress
}

fn start_in(slots: &mut [Option<Progress>], sync: SyncId, page: PageIndex)
    ensures { (k : ℕ) → slice_index_or slots.new k None ≡ (if k == sync.0 then option_map {T = Progress} (λ s. record s { started = Some page }) (slice_index_or slots.old k None) else slice_index_or slots.old k None) }
{
    if let Some(progress) = progress_in(slots, sync) {
        slots[sync.0 as usize] = Some(Progress {
            started: Some(page),
            ..progress
        });
    }
}

fn bound_in(slots: &mut [Option<Progress>], sync: SyncId, bound: Serial)
    ensures { (k : ℕ) → slice_index_or slots.new k None ≡ (if k == sync.0 then option_map {T = Progress} (λ s. record s { bound = Some bound }) (slice_index_or slots.old k None) else slice_index_or slots.old k None) }
{
    if let Some(progress) = progress_in(slots, sync) {
        slots[sync.0 as usize] = Some(Progress {
            bound: Some(bound),
            ..progress
        });
    }
}
