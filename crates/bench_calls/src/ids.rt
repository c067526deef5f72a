//! The rows of the identifiers: the calls, over the identifiers below `ENTRIES`.

use crate::form::{Call, Form, Inlined, Timed};
use crate::loops::{SPARSE, each, each_of};
use crate::order::ENTRIES;
use idalloc::IdAlloc;
use std::alloc::Global;

/// The greatest identifier.
const LAST: u64 = ENTRIES - 1;

/// How many identifiers are free, where a row asks for 1% holes.
pub const HOLES: u64 = ENTRIES / SPARSE;

pub struct Alloc;

impl Call for Alloc {
    type On = IdAlloc;

    #[inline(always)]
    fn make(ids: &mut IdAlloc, _index: u64) -> Option<u64> {
        ids.alloc(0, LAST).ok()
    }
}

pub struct AllocCyclic;

impl Call for AllocCyclic {
    type On = IdAlloc;

    #[inline(always)]
    fn make(ids: &mut IdAlloc, _index: u64) -> Option<u64> {
        Some(ids.alloc_cyclic(0, LAST).ok()?.0)
    }
}

pub struct Free;

impl Call for Free {
    type On = IdAlloc;

    #[inline(always)]
    fn make(ids: &mut IdAlloc, id: u64) -> Option<u64> {
        Some(u64::from(ids.free(id).is_ok()))
    }
}

#[derive(Clone, Copy)]
pub enum IdRow {
    Alloc,
    Free,
    AllocHoles,
    AllocCyclic,
}

impl IdRow {
    pub const ALL: [IdRow; 4] = [
        IdRow::Alloc,
        IdRow::Free,
        IdRow::AllocHoles,
        IdRow::AllocCyclic,
    ];

    /// Gives the identifiers that are not free as the clock starts, where there is memory for them.
    fn give(self, ids: &mut IdAlloc, order: &[u64]) -> Option<()> {
        if let IdRow::Free | IdRow::AllocHoles = self {
            each::<Inlined, Alloc>(ids, ENTRIES)?;
        }
        if let IdRow::AllocHoles = self {
            each_of::<Inlined, Free>(ids, order.get(..HOLES as usize)?)?;
        }
        Some(())
    }
}

impl Timed for IdRow {
    type On = IdAlloc;

    fn label(self) -> &'static str {
        match self {
            IdRow::Alloc => "alloc, lowest free, empty to full",
            IdRow::Free => "free of an id, random",
            IdRow::AllocHoles => "alloc, lowest free, 1% holes at random",
            IdRow::AllocCyclic => "alloc_cyclic, empty to full",
        }
    }

    fn count(self) -> u64 {
        match self {
            IdRow::AllocHoles => HOLES,
            _ => ENTRIES,
        }
    }

    fn start(self, alloc: Global, order: &[u64]) -> Option<IdAlloc> {
        let mut ids = IdAlloc::new(alloc);
        if self.give(&mut ids, order).is_some() {
            return Some(ids);
        }
        // by a call, since the check is slow where the identifiers go out of scope
        drop(ids);
        None
    }

    fn run<F: Form>(self, ids: &mut IdAlloc, order: &[u64]) -> Option<u64> {
        match self {
            IdRow::Alloc => each::<F, Alloc>(ids, ENTRIES),
            IdRow::Free => each_of::<F, Free>(ids, order),
            IdRow::AllocHoles => each::<F, Alloc>(ids, HOLES),
            IdRow::AllocCyclic => each::<F, AllocCyclic>(ids, ENTRIES),
        }
    }
}
