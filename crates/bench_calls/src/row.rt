//! The rows of the array: what each is called, what its array holds as the clock starts, and what the clock runs over.

use crate::calls::{
    ClearMark, Erase, Find, FindMarked, GetMark, InsertRange, Load, Retag, SetMark, SplitRange,
    Store, StoreOver, Walk, WalkMarked,
};
use crate::form::{Form, Inlined, Timed};
use crate::loops::{PARTED, RANGES, SPARSE, each, each_from, each_of};
use crate::order::ENTRIES;
use std::alloc::Global;
use xarray::{Mark, XArray};

#[derive(Clone, Copy)]
pub enum Row {
    StoreNew,
    StoreOver,
    LoadSequential,
    LoadRandom,
    FindNext,
    Walk,
    SetMarkFirst,
    SetMarkAgain,
    FindMarked,
    WalkMarked,
    Retag,
    ClearMark,
    GetMark,
    EraseRandom,
    EraseSequential,
    InsertOrder,
    Split,
}

/// What the array of a row holds as the clock starts.
#[derive(Clone, Copy)]
enum Content {
    Nothing,
    /// An entry at each index below `ENTRIES`.
    Dense,
    /// Dense, and each entry marked.
    Marked,
    /// Dense, and one entry of a hundred marked.
    Sparse,
    /// Ranges side by side.
    Ranges,
}

impl Content {
    /// Puts it into an empty array, where there is memory for it.
    fn put(self, array: &mut XArray) -> Option<()> {
        match self {
            Content::Nothing => {}
            Content::Ranges => {
                each::<Inlined, InsertRange>(array, PARTED)?;
            }
            Content::Dense | Content::Marked | Content::Sparse => {
                each::<Inlined, Store>(array, ENTRIES)?;
            }
        }
        match self {
            Content::Marked => {
                each::<Inlined, SetMark>(array, ENTRIES)?;
            }
            Content::Sparse => mark_some(array),
            _ => {}
        }
        Some(())
    }
}

impl Row {
    pub const ALL: [Row; 17] = [
        Row::StoreNew,
        Row::StoreOver,
        Row::LoadSequential,
        Row::LoadRandom,
        Row::FindNext,
        Row::Walk,
        Row::SetMarkFirst,
        Row::SetMarkAgain,
        Row::FindMarked,
        Row::WalkMarked,
        Row::Retag,
        Row::ClearMark,
        Row::GetMark,
        Row::EraseRandom,
        Row::EraseSequential,
        Row::InsertOrder,
        Row::Split,
    ];

    fn content(self) -> Content {
        match self {
            Row::StoreNew | Row::InsertOrder => Content::Nothing,
            Row::SetMarkAgain | Row::ClearMark | Row::GetMark => Content::Marked,
            Row::FindMarked | Row::WalkMarked | Row::Retag => Content::Sparse,
            Row::Split => Content::Ranges,
            _ => Content::Dense,
        }
    }
}

impl Timed for Row {
    type On = XArray;

    fn label(self) -> &'static str {
        match self {
            Row::StoreNew => "store, sequential, new entries",
            Row::StoreOver => "store over an entry, random",
            Row::LoadSequential => "load, sequential",
            Row::LoadRandom => "load, random",
            Row::FindNext => "find next present, each call from the root",
            Row::Walk => "walk of all present with a cursor",
            Row::SetMarkFirst => "set_mark, dense, first time",
            Row::SetMarkAgain => "set_mark, dense, already set",
            Row::FindMarked => "find_marked, 1% marked, each call from the root, per found",
            Row::WalkMarked => "find_marked of 1% with a cursor, per found",
            Row::Retag => "retag of the 1%",
            Row::ClearMark => "clear_mark, dense",
            Row::GetMark => "get_mark, random",
            Row::EraseRandom => "erase, random",
            Row::EraseSequential => "erase, sequential",
            Row::InsertOrder => "insert_order of order 9",
            Row::Split => "split of an order 9 entry to order 0",
        }
    }

    fn count(self) -> u64 {
        match self {
            Row::FindMarked | Row::WalkMarked | Row::Retag => ENTRIES / SPARSE,
            Row::InsertOrder => RANGES,
            Row::Split => PARTED,
            _ => ENTRIES,
        }
    }

    fn start(self, alloc: Global, _order: &[u64]) -> Option<XArray> {
        let mut array = XArray::new(alloc);
        if self.content().put(&mut array).is_some() {
            return Some(array);
        }
        // by a call, since the check is slow where an array goes out of scope
        drop(array);
        None
    }

    fn run<F: Form>(self, array: &mut XArray, order: &[u64]) -> Option<u64> {
        match self {
            Row::StoreNew => each::<F, Store>(array, ENTRIES),
            Row::StoreOver => each_of::<F, StoreOver>(array, order),
            Row::LoadSequential => each::<F, Load>(array, ENTRIES),
            Row::LoadRandom => each_of::<F, Load>(array, order),
            Row::FindNext => each_from::<F, Find>(array),
            Row::Walk => F::call::<Walk>(array, 0),
            Row::SetMarkFirst | Row::SetMarkAgain => each::<F, SetMark>(array, ENTRIES),
            Row::FindMarked => each_from::<F, FindMarked>(array),
            Row::WalkMarked => F::call::<WalkMarked>(array, 0),
            Row::Retag => F::call::<Retag>(array, 0),
            Row::ClearMark => each::<F, ClearMark>(array, ENTRIES),
            Row::GetMark => each_of::<F, GetMark>(array, order),
            Row::EraseRandom => each_of::<F, Erase>(array, order),
            Row::EraseSequential => each::<F, Erase>(array, ENTRIES),
            Row::InsertOrder => each::<F, InsertRange>(array, RANGES),
            Row::Split => each::<F, SplitRange>(array, PARTED),
        }
    }
}

/// Marks one index of `SPARSE`.
fn mark_some(array: &mut XArray) {
    for index in 0..ENTRIES / SPARSE {
        let _ = array.set_mark(index * SPARSE, Mark::M0);
    }
}
