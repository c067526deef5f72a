//! The calls of an array that are timed. A mark is the first one, and a retag gives the second one to the whole array.
//!
//! A load or an erase of nothing answers 0: where it ended the loop, a random load took 150 ns in place of 57.

use crate::form::Call;
use crate::loops::RANGE_ORDER;
use xarray::{Mark, XArray};

/// Stores the value that follows the index.
pub struct Store;

impl Call for Store {
    type On = XArray;

    #[inline(always)]
    fn make(array: &mut XArray, index: u64) -> Option<u64> {
        let before = array.store(index, index.wrapping_add(1)).ok()?;
        Some(before.unwrap_or(1))
    }
}

/// Stores another value.
pub struct StoreOver;

impl Call for StoreOver {
    type On = XArray;

    #[inline(always)]
    fn make(array: &mut XArray, index: u64) -> Option<u64> {
        let before = array.store(index, 7).ok()?;
        Some(before.unwrap_or(1))
    }
}

pub struct Load;

impl Call for Load {
    type On = XArray;

    #[inline(always)]
    fn make(array: &mut XArray, index: u64) -> Option<u64> {
        Some(array.load(index).unwrap_or(0))
    }
}

/// Finds the next entry from the root.
pub struct Find;

impl Call for Find {
    type On = XArray;

    #[inline(always)]
    fn make(array: &mut XArray, index: u64) -> Option<u64> {
        Some(array.find(index, u64::MAX)?.value)
    }
}

/// Finds the next entry with the mark from the root.
pub struct FindMarked;

impl Call for FindMarked {
    type On = XArray;

    #[inline(always)]
    fn make(array: &mut XArray, index: u64) -> Option<u64> {
        Some(array.find_marked(index, u64::MAX, Mark::M0)?.value)
    }
}

/// Walks over all entries with a cursor, and answers the sum of their values.
pub struct Walk;

impl Call for Walk {
    type On = XArray;

    #[inline(always)]
    fn make(array: &mut XArray, _index: u64) -> Option<u64> {
        let mut sum = 0u64;
        for found in array.entries(0, u64::MAX) {
            sum = sum.wrapping_add(found.value);
        }
        Some(sum)
    }
}

/// Walks over the entries with the mark with a cursor, and answers the sum of their values.
pub struct WalkMarked;

impl Call for WalkMarked {
    type On = XArray;

    #[inline(always)]
    fn make(array: &mut XArray, _index: u64) -> Option<u64> {
        let mut sum = 0u64;
        for found in array.entries_marked(0, u64::MAX, Mark::M0) {
            sum = sum.wrapping_add(found.value);
        }
        Some(sum)
    }
}

pub struct SetMark;

impl Call for SetMark {
    type On = XArray;

    #[inline(always)]
    fn make(array: &mut XArray, index: u64) -> Option<u64> {
        Some(u64::from(array.set_mark(index, Mark::M0).is_ok()))
    }
}

pub struct ClearMark;

impl Call for ClearMark {
    type On = XArray;

    #[inline(always)]
    fn make(array: &mut XArray, index: u64) -> Option<u64> {
        array.clear_mark(index, Mark::M0);
        Some(0)
    }
}

pub struct GetMark;

impl Call for GetMark {
    type On = XArray;

    #[inline(always)]
    fn make(array: &mut XArray, index: u64) -> Option<u64> {
        Some(u64::from(array.get_mark(index, Mark::M0)))
    }
}

pub struct Erase;

impl Call for Erase {
    type On = XArray;

    #[inline(always)]
    fn make(array: &mut XArray, index: u64) -> Option<u64> {
        Some(array.erase(index).unwrap_or(0))
    }
}

/// Inserts the range of this number.
pub struct InsertRange;

impl Call for InsertRange {
    type On = XArray;

    #[inline(always)]
    fn make(array: &mut XArray, range: u64) -> Option<u64> {
        array
            .insert_order(range << RANGE_ORDER, RANGE_ORDER, range)
            .ok()?;
        Some(1)
    }
}

/// Splits the range of this number into entries of one index.
pub struct SplitRange;

impl Call for SplitRange {
    type On = XArray;

    #[inline(always)]
    fn make(array: &mut XArray, range: u64) -> Option<u64> {
        array.split(range << RANGE_ORDER, 0).ok()?;
        Some(1)
    }
}

/// Gives the second mark to each entry that has the first.
pub struct Retag;

impl Call for Retag {
    type On = XArray;

    #[inline(always)]
    fn make(array: &mut XArray, _index: u64) -> Option<u64> {
        Some(array.retag(0, u64::MAX, Mark::M0, Mark::M1))
    }
}
