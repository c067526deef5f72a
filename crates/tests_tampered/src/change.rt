//! One change of a history.

use crate::rows::{Rows, What};
use rand_core::{Rng, SeedableRng};
use rand_xoshiro::SplitMix64;
use std::alloc::AllocError;

/// Changes that follow from a seed.
#[derive(Drop)]
pub struct Changes {
    source: SplitMix64,
}

impl Changes {
    pub fn new(seed: u64) -> Changes {
        Changes {
            source: SplitMix64::seed_from_u64(seed),
        }
    }

    /// Makes one change: of a byte, a count, an end, two entries swapped, one left out, or one doubled.
    pub fn change(&mut self, rows: &mut Rows) -> Result<(), AllocError> {
        let kind = self.source.next_u64() % 6;
        let lot = self.source.next_u64() as usize;
        let place = lot % rows.rows.len().max(1);
        let other = self.source.next_u64() as usize % rows.rows.len().max(1);
        match kind {
            0 => change_byte(rows, lot),
            1 => change_count(rows, place),
            2 => change_end(rows, place),
            3 => swap(rows, place, other),
            4 => leave_out(rows, place),
            _ => return double(rows, place),
        }
        Ok(())
    }
}

fn change_byte(rows: &mut Rows, lot: usize) {
    let at = lot % rows.bytes.len().max(1);
    if let Some(byte) = rows.bytes.get_mut(at) {
        *byte = byte.wrapping_add(1);
    }
}

/// The row with another count, or another number where it has none.
fn with_count(what: What) -> What {
    match what {
        What::Create(file) => What::Create(file.wrapping_add(1)),
        What::Open(file, handle) => What::Open(file.wrapping_add(1), handle),
        What::Close(handle) => What::Close(handle.wrapping_add(1)),
        What::Size(handle, size) => What::Size(handle, size.wrapping_add(1)),
        What::Read(handle, offset, count) => What::Read(handle, offset, count.wrapping_add(1)),
        What::Write(handle, offset, count, end) => {
            What::Write(handle, offset, count.wrapping_add(1), end)
        }
        What::Append(handle, count, end) => What::Append(handle, count.wrapping_add(1), end),
        What::Truncate(handle, size) => What::Truncate(handle, size.wrapping_add(1)),
        What::Missed(handle, offset) => What::Missed(handle, offset.wrapping_add(1)),
        What::Aged(count) => What::Aged(count.wrapping_add(1)),
    }
}

/// The row with another end, or another place where it has none.
fn with_end(what: What) -> What {
    match what {
        What::Open(file, handle) => What::Open(file, handle.wrapping_add(1)),
        What::Read(handle, offset, count) => What::Read(handle, offset.wrapping_add(1), count),
        What::Write(handle, offset, count, end) => {
            What::Write(handle, offset, count, end.wrapping_add(1))
        }
        What::Append(handle, count, end) => What::Append(handle, count, end.wrapping_add(1)),
        What::Truncate(handle, size) => What::Truncate(handle.wrapping_add(1), size),
        other => with_count(other),
    }
}

fn change_count(rows: &mut Rows, place: usize) {
    if let Some(row) = rows.rows.get_mut(place) {
        row.what = with_count(row.what);
    }
}

fn change_end(rows: &mut Rows, place: usize) {
    if let Some(row) = rows.rows.get_mut(place) {
        row.what = with_end(row.what);
    }
}

fn swap(rows: &mut Rows, one: usize, other: usize) {
    if one < rows.rows.len() && other < rows.rows.len() {
        rows.rows.swap(one, other);
    }
}

fn leave_out(rows: &mut Rows, place: usize) {
    if place < rows.rows.len() {
        rows.rows.remove(place);
    }
}

fn double(rows: &mut Rows, place: usize) -> Result<(), AllocError> {
    let Some(row) = rows.rows.get(place).copied() else {
        return Ok(());
    };
    match rows.rows.insert(place, row) {
        Ok(()) => Ok(()),
        Err(_) => Err(AllocError),
    }
}
