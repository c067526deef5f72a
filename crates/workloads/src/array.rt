//! The array alone: entries at dense, sparse and random indexes are stored, loaded, found, found by mark, walked, retagged and erased,
//! and identifiers are given out and given back.

ghost use Rattle.std.specs.Prelude.{◌<◌};

use crate::digest::Digest;
use crate::numbers::Numbers;
use crate::places::Places;
use bench_timing::Fault;
use idalloc::IdAlloc;
use std::alloc::Global;
use xarray::{Mark, XArray};

/// How many entries an array gets.
const ENTRIES: u64 = 1_000_000;

/// Where entries stand.
#[derive(Clone, Copy)]
enum Spread {
    /// Side by side.
    Dense,
    /// Each 100th index.
    Sparse,
    /// Anywhere below 2^40, by number.
    Random,
}

impl Spread {
    const ALL: [Spread; 3] = [Spread::Dense, Spread::Sparse, Spread::Random];

    /// The index of the entry with a number.
    #[inline(always)]
    fn index(self, number: u64, salt: u64) -> u64 {
        match self {
            Spread::Dense => number,
            Spread::Sparse => number.wrapping_mul(100),
            Spread::Random => Numbers::new(number ^ salt).draw() >> 24,
        }
    }
}

pub fn run(alloc: Global, numbers: &mut Numbers, share: u64) -> Result<Digest, Fault>
    requires { 0 < share }
{
    let mut digest = Digest::new();
    let entries = ENTRIES / share;
    for spread in Spread::ALL {
        run_spread(alloc, numbers, &mut digest, spread, entries)?;
    }
    identify(alloc, numbers, &mut digest, entries)?;
    Ok(digest)
}

fn run_spread(
    alloc: Global,
    numbers: &mut Numbers,
    digest: &mut Digest,
    spread: Spread,
    entries: u64,
) -> Result<(), Fault> {
    let salt = numbers.draw() << 20;
    let few = match spread {
        Spread::Random => entries / 4,
        _ => entries,
    };
    let mut array = XArray::new(alloc);
    let done = fill(&mut array, digest, spread, salt, few);
    look(&array, numbers, digest, spread, salt, few);
    mark(&mut array, digest, spread, salt, few);
    walk(&array, digest);
    erase(&mut array, numbers, digest, spread, salt, few);
    // by a call, since the check is slow where an array goes out of scope
    drop(array);
    done
}

fn fill(
    array: &mut XArray,
    digest: &mut Digest,
    spread: Spread,
    salt: u64,
    entries: u64,
) -> Result<(), Fault> {
    for number in 0..entries {
        let before = array.store(spread.index(number, salt), number)?;
        digest.add_value(before);
    }
    Ok(())
}

/// Loads each entry, in no order, and finds the next one behind it.
fn look(
    array: &XArray,
    numbers: &mut Numbers,
    digest: &mut Digest,
    spread: Spread,
    salt: u64,
    entries: u64,
) {
    let mut places = Places::below(entries, numbers);
    for _ in 0..entries {
        let index = spread.index(places.draw(), salt);
        digest.add_value(array.load(index));
        digest.add_found(array.find(index.saturating_add(1), u64::MAX));
    }
}

/// Marks each eighth entry, finds these, and gives them another mark.
fn mark(array: &mut XArray, digest: &mut Digest, spread: Spread, salt: u64, entries: u64) {
    for part in 0..entries / 8 {
        let marked = array.set_mark(spread.index(part.wrapping_mul(8), salt), Mark::M0);
        digest.add_done(marked);
    }
    let mut from = 0;
    for _ in 0..=entries / 8 {
        let found = array.find_marked(from, u64::MAX, Mark::M0);
        digest.add_found(found);
        let Some(found) = found else {
            break;
        };
        from = found.first.saturating_add(1);
    }
    digest.add(array.retag(0, u64::MAX, Mark::M0, Mark::M1));
}

/// Walks over all entries, and over those that have the other mark.
fn walk(array: &XArray, digest: &mut Digest) {
    for found in array.entries(0, u64::MAX) {
        digest.add_found(Some(found));
    }
    for found in array.entries_marked(0, u64::MAX, Mark::M1) {
        digest.add_found(Some(found));
    }
}

/// Takes entries away: half as many as there are, in no order, of which one in five is none, and then all by their numbers.
fn erase(
    array: &mut XArray,
    numbers: &mut Numbers,
    digest: &mut Digest,
    spread: Spread,
    salt: u64,
    entries: u64,
) {
    let mut places = Places::below(widened(entries), numbers);
    for _ in 0..entries / 2 {
        let index = spread.index(places.draw(), salt);
        digest.add_value(array.erase(index));
    }
    for number in 0..entries {
        digest.add_value(array.erase(spread.index(number, salt)));
    }
}

/// A fourth more than so many: of the numbers below it one in five is none of theirs.
fn widened(entries: u64) -> u64 {
    entries.saturating_add(entries / 4)
}

/// Gives out identifiers, gives half as many back, in no order, of which one in five is not used, and gives out some again.
fn identify(
    alloc: Global,
    numbers: &mut Numbers,
    digest: &mut Digest,
    entries: u64,
) -> Result<(), Fault> {
    let mut ids = IdAlloc::new(alloc);
    let done = use_ids(&mut ids, numbers, digest, entries);
    drop(ids);
    done
}

fn use_ids(
    ids: &mut IdAlloc,
    numbers: &mut Numbers,
    digest: &mut Digest,
    entries: u64,
) -> Result<(), Fault> {
    for _ in 0..entries {
        digest.add(ids.alloc(0, u64::MAX)?);
    }
    let mut places = Places::below(widened(entries), numbers);
    for _ in 0..entries / 2 {
        digest.add_done(ids.free(places.draw()));
    }
    for _ in 0..entries / 4 {
        digest.add(ids.alloc(0, u64::MAX)?);
    }
    Ok(())
}
