//! The rows, by turns, and what is printed of them: a row a line.

ghost use Rattle.std.specs.Prelude.{◌<◌, ◌≤◌};

use crate::one::time_one;
use crate::plain::time_copies;
use crate::round::{Round, Timed};
use crate::rows::{Size, Who};
use crate::shards::time_shards;
use bench_timing::{Fault, hundredths_each};
use std::alloc::{AllocError, Global};
use std::fmt;
use std::io::Write;
use std::sync::Wait;
use std::thread::Threads;
use std::time::Clock;

/// How many rounds a row has, if nothing else is asked for.
pub const ROUNDS: u64 = 15;

/// Pages of all files of a row.
const PAGES: u64 = 16_384;

/// A row, the nanoseconds of its rounds with the fastest first, and the sum of what the last round read.
#[derive(Drop)]
struct Entry {
    who: Who,
    size: Size,
    nanos: Vec<u64>,
    sum: u64,
}

impl Entry {
    /// Runs a round over so many pages.
    fn run<R: Threads + Wait + Clock + Sync>(
        &mut self,
        rt: &R,
        alloc: Global,
        pages: u64,
        numbers: &[u64],
    ) -> Result<(), Fault>
        requires { pages ≤ 16384 }
    {
        let reads = numbers.len().min(self.size.reads() as usize);
        let round = Round {
            alloc,
            who: self.who,
            size: self.size,
            pages,
            numbers: &numbers[..reads],
        };
        let Timed { time, sum } = match self.who {
            Who::OneOfShared | Who::FourOfShared => time_one(rt, round)?,
            Who::OneCopies | Who::FourCopy => time_copies(rt, round)?,
            _ => time_shards(rt, round)?,
        };
        let nanos = u64::try_from(time.as_nanos()).unwrap_or(u64::MAX);
        if self.nanos.push(nanos).is_err() {
            return Err(Fault::Memory);
        }
        self.nanos.sort_unstable();
        self.sum = sum;
        Ok(())
    }

    /// The nanoseconds of the round at this place, and 1 at least.
    fn nanos_at(&self, place: usize) -> u64
        ensures { 0 < result }
    {
        self.nanos.get(place).copied().unwrap_or(1).max(1)
    }

    /// Prints the times of a read, and the rate beside that of one thread.
    fn print(&self, rt: &HostRuntime, alone: &Entry) -> Result<(), Fault> {
        let reads = self.size.reads();
        let fastest = Hundredths(hundredths_each(self.nanos_at(0), reads));
        let middle = Hundredths(hundredths_each(self.nanos_at(self.nanos.len() / 2), reads));
        let of_all = alone.nanos_at(0).saturating_mul(self.who.threads());
        let rate = Hundredths(hundredths_each(of_all, self.nanos_at(0)));
        let (bytes, label) = (self.size.bytes(), self.who.label());
        writeln!(
            rt.stdout(),
            "{fastest} ns, {middle} in the middle round, {rate} times  {bytes} bytes, {label}"
        )?;
        Ok(())
    }
}

/// A number of hundredths.
#[derive(Clone, Copy)]
struct Hundredths(u64);

impl fmt::Display for Hundredths {
    fn fmt<W: fmt::Write>(&self, f: &mut fmt::Formatter<W>) -> fmt::Result {
        let (whole, part) = (self.0 / 100, self.0 % 100);
        write!(f, "{whole}.{part:02}")
    }
}

/// The rows without a round: those of small reads, and those of pages.
fn entries_of(alloc: Global) -> Result<Vec<Entry>, AllocError> {
    let mut entries = Vec::new(alloc);
    add_entries(alloc, &mut entries, Size::Small)?;
    add_entries(alloc, &mut entries, Size::Page)?;
    Ok(entries)
}

fn add_entries(alloc: Global, entries: &mut Vec<Entry>, size: Size) -> Result<(), AllocError> {
    for who in Who::ALL {
        entries.push(Entry {
            who,
            size,
            nanos: Vec::new(alloc),
            sum: 0,
        })?;
    }
    Ok(())
}

/// So many numbers, by Marsaglia's xorshift: the same in each run.
fn numbers_of(alloc: Global, count: u64) -> Result<Vec<u64>, AllocError> {
    let mut next = 88_172_645_463_325_252u64;
    let mut numbers = Vec::new(alloc);
    for _ in 0..count {
        next ^= next << 13;
        next ^= next >> 7;
        next ^= next << 17;
        numbers.push(next)?;
    }
    Ok(numbers)
}

/// Runs a round of each row.
fn run_each<R: Threads + Wait + Clock + Sync>(
    rt: &R,
    alloc: Global,
    entries: &mut [Entry],
    pages: u64,
    numbers: &[u64],
) -> Result<(), Fault>
    requires { pages ≤ 16384 }
{
    for entry in entries.iter_mut() {
        entry.run(rt, alloc, pages, numbers)?;
    }
    Ok(())
}

/// Times all rows by turns, and prints the times. Each round that is done is told.
pub fn print_times<W: Wait + Threads + Clock + Sync>(
    rt: &HostRuntime,
    threads: &W,
    rounds: u64,
) -> Result<(), Fault> {
    let numbers = numbers_of(rt.alloc(), Size::Small.reads())?;
    let mut entries = entries_of(rt.alloc())?;
    for round in 0..rounds {
        run_each(threads, rt.alloc(), &mut entries, PAGES, &numbers)?;
        writeln!(
            rt.stderr(),
            "bench_shards: {} of {rounds} rounds are done",
            round + 1
        )?;
    }
    print_each(rt, &entries)
}

/// Prints the times of each row that has a row of one thread beside it.
fn print_each(rt: &HostRuntime, entries: &[Entry]) -> Result<(), Fault> {
    for entry in entries {
        let alone = entries.iter().find(|other| other.size == entry.size
            && other.who == entry.who.alone());
        if let Some(alone) = alone {
            entry.print(rt, alone)?;
        }
    }
    Ok(())
}

/// Runs a round of each row over a few pages, and prints the sums of what was read.
pub fn print_sums<W: Wait + Threads + Clock + Sync>(
    rt: &HostRuntime,
    threads: &W,
) -> Result<(), Fault> {
    let numbers = numbers_of(rt.alloc(), 1_000)?;
    let mut entries = entries_of(rt.alloc())?;
    run_each(threads, rt.alloc(), &mut entries, 128, &numbers)?;
    for entry in &entries {
        let (sum, bytes, label) = (entry.sum, entry.size.bytes(), entry.who.label());
        writeln!(rt.stdout(), "sum {sum}  {bytes} bytes, {label}")?;
    }
    Ok(())
}
