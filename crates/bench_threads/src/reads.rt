//! The rows of cached reads: by a service for one thread, by a shared cache, and plain copies of the same bytes.

ghost use Rattle.std.specs.FinMap as map;
ghost use Rattle.std.specs.Prelude.{◌≡◌, [], ◌<◌, ◌≤◌, All};
ghost use Rattle.held.specs.Shown.{AreFresh};
ghost use Rattle.held.specs.Keeps.{IsLocked};
ghost use Rattle.machine.specs.Catalogs.{IsCatalog, adopted};
ghost use Rattle.shared.specs.Keeps.{AreBlocksOf, IsDisk};
ghost use Rattle.shared.specs.Workers.{IsWorkerOf};
ghost use Rattle.bench_threads.specs.declared.reads.TheConstants.{READS};

use crate::cached::{Cached, FILE_SIZE, Plain, Reads, Size, geometry};
use crate::numbers::Numbers;
use crate::readers::{Readers, Shared};
use bench_timing::{Best, Fault};
use blockdev::MemDevice;
use held::log::Seat;
use held::naming::Naming;
use pc_types::Refusal;
use shared::cache::{Parts, SharedCache};
use std::alloc::{AllocError, Global};
use std::marker::Brand;
use std::sync::Wait;
use std::thread::Threads;
use std::time::{Clock, Instant};
use trail::NoTrail;

/// How many reads a thread makes in a round of the program.
pub const READS: u64 = 100_000;

/// How many rounds a row has there. They are more than those of other rows, since other programs are felt where several threads run.
pub const ROUNDS: u64 = 20;

/// How many threads read together.
const THREADS: u64 = 4;

/// How many seats there are: one for each of them, and one that makes the file.
const SEATS: u64 = THREADS + 1;

/// The name of the shared cache.
const NAME: u64 = 7;

#[derive(Clone, Copy, PartialEq, Eq, Debug)]
pub enum ReadRow {
    SoloSmall,
    OneSmall,
    FourSmall,
    SoloPage,
    CopyPage,
    OnePage,
    FourPage,
}

impl ReadRow {
    pub const ALL: [ReadRow; 7] = [
        ReadRow::SoloSmall,
        ReadRow::OneSmall,
        ReadRow::FourSmall,
        ReadRow::SoloPage,
        ReadRow::CopyPage,
        ReadRow::OnePage,
        ReadRow::FourPage,
    ];

    pub fn label(self) -> &'static str {
        match self {
            ReadRow::SoloSmall => "pread of 64 bytes, cached, Solo",
            ReadRow::OneSmall => "pread of 64 bytes, cached, SharedCache, one thread",
            ReadRow::FourSmall => {
                "pread of 64 bytes, cached, SharedCache, four threads, all reads together"
            }
            ReadRow::SoloPage => "pread of 4,096 bytes, cached, Solo",
            ReadRow::CopyPage => "copy of 4,096 bytes",
            ReadRow::OnePage => "pread of 4,096 bytes, cached, SharedCache, one thread",
            ReadRow::FourPage => {
                "pread of 4,096 bytes, cached, SharedCache, four threads, all reads together"
            }
        }
    }

    /// By how many the time of a round is divided where a thread makes `READS` reads.
    pub fn count(self) -> u64
        ensures { 0 < result }
    {
        match self {
            ReadRow::FourSmall | ReadRow::FourPage => THREADS * READS,
            _ => READS,
        }
    }

    fn size(self) -> Size {
        match self {
            ReadRow::SoloSmall | ReadRow::OneSmall | ReadRow::FourSmall => Size::Small,
            _ => Size::Page,
        }
    }

    /// Runs what is timed, and gives the sum of its answers.
    fn run<B: Naming + Send + Sync, R: Threads + Wait + Sync>(
        self,
        rt: &R,
        cache: &Shared<B>,
        readers: &mut Readers<B>,
        given: &Given,
        cached: &mut Cached,
    ) -> Result<u64, Fault> {
        let all = given.reads(self.size());
        let own = all.halves().0.halves().0;
        match self {
            ReadRow::SoloSmall | ReadRow::SoloPage => Ok(cached.read_each(own)?),
            ReadRow::CopyPage => Ok(given.plain.copy_each(own)),
            ReadRow::OneSmall | ReadRow::OnePage => readers.read_alone(rt, cache, own),
            ReadRow::FourSmall | ReadRow::FourPage => readers.read_together(rt, cache, all),
        }
    }
}

/// A row, and what came of its rounds.
#[derive(Clone, Copy)]
pub struct TimedRow {
    pub row: ReadRow,
    pub best: Best,
}

/// What all readers are given: the bytes of the file, and where the reads of all threads begin.
#[derive(Drop)]
struct Given {
    plain: Plain,
    small: Vec<u64>,
    pages: Vec<u64>,
}

impl Given {
    /// So many reads of each size for each thread.
    fn new(alloc: Global, reads: u64) -> Result<Given, AllocError>
        requires { reads ≤ READS }
    {
        let mut numbers = Numbers::new();
        let count = THREADS * reads;
        Ok(Given {
            plain: Plain::new(alloc)?,
            small: offsets(alloc, &mut numbers, Size::Small, count)?,
            pages: offsets(alloc, &mut numbers, Size::Page, count)?,
        })
    }

    fn reads(&self, size: Size) -> Reads<'_> {
        let offsets = match size {
            Size::Small => self.small.as_slice(),
            Size::Page => self.pages.as_slice(),
        };
        Reads { size, offsets }
    }
}

/// So many random multiples of the size.
fn offsets(
    alloc: Global,
    numbers: &mut Numbers,
    size: Size,
    count: u64,
) -> Result<Vec<u64>, AllocError> {
    let mut offsets = Vec::new(alloc);
    for _ in 0..count {
        offsets.push(numbers.draw().wrapping_mul(size.bytes() as u64) % FILE_SIZE)?;
    }
    Ok(offsets)
}

/// What a shared cache is compared with, and the times.
#[derive(Drop)]
struct Comparison {
    given: Given,
    cached: Cached,
    rows: Vec<TimedRow>,
}

impl Comparison {
    fn new(alloc: Global, reads: u64) -> Result<Comparison, Refusal>
        requires { reads ≤ READS }
    {
        let given = Given::new(alloc, reads)?;
        let rows = rows_of(alloc)?;
        let cached = Cached::new(alloc, &given.plain)?;
        Ok(Comparison {
            given,
            cached,
            rows,
        })
    }

    /// Whether the readers answer what stands there, the first one alone and all of them together.
    fn is_found<B: Naming + Send + Sync, R: Threads + Wait + Sync>(
        &self,
        rt: &R,
        cache: &Shared<B>,
        readers: &mut Readers<B>,
        size: Size,
    ) -> bool {
        let plain = &self.given.plain;
        let reads = self.given.reads(size);
        let together = readers.read_together(rt, cache, reads);
        readers.finds(rt, cache, plain, reads)
            && matches!(together, Ok(sum) if sum == plain.copy_each(reads))
    }

    /// Times so many rounds, after all readers have found what stands there.
    fn time_readers<B: Naming + Send + Sync, R: Threads + Wait + Clock + Sync>(
        &mut self,
        rt: &R,
        cache: &Shared<B>,
        readers: &mut Readers<B>,
        rounds: u64,
    ) -> Result<(), Fault> {
        readers.write_all(rt, cache, &self.given.plain)?;
        let small = self.is_found(rt, cache, readers, Size::Small);
        let pages = self.is_found(rt, cache, readers, Size::Page);
        if !small || !pages {
            return Err(Fault::Odd);
        }
        for _ in 0..rounds {
            self.time_round(rt, cache, readers)?;
        }
        Ok(())
    }

    /// Times a round of each row.
    fn time_round<B: Naming + Send + Sync, R: Threads + Wait + Clock + Sync>(
        &mut self,
        rt: &R,
        cache: &Shared<B>,
        readers: &mut Readers<B>,
    ) -> Result<(), Fault> {
        for entry in self.rows.iter_mut() {
            let start = Instant::now(rt)?;
            let sum = entry
                .row
                .run(rt, cache, readers, &self.given, &mut self.cached)?;
            entry.best.add(start.elapsed(rt)?, sum);
        }
        Ok(())
    }
}

/// The rows, without a round.
fn rows_of(alloc: Global) -> Result<Vec<TimedRow>, AllocError> {
    let mut rows = Vec::new(alloc);
    for row in ReadRow::ALL {
        rows.push(TimedRow {
            row,
            best: Best::NONE,
        })?;
    }
    Ok(rows)
}

/// Times each row: a thread makes so many reads in each of so many rounds. Before that each read is made once, and has to answer what
/// stands there.
pub fn time_reads<R: Threads + Wait + Clock + Sync>(
    rt: &R,
    alloc: Global,
    reads: u64,
    rounds: u64,
) -> Result<Vec<TimedRow>, Fault>
    requires { reads ≤ READS }
{
    let mut comparison = Comparison::new(alloc, reads)?;
    let done = time_beside(rt, alloc, &mut comparison, rounds);
    let Comparison {
        given,
        cached,
        rows,
    } = comparison;
    // by a call, since the check is slow where a service goes out of scope
    drop(cached);
    drop(given);
    done?;
    Ok(rows)
}

/// Makes a shared cache, and times it beside the others.
fn time_beside<R: Threads + Wait + Clock + Sync>(
    rt: &R,
    alloc: Global,
    comparison: &mut Comparison,
    rounds: u64,
) -> Result<(), Fault> {
    let geometry = geometry()?;
    let device = MemDevice::new(alloc, geometry.page(), geometry.blocks())?;
    match Parts::make(rt, alloc, &geometry, NAME, device, NoTrail::new(), SEATS) {
        Ok((parts, seats)) => time_over::<Brand, R>(rt, alloc, parts, seats, comparison, rounds),
        Err(unmade) => {
            let refusal = unmade.refusal;
            drop(unmade);
            Err(Fault::from(refusal))
        }
    }
}

/// Makes the cache of the parts, and times it beside the others.
#[tactic(auto, using(shared::proofs::Seating::fresh_seated))]
fn time_over<B: Naming + Send + Sync, R: Threads + Wait + Clock + Sync>(
    rt: &R,
    alloc: Global,
    parts: Parts<MemDevice, NoTrail>,
    seats: Vec<Seat>,
    comparison: &mut Comparison,
    rounds: u64,
) -> Result<(), Fault>
    requires named { parts.name ≡ B.name }
    requires sized { parts.geometry ≡ B.sizes }
    requires board { parts.board ≡ B.board }
    requires state { IsLocked B.name B.table B.board B.sizes B.seats B.whole parts.held }
    requires idle { map.len parts.held.core.state.requests ≡ 0 }
    requires fresh { (parts.held.log.history ≡ []) × (parts.held.core.state ≡ adopted B.sizes B.name B.files) }
    requires files { IsCatalog B.sizes B.files }
    requires own { IsWorkerOf parts.ring B.name B.table B.deeds B.sizes parts.own }
    requires device { IsDisk B.sizes parts.device }
    requires deeds { (parts.deeds.table ≡ B.deeds) × (parts.deeds.told ≡ B.told) × (parts.deeds.blocks ≡ B.blocks) }
    requires blocks { AreBlocksOf B.told B.blocks parts.device }
    requires calls { parts.device.calls ≡ B.calls }
    requires seats { AreFresh B.table B.name seats.items }
{
    let (cache, own) = SharedCache::<B, MemDevice, NoTrail>::of(alloc, parts);
    let done = time_rounds(rt, &cache, seats, comparison, rounds);
    drop(cache);
    drop(own);
    done
}

/// Times so many rounds, by a reader at each of the seats but one.
fn time_rounds<B: Naming + Send + Sync, R: Threads + Wait + Clock + Sync>(
    rt: &R,
    cache: &Shared<B>,
    mut seats: Vec<Seat>,
    comparison: &mut Comparison,
    rounds: u64,
) -> Result<(), Fault>
    requires { All (λ s. s.table ≡ B.table) seats.items }
{
    let made = Readers::of(rt, cache, &mut seats);
    drop(seats);
    let mut readers = made?;
    let done = comparison.time_readers(rt, cache, &mut readers, rounds);
    drop(readers);
    done
}
