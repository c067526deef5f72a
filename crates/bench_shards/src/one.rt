//! Files of one shared cache.

ghost use Rattle.std.specs.FinMap as map;
ghost use Rattle.std.specs.Prelude.{◌≡◌, [], All, IfOk};
ghost use Rattle.held.specs.Shown.{AreFresh};
ghost use Rattle.held.specs.Keeps.{IsLocked};
ghost use Rattle.machine.specs.Catalogs.{IsCatalog, adopted};
ghost use Rattle.shared.specs.Keeps.{AreBlocksOf, IsDisk};
ghost use Rattle.shared.specs.Workers.{IsWorkerOf};

use crate::round::{PAGE, Round, Store, Timed};
use bench_timing::Fault;
use blockdev::MemDevice;
use held::denied::Denied;
use held::log::Seat;
use held::naming::Naming;
use pc_types::{FileId, Geometry};
use shared::cache::{Parts, SharedCache};
use shared::handle::Handle;
use std::marker::{Brand, PhantomData};
use std::sync::Wait;
use std::thread::Threads;
use std::time::Clock;
use trail::NoTrail;

/// The cache's name.
const NAME: u64 = 7;

/// A cache over memory that keeps no history.
type Shared<B> = SharedCache<B, MemDevice, NoTrail>;

/// What a call answered, or why the bench ends.
#[inline(always)]
pub fn heard<T>(answer: Result<T, Denied>) -> Result<T, Fault> {
    match answer {
        Ok(answer) => Ok(answer),
        Err(denied) => Err(Fault::from(denied.refusal)),
    }
}

/// An open file of the cache that B names.
#[derive(Drop)]
pub struct OneFile<B: Naming> {
    seat: Seat,
    handle: Handle,
    of: PhantomData<B>,
    ghost seated: { seat.table ≡ B.table },
}

impl<B: Naming> OneFile<B> {
    /// The file of this number, which is made.
    fn make<R: Wait>(
        rt: &R,
        cache: &Shared<B>,
        mut seat: Seat,
        file: FileId,
    ) -> Result<OneFile<B>, Fault>
        requires { seat.table ≡ B.table }
    {
        // what it refuses the next call refuses
        let _ = cache.create(rt, &mut seat);
        match heard(cache.open(rt, &mut seat, file, false)) {
            Ok((handle, _)) => Ok(OneFile {
                seat,
                handle,
                of: PhantomData,
            }),
            Err(fault) => {
                // by a call, since the check is slow where a seat goes out of scope
                drop(seat);
                Err(fault)
            }
        }
    }
}

impl<B: Naming + Send + Sync> Store for Shared<B> {
    type File = OneFile<B>;

    fn write<R: Wait>(
        &self,
        rt: &R,
        file: &mut OneFile<B>,
        offset: u64,
        bytes: &[u8],
    ) -> Result<(), Fault> {
        heard(self.pwrite(rt, &mut file.seat, &file.handle, offset, bytes))?;
        Ok(())
    }

    #[inline(always)]
    fn read<R: Wait>(
        &self,
        rt: &R,
        file: &mut OneFile<B>,
        offset: u64,
        out: &mut [u8],
    ) -> Result<u64, Fault> {
        let (count, _) = heard(self.pread(rt, &mut file.seat, &file.handle, offset, out))?;
        Ok(count)
    }
}

/// Times a round over a new cache.
pub fn time_one<R: Threads + Wait + Clock + Sync>(
    rt: &R,
    round: Round<'_>,
) -> Result<Timed, Fault> {
    let alloc = round.alloc;
    let pages = round.pages;
    let geometry = Geometry::new(PAGE, pages + 64, pages + 32, pages)?;
    let device = MemDevice::new(alloc, PAGE, pages)?;
    let threads = round.who.threads();
    match Parts::make(rt, alloc, &geometry, NAME, device, NoTrail::new(), threads) {
        Ok((parts, seats)) => time_over::<Brand, R>(rt, parts, seats, round),
        Err(unmade) => {
            let refusal = unmade.refusal;
            drop(unmade);
            Err(Fault::from(refusal))
        }
    }
}

/// Makes the cache of the parts, and times a round over it.
#[tactic(auto, using(shared::proofs::Seating::fresh_seated))]
fn time_over<B: Naming + Send + Sync, R: Threads + Wait + Clock + Sync>(
    rt: &R,
    parts: Parts<MemDevice, NoTrail>,
    seats: Vec<Seat>,
    round: Round<'_>,
) -> Result<Timed, Fault>
    requires named { parts.name ≡ B.name }
    requires sized { parts.geometry ≡ B.sizes }
    requires board { parts.board ≡ B.board }
    requires state { IsLocked B.name B.table B.board B.sizes B.seats B.whole parts.held }
    requires idle { map.len parts.held.core.state.requests ≡ 0 }
    requires fresh { (parts.held.log.history ≡ []) × (parts.held.core.state ≡ adopted B.sizes B.name B.files) }
    requires files { IsCatalog B.sizes B.files }
    requires own { IsWorkerOf parts.ring B.name B.table B.deeds B.sizes parts.own }
    requires device { IsDisk B.sizes parts.device }
    requires deeds { (parts.deeds.table ≡ B.deeds) × (parts.deeds.told ≡ B.told) × (parts.deeds.blocks ≡ B.blocks) }
    requires blocks { AreBlocksOf B.told B.blocks parts.device }
    requires calls { parts.device.calls ≡ B.calls }
    requires seats { AreFresh B.table B.name seats.items }
{
    let (cache, own) = Shared::<B>::of(round.alloc, parts);
    drop(own);
    let done = time_files(rt, &cache, seats, round);
    drop(cache);
    done
}

/// Makes a file by each of the seats, and times a round over them.
fn time_files<B: Naming + Send + Sync, R: Threads + Wait + Clock + Sync>(
    rt: &R,
    cache: &Shared<B>,
    seats: Vec<Seat>,
    round: Round<'_>,
) -> Result<Timed, Fault>
    requires { All (λ s. s.table ≡ B.table) seats.items }
{
    let mut files = Vec::new(round.alloc);
    for seat in seats {
        let number = FileId(files.len() as u64);
        let file = OneFile::make(rt, cache, seat, number)?;
        if files.push(file).is_err() {
            return Err(Fault::Memory);
        }
    }
    round.time(rt, cache, files)
}
