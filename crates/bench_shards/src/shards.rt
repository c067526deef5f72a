//! Files of a cache of shards.

ghost use Rattle.std.specs.Prelude.{◌≡◌, ◌<◌, ℕ, All, IfOk, length};
ghost use Rattle.shared.specs.Keeps.{IsDisk};
ghost use Rattle.shared.specs.ShardNames.{names_at};
ghost use Rattle.shared.specs.ShardSeats.{AreSeated};

use crate::one::heard;
use crate::round::{PAGE, Round, Store, Timed};
use crate::rows::Who;
use bench_timing::Fault;
use blockdev::MemDevice;
use catalog::Catalog;
use pc_types::{FileId, Geometry};
use shared::shards::cache::ShardedCache;
use shared::shards::handle::ShardHandle;
use shared::shards::naming::ShardNaming;
use shared::shards::parts::{ShardParts, Source};
use shared::shards::seat::ShardSeat;
use std::alloc::Global;
use std::marker::{Brand, PhantomData};
use std::sync::Wait;
use std::thread::Threads;
use std::time::Clock;
use trail::NoTrail;

/// A cache of shards over memory that keeps no history.
type Sharded<B> = ShardedCache<B, MemDevice, NoTrail>;

/// An open file of the cache of shards that B names.
#[derive(Drop)]
pub struct ShardFile<B: ShardNaming> {
    seat: ShardSeat,
    handle: ShardHandle,
    of: PhantomData<B>,
    ghost seated: { AreSeated B.names seat },
}

impl<B: ShardNaming> ShardFile<B> {
    /// The file of this number, which is made.
    fn make<R: Wait>(
        rt: &R,
        cache: &Sharded<B>,
        mut seat: ShardSeat,
        file: FileId,
    ) -> Result<ShardFile<B>, Fault>
        requires { AreSeated B.names seat }
    {
        // what it refuses the next call refuses
        let _ = cache.create_in(rt, &mut seat, file.0 % cache.shards());
        match heard(cache.open(rt, &mut seat, file, false)) {
            Ok((handle, _)) => Ok(ShardFile {
                seat,
                handle,
                of: PhantomData,
            }),
            Err(fault) => {
                // by a call, since the check is slow where a seat goes out of scope
                drop(seat);
                Err(fault)
            }
        }
    }
}

impl<B: ShardNaming + Send + Sync> Store for Sharded<B> {
    type File = ShardFile<B>;

    fn write<R: Wait>(
        &self,
        rt: &R,
        file: &mut ShardFile<B>,
        offset: u64,
        bytes: &[u8],
    ) -> Result<(), Fault> {
        heard(self.pwrite(rt, &mut file.seat, &file.handle, offset, bytes))?;
        Ok(())
    }

    #[inline(always)]
    fn read<R: Wait>(
        &self,
        rt: &R,
        file: &mut ShardFile<B>,
        offset: u64,
        out: &mut [u8],
    ) -> Result<u64, Fault> {
        let (count, _) = heard(self.pread(rt, &mut file.seat, &file.handle, offset, out))?;
        Ok(count)
    }
}

/// Times a round over a new cache, of as many shards as there are threads.
pub fn time_shards<R: Threads + Wait + Clock + Sync>(
    rt: &R,
    round: Round<'_>,
) -> Result<Timed, Fault> {
    // as many as for two files where one shard has two
    let pages = if round.who == Who::FourOfHotShard {
        2 * round.file_pages()
    } else {
        round.file_pages()
    };
    let geometry = Geometry::new(PAGE, pages + 64, pages + 32, pages)?;
    let threads = round.who.threads();
    let sources = sources_of(round.alloc, &geometry, threads)?;
    match ShardParts::make(rt, round.alloc, &geometry, sources, threads) {
        Ok((parts, seats)) => time_over::<Brand, R>(rt, parts, seats, round),
        Err(unmade) => {
            let refusal = unmade.refusal;
            drop(unmade);
            Err(Fault::from(refusal))
        }
    }
}

/// What so many shards are made of.
fn sources_of(
    alloc: Global,
    geometry: &Geometry,
    shards: u64,
) -> Result<Vec<Source<MemDevice, NoTrail>>, Fault>
    ensures { IfOk result (λ sources. All (λ s. IsDisk geometry.now s.device) sources.items) }
{
    let mut sources = Vec::new(alloc);
    for name in 0..shards {
        let source = source_of(alloc, geometry, name)?;
        let Ok(()) = sources.push(source) else {
            return Err(Fault::Memory);
        };
    }
    Ok(sources)
}

/// What the shard of this name is made of.
fn source_of(
    alloc: Global,
    geometry: &Geometry,
    name: u64,
) -> Result<Source<MemDevice, NoTrail>, Fault>
    ensures { IfOk result (λ s. IsDisk geometry.now s.device) }
{
    let device = MemDevice::new(alloc, geometry.page(), geometry.blocks())?;
    Ok(Source {
        name,
        files: Catalog::new(alloc, geometry),
        trail: NoTrail::new(),
        device,
    })
}

/// Makes the cache of the parts, and times a round over it.
fn time_over<B: ShardNaming + Send + Sync, R: Threads + Wait + Clock + Sync>(
    rt: &R,
    parts: ShardParts<MemDevice, NoTrail>,
    seats: Vec<ShardSeat>,
    round: Round<'_>,
) -> Result<Timed, Fault>
    requires shards { B.shards ≡ length parts }
    requires named { (k : ℕ) → k < length parts → B.names k ≡ names_at parts k }
    requires seats { All (AreSeated B.names) seats.items }
{
    // each by a call, since the check is slow where these go out of scope
    match Sharded::<B>::of(round.alloc, parts) {
        Ok((cache, own)) => {
            drop(own);
            let done = time_files(rt, &cache, seats, round);
            drop(cache);
            done
        }
        Err(parts) => {
            drop(parts);
            drop(seats);
            Err(Fault::Memory)
        }
    }
}

/// Makes a file by each of the seats, and times a round over them.
fn time_files<B: ShardNaming + Send + Sync, R: Threads + Wait + Clock + Sync>(
    rt: &R,
    cache: &Sharded<B>,
    seats: Vec<ShardSeat>,
    round: Round<'_>,
) -> Result<Timed, Fault>
    requires { All (AreSeated B.names) seats.items }
{
    let mut files = Vec::new(round.alloc);
    for seat in seats {
        let number = match (round.who, files.len()) {
            // beside file 0, which stands in shard 0 of four
            (Who::FourOfHotShard, 3) => FileId(4),
            (_, number) => FileId(number as u64),
        };
        let file = ShardFile::make(rt, cache, seat, number)?;
        if files.push(file).is_err() {
            return Err(Fault::Memory);
        }
    }
    round.time(rt, cache, files)
}
