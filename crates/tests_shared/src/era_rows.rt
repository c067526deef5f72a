//! Eras: a cache whose callers end, and another one over the files that it leaves, again and again. Each of two threads works on a file
//! of its own, beside a plain copy. The two files have more pages than the cache has frames.

ghost use Rattle.std.specs.FinMap as map;
ghost use Rattle.std.specs.Prelude.{◌≡◌, ◌<◌, [], All, IfSome};
ghost use Rattle.held.specs.Shown.{AreFresh};
ghost use Rattle.held.specs.Keeps.{IsLocked};
ghost use Rattle.machine.specs.Catalogs.{IsCatalog, adopted};
ghost use Rattle.shared.specs.Keeps.{AreBlocksOf, IsDisk};
ghost use Rattle.shared.specs.Workers.{IsWorkerOf};

use crate::rows::{Tested, two_of, with_two};
use blockdev::{BlockDevice, MemDevice, ScriptDevice};
use catalog::Catalog;
use held::log::Seat;
use held::naming::Naming;
use pc_types::{FileId, Geometry, Refusal};
use shared::cache::{Parts, SharedCache};
use shared::handle::Handle;
use shared::worker::Worker;
use std::alloc::{AllocError, Global};
use std::marker::{Brand, PhantomData};
use std::mem::drop;
use std::sync::Wait;
use std::test::Fail;
use std::thread;
use std::thread::Threads;
use trail::{FullTrail, replay_plain_over};

const ERAS: u64 = 25;

/// Calls of a thread in an era.
const CALLS: u64 = 60;

/// Bytes of a file at most: 27 pages.
const LONGEST: u64 = 432;

/// Bytes of a call at most: they touch 8 pages.
const MOST: u64 = 100;

/// A file as plain bytes, and what is drawn next.
#[derive(Drop)]
struct Plain {
    file: u64,
    bytes: Vec<u8>,
    seed: u64,
}

impl Plain {
    fn new(alloc: Global, file: u64) -> Plain {
        Plain {
            file,
            bytes: Vec::new(alloc),
            seed: file.wrapping_add(1),
        }
    }

    /// A number below the end.
    fn draw(&mut self, end: u64) -> u64
        requires { 0 < end }
        ensures { result < end }
    {
        self.seed = self
            .seed
            .wrapping_mul(6364136223846793005)
            .wrapping_add(1442695040888963407);
        (self.seed >> 33) % end
    }

    /// It has this byte at so many places from the offset on, and zeros before them where it was shorter.
    fn put(&mut self, offset: u64, count: u64, byte: u8) -> Result<(), AllocError> {
        let end = offset.saturating_add(count);
        if count > 0 && (self.bytes.len() as u64) < end {
            self.bytes.resize(end as usize, 0)?;
        }
        for at in offset..end {
            if let Some(place) = self.bytes.get_mut(at as usize) {
                *place = byte;
            }
        }
        Ok(())
    }

    /// As many bytes from the offset on as there are and are wanted.
    fn part(&self, offset: u64, count: u64) -> &[u8] {
        let start = (offset as usize).min(self.bytes.len());
        let end = (offset.saturating_add(count) as usize).min(self.bytes.len());
        self.bytes.get(start..end).unwrap_or(&[])
    }
}

/// A seat of the cache that B names, with the file that its caller works on, and whether all went well so far.
#[derive(Drop)]
struct Caller<B: Naming> {
    seat: Seat,
    plain: Plain,
    is_well: bool,
    of: PhantomData<B>,
    ghost seated: { seat.table ≡ B.table },
}

impl<B: Naming> Caller<B> {
    fn of(seat: Seat, plain: Plain, is_well: bool) -> Caller<B>
        requires { seat.table ≡ B.table }
    {
        Caller {
            seat,
            plain,
            is_well,
            of: PhantomData,
        }
    }

    fn into_parts(self) -> (Seat, Plain, bool)
        ensures { result.0.table ≡ B.table }
    {
        (self.seat, self.plain, self.is_well)
    }
}

/// What an era leaves.
#[derive(Drop)]
struct Left<D: BlockDevice> {
    catalog: Catalog,
    device: D,
    one: Plain,
    two: Plain,
}

/// A thread's part of an era: it finds its file, makes its calls, and has the device hold what it wrote.
fn works<B: Naming, D: BlockDevice, R: Wait>(
    rt: &R,
    cache: &Tested<B, D>,
    caller: Caller<B>,
) -> Caller<B> {
    let (mut seat, mut plain, is_well) = caller.into_parts();
    let is_done = makes_calls(rt, cache, &mut seat, &mut plain);
    Caller::of(seat, plain, is_well && is_done)
}

fn makes_calls<B: Naming, D: BlockDevice, R: Wait>(
    rt: &R,
    cache: &Tested<B, D>,
    seat: &mut Seat,
    plain: &mut Plain,
) -> bool
    requires { seat.old.table ≡ B.table }
    ensures { seat.new.table ≡ seat.old.table }
{
    let Ok((mut handle, _)) = cache.open(rt, seat, FileId(plain.file), false) else {
        return false;
    };
    let is_kept = reads_all(rt, cache, seat, &handle, plain);
    let is_done = makes_all(rt, cache, seat, &handle, plain);
    let is_synced = cache.fsync(rt, seat, &mut handle).is_ok();
    is_kept && is_done && is_synced
}

fn makes_all<B: Naming, D: BlockDevice, R: Wait>(
    rt: &R,
    cache: &Tested<B, D>,
    seat: &mut Seat,
    handle: &Handle,
    plain: &mut Plain,
) -> bool
    requires { seat.old.table ≡ B.table }
    ensures { seat.new.table ≡ seat.old.table }
{
    for _ in 0..CALLS {
        if !makes_call(rt, cache, seat, handle, plain) {
            return false;
        }
    }
    true
}

/// Makes a call, and the same to the plain bytes.
fn makes_call<B: Naming, D: BlockDevice, R: Wait>(
    rt: &R,
    cache: &Tested<B, D>,
    seat: &mut Seat,
    handle: &Handle,
    plain: &mut Plain,
) -> bool
    requires { seat.old.table ≡ B.table }
    ensures { seat.new.table ≡ seat.old.table }
{
    let offset = plain.draw(LONGEST);
    let count = plain.draw(MOST + 1).min(LONGEST.saturating_sub(offset));
    match plain.draw(8) {
        0..=3 => {
            let byte = plain.draw(256) as u8;
            let bytes = [byte; MOST as usize];
            let part = bytes.get(..count as usize).unwrap_or(&[]);
            let is_written = cache.pwrite(rt, seat, handle, offset, part).is_ok();
            is_written && plain.put(offset, count, byte).is_ok()
        }
        4 => {
            let is_cut = cache.truncate(rt, seat, handle, offset).is_ok();
            is_cut && plain.bytes.resize(offset as usize, 0).is_ok()
        }
        _ => reads(rt, cache, seat, handle, plain, offset, count),
    }
}

/// Whether a read gives the plain bytes.
fn reads<B: Naming, D: BlockDevice, R: Wait>(
    rt: &R,
    cache: &Tested<B, D>,
    seat: &mut Seat,
    handle: &Handle,
    plain: &Plain,
    offset: u64,
    count: u64,
) -> bool
    requires { seat.old.table ≡ B.table }
    ensures { seat.new.table ≡ seat.old.table }
{
    let mut out = [9; MOST as usize];
    let Some(part) = out.get_mut(..count as usize) else {
        return false;
    };
    match cache.pread(rt, seat, handle, offset, part) {
        Ok((read, _)) => part.get(..read as usize) == Some(plain.part(offset, count)),
        Err(_) => false,
    }
}

/// Whether the whole file is the plain one, and ends where that does.
fn reads_all<B: Naming, D: BlockDevice, R: Wait>(
    rt: &R,
    cache: &Tested<B, D>,
    seat: &mut Seat,
    handle: &Handle,
    plain: &Plain,
) -> bool
    requires { seat.old.table ≡ B.table }
    ensures { seat.new.table ≡ seat.old.table }
{
    let mut offset = 0;
    while offset <= LONGEST {
        if !reads(rt, cache, seat, handle, plain, offset, MOST) {
            return false;
        }
        offset += MOST;
    }
    true
}

/// An era: two threads at a cache of these parts. What they leave, if all went well and the history replays.
#[tactic(auto, using(shared::proofs::Seating::fresh_seated))]
fn era_over<B: Naming + Send + Sync, D: BlockDevice + Send, R: Threads + Wait + Sync>(
    rt: &R,
    alloc: Global,
    parts: Parts<D, FullTrail>,
    seats: Vec<Seat>,
    one: Plain,
    two: Plain,
) -> Option<Left<D>>
    requires named { parts.name ≡ B.name }
    requires sized { parts.geometry ≡ B.sizes }
    requires board { parts.board ≡ B.board }
    requires state { IsLocked B.name B.table B.board B.sizes B.seats B.whole parts.held }
    requires idle { map.len parts.held.core.state.requests ≡ 0 }
    requires fresh { (parts.held.log.history ≡ []) × (parts.held.core.state ≡ adopted B.sizes B.name B.files) }
    requires files { IsCatalog B.sizes B.files }
    requires own { IsWorkerOf parts.ring B.name B.table B.deeds B.sizes parts.own }
    requires device { IsDisk B.sizes (D.told parts.device) }
    requires deeds { (parts.deeds.table ≡ B.deeds) × (parts.deeds.told ≡ B.told) × (parts.deeds.blocks ≡ B.blocks) }
    requires blocks { AreBlocksOf B.told B.blocks (D.told parts.device) }
    requires calls { (D.told parts.device).calls ≡ B.calls }
    requires seats { AreFresh B.table B.name seats.items }
    ensures { IfSome result (λ l. IsDisk parts.geometry (D.told l.device)) }
{
    let (cache, own) = SharedCache::<B, D, FullTrail>::of(alloc, parts);
    lives(rt, alloc, cache, own, seats, one, two)
}

fn lives<B: Naming + Send + Sync, D: BlockDevice + Send, R: Threads + Wait + Sync>(
    rt: &R,
    alloc: Global,
    cache: Tested<B, D>,
    own: Worker,
    mut seats: Vec<Seat>,
    one: Plain,
    two: Plain,
) -> Option<Left<D>>
    requires own { IsWorkerOf cache.ring B.name B.table B.deeds B.sizes own }
    requires seats { All (λ s. s.table ≡ B.table) seats.items }
    ensures { IfSome result (λ l. IsDisk B.sizes (D.told l.device)) }
{
    let Some((first, second)) = two_of::<B>(&mut seats) else {
        drop(cache);
        drop(own);
        return None;
    };
    // Both have their files at the beginning, too: the history is to replay from there on.
    let before = copies(alloc, &one, &two);
    let (first, second) = both_work(
        rt,
        &cache,
        Caller::of(first, one, true),
        Caller::of(second, two, true),
    );
    let (first, one, is_one_well) = first.into_parts();
    let (second, two, is_two_well) = second.into_parts();
    let Some(seats) = with_two::<B>(seats, first, second) else {
        drop(cache);
        drop(own);
        return None;
    };
    let is_well = is_one_well && is_two_well;
    match cache.close(rt, own, seats) {
        Ok((trail, core, device)) => {
            let is_replayed = replays(alloc, before, &trail);
            drop(trail);
            let catalog = core.catalog().ok();
            drop(core);
            gives(is_well && is_replayed, catalog, device, one, two)
        }
        Err((_, cache, own, seats)) => {
            drop(cache);
            drop(own);
            drop(seats);
            None
        }
    }
}

fn both_work<B: Naming + Send + Sync, D: BlockDevice + Send, R: Threads + Wait + Sync>(
    rt: &R,
    cache: &Tested<B, D>,
    first: Caller<B>,
    second: Caller<B>,
) -> (Caller<B>, Caller<B>) {
    thread::join(
        rt,
        move || works(rt, cache, first),
        move || works(rt, cache, second),
    )
}

/// The bytes of both files.
fn copies(alloc: Global, one: &Plain, two: &Plain) -> Result<Vec<Vec<u8>>, AllocError> {
    let mut files = Vec::new(alloc);
    for plain in [one, two] {
        let mut file = Vec::new(alloc);
        file.extend_from_slice(plain.bytes.as_slice())?;
        files.push(file)?;
    }
    Ok(files)
}

/// Whether the history replays from these files on.
fn replays(alloc: Global, files: Result<Vec<Vec<u8>>, AllocError>, trail: &FullTrail) -> bool {
    match files {
        Ok(files) => matches!(replay_plain_over(alloc, &files, trail), Ok(Some(_))),
        Err(_) => false,
    }
}

/// What an era leaves, if all went well.
fn gives<D: BlockDevice>(
    is_well: bool,
    catalog: Option<Catalog>,
    device: D,
    one: Plain,
    two: Plain,
) -> Option<Left<D>>
    ensures { IfSome result (λ l. l.device ≡ device) }
{
    match catalog {
        Some(catalog) => {
            if is_well {
                return Some(Left {
                    catalog,
                    device,
                    one,
                    two,
                });
            }
            drop(catalog);
            drop(device);
            None
        }
        None => {
            drop(device);
            None
        }
    }
}

/// The next era, over what the last one left.
fn next_era<D: BlockDevice + Send, R: Threads + Wait + Sync>(
    rt: &R,
    alloc: Global,
    geometry: &Geometry,
    name: u64,
    left: Left<D>,
) -> Option<Left<D>>
    requires { IsDisk geometry.now (D.told left.device) }
    ensures { IfSome result (λ l. IsDisk geometry.now (D.told l.device)) }
{
    let Left {
        catalog,
        device,
        one,
        two,
    } = left;
    let trail = match FullTrail::new(alloc, 4000, 400_000) {
        Ok(trail) => trail,
        Err(_) => {
            drop(catalog);
            drop(device);
            return None;
        }
    };
    match Parts::over(rt, alloc, geometry, name, catalog, device, trail, 2) {
        Ok((parts, seats)) => { era_over::<Brand, D, R>(rt, alloc, parts, seats, one, two) }
        Err(unadopted) => {
            drop(unadopted);
            None
        }
    }
}

/// Era after era over one device, which begins with two empty files.
fn eras<D: BlockDevice + Send, R: Threads + Wait + Sync>(
    rt: &R,
    alloc: Global,
    geometry: &Geometry,
    device: D,
) -> bool
    requires { IsDisk geometry.now (D.told device) }
{
    let mut catalog = Catalog::new(alloc, geometry);
    let is_added = catalog.add_file(0).is_ok() && catalog.add_file(0).is_ok();
    let mut left = Left {
        catalog,
        device,
        one: Plain::new(alloc, 0),
        two: Plain::new(alloc, 1),
    };
    for era in 0..ERAS {
        match next_era(rt, alloc, geometry, era, left) {
            Some(next) => left = next,
            None => return false,
        }
    }
    drop(left);
    is_added
}

#[test]
fn files_outlive_each_of_many_caches(rt: HostRuntime) -> Result<(), Fail> {
    let alloc = rt.alloc();
    let geometry = Geometry::new(16, 48, 16, 64)?;
    let memory = MemDevice::new(alloc, 16, 64)?;
    assert!(&rt; eras(&rt, alloc, &geometry, memory));
    let script = ScriptDevice::new(alloc, 16, 64)?;
    assert!(&rt; eras(&rt, alloc, &geometry, script));
    Ok(())
}
