//! A cache that is closed, and a second one over the files that it leaves on its device. Pages of 16 bytes, 64 blocks.

ghost use Rattle.std.specs.FinMap as map;
ghost use Rattle.std.specs.Prelude.{◌≡◌, [], All, IfSome};
ghost use Rattle.held.specs.Shown.{AreFresh};
ghost use Rattle.held.specs.Keeps.{IsLocked};
ghost use Rattle.machine.specs.Catalogs.{IsCatalog, adopted};
ghost use Rattle.shared.specs.Keeps.{AreBlocksOf, IsDisk};
ghost use Rattle.shared.specs.Workers.{IsWorkerOf};

use crate::rows::{Tested, two_of, with_two};
use blockdev::{BlockDevice, ScriptDevice};
use catalog::Catalog;
use held::log::Seat;
use held::naming::Naming;
use pc_types::{FileId, Geometry, PageIndex, Refusal};
use shared::cache::{Parts, SharedCache};
use shared::handle::Handle;
use shared::worker::Worker;
use std::alloc::Global;
use std::marker::Brand;
use std::mem::drop;
use std::sync::Wait;
use std::test::Fail;
use trail::{FullTrail, replay_plain, replay_plain_over};

/// File 0 has these bytes, five pages and a half.
const LONG: &[u8] =
    b"the quick brown fox jumps over the lazy dog, and the cache keeps what it wrote to blocks";

/// File 1 has a hole of 40 bytes, and behind it the first three of these.
const SHORT: &[u8] = b"short";

const HOLE: u64 = 40;

/// File 1 as it is.
const HOLLOW: &[u8] =
    b"\0\0\0\0\0\0\0\0\0\0\0\0\0\0\0\0\0\0\0\0\0\0\0\0\0\0\0\0\0\0\0\0\0\0\0\0\0\0\0\0sho";

/// The first cache. It gives where its files stand, and its device.
#[tactic(auto, using(shared::proofs::Seating::fresh_seated))]
fn first_over<B: Naming, D: BlockDevice, R: Wait>(
    rt: &R,
    alloc: Global,
    parts: Parts<D, FullTrail>,
    seats: Vec<Seat>,
) -> Option<(Catalog, D)>
    requires named { parts.name ≡ B.name }
    requires sized { parts.geometry ≡ B.sizes }
    requires board { parts.board ≡ B.board }
    requires state { IsLocked B.name B.table B.board B.sizes B.seats B.whole parts.held }
    requires idle { map.len parts.held.core.state.requests ≡ 0 }
    requires fresh { (parts.held.log.history ≡ []) × (parts.held.core.state ≡ adopted B.sizes B.name B.files) }
    requires files { IsCatalog B.sizes B.files }
    requires own { IsWorkerOf parts.ring B.name B.table B.deeds B.sizes parts.own }
    requires device { IsDisk B.sizes (D.told parts.device) }
    requires deeds { (parts.deeds.table ≡ B.deeds) × (parts.deeds.told ≡ B.told) × (parts.deeds.blocks ≡ B.blocks) }
    requires blocks { AreBlocksOf B.told B.blocks (D.told parts.device) }
    requires calls { (D.told parts.device).calls ≡ B.calls }
    requires seats { AreFresh B.table B.name seats.items }
    ensures { IfSome result (λ r. IsDisk parts.geometry (D.told r.1)) }
{
    let (cache, own) = SharedCache::<B, D, FullTrail>::of(alloc, parts);
    leaves(rt, cache, own, seats)
}

/// Makes the files, and closes the cache.
fn leaves<B: Naming, D: BlockDevice, R: Wait>(
    rt: &R,
    cache: Tested<B, D>,
    own: Worker,
    mut seats: Vec<Seat>,
) -> Option<(Catalog, D)>
    requires own { IsWorkerOf cache.ring B.name B.table B.deeds B.sizes own }
    requires seats { All (λ s. s.table ≡ B.table) seats.items }
    ensures { IfSome result (λ r. IsDisk B.sizes (D.told r.1)) }
{
    let Some((mut first, second)) = two_of::<B>(&mut seats) else {
        drop(cache);
        drop(own);
        return None;
    };
    let is_made = makes_files(rt, &cache, &mut first);
    let Some(seats) = with_two::<B>(seats, first, second) else {
        drop(cache);
        drop(own);
        return None;
    };
    match cache.close(rt, own, seats) {
        Ok((trail, core, device)) => {
            drop(trail);
            let catalog = core.catalog().ok();
            drop(core);
            given(is_made, catalog, device)
        }
        Err((_, cache, own, seats)) => {
            drop(cache);
            drop(own);
            drop(seats);
            None
        }
    }
}

/// Both, if all went well.
fn given<D: BlockDevice>(is_made: bool, catalog: Option<Catalog>, device: D) -> Option<(Catalog, D)>
    ensures { IfSome result (λ r. r.1 ≡ device) }
{
    match catalog {
        Some(catalog) => {
            if is_made {
                return Some((catalog, device));
            }
            drop(catalog);
            drop(device);
            None
        }
        None => {
            drop(device);
            None
        }
    }
}

/// A new file with these bytes from the offset on.
fn makes_file<B: Naming, D: BlockDevice, R: Wait>(
    rt: &R,
    cache: &Tested<B, D>,
    seat: &mut Seat,
    offset: u64,
    bytes: &[u8],
) -> Option<Handle>
    requires { seat.old.table ≡ B.table }
    ensures seat { seat.new.table ≡ seat.old.table }
    ensures board { IfSome result (λ h. h.pass.board ≡ B.board) }
{
    let (file, _) = cache.create(rt, seat).ok()?;
    let (handle, _) = cache.open(rt, seat, file, false).ok()?;
    cache.pwrite(rt, seat, &handle, offset, bytes).ok()?;
    Some(handle)
}

/// Makes the files 0 to 2, has the device hold them, and finds their pages there.
fn makes_files<B: Naming, D: BlockDevice, R: Wait>(
    rt: &R,
    cache: &Tested<B, D>,
    seat: &mut Seat,
) -> bool
    requires { seat.old.table ≡ B.table }
    ensures { seat.new.table ≡ seat.old.table }
{
    let Some(mut long) = makes_file(rt, cache, seat, 0, LONG) else {
        return false;
    };
    let Some(mut hollow) = makes_file(rt, cache, seat, HOLE, SHORT) else {
        return false;
    };
    let is_empty = cache.create(rt, seat).is_ok();
    let is_cut = cache.truncate(rt, seat, &hollow, HOLE + 3).is_ok();
    let is_synced = cache.fsync(rt, seat, &mut long).is_ok()
        && cache.fsync(rt, seat, &mut hollow).is_ok();
    is_empty && is_cut && is_synced && stands(rt, cache, seat, 0, 5, 8) && is_bare(rt, cache, seat)
}

/// Whether the page has a block, in which so many bytes are the page's.
fn stands<B: Naming, D: BlockDevice, R: Wait>(
    rt: &R,
    cache: &Tested<B, D>,
    seat: &mut Seat,
    file: u64,
    page: u64,
    valid: u32,
) -> bool
    requires { seat.old.table ≡ B.table }
    ensures { seat.new.table ≡ seat.old.table }
{
    match cache.block_of(rt, seat, FileId(file), PageIndex(page)) {
        Ok(Some(placed)) => placed.valid >= valid,
        _ => false,
    }
}

/// Whether the first page of file 1 has none, and there is no file 3.
fn is_bare<B: Naming, D: BlockDevice, R: Wait>(
    rt: &R,
    cache: &Tested<B, D>,
    seat: &mut Seat,
) -> bool
    requires { seat.old.table ≡ B.table }
    ensures { seat.new.table ≡ seat.old.table }
{
    let hole = cache.block_of(rt, seat, FileId(1), PageIndex(0));
    let past = cache.block_of(rt, seat, FileId(3), PageIndex(0));
    matches!(hole, Ok(None)) && matches!(past, Err(Refusal::NoSuchFile))
}

/// The second cache. Its files are those of the first, and its history replays from them on.
#[tactic(auto, using(shared::proofs::Seating::fresh_seated))]
fn second_over<B: Naming, D: BlockDevice, R: Wait>(
    rt: &R,
    alloc: Global,
    parts: Parts<D, FullTrail>,
    seats: Vec<Seat>,
) -> bool
    requires named { parts.name ≡ B.name }
    requires sized { parts.geometry ≡ B.sizes }
    requires board { parts.board ≡ B.board }
    requires state { IsLocked B.name B.table B.board B.sizes B.seats B.whole parts.held }
    requires idle { map.len parts.held.core.state.requests ≡ 0 }
    requires fresh { (parts.held.log.history ≡ []) × (parts.held.core.state ≡ adopted B.sizes B.name B.files) }
    requires files { IsCatalog B.sizes B.files }
    requires own { IsWorkerOf parts.ring B.name B.table B.deeds B.sizes parts.own }
    requires device { IsDisk B.sizes (D.told parts.device) }
    requires deeds { (parts.deeds.table ≡ B.deeds) × (parts.deeds.told ≡ B.told) × (parts.deeds.blocks ≡ B.blocks) }
    requires blocks { AreBlocksOf B.told B.blocks (D.told parts.device) }
    requires calls { (D.told parts.device).calls ≡ B.calls }
    requires seats { AreFresh B.table B.name seats.items }
{
    let (cache, own) = SharedCache::<B, D, FullTrail>::of(alloc, parts);
    finds(rt, alloc, cache, own, seats)
}

fn finds<B: Naming, D: BlockDevice, R: Wait>(
    rt: &R,
    alloc: Global,
    cache: Tested<B, D>,
    own: Worker,
    mut seats: Vec<Seat>,
) -> bool
    requires own { IsWorkerOf cache.ring B.name B.table B.deeds B.sizes own }
    requires seats { All (λ s. s.table ≡ B.table) seats.items }
{
    let Some((mut first, second)) = two_of::<B>(&mut seats) else {
        drop(cache);
        drop(own);
        return false;
    };
    let is_found = finds_files(rt, &cache, &mut first);
    let Some(seats) = with_two::<B>(seats, first, second) else {
        drop(cache);
        drop(own);
        return false;
    };
    match cache.close(rt, own, seats) {
        Ok((trail, core, device)) => {
            drop(core);
            drop(device);
            let replays = replays(alloc, &trail);
            drop(trail);
            is_found && matches!(replays, Ok(true))
        }
        Err((_, cache, own, seats)) => {
            drop(cache);
            drop(own);
            drop(seats);
            false
        }
    }
}

/// Whether the history replays from the files on, and not from none.
fn replays(alloc: Global, trail: &FullTrail) -> Result<bool, Refusal> {
    let mut files = Vec::new(alloc);
    for bytes in [LONG, HOLLOW, b""] {
        let mut file = Vec::new(alloc);
        file.extend_from_slice(bytes)?;
        files.push(file)?;
    }
    let there = replay_plain_over(alloc, &files, trail)?;
    let none = replay_plain(alloc, trail)?;
    Ok(there.is_some() && none.is_none())
}

/// Reads the files, counts them, and changes one.
fn finds_files<B: Naming, D: BlockDevice, R: Wait>(
    rt: &R,
    cache: &Tested<B, D>,
    seat: &mut Seat,
) -> bool
    requires { seat.old.table ≡ B.table }
    ensures { seat.new.table ≡ seat.old.table }
{
    let is_kept = has_bytes(rt, cache, seat, 0, LONG)
        && has_bytes(rt, cache, seat, 1, HOLLOW)
        && has_bytes(rt, cache, seat, 2, b"");
    let past = cache.open(rt, seat, FileId(3), false).is_err();
    let next = cache.create(rt, seat);
    let is_next = matches!(next, Ok((FileId(3), _)));
    is_kept && past && is_next && changes(rt, cache, seat) && counts(rt, cache, seat)
}

/// Whether the file has these bytes, and no more.
fn has_bytes<B: Naming, D: BlockDevice, R: Wait>(
    rt: &R,
    cache: &Tested<B, D>,
    seat: &mut Seat,
    file: u64,
    bytes: &[u8],
) -> bool
    requires { seat.old.table ≡ B.table }
    ensures { seat.new.table ≡ seat.old.table }
{
    let Ok((handle, _)) = cache.open(rt, seat, FileId(file), false) else {
        return false;
    };
    let mut out = [9; 100];
    match cache.pread(rt, seat, &handle, 0, &mut out) {
        Ok((count, _)) => out.get(..count as usize) == Some(bytes),
        Err(_) => false,
    }
}

/// Writes into the hole of file 1, has the device hold it, and reads it.
fn changes<B: Naming, D: BlockDevice, R: Wait>(
    rt: &R,
    cache: &Tested<B, D>,
    seat: &mut Seat,
) -> bool
    requires { seat.old.table ≡ B.table }
    ensures { seat.new.table ≡ seat.old.table }
{
    let Ok((mut handle, _)) = cache.open(rt, seat, FileId(1), false) else {
        return false;
    };
    let is_written = cache.pwrite(rt, seat, &handle, 2, b"new").is_ok();
    let is_synced = cache.fsync(rt, seat, &mut handle).is_ok();
    let mut out = [9; 6];
    let read = cache.pread(rt, seat, &handle, 0, &mut out);
    is_written && is_synced && matches!(read, Ok((6, _))) && out == *b"\0\0new\0"
}

/// Whether the catalog has four files, of these sizes.
fn counts<B: Naming, D: BlockDevice, R: Wait>(rt: &R, cache: &Tested<B, D>, seat: &mut Seat) -> bool
    requires { seat.old.table ≡ B.table }
    ensures { seat.new.table ≡ seat.old.table }
{
    match cache.catalog(rt, seat) {
        Ok(catalog) => {
            let sizes = [0, 1, 2, 3].map(|file| catalog.size(FileId(file)));
            let count = catalog.file_count();
            drop(catalog);
            count == 4 && sizes == [LONG.len() as u64, HOLE + 3, 0, 0]
        }
        Err(_) => false,
    }
}

/// One cache after the other, over one device.
fn restarts<R: Wait>(rt: &R, alloc: Global) -> Result<bool, Refusal> {
    let geometry = Geometry::new(16, 48, 16, 64)?;
    let device = ScriptDevice::new(alloc, 16, 64)?;
    let trail = FullTrail::new(alloc, 1000, 20000)?;
    let left = match Parts::make(rt, alloc, &geometry, 7, device, trail, 2) {
        Ok((parts, seats)) => first_over::<Brand, ScriptDevice, R>(rt, alloc, parts, seats),
        Err(unmade) => return Err(unmade.refusal),
    };
    let Some((catalog, device)) = left else {
        return Ok(false);
    };
    let trail = FullTrail::new(alloc, 1000, 20000)?;
    match Parts::over(rt, alloc, &geometry, 8, catalog, device, trail, 2) {
        Ok((parts, seats)) => Ok(second_over::<Brand, ScriptDevice, R>(rt, alloc, parts, seats)),
        Err(unadopted) => Err(unadopted.refusal),
    }
}

#[test]
fn a_second_cache_finds_the_files_of_the_first(rt: HostRuntime) -> Result<(), Fail> {
    assert!(&rt; restarts(&rt, rt.alloc())?);
    Ok(())
}

/// A catalog for another block size comes back with the device and the trail, and so it does where no seat is wanted.
#[test]
fn a_catalog_of_another_size_is_refused(rt: HostRuntime) -> Result<(), Fail> {
    let alloc = rt.alloc();
    assert!(&rt; comes_back(&rt, alloc, 32, 2)?);
    assert!(&rt; comes_back(&rt, alloc, 16, 0)?);
    assert!(&rt; comes_back(&rt, alloc, 16, 65)?);
    Ok(())
}

/// Whether a catalog for devices of this block size comes back with its file, by `BadConfig`.
fn comes_back<R: Wait>(rt: &R, alloc: Global, page: u64, seats: u64) -> Result<bool, Refusal> {
    let geometry = Geometry::new(16, 48, 16, 64)?;
    let device = ScriptDevice::new(alloc, 16, 64)?;
    let trail = FullTrail::new(alloc, 10, 200)?;
    let mut catalog = Catalog::new(alloc, &Geometry::new(page, 48, 16, 64)?);
    let added = catalog.add_file(5).is_ok();
    match Parts::over(rt, alloc, &geometry, 8, catalog, device, trail, seats) {
        Ok((parts, seats)) => {
            drop(parts);
            drop(seats);
            Ok(false)
        }
        Err(unadopted) => {
            let is_bad = unadopted.refusal == Refusal::BadConfig;
            let is_back = unadopted.catalog.size(FileId(0)) == 5;
            drop(unadopted);
            Ok(added && is_bad && is_back)
        }
    }
}
