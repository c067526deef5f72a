//! The calls on a whole cache.

ghost use Rattle.std.specs.Prelude.{◌≡◌, ◌⊎◌, ℕ, [], None, Some, Ok, Err, IfErr, IfOk, pos, negsuc};
ghost use Rattle.std.specs.Option.{IsSomeAnd};
ghost use Rattle.std.specs.Result.{IsErrAnd};
ghost use Rattle.pc_types.specs.declared.refusal.Refusal.TheVariants.{Memory};
ghost use Rattle.runs.specs.Restart.{IsClean};
ghost use Rattle.filesvc.specs.Service.{Tells, files};
ghost use Rattle.listing.specs.Listing.{extent_of};
ghost use Rattle.desk.specs.Seen.{DeskSeen, IsExtentNow, NoExtentNow};
ghost use Rattle.pcache_c.specs.Answers.{bad_handle, refusal_answer};
ghost use Rattle.pcache_c.specs.Caches.{IsAdoptRefusal, IsAdopted};

use crate::answers::{misfit, no_cache, refused};
use crate::cache::Cache;
use crate::files::nothing;
use crate::held::Held;
use catalog::{Catalog, Extent, Misfit};
use listing::{FileExtent, Unfit, catalog_of};
use pc_types::{FileId, Geometry, PageIndex, Refusal};
use std::alloc::Global;

/// Makes a cache without files in place of what was there: over a device in memory, or with `by_jobs` over one whose calls C makes.
#[unsafe(no_mangle)]
pub extern "C" fn pcache_make(
    alloc: Global,
    held: &mut Held,
    page: u64,
    frames: u64,
    dirty_limit: u64,
    blocks: u64,
    by_jobs: bool,
) -> i64
    ensures made { (n : ℕ) → result ≡ pos n → IsSomeAnd held.new.value (λ new. new.handles ≡ []) }
    ensures refused { (n : ℕ) → result ≡ negsuc n → held.new.value ≡ held.old.value }
{
    let made = made(alloc, page, frames, dirty_limit, blocks, by_jobs);
    keep(alloc, held, made)
}

fn made(
    alloc: Global,
    page: u64,
    frames: u64,
    dirty_limit: u64,
    blocks: u64,
    by_jobs: bool,
) -> Result<Cache, Refusal>
    ensures { IfOk result (λ c. c.handles ≡ []) }
{
    let geometry = Geometry::new(page, frames, dirty_limit, blocks)?;
    if by_jobs {
        Cache::by_jobs(alloc, &geometry, Catalog::new(alloc, &geometry))
    } else {
        Cache::in_memory(alloc, &geometry)
    }
}

/// Puts a cache that was made in place of what was there.
fn keep(alloc: Global, held: &mut Held, made: Result<Cache, Refusal>) -> i64
    ensures kept { (n : ℕ) → result ≡ pos n → IsSomeAnd held.new.value (λ new. made ≡ Ok new) }
    ensures refused { (n : ℕ) → result ≡ negsuc n → held.new.value ≡ held.old.value }
    ensures why { (n : ℕ) → result ≡ negsuc n → (result ≡ refusal_answer Memory) ⊎ IsErrAnd made (λ r. result ≡ refusal_answer r) }
{
    match boxed(alloc, made) {
        Ok(cache) => {
            held.put_in(alloc, cache);
            0
        }
        Err(refusal) => refused(refusal),
    }
}

fn boxed(alloc: Global, made: Result<Cache, Refusal>) -> Result<Box<Cache>, Refusal>
    ensures kept { IfOk result (λ cache. made ≡ Ok cache.value) }
    ensures why { IfErr result (λ r. (r ≡ Memory) ⊎ (made ≡ Err r)) }
{
    Ok(Box::new(alloc, made?)?)
}

/// Makes a cache in place of what was there over files that C's device has already: as many as there are sizes. Where a list is refused,
/// the place of what is wrong in it is put into `wrong`.
#[unsafe(no_mangle)]
pub extern "C" fn pcache_adopt(
    alloc: Global,
    held: &mut Held,
    page: u64,
    frames: u64,
    dirty_limit: u64,
    blocks: u64,
    sizes: &[u64],
    extents: &[FileExtent],
    wrong: &mut u64,
) -> i64
    ensures adopted { (n : ℕ) → result ≡ pos n → IsSomeAnd held.new.value (IsAdopted (record { page = page; frames = frames; dirty_limit = dirty_limit; blocks = blocks }) sizes.now extents.now) }
    ensures refused { (n : ℕ) → result ≡ negsuc n → held.new.value ≡ held.old.value }
    ensures why { (n : ℕ) → result ≡ negsuc n → IsAdoptRefusal sizes.now extents.now wrong.new result }
{
    *wrong = 0;
    let geometry = match Geometry::new(page, frames, dirty_limit, blocks) {
        Ok(geometry) => geometry,
        Err(refusal) => return refused(refusal),
    };
    match catalog_of(alloc, &geometry, sizes, extents) {
        Ok(catalog) => keep(alloc, held, Cache::by_jobs(alloc, &geometry, catalog)),
        Err(unfit) => {
            let (place, why) = told(unfit);
            *wrong = place;
            misfit(why)
        }
    }
}

/// Where in its list stands what is unfit, and why it is.
fn told(unfit: Unfit) -> (u64, Misfit)
    ensures { (unfit ≡ Unfit.File result.0 result.1) ⊎ (unfit ≡ Unfit.Extent result.0 result.1) }
{
    match unfit {
        Unfit::File(place, why) => (place, why),
        Unfit::Extent(place, why) => (place, why),
    }
}

/// Frees the cache with its files.
#[unsafe(no_mangle)]
pub extern "C" fn pcache_free(alloc: Global, held: &mut Held)
    ensures { held.new.value ≡ None }
{
    drop(held.take_out(alloc));
}

/// Writes every dirty page of every file to the device, and has it make them durable.
#[unsafe(no_mangle)]
pub extern "C" fn pcache_sync_all(alloc: Global, held: &mut Held) -> i64
    ensures none { held.old.value ≡ None → (result ≡ bad_handle) × (held.new.value ≡ None) }
    ensures synced { (old : DeskSeen) (n : ℕ) → held.old.value ≡ Some old → result ≡ pos n → IsSomeAnd held.new.value (λ new. IsClean new.service.world.core × (new.service.world.device.durable ≡ new.service.world.device.contents)) }
    ensures kept { (old : DeskSeen) → held.old.value ≡ Some old → IsSomeAnd held.new.value (λ new. (new.handles ≡ old.handles) × (Tells old.service → files new.service ≡ files old.service)) }
{
    let Some(mut cache) = held.take_out(alloc) else {
        return no_cache();
    };
    let done = cache.desk.sync_all();
    let result = cache.answer(nothing(done));
    held.put_in(alloc, cache);
    result
}

/// Puts the file's first extent from this page on into `extent`, and answers 1; or 0 where it has none.
#[unsafe(no_mangle)]
pub extern "C" fn pcache_next_extent(
    alloc: Global,
    held: &mut Held,
    file: u64,
    from: u64,
    extent: &mut FileExtent,
) -> i64
    ensures none { held.old.value ≡ None → (result ≡ bad_handle) × (held.new.value ≡ None) }
    ensures found { (old : DeskSeen) → held.old.value ≡ Some old → result ≡ pos 1 → (extent.new.file ≡ file) × IsExtentNow old.service file from (extent_of extent.new) }
    ensures ended { (old : DeskSeen) → held.old.value ≡ Some old → result ≡ pos 0 → NoExtentNow old.service file from }
    ensures kept { held.new.value ≡ held.old.value }
{
    let Some(mut cache) = held.take_out(alloc) else {
        return no_cache();
    };
    let next = cache.desk.next_extent(FileId(file), PageIndex(from));
    held.put_in(alloc, cache);
    match next {
        Ok(Some(next)) => {
            *extent = placed(file, next);
            1
        }
        Ok(None) => 0,
        Err(refusal) => refused(refusal),
    }
}

/// The extent as C has it.
fn placed(file: u64, extent: Extent) -> FileExtent
    ensures { (result.file ≡ file) × (extent_of result ≡ extent) }
{
    FileExtent {
        file,
        first: extent.first.0,
        block: u64::from(extent.block.0),
        bytes: extent.bytes,
    }
}

/// Puts the code of the last call that failed by the device into `code`, or 0.
#[unsafe(no_mangle)]
pub extern "C" fn pcache_io_code(alloc: Global, held: &mut Held, code: &mut u32) -> i64
    ensures none { held.old.value ≡ None → (result ≡ bad_handle) × (held.new.value ≡ None) }
    ensures kept { held.new.value ≡ held.old.value }
{
    *code = 0;
    let Some(cache) = held.take_out(alloc) else {
        return no_cache();
    };
    *code = u32::from(cache.code());
    held.put_in(alloc, cache);
    0
}
