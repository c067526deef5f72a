//! A cache over files that its device has already, and where its files stand.

ghost use Rattle.std.specs.Prelude.{◌≡◌, ◌<◌, ◌≤◌, ℕ, IfErr, IfOk, IsOkUnless, None, OnOk, Some, if◌then◌else◌, length, option_map, true, ◌^◌};
ghost use Rattle.std.specs.FinMap as finmap;
ghost use Rattle.pc_types.specs.declared.limits.TheConstants.{MAX_FRAMES};
ghost use Rattle.machine.specs.Catalogs.{IsCatalog, adopted};
ghost use Rattle.machine.specs.PageLists.{no_lists};
ghost use Rattle.machine.specs.State.{spot_at};
ghost use Rattle.blockmap.specs.Told.{told};
ghost use Rattle.catalog.specs.Cataloged.{fits};
ghost use Rattle.cachecore.specs.Standing.{SpotIs, Tells, TellsFile, TellsPage, store_over};

use crate::cache::CacheCore;
use crate::handles::Handles;
use blockmap::Placed;
use catalog::{Catalog, Extent, Misfit};
use pagestore::{Layout, Pages};
use pc_types::limits::{LAST_PAGE, MAX_FILES};
use pc_types::{FileId, Geometry, PageIndex, Refusal};
use std::alloc::Global;
use writeback::{Requests, Syncs};

impl CacheCore {
    /// A cache with the catalog's files, of which no page is cached: it reads nothing. `BadConfig`: the catalog is for another
    /// block size or number of blocks. `Memory`. Either way the catalog comes back. The name is as for `new`.
    pub fn over(
        alloc: Global,
        geometry: &Geometry,
        name: u64,
        catalog: Catalog,
    ) -> Result<CacheCore, (Refusal, Catalog)>
        ensures adopted { IfOk result (λ c. c ≡ record { state = adopted geometry.now name catalog.files; lists = no_lists }) }
        ensures catalog { IfOk result (λ _. IsCatalog geometry.now catalog.files) }
        ensures fits { IfOk result (λ _. fits geometry.now catalog ≡ true) }
        ensures refused { IfErr result (λ e. e.0 ≡ (if fits geometry.now catalog then Refusal.Memory else Refusal.BadConfig)) }
        ensures back { IfErr result (λ e. e.1 ≡ catalog) }
    {
        if !catalog.is_for(geometry) {
            return Err((Refusal::BadConfig, catalog));
        }
        let Ok(pages) = pages_of(alloc, geometry, &catalog) else {
            return Err((Refusal::Memory, catalog));
        };
        let Ok(handles) = Handles::new(alloc) else {
            return Err((Refusal::Memory, catalog));
        };
        Ok(CacheCore {
            geometry: Layout::new(geometry),
            name,
            pages,
            handles,
            blocks: catalog.into_blocks(),
            requests: Requests::new(),
            syncs: Syncs::new(),
            alloc,
        })
    }

    /// Where a page stands on the device. Any page may be asked for, also past the end of the file. This is no event.
    pub fn block_of(&self, file: FileId, page: PageIndex) -> Result<Option<Placed>, Refusal>
        ensures { SpotIs self.now.state file.0 page.0 result }
    {
        if file.0 >= self.pages.file_count() {
            return Err(Refusal::NoSuchFile);
        }
        Ok(self.placed(file, page))
    }

    /// The page's block, looked for from the page on, since a page past the largest file may be asked for.
    fn placed(&self, file: FileId, page: PageIndex) -> Option<Placed>
        requires { file.0 < length self.now.state.files }
        ensures { result ≡ option_map told (spot_at self.now.state file.0 page.0) }
    {
        let from = PageIndex(page.0.min(LAST_PAGE + 1));
        let (found, placed) = self.blocks.next(file, from)?;
        if found != page {
            return None;
        }
        Some(placed)
    }

    /// The files as they stand on the device, for a cache that begins later. A page whose block was never written well is a
    /// hole in it. Refused by `Memory`. It costs two look-ups a page that has a block. This is no event.
    pub fn catalog(&self) -> Result<Catalog, Refusal>
        ensures told { IfOk result (λ c. Tells self.now.state c) }
        ensures refused { IsOkUnless result Refusal.Memory }
    {
        let mut catalog = Catalog::new(self.alloc, &self.geometry());
        'files: for file in 0..self.pages.file_count() {
            self.tell_file(FileId(file), &mut catalog)?;
        }
        Ok(catalog)
    }

    /// The catalog gets one file more, with those of its pages that have valid bytes.
    fn tell_file(&self, file: FileId, catalog: &mut Catalog) -> Result<(), Refusal>
        requires here { file.0 < length self.now.state.files }
        requires sized { catalog.old.page ≡ self.now.state.sizes.page }
        requires bare { (p : ℕ) → finmap.get catalog.old.files.spots (file.0, p) ≡ None }
        ensures told { OnOk result (TellsFile self.now.state file.0 catalog.old catalog.new) }
        ensures refused { IsOkUnless result Refusal.Memory }
    {
        if let Err(misfit) = catalog.add_file(self.pages.size(file.0)) {
            return Err(refused(misfit));
        }
        let mut from = 0;
        'pages: while let Some((page, placed)) = self.blocks.next(file, PageIndex(from)) {
            self.tell_page(file, page, placed, catalog)?;
            from = page.0 + 1;
        }
        Ok(())
    }

    /// The catalog's file gets the page, if it has valid bytes.
    fn tell_page(
        &self,
        file: FileId,
        page: PageIndex,
        placed: Placed,
        catalog: &mut Catalog,
    ) -> Result<(), Refusal>
        requires here { file.0 < length self.now.state.files }
        requires page { page.0 < 2 ^ 36 }
        requires spot { option_map told (spot_at self.now.state file.0 page.0) ≡ Some placed }
        requires sized { catalog.old.page ≡ self.now.state.sizes.page }
        requires bare { finmap.get catalog.old.files.spots (file.0, page.0) ≡ None }
        ensures told { OnOk result (TellsPage self.now.state file.0 page.0 catalog.old catalog.new) }
        ensures refused { IsOkUnless result Refusal.Memory }
    {
        let page_size = self.geometry.page();
        let left = self
            .pages
            .size(file.0)
            .saturating_sub(page.0 * page_size)
            .min(page_size);
        let bytes = u64::from(placed.valid).min(left);
        if bytes == 0 {
            return Ok(());
        }
        let extent = Extent {
            first: page,
            block: placed.block,
            bytes,
        };
        match catalog.add_extent(file, extent) {
            Ok(()) => Ok(()),
            Err(misfit) => Err(refused(misfit)),
        }
    }
}

/// The files' sizes stand, and no page is cached.
fn pages_of(alloc: Global, geometry: &Geometry, catalog: &Catalog) -> Result<Pages, Refusal>
    ensures made { IfOk result (λ s. s ≡ store_over geometry.now catalog.now.files.sizes) }
    ensures few { geometry.now.frames ≤ MAX_FRAMES }
    ensures refused { IsOkUnless result Refusal.Memory }
{
    let mut pages = Pages::new(alloc, geometry, MAX_FILES as usize)?;
    'files: for file in 0..catalog.file_count() {
        pages.add_file(alloc)?;
        pages.set_size(file, catalog.size(FileId(file)));
    }
    Ok(pages)
}

/// A cache's files are a catalog, so memory alone can be wanting.
fn refused(_misfit: Misfit) -> Refusal
    ensures { result ≡ Refusal.Memory }
{
    Refusal::Memory
}
