//! A world over files that its device has already, and where its files stand.

ghost use Rattle.std.specs.Prelude.{◌≡◌, ◌&&◌, IfErr, IfOk, IfSome, IsOkUnless, true, if◌then◌else◌};
ghost use Rattle.pc_types.specs.declared.refusal.Refusal.TheVariants.{BadConfig, Memory};
ghost use Rattle.machine.specs.Catalogs.{IsCatalog};
ghost use Rattle.catalog.specs.Cataloged as cataloged;
ghost use Rattle.cachecore.specs.Standing.{SpotIs, Tells};
ghost use Rattle.runs.specs.Runs.{Adopts};
ghost use Rattle.world.specs.Stepping.{adopted_world, fits, world_of};

use crate::jobs::Jobs;
use crate::world::World;
use blockdev::{BlockDevice, Watched};
use cachecore::{CacheCore, Placed};
use catalog::Catalog;
use pc_types::{FileId, Geometry, PageIndex, Refusal};
use std::alloc::Global;

impl<D: BlockDevice> World<D> {
    /// A cache over a device that has the catalog's files. It reads nothing. Refused by `BadConfig` where the device or the catalog
    /// has another block size or number of blocks than the geometry, and else by want of memory; both come back.
    pub fn over(
        alloc: Global,
        geometry: &Geometry,
        name: u64,
        catalog: Catalog,
        device: D,
    ) -> Result<World<D>, (Refusal, Catalog, D)>
        ensures fresh { IfOk result (λ w. w ≡ adopted_world geometry.now name catalog.files (D.told device)) }
        ensures catalog { IfOk result (λ _. IsCatalog geometry.now catalog.files) }
        ensures first { IfOk result (λ w. IfSome (D.told device).contents (λ _. Adopts catalog.files (world_of w))) }
        ensures fits { IfOk result (λ _. (fits geometry.now (D.told device) ≡ true) × (cataloged.fits geometry.now catalog ≡ true)) }
        ensures refused { IfErr result (λ e. e.0 ≡ (if fits geometry.now (D.told device) && cataloged.fits geometry.now catalog then Memory else BadConfig)) }
        ensures back { IfErr result (λ e. (e.1 ≡ catalog) × (e.2 ≡ device)) }
    {
        if device.block_size() != geometry.page()
            || device.blocks() != geometry.blocks()
            || !catalog.is_for(geometry)
        {
            return Err((Refusal::BadConfig, catalog, device));
        }
        let Ok(jobs) = Jobs::new(alloc) else {
            return Err((Refusal::Memory, catalog, device));
        };
        match CacheCore::over(alloc, geometry, name, catalog) {
            Ok(core) => Ok(World {
                core,
                jobs,
                device: Watched::over(device),
                spare: None,
                alloc,
            }),
            Err((refusal, catalog)) => Err((refusal, catalog, device)),
        }
    }

    /// Where a page stands on the device. Any page may be asked for. This is no event.
    pub fn block_of(&self, file: FileId, page: PageIndex) -> Result<Option<Placed>, Refusal>
        ensures { SpotIs self.now.core file.0 page.0 result }
    {
        self.core.block_of(file, page)
    }

    /// The files as they stand on the device, for a cache that begins later (`CacheCore::catalog`). This is no event.
    pub fn catalog(&self) -> Result<Catalog, Refusal>
        ensures told { IfOk result (λ c. Tells self.now.core c) }
        ensures refused { IsOkUnless result Refusal.Memory }
    {
        self.core.catalog()
    }
}
