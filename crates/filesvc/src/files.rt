//! A service over files that its device has already: how it begins, where its files stand, and how it ends.

ghost use Rattle.std.specs.Prelude.{◌≡◌, ◌&&◌, ◌⊎◌, ℕ, [], IfErr, IfOk, IfSome, IsOkUnless, OnErr, OnOk, true, if◌then◌else◌};
ghost use Rattle.pc_types.specs.declared.refusal.Refusal.TheVariants.{BadConfig, Memory};
ghost use Rattle.machine.specs.Catalogs.{IsCatalog};
ghost use Rattle.runs.specs.Restart.{IsClean};
ghost use Rattle.catalog.specs.Cataloged as cataloged;
ghost use Rattle.cachecore.specs.Standing.{SpotIs, Tells};
ghost use Rattle.world.specs.Stepping.{adopted_world, fits};
ghost use Rattle.filesvc.specs.Restarts.{Restarts};
ghost use Rattle.filesvc.specs.Service.{Faulted, Serves, errors_of};

use crate::solo::Solo;
use blockdev::BlockDevice;
use cachecore::{Placed, Reply};
use catalog::Catalog;
use errboard::Board;
use pc_types::{FileId, Geometry, PageIndex, Refusal};
use std::alloc::Global;
use world::World;

impl<D: BlockDevice> Solo<D> {
    /// A service over a device that has the catalog's files: file f of the catalog is file f of the service. It reads nothing. Refused by
    /// `BadConfig` where the device or the catalog has another block size or number of blocks than the geometry, and else by want of
    /// memory; both come back. Two services over one device at once are not two caches of it: each would hold the other's blocks for free.
    pub fn over(
        alloc: Global,
        geometry: &Geometry,
        name: u64,
        catalog: Catalog,
        device: D,
    ) -> Result<Solo<D>, (Refusal, Catalog, D)>
        ensures fresh { IfOk result (λ s. s.world ≡ adopted_world geometry.now name catalog.files (D.told device)) }
        ensures catalog { IfOk result (λ _. IsCatalog geometry.now catalog.files) }
        ensures fits { IfOk result (λ _. (fits geometry.now (D.told device) ≡ true) × (cataloged.fits geometry.now catalog ≡ true)) }
        ensures nothing { IfOk result (λ s. (f : ℕ) → errors_of s f ≡ []) }
        ensures refused { IfErr result (λ e. e.0 ≡ (if fits geometry.now (D.told device) && cataloged.fits geometry.now catalog then Memory else BadConfig)) }
        ensures back { IfErr result (λ e. (e.1 ≡ catalog) × (e.2 ≡ device)) }
    {
        if device.block_size() != geometry.page()
            || device.blocks() != geometry.blocks()
            || !catalog.is_for(geometry)
        {
            return Err((Refusal::BadConfig, catalog, device));
        }
        prove!(device.calls() <= u64::MAX);
        let Ok((_board, recorder)) = Board::new(alloc) else {
            return Err((Refusal::Memory, catalog, device));
        };
        let world = World::over(alloc, geometry, name, catalog, device)?;
        Ok(Solo {
            name,
            world,
            recorder,
            attempts: 0,
        })
    }

    /// Where a page of a file stands on the device, and how many bytes of the block are the page's: 0 as long as no write of it has ended
    /// well. `NoSuchFile`. Any page may be asked for.
    pub fn block_of(&self, file: FileId, page: PageIndex) -> Result<Option<Placed>, Refusal>
        ensures { SpotIs self.now.world.core file.0 page.0 result }
    {
        self.world.block_of(file, page)
    }

    /// The files as they stand on the device. A page whose block was never written well is a hole in it. After `sync_all` it is all that
    /// a service needs to begin with these files on the same device. Refused by `Memory`.
    pub fn catalog(&self) -> Result<Catalog, Refusal>
        ensures told { IfOk result (λ c. Tells self.now.world.core c) }
        ensures restarts { IfOk result (λ c. Restarts self.now c) }
        ensures refused { IsOkUnless result Refusal.Memory }
    {
        self.world.catalog()
    }

    /// Writes every dirty page of every file to the device, and has it make them durable, by one flush, where anything was written to it
    /// since it was last flushed well. Refused by `Io` where a write fails, or the flush after all writes. A failed write is recorded for its file, and each
    /// handle of the file is told of it as ever: by its next fsync, or by `poll_error`.
    pub fn sync_all(&mut self) -> Result<(), Refusal>
        ensures serves { Serves self.old self.new }
        ensures attempts { self.new.attempts ≡ self.old.attempts }
        ensures clean { OnOk result (IsClean self.new.world.core) }
        ensures durable { OnOk result (self.new.world.device.durable ≡ self.new.world.device.contents) }
        ensures refused { OnErr result (Faulted self.old self.new ⊎ (IsClean self.new.world.core × (self.new.world.unflushed ≡ true))) }
    {
        self.write_all()?;
        self.flush()
    }

    /// Flushes the device, where anything was written to it since it was last flushed well.
    fn flush(&mut self) -> Result<(), Refusal>
        ensures serves { Serves self.old self.new }
        ensures attempts { self.new.attempts ≡ self.old.attempts }
        ensures core { self.new.world.core ≡ self.old.world.core }
        ensures durable { OnOk result (self.new.world.device.durable ≡ self.new.world.device.contents) }
        ensures failed { OnErr result (self.new.world.unflushed ≡ true) }
    {
        match self.world.flush_written() {
            Ok(()) => Ok(()),
            Err(code) => Err(Refusal::Io(code)),
        }
    }

    /// Writes every dirty page of every file.
    fn write_all(&mut self) -> Result<(), Refusal>
        ensures serves { Serves self.old self.new }
        ensures attempts { self.new.attempts ≡ self.old.attempts }
        ensures clean { OnOk result (IsClean self.new.world.core) }
        ensures refused { OnErr result (Faulted self.old self.new) }
    {
        'pages: while let Some(file) = self.world.first_to_write() {
            match self.flush_file(file) {
                Reply::Written => {}
                Reply::Failed(code) => return Err(Refusal::Io(code)),
                Reply::Refused(refusal) => return Err(refusal),
                _ => return Err(Refusal::Busy),
            }
        }
        Ok(())
    }

    /// The device, with which nothing more is done. What was not synced is lost.
    pub fn into_device(self) -> D
        ensures { D.told result ≡ self.world.device }
    {
        self.world.into_device()
    }
}
