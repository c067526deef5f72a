//! Files, and where their pages stand.

ghost use Rattle.std.specs.Prelude.{◌≡◌, ◌↔◌, ◌+◌, ◌*◌, ◌<◌, ◌≤◌, ◌^◌, ◌⊎◌, ◌++◌, ◌∷◌, [], nat_le, IfErr, IfOk, IfSome, IfNone, OnOk, OnErr, None, Some, Err, length, option_map, true};
ghost use Rattle.std.specs.FinMap as map;
ghost use Rattle.pc_types.specs.declared.limits.TheConstants.{MAX_FILES, MAX_FILE_SIZE, MAX_PAGE_SIZE};
ghost use Rattle.blockmap.specs.Blocks.{IsTaken};
ghost use Rattle.blockmap.specs.Keys.{IsPage, NoneFrom};
ghost use Rattle.blockmap.specs.Told.{told};
ghost use Rattle.machine.specs.Catalogs.{no_catalog, size_in};
ghost use Rattle.machine.specs.State.{page_count};
ghost use Rattle.catalog.specs.Cataloged.{IsFor, fits};
ghost use Rattle.catalog.specs.Extents.{Added, IsNext, is_any_mapped, misfit, spot_number};
ghost use Rattle.catalog.specs.Rows.{Adopts, HasRoom, IsRow, SameBefore, valid_on};
ghost use Rattle.catalog.specs.declared.extent.Misfit.{Misfit};

use crate::extent::{Extent, Misfit};
use blockmap::{BlockMap, Placed};
use pc_types::limits::{LAST_PAGE, MAX_FILE_SIZE, MAX_FILES};
use pc_types::{BlockNo, FileId, Geometry, PageIndex, Refusal};
use std::alloc::Global;
use std::marker::Model;

/// The files of a device: their sizes, and where their pages stand.
#[derive(Drop)]
pub struct Catalog {
    page: u64,
    count: u64,
    sizes: Vec<u64>,
    blocks: BlockMap,
}

impl Model for Catalog {
    ghost use Rattle.catalog.specs.Cataloged.{Cataloged, cataloged_code};
    ghost use Rattle.catalog.specs.Kept.{IsKept, cataloged};

    ghost Value = { Cataloged };

    ghost coded = { cataloged_code };

    ghost view = { λ c. cataloged c.page c.count c.sizes.items c.blocks };

    ghost invariant = { λ c. IsKept c.page c.count c.sizes.items c.blocks };
}

impl Catalog {
    /// A catalog without files, for devices of this block size and this number of blocks. Frames and dirty limit don't matter.
    pub fn new(alloc: Global, geometry: &Geometry) -> Catalog
        ensures { result ≡ record { page = geometry.now.page; blocks = geometry.now.blocks; files = no_catalog } }
    {
        Catalog {
            page: geometry.page(),
            count: geometry.blocks(),
            sizes: Vec::new(alloc),
            blocks: BlockMap::new(alloc, geometry.blocks()),
        }
    }

    /// Whether it is for devices of this geometry. It also tells what is always so.
    pub fn is_for(&self, geometry: &Geometry) -> bool
        ensures fits { result ≡ fits geometry.now self.now }
        ensures always { IsFor self.now geometry.now }
    {
        self.page == geometry.page() && self.count == geometry.blocks()
    }

    pub fn file_count(&self) -> u64
        ensures { result ≡ length self.now.files.sizes }
    {
        self.sizes.len() as u64
    }

    /// Bytes of a file, and 0 where no file has the number.
    pub fn size(&self, file: FileId) -> u64
        ensures { result ≡ size_in self.now.files file.0 }
    {
        self.sizes.get(file.0 as usize).copied().unwrap_or(0)
    }

    /// The next file has so many bytes, all of which are holes as long as it has no extent. `TooManyFiles`, `TooLarge`, `Memory`.
    pub fn add_file(&mut self, size: u64) -> Result<FileId, Misfit>
        ensures number { IfOk result (λ file. file.0 ≡ length self.old.files.sizes) }
        ensures added { OnOk result (self.new ≡ record self.old { files = record self.old.files { sizes = self.old.files.sizes ++ size ∷ [] } }) }
        ensures fits { OnOk result (size ≤ MAX_FILE_SIZE) }
        ensures many { result ≡ Err Misfit.TooManyFiles ↔ MAX_FILES ≤ length self.old.files.sizes }
        ensures refused { OnErr result (self.new ≡ self.old) }
        ensures only { IfErr result (λ why. (why ≡ Misfit.Memory) ⊎ ((why ≡ Misfit.TooManyFiles) ⊎ ((why ≡ Misfit.TooLarge) × (MAX_FILE_SIZE < size)))) }
    {
        let number = self.sizes.len() as u64;
        if number >= MAX_FILES {
            return Err(Misfit::TooManyFiles);
        }
        if size > MAX_FILE_SIZE {
            return Err(Misfit::TooLarge);
        }
        match self.sizes.push(size) {
            Ok(()) => Ok(FileId(number)),
            Err(_) => Err(Misfit::Memory),
        }
    }

    /// The file's next extent: behind those that it has. It is taken whole or not at all.
    pub fn add_extent(&mut self, file: FileId, extent: Extent) -> Result<(), Misfit>
        ensures added { OnOk result (Added self.old self.new file.0 extent) }
        ensures fits { OnOk result (misfit self.old file.0 extent ≡ None) }
        ensures refused { OnErr result (self.new ≡ self.old) }
        ensures why { IfErr result (λ why. (why ≡ Misfit.Memory) ⊎ (misfit self.old file.0 extent ≡ Some why)) }
    {
        self.check(file, extent)?;
        self.adopt_all(file, extent)
    }

    /// All reasons not to take an extent but that a block of it is a page's.
    fn check(&self, file: FileId, extent: Extent) -> Result<(), Misfit>
        ensures room { OnOk result (HasRoom self.now file.0 extent) }
        ensures why { IfErr result (λ why. misfit self.now file.0 extent ≡ Some why) }
    {
        if file.0 >= self.file_count() {
            return Err(Misfit::NoSuchFile);
        }
        if extent.bytes == 0 {
            return Err(Misfit::Empty);
        }
        if !is_within(self.size(file), self.page, extent) {
            return Err(Misfit::PastSize);
        }
        if self.blocks.next(file, extent.first).is_some() {
            return Err(Misfit::OutOfOrder);
        }
        if self.count < u64::from(extent.block.0) + page_count(self.page, extent.bytes) {
            return Err(Misfit::PastDevice);
        }
        Ok(())
    }

    /// The extent's pages get their blocks, all or none.
    fn adopt_all(&mut self, file: FileId, extent: Extent) -> Result<(), Misfit>
        requires { HasRoom self.old file.0 extent }
        ensures added { OnOk result (Added self.old self.new file.0 extent) }
        ensures fits { OnOk result (misfit self.old file.0 extent ≡ None) }
        ensures refused { OnErr result (self.new ≡ self.old) }
        ensures why { IfErr result (λ why. (why ≡ Misfit.Memory) ⊎ (misfit self.old file.0 extent ≡ Some why)) }
    {
        if let Err(why) = adopt_pages(&mut self.blocks, self.page, file, extent) {
            self.blocks.cut_from(file, extent.first);
            return Err(why);
        }
        Ok(())
    }

    /// The file's first extent, from this page on, as long as it can be. None past the last one.
    pub fn next_extent(&self, file: FileId, from: PageIndex) -> Option<Extent>
        ensures found { IfSome result (λ extent. IsNext self.now file.0 from.0 extent) }
        ensures none { IfNone result (NoneFrom self.now.files.spots file.0 from.0) }
    {
        let blocks = &self.blocks;
        if file.0 >= MAX_FILES || from.0 > LAST_PAGE {
            return None;
        }
        let Some((first, placed)) = blocks.next(file, from) else {
            return None;
        };
        let (whole, rest) = self.row(file, first, placed);
        Some(Extent {
            first,
            block: placed.block,
            bytes: whole * self.page + rest,
        })
    }

    /// How many whole pages stand side by side from this one on, and how many bytes of the next page stand behind them, 0 where none do.
    fn row(&self, file: FileId, first: PageIndex, placed: Placed) -> (u64, u64)
        requires file { file.0 < MAX_FILES }
        requires there { Some placed ≡ option_map told (map.get self.now.files.spots (file.0, first.0)) }
        ensures row { IsRow self.now.page self.now.files.spots file.0 first.0 placed.block.0 result.0 result.1 }
        ensures ends { result.1 < self.now.page }
    {
        let block = u64::from(placed.block.0);
        let mut whole = 0;
        let mut rest = u64::from(placed.valid);
        while rest == self.page {
            whole += 1;
            rest = self.valid_on(file, first.0 + whole, block + whole);
        }
        (whole, rest)
    }

    /// How many bytes of a page are valid, if it stands on this block, and 0 where it doesn't.
    fn valid_on(&self, file: FileId, page: u64, block: u64) -> u64
        requires { file.0 < MAX_FILES }
        ensures { result ≡ valid_on block (map.get self.now.files.spots (file.0, page)) }
    {
        let blocks = &self.blocks;
        if page > LAST_PAGE {
            return 0;
        }
        match blocks.map(file, PageIndex(page)) {
            Some(placed) if u64::from(placed.block.0) == block => u64::from(placed.valid),
            _ => 0,
        }
    }

    /// The map of the device's blocks, with which a cache begins.
    pub fn into_blocks(self) -> BlockMap
        ensures { result ≡ record { count = self.blocks; spots = self.files.spots; held = map.empty } }
    {
        self.blocks
    }
}

/// How many pages so many bytes have.
fn page_count(page: u64, bytes: u64) -> u64
    requires some { 0 < page }
    requires most { page ≤ MAX_PAGE_SIZE }
    requires bytes { bytes ≤ MAX_FILE_SIZE }
    ensures { result ≡ page_count page bytes }
{
    (bytes + (page - 1)) / page
}

/// Whether an extent ends within a file of this size.
fn is_within(size: u64, page: u64, extent: Extent) -> bool
    requires { 0 < page }
    ensures { result ≡ nat_le (extent.first.0 * page + extent.bytes) size }
{
    extent.bytes <= size && extent.first.0 <= (size - extent.bytes) / page
}

/// The extent's pages get their blocks, one after the other, up to the first that can't.
fn adopt_pages(blocks: &mut BlockMap, page: u64, file: FileId, extent: Extent) -> Result<(), Misfit>
    requires page { (0 < page) × (page ≤ MAX_PAGE_SIZE) }
    requires file { file.0 < MAX_FILES }
    requires bytes { extent.bytes ≤ MAX_FILE_SIZE }
    requires pages { extent.first.0 + page_count page extent.bytes ≤ 2 ^ 36 }
    requires last { NoneFrom blocks.old.spots file.0 extent.first.0 }
    requires on_device { extent.block.0 + page_count page extent.bytes ≤ blocks.old.count }
    requires small { blocks.old.count ≤ 2 ^ 32 }
    requires not_held { blocks.old.held ≡ map.empty }
    ensures all { OnOk result (Adopts page blocks.old blocks.new file.0 extent (page_count page extent.bytes)) }
    ensures some { OnErr result (SameBefore blocks.old blocks.new file.0 extent.first.0) }
    ensures why { IfErr result (λ why. (why ≡ Misfit.Memory) ⊎ ((why ≡ Misfit.BlockTwice) × (is_any_mapped blocks.old.spots extent.block.0 (page_count page extent.bytes) ≡ true))) }
{
    for number in 0..page_count(page, extent.bytes) {
        adopt_page(blocks, page, file, extent, number)?;
    }
    Ok(())
}

/// The extent's page of this number, counted from its first, gets its block.
fn adopt_page(
    blocks: &mut BlockMap,
    page: u64,
    file: FileId,
    extent: Extent,
    number: u64,
) -> Result<(), Misfit>
    requires most { page ≤ MAX_PAGE_SIZE }
    requires inside { number * page < extent.bytes }
    requires page { IsPage file.0 (extent.first.0 + number) }
    requires block { extent.block.0 + number < 2 ^ 32 }
    requires bare { map.get blocks.old.spots (file.0, extent.first.0 + number) ≡ None }
    ensures given { OnOk result (blocks.new ≡ record blocks.old { spots = map.insert blocks.old.spots (file.0, extent.first.0 + number) (spot_number page extent number) }) }
    ensures free { OnOk result (IsTaken blocks.old (extent.block.0 + number) → ⊥) }
    ensures refused { OnErr result (blocks.new ≡ blocks.old) }
    ensures why { IfErr result (λ why. (why ≡ Misfit.Memory) ⊎ ((why ≡ Misfit.BlockTwice) × IsTaken blocks.old (extent.block.0 + number))) }
{
    let index = PageIndex(extent.first.0 + number);
    let block = BlockNo(extent.block.0 + number as u32);
    let valid = page.min(extent.bytes - number * page);
    match blocks.adopt(file, index, block, valid as u32) {
        Ok(()) => Ok(()),
        Err(Refusal::NoSpace) => Err(Misfit::BlockTwice),
        Err(_) => Err(Misfit::Memory),
    }
}
