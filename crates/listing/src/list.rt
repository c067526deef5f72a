//! Files that a device has already, as a program lists them.

ghost use Rattle.std.specs.Prelude.{◌≡◌, ◌≤◌, ◌⊎◌, ◌^◌, [], Some, IfErr, IfNone, IfOk, IfSome, OnErr, OnOk};
ghost use Rattle.std.specs.FinMap as map;
ghost use Rattle.machine.specs.Catalogs.{no_catalog};
ghost use Rattle.catalog.specs.Extents.{Added, misfit};
ghost use Rattle.catalog.specs.declared.extent.Misfit.TheVariants as why;
ghost use Rattle.listing.specs.Listing.{IsUnfit, Lists, extent_of};

use catalog::{Catalog, Extent, Misfit};
use pc_types::{BlockNo, FileId, Geometry, PageIndex};
use std::alloc::Global;

/// Pages of a file that stand side by side on a device.
#[repr(C)]
#[derive(Clone, Copy, PartialEq, Eq, Debug)]
pub struct FileExtent {
    /// The file's place in the list of files.
    pub file: u64,
    /// The first page.
    pub first: u64,
    /// The first page's block.
    pub block: u64,
    /// How many bytes, from the first block's first byte on.
    pub bytes: u64,
}

/// What of a list a catalog doesn't take, and why.
#[derive(Clone, Copy, PartialEq, Eq, Debug)]
pub enum Unfit {
    /// The file at this place, by its size.
    File(u64, Misfit),
    /// The extent at this place.
    Extent(u64, Misfit),
}

impl FileExtent {
    /// The extent as a catalog takes it. None where no device has the block.
    fn whole(&self) -> Option<Extent>
        ensures some { IfSome result (λ e. e ≡ extent_of self.now) }
        ensures none { IfNone result (2 ^ 32 ≤ self.now.block) }
    {
        let block = BlockNo(u32::try_from(self.block).ok()?);
        Some(Extent {
            first: PageIndex(self.first),
            block,
            bytes: self.bytes,
        })
    }
}

/// A catalog of files with these sizes and extents, for devices of this geometry.
pub fn catalog_of(
    alloc: Global,
    geometry: &Geometry,
    sizes: &[u64],
    extents: &[FileExtent],
) -> Result<Catalog, Unfit>
    ensures geometry { IfOk result (λ c. (c.page ≡ geometry.now.page) × (c.blocks ≡ geometry.now.blocks)) }
    ensures lists { IfOk result (Lists sizes.now extents.now) }
    ensures refused { IfErr result (IsUnfit sizes.now extents.now) }
{
    let mut catalog = Catalog::new(alloc, geometry);
    add_files(&mut catalog, sizes)?;
    add_extents(&mut catalog, extents)?;
    Ok(catalog)
}

/// Files of these sizes, for a catalog without files.
fn add_files(catalog: &mut Catalog, sizes: &[u64]) -> Result<(), Unfit>
    requires { catalog.old.files ≡ no_catalog }
    ensures geometry { (catalog.new.page ≡ catalog.old.page) × (catalog.new.blocks ≡ catalog.old.blocks) }
    ensures files { OnOk result (catalog.new.files ≡ record no_catalog { sizes = sizes.now }) }
    ensures refused { IfErr result (IsUnfit sizes.now []) }
{
    for (place, size) in sizes.iter().enumerate() {
        if let Err(why) = catalog.add_file(*size) {
            return Err(Unfit::File(place as u64, why));
        }
    }
    Ok(())
}

/// Extents of the files, none of which has one.
fn add_extents(catalog: &mut Catalog, extents: &[FileExtent]) -> Result<(), Unfit>
    requires { catalog.old.files.spots ≡ map.empty }
    ensures geometry { (catalog.new.page ≡ catalog.old.page) × (catalog.new.blocks ≡ catalog.old.blocks) }
    ensures lists { OnOk result (Lists catalog.old.files.sizes extents.now catalog.new) }
    ensures refused { IfErr result (IsUnfit catalog.old.files.sizes extents.now) }
{
    for (place, extent) in extents.iter().enumerate() {
        if let Err(why) = add_extent(catalog, extent) {
            return Err(Unfit::Extent(place as u64, why));
        }
    }
    Ok(())
}

fn add_extent(catalog: &mut Catalog, extent: &FileExtent) -> Result<(), Misfit>
    ensures added { OnOk result (Added catalog.old catalog.new extent.now.file (extent_of extent.now)) }
    ensures refused { OnErr result (catalog.new ≡ catalog.old) }
    ensures why { IfErr result (λ r. (r ≡ why.Memory) ⊎ (((r ≡ why.PastDevice) × (2 ^ 32 ≤ extent.now.block)) ⊎ (misfit catalog.old extent.now.file (extent_of extent.now) ≡ Some r))) }
{
    let Some(whole) = extent.whole() else {
        return Err(Misfit::PastDevice);
    };
    catalog.add_extent(FileId(extent.file), whole)
}
