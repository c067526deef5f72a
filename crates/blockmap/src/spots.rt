//! Where the pages of files stand, in an array: the key is the file's number times 2^bits plus the page's, and the value is
//! the block's number times 2^13, plus how many of its bytes are the page's. The first page past 2^bits that gets a block
//! moves all entries under wider keys.
ghost use Rattle.std.specs.Prelude.{◌≡◌, ◌+◌, ◌*◌, ◌^◌, ◌<◌, ◌≤◌, Some, None, IfOk, IfSome, IfNone, OnOk, OnErr, IsOkUnless, IsSome, option_map};
ghost use Rattle.pc_types.specs.declared.refusal.Refusal.{Refusal};
ghost use Rattle.std.specs.FinMap as map;
ghost use Rattle.blockmap.specs.Keys.{AreSpots, IsFirstFrom, IsLeastWidth, IsPage, IsPageFrom, NoneFrom, spot_of, spots};
ghost use Rattle.blockmap.specs.Told.{told};

use crate::keys::Width;
use pc_types::limits::{MAX_FILE_SIZE, MAX_PAGE_SIZE, MIN_PAGE_SIZE};
use pc_types::{BlockNo, Refusal};
use std::alloc::Global;
use std::marker::Model;
use xarray::XArray;

/// The most pages of a file.
pub(crate) const MAX_PAGES: u64 = MAX_FILE_SIZE / MIN_PAGE_SIZE;

/// The numbers of valid bytes, 0 to a page's, lie below it.
const VALID_NUMBERS: u64 = 2 * MAX_PAGE_SIZE;

/// A page's block, and how many of its first bytes are the page's. Past them the page has zeros.
#[derive(Clone, Copy, PartialEq, Eq, Debug)]
pub struct Placed {
    pub block: BlockNo,
    pub valid: u32,
}

/// The block of each page that has one.
#[derive(Drop)]
pub(crate) struct Spots {
    array: XArray,
    // The keys' width. Each page that has a block lies below it.
    width: Width,
    // For the array that takes this one's place when the width grows.
    alloc: Global,
}

impl Model for Spots {
    ghost use Rattle.std.specs.FinMap as map;
    ghost use Rattle.pc_types.specs.Spots.{spot_code};
    ghost use Rattle.blockmap.specs.Blocks.{Spots as ByPlace, place_code};
    ghost use Rattle.blockmap.specs.Keys.{AreSpots, spots};

    ghost Value = { ByPlace };

    ghost coded = { map.code place_code spot_code };

    ghost view = { λ a. spots a.width.bits a.array.ranges };

    ghost invariant = { λ a. AreSpots a.width.bits a.array.ranges };
}

impl Spots {
    pub(crate) fn new(alloc: Global) -> Spots
        ensures { result ≡ map.empty }
    {
        Spots {
            array: XArray::new(alloc),
            width: Width::least(),
            alloc,
        }
    }

    pub(crate) fn get(&self, file: u64, page: u64) -> Option<Placed>
        requires { IsPage file page }
        ensures { result ≡ option_map told (map.get self.now (file, page)) }
    {
        if !self.width.has_key(page) {
            return None;
        }
        match self.array.load(self.width.key(file, page)) {
            Some(word) => Some(placed_of(word)),
            None => None,
        }
    }

    /// A page without a block gets one. Where it lies past the width, all entries move under wider keys first.
    pub(crate) fn add(&mut self, file: u64, page: u64, placed: Placed) -> Result<(), Refusal>
        requires page { IsPage file page }
        requires valid { placed.valid ≤ 4096 }
        requires absent { map.get self.old (file, page) ≡ None }
        ensures ok { OnOk result (self.new ≡ map.insert self.old (file, page) (record { block = placed.block.0; valid = placed.valid })) }
        ensures refused { OnErr result (self.new ≡ self.old) }
        ensures memory { IsOkUnless result Refusal.Memory }
    {
        make_room(&mut self.array, &mut self.width, page, self.alloc)?;
        self.array
            .insert(self.width.key(file, page), word_of(placed))
    }

    /// A page that has a block has this one.
    pub(crate) fn set(&mut self, file: u64, page: u64, placed: Placed)
        requires page { IsPage file page }
        requires valid { placed.valid ≤ 4096 }
        requires some { IsSome (map.get self.old (file, page)) }
        ensures { self.new ≡ map.insert self.old (file, page) (record { block = placed.block.0; valid = placed.valid }) }
    {
        let key = self.width.key(file, page);
        let _before = self.array.store(key, word_of(placed)).unwrap();
    }

    /// A page has no block any more. Answers the one that it had.
    pub(crate) fn remove(&mut self, file: u64, page: u64) -> Option<Placed>
        requires { IsPage file page }
        ensures had { result ≡ option_map told (map.get self.old (file, page)) }
        ensures gone { self.new ≡ map.remove self.old (file, page) }
    {
        if !self.width.has_key(page) {
            return None;
        }
        let Some(word) = self.array.erase(self.width.key(file, page)) else {
            return None;
        };
        Some(placed_of(word))
    }

    /// The file's first page that has a block, at this page or after it, and the block.
    pub(crate) fn next(&self, file: u64, from: u64) -> Option<(u64, Placed)>
        requires file { file < 64 }
        requires from { from ≤ 2 ^ 36 }
        ensures found { IfSome result (λ found. IsFirstFrom self.now file from found.0) }
        ensures spot { IfSome result (λ found. Some found.1 ≡ option_map told (map.get self.now (file, found.0))) }
        ensures none { IfNone result (NoneFrom self.now file from) }
    {
        let width = self.width;
        if !width.has_key(from) {
            return None;
        }
        let last = width.key(file, width.pages() - 1);
        match self.array.find(width.key(file, from), last) {
            Some(found) => {
                let (_, page) = width.place(found.first);
                Some((page, placed_of(found.value)))
            }
            None => None,
        }
    }

    /// A page of the file that has a block, at this page or after it.
    pub(crate) fn page_from(&self, file: u64, from: u64) -> Option<u64>
        requires file { file < 64 }
        requires from { from ≤ 2 ^ 36 }
        ensures found { IfSome result (λ page. IsPageFrom self.now file from page) }
        ensures none { IfNone result (NoneFrom self.now file from) }
    {
        match self.next(file, from) {
            Some((page, _)) => Some(page),
            None => None,
        }
    }
}

/// Makes room for a page in the keys: all entries move under wider ones, where it lies past the width.
fn make_room(array: &mut XArray, width: &mut Width, page: u64, alloc: Global) -> Result<(), Refusal>
    requires are { AreSpots width.old.bits array.old.ranges }
    requires page { page < 2 ^ 36 }
    ensures room { OnOk result (page < 2 ^ width.new.bits) }
    ensures least { 2 ^ width.old.bits ≤ page → OnOk result (IsLeastWidth width.new.bits page) }
    ensures kept { page < 2 ^ width.old.bits → (array.new ≡ array.old) × (width.new.bits ≡ width.old.bits) }
    ensures are { AreSpots width.new.bits array.new.ranges }
    ensures same { spots width.new.bits array.new.ranges ≡ spots width.old.bits array.old.ranges }
    ensures refused { OnErr result ((array.new ≡ array.old) × (width.new.bits ≡ width.old.bits)) }
    ensures memory { IsOkUnless result Refusal.Memory }
{
    if width.has_key(page) {
        return Ok(());
    }
    let wider = Width::for_page(page);
    *array = rekeyed(array, *width, wider, alloc)?;
    *width = wider;
    Ok(())
}

/// A fresh array with the same blocks under keys of a greater width.
///
/// It runs where a page past the width gets a block. The width only grows, from 18 bits to 36 in steps of six, so it runs three
/// times at most over the life of a map. It costs a walk over the array and a store of each entry, and both arrays stand until
/// it ends. A step is six bits since a level of the tree takes as many: with a width between two steps the tree would be as
/// high as with the greater one.
fn rekeyed(array: &XArray, from: Width, to: Width, alloc: Global) -> Result<XArray, Refusal>
    requires are { AreSpots from.bits array.now.ranges }
    requires wider { 2 ^ from.bits ≤ 2 ^ to.bits }
    ensures are { IfOk result (λ wide. AreSpots to.bits wide.ranges) }
    ensures same { IfOk result (λ wide. spots to.bits wide.ranges ≡ spots from.bits array.now.ranges) }
    ensures memory { IsOkUnless result Refusal.Memory }
{
    let mut wide = XArray::new(alloc);
    for found in array.entries(0, u64::MAX) {
        let (file, page) = from.place(found.first);
        wide.store(to.key(file, page), found.value)?;
    }
    Ok(wide)
}

fn word_of(placed: Placed) -> u64
    requires { placed.valid ≤ 4096 }
    ensures is { result ≡ placed.block.0 * 8192 + placed.valid }
    ensures fits { result < 2 ^ 45 }
{
    placed.block.0 as u64 * VALID_NUMBERS + placed.valid as u64
}

fn placed_of(word: u64) -> Placed
    requires { word < 2 ^ 45 }
    ensures { result ≡ told (spot_of word) }
{
    Placed {
        block: BlockNo((word / VALID_NUMBERS) as u32),
        valid: (word % VALID_NUMBERS) as u32,
    }
}
