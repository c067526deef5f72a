//! The bitmaps, in a marked array.
//!
//! Mark 0 of an entry says that its bitmap has room.
ghost use Rattle.std.specs.Prelude.{◌≡◌, ◌≢◌, ℕ, ◌<◌, ◌^◌, ◌↔◌, Some, None, MatchOption, OnOk, OnErr, IsOkUnless, IsSome};
ghost use Rattle.pc_types.specs.declared.refusal.Refusal.{Refusal};
ghost use Rattle.std.specs.FinMap as map;
ghost use Rattle.xarray.specs.MarkedArray.{entry_at, remarked};
ghost use Rattle.idalloc.specs.Bitmaps.{NoneOpen, IsLowestOpen, full};
ghost use Rattle.idalloc.specs.Marked.{AreMarked, bitmaps as bitmaps_of};

use crate::bits::FULL;
use pc_types::Refusal;
use std::alloc::Global;
use std::marker::Model;
use xarray::{Mark, XArray};

/// A bitmap for each index that has one.
#[derive(Drop)]
pub(crate) struct Bitmaps {
    array: XArray,
}

impl Model for Bitmaps {
    ghost use Rattle.std.specs.FinMap as map;
    ghost use Rattle.std.specs.Coded.{coded_ℕ};
    ghost use Rattle.idalloc.specs.Bitmaps.{Bitmaps as ByIndex};
    ghost use Rattle.idalloc.specs.Marked.{AreMarked, bitmaps};

    ghost Value = { ByIndex };

    ghost coded = { map.code coded_ℕ coded_ℕ };

    ghost view = { λ a. bitmaps a.array.ranges };

    ghost invariant = { λ a. AreMarked a.array.ranges };
}

impl Bitmaps {
    pub(crate) fn new(alloc: Global) -> Bitmaps
        ensures { result ≡ map.empty }
    {
        Bitmaps {
            array: XArray::new(alloc),
        }
    }

    /// The bitmap at an index.
    pub(crate) fn get(&self, index: u64) -> Option<u32>
        ensures { result ≡ map.get self.now index }
    {
        match self.array.load(index) {
            Some(bits) => Some(bits as u32),
            None => None,
        }
    }

    /// The lowest bitmap with room from `from` to `to`, with its index.
    pub(crate) fn lowest_open(&self, from: u64, to: u64) -> Option<(u64, u32)>
        ensures { MatchOption result (NoneOpen self.now from to) (λ r. IsLowestOpen self.now from to r.0 r.1) }
    {
        match self.array.find_marked(from, to, Mark::M0) {
            Some(found) => Some((found.first, found.value as u32)),
            None => None,
        }
    }

    /// Puts a bitmap with room where none is.
    pub(crate) fn insert(&mut self, index: u64, bits: u32) -> Result<(), Refusal>
        requires absent { map.get self.old index ≡ None }
        requires room { bits ≢ full }
        ensures ok { OnOk result (self.new ≡ map.insert self.old index bits) }
        ensures refused { OnErr result (self.new ≡ self.old) }
        ensures memory { IsOkUnless result Refusal.Memory }
    {
        add(&mut self.array, index, bits)
    }

    /// Changes the bitmap at an index. It takes no memory.
    pub(crate) fn replace(&mut self, index: u64, before: u32, bits: u32)
        requires { map.get self.old index ≡ Some before }
        ensures { self.new ≡ map.insert self.old index bits }
    {
        put(&mut self.array, index, before, bits);
    }

    /// Takes the bitmap at an index away.
    pub(crate) fn remove(&mut self, index: u64)
        ensures { self.new ≡ map.remove self.old index }
    {
        let _bits = self.array.erase(index);
    }

    /// How many nodes keep the bitmaps.
    pub(crate) fn nodes(&self) -> usize
        ensures empty { self.now ≡ map.empty ↔ result ≡ 0 }
        ensures fits { (index bits : ℕ) → map.get self.now index ≡ Some bits → bits < 2 ^ 32 }
    {
        self.array.nodes()
    }
}

fn add(array: &mut XArray, index: u64, bits: u32) -> Result<(), Refusal>
    requires marked { AreMarked array.old.ranges }
    requires absent { map.get (bitmaps_of array.old.ranges) index ≡ None }
    requires room { bits ≢ full }
    ensures marked { AreMarked array.new.ranges }
    ensures ok { OnOk result (bitmaps_of array.new.ranges ≡ map.insert (bitmaps_of array.old.ranges) index bits) }
    ensures refused { OnErr result (array.new.ranges ≡ array.old.ranges) }
    ensures memory { IsOkUnless result Refusal.Memory }
{
    array.insert(index, bits as u64)?;
    array.set_mark(index, Mark::M0).unwrap();
    Ok(())
}

fn put(array: &mut XArray, index: u64, before: u32, bits: u32)
    requires marked { AreMarked array.old.ranges }
    requires there { map.get (bitmaps_of array.old.ranges) index ≡ Some before }
    ensures marked { AreMarked array.new.ranges }
    ensures changed { bitmaps_of array.new.ranges ≡ map.insert (bitmaps_of array.old.ranges) index bits }
{
    let _before = array.store(index, bits as u64).unwrap();
    let has_room = bits != FULL;
    // Few changes touch the mark, so most cost one walk.
    if has_room != (before != FULL) {
        mark_room(array, index, has_room);
    }
}

fn mark_room(array: &mut XArray, index: u64, has_room: bool)
    requires { IsSome (entry_at array.old.ranges index) }
    ensures { array.new.ranges ≡ remarked array.old.ranges index Mark.M0 has_room }
{
    if has_room {
        array.set_mark(index, Mark::M0).unwrap();
    } else {
        array.clear_mark(index, Mark::M0);
    }
}
