//! The map as its caller sees it.
ghost use Rattle.std.specs.Prelude.{◌≡◌, ℕ, ◌<◌, ◌≤◌, ◌^◌, ◌↔◌, true, false, is_some, Some, None, Err, length, IfOk, IfErr, IfSome, OnOk, OnErr, IsOkUnless, IsSome, IfNone, ◌-◌, option_map};
ghost use Rattle.std.specs.FinMap as map;
ghost use Rattle.pc_types.specs.declared.refusal.Refusal.{Refusal};
ghost use Rattle.blockmap.specs.Balance.{IsUsedOrPast};
ghost use Rattle.blockmap.specs.Blocks.{AllTaken, CutsFrom, IsBlockMap, IsLowestFree, IsNoSpaceOrMemory, IsTaken, free_blocks, cut_one, is_mapped, with_valid};
ghost use Rattle.std.specs.FinSet as set;
ghost use Rattle.idalloc.specs.Ids.{AllUsed, IsLowestUnused};
ghost use Rattle.blockmap.specs.Keys.{IsFirstFrom, IsPage, IsPageFrom, NoneFrom};
ghost use Rattle.blockmap.specs.Told.{told};

use crate::held::HeldBlocks;
use crate::spots::{MAX_PAGES, Placed, Spots};
use idalloc::IdAlloc;
use pc_types::{BlockNo, FileId, PageIndex, Refusal};
use std::alloc::Global;
use std::marker::Model;

/// The blocks of a device: which page has which, and which are held.
#[derive(Drop)]
pub struct BlockMap {
    count: u64,
    free: u64,
    spots: Spots,
    used: IdAlloc,
    held: HeldBlocks,
}

impl Model for BlockMap {
    ghost use Rattle.blockmap.specs.Balance.{IsBalanced};
    ghost use Rattle.blockmap.specs.Blocks.{Blocks, blocks_code};

    ghost Value = { Blocks };

    ghost coded = { blocks_code };

    ghost view = { λ a. record { count = a.count; spots = a.spots; held = a.held } };

    ghost invariant = { λ a. IsBalanced a.count a.free a.spots a.used.used a.held };
}

impl BlockMap {
    /// Every block is free.
    pub fn new(alloc: Global, blocks: u64) -> BlockMap
        requires some { 0 < blocks }
        requires limit { blocks ≤ 2 ^ 32 }
        ensures { result ≡ record { count = blocks; spots = map.empty; held = map.empty } }
    {
        BlockMap {
            count: blocks,
            free: blocks,
            spots: Spots::new(alloc),
            used: IdAlloc::new(alloc),
            held: HeldBlocks::new(),
        }
    }

    /// The block of a page.
    pub fn map(&self, file: FileId, page: PageIndex) -> Option<Placed>
        requires { IsPage file.0 page.0 }
        ensures { result ≡ option_map told (map.get self.now.spots (file.0, page.0)) }
    {
        self.spots.get(file.0, page.0)
    }

    /// The file's first page that has a block, at this page or after it, and the block.
    pub fn next(&self, file: FileId, from: PageIndex) -> Option<(PageIndex, Placed)>
        requires file { file.0 < 64 }
        requires from { from.0 ≤ 2 ^ 36 }
        ensures found { IfSome result (λ found. IsFirstFrom self.now.spots file.0 from.0 found.0.0) }
        ensures spot { IfSome result (λ found. Some found.1 ≡ option_map told (map.get self.now.spots (file.0, found.0.0))) }
        ensures none { IfNone result (NoneFrom self.now.spots file.0 from.0) }
    {
        match self.spots.next(file.0, from.0) {
            Some((page, placed)) => Some((PageIndex(page), placed)),
            None => None,
        }
    }

    /// How many blocks are free. It also tells what is always so.
    pub fn free_count(&self) -> u64
        ensures count { result ≡ length (free_blocks self.now) }
        ensures always { IsBlockMap self.now }
    {
        self.free
    }

    /// Whether a block is held.
    pub fn is_held(&self, block: BlockNo) -> bool
        ensures { result ≡ map.contains_key self.now.held block.0 }
    {
        self.held.get(block.0).is_some()
    }

    /// How many blocks are held.
    pub fn held_count(&self) -> usize
        ensures { result ≡ map.len self.now.held }
    {
        self.held.len()
    }

    /// A page without a block gets the lowest free one, of which no byte is the page's yet. `NoSpace`: no block is free.
    pub fn assign(&mut self, file: FileId, page: PageIndex) -> Result<BlockNo, Refusal>
        requires page { IsPage file.0 page.0 }
        requires bare { map.get self.old.spots (file.0, page.0) ≡ None }
        ensures lowest { IfOk result (λ block. IsLowestFree self.old block.0) }
        ensures given { IfOk result (λ block. self.new ≡ record self.old { spots = map.insert self.old.spots (file.0, page.0) (record { block = block.0; valid = 0 }) }) }
        ensures none { result ≡ Err Refusal.NoSpace ↔ AllTaken self.old }
        ensures refused { OnErr result (self.new ≡ self.old) }
        ensures only { IfErr result IsNoSpaceOrMemory }
    {
        let block = lowest_block(&mut self.used, self.count)?;
        let placed = Placed {
            block: BlockNo(block),
            valid: 0,
        };
        place(&mut self.spots, &mut self.used, file.0, page.0, placed)?;
        self.free -= 1;
        Ok(BlockNo(block))
    }

    /// A page without a block gets this one, of which so many bytes are the page's: it stands there already. `NoSpace`: the block
    /// is not free, or none of the device's.
    pub fn adopt(
        &mut self,
        file: FileId,
        page: PageIndex,
        block: BlockNo,
        valid: u32,
    ) -> Result<(), Refusal>
        requires page { IsPage file.0 page.0 }
        requires bare { map.get self.old.spots (file.0, page.0) ≡ None }
        requires valid { valid ≤ 4096 }
        ensures given { OnOk result (self.new ≡ record self.old { spots = map.insert self.old.spots (file.0, page.0) (record { block = block.0; valid = valid }) }) }
        ensures none { result ≡ Err Refusal.NoSpace ↔ IsTaken self.old block.0 }
        ensures refused { OnErr result (self.new ≡ self.old) }
        ensures only { IfErr result IsNoSpaceOrMemory }
    {
        use_block(&mut self.used, self.count, block.0)?;
        let placed = Placed { block, valid };
        place(&mut self.spots, &mut self.used, file.0, page.0, placed)?;
        self.free -= 1;
        Ok(())
    }

    /// A page's block, of which no byte is the page's and which is not held, is free again. `NoEntry`: the page has none. It takes no memory.
    pub fn unassign(&mut self, file: FileId, page: PageIndex) -> Result<(), Refusal>
        requires page { IsPage file.0 page.0 }
        requires unwritten { IfSome (map.get self.old.spots (file.0, page.0)) (λ spot. spot.valid ≡ 0) }
        requires not_held { IfSome (map.get self.old.spots (file.0, page.0)) (λ spot. map.get self.old.held spot.block ≡ None) }
        ensures freed { OnOk result (self.new ≡ record self.old { spots = map.remove self.old.spots (file.0, page.0) }) }
        ensures none { result ≡ Err Refusal.NoEntry ↔ map.get self.old.spots (file.0, page.0) ≡ None }
        ensures refused { OnErr result (self.new ≡ self.old) }
        ensures only { IsOkUnless result Refusal.NoEntry }
    {
        let Some(placed) = self.spots.get(file.0, page.0) else {
            return Err(Refusal::NoEntry);
        };
        self.spots.remove(file.0, page.0);
        give_back(&mut self.used, placed.block.0);
        self.free += 1;
        Ok(())
    }

    /// So many bytes of the page's block are the page's: a write of the page there has ended well. Nothing, where the page has no block.
    /// Nothing is stored, where it was so before.
    pub fn set_valid(&mut self, file: FileId, page: PageIndex, valid: u32)
        requires page { IsPage file.0 page.0 }
        requires valid { valid ≤ 4096 }
        ensures { self.new ≡ record self.old { spots = with_valid valid (map.get self.old.spots (file.0, page.0)) (file.0, page.0) self.old.spots } }
    {
        let Some(placed) = self.spots.get(file.0, page.0) else {
            return;
        };
        if placed.valid == valid {
            return;
        }
        let block = placed.block;
        self.spots.set(file.0, page.0, Placed { block, valid });
    }

    /// A block that a page has is held: a request on it is in flight.
    pub fn hold(&mut self, block: BlockNo)
        requires mapped { is_mapped self.old.spots block.0 ≡ true }
        requires not_held { map.get self.old.held block.0 ≡ None }
        requires room { map.len self.old.held < 64 }
        ensures { self.new ≡ record self.old { held = map.insert self.old.held block.0 false } }
    {
        self.held.add(block.0, false);
    }

    /// A block is held no longer. It is free, if it was cut.
    pub fn release(&mut self, block: BlockNo)
        requires { IsSome (map.get self.old.held block.0) }
        ensures { self.new ≡ record self.old { held = map.remove self.old.held block.0 } }
    {
        let Some(was_cut) = self.held.get(block.0) else {
            return;
        };
        self.held.remove(block.0);
        if !was_cut {
            return;
        }
        give_back(&mut self.used, block.0);
        self.free += 1;
    }

    /// The pages of a file from this one on have no block any more. Their blocks are free, but for those that are held:
    /// these are cut, and become free at their release.
    pub fn cut_from(&mut self, file: FileId, page: PageIndex)
        requires file { file.0 < 64 }
        requires page { page.0 ≤ 2 ^ 36 }
        ensures { CutsFrom self.old self.new file.0 page.0 }
    {
        let mut guess = page.0;
        while let Some(cut) = self.cut_next(file.0, page.0, guess) {
            guess = cut + 1;
        }
    }

    /// One page of the file at `from` or after it has no block any more, and the call answers which. The page at the guess is
    /// tried without a search, since the pages of a file mostly stand side by side.
    fn cut_next(&mut self, file: u64, from: u64, guess: u64) -> Option<u64>
        requires file { file < 64 }
        requires from { from ≤ guess }
        requires guess { guess ≤ 2 ^ 36 }
        ensures found { IfSome result (λ page. IsPageFrom self.old.spots file from page) }
        ensures cut { IfSome result (λ page. self.new ≡ cut_one self.old (file, page)) }
        ensures none { IfNone result (NoneFrom self.old.spots file from) }
        ensures same { IfNone result (self.new ≡ self.old) }
    {
        if self.cut_guess(file, guess) {
            return Some(guess);
        }
        let Some(page) = self.page_from(file, from, guess) else {
            return None;
        };
        self.cut_page(file, page);
        Some(page)
    }

    /// The page at the guess has no block any more. Answers whether it had one; where it had none, nothing is done.
    fn cut_guess(&mut self, file: u64, guess: u64) -> bool
        requires file { file < 64 }
        requires guess { guess ≤ 2 ^ 36 }
        ensures had { result ≡ true → (guess < 2 ^ 36) × (is_some (map.get self.old.spots (file, guess)) ≡ true) }
        ensures cut { result ≡ true → self.new ≡ cut_one self.old (file, guess) }
        ensures same { result ≡ false → self.new ≡ self.old }
    {
        if guess == MAX_PAGES {
            return false;
        }
        self.cut_page(file, guess)
    }

    /// A page of the file that has a block, at this page or after it. It is looked for from the guess on first, since a search
    /// costs least where the page before was cut.
    fn page_from(&self, file: u64, from: u64, guess: u64) -> Option<u64>
        requires file { file < 64 }
        requires from { from ≤ guess }
        requires guess { guess ≤ 2 ^ 36 }
        ensures found { IfSome result (λ page. IsPageFrom self.now.spots file from page) }
        ensures none { IfNone result (NoneFrom self.now.spots file from) }
    {
        match self.spots.page_from(file, guess) {
            Some(page) => Some(page),
            None => self.spots.page_from(file, from),
        }
    }

    /// A page's block is free, or cut where it is held. Answers whether the page had a block; where it had none, nothing is
    /// done.
    fn cut_page(&mut self, file: u64, page: u64) -> bool
        requires { IsPage file page }
        ensures had { result ≡ is_some (map.get self.old.spots (file, page)) }
        ensures cut { result ≡ true → self.new ≡ cut_one self.old (file, page) }
        ensures same { result ≡ false → self.new ≡ self.old }
    {
        let Some(placed) = self.spots.remove(file, page) else {
            return false;
        };
        let block = placed.block.0;
        if self.held.get(block).is_some() {
            self.held.cut(block);
            return true;
        }
        give_back(&mut self.used, block);
        self.free += 1;
        true
    }
}

/// A page gets a used block, which is given back where memory is wanting.
fn place(
    spots: &mut Spots,
    used: &mut IdAlloc,
    file: u64,
    page: u64,
    placed: Placed,
) -> Result<(), Refusal>
    requires page { IsPage file page }
    requires valid { placed.valid ≤ 4096 }
    requires bare { map.get spots.old (file, page) ≡ None }
    requires taken { set.contains used.old.used placed.block.0 ≡ true }
    ensures spots { OnOk result (spots.new ≡ map.insert spots.old (file, page) (record { block = placed.block.0; valid = placed.valid })) }
    ensures used { OnOk result (used.new.used ≡ used.old.used) }
    ensures refused { OnErr result (spots.new ≡ spots.old) }
    ensures free { OnErr result (used.new.used ≡ set.remove used.old.used placed.block.0) }
    ensures memory { IsOkUnless result Refusal.Memory }
{
    if let Err(refusal) = spots.add(file, page, placed) {
        give_back(used, placed.block.0);
        return Err(refusal);
    }
    Ok(())
}

/// Uses this number, below `count`.
fn use_block(used: &mut IdAlloc, count: u64, block: u32) -> Result<(), Refusal>
    ensures within { OnOk result (block < count) }
    ensures unused { OnOk result (set.contains used.old.used block ≡ false) }
    ensures taken { OnOk result (used.new.used ≡ set.insert used.old.used block) }
    ensures none { result ≡ Err Refusal.NoSpace ↔ IsUsedOrPast used.old.used count block }
    ensures refused { OnErr result (used.new ≡ used.old) }
    ensures only { IfErr result IsNoSpaceOrMemory }
{
    let block = block as u64;
    if count <= block {
        return Err(Refusal::NoSpace);
    }
    match used.alloc(block, block) {
        Ok(_) => Ok(()),
        Err(Refusal::NoId) => Err(Refusal::NoSpace),
        Err(refusal) => Err(refusal),
    }
}

/// Uses the lowest unused number below `count`.
fn lowest_block(used: &mut IdAlloc, count: u64) -> Result<u32, Refusal>
    requires some { 0 < count }
    requires limit { count ≤ 2 ^ 32 }
    ensures lowest { IfOk result (λ block. IsLowestUnused used.old.used 0 (count - 1) block) }
    ensures taken { IfOk result (λ block. used.new.used ≡ set.insert used.old.used block) }
    ensures none { result ≡ Err Refusal.NoSpace ↔ AllUsed used.old.used 0 (count - 1) }
    ensures refused { OnErr result (used.new ≡ used.old) }
    ensures only { IfErr result IsNoSpaceOrMemory }
{
    match used.alloc(0, count - 1) {
        Ok(block) => Ok(block as u32),
        Err(Refusal::NoId) => Err(Refusal::NoSpace),
        Err(refusal) => Err(refusal),
    }
}

/// A used number is unused again.
fn give_back(used: &mut IdAlloc, block: u32)
    requires { set.contains used.old.used block ≡ true }
    ensures { used.new.used ≡ set.remove used.old.used block }
{
    used.free(block as u64).unwrap();
}
