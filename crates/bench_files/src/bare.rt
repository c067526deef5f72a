//! A cache without a service: a world with one file, whose requests begin and end in one call.

ghost use Rattle.std.specs.Prelude.{◌+◌, ◌≤◌};
ghost use Rattle.pc_types.specs.declared.limits.TheConstants.{MAX_FRAMES};

use crate::files::{FILL, PAGE};
use blockdev::MemDevice;
use cachecore::{AtOnce, Reply};
use pc_types::limits::{CLEAN_FRAMES, MAX_FRAMES};
use pc_types::{FileId, Geometry, HandleId, PageIndex, Refusal};
use std::alloc::Global;
use world::World;

/// The one file.
const FILE: FileId = FileId(0);

/// The one handle.
const HANDLE: HandleId = HandleId(0);

/// A cache with as many frames as there may be, of which all but a few may be dirty, and a device with a block for each.
#[derive(Drop)]
pub struct Bare {
    world: World<MemDevice>,
}

impl Bare {
    /// A cache with one file, which is open and has no bytes.
    pub fn new(alloc: Global) -> Result<Bare, Refusal> {
        let geometry = Geometry::new(PAGE, MAX_FRAMES, MAX_FRAMES - CLEAN_FRAMES, MAX_FRAMES)?;
        let device = MemDevice::new(alloc, geometry.page(), geometry.blocks())?;
        let Ok(world) = World::new(alloc, &geometry, 1, device) else {
            return Err(Refusal::Memory);
        };
        let mut bare = Bare { world };
        match bare.open() {
            Ok(()) => Ok(bare),
            Err(refusal) => {
                // by a call, since the check is slow where a cache goes out of scope
                drop(bare);
                Err(refusal)
            }
        }
    }

    fn open(&mut self) -> Result<(), Refusal> {
        let file = self.world.create()?;
        self.world.open(file)?;
        Ok(())
    }

    /// Makes the first pages of the file dirty, so many, and the next ones cached and clean. No other page is cached.
    pub fn start(&mut self, dirty: u64, clean: u64) -> Result<(), Refusal>
        requires { dirty + clean ≤ MAX_FRAMES }
    {
        self.resize(0)?;
        for page in 0..dirty {
            self.write(page * PAGE, &[FILL; PAGE as usize])?;
        }
        self.resize((dirty + clean) * PAGE)?;
        for page in dirty..dirty + clean {
            self.fill(page)?;
        }
        Ok(())
    }

    fn resize(&mut self, size: u64) -> Result<(), Refusal> {
        self.world.truncate(HANDLE, size)?;
        Ok(())
    }

    fn write(&mut self, offset: u64, bytes: &[u8]) -> Result<(), Refusal> {
        self.world.write(HANDLE, offset, bytes)?;
        Ok(())
    }

    /// Fills a page that was never written, which takes no device call.
    fn fill(&mut self, page: u64) -> Result<(), Refusal> {
        match self.world.fill_at_once(HANDLE, PageIndex(page)) {
            AtOnce::Answered(Reply::Filled) => Ok(()),
            _ => Err(Refusal::Busy),
        }
    }

    /// Writes so many pages, the lowest dirty one each time, and gives how many these are.
    #[inline(never)]
    pub fn flush(&mut self, count: u64) -> Result<u64, Refusal> {
        for _ in 0..count {
            self.flush_one()?;
        }
        Ok(count)
    }

    #[inline(always)]
    fn flush_one(&mut self) -> Result<(), Refusal> {
        match self.world.flush_at_once(FILE) {
            AtOnce::Ended(_, Reply::Written) => Ok(()),
            _ => Err(Refusal::Busy),
        }
    }

    /// Evicts so many pages, and gives the sum of their numbers.
    #[inline(never)]
    pub fn evict(&mut self, count: u64) -> u64 {
        let mut sum = 0u64;
        for _ in 0..count {
            if let Some((_, page)) = self.world.evict() {
                sum = sum.wrapping_add(page.0);
            }
        }
        sum
    }
}
