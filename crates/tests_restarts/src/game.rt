//! Plain files, and random calls beside them.

ghost use Rattle.std.specs.Prelude.{◌<◌, ◌≤◌, ◌*◌};

use crate::calls::{append, fsync, pread, pwrite, size, truncate};
use crate::chance::Chance;
use crate::odd::Odd;
use blockdev::BlockDevice;
use catalog::Catalog;
use filesvc::Solo;
use pc_types::{FileId, Geometry, Refusal};
use std::alloc::Global;

/// The blocks of a device.
pub const BLOCKS: u64 = 256;

/// The most files, and the most pages of each. Together they have fewer pages than there are blocks.
const FILES: u64 = 5;

const PAGES: u64 = 40;

/// How many calls are made between two restarts.
const CALLS: u64 = 200;

/// The most bytes of a call: 15 pages of 64 bytes, so that it touches no more than 16.
const MOST: usize = 960;

/// Plain files, kept beside those of a service.
#[derive(Drop)]
pub struct Game {
    alloc: Global,
    files: Vec<Vec<u8>>,
    chance: Chance,
    page: u64,
    ghost sized: { (0 < page) × (page ≤ 64) },
}

impl Game {
    /// No files. Pages have `page` bytes, from 1 to 64.
    pub fn new(alloc: Global, seed: u64, page: u64) -> Game
        requires { (0 < page) × (page ≤ 64) }
    {
        Game {
            alloc,
            files: Vec::new(alloc),
            chance: Chance::new(seed),
            page,
        }
    }

    /// A cache of 48 frames or more, which need not be those of the one before.
    pub fn geometry(&mut self) -> Result<Geometry, Refusal> {
        let frames = 48 + self.chance.below(17);
        let dirty_limit = 16 + self.chance.below(frames - 47);
        Geometry::new(self.page, frames, dirty_limit, BLOCKS)
    }

    pub fn name(&mut self) -> u64 {
        self.chance.below(u64::MAX)
    }

    /// The life of a service, from its first call to its last: its files are the plain ones, random calls are made, all is synced, and the
    /// catalog is told.
    pub fn live<D: BlockDevice>(&mut self, solo: &mut Solo<D>) -> Result<Catalog, Odd> {
        self.compare_all(solo)?;
        for _ in 0..CALLS {
            self.call(solo)?;
        }
        self.sync(solo)?;
        let catalog = solo.catalog()?;
        self.compare_catalog(&catalog)?;
        Ok(catalog)
    }

    /// By one call for all files, or by one for each.
    fn sync<D: BlockDevice>(&mut self, solo: &mut Solo<D>) -> Result<(), Refusal> {
        if self.chance.below(2) == 0 {
            return solo.sync_all();
        }
        for file in 0..self.files.len() as u64 {
            fsync(solo, file)?;
        }
        Ok(())
    }

    /// Whether the catalog has the plain files' sizes.
    fn compare_catalog(&self, catalog: &Catalog) -> Result<(), Odd> {
        if catalog.file_count() != self.files.len() as u64 {
            return Err(Odd::Answer);
        }
        for (file, plain) in self.files.iter().enumerate() {
            if catalog.size(FileId(file as u64)) != plain.len() as u64 {
                return Err(Odd::Size(file as u64));
            }
        }
        Ok(())
    }

    fn compare_all<D: BlockDevice>(&mut self, solo: &mut Solo<D>) -> Result<(), Odd> {
        for file in 0..self.files.len() {
            self.compare(solo, file)?;
        }
        Ok(())
    }

    /// Whether the file is the plain one, by reads of it all.
    fn compare<D: BlockDevice>(&mut self, solo: &mut Solo<D>, file: usize) -> Result<(), Odd> {
        let len = self.len(file);
        if size(solo, file as u64)? != len {
            return Err(Odd::Size(file as u64));
        }
        let step = self.page * 15;
        for part in 0..=PAGES / 15 {
            self.read(solo, file, part * step, step as usize)?;
        }
        Ok(())
    }

    fn len(&self, file: usize) -> u64 {
        match self.files.get(file) {
            Some(plain) => plain.len() as u64,
            None => 0,
        }
    }

    /// Makes a call, and the same to the plain files.
    fn call<D: BlockDevice>(&mut self, solo: &mut Solo<D>) -> Result<(), Odd> {
        if self.files.is_empty() {
            return self.create(solo);
        }
        let file = self.chance.below(FILES) as usize % self.files.len();
        match self.chance.below(32) {
            0..=7 => {
                let offset = self.chance.below(PAGES * self.page);
                let count = self.count();
                self.read(solo, file, offset, count)
            }
            8..=16 => self.write(solo, file),
            17..=20 => self.append(solo, file),
            21..=24 => self.cut(solo, file),
            25 => self.resize(solo, file, 0),
            26 | 27 => Ok(fsync(solo, file as u64)?),
            28 => Ok(solo.sync_all()?),
            29 => self.compare(solo, file),
            _ => self.create(solo),
        }
    }

    /// How many bytes a call has: few, or those of many pages.
    fn count(&mut self) -> usize
        ensures { result ≤ 960 }
    {
        let most = if self.chance.below(4) == 0 {
            15 * self.page
        } else {
            2 * self.page
        };
        self.chance.below(most + 1) as usize
    }

    fn create<D: BlockDevice>(&mut self, solo: &mut Solo<D>) -> Result<(), Odd> {
        let next = self.files.len() as u64;
        if next >= FILES {
            return Ok(());
        }
        if solo.create()? != FileId(next) {
            return Err(Odd::Answer);
        }
        match self.files.push(Vec::new(self.alloc)) {
            Ok(()) => Ok(()),
            Err(_) => Err(Odd::from(Refusal::Memory)),
        }
    }

    fn read<D: BlockDevice>(
        &mut self,
        solo: &mut Solo<D>,
        file: usize,
        offset: u64,
        count: usize,
    ) -> Result<(), Odd>
        requires { count ≤ 960 }
    {
        let mut out = [0xee; MOST];
        let read = pread(solo, file as u64, offset, &mut out[..count])?;
        let Some(plain) = self.files.get(file) else {
            return Err(Odd::Answer);
        };
        let want = part(plain, offset as usize, count);
        if read != want.len() as u64 || !out.starts_with(want) {
            return Err(Odd::Bytes(file as u64));
        }
        Ok(())
    }

    /// Writes bytes anywhere, as far as the file may go.
    fn write<D: BlockDevice>(&mut self, solo: &mut Solo<D>, file: usize) -> Result<(), Odd> {
        let end = PAGES * self.page;
        let offset = self.chance.below(end);
        let mut bytes = [0; MOST];
        let count = self.count().min((end - offset) as usize);
        self.chance.fill(&mut bytes[..count]);
        if pwrite(solo, file as u64, offset, &bytes[..count])? != count as u64 {
            return Err(Odd::Answer);
        }
        self.put(file, offset as usize, &bytes[..count])
    }

    /// Writes bytes at the end.
    fn append<D: BlockDevice>(&mut self, solo: &mut Solo<D>, file: usize) -> Result<(), Odd> {
        let end = self.len(file);
        let mut bytes = [0; MOST];
        let room = (PAGES * self.page).saturating_sub(end);
        let count = self.count().min(room as usize);
        self.chance.fill(&mut bytes[..count]);
        if append(solo, file as u64, &bytes[..count])? != count as u64 {
            return Err(Odd::Answer);
        }
        self.put(file, end as usize, &bytes[..count])
    }

    /// The plain file gets bytes, and zeros before them where it was shorter.
    fn put(&mut self, file: usize, offset: usize, bytes: &[u8]) -> Result<(), Odd> {
        let Some(plain) = self.files.get_mut(file) else {
            return Err(Odd::Answer);
        };
        let end = offset.saturating_add(bytes.len());
        if !bytes.is_empty() && plain.len() < end {
            plain.resize(end, 0)?;
        }
        for (at, byte) in bytes.iter().enumerate() {
            if let Some(place) = plain.get_mut(offset.saturating_add(at)) {
                *place = *byte;
            }
        }
        Ok(())
    }

    /// Makes the file shorter or longer.
    fn cut<D: BlockDevice>(&mut self, solo: &mut Solo<D>, file: usize) -> Result<(), Odd> {
        let size = self.chance.below(PAGES * self.page + 1);
        self.resize(solo, file, size)
    }

    fn resize<D: BlockDevice>(
        &mut self,
        solo: &mut Solo<D>,
        file: usize,
        size: u64,
    ) -> Result<(), Odd> {
        truncate(solo, file as u64, size)?;
        let Some(plain) = self.files.get_mut(file) else {
            return Err(Odd::Answer);
        };
        plain.resize(size as usize, 0)?;
        Ok(())
    }
}

/// As many bytes from the offset on as there are and are wanted.
fn part(plain: &[u8], offset: usize, count: usize) -> &[u8] {
    let start = offset.min(plain.len());
    let end = offset.saturating_add(count).min(plain.len());
    &plain[start..end]
}
