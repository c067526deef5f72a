//! What plain files answer to each call.

ghost use Rattle.std.specs.Prelude.{◌<◌, ◌≤◌, ◌≡◌, length};

use crate::due::{Due, Owing, Told};
use crate::plain::PlainFile;
use crate::plan::Plan;
use filesvc::Seek;
use pc_types::limits::{MAX_FILE_SIZE, MAX_TOUCHED};
use pc_types::{ErrCode, Refusal};
use std::alloc::{AllocError, Global};

/// How many failed writes were told, or may have been: of those that failed in fsyncs of the file, and of the others, each of which was
/// of some file.
#[derive(Clone, Copy)]
struct Known {
    own: u64,
    others: u64,
}

/// A file, and which of its failed writes somebody was told of.
#[derive(Drop)]
struct File {
    plain: PlainFile,
    failed: u64,
    told: Known,
}

/// An open handle: its file, its cursor, whether it appends, and what it was told.
#[derive(Clone, Copy)]
pub(crate) struct Place {
    pub(crate) file: usize,
    pub(crate) cursor: u64,
    pub(crate) append: bool,
    known: Known,
}

/// Which files were written. Where it was one, each failed write was of it.
#[derive(Clone, Copy)]
enum Writers {
    Nobody,
    One(usize),
    Many,
}

/// Plain files, and the open handles.
#[derive(Drop)]
pub(crate) struct Book {
    files: Vec<File>,
    places: Vec<Place>,
    page: u64,
    blocks: u64,
    // writes that failed elsewhere than in an fsync
    others: u64,
    writers: Writers,
    ghost sized: { 0 < page },
}

impl Book {
    /// No files.
    pub(crate) fn new(alloc: Global) -> Book {
        Book {
            files: Vec::new(alloc),
            places: Vec::new(alloc),
            page: 1,
            blocks: 0,
            others: 0,
            writers: Writers::Nobody,
        }
    }

    /// The files of a round, without bytes, and no handle. The first is not written.
    pub(crate) fn reset(&mut self, alloc: Global, plan: &Plan) -> Result<(), AllocError> {
        self.page = plan.geometry.page();
        self.blocks = plan.geometry.blocks();
        self.others = 0;
        self.writers = Writers::Nobody;
        self.places.clear();
        for at in 0..=plan.files as usize {
            self.reset_file(alloc, at, plan.pages)?;
        }
        self.files.truncate((plan.files as usize).saturating_add(1));
        Ok(())
    }

    fn reset_file(&mut self, alloc: Global, at: usize, pages: u64) -> Result<(), AllocError> {
        if at >= self.files.len() {
            self.files.push(File::new(alloc))?;
        }
        let page = self.page;
        match self.files.get_mut(at) {
            Some(file) => file.reset(page, pages),
            None => Ok(()),
        }
    }

    /// How many files there are.
    pub(crate) fn files(&self) -> usize {
        self.files.len()
    }

    /// How many handles are open.
    pub(crate) fn handles(&self) -> usize {
        self.places.len()
    }

    pub(crate) fn place(&self, at: usize) -> Option<Place> {
        self.places.get(at).copied()
    }

    fn file(&self, at: usize) -> Option<&File> {
        self.files.get(self.places.get(at)?.file)
    }

    /// How long the handle's file is.
    pub(crate) fn size(&self, at: usize) -> u64 {
        match self.file(at) {
            Some(file) => file.plain.size(),
            None => 0,
        }
    }

    /// Where a write begins: at the cursor, or at the end of the file.
    pub(crate) fn write_place(&self, at: usize) -> u64 {
        match self.places.get(at) {
            Some(place) if place.append => self.size(at),
            Some(place) => place.cursor,
            None => 0,
        }
    }

    // ---- what is due

    pub(crate) fn read_due(&self, at: usize, offset: u64, count: u64) -> Due {
        let count = count.min(self.size(at).saturating_sub(offset));
        if count > 0 && touched(self.page, offset, count) > MAX_TOUCHED {
            return Due::Refusal(Refusal::TooLong);
        }
        Due::Number(count)
    }

    pub(crate) fn write_due(&self, at: usize, offset: u64, count: u64) -> Due {
        if count == 0 {
            return Due::Number(0);
        }
        if touched(self.page, offset, count) > MAX_TOUCHED {
            return Due::Refusal(Refusal::TooLong);
        }
        if offset > MAX_FILE_SIZE || count > MAX_FILE_SIZE - offset {
            return Due::Refusal(Refusal::TooLarge);
        }
        match self.file(at) {
            Some(file) if file.plain.lacks(offset, count) > self.free() => {
                Due::Refusal(Refusal::NoSpace)
            }
            _ => Due::Number(count),
        }
    }

    /// How many blocks no page has.
    fn free(&self) -> u64 {
        let mut free = self.blocks;
        for file in self.files.iter() {
            free = free.saturating_sub(file.plain.blocks());
        }
        free
    }

    pub(crate) fn truncate_due(&self, size: u64) -> Due {
        if size > MAX_FILE_SIZE {
            Due::Refusal(Refusal::TooLarge)
        } else {
            Due::Number(0)
        }
    }

    pub(crate) fn seek_due(&self, at: usize, place: Seek) -> Due {
        let cursor = match self.places.get(at) {
            Some(place) => place.cursor,
            None => 0,
        };
        let target = match place {
            Seek::Set(offset) => i128::from(offset),
            Seek::Cur(by) => i128::from(cursor).saturating_add(i128::from(by)),
            Seek::End(by) => i128::from(self.size(at)).saturating_add(i128::from(by)),
        };
        match u64::try_from(target) {
            Ok(offset) if offset <= MAX_FILE_SIZE => Due::Number(offset),
            _ => Due::Refusal(Refusal::TooLarge),
        }
    }

    /// What the handle is owed, where the last write that failed did so with this code.
    pub(crate) fn owing(&self, at: usize, last: ErrCode) -> Owing {
        let (Some(place), Some(file)) = (self.places.get(at), self.file(at)) else {
            return Owing::No;
        };
        let own = file.failed > place.known.own;
        let others = self.others > place.known.others;
        match self.writers {
            Writers::One(only) if only == place.file => {
                if own || others {
                    Owing::Yes(Some(last))
                } else {
                    Owing::No
                }
            }
            _ if own => Owing::Yes(None),
            _ if others => Owing::Maybe,
            _ => Owing::No,
        }
    }

    // ---- what calls change

    /// Whether the plain files have room for these bytes.
    pub(crate) fn takes(&self, at: usize, offset: u64, count: u64) -> bool {
        match self.file(at) {
            Some(file) => file.plain.takes(offset, count),
            None => false,
        }
    }

    pub(crate) fn write(&mut self, at: usize, offset: u64, bytes: &[u8]) -> Result<(), AllocError> {
        if bytes.is_empty() {
            return Ok(());
        }
        match file_of(&self.places, &mut self.files, at) {
            Some(file) => file.plain.write(offset, bytes),
            None => Ok(()),
        }
    }

    /// Notes that the handle's file is written, even if the plain files leave that out.
    pub(crate) fn note_writer(&mut self, at: usize) {
        let Some(place) = self.places.get(at) else {
            return;
        };
        self.writers = match self.writers {
            Writers::Nobody => Writers::One(place.file),
            Writers::One(file) if file == place.file => Writers::One(file),
            _ => Writers::Many,
        };
    }

    pub(crate) fn cut(&mut self, at: usize, size: u64) {
        if let Some(file) = file_of(&self.places, &mut self.files, at) {
            file.plain.cut(size);
        }
    }

    pub(crate) fn read(&self, at: usize, offset: u64, out: &mut [u8])
        ensures { length out.new ≡ length out.old }
    {
        if let Some(file) = self.file(at) {
            file.plain.read(offset, out);
        }
    }

    pub(crate) fn put_cursor(&mut self, at: usize, cursor: u64) {
        if let Some(place) = self.places.get_mut(at) {
            place.cursor = cursor;
        }
    }

    /// Opens a file. The handle is told of what failed since somebody was told last.
    pub(crate) fn open(&mut self, file: usize, append: bool) -> Result<(), AllocError> {
        let known = match self.files.get(file) {
            Some(file) => file.told,
            None => Known { own: 0, others: 0 },
        };
        let place = Place {
            file,
            cursor: 0,
            append,
            known,
        };
        match self.places.push(place) {
            Ok(()) => Ok(()),
            Err(_) => Err(AllocError),
        }
    }

    pub(crate) fn close(&mut self) {
        let _ = self.places.pop();
    }

    /// So many writes of the handle's file failed in an fsync.
    pub(crate) fn fail_own(&mut self, at: usize, count: u64) {
        if let Some(file) = file_of(&self.places, &mut self.files, at) {
            file.failed = file.failed.saturating_add(count);
        }
    }

    /// So many writes failed as room was made.
    pub(crate) fn fail_others(&mut self, count: u64) {
        self.others = self.others.saturating_add(count);
    }

    /// The handle was told so. Where that was a code, a handle that is opened later is not told of what failed before.
    pub(crate) fn tell(&mut self, at: usize, told: Told) {
        if let Told::Nothing(_) = told {
            return;
        }
        let others = self.others;
        let Some(file) = file_of(&self.places, &mut self.files, at) else {
            return;
        };
        let known = Known {
            own: file.failed,
            others,
        };
        if let Told::Code(_) = told {
            file.told = known;
        }
        if let Some(place) = self.places.get_mut(at) {
            place.known = known;
        }
    }
}

/// The file of a handle.
fn file_of<'a>(places: &[Place], files: &'a mut [File], at: usize) -> Option<&'a mut File> {
    let place = places.get(at)?;
    files.get_mut(place.file)
}

impl File {
    fn new(alloc: Global) -> File {
        File {
            plain: PlainFile::new(alloc),
            failed: 0,
            told: Known { own: 0, others: 0 },
        }
    }

    fn reset(&mut self, page: u64, pages: u64) -> Result<(), AllocError>
        requires { 0 < page }
    {
        self.failed = 0;
        self.told = Known { own: 0, others: 0 };
        self.plain.reset(page, pages)
    }
}

/// How many pages so many bytes touch, of which there is one.
fn touched(page: u64, offset: u64, count: u64) -> u64
    requires { 0 < page }
{
    let end = (offset % page).saturating_add(count).saturating_sub(1);
    (end / page).saturating_add(1)
}
