//! A round, call by call: each is made of the service, and its answer compared with that of plain files.

ghost use Rattle.std.specs.Prelude.{◌<◌, ◌≤◌, ◌≡◌, length};

use crate::book::Book;
use crate::chance::Chance;
use crate::desk::Desk;
use crate::due::{Due, Faults, Odd, Told, Wrong, judge, judge_poll, judge_sync};
use crate::plan::Plan;
use crate::step::{Call, MOST, POOL, Piece, Step, Steps};
use blockdev::BlockDevice;
use faulty::Log;
use filesvc::Seek;
use pc_types::Refusal;
use pc_types::limits::{MAX_FILE_SIZE, MAX_TOUCHED};
use std::alloc::{AllocError, Global};
use std::cell::Cell;
use std::fmt;
use std::fmt::Display;
use std::rc::Rc;
use storm_text::Refused;

/// The most handles that are open.
const MOST_HANDLES: usize = 16;

/// How often the files are synced at the end, where device calls fail.
const SYNCS: u64 = 4;

/// A call that was made, and the handle.
#[derive(Clone, Copy, Debug)]
pub struct Made {
    /// The handle of file f is at 2 f - 1, and one that appends behind it.
    pub at: usize,
    pub call: Call,
}

/// The calls of a round.
#[derive(Clone, Copy)]
pub enum Calls<'a> {
    /// So many of those that are drawn.
    Drawn(u64),
    Given(&'a [Made]),
}

impl Display for Made {
    fn fmt<W: fmt::Write>(&self, f: &mut fmt::Formatter<W>) -> fmt::Result {
        write!(f, "handle {}: {}", self.at, self.call)
    }
}

/// What a round needs beside its service. The next one takes its room.
#[derive(Drop)]
pub struct Room {
    book: Book,
    // what writes take their bytes from
    pool: Vec<u8>,
    // what was read, and what is due
    read: Vec<u8>,
    due: Vec<u8>,
    pub(crate) made: Vec<Made>,
}

impl Room {
    pub fn new(alloc: Global) -> Result<Room, AllocError> {
        let mut pool = vec![in alloc; 0; POOL]?;
        Chance::new(0, 0).fill(&mut pool);
        Ok(Room {
            book: Book::new(alloc),
            pool,
            read: vec![in alloc; 0; MOST]?,
            due: vec![in alloc; 0; MOST]?,
            made: Vec::new(alloc),
        })
    }

    pub(crate) fn reset(&mut self, alloc: Global, plan: &Plan) -> Result<(), AllocError> {
        self.made.clear();
        self.book.reset(alloc, plan)
    }

    /// Compares so many bytes that were read from the offset on.
    fn compare(&mut self, at: usize, offset: u64, count: u64) -> Result<(), Odd> {
        let count = (count as usize).min(self.read.len()).min(self.due.len());
        self.book.read(at, offset, &mut self.due[..count]);
        match first_unlike(front(&self.read, count), front(&self.due, count)) {
            Some(place) => Err(Odd::Wrong(Wrong::Byte(offset.saturating_add(place)))),
            None => Ok(()),
        }
    }
}

/// The first bytes, so many at most.
fn front(bytes: &[u8], count: usize) -> &[u8] {
    &bytes[..count.min(bytes.len())]
}

/// The first place at which the bytes differ.
fn first_unlike(is: &[u8], due: &[u8]) -> Option<u64> {
    if is == due {
        return None;
    }
    let mut place: u64 = 0;
    for (one, other) in is.iter().zip(due.iter()) {
        if *one != *other {
            return Some(place);
        }
        place = place.saturating_add(1);
    }
    Some(place)
}

/// A service of a round.
#[derive(Drop)]
pub(crate) struct Game<D: BlockDevice> {
    desk: Desk<D>,
    log: Rc<Cell<Log>>,
    pub(crate) refused: Refused,
    page: u64,
    // pages that press all others out of the cache
    press: u64,
    // bytes at each end of a file that are written
    reach: u64,
    // handles that stay open
    base: usize,
    // whether the plain files leave the call out
    forgets: bool,
    // whether the last fsync succeeded, and whether the last of the calls did
    is_synced: bool,
    pub(crate) was_synced: bool,
}

impl<D: BlockDevice> Game<D> {
    pub(crate) fn new(desk: Desk<D>, log: Rc<Cell<Log>>, plan: &Plan) -> Game<D> {
        let page = plan.geometry.page();
        Game {
            desk,
            log,
            refused: Refused::none(),
            page,
            press: plan.geometry.frames().saturating_add(MAX_TOUCHED),
            reach: page.saturating_mul(plan.pages),
            base: (plan.files as usize).saturating_mul(2).saturating_add(1),
            forgets: false,
            is_synced: false,
            was_synced: false,
        }
    }

    /// What became of the device's calls.
    pub(crate) fn log(&self) -> Log {
        self.log.get()
    }

    /// Plays the calls, and then looks at all files.
    pub(crate) fn play(
        &mut self,
        room: &mut Room,
        plan: &Plan,
        calls: Calls<'_>,
    ) -> Result<(), Odd> {
        self.begin(room)?;
        match calls {
            Calls::Drawn(count) => self.play_drawn(room, plan, count)?,
            Calls::Given(all) => self.play_given(room, all)?,
        }
        self.was_synced = self.is_synced;
        self.finish(room)
    }

    fn play_drawn(&mut self, room: &mut Room, plan: &Plan, count: u64) -> Result<(), Odd> {
        let mut steps = Steps::new(plan);
        for number in 0..count.min(plan.calls) {
            self.forgets = plan.forgets == Some(number);
            self.step(room, steps.step())?;
        }
        self.forgets = false;
        Ok(())
    }

    fn play_given(&mut self, room: &mut Room, all: &[Made]) -> Result<(), Odd> {
        for made in all.iter() {
            self.note_made(room, *made)?;
        }
        Ok(())
    }

    /// Opens the first file, which is long and is not written, and each other one twice.
    fn begin(&mut self, room: &mut Room) -> Result<(), Odd> {
        self.open(room, 0, false)?;
        for number in 1..room.book.files() as u64 {
            self.open(room, number, false)?;
            self.open(room, number, true)?;
        }
        self.truncate(room, 0, self.press.saturating_mul(self.page))
    }

    /// Makes a call by one of the handles of the other files.
    fn step(&mut self, room: &mut Room, step: Step) -> Result<(), Odd> {
        let handles = room.book.handles().saturating_sub(1).max(1);
        let at = (step.lot % handles as u64).saturating_add(1) as usize;
        let call = self.possible(room, at, step.call);
        self.note_made(room, Made { at, call })
    }

    /// Makes a call, and notes it.
    fn note_made(&mut self, room: &mut Room, made: Made) -> Result<(), Odd> {
        match room.made.push(made) {
            Ok(()) => self.make(room, made.at, made.call),
            Err(_) => Err(Odd::Memory),
        }
    }

    /// The call, or another in its place: where the plain files have no room for a write, where no more handles are opened, and where none
    /// is closed.
    fn possible(&self, room: &Room, at: usize, call: Call) -> Call {
        match call {
            Call::Pwrite(offset, piece) => fitting(room, at, offset, piece, call),
            Call::Write(piece) => fitting(room, at, room.book.write_place(at), piece, call),
            Call::Open(_, _) if room.book.handles() >= MOST_HANDLES => Call::Close,
            Call::Close if room.book.handles() <= self.base => Call::Poll,
            other => other,
        }
    }

    fn make(&mut self, room: &mut Room, at: usize, call: Call) -> Result<(), Odd> {
        match call {
            Call::Pread(offset, count) => self.pread(room, at, offset, count),
            Call::Read(count) => self.read(room, at, count),
            Call::Pwrite(offset, piece) => self.pwrite(room, at, offset, piece),
            Call::Write(piece) => self.write(room, at, piece),
            Call::Truncate(size) => self.truncate(room, at, size),
            Call::Seek(place) => self.seek(room, at, place),
            Call::Fsync => self.fsync(room, at).map(|_| ()),
            Call::FsyncRange(first, last) => self.fsync_range(room, at, first, last),
            Call::Poll => self.poll(room, at),
            Call::Look => self.look(room, at),
            Call::Open(number, append) => self.open(room, number, append),
            Call::Close => self.close(room),
            Call::Stray => self.stray(),
        }
    }

    // ---- answers

    /// Compares the answer of a call with the one that is due, and counts a refusal. Answers the number, where it was not refused.
    fn settle(
        &mut self,
        room: &mut Room,
        before: &Log,
        answer: Result<u64, Refusal>,
        due: Due,
        dirties: bool,
    ) -> Result<Option<u64>, Odd> {
        let faults = Faults::between(before, &self.log.get());
        room.book.fail_others(faults.writes);
        match judge(answer, &due, &faults, dirties)? {
            Ok(number) => Ok(Some(number)),
            Err(refusal) => {
                self.refused.count(refusal);
                Ok(None)
            }
        }
    }

    /// Puts the cursor of the plain file, and compares that of the handle.
    fn put_cursor(&mut self, room: &mut Room, at: usize, cursor: u64) -> Result<(), Odd> {
        room.book.put_cursor(at, cursor);
        self.check_cursor(room, at)
    }

    fn check_cursor(&self, room: &Room, at: usize) -> Result<(), Odd> {
        let due = match room.book.place(at) {
            Some(place) => place.cursor,
            None => 0,
        };
        let is = self.desk.cursor(at);
        if is == due {
            Ok(())
        } else {
            Err(Odd::Wrong(Wrong::Number(is, due)))
        }
    }

    // ---- reads and writes

    fn pread(&mut self, room: &mut Room, at: usize, offset: u64, count: usize) -> Result<(), Odd> {
        let count = count.min(room.read.len());
        let due = room.book.read_due(at, offset, count as u64);
        let before = self.log.get();
        let answer = self.desk.pread(at, offset, &mut room.read[..count]);
        match self.settle(room, &before, answer, due, false)? {
            Some(count) => room.compare(at, offset, count),
            None => Ok(()),
        }
    }

    fn read(&mut self, room: &mut Room, at: usize, count: usize) -> Result<(), Odd> {
        let offset = self.desk.cursor(at);
        let count = count.min(room.read.len());
        let due = room.book.read_due(at, offset, count as u64);
        let before = self.log.get();
        let answer = self.desk.read(at, &mut room.read[..count]);
        match self.settle(room, &before, answer, due, false)? {
            Some(count) => {
                room.compare(at, offset, count)?;
                self.put_cursor(room, at, offset.saturating_add(count))
            }
            None => self.check_cursor(room, at),
        }
    }

    fn pwrite(&mut self, room: &mut Room, at: usize, offset: u64, piece: Piece) -> Result<(), Odd> {
        let due = room.book.write_due(at, offset, piece.count as u64);
        let before = self.log.get();
        let answer = self.desk.pwrite(at, offset, bytes_of(&room.pool, piece));
        match self.settle(room, &before, answer, due, true)? {
            Some(_) => self.wrote(room, at, offset, piece),
            None => Ok(()),
        }
    }

    fn write(&mut self, room: &mut Room, at: usize, piece: Piece) -> Result<(), Odd> {
        let offset = room.book.write_place(at);
        let due = room.book.write_due(at, offset, piece.count as u64);
        let before = self.log.get();
        let answer = self.desk.write(at, bytes_of(&room.pool, piece));
        match self.settle(room, &before, answer, due, true)? {
            Some(count) => {
                self.wrote(room, at, offset, piece)?;
                self.put_cursor(room, at, offset.saturating_add(count))
            }
            None => self.check_cursor(room, at),
        }
    }

    /// Writes the bytes into the plain file, too.
    fn wrote(&self, room: &mut Room, at: usize, offset: u64, piece: Piece) -> Result<(), Odd> {
        if piece.count > 0 {
            room.book.note_writer(at);
        }
        if self.forgets {
            return Ok(());
        }
        let bytes = bytes_of(&room.pool, piece);
        match room.book.write(at, offset, bytes) {
            Ok(()) => Ok(()),
            Err(_) => Err(Odd::Memory),
        }
    }

    fn truncate(&mut self, room: &mut Room, at: usize, size: u64) -> Result<(), Odd> {
        let due = room.book.truncate_due(size);
        let before = self.log.get();
        let answer = self.desk.truncate(at, size).map(|_| 0);
        let done = self.settle(room, &before, answer, due, false)?;
        if done.is_some() && !self.forgets {
            room.book.cut(at, size);
        }
        Ok(())
    }

    fn seek(&mut self, room: &mut Room, at: usize, place: Seek) -> Result<(), Odd> {
        let due = room.book.seek_due(at, place);
        let before = self.log.get();
        let answer = self.desk.seek(at, place);
        match self.settle(room, &before, answer, due, false)? {
            Some(offset) => self.put_cursor(room, at, offset),
            None => self.check_cursor(room, at),
        }
    }

    // ---- fsyncs and errors

    /// Answers whether it succeeded.
    fn fsync(&mut self, room: &mut Room, at: usize) -> Result<bool, Odd> {
        let before = self.log.get();
        let answer = self.desk.fsync(at);
        self.settle_sync(room, at, &before, answer)
    }

    fn fsync_range(
        &mut self,
        room: &mut Room,
        at: usize,
        first: u64,
        last: u64,
    ) -> Result<(), Odd> {
        let before = self.log.get();
        let answer = self.desk.fsync_range(at, first, last);
        if first <= last {
            return self.settle_sync(room, at, &before, answer).map(|_| ());
        }
        let due = Due::Refusal(Refusal::BadRange);
        let answer = answer.map(|_| 0);
        self.settle(room, &before, answer, due, false).map(|_| ())
    }

    fn settle_sync(
        &mut self,
        room: &mut Room,
        at: usize,
        before: &Log,
        answer: Result<(), Refusal>,
    ) -> Result<bool, Odd> {
        let owing = room.book.owing(at, before.writes.code);
        let faults = Faults::between(before, &self.log.get());
        room.book.fail_own(at, faults.writes);
        let told = judge_sync(&answer, &faults, &owing)?;
        room.book.tell(at, told);
        self.count_told(told);
        self.is_synced = told == Told::AllWell;
        Ok(self.is_synced)
    }

    fn poll(&mut self, room: &mut Room, at: usize) -> Result<(), Odd> {
        let owing = room.book.owing(at, self.log.get().writes.code);
        let told = judge_poll(self.desk.poll(at), &owing)?;
        room.book.tell(at, told);
        Ok(())
    }

    fn count_told(&mut self, told: Told) {
        match told {
            Told::Code(code) | Told::Nothing(code) => self.refused.count(Refusal::Io(code)),
            Told::AllWell => {}
        }
    }

    // ---- handles

    fn open(&mut self, room: &mut Room, number: u64, append: bool) -> Result<(), Odd> {
        let is_there = number < room.book.files() as u64;
        match self.desk.open(number, append) {
            Ok(()) if is_there => match room.book.open(number as usize, append) {
                Ok(()) => Ok(()),
                Err(_) => Err(Odd::Memory),
            },
            Ok(()) => Err(Odd::not_refused(Refusal::NoSuchFile)),
            Err(Refusal::NoSuchFile) if !is_there => {
                self.refused.count(Refusal::NoSuchFile);
                Ok(())
            }
            Err(refusal) => Err(Odd::refused(refusal)),
        }
    }

    fn close(&mut self, room: &mut Room) -> Result<(), Odd> {
        room.book.close();
        match self.desk.close() {
            Ok(()) => Ok(()),
            Err(refusal) => Err(Odd::refused(refusal)),
        }
    }

    /// Makes four calls by the handle of another service.
    fn stray(&mut self) -> Result<(), Odd> {
        for number in 0..4 {
            match self.desk.call_astray(number) {
                Err(Refusal::BadHandle) => self.refused.count(Refusal::BadHandle),
                Err(refusal) => return Err(Odd::refused(refusal)),
                Ok(()) => return Err(Odd::not_refused(Refusal::BadHandle)),
            }
        }
        Ok(())
    }

    // ---- what the device has

    /// Syncs the file, and reads it, where that succeeded, after all its pages were pressed out of the cache.
    fn look(&mut self, room: &mut Room, at: usize) -> Result<(), Odd> {
        if !self.fsync(room, at)? {
            return Ok(());
        }
        self.press_out(room)?;
        self.read_all(room, at)
    }

    /// Reads a byte of as many pages as there are frames, each twice, so that they are kept before others.
    fn press_out(&mut self, room: &mut Room) -> Result<(), Odd> {
        for number in 0..self.press {
            let offset = number.saturating_mul(self.page);
            self.pread(room, 0, offset, 1)?;
            self.pread(room, 0, offset, 1)?;
        }
        Ok(())
    }

    /// Looks at the size of a file, and reads both its ends.
    fn read_all(&mut self, room: &mut Room, at: usize) -> Result<(), Odd> {
        self.seek(room, at, Seek::End(0))?;
        let size = room.book.size(at);
        self.read_part(room, at, 0, size.min(self.reach))?;
        self.read_part(room, at, MAX_FILE_SIZE.saturating_sub(self.reach), size)
    }

    fn read_part(&mut self, room: &mut Room, at: usize, start: u64, end: u64) -> Result<(), Odd> {
        let most = self.page.saturating_mul(MAX_TOUCHED).max(1);
        let count = end.saturating_sub(start);
        for number in 0..count.div_ceil(most) {
            let offset = start.saturating_add(number.saturating_mul(most));
            self.pread(room, at, offset, most as usize)?;
        }
        Ok(())
    }

    /// Syncs all files, and reads them from the device.
    fn finish(&mut self, room: &mut Room) -> Result<(), Odd> {
        for number in 1..room.book.files() {
            self.sync_file(room, number.saturating_mul(2).saturating_sub(1))?;
        }
        self.press_out(room)?;
        for number in 1..room.book.files() {
            self.read_all(room, number.saturating_mul(2).saturating_sub(1))?;
        }
        Ok(())
    }

    /// Syncs a file till that succeeds, some times at most.
    fn sync_file(&mut self, room: &mut Room, at: usize) -> Result<(), Odd> {
        for _ in 0..SYNCS {
            if self.fsync(room, at)? {
                break;
            }
        }
        Ok(())
    }
}

/// The write, or a truncation where it is not refused and the plain file has no room for it.
fn fitting(room: &Room, at: usize, offset: u64, piece: Piece, call: Call) -> Call {
    let count = piece.count as u64;
    match room.book.write_due(at, offset, count) {
        Due::Number(_) if count > 0 && !room.book.takes(at, offset, count) => {
            Call::Truncate(piece.from as u64 % 64)
        }
        Due::Refusal(Refusal::NoSpace) if !room.book.takes(at, offset, count) => {
            Call::Truncate(piece.from as u64 % 64)
        }
        _ => call,
    }
}

/// The bytes of a write.
fn bytes_of(pool: &[u8], piece: Piece) -> &[u8] {
    let from = piece.from.min(pool.len());
    let count = piece.count.min(pool.len() - from);
    &pool[from..from + count]
}
