//! Which calls a round makes, one after the other.

ghost use Rattle.std.specs.Prelude.{◌<◌, ◌≤◌, ◌≡◌};

use crate::chance::Chance;
use crate::plan::Plan;
use filesvc::Seek;
use pc_types::limits::{MAX_FILE_SIZE, MAX_TOUCHED};
use std::fmt;
use std::fmt::Display;

/// The bytes of a write: so many of the pool, from this place on.
#[derive(Clone, Copy, Debug)]
pub struct Piece {
    pub from: usize,
    pub count: usize,
}

/// A call on an open file, or on none.
#[derive(Clone, Copy, Debug)]
pub enum Call {
    Pread(u64, usize),
    Read(usize),
    Pwrite(u64, Piece),
    Write(Piece),
    Truncate(u64),
    Seek(Seek),
    Fsync,
    FsyncRange(u64, u64),
    Poll,
    /// An fsync, and, where it succeeds, a look at what the device has of the file.
    Look,
    /// Opens the file of this number, for appending or not.
    Open(u64, bool),
    /// Closes the handle that was opened last.
    Close,
    /// Four calls by a handle of another service.
    Stray,
}

/// A call, and the lot by which its handle is picked.
#[derive(Clone, Copy, Debug)]
pub(crate) struct Step {
    pub(crate) lot: u64,
    pub(crate) call: Call,
}

/// The steps of a round.
#[derive(Drop)]
pub(crate) struct Steps {
    chance: Chance,
    page: u64,
    // bytes at each end of a file that are written
    reach: u64,
    files: u64,
    ghost sized: { (0 < page) × (0 < reach) },
}

/// How many bytes the pool of a round has, from which writes take theirs.
pub(crate) const POOL: usize = 196_608;

/// The most bytes of a call: of 17 pages, which is one too many.
pub(crate) const MOST: usize = 69_632;

impl Steps {
    pub(crate) fn new(plan: &Plan) -> Steps {
        let page = plan.geometry.page();
        Steps {
            chance: plan.chance(),
            page,
            reach: page.saturating_mul(plan.pages).max(1),
            files: plan.files,
        }
    }

    pub(crate) fn step(&mut self) -> Step {
        let lot = self.chance.draw();
        let call = match self.chance.below(64) {
            0..=15 => Call::Pread(self.offset(), self.count()),
            16..=19 => Call::Read(self.count()),
            20..=33 => Call::Pwrite(self.offset(), self.piece()),
            34..=43 => Call::Write(self.piece()),
            44..=47 => Call::Truncate(self.offset()),
            48..=51 => Call::Seek(self.place()),
            52..=54 => Call::Fsync,
            55 | 56 => self.range(),
            57 => Call::Poll,
            58 => Call::Look,
            59 | 60 => self.open(),
            61 | 62 => Call::Close,
            _ => Call::Stray,
        };
        Step { lot, call }
    }

    /// An offset at one of the ends that are written, or at a limit.
    fn offset(&mut self) -> u64 {
        match self.chance.below(16) {
            0 => limit(&mut self.chance),
            1 | 2 => MAX_FILE_SIZE.saturating_sub(self.chance.below(self.reach)),
            _ => self.inside(),
        }
    }

    /// An offset at the beginning of a file, now and then that of a page.
    fn inside(&mut self) -> u64 {
        let offset = self.chance.below(self.reach);
        if self.chance.below(4) == 0 {
            offset - offset % self.page
        } else {
            offset
        }
    }

    /// A number of bytes: few, those of some pages, or of more than a call may touch.
    fn count(&mut self) -> usize {
        let pages = self.page.saturating_mul(MAX_TOUCHED + 1);
        let count = match self.chance.below(8) {
            0 => self.chance.below(4),
            1 => pages,
            2 | 3 => self.chance.below(pages),
            4 => self.page.saturating_mul(self.chance.below(4)),
            _ => self.chance.below(self.page.saturating_mul(3)),
        };
        (count as usize).min(MOST)
    }

    fn piece(&mut self) -> Piece {
        let count = self.count();
        Piece {
            from: self.chance.below((POOL - MOST) as u64) as usize,
            count,
        }
    }

    /// Where a cursor is put: mostly where bytes may be written.
    fn place(&mut self) -> Seek {
        match self.chance.below(8) {
            0 => Seek::Cur(self.by()),
            1 => Seek::End(self.by()),
            2 => Seek::End(0),
            _ => Seek::Set(self.offset()),
        }
    }

    /// A way there or back.
    fn by(&mut self) -> i64 {
        match self.chance.below(8) {
            0 => i64::MIN,
            1 => i64::MAX,
            2..=4 => small(self.chance.below(self.reach)).wrapping_neg(),
            _ => small(self.chance.below(self.reach)),
        }
    }

    /// A range of pages, now and then one that is turned round.
    fn range(&mut self) -> Call {
        let first = self.inside() / self.page;
        let last = match self.chance.below(4) {
            0 => u64::MAX,
            1 => self.inside() / self.page,
            _ => first.saturating_add(self.chance.below(8)),
        };
        Call::FsyncRange(first, last)
    }

    /// A file that is there, or one past the last.
    fn open(&mut self) -> Call {
        let lot = self.chance.draw();
        let number = match lot % 16 {
            0 => u64::MAX,
            1 => 64,
            _ => self
                .chance
                .below(self.files.saturating_add(1))
                .saturating_add(1),
        };
        Call::Open(number, lot >= 1 << 63)
    }
}

/// A place at the end of what a file may have, or of what a number may be.
fn limit(chance: &mut Chance) -> u64 {
    match chance.below(6) {
        0 => MAX_FILE_SIZE,
        1 => MAX_FILE_SIZE - 1,
        2 => MAX_FILE_SIZE + 1,
        3 => 1 << 63,
        4 => u64::MAX - 15,
        _ => u64::MAX,
    }
}

fn small(number: u64) -> i64 {
    i64::try_from(number).unwrap_or(i64::MAX)
}

impl Display for Call {
    fn fmt<W: fmt::Write>(&self, f: &mut fmt::Formatter<W>) -> fmt::Result {
        match self {
            Call::Pread(offset, count) => write!(f, "pread {offset} {count}"),
            Call::Read(count) => write!(f, "read {count}"),
            Call::Pwrite(offset, piece) => write!(f, "pwrite {offset} {}", piece.count),
            Call::Write(piece) => write!(f, "write {}", piece.count),
            Call::Truncate(size) => write!(f, "truncate {size}"),
            Call::Seek(place) => write!(f, "seek {place:?}"),
            Call::Fsync => f.write_str("fsync"),
            Call::FsyncRange(first, last) => write!(f, "fsync_range {first} {last}"),
            Call::Poll => f.write_str("poll_error"),
            Call::Look => f.write_str("fsync, and reads of all from the device"),
            Call::Open(number, append) => write!(f, "open {number} {append}"),
            Call::Close => f.write_str("close"),
            Call::Stray => f.write_str("calls by a handle of another service"),
        }
    }
}
