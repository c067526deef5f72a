//! Which calls a caller makes, one after the other.

ghost use Rattle.std.specs.Prelude.{◌+◌, ◌≤◌};

use crate::numbers::{BYTES, Bytes, Numbers};
use crate::places::Places;
use crate::scale::{PAGE, Plan, Scale};
use std::alloc::{AllocError, Global};

/// The most bytes of a read or a write: those of as many pages as one call may touch.
pub const MAX_COUNT: u64 = 65_536;

/// Bytes of a small read of the common file, and of a record at the end of the own file.
const SMALL: u64 = 64;

const RECORD: u64 = 100;

/// The kinds of calls.
#[derive(Clone, Copy, PartialEq, Eq, Debug)]
pub enum Kind {
    ReadCommon,
    Read,
    Write,
    Append,
    Truncate,
    Fsync,
}

/// One call. The offset is where a read or a write begins, and the size that a truncation gives; what is written are so many bytes from
/// `start` on.
#[derive(Clone, Copy)]
pub struct Step {
    pub kind: Kind,
    pub offset: u64,
    pub count: usize,
    pub start: usize,
    ghost few: { count ≤ 65536 },
    ghost within: { start + count ≤ 262144 },
}

/// The steps of one caller, and the bytes that it writes.
#[derive(Drop)]
pub struct Steps {
    numbers: Numbers,
    places: Places,
    scale: Scale,
    pub bytes: Bytes,
}

impl Steps {
    pub fn new(alloc: Global, plan: Plan, caller: u64) -> Result<Steps, AllocError> {
        let mut numbers = Numbers::new(plan.seed, caller);
        Ok(Steps {
            bytes: Bytes::draw(alloc, &mut numbers)?,
            numbers,
            places: Places::new(plan, caller),
            scale: plan.scale,
        })
    }

    /// The next step.
    pub fn draw(&mut self) -> Step {
        let lot = self.numbers.draw();
        match kind_at(lot % 1_024) {
            Kind::ReadCommon => self.touch_common(lot >> 32),
            Kind::Read => self.touch_own(Kind::Read, lot >> 32),
            Kind::Write => self.touch_own(Kind::Write, lot >> 32),
            Kind::Append => self.step(Kind::Append, 0, RECORD),
            Kind::Truncate => self.truncate(),
            Kind::Fsync => self.step(Kind::Fsync, 0, 0),
        }
    }

    /// A write of the most bytes, at this offset.
    pub fn fill(&mut self, offset: u64) -> Step {
        self.step(Kind::Write, offset, MAX_COUNT)
    }

    /// A read of the common file, of a page by one of 16 lots.
    fn touch_common(&mut self, lot: u64) -> Step {
        let count = if lot % 16 == 0 { PAGE } else { SMALL };
        let offset = self.places.draw();
        self.step(Kind::ReadCommon, offset, count)
    }

    /// A read or a write of the own file, of many pages by one of 16 lots.
    fn touch_own(&mut self, kind: Kind, lot: u64) -> Step {
        let most = if lot % 16 == 0 { MAX_COUNT } else { PAGE };
        let offset = self.numbers.below(self.scale.own_size());
        let count = SMALL + self.numbers.below(most - SMALL + 1);
        // within the pages that one call may touch
        self.step(kind, offset, count.min(MAX_COUNT - offset % PAGE))
    }

    /// A truncation of the last quarter at most.
    fn truncate(&mut self) -> Step {
        let size = self.scale.own_size();
        let offset = size - self.numbers.below(size / 4);
        self.step(Kind::Truncate, offset, 0)
    }

    fn step(&mut self, kind: Kind, offset: u64, count: u64) -> Step
        requires { count ≤ MAX_COUNT }
    {
        let start = self.numbers.below(BYTES - MAX_COUNT + 1);
        Step {
            kind,
            offset,
            count: count as usize,
            start: start as usize,
        }
    }
}

/// A kind by one of 1,024 lots: mostly reads of the common file.
fn kind_at(lot: u64) -> Kind {
    match lot {
        0..=716 => Kind::ReadCommon,
        717..=869 => Kind::Read,
        870..=989 => Kind::Write,
        990..=1_019 => Kind::Append,
        1_020 => Kind::Truncate,
        _ => Kind::Fsync,
    }
}
