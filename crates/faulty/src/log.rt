//! What became of a device's calls, for one who has lent the device out.

use pc_types::ErrCode;

/// How many calls of one kind failed, and the code of the last that did.
#[derive(Clone, Copy, PartialEq, Eq, Debug)]
pub struct Failures {
    pub count: u64,
    /// Code 5 where none failed.
    pub code: ErrCode,
}

impl Failures {
    fn none() -> Failures {
        Failures {
            count: 0,
            code: ErrCode::IO,
        }
    }

    fn and(self, code: ErrCode) -> Failures {
        Failures {
            count: self.count.saturating_add(1),
            code,
        }
    }
}

/// How many calls were made, and which failed.
#[derive(Clone, Copy, PartialEq, Eq, Debug)]
pub struct Log {
    /// How many reads, writes and flushes were made.
    pub calls: u64,
    pub reads: Failures,
    pub writes: Failures,
    pub flushes: Failures,
}

impl Log {
    pub fn empty() -> Log {
        Log {
            calls: 0,
            reads: Failures::none(),
            writes: Failures::none(),
            flushes: Failures::none(),
        }
    }

    /// How many calls failed.
    pub fn faults(&self) -> u64 {
        self.reads
            .count
            .saturating_add(self.writes.count)
            .saturating_add(self.flushes.count)
    }

    pub(crate) fn called(self) -> Log {
        Log {
            calls: self.calls.saturating_add(1),
            ..self
        }
    }

    pub(crate) fn with_read(self, code: ErrCode) -> Log {
        Log {
            reads: self.reads.and(code),
            ..self
        }
    }

    pub(crate) fn with_write(self, code: ErrCode) -> Log {
        Log {
            writes: self.writes.and(code),
            ..self
        }
    }

    pub(crate) fn with_flush(self, code: ErrCode) -> Log {
        Log {
            flushes: self.flushes.and(code),
            ..self
        }
    }
}
