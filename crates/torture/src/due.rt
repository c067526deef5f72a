//! Which answers are due.

use faulty::Log;
use pc_types::{ErrCode, Refusal};
use std::alloc::AllocError;
use std::fmt;
use std::fmt::Display;

/// The number of a refusal by `Io`.
const FAILED: u64 = 14;

/// How an answer differs from that of plain files.
#[derive(Clone, Copy, PartialEq, Eq, Debug)]
pub enum Wrong {
    /// A refusal by this number, which is not due.
    Refused(u64),
    /// No refusal by this number, which is due.
    NotRefused(u64),
    /// A number other than the one that is due.
    Number(u64, u64),
    /// The byte at this offset.
    Byte(u64),
}

impl Display for Wrong {
    fn fmt<W: fmt::Write>(&self, f: &mut fmt::Formatter<W>) -> fmt::Result {
        match self {
            Wrong::Refused(number) => write!(f, "refused {number}, which is not due"),
            Wrong::NotRefused(number) => write!(f, "not refused {number}, which is due"),
            Wrong::Number(is, due) => write!(f, "answered {is} and not {due}"),
            Wrong::Byte(offset) => write!(f, "the byte at {offset} is not the plain file's"),
        }
    }
}

/// Why a round ends before its last call.
#[derive(Clone, Copy)]
pub(crate) enum Odd {
    Memory,
    Wrong(Wrong),
}

impl From<AllocError> for Odd {
    fn from(_error: AllocError) -> Odd {
        Odd::Memory
    }
}

impl Odd {
    /// A refusal that is not due. One by want of memory is no difference.
    pub(crate) fn refused(refusal: Refusal) -> Odd {
        match refusal {
            Refusal::Memory => Odd::Memory,
            other => Odd::Wrong(Wrong::Refused(other.number())),
        }
    }

    pub(crate) fn not_refused(due: Refusal) -> Odd {
        Odd::Wrong(Wrong::NotRefused(due.number()))
    }
}

/// What plain files answer.
#[derive(Clone, Copy)]
pub(crate) enum Due {
    Number(u64),
    Refusal(Refusal),
}

/// The device calls that failed during a call: how many writes, and the codes of the last.
#[derive(Clone, Copy)]
pub(crate) struct Faults {
    pub(crate) read: Option<ErrCode>,
    pub(crate) writes: u64,
    pub(crate) write: Option<ErrCode>,
    pub(crate) flush: Option<ErrCode>,
}

impl Faults {
    pub(crate) fn between(before: &Log, after: &Log) -> Faults {
        let writes = after.writes.count.saturating_sub(before.writes.count);
        Faults {
            read: (after.reads.count > before.reads.count).then_some(after.reads.code),
            writes,
            write: (writes > 0).then_some(after.writes.code),
            flush: (after.flushes.count > before.flushes.count).then_some(after.flushes.code),
        }
    }

    /// Whether a read, a write or a truncation may be refused so: because a page can't be read, or because no room could be made, since a
    /// write failed. Only a write that makes pages dirty lacks room for these.
    fn excuse(&self, refusal: &Refusal, dirties: bool) -> bool {
        match refusal {
            Refusal::Io(code) => self.read == Some(*code),
            Refusal::NoFrame => self.writes > 0,
            Refusal::DirtyLimit => dirties && self.writes > 0,
            _ => false,
        }
    }
}

/// Compares the answer of a read, a write or a truncation with the one that is due. Gives it, or the refusal that was due.
pub(crate) fn judge(
    answer: Result<u64, Refusal>,
    due: &Due,
    faults: &Faults,
    dirties: bool,
) -> Result<Result<u64, Refusal>, Odd> {
    match answer {
        Ok(is) => match due {
            Due::Number(number) if *number == is => Ok(Ok(is)),
            Due::Number(number) => Err(Odd::Wrong(Wrong::Number(is, *number))),
            Due::Refusal(refusal) => Err(Odd::not_refused(*refusal)),
        },
        Err(refusal) => {
            if may_refuse(&refusal, due, faults, dirties) {
                Ok(Err(refusal))
            } else {
                Err(Odd::refused(refusal))
            }
        }
    }
}

/// Whether a call may be refused so. Before it is known that a block is wanted pages are filled and room is made, which may fail.
fn may_refuse(refusal: &Refusal, due: &Due, faults: &Faults, dirties: bool) -> bool {
    match due {
        Due::Number(_) => faults.excuse(refusal, dirties),
        Due::Refusal(Refusal::NoSpace) => {
            *refusal == Refusal::NoSpace || faults.excuse(refusal, dirties)
        }
        Due::Refusal(due) => *refusal == *due,
    }
}

/// Whether a handle is owed an error: certainly, with this code where that is known, or maybe, where another file's write may have failed.
#[derive(Clone, Copy)]
pub(crate) enum Owing {
    Yes(Option<ErrCode>),
    Maybe,
    No,
}

impl Owing {
    fn fits(&self, code: ErrCode) -> bool {
        match self {
            Owing::Yes(Some(due)) => *due == code,
            Owing::Yes(None) | Owing::Maybe => true,
            Owing::No => false,
        }
    }
}

/// What a handle was told by an fsync or a poll.
#[derive(Clone, Copy, PartialEq, Eq)]
pub(crate) enum Told {
    Code(ErrCode),
    /// That no write failed since it was last told.
    AllWell,
    /// The flush failed, and it was told nothing.
    Nothing(ErrCode),
}

/// Compares the answer of an fsync with what is due: the code of a write that failed meanwhile, that of the flush, or what the handle is
/// owed.
pub(crate) fn judge_sync(
    answer: &Result<(), Refusal>,
    faults: &Faults,
    owing: &Owing,
) -> Result<Told, Odd> {
    match answer {
        Ok(()) => judge_success(faults, owing),
        Err(refusal) => judge_failure(refusal, faults, owing),
    }
}

fn judge_failure(refusal: &Refusal, faults: &Faults, owing: &Owing) -> Result<Told, Odd> {
    match refusal {
        Refusal::Io(code) => judge_code(*code, faults, owing),
        other => Err(Odd::refused(*other)),
    }
}

/// A success is due where no write failed, nor the flush, and the handle is owed nothing.
fn judge_success(faults: &Faults, owing: &Owing) -> Result<Told, Odd> {
    if faults.write.is_some() || faults.flush.is_some() {
        return Err(Odd::Wrong(Wrong::NotRefused(FAILED)));
    }
    match owing {
        Owing::Yes(_) => Err(Odd::Wrong(Wrong::NotRefused(FAILED))),
        _ => Ok(Told::AllWell),
    }
}

fn judge_code(code: ErrCode, faults: &Faults, owing: &Owing) -> Result<Told, Odd> {
    let told = match (faults.write, faults.flush) {
        (Some(due), _) => (due == code).then_some(Told::Code(code)),
        (None, Some(due)) => (due == code).then_some(Told::Nothing(code)),
        (None, None) => owing.fits(code).then_some(Told::Code(code)),
    };
    match told {
        Some(told) => Ok(told),
        None => Err(Odd::refused(Refusal::Io(code))),
    }
}

/// Compares the answer of a poll with what the handle is owed.
pub(crate) fn judge_poll(
    answer: Result<Option<ErrCode>, Refusal>,
    owing: &Owing,
) -> Result<Told, Odd> {
    match answer {
        Ok(Some(code)) if owing.fits(code) => Ok(Told::Code(code)),
        Ok(Some(code)) => Err(Odd::refused(Refusal::Io(code))),
        Ok(None) => match owing {
            Owing::Yes(_) => Err(Odd::Wrong(Wrong::NotRefused(FAILED))),
            _ => Ok(Told::AllWell),
        },
        Err(refusal) => Err(Odd::refused(refusal)),
    }
}
