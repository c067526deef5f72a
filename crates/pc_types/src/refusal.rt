//! Why a call is refused. After a refusal the state is as before.

ghost use Rattle.std.specs.Prelude.{◌≡◌};
ghost use Rattle.pc_types.specs.Refusals.{refusal_number};

use crate::error_code::ErrCode;
use std::alloc::{AllocError, AllocFailed};
use thiserror::Error;

/// Why a call is refused. Each text says what a user can do.
#[derive(Clone, Copy, PartialEq, Eq, Debug, Error)]
pub enum Refusal {
    #[error("a size is outside its limits, or the device has another block size or number of blocks")]
    BadConfig,
    #[error("this cache has 64 files already, and files stay as long as the cache")]
    TooManyFiles,
    #[error("1,024 handles are open: close one first")]
    TooManyHandles,
    #[error("the handle is not open in this cache")]
    BadHandle,
    #[error("no file of this cache has the number")]
    NoSuchFile,
    #[error("the call touches more than 16 pages: split it")]
    TooLong,
    #[error("the file would end past 2^40 bytes, or the target is below 0")]
    TooLarge,
    #[error("too few free frames: evict idle pages, or write dirty ones first")]
    NoFrame,
    #[error("too few free blocks: truncate a file first")]
    NoSpace,
    #[error("too many pages would be dirty: write some to the device first")]
    DirtyLimit,
    #[error("64 requests are in flight or no serial is left, or 64 syncs are in progress: end one first")]
    TooManyInFlight,
    #[error("a sync of this handle is in progress, or an entry stands there already")]
    Busy,
    #[error("no memory is left: free some and try again")]
    Memory,
    #[error("the device failed with code {0}: what was written to the cache is kept, so try again")]
    Io(ErrCode),
    #[error("this cache gave out no such number, or it has ended")]
    Stranger,
    #[error("the trail has no room for the event: close the cache and begin a new trail")]
    TrailFull,
    #[error("the value is above 2^63 - 1")]
    BadEntry,
    #[error("the order does not fit the index")]
    BadOrder,
    #[error("no number of the range is free")]
    NoId,
    #[error("nothing stands at the index")]
    NoEntry,
    #[error("an error code is 1 to 4,095")]
    BadCode,
    #[error("256 attempts met no answer: try again")]
    Turns,
    #[error("the first page of the range is above its last")]
    BadRange,
}

impl Refusal {
    /// The refusal's number in scripts and traces, 1 to 24.
    pub fn number(&self) -> u64
        ensures { result ≡ refusal_number self.now }
    {
        match self {
            Refusal::BadConfig => 1,
            Refusal::TooManyFiles => 2,
            Refusal::TooManyHandles => 3,
            Refusal::BadHandle => 4,
            Refusal::NoSuchFile => 5,
            Refusal::TooLong => 6,
            Refusal::TooLarge => 7,
            Refusal::NoFrame => 8,
            Refusal::NoSpace => 9,
            Refusal::DirtyLimit => 10,
            Refusal::TooManyInFlight => 11,
            Refusal::Busy => 12,
            Refusal::Memory => 13,
            Refusal::Io(_) => 14,
            Refusal::Stranger => 15,
            Refusal::TrailFull => 16,
            Refusal::BadEntry => 17,
            Refusal::BadOrder => 18,
            Refusal::NoId => 19,
            Refusal::NoEntry => 20,
            Refusal::BadCode => 21,
            Refusal::Turns => 22,
            Refusal::BadRange => 24,
        }
    }
}

impl From<AllocError> for Refusal {
    ghost use Rattle.std.specs.Prelude.{◌≡◌};
    ghost use Rattle.pc_types.specs.declared.refusal.Refusal.TheVariants.{Memory};

    ghost from_gives = { λ _ r. r ≡ Memory };

    fn from(_error: AllocError) -> Refusal {
        Refusal::Memory
    }
}

// What could not be stored is dropped.
impl<T: Drop> From<AllocFailed<T>> for Refusal {
    ghost use Rattle.std.specs.Prelude.{◌≡◌};
    ghost use Rattle.pc_types.specs.declared.refusal.Refusal.TheVariants.{Memory};

    ghost from_gives = { λ _ r. r ≡ Memory };

    fn from(_error: AllocFailed<T>) -> Refusal {
        Refusal::Memory
    }
}
