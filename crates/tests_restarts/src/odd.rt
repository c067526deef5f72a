//! What is not as it has to be.

use pc_types::Refusal;
use std::alloc::AllocError;

/// What went wrong in a round or a row.
#[derive(Clone, Copy, PartialEq, Eq, Debug)]
pub enum Odd {
    /// A call was refused that was to go well, by the refusal of this number.
    Refused(u64),
    /// A read of this file gave other bytes than the plain file has.
    Bytes(u64),
    /// This file is not as long as the plain file.
    Size(u64),
    /// A call answered another number than it was to.
    Answer,
}

impl From<Refusal> for Odd {
    fn from(refusal: Refusal) -> Odd {
        Odd::Refused(refusal.number())
    }
}

impl From<AllocError> for Odd {
    fn from(_error: AllocError) -> Odd {
        Odd::from(Refusal::Memory)
    }
}
