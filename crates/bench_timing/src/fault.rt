//! Why a bench ends before its last row.

use pc_types::{ErrCode, Refusal};
use std::alloc::AllocError;
use std::io;

#[derive(Clone, Copy, PartialEq, Eq, Debug, thiserror::Error)]
pub enum Fault {
    #[error("the clock, the output or the file failed")]
    System,
    #[error("out of memory")]
    Memory,
    #[error("a call answered what it should not")]
    Odd,
}

impl Fault {
    /// The status that the program ends with.
    pub fn status(self) -> u8 {
        match self {
            Fault::System => 3,
            Fault::Memory => 4,
            Fault::Odd => 5,
        }
    }
}

impl From<io::Error> for Fault {
    fn from(_error: io::Error) -> Fault {
        Fault::System
    }
}

impl From<AllocError> for Fault {
    fn from(_error: AllocError) -> Fault {
        Fault::Memory
    }
}

/// The calls that are timed are refused nothing but memory, and what the system refuses.
impl From<Refusal> for Fault {
    fn from(refusal: Refusal) -> Fault {
        match refusal {
            Refusal::Io(_) => Fault::System,
            _ => Fault::Memory,
        }
    }
}

/// A call of the device over a file failed.
impl From<ErrCode> for Fault {
    fn from(_code: ErrCode) -> Fault {
        Fault::System
    }
}
