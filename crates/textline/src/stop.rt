//! Why a run ends before its input does.

ghost use Rattle.std.specs.Prelude.{◌≡◌};
ghost use Rattle.std.specs.IoError.{error_kind};
ghost use Rattle.textline.specs.Stops.{IsStatus, status_of, stop_of_kind};

use std::alloc::AllocError;
use std::fmt;
use std::fmt::Display;
use std::io::{Error, ErrorKind};

/// Why a run ended early.
#[derive(Clone, Copy, PartialEq, Eq, Debug)]
pub enum Stop {
    /// The line of this number, counted from 1, is no line of the language.
    Malformed(u64),
    Input,
    Output,
    Memory,
}

impl Stop {
    /// The status that the program ends with.
    pub fn status(self) -> u8
        ensures status { result ≡ status_of self }
        ensures known { IsStatus result }
    {
        match self {
            Stop::Malformed(_) => 2,
            Stop::Input | Stop::Output => 3,
            Stop::Memory => 4,
        }
    }

    /// What a failed read comes to. A reader that has no room for its bytes is want of memory.
    pub fn of_input(error: &Error) -> Stop
        ensures { result ≡ stop_of_kind (error_kind error.now) }
    {
        match error.kind() {
            ErrorKind::OutOfMemory => Stop::Memory,
            _ => Stop::Input,
        }
    }
}

impl Display for Stop {
    ghost use Rattle.std.specs.Prelude.{Some};
    ghost use Rattle.textline.specs.Stops.{reason_of};

    ghost output = { λ stop. Some (reason_of stop) };

    fn fmt<W: fmt::Write>(&self, f: &mut fmt::Formatter<W>) -> fmt::Result {
        match self {
            Stop::Malformed(line) => write!(f, "line {line}: malformed"),
            Stop::Input => f.write_str("input failed"),
            Stop::Output => f.write_str("output failed"),
            Stop::Memory => f.write_str("out of memory"),
        }
    }
}

impl From<AllocError> for Stop {
    ghost use Rattle.std.specs.Prelude.{◌≡◌};
    ghost use Rattle.textline.specs.declared.stop.Stop.TheVariants.{Memory};

    ghost from_gives = { λ _ stop. stop ≡ Memory };

    fn from(_error: AllocError) -> Stop {
        Stop::Memory
    }
}
