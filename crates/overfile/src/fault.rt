//! Why a file is not served.

ghost use Rattle.std.specs.Prelude.{◌≤◌};

use pc_types::Refusal;
use std::fmt;
use std::fmt::Display;

/// Why there is no service over a file.
#[derive(Clone, Copy, PartialEq, Eq, Debug)]
pub enum Fault {
    /// The path can't be opened for reading and writing.
    Closed,
    /// What is there is no regular file.
    NoFile,
    /// The file has only so many bytes.
    PastEnd(u64),
    /// More than 2^40 bytes are asked for.
    TooLarge,
    /// The file could not be made long enough.
    Device,
    Memory,
}

impl Fault {
    /// The status that the program ends with.
    pub fn status(self) -> u8
        ensures { (2 ≤ result) × (result ≤ 4) }
    {
        match self {
            Fault::PastEnd(_) | Fault::TooLarge => 2,
            Fault::Closed | Fault::NoFile | Fault::Device => 3,
            Fault::Memory => 4,
        }
    }

    /// Why there is no service where a device or a cache was refused so.
    pub fn of(refusal: Refusal) -> Fault {
        match refusal {
            Refusal::Memory => Fault::Memory,
            Refusal::BadConfig => Fault::TooLarge,
            _ => Fault::Device,
        }
    }
}

impl Display for Fault {
    fn fmt<W: fmt::Write>(&self, f: &mut fmt::Formatter<W>) -> fmt::Result {
        match self {
            Fault::Closed => f.write_str("the file can't be opened for reading and writing"),
            Fault::NoFile => f.write_str("the path is no regular file"),
            Fault::PastEnd(len) => write!(f, "SIZE is past the end: the file has {len} bytes"),
            Fault::TooLarge => f.write_str("a file has at most 2^40 bytes"),
            Fault::Device => f.write_str("the file could not be made as long as its blocks"),
            Fault::Memory => f.write_str("out of memory"),
        }
    }
}
