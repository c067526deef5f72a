#![tactic(auto)]
//! A part of a file: its bytes from a place on, as a file of their own, so that several devices stand side by side on one disk or one
//! image.
//!
//! Byte i of the part is byte first + i of the file behind. All other bytes of that file stay as they are (`Outside` of
//! `specs/Parts.antt`), and parts that share no byte leave each other's (`apart`). `part` has a part, and `opened`'s `open_part` opens a file of the system
//! anew for each part, so its parts are used at the same time. What one of them writes, no clause tells of the others: a file of the
//! system tells no bytes.
//!
//! Floor: ground.

mod apart;
mod opened;
mod part;

pub use apart::parts_are_apart;
pub use opened::open_part;
pub use part::FilePart;
