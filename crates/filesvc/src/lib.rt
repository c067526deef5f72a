#![tactic(auto)]
//! Files over a block device, for one thread: open, read, write, pread, pwrite, seek, truncate, fsync and close, in bytes and
//! counts. Whatever a call needs on the way, pages that have to be filled, frames and room for dirty pages, it sees to itself.
//!
//! `handle` has the handle of an open file. `solo` has the service, with its calls in `handles`, `reads`, `writes` and `fsync`, and `files`
//! how it begins over files that are there, and ends; `room`
//! is what they do on the way, and `requests` makes a request with its device call and its end in one. specs/Service.antt says what
//! holds of every call.
//!
//! Floor: services.

mod files;
mod fsync;
mod handle;
mod handles;
mod reads;
mod requests;
mod room;
mod solo;
mod writes;

pub use cursor::Seek;
pub use handle::Handle;
pub use solo::Solo;
