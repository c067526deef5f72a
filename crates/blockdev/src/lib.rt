#![tactic(auto)]
//! A block device as a page cache sees it: what it tells of itself, and what one call of it does.
//!
//! A read or a write does what `Reads` or `Writes` of `specs/Device.antt` says, at every device: each call is counted, a
//! fault is counted exactly where it is answered, a write takes effect whole or not at all, and a failed read changes
//! nothing. After a flush that ends well (`Flushes`), what was written before is durable. A device may tell its contents, those
//! that are durable, and the faults to come. `MemDevice` and `ScriptDevice` tell all of these, and `FileDevice` what its file tells
//! of its bytes: a file of the system tells nothing. `perform` makes one such call for a request, as `Performs` of `specs/Jobs.antt`
//! says.
//!
//! `device` has the trait, `fault` what goes wrong, `blocks` the bytes in memory, `memory` a device that never fails,
//! `script` one that fails when it is told to, `file` one over a file, `raw` what it asks of its file, `mem_file` a file in
//! memory, `gated` any device behind a gate, and the gate that is open, `buffer` the bytes of one page on their way, `job` a request's call, and `watched` a
//! device with a note whether anything was written to it since it was last flushed well.
//!
//! Floor: ground.

mod blocks;
pub mod buffer;
pub mod device;
pub mod fault;
pub mod file;
pub mod gated;
pub mod job;
pub mod mem_file;
pub mod memory;
pub mod raw;
pub mod script;
pub mod watched;

pub use buffer::Buffer;
pub use device::BlockDevice;
pub use fault::{Fault, FaultEffect};
pub use file::FileDevice;
pub use gated::{Gate, GatedDevice, OpenGate};
pub use job::{Finished, FinishedParts, Job, perform};
pub use mem_file::MemFile;
pub use memory::MemDevice;
pub use raw::{RawFile, SystemFile};
pub use script::ScriptDevice;
pub use watched::Watched;
