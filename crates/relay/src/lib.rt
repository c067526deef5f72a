#![tactic(auto)]
//! A block device whose calls the program makes, where the library can make none: it hands out tasks, and is told their ends.
//!
//! `queue` has the tasks and the bytes on their way, `device` the block device at the queue's other end. A write is taken into the queue
//! at once, as a disk takes it into its own cache. A read or a flush fails with `ErrCode` 11 (`EAGAIN`) until the program made it.
//!
//! Floor: ground.

pub mod device;
pub mod queue;

pub use device::RelayDevice;
pub use queue::{AGAIN, Queue, Task};
