//! The block device at the queue's other end.

ghost use Rattle.std.specs.Prelude.{◌≡◌, ◌<◌, ◌≤◌, None, IfErr, OnErr, OnOk, length};
ghost use Rattle.blockdev.specs.Device.{Reads, Writes, Flushes};
ghost use Rattle.relay.specs.Device.{told_relay};

use crate::queue::Queue;
use blockdev::BlockDevice;
use pc_types::{BlockNo, ErrCode};
use std::alloc::Global;
use std::cell::RefCell;
use std::marker::Model;
use std::rc::Rc;

/// A block device whose calls are made by whoever holds the queue's other end. It tells nothing of its bytes.
#[derive(Drop)]
pub struct RelayDevice {
    queue: Rc<RefCell<Queue>>,
    size: u64,
    count: u64,
    calls: u64,
    /// No more than `calls`.
    faults: u64,
    flushes: u64,
    /// No more than `flushes`.
    flush_faults: u64,
}

impl Model for RelayDevice {
    ghost use Rattle.std.specs.Prelude.{◌+◌, ◌≤◌, None};
    ghost use Rattle.blockdev.specs.Device.{Told};

    ghost Value = { Told };

    ghost view = { λ d. record { size = d.size; count = d.count; contents = None; plan = None; durable = None; flush_plan = None; calls = d.calls; flushes = d.flushes; faults = d.faults + d.flush_faults } };

    ghost invariant = { λ d. (d.faults ≤ d.calls) × (d.flush_faults ≤ d.flushes) };
}

impl RelayDevice {
    /// A device of so many blocks, at the other end of this queue.
    pub fn new(queue: Rc<RefCell<Queue>>, size: u64, count: u64) -> RelayDevice
        ensures { result ≡ told_relay size count }
    {
        RelayDevice {
            queue,
            size,
            count,
            calls: 0,
            faults: 0,
            flushes: 0,
            flush_faults: 0,
        }
    }
}

impl BlockDevice for RelayDevice {
    ghost told = { λ d. d };

    fn block_size(&self) -> u64 {
        self.size
    }

    fn blocks(&self) -> u64 {
        self.count
    }

    fn faults(&self) -> u64 {
        self.faults.saturating_add(self.flush_faults)
    }

    fn calls(&self) -> u64 {
        self.calls
    }

    fn flushes(&self) -> u64 {
        self.flushes
    }

    fn read(&mut self, block: BlockNo, out: &mut [u8]) -> Result<(), ErrCode> {
        if self.calls == u64::MAX {
            return Err(ErrCode::IO);
        }
        self.calls += 1;
        let done = match self.queue.try_borrow_mut() {
            Ok(mut queue) => queue.read(block, out),
            Err(_) => Err(ErrCode::IO),
        };
        if done.is_err() {
            self.faults += 1;
        }
        done
    }

    fn write(&mut self, block: BlockNo, bytes: &[u8]) -> Result<(), ErrCode> {
        if self.calls == u64::MAX {
            return Err(ErrCode::IO);
        }
        self.calls += 1;
        let done = match self.queue.try_borrow_mut() {
            Ok(mut queue) => queue.write(block, bytes),
            Err(_) => Err(ErrCode::IO),
        };
        if done.is_err() {
            self.faults += 1;
        }
        done
    }

    fn flush(&mut self) -> Result<(), ErrCode> {
        if self.flushes == u64::MAX {
            return Err(ErrCode::IO);
        }
        self.flushes += 1;
        let done = match self.queue.try_borrow_mut() {
            Ok(mut queue) => queue.flush(),
            Err(_) => Err(ErrCode::IO),
        };
        if done.is_err() {
            self.flush_faults += 1;
        }
        done
    }
}
