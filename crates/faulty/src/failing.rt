//! A device that fails where it is told to.

ghost use Rattle.std.specs.Prelude.{◌≡◌, IsOk, OnOk};
ghost use Rattle.faulty.specs.Faulty.{faulty};

use crate::choice::Choice;
use crate::log::Log;
use blockdev::{BlockDevice, Fault, FaultEffect};
use pc_types::{BlockNo, ErrCode};
use std::cell::Cell;
use std::marker::Model;
use std::rc::Rc;

/// A device one of whose calls fails, or each by chance, with a code and old or new bytes. Its log is written as they are made.
#[derive(Drop)]
pub struct FailingDevice<D: BlockDevice> {
    device: D,
    choice: Choice,
    log: Rc<Cell<Log>>,
    calls: u64,
    faults: u64,
    flushes: u64,
    flush_faults: u64,
}

impl<D: BlockDevice> Model for FailingDevice<D> {
    ghost use Rattle.std.specs.Prelude.{◌≤◌, ◌+◌, None};
    ghost use Rattle.blockdev.specs.Device.{Told};

    ghost Value = { Told };

    ghost view = { λ d. record (D.told d.device) { plan = None; flush_plan = None; calls = d.calls; flushes = d.flushes; faults = d.faults + d.flush_faults } };

    ghost invariant = { λ d. (d.faults ≤ d.calls) × (d.flush_faults ≤ d.flushes) };
}

impl<D: BlockDevice> FailingDevice<D> {
    /// The device, whose call of this number fails, counted from 0 over its reads, writes and flushes, and no other call.
    pub fn at(device: D, number: u64, fault: Fault, log: Rc<Cell<Log>>) -> FailingDevice<D>
        ensures { result ≡ faulty (D.told device) }
    {
        FailingDevice::new(device, Choice::One(number, fault), log)
    }

    /// The device, of whose calls one of so many fails, and none where that is 0. Which do follows from the seed.
    pub fn by_chance(device: D, seed: u64, one_of: u64, log: Rc<Cell<Log>>) -> FailingDevice<D>
        ensures { result ≡ faulty (D.told device) }
    {
        FailingDevice::new(device, Choice::by_chance(seed, one_of), log)
    }

    fn new(device: D, choice: Choice, log: Rc<Cell<Log>>) -> FailingDevice<D>
        ensures { result ≡ faulty (D.told device) }
    {
        FailingDevice {
            device,
            choice,
            log,
            calls: 0,
            faults: 0,
            flushes: 0,
            flush_faults: 0,
        }
    }
}

/// The fault of a call that is made now, if it is to fail.
fn fault_now(choice: &mut Choice, log: &Cell<Log>) -> Option<Fault> {
    log.set(log.get().called());
    choice.next()
}

/// Whether a write with this fault leaves the old bytes.
fn keeps_old(fault: &Option<Fault>) -> bool {
    matches!(
        fault,
        Some(Fault {
            effect: FaultEffect::Old,
            ..
        },)
    )
}

/// What a write answers with this fault, if it has one, that came to this.
fn answer_of(fault: &Option<Fault>, written: Result<(), ErrCode>) -> Result<(), ErrCode>
    ensures { OnOk result (IsOk written) }
{
    match fault {
        Some(fault) => Err(fault.code),
        None => written,
    }
}

impl<D: BlockDevice> BlockDevice for FailingDevice<D> {
    ghost told = { λ d. d };

    fn block_size(&self) -> u64 {
        self.device.block_size()
    }

    fn blocks(&self) -> u64 {
        self.device.blocks()
    }

    fn faults(&self) -> u64 {
        self.faults.saturating_add(self.flush_faults)
    }

    fn calls(&self) -> u64 {
        self.calls
    }

    fn flushes(&self) -> u64 {
        self.flushes
    }

    #[tactic(auto, using(blockdev::proofs::DurableLemmas::settles_kept))]
    fn read(&mut self, block: BlockNo, out: &mut [u8]) -> Result<(), ErrCode> {
        if self.calls == u64::MAX {
            return Err(ErrCode::IO);
        }
        self.calls += 1;
        let read = match fault_now(&mut self.choice, &self.log) {
            Some(fault) => Err(fault.code),
            None => self.device.read(block, out),
        };
        if let Err(code) = read {
            self.faults += 1;
            self.log.set(self.log.get().with_read(code));
        }
        read
    }

    #[tactic(auto, using(blockdev::proofs::DurableLemmas::settles_kept))]
    fn write(&mut self, block: BlockNo, bytes: &[u8]) -> Result<(), ErrCode> {
        if self.calls == u64::MAX {
            return Err(ErrCode::IO);
        }
        self.calls += 1;
        let fault = fault_now(&mut self.choice, &self.log);
        let written = if keeps_old(&fault) {
            Err(ErrCode::IO)
        } else {
            self.device.write(block, bytes)
        };
        let answer = answer_of(&fault, written);
        if let Err(code) = answer {
            self.faults += 1;
            self.log.set(self.log.get().with_write(code));
        }
        answer
    }

    #[tactic(auto, using(blockdev::proofs::DurableLemmas::settles_kept))]
    fn flush(&mut self) -> Result<(), ErrCode> {
        if self.flushes == u64::MAX {
            return Err(ErrCode::IO);
        }
        self.flushes += 1;
        let flushed = match fault_now(&mut self.choice, &self.log) {
            Some(fault) => Err(fault.code),
            None => self.device.flush(),
        };
        if let Err(code) = flushed {
            self.flush_faults += 1;
            self.log.set(self.log.get().with_flush(code));
        }
        flushed
    }
}
