//! Writes that wait for the program, the block that it is to read, and the flush that it is to make.

ghost use Rattle.std.specs.Prelude.{◌≡◌, ◌≢◌, ◌++◌, ◌∷◌, [], true, false, length, Some, None, Ok, Err, IfOk, IfErr, IfSome, IsTrue, OnErr, OnOk};
ghost use Rattle.pc_types.specs.declared.refusal.Refusal.TheVariants.{Stranger};
ghost use Rattle.pc_types.specs.Limits.{is_err_code};
ghost use Rattle.relay.specs.Queue.{empty_queue, ended, next_task};

use pc_types::{BlockNo, ErrCode, Refusal};
use std::alloc::Global;
use std::collections::VecDeque;
use std::marker::Model;

/// The code with which a call fails that waits for the program: `EAGAIN`. It is to make its tasks, and then to call again.
pub const AGAIN: u16 = 11;

/// The code of a write for whose bytes there is no memory: `ENOMEM`.
const NO_MEMORY: u16 = 12;

/// What the program is to do.
#[derive(Clone, Copy, PartialEq, Eq, Debug)]
pub enum Task {
    Read(BlockNo),
    Write(BlockNo),
    Flush,
}

/// The bytes of one block.
#[derive(Drop, Debug)]
pub(crate) struct Block {
    number: u32,
    bytes: Vec<u8>,
}

impl Model for Block {
    ghost use Rattle.std.specs.Prelude.{ℕ, List};

    ghost Value = { ℕ × List ℕ };

    ghost view = { λ b. (b.number, b.bytes.items) };
}

impl Block {
    fn copy_of(alloc: Global, number: BlockNo, bytes: &[u8]) -> Result<Block, Refusal>
        ensures { IfOk result (λ b. b ≡ (number.0, bytes.now)) }
    {
        let bytes = bytes.to_vec(alloc)?;
        Ok(Block {
            number: number.0,
            bytes,
        })
    }

    /// Whether the bytes fill `out`, and then they are put there.
    fn put_into(&self, out: &mut [u8]) -> bool
        ensures put { result ≡ true → out.new ≡ self.now.1 }
        ensures kept { result ≡ false → out.new ≡ out.old }
        ensures fits { length out.old ≡ length self.now.1 → result ≡ true }
    {
        if self.bytes.len() != out.len() {
            return false;
        }
        out.copy_from_slice(&self.bytes);
        true
    }
}

/// The device puts writes in at one end, and asks for reads and flushes; the program takes the next task at the other, and tells its end.
///
/// Writes are made in the order in which they came. One that failed stays the next, with its bytes.
#[derive(Drop)]
pub struct Queue {
    alloc: Global,
    // the oldest first
    writes: VecDeque<Block>,
    wanted: Option<u32>,
    fetched: Option<Block>,
    unread: Option<(u32, ErrCode)>,
    is_asked: bool,
    is_flushed: bool,
    failure: Option<ErrCode>,
    broken: Option<ErrCode>,
}

impl Model for Queue {
    ghost use Rattle.relay.specs.Queue.{QueueSeen};

    ghost Value = { QueueSeen };

    ghost view = { λ q. record { writes = q.writes.items; wanted = q.wanted; fetched = q.fetched; unread = q.unread; is_asked = q.is_asked; is_flushed = q.is_flushed; failure = q.failure; broken = q.broken } };
}

impl Queue {
    /// Without tasks. Whatever the device was before, it was not flushed.
    pub fn new(alloc: Global) -> Queue
        ensures { result ≡ empty_queue }
    {
        Queue {
            alloc,
            writes: VecDeque::new(alloc),
            wanted: None,
            fetched: None,
            unread: None,
            is_asked: false,
            is_flushed: false,
            failure: None,
            broken: None,
        }
    }

    /// How many writes wait.
    pub fn waiting(&self) -> u64
        ensures { result ≡ length self.now.writes }
    {
        self.writes.len() as u64
    }

    /// What the program is to do next: a read before writes, and a flush once no write waits.
    pub fn next(&self) -> Option<Task>
        ensures { result ≡ next_task self.now }
    {
        if let Some(block) = self.wanted {
            return Some(Task::Read(BlockNo(block)));
        }
        if let Some(write) = self.writes.front() {
            return Some(Task::Write(BlockNo(write.number)));
        }
        if self.is_asked {
            Some(Task::Flush)
        } else {
            None
        }
    }

    /// Puts the bytes of the oldest write into `out`. Refused by `Stranger` where none waits, or `out` has another length.
    pub fn copy_next(&self, out: &mut [u8]) -> Result<(), Refusal>
        ensures bytes { OnOk result (self.now.writes ≢ []) }
        ensures kept { OnErr result (out.new ≡ out.old) }
    {
        match self.writes.front() {
            Some(write) if write.bytes.len() == out.len() => {
                out.copy_from_slice(&write.bytes);
                Ok(())
            }
            _ => Err(Refusal::Stranger),
        }
    }

    /// Takes in how the program's task ended, and what a read gave. Refused by `Stranger` where the task is not the next, and by `Memory`
    /// where there is no room for a read's bytes; nothing changes then.
    pub fn end(
        &mut self,
        task: Task,
        bytes: &[u8],
        outcome: Result<(), ErrCode>,
    ) -> Result<(), Refusal>
        ensures another { next_task self.old ≢ Some task → result ≡ Err Stranger }
        ensures ended { OnOk result (self.new ≡ ended self.old task bytes.now outcome) }
        ensures kept { OnErr result (self.new ≡ self.old) }
    {
        if self.next() != Some(task) {
            return Err(Refusal::Stranger);
        }
        match (task, outcome) {
            (Task::Read(block), Ok(())) => {
                self.fetched = Some(Block::copy_of(self.alloc, block, bytes)?);
                self.wanted = None;
            }
            (Task::Read(block), Err(code)) => {
                self.unread = Some((block.0, code));
                self.wanted = None;
            }
            (Task::Write(_), Ok(())) => {
                let _ = self.writes.pop_front();
            }
            (Task::Write(_), Err(code)) => self.failure = Some(code),
            (Task::Flush, Ok(())) => {
                self.is_asked = false;
                self.is_flushed = true;
            }
            (Task::Flush, Err(code)) => {
                self.is_asked = false;
                self.broken = Some(code);
            }
        }
        Ok(())
    }
}

fn code(number: u16) -> ErrCode
    ensures { IsTrue (is_err_code number) → result ≡ number }
{
    ErrCode::new(number).unwrap_or(ErrCode::IO)
}

impl Queue {
    /// The newest write of the block that waits.
    fn newest(&self, block: u32) -> Option<&Block>
        ensures { IfSome result (λ w. w.now.0 ≡ block) }
    {
        self.writes.iter().rev().find(|write| write.number == block)
    }

    /// Whether the bytes of a block were put into `out`: those of the newest write of it that waits, or those that the program read.
    fn take_bytes(&mut self, block: u32, out: &mut [u8]) -> bool
        ensures kept { result ≡ false → out.new ≡ out.old }
        ensures writes { self.new.writes ≡ self.old.writes }
    {
        if let Some(write) = self.newest(block) {
            return write.put_into(out);
        }
        match self.fetched.take() {
            Some(read) if read.number == block => read.put_into(out),
            _ => false,
        }
    }

    /// Reads a block that waits to be written, or that the program has read. Fails with the code that the program's read failed with, and
    /// else with `AGAIN`, and then asks the program to read it.
    pub(crate) fn read(&mut self, block: BlockNo, out: &mut [u8]) -> Result<(), ErrCode>
        ensures kept { OnErr result (out.new ≡ out.old) }
        ensures writes { self.new.writes ≡ self.old.writes }
    {
        if self.take_bytes(block.0, out) {
            return Ok(());
        }
        match self.unread.take() {
            Some((number, code)) if number == block.0 => Err(code),
            _ => {
                self.wanted = Some(block.0);
                Err(code(AGAIN))
            }
        }
    }

    /// Takes a write in. Fails where there is no room for its bytes.
    pub(crate) fn write(&mut self, block: BlockNo, bytes: &[u8]) -> Result<(), ErrCode>
        ensures written { OnOk result (self.new.writes ≡ self.old.writes ++ (block.0, bytes.now) ∷ []) }
        ensures kept { OnErr result (self.new.writes ≡ self.old.writes) }
        ensures unflushed { OnOk result (self.new.is_flushed ≡ false) }
        ensures unread { OnOk result ((self.new.wanted ≡ None) × (self.new.fetched ≡ None)) }
    {
        let Ok(write) = Block::copy_of(self.alloc, block, bytes) else {
            return Err(code(NO_MEMORY));
        };
        if self.writes.push_back(write).is_err() {
            return Err(code(NO_MEMORY));
        }
        // What the program reads now, or has read, may be of the block as it was.
        self.wanted = None;
        self.fetched = None;
        self.unread = None;
        self.is_flushed = false;
        Ok(())
    }

    /// Tells whether all is durable: every write was made, and then a flush ended well. Else it fails, and asks the program for a flush; or
    /// it tells of a write that failed since the last that told. After a flush that failed, all fail with its code.
    pub(crate) fn flush(&mut self) -> Result<(), ErrCode>
        ensures durable { OnOk result ((self.old.writes ≡ []) × (self.old.is_flushed ≡ true) × (self.old.broken ≡ None) × (self.old.failure ≡ None)) }
        ensures writes { self.new.writes ≡ self.old.writes }
    {
        if let Some(code) = self.broken {
            return Err(code);
        }
        if let Some(code) = self.failure.take() {
            return Err(code);
        }
        if self.writes.is_empty() && self.is_flushed {
            return Ok(());
        }
        self.is_asked = true;
        Err(code(AGAIN))
    }
}
