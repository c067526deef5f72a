//! A request's device call: asked for by a job, made once, and told by what is finished.

ghost use Rattle.std.specs.Prelude.{◌≡◌, ◌<◌, length};
ghost use Rattle.blockdev.specs.Jobs.{Performs};

use crate::buffer::Buffer;
use crate::device::BlockDevice;
use pc_types::{BlockNo, ErrCode, Kind, Serial};
use std::marker::Model;

/// What the device call of a request needs, so that it can be made where the cache is not at hand.
///
/// A job that is dropped leaves its request in flight for good, since only a `Finished` ends one; its buffer is lost with it.
#[derive(Drop, Debug)]
pub struct Job {
    cache: u64,
    serial: Serial,
    kind: Kind,
    block: BlockNo,
    buffer: Buffer,
}

impl Model for Job {
    ghost use Rattle.blockdev.specs.Jobs.{Task};

    ghost Value = { Task };

    ghost view = { λ j. record { cache = j.cache; serial = j.serial.0; kind = j.kind; block = j.block.0; bytes = j.buffer } };
}

impl Job {
    /// The job of a request of the cache with this name. A fill's buffer is for the block's bytes, and a flush's has those
    /// to be written.
    pub fn new(cache: u64, serial: Serial, kind: Kind, block: BlockNo, buffer: Buffer) -> Job
        ensures { result ≡ record { cache = cache; serial = serial.0; kind = kind; block = block.0; bytes = buffer } }
    {
        Job {
            cache,
            serial,
            kind,
            block,
            buffer,
        }
    }

    /// The name of the request's cache.
    pub fn cache(&self) -> u64
        ensures { result ≡ self.now.cache }
    {
        self.cache
    }

    pub fn serial(&self) -> Serial
        ensures { result.0 ≡ self.now.serial }
    {
        self.serial
    }

    pub fn kind(&self) -> Kind
        ensures { result ≡ self.now.kind }
    {
        self.kind
    }

    pub fn block(&self) -> BlockNo
        ensures { result.0 ≡ self.now.block }
    {
        self.block
    }

    /// The bytes of its buffer.
    pub fn bytes(&self) -> &[u8]
        ensures { result.now ≡ self.now.bytes }
    {
        self.buffer.as_slice()
    }
}

/// A job whose device call was made, to end its request with. `perform` alone makes one.
#[derive(Drop, Debug)]
pub struct Finished {
    job: Job,
    outcome: Result<(), ErrCode>,
}

impl Model for Finished {
    ghost use Rattle.blockdev.specs.Jobs.{FinishedTask};

    ghost Value = { FinishedTask };

    ghost view = { λ f. record { cache = f.job.cache; serial = f.job.serial; kind = f.job.kind; block = f.job.block; bytes = f.job.bytes; outcome = f.outcome } };
}

/// What a `Finished` is taken apart into.
#[derive(Drop, Debug)]
pub struct FinishedParts {
    pub cache: u64,
    pub serial: Serial,
    pub kind: Kind,
    pub block: BlockNo,
    pub buffer: Buffer,
    pub outcome: Result<(), ErrCode>,
}

impl Finished {
    /// The name of the request's cache.
    pub fn cache(&self) -> u64
        ensures { result ≡ self.now.cache }
    {
        self.job.cache()
    }

    pub fn serial(&self) -> Serial
        ensures { result.0 ≡ self.now.serial }
    {
        self.job.serial()
    }

    pub fn kind(&self) -> Kind
        ensures { result ≡ self.now.kind }
    {
        self.job.kind()
    }

    pub fn block(&self) -> BlockNo
        ensures { result.0 ≡ self.now.block }
    {
        self.job.block()
    }

    /// How the device call went.
    pub fn outcome(&self) -> Result<(), ErrCode>
        ensures { result ≡ self.now.outcome }
    {
        self.outcome
    }

    /// Takes it apart, so that a buffer comes back to be used again.
    pub fn into_parts(self) -> FinishedParts
        ensures { result ≡ record { cache = self.cache; serial = record { 0 = self.serial }; kind = self.kind; block = record { 0 = self.block }; buffer = self.bytes; outcome = self.outcome } }
    {
        let Job {
            cache,
            serial,
            kind,
            block,
            buffer,
        } = self.job;
        FinishedParts {
            cache,
            serial,
            kind,
            block,
            buffer,
            outcome: self.outcome,
        }
    }
}

/// Makes the job's device call, exactly one: a read into the buffer for a fill, a write from it for a flush. It takes no
/// memory.
pub fn perform<D: BlockDevice>(device: &mut D, mut job: Job) -> Finished
    requires exists { job.block < (D.told device.old).count }
    requires size { length job.bytes ≡ (D.told device.old).size }
    ensures { Performs (D.told device.old) job result (D.told device.new) }
{
    let outcome = match job.kind {
        Kind::Fill => device.read(job.block, job.buffer.as_mut_slice()),
        Kind::Flush => device.write(job.block, job.buffer.as_slice()),
    };
    Finished { job, outcome }
}
