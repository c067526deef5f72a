//! The jobs of a cache whose device's calls C makes.

ghost use Rattle.std.specs.Prelude.{◌≡◌, None};
ghost use Rattle.pcache_c.specs.Answers.{bad_handle};

use crate::answers::{no_cache, refused};
use crate::held::Held;
use pc_types::{BlockNo, ErrCode, Refusal};
use relay::Task;
use std::alloc::Global;

const NO_JOB: i64 = 0;

const READ: u32 = 1;

const WRITE: u32 = 2;

const FLUSH: u32 = 3;

/// The task of this kind, for this block.
fn task_of(kind: u32, block: u64) -> Option<Task> {
    let number = BlockNo(u32::try_from(block).ok()?);
    match kind {
        READ => Some(Task::Read(number)),
        WRITE => Some(Task::Write(number)),
        FLUSH => Some(Task::Flush),
        _ => None,
    }
}

/// The task's kind and block.
fn parts_of(task: Task) -> (u32, u64) {
    match task {
        Task::Read(block) => (READ, u64::from(block.0)),
        Task::Write(block) => (WRITE, u64::from(block.0)),
        Task::Flush => (FLUSH, 0),
    }
}

/// How a call ended, by its error code, or 0. A code that is none counts as an input or output error.
fn outcome_of(code: u32) -> Result<(), ErrCode> {
    if code == 0 {
        return Ok(());
    }
    let code = u16::try_from(code).unwrap_or(0);
    Err(ErrCode::new(code).unwrap_or(ErrCode::IO))
}

/// The next job's kind, or 0 where there is none. Its block is put into `block`, and the bytes of a write into `bytes`, which are as many
/// as a page has.
#[unsafe(no_mangle)]
pub extern "C" fn pcache_next(
    alloc: Global,
    held: &mut Held,
    block: &mut u64,
    bytes: &mut [u8],
) -> i64
    ensures none { held.old.value ≡ None → (result ≡ bad_handle) × (held.new.value ≡ None) }
    ensures kept { held.new.value ≡ held.old.value }
{
    *block = 0;
    let Some(cache) = held.take_out(alloc) else {
        return no_cache();
    };
    let next = cache.next(bytes);
    held.put_in(alloc, cache);
    match next {
        Ok(Some(task)) => {
            let (kind, number) = parts_of(task);
            *block = number;
            i64::from(kind)
        }
        Ok(None) => NO_JOB,
        Err(refusal) => refused(refusal),
    }
}

/// Takes in how the next job ended: by an error code, or 0. A read that went well gives its bytes.
#[unsafe(no_mangle)]
pub extern "C" fn pcache_end(
    alloc: Global,
    held: &mut Held,
    kind: u32,
    block: u64,
    bytes: &[u8],
    code: u32,
) -> i64
    ensures none { held.old.value ≡ None → (result ≡ bad_handle) × (held.new.value ≡ None) }
    ensures kept { held.new.value ≡ held.old.value }
{
    let Some(mut cache) = held.take_out(alloc) else {
        return no_cache();
    };
    let done = match task_of(kind, block) {
        Some(task) => cache.end(task, bytes, outcome_of(code)),
        None => Err(Refusal::Stranger),
    };
    held.put_in(alloc, cache);
    match done {
        Ok(()) => 0,
        Err(refusal) => refused(refusal),
    }
}
