//! Bytes in memory that are copied: what the reads of a cache are compared with.

ghost use Rattle.std.specs.Prelude.{◌+◌, ◌≤◌, IfOk, length};

use crate::round::{PAGE, Round, Store, Timed};
use bench_timing::Fault;
use std::sync::Wait;
use std::thread::Threads;
use std::time::Clock;

/// Buffers, one a thread.
#[derive(Drop)]
struct Plain;

/// Where so many bytes begin: at `offset`, or before it if there are fewer behind it.
#[inline(always)]
fn place(buffer: &[u8], offset: u64, count: usize) -> Result<usize, Fault>
    ensures { IfOk result (λ at. at + count ≤ length buffer.now) }
{
    match buffer.len().checked_sub(count) {
        Some(last) => Ok(last.min(offset as usize)),
        None => Err(Fault::Odd),
    }
}

impl Store for Plain {
    type File = Vec<u8>;

    fn write<R: Wait>(
        &self,
        _rt: &R,
        file: &mut Vec<u8>,
        offset: u64,
        bytes: &[u8],
    ) -> Result<(), Fault> {
        let at = place(file, offset, bytes.len())?;
        file[at..at + bytes.len()].copy_from_slice(bytes);
        Ok(())
    }

    #[inline(always)]
    fn read<R: Wait>(
        &self,
        _rt: &R,
        file: &mut Vec<u8>,
        offset: u64,
        out: &mut [u8],
    ) -> Result<u64, Fault> {
        let at = place(file, offset, out.len())?;
        out.copy_from_slice(&file[at..at + out.len()]);
        Ok(out.len() as u64)
    }
}

/// Times a round of copies out of buffers.
pub fn time_copies<R: Threads + Wait + Clock + Sync>(
    rt: &R,
    round: Round<'_>,
) -> Result<Timed, Fault> {
    let size = (round.file_pages() * PAGE) as usize;
    let mut buffers = Vec::new(round.alloc);
    for _ in 0..round.who.threads() {
        let buffer = vec![in round.alloc; 0; size]?;
        if buffers.push(buffer).is_err() {
            return Err(Fault::Memory);
        }
    }
    round.time(rt, &Plain, buffers)
}
