//! A file of several chunks that is cut and grows again, beside a `Vec` of its bytes that is cut and grows alike.

use crate::checks::{check, same};
use crate::tests::{opened, read, truncated, wrote};
use pc_types::Refusal;
use std::alloc::Global;
use std::process::Abort;
use std::test::Fail;
use trail::{FullTrail, Trail, first_odd};

/// The bytes of a chunk.
const CHUNK: usize = 4096;

/// A history of one file, and the bytes of the file after it.
#[derive(Drop)]
struct History {
    trail: FullTrail,
    bytes: Vec<u8>,
}

impl History {
    fn new(alloc: Global) -> Result<History, Refusal> {
        let mut trail = FullTrail::new(alloc, 64, 1 << 20)?;
        opened(&mut trail);
        Ok(History {
            trail,
            bytes: Vec::new(alloc),
        })
    }

    // Adds a read of the whole file.
    fn read(&mut self, alloc: Global) {
        read(alloc, &mut self.trail, 0, 1 << 20, self.bytes.as_slice());
    }

    // Adds a truncation, and a read after it.
    fn cut(&mut self, alloc: Global, size: usize) -> Result<(), Refusal> {
        truncated(&mut self.trail, size as u64);
        self.bytes.resize(size, 0)?;
        self.read(alloc);
        Ok(())
    }

    // Adds a write that is past the end, and a read after it.
    fn write(&mut self, alloc: Global, offset: usize, bytes: &[u8]) -> Result<(), Refusal> {
        wrote(alloc, &mut self.trail, offset as u64, bytes);
        self.bytes.resize(offset, 0)?;
        self.bytes.extend_from_slice(bytes)?;
        self.read(alloc);
        Ok(())
    }
}

// Bytes that are no zeros, and no two chunks of which are alike.
fn some_bytes(alloc: Global, count: usize) -> Result<Vec<u8>, Refusal> {
    let mut bytes = Vec::new(alloc);
    for at in 0..count {
        bytes.push((at % 251 + 1) as u8)?;
    }
    Ok(bytes)
}

fn is_cut_at(rt: &impl Abort, alloc: Global, sizes: &[usize]) -> Result<(), Refusal> {
    let mut history = History::new(alloc)?;
    let bytes = some_bytes(alloc, 5 * CHUNK + 100)?;
    history.write(alloc, 0, bytes.as_slice())?;
    for size in sizes.iter() {
        history.cut(alloc, *size)?;
    }
    history.write(alloc, 7 * CHUNK - 2, &[1, 2, 3, 4])?;
    history.cut(alloc, 7 * CHUNK - 1)?;
    history.cut(alloc, 8 * CHUNK)?;
    same(rt, history.trail.count(), 2 * sizes.len() as u64 + 10);
    same(rt, first_odd(alloc, &history.trail)?, None);
    Ok(())
}

// No chunk goes where the cut is in the last chunk or past the end, and one or several where it is before.
#[test]
fn cuts_take_the_bytes_past_them(rt: HostRuntime) -> Result<(), Fail> {
    let alloc = rt.alloc();
    let inside = [5 * CHUNK + 99, 5 * CHUNK + 1, 5 * CHUNK, 6 * CHUNK];
    check(&rt, is_cut_at(&rt, alloc, &inside).is_ok());
    let one = [5 * CHUNK - 1, 5 * CHUNK, 4 * CHUNK, 3 * CHUNK + 7];
    check(&rt, is_cut_at(&rt, alloc, &one).is_ok());
    let several = [2 * CHUNK + 7, 5 * CHUNK, 2 * CHUNK, CHUNK, 5 * CHUNK];
    check(&rt, is_cut_at(&rt, alloc, &several).is_ok());
    let all = [7 * CHUNK, 0, 6 * CHUNK, 1, 0];
    check(&rt, is_cut_at(&rt, alloc, &all).is_ok());
    Ok(())
}

// A read of a byte of a chunk that went, after the file grew again.
fn first_odd_where(alloc: Global, size: usize, byte: u8) -> Result<Option<u64>, Refusal> {
    let mut history = History::new(alloc)?;
    let bytes = some_bytes(alloc, 5 * CHUNK)?;
    history.write(alloc, 0, bytes.as_slice())?;
    history.cut(alloc, size)?;
    history.cut(alloc, 5 * CHUNK)?;
    read(alloc, &mut history.trail, 4 * CHUNK as u64, 1, &[byte]);
    first_odd(alloc, &history.trail)
}

#[test]
fn chunks_that_went_stay_gone(rt: HostRuntime) -> Result<(), Fail> {
    let alloc = rt.alloc();
    let old = (4 * CHUNK % 251 + 1) as u8;
    for size in [0, CHUNK, 2 * CHUNK + 7, 4 * CHUNK] {
        check(&rt, matches!(first_odd_where(alloc, size, 0), Ok(None)));
        check(
            &rt,
            matches!(first_odd_where(alloc, size, old), Ok(Some(8))),
        );
    }
    Ok(())
}
