//! Rows with two threads.

use crate::caller::{Caller, Opened, PAGE, Tested, UNTOUCHED};
use crate::turnstile::Turnstile;
use shared::shards::naming::ShardNaming;
use std::sync::Wait;
use std::thread;
use std::thread::Threads;

/// How often a thread writes and reads.
const ROUNDS: u64 = 100;

/// A read in shard 1 is answered while another thread holds the lock of shard 0, in which its entry waits before the turnstile.
pub(crate) fn overlaps<B: ShardNaming + Send + Sync, R: Threads + Wait + Sync>(
    rt: &R,
    cache: &Tested<'_, B>,
    turnstile: &Turnstile,
    first: &mut Caller<B>,
    second: &mut Caller<B>,
) -> bool {
    let Some(file) = second.makes(rt, cache, 1) else {
        return false;
    };
    let is_written = second.writes_page(rt, cache, &file, 0);
    turnstile.shut();
    let (is_made, is_read) = thread::join(
        rt,
        || first.creates(rt, cache, 0).is_some(),
        || reads_meanwhile(rt, cache, turnstile, second, &file),
    );
    is_written && is_made && is_read
}

/// Reads once another thread stands before the turnstile, and lets it go on then. Answers whether it still stood there.
fn reads_meanwhile<B: ShardNaming, R: Wait>(
    rt: &R,
    cache: &Tested<'_, B>,
    turnstile: &Turnstile,
    caller: &mut Caller<B>,
    file: &Opened<B>,
) -> bool {
    let has_come = turnstile.wait_for_a_call();
    let is_read = caller.reads_page(rt, cache, file, 0);
    has_come && is_read && turnstile.open()
}

/// Two threads write and read in two shards, each a file of its own.
pub(crate) fn work_apart<B: ShardNaming + Send + Sync, R: Threads + Wait + Sync>(
    rt: &R,
    cache: &Tested<'_, B>,
    first: &mut Caller<B>,
    second: &mut Caller<B>,
) -> bool {
    let (Some(mine), Some(other)) = (first.makes(rt, cache, 0), second.makes(rt, cache, 2)) else {
        return false;
    };
    let (one, two) = thread::join(
        rt,
        move || writes_and_reads(rt, cache, first, &mine, 0xaa, 0xaa),
        move || writes_and_reads(rt, cache, second, &other, 0xbb, 0xbb),
    );
    one && two
}

/// Two threads write and read one page of one file.
pub(crate) fn share_a_file<B: ShardNaming + Send + Sync, R: Threads + Wait + Sync>(
    rt: &R,
    cache: &Tested<'_, B>,
    first: &mut Caller<B>,
    second: &mut Caller<B>,
) -> bool {
    let Some(mine) = first.makes(rt, cache, 1) else {
        return false;
    };
    let number = cache.file_of(&mine.handle);
    let Some(other) = second.opens(rt, cache, number) else {
        return false;
    };
    let (one, two) = thread::join(
        rt,
        move || writes_and_reads(rt, cache, first, &mine, 0xaa, 0xbb),
        move || writes_and_reads(rt, cache, second, &other, 0xbb, 0xaa),
    );
    one && two
}

/// Writes its byte all over the page and reads the page, over and over: what is read is that, or the byte of the other thread, whole.
fn writes_and_reads<B: ShardNaming, R: Wait>(
    rt: &R,
    cache: &Tested<'_, B>,
    caller: &mut Caller<B>,
    file: &Opened<B>,
    own: u8,
    other: u8,
) -> bool {
    for _ in 0..ROUNDS {
        let mut out = [UNTOUCHED; PAGE];
        let wrote = caller.writes(rt, cache, file, 0, &[own; PAGE]);
        let read = cache.pread(rt, &mut caller.seat, &file.handle, 0, &mut out);
        let is_whole = out == [own; PAGE] || out == [other; PAGE];
        if wrote.is_none() || read.is_err() || !is_whole {
            return false;
        }
    }
    true
}
