//! A lock whose holds are short.

use std::hint::spin_loop;
use std::sync::{Mutex, MutexGuard, Wait};

// How often one who waits looks whether the lock is free, before it sleeps.
const LOOKS: u32 = 20;

// The pauses before the first look.
const FIRST_PAUSES: u32 = 64;

// The most pauses between two looks.
const MOST_PAUSES: u32 = 1_024;

/// A lock that is held for a call on what lies under it, and never while a device works.
///
/// Most such holds take less than a microsecond, but to sleep and be woken by the kernel takes ten and more. Once one thread sleeps each
/// release goes to the kernel to wake it, and who comes next finds the lock held and sleeps too. So a thread that finds it held looks
/// again for some tens of microseconds, and sleeps only then. It pauses longer and longer between: a look takes the lock's line from
/// its holder, and what lies under the lock moves to another processor with each hand-over, which costs as much as a hold.
#[derive(Drop)]
pub(crate) struct BriefLock<T> {
    mutex: Mutex<T>,
}

impl<T> BriefLock<T> {
    pub(crate) fn new(value: T) -> BriefLock<T> {
        BriefLock {
            mutex: Mutex::new(value),
        }
    }

    /// What lies under it.
    pub(crate) fn into_inner(self) -> T {
        self.mutex.into_inner()
    }

    /// Takes the lock.
    #[inline]
    pub(crate) fn lock<R: Wait>(&self, rt: &R) -> MutexGuard<'_, T> {
        match self.mutex.try_lock() {
            Some(guard) => guard,
            None => self.lock_held(rt),
        }
    }

    /// Takes the lock, which another holds.
    #[inline(never)]
    fn lock_held<R: Wait>(&self, rt: &R) -> MutexGuard<'_, T> {
        let mut pauses = FIRST_PAUSES;
        for _ in 0..LOOKS {
            pause(pauses);
            if let Some(guard) = self.mutex.try_lock() {
                return guard;
            }
            pauses = pauses.saturating_mul(2).min(MOST_PAUSES);
        }
        self.mutex.lock(rt)
    }
}

fn pause(times: u32) {
    for _ in 0..times {
        spin_loop();
    }
}
