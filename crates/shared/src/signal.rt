//! What wakes workers that have nothing to do.

use std::sync::atomic::{AtomicBool, AtomicU64, Ordering};
use std::sync::{Condvar, Mutex, Wait};

/// Counts the moments at which there may be work, and wakes those who sleep till the next one.
///
/// Who looks for work reads the count first, and sleeps only where the count is still the same. So work that comes in between is not
/// missed, whatever it is and whichever lock it lies under (decision 137).
#[derive(Drop)]
pub(crate) struct Signal {
    count: AtomicU64,
    // somebody may sleep whom no giver has taken upon itself to wake
    is_awaited: AtomicBool,
    is_stopped: AtomicBool,
    door: Mutex<u8>,
    given: Condvar,
}

impl Signal {
    pub(crate) fn new() -> Signal {
        Signal {
            count: AtomicU64::new(0),
            is_awaited: AtomicBool::new(false),
            is_stopped: AtomicBool::new(false),
            door: Mutex::new(0),
            given: Condvar::new(),
        }
    }

    pub(crate) fn count(&self) -> u64 {
        self.count.load(Ordering::SeqCst)
    }

    pub(crate) fn is_stopped(&self) -> bool {
        self.is_stopped.load(Ordering::SeqCst)
    }

    /// There may be work. One giver alone wakes those who may have gone to sleep: others that come before they run take no lock and call
    /// no kernel, since who is woken looks for work in any case.
    pub(crate) fn give<R: Wait>(&self, rt: &R) {
        self.count.fetch_add(1, Ordering::SeqCst);
        // Looked at first, since most often nobody sleeps: a look is cheaper than a swap.
        if self.is_awaited.load(Ordering::SeqCst) && self.is_awaited.swap(false, Ordering::SeqCst) {
            // Taken before the door is locked: who set it before keeps the door locked till it sleeps, and who sets it after that finds the
            // count raised, if it looked for work before.
            drop(self.door.lock(rt));
            self.given.notify_all();
        }
    }

    /// Sleeps till the signal is given again, where it wasn't since this count was read.
    pub(crate) fn wait<R: Wait>(&self, rt: &R, seen: u64) {
        let door = self.door.lock(rt);
        // Before the count is compared: who raises it after that finds this, or another has taken it, who wakes.
        self.is_awaited.store(true, Ordering::SeqCst);
        if self.count() == seen {
            drop(self.given.wait(rt, door));
        }
    }

    /// Tells all workers to stop, those who sleep too.
    pub(crate) fn stop<R: Wait>(&self, rt: &R) {
        self.is_stopped.store(true, Ordering::SeqCst);
        self.give(rt);
    }
}
