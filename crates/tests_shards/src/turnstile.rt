//! Where a call waits till another thread lets it go on.

use std::sync::atomic::{AtomicU64, Ordering};
use std::thread;

/// How often a thread that waits for a call looks, and a call that waits to be let through, at most.
const TURNS: u64 = 1_000_000;

/// It lets every call through.
const OPEN: u64 = 0;

/// It holds the next call.
const SHUT: u64 = 1;

/// A call stands before it.
const HOLDS: u64 = 2;

/// A call stood before it for too long, and went on.
const GIVEN_UP: u64 = 3;

/// Where a device call waits till a thread lets it go on.
#[derive(Drop)]
pub(crate) struct Turnstile {
    stage: AtomicU64,
}

impl Turnstile {
    pub(crate) fn new() -> Turnstile {
        Turnstile {
            stage: AtomicU64::new(OPEN),
        }
    }

    /// Holds the next call.
    pub(crate) fn shut(&self) {
        self.stage.store(SHUT, Ordering::SeqCst);
    }

    /// Waits for a call that stands before it. Answers whether one came.
    pub(crate) fn wait_for_a_call(&self) -> bool {
        self.wait_till(HOLDS)
    }

    /// Lets the call that stands before it go on. Answers whether it still stood there.
    pub(crate) fn open(&self) -> bool {
        self.stage
            .compare_exchange(HOLDS, OPEN, Ordering::SeqCst, Ordering::SeqCst)
            .is_ok()
    }

    /// A call comes: if it is to be held it waits till it may go on, or gives up.
    pub(crate) fn pass(&self) {
        if self.stage.load(Ordering::SeqCst) == SHUT {
            self.stage.store(HOLDS, Ordering::SeqCst);
            if !self.wait_till(OPEN) {
                self.stage.store(GIVEN_UP, Ordering::SeqCst);
            }
        }
    }

    /// Waits till it is at this stage. Answers whether it came to that.
    fn wait_till(&self, stage: u64) -> bool {
        for _ in 0..TURNS {
            if self.stage.load(Ordering::SeqCst) == stage {
                return true;
            }
            thread::yield_now();
        }
        false
    }
}
